// How far an interval is inside the window of its class, and the least of it over a list.
ghost use Rattle.std.specs.Prelude.{◌≡◌, ◌<◌, length};
ghost use Rattle.timing.specs.Profile.{profile_rule};
ghost use Rattle.clearance.specs.Clearance.{clearance_of, least_from, least_clearance};
ghost use Rattle.clearance.specs.machine.Nearest.{Reachable};

use crate::extremes::Extremes;
use crate::seen::Seen;
use timing::{Cursor, Profile};

// The least over the intervals of a list that has some.
fn least_from(start: Cursor, intervals: &[u16]) -> u16
    requires reachable { Reachable start }
    requires intervals_nonzero { 0 < length intervals.now }
    ensures { result ≡ least_from start intervals.now }
{
    let none = Seen {
        extremes: Extremes::none(),
        cursor: start,
    };
    let extremes = none.with_all(intervals).extremes;
    extremes.least(start.min.0, start.rpt.0)
}

// Of one interval by itself.
pub fn of_interval(p: Profile, interval: u16, two: bool) -> u16
    requires { (profile_rule p).number ≡ 0 }
    ensures { result ≡ clearance_of p two interval }
{
    let alone = [interval];
    least_from(Cursor::after(p, two), &alone)
}

// The least over a list; 0 for no interval.
pub fn of_list(p: Profile, intervals: &[u16]) -> u16
    requires { (profile_rule p).number ≡ 0 }
    ensures { result ≡ least_clearance p intervals.now }
{
    if intervals.len() == 0 {
        return 0;
    }
    least_from(Cursor::start(p), intervals)
}
