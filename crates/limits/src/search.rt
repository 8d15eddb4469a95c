// The lowest one-byte list with a length that crosses an edge, and the first such interval in it.
ghost use Rattle.std.specs.Prelude.{◌≤◌, ◌<◌, ◌≡◌, true, length};
ghost use Rattle.timing.specs.Profile.{profile_rule};
ghost use Rattle.limits.specs.machine.Search.{seen_from, seen_in, searched};

use crate::side::{Side, crosses, is_two};
use timing::Profile;

// A one-byte list and the interval of it that show a side.
#[derive(Clone, Copy, PartialEq, Eq)]
pub struct Evidence {
    pub item: u16,
    pub interval: u16,
}

// The first of some intervals that crosses.
fn first_seen(p: Profile, s: Side, n: u16, item: u16, intervals: &[u16]) -> Option<Evidence>
    requires { length intervals.now ≤ 10 }
    ensures { result ≡ seen_from p s n item true 0 intervals.now }
{
    let mut two = true;
    for (k, &d) in intervals.iter().enumerate() {
        if crosses(p, s, n, two, d) {
            return Some(Evidence {
                item,
                interval: k as u16,
            });
        }
        two = is_two(p, two, d);
    }
    None
}

// A byte ends eight cells at most and the closing 0s two.
fn seen_in(p: Profile, s: Side, n: u16, item: u16) -> Option<Evidence>
    requires p_value { (profile_rule p).number ≡ 0 }
    requires item_bound { item < 256 }
    ensures { result ≡ seen_in p s n item }
{
    let items = [item];
    let mut out = [0u16; 10];
    match codec::writer::write(p, &items, &mut out) {
        Err(_) => None,
        Ok(count) => first_seen(p, s, n, item, &out[..count]),
    }
}

// Of all lengths that any list can have, those nearest to the edges stand in the lists up to 1B: no side is missed.
pub fn search(p: Profile, s: Side, n: u16) -> Option<Evidence>
    requires { (profile_rule p).number ≡ 0 }
    ensures { result ≡ searched p s n }
{
    for item in 0..=0x1b {
        let seen = seen_in(p, s, n, item);
        if seen.is_some() {
            return seen;
        }
    }
    None
}
