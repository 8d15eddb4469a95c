// Reading a stream interval by interval: one pass of the reading machine, which both readers share, and one that only
// looks.
#![tactic(auto)]

ghost use Rattle.std.specs.Prelude.{◌≡◌, ◌-◌, ◌^◌, ◌≤◌, length};
ghost use Rattle.lists.specs.Filled.{stored_at};
ghost use Rattle.timing.specs.Class.{at_start};
ghost use Rattle.timing.specs.machine.Edges.{units_from};
ghost use Rattle.shifts.specs.machine.Pass.{passed};

use block::Progress;
use look::{Look, Seen, look_on};
use shifts::Pass;
use symbols::Reading;
use timing::{Cursor, Profile};

pub mod block;
mod look;
mod scan;

// The place of the last of so many intervals; 0 where there is none.
pub fn last_place(used: usize) -> u32
    requires { used ≤ 2 ^ 32 }
    ensures { result ≡ used - 1 }
{
    used.saturating_sub(1) as u32
}

// One pass, until so many bytes are whole or no interval is left, each interval taken as a cell. The code words that
// have room are stored from the front on.
pub fn pass_over(p: Profile, intervals: &[u16], most: u32, out: &mut [u16]) -> Pass
    ensures end { result ≡ (passed most (units_from (at_start p) intervals.now)).end }
    ensures output { out.new
        ≡ stored_at out.old 0 (passed most (units_from (at_start p) intervals.now)).words }
{
    let at = Progress::start(p).pass_on(intervals, intervals.len(), most, out);
    at.pass
}

// Where a pass over all intervals comes to, which are no more than bytes are wanted; no word is made.
pub fn look_over(p: Profile, intervals: &[u16], most: u32) -> Pass
    requires { length intervals.now ≤ most }
    ensures { result ≡ (passed most (units_from (at_start p) intervals.now)).end }
{
    let mut at = Look {
        seen: Seen {
            reading: Reading::new(),
            clear: true,
        },
        used: 0,
        cursor: Cursor::start(p),
    };
    while at.used < intervals.len() {
        at = look_on(at, intervals, most);
    }
    let reading = at.seen.reading;
    Pass {
        reading,
        used: at.used,
    }
}
