// Whether the five numbers are in range. The ranges stand in `timing`, which looks at whole profiles.
ghost use Rattle.std.specs.Prelude.{◌≡◌};
ghost use Rattle.best.specs.machine.Trial.{trial_of, lowest_unset_of};

use crate::Writing;
use timing::{Bounds, Clocks, HalfClocks, Profile};

// The five numbers with windows that are in range, so that `timing` can be asked about the five.
pub fn trial(w: Writing) -> Profile
    ensures { result ≡ trial_of w }
{
    Profile {
        t1: HalfClocks(w.t1.0),
        t0: HalfClocks(w.t0.0),
        early: Clocks(w.early.0),
        normal: Clocks(w.normal.0),
        late: Clocks(w.late.0),
        min: HalfClocks(1),
        short: Bounds {
            b23: HalfClocks(1),
            b34: HalfClocks(1),
        },
        long: Bounds {
            b23: HalfClocks(1),
            b34: HalfClocks(1),
        },
        rpt: HalfClocks(1),
    }
}

// Which of the five is the first out of range, from 1.
pub fn lowest_unset(w: Writing) -> Option<u32>
    ensures { result ≡ lowest_unset_of w }
{
    match timing::check(trial(w)) {
        Ok(()) => None,
        Err(refusal) => {
            if refusal.number() == 1 {
                return Some(refusal.place());
            }
            None
        }
    }
}
