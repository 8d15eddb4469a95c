// Beyond document 02: the best windows. What holds the margin down (request (xii)) says which number to turn; this is the
// end of that walk. T1, T0, Early, Normal and Late decide every length that can be written; the other six numbers of a
// profile are chosen here so that no choice has a larger margin.
#![tactic(auto)]

ghost use Rattle.std.specs.Prelude.{◌≡◌};
ghost use Rattle.best.specs.Best.{best_answer, profile_given, best_rule, best_given};

mod trial;
mod windows;

use refusal::Refusal;
use timing::{Clocks, HalfClocks, Profile};
use trial::lowest_unset;
use windows::{best_margin, centred, has_windows};

// The five numbers that a drive writes with. Any 16-bit number can stand in each place.
#[derive(Clone, Copy, PartialEq, Eq)]
pub struct Writing {
    pub t1: HalfClocks,
    pub t0: HalfClocks,
    pub early: Clocks,
    pub normal: Clocks,
    pub late: Clocks,
}

// The largest margin, and the profile that has it.
#[derive(Clone, Copy, PartialEq, Eq)]
pub struct Best {
    pub margin: u16,
    pub profile: Profile,
}

// 1, 2; else the profile with the largest margin.
pub fn best_windows(w: Writing) -> Result<Best, Refusal>
    ensures answer { best_answer result ≡ best_rule w }
    ensures profile { profile_given result ≡ best_given w }
{
    if let Some(which) = lowest_unset(w) {
        return Err(Refusal::ProfileOutOfRange(which));
    }
    if has_windows(w) {
        let margin = best_margin(w);
        let profile = centred(w, margin);
        return Ok(Best { margin, profile });
    }
    Err(Refusal::ProfileInconsistent)
}
