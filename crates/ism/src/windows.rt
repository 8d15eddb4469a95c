// The best windows, for the card of a drive type.
ghost use Rattle.std.specs.Prelude.{◌≡◌};
ghost use Rattle.best.specs.Best.{writing, best_rule, best_given};
ghost use Rattle.answers.specs.Windows.{best_answer_of};

use answers::windows::IsmBest;
use best::Writing;
use timing::{Clocks, HalfClocks};

// 1, 2; else the profile with the largest margin that the five numbers allow, and that margin.
pub fn ism_best_windows(t1: u16, t0: u16, early: u16, normal: u16, late: u16) -> IsmBest
    ensures { result ≡ best_answer_of (best_rule (writing t1 t0 early normal late)) (best_given (writing t1 t0 early normal late)) }
{
    let best = best::best_windows(Writing {
        t1: HalfClocks(t1),
        t0: HalfClocks(t0),
        early: Clocks(early),
        normal: Clocks(normal),
        late: Clocks(late),
    });
    IsmBest::from(best)
}
