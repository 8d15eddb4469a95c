// The best windows, for the card of a drive type.
ghost use Rattle.std.specs.Prelude.{◌≡◌};
ghost use Rattle.best.specs.Best.{writing, best_rule, best_given};
ghost use Rattle.answers.specs.Windows.{best_answer_of};

use answers::windows::IsmBest;

// 1, 2; else the profile with the largest margin that the five numbers allow, and that margin.
#[unsafe(no_mangle)]
pub extern "C" fn ism_best_windows(t1: u16, t0: u16, early: u16, normal: u16, late: u16) -> IsmBest
    ensures { result ≡ best_answer_of (best_rule (writing t1 t0 early normal late)) (best_given (writing t1 t0 early normal late)) }
{
    ism::windows::ism_best_windows(t1, t0, early, normal, late)
}
