// The largest margin, and the windows that have it.
ghost use Rattle.std.specs.Prelude.{◌+◌, ◌<◌, ◌≡◌, true};
ghost use Rattle.best.specs.Best.{InRangeOf, swing_of, advance_of, delay_of, has_windows, best_margin, best_profile};
ghost use Rattle.best.specs.Best;

use crate::Writing;
use crate::trial::trial;
use timing::{Bounds, Clocks, HalfClocks, Profile};

// The bound in the middle between the nearest lengths on its two sides; the lower of two.
fn middle(below: u16, above: u16) -> u16
    requires { below + above < 65535 }
    ensures { result ≡ Best.middle below above }
{
    (below + above + 1) / 2
}

// The distances between the compare points, in half clocks: document 01's D, its part before Normal and its part after.
#[derive(Clone, Copy, PartialEq, Eq)]
struct Shifts {
    d: u16,
    e: u16,
    l: u16,
}

fn shifts_of(w: Writing) -> Shifts
    requires { InRangeOf w }
    ensures { result ≡ record { d = swing_of w; e = advance_of w; l = delay_of w } }
{
    let p = trial(w);
    Shifts {
        d: timing::swing(p).0,
        e: timing::advance(p).0,
        l: timing::delay(p).0,
    }
}

// Whether any windows are true.
pub fn has_windows(w: Writing) -> bool
    requires { InRangeOf w }
    ensures { result ≡ has_windows w }
{
    let s = shifts_of(w);
    (w.early.0 <= w.normal.0) & (w.normal.0 <= w.late.0) & (s.d < w.t1.0) & (s.l < w.t0.0)
}

// The largest margin that any windows have.
pub fn best_margin(w: Writing) -> u16
    requires in_range_of { InRangeOf w }
    requires w_value { has_windows w ≡ true }
    ensures { result ≡ best_margin w }
{
    let s = shifts_of(w);
    (w.t1.0 - s.d - 1).min((w.t0.0 - s.l - 1) / 2)
}

// Each bound in the middle, Min and Rpt as far out as the margin needs.
pub fn centred(w: Writing, margin: u16) -> Profile
    requires in_range_of { InRangeOf w }
    requires w_value { has_windows w ≡ true }
    requires margin_value { margin ≡ best_margin w }
    ensures { result ≡ best_profile w }
{
    let s = shifts_of(w);
    let two = w.t1.0;
    let three = w.t1.0 + w.t0.0;
    let four = w.t1.0 + 2 * w.t0.0;
    let b23_short = middle(two, three + s.e);
    let b23_long = middle(two - s.l, three);
    let b34_short = middle(three + s.d, four + s.e);
    let b34_long = middle(three + s.l, four);
    Profile {
        t1: HalfClocks(w.t1.0),
        t0: HalfClocks(w.t0.0),
        early: Clocks(w.early.0),
        normal: Clocks(w.normal.0),
        late: Clocks(w.late.0),
        min: HalfClocks(two - s.d - margin),
        short: Bounds {
            b23: HalfClocks(b23_short),
            b34: HalfClocks(b34_short),
        },
        long: Bounds {
            b23: HalfClocks(b23_long),
            b34: HalfClocks(b34_long),
        },
        rpt: HalfClocks(four + s.d + margin + 1),
    }
}
