// The lengths of cells by their neighbours, made once a call: a length depends on the zeros of the cell before, the
// cell and the cell after.
ghost use Rattle.std.specs.Prelude.{◌≡◌, ◌+◌, ◌-◌, ◌≤◌, ◌<◌};
ghost use Rattle.timing.specs.Profile.{profile_rule};
ghost use Rattle.lengths.specs.Lengths;
ghost use Rattle.lengths.specs.Neighbours.{between};

use timing::{Clocks, HalfClocks, Profile};

// The compare point of a transition between two symbols.
#[tactic(auto, unfolding(crate::specs::Lengths::point))]
fn point(p: Profile, before: bool, after: bool) -> Clocks
    ensures { result.0 ≡ Lengths.point p before after }
{
    if before == after {
        p.normal
    } else if before {
        p.early
    } else {
        p.late
    }
}

// A nominal length with the shift at its two ends, which can be below zero.
fn shifted(nominal: HalfClocks, start: HalfClocks, end: HalfClocks) -> HalfClocks
    requires { (start.0 ≤ nominal.0 + end.0) × (nominal.0 + end.0 < 65536) }
    ensures { result.0 ≡ nominal.0 + end.0 - start.0 }
{
    let shift = end.0 as i32 - start.0 as i32;
    HalfClocks((nominal.0 as i32 + shift) as u16)
}

// The length of a cell between two, each given by its zeros.
pub fn length_between(p: Profile, before: u16, zeros: u16, after: u16) -> HalfClocks
    requires p_value { (profile_rule p).number ≡ 0 }
    requires zeros_bound { zeros < 4 }
    ensures { result.0 ≡ between p (2 + before) (2 + zeros) (2 + after) }
{
    let nominal = HalfClocks(p.t1.0 + zeros * p.t0.0);
    let start = point(p, before == 0, zeros == 0);
    let end = point(p, zeros == 0, after == 0);
    shifted(nominal, start.in_half_clocks(), end.in_half_clocks())
}
