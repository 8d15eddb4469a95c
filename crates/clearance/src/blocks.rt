// The extremes of a block of intervals. Each extreme is a number of its own and not a field of a struct: so clang, too,
// finds them in vector instructions where the C file is compiled.
ghost use Rattle.std.specs.Prelude.{◌≡◌, ◌≤◌, length};
ghost use Rattle.clearance.specs.machine.Nearest.{alike_from};
ghost use Rattle.clearance.specs.machine.Masks.{AreMasks, masked_from};

use crate::extremes::{Extremes, first, first_past, last, last_past};
use crate::masks::bounds_by;
use timing::Bounds;

// All between the same bounds.
pub fn extremes_alike(start: Extremes, bounds: Bounds, intervals: &[u16]) -> Extremes
    ensures { result ≡ alike_from start bounds intervals.now }
{
    let mut shortest = start.shortest;
    let mut longest = start.longest;
    let mut from = start.from;
    let mut below = start.below;
    for &interval in intervals {
        shortest = first(shortest, interval);
        longest = last(longest, interval);
        from = first(from, first_past(bounds, interval));
        below = last(below, last_past(bounds, interval));
    }
    Extremes {
        shortest,
        longest,
        from,
        below,
    }
}

// Each between the bounds for the mask of the one before it.
pub fn extremes_by(
    start: Extremes,
    short: Bounds,
    long: Bounds,
    intervals: &[u16],
    masks: &[u16],
) -> Extremes
    requires { (length intervals.now ≤ length masks.now) × AreMasks masks.now }
    ensures { result ≡ masked_from start short long intervals.now masks.now }
{
    let mut shortest = start.shortest;
    let mut longest = start.longest;
    let mut from = start.from;
    let mut below = start.below;
    for (k, &interval) in intervals.iter().enumerate() {
        let bounds = bounds_by(masks[k], short, long);
        shortest = first(shortest, interval);
        longest = last(longest, interval);
        from = first(from, first_past(bounds, interval));
        below = last(below, last_past(bounds, interval));
    }
    Extremes {
        shortest,
        longest,
        from,
        below,
    }
}
