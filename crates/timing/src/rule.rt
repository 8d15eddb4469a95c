// When a profile may be used: its numbers in their ranges, and the windows true.
ghost use Rattle.std.specs.Prelude.{◌≡◌, ◌-◌, ◌*◌, ◌<◌};
ghost use Rattle.refusal.specs.Answer.{verdict_answer};
ghost use Rattle.timing.specs.Profile.{unset_place, InRange, is_true_short, is_true_long, is_true, profile_rule};

use crate::{Clocks, HalfClocks, PROFILE_NUMBERS, Profile, Range};
use refusal::Refusal;

// The range of each number, in document 02's order.
const RANGES: [Range; PROFILE_NUMBERS] = [
    Range { low: 1, high: 1023 }, // T1
    Range { low: 1, high: 1023 }, // T0
    Range { low: 0, high: 15 }, // Early
    Range { low: 0, high: 15 }, // Normal
    Range { low: 0, high: 15 }, // Late
    Range { low: 1, high: 4095 }, // Min
    Range { low: 1, high: 4095 }, // B23, after-short
    Range { low: 1, high: 4095 }, // B23, after-long
    Range { low: 1, high: 4095 }, // B34, after-short
    Range { low: 1, high: 4095 }, // B34, after-long
    Range { low: 1, high: 4095 }, // Rpt
];

// Which of the numbers is the first out of range, from 1.
fn lowest_unset(p: Profile) -> Option<u32>
    ensures { result ≡ unset_place p }
{
    let numbers = p.numbers();
    let ranges = RANGES;
    for (k, range) in ranges.iter().enumerate() {
        let x = numbers[k];
        if (x < range.low) | (range.high < x) {
            return Some(k as u32 + 1);
        }
    }
    None
}

// The distance from a point to a later one, in half clocks; 0 where they are out of order.
fn apart(from: Clocks, to: Clocks) -> HalfClocks
    requires { to.0 < 32768 }
    ensures { result.0 ≡ 2 * (to.0 - from.0) }
{
    Clocks(to.0.saturating_sub(from.0)).in_half_clocks()
}

// The distance between the latest and the earliest point (document 01's D).
pub fn swing(p: Profile) -> HalfClocks
    requires { InRange p }
    ensures { result.0 ≡ Rattle.timing.specs.Profile.swing p }
{
    apart(p.early, p.late)
}

// The parts of it before and after Normal.
pub fn advance(p: Profile) -> HalfClocks
    requires { InRange p }
    ensures { result.0 ≡ Rattle.timing.specs.Profile.advance p }
{
    apart(p.early, p.normal)
}

pub fn delay(p: Profile) -> HalfClocks
    requires { InRange p }
    ensures { result.0 ≡ Rattle.timing.specs.Profile.delay p }
{
    apart(p.normal, p.late)
}

// Whether the lengths that can be written after a cell of class 2 are in their windows.
fn is_true_short(p: Profile) -> bool
    requires { InRange p }
    ensures { result ≡ is_true_short p }
{
    let d = swing(p).0;
    let e = advance(p).0;
    let three = p.t1.0 + p.t0.0;
    let four = p.t1.0 + 2 * p.t0.0;
    (p.t1.0 < p.short.b23.0)
        & (p.short.b23.0 <= three + e)
        & (three + d < p.short.b34.0)
        & (p.short.b34.0 <= four + e)
}

// And those after any other.
fn is_true_long(p: Profile) -> bool
    requires { InRange p }
    ensures { result ≡ is_true_long p }
{
    let l = delay(p).0;
    let three = p.t1.0 + p.t0.0;
    let four = p.t1.0 + 2 * p.t0.0;
    (p.t1.0 < p.long.b23.0 + l)
        & (p.long.b23.0 <= three)
        & (three + l < p.long.b34.0)
        & (p.long.b34.0 <= four)
}

// Whether a profile whose numbers are in range is true.
fn is_true(p: Profile) -> bool
    requires { InRange p }
    ensures { result ≡ is_true p }
{
    let d = swing(p).0;
    let four = p.t1.0 + 2 * p.t0.0;
    (p.early.0 <= p.normal.0)
        & (p.normal.0 <= p.late.0)
        & (p.min.0 + d <= p.t1.0)
        & is_true_short(p)
        & is_true_long(p)
        & (four + d < p.rpt.0)
}

// Whether the profile may be used: 1, then 2.
pub fn check(p: Profile) -> Result<(), Refusal>
    ensures { verdict_answer result ≡ profile_rule p }
{
    if let Some(which) = lowest_unset(p) {
        return Err(Refusal::ProfileOutOfRange(which));
    }
    if is_true(p) {
        return Ok(());
    }
    Err(Refusal::ProfileInconsistent)
}
