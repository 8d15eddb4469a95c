// A pass that only looks: its register at the end is that of a pass, but no word is made. Where no gap is among the
// cells of a block and none is open before it, every byte that they make whole is one without a gap, so that their
// number of half cells says where the register stands; the others go through it.
ghost use Rattle.std.specs.Prelude.{◌≡◌, ℕ, ◌+◌, ◌^◌, ◌<◌, ◌≤◌, List, ◌++◌, length};
ghost use Rattle.timing.specs.Class.{cursor_after};
ghost use Rattle.timing.specs.machine.Edges.{units_from};
ghost use Rattle.timing.specs.declared.Profile.{Profile};
ghost use Rattle.symbols.specs.machine.Step.{AllCells};
ghost use Rattle.shifts.specs.machine.Pass.{pass_from};
ghost use Rattle.passes.specs.machine.Look.{calmed, Sees, Looking};

use crate::block::BLOCK;
use crate::scan::scan;
use intervals::units_of;
use shifts::fours::last_bits;
use shifts::shift::shift_units;
use symbols::Reading;
use timing::Cursor;

// The register, and whether no gap is open in it.
#[derive(Clone, Copy, PartialEq, Eq)]
pub struct Seen {
    pub reading: Reading,
    pub clear: bool,
}

// How far it came, and where the classing stands.
#[derive(Clone, Copy, PartialEq, Eq)]
pub struct Look {
    pub seen: Seen,
    pub used: usize,
    pub cursor: Cursor,
}

// The register after cells without a gap, where none is open: they have so many half cells with those that it holds.
fn move_on(m: Reading, units: &[u8], sum: u32) -> Reading
    requires { (16 ≤ length units.now) × (1 ≤ sum) }
    ensures { result ≡ calmed m units.now sum }
{
    let last = sum - 1;
    let mut reading = m;
    reading.bits = last_bits(units, units.len() - 16);
    reading.held = last % 16 + 1;
    reading.words = m.words.wrapping_add(last / 16);
    reading
}

// Cells through the register.
fn shift_on(m: Reading, units: &[u8], from: usize, most: u32) -> Reading
    requires units_len_bound { length units.now ≤ 128 }
    requires all_cells { AllCells units.now × (m.held ≤ 16) × (m.words < most) }
    requires units_bound { from + length units.now < 2 ^ 64 }
    ensures { result ≡ (pass_from most from m units.now).end.reading }
{
    let mut none = [0u16; 0];
    let pass = shift_units(m, units, from, most, 0, &mut none);
    pass.reading
}

// The cells of a block. Eight of them have more letters than are open after them, so that none is where they have no
// gap.
fn look_units(seen: Seen, units: &[u8], from: usize, most: u32) -> Seen
    requires units_len_bound { length units.now ≤ 128 }
    requires all_cells { AllCells units.now × (seen.reading.held ≤ 16) × (seen.reading.words < most) }
    requires units_bound { from + length units.now < 2 ^ 64 }
    ensures { (us : List ℕ) → Sees us seen → length us ≡ from → from + length units.now ≤ most
        → Sees (us ++ units.now) result }
{
    let m = seen.reading;
    if units.len() < BLOCK {
        return Seen {
            reading: shift_on(m, units, from, most),
            clear: false,
        };
    }
    let tally = scan(m.held, units);
    if tally.gap {
        return Seen {
            reading: shift_on(m, units, from, most),
            clear: false,
        };
    }
    if seen.clear {
        return Seen {
            reading: move_on(m, units, tally.sum),
            clear: true,
        };
    }
    Seen {
        reading: shift_on(m, units, from, most),
        clear: true,
    }
}

// The intervals of a block, whose units have as many places.
fn look_block(at: Look, intervals: &[u16], units: &mut [u8], most: u32) -> Look
    requires words_lt_most { (at.seen.reading.words < most) × (at.seen.reading.held ≤ 16) }
    requires units_len { (length units.old ≡ length intervals.now) × (length units.old ≤ 128) }
    requires intervals_bound { at.used + length intervals.now < 2 ^ 64 }
    ensures used { result.used ≡ at.used + length intervals.now }
    ensures cursor { result.cursor ≡ cursor_after at.cursor intervals.now }
    ensures seen { (us : List ℕ) → Sees us at.seen → length us ≡ at.used
        → at.used + length intervals.now ≤ most
        → Sees (us ++ units_from at.cursor intervals.now) result.seen }
{
    let cursor = units_of(at.cursor, intervals, units);
    let seen = look_units(at.seen, units, at.used, most);
    Look {
        seen,
        used: at.used + intervals.len(),
        cursor,
    }
}

// One block more.
pub fn look_on(at: Look, intervals: &[u16], most: u32) -> Look
    requires used_in_bounds { (at.used < length intervals.now) × (length intervals.now ≤ most) }
    requires words_lt_most { (at.seen.reading.words < most) × (at.seen.reading.held ≤ 16) }
    ensures more { at.used < result.used }
    ensures looking { (p : Profile) → Looking p intervals.now at → Looking p intervals.now result }
{
    let from = at.used;
    let n = BLOCK.min(intervals.len() - from);
    let mut units = [0u8; BLOCK];
    look_block(at, &intervals[from..from + n], &mut units[..n], most)
}
