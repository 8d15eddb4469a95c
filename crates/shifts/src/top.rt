// The half cells of the reading machine's register at the top of 64 bits.
ghost use Rattle.std.specs.Prelude.{◌≡◌, ◌+◌, ◌/◌, ◌^◌, ◌≤◌, length, take, drop, nat_lt};
ghost use Rattle.symbols.specs.machine.Step.{eased};
ghost use Rattle.symbols.specs.declared.Reading.{Reading};
ghost use Rattle.shifts.specs.machine.Fours.{Tops, added_cell, added_all, past_word};

use symbols::Reading;

// A cell is one difference and one bit set, and no shift waits for another.
#[derive(Clone, Copy, PartialEq, Eq)]
pub struct Top {
    pub cells: u64,
    // the places below them
    pub free: u32,
}

pub fn top_of(m: Reading) -> Top
    requires { m.held ≤ 16 }
    ensures { Tops result m }
{
    let free = 64 - m.held;
    Top {
        cells: (m.bits as u64) << (free - 1) << 1,
        free,
    }
}

#[tactic(auto, unfolding(crate::specs::machine::Fours::added_cell))]
fn add_cell(t: Top, units: u8) -> Top
    ensures { result ≡ added_cell t units }
{
    let free = t.free.wrapping_sub(units as u32);
    Top {
        cells: t.cells | 1 << (free % 64),
        free,
    }
}

// The four cells from a place on.
pub fn add_four(t: Top, units: &[u8], k: usize) -> Top
    requires { k + 4 ≤ length units.now }
    ensures { result ≡ added_all t (take 4 (drop k units.now)) }
{
    let two = add_cell(add_cell(t, units[k]), units[k + 1]);
    add_cell(add_cell(two, units[k + 2]), units[k + 3])
}

// The half cells of the byte that is whole, with the data bit before it; where none is whole, other half cells.
pub fn top_word(t: Top) -> u32
    ensures { result ≡ t.cells / 2 ^ 47 }
{
    (t.cells >> 47) as u32
}

pub fn is_whole(t: Top) -> bool
    ensures { result ≡ nat_lt t.free 48 }
{
    t.free < 48
}

// On to the next byte.
#[tactic(auto, unfolding(crate::specs::machine::Fours::past_word))]
pub fn past_word(t: Top) -> Top
    ensures { result ≡ past_word t }
{
    Top {
        cells: t.cells << 16,
        free: t.free.wrapping_add(16),
    }
}

// On to the next byte where one is whole, without a jump.
pub fn ease(t: Top) -> Top
    ensures { (m : Reading) → Tops t m → Tops result (eased m) }
{
    let more = 16 * is_whole(t) as u32;
    Top {
        cells: t.cells << more,
        free: t.free.wrapping_add(more),
    }
}
