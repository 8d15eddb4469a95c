// A block of cells looked at: how many half cells they have, and whether one is a gap. A gap has four units and begins
// at a clock bit, after an even number of half cells. Eight cells stand in the bytes of one number, so that their
// running sums take three steps, and no jump.
ghost use Rattle.std.specs.Prelude.{◌≡◌, ℕ, ◌+◌, ◌*◌, ◌^◌, ◌<◌, ◌≤◌, ◌||◌, List, length, take, drop};
ghost use Rattle.lists.specs.Sum.{sum_of};
ghost use Rattle.symbols.specs.machine.Step.{AllCells};
ghost use Rattle.symbols.specs.machine.Gaps.{gaps_from};
ghost use Rattle.passes.specs.machine.Lanes.{packed, sums_of};

// The half cells counted so far, and whether a gap was among them.
#[derive(Clone, Copy, PartialEq, Eq)]
pub struct Tally {
    pub sum: u32,
    pub gap: bool,
}

// So many eights has a block.
const EIGHTS: usize = 16;

// In each byte the bit that is set in 4 alone of the units of a cell.
const LONG: u64 = 0x0404040404040404;

fn wide(units: u8) -> u64
    ensures { (result ≡ units) × (result < 2 ^ 8) }
{
    units as u64
}

// Cells from a place on, the first in the lowest byte.
fn two_at(units: &[u8], k: usize) -> u64
    requires { k + 2 ≤ length units.now }
    ensures { (result ≡ packed (take 2 (drop k units.now))) × (result < 2 ^ 16) }
{
    wide(units[k]) + wide(units[k + 1]) * 256
}

fn four_at(units: &[u8], k: usize) -> u64
    requires { k + 4 ≤ length units.now }
    ensures { (result ≡ packed (take 4 (drop k units.now))) × (result < 2 ^ 32) }
{
    two_at(units, k) + two_at(units, k + 2) * 65536
}

fn eight_at(units: &[u8], k: usize) -> u64
    requires { k + 8 ≤ length units.now }
    ensures { result ≡ packed (take 8 (drop k units.now)) }
{
    four_at(units, k) + four_at(units, k + 4) * 4294967296
}

// In each byte the sum of it and those below.
#[tactic(auto, unfolding(crate::specs::machine::Lanes::sums_of))]
fn sums_of(x: u64) -> u64
    ensures { result ≡ sums_of x }
{
    let two = x.wrapping_add(x << 8);
    let four = two.wrapping_add(two << 16);
    four.wrapping_add(four << 32)
}

// Eight cells more. That a cell begins at a clock bit is told by the sum of all up to its end, since four is even: the
// bit of that sum which stands over LONG's is set where it and one more is odd.
fn scan_eight(at: Tally, x: u64) -> Tally
    ensures { (us : List ℕ) → AllCells us → length us ≡ 8 → x ≡ packed us → at.sum + 32 < 2 ^ 32
        → (result.sum ≡ at.sum + sum_of us) × (result.gap ≡ (at.gap || gaps_from at.sum us)) }
{
    let sums = sums_of(x);
    let even = (sums << 2).wrapping_add(LONG << (at.sum % 2));
    Tally {
        sum: at.sum.wrapping_add((sums >> 56) as u32),
        gap: at.gap | (x & even != 0),
    }
}

// A block of 128 cells, after so many half cells.
pub fn scan(start: u32, units: &[u8]) -> Tally
    requires { (length units.now ≡ 128) × AllCells units.now × (start ≤ 16) }
    ensures sum { result.sum ≡ start + sum_of units.now }
    ensures gap { result.gap ≡ gaps_from start units.now }
{
    let mut at = Tally {
        sum: start,
        gap: false,
    };
    for i in 0..EIGHTS {
        at = scan_eight(at, eight_at(units, 8 * i));
    }
    at
}
