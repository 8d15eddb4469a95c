// A block of cells, eight at a time, behind a half cell at least. They have 16 half cells to 32 and make one byte whole
// or two, so that whether they do is told once for eight, and without a jump.
ghost use Rattle.std.specs.Prelude.{◌≡◌, ◌+◌, ◌*◌, ◌<◌, ◌≤◌, map, length, take, drop};
ghost use Rattle.lists.specs.Filled.{stored_at};
ghost use Rattle.lists.specs.Place.{everywhere};
ghost use Rattle.half_cells.specs.machine.Word.{fits};
ghost use Rattle.symbols.specs.machine.Step.{AllCells, shifted_all, empty_reading};
ghost use Rattle.symbols.specs.declared.Reading.{Reading};
ghost use Rattle.shifts.specs.machine.Fours.{alone, fours_from};

use crate::top::{add_four, ease, is_whole, past_word, top_of, top_word};
use half_cells::fits;
use symbols::Reading;

// The register after some fours, and how many words they made whole.
#[derive(Clone, Copy, PartialEq, Eq)]
pub struct Fours {
    pub reading: Reading,
    pub count: usize,
}

fn shift_four(m: Reading, units: &[u8], k: usize) -> Reading
    requires { k + 4 ≤ length units.now }
    ensures { result ≡ shifted_all m (take 4 (drop k units.now)) }
{
    let two = m.shift(units[k]).shift(units[k + 1]);
    two.shift(units[k + 2]).shift(units[k + 3])
}

// The register after sixteen cells, which have all its half cells.
pub fn last_bits(units: &[u8], k: usize) -> u32
    requires { k + 16 ≤ length units.now }
    ensures { result ≡ (shifted_all empty_reading (take 16 (drop k units.now))).bits }
{
    let half = shift_four(shift_four(Reading::empty(), units, k), units, k + 4);
    shift_four(shift_four(half, units, k + 8), units, k + 12).bits
}

// So many eights, two at least. The first word of each is whole; the second is stored, and where it is not whole the
// next eight's first in the same place.
pub fn shift_eights(start: Reading, units: &[u8], eights: usize, words: &mut [u32]) -> Fours
    requires all_cells { AllCells units.now × (length units.now ≡ 8 * eights) }
    requires le_held { (1 ≤ start.held) × (start.held ≤ 16) }
    requires le_eights { (2 ≤ eights) × (length words.old ≡ 2 * eights) }
    ensures reading { result.reading ≡ (fours_from (2 * eights) start units.now).reading }
    ensures words { (result.count ≤ 2 * eights)
        × (take result.count words.new ≡ (fours_from (2 * eights) start units.now).words) }
{
    let mut t = top_of(start);
    let mut count: usize = 0;
    for i in 0..eights {
        let eight = add_four(add_four(t, units, 8 * i), units, 8 * i + 4);
        words[count] = top_word(eight);
        let next = past_word(eight);
        words[count + 1] = top_word(next);
        count += 1 + is_whole(next) as usize;
        t = ease(next);
    }
    let mut reading = start;
    reading.bits = last_bits(units, units.len() - 16);
    reading.held = 64 - t.free;
    reading.words = start.words.wrapping_add((count % 4294967296) as u32);
    Fours { reading, count }
}

// Whether no gap is out of place, with no jump for any word, so that it is told in vector instructions.
pub fn all_fit(words: &[u32]) -> bool
    ensures { result ≡ everywhere fits words.now }
{
    let mut all = true;
    for &word in words {
        all &= fits(word);
    }
    all
}

// The words without the data bit before each, from a place on, as many as there is room for. A strip is first read
// without room.
pub fn store(words: &[u32], at: usize, out: &mut [u16])
    ensures { out.new ≡ stored_at out.old at (map alone words.now) }
{
    if out.len() <= at {
        return;
    }
    let count = words.len().min(out.len() - at);
    for k in 0..count {
        out[at + k] = (words[k] % 65536) as u16;
    }
}
