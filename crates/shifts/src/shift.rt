// Cells into the reading machine: a block of them by eights, or cell by cell.
ghost use Rattle.std.specs.Prelude.{◌≡◌, ◌+◌, ◌-◌, ◌*◌, ◌^◌, ◌<◌, ◌≤◌, ◌&&◌, length, nat_le, nat_lt};
ghost use Rattle.lists.specs.Filled.{stored_at};
ghost use Rattle.symbols.specs.machine.Step.{AllCells};
ghost use Rattle.shifts.specs.machine.Pass.{pass_from};

use crate::Pass;
use crate::fours::{all_fit, shift_eights, store};
use lists::put;
use symbols::Reading;

// So many words have 128 cells at most, after 16 half cells.
const WORDS: usize = 32;

// Cells of so many units, the first at place `from`, until so many bytes are whole or no cell is left. Bytes are
// counted only where one is closed, which keeps the loop short. Code words are stored from place `to` on, where there
// is room.
fn shift_in(
    start: Reading,
    units: &[u8],
    from: usize,
    most: u32,
    to: usize,
    out: &mut [u16],
) -> Pass
    requires words_lt_most { start.words < most }
    requires units_bound { (from + length units.now < 2 ^ 64) × (to + length units.now < 2 ^ 64) }
    ensures end { result ≡ (pass_from most from start units.now).end }
    ensures output { out.new ≡ stored_at out.old to (pass_from most from start units.now).words }
{
    let mut m = start;
    let mut store_at = to;
    for (k, &cell) in units.iter().enumerate() {
        let next = m.shift(cell);
        let place = from + k;
        if next.is_whole() {
            put(out, store_at, next.word());
            store_at += 1;
            m = next.close((place % 4294967296) as u32);
            if most <= m.words {
                return Pass {
                    reading: m,
                    used: place + 1,
                };
            }
        } else {
            m = next;
        }
    }
    Pass {
        reading: m,
        used: from + units.len(),
    }
}

// Cells that leave bytes to read: by so many eights, for whose words there is room, and cell by cell what is over and,
// for its place, where a gap is out of place.
fn shift_block(
    m: Reading,
    units: &[u8],
    eights: usize,
    words: &mut [u32],
    from: usize,
    most: u32,
    to: usize,
    out: &mut [u16],
) -> Pass
    requires all_cells { AllCells units.now × (1 ≤ m.held) × (m.held ≤ 16) × (m.words + 2 * eights < most) }
    requires le_eights { (2 ≤ eights) × (length words.old ≡ 2 * eights) × (8 * eights ≤ length units.now) }
    requires units_bound { (from + length units.now < 2 ^ 64) × (to + length units.now < 2 ^ 64) }
    ensures end { result ≡ (pass_from most from m units.now).end }
    ensures output { out.new ≡ stored_at out.old to (pass_from most from m units.now).words }
{
    let cells = 8 * eights;
    let fours = shift_eights(m, &units[..cells], eights, words);
    let count = fours.count;
    if all_fit(&words[..count]) {
        store(&words[..count], to, out);
        let reading = fours.reading;
        return shift_in(
            reading,
            &units[cells..],
            from + cells,
            most,
            to + count,
            out,
        );
    }
    shift_in(m, units, from, most, to, out)
}

// Whether cells that make so many words at most go by eights: not a few, nor those behind no half cell, as at first,
// nor the end of a field.
fn goes_by_eights(m: Reading, room: usize, most: u32) -> bool
    requires { m.words < most }
    ensures { result ≡ ((nat_le 4 room && nat_le 1 m.held) && nat_lt room (most - m.words)) }
{
    (4 <= room) & (1 <= m.held) & (room < (most - m.words) as usize)
}

// By eights, or cell by cell.
pub fn shift_units(
    m: Reading,
    units: &[u8],
    from: usize,
    most: u32,
    to: usize,
    out: &mut [u16],
) -> Pass
    requires units_len_bound { length units.now ≤ 128 }
    requires all_cells { AllCells units.now × (m.held ≤ 16) × (m.words < most) }
    requires units_bound { (from + length units.now < 2 ^ 64) × (to + length units.now < 2 ^ 64) }
    ensures end { result ≡ (pass_from most from m units.now).end }
    ensures output { out.new ≡ stored_at out.old to (pass_from most from m units.now).words }
{
    let eights = units.len() / 8;
    let room = 2 * eights;
    if goes_by_eights(m, room, most) {
        let mut words = [0u32; WORDS];
        return shift_block(m, units, eights, &mut words[..room], from, most, to, out);
    }
    shift_in(m, units, from, most, to, out)
}
