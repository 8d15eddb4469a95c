// How many cells a list writes: a one of a code word ends a cell, so that the words tell it without a trial.
ghost use Rattle.std.specs.Prelude.{◌<◌, ◌≡◌, length};
ghost use Rattle.items.specs.Item.{written_bytes};
ghost use Rattle.items.specs.Rule.{list_rule};
ghost use Rattle.items.specs.Written.{written};
ghost use Rattle.symbols.specs.Cells.{written_cells};
ghost use Rattle.images.specs.machine.Tally.{no_tally, tallied_byte, tallied};

use items::Check;
use words::made_word;

// How many items are turned into bytes together: a check order is two.
const BLOCK: usize = 64;

// The cells that ended so far, and the byte before. No list writes 65,536 cells: numbers of 16 bits add up fastest.
#[derive(Clone, Copy, PartialEq, Eq)]
pub struct Tally {
    pub cells: u16,
    pub previous: u16,
}

fn count_byte(tally: Tally, byte: u16) -> Tally
    requires { (tallied_byte tally byte).cells < 65536 }
    ensures { result ≡ tallied_byte tally byte }
{
    let ones = made_word(tally.previous, byte).count_ones() as u16;
    Tally {
        cells: tally.cells + ones,
        previous: byte,
    }
}

fn count_bytes(start: Tally, bytes: &[u16]) -> Tally
    requires { (tallied start bytes.now).cells < 65536 }
    ensures { result ≡ tallied start bytes.now }
{
    let mut tally = start;
    for &byte in bytes {
        tally = count_byte(tally, byte);
    }
    tally
}

// Block by block, as the bytes that they write: one loop then counts the bytes of many runs.
fn count_blocks(items: &[u16]) -> Tally
    requires { (list_rule items.now).number ≡ 0 }
    ensures { result ≡ tallied no_tally (written items.now) }
{
    let mut tally = Tally {
        cells: 0,
        previous: 0,
    };
    let mut check = Check::fresh();
    let mut bytes = [0u16; 2 * BLOCK];
    let mut from: usize = 0;
    while from < items.len() {
        let end = from + BLOCK.min(items.len() - from);
        let stored = items::write_bytes(check, &items[from..end], &mut bytes);
        let count = stored.count;
        tally = count_bytes(tally, &bytes[..count]);
        check = stored.check;
        from = end;
    }
    tally
}

// A list with no check order is its own bytes, and needs no register.
fn count_items(items: &[u16], bytes: usize) -> Tally
    requires { ((list_rule items.now).number ≡ 0) × (bytes ≡ written_bytes items.now) }
    ensures { result ≡ tallied no_tally (written items.now) }
{
    if bytes == items.len() {
        let none = Tally {
            cells: 0,
            previous: 0,
        };
        return count_bytes(none, items);
    }
    count_blocks(items)
}

// The cells of an accepted list that writes so many bytes. The two closing 0s end two cells after a 0, and one after a
// 1.
pub fn count_cells(items: &[u16], bytes: usize) -> usize
    requires { ((list_rule items.now).number ≡ 0) × (bytes ≡ written_bytes items.now) }
    ensures { result ≡ length (written_cells (written items.now)) }
{
    let tally = count_items(items, bytes);
    let cells = tally.cells as usize;
    if tally.previous % 2 == 1 {
        return cells + 1;
    }
    cells + 2
}
