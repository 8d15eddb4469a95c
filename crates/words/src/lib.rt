// Request (v): the code word of a byte.
#![tactic(auto)]

mod table;

ghost use Rattle.std.specs.Prelude.{◌≡◌};
ghost use Rattle.words.specs.Words.{word_of, last_bit, code_words};
ghost use Rattle.words.specs.machine.Spread.{spread_word};

use half_cells::{WORD_A1, WORD_C2};
use items::{MARK_A1, MARK_C2};
pub use table::code_words;

// The word of a written byte after the byte before, whose last bit is the previous bit.
pub fn word_of(table: &[u16; 512], previous: u16, byte: u16) -> u16
    requires { table.now ≡ code_words }
    ensures { result ≡ word_of (last_bit previous) byte }
{
    if byte == MARK_A1 {
        return WORD_A1;
    }
    if byte == MARK_C2 {
        return WORD_C2;
    }
    table[(previous % 2 * 256 + byte % 256) as usize]
}

// The bits of a data byte at every second place, and a clock bit between each two that are 0.
fn spread_word(previous: u16, byte: u16) -> u16
    ensures { result ≡ spread_word previous byte }
{
    let fours = (byte | (byte << 4)) & 0x0f0f;
    let pairs = (fours | (fours << 2)) & 0x3333;
    let data = (pairs | (pairs << 1)) & 0x5555;
    let clocks = ((data | (data >> 2) | (previous << 14)) & 0x5555) ^ 0x5555;
    data | (clocks << 1)
}

// The same without the table, which is slow to copy where few words are asked for and large where all are. A mark's
// word is chosen after the other is made: with no jump, so that the words of many bytes are made in vector
// instructions; and in two steps, as one `if` of three ends makes each C compiler slower, on marks or on few bytes.
pub fn made_word(previous: u16, w: u16) -> u16
    ensures { result ≡ word_of (last_bit previous) w }
{
    let data = spread_word(previous % 2, w % 256);
    let word = if w == MARK_C2 { WORD_C2 } else { data };
    if w == MARK_A1 { WORD_A1 } else { word }
}
