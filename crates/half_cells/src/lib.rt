// What a byte's half cells say. Its word has 16, clock and data bits in turn, so that the data bits stand at the even
// places; x has the data bit before the byte as well, at place 16. The definitions are this code; what they mean is said
// by laws above: of reading, `word_verdict` in `symbols/proofs/WordLaws` (a gap out of place, its place, the item), of
// images, `owner_is_candidate` and `ruly_where_candidate_has` in `images/proofs/ReadLaws`.
#![tactic(auto)]

ghost use Rattle.std.specs.Prelude.{◌≡◌, ◌<◌, map};
ghost use Rattle.half_cells.specs.machine.Candidate.{data_bits, candidate};
ghost use Rattle.half_cells.specs.machine.Word.{missing, is_mark_word, fits, cells_since, first_of_cells};

use items::{MARK_A1, MARK_C2};

// The words of the marks, each with its gap.
pub const WORD_A1: u16 = 0x4489;

pub const WORD_C2: u16 = 0x5224;

// Every second bit of a word, moved together.
fn data_bits(word: u16) -> u16
    ensures { result ≡ data_bits word }
{
    let alone = word & 0x5555;
    let pairs = (alone | (alone >> 1)) & 0x3333;
    let fours = (pairs | (pairs >> 2)) & 0x0f0f;
    (fours | (fours >> 4)) & 0x00ff
}

// The one byte that can have a word of 16 half cells: whether it has it depends on the data bit before.
pub fn byte_of(word: u16) -> u16
    ensures { result ≡ candidate word }
{
    if word == WORD_A1 {
        return MARK_A1;
    }
    if word == WORD_C2 {
        return MARK_C2;
    }
    data_bits(word)
}

// Each word of a list replaced by its byte.
pub fn words_to_bytes(words: &mut [u16])
    ensures { words.new ≡ map candidate words.old }
{
    for word in words {
        *word = byte_of(*word);
    }
}

// The clock bits that a gap leaves out, each at the place above its own: it is 0 between two data bits 0.
pub fn missing(x: u32) -> u32
    ensures { result ≡ missing x }
{
    !(x | x << 1 | x << 2) & 0x15554
}

pub fn is_mark(x: u32) -> bool
    ensures { result ≡ is_mark_word x }
{
    let word = (x % 65536) as u16;
    (word == WORD_A1) | (word == WORD_C2)
}

// Whether no gap of a byte is out of place.
pub fn fits(x: u32) -> bool
    ensures { result ≡ fits x }
{
    (missing(x) == 0) | is_mark(x)
}

// With its half cells in the low places of these bits, but for a surplus: the cells that end after the first missing
// clock, one for each 1.
pub fn cells_since(bits: u32, surplus: u32, gaps: u32) -> u32
    requires { surplus < 32 }
    ensures { result ≡ cells_since bits surplus gaps }
{
    let below = (surplus + 32 - gaps.leading_zeros()) % 32;
    (bits & (1 << below) - 1).count_ones()
}

// The place of the first of so many cells, the last of which stands at this place.
pub fn first_of_cells(at: u32, cells: u32) -> u32
    ensures { result ≡ first_of_cells at cells }
{
    at.wrapping_add(1).wrapping_sub(cells)
}
