// Reading an image: the words are checked whole before the first item is stored.
ghost use Rattle.std.specs.Prelude.{◌≤◌, ◌≡◌, not, cond, Some, None, map, length};
ghost use Rattle.lists.specs.Place.{anywhere, lowest, passed};
ghost use Rattle.lists.specs.Filled.{filled};
ghost use Rattle.refusal.specs.Answer.{verdict_answer, counted_answer};
ghost use Rattle.words.specs.Words.{last_bit};
ghost use Rattle.images.specs.Image.{has_word, unruly_in};
ghost use Rattle.images.specs.Rules.{words_rule, read_image_rule, read_image_output};
ghost use Rattle.half_cells.specs.machine.Candidate.{candidate};

use half_cells::{WORD_A1, WORD_C2, byte_of, words_to_bytes};
use lists::store;
use refusal::Refusal;
use words::{code_words, made_word, word_of};

// The most words that an image may have.
const MAX_WORDS: usize = 6400;

// The place of the lowest word that its candidate does not have after the byte before.
fn find_unruly(words: &[u16]) -> Option<usize>
    ensures { result
        ≡ cond (anywhere passed (unruly_in words.now)) (Some (lowest passed (unruly_in words.now))) None }
{
    let table = code_words();
    let mut previous: u16 = 0;
    for (k, &word) in words.iter().enumerate() {
        let byte = byte_of(word);
        if word_of(&table, previous, byte) != word {
            return Some(k);
        }
        previous = byte;
    }
    None
}

// Whether its candidate has a word: a mark's is told first, so that no test of a mark is left for the others.
fn is_ruly(previous: u16, word: u16) -> bool
    ensures { result ≡ has_word (last_bit previous) word (candidate word) }
{
    if word == WORD_A1 {
        return true;
    }
    if word == WORD_C2 {
        return true;
    }
    made_word(previous, byte_of(word)) == word
}

// Whether no word is unruly; a word's last bit is its byte's. Looks at every word: a loop that could end early would go
// word by word.
fn all_ruly(words: &[u16]) -> bool
    ensures { result ≡ not (anywhere passed (unruly_in words.now)) }
{
    let mut all = true;
    let mut previous: u16 = 0;
    for &word in words {
        all = all & is_ruly(previous, word);
        previous = word;
    }
    all
}

// Whether the words are an image: 4, then 16.
fn check_words(words: &[u16]) -> Result<(), Refusal>
    ensures { verdict_answer result ≡ words_rule words.now }
{
    if MAX_WORDS < words.len() {
        return Err(Refusal::TooLong);
    }
    if all_ruly(words) {
        return Ok(());
    }
    let k = find_unruly(words).unwrap_or(words.len());
    Err(Refusal::UnrulyWord(k as u32))
}

// The candidates of words, from the front of the output on.
fn store_bytes(words: &[u16], out: &mut [u16])
    requires { length words.now ≤ length out.old }
    ensures { out.new ≡ filled (map candidate words.now) out.old }
{
    store(words, 0, out);
    let n = words.len();
    words_to_bytes(&mut out[..n]);
}

// An image: 9, or its items.
fn read_words(words: &[u16], out: &mut [u16]) -> Result<usize, Refusal>
    requires { (words_rule words.now).number ≡ 0 }
    ensures answer { counted_answer result ≡ read_image_rule words.now (length out.old) }
    ensures output { out.new ≡ read_image_output words.now out.old }
{
    if out.len() < words.len() {
        return Err(Refusal::OutputTooShort);
    }
    store_bytes(words, out);
    Ok(words.len())
}

// An image as items: 4, 16, 9, or the number of items stored.
#[tactic(auto, using(refusal::proofs::AnswerLaws::refusal_decides, refusal::proofs::AnswerLaws::refusal_keeps_the_buffer), unfolding(crate::specs::Rules::read_image_rule, crate::specs::Rules::read_image_output))]
pub fn read_image(words: &[u16], out: &mut [u16]) -> Result<usize, Refusal>
    ensures answer { counted_answer result ≡ read_image_rule words.now (length out.old) }
    ensures output { out.new ≡ read_image_output words.now out.old }
{
    check_words(words)?;
    read_words(words, out)
}
