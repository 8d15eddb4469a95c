// Making an image: the list is checked whole before the first word is stored.
ghost use Rattle.std.specs.Prelude.{◌≤◌, ◌≡◌, length};
ghost use Rattle.lists.specs.Filled.{stored_at};
ghost use Rattle.refusal.specs.Answer.{counted_answer};
ghost use Rattle.items.specs.Item.{written_bytes};
ghost use Rattle.items.specs.Rule.{list_rule};
ghost use Rattle.items.specs.Written.{written};
ghost use Rattle.images.specs.Image.{image_of};
ghost use Rattle.images.specs.Rules.{make_rule, make_output};

use items::Check;
use lists::store;
use refusal::Refusal;
use words::{code_words, made_word, word_of};

// So few words are made sooner than the table is copied.
const FEW: usize = 12;

// Written bytes become their words where they stand, by the rule.
fn turn_few(bytes: &mut [u16])
    ensures { bytes.new ≡ image_of bytes.old }
{
    let mut previous: u16 = 0;
    for place in bytes.iter_mut() {
        let byte = *place;
        *place = made_word(previous, byte);
        previous = byte;
    }
}

// The same by the table.
fn turn_many(bytes: &mut [u16])
    ensures { bytes.new ≡ image_of bytes.old }
{
    let table = code_words();
    let mut previous: u16 = 0;
    for place in bytes.iter_mut() {
        let byte = *place;
        *place = word_of(&table, previous, byte);
        previous = byte;
    }
}

fn turn_into_words(bytes: &mut [u16])
    ensures { bytes.new ≡ image_of bytes.old }
{
    if bytes.len() < FEW {
        turn_few(bytes);
        return;
    }
    turn_many(bytes);
}

// A list with no check order is its own bytes, and needs no register.
fn store_written(items: &[u16], bytes: usize, out: &mut [u16])
    requires { (bytes ≡ written_bytes items.now) × (bytes ≤ length out.old) }
    ensures { out.new ≡ stored_at out.old 0 (written items.now) }
{
    if bytes == items.len() {
        store(items, 0, out);
        return;
    }
    items::write_bytes(Check::fresh(), items, out);
}

// An accepted list: 9, or its image.
fn make_words(items: &[u16], out: &mut [u16]) -> Result<usize, Refusal>
    requires { (list_rule items.now).number ≡ 0 }
    ensures answer { counted_answer result ≡ make_rule items.now (length out.old) }
    ensures output { out.new ≡ make_output items.now out.old }
{
    let n = items::written_bytes(items);
    if out.len() < n {
        return Err(Refusal::OutputTooShort);
    }
    store_written(items, n, out);
    turn_into_words(&mut out[..n]);
    Ok(n)
}

// A list of items as an image: 4, 3, 9, or the number of words stored.
#[tactic(auto, using(refusal::proofs::AnswerLaws::refusal_decides, refusal::proofs::AnswerLaws::refusal_keeps_the_buffer), unfolding(crate::specs::Rules::make_rule, crate::specs::Rules::make_output))]
pub fn make_image(items: &[u16], out: &mut [u16]) -> Result<usize, Refusal>
    ensures answer { counted_answer result ≡ make_rule items.now (length out.old) }
    ensures output { out.new ≡ make_output items.now out.old }
{
    items::check_list(items)?;
    make_words(items, out)
}
