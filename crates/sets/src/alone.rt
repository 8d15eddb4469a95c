// One set by itself: what the merge would turn away, and where each number is found, for the crates above.
ghost use Rattle.std.specs.Prelude.{◌<◌, ◌≡◌, eqb, get_or, replicate, unwrap_or, IfSome};
ghost use Rattle.lists.specs.Place.{lowest};
ghost use Rattle.refusal.specs.Answer.{counted_answer};
ghost use Rattle.sets.specs.Held.{numbers};
ghost use Rattle.sets.specs.Alone.{set_rule};
ghost use Rattle.sets.specs.machine.Index.{Indexed};
ghost use Rattle.sets.specs.machine.Span.{Spans};

use crate::index::{count_sectors, index_set};
use crate::span::Span;
use refusal::Refusal;

// The lowest number that an index shows twice.
fn lowest_twice(index: &[u16; 256], span: Span) -> Option<usize>
    requires { Spans span index.now }
    ensures lowest { unwrap_or result 256 ≡ lowest (λ n. eqb (get_or index.now n 0) 65535) numbers }
    ensures number { IfSome result (λ n. n < 256) }
{
    for n in span.low..span.high {
        if index[n] == 65535 {
            return Some(n);
        }
    }
    None
}

// 13, 15, 17; else how many sectors there are, and their index.
pub fn index_alone(set: &[u8], index: &mut [u16; 256]) -> Result<usize, Refusal>
    requires { index.old ≡ replicate 256 0 }
    ensures answer { counted_answer result ≡ set_rule set.now }
    ensures index { (set_rule set.now).number ≡ 0 → Indexed set.now index.new }
{
    let count = count_sectors(set)?;
    if 32 < count {
        return Err(Refusal::TooManySectors);
    }
    let span = index_set(set, index);
    if let Some(number) = lowest_twice(index, span) {
        return Err(Refusal::SectorsAtOdds(number as u32));
    }
    Ok(count)
}
