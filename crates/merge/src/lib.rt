// Document 02 (vii): two passes over a bad disk.
#![tactic(auto)]

ghost use Rattle.std.specs.Prelude.{◌≡◌, ◌||◌, ltb, length};
ghost use Rattle.refusal.specs.Answer.{accepted, refuse_if, verdict_answer, counted_answer};
ghost use Rattle.sets.specs.Set.{sectors_in};
ghost use Rattle.sets.specs.machine.Span.{Indexes};
ghost use Rattle.merge.specs.Rule.{room_rule, merged_answer, merge_answer, merge_output};
ghost use Rattle.merge.specs.machine.Tests.{sets_rule, numbers_rule, checked_rule, Settles};

use ascending::{merged_size, write_merged};
use choice::lowest_at_odds;
use numbers::count_numbers;
use refusal::Refusal;
use sets::SetSize;
use sets::index::{count_sectors, index_set};
use sets::span::{Span, join};

mod ascending;
mod choice;
mod numbers;
mod output;

fn check_counts(first: usize, second: usize) -> Result<(), Refusal>
    ensures { verdict_answer result ≡ refuse_if (ltb 32 first || ltb 32 second) 15 0 (accepted 0) }
{
    if 32 < first {
        return Err(Refusal::TooManySectors);
    }
    if 32 < second {
        return Err(Refusal::TooManySectors);
    }
    Ok(())
}

// 13, then 15 for a set of more than 32 sectors.
fn check_sets(first: &[u8], second: &[u8]) -> Result<(), Refusal>
    ensures { verdict_answer result ≡ sets_rule first.now second.now }
{
    let a = count_sectors(first)?;
    let b = count_sectors(second)?;
    check_counts(a, b)
}

// 15 for more than 32 different numbers, then 17; else how many there are.
fn check_numbers(
    first: &[u8],
    a: &[u16; 256],
    second: &[u8],
    b: &[u16; 256],
    span: Span,
) -> Result<usize, Refusal>
    requires { Indexes first.now a.now second.now b.now span }
    ensures { counted_answer result ≡ numbers_rule (sectors_in first.now) (sectors_in second.now) }
{
    let count = count_numbers(a, b, span);
    if 32 < count {
        return Err(Refusal::TooManySectors);
    }
    if let Some(number) = lowest_at_odds(first, a, second, b, span) {
        return Err(Refusal::SectorsAtOdds(number as u32));
    }
    Ok(count)
}

// 9, or the merged set at the front of the output.
fn deliver(
    first: &[u8],
    a: &[u16; 256],
    second: &[u8],
    b: &[u16; 256],
    span: Span,
    count: usize,
    out: &mut [u8],
) -> Result<SetSize, Refusal>
    requires { Indexes first.now a.now second.now b.now span
        × (accepted count ≡ numbers_rule (sectors_in first.now) (sectors_in second.now)) }
    ensures { Settles first.now second.now
        (room_rule (sectors_in first.now) (sectors_in second.now) (length out.old))
        (merged_answer result) out.new out.old }
{
    let bytes = merged_size(first, a, second, b, span);
    if out.len() < bytes {
        return Err(Refusal::OutputTooShort);
    }
    write_merged(first, a, second, b, span, out);
    Ok(SetSize { count, bytes })
}

// Two sets of at most 32 sectors each.
fn merge_checked(first: &[u8], second: &[u8], out: &mut [u8]) -> Result<SetSize, Refusal>
    requires { accepted 0 ≡ sets_rule first.now second.now }
    ensures { Settles first.now second.now
        (checked_rule (sectors_in first.now) (sectors_in second.now) (length out.old))
        (merged_answer result) out.new out.old }
{
    let mut a = [0u16; 256];
    let mut b = [0u16; 256];
    let one = index_set(first, &mut a);
    let other = index_set(second, &mut b);
    let span = join(one, other);
    let count = check_numbers(first, &a, second, &b, span)?;
    deliver(first, &a, second, &b, span, count, out)
}

// 13, 15, 17, 9; else the size of the merged set. On acceptance it fills the front of the output, by
// ascending sector number.
pub fn merge_sets(first: &[u8], second: &[u8], out: &mut [u8]) -> Result<SetSize, Refusal>
    ensures answer { merged_answer result ≡ merge_answer first.now second.now (length out.old) }
    ensures output { out.new ≡ merge_output first.now second.now out.old }
{
    check_sets(first, second)?;
    merge_checked(first, second, out)
}
