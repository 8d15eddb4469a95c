// What two sets have of one number: whether they are at odds, and whose copy is taken. A number's entry in a set's
// index is 0, 65,535, or the place of the sector's length code.
ghost use Rattle.std.specs.Prelude.{◌<◌, ◌≤◌, ◌≡◌, false, length, unwrap_or, IfSome};
ghost use Rattle.lists.specs.Place.{lowest};
ghost use Rattle.sets.specs.Set.{sectors_in};
ghost use Rattle.sets.specs.Held.{numbers};
ghost use Rattle.sets.specs.machine.Index.{sector_at, end_of, shown, Within};
ghost use Rattle.sets.specs.machine.Span.{Indexes};
ghost use Rattle.merge.specs.Merge.{same_bytes, disagree, at_odds, at_odds_at};
ghost use Rattle.merge.specs.machine.Tests.{takes_second};

use sets::span::Span;

// Looks at every byte: a loop that could end early would go byte by byte.
fn same_bytes(a: &[u8], b: &[u8]) -> bool
    ensures { result ≡ same_bytes a.now b.now }
{
    if a.len() != b.len() {
        return false;
    }
    let mut same = true;
    for (k, byte) in a.iter().enumerate() {
        same = same & (*byte == b[k]);
    }
    same
}

// Both sums good and unlike bytes.
fn copies_disagree(first: &[u8], a: usize, second: &[u8], b: usize) -> bool
    requires { (end_of first.now a ≤ length first.now) × (end_of second.now b ≤ length second.now) }
    ensures { result ≡ disagree (sector_at first.now a) (sector_at second.now b) }
{
    if first[a + 1] == 0 {
        return false;
    }
    if second[b + 1] == 0 {
        return false;
    }
    let code = first[a];
    if code != second[b] {
        return true;
    }
    let size = sectors::sector_size(code);
    let a_data = a + 2;
    let a_end = a_data + size;
    let b_data = b + 2;
    let b_end = b_data + size;
    !same_bytes(&first[a_data..a_end], &second[b_data..b_end])
}

fn at_odds(first: &[u8], a: u16, second: &[u8], b: u16) -> bool
    requires { Within first.now a × Within second.now b }
    ensures { result ≡ at_odds (shown first.now a) (shown second.now b) }
{
    if a == 65535 {
        return true;
    }
    if b == 65535 {
        return true;
    }
    if a == 0 {
        return false;
    }
    if b == 0 {
        return false;
    }
    copies_disagree(first, a as usize, second, b as usize)
}

// The lowest number at which the sets are at odds.
pub fn lowest_at_odds(
    first: &[u8],
    a: &[u16; 256],
    second: &[u8],
    b: &[u16; 256],
    span: Span,
) -> Option<usize>
    requires { Indexes first.now a.now second.now b.now span }
    ensures lowest { unwrap_or result 256
        ≡ lowest (at_odds_at (sectors_in first.now) (sectors_in second.now)) numbers }
    ensures number { IfSome result (λ n. n < 256) }
{
    for n in span.low..span.high {
        if at_odds(first, a[n], second, b[n]) {
            return Some(n);
        }
    }
    None
}

// Whether it is the second set's copy that is taken.
pub fn takes_second(first: &[u8], a: u16, second: &[u8], b: u16) -> bool
    requires { Within first.now a
        × Within second.now b
        × (at_odds (shown first.now a) (shown second.now b) ≡ false) }
    ensures { result ≡ takes_second (shown first.now a) (shown second.now b) }
{
    if a == 0 {
        return true;
    }
    if b == 0 {
        return false;
    }
    let a_sum = a as usize + 1;
    if first[a_sum] != 0 {
        return false;
    }
    let b_sum = b as usize + 1;
    second[b_sum] != 0
}
