// The sectors of a set: how many there are, and where each number is found.
ghost use Rattle.std.specs.Prelude.{◌+◌, ◌<◌, ◌≤◌, ◌≡◌, false, length, replicate};
ghost use Rattle.refusal.specs.Answer.{counted_answer};
ghost use Rattle.sets.specs.Set.{set_of, is_misfit_set};
ghost use Rattle.sets.specs.machine.Index.{end_rule, count_rule, entry_with, Indexed};
ghost use Rattle.sets.specs.machine.Span.{Spans};

use crate::span::{Span, join};
use refusal::Refusal;

// The place after the sector that begins at a place.
fn sector_end(set: &[u8], start: usize) -> Result<usize, Refusal>
    requires { start < length set.now }
    ensures { counted_answer result ≡ end_rule set.now start }
{
    let left = set.len() - start;
    if left < 3 {
        return Err(Refusal::SectorSizeMismatch);
    }
    let code = set[start + 1];
    if 3 < code {
        return Err(Refusal::SectorSizeMismatch);
    }
    let size = sectors::sector_size(code);
    if left - 3 < size {
        return Err(Refusal::SectorSizeMismatch);
    }
    Ok(start + 3 + size)
}

// 13, looked for to the end of the set, or how many sectors it has.
pub fn count_sectors(set: &[u8]) -> Result<usize, Refusal>
    ensures { counted_answer result ≡ count_rule 0 (set_of set.now) }
{
    let mut count: usize = 0;
    let mut start: usize = 0;
    // `for` is no plainer: how long a step is stands in the sector
    while start < set.len() {
        let end = sector_end(set, start)?;
        count += 1;
        start = end;
    }
    Ok(count)
}

fn entry(old: u16, place: u16) -> u16
    ensures { result ≡ entry_with old place }
{
    if old == 0 {
        return place;
    }
    65535
}

// Answers the span of the numbers. 32 sectors have at most 32,864 bytes, so a place fits 16 bits and is not 65,535.
pub fn index_set(set: &[u8], index: &mut [u16; 256]) -> Span
    requires { (is_misfit_set set.now ≡ false) × (length set.now ≤ 32864) × (index.old ≡ replicate 256 0) }
    ensures indexed { Indexed set.now index.new }
    ensures spanned { Spans result index.new }
{
    let mut span = Span { low: 256, high: 0 };
    let mut start: usize = 0;
    // `for` is no plainer: how long a step is stands in the sector
    while start < set.len() {
        let code = start + 1;
        let number = set[start] as usize;
        index[number] = entry(index[number], code as u16);
        let here = Span {
            low: number,
            high: number + 1,
        };
        span = join(span, here);
        start = code + 2 + sectors::sector_size(set[code]);
    }
    span
}
