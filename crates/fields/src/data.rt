// The data of a field that reads, as bytes, straight to where they belong: without a buffer of items between, and
// without a sum, since the field was read before.
ghost use Rattle.std.specs.Prelude.{◌-◌, ◌≤◌, ◌≡◌, map, drop};
ghost use Rattle.lists.specs.Filled.{stored_at};
ghost use Rattle.timing.specs.Profile.{profile_rule};
ghost use Rattle.timing.specs.Class.{classes_of};
ghost use Rattle.half_cells.specs.machine.Candidate.{candidate};
ghost use Rattle.fields.specs.Field.{field_items};
ghost use Rattle.fields.specs.Bytes.{byte_of};
ghost use Rattle.fields.specs.machine.Gather.{gather_rule};
ghost use Rattle.fields.specs.machine.End.{items_passed};

use crate::gather::{PART, PART_WORDS};
use half_cells::words_to_bytes;
use passes::block::Progress;
use timing::Profile;

// Items from a place on as bytes, as many as there is room for.
fn store_bytes(items: &[u16], at: usize, out: &mut [u8])
    ensures { out.new ≡ stored_at out.old at (map byte_of items.now) }
{
    if out.len() <= at {
        return;
    }
    let count = (out.len() - at).min(items.len());
    for (k, item) in items[..count].iter().enumerate() {
        out[at + k] = (*item % 256) as u8;
    }
}

// The code words of a part, the first of them the item of this number: the items before `skip` are passed over, the
// others go to their places.
fn put_part(words: &mut [u16], number: usize, skip: usize, out: &mut [u8])
    ensures { out.new
        ≡ stored_at out.old (number - skip)
        (drop (skip - number) (map byte_of (map candidate words.old))) }
{
    words_to_bytes(words);
    if skip <= number {
        return store_bytes(words, number - skip, out);
    }
    let first = (skip - number).min(words.len());
    store_bytes(&words[first..], 0, out);
}

// One pass over the intervals of n bytes, each taken as a cell.
fn pass_bytes(p: Profile, intervals: &[u16], n: u32, skip: usize, out: &mut [u8])
    ensures { out.new
        ≡ stored_at out.old 0 (drop skip (map byte_of (items_passed p intervals.now n))) }
{
    let mut words = [0u16; PART_WORDS];
    let mut at = Progress::start(p);
    while at.goes_on(n, intervals.len()) {
        let done = at.pass.reading.words;
        at = at.pass_on(intervals, PART, n, &mut words);
        let count = (at.pass.reading.words - done) as usize;
        put_part(&mut words[..count], done as usize, skip, out);
    }
}

// From the item numbered `skip` on, as many as there is room for.
pub fn read_bytes(p: Profile, intervals: &[u16], n: usize, skip: usize, out: &mut [u8])
    requires p_value { (profile_rule p).number ≡ 0 }
    requires le_n { (1 ≤ n) × (n ≤ 1030) × ((gather_rule (classes_of p intervals.now) n).number ≡ 0) }
    ensures { out.new
        ≡ stored_at out.old 0 (drop skip (map byte_of (field_items (classes_of p intervals.now) n))) }
{
    pass_bytes(p, intervals, n as u32, skip, out);
}
