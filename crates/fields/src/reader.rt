// Document 01, "Finding and reading a field": the field reader.
ghost use Rattle.std.specs.Prelude.{◌≤◌, ◌≡◌, length};
ghost use Rattle.timing.specs.Profile.{profile_rule};
ghost use Rattle.timing.specs.Class.{classes_of};
ghost use Rattle.fields.specs.FieldRule.{field_answer, field_reading, field_output, field_rest, rest_place};
ghost use Rattle.fields.specs.machine.Gather.{GathersItems, deliver_reading, deliver_output};
ghost use Rattle.fields.specs.machine.Gather.{checked_reading, checked_output};

use crate::gather::gather;
use lists::store;
use refusal::Refusal;
use timing::Profile;

// The most bytes of a field: a sector of 1,024, its marks and its check bytes.
pub const MAX_FIELD_BYTES: usize = 1030;

// As many as an ID field has, and more.
pub const SHORT_FIELD_BYTES: usize = 16;

// What a field reads as: how many items, how many intervals they used, and whether the register is zero after them.
#[derive(Clone, Copy, PartialEq, Eq)]
pub struct Field {
    pub count: usize,
    pub used: usize,
    pub holds: bool,
}

// What was gathered, handed over where the output has room for it.
pub fn deliver(items: &[u16], used: usize, holds: bool, out: &mut [u16]) -> Result<Field, Refusal>
    ensures answer { field_answer result ≡ deliver_reading (length items.now) used holds (length out.old) }
    ensures output { out.new ≡ deliver_output items.now out.old }
{
    if out.len() < items.len() {
        return Err(Refusal::OutputTooShort);
    }
    store(items, 0, out);
    let count = items.len();
    Ok(Field { count, used, holds })
}

// The items wait in a buffer, as a refusal changes nothing that was lent.
fn read_into(
    p: Profile,
    intervals: &[u16],
    n: usize,
    buffer: &mut [u16],
    out: &mut [u16],
) -> Result<Field, Refusal>
    requires p_value { (profile_rule p).number ≡ 0 }
    requires le_n { (1 ≤ n) × (n ≤ 1030) × (n ≤ length buffer.old) }
    ensures answer { field_answer result ≡ checked_reading (classes_of p intervals.now) n (length out.old) }
    ensures output { out.new ≡ checked_output (classes_of p intervals.now) n out.old }
{
    let gathered = gather(p, intervals, n as u32, buffer);
    let used = gathered.end?;
    deliver(&buffer[..n], used, gathered.holds, out)
}

// A short field has a short buffer: to clear the long one costs more than to read ten bytes.
fn read_checked(p: Profile, intervals: &[u16], n: usize, out: &mut [u16]) -> Result<Field, Refusal>
    requires p_value { (profile_rule p).number ≡ 0 }
    requires le_n { (1 ≤ n) × (n ≤ 1030) }
    ensures answer { field_answer result ≡ checked_reading (classes_of p intervals.now) n (length out.old) }
    ensures output { out.new ≡ checked_output (classes_of p intervals.now) n out.old }
{
    if n <= SHORT_FIELD_BYTES {
        let mut buffer = [0u16; SHORT_FIELD_BYTES];
        return read_into(p, intervals, n, &mut buffer, out);
    }
    let mut buffer = [0u16; MAX_FIELD_BYTES];
    read_into(p, intervals, n, &mut buffer, out)
}

// 1, 2, 12, then 5, 6 or 11 as first met, 8, 9. On acceptance the items fill the front of the output.
pub fn read_field(
    p: Profile,
    intervals: &[u16],
    n: usize,
    out: &mut [u16],
) -> Result<Field, Refusal>
    ensures answer { field_answer result ≡ field_reading p intervals.now n (length out.old) }
    ensures output { out.new ≡ field_output p intervals.now n out.old }
{
    timing::check(p)?;
    if (n < 1) | (MAX_FIELD_BYTES < n) {
        return Err(Refusal::CountOutOfRange);
    }
    read_checked(p, intervals, n, out)
}

// Reads alike, and answers the rest of the caller's own list, from the first unused interval; on a refusal, all of it.
pub fn read_rest<'a>(p: Profile, intervals: &'a [u16], n: usize, out: &mut [u16]) -> &'a [u16]
    ensures place { result.ref_ptr ≡ rest_place p intervals.now n (length out.old) intervals.entry.ref_ptr }
    ensures rest { result.now ≡ field_rest p intervals.now n (length out.old) }
    ensures output { out.new ≡ field_output p intervals.now n out.old }
{
    match read_field(p, intervals, n, out) {
        Err(_) => intervals,
        Ok(field) => &intervals[field.used..],
    }
}

// Reads alike, and stores as many items as there is room for, without a buffer between: after a refusal other numbers
// may stand there. Who reads field after field has checked the profile once.
pub fn read_in_place(
    p: Profile,
    intervals: &[u16],
    n: usize,
    items: &mut [u16],
) -> Result<Field, Refusal>
    requires p_value { (profile_rule p).number ≡ 0 }
    requires le_n { (1 ≤ n) × (n ≤ 1030) }
    ensures answer { field_answer result ≡ checked_reading (classes_of p intervals.now) n n }
    ensures items { GathersItems (classes_of p intervals.now) n items.old items.new }
{
    let gathered = gather(p, intervals, n as u32, items);
    let used = gathered.end?;
    Ok(Field {
        count: n,
        used,
        holds: gathered.holds,
    })
}
