// How a sector's field opens: with three A1 marks, then the byte that tells an ID field from a data field.
ghost use Rattle.std.specs.Prelude.{◌≤◌, ◌≡◌, length};
ghost use Rattle.timing.specs.Profile.{profile_rule};
ghost use Rattle.entries.specs.FieldKinds.{opens_with};
ghost use Rattle.entries.specs.machine.Steps.{opened_of, GivesItems};

use fields::reader::{Field, read_in_place};
use intervals::edges::all_cells;
use items::MARK_A1;
use locks::finder::three_marks_ahead;
use timing::Profile;

// A field of a kind: the intervals that it used and whether its sum holds.
#[derive(Clone, Copy, PartialEq, Eq)]
pub struct Opened {
    pub used: usize,
    pub holds: bool,
}

pub fn opens_with(items: &[u16], kind: u16) -> bool
    requires { 4 ≤ length items.now }
    ensures { result ≡ opens_with kind items.now }
{
    (items[0] == MARK_A1) & (items[1] == MARK_A1) & (items[2] == MARK_A1) & (items[3] == kind)
}

// A field of n bytes, the first of which are handed over; the intervals begin at a lock.
fn read_marked(
    p: Profile,
    intervals: &[u16],
    n: usize,
    kind: u16,
    items: &mut [u16],
) -> Option<Opened>
    requires p_value { (profile_rule p).number ≡ 0 }
    requires in_bounds { (4 ≤ length items.old) × (length items.old ≤ n) × (n ≤ 1030) }
    ensures answer { result ≡ opened_of p intervals.now n kind }
    ensures items { GivesItems p intervals.now n kind items.old items.new }
{
    let Ok(Field { used, holds, .. }) = read_in_place(p, intervals, n, items) else {
        return None;
    };
    if opens_with(items, kind) {
        return Some(Opened { used, holds });
    }
    None
}

// A field uses 4 n intervals at least, as a cell gives two bits at most. Where one of so many is no cell it does not
// read, which is told in a small part of the time that reading takes.
fn read_sound(
    p: Profile,
    intervals: &[u16],
    n: usize,
    kind: u16,
    items: &mut [u16],
) -> Option<Opened>
    requires p_value { (profile_rule p).number ≡ 0 }
    requires in_bounds { (4 ≤ length items.old) × (length items.old ≤ n) × (n ≤ 1030) }
    ensures answer { result ≡ opened_of p intervals.now n kind }
    ensures items { GivesItems p intervals.now n kind items.old items.new }
{
    let front = (4 * n).min(intervals.len());
    if all_cells(p, &intervals[..front]) {
        return read_marked(p, intervals, n, kind, items);
    }
    None
}

// Most of what a lock precedes on a worn track is seen to be no field of a sector by its first intervals.
pub fn read_opened(
    p: Profile,
    intervals: &[u16],
    n: usize,
    kind: u16,
    items: &mut [u16],
) -> Option<Opened>
    requires p_value { (profile_rule p).number ≡ 0 }
    requires in_bounds { (4 ≤ length items.old) × (length items.old ≤ n) × (n ≤ 1030) }
    ensures answer { result ≡ opened_of p intervals.now n kind }
    ensures items { GivesItems p intervals.now n kind items.old items.new }
{
    if three_marks_ahead(p, intervals) {
        return read_sound(p, intervals, n, kind, items);
    }
    None
}
