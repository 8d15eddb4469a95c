// Whether each interval of a block is of class 2, as a mask: all ones where it is, 0 where it is not. By masks the
// bounds for the next interval are chosen with no jump, and in vector instructions.
ghost use Rattle.std.specs.Prelude.{◌≡◌, ◌≤◌, map, length, if◌then◌else◌, nat_lt};
ghost use Rattle.timing.specs.Class.{Ascending, behind};
ghost use Rattle.clearance.specs.machine.Masks.{mask_of, is_ones, IsMask, mask_in, masks_from, bounds_by};

use intervals::all_sure;
use timing::{Bounds, Cursor, HalfClocks};

fn mask_of(two: bool) -> u16
    ensures { result ≡ mask_of two }
{
    0u16.wrapping_sub(two as u16)
}

// All ones where a number is below another, by what their difference borrows: a compare becomes a jump in a loop whose
// next turn waits for it.
fn below(a: u16, b: u16) -> u16
    ensures { result ≡ mask_of (nat_lt a b) }
{
    ((a as u32).wrapping_sub(b as u32) >> 16) as u16
}

// Of an interval where the classing stands.
fn mask_in(cursor: Cursor, interval: u16) -> u16
    requires { Ascending cursor }
    ensures { result ≡ mask_in cursor interval }
{
    let past = interval.wrapping_sub(cursor.min.0);
    below(past, cursor.bounds.b23.0 - cursor.min.0)
}

fn chosen(mask: u16, short: HalfClocks, long: HalfClocks) -> HalfClocks
    requires { IsMask mask }
    ensures { result ≡ (if is_ones mask then short else long) }
{
    let change = short.0.wrapping_sub(long.0);
    HalfClocks(long.0.wrapping_add(change & mask))
}

// The bounds behind an interval of this mask, each chosen by itself.
pub fn bounds_by(mask: u16, short: Bounds, long: Bounds) -> Bounds
    requires { IsMask mask }
    ensures { result ≡ bounds_by mask short long }
{
    Bounds {
        b23: chosen(mask, short.b23, long.b23),
        b34: chosen(mask, short.b34, long.b34),
    }
}

fn behind_mask(cursor: Cursor, mask: u16) -> Cursor
    requires { IsMask mask }
    ensures { result ≡ behind cursor (is_ones mask) }
{
    let short = cursor.short;
    let long = cursor.long;
    let mut next = cursor;
    next.bounds = bounds_by(mask, short, long);
    next
}

// All where the classing stands the same.
fn fill_alike(cursor: Cursor, intervals: &[u16], masks: &mut [u16])
    requires ascending { Ascending cursor }
    requires masks_len { length masks.old ≡ length intervals.now }
    ensures { masks.new ≡ map (mask_in cursor) intervals.now }
{
    for (k, &interval) in intervals.iter().enumerate() {
        masks[k] = mask_of(cursor.meets_two(interval));
    }
}

// One after the other.
fn fill_in_turn(start: Cursor, intervals: &[u16], masks: &mut [u16])
    requires ascending { Ascending start }
    requires masks_len { length masks.old ≡ length intervals.now }
    ensures { masks.new ≡ masks_from start intervals.now }
{
    let mut cursor = start;
    for (k, &interval) in intervals.iter().enumerate() {
        let mask = mask_in(cursor, interval);
        masks[k] = mask;
        cursor = behind_mask(cursor, mask);
    }
}

// Of a block that has some. Where no interval lies between the two B23, what stands before one does not matter, but for
// the first, which goes by the cursor.
pub fn fill(cursor: Cursor, intervals: &[u16], masks: &mut [u16])
    requires ascending { Ascending cursor }
    requires in_bounds { (1 ≤ length intervals.now) × (length masks.old ≡ length intervals.now) }
    ensures { masks.new ≡ masks_from cursor intervals.now }
{
    if all_sure(cursor.short, cursor.long, intervals) {
        fill_alike(cursor.behind(true), intervals, masks);
        masks[0] = mask_in(cursor, intervals[0]);
        return;
    }
    fill_in_turn(cursor, intervals, masks);
}
