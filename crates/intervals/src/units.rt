// The units of a block of intervals. The class of an interval depends on the one before it, so that they would have to
// be found one after the other; but nearly always no interval of a block lies between the two B23. Then whether one is
// of class 2 is told by itself, and all are found at once, in vector instructions.
ghost use Rattle.std.specs.Prelude.{◌≡◌, ◌+◌, ◌-◌, ◌≤◌, Bool, true, false, ◌∷◌, map, length, if◌then◌else◌, slice_index};
ghost use Rattle.lists.specs.Place.{everywhere};
ghost use Rattle.timing.specs.Class.{class_in, is_two, behind, cursor_after};
ghost use Rattle.timing.specs.machine.Edges.{units_from};
ghost use Rattle.intervals.specs.machine.Either.{units_by, one_side, is_sure, mask_of, kind_mask};

use timing::{Bounds, Cursor, HalfClocks};

// A kind for each interval of a block, at the place behind it.
const KINDS: usize = 129;

// By given bounds.
fn units_by(bounds: Bounds, interval: u16) -> u8
    ensures { result ≡ units_by bounds interval }
{
    2 + (bounds.b23.0 <= interval) as u8 + (bounds.b34.0 <= interval) as u8
}

// Whether an interval does not lie between two bounds. One compare for it: between them it is less past the lower than
// the upper is; below both the difference wraps, and is no less.
fn is_clear(low: u16, high: u16, interval: u16) -> bool
    requires { low ≤ high }
    ensures { result ≡ one_side low high interval }
{
    high - low <= interval.wrapping_sub(low)
}

// Whether each interval is of class 2 after either kind, or after none: it does not lie between the two B23. The
// clearance asks it, since the one before an interval then tells its bounds.
pub fn all_sure(short: Bounds, long: Bounds, intervals: &[u16]) -> bool
    ensures { result ≡ everywhere (is_sure short long) intervals.now }
{
    let low = short.b23.0.min(long.b23.0);
    let high = short.b23.0.max(long.b23.0);
    let mut all = true;
    for &interval in intervals {
        all &= is_clear(low, high, interval);
    }
    all
}

// At once, all by the same bounds.
fn fill_units(bounds: Bounds, intervals: &[u16], units: &mut [u8])
    requires { length units.old ≡ length intervals.now }
    ensures { units.new ≡ map (units_by bounds) intervals.now }
{
    for (k, &interval) in intervals.iter().enumerate() {
        units[k] = units_by(bounds, interval);
    }
}

// One after the other.
fn units_in_turn(start: Cursor, intervals: &[u16], units: &mut [u8]) -> Cursor
    requires { length units.old ≡ length intervals.now }
    ensures cursor { result ≡ cursor_after start intervals.now }
    ensures units { units.new ≡ units_from start intervals.now }
{
    let mut cursor = start;
    for (k, &interval) in intervals.iter().enumerate() {
        units[k] = cursor.units(interval);
        cursor = cursor.past(interval);
    }
    cursor
}

// All ones or none, by which to choose without a jump.
fn mask_of(two: bool) -> u16
    ensures { result ≡ mask_of two }
{
    if two { 65535 } else { 0 }
}

fn choose(mask: u16, short: u16, long: u16) -> u16
    ensures { (two : Bool) → mask ≡ mask_of two → result ≡ (if two then short else long) }
{
    let gap = short.wrapping_sub(long);
    long.wrapping_add(gap & mask)
}

// Whether an interval is of class 2, where that is told by itself.
fn is_two(c: Cursor, interval: u16) -> bool
    ensures { result ≡ is_two (class_in (behind c true) interval) }
{
    (c.min.0 <= interval) & (interval < c.short.b23.0)
}

// The kind of each at the place behind it; the first is as behind another than class 2.
fn mark_kinds(c: Cursor, intervals: &[u16], kinds: &mut [u16])
    requires { length kinds.old ≡ length intervals.now + 1 }
    ensures { kinds.new ≡ 0 ∷ map (kind_mask c) intervals.now }
{
    kinds[0] = 0;
    for (k, &interval) in intervals.iter().enumerate() {
        kinds[k + 1] = mask_of(is_two(c, interval));
    }
}

// Each by the kind of the one before it, the first as behind another than class 2. All stand on the same side of both
// B23, so that B34 alone is chosen.
fn fill_behind(c: Cursor, intervals: &[u16], kinds: &[u16], units: &mut [u8])
    requires units_len { length units.old ≡ length intervals.now }
    requires intervals_value { everywhere (is_sure c.short c.long) intervals.now ≡ true }
    requires kinds_value { kinds.now ≡ 0 ∷ map (kind_mask c) intervals.now }
    ensures { units.new ≡ units_from (behind c false) intervals.now }
{
    for (k, &interval) in intervals.iter().enumerate() {
        let b34 = choose(kinds[k], c.short.b34.0, c.long.b34.0);
        let bounds = Bounds {
            b23: HalfClocks(c.short.b23.0),
            b34: HalfClocks(b34),
        };
        units[k] = units_by(bounds, interval);
    }
}

fn last_of(intervals: &[u16]) -> u16
    requires { 1 ≤ length intervals.now }
    ensures { result ≡ slice_index intervals.now (length intervals.now - 1) }
{
    intervals[intervals.len() - 1]
}

// Where none lies between the two B23. The first two go by where the classing stands.
fn units_of_sure(start: Cursor, intervals: &[u16], kinds: &mut [u16], units: &mut [u8]) -> Cursor
    requires units_len { (length units.old ≡ length intervals.now) × (2 ≤ length intervals.now) }
    requires kinds_len { length kinds.old ≡ length intervals.now + 1 }
    requires intervals_value { everywhere (is_sure start.short start.long) intervals.now ≡ true }
    ensures cursor { result ≡ cursor_after start intervals.now }
    ensures units { units.new ≡ units_from start intervals.now }
{
    mark_kinds(start, intervals, kinds);
    fill_behind(start, intervals, kinds, units);
    units[0] = start.units(intervals[0]);
    let next = start.past(intervals[0]);
    units[1] = next.units(intervals[1]);
    start.behind(true).past(last_of(intervals))
}

// The units of intervals, each as a cell, from where the classing stands on.
pub fn units_of(start: Cursor, intervals: &[u16], units: &mut [u8]) -> Cursor
    requires { (length units.old ≡ length intervals.now) × (length units.old ≤ 128) }
    ensures cursor { result ≡ cursor_after start intervals.now }
    ensures units { units.new ≡ units_from start intervals.now }
{
    if start.is_steady() {
        fill_units(start.bounds, intervals, units);
        return start;
    }
    if intervals.len() < 2 {
        return units_in_turn(start, intervals, units);
    }
    if all_sure(start.short, start.long, intervals) {
        let n = intervals.len() + 1;
        let mut kinds = [0u16; KINDS];
        return units_of_sure(start, intervals, &mut kinds[..n], units);
    }
    units_in_turn(start, intervals, units)
}
