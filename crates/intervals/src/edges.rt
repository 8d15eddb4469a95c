// Whether a list's intervals are cells: 5, narrow, or 6, wide, for the first that is none. Min and Rpt alone tell, and
// they are the same after each kind of interval.
ghost use Rattle.std.specs.Prelude.{◌≡◌, ◌+◌, ◌-◌, ◌^◌, ◌≤◌, ◌&&◌, length, nat_lt};
ghost use Rattle.lists.specs.Place.{everywhere};
ghost use Rattle.refusal.specs.Answer.{verdict_answer};
ghost use Rattle.timing.specs.Profile.{profile_rule};
ghost use Rattle.timing.specs.Class.{is_cell, classes_from, classes_of, Ascending};
ghost use Rattle.intervals.specs.Cells.{edge_rule_from, edge_rule};
ghost use Rattle.intervals.specs.machine.Inside.{is_inside, inside_from};

use refusal::Refusal;
use timing::{Cursor, Profile};

// So many intervals are looked at together: enough for vector instructions, and few to look through one by one.
const LOOK: usize = 128;

// Whether all lie between the two edges, where there is room between them: none is further past the lower than the
// upper is, and one below it wraps to above all others. With no jump for any, so that vector instructions tell it.
fn all_inside(min: u16, rpt: u16, intervals: &[u16]) -> bool
    requires { min ≤ rpt }
    ensures { result ≡ (nat_lt 0 (rpt - min) && everywhere (is_inside min rpt) intervals.now) }
{
    let mut most: u16 = 0;
    for interval in intervals {
        most = most.max(interval.wrapping_sub(min));
    }
    most < rpt - min
}

// Whether all are cells.
pub fn all_cells(p: Profile, intervals: &[u16]) -> bool
    requires { (profile_rule p).number ≡ 0 }
    ensures { result ≡ everywhere is_cell (classes_of p intervals.now) }
{
    all_inside(p.min.0, p.rpt.0, intervals)
}

// The first that is none, the first of all having place `from`.
fn find_outside(min: u16, rpt: u16, from: usize, intervals: &[u16]) -> Result<(), Refusal>
    requires { from + length intervals.now ≤ 2 ^ 32 }
    ensures { verdict_answer result ≡ inside_from min rpt from intervals.now }
{
    for (k, &interval) in intervals.iter().enumerate() {
        if interval < min {
            return Err(Refusal::IntervalTooShort((from + k) as u32));
        }
        if rpt <= interval {
            return Err(Refusal::IntervalTooLong((from + k) as u32));
        }
    }
    Ok(())
}

// It is looked for only where there is one among some.
pub fn check_edges_from(start: Cursor, from: usize, intervals: &[u16]) -> Result<(), Refusal>
    requires ascending { Ascending start }
    requires intervals_bound { from + length intervals.now ≤ 2 ^ 32 }
    ensures { verdict_answer result ≡ edge_rule_from from (classes_from start intervals.now) }
{
    let min = start.min.0;
    let rpt = start.rpt.0;
    let mut k: usize = 0;
    while k < intervals.len() {
        let next = k + LOOK.min(intervals.len() - k);
        if all_inside(min, rpt, &intervals[k..next]) {
            k = next;
        } else {
            return find_outside(min, rpt, from + k, &intervals[k..]);
        }
    }
    Ok(())
}

// Of a whole list.
pub fn check_edges(p: Profile, intervals: &[u16]) -> Result<(), Refusal>
    requires p_value { (profile_rule p).number ≡ 0 }
    requires intervals_len_bound { length intervals.now ≤ 2 ^ 32 }
    ensures { verdict_answer result ≡ edge_rule (classes_of p intervals.now) }
{
    check_edges_from(Cursor::start(p), 0, intervals)
}
