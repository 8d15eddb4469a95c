// Runs of class 2. The class of an interval depends on whether the one before it is of class 2: `short` are the bounds
// after one that is, `long` those after any other. So in a run each interval but the first goes by `short` alone.
#![tactic(auto)]

ghost use Rattle.std.specs.Prelude.{◌+◌, ◌<◌, ◌≤◌, ◌≡◌, true, length};
ghost use Rattle.timing.specs.Profile.{profile_rule};
ghost use Rattle.timing.specs.Class.{Ascending};
ghost use Rattle.runs.specs.machine.Scan.{Following, PassesTo, PassesRun, IsSure, Known, NextTwo};

use timing::{Cursor, Profile};

// How many intervals are looked at together.
const STRETCH: usize = 32;

// Whether each interval of a stretch is of class 2 if the one before it is: with no jump for any, so that it is told in
// vector instructions.
fn all_follow(short: Cursor, intervals: &[u16], from: usize) -> bool
    requires ascending { Ascending short }
    requires from_in_bounds { from + 32 ≤ length intervals.now }
    ensures { result ≡ true → Following short intervals.now from (from + 32) }
{
    let mut all = true;
    for &interval in &intervals[from..from + STRETCH] {
        all &= short.meets_two(interval);
    }
    all
}

// Passes over whole stretches of a run.
fn pass_stretches(short: Cursor, intervals: &[u16], from: usize) -> usize
    requires ascending { Ascending short }
    requires from_in_bounds { from ≤ length intervals.now }
    ensures { PassesTo short intervals.now from result }
{
    let mut k = from;
    while STRETCH <= intervals.len() - k {
        if all_follow(short, intervals, k) {
            k += STRETCH;
        } else {
            return k;
        }
    }
    k
}

// Passes over a run up to its end.
pub fn pass_run(short: Cursor, intervals: &[u16], from: usize) -> usize
    requires ascending { Ascending short }
    requires from_in_bounds { from ≤ length intervals.now }
    ensures { PassesRun short intervals.now from result }
{
    let passed = pass_stretches(short, intervals, from);
    for k in passed..intervals.len() {
        if !short.meets_two(intervals[k]) {
            return k;
        }
    }
    intervals.len()
}

// The last place up to `from` whose interval is of class 2, or is not, after either kind; 0 if there is none.
fn last_sure(short: Cursor, long: Cursor, intervals: &[u16], from: usize) -> usize
    requires ascending { Ascending short }
    requires ascending_2 { Ascending long }
    requires from_in_bounds { from < length intervals.now }
    ensures { IsSure short long intervals.now from result }
{
    for i in (1..from + 1).rev() {
        let interval = intervals[i];
        if short.meets_two(interval) == long.meets_two(interval) {
            return i;
        }
    }
    0
}

// Where the classing stands at a place: it goes from the last sure place on, and so from the start of the list only
// where no place before is sure.
fn cursor_at(p: Profile, intervals: &[u16], from: usize) -> Cursor
    requires p_value { (profile_rule p).number ≡ 0 }
    requires from_in_bounds { from < length intervals.now }
    ensures { Known p intervals.now result from }
{
    let short = Cursor::after(p, true);
    let long = Cursor::after(p, false);
    let mut cursor = short;
    let sure = last_sure(short, long, intervals, from);
    for i in sure..from {
        cursor = cursor.past(intervals[i]);
    }
    cursor
}

// The first place from `from` on whose interval is of class 2; the length of the list where there is none.
pub fn next_two(p: Profile, intervals: &[u16], from: usize) -> usize
    requires p_value { (profile_rule p).number ≡ 0 }
    requires from_in_bounds { from < length intervals.now }
    ensures { NextTwo p intervals.now from result }
{
    let cursor = cursor_at(p, intervals, from);
    if cursor.meets_two(intervals[from]) {
        return from;
    }
    let long = Cursor::after(p, false);
    for i in from + 1..intervals.len() {
        if long.meets_two(intervals[i]) {
            return i;
        }
    }
    intervals.len()
}
