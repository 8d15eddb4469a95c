// Document 01, "Finding and reading a field": the lock finder.
ghost use Rattle.std.specs.Prelude.{◌≤◌, ◌≡◌, map, length, drop};
ghost use Rattle.refusal.specs.Answer.{counted_answer};
ghost use Rattle.timing.specs.Profile.{profile_rule};
ghost use Rattle.timing.specs.Class.{class_number, classes_of, classes_from};
ghost use Rattle.locks.specs.Lock.{begins_with, mark_ahead, lock_from, search_rule, find_rule};
ghost use Rattle.locks.specs.machine.Marks.{three_marks};

use refusal::Refusal;
use runs::{next_two, pass_run};
use timing::Class::{Four, Three, Two};
use timing::{Class, Cursor, Profile};

// The classes of a lock's marks: one A1, or two C2.
const MARK_A1: [Class; 5] = [Three, Four, Three, Four, Three];

const MARK_C2: [Class; 10] = [
    Three, Two, Three, Four, Three, Four, Two, Three, Four, Three,
];

// And of three A1 marks, with which the fields of a sector begin.
const THREE_A1: [Class; 15] = [
    Three, Four, Three, Four, Three, Two, Four, Three, Four, Three, Two, Four, Three, Four, Three,
];

// Whether the intervals from a place on have the classes of a pattern at their front.
fn begins_with(start: Cursor, intervals: &[u16], at: usize, pattern: &[Class]) -> bool
    requires { at ≤ length intervals.now }
    ensures { result ≡ begins_with (map class_number pattern.now) (classes_from start (drop at intervals.now)) }
{
    if intervals.len() - at < pattern.len() {
        return false;
    }
    let mut cursor = start;
    for (i, &class) in pattern.iter().enumerate() {
        let classed = cursor.step(intervals[at + i]);
        if classed.class == class {
            cursor = classed.next;
        } else {
            return false;
        }
    }
    true
}

// Whether a lock's mark stands at a place.
fn mark_ahead(cursor: Cursor, intervals: &[u16], at: usize) -> bool
    requires { at ≤ length intervals.now }
    ensures { result ≡ mark_ahead (classes_from cursor (drop at intervals.now)) }
{
    let a1 = MARK_A1;
    if begins_with(cursor, intervals, at, &a1) {
        return true;
    }
    let c2 = MARK_C2;
    begins_with(cursor, intervals, at, &c2)
}

// Invariant: no lock stands before k, and those after `first` up to `seen` are of class 2 if the one before them is.
// The 64 before k are looked at from the last one back, but for the first of them; `seen` only grows, so that none is
// looked at twice. One that is not of class 2 after class 2 can only be the first of a run, and rules out every place
// that has it and the one before it among its 64. Where none is ruled out, the 64 are a run if their first is of class
// 2. Then the mark is looked for at the run's end, since no mark begins with class 2.
fn scan(p: Profile, intervals: &[u16]) -> Result<usize, Refusal>
    requires { (profile_rule p).number ≡ 0 }
    ensures { counted_answer result ≡ lock_from (classes_of p intervals.now) 0 }
{
    let short = Cursor::after(p, true);
    let mut first: usize = 0;
    let mut seen: usize = 1;
    let place = 'scan: loop {
        let k = first + 64;
        if intervals.len() <= k {
            break 'scan Err(Refusal::NoLock);
        }
        for i in (seen..k).rev() {
            if !short.meets_two(intervals[i]) {
                first = i;
                seen = k;
                continue 'scan;
            }
        }
        let begin = next_two(p, intervals, first);
        if first < begin {
            first = begin;
            seen = k.max(begin + 1);
            continue 'scan;
        }
        let end = pass_run(short, intervals, k);
        if mark_ahead(short, intervals, end) {
            break 'scan Ok(end);
        }
        first = end + 1;
        seen = end + 2;
    };
    place
}

// Under an accepted profile. The intervals from `start` on are searched, and the place is counted from there.
pub fn search(p: Profile, intervals: &[u16], start: usize) -> Result<usize, Refusal>
    requires { (profile_rule p).number ≡ 0 }
    ensures { counted_answer result ≡ search_rule p intervals.now start }
{
    if intervals.len() <= start {
        return Err(Refusal::NoLock);
    }
    let k = scan(p, &intervals[start..])?;
    Ok(start + k)
}

// 1, 2, 10; else the smallest place at which a lock stands with all 64 at or after `start`.
#[tactic(auto, using(refusal::proofs::AnswerLaws::refusal_decides, refusal::proofs::AnswerLaws::refusal_keeps_the_buffer), unfolding(crate::specs::Lock::find_rule))]
pub fn find_lock(p: Profile, intervals: &[u16], start: usize) -> Result<usize, Refusal>
    ensures { counted_answer result ≡ find_rule p intervals.now start }
{
    timing::check(p)?;
    search(p, intervals, start)
}

// Whether the intervals begin as those of three A1 marks at a lock do. A field that does not is none of a sector, and
// need not be read.
pub fn three_marks_ahead(p: Profile, intervals: &[u16]) -> bool
    ensures { result ≡ begins_with three_marks (classes_of p intervals.now) }
{
    let marks = THREE_A1;
    begins_with(Cursor::start(p), intervals, 0, &marks)
}
