// The pass over a field's intervals, corrected block by block: its items go through the check register and into a buffer,
// as in the field reader.
ghost use Rattle.std.specs.Prelude.{◌+◌, ◌^◌, ◌≤◌, ◌<◌, ◌≡◌, map, length};
ghost use Rattle.lists.specs.Filled.{stored_at};
ghost use Rattle.refusal.specs.Answer.{verdict_answer, counted_answer};
ghost use Rattle.timing.specs.Profile.{profile_rule};
ghost use Rattle.timing.specs.Class.{Ascending, classes_of, cursor_after};
ghost use Rattle.items.specs.Written.{after_bytes};
ghost use Rattle.half_cells.specs.machine.Candidate.{candidate};
ghost use Rattle.passes.specs.machine.Blocks.{pass_on, next_of, words_of};
ghost use Rattle.fields.specs.machine.End.{items_passed};
ghost use Rattle.fields.specs.machine.Gather.{gather_rule, GathersItems, TellsSum};
ghost use Rattle.pace.specs.machine.Cut.{slowed, Able};
ghost use Rattle.speed.specs.machine.Along.{at_onset, edges_after, OnEven, Takes, Ends, TellsLeast};

use clearance::extremes::Extremes;
use clearance::seen::Seen;
use fields::gather::{conclude, sum_up};
use intervals::edges::check_edges_from;
use items::Check;
use pace::Pace;
use passes::block::{Progress, pass_block};
use refusal::Refusal;
use timing::{Cursor, Profile};

// As many intervals are corrected at once: an even number, so that each block begins with an even interval.
const BLOCK: usize = 64;

// So many code words has a block at most.
const BLOCK_WORDS: usize = 17;

// How far the reading of a block came.
#[derive(Clone, Copy, PartialEq, Eq)]
struct BlockRead {
    at: Progress,
    check: Check,
}

// How far the pass came: the check register after its items, the first interval that is no cell, and the extremes.
#[derive(Clone, Copy, PartialEq, Eq)]
pub struct Along {
    pub at: Progress,
    pub check: Check,
    pub edges: Result<(), Refusal>,
    pub seen: Seen,
}

// How the pass ends: why it is refused, or how many intervals it used; whether the register is zero; the clearance. The
// clauses `answer`, `sum` and `least` of `gather` name each, so it is no `Result` of the three.
#[derive(Clone, Copy, PartialEq, Eq)]
pub struct Gathered {
    pub end: Result<usize, Refusal>,
    pub holds: bool,
    pub clearance: u16,
}

// The first interval that is no cell, in all before or in these.
#[tactic(auto, using(refusal::proofs::AnswerLaws::refusal_decides))]
fn edges_after(
    before: Result<(), Refusal>,
    start: Cursor,
    from: usize,
    intervals: &[u16],
) -> Result<(), Refusal>
    requires ascending { Ascending start }
    requires intervals_bound { from + length intervals.now ≤ 2 ^ 32 }
    ensures { verdict_answer result ≡ edges_after (verdict_answer before) start from intervals.now }
{
    before?;
    check_edges_from(start, from, intervals)
}

// The intervals of a block, read: their items through the register, and to their places.
fn read_block(start: Progress, check: Check, block: &[u16], n: u32, out: &mut [u16]) -> BlockRead
    requires words_lt_n { (start.pass.reading.words < n) × (start.pass.reading.held ≤ 16) }
    requires block_len_bound { (length block.now ≤ 64) × (start.pass.used + length block.now ≤ 2 ^ 32) }
    ensures pass { result.at.pass ≡ (pass_on n start block.now).end }
    ensures cursor { result.at.cursor ≡ cursor_after start.cursor block.now }
    ensures check { result.check ≡ after_bytes check (map candidate (pass_on n start block.now).words) }
    ensures output { out.new ≡ stored_at out.old start.pass.reading.words
        (map candidate (pass_on n start block.now).words) }
{
    let mut units = [0u8; BLOCK];
    let mut words = [0u16; BLOCK_WORDS];
    let done = start.pass.reading.words;
    let length = block.len();
    let at = pass_block(start, block, &mut units[..length], n, 0, &mut words);
    let count = (at.pass.reading.words - done) as usize;
    let check = sum_up(check, &mut words[..count], done as usize, out);
    BlockRead { at, check }
}

impl Along {
    // Before the first interval.
    fn start(p: Profile) -> Along
        ensures { result ≡ at_onset p }
    {
        Along {
            at: Progress::start(p),
            check: Check::fresh(),
            edges: Ok(()),
            seen: Seen {
                extremes: Extremes::none(),
                cursor: Cursor::start(p),
            },
        }
    }

    // With a block more.
    fn next(self, block: &[u16], n: u32, out: &mut [u16]) -> Along
        requires words_lt_n { (self.at.pass.reading.words < n) × (self.at.pass.reading.held ≤ 16) }
        requires block_len_bound { (length block.now ≤ 64) × (self.at.pass.used + length block.now ≤ 2 ^ 32) }
        requires ascending { Ascending self.at.cursor × Ascending self.seen.cursor }
        ensures takes { Takes n self block.now result }
        ensures output { out.new ≡ stored_at out.old self.at.pass.reading.words
            (map candidate (pass_on n self.at block.now).words) }
    {
        let start = self.at;
        let edges = self.edges;
        let seen = self.seen;
        let cursor = start.cursor;
        let from = start.pass.used;
        let read = read_block(start, self.check, block, n, out);
        let at = read.at;
        let check = read.check;
        let used = at.pass.used - from;
        Along {
            at,
            check,
            edges: edges_after(edges, cursor, from, &block[..used]),
            seen: seen.with_all(&block[..used]),
        }
    }

    // With the next block of a list, corrected.
    fn advance(self, pace: Pace, intervals: &[u16], n: u32, out: &mut [u16]) -> Along
        requires able { Able pace }
        requires words_lt_n { (self.at.pass.reading.words < n) × (self.at.pass.reading.held ≤ 16) }
        requires on_even { OnEven self.at.pass.used intervals.now }
        requires ascending { Ascending self.at.cursor × Ascending self.seen.cursor }
        ensures takes { Takes n self (next_of 64 (slowed pace intervals.now) self.at) result }
        ensures output { out.new ≡ stored_at out.old self.at.pass.reading.words
            (map candidate (words_of 64 n (slowed pace intervals.now) self.at)) }
    {
        let mut block = [0u16; BLOCK];
        let from = self.at.pass.used;
        let count = BLOCK.min(intervals.len() - from);
        pace.correct(&intervals[from..from + count], &mut block[..count]);
        self.next(&block[..count], n, out)
    }
}

// One pass over the corrected intervals of n bytes, each taken as a cell.
fn pass_over(p: Profile, pace: Pace, intervals: &[u16], n: u32, out: &mut [u16]) -> Along
    requires p_value { (profile_rule p).number ≡ 0 }
    requires le_n { (1 ≤ n) × (n ≤ 1030) }
    requires able { Able pace }
    ensures end { Ends p (slowed pace intervals.now) n result }
    ensures output { out.new ≡ stored_at out.old 0 (items_passed p (slowed pace intervals.now) n) }
{
    let mut along = Along::start(p);
    while along.at.goes_on(n, intervals.len()) {
        along = along.advance(pace, intervals, n, out);
    }
    along
}

// A field of n bytes. An interval among the used ones that is no cell comes before all else.
pub fn gather(p: Profile, pace: Pace, intervals: &[u16], n: u32, out: &mut [u16]) -> Gathered
    requires p_value { (profile_rule p).number ≡ 0 }
    requires le_n { (1 ≤ n) × (n ≤ 1030) }
    requires able { Able pace }
    ensures answer { counted_answer result.end ≡ gather_rule (classes_of p (slowed pace intervals.now)) n }
    ensures sum { TellsSum (classes_of p (slowed pace intervals.now)) n result.holds }
    ensures least { TellsLeast p (slowed pace intervals.now) n result.clearance }
    ensures fill { GathersItems (classes_of p (slowed pace intervals.now)) n out.old out.new }
{
    let along = pass_over(p, pace, intervals, n, out);
    let pass = along.at.pass;
    let holds = along.check.register == 0;
    let edges = along.edges;
    match edges {
        Err(refusal) => Gathered {
            end: Err(refusal),
            holds,
            clearance: 0,
        },
        Ok(()) => Gathered {
            end: conclude(pass.reading, pass.used, n),
            holds,
            clearance: along.seen.extremes.least(p.min.0, p.rpt.0),
        },
    }
}
