// A pass by blocks of intervals: their units at once, and then the reading machine.
ghost use Rattle.std.specs.Prelude.{◌≡◌, ◌+◌, ◌^◌, ◌<◌, ◌≤◌, ◌&&◌, length, nat_lt};
ghost use Rattle.lists.specs.Filled.{stored_at};
ghost use Rattle.timing.specs.Class.{cursor_after};
ghost use Rattle.passes.specs.machine.Blocks.{at_first, pass_on, words_of, Reaches};

use intervals::units_of;
use shifts::Pass;
use shifts::shift::shift_units;
use symbols::Reading;
use timing::{Cursor, Profile};

// As many intervals as are classed at once, so that it is done in vector instructions, and what a block costs besides
// weighs little.
pub const BLOCK: usize = 128;

// How far a pass by blocks came, and where the classing stands.
#[derive(Clone, Copy, PartialEq, Eq)]
pub struct Progress {
    pub pass: Pass,
    pub cursor: Cursor,
}

// The intervals of a block, whose units have as many places.
pub fn pass_block(
    at: Progress,
    intervals: &[u16],
    units: &mut [u8],
    most: u32,
    to: usize,
    out: &mut [u16],
) -> Progress
    requires words_lt_most { (at.pass.reading.words < most) × (at.pass.reading.held ≤ 16) }
    requires units_len { (length units.old ≡ length intervals.now) × (length units.old ≤ 128) }
    requires intervals_bound { (at.pass.used + length intervals.now < 2 ^ 64) × (to + length intervals.now < 2 ^ 64) }
    ensures pass { result.pass ≡ (pass_on most at intervals.now).end }
    ensures cursor { result.cursor ≡ cursor_after at.cursor intervals.now }
    ensures output { out.new ≡ stored_at out.old to (pass_on most at intervals.now).words }
{
    let cursor = units_of(at.cursor, intervals, units);
    Progress {
        pass: shift_units(at.pass.reading, units, at.pass.used, most, to, out),
        cursor,
    }
}

impl Progress {
    // Before the first interval.
    pub fn start(p: Profile) -> Self
        ensures { result ≡ at_first p }
    {
        Progress {
            pass: Pass {
                reading: Reading::new(),
                used: 0,
            },
            cursor: Cursor::start(p),
        }
    }

    // Whether bytes are wanted, and intervals are left to read them from.
    pub fn goes_on(self, most: u32, length: usize) -> bool
        ensures { result ≡ (nat_lt self.pass.used length && nat_lt self.pass.reading.words most) }
    {
        (self.pass.used < length) & (self.pass.reading.words < most)
    }

    // One block more, whose code words are stored from place `to` on.
    fn next_block(self, intervals: &[u16], most: u32, to: usize, out: &mut [u16]) -> Self
        requires used_in_bounds { (self.pass.used ≤ length intervals.now) × (self.pass.reading.held ≤ 16) }
        requires words_lt_most { (self.pass.reading.words < most) × (to < 2 ^ 32) }
        ensures next { Reaches 128 most intervals.now self result }
        ensures output { out.new ≡ stored_at out.old to (words_of 128 most intervals.now self) }
    {
        let from = self.pass.used;
        let n = BLOCK.min(intervals.len() - from);
        let mut units = [0u8; BLOCK];
        pass_block(
            self,
            &intervals[from..from + n],
            &mut units[..n],
            most,
            to,
            out,
        )
    }

    // Until so many bytes are whole, so many intervals more are used, or none is left. The code words are stored from
    // the front on, where there is room.
    pub fn pass_on(self, intervals: &[u16], count: usize, most: u32, out: &mut [u16]) -> Self
        requires { (self.pass.used ≤ length intervals.now) × (self.pass.reading.held ≤ 16) }
        ensures next { Reaches count most intervals.now self result }
        ensures output { out.new ≡ stored_at out.old 0 (words_of count most intervals.now self) }
    {
        let first = self.pass.reading.words;
        let end = self.pass.used + count.min(intervals.len() - self.pass.used);
        let mut at = self;
        while at.goes_on(most, end) {
            let done = at.pass.reading.words - first;
            at = at.next_block(&intervals[..end], most, done as usize, out);
        }
        at
    }
}
