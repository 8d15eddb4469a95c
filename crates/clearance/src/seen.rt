// The intervals of a list, seen block by block: their extremes, and where the classing stands behind them.
ghost use Rattle.std.specs.Prelude.{◌≡◌, ◌≤◌, length};
ghost use Rattle.timing.specs.Class.{Ascending};
ghost use Rattle.clearance.specs.machine.Masks.{masks_from};
ghost use Rattle.clearance.specs.machine.Seen.{seen_past, seen_from};

use crate::blocks::{extremes_alike, extremes_by};
use crate::extremes::Extremes;
use crate::masks::fill;
use timing::Cursor;

// As many intervals as are looked at together, so that it is done in vector instructions: one that goes by the cursor,
// and 128 behind it.
const BLOCK: usize = 129;

// The mask of class 2.
const ONES: u16 = 0xffff;

#[derive(Clone, Copy, PartialEq, Eq)]
pub struct Seen {
    pub extremes: Extremes,
    pub cursor: Cursor,
}

impl Seen {
    // With one interval more.
    fn past(self, interval: u16) -> Seen
        ensures { result ≡ seen_past self interval }
    {
        let extremes = self.extremes;
        let cursor = self.cursor;
        let bounds = cursor.bounds;
        Seen {
            extremes: extremes.with(bounds, interval),
            cursor: cursor.past(interval),
        }
    }

    // With a block that has some, by its masks: the first interval goes by the cursor, each other by the one before it.
    fn by_masks(self, intervals: &[u16], masks: &[u16]) -> Seen
        requires in_bounds { 1 ≤ length intervals.now }
        requires masks_value { masks.now ≡ masks_from self.cursor intervals.now }
        ensures { result ≡ seen_from self intervals.now }
    {
        let cursor = self.cursor;
        let first = self.past(intervals[0]);
        let extremes = first.extremes;
        let last = masks[masks.len() - 1];
        Seen {
            extremes: extremes_by(extremes, cursor.short, cursor.long, &intervals[1..], masks),
            cursor: cursor.behind(last == ONES),
        }
    }

    // The masks first, and then the extremes, in vector instructions.
    fn masked(self, intervals: &[u16], masks: &mut [u16]) -> Seen
        requires ascending { Ascending self.cursor }
        requires in_bounds { (1 ≤ length intervals.now) × (length masks.old ≡ length intervals.now) }
        ensures { result ≡ seen_from self intervals.now }
    {
        fill(self.cursor, intervals, masks);
        self.by_masks(intervals, masks)
    }

    fn block(self, intervals: &[u16]) -> Seen
        requires ascending { Ascending self.cursor }
        requires in_bounds { (1 ≤ length intervals.now) × (length intervals.now ≤ 129) }
        ensures { result ≡ seen_from self intervals.now }
    {
        let n = intervals.len();
        let mut masks = [0u16; BLOCK];
        self.masked(intervals, &mut masks[..n])
    }

    // Block by block.
    fn all(self, intervals: &[u16]) -> Seen
        requires { Ascending self.cursor }
        ensures { result ≡ seen_from self intervals.now }
    {
        let mut seen = self;
        let mut from: usize = 0;
        while from < intervals.len() {
            let n = BLOCK.min(intervals.len() - from);
            seen = seen.block(&intervals[from..from + n]);
            from += n;
        }
        seen
    }

    // With all intervals of a list. Where the pairs are equal, all stand between the same bounds.
    pub fn with_all(self, intervals: &[u16]) -> Seen
        requires { Ascending self.cursor }
        ensures { result ≡ seen_from self intervals.now }
    {
        let cursor = self.cursor;
        if cursor.is_steady() {
            let extremes = self.extremes;
            let bounds = cursor.bounds;
            return Seen {
                extremes: extremes_alike(extremes, bounds, intervals),
                cursor,
            };
        }
        self.all(intervals)
    }
}
