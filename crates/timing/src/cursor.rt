// The one way to class intervals: a cursor that goes over a list from its first interval on.
ghost use Rattle.std.specs.Prelude.{◌≡◌};
ghost use Rattle.timing.specs.Class.{cursor_of, at_start, class_in, is_two, behind, cursor_past};
ghost use Rattle.timing.specs.Class.{classed, Ascending};
ghost use Rattle.timing.specs.machine.Edges.{units_in, is_steady};

use crate::{Bounds, Class, HalfClocks, Profile};

// Where the classing of a list stands: the edges of the windows for the next interval, and the bounds among which those
// for the one after it are chosen. The bounds are held, and not the kind before, so that a loop chooses once a turn.
#[derive(Clone, Copy, PartialEq, Eq)]
pub struct Cursor {
    pub min: HalfClocks,
    pub bounds: Bounds,
    pub rpt: HalfClocks,
    // after an interval of class 2
    pub short: Bounds,
    // after any other
    pub long: Bounds,
}

// The class of an interval, and where the classing stands after it.
#[derive(Clone, Copy, PartialEq, Eq)]
pub struct Classed {
    pub class: Class,
    pub next: Cursor,
}

impl Cursor {
    // Behind an interval of class 2, or of any other, under a profile that the caller has checked, or does not care to.
    pub fn after(p: Profile, two: bool) -> Cursor
        ensures { result ≡ cursor_of p two }
    {
        let min = p.min;
        let short = p.short;
        let long = p.long;
        let rpt = p.rpt;
        Cursor {
            min,
            bounds: if two { short } else { long },
            rpt,
            short,
            long,
        }
    }

    // Before the first interval of a list, where the one before counts as class 2.
    pub fn start(p: Profile) -> Cursor
        ensures { result ≡ at_start p }
    {
        Cursor::after(p, true)
    }

    // The class of the next interval.
    fn class_of(self, interval: u16) -> Class
        ensures { result ≡ class_in self interval }
    {
        if interval < self.min.0 {
            return Class::Narrow;
        }
        if interval < self.bounds.b23.0 {
            return Class::Two;
        }
        if interval < self.bounds.b34.0 {
            return Class::Three;
        }
        if interval < self.rpt.0 {
            return Class::Four;
        }
        Class::Wide
    }

    // The next interval of the list.
    pub fn step(self, interval: u16) -> Classed
        ensures { result ≡ classed self interval }
    {
        Classed {
            class: self.class_of(interval),
            next: self.past(interval),
        }
    }

    // The next two are for a loop over intervals: no case for each class, so that it has no jump for one.

    // Whether the next interval is of class 2, by one compare: below Min the difference wraps to above all others.
    pub fn meets_two(self, interval: u16) -> bool
        requires { Ascending self }
        ensures { result ≡ is_two (class_in self interval) }
    {
        interval.wrapping_sub(self.min.0) < self.bounds.b23.0 - self.min.0
    }

    // The units of its cell, where it is one: one more for each bound between the windows that it reaches.
    pub fn units(self, interval: u16) -> u8
        ensures { result ≡ units_in self interval }
    {
        2 + (self.bounds.b23.0 <= interval) as u8 + (self.bounds.b34.0 <= interval) as u8
    }

    // Where the classing stands behind an interval that is of class 2, or is not.
    pub fn behind(self, two: bool) -> Cursor
        ensures { result ≡ behind self two }
    {
        let short = self.short;
        let long = self.long;
        let mut next = self;
        next.bounds = if two { short } else { long };
        next
    }

    // Whether it stands so behind every interval: the bounds are the same after either kind.
    pub fn is_steady(self) -> bool
        ensures { result ≡ is_steady self }
    {
        (self.bounds == self.short) & (self.bounds == self.long)
    }

    // Where it stands after the next interval.
    pub fn past(self, interval: u16) -> Cursor
        ensures { result ≡ cursor_past self interval }
    {
        self.behind((self.min.0 <= interval) & (interval < self.bounds.b23.0))
    }
}
