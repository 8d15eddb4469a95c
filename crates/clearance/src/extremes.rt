// What is kept of the intervals of a list to tell their least clearance: at Min and Rpt the shortest and the longest
// decide, at the bounds between them the nearest from a bound up and the nearest below one.
ghost use Rattle.std.specs.Prelude.{◌≡◌, ◌≤◌};
ghost use Rattle.clearance.specs.machine.Nearest.{turned, first_of, last_of, past_bound, room, none_met};
ghost use Rattle.clearance.specs.machine.Nearest.{first_past, last_past, met_with, least_met};

use timing::Bounds;

// Lengths are compared in the order of signed numbers, in which those from 32,768 on come first: for that order the
// compiler has the lesser and the greater of eight pairs in one vector instruction each. This is a number's place in it.
fn turned(x: u16) -> u16
    ensures { result ≡ turned x }
{
    x.wrapping_add(32768)
}

pub fn first(a: u16, b: u16) -> u16
    ensures { result ≡ first_of a b }
{
    if turned(b) < turned(a) {
        return b;
    }
    a
}

pub fn last(a: u16, b: u16) -> u16
    ensures { result ≡ last_of a b }
{
    if turned(a) < turned(b) {
        return b;
    }
    a
}

// How far an interval is past a bound, in that order: first those from the bound up, last the one just below it.
fn past(bound: u16, interval: u16) -> u16
    ensures { result ≡ past_bound bound interval }
{
    interval.wrapping_sub(turned(bound))
}

// Of the ways past either bound, the first and the last.
pub fn first_past(bounds: Bounds, interval: u16) -> u16
    ensures { result ≡ first_past bounds interval }
{
    first(past(bounds.b23.0, interval), past(bounds.b34.0, interval))
}

pub fn last_past(bounds: Bounds, interval: u16) -> u16
    ensures { result ≡ last_past bounds interval }
{
    last(past(bounds.b23.0, interval), past(bounds.b34.0, interval))
}

// How far the places of a first and a last number are inside two others; 0 where one is outside.
fn room(from: u16, to: u16, first: u16, last: u16) -> u16
    ensures { result ≡ room from to (turned first) (turned last) }
{
    let up = turned(first).saturating_sub(from);
    let down = to.saturating_sub(turned(last));
    up.min(down)
}

#[derive(Clone, Copy, PartialEq, Eq)]
pub struct Extremes {
    pub shortest: u16,
    pub longest: u16,
    // past a bound, the first from one up and the last below one
    pub from: u16,
    pub below: u16,
}

impl Extremes {
    // Before any interval.
    pub fn none() -> Extremes
        ensures { result ≡ none_met }
    {
        Extremes {
            shortest: 32767,
            longest: 32768,
            from: 32767,
            below: 32768,
        }
    }

    // With one interval more, between which and its neighbours in length these bounds stand.
    pub fn with(self, bounds: Bounds, interval: u16) -> Extremes
        ensures { result ≡ met_with self bounds interval }
    {
        Extremes {
            shortest: first(self.shortest, interval),
            longest: last(self.longest, interval),
            from: first(self.from, first_past(bounds, interval)),
            below: last(self.below, last_past(bounds, interval)),
        }
    }

    // The least clearance of the intervals met. Where one is narrow or wide, it is 0 by the shortest or the longest.
    pub fn least(self, min: u16, rpt: u16) -> u16
        requires { 1 ≤ rpt }
        ensures { result ≡ least_met min rpt self }
    {
        let outer = room(turned(min), turned(rpt - 1), self.shortest, self.longest);
        outer.min(room(0, 65535, self.from, self.below))
    }
}
