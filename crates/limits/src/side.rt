// The sides of the window edges, and when a length crosses one.
ghost use Rattle.std.specs.Prelude.{◌≡◌};
ghost use Rattle.timing.specs.Class.{is_two, class_of};
ghost use Rattle.limits.specs.Sides.{edge_of};
ghost use Rattle.limits.specs.Sides;

use timing::{Bounds, Class, Cursor, Profile};

// An edge of the windows.
#[derive(Clone, Copy, PartialEq, Eq)]
pub enum Edge {
    Min,
    B23,
    B34,
    Rpt,
}

// The kinds of cell before: Min and Rpt count once, over both.
#[derive(Clone, Copy, PartialEq, Eq)]
pub enum Kind {
    Both,
    Short,
    Long,
}

// A side of an edge, after a kind of cell: the lengths below it or above it.
#[derive(Clone, Copy, PartialEq, Eq)]
pub struct Side {
    pub edge: Edge,
    pub after: Kind,
    pub above: bool,
}

// Whether the lengths after a cell of class 2, or after any other, are among those of the kind.
fn counts(after: Kind, two: bool) -> bool
    ensures { result ≡ Sides.counts after two }
{
    match after {
        Kind::Both => true,
        Kind::Short => two,
        Kind::Long => !two,
    }
}

fn bounds(p: Profile, after: Kind) -> Bounds
    ensures { result ≡ Sides.bounds_after p after }
{
    match after {
        Kind::Both => p.short,
        Kind::Short => p.short,
        Kind::Long => p.long,
    }
}

fn edge_of(p: Profile, edge: Edge, after: Kind) -> u16
    ensures { result ≡ edge_of p edge after }
{
    let pair = bounds(p, after);
    match edge {
        Edge::Min => p.min.0,
        Edge::B23 => pair.b23.0,
        Edge::B34 => pair.b34.0,
        Edge::Rpt => p.rpt.0,
    }
}

// Whether a length is on that side of an edge, and on the other if it is moved towards it by n.
fn reaches(above: bool, edge: u16, n: u16, length: u16) -> bool
    ensures { result ≡ Sides.reaches above edge n length }
{
    if above {
        return (edge <= length) & ((length as u32) < edge as u32 + n as u32);
    }
    (length < edge) & (edge as u32 <= length as u32 + n as u32)
}

// Whether a length, after a cell of class 2 or after any other, crosses the edge from that side if moved by n.
pub fn crosses(p: Profile, s: Side, n: u16, two: bool, length: u16) -> bool
    ensures { result ≡ Sides.crosses p s n two length }
{
    let edge = s.edge;
    let after = s.after;
    counts(after, two) & reaches(s.above, edge_of(p, edge, after), n, length)
}

// The first length on the other side of the edge.
pub fn beyond(p: Profile, s: Side) -> u16
    ensures { result ≡ Sides.beyond p s }
{
    let edge = s.edge;
    let after = s.after;
    let there = edge_of(p, edge, after);
    if s.above {
        return there.saturating_sub(1);
    }
    there
}

// Whether the next interval is of class 2.
pub fn is_two(p: Profile, two: bool, length: u16) -> bool
    ensures { result ≡ is_two (class_of p two length) }
{
    Cursor::after(p, two).step(length).class == Class::Two
}
