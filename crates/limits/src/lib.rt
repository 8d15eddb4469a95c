// Document 02, (xii): what holds the margin down. Each side of a window edge that forbids margin + 1, with a one-byte
// list that shows it. The lists are searched, lowest first: which one shows a side depends on which compare points are
// equal.
#![tactic(auto)]

ghost use Rattle.std.specs.Prelude.{◌≡◌, true, false};
ghost use Rattle.timing.specs.Profile.{profile_rule};
ghost use Rattle.limits.specs.Limits.{limits_answer, limits_given, limits_rule, limits_table};
ghost use Rattle.limits.specs.machine.Search.{pushed, gathered};

mod search;
mod side;

use refusal::Refusal;
use search::search;
use side::beyond;
pub use side::{Edge, Kind, Side};
use timing::Profile;

// A side, the one-byte list and the interval of it that show it, and that interval's length moved by margin + 1.
#[derive(Clone, Copy, PartialEq, Eq)]
pub struct Limit {
    pub side: Side,
    pub item: u16,
    pub interval: u16,
    pub moved: u16,
}

// In the order of the sides; those beyond the count are all blank.
#[derive(Clone, Copy, PartialEq, Eq)]
pub struct Limits {
    pub count: usize,
    pub limits: [Limit; 10],
}

// Stands where there is no limit.
const BLANK: Limit = Limit {
    side: Side {
        edge: Edge::Min,
        after: Kind::Both,
        above: false,
    },
    item: 0,
    interval: 0,
    moved: 0,
};

// One side more: named with its evidence where some list shows it.
fn push(p: Profile, n: u16, made: Limits, edge: Edge, after: Kind, above: bool) -> Limits
    requires { (profile_rule p).number ≡ 0 }
    ensures { result ≡ pushed p n made (record { edge = edge; after = after; above = above }) }
{
    let side = Side { edge, after, above };
    let at = made.count;
    let mut limits = made.limits;
    match search(p, side, n) {
        None => made,
        Some(shown) => {
            if at < 10 {
                let moved = beyond(p, side);
                limits[at] = Limit {
                    side,
                    item: shown.item,
                    interval: shown.interval,
                    moved,
                };
                return Limits {
                    count: at + 1,
                    limits,
                };
            }
            made
        }
    }
}

// Both sides of an edge, after one kind: the lengths below it before those above.
fn push_both(p: Profile, n: u16, made: Limits, edge: Edge, after: Kind) -> Limits
    requires { (profile_rule p).number ≡ 0 }
    ensures { result ≡ pushed p n (pushed p n made (record { edge = edge; after = after; above = false }))
        (record { edge = edge; after = after; above = true }) }
{
    let below = push(p, n, made, edge, after, false);
    push(p, n, below, edge, after, true)
}

// All sides, in document 02's order.
fn gather(p: Profile, n: u16) -> Limits
    requires { (profile_rule p).number ≡ 0 }
    ensures { result ≡ gathered p n }
{
    let none = Limits {
        count: 0,
        limits: [BLANK; 10],
    };
    let min = push(p, n, none, Edge::Min, Kind::Both, true);
    let b23_short = push_both(p, n, min, Edge::B23, Kind::Short);
    let b23_long = push_both(p, n, b23_short, Edge::B23, Kind::Long);
    let b34_short = push_both(p, n, b23_long, Edge::B34, Kind::Short);
    let b34_long = push_both(p, n, b34_short, Edge::B34, Kind::Long);
    push(p, n, b34_long, Edge::Rpt, Kind::Both, false)
}

// 1, 2, as for the margin; else the sides that hold it down.
pub fn margin_limits(p: Profile) -> Result<Limits, Refusal>
    ensures answer { limits_answer result ≡ limits_rule p }
    ensures limits { limits_given result ≡ limits_table p }
{
    let m = lengths::margin(p)?;
    Ok(gather(p, m as u16 + 1))
}
