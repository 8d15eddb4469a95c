// What holds the margin down, for the card of a drive type.
ghost use Rattle.std.specs.Prelude.{◌≡◌, map, take, replicate};
ghost use Rattle.lists.specs.Filled.{filled};
ghost use Rattle.limits.specs.Limits.{limits_answer, limits_given};
ghost use Rattle.answers.specs.Cards.{edge_number, kind_number, limit_numbers, no_limit, limits_answer_of};

use limits::{Edge, Kind, Limit, Limits};
use refusal::Refusal;

// Edge 1 Min, 2 B23, 3 B34, 4 Rpt; after 0 both kinds, 1 short, 2 long; above 1 or 0.
#[repr(C)]
#[derive(Clone, Copy)]
pub struct IsmLimit {
    pub edge: u16,
    pub after: u16,
    pub above: u16,
    pub item: u16,
    pub interval: u16,
    pub moved: u16,
}

// Limits beyond the count are all 0.
#[repr(C)]
#[derive(Clone, Copy)]
pub struct IsmLimits {
    pub number: u32,
    pub place: u32,
    pub count: u64,
    pub limits: [IsmLimit; 10],
}

// Stands where there is no limit.
const NONE: IsmLimit = IsmLimit {
    edge: 0,
    after: 0,
    above: 0,
    item: 0,
    interval: 0,
    moved: 0,
};

// Functions, since an impl for u16 would stand where `Edge` and `Kind` do, and these know no numbers of the interface.
fn edge_number(edge: Edge) -> u16
    ensures { result ≡ edge_number edge }
{
    match edge {
        Edge::Min => 1,
        Edge::B23 => 2,
        Edge::B34 => 3,
        Edge::Rpt => 4,
    }
}

fn kind_number(after: Kind) -> u16
    ensures { result ≡ kind_number after }
{
    match after {
        Kind::Both => 0,
        Kind::Short => 1,
        Kind::Long => 2,
    }
}

impl From<Limit> for IsmLimit {
    ghost from_gives = { λ limit numbers. numbers ≡ limit_numbers limit };

    fn from(limit: Limit) -> IsmLimit {
        let side = limit.side;
        IsmLimit {
            edge: edge_number(side.edge),
            after: kind_number(side.after),
            above: u16::from(side.above),
            item: limit.item,
            interval: limit.interval,
            moved: limit.moved,
        }
    }
}

// As many as are counted, in their places.
fn converted(limits: [Limit; 10], count: usize) -> [IsmLimit; 10]
    ensures { result ≡ filled (map limit_numbers (take count limits)) (replicate 10 no_limit) }
{
    let mut made = [NONE; 10];
    for k in 0..count.min(10) {
        made[k] = IsmLimit::from(limits[k]);
    }
    made
}

impl From<Result<Limits, Refusal>> for IsmLimits {
    ghost from_gives = { λ given made. made ≡ limits_answer_of (limits_answer given) (limits_given given) };

    fn from(given: Result<Limits, Refusal>) -> IsmLimits {
        match given {
            Ok(found) => {
                let limits = found.limits;
                let made = converted(limits, found.count);
                IsmLimits {
                    number: 0,
                    place: 0,
                    count: found.count as u64,
                    limits: made,
                }
            }
            Err(refusal) => IsmLimits {
                number: refusal.number(),
                place: refusal.place(),
                count: 0,
                limits: [NONE; 10],
            },
        }
    }
}
