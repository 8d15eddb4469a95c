// Document 01, "From bits to cells", compare points and lengths, and "Profile", the margin.
#![tactic(auto)]

ghost use Rattle.std.specs.Prelude.{◌≡◌, ◌-◌};
ghost use Rattle.refusal.specs.Answer.{counted_answer};
ghost use Rattle.timing.specs.Profile.{profile_rule};
ghost use Rattle.lengths.specs.Margin.{rooms_of, margin_of, margin_rule};

mod table;

use refusal::Refusal;
pub use table::length_between;
use timing::Profile;

// How far lengths of at most the one given are below an edge, which they must not reach.
fn room_below(longest: u16, edge: u16) -> u16
    ensures { result ≡ edge - 1 - longest }
{
    edge.saturating_sub(1).saturating_sub(longest)
}

// How far the lengths on each side of an edge are from crossing it: Min; B23 after-short, below and above, after-long
// alike; B34; Rpt.
fn rooms(p: Profile) -> [u16; 10]
    requires { (profile_rule p).number ≡ 0 }
    ensures { result ≡ rooms_of p }
{
    let d = timing::swing(p).0;
    let e = timing::advance(p).0;
    let l = timing::delay(p).0;
    let three = p.t1.0 + p.t0.0;
    let four = p.t1.0 + 2 * p.t0.0;
    [
        p.t1.0.saturating_sub(d).saturating_sub(p.min.0),
        room_below(p.t1.0, p.short.b23.0),
        (three + e).saturating_sub(p.short.b23.0),
        room_below(p.t1.0.saturating_sub(l), p.long.b23.0),
        three.saturating_sub(p.long.b23.0),
        room_below(three + d, p.short.b34.0),
        (four + e).saturating_sub(p.short.b34.0),
        room_below(three + l, p.long.b34.0),
        four.saturating_sub(p.long.b34.0),
        room_below(four + d, p.rpt.0),
    ]
}

// The least room of a true profile.
fn least_room(p: Profile) -> u16
    requires { (profile_rule p).number ≡ 0 }
    ensures { result ≡ margin_of p }
{
    let rooms = rooms(p);
    let mut least = rooms[0];
    for &room in &rooms[1..] {
        least = least.min(room);
    }
    least
}

// The margin operation: 1, 2, then the largest number of half clocks by which every interval may be off and keep its
// class.
#[tactic(auto, using(refusal::proofs::AnswerLaws::refusal_decides), unfolding(crate::specs::Margin::margin_rule))]
pub fn margin(p: Profile) -> Result<usize, Refusal>
    ensures { counted_answer result ≡ margin_rule p }
{
    timing::check(p)?;
    Ok(least_room(p) as usize)
}
