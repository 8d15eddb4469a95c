// Document 02, (vi): how near was it? Class, strip and field reader, each with its clearance: how far the interval is
// inside the window of its class, and for strip and field the least of it over the intervals that were used.
#![tactic(auto)]

ghost use Rattle.std.specs.Prelude.{◌≡◌, length};
ghost use Rattle.codec.specs.Reader.{read_output};
ghost use Rattle.fields.specs.FieldRule.{field_output};
ghost use Rattle.clearance.specs.Answers.{clear_answer, class_with_clearance, strip_with_clearance};
ghost use Rattle.clearance.specs.Answers.{clear_field_answer, field_with_clearance};

use fields::reader::Field;
use refusal::Refusal;
use timing::Profile;

mod blocks;
pub mod extremes;
mod least;
mod masks;
pub mod seen;

// A class, how many items a strip has, or what a field reads as, with the clearance.
#[derive(Clone, Copy, PartialEq, Eq)]
pub struct Clear<T> {
    pub read: T,
    pub clearance: u16,
}

// 1, 2; else the class of an interval, told whether the one before was of class 2.
pub fn class_number(p: Profile, interval: u16, two: bool) -> Result<Clear<usize>, Refusal>
    ensures { clear_answer result ≡ class_with_clearance p two interval }
{
    let read = timing::class_number(p, interval, two)?;
    let clearance = least::of_interval(p, interval, two);
    Ok(Clear { read, clearance })
}

// As `codec::reader::read`.
pub fn read(p: Profile, intervals: &[u16], out: &mut [u16]) -> Result<Clear<usize>, Refusal>
    ensures answer { clear_answer result ≡ strip_with_clearance p intervals.now (length out.old) }
    ensures output { out.new ≡ read_output p intervals.now out.old }
{
    let read = codec::reader::read(p, intervals, out)?;
    let clearance = least::of_list(p, intervals);
    Ok(Clear { read, clearance })
}

// As `fields::reader::read_field`.
pub fn read_field(
    p: Profile,
    intervals: &[u16],
    n: usize,
    out: &mut [u16],
) -> Result<Clear<Field>, Refusal>
    ensures answer { clear_field_answer result ≡ field_with_clearance p intervals.now n (length out.old) }
    ensures output { out.new ≡ field_output p intervals.now n out.old }
{
    let read = fields::reader::read_field(p, intervals, n, out)?;
    let clearance = least::of_list(p, &intervals[..read.used]);
    Ok(Clear { read, clearance })
}
