// The C interface, as include/ism.h declares it; the crate ism_c exports it. Each function hands its arguments to the
// library and its answer back: nothing is computed here.
#![tactic(auto)]

ghost use Rattle.std.specs.Prelude.{◌≡◌, ltb, length};
ghost use Rattle.lengths.specs.Margin.{margin_rule};
ghost use Rattle.codec.specs.Writer.{write_rule, write_output};
ghost use Rattle.codec.specs.Reader.{read_output};
ghost use Rattle.clearance.specs.Answers.{class_with_clearance, strip_with_clearance};
ghost use Rattle.answers.specs.Answers.{profile_of, answer_of, clear_answer_of};

use answers::{IsmAnswer, IsmProfile};
use timing::Profile;

pub mod card;
pub mod disk;
pub mod drive;
pub mod image;
pub mod index;
pub mod merging;
pub mod queue;
pub mod slow;
pub mod version;
pub mod windows;

pub fn ism_margin(p: IsmProfile) -> IsmAnswer
    ensures { result ≡ answer_of (margin_rule (profile_of p)) }
{
    IsmAnswer::from(lengths::margin(Profile::from(p)))
}

pub fn ism_class(p: IsmProfile, interval: u16, two: u32) -> IsmAnswer
    ensures { result ≡ clear_answer_of (class_with_clearance (profile_of p) (ltb 0 two) interval) }
{
    IsmAnswer::from(clearance::class_number(Profile::from(p), interval, 0 < two))
}

pub fn ism_write(p: IsmProfile, items: &[u16], out: &mut [u16]) -> IsmAnswer
    ensures answer { result ≡ answer_of (write_rule (profile_of p) items.now (length out.old)) }
    ensures output { out.new ≡ write_output (profile_of p) items.now out.old }
{
    let counted = codec::writer::write(Profile::from(p), items, out);
    IsmAnswer::from(counted)
}

pub fn ism_read(p: IsmProfile, intervals: &[u16], out: &mut [u16]) -> IsmAnswer
    ensures answer { result ≡ clear_answer_of (strip_with_clearance (profile_of p) intervals.now (length out.old)) }
    ensures output { out.new ≡ read_output (profile_of p) intervals.now out.old }
{
    let strip = clearance::read(Profile::from(p), intervals, out);
    IsmAnswer::from(strip)
}
