// The C interface as a static library, as include/ism.h declares it. Each export hands its parameters to the function
// of its name in the library ism, and promises the same.
#![tactic(auto)]

ghost use Rattle.std.specs.Prelude.{◌≡◌, ltb, length};
ghost use Rattle.lengths.specs.Margin.{margin_rule};
ghost use Rattle.codec.specs.Writer.{write_rule, write_output};
ghost use Rattle.codec.specs.Reader.{read_output};
ghost use Rattle.clearance.specs.Answers.{class_with_clearance, strip_with_clearance};
ghost use Rattle.answers.specs.Answers.{profile_of, answer_of, clear_answer_of};

use answers::{IsmAnswer, IsmProfile};

pub mod card;
pub mod disk;
pub mod drive;
pub mod image;
pub mod index;
pub mod merging;
pub mod queue;
pub mod slow;
pub mod version;
pub mod windows;

#[unsafe(no_mangle)]
pub extern "C" fn ism_margin(p: IsmProfile) -> IsmAnswer
    ensures { result ≡ answer_of (margin_rule (profile_of p)) }
{
    ism::ism_margin(p)
}

#[unsafe(no_mangle)]
pub extern "C" fn ism_class(p: IsmProfile, interval: u16, two: u32) -> IsmAnswer
    ensures { result ≡ clear_answer_of (class_with_clearance (profile_of p) (ltb 0 two) interval) }
{
    ism::ism_class(p, interval, two)
}

#[unsafe(no_mangle)]
pub extern "C" fn ism_write(p: IsmProfile, items: &[u16], out: &mut [u16]) -> IsmAnswer
    ensures answer { result ≡ answer_of (write_rule (profile_of p) items.now (length out.old)) }
    ensures output { out.new ≡ write_output (profile_of p) items.now out.old }
{
    ism::ism_write(p, items, out)
}

#[unsafe(no_mangle)]
pub extern "C" fn ism_read(p: IsmProfile, intervals: &[u16], out: &mut [u16]) -> IsmAnswer
    ensures answer { result ≡ clear_answer_of (strip_with_clearance (profile_of p) intervals.now (length out.old)) }
    ensures output { out.new ≡ read_output (profile_of p) intervals.now out.old }
{
    ism::ism_read(p, intervals, out)
}
