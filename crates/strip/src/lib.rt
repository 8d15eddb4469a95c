// Document 01, "The strip program": from the input's bytes to the output's.
#![tactic(auto)]

mod output;

ghost use Rattle.std.specs.Prelude.{◌≤◌, ◌≡◌, length};
ghost use Rattle.items.specs.Item.{written_bytes};
ghost use Rattle.lengths.specs.Margin.{margin_of};
ghost use Rattle.timing.specs.Profile.{profile_rule};
ghost use Rattle.strip.specs.Program.{script_text, program_text};
ghost use Rattle.strip.specs.Output.{Printed};
ghost use Rattle.strip.specs.machine.Room.{Front, output_length};

use output::{refuse, report};
use refusal::Refusal;
pub use script::INPUT_BYTES;
use timing::Profile;

// The most written bytes that a list may have here.
const WRITTEN_BYTES: usize = 512;

// The most cells that they have.
const CELLS: usize = 4098;

// The room for what is printed: 18 bytes for each cell, and two lines more.
pub const OUTPUT_BYTES: usize = 74000;

// The report of a list of at most 512 written bytes under a true profile, or why the writer refuses it: only 3 is
// left, since 512 bytes give at most 4,098 cells.
fn print_list(profile: Profile, margin: usize, items: &[u16], out: &mut [u8]) -> usize
    requires profile_value { ((profile_rule profile).number ≡ 0) × (margin ≡ margin_of profile) }
    requires bound { (written_bytes items.now ≤ 512) × (output_length ≤ length out.old) }
    ensures { Printed (script_text profile items.now) result out.old out.new }
{
    let mut stream = [0u16; CELLS];
    match codec::writer::write(profile, items, &mut stream) {
        Err(refusal) => refuse(refusal, out),
        Ok(cells) => report(profile, margin, &stream[..cells], out),
    }
}

// A profile and a list, in the writer's order: 1, 2, then 4 above 512 written bytes, then 3.
fn print_script(profile: Profile, items: &[u16], out: &mut [u8]) -> usize
    requires { output_length ≤ length out.old }
    ensures { Printed (script_text profile items.now) result out.old out.new }
{
    match lengths::margin(profile) {
        Err(refusal) => refuse(refusal, out),
        Ok(margin) => {
            if items::written_bytes(items) > WRITTEN_BYTES {
                return refuse(Refusal::TooLong, out);
            }
            print_list(profile, margin, items, out)
        }
    }
}

// The program: the input's bytes in, the output's at the front of `out`, and how many they are. One item more is kept
// than is ever accepted, so that a list that is too long is seen to be.
pub fn run(input: &[u8], out: &mut [u8; OUTPUT_BYTES]) -> usize
    ensures text { Printed (program_text input.now) result out.old out.new }
    ensures front { Front result out.new }
{
    let mut items = [0u16; WRITTEN_BYTES + 1];
    match script::read(input, &mut items) {
        Err(refusal) => refuse(refusal, out),
        Ok(script) => print_script(script.profile, &items[..script.count], out),
    }
}
