// What the program prints: `refused`, or `margin`, `cell` and `end`.
ghost use Rattle.std.specs.Prelude.{◌+◌, ◌≤◌, ◌≡◌, length};
ghost use Rattle.lists.specs.Filled.{stored_at};
ghost use Rattle.refusal.specs.Answer.{refused};
ghost use Rattle.refusal.specs.Table.{number_of, place_of};
ghost use Rattle.strip.specs.Output.{refusal_text, cell_text, stream_text, report_text};
ghost use Rattle.strip.specs.Output.{Printed};
ghost use Rattle.strip.specs.machine.Room.{output_length};

use refusal::Refusal;
use timing::{Class, Cursor, Profile};

// A refusal: its number and its place.
pub fn refuse(refusal: Refusal, out: &mut [u8]) -> usize
    requires { output_length ≤ length out.old }
    ensures { Printed (refusal_text (refused (number_of refusal) (place_of refusal))) result out.old
        out.new }
{
    let numbers = [refusal.number() as usize, refusal.place() as usize];
    text::append_line(out, 0, b"refused", &numbers)
}

// A cell: its place, class and length.
fn append_cell(place: usize, class: Class, interval: u16, out: &mut [u8], at: usize) -> usize
    requires { at + length (cell_text place class interval) ≤ length out.old }
    ensures value { result ≡ at + length (cell_text place class interval) }
    ensures out_after { out.new ≡ stored_at out.old at (cell_text place class interval) }
{
    let number = class.number();
    let numbers = [place, number, interval as usize];
    text::append_line(out, at, b"cell", &numbers)
}

// The cells of a stream, in order.
fn append_cells(profile: Profile, stream: &[u16], out: &mut [u8], at: usize) -> usize
    requires { at + length (stream_text profile stream.now) ≤ length out.old }
    ensures value { result ≡ at + length (stream_text profile stream.now) }
    ensures out_after { out.new ≡ stored_at out.old at (stream_text profile stream.now) }
{
    let mut cursor = Cursor::start(profile);
    let mut end = at;
    for (place, &interval) in stream.iter().enumerate() {
        let classed = cursor.step(interval);
        end = append_cell(place, classed.class, interval, out, end);
        cursor = classed.next;
    }
    end
}

// The margin, the cells and their number.
pub fn report(profile: Profile, margin: usize, stream: &[u16], out: &mut [u8]) -> usize
    requires { (length stream.now ≤ 4098) × (output_length ≤ length out.old) }
    ensures { Printed (report_text profile margin stream.now) result out.old out.new }
{
    let first = [margin];
    let cells = text::append_line(out, 0, b"margin", &first);
    let end = append_cells(profile, stream, out, cells);
    let last = [stream.len()];
    text::append_line(out, end, b"end", &last)
}
