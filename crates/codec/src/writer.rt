// The writer: the list is checked whole before the first interval is stored.
ghost use Rattle.std.specs.Prelude.{◌≤◌, ◌<◌, ◌≡◌, ◌++◌, leb, length};
ghost use Rattle.lists.specs.Filled.{stored_at};
ghost use Rattle.refusal.specs.Answer.{counted_answer};
ghost use Rattle.items.specs.Item.{written_bytes};
ghost use Rattle.items.specs.Written.{after_bytes, check_bytes, after_check, written};
ghost use Rattle.symbols.specs.Cells.{written_cells};
ghost use Rattle.timing.specs.Profile.{profile_rule};
ghost use Rattle.items.specs.Rule.{list_rule};
ghost use Rattle.lengths.specs.Stream.{byte_stream};
ghost use Rattle.codec.specs.machine.Pen.{writing, fresh_pen, wrote};
ghost use Rattle.codec.specs.Writer.{write_rule, write_output};

use crate::pen::{Pen, draw_bytes, draw_closing};
use crate::windows::window_table;
use items::Check;
use refusal::Refusal;
use timing::Profile;

// A pen and the check register, after some items.
#[derive(Clone, Copy)]
pub struct Part {
    pub pen: Pen,
    pub check: Check,
}

// A run of bytes, and the check order behind it.
fn write_run(table: &[u16; 128], start: Part, run: &[u16], out: &mut [u16]) -> Part
    requires { (wrote table.now (writing start.pen out.old)
        (run.now ++ check_bytes (after_bytes start.check run.now))).pen.cells < length out.old }
    ensures check { result.check ≡ after_check (after_bytes start.check run.now) }
    ensures pen { writing result.pen out.new
        ≡ wrote table.now (writing start.pen out.old)
        (run.now ++ check_bytes (after_bytes start.check run.now)) }
{
    let check = start.check.after_bytes(run);
    let pen = draw_bytes(table, start.pen, run, out);
    let bytes = [check.high(), check.low()];
    Part {
        pen: draw_bytes(table, pen, &bytes, out),
        check: check.after_check(),
    }
}

// Run by run, so that a check order finds the register as it is then. Behind the last no register is asked for. A
// `while`, since a run's length comes out of the list.
fn write_items(table: &[u16; 128], items: &[u16], out: &mut [u16]) -> Pen
    requires { (wrote table.now (writing fresh_pen out.old) (written items.now)).pen.cells < length out.old }
    ensures { writing result out.new
        ≡ wrote table.now (writing fresh_pen out.old) (written items.now) }
{
    let mut part = Part {
        pen: Pen {
            previous: 0,
            cells: 0,
        },
        check: Check::fresh(),
    };
    let mut from: usize = 0;
    let mut run = items::find_check(items);
    while run < items.len() - from {
        let end = from + run;
        part = write_run(table, part, &items[from..end], out);
        from = end + 1;
        run = items::find_check(&items[from..]);
    }
    draw_bytes(table, part.pen, &items[from..], out)
}

// The stream of a list, where it has room. Answers its length.
fn write_stream(p: Profile, items: &[u16], out: &mut [u16]) -> usize
    requires p_value { (profile_rule p).number ≡ 0 }
    requires value { (list_rule items.now).number ≡ 0 }
    requires in_bounds { length (byte_stream p (written items.now)) ≤ length out.old }
    ensures length { result ≡ length (byte_stream p (written items.now)) }
    ensures output { out.new ≡ stored_at out.old 0 (byte_stream p (written items.now)) }
{
    let table = window_table(p);
    let pen = write_items(&table, items, out);
    draw_closing(&table, pen, out)
}

// Whether an accepted list's stream has room in an output of so many places. A byte ends eight cells at most and the
// closing 0s two: only where there is less room they are counted.
fn has_room(items: &[u16], bytes: usize, room: usize) -> bool
    requires value { (list_rule items.now).number ≡ 0 }
    requires bytes_value { bytes ≡ written_bytes items.now }
    ensures { result ≡ leb (length (written_cells (written items.now))) room }
{
    if 8 * bytes + 2 <= room {
        return true;
    }
    images::count_cells(items, bytes) <= room
}

// An accepted list under an accepted profile: 9, or its stream.
fn write_list(p: Profile, items: &[u16], out: &mut [u16]) -> Result<usize, Refusal>
    requires p_value { (profile_rule p).number ≡ 0 }
    requires value { (list_rule items.now).number ≡ 0 }
    ensures answer { counted_answer result ≡ write_rule p items.now (length out.old) }
    ensures output { out.new ≡ write_output p items.now out.old }
{
    let bytes = items::written_bytes(items);
    if has_room(items, bytes, out.len()) {
        let count = write_stream(p, items, out);
        return Ok(count);
    }
    Err(Refusal::OutputTooShort)
}

// A list of items as intervals: 1, 2, 4, 3, 9, or the number of intervals stored.
#[tactic(auto, using(refusal::proofs::AnswerLaws::refusal_decides, refusal::proofs::AnswerLaws::refusal_keeps_the_buffer), unfolding(crate::specs::Writer::write_rule, crate::specs::Writer::write_output))]
pub fn write(p: Profile, items: &[u16], out: &mut [u16]) -> Result<usize, Refusal>
    ensures answer { counted_answer result ≡ write_rule p items.now (length out.old) }
    ensures output { out.new ≡ write_output p items.now out.old }
{
    timing::check(p)?;
    items::check_list(items)?;
    write_list(p, items, out)
}
