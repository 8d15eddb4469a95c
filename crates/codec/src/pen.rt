// The pen: written bytes in, lengths out. A data bit ends one cell at most, and a 0 after a 1 none. The length of that
// cell depends on the three bits before and the one behind, so that two bits have a window of six. A byte's last bit is
// drawn with the next byte.
ghost use Rattle.std.specs.Prelude.{◌+◌, ◌<◌, ◌≡◌, length};
ghost use Rattle.codec.specs.machine.Windows.{cells_in};
ghost use Rattle.codec.specs.machine.Pen.{drawing, writing, laid, entered, begun, finished, leaves, wrote_byte};
ghost use Rattle.codec.specs.machine.Pen.{wrote, closed};

use items::MARK_A1;

// The windows in which two cells end, a bit each. In the others one ends.
const ENDS_TWO: u64 = 0xc0cfc0cfc0cfc0cf;

#[derive(Clone, Copy, PartialEq, Eq)]
pub struct Pen {
    // the byte before, whose last four bits count
    pub previous: usize,
    // the cells so far
    pub cells: usize,
}

fn cells_in(window: usize) -> usize
    requires { window < 64 }
    ensures { result ≡ cells_in window }
{
    1 + ((ENDS_TWO >> window) % 2) as usize
}

// Stores two lengths. Where one cell ends, the next window's are stored over the second.
fn lay(table: &[u16; 128], window: usize, at: usize, out: &mut [u16]) -> usize
    requires { (window < 64) × (at + cells_in window < length out.old) }
    ensures { drawing result out.new ≡ laid table.now (drawing at out.old) window }
{
    let first = table[2 * window];
    let last = table[2 * window + 1];
    out[at] = first;
    out[at + 1] = last;
    at + cells_in(window)
}

// At the front of a list the lead 0 ends no cell, but the bit behind it does.
fn enter(table: &[u16; 128], window: usize, at: usize, out: &mut [u16]) -> usize
    requires window_bound { window < 64 }
    requires window_in_bounds { (entered table.now (drawing at out.old) window).cells < length out.old }
    ensures { drawing result out.new ≡ entered table.now (drawing at out.old) window }
{
    if at == 0 {
        out[0] = table[2 * window + 1];
        return 1;
    }
    lay(table, window, at, out)
}

// The last bit of the byte before, and a byte's first three.
fn begin(table: &[u16; 128], start: Pen, byte: usize, out: &mut [u16]) -> usize
    requires byte_bound { byte < 256 }
    requires byte_in_bounds { (begun table.now (writing start out.old) byte).cells < length out.old }
    ensures { drawing result out.new ≡ begun table.now (writing start out.old) byte }
{
    let previous = start.previous;
    let at = enter(table, previous % 16 * 4 + byte / 64, start.cells, out);
    lay(table, previous % 4 * 16 + byte / 16, at, out)
}

// What is left of a mark: behind the missing clock bit the cells are those of other data, and mark A1 leaves the next
// byte's as 1001 would.
fn finish_mark(table: &[u16; 128], mark: usize, at: usize, out: &mut [u16]) -> Pen
    requires lt_mark { 255 < mark }
    requires mark_in_bounds { (finished table.now (drawing at out.old) mark).cells < length out.old }
    ensures { writing result out.new
        ≡ leaves mark (finished table.now (drawing at out.old) mark) }
{
    if mark == MARK_A1 as usize {
        let fifth = lay(table, 0b101001, at, out);
        return Pen {
            previous: 0b1001,
            cells: lay(table, 0b010100, fifth, out),
        };
    }
    let fourth = lay(table, 0b111001, at, out);
    let fifth = lay(table, 0b010100, fourth, out);
    Pen {
        previous: mark,
        cells: lay(table, 0b101001, fifth, out),
    }
}

// What is left of a byte.
fn finish(table: &[u16; 128], byte: usize, at: usize, out: &mut [u16]) -> Pen
    requires { (finished table.now (drawing at out.old) byte).cells < length out.old }
    ensures { writing result out.new
        ≡ leaves byte (finished table.now (drawing at out.old) byte) }
{
    if 255 < byte {
        return finish_mark(table, byte, at, out);
    }
    let third = lay(table, byte / 4, at, out);
    Pen {
        previous: byte,
        cells: lay(table, byte % 64, third, out),
    }
}

fn draw_byte(table: &[u16; 128], start: Pen, byte: u16, out: &mut [u16]) -> Pen
    requires { (wrote_byte table.now (writing start out.old) byte).pen.cells < length out.old }
    ensures { writing result out.new ≡ wrote_byte table.now (writing start out.old) byte }
{
    let w = byte as usize;
    let at = begin(table, start, w % 256, out);
    finish(table, w, at, out)
}

pub fn draw_bytes(table: &[u16; 128], start: Pen, bytes: &[u16], out: &mut [u16]) -> Pen
    requires { (wrote table.now (writing start out.old) bytes.now).pen.cells < length out.old }
    ensures { writing result out.new
        ≡ wrote table.now (writing start out.old) bytes.now }
{
    let mut pen = start;
    for &byte in bytes {
        pen = draw_byte(table, pen, byte, out);
    }
    pen
}

// The two closing 0s behind the last bit. Answers the number of cells.
pub fn draw_closing(table: &[u16; 128], pen: Pen, out: &mut [u16]) -> usize
    requires { (closed table.now (writing pen out.old)).cells < length out.old + 1 }
    ensures { drawing result out.new ≡ closed table.now (writing pen out.old) }
{
    let at = enter(table, pen.previous % 16 * 4, pen.cells, out);
    out[at] = table[pen.previous % 4 * 32];
    at + 1
}
