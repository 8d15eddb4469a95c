// The lines after the first: `data`, `mark` and `crc`.
ghost use Rattle.std.specs.Prelude.{◌+◌, ◌≤◌, ◌<◌, ◌≡◌, [], ◌∷◌, length, drop};
ghost use Rattle.lists.specs.Filled.{stored_at};
ghost use Rattle.text.specs.Ascii.{line_feed};
ghost use Rattle.text.specs.Pieces.{pieces_of};
ghost use Rattle.script.specs.machine.Read.{BytesRead, LineRead, LinesRead, LinesStored, fields_after};

use refusal::Refusal;

// The item that orders the check bytes.
const CHECK_ORDER: u16 = 512;

// A number stored at a place where there is room. Answers the next place.
fn put(out: &mut [u16], at: usize, number: u16) -> usize
    requires { at < 65536 }
    ensures next { result ≡ at + 1 }
    ensures output { out.new ≡ stored_at out.old at (number ∷ []) }
{
    lists::put(out, at, number);
    at + 1
}

// The bytes that stand from a tab on, each with a number added, stored from place `count` on.
fn read_bytes(
    line: &[u8],
    from: usize,
    base: u16,
    buffer: &mut [u16],
    count: usize,
) -> Option<usize>
    requires { (base ≤ 256) × (count + length line.now < 65536) }
    ensures { BytesRead (fields_after (drop from line.now)) base buffer.old count result
        buffer.new }
{
    if line.len() <= from {
        return None;
    }
    let mut at = from;
    let mut n = count;
    // no `for`: the step is where the next tab stands
    while at < line.len() {
        let start = at + 1;
        let end = text::find(line, start, b'\t');
        let b = text::parse_byte(&line[start..end])?;
        n = put(buffer, n, base + b as u16);
        at = end;
    }
    Some(n)
}

// The items of one line, stored from place `count` on.
fn read_item_line(line: &[u8], buffer: &mut [u16], count: usize) -> Option<usize>
    requires { count + length line.now < 65536 }
    ensures { LineRead line.now buffer.old count result buffer.new }
{
    if text::same(line, b"crc") {
        return Some(put(buffer, count, CHECK_ORDER));
    }
    let end = text::find(line, 0, b'\t');
    if text::same(&line[..end], b"data") {
        return read_bytes(line, end, 0, buffer, count);
    }
    if text::same(&line[..end], b"mark") {
        return read_bytes(line, end, 256, buffer, count);
    }
    None
}

// How many items the lines from the second on have, which starts at `from`. As many as the buffer has room for are
// stored, up to the first fault.
fn read_items(text: &[u8], from: usize, buffer: &mut [u16]) -> Result<usize, Refusal>
    requires { (from ≤ length text.now) × (length text.now ≤ 16384) }
    ensures { LinesRead (pieces_of line_feed (drop from text.now)) buffer.old result
        buffer.new }
{
    let mut at = from;
    let mut line: u32 = 2;
    let mut count = 0;
    // no `for`: the step is where the next line ends
    while at < text.len() {
        let end = text::find(text, at, b'\n');
        if end == text.len() {
            return Err(Refusal::MalformedInput(line));
        }
        match read_item_line(&text[at..end], buffer, count) {
            None => return Err(Refusal::MalformedInput(line)),
            Some(n) => count = n,
        }
        at = end + 1;
        line += 1;
    }
    Ok(count)
}

// The items of the lines from the second on, as many as the buffer has room for. The lines are first read with no room
// for any, so that a refusal leaves the buffer as it was lent.
pub fn store_items(text: &[u8], from: usize, buffer: &mut [u16]) -> Result<usize, Refusal>
    requires { (from ≤ length text.now) × (length text.now ≤ 16384) }
    ensures { LinesStored (pieces_of line_feed (drop from text.now)) buffer.old result
        buffer.new }
{
    let mut no_room = [0u16; 0];
    read_items(text, from, &mut no_room)?;
    let count = read_items(text, from, buffer)?;
    Ok(count.min(buffer.len()))
}
