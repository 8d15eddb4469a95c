// Printing: each function puts its text at a place of a buffer that has room for it, and answers where the text ends.
ghost use Rattle.std.specs.Prelude.{◌+◌, ◌≤◌, ◌≡◌, length};
ghost use Rattle.lists.specs.Filled.{stored_at};
ghost use Rattle.text.specs.Decimal.{decimal};
ghost use Rattle.text.specs.Line.{fields_of, line_of};

use lists::store;

// A text as it is.
fn append(out: &mut [u8], at: usize, text: &[u8]) -> usize
    requires { at + length text.now ≤ length out.old }
    ensures value { result ≡ at + length text.now }
    ensures out_after { out.new ≡ stored_at out.old at text.now }
{
    store(text, at, out);
    at + text.len()
}

// A number as a decimal without leading zeros.
fn append_decimal(out: &mut [u8], at: usize, n: usize) -> usize
    requires { at + length (decimal n) ≤ length out.old }
    ensures value { result ≡ at + length (decimal n) }
    ensures out_after { out.new ≡ stored_at out.old at (decimal n) }
{
    if n < 10 {
        out[at] = b'0' + n as u8;
        return at + 1;
    }
    let last = append_decimal(out, at, n / 10);
    out[last] = b'0' + (n % 10) as u8;
    last + 1
}

// Numbers, each after a tab.
fn append_fields(out: &mut [u8], at: usize, numbers: &[usize]) -> usize
    requires { at + length (fields_of numbers.now) ≤ length out.old }
    ensures value { result ≡ at + length (fields_of numbers.now) }
    ensures out_after { out.new ≡ stored_at out.old at (fields_of numbers.now) }
{
    let mut end = at;
    for &number in numbers {
        out[end] = b'\t';
        end = append_decimal(out, end + 1, number);
    }
    end
}

// A line: a word and numbers, parted by tabs.
pub fn append_line(out: &mut [u8], at: usize, word: &[u8], numbers: &[usize]) -> usize
    requires { at + length (line_of word.now numbers.now) ≤ length out.old }
    ensures value { result ≡ at + length (line_of word.now numbers.now) }
    ensures out_after { out.new ≡ stored_at out.old at (line_of word.now numbers.now) }
{
    let fields = append(out, at, word);
    let end = append_fields(out, fields, numbers);
    append(out, end, b"\n")
}
