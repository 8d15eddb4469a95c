// Reading: where a piece ends, whether it is a word, and the number that it is.
ghost use Rattle.std.specs.Prelude.{◌+◌, ◌≡◌, length, drop};
ghost use Rattle.text.specs.Ascii.{same_text};
ghost use Rattle.text.specs.Pieces.{up_to};
ghost use Rattle.text.specs.Decimal.{no_leading_zero, digits_read, decimal_read};
ghost use Rattle.text.specs.Hex.{digit_read, byte_read};

// Where the piece that starts at `from` ends: at the next separator, or at the end of the text.
pub fn find(text: &[u8], from: usize, separator: u8) -> usize
    ensures { result ≡ from + length (up_to separator (drop from text.now)) }
{
    for at in from..text.len() {
        if text[at] == separator {
            return at;
        }
    }
    from.max(text.len())
}

// Whether two texts have the same bytes.
pub fn same(a: &[u8], b: &[u8]) -> bool
    ensures { result ≡ same_text a.now b.now }
{
    a == b
}

// Whether a field is one character, or more with the first not 0.
fn no_leading_zero(field: &[u8]) -> bool
    ensures { result ≡ no_leading_zero field.now }
{
    if field.len() == 0 {
        return false;
    }
    if field.len() == 1 {
        return true;
    }
    field[0] != b'0'
}

// The number of a field's digits, if it is at most 65,535. A larger one is left at once, so that no digit can make
// the sum wrap.
fn parse_digits(field: &[u8]) -> Option<u16>
    ensures { result ≡ digits_read field.now }
{
    let mut value: u32 = 0;
    for &d in field {
        if d < b'0' {
            return None;
        }
        if d > b'9' {
            return None;
        }
        value = value * 10 + (d - b'0') as u32;
        if value > 65535 {
            return None;
        }
    }
    Some(value as u16)
}

// A decimal of at most 65,535 without a leading zero.
pub fn parse_decimal(field: &[u8]) -> Option<u16>
    ensures { result ≡ decimal_read field.now }
{
    if no_leading_zero(field) {
        return parse_digits(field);
    }
    None
}

// The number of a digit 0-9 A-F.
fn hex_digit(b: u8) -> Option<u8>
    ensures { result ≡ digit_read b }
{
    if b < b'0' {
        return None;
    }
    if b <= b'9' {
        return Some(b - b'0');
    }
    if b < b'A' {
        return None;
    }
    if b <= b'F' {
        return Some(b - b'A' + 10);
    }
    None
}

// A byte as two digits 0-9 A-F.
pub fn parse_byte(field: &[u8]) -> Option<u8>
    ensures { result ≡ byte_read field.now }
{
    if field.len() != 2 {
        return None;
    }
    let high = hex_digit(field[0])?;
    let low = hex_digit(field[1])?;
    Some(high * 16 + low)
}
