// The first line: `profile` and eleven decimals.
ghost use Rattle.std.specs.Prelude.{◌≡◌, length, drop};
ghost use Rattle.script.specs.Line.{profile_read};
ghost use Rattle.script.specs.machine.Read.{NumbersRead, fields_after};

use timing::{PROFILE_NUMBERS, Profile};

// The decimals that stand from a tab on, if they are as many as the buffer has places.
fn read_numbers(line: &[u8], from: usize, numbers: &mut [u16]) -> bool
    ensures { NumbersRead (fields_after (drop from line.now)) (length numbers.old) result
        numbers.new }
{
    let mut at = from;
    let mut k = 0;
    // no `for`: the step is where the next tab stands
    while at < line.len() {
        if k == numbers.len() {
            return false;
        }
        let start = at + 1;
        let end = text::find(line, start, b'\t');
        match text::parse_decimal(&line[start..end]) {
            None => return false,
            Some(n) => numbers[k] = n,
        }
        k += 1;
        at = end;
    }
    k == numbers.len()
}

// The profile of a line.
pub fn read_profile(line: &[u8]) -> Option<Profile>
    ensures { result ≡ profile_read line.now }
{
    let end = text::find(line, 0, b'\t');
    if text::same(&line[..end], b"profile") {
        let mut numbers = [0u16; PROFILE_NUMBERS];
        if read_numbers(line, end, &mut numbers) {
            return Some(Profile::from_numbers(&numbers));
        }
    }
    None
}
