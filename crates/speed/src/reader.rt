// Document 02, (xi): n bytes at the first lock from a start, at the drive's own speed.
ghost use Rattle.std.specs.Prelude.{◌≤◌, ◌≡◌, length};
ghost use Rattle.timing.specs.Profile.{profile_rule};
ghost use Rattle.timing.specs.Class.{classes_of};
ghost use Rattle.fields.specs.FieldRule.{field_output};
ghost use Rattle.fields.specs.machine.Gather.{checked_output};
ghost use Rattle.clearance.specs.Answers.{clear_field_answer, field_with_clearance};
ghost use Rattle.pace.specs.machine.Cut.{slowed, Able};
ghost use Rattle.speed.specs.Reading.{corrected_answer, reading_at, output_at};
ghost use Rattle.speed.specs.Reading.{corrected_reading, corrected_output};
ghost use Rattle.speed.specs.machine.Read.{checked_with_clearance};

use crate::gather::gather;
use clearance::Clear;
use fields::reader::{Field, MAX_FIELD_BYTES, SHORT_FIELD_BYTES, deliver};
use pace::{Pace, RUN, difference};
use refusal::Refusal;
use timing::Profile;

// What a field reads as with its clearance, the place of its lock, and the signed differences of the two sums to
// 32 × T1.
#[derive(Clone, Copy, PartialEq, Eq)]
pub struct Corrected {
    pub field: Clear<Field>,
    pub lock: usize,
    pub even: i32,
    pub odd: i32,
}

// The items wait in a buffer, as a refusal changes nothing that was lent.
fn read_into(
    p: Profile,
    pace: Pace,
    intervals: &[u16],
    n: usize,
    buffer: &mut [u16],
    out: &mut [u16],
) -> Result<Clear<Field>, Refusal>
    requires p_value { (profile_rule p).number ≡ 0 }
    requires le_n { (1 ≤ n) × (n ≤ 1030) × (n ≤ length buffer.old) }
    requires able { Able pace }
    ensures answer { clear_field_answer result
        ≡ checked_with_clearance p (slowed pace intervals.now) n (length out.old) }
    ensures output { out.new ≡ checked_output (classes_of p (slowed pace intervals.now)) n out.old }
{
    let gathered = gather(p, pace, intervals, n as u32, buffer);
    let used = gathered.end?;
    let read = deliver(&buffer[..n], used, gathered.holds, out)?;
    let clearance = gathered.clearance;
    Ok(Clear { read, clearance })
}

// A short field has a short buffer.
fn read_checked(
    p: Profile,
    pace: Pace,
    intervals: &[u16],
    n: usize,
    out: &mut [u16],
) -> Result<Clear<Field>, Refusal>
    requires p_value { (profile_rule p).number ≡ 0 }
    requires le_n { (1 ≤ n) × (n ≤ 1030) }
    requires able { Able pace }
    ensures answer { clear_field_answer result
        ≡ checked_with_clearance p (slowed pace intervals.now) n (length out.old) }
    ensures output { out.new ≡ checked_output (classes_of p (slowed pace intervals.now)) n out.old }
{
    if n <= SHORT_FIELD_BYTES {
        let mut buffer = [0u16; SHORT_FIELD_BYTES];
        return read_into(p, pace, intervals, n, &mut buffer, out);
    }
    let mut buffer = [0u16; MAX_FIELD_BYTES];
    read_into(p, pace, intervals, n, &mut buffer, out)
}

// 12, then as the field reader over the corrected intervals.
fn read_slowed(
    p: Profile,
    pace: Pace,
    intervals: &[u16],
    n: usize,
    out: &mut [u16],
) -> Result<Clear<Field>, Refusal>
    requires p_value { (profile_rule p).number ≡ 0 }
    requires able { Able pace }
    ensures answer { clear_field_answer result
        ≡ field_with_clearance p (slowed pace intervals.now) n (length out.old) }
    ensures output { out.new ≡ field_output p (slowed pace intervals.now) n out.old }
{
    if (n < 1) | (MAX_FIELD_BYTES < n) {
        return Err(Refusal::CountOutOfRange);
    }
    read_checked(p, pace, intervals, n, out)
}

// At a lock: 18, then as the field reader.
fn read_at(
    p: Profile,
    intervals: &[u16],
    lock: usize,
    n: usize,
    out: &mut [u16],
) -> Result<Corrected, Refusal>
    requires p_value { (profile_rule p).number ≡ 0 }
    requires le_lock { (64 ≤ lock) × (lock ≤ length intervals.now) }
    ensures answer { corrected_answer result ≡ reading_at p intervals.now lock n (length out.old) }
    ensures output { out.new ≡ output_at p intervals.now lock n out.old }
{
    let pace = Pace::measured(p.t1, &intervals[lock - RUN..lock]);
    pace.check()?;
    let field = read_slowed(p, pace, &intervals[lock..], n, out)?;
    let even = difference(pace.nominal, pace.even);
    let odd = difference(pace.nominal, pace.odd);
    Ok(Corrected {
        field,
        lock,
        even,
        odd,
    })
}

// 1, 2, 10, 18, 12, then 5, 6 or 11 as first met, 8, 9; places of 5, 6 and 8 count from the lock.
pub fn read_corrected(
    p: Profile,
    intervals: &[u16],
    start: usize,
    n: usize,
    out: &mut [u16],
) -> Result<Corrected, Refusal>
    ensures answer { corrected_answer result ≡ corrected_reading p intervals.now start n (length out.old) }
    ensures output { out.new ≡ corrected_output p intervals.now start n out.old }
{
    let lock = locks::finder::find_lock(p, intervals, start)?;
    read_at(p, intervals, lock, n, out)
}
