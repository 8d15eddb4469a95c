// The pass over a field's intervals: its items go through the check register, and into a buffer.
ghost use Rattle.std.specs.Prelude.{◌^◌, ◌≤◌, ◌<◌, ◌≡◌, map};
ghost use Rattle.lists.specs.Filled.{stored_at};
ghost use Rattle.refusal.specs.Answer.{counted_answer};
ghost use Rattle.timing.specs.Profile.{profile_rule};
ghost use Rattle.timing.specs.Class.{classes_of};
ghost use Rattle.items.specs.Written.{fresh_check, after_bytes};
ghost use Rattle.half_cells.specs.machine.Candidate.{candidate};
ghost use Rattle.fields.specs.machine.Gather.{gather_rule, GathersItems, TellsSum};
ghost use Rattle.fields.specs.machine.End.{field_passed, items_passed, end_rule};

use half_cells::words_to_bytes;
use intervals::edges::check_edges;
use items::Check;
use lists::store;
use passes::block::Progress;
use passes::last_place;
use refusal::Refusal;
use shifts::Pass;
use symbols::Reading;
use timing::Profile;

// A field is read by parts of so many intervals, which have so many code words at most, and so a small buffer.
pub const PART: usize = 256;

pub const PART_WORDS: usize = 65;

// How far a pass came, and the check register after its items.
#[derive(Clone, Copy, PartialEq, Eq)]
struct Summed {
    pass: Pass,
    check: Check,
}

// How a pass over a field ends: why it is refused, or how many intervals it used; and whether the register is zero. The
// clauses `answer` and `sum` of `gather` name both, so it is no `Result` of the two.
#[derive(Clone, Copy, PartialEq, Eq)]
pub struct Gathered {
    pub end: Result<usize, Refusal>,
    pub holds: bool,
}

// The code words of a part, turned into items: through the register, and to their places.
pub fn sum_up(check: Check, words: &mut [u16], at: usize, out: &mut [u16]) -> Check
    ensures check { result ≡ after_bytes check (map candidate words.old) }
    ensures output { out.new ≡ stored_at out.old at (map candidate words.old) }
{
    words_to_bytes(words);
    store(words, at, out);
    check.after_bytes(words)
}

// One pass over the intervals of n bytes, each taken as a cell.
fn pass_items(p: Profile, intervals: &[u16], n: u32, out: &mut [u16]) -> Summed
    ensures end { result.pass ≡ (field_passed p intervals.now n).end }
    ensures check { result.check ≡ after_bytes fresh_check (items_passed p intervals.now n) }
    ensures output { out.new ≡ stored_at out.old 0 (items_passed p intervals.now n) }
{
    let mut words = [0u16; PART_WORDS];
    let mut at = Progress::start(p);
    let mut check = Check::fresh();
    while at.goes_on(n, intervals.len()) {
        let done = at.pass.reading.words;
        at = at.pass_on(intervals, PART, n, &mut words);
        let count = (at.pass.reading.words - done) as usize;
        check = sum_up(check, &mut words[..count], done as usize, out);
    }
    let pass = at.pass;
    Summed { pass, check }
}

// How the pass over a field ends, with so many intervals used: 11, 8, or how many they are.
pub fn conclude(m: Reading, used: usize, n: u32) -> Result<usize, Refusal>
    requires { used ≤ 2 ^ 32 }
    ensures { counted_answer result ≡ end_rule m used n }
{
    if m.words < n {
        return Err(Refusal::EndsEarly);
    }
    if m.is_stray() {
        return Err(Refusal::MisplacedMark(m.stray_place(last_place(used))));
    }
    Ok(used)
}

// A field of n bytes. An interval among the used ones that is no cell comes before all else.
pub fn gather(p: Profile, intervals: &[u16], n: u32, out: &mut [u16]) -> Gathered
    requires p_value { (profile_rule p).number ≡ 0 }
    requires le_n { (1 ≤ n) × (n ≤ 1030) }
    ensures answer { counted_answer result.end ≡ gather_rule (classes_of p intervals.now) n }
    ensures sum { TellsSum (classes_of p intervals.now) n result.holds }
    ensures fill { GathersItems (classes_of p intervals.now) n out.old out.new }
{
    let read = pass_items(p, intervals, n, out);
    let pass = read.pass;
    let used = pass.used;
    let holds = read.check.register == 0;
    match check_edges(p, &intervals[..used]) {
        Err(refusal) => Gathered {
            end: Err(refusal),
            holds,
        },
        Ok(()) => Gathered {
            end: conclude(pass.reading, used, n),
            holds,
        },
    }
}
