// The strip reader: one pass, which only looks, decides every refusal and the count, a second stores the items.
ghost use Rattle.std.specs.Prelude.{◌≤◌, ◌≡◌, length};
ghost use Rattle.refusal.specs.Answer.{counted_answer};
ghost use Rattle.timing.specs.Profile.{profile_rule};
ghost use Rattle.timing.specs.Class.{classes_of};
ghost use Rattle.symbols.specs.machine.Step.{strip_answer};
ghost use Rattle.intervals.specs.Cells.{edge_rule};
ghost use Rattle.codec.specs.Reader.{read_rule, read_output};

use half_cells::words_to_bytes;
use intervals::edges::check_edges;
use passes::{last_place, look_over, pass_over};
use refusal::Refusal;
use symbols::Reading;
use timing::Profile;

// The most intervals of a strip: 6,400 bytes and the two closing 0s. It has fewer bytes than intervals, so that no pass
// ends before the list does.
const MAX_INTERVALS: usize = 51202;

// The most bytes read.
const MAX_BYTES: u32 = 6400;

// What the whole strip reads as, given the place of its last interval: 7, 4, 8, or the number of items. A strip of
// 8n + 2 bits ends one bit into a byte, and that bit is 0: with the data bit before it, four half cells.
fn conclude(m: Reading, last: u32) -> Result<usize, Refusal>
    ensures { counted_answer result ≡ strip_answer m last }
{
    if m.held != 4 {
        return Err(Refusal::NotWholeBytes);
    }
    if MAX_BYTES < m.words {
        return Err(Refusal::TooLong);
    }
    if m.is_stray() {
        return Err(Refusal::MisplacedMark(m.stray_place(last)));
    }
    Ok(m.words as usize)
}

// A strip in which every interval is a cell: 7, 4, 8, 9, or all of its items. Code words are stored first, and turned
// into items where they stand.
fn read_cells(p: Profile, intervals: &[u16], out: &mut [u16]) -> Result<usize, Refusal>
    requires p_value { (profile_rule p).number ≡ 0 }
    requires intervals_len_bound { length intervals.now ≤ 51202 }
    requires intervals_value { (edge_rule (classes_of p intervals.now)).number ≡ 0 }
    ensures answer { counted_answer result ≡ read_rule p intervals.now (length out.old) }
    ensures output { out.new ≡ read_output p intervals.now out.old }
{
    let pass = look_over(p, intervals, MAX_INTERVALS as u32);
    let reading = pass.reading;
    let n = conclude(reading, last_place(pass.used))?;
    if out.len() < n {
        return Err(Refusal::OutputTooShort);
    }
    pass_over(p, intervals, MAX_INTERVALS as u32, out);
    words_to_bytes(&mut out[..n]);
    Ok(n)
}

// A strip of at most 51,202 intervals under an accepted profile: the first of 5 or 6, 7, 4, 8, 9, or all of its items.
fn read_strip(p: Profile, intervals: &[u16], out: &mut [u16]) -> Result<usize, Refusal>
    requires p_value { (profile_rule p).number ≡ 0 }
    requires intervals_len_bound { length intervals.now ≤ 51202 }
    ensures answer { counted_answer result ≡ read_rule p intervals.now (length out.old) }
    ensures output { out.new ≡ read_output p intervals.now out.old }
{
    check_edges(p, intervals)?;
    read_cells(p, intervals, out)
}

// A strip of intervals as items: 1, 2, 4, the first of 5 or 6, 7, 4, 8, 9, or the number of items stored.
#[tactic(auto, using(refusal::proofs::AnswerLaws::refusal_decides, refusal::proofs::AnswerLaws::refusal_keeps_the_buffer), unfolding(crate::specs::Reader::read_rule, crate::specs::Reader::read_output))]
pub fn read(p: Profile, intervals: &[u16], out: &mut [u16]) -> Result<usize, Refusal>
    ensures answer { counted_answer result ≡ read_rule p intervals.now (length out.old) }
    ensures output { out.new ≡ read_output p intervals.now out.old }
{
    timing::check(p)?;
    if MAX_INTERVALS < intervals.len() {
        return Err(Refusal::TooLong);
    }
    read_strip(p, intervals, out)
}
