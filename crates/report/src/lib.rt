// Document 02, (i): how worn a drive is. A report has five rows of four numbers and is handed back whole; what is
// turned away is told by a function beside the one that hands the report back.
#![tactic(auto)]

ghost use Rattle.std.specs.Prelude.{◌≡◌};
ghost use Rattle.refusal.specs.Answer.{verdict_answer};
ghost use Rattle.report.specs.Report.{report_rule, reported, add_reports, add_rule, added};

use refusal::Refusal;
use timing::{Cursor, Profile};

mod list;
mod row;

// Rows for the classes narrow, 2, 3, 4, wide; in each the count, the least, the greatest and the sum.
pub type Report = [[u64; 4]; 5];

// Whether a list of intervals has a report: 1, 2, 4.
#[tactic(auto, using(refusal::proofs::AnswerLaws::refusal_decides, refusal::proofs::AnswerLaws::refusal_keeps_the_buffer), unfolding(crate::specs::Report::report_rule))]
pub fn check_list(p: Profile, intervals: &[u16]) -> Result<(), Refusal>
    ensures { verdict_answer result ≡ report_rule p intervals.now }
{
    timing::check(p)?;
    if 51202 < intervals.len() {
        return Err(Refusal::TooLong);
    }
    Ok(())
}

// The report of a list; zeros where it has none.
pub fn report_list(p: Profile, intervals: &[u16]) -> Report
    ensures { result ≡ reported p intervals.now }
{
    match check_list(p, intervals) {
        Err(_) => [[0; 4]; 5],
        Ok(()) => list::gather(Cursor::start(p), intervals),
    }
}

// Whether two reports can be added: 4.
pub fn check_sum(a: Report, b: Report) -> Result<(), Refusal>
    ensures { verdict_answer result ≡ add_rule a b }
{
    for k in 0..5 {
        if row::overflows(a[k], b[k]) {
            return Err(Refusal::TooLong);
        }
    }
    Ok(())
}

// The rows of two reports that can be added, added.
fn add_rows(a: Report, b: Report) -> Report
    requires { (add_rule a b).number ≡ 0 }
    ensures { result ≡ add_reports a b }
{
    let mut rows: Report = [[0; 4]; 5];
    for k in 0..5 {
        rows[k] = row::add(a[k], b[k]);
    }
    rows
}

// Two reports added; zeros where they cannot be.
pub fn add(a: Report, b: Report) -> Report
    ensures { result ≡ added a b }
{
    match check_sum(a, b) {
        Err(_) => [[0; 4]; 5],
        Ok(()) => add_rows(a, b),
    }
}
