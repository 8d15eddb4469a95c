// Reports: how worn a drive is.
ghost use Rattle.std.specs.Prelude.{◌≡◌};
ghost use Rattle.report.specs.Report.{report_rule, reported, add_rule, added};
ghost use Rattle.answers.specs.Answers.{profile_of};
ghost use Rattle.answers.specs.Reports.{report_in, report_answer_of};

use answers::IsmProfile;
use answers::drive::{IsmReport, given};
use report::Report;
use timing::Profile;

pub fn ism_drive_report(p: IsmProfile, intervals: &[u16]) -> IsmReport
    ensures { result ≡ report_answer_of (report_rule (profile_of p) intervals.now)
        (reported (profile_of p) intervals.now) }
{
    let verdict = report::check_list(Profile::from(p), intervals);
    given(verdict, report::report_list(Profile::from(p), intervals))
}

pub fn ism_add_reports(a: IsmReport, b: IsmReport) -> IsmReport
    ensures { result ≡ report_answer_of (add_rule (report_in a) (report_in b)) (added (report_in a) (report_in b)) }
{
    let first = Report::from(a);
    let second = Report::from(b);
    let verdict = report::check_sum(first, second);
    given(verdict, report::add(first, second))
}
