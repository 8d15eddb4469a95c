// How worn a drive is.
ghost use Rattle.std.specs.Prelude.{◌≡◌};
ghost use Rattle.refusal.specs.Answer.{verdict_answer};
ghost use Rattle.answers.specs.Reports.{report_row_of, numbers_in, report_in, report_answer_of};

use refusal::Refusal;
use report::Report;

#[repr(C)]
#[derive(Clone, Copy)]
pub struct IsmReportRow {
    pub count: u64,
    pub least: u64,
    pub greatest: u64,
    pub sum: u64,
}

// Rows for the classes narrow, 2, 3, 4, wide.
#[repr(C)]
#[derive(Clone, Copy)]
pub struct IsmReport {
    pub number: u32,
    pub place: u32,
    pub rows: [IsmReportRow; 5],
}

impl From<[u64; 4]> for IsmReportRow {
    ghost from_gives = { λ numbers row. row ≡ report_row_of numbers };

    fn from(numbers: [u64; 4]) -> IsmReportRow {
        let [count, least, greatest, sum] = numbers;
        IsmReportRow {
            count,
            least,
            greatest,
            sum,
        }
    }
}

impl From<IsmReportRow> for [u64; 4] {
    ghost from_gives = { λ row numbers. numbers ≡ numbers_in row };

    fn from(row: IsmReportRow) -> [u64; 4] {
        [row.count, row.least, row.greatest, row.sum]
    }
}

// The rows of a report that came in, whatever its number and place.
impl From<IsmReport> for Report {
    ghost from_gives = { λ given report. report ≡ report_in given };

    fn from(given: IsmReport) -> Report {
        let [narrow, two, three, four, wide] = given.rows;
        [
            <[u64; 4]>::from(narrow),
            <[u64; 4]>::from(two),
            <[u64; 4]>::from(three),
            <[u64; 4]>::from(four),
            <[u64; 4]>::from(wide),
        ]
    }
}

pub fn given(verdict: Result<(), Refusal>, report: Report) -> IsmReport
    ensures { result ≡ report_answer_of (verdict_answer verdict) report }
{
    let [narrow, two, three, four, wide] = report;
    let rows = [
        IsmReportRow::from(narrow),
        IsmReportRow::from(two),
        IsmReportRow::from(three),
        IsmReportRow::from(four),
        IsmReportRow::from(wide),
    ];
    match verdict {
        Ok(()) => IsmReport {
            number: 0,
            place: 0,
            rows,
        },
        Err(refusal) => IsmReport {
            number: refusal.number(),
            place: refusal.place(),
            rows,
        },
    }
}
