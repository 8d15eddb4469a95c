// The report of one list: a loop over its intervals, each of which renews one row.
ghost use Rattle.std.specs.Prelude.{◌<◌, ◌≤◌, ◌-◌, ◌≡◌, [], ◌∷◌, false, length, set};
ghost use Rattle.timing.specs.Class.{class_number};
ghost use Rattle.report.specs.Row.{row_of, add_row, is_overlarge};
ghost use Rattle.report.specs.Report.{row_at, report_from};

use crate::{Report, row};
use timing::{Class, Cursor};

// A report with an interval of this class more. Each arm renews a row at a place that the compiler knows, so that the
// rows stay in registers.
fn renew(rows: Report, class: Class, interval: u16) -> Report
    requires { is_overlarge (add_row (row_at rows (class_number class - 1)) (row_of (interval ∷ []))) ≡ false }
    ensures { result ≡ set rows (class_number class - 1) (add_row (row_at rows (class_number class - 1)) (row_of (interval ∷ []))) }
{
    let d = interval as u64;
    let one = [1, d, d, d];
    match class {
        Class::Narrow => [row::add(rows[0], one), rows[1], rows[2], rows[3], rows[4]],
        Class::Two => [rows[0], row::add(rows[1], one), rows[2], rows[3], rows[4]],
        Class::Three => [rows[0], rows[1], row::add(rows[2], one), rows[3], rows[4]],
        Class::Four => [rows[0], rows[1], rows[2], row::add(rows[3], one), rows[4]],
        Class::Wide => [rows[0], rows[1], rows[2], rows[3], row::add(rows[4], one)],
    }
}

// The report of a list that is not overlong, from where the classing stands on.
pub fn gather(start: Cursor, intervals: &[u16]) -> Report
    requires { length intervals.now ≤ 51202 }
    ensures { result ≡ report_from start intervals.now }
{
    let mut cursor = start;
    let mut rows: Report = [[0; 4]; 5];
    for &interval in intervals {
        let classed = cursor.step(interval);
        let next = renew(rows, classed.class, interval);
        rows = next;
        cursor = classed.next;
    }
    rows
}
