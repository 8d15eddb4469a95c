// A row of a report: count, least, greatest, sum.
ghost use Rattle.std.specs.Prelude.{◌≡◌, false};
ghost use Rattle.report.specs.Row.{add_row, is_overlarge};
ghost use Rattle.report.specs.machine.Compare.{Compared};

// Whether the sum of two numbers would not fit. No `checked_add` at the call: a number of an array is known to fit only
// in a function that is given it, and the caller learns it here.
fn exceed(a: u64, b: u64) -> bool
    ensures { Compared a b result }
{
    u64::MAX - b < a
}

// Whether a count or a sum of two rows added would not fit.
pub fn overflows(a: [u64; 4], b: [u64; 4]) -> bool
    ensures { result ≡ is_overlarge (add_row a b) }
{
    let counts = exceed(a[0], b[0]);
    let sums = exceed(a[3], b[3]);
    if a[0] == 0 {
        return false;
    }
    if b[0] == 0 {
        return false;
    }
    counts | sums
}

// Two rows added. One whose count is zero is passed over.
pub fn add(a: [u64; 4], b: [u64; 4]) -> [u64; 4]
    requires { is_overlarge (add_row a b) ≡ false }
    ensures { result ≡ add_row a b }
{
    if a[0] == 0 {
        if b[0] == 0 {
            return [0; 4];
        }
        return b;
    }
    if b[0] == 0 {
        return a;
    }
    [a[0] + b[0], a[1].min(b[1]), a[2].max(b[2]), a[3] + b[3]]
}
