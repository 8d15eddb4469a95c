// The raised dots of a page: ones, counted in vectors of bytes. Columns of bytes hold the sums, so that no byte is
// widened before the end.
ghost use Rattle.std.specs.Prelude.{ℕ, ◌+◌, ◌≤◌, ◌≡◌, length, get_or};
ghost use Rattle.lists.specs.Sum.{sum_of};
ghost use Rattle.page.specs.Page.{dots_of_cell, dots_of};
ghost use Rattle.page.specs.machine.Columns.{halves_of};

// Ones of pairs of bits, then of four.
fn halves(cell: u8) -> u8
    ensures { result ≡ halves_of cell }
{
    let pairs = cell - ((cell >> 1) & 0x55);
    (pairs & 0x33) + ((pairs >> 2) & 0x33)
}

// Each half of the sum of three is at most 12, so that none runs over into the other.
fn grow(column: u8, a: u8, b: u8, c: u8) -> u8
    requires { column ≤ 216 }
    ensures { result ≡ column + (dots_of_cell a + dots_of_cell b + dots_of_cell c) }
{
    let three = halves(a) + halves(b) + halves(c);
    column + three % 16 + three / 16
}

// Three rows of 32 cells.
fn add_rows(rows: &[u8], columns: &mut [u8; 32])
    requires { (length rows.now ≡ 96) × (length columns.old ≡ 32) × ((k : ℕ) → get_or columns.old k 0 ≤ 216) }
    ensures size { length columns.new ≡ 32 }
    ensures sum { sum_of columns.new ≡ sum_of columns.old + dots_of rows.now }
    ensures each { (k : ℕ) → get_or columns.new k 0 ≤ get_or columns.old k 0 + 24 }
{
    for (k, column) in columns.iter_mut().enumerate() {
        *column = grow(*column, rows[k], rows[32 + k], rows[64 + k]);
    }
}

fn sum_columns(columns: &[u8; 32]) -> u32
    requires { (length columns.now ≡ 32) × ((k : ℕ) → get_or columns.now k 0 ≤ 240) }
    ensures { result ≡ sum_of columns.now }
{
    let mut sum: u32 = 0;
    for column in columns {
        sum += *column as u32;
    }
    sum
}

// The last line by itself.
fn count_line(line: &[u8]) -> u32
    requires { length line.now ≡ 40 }
    ensures { result ≡ dots_of line.now }
{
    let mut dots: u32 = 0;
    for cell in line {
        dots += cell.count_ones();
    }
    dots
}

pub fn count_dots(page: &[u8]) -> u32
    requires { length page.now ≡ 1000 }
    ensures { result ≡ dots_of page.now }
{
    let mut columns = [0u8; 32];
    for turn in 0..10 {
        let start = 96 * turn;
        let end = start + 96;
        add_rows(&page[start..end], &mut columns);
    }
    sum_columns(&columns) + count_line(&page[960..1000])
}
