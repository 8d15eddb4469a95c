// Pages into sectors.
ghost use Rattle.std.specs.Prelude.{◌+◌, ◌*◌, ◌≤◌, ◌≡◌, length};
ghost use Rattle.lists.specs.Filled.{stored_at};
ghost use Rattle.sets.specs.Set.{sector_bytes};
ghost use Rattle.page.specs.Making.{sector_of_page, made_set, make_answer, make_output, made_answer};

use crate::copying::copy;
use refusal::Refusal;
use sets::SetSize;

fn put_sector(number: u8, page: &[u8], set: &mut [u8], start: usize)
    requires { (length page.now ≡ 1000) × (start + 1027 ≤ length set.old) }
    ensures { set.new
        ≡ stored_at set.old start (sector_bytes (sector_of_page number page.now)) }
{
    set[start] = number;
    set[start + 1] = 3;
    set[start + 2] = 1;
    copy(page, start + 3, set);
    let behind = start + 1003;
    let end = behind + 24;
    set[behind..end].fill(0x00);
}

fn put_sectors(cells: &[u8], pages: usize, set: &mut [u8])
    requires { (pages ≤ 16) × (length cells.now ≡ 1000 * pages) × (1027 * pages ≤ length set.old) }
    ensures { set.new ≡ stored_at set.old 0 (made_set cells.now pages) }
{
    for k in 0..pages {
        let start = 1000 * k;
        let end = start + 1000;
        put_sector(k as u8 + 1, &cells[start..end], set, 1027 * k);
    }
}

// 12, 13, 9; else the size of the set. On acceptance sectors 1 to p of code 3 fill the front of the output, 1,027 bytes
// each.
pub fn make_pages(cells: &[u8], pages: usize, set: &mut [u8]) -> Result<SetSize, Refusal>
    ensures answer { made_answer result ≡ make_answer cells.now pages (length set.old) }
    ensures set { set.new ≡ make_output cells.now pages set.old }
{
    if pages < 1 {
        return Err(Refusal::CountOutOfRange);
    }
    if 16 < pages {
        return Err(Refusal::CountOutOfRange);
    }
    if cells.len() != 1000 * pages {
        return Err(Refusal::SectorSizeMismatch);
    }
    let bytes = 1027 * pages;
    if set.len() < bytes {
        return Err(Refusal::OutputTooShort);
    }
    put_sectors(cells, pages, set);
    Ok(SetSize {
        count: pages,
        bytes,
    })
}
