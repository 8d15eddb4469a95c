// Pages from a set of sectors.
ghost use Rattle.std.specs.Prelude.{◌*◌, ◌≤◌, ◌≡◌, false, length};
ghost use Rattle.lists.specs.Place.{anywhere};
ghost use Rattle.lists.specs.Filled.{stored_at};
ghost use Rattle.refusal.specs.Answer.{counted_answer, settled};
ghost use Rattle.sets.specs.Set.{sectors_in};
ghost use Rattle.sets.specs.Held.{numbers};
ghost use Rattle.sets.specs.Alone.{is_twice_in};
ghost use Rattle.sets.specs.machine.Index.{Indexed};
ghost use Rattle.page.specs.Page.{page_numbers};
ghost use Rattle.page.specs.Reading.{lost_at, pages_in, dots_in, pages_rule, read_rule, read_answer, read_output};
ghost use Rattle.page.specs.Reading.{handed_back};

use crate::copying::copy;
use crate::dots::count_dots;
use crate::search::{lowest_lost, lowest_soiled};
use refusal::{Refusal, Told};

// Number and place of a refusal, 0 where there is none; how many pages were read and how many cells were stored; and
// the number of raised dots on each page, 0 beyond those read.
#[repr(C)]
#[derive(Clone, Copy, PartialEq, Eq)]
pub struct Pages {
    pub number: u32,
    pub place: u32,
    pub count: u64,
    pub used: u64,
    pub dots: [u32; 16],
}

// The pages, none of which is lost, where there is room for them.
fn put_pages(set: &[u8], index: &[u16; 256], pages: usize, cells: &mut [u8], dots: &mut [u32; 16])
    requires { Indexed set.now index.now
        × (anywhere (is_twice_in (sectors_in set.now)) numbers ≡ false)
        × (pages ≤ 16)
        × (anywhere (lost_at (sectors_in set.now)) (page_numbers pages) ≡ false)
        × (1000 * pages ≤ length cells.old) }
    ensures cells { cells.new ≡ stored_at cells.old 0 (pages_in (sectors_in set.now) pages) }
    ensures dots { dots.new ≡ stored_at dots.old 0 (dots_in (sectors_in set.now) pages) }
{
    for k in 0..pages {
        let start = index[k + 1] as usize + 2;
        let end = start + 1000;
        copy(&set[start..end], 1000 * k, cells);
        dots[k] = count_dots(&set[start..end]);
    }
}

// 19, 20, 9.
fn deliver(
    set: &[u8],
    index: &[u16; 256],
    pages: usize,
    cells: &mut [u8],
    dots: &mut [u32; 16],
) -> Result<usize, Refusal>
    requires { Indexed set.now index.now
        × (anywhere (is_twice_in (sectors_in set.now)) numbers ≡ false)
        × (pages ≤ 16)
        × (length dots.old ≡ 16) }
    ensures answer { counted_answer result ≡ pages_rule (sectors_in set.now) pages (length cells.old) }
    ensures cells { cells.new
        ≡ settled (pages_rule (sectors_in set.now) pages (length cells.old))
        (pages_in (sectors_in set.now) pages) cells.old }
    ensures dots { dots.new
        ≡ settled (pages_rule (sectors_in set.now) pages (length cells.old))
        (dots_in (sectors_in set.now) pages) dots.old }
{
    if let Some(lost) = lowest_lost(set, index, pages) {
        return Err(Refusal::PageLost(lost as u32 + 1));
    }
    if let Some(soiled) = lowest_soiled(set, index, pages) {
        return Err(Refusal::FillSoiled(soiled as u32 + 1));
    }
    if cells.len() < 1000 * pages {
        return Err(Refusal::OutputTooShort);
    }
    put_pages(set, index, pages, cells, dots);
    Ok(pages)
}

// 12, then 13, 15 and 17, then the others.
fn gather(
    set: &[u8],
    pages: usize,
    cells: &mut [u8],
    dots: &mut [u32; 16],
) -> Result<usize, Refusal>
    requires { length dots.old ≡ 16 }
    ensures answer { counted_answer result ≡ read_rule set.now pages (length cells.old) }
    ensures cells { cells.new ≡ read_output set.now pages cells.old }
    ensures dots { dots.new
        ≡ settled (read_rule set.now pages (length cells.old))
        (dots_in (sectors_in set.now) pages) dots.old }
{
    if pages < 1 {
        return Err(Refusal::CountOutOfRange);
    }
    if 16 < pages {
        return Err(Refusal::CountOutOfRange);
    }
    let mut index = [0u16; 256];
    sets::index_alone(set, &mut index)?;
    deliver(set, &index, pages, cells, dots)
}

// 12, 13, 15, 17, 19, 20, 9. On acceptance pages 1 to p fill the front of the output, 1,000 cells each.
pub fn read_pages(set: &[u8], pages: usize, cells: &mut [u8]) -> Pages
    ensures answer { result ≡ handed_back (read_answer set.now pages (length cells.old)) }
    ensures cells { cells.new ≡ read_output set.now pages cells.old }
{
    let mut dots = [0u32; 16];
    let read = Told::from(gather(set, pages, cells, &mut dots));
    Pages {
        number: read.number,
        place: read.place,
        count: read.count as u64,
        used: (1000 * read.count) as u64,
        dots,
    }
}
