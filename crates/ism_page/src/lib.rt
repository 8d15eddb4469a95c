// The C interface of the pages, as include/ism_page.h declares it; the crate ism_page_c exports it. Each function hands
// its arguments to the library and its answer back: nothing is computed here.
#![tactic(auto)]

ghost use Rattle.std.specs.Prelude.{◌≡◌, length};
ghost use Rattle.page.specs.Reading.{read_answer, read_output, handed_back};
ghost use Rattle.page.specs.Making.{made_answer, make_answer, make_output};
ghost use Rattle.ism_page.specs.Answers.{given_set};

use page::Pages;
use refusal::Refusal;
use sets::SetSize;

// Number 0 for accepted. What a function does not give is 0.
#[repr(C)]
#[derive(Clone, Copy)]
pub struct IsmAnswer {
    pub number: u32,
    pub place: u32,
    pub count: u64,
    pub used: u64,
    pub holds: u32,
    pub clearance: u32,
}

impl From<Result<SetSize, Refusal>> for IsmAnswer {
    ghost from_gives = { λ made answer. answer ≡ given_set (made_answer made) };

    fn from(made: Result<SetSize, Refusal>) -> IsmAnswer {
        match made {
            Ok(SetSize { count, bytes }) => IsmAnswer {
                number: 0,
                place: 0,
                count: count as u64,
                used: bytes as u64,
                holds: 0,
                clearance: 0,
            },
            Err(refusal) => IsmAnswer {
                number: refusal.number(),
                place: refusal.place(),
                count: 0,
                used: 0,
                holds: 0,
                clearance: 0,
            },
        }
    }
}

pub fn ism_read_pages(set: &[u8], pages: u64, cells: &mut [u8]) -> Pages
    ensures answer { result ≡ handed_back (read_answer set.now pages (length cells.old)) }
    ensures cells { cells.new ≡ read_output set.now pages cells.old }
{
    page::read_pages(set, pages as usize, cells)
}

pub fn ism_make_pages(cells: &[u8], pages: u64, set: &mut [u8]) -> IsmAnswer
    ensures answer { result ≡ given_set (make_answer cells.now pages (length set.old)) }
    ensures set { set.new ≡ make_output cells.now pages set.old }
{
    let made = page::make_pages(cells, pages as usize, set);
    IsmAnswer::from(made)
}

// Its name is what counts: a program asks the linker for the interface that it was compiled against.
pub fn ism_page_interface_9() -> u32
    ensures { result ≡ 9 }
{
    9
}
