// The C interface of the pages as a static library, as include/ism_page.h declares it. Each export hands its parameters
// to the function of its name in the library ism_page, and promises the same.
#![tactic(auto)]

ghost use Rattle.std.specs.Prelude.{◌≡◌, length};
ghost use Rattle.page.specs.Reading.{read_answer, read_output, handed_back};
ghost use Rattle.page.specs.Making.{make_answer, make_output};
ghost use Rattle.ism_page.specs.Answers.{given_set};

use ism_page::IsmAnswer;
use page::Pages;

#[unsafe(no_mangle)]
pub extern "C" fn ism_read_pages(set: &[u8], pages: u64, cells: &mut [u8]) -> Pages
    ensures answer { result ≡ handed_back (read_answer set.now pages (length cells.old)) }
    ensures cells { cells.new ≡ read_output set.now pages cells.old }
{
    ism_page::ism_read_pages(set, pages, cells)
}

#[unsafe(no_mangle)]
pub extern "C" fn ism_make_pages(cells: &[u8], pages: u64, set: &mut [u8]) -> IsmAnswer
    ensures answer { result ≡ given_set (make_answer cells.now pages (length set.old)) }
    ensures set { set.new ≡ make_output cells.now pages set.old }
{
    ism_page::ism_make_pages(cells, pages, set)
}

// Its name is what counts: a program asks the linker for the interface that it was compiled against.
#[unsafe(no_mangle)]
pub extern "C" fn ism_page_interface_9() -> u32
    ensures { result ≡ 9 }
{
    ism_page::ism_page_interface_9()
}
