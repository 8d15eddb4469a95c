// The data of an ID: the next lock, if its field reads with three A1 marks and FB.
ghost use Rattle.std.specs.Prelude.{◌≡◌};
ghost use Rattle.timing.specs.Profile.{profile_rule};
ghost use Rattle.entries.specs.machine.Steps.{data_read, sought};

use crate::DataField;
use crate::opening::{Opened, read_opened};
use locks::finder::search;
use timing::Profile;

// The data field of an entry, if there is one, and where the search goes on after it.
#[derive(Clone, Copy, PartialEq, Eq)]
pub struct Sought {
    pub field: Option<DataField>,
    pub end: usize,
}

// As many bytes as three marks, FB, the data of the code and two check bytes are. The first four tell what it is.
fn read_data(p: Profile, intervals: &[u16], code: u8) -> Option<Opened>
    requires { (profile_rule p).number ≡ 0 }
    ensures { result ≡ data_read p intervals.now code }
{
    let n = sectors::sector_size(code) + 6;
    let mut items = [0u16; 4];
    read_opened(p, intervals, n, 0xfb, &mut items)
}

// Searched after the intervals that the ID used, from `start` on.
pub fn find_data(p: Profile, intervals: &[u16], start: usize, code: u8) -> Sought
    requires { (profile_rule p).number ≡ 0 }
    ensures { result ≡ sought p intervals.now start code }
{
    let none = Sought {
        field: None,
        end: start,
    };
    let Ok(place) = search(p, intervals, start) else {
        return none;
    };
    let Some(Opened { used, holds }) = read_data(p, &intervals[place..], code) else {
        return none;
    };
    Sought {
        field: Some(DataField { place, holds }),
        end: place + used,
    }
}
