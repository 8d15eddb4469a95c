// The index of a track. The entries are gathered in the form in which they are handed back, and handed back at one place,
// so that the stack holds them once.
ghost use Rattle.std.specs.Prelude.{◌≡◌};
ghost use Rattle.track.specs.Index.{index_rule, index_entries};
ghost use Rattle.track.specs.HandedBack.{index_entry_of, index_answer_of};

use crate::order::goes_before;
use entries::{Entry, Step, find_entry};
use refusal::{Refusal, Told};
use timing::Profile;

// Found and holds are 1 or 0; without data found, holds and data_place are 0.
#[repr(C)]
#[derive(Clone, Copy)]
pub struct IndexEntry {
    pub id_place: u64,
    pub data_place: u64,
    pub track: u8,
    pub side: u8,
    pub sector: u8,
    pub code: u8,
    pub found: u8,
    pub holds: u8,
}

// Number and place of a refusal, 0 where there is none; how many entries there are, and these. The fields of entries
// beyond the count are 0.
#[repr(C)]
#[derive(Clone, Copy)]
pub struct TrackIndex {
    pub number: u32,
    pub place: u32,
    pub count: u64,
    pub entries: [IndexEntry; 32],
}

// Stands where there is no entry.
const BLANK: IndexEntry = IndexEntry {
    id_place: 0,
    data_place: 0,
    track: 0,
    side: 0,
    sector: 0,
    code: 0,
    found: 0,
    holds: 0,
};

impl From<Entry> for IndexEntry {
    ghost from_gives = { λ entry handed. handed ≡ index_entry_of entry };

    fn from(entry: Entry) -> IndexEntry {
        match entry.field {
            Some(data) => IndexEntry {
                id_place: entry.place as u64,
                data_place: data.place as u64,
                track: entry.track,
                side: entry.side,
                sector: entry.sector,
                code: entry.code,
                found: 1,
                holds: data.holds as u8,
            },
            None => IndexEntry {
                id_place: entry.place as u64,
                data_place: 0,
                track: entry.track,
                side: entry.side,
                sector: entry.sector,
                code: entry.code,
                found: 0,
                holds: 0,
            },
        }
    }
}

// 1, 2, 15; else the entries by sector number, then by ID place: search after search, each from where the one before
// says, until no lock is left or an entry has no room; each entry found is put where it belongs.
pub fn index_track(p: Profile, intervals: &[u16]) -> TrackIndex
    ensures { result ≡ index_answer_of (index_rule p intervals.now) (index_entries p intervals.now) }
{
    let mut entries = [BLANK; 32];
    let mut count: usize = 0;
    let mut start: usize = 0;
    let found = match timing::check(p) {
        Err(refusal) => Err(refusal),
        Ok(()) => 'search: loop {
            match find_entry(p, intervals, start) {
                Step::End => break 'search Ok(count),
                Step::Other { next } => start = next,
                Step::Begins { entry, next } => {
                    if count == 32 {
                        entries = [BLANK; 32];
                        break 'search Err(Refusal::TooManySectors);
                    }
                    let new = IndexEntry::from(entry);
                    // no `for` over the places downwards, since the place at which it stops is used behind it
                    let mut at = count;
                    'slide: while 0 < at {
                        let last = entries[at - 1];
                        if goes_before(new, last) {
                            entries[at] = last;
                            at -= 1;
                        } else {
                            break 'slide;
                        }
                    }
                    entries[at] = new;
                    count += 1;
                    start = next;
                }
            }
        },
    };
    let told = Told::from(found);
    TrackIndex {
        number: told.number,
        place: told.place,
        count: told.count as u64,
        entries,
    }
}
