// Document 02, (iii): the entries of a track, one search at a time.
#![tactic(auto)]

ghost use Rattle.std.specs.Prelude.{◌<◌, ◌≡◌, length};
ghost use Rattle.timing.specs.Profile.{profile_rule};
ghost use Rattle.entries.specs.machine.Steps.{step_at, step_from};

use content::find_data;
use id::read_id;
use locks::finder::search;
use timing::Profile;

mod content;
mod id;
mod opening;

// An entry's data field: the place of its lock and whether its sum holds.
#[derive(Clone, Copy, PartialEq, Eq)]
pub struct DataField {
    pub place: usize,
    pub holds: bool,
}

// The four bytes after FE, the place of the ID's lock, and the data field, if one was found.
#[derive(Clone, Copy, PartialEq, Eq)]
pub struct Entry {
    pub track: u8,
    pub side: u8,
    pub sector: u8,
    pub code: u8,
    pub place: usize,
    pub field: Option<DataField>,
}

// What one search finds: no lock, a lock at which no entry begins, or one at which an entry begins; and where the next
// search starts.
#[derive(Clone, Copy, PartialEq, Eq)]
pub enum Step {
    End,
    Other { next: usize },
    Begins { entry: Entry, next: usize },
}

// What begins at the lock at k. The next search starts after the last field of the entry, or else at the place after
// the lock.
fn look_at(p: Profile, intervals: &[u16], k: usize) -> Step
    requires p_value { (profile_rule p).number ≡ 0 }
    requires k_in_bounds { k < length intervals.now }
    ensures { result ≡ step_at p intervals.now k }
{
    match read_id(p, &intervals[k..]) {
        None => Step::Other { next: k + 1 },
        Some(id) => {
            let sought = find_data(p, intervals, k + id.used, id.code);
            let entry = Entry {
                track: id.track,
                side: id.side,
                sector: id.sector,
                code: id.code,
                place: k,
                field: sought.field,
            };
            Step::Begins {
                entry,
                next: sought.end,
            }
        }
    }
}

// One search, from `start` on. The next starts at least 64 intervals after this one, so that they come to an end.
pub fn find_entry(p: Profile, intervals: &[u16], start: usize) -> Step
    requires { (profile_rule p).number ≡ 0 }
    ensures { result ≡ step_from p intervals.now start }
{
    match search(p, intervals, start) {
        Err(_) => Step::End,
        Ok(k) => look_at(p, intervals, k),
    }
}
