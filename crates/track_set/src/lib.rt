// The sectors of a track whose data was found, as a set: what the merge takes.
#![tactic(auto)]

ghost use Rattle.std.specs.Prelude.{◌+◌, ◌≤◌, ◌≡◌, length};
ghost use Rattle.lists.specs.Filled.{stored_at};
ghost use Rattle.timing.specs.Profile.{profile_rule};
ghost use Rattle.sets.specs.Set.{set_bytes};
ghost use Rattle.track_set.specs.TrackSectors.{track_set_answer, track_answer, track_output};
ghost use Rattle.track_set.specs.machine.Handed.{handed_sectors, Stands, size_of};

use fields::data::read_bytes;
use refusal::Refusal;
use sets::SetSize;
use timing::Profile;
use track::{IndexEntry, index_track};

fn entry_size(entry: IndexEntry) -> usize
    ensures { result ≡ size_of entry }
{
    if entry.found == 0 {
        return 0;
    }
    3 + sectors::sector_size(entry.code)
}

// Number, code, whether its sum holds, and the data: read once more, since the index has kept none of it.
fn store_entry(p: Profile, intervals: &[u16], entry: IndexEntry, at: usize, out: &mut [u8])
    requires p_value { (profile_rule p).number ≡ 0 }
    requires stands { Stands p intervals.now entry
        × (at + length (set_bytes (handed_sectors p intervals.now entry)) ≤ length out.old) }
    ensures { out.new
        ≡ stored_at out.old at (set_bytes (handed_sectors p intervals.now entry)) }
{
    if entry.found == 0 {
        return;
    }
    let place = entry.data_place as usize;
    let code = entry.code;
    let size = sectors::sector_size(code);
    let data = at + 3;
    let end = data + size;
    out[at] = entry.sector;
    out[at + 1] = code;
    out[at + 2] = entry.holds;
    read_bytes(p, &intervals[place..], size + 6, 4, &mut out[data..end]);
}

// 1, 2, 15, 9; else the size of the set. On acceptance it fills the front of the output, in the index's order.
pub fn read_track(p: Profile, intervals: &[u16], out: &mut [u8]) -> Result<SetSize, Refusal>
    ensures answer { track_set_answer result ≡ track_answer p intervals.now (length out.old) }
    ensures output { out.new ≡ track_output p intervals.now out.old }
{
    timing::check(p)?;
    let index = index_track(p, intervals);
    // under a true profile nothing else refuses an index
    if index.number != 0 {
        return Err(Refusal::TooManySectors);
    }
    let mut count: usize = 0;
    let mut bytes: usize = 0;
    for entry in &index.entries[..] {
        count += entry.found as usize;
        bytes += entry_size(*entry);
    }
    if out.len() < bytes {
        return Err(Refusal::OutputTooShort);
    }
    let mut at: usize = 0;
    for entry in &index.entries[..] {
        store_entry(p, intervals, *entry, at, out);
        at += entry_size(*entry);
    }
    Ok(SetSize { count, bytes })
}
