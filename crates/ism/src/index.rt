// The index of a track, and its sectors as a set.
ghost use Rattle.std.specs.Prelude.{◌≡◌, length};
ghost use Rattle.track.specs.Index.{index_rule, index_entries};
ghost use Rattle.track.specs.HandedBack.{index_answer_of};
ghost use Rattle.track_set.specs.TrackSectors.{track_answer, track_output};
ghost use Rattle.answers.specs.Answers.{profile_of, given_merge};

use answers::{IsmAnswer, IsmProfile};
use timing::Profile;
use track::TrackIndex;

pub fn ism_index_track(p: IsmProfile, intervals: &[u16]) -> TrackIndex
    ensures { result ≡ index_answer_of (index_rule (profile_of p) intervals.now)
        (index_entries (profile_of p) intervals.now) }
{
    track::index_track(Profile::from(p), intervals)
}

// The set of a track's sectors, for the merge.
pub fn ism_read_track(p: IsmProfile, intervals: &[u16], set: &mut [u8]) -> IsmAnswer
    ensures answer { result ≡ given_merge (track_answer (profile_of p) intervals.now (length set.old)) }
    ensures output { set.new ≡ track_output (profile_of p) intervals.now set.old }
{
    let read = track_set::read_track(Profile::from(p), intervals, set);
    IsmAnswer::from(read)
}
