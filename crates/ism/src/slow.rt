// Drives that run slow: a field at the first lock from a start, corrected.
ghost use Rattle.std.specs.Prelude.{◌≡◌, length};
ghost use Rattle.speed.specs.Reading.{corrected_reading, corrected_output};
ghost use Rattle.answers.specs.Answers.{profile_of};
ghost use Rattle.answers.specs.Slow.{corrected_answer_of};

use answers::IsmProfile;
use answers::slow::IsmCorrected;
use timing::Profile;

pub fn ism_read_corrected(
    p: IsmProfile,
    intervals: &[u16],
    start: u64,
    bytes: u64,
    out: &mut [u16],
) -> IsmCorrected
    ensures answer { result ≡ corrected_answer_of
        (corrected_reading (profile_of p) intervals.now start bytes (length out.old)) }
    ensures output { out.new ≡ corrected_output (profile_of p) intervals.now start bytes out.old }
{
    let corrected = speed::reader::read_corrected(
        Profile::from(p),
        intervals,
        start as usize,
        bytes as usize,
        out,
    );
    IsmCorrected::from(corrected)
}
