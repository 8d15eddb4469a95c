// Finder, field reader and sector maker.
ghost use Rattle.std.specs.Prelude.{◌≡◌, length};
ghost use Rattle.locks.specs.Lock.{find_rule};
ghost use Rattle.fields.specs.FieldRule.{field_output};
ghost use Rattle.sectors.specs.Sector.{sector_rule, sector_output};
ghost use Rattle.clearance.specs.Answers.{field_with_clearance};
ghost use Rattle.answers.specs.Answers.{profile_of, answer_of, clear_field_answer_of};

use answers::{IsmAnswer, IsmProfile};
use timing::Profile;

pub fn ism_find(p: IsmProfile, intervals: &[u16], start: u64) -> IsmAnswer
    ensures { result ≡ answer_of (find_rule (profile_of p) intervals.now start) }
{
    IsmAnswer::from(locks::finder::find_lock(Profile::from(p), intervals, start as usize))
}

pub fn ism_read_field(p: IsmProfile, intervals: &[u16], bytes: u64, out: &mut [u16]) -> IsmAnswer
    ensures answer { result ≡ clear_field_answer_of
        (field_with_clearance (profile_of p) intervals.now bytes (length out.old)) }
    ensures output { out.new ≡ field_output (profile_of p) intervals.now bytes out.old }
{
    let field = clearance::read_field(Profile::from(p), intervals, bytes as usize, out);
    IsmAnswer::from(field)
}

pub fn ism_make_sector(
    track: u8,
    side: u8,
    sector: u8,
    code: u8,
    bytes: &[u8],
    out: &mut [u16],
) -> IsmAnswer
    ensures answer { result ≡ answer_of (sector_rule track side sector code bytes.now (length out.old)) }
    ensures output { out.new ≡ sector_output track side sector code bytes.now out.old }
{
    let counted = sectors::make_sector(track, side, sector, code, bytes, out);
    IsmAnswer::from(counted)
}
