// The best windows of a drive.
ghost use Rattle.std.specs.Prelude.{◌≡◌};
ghost use Rattle.best.specs.Best.{best_answer, profile_given};
ghost use Rattle.answers.specs.Windows.{crossing, best_answer_of};

use crate::IsmProfile;
use best::Best;
use refusal::Refusal;
use timing::Profile;

// The profile is all 0 on a refusal.
#[repr(C)]
#[derive(Clone, Copy)]
pub struct IsmBest {
    pub number: u32,
    pub place: u32,
    pub margin: u64,
    pub profile: IsmProfile,
}

// A profile as it crosses the interface.
impl From<Profile> for IsmProfile {
    ghost from_gives = { λ p crossed. crossed ≡ crossing p };

    fn from(p: Profile) -> IsmProfile {
        IsmProfile {
            t1: p.t1.0,
            t0: p.t0.0,
            early: p.early.0,
            normal: p.normal.0,
            late: p.late.0,
            min: p.min.0,
            b23_short: p.short.b23.0,
            b23_long: p.long.b23.0,
            b34_short: p.short.b34.0,
            b34_long: p.long.b34.0,
            rpt: p.rpt.0,
        }
    }
}

// Stands where no profile is given.
const NO_PROFILE: IsmProfile = IsmProfile {
    t1: 0,
    t0: 0,
    early: 0,
    normal: 0,
    late: 0,
    min: 0,
    b23_short: 0,
    b23_long: 0,
    b34_short: 0,
    b34_long: 0,
    rpt: 0,
};

impl From<Result<Best, Refusal>> for IsmBest {
    ghost from_gives = { λ given best. best ≡ best_answer_of (best_answer given) (profile_given given) };

    fn from(given: Result<Best, Refusal>) -> IsmBest {
        match given {
            Ok(Best { margin, profile }) => IsmBest {
                number: 0,
                place: 0,
                margin: u64::from(margin),
                profile: IsmProfile::from(profile),
            },
            Err(refusal) => IsmBest {
                number: refusal.number(),
                place: refusal.place(),
                margin: 0,
                profile: NO_PROFILE,
            },
        }
    }
}
