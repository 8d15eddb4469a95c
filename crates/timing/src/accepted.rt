// A profile that may be used, known by its type.
ghost use Rattle.std.specs.Prelude.{◌≡◌, IfOk};
ghost use Rattle.refusal.specs.Answer.{verdict_answer};
ghost use Rattle.timing.specs.Profile.{profile_rule};

use crate::{Profile, check};
use refusal::Refusal;

// Its numbers are in range and its windows true.
#[derive(Clone, Copy)]
pub struct TrueProfile {
    pub profile: Profile,
    ghost accepted: { (profile_rule profile).number ≡ 0 },
}

// 1, then 2, as `check`.
impl TryFrom<Profile> for TrueProfile {
    type Error = Refusal;

    ghost try_from_gives = { λ p result. (verdict_answer result ≡ profile_rule p)
        × IfOk result (λ accepted. accepted.profile ≡ p) };

    fn try_from(p: Profile) -> Result<TrueProfile, Refusal> {
        check(p)?;
        Ok(TrueProfile { profile: p })
    }
}
