// What holds the margin down, for the card of a drive type.
ghost use Rattle.std.specs.Prelude.{◌≡◌};
ghost use Rattle.limits.specs.Limits.{limits_of, limits_rule};
ghost use Rattle.answers.specs.Answers.{profile_of};
ghost use Rattle.answers.specs.Cards.{limits_answer_of};

use answers::IsmProfile;
use answers::card::IsmLimits;
use timing::Profile;

// 1, 2; else the sides that hold the margin down.
pub fn ism_margin_limits(p: IsmProfile) -> IsmLimits
    ensures { result ≡ limits_answer_of (limits_rule (profile_of p)) (limits_of (profile_of p)) }
{
    IsmLimits::from(limits::margin_limits(Profile::from(p)))
}
