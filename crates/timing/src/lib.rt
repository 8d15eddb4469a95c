// Document 01, "Profile", with document 02, (ix): the eleven numbers, when they are true, and the class of an interval.
#![tactic(auto)]

mod accepted;
mod rule;

ghost use Rattle.std.specs.Prelude.{◌≡◌, ◌*◌, ◌<◌};
ghost use Rattle.refusal.specs.Answer.{counted_answer};
ghost use Rattle.timing.specs.Numbers.{from_numbers, numbers_of};
ghost use Rattle.timing.specs.Class.{class_number, class_rule};

pub use accepted::TrueProfile;
pub use rule::{advance, check, delay, swing};

mod cursor;

pub use cursor::{Classed, Cursor};
use refusal::Refusal;

// A compare point, in whole clocks.
#[derive(Clone, Copy, PartialEq, Eq)]
pub struct Clocks(pub u16);

// A length, in half clocks.
#[derive(Clone, Copy, PartialEq, Eq)]
pub struct HalfClocks(pub u16);

impl Clocks {
    // The only way from clocks to half clocks, so that a compare point is never added to a length as it is. No `From`,
    // which could not ask that the product fits.
    pub fn in_half_clocks(self) -> HalfClocks
        requires { self.0 < 32768 }
        ensures { result.0 ≡ 2 * self.0 }
    {
        HalfClocks(2 * self.0)
    }
}

// How many numbers a profile has.
pub const PROFILE_NUMBERS: usize = 11;

// The least and the greatest that a number may be.
#[derive(Clone, Copy, PartialEq, Eq)]
pub struct Range {
    pub low: u16,
    pub high: u16,
}

// The bounds between the windows of classes 2, 3 and 4, after one kind of interval.
#[derive(Clone, Copy, PartialEq, Eq)]
pub struct Bounds {
    pub b23: HalfClocks,
    pub b34: HalfClocks,
}

// A drive's timing. Any 16-bit number can stand in each place; `check` says whether it may be used.
#[derive(Clone, Copy, PartialEq, Eq)]
pub struct Profile {
    pub t1: HalfClocks,
    pub t0: HalfClocks,
    pub early: Clocks,
    pub normal: Clocks,
    pub late: Clocks,
    pub min: HalfClocks,
    // after an interval of class 2
    pub short: Bounds,
    // after any other
    pub long: Bounds,
    pub rpt: HalfClocks,
}

// The profile of eleven numbers in document 02's order.
impl From<&[u16; PROFILE_NUMBERS]> for Profile {
    ghost from_gives = { λ numbers p. p ≡ from_numbers numbers.now };

    fn from(numbers: &[u16; PROFILE_NUMBERS]) -> Profile {
        Profile {
            t1: HalfClocks(numbers[0]),
            t0: HalfClocks(numbers[1]),
            early: Clocks(numbers[2]),
            normal: Clocks(numbers[3]),
            late: Clocks(numbers[4]),
            min: HalfClocks(numbers[5]),
            short: Bounds {
                b23: HalfClocks(numbers[6]),
                b34: HalfClocks(numbers[8]),
            },
            long: Bounds {
                b23: HalfClocks(numbers[7]),
                b34: HalfClocks(numbers[9]),
            },
            rpt: HalfClocks(numbers[10]),
        }
    }
}

// A profile's numbers, in the same order.
impl From<Profile> for [u16; PROFILE_NUMBERS] {
    ghost from_gives = { λ p numbers. numbers ≡ numbers_of p };

    fn from(p: Profile) -> [u16; PROFILE_NUMBERS] {
        [
            p.t1.0,
            p.t0.0,
            p.early.0,
            p.normal.0,
            p.late.0,
            p.min.0,
            p.short.b23.0,
            p.long.b23.0,
            p.short.b34.0,
            p.long.b34.0,
            p.rpt.0,
        ]
    }
}

impl Profile {
    // The conversions by name.
    pub fn from_numbers(numbers: &[u16; PROFILE_NUMBERS]) -> Profile
        ensures { result ≡ from_numbers numbers.now }
    {
        Profile::from(numbers)
    }

    pub fn numbers(self) -> [u16; PROFILE_NUMBERS]
        ensures { result ≡ numbers_of self }
    {
        self.into()
    }
}

// The class of an interval: narrow, 2, 3, 4 or wide.
#[derive(Clone, Copy, PartialEq, Eq)]
pub enum Class {
    Narrow,
    Two,
    Three,
    Four,
    Wide,
}

impl Class {
    // 2, 3 and 4 as the paper has them; 1 for narrow and 5 for wide.
    pub fn number(self) -> usize
        ensures { result ≡ class_number self }
    {
        match self {
            Class::Narrow => 1,
            Class::Two => 2,
            Class::Three => 3,
            Class::Four => 4,
            Class::Wide => 5,
        }
    }
}

// The class operation, told whether the interval before was of class 2: the class's number, after 1 and 2.
#[tactic(auto, using(refusal::proofs::AnswerLaws::refusal_decides), unfolding(crate::specs::Class::class_rule, crate::specs::Class::class_of))]
pub fn class_number(p: Profile, interval: u16, two: bool) -> Result<usize, Refusal>
    ensures { counted_answer result ≡ class_rule p two interval }
{
    check(p)?;
    let class = Cursor::after(p, two).step(interval).class;
    Ok(class.number())
}
