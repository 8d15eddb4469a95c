// The C interface: profiles and answers as they cross it, numbers alone.
#![tactic(auto)]

ghost use Rattle.std.specs.Prelude.{◌≡◌};
ghost use Rattle.refusal.specs.Table.{number_of, place_of};
ghost use Rattle.refusal.specs.Answer.{refused, counted_answer};
ghost use Rattle.merge.specs.Rule.{merged_answer};
ghost use Rattle.fields.specs.FieldRule.{field_answer};
ghost use Rattle.clearance.specs.Answers.{clear_answer, clear_field_answer};
ghost use Rattle.answers.specs.Answers.{profile_of, answer_of, clear_answer_of, clear_field_answer_of, given_merge};

use clearance::Clear;
use fields::reader::Field;
use refusal::Refusal;
use sets::SetSize;
use timing::Profile;

pub mod card;
pub mod drive;
pub mod slow;
pub mod windows;

#[repr(C)]
#[derive(Clone, Copy)]
pub struct IsmProfile {
    pub t1: u16,
    pub t0: u16,
    pub early: u16,
    pub normal: u16,
    pub late: u16,
    pub min: u16,
    pub b23_short: u16,
    pub b23_long: u16,
    pub b34_short: u16,
    pub b34_long: u16,
    pub rpt: u16,
}

// Number 0 for accepted. What a function does not give is 0.
#[repr(C)]
#[derive(Clone, Copy)]
pub struct IsmAnswer {
    pub number: u32,
    pub place: u32,
    pub count: u64,
    pub used: u64,
    pub holds: u32,
    pub clearance: u32,
}

impl From<IsmProfile> for Profile {
    ghost from_gives = { λ given p. p ≡ profile_of given };

    fn from(given: IsmProfile) -> Profile {
        let numbers = [
            given.t1,
            given.t0,
            given.early,
            given.normal,
            given.late,
            given.min,
            given.b23_short,
            given.b23_long,
            given.b34_short,
            given.b34_long,
            given.rpt,
        ];
        Profile::from(&numbers)
    }
}

impl IsmAnswer {
    // A refusal, by its number and place.
    fn refused(refusal: Refusal) -> IsmAnswer
        ensures { result ≡ answer_of (refused (number_of refusal) (place_of refusal)) }
    {
        IsmAnswer {
            number: refusal.number(),
            place: refusal.place(),
            count: 0,
            used: 0,
            holds: 0,
            clearance: 0,
        }
    }
}

impl From<Result<usize, Refusal>> for IsmAnswer {
    ghost from_gives = { λ counted answer. answer ≡ answer_of (counted_answer counted) };

    fn from(counted: Result<usize, Refusal>) -> IsmAnswer {
        match counted {
            Ok(count) => IsmAnswer {
                number: 0,
                place: 0,
                count: count as u64,
                used: 0,
                holds: 0,
                clearance: 0,
            },
            Err(refusal) => IsmAnswer::refused(refusal),
        }
    }
}

// A class or a strip, with its clearance.
impl From<Result<Clear<usize>, Refusal>> for IsmAnswer {
    ghost from_gives = { λ given answer. answer ≡ clear_answer_of (clear_answer given) };

    fn from(given: Result<Clear<usize>, Refusal>) -> IsmAnswer {
        match given {
            Ok(Clear { read, clearance }) => IsmAnswer {
                number: 0,
                place: 0,
                count: read as u64,
                used: 0,
                holds: 0,
                clearance: u32::from(clearance),
            },
            Err(refusal) => IsmAnswer::refused(refusal),
        }
    }
}

// A field, with its clearance.
impl From<Result<Clear<Field>, Refusal>> for IsmAnswer {
    ghost from_gives = { λ given answer. answer ≡ clear_field_answer_of (clear_field_answer given) };

    fn from(given: Result<Clear<Field>, Refusal>) -> IsmAnswer {
        match given {
            Ok(Clear { read, clearance }) => IsmAnswer {
                number: 0,
                place: 0,
                count: read.count as u64,
                used: read.used as u64,
                holds: u32::from(read.holds),
                clearance: u32::from(clearance),
            },
            Err(refusal) => IsmAnswer::refused(refusal),
        }
    }
}

// A class or a strip, or its refusal, each with the clearance that stands beside it.
pub fn clear_answer(given: Clear<Result<usize, Refusal>>) -> IsmAnswer
    ensures { result ≡ clear_answer_of (record { answer = counted_answer given.read; clearance = given.clearance }) }
{
    let told = IsmAnswer::from(given.read);
    IsmAnswer {
        clearance: u32::from(given.clearance),
        ..told
    }
}

// A field, or its refusal, the same.
pub fn field_answer(field: Clear<Result<Field, Refusal>>) -> IsmAnswer
    ensures { result
        ≡ clear_field_answer_of (record { reading = field_answer field.read; clearance = field.clearance }) }
{
    let beside = IsmAnswer {
        number: 0,
        place: 0,
        count: 0,
        used: 0,
        holds: 0,
        clearance: u32::from(field.clearance),
    };
    match field.read {
        Ok(Field { count, used, holds }) => IsmAnswer {
            count: count as u64,
            used: used as u64,
            holds: u32::from(holds),
            ..beside
        },
        Err(refusal) => IsmAnswer {
            number: refusal.number(),
            place: refusal.place(),
            ..beside
        },
    }
}

// A set of sectors, with the bytes that it takes.
impl From<Result<SetSize, Refusal>> for IsmAnswer {
    ghost from_gives = { λ given answer. answer ≡ given_merge (merged_answer given) };

    fn from(given: Result<SetSize, Refusal>) -> IsmAnswer {
        match given {
            Ok(SetSize { count, bytes }) => IsmAnswer {
                number: 0,
                place: 0,
                count: count as u64,
                used: bytes as u64,
                holds: 0,
                clearance: 0,
            },
            Err(refusal) => IsmAnswer::refused(refusal),
        }
    }
}
