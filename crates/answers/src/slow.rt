// A field that is read by the speed of the drive.
ghost use Rattle.std.specs.Prelude.{◌≡◌};
ghost use Rattle.fields.specs.FieldRule.{field_answer};
ghost use Rattle.speed.specs.Reading.{corrected_answer};
ghost use Rattle.answers.specs.Slow.{corrected_answer_of};

use clearance::Clear;
use fields::reader::Field;
use refusal::Refusal;
use speed::reader::Corrected;

// The lock's place, what the field reader gives, and the differences of the two sums to 32 × T1.
#[repr(C)]
#[derive(Clone, Copy)]
pub struct IsmCorrected {
    pub number: u32,
    pub place: u32,
    pub lock: u64,
    pub count: u64,
    pub used: u64,
    pub holds: u32,
    pub clearance: u32,
    pub even: i32,
    pub odd: i32,
}

impl From<Result<Corrected, Refusal>> for IsmCorrected {
    ghost from_gives = { λ given crossed. crossed ≡ corrected_answer_of (corrected_answer given) };

    fn from(given: Result<Corrected, Refusal>) -> IsmCorrected {
        match given {
            Ok(
                Corrected {
                    field: Clear { read, clearance },
                    lock,
                    even,
                    odd,
                },
            ) => IsmCorrected {
                number: 0,
                place: 0,
                lock: lock as u64,
                count: read.count as u64,
                used: read.used as u64,
                holds: u32::from(read.holds),
                clearance: u32::from(clearance),
                even,
                odd,
            },
            Err(refusal) => IsmCorrected {
                number: refusal.number(),
                place: refusal.place(),
                lock: 0,
                count: 0,
                used: 0,
                holds: 0,
                clearance: 0,
                even: 0,
                odd: 0,
            },
        }
    }
}

// A field or its refusal, with what stands beside either: the clearance, the lock's place and the two differences.
pub fn corrected_answer(
    field: Clear<Result<Field, Refusal>>,
    place: usize,
    even: i32,
    odd: i32,
) -> IsmCorrected
    ensures { result
        ≡ corrected_answer_of (record {
          field = record { reading = field_answer field.read; clearance = field.clearance };
          lock = place;
          even = even;
          odd = odd;
        }) }
{
    let beside = IsmCorrected {
        number: 0,
        place: 0,
        lock: place as u64,
        count: 0,
        used: 0,
        holds: 0,
        clearance: u32::from(field.clearance),
        even,
        odd,
    };
    match field.read {
        Ok(Field { count, used, holds }) => IsmCorrected {
            count: count as u64,
            used: used as u64,
            holds: u32::from(holds),
            ..beside
        },
        Err(refusal) => IsmCorrected {
            number: refusal.number(),
            place: refusal.place(),
            ..beside
        },
    }
}
