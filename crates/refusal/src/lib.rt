// Document 01, "Turned-away numbers": why an input is refused, with the place that the table gives to it.
#![tactic(auto)]

ghost use Rattle.std.specs.Prelude.{◌≡◌};
ghost use Rattle.refusal.specs.Table.{number_of, place_of};
ghost use Rattle.refusal.specs.Answer.{counted_answer};

#[derive(Clone, Copy, PartialEq, Eq)]
pub enum Refusal {
    // 1, unset: which of the profile's numbers, from 1
    ProfileOutOfRange(u32),
    // 2, crossed
    ProfileInconsistent,
    // 3, foreign: which item, from 0
    NotAnItem(u32),
    // 4, overlong
    TooLong,
    // 5, narrow: which interval, from 0
    IntervalTooShort(u32),
    // 6, wide: which interval, from 0
    IntervalTooLong(u32),
    // 7, ragged
    NotWholeBytes,
    // 8, stray: which interval, from 0
    MisplacedMark(u32),
    // 9, full
    OutputTooShort,
    // 10, adrift
    NoLock,
    // 11, short
    EndsEarly,
    // 12, miscount
    CountOutOfRange,
    // 13, misfit
    SectorSizeMismatch,
    // 14, garbled: which line, from 1; 0 where the input is too long
    MalformedInput(u32),
    // 15, crowded
    TooManySectors,
    // 16, unruly: which word of an image, from 0
    UnrulyWord(u32),
    // 17, at odds: which sector number
    SectorsAtOdds(u32),
    // 18, off speed: 0 for the even intervals before the lock, 1 for the odd
    OffSpeed(u32),
    // 19, lost page: which page, from 1
    PageLost(u32),
    // 20, soiled fill: which page, from 1
    FillSoiled(u32),
}

impl Refusal {
    // The number in document 01's table.
    pub fn number(self) -> u32
        ensures { result ≡ number_of self }
    {
        match self {
            Refusal::ProfileOutOfRange(_) => 1,
            Refusal::ProfileInconsistent => 2,
            Refusal::NotAnItem(_) => 3,
            Refusal::TooLong => 4,
            Refusal::IntervalTooShort(_) => 5,
            Refusal::IntervalTooLong(_) => 6,
            Refusal::NotWholeBytes => 7,
            Refusal::MisplacedMark(_) => 8,
            Refusal::OutputTooShort => 9,
            Refusal::NoLock => 10,
            Refusal::EndsEarly => 11,
            Refusal::CountOutOfRange => 12,
            Refusal::SectorSizeMismatch => 13,
            Refusal::MalformedInput(_) => 14,
            Refusal::TooManySectors => 15,
            Refusal::UnrulyWord(_) => 16,
            Refusal::SectorsAtOdds(_) => 17,
            Refusal::OffSpeed(_) => 18,
            Refusal::PageLost(_) => 19,
            Refusal::FillSoiled(_) => 20,
        }
    }

    // The place in document 01's table; 0 where the table gives none.
    pub fn place(self) -> u32
        ensures { result ≡ place_of self }
    {
        match self {
            Refusal::ProfileOutOfRange(which) => which,
            Refusal::ProfileInconsistent => 0,
            Refusal::NotAnItem(at) => at,
            Refusal::TooLong => 0,
            Refusal::IntervalTooShort(at) => at,
            Refusal::IntervalTooLong(at) => at,
            Refusal::NotWholeBytes => 0,
            Refusal::MisplacedMark(at) => at,
            Refusal::OutputTooShort => 0,
            Refusal::NoLock => 0,
            Refusal::EndsEarly => 0,
            Refusal::CountOutOfRange => 0,
            Refusal::SectorSizeMismatch => 0,
            Refusal::MalformedInput(line) => line,
            Refusal::TooManySectors => 0,
            Refusal::UnrulyWord(at) => at,
            Refusal::SectorsAtOdds(sector) => sector,
            Refusal::OffSpeed(half) => half,
            Refusal::PageLost(page) => page,
            Refusal::FillSoiled(page) => page,
        }
    }
}

// An answer as numbers: those of the refusal, or 0 and 0, and what was counted, or 0.
#[derive(Clone, Copy, PartialEq, Eq)]
pub struct Told {
    pub number: u32,
    pub place: u32,
    pub count: usize,
}

// The numbers of an answer in document 01's table.
impl From<Result<usize, Refusal>> for Told {
    ghost from_gives = { λ counted told. (told.number ≡ (counted_answer counted).number)
        × (told.place ≡ (counted_answer counted).place)
        × (told.count ≡ (counted_answer counted).count) };

    fn from(counted: Result<usize, Refusal>) -> Told {
        match counted {
            Ok(count) => Told {
                number: 0,
                place: 0,
                count,
            },
            Err(refusal) => Told {
                number: refusal.number(),
                place: refusal.place(),
                count: 0,
            },
        }
    }
}
