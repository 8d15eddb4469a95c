// Document 01, "FIFO and error register": two items between the processor and the chip, as a value. Each operation
// takes the FIFO and hands back the next one beside what it gives.
#![tactic(auto)]

ghost use Rattle.std.specs.Prelude.{◌≡◌};
ghost use Rattle.fifo.specs.State.{fresh_fifo, mode_of, state_of, outcome_of};
ghost use Rattle.fifo.specs.Rules.{Put, TakeData, TakeMark, ChipPut, ChipTake, ReadError, rule_of};

mod steps;

use steps::{Fault, NO_FAULT};

// Every value is a state, and the promises speak of states: what `first` or `second` holds while no item stands there
// has no effect, before or after an operation. No `PartialEq` for that reason: values of one state may differ.
#[repr(C)]
#[derive(Clone, Copy)]
pub struct Fifo {
    // 0 is write mode, any other number read mode
    pub mode: u16,
    // how many items are held: 0, 1, or two for any other number
    pub held: u16,
    // the items, in the order in which they came
    pub first: u16,
    pub second: u16,
    // the error register
    pub error: u16,
}

// What an operation gives: number and place of the refusal (0 and 0 where there is none), the item or the register,
// and the FIFO to go on with.
#[repr(C)]
#[derive(Clone, Copy)]
pub struct FifoAnswer {
    pub number: u32,
    pub place: u32,
    pub item: u16,
    pub next: Fifo,
}

impl Fifo {
    // Empty, with register 0, in the mode that `mode` says.
    pub fn new(mode: u16) -> Fifo
        ensures state { state_of result ≡ fresh_fifo (mode_of mode) }
    {
        Fifo {
            mode,
            held: 0,
            first: 0,
            second: 0,
            error: 0,
        }
    }

    // The processor puts an item.
    pub fn put(self, item: u16) -> FifoAnswer
        ensures outcome { outcome_of result ≡ rule_of (Put item) (state_of self) }
    {
        if self.mode == 0 {
            steps::append(self, item, u16::from(Fault::Processor))
        } else {
            steps::given(0, self)
        }
    }

    // The processor takes an item at the data location, where a mark is a fault.
    pub fn take_data(self) -> FifoAnswer
        ensures outcome { outcome_of result ≡ rule_of TakeData (state_of self) }
    {
        if self.mode == 0 {
            steps::given(0, self)
        } else {
            steps::shift(self, u16::from(Fault::Processor), u16::from(Fault::Mark))
        }
    }

    // The processor takes an item at the mark location.
    pub fn take_mark(self) -> FifoAnswer
        ensures outcome { outcome_of result ≡ rule_of TakeMark (state_of self) }
    {
        if self.mode == 0 {
            steps::given(0, self)
        } else {
            steps::shift(self, u16::from(Fault::Processor), NO_FAULT)
        }
    }

    // The chip puts an item.
    pub fn chip_put(self, item: u16) -> FifoAnswer
        ensures outcome { outcome_of result ≡ rule_of (ChipPut item) (state_of self) }
    {
        if self.mode == 0 {
            steps::given(0, self)
        } else {
            steps::append(self, item, u16::from(Fault::Chip))
        }
    }

    // The chip takes an item.
    pub fn chip_take(self) -> FifoAnswer
        ensures outcome { outcome_of result ≡ rule_of ChipTake (state_of self) }
    {
        if self.mode == 0 {
            steps::shift(self, u16::from(Fault::Chip), NO_FAULT)
        } else {
            steps::given(0, self)
        }
    }

    // The processor reads the error register, in either mode.
    pub fn read_error(self) -> FifoAnswer
        ensures outcome { outcome_of result ≡ rule_of ReadError (state_of self) }
    {
        steps::given(
            self.error,
            Fifo {
                mode: self.mode,
                held: self.held,
                first: self.first,
                second: self.second,
                error: 0,
            },
        )
    }
}
