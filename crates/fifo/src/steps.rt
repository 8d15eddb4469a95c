// What put and take do where the mode gives them to the side that asks.
ghost use Rattle.std.specs.Prelude.{◌≡◌};
ghost use mathlib.Core.List.{tail};
ghost use Rattle.fifo.specs.State.{held_items, state_of, outcome_of};
ghost use Rattle.fifo.specs.Faults.{bit_of};
ghost use Rattle.fifo.specs.Rules.{putting, taking, with_bit, with_items, gives, foreign};

use crate::{Fifo, FifoAnswer};
use items::{is_item, is_mark};
use refusal::Refusal;

// What sets a bit of the error register: a side's put when full or take when empty, or a mark at the data location.
#[derive(Clone, Copy, PartialEq, Eq)]
pub enum Fault {
    Chip,
    Mark,
    Processor,
}

impl From<Fault> for u16 {
    ghost from_gives = { λ fault bit. bit ≡ bit_of fault };

    fn from(fault: Fault) -> u16 {
        match fault {
            Fault::Chip => 1,
            Fault::Mark => 2,
            Fault::Processor => 4,
        }
    }
}

// The bit of no fault.
pub const NO_FAULT: u16 = 0;

pub fn given(item: u16, next: Fifo) -> FifoAnswer
    ensures { outcome_of result ≡ gives item (state_of next) }
{
    FifoAnswer {
        number: 0,
        place: 0,
        item,
        next,
    }
}

fn not_an_item(next: Fifo) -> FifoAnswer
    ensures { outcome_of result ≡ foreign (state_of next) }
{
    let why = Refusal::NotAnItem(0);
    FifoAnswer {
        number: why.number(),
        place: why.place(),
        item: 0,
        next,
    }
}

// A bit is set only while none is; a bit of 0 is no fault.
fn with_fault(fifo: Fifo, bit: u16) -> Fifo
    ensures { state_of result ≡ with_bit bit (state_of fifo) }
{
    Fifo {
        mode: fifo.mode,
        held: fifo.held,
        first: fifo.first,
        second: fifo.second,
        error: if fifo.error == 0 { bit } else { fifo.error },
    }
}

fn with_items(fifo: Fifo, held: u16, first: u16, second: u16) -> Fifo
    ensures { state_of result ≡ with_items (held_items held first second) (state_of fifo) }
{
    Fifo {
        mode: fifo.mode,
        held,
        first,
        second,
        error: fifo.error,
    }
}

// The first item leaves.
fn without_first(fifo: Fifo) -> Fifo
    ensures { state_of result ≡ with_items (tail (state_of fifo).items) (state_of fifo) }
{
    if fifo.held < 2 {
        with_items(fifo, 0, 0, 0)
    } else {
        with_items(fifo, 1, fifo.second, 0)
    }
}

// An item comes last; where there is no room, `fault` is the bit. Here and in `shift` the bit is handed over and not
// the `Fault`: with `Option<Fault>` for the mark's, `ism_fifo_take_data` in C took 1,638 bytes of code for 176 on a
// Cortex-M4, and 136 of stack for 80.
pub fn append(fifo: Fifo, item: u16, fault: u16) -> FifoAnswer
    ensures { outcome_of result ≡ putting fault item (state_of fifo) }
{
    if is_item(item) {
        if fifo.held == 0 {
            given(0, with_items(fifo, 1, item, 0))
        } else if fifo.held == 1 {
            given(0, with_items(fifo, 2, fifo.first, item))
        } else {
            given(0, with_fault(fifo, fault))
        }
    } else {
        not_an_item(fifo)
    }
}

// The first item leaves; where there is none, `fault` is the bit; where it is a mark, `mark`.
pub fn shift(fifo: Fifo, fault: u16, mark: u16) -> FifoAnswer
    ensures { outcome_of result ≡ taking fault mark (state_of fifo).items (state_of fifo) }
{
    if fifo.held == 0 {
        given(0, with_fault(fifo, fault))
    } else if is_mark(fifo.first) {
        given(fifo.first, with_fault(without_first(fifo), mark))
    } else {
        given(fifo.first, without_first(fifo))
    }
}
