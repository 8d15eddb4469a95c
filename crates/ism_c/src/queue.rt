// The FIFO's operations.
ghost use Rattle.std.specs.Prelude.{◌≡◌};
ghost use Rattle.fifo.specs.State.{state_of, outcome_of, fresh_fifo, mode_of};
ghost use Rattle.fifo.specs.Rules.{rule_of, Put, TakeData, TakeMark, ChipPut, ChipTake, ReadError};

use fifo::{Fifo, FifoAnswer};

#[unsafe(no_mangle)]
pub extern "C" fn ism_fifo_new(mode: u16) -> Fifo
    ensures { state_of result ≡ fresh_fifo (mode_of mode) }
{
    ism::queue::ism_fifo_new(mode)
}

#[unsafe(no_mangle)]
pub extern "C" fn ism_fifo_put(queue: Fifo, item: u16) -> FifoAnswer
    ensures { outcome_of result ≡ rule_of (Put item) (state_of queue) }
{
    ism::queue::ism_fifo_put(queue, item)
}

#[unsafe(no_mangle)]
pub extern "C" fn ism_fifo_take_data(queue: Fifo) -> FifoAnswer
    ensures { outcome_of result ≡ rule_of TakeData (state_of queue) }
{
    ism::queue::ism_fifo_take_data(queue)
}

#[unsafe(no_mangle)]
pub extern "C" fn ism_fifo_take_mark(queue: Fifo) -> FifoAnswer
    ensures { outcome_of result ≡ rule_of TakeMark (state_of queue) }
{
    ism::queue::ism_fifo_take_mark(queue)
}

#[unsafe(no_mangle)]
pub extern "C" fn ism_fifo_chip_put(queue: Fifo, item: u16) -> FifoAnswer
    ensures { outcome_of result ≡ rule_of (ChipPut item) (state_of queue) }
{
    ism::queue::ism_fifo_chip_put(queue, item)
}

#[unsafe(no_mangle)]
pub extern "C" fn ism_fifo_chip_take(queue: Fifo) -> FifoAnswer
    ensures { outcome_of result ≡ rule_of ChipTake (state_of queue) }
{
    ism::queue::ism_fifo_chip_take(queue)
}

#[unsafe(no_mangle)]
pub extern "C" fn ism_fifo_read_error(queue: Fifo) -> FifoAnswer
    ensures { outcome_of result ≡ rule_of ReadError (state_of queue) }
{
    ism::queue::ism_fifo_read_error(queue)
}
