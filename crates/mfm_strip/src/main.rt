// The strip program: it reads a profile and items from standard input, and writes the cells of their stream to
// standard output.
#![tactic(auto)]

ghost use Rattle.std.specs.Prelude.{◌≤◌, IfOk, length};

use std::io;
use std::io::{Read, Write};
use strip::{INPUT_BYTES, OUTPUT_BYTES};

// Reads until the room is full or the input ends, and says how many bytes it read.
fn read_full<R: Read>(input: &mut R, room: &mut [u8]) -> io::Result<usize>
    ensures { IfOk result (λ n. n ≤ length room.new) }
{
    let mut filled = 0;
    for _ in 0..u64::MAX {
        if filled >= room.len() {
            break;
        }
        match input.read(&mut room[filled..]) {
            Ok(0) => break,
            Ok(n) => filled += n,
            Err(e) => {
                if e.kind() != io::ErrorKind::Interrupted {
                    return Err(e);
                }
            }
        }
    }
    Ok(filled)
}

fn main(rt: HostRuntime) -> io::Result<()> {
    // one byte more than is accepted, so that an input that is too long is seen to be
    let mut input = [0u8; INPUT_BYTES + 1];
    let read = read_full(&mut rt.stdin(), &mut input)?;
    let mut output = [0u8; OUTPUT_BYTES];
    let written = strip::run(&input[..read], &mut output);
    rt.stdout().write_all(&output[..written])
}
