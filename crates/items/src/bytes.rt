// A list's bytes, stored run by run between its check orders.
ghost use Rattle.std.specs.Prelude.{◌+◌, ◌<◌, ◌^◌, ◌≡◌, ◌++◌, length};
ghost use Rattle.lists.specs.Filled.{stored_at};
ghost use Rattle.items.specs.Item.{written_bytes};
ghost use Rattle.items.specs.Written.{after_bytes, check_bytes, after_check, written_from};

use crate::{Check, find_check};
use lists::store;

// The register after a list's bytes, and how many there are.
#[derive(Clone, Copy, PartialEq, Eq)]
pub struct Stored {
    pub check: Check,
    pub count: usize,
}

// A run of bytes, and the two of the check order behind it.
fn write_run(start: Check, run: &[u16], at: usize, out: &mut [u16]) -> Check
    requires { at + length run.now < 2 ^ 64 }
    ensures check { result ≡ after_check (after_bytes start run.now) }
    ensures output { out.new
        ≡ stored_at out.old at
        (run.now ++ check_bytes (after_bytes start run.now)) }
{
    let check = start.after_bytes(run);
    let high = check.high();
    let low = check.low();
    let bytes = [high, low];
    store(run, at, out);
    store(&bytes, at + run.len(), out);
    check.after_check()
}

// Stores a list's bytes, from a state of the register on, from the front of `out` on, as far as it reaches.
pub fn write_bytes(start: Check, items: &[u16], out: &mut [u16]) -> Stored
    ensures check { result.check ≡ after_bytes start (written_from start items.now) }
    ensures count { result.count ≡ written_bytes items.now }
    ensures output { out.new ≡ stored_at out.old 0 (written_from start items.now) }
{
    let mut check = start;
    let mut at: usize = 0;
    let mut from: usize = 0;
    let mut run = find_check(items);
    // no `for`: how far a turn goes comes out of the items
    while run < items.len() - from {
        let end = from + run;
        check = write_run(check, &items[from..end], at, out);
        at += run + 2;
        from = end + 1;
        run = find_check(&items[from..]);
    }
    let last = &items[from..];
    store(last, at, out);
    Stored {
        check: check.after_bytes(last),
        count: at + last.len(),
    }
}
