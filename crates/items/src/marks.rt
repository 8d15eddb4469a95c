// The three marks A1 at the head of a field.
ghost use Rattle.std.specs.Prelude.{◌+◌, ◌≤◌, ◌<◌, ◌≡◌, true, length, get_or, drop};
ghost use Rattle.items.specs.Written.{after_bytes};

use crate::bytes::Stored;
use crate::{Check, MARK_A1};

fn three_marks(bytes: &[u16], k: usize) -> bool
    requires { k + 3 ≤ length bytes.now }
    ensures { result ≡ true
        → (get_or bytes.now k 0 ≡ 0x1a1) × (get_or bytes.now (k + 1) 0 ≡ 0x1a1)
        × (get_or bytes.now (k + 2) 0 ≡ 0x1a1) }
{
    if bytes[k] == MARK_A1 {
        if bytes[k + 1] == MARK_A1 {
            if bytes[k + 2] == MARK_A1 {
                return true;
            }
        }
    }
    false
}

// A run of bytes from a place on. Three marks A1 after another byte leave a register that is known.
pub fn after_part(start: Check, bytes: &[u16], from: usize) -> Stored
    requires { from < length bytes.now }
    ensures place { (from < result.count) × (result.count ≤ length bytes.now) }
    ensures state { after_bytes result.check (drop result.count bytes.now)
        ≡ after_bytes start (drop from bytes.now) }
{
    if start.marked {
        return start.after_run(bytes, from);
    }
    if bytes.len() - from < 3 {
        return start.after_run(bytes, from);
    }
    if three_marks(bytes, from) {
        return Stored {
            check: Check {
                register: 0xcdb4,
                marked: true,
            },
            count: from + 3,
        };
    }
    start.after_run(bytes, from)
}
