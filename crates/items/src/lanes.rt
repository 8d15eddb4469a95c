// Numbers of a list as lanes of 16 bits, four to one of 64: one load, and one test for eight of them.
ghost use Rattle.std.specs.Prelude.{ℕ, ◌+◌, ◌≤◌, ◌<◌, ◌≡◌, length, get_or, drop};
ghost use Rattle.items.specs.Written.{after_bytes};
ghost use Rattle.items.specs.machine.Lanes.{four_at, clear_at, joined_at};

use crate::Check;
use crate::bytes::Stored;

// The bits of four lanes of which any number but a data byte has one.
const FROM_256: u64 = 0xff00ff00ff00ff00;

fn four_at(numbers: &[u16], k: usize) -> u64
    requires { k + 4 ≤ length numbers.now }
    ensures { result ≡ four_at numbers.now k }
{
    numbers[k] as u64
        | (numbers[k + 1] as u64) << 16
        | (numbers[k + 2] as u64) << 32
        | (numbers[k + 3] as u64) << 48
}

// Whether eight numbers have none of some bits, given for four lanes.
pub fn clear_at(numbers: &[u16], k: usize, bits: u64) -> bool
    requires { k + 8 ≤ length numbers.now }
    ensures { result ≡ clear_at numbers.now k bits }
{
    (four_at(numbers, k) | four_at(numbers, k + 4)) & bits == 0
}

// Four data bytes as one number, the first at the top: those side by side move together first.
fn joined_four(bytes: &[u16], k: usize) -> u64
    requires k_in_bounds { k + 4 ≤ length bytes.now }
    requires by_index { (i : ℕ) → i < 4 → get_or bytes.now (k + i) 0 < 256 }
    ensures { result ≡ joined_at 4 bytes.now k }
{
    let lanes = four_at(bytes, k);
    let pairs = lanes << 8 | lanes >> 16;
    (pairs % 65536) << 16 | (pairs >> 32) % 65536
}

// Eight data bytes as one number, the first at the top.
fn joined_eight(bytes: &[u16], k: usize) -> u64
    requires k_in_bounds { k + 8 ≤ length bytes.now }
    requires by_index { (i : ℕ) → i < 8 → get_or bytes.now (k + i) 0 < 256 }
    ensures { result ≡ joined_at 8 bytes.now k }
{
    joined_four(bytes, k) << 32 | joined_four(bytes, k + 4)
}

// Data bytes from a place on, eight at a time. Answers the state and the place after them.
pub fn after_eights(start: Check, bytes: &[u16], from: usize) -> Stored
    requires { from ≤ length bytes.now }
    ensures place { (from ≤ result.count) × (result.count ≤ length bytes.now) }
    ensures state { after_bytes result.check (drop result.count bytes.now)
        ≡ after_bytes start (drop from bytes.now) }
{
    let mut check = start;
    let mut k = from;
    while 8 <= bytes.len() - k {
        if clear_at(bytes, k, FROM_256) {
            check = Check {
                register: register::feed_eight(check.register, joined_eight(bytes, k)),
                marked: false,
            };
            k += 8;
        } else {
            return Stored { check, count: k };
        }
    }
    Stored { check, count: k }
}
