// Document 01, "Items and the check register".
#![tactic(auto)]

mod bytes;
mod lanes;
mod list;
mod marks;

ghost use Rattle.std.specs.Prelude.{◌≤◌, ◌<◌, ◌≡◌, length, drop};
ghost use Rattle.items.specs.Item.{is_mark, is_check, is_item};
ghost use Rattle.register.specs.Register.{high_byte, low_byte};
ghost use Rattle.items.specs.Written.{fresh_check, before_mark, after_byte, after_bytes, after_check};

pub use bytes::{Stored, write_bytes};
use lanes::after_eights;
pub use list::{check_list, find_check, find_foreign, written_bytes};
use marks::after_part;

// The mark bytes A1 and C2.
pub const MARK_A1: u16 = 0x1a1;

pub const MARK_C2: u16 = 0x1c2;

pub fn is_mark(n: u16) -> bool
    ensures { result ≡ is_mark n }
{
    n == MARK_A1 || n == MARK_C2
}

pub fn is_check(n: u16) -> bool
    ensures { result ≡ is_check n }
{
    n == 512
}

pub fn is_item(n: u16) -> bool
    ensures { result ≡ is_item n }
{
    if n < 256 {
        return true;
    }
    if is_mark(n) {
        return true;
    }
    is_check(n)
}

// The check register, and whether the written byte before was a mark byte.
#[derive(Clone, Copy, PartialEq, Eq)]
pub struct Check {
    pub register: u16,
    pub marked: bool,
}

impl Check {
    pub fn fresh() -> Self
        ensures { result ≡ fresh_check }
    {
        Check {
            register: 0xffff,
            marked: false,
        }
    }

    // The register that a mark byte passes through.
    fn before_mark(self) -> u16
        ensures { result ≡ before_mark self }
    {
        if self.marked { self.register } else { 0xffff }
    }

    fn after_byte(self, byte: u16) -> Self
        ensures { result ≡ after_byte self byte }
    {
        if is_mark(byte) {
            return Check {
                register: register::feed(self.before_mark(), byte),
                marked: true,
            };
        }
        Check {
            register: register::feed(self.register, byte),
            marked: false,
        }
    }

    // A run of bytes from a place on: the number there, and then data bytes, eight and two at a time. Answers the state
    // and the place after the run.
    fn after_run(self, bytes: &[u16], from: usize) -> Stored
        requires { from < length bytes.now }
        ensures place { (from < result.count) × (result.count ≤ length bytes.now) }
        ensures state { after_bytes result.check (drop result.count bytes.now)
            ≡ after_bytes self (drop from bytes.now) }
    {
        let last = bytes.len() - 1;
        let first = self.after_byte(bytes[from]);
        let eights = after_eights(first, bytes, from + 1);
        let mut check = eights.check;
        let mut k = eights.count;
        while k < last {
            let high = bytes[k];
            let low = bytes[k + 1];
            if 255 < high | low {
                return Stored { check, count: k };
            }
            check = Check {
                register: register::feed_two(check.register, high, low),
                marked: false,
            };
            k += 2;
        }
        Stored { check, count: k }
    }

    // The state after written bytes have passed through.
    pub fn after_bytes(self, bytes: &[u16]) -> Self
        ensures { result ≡ after_bytes self bytes.now }
    {
        let mut check = self;
        let mut k: usize = 0;
        // no `for`: how far a turn goes comes out of the bytes
        while k < bytes.len() {
            let next = after_part(check, bytes, k);
            check = next.check;
            k = next.count;
        }
        check
    }

    // The two bytes that a check order writes.
    pub fn high(self) -> u16
        ensures { result ≡ high_byte self.register }
    {
        self.register / 256
    }

    pub fn low(self) -> u16
        ensures { result ≡ low_byte self.register }
    {
        self.register % 256
    }

    // The state after a check order's two bytes: whatever the register was, they leave 0.
    pub fn after_check(self) -> Self
        ensures { result ≡ after_check self }
    {
        Check {
            register: 0,
            marked: false,
        }
    }
}
