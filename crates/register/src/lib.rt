// Bytes through the check register.
#![tactic(auto)]

ghost use Rattle.std.specs.Prelude.{◌%◌, ◌<◌, ◌≡◌};
ghost use Rattle.register.specs.Register.{fed};
ghost use Rattle.register.specs.machine.Bytes.{fed_bytes};

// The byte and the register's high byte, added, leave at the top, and each of their bits adds the polynomial's terms,
// x^12, x^5 and 1. Of what x^12 adds, four bits leave at the top in their turn.
pub fn feed(register: u16, byte: u16) -> u16
    ensures { result ≡ fed register (byte % 256) }
{
    let top = (register >> 8) ^ (byte & 0xff);
    let x = top ^ (top >> 4);
    (register << 8) ^ ((x << 12) ^ (x << 5) ^ x)
}

// Two data bytes at once: all 16 bits leave at the top, and of what they add, x^12 brings bits to the top three times
// more and x^5 once.
pub fn feed_two(register: u16, high: u16, low: u16) -> u16
    requires { (high < 256) × (low < 256) }
    ensures { result ≡ fed (fed register high) low }
{
    let top = register ^ (high << 8) ^ low;
    let y = top ^ (top >> 4);
    let x = y ^ (y >> 8) ^ (top >> 11);
    (x << 12) ^ (x << 5) ^ x
}

// Eight bytes at once, the first at the top. With z for a shift to the right by one, what leaves at the top is their
// product with the inverse of 1 + z^4 + z^11 + z^16, which below z^64 has four factors.
pub fn feed_eight(register: u16, eight: u64) -> u16
    ensures { result ≡ fed_bytes 8 register eight }
{
    let a = eight ^ ((register as u64) << 48);
    let b = a ^ (a >> 4) ^ (a >> 11) ^ (a >> 16);
    let c = b ^ (b >> 8) ^ (b >> 22) ^ (b >> 32);
    let d = c ^ (c >> 16) ^ (c >> 44);
    let x = ((d ^ (d >> 32)) % 65536) as u16;
    (x << 12) ^ (x << 5) ^ x
}
