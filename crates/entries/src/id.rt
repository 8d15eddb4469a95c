// An ID: a ten-byte field with three A1 marks, FE, four data bytes and a sum that holds.
ghost use Rattle.std.specs.Prelude.{◌≤◌, ◌≡◌, true, length};
ghost use Rattle.timing.specs.Profile.{profile_rule};
ghost use Rattle.entries.specs.FieldKinds.{identifies};
ghost use Rattle.entries.specs.machine.Steps.{id_with, identified, id_read};

use crate::opening::{Opened, opens_with, read_opened};
use timing::Profile;

// What a field reads as, taken for an ID: its four bytes, and how many intervals it used.
#[derive(Clone, Copy, PartialEq, Eq)]
pub struct Id {
    pub track: u8,
    pub side: u8,
    pub sector: u8,
    pub code: u8,
    pub used: usize,
}

// FE and four data bytes, the last a length code.
fn is_identity(items: &[u16]) -> bool
    requires { 8 ≤ length items.now }
    ensures { result ≡ identifies items.now }
{
    opens_with(items, 0xfe)
        & (items[4] < 256)
        & (items[5] < 256)
        & (items[6] < 256)
        & (items[7] <= 3)
}

// The four bytes fit a byte each, since they are data bytes.
fn four_bytes(items: &[u16], used: usize) -> Id
    requires { (8 ≤ length items.now) × (identifies items.now ≡ true) }
    ensures { result ≡ id_with items.now used }
{
    Id {
        track: items[4] as u8,
        side: items[5] as u8,
        sector: items[6] as u8,
        code: items[7] as u8,
        used,
    }
}

fn identify(items: &[u16], used: usize) -> Option<Id>
    requires { 8 ≤ length items.now }
    ensures { result ≡ identified items.now used }
{
    if is_identity(items) {
        return Some(four_bytes(items, used));
    }
    None
}

// The intervals begin at a lock.
pub fn read_id(p: Profile, intervals: &[u16]) -> Option<Id>
    requires { (profile_rule p).number ≡ 0 }
    ensures { result ≡ id_read p intervals.now }
{
    let mut items = [0u16; 10];
    let Opened { used, holds } = read_opened(p, intervals, 10, 0xfe, &mut items)?;
    if holds {
        return identify(&items, used);
    }
    None
}
