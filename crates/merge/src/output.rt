// The bytes of one number of the merged set: how many there are, and how they are stored. Each store answers the place
// after it.
ghost use Rattle.std.specs.Prelude.{◌+◌, ◌≤◌, ◌≡◌, false, length, get_or};
ghost use Rattle.lists.specs.Filled.{stored_at};
ghost use Rattle.sectors.specs.Sector.{sector_size};
ghost use Rattle.sets.specs.Set.{sector_bytes, set_bytes};
ghost use Rattle.sets.specs.machine.Index.{sector_at, end_of, shown, Within};
ghost use Rattle.merge.specs.Merge.{taken, as_list, at_odds};

use crate::choice::takes_second;

fn entry_size(set: &[u8], entry: u16) -> usize
    requires { Within set.now entry × (entry ≡ 65535 → ⊥) }
    ensures { result ≡ length (set_bytes (as_list (shown set.now entry))) }
{
    if entry == 0 {
        return 0;
    }
    let code = entry as usize;
    3 + sectors::sector_size(set[code])
}

// The bytes that the copy taken has; none where neither set has the number.
pub fn taken_size(first: &[u8], a: u16, second: &[u8], b: u16) -> usize
    requires { Within first.now a
        × Within second.now b
        × (at_odds (shown first.now a) (shown second.now b) ≡ false) }
    ensures { result ≡ length (set_bytes (as_list (taken (shown first.now a) (shown second.now b)))) }
{
    if takes_second(first, a, second, b) {
        return entry_size(second, b);
    }
    entry_size(first, a)
}

// A sector's data from a place on. Not `lists::store`: the compiler knows that a sector is whole blocks of 16 bytes, and
// not that as many as have room are, which costs 27 instructions a sector.
fn copy(bytes: &[u8], at: usize, out: &mut [u8])
    requires { at + length bytes.now ≤ length out.old }
    ensures { out.new ≡ stored_at out.old at bytes.now }
{
    for (k, byte) in bytes.iter().enumerate() {
        out[at + k] = *byte;
    }
}

// The sector whose length code stands at a place.
fn put_sector(set: &[u8], code: usize, out: &mut [u8], start: usize) -> usize
    requires { (1 ≤ code)
        × (end_of set.now code ≤ length set.now)
        × (start + 3 + sector_size (get_or set.now code 0) ≤ length out.old) }
    ensures next { result ≡ start + length (sector_bytes (sector_at set.now code)) }
    ensures output { out.new ≡ stored_at out.old start (sector_bytes (sector_at set.now code)) }
{
    let size = sectors::sector_size(set[code]);
    out[start] = set[code - 1];
    out[start + 1] = set[code];
    out[start + 2] = u8::from(set[code + 1] != 0);
    let data = code + 2;
    let end = data + size;
    copy(&set[data..end], start + 3, out);
    start + 3 + size
}

fn put_entry(set: &[u8], entry: u16, out: &mut [u8], start: usize) -> usize
    requires { Within set.now entry
        × (entry ≡ 65535 → ⊥)
        × (start + length (set_bytes (as_list (shown set.now entry))) ≤ length out.old) }
    ensures next { result ≡ start + length (set_bytes (as_list (shown set.now entry))) }
    ensures output { out.new ≡ stored_at out.old start (set_bytes (as_list (shown set.now entry))) }
{
    if entry == 0 {
        return start;
    }
    put_sector(set, entry as usize, out, start)
}

// The copy taken, if one of the sets has the number.
pub fn put_taken(first: &[u8], a: u16, second: &[u8], b: u16, out: &mut [u8], start: usize) -> usize
    requires { Within first.now a
        × Within second.now b
        × (at_odds (shown first.now a) (shown second.now b) ≡ false)
        × (start + length (set_bytes (as_list (taken (shown first.now a) (shown second.now b))))
        ≤ length out.old) }
    ensures next { result
        ≡ start
        + length (set_bytes (as_list (taken (shown first.now a) (shown second.now b)))) }
    ensures output { out.new
        ≡ stored_at out.old start
        (set_bytes (as_list (taken (shown first.now a) (shown second.now b)))) }
{
    if takes_second(first, a, second, b) {
        return put_entry(second, b, out, start);
    }
    put_entry(first, a, out, start)
}
