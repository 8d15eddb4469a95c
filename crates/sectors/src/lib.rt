// Document 01, "Sector maker": the items of one sector, ID field and data field.
#![tactic(auto)]

ghost use Rattle.std.specs.Prelude.{◌+◌, ◌≤◌, ◌≡◌, [], ◌∷◌, ◌++◌, length, replicate};
ghost use Rattle.lists.specs.Filled.{stored_at};
ghost use Rattle.refusal.specs.Answer.{counted_answer};
ghost use Rattle.sectors.specs.Sector.{sector_size, opening, identity, sector_items, sector_rule, sector_output};

use items::MARK_A1;
use refusal::Refusal;

// The bytes of data in a sector of a length code, 0 to 3.
pub fn sector_size(code: u8) -> usize
    ensures { result ≡ sector_size code }
{
    match code {
        0 => 128,
        1 => 256,
        2 => 512,
        _ => 1024,
    }
}

// Each of these stores at a place of the output and answers the place after it.

fn repeat(out: &mut [u16], at: usize, count: usize, item: u16) -> usize
    requires { at + count ≤ length out.old }
    ensures next { result ≡ at + count }
    ensures output { out.new ≡ stored_at out.old at (replicate count item) }
{
    let end = at + count;
    out[at..end].fill(item);
    end
}

// 12 of 00, three marks A1, and the byte that tells an ID field from a data field.
fn open_field(out: &mut [u16], at: usize, kind: u16) -> usize
    requires { at + 16 ≤ length out.old }
    ensures next { result ≡ at + 16 }
    ensures output { out.new ≡ stored_at out.old at (opening kind) }
{
    let marks = repeat(out, at, 12, 0x00);
    let end = repeat(out, marks, 3, MARK_A1);
    out[end] = kind;
    end + 1
}

fn put_identity(out: &mut [u16], at: usize, track: u8, side: u8, sector: u8, code: u8) -> usize
    requires { at + 5 ≤ length out.old }
    ensures next { result ≡ at + 5 }
    ensures output { out.new ≡ stored_at out.old at (identity track side sector code) }
{
    out[at] = track as u16;
    out[at + 1] = side as u16;
    out[at + 2] = sector as u16;
    out[at + 3] = code as u16;
    out[at + 4] = 512;
    at + 5
}

fn put_data(out: &mut [u16], at: usize, bytes: &[u8]) -> usize
    requires { at + length bytes.now + 1 ≤ length out.old }
    ensures next { result ≡ at + length bytes.now + 1 }
    ensures output { out.new ≡ stored_at out.old at (bytes.now ++ (512 ∷ [])) }
{
    for (k, byte) in bytes.iter().enumerate() {
        out[at + k] = *byte as u16;
    }
    let end = at + bytes.len();
    out[end] = 512;
    end + 1
}

// The whole sector at the front of the output.
fn put_sector(out: &mut [u16], track: u8, side: u8, sector: u8, code: u8, bytes: &[u8])
    requires { length bytes.now + 114 ≤ length out.old }
    ensures { out.new ≡ stored_at out.old 0 (sector_items track side sector code bytes.now) }
{
    let id = open_field(out, 0, 0xfe);
    let gap = put_identity(out, id, track, side, sector, code);
    let second = repeat(out, gap, 22, 0x4e);
    let first = open_field(out, second, 0xfb);
    let end = put_data(out, first, bytes);
    repeat(out, end, 54, 0x4e);
}

// 13, for length code 0 too, then 9; on acceptance the items fill the front of the output and their number is answered.
pub fn make_sector(
    track: u8,
    side: u8,
    sector: u8,
    code: u8,
    bytes: &[u8],
    out: &mut [u16],
) -> Result<usize, Refusal>
    ensures answer { counted_answer result ≡ sector_rule track side sector code bytes.now (length out.old) }
    ensures output { out.new ≡ sector_output track side sector code bytes.now out.old }
{
    if code < 1 {
        return Err(Refusal::SectorSizeMismatch);
    }
    if 3 < code {
        return Err(Refusal::SectorSizeMismatch);
    }
    if bytes.len() != sector_size(code) {
        return Err(Refusal::SectorSizeMismatch);
    }
    let count = bytes.len() + 114;
    if out.len() < count {
        return Err(Refusal::OutputTooShort);
    }
    put_sector(out, track, side, sector, code, bytes);
    Ok(count)
}
