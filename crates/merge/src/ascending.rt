// The merged set, over its numbers in ascending order: its bytes counted, and stored.
ghost use Rattle.std.specs.Prelude.{◌≤◌, ◌≡◌, false, length};
ghost use Rattle.lists.specs.Place.{anywhere};
ghost use Rattle.lists.specs.Filled.{stored_at};
ghost use Rattle.sets.specs.Set.{set_bytes, sectors_in};
ghost use Rattle.sets.specs.Held.{numbers};
ghost use Rattle.sets.specs.machine.Span.{Indexes};
ghost use Rattle.merge.specs.Merge.{merged, at_odds_at};

use crate::output::{put_taken, taken_size};
use sets::span::Span;

pub fn merged_size(first: &[u8], a: &[u16; 256], second: &[u8], b: &[u16; 256], span: Span) -> usize
    requires { Indexes first.now a.now second.now b.now span
        × (anywhere (at_odds_at (sectors_in first.now) (sectors_in second.now)) numbers ≡ false) }
    ensures { result ≡ length (set_bytes (merged (sectors_in first.now) (sectors_in second.now))) }
{
    let mut size: usize = 0;
    for n in span.low..span.high {
        size += taken_size(first, a[n], second, b[n]);
    }
    size
}

pub fn write_merged(
    first: &[u8],
    a: &[u16; 256],
    second: &[u8],
    b: &[u16; 256],
    span: Span,
    out: &mut [u8],
)
    requires { Indexes first.now a.now second.now b.now span
        × (anywhere (at_odds_at (sectors_in first.now) (sectors_in second.now)) numbers ≡ false)
        × (length (set_bytes (merged (sectors_in first.now) (sectors_in second.now))) ≤ length out.old) }
    ensures { out.new
        ≡ stored_at out.old 0
        (set_bytes (merged (sectors_in first.now) (sectors_in second.now))) }
{
    let mut start: usize = 0;
    for n in span.low..span.high {
        start = put_taken(first, a[n], second, b[n], out, start);
    }
}
