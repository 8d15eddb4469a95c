// The numbers of two sets.
ghost use Rattle.std.specs.Prelude.{◌≡◌, not, ◌||◌, eqb};
ghost use Rattle.sets.specs.Held.{how_many, numbers};
ghost use Rattle.sets.specs.machine.Span.{Spans};
ghost use Rattle.merge.specs.machine.Tests.{entry_in_either};

use sets::span::Span;

fn in_either(a: u16, b: u16) -> bool
    ensures { result ≡ (not (eqb a 0) || not (eqb b 0)) }
{
    if a != 0 {
        return true;
    }
    b != 0
}

// How many different numbers two sets have.
pub fn count_numbers(a: &[u16; 256], b: &[u16; 256], span: Span) -> usize
    requires { Spans span a.now × Spans span b.now }
    ensures { result ≡ how_many (entry_in_either a.now b.now) numbers }
{
    let mut count: usize = 0;
    for n in span.low..span.high {
        if in_either(a[n], b[n]) {
            count += 1;
        }
    }
    count
}
