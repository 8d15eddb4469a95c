// The numbers that a loop over an index goes through: from the lowest that is there up to the highest. Most sets have
// few numbers that stand close together.
ghost use Rattle.std.specs.Prelude.{◌≡◌};
ghost use Rattle.sets.specs.machine.Span.{joined_span};

// From `low` on, below `high`.
#[derive(Clone, Copy, PartialEq, Eq)]
pub struct Span {
    pub low: usize,
    pub high: usize,
}

// The span of the numbers of either.
pub fn join(a: Span, b: Span) -> Span
    ensures { result ≡ joined_span a b }
{
    Span {
        low: a.low.min(b.low),
        high: a.high.max(b.high),
    }
}
