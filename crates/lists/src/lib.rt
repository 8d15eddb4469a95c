// What all crates share on lists: definitions with their laws, and the stores into a caller's output.
#![tactic(auto)]

ghost use Rattle.std.specs.Prelude.{◌+◌, ◌≤◌, ◌≡◌, length, set};
ghost use Rattle.lists.specs.Filled.{stored_at};

// Past the end nothing is stored.
pub fn put(out: &mut [u16], at: usize, number: u16)
    ensures { out.new ≡ set out.old at number }
{
    if at < out.len() {
        out[at] = number;
    }
}

// Values from a place on, as many as there is room for.
pub fn store<T: Copy>(values: &[T], at: usize, out: &mut [T])
    ensures { out.new ≡ stored_at out.old at values.now }
{
    if out.len() <= at {
        return;
    }
    let count = values.len().min(out.len() - at);
    for (k, value) in values[..count].iter().enumerate() {
        out[at + k] = *value;
    }
}
