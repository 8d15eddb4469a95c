// A page's bytes as they are, where all have room.
ghost use Rattle.std.specs.Prelude.{◌+◌, ◌≤◌, ◌≡◌, length};
ghost use Rattle.lists.specs.Filled.{stored_at};

// Bytes from a place on. Not `lists::store`: that all have room the compiler knows here, and copies a page in half the
// instructions, 143 for 288 a page made.
pub fn copy(bytes: &[u8], at: usize, out: &mut [u8])
    requires { at + length bytes.now ≤ length out.old }
    ensures { out.new ≡ stored_at out.old at bytes.now }
{
    for (k, byte) in bytes.iter().enumerate() {
        out[at + k] = *byte;
    }
}
