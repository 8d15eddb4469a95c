// Document 01, "The strip program": its input, as a profile and a list of items.
#![tactic(auto)]

mod items;
mod profile;

ghost use Rattle.script.specs.machine.Read.{ScriptRead};

use items::store_items;
use profile::read_profile;
use refusal::Refusal;
use timing::Profile;

// The longest input that is read.
pub const INPUT_BYTES: usize = 16384;

// The input's profile, and how many items the buffer holds.
#[derive(Clone, Copy, PartialEq, Eq)]
pub struct Script {
    pub profile: Profile,
    pub count: usize,
}

// The input's profile, and its items in the buffer, as many as it has room for. A refusal stores nothing.
pub fn read(text: &[u8], buffer: &mut [u16]) -> Result<Script, Refusal>
    ensures { ScriptRead text.now buffer.old result buffer.new }
{
    if text.len() > INPUT_BYTES {
        return Err(Refusal::MalformedInput(0));
    }
    let end = text::find(text, 0, b'\n');
    if end == text.len() {
        return Err(Refusal::MalformedInput(1));
    }
    match read_profile(&text[..end]) {
        None => Err(Refusal::MalformedInput(1)),
        Some(profile) => {
            let count = store_items(text, end + 1, buffer)?;
            Ok(Script { profile, count })
        }
    }
}
