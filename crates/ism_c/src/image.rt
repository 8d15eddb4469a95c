// Bit images.
ghost use Rattle.std.specs.Prelude.{◌≡◌, length};
ghost use Rattle.images.specs.Rules.{make_rule, make_output, read_image_rule, read_image_output};
ghost use Rattle.answers.specs.Answers.{answer_of};

use answers::IsmAnswer;

#[unsafe(no_mangle)]
pub extern "C" fn ism_make_image(items: &[u16], out: &mut [u16]) -> IsmAnswer
    ensures answer { result ≡ answer_of (make_rule items.now (length out.old)) }
    ensures output { out.new ≡ make_output items.now out.old }
{
    ism::image::ism_make_image(items, out)
}

#[unsafe(no_mangle)]
pub extern "C" fn ism_read_image(words: &[u16], out: &mut [u16]) -> IsmAnswer
    ensures answer { result ≡ answer_of (read_image_rule words.now (length out.old)) }
    ensures output { out.new ≡ read_image_output words.now out.old }
{
    ism::image::ism_read_image(words, out)
}
