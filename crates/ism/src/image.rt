// Bit images.
ghost use Rattle.std.specs.Prelude.{◌≡◌, length};
ghost use Rattle.images.specs.Rules.{make_rule, make_output, read_image_rule, read_image_output};
ghost use Rattle.answers.specs.Answers.{answer_of};

use answers::IsmAnswer;

pub fn ism_make_image(items: &[u16], out: &mut [u16]) -> IsmAnswer
    ensures answer { result ≡ answer_of (make_rule items.now (length out.old)) }
    ensures output { out.new ≡ make_output items.now out.old }
{
    let counted = images::make_image(items, out);
    IsmAnswer::from(counted)
}

pub fn ism_read_image(words: &[u16], out: &mut [u16]) -> IsmAnswer
    ensures answer { result ≡ answer_of (read_image_rule words.now (length out.old)) }
    ensures output { out.new ≡ read_image_output words.now out.old }
{
    let counted = images::read_image(words, out);
    IsmAnswer::from(counted)
}
