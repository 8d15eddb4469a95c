// Two passes over a bad disk.
ghost use Rattle.std.specs.Prelude.{◌≡◌, length};
ghost use Rattle.merge.specs.Rule.{merge_answer, merge_output};
ghost use Rattle.answers.specs.Answers.{given_merge};

use answers::IsmAnswer;

pub fn ism_merge(first: &[u8], second: &[u8], out: &mut [u8]) -> IsmAnswer
    ensures answer { result ≡ given_merge (merge_answer first.now second.now (length out.old)) }
    ensures output { out.new ≡ merge_output first.now second.now out.old }
{
    let merged = merge::merge_sets(first, second, out);
    IsmAnswer::from(merged)
}
