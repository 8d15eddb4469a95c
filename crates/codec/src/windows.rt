// The lengths of the cells that end at two data bits, by a window of six: the three before them, the two, and the one
// behind.
ghost use Rattle.std.specs.Prelude.{◌≡◌};
ghost use Rattle.timing.specs.Profile.{profile_rule};
ghost use Rattle.codec.specs.machine.Windows.{window_table};

use lengths::length_between;
use timing::Profile;

// At 2 × the window the first length, and behind it the last. A name tells whether the cell before is short or longer,
// the units of the cell, and whether the cell after is short or longer.
pub fn window_table(p: Profile) -> [u16; 128]
    requires { (profile_rule p).number ≡ 0 }
    ensures { result ≡ window_table p }
{
    let s2s = length_between(p, 0, 0, 0).0;
    let s2l = length_between(p, 0, 0, 1).0;
    let s3s = length_between(p, 0, 1, 0).0;
    let s3l = length_between(p, 0, 1, 1).0;
    let s4s = length_between(p, 0, 2, 0).0;
    let s4l = length_between(p, 0, 2, 1).0;
    let l2s = length_between(p, 1, 0, 0).0;
    let l2l = length_between(p, 1, 0, 1).0;
    let l3s = length_between(p, 1, 1, 0).0;
    let l3l = length_between(p, 1, 1, 1).0;
    let l4s = length_between(p, 1, 2, 0).0;
    let l4l = length_between(p, 1, 2, 1).0;
    [
        s2s, s2s, s2s, s2l, s2l, s3l, s2l, s3s, s3l, s3l, s3l, s3l, s3s, l2l, s3s, l2s, l3s, l3s,
        l3l, l3l, l4l, l4l, l4s, l4s, l2l, l2l, l2l, l2l, l2s, s2l, l2s, s2s, l3s, l2s, l3s, l2l,
        l3l, l3l, l3l, l3s, l4l, l4l, l4l, l4l, l4s, l2l, l4s, l2s, s3s, s3s, s3l, s3l, s4l, s4l,
        s4s, s4s, s2l, s2l, s2l, s2l, s2s, s2l, s2s, s2s, l2s, s2s, l2s, s2l, l2l, s3l, l2l, s3s,
        l3l, l3l, l3l, l3l, l3s, l2l, l3s, l2s, l3s, l3s, l3l, l3l, l4l, l4l, l4s, l4s, l2l, l2l,
        l2l, l2l, l2s, s2l, l2s, s2s, s3s, l2s, s3s, l2l, s3l, l3l, s3l, l3s, s4l, s4l, s4l, s4l,
        s4s, l2l, s4s, l2s, s3s, s3s, s3l, s3l, s4l, s4l, s4s, s4s, s2l, s2l, s2l, s2l, s2s, s2l,
        s2s, s2s,
    ]
}
