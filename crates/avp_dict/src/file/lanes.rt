//! Sixteen octets at a time.

ghost use Rattle.std.specs.Prelude.{◌≡◌, ◌≤◌, ◌+◌, ◌++◌, drop, length, map, take};
ghost use Rattle.avp_dict.specs.Words.{lower};
ghost use Rattle.avp_dict.specs.internal.Lanes.{first_marked};
ghost use Rattle.avp_dict.specs.internal.LineWords.{word_size};

use std::simd::prelude::*;

pub const LANES: usize = 16;

fn first_marked(marks: u64) -> usize
    ensures { result ≡ first_marked marks }
{
    if marks == 0 {
        LANES
    } else {
        marks.trailing_zeros() as usize
    }
}

/// How many of the first sixteen octets of a text are greater than blanks, line ends and `#`, up to the first that is
/// not: so many go on the word at its front.
#[inline(always)]
pub(crate) fn run_in_word(text: &[u8]) -> usize
    requires { LANES ≤ length text.now }
    ensures within { result ≤ LANES }
    ensures size { word_size text.now ≡ result + word_size (drop result text.now) }
{
    let octets = u8x16::from_slice(text);
    let marks = octets.simd_le(u8x16::splat(b'#')).to_bitmask();
    first_marked(marks)
}

/// Puts the first sixteen octets of a text into lower case.
#[inline(always)]
pub(crate) fn fold_sixteen(text: &mut [u8])
    requires { LANES ≤ length text.old }
    ensures { text.new ≡ map lower (take LANES text.old) ++ drop LANES text.old }
{
    let octets = u8x16::from_slice(text);
    let capitals = (octets - u8x16::splat(b'A')).simd_lt(u8x16::splat(26));
    let folded = capitals.select(octets | u8x16::splat(0x20), octets);
    folded.copy_to_slice(text);
}
