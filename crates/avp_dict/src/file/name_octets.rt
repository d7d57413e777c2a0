//! The octets of names, sixteen at a time.

ghost use Rattle.std.specs.Prelude.{◌≡◌, ◌<◌, ◌≤◌, ◌++◌, ◌-◌, length, replicate, slice_index};
ghost use Rattle.std.specs.List.{list_all};

use crate::file::lanes::LANES;
use std::simd::prelude::*;

/// A set of octets that names are made of.
pub trait NameOctets {
    ghost use Rattle.std.specs.Prelude.{◌≡◌, ◌≤◌, ℕ, Bool, length, take};
    ghost use Rattle.std.specs.List.{list_all};

    ghost test: { ℕ → Bool };

    /// Whether each of the first sixteen octets of a text is one of them.
    fn has_sixteen(text: &[u8]) -> bool
        requires { 16 ≤ length text.now }
        ensures { result ≡ list_all test (take 16 text.now) };
}

/// The octets of an attribute's name.
pub struct OfAttribute;

/// The octets of a VALUE name.
pub struct OfValue;

// `|` takes capitals to small letters. `-`, `.`, `/` and the digits follow one another, and `:` follows them.
impl NameOctets for OfAttribute {
    ghost use Rattle.avp_dict.specs.Letters.{is_name_octet};

    ghost test = { is_name_octet };

    #[inline(always)]
    fn has_sixteen(text: &[u8]) -> bool {
        let octets = u8x16::from_slice(text);
        let from_a = (octets | u8x16::splat(0x20)) - u8x16::splat(b'a');
        let from_dash = octets - u8x16::splat(b'-');
        let others = from_a.simd_ge(u8x16::splat(26))
            & from_dash.simd_ge(u8x16::splat(13))
            & octets.simd_ne(u8x16::splat(b'_'));
        others.to_bitmask() == 0
    }
}

impl NameOctets for OfValue {
    ghost use Rattle.avp_dict.specs.Letters.{is_value_name_octet};

    ghost test = { is_value_name_octet };

    #[inline(always)]
    fn has_sixteen(text: &[u8]) -> bool {
        let octets = u8x16::from_slice(text);
        let from_a = (octets | u8x16::splat(0x20)) - u8x16::splat(b'a');
        let from_dash = octets - u8x16::splat(b'-');
        let others = from_a.simd_ge(u8x16::splat(26))
            & from_dash.simd_ge(u8x16::splat(14))
            & octets.simd_ne(u8x16::splat(b'_'))
            & octets.simd_ne(u8x16::splat(b'@'));
        others.to_bitmask() == 0
    }
}

// The octets of a short name, and its first one in the rest of sixteen.
fn padded(name: &[u8]) -> [u8; LANES]
    requires some { 0 < length name.now }
    requires short { length name.now ≤ 16 }
    ensures { result ≡ name.now ++ replicate (16 - length name.now) (slice_index name.now 0) }
{
    let mut octets = [name[0]; LANES];
    octets[..name.len()].copy_from_slice(name);
    octets
}

/// Whether each octet of a name is one of them.
#[tactic(auto, using(crate::proofs::NameOctets::sixteen_failed))]
#[inline(always)]
pub(crate) fn are_octets_of<K: NameOctets>(name: &[u8]) -> bool
    ensures { result ≡ list_all K.test name.now }
{
    if name.is_empty() {
        return true;
    }
    if name.len() < LANES {
        return K::has_sixteen(&padded(name));
    }
    let mut rest = name;
    while rest.len() > LANES {
        if !K::has_sixteen(rest) {
            return false;
        }
        rest = &rest[LANES..];
    }
    // The last sixteen, which may begin among those that were looked at.
    K::has_sixteen(&name[name.len() - LANES..])
}
