//! Interface ids.

ghost use Rattle.std.specs.Prelude.{◌≡◌, ◌+◌, ◌*◌, ◌≤◌, ◌∷◌, ◌++◌, [], codes};
ghost use Rattle.std.specs.Net.Addr.{octets_of};
ghost use Rattle.arrayvec.specs.ArrayVec.{array_vec_len};
ghost use Rattle.avp_dict.specs.Spellings.{each_number};
ghost use Rattle.avp_forms.specs.InterfaceIds.{group, group_text, interface_id_spelled, interface_id_text};

use crate::ipv6_addresses::push_group;
use crate::numerals::short_number;
use crate::parts::first_between;
use crate::short_texts::{MAX_SHORT, ShortText, push_all};
use arrayvec::ArrayVec;

fn group(part: &[u8]) -> Option<u16>
    ensures { result ≡ group part.now }
{
    let number = short_number(4, 16, 65535, part)?;
    Some(number as u16)
}

#[tactic(auto, unfolding(avp_dict::specs::Spellings::each_number))]
fn groups(a: &[u8], b: &[u8], c: &[u8], d: &[u8]) -> Option<[u16; 4]>
    ensures { result ≡ each_number group (a.now ∷ b.now ∷ c.now ∷ d.now ∷ []) }
{
    Some([group(a)?, group(b)?, group(c)?, group(d)?])
}

fn octets_of_groups(groups: [u16; 4]) -> [u8; 8]
    ensures { result ≡ octets_of groups }
{
    let [a, b, c, d] = groups;
    let [a0, a1] = a.to_be_bytes();
    let [b0, b1] = b.to_be_bytes();
    let [c0, c1] = c.to_be_bytes();
    let [d0, d1] = d.to_be_bytes();
    [a0, a1, b0, b1, c0, c1, d0, d1]
}

/// The interface id that a text stands for.
#[tactic(auto, unfolding(crate::specs::InterfaceIds::interface_id_spelled))]
pub fn interface_id_spelled(text: &[u8]) -> Option<[u8; 8]>
    ensures { result ≡ interface_id_spelled text.now }
{
    let (a, rest) = first_between(b':', text)?;
    let (b, rest) = first_between(b':', rest)?;
    let (c, d) = first_between(b':', rest)?;
    match first_between(b':', d) {
        Some(_) => None,
        None => Some(octets_of_groups(groups(a, b, c, d)?)),
    }
}

fn push_group_of(text: &mut ShortText, high: u8, low: u8)
    requires { array_vec_len text.old + 4 ≤ MAX_SHORT }
    ensures items { text.new.items ≡ text.old.items ++ group_text (high * 256 + low) }
    ensures length { array_vec_len text.new ≤ array_vec_len text.old + 4 }
{
    push_group(text, u16::from(high) * 256 + u16::from(low));
}

// A colon and a group after it.
fn push_after_colon(text: &mut ShortText, high: u8, low: u8)
    requires { array_vec_len text.old + 5 ≤ MAX_SHORT }
    ensures items { text.new.items
        ≡ text.old.items ++ (codes ":" ++ group_text (high * 256 + low)) }
    ensures length { array_vec_len text.new ≤ array_vec_len text.old + 5 }
{
    push_all(text, b":");
    push_group_of(text, high, low);
}

/// The text of an interface id.
pub fn interface_id_text(octets: [u8; 8]) -> ShortText
    ensures { result.items ≡ interface_id_text octets }
{
    let [a, b, c, d, e, f, g, h] = octets;
    let mut text = ArrayVec::new();
    push_group_of(&mut text, a, b);
    push_after_colon(&mut text, c, d);
    push_after_colon(&mut text, e, f);
    push_after_colon(&mut text, g, h);
    text
}
