//! Short texts, made without memory.

ghost use Rattle.std.specs.Prelude.{◌≡◌, ◌+◌, ◌≤◌, ◌++◌, codes, decimal, length};
ghost use Rattle.std.specs.Fmt.{signed_decimal};
ghost use Rattle.std.specs.Net.Text.{ipv4_text};
ghost use Rattle.arrayvec.specs.ArrayVec.{array_vec_len};
ghost use Rattle.avp_dict.specs.Printing.{address_text, digit_pair_text, ether_text};

use arrayvec::ArrayVec;
use itoa::{Buffer, Integer};

/// The most octets of a short text.
pub const MAX_SHORT: usize = 46;

/// The text of a number, an address, a prefix, an interface id or a date.
pub type ShortText = ArrayVec<u8, MAX_SHORT>;

pub(crate) fn push_all(text: &mut ShortText, octets: &[u8])
    requires { array_vec_len text.old + length octets.now ≤ MAX_SHORT }
    ensures { text.new.items ≡ text.old.items ++ octets.now }
{
    text.try_extend_from_slice(octets).unwrap();
}

pub(crate) fn push_number<I: Integer>(text: &mut ShortText, number: I)
    requires { array_vec_len text.old + I.MAX_STR_LEN ≤ MAX_SHORT }
    ensures items { text.new.items ≡ text.old.items ++ I.text number }
    ensures length { array_vec_len text.new ≤ array_vec_len text.old + I.MAX_STR_LEN }
{
    let mut buffer = Buffer::new();
    push_all(text, buffer.format(number).as_bytes());
}

/// The decimal digits of a number, with a `-` where it is negative.
pub(crate) fn number_text<I: Integer>(number: I) -> ShortText
    requires { I.MAX_STR_LEN ≤ MAX_SHORT }
    ensures { result.items ≡ I.text number }
{
    let mut text = ArrayVec::new();
    push_number(&mut text, number);
    text
}

pub(crate) fn signed_text(number: i32) -> ShortText
    ensures { result.items ≡ signed_decimal number }
{
    number_text(number)
}

// ---- addresses of four octets

fn push_dotted(text: &mut ShortText, octet: u8)
    requires { array_vec_len text.old + 4 ≤ MAX_SHORT }
    ensures items { text.new.items ≡ text.old.items ++ (codes "." ++ decimal octet) }
    ensures length { array_vec_len text.new ≤ array_vec_len text.old + 4 }
{
    push_all(text, b".");
    push_number(text, octet);
}

pub(crate) fn push_ipv4(text: &mut ShortText, octets: [u8; 4])
    requires { array_vec_len text.old + 15 ≤ MAX_SHORT }
    ensures items { text.new.items ≡ text.old.items ++ ipv4_text octets }
    ensures length { array_vec_len text.new ≤ array_vec_len text.old + 15 }
{
    let [a, b, c, d] = octets;
    push_number(text, a);
    push_dotted(text, b);
    push_dotted(text, c);
    push_dotted(text, d);
}

pub(crate) fn address_text(octets: [u8; 4]) -> ShortText
    ensures { result.items ≡ address_text octets }
{
    let mut text = ArrayVec::new();
    push_ipv4(&mut text, octets);
    text
}

// ---- addresses of six octets

fn push_digit_pair(text: &mut ShortText, octet: u8)
    requires { array_vec_len text.old + 2 ≤ MAX_SHORT }
    ensures items { text.new.items ≡ text.old.items ++ digit_pair_text octet }
    ensures length { array_vec_len text.new ≡ array_vec_len text.old + 2 }
{
    let mut digits = [0; 2];
    hex::encode_to_slice(&[octet][..], &mut digits[..]).unwrap();
    push_all(text, &digits);
}

fn push_after_colon(text: &mut ShortText, octet: u8)
    requires { array_vec_len text.old + 3 ≤ MAX_SHORT }
    ensures items { text.new.items ≡ text.old.items ++ (codes ":" ++ digit_pair_text octet) }
    ensures length { array_vec_len text.new ≡ array_vec_len text.old + 3 }
{
    push_all(text, b":");
    push_digit_pair(text, octet);
}

pub(crate) fn ether_text(octets: [u8; 6]) -> ShortText
    ensures { result.items ≡ ether_text octets }
{
    let [a, b, c, d, e, f] = octets;
    let mut text = ArrayVec::new();
    push_digit_pair(&mut text, a);
    push_after_colon(&mut text, b);
    push_after_colon(&mut text, c);
    push_after_colon(&mut text, d);
    push_after_colon(&mut text, e);
    push_after_colon(&mut text, f);
    text
}
