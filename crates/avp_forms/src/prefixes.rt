//! Prefixes of addresses.

ghost use Rattle.std.specs.Prelude.{◌≡◌, ◌+◌, ◌≤◌, ◌++◌, IfSome};
ghost use Rattle.arrayvec.specs.ArrayVec.{array_vec_len};
ghost use Rattle.avp_forms.specs.Comparisons.{holds_prefix, prefix_order};
ghost use Rattle.avp_forms.specs.Prefixes.{first_bits, ipv4_prefix_spelled, ipv4_prefix_text, ipv4_spelled, ipv6_prefix_spelled, ipv6_prefix_text, length_text, masked};

use crate::ipv6_addresses::{ipv6_spelled, push_ipv6};
use crate::numerals::number_within;
use crate::parts::first_between;
use crate::short_texts::{MAX_SHORT, ShortText, push_all, push_ipv4, push_number};
use arrayvec::ArrayVec;
use std::cmp::Ordering;
use std::net::Ipv4Addr;

// An octet with its first bits, the others cleared.
fn first_bits(length: u8, octet: u8) -> u8
    ensures { result ≡ first_bits length octet }
{
    match length {
        0 => 0,
        1 => octet - octet % 128,
        2 => octet - octet % 64,
        3 => octet - octet % 32,
        4 => octet - octet % 16,
        5 => octet - octet % 8,
        6 => octet - octet % 4,
        7 => octet - octet % 2,
        _ => octet,
    }
}

/// The first bits of an IPv4 address, the others cleared.
pub fn masked_4(length: u8, octets: [u8; 4]) -> [u8; 4]
    ensures { result ≡ masked length octets }
{
    let [a, b, c, d] = octets;
    [
        first_bits(length, a),
        first_bits(length.saturating_sub(8), b),
        first_bits(length.saturating_sub(16), c),
        first_bits(length.saturating_sub(24), d),
    ]
}

/// The first bits of an IPv6 address, the others cleared.
pub fn masked_16(length: u8, octets: [u8; 16]) -> [u8; 16]
    ensures { result ≡ masked length octets }
{
    let [a, b, c, d, e, f, g, h, i, j, k, l, m, n, o, p] = octets;
    [
        first_bits(length, a),
        first_bits(length.saturating_sub(8), b),
        first_bits(length.saturating_sub(16), c),
        first_bits(length.saturating_sub(24), d),
        first_bits(length.saturating_sub(32), e),
        first_bits(length.saturating_sub(40), f),
        first_bits(length.saturating_sub(48), g),
        first_bits(length.saturating_sub(56), h),
        first_bits(length.saturating_sub(64), i),
        first_bits(length.saturating_sub(72), j),
        first_bits(length.saturating_sub(80), k),
        first_bits(length.saturating_sub(88), l),
        first_bits(length.saturating_sub(96), m),
        first_bits(length.saturating_sub(104), n),
        first_bits(length.saturating_sub(112), o),
        first_bits(length.saturating_sub(120), p),
    ]
}

// The IPv4 address that a text stands for.
fn ipv4_spelled(text: &[u8]) -> Option<[u8; 4]>
    ensures { result ≡ ipv4_spelled text.now }
{
    match Ipv4Addr::parse_ascii(text) {
        Ok(address) => Some(address.octets()),
        Err(_) => None,
    }
}

/// The prefix of an IPv6 address that a text stands for, and its length.
#[tactic(auto, unfolding(crate::specs::Prefixes::ipv6_prefix_spelled))]
pub fn ipv6_prefix_spelled(text: &[u8]) -> Option<([u8; 16], u8)>
    ensures { result ≡ ipv6_prefix_spelled text.now }
{
    let (address, length) = first_between(b'/', text)?;
    match first_between(b'/', length) {
        Some(_) => None,
        None => {
            let octets = ipv6_spelled(address)?;
            let length = number_within(10, 128, length)? as u8;
            Some((masked_16(length, octets), length))
        }
    }
}

/// The prefix of an IPv4 address that a text stands for, and its length.
#[tactic(auto, unfolding(crate::specs::Prefixes::ipv4_prefix_spelled))]
pub fn ipv4_prefix_spelled(text: &[u8]) -> Option<([u8; 4], u8)>
    ensures { result ≡ ipv4_prefix_spelled text.now }
{
    let (address, length) = first_between(b'/', text)?;
    match first_between(b'/', length) {
        Some(_) => None,
        None => {
            let octets = ipv4_spelled(address)?;
            let length = number_within(10, 32, length)? as u8;
            Some((masked_4(length, octets), length))
        }
    }
}

fn push_length(text: &mut ShortText, length: u8)
    requires { array_vec_len text.old + 4 ≤ MAX_SHORT }
    ensures { text.new.items ≡ text.old.items ++ length_text length }
{
    push_all(text, b"/");
    push_number(text, length);
}

/// The text of a prefix of an IPv6 address.
#[tactic(auto, unfolding(crate::specs::Prefixes::ipv6_prefix_text))]
pub fn ipv6_prefix_text(octets: [u8; 16], length: u8) -> ShortText
    ensures { result.items ≡ ipv6_prefix_text octets length }
{
    let mut text = ArrayVec::new();
    push_ipv6(&mut text, octets);
    push_length(&mut text, length);
    text
}

/// The text of a prefix of an IPv4 address.
#[tactic(auto, unfolding(crate::specs::Prefixes::ipv4_prefix_text))]
pub fn ipv4_prefix_text(octets: [u8; 4], length: u8) -> ShortText
    ensures { result.items ≡ ipv4_prefix_text octets length }
{
    let mut text = ArrayVec::new();
    push_ipv4(&mut text, octets);
    push_length(&mut text, length);
    text
}

fn holds_16(octets: [u8; 16], length: u8, other: [u8; 16], longer: u8) -> bool
    ensures { result ≡ holds_prefix octets length other longer }
{
    length <= longer && masked_16(length, other) == octets
}

fn holds_4(octets: [u8; 4], length: u8, other: [u8; 4], longer: u8) -> bool
    ensures { result ≡ holds_prefix octets length other longer }
{
    length <= longer && masked_4(length, other) == octets
}

/// The order of two prefixes of IPv6 addresses.
pub fn order_16(octets: [u8; 16], length: u8, other: [u8; 16], longer: u8) -> Option<Ordering>
    ensures { result ≡ prefix_order octets length other longer }
{
    let holds = holds_16(octets, length, other, longer);
    if holds_16(other, longer, octets, length) {
        Some(if holds {
            Ordering::Equal
        } else {
            Ordering::Less
        })
    } else if holds {
        Some(Ordering::Greater)
    } else {
        None
    }
}

/// The order of two prefixes of IPv4 addresses.
pub fn order_4(octets: [u8; 4], length: u8, other: [u8; 4], longer: u8) -> Option<Ordering>
    ensures { result ≡ prefix_order octets length other longer }
{
    let holds = holds_4(octets, length, other, longer);
    if holds_4(other, longer, octets, length) {
        Some(if holds {
            Ordering::Equal
        } else {
            Ordering::Less
        })
    } else if holds {
        Some(Ordering::Greater)
    } else {
        None
    }
}
