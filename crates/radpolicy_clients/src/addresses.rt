//! Addresses, and the addresses that begin as another does.

ghost use Rattle.std.specs.Prelude.{◌≡◌, ◌<◌, ◌-◌, ◌/◌, ◌^◌, ◌==◌, ◌≤◌, ℕ, IfSome, length};
ghost use Rattle.std.specs.List.{position};
ghost use Rattle.avp_dict.specs.Letters.{is_decimal};
ghost use Rattle.avp_forms.specs.Prefixes.{is_slash};
ghost use Rattle.radpolicy_clients.specs.Addresses.{address_of, begins_as, bits_of, cut_prefix, prefix_of, prefix_with, same_bits, small_number, whole_prefix, within};

use std::net::IpAddr;

/// The address that a text writes.
#[tactic(auto, using(crate::proofs::Texts::written, crate::proofs::Texts::unwritten))]
pub fn address_of(text: &[u8]) -> Option<IpAddr>
    ensures { result ≡ address_of text.now }
{
    match IpAddr::parse_ascii(text) {
        Ok(address) => Some(address),
        Err(_) => None,
    }
}

/// How many bits an address has.
pub(crate) fn bits_of(address: IpAddr) -> u8
    ensures { result ≡ bits_of address }
{
    match address {
        IpAddr::V4(_) => 32,
        IpAddr::V6(_) => 128,
    }
}

// ---- prefixes

fn is_decimal(octet: u8) -> bool
    ensures { result ≡ is_decimal octet }
{
    matches!(octet, b'0'..=b'9')
}

// A number of one to three decimal digits.
pub(crate) fn small_number(digits: &[u8]) -> Option<u16>
    ensures { result ≡ small_number digits.now }
{
    match digits {
        [a] if is_decimal(*a) => Some((*a - b'0') as u16),
        [a, b] if is_decimal(*a) && is_decimal(*b) => {
            Some((*a - b'0') as u16 * 10 + (*b - b'0') as u16)
        }
        [a, b, c] if is_decimal(*a) && is_decimal(*b) && is_decimal(*c) => {
            Some((*a - b'0') as u16 * 100 + (*b - b'0') as u16 * 10 + (*c - b'0') as u16)
        }
        _ => None,
    }
}

fn within(address: IpAddr, count: u16) -> Option<(IpAddr, u8)>
    ensures { result ≡ within address count }
{
    let bits = bits_of(address);
    if count <= bits as u16 {
        Some((address, count as u8))
    } else {
        None
    }
}

// An address whose first bits count, as many as a text says.
pub(crate) fn prefix_with(address: Option<IpAddr>, count: Option<u16>) -> Option<(IpAddr, u8)>
    ensures { result ≡ prefix_with address count }
{
    match (address, count) {
        (Some(address), Some(count)) => within(address, count),
        _ => None,
    }
}

fn whole_prefix(address: Option<IpAddr>) -> Option<(IpAddr, u8)>
    ensures { result ≡ whole_prefix address }
{
    match address {
        Some(address) => Some((address, bits_of(address))),
        None => None,
    }
}

fn slash_at(text: &[u8]) -> Option<usize>
    ensures place { result ≡ position is_slash text.now }
    ensures within { IfSome result (λ at. at < length text.now) }
{
    text.iter().position(|octet| *octet == b'/')
}

/// The prefix that a text writes, an address or `ADDRESS/BITS`: the address, and how many of its first bits count.
#[tactic(auto, unfolding(crate::specs::Addresses::prefix_of))]
pub fn prefix_of(text: &[u8]) -> Option<(IpAddr, u8)>
    ensures { result ≡ prefix_of text.now }
{
    match slash_at(text) {
        Some(at) => prefix_with(address_of(&text[..at]), small_number(&text[at + 1..])),
        None => whole_prefix(address_of(text)),
    }
}

// ---- addresses that begin alike

// Whether the first bits of two octets are the same, fewer than 8.
fn same_first_bits(count: u8, a: u8, b: u8) -> bool
    requires { count < 8 }
    ensures { result ≡ ((a / 2 ^ (8 - count)) == (b / 2 ^ (8 - count))) }
{
    let others = (8 - count) as u32;
    (a as u32) >> others == (b as u32) >> others
}

fn same_bits(count: u8, a: &[u8], b: &[u8]) -> bool
    ensures { result ≡ same_bits count a.now b.now }
{
    let mut count = count;
    let mut a = a;
    let mut b = b;
    while let [x, xs @ ..] = a {
        let [y, ys @ ..] = b else {
            return false;
        };
        if count < 8 {
            return same_first_bits(count, *x, *y);
        }
        if *x != *y {
            return false;
        }
        count -= 8;
        a = xs;
        b = ys;
    }
    b.is_empty()
}

/// Whether two addresses of one version have the same first bits.
pub(crate) fn begins_as(count: u8, address: IpAddr, other: IpAddr) -> bool
    ensures { result ≡ begins_as count address other }
{
    match (address, other) {
        (IpAddr::V4(a), IpAddr::V4(b)) => same_bits(count, &a.octets(), &b.octets()),
        (IpAddr::V6(a), IpAddr::V6(b)) => same_bits(count, &a.octets(), &b.octets()),
        _ => false,
    }
}
