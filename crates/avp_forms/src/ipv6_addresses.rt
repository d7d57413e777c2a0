//! IPv6 addresses.

ghost use Rattle.std.specs.Prelude.{◌≡◌, ◌+◌, ◌*◌, ◌<◌, ◌≤◌, ◌++◌, length};
ghost use Rattle.std.specs.Char.{digit_char};
ghost use Rattle.std.specs.Net.Text.{groups_text, hex, hex_groups_text, leading_zero_digits, longest_zero_run};
ghost use Rattle.arrayvec.specs.ArrayVec.{array_vec_len};
ghost use Rattle.avp_forms.specs.Ipv6Addresses.{ipv6_address_text, ipv6_spelled};

use crate::short_texts::{MAX_SHORT, ShortText, push_all, push_ipv4};
use arrayvec::ArrayVec;
use std::net::Ipv6Addr;

/// The address that a text stands for.
pub fn ipv6_spelled(text: &[u8]) -> Option<[u8; 16]>
    ensures { result ≡ ipv6_spelled text.now }
{
    match Ipv6Addr::parse_ascii(text) {
        Ok(address) => Some(address.octets()),
        Err(_) => None,
    }
}

// ---- printed

fn digit_char(digit: u16) -> u8
    requires { digit < 16 }
    ensures { result ≡ digit_char digit }
{
    if digit < 10 {
        b'0' + digit as u8
    } else {
        b'a' + (digit - 10) as u8
    }
}

fn leading_zero_digits(group: u16) -> usize
    ensures value { result ≡ leading_zero_digits group }
    ensures within { result < 4 }
{
    match group {
        0x1000.. => 0,
        0x100.. => 1,
        0x10.. => 2,
        _ => 3,
    }
}

// A group in lower case, without zeros before it.
#[tactic(auto, unfolding(std::specs::Net::Text::hex))]
pub(crate) fn push_group(text: &mut ShortText, group: u16)
    requires { array_vec_len text.old + 4 ≤ MAX_SHORT }
    ensures items { text.new.items ≡ text.old.items ++ hex group }
    ensures length { array_vec_len text.new ≤ array_vec_len text.old + 4 }
{
    let digits = [
        digit_char(group / 0x1000),
        digit_char(group / 0x100 % 16),
        digit_char(group / 0x10 % 16),
        digit_char(group % 16),
    ];
    let zeros = leading_zero_digits(group);
    push_all(text, &digits[zeros..]);
}

// Groups with colons between.
fn push_groups(text: &mut ShortText, groups: &[u16])
    requires { array_vec_len text.old + 5 * length groups.now ≤ MAX_SHORT }
    ensures items { text.new.items ≡ text.old.items ++ groups_text groups.now }
    ensures length { array_vec_len text.new ≤ array_vec_len text.old + 5 * length groups.now }
{
    let [first, rest @ ..] = groups else {
        return;
    };
    push_group(text, *first);
    for group in rest {
        push_all(text, b":");
        push_group(text, *group);
    }
}

// Where the longest run of zeros begins, the first one of that length, and how many zeros it has.
fn longest_zero_run(groups: &[u16]) -> (usize, usize)
    ensures value { result ≡ longest_zero_run groups.now }
    ensures within { result.0 + result.1 ≤ length groups.now }
{
    let mut start = groups.len();
    let mut longest = 0;
    let mut run = 0;
    for i in (0..groups.len()).rev() {
        run = if groups[i] == 0 { run + 1 } else { 0 };
        if run >= longest {
            start = i;
            longest = run;
        }
    }
    (start, longest)
}

#[tactic(auto, unfolding(std::specs::Net::Text::hex_groups_text))]
fn push_hex_groups(text: &mut ShortText, groups: [u16; 8])
    requires { array_vec_len text.old + 42 ≤ MAX_SHORT }
    ensures items { text.new.items ≡ text.old.items ++ hex_groups_text groups }
    ensures length { array_vec_len text.new ≤ array_vec_len text.old + 42 }
{
    let (start, count) = longest_zero_run(&groups);
    if count > 1 {
        push_groups(text, &groups[..start]);
        push_all(text, b"::");
        push_groups(text, &groups[start + count..]);
    } else {
        push_groups(text, &groups);
    }
}

pub(crate) fn push_ipv6(text: &mut ShortText, octets: [u8; 16])
    requires { array_vec_len text.old + 42 ≤ MAX_SHORT }
    ensures items { text.new.items ≡ text.old.items ++ ipv6_address_text octets }
    ensures length { array_vec_len text.new ≤ array_vec_len text.old + 42 }
{
    let address = Ipv6Addr::from_octets(octets);
    match address.to_ipv4_mapped() {
        Some(ipv4) => {
            push_all(text, b"::ffff:");
            push_ipv4(text, ipv4.octets());
        }
        None => push_hex_groups(text, address.segments()),
    }
}

/// The text of an address.
pub fn ipv6_address_text(octets: [u8; 16]) -> ShortText
    ensures { result.items ≡ ipv6_address_text octets }
{
    let mut text = ArrayVec::new();
    push_ipv6(&mut text, octets);
    text
}
