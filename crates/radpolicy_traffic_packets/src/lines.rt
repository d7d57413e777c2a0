//! The lines of a reply as request lines.

ghost use Rattle.std.specs.Prelude.{◌≡◌, ◌++◌, false, IfOk};
ghost use Rattle.radpolicy_traffic_packets.specs.Packets.{begins_equals, is_operator_sign, is_within_value, with_equals};

use std::alloc::{AllocError, Global};

fn begins_equals(text: &[u8]) -> bool
    ensures { result ≡ begins_equals text.now }
{
    matches!(text, [b'=', ..])
}

fn is_operator_sign(octet: u8) -> bool
    ensures { result ≡ is_operator_sign octet }
{
    matches!(octet, b':' | b'+')
}

fn is_within_value(within: bool, octet: u8) -> bool
    ensures { result ≡ is_within_value within octet }
{
    octet != b'\n' && (within || octet == b'=')
}

/// The lines with `=` as the operator of each; a server prints a reply's lines with `:=` and `+=` too.
pub(crate) fn with_equals(alloc: Global, lines: &[u8]) -> Result<Vec<u8>, AllocError>
    ensures { IfOk result (λ text. text.items ≡ with_equals false lines.now) }
{
    let mut text = Vec::new(alloc);
    let mut within = false;
    let mut rest = lines;
    while let [octet, later @ ..] = rest {
        if within || !is_operator_sign(*octet) || !begins_equals(later) {
            text.push(*octet)?;
            within = is_within_value(within, *octet);
        }
        rest = later;
    }
    Ok(text)
}
