//! How long texts may become.

use crate::references::kind_of;
use avp_dict::{Dictionary, Form, Kind, Named};

/// The most octets of what is captured: as many as of any value's text.
pub(crate) const LONGEST_TEXT: usize = 2 + 2 * 4_012;

/// The most octets of a VALUE name; a number in digits has fewer.
const LONGEST_NAME: usize = 128;

/// The most octets of a date's text, as `Nov 24 2026 10:00:00 UTC`.
const LONGEST_DATE: usize = 24;

// Of a value by its type.
fn longest_of_kind(kind: Kind, greatest: usize) -> usize {
    match kind {
        Kind::Text => greatest,
        Kind::Bytes => greatest.saturating_mul(2).saturating_add(2),
        Kind::Addr => 15,
        Kind::Date => LONGEST_DATE,
        Kind::Ether => 17,
        Kind::Integer | Kind::Byte | Kind::Short | Kind::Signed | Kind::Integer64 => LONGEST_NAME,
    }
}

// Of a value by what it stands for.
fn longest_of_form(form: Form, kind: Kind, greatest: usize) -> usize {
    match form {
        Form::AsTyped => longest_of_kind(kind, greatest),
        Form::Ipv6Address => 39,
        Form::Ipv6Prefix => 43,
        Form::Ipv4Prefix => 18,
        Form::InterfaceId => 19,
        Form::Date => LONGEST_DATE,
        Form::TaggedInteger => LONGEST_NAME,
        Form::TaggedString => greatest,
    }
}

/// The most octets of the text of an attribute's value.
pub(crate) fn longest_text(dictionary: &Dictionary, named: Named) -> usize {
    let greatest = dictionary.greatest_length(named.id);
    if named.raw {
        return longest_of_kind(Kind::Bytes, greatest);
    }
    let form = dictionary.form(named.id).unwrap_or(Form::AsTyped);
    longest_of_form(form, kind_of(dictionary, named), greatest)
}
