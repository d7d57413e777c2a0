//! What is said of a value that is none.

use crate::names::{path_with_value, push_own_line, push_unread_line, shown_values, value_names};
use crate::sources::Sources;
use crate::texts::{push_all, push_choices};
use avp_dict::{Dictionary, Form, Kind};
use avp_forms::{Profile, profile_of};
use std::alloc::{AllocError, Global};

// Which texts a type reads.
fn form_text(kind: Kind) -> &'static str {
    match kind {
        Kind::Text => "any text, in quotes where it has blanks",
        Kind::Bytes => "0x and an even number of hexadecimal digits",
        Kind::Addr => "an IPv4 address, as 192.0.2.1",
        Kind::Integer => "a number from 0 to 4294967295, or a VALUE name",
        Kind::Date => "a number of seconds since 1970, as `date +%s` prints it",
        Kind::Byte => "a number from 0 to 255, or a VALUE name",
        Kind::Short => "a number from 0 to 65535, or a VALUE name",
        Kind::Signed => "a number from -2147483648 to 2147483647",
        Kind::Integer64 => "a number from 0 to 18446744073709551615, or a VALUE name",
        Kind::Ether => "six pairs of hexadecimal digits, as 00:11:22:33:44:55",
    }
}

const RANGE_HINT: &str =
    "for a prefix compare both ends: &Name >= 192.0.2.0 && &Name <= 192.0.2.255\n";

// Which texts the wider profile reads besides; none where it reads no more.
fn wider_text(form: Form) -> Option<&'static str> {
    match form {
        Form::AsTyped => None,
        Form::Ipv6Address => Some("an IPv6 address, as 2001:db8::1"),
        Form::Ipv6Prefix => Some("an IPv6 prefix, as 2001:db8::/32"),
        Form::Ipv4Prefix => Some("an IPv4 prefix, as 192.0.2.0/24"),
        Form::InterfaceId => Some("an interface id, as 1:2:3:4"),
        Form::Date => Some("a date, as \"Nov 24 2026 10:00:00 UTC\""),
        Form::TaggedInteger => Some("a number or a VALUE name, as VLAN"),
        Form::TaggedString => Some("any text"),
    }
}

// What octets of this form are written as.
fn octets_text(form: Form) -> &'static str {
    match form {
        Form::TaggedInteger => ": the tag, then the number, as 0x0000000d for VLAN of Tunnel-Type",
        _ => "",
    }
}

// Adds what a value of this attribute is, in the forms of a profile.
fn push_form(
    help: &mut Vec<u8>,
    profile: Profile,
    kind: Kind,
    form: Form,
) -> Result<(), AllocError> {
    let octets = octets_text(form);
    match (wider_text(form), profile) {
        (Some(wider), Profile::Wider) => {
            push_all(help, &[wider, ", or ", form_text(kind), octets, "\n"])
        }
        (Some(wider), Profile::Plain) => {
            push_all(help, &[form_text(kind), octets, "\n"])?;
            push_all(
                help,
                &[
                    "with # profile: wider as the first line it is ",
                    wider,
                    ", too\n",
                ],
            )
        }
        (None, _) => push_all(help, &[form_text(kind), "\n"]),
    }
}

/// What to do about a name with a tag that is none.
pub(crate) fn tag_hint(profile: Profile) -> &'static str {
    match profile {
        Profile::Wider =>
            "a tag is a number up to 31, after the name of an attribute that has tags\n",
        Profile::Plain => {
            "write # profile: wider as the first line of this file, or write the name without its tag, and as \
            the value 0x, the two digits of the tag and those of each octet of the value\n"
        }
    }
}

// The seconds of a time with its unit, as `8h`.
fn seconds_of(value: &str) -> Option<u64> {
    for (unit, seconds) in [("s", 1_u64), ("m", 60), ("h", 3_600), ("d", 86_400)] {
        if let Some(digits) = value.strip_suffix(unit) {
            return digits.parse::<u64>().ok()?.checked_mul(seconds);
        }
    }
    None
}

// What to do about a number with the unit of a time.
fn push_seconds(
    alloc: Global,
    help: &mut Vec<u8>,
    kind: Kind,
    value: &str,
) -> Result<(), AllocError> {
    let (Kind::Integer, Some(seconds)) = (kind, seconds_of(value)) else {
        return Ok(());
    };
    let text = format!(in alloc;
        "a number has no unit; of times it is one of seconds: write {seconds}\n"
    )?;
    push_all(help, &[text.as_str()])
}

// Adds the VALUE names that may have been meant, after these words.
fn push_values(
    alloc: Global,
    help: &mut Vec<u8>,
    sources: &Sources<'_>,
    name: &str,
    value: &str,
    words: &str,
) -> Result<(), AllocError> {
    let names = value_names(alloc, sources.files, name)?;
    let shown = shown_values(alloc, &names, value)?;
    if !shown.is_empty() {
        push_all(help, &[words])?;
        push_choices(help, &shown)?;
        push_all(help, &["\n"])?;
    }
    Ok(())
}

// The letter that stands for a unit of time.
fn letter_of_unit(word: &str) -> Option<&str> {
    match word {
        "s" | "sec" | "second" | "seconds" => Some("s"),
        "m" | "min" | "minute" | "minutes" => Some("m"),
        "h" | "hour" | "hours" => Some("h"),
        "d" | "day" | "days" => Some("d"),
        _ => None,
    }
}

// Adds what a value of this type is, behind which a word stands.
fn push_one_word(
    help: &mut Vec<u8>,
    profile: Profile,
    kind: Kind,
    form: Form,
    written: [&str; 2],
) -> Result<(), AllocError> {
    let alloc = *help.allocator();
    let [value, word] = written;
    push_form(help, profile, kind, form)?;
    match letter_of_unit(word) {
        Some(unit) => {
            let time = format!(in alloc; "{value}{unit}")?;
            push_seconds(alloc, help, kind, time.as_str())
        }
        None => Ok(()),
    }
}

/// Adds what to do about a value of this attribute and the word behind it: a text takes quotes, and a value of another
/// type is one word.
pub(crate) fn push_word_after(
    help: &mut Vec<u8>,
    sources: &Sources<'_>,
    name: &str,
    written: [&str; 2],
) -> Result<(), AllocError> {
    let profile = profile_of(sources.policy.text);
    let typing = match &sources.dictionary(*help.allocator()) {
        Some(dictionary) => typing_of(dictionary, name),
        None => None,
    };
    match typing {
        None | Some((Kind::Text, _)) | Some((_, Form::TaggedString)) => {
            push_all(help, &["put a text with blanks into quotes\n"])
        }
        Some((kind, form)) => {
            push_all(help, &["a value of ", name, " is "])?;
            push_one_word(help, profile, kind, form, written)
        }
    }
}

// The type of an attribute, and what its values stand for.
fn typing_of(dictionary: &Dictionary, name: &str) -> Option<(Kind, Form)> {
    let named = dictionary.by_name(name.as_bytes())?;
    if named.raw {
        return None;
    }
    let entry = dictionary.by_id(named.id)?;
    Some((
        entry.kind,
        dictionary.form(named.id).unwrap_or(Form::AsTyped),
    ))
}

/// Adds what a value of this attribute may be, which this text is not. The file in which it is asks for a profile.
pub(crate) fn push_not_value(
    alloc: Global,
    help: &mut Vec<u8>,
    sources: &Sources<'_>,
    profile: Profile,
    name: &str,
    value: &str,
) -> Result<(), AllocError> {
    push_all(help, &["found ", value, "; a value of ", name, " is "])?;
    match &sources.dictionary(alloc) {
        Some(dictionary) => match typing_of(dictionary, name) {
            Some((kind, form)) => {
                push_form(help, profile, kind, form)?;
                push_seconds(alloc, help, kind, value)?;
                if kind == Kind::Addr && value.contains("/") {
                    push_all(help, &[RANGE_HINT])?;
                }
                // Names of numbers beside tags are values of the wider profile alone.
                if matches!((profile, form), (Profile::Plain, Form::TaggedInteger)) {
                    return Ok(());
                }
            }
            None => push_all(help, &["0x and an even number of hexadecimal digits\n"])?,
        },
        None => push_all(help, &["of another form\n"])?,
    }
    if name == "Auth-Type" {
        push_all(help, &["a module of the server may define it: "])?;
        push_own_line(help, sources, &["VALUE Auth-Type ", value, " 3000"])?;
        return push_values(alloc, help, sources, name, value, "or write ");
    }
    if let Some(path) = path_with_value(alloc, sources, name, value)? {
        return push_unread_line(help, sources.dictionaries, path, "VALUE");
    }
    push_values(alloc, help, sources, name, value, "write ")
}
