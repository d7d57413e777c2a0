//! Help for faults of regular expressions.

use crate::policy_tokens::{pattern_end, pattern_start};
use crate::texts::push_all;
use avp_patterns::PatternFault;
use std::alloc::AllocError;

// How many octets of a pattern are before the place of its fault.
fn place_of(fault: PatternFault) -> usize {
    match fault {
        PatternFault::NotUtf8(offset)
        | PatternFault::Expansion(offset)
        | PatternFault::NotRead(offset) => offset,
        PatternFault::Empty | PatternFault::TooLarge | PatternFault::Memory => 0,
    }
}

// How many octets of what is written between slashes stand for so many octets of a pattern: `\/` is a slash in it.
fn written_length(text: &[u8], wanted: usize) -> usize {
    let mut count = 0usize;
    let mut is_escaped = false;
    for (at, octet) in text.iter().enumerate() {
        if is_escaped && *octet == b'/' {
            is_escaped = false;
            continue;
        }
        if count >= wanted {
            return at;
        }
        count = count.saturating_add(1);
        is_escaped = *octet == b'\\' && !is_escaped;
    }
    text.len()
}

/// How many octets of a text that begins with the comparison are before the place of a fault of its pattern.
pub(crate) fn fault_place(text: &[u8], fault: PatternFault) -> usize {
    match pattern_start(text) {
        Some(start) => {
            let (_, pattern) = text.split_at(start.min(text.len()));
            start.saturating_add(written_length(pattern, place_of(fault)))
        }
        None => 0,
    }
}

/// What was found, and what to do.
pub(crate) fn push_pattern_fault(
    help: &mut Vec<u8>,
    fault: PatternFault,
) -> Result<(), AllocError> {
    let (found, hint) = match fault {
        PatternFault::Empty => (
            "the regular expression is empty",
            "write what the value has to hold, or &Name alone to test for the attribute",
        ),
        PatternFault::NotUtf8(_) => (
            "from here on the regular expression is no UTF-8",
            "write a single octet by two hexadecimal digits, as \\xe9",
        ),
        PatternFault::Expansion(_) => (
            "found %{, and nothing is put into a regular expression here",
            "write the text that it stands for, or compare with == and &Name",
        ),
        PatternFault::NotRead(_) => (
            "the regular expression can't be read from here on",
            "look-around, back references and \\Q..\\E are left out here; write a \\ before a sign that \
            stands for itself",
        ),
        PatternFault::TooLarge => (
            "the regular expression takes more than 256 KiB, or those of the policy more than 16 MiB",
            "write smaller numbers between { and }, or several comparisons",
        ),
        PatternFault::Memory => return Ok(()),
    };
    push_all(help, &[found, "\n", hint, "\n"])
}

/// What to do about the sign of a comparison that no regular expression follows as it has to.
pub(crate) fn unread_pattern_hint(text: &[u8]) -> &'static str {
    if pattern_start(text).is_none() {
        "write the regular expression between slashes, as =~ /^bob/"
    } else if pattern_end(text).is_none() {
        "the regular expression has no closing / on its line; a slash in it is written \\/"
    } else {
        "behind the last / there may be i, m or both"
    }
}
