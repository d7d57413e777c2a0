//! Help for faults of request lines.

use crate::allowances::push_unread_profile;
use crate::halves::HIDDEN;
use crate::hidden::Hidden;
use crate::names::{is_near_secret, push_unknown_attribute};
use crate::places::{Quoted, first_line, last_line, push_place};
use crate::policy_tokens::text_of;
use crate::secret_words::hidden_of;
use crate::sources::{Source, Sources};
use crate::texts::push_all;
use crate::unread_secrets::UnreadSecrets;
use crate::values::{push_not_value, tag_hint};
use crate::written_pairs::{WrittenPair, pair_around};
use avp_dict::{LineFault, LineKind};
use radpolicy_common::file_kind;
use std::alloc::{AllocError, Global};

// Whether a line that begins so is one of a `detail` file: its attributes are on lines that begin with a tab.
fn is_of_detail(text: &[u8], rest: &str) -> bool {
    !rest.contains("=") && text.windows(2).any(|two| two == b"\n\t".as_slice())
}

// Whether a text is of a server's log: it tells of requests that were received.
fn is_of_log(text: &[u8]) -> bool {
    text.windows(14)
        .any(|part| part == b") Received Acc".as_slice())
        || text
            .windows(18)
            .any(|part| part == b"FreeRADIUS Version".as_slice())
}

// What to do about a file that has no request's lines, where it is told by its beginning or by this line.
fn other_kind(text: &[u8], rest: &str) -> Option<&'static str> {
    if let Some(kind) = file_kind(text) {
        Some(kind.advice())
    } else if is_of_log(text) || is_of_detail(text, rest) {
        Some(
            "a detail file or a server's log is read by radpolicy-replay, and by radpolicy-walk and \
            radpolicy-page with --record",
        )
    } else {
        None
    }
}

// What to do about a line that is none, by what is at the place.
fn unreadable_hint(rest: &str) -> &'static str {
    if rest.starts_with("\"") || rest.starts_with("'") {
        "a text in quotes follows an =, and its closing quote is on the same line"
    } else if rest.starts_with(":=") || rest.starts_with("+=") || rest.starts_with("==") {
        "in a request write = between an attribute and its value"
    } else if rest.is_empty() {
        "write = and a value after the attribute"
    } else if rest.starts_with("=") || rest.starts_with(",") {
        "write the attribute before the =, and its value after it"
    } else {
        "put a text with blanks into quotes, and a comma or a line end between pairs"
    }
}

fn push_unknown(
    alloc: Global,
    help: &mut Vec<u8>,
    sources: &Sources<'_>,
    name: &str,
) -> Result<(), AllocError> {
    if name == HIDDEN {
        return push_all(help, &["no attribute has the name that is hidden here\n"]);
    }
    push_all(help, &["no attribute has the name ", name, "\n"])?;
    if name.ends_with(":") {
        return push_all(
            help,
            &["in a request write = between an attribute and its value\n"],
        );
    }
    if name.contains(":") {
        return push_all(help, &[tag_hint(sources.request_profile())]);
    }
    push_unknown_attribute(alloc, help, sources, name)
}

/// What is shown of a pair, and of the line from the place of its fault on.
#[derive(Clone, Copy)]
struct ShownPair<'a> {
    name: &'a str,
    value: &'a str,
    rest: &'a str,
}

// What was found, and what to do, by the fault's kind.
fn push_sentences(
    alloc: Global,
    help: &mut Vec<u8>,
    kind: LineKind,
    sources: &Sources<'_>,
    pair: ShownPair<'_>,
) -> Result<(), AllocError> {
    let ShownPair { name, value, rest } = pair;
    if matches!(kind, LineKind::Unknown | LineKind::Unreadable)
        && let Some(advice) = other_kind(sources.request.text, rest)
    {
        return push_all(help, &[advice, "\n"]);
    }
    match kind {
        LineKind::Unknown => push_unknown(alloc, help, sources, name),
        LineKind::NotValue if name == HIDDEN => {
            push_all(help, &["found ", value, ", which is no value here\n"])
        }
        LineKind::NotValue => {
            push_not_value(alloc, help, sources, sources.request_profile(), name, value)
        },
        LineKind::Unreadable => push_all(
            help,
            &[
                "a line is Name = value, with a comma between two pairs\n",
                unreadable_hint(rest),
                "\n",
            ],
        ),
        _ => push_remedy(help, kind, name),
    }
}

// The sentences for a fault that does not hang on what the pair's text is.
fn push_remedy(help: &mut Vec<u8>, kind: LineKind, name: &str) -> Result<(), AllocError> {
    match kind {
        LineKind::TooLong => push_all(
            help,
            &[
                "a value of ",
                name,
                " has fewer octets than this text\nshorten it\n",
            ],
        ),
        LineKind::NotWritable => push_all(
            help,
            &[
                name,
                " is not written under this name\nwrite the name of what is in it, as \
            Cisco-AVPair for Vendor-Specific, or User-Password for Attr-2\n",
            ],
        ),
        LineKind::SecondPacket => push_all(
            help,
            &[
                "a blank line ended the request, and another one begins\ngive each a file of its own; \
                radpolicy-replay reads them all, and radpolicy-walk the second with --record 2\n",
            ],
        ),
        LineKind::TooMany => push_all(help, &["a request has at most 4096 attributes\n"]),
        LineKind::Unknown | LineKind::NotValue | LineKind::Unreadable | LineKind::Memory => Ok(()),
    }
}

// How many octets of a text are before the line of a place.
fn start_of_line(text: &[u8], offset: usize) -> usize {
    let before = text.get(..offset).unwrap_or(text);
    before.len().saturating_sub(last_line(before).len())
}

// The pair of a line in which a place is, whose line begins after so many octets of the text.
fn pair_at(text: &[u8], start: usize, offset: usize) -> WrittenPair<'_> {
    let line = first_line(text.get(start..).unwrap_or(&[]));
    pair_around(line, offset.saturating_sub(start))
}

// The same, as it is shown.
fn shown_pair<'a>(quoted: Quoted<'a>, offset: usize) -> ShownPair<'a> {
    let text = quoted.source.text;
    let start = start_of_line(text, offset);
    let pair = pair_at(text, start, offset);
    let name_offset = start.saturating_add(pair.name_offset);
    let value_offset = start.saturating_add(pair.value_offset);
    ShownPair {
        name: quoted.hidden.shown(text, name_offset, text_of(pair.name)),
        value: quoted.hidden.shown(text, value_offset, text_of(pair.value)),
        rest: text_of(first_line(text.get(offset..).unwrap_or(&[]))),
    }
}

// The name at the place of a fault, if it is near to that of a secret attribute.
fn misspelt_at<'a>(
    alloc: Global,
    secrets: &UnreadSecrets<'_>,
    text: &'a [u8],
    fault: LineFault,
) -> Result<&'a [u8], AllocError> {
    let name = pair_at(text, start_of_line(text, fault.offset), fault.offset).name;
    if fault.kind == LineKind::Unknown && is_near_secret(alloc, secrets, text_of(name))? {
        Ok(name)
    } else {
        Ok(&[])
    }
}

// Hides the value of a pair without a name at the place of a fault: nothing tells whose it is.
fn hide_nameless(hidden: &mut Hidden, text: &[u8], fault: LineFault) -> Result<(), AllocError> {
    let start = start_of_line(text, fault.offset);
    let pair = pair_at(text, start, fault.offset);
    if pair.name.is_empty() && !pair.value.is_empty() {
        hidden.add(start.saturating_add(pair.value_offset))?;
    }
    Ok(())
}

/// What is said of a fault of lines.
pub(crate) fn line_help(
    alloc: Global,
    fault: LineFault,
    source: Source<'_>,
    sources: &Sources<'_>,
    secrets: &UnreadSecrets<'_>,
) -> Result<Vec<u8>, AllocError> {
    let misspelt = misspelt_at(alloc, secrets, source.text, fault)?;
    let mut hidden = hidden_of(alloc, secrets, source.text, misspelt)?;
    hide_nameless(&mut hidden, source.text, fault)?;
    let quoted = Quoted {
        source,
        hidden: &hidden,
    };
    let mut help = Vec::new(alloc);
    push_place(alloc, &mut help, quoted, fault.offset)?;
    let pair = shown_pair(quoted, fault.offset);
    push_sentences(alloc, &mut help, fault.kind, sources, pair)?;
    if !sources.is_request_wider {
        push_unread_profile(&mut help, source.text)?;
    }
    Ok(help)
}
