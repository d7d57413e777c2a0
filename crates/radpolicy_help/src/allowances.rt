//! Comments of a policy that silence warnings: `# allow: NAME`, at the end of a line for that line, and alone on a line
//! for the next.

use crate::texts::{push_all, push_number};
use avp_dict::next_line;
use avp_forms::{Profile, profile_of};
use std::alloc::{AllocError, Global};
use std::str;

/// A name that a comment allows, and where.
#[derive(Clone, Copy)]
pub(crate) struct Allowance<'a> {
    /// The line of the comment.
    pub(crate) line: usize,
    /// The line whose warnings are silenced.
    pub(crate) covered: usize,
    pub(crate) name: &'a str,
}

// Whether what is before a slash is the sign of a comparison with a regular expression.
fn is_match_sign(before: &[u8]) -> bool {
    let before = before.trim_ascii();
    before.ends_with(b"=~") || before.ends_with(b"!~")
}

// How many octets of a line are before its comment; all of them where it has none. Between quotes, and the slashes of a
// regular expression, `#` begins none.
fn comment_start(line: &[u8]) -> usize {
    let mut quote = None;
    let mut is_escaped = false;
    for (at, octet) in line.iter().enumerate() {
        match quote {
            Some(_) if is_escaped => is_escaped = false,
            Some(_) if *octet == b'\\' => is_escaped = true,
            Some(sign) if *octet == sign => quote = None,
            Some(_) => {}
            None if *octet == b'#' => return at,
            None if *octet == b'"' || *octet == b'\'' => quote = Some(*octet),
            None if *octet == b'/' && is_match_sign(line.split_at(at).0) => quote = Some(*octet),
            None => {}
        }
    }
    line.len()
}

// The comment of a line, and whether it is alone there.
fn comment_of(line: &[u8]) -> Option<(&str, bool)> {
    let (before, comment) = line.split_at(comment_start(line).min(line.len()));
    let text = match str::from_utf8(comment) {
        Ok(text) => text,
        Err(_) => return None,
    };
    Some((
        text.strip_prefix("#")?.trim(),
        before.trim_ascii().is_empty(),
    ))
}

/// The names that comments allow.
pub(crate) fn allowances(alloc: Global, text: &[u8]) -> Result<Vec<Allowance<'_>>, AllocError> {
    let mut found = Vec::new(alloc);
    let mut rest = text;
    let mut number: usize = 1;
    while let Some((line, after)) = next_line(rest) {
        let covered = number.saturating_add(1);
        if let Some((comment, is_alone)) = comment_of(line)
            && let Some(name) = comment.strip_prefix("allow:")
        {
            found.push(Allowance {
                line: number,
                covered: if is_alone { covered } else { number },
                name: name.trim(),
            })?;
        }
        number = covered;
        rest = after;
    }
    Ok(found)
}

// Whether a comment looks like `profile: wider`: it begins with `profile` and a colon, or has both words alone.
fn is_like_profile(comment: &str) -> bool {
    let (Some(front), Some(after)) = (comment.get(..7), comment.get(7..)) else {
        return false;
    };
    let after = after.trim();
    front.eq_ignore_ascii_case("profile")
        && (after.starts_with(":") || after.eq_ignore_ascii_case("wider"))
}

/// The line of a comment that looks like the line `# profile: wider` and is none, since it is not the first.
pub(crate) fn unread_profile(text: &[u8]) -> Option<usize> {
    let mut rest = text;
    let mut number: usize = 1;
    while let Some((line, after)) = next_line(rest) {
        if let Some((comment, _)) = comment_of(line)
            && is_like_profile(comment)
        {
            return Some(number);
        }
        number = number.saturating_add(1);
        rest = after;
    }
    None
}

/// Adds that a comment of a text does not choose the wider profile, if there is one that looks as if it did.
pub(crate) fn push_unread_profile(help: &mut Vec<u8>, text: &[u8]) -> Result<(), AllocError> {
    if profile_of(text) == Profile::Plain
        && let Some(line) = unread_profile(text)
    {
        push_all(help, &["the comment on line "])?;
        push_number(help, line)?;
        push_all(
            help,
            &[" does not choose a profile: write # profile: wider in the first line\n"],
        )?;
    }
    Ok(())
}
