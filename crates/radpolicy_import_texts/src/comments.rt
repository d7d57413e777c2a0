//! A policy that is put in the place of a module's call, with its comments.

use crate::concealed::HIDDEN;
use crate::names::SecretNames;
use avp_forms::profile_of;
use avp_unlang::first_token;
use radpolicy_common::{LineBreaks, visible_text};
use std::alloc::{AllocError, Global};

// Whether a comment is hidden.
fn is_hidden(hidden: Option<&SecretNames<'_>>, comment: &[u8]) -> Result<bool, AllocError> {
    match hidden {
        Some(names) => names.speaks(comment),
        None => Ok(false),
    }
}

// A line of what is between two tokens: blanks, and a comment if it has one.
fn push_line(
    out: &mut Vec<u8>,
    hidden: Option<&SecretNames<'_>>,
    line: &[u8],
) -> Result<(), AllocError> {
    let Some(begin) = line.iter().position(|octet| *octet == b'#') else {
        return out.extend_from_slice(line);
    };
    let (blanks, comment) = line.split_at(begin);
    out.extend_from_slice(blanks)?;
    if is_hidden(hidden, comment)? {
        out.extend_from_slice(b"# ")?;
        out.extend_from_slice(HIDDEN)
    } else {
        let alloc = *out.allocator();
        let shown = visible_text(alloc, comment.trim_ascii_end(), LineBreaks::Kept)?;
        out.extend_from_slice(&shown)
    }
}

// What is between two tokens.
fn push_gap(
    out: &mut Vec<u8>,
    hidden: Option<&SecretNames<'_>>,
    gap: &[u8],
) -> Result<(), AllocError> {
    for (at, line) in gap.split(|octet| *octet == b'\n').enumerate() {
        if at > 0 {
            out.push(b'\n')?;
        }
        push_line(out, hidden, line)?;
    }
    Ok(())
}

/// A policy that is read: its tokens as they are, and its comments without control characters, or as `# (hidden)` where
/// they speak of one of the names that are secret.
pub fn carried_policy(
    alloc: Global,
    hidden: Option<&SecretNames<'_>>,
    policy: &[u8],
) -> Result<Vec<u8>, AllocError> {
    let profile = profile_of(policy);
    let mut carried = Vec::new(alloc);
    let mut found = first_token(profile, policy);
    push_gap(
        &mut carried,
        hidden,
        &policy[..policy.len() - found.start.len()],
    )?;
    // (the end alone is a token without octets)
    while found.rest.len() < found.start.len() {
        let token = found.start.split_at(found.start.len() - found.rest.len()).0;
        carried.extend_from_slice(token)?;
        let next = first_token(profile, found.rest);
        let gap = found.rest.split_at(found.rest.len() - next.start.len()).0;
        push_gap(&mut carried, hidden, gap)?;
        found = next;
    }
    Ok(carried)
}
