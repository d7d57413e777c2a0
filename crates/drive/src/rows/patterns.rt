//! Patterns, and what they match.

use super::words::first_word;
use avp_patterns::{MAX_GROUPS, Pattern, PatternFlags, check_pattern};
use std::alloc::Global;
use std::io;
use std::io::Write;

fn flags_of(word: &[u8]) -> PatternFlags {
    PatternFlags {
        ignore_case: word.contains(&b'i'),
        multi_line: word.contains(&b'm'),
    }
}

/// `pattern`: what the check of its text says, and then the size of what is compiled of it, or why it is refused. The
/// pattern.
pub fn read<W: Write>(out: &mut W, alloc: Global, text: &[u8]) -> io::Result<Option<Pattern>> {
    let (flags, text) = first_word(text);
    let flags = flags_of(flags);
    match check_pattern(alloc, text, flags) {
        Ok(()) => out.write_all(b"a pattern, ")?,
        Err(fault) => write!(out, "{fault:?}: {fault}, ")?,
    }
    match Pattern::read(alloc, text, flags) {
        Ok(pattern) => {
            write!(out, "{} KiB", pattern.size() >> 10)?;
            Ok(Some(pattern))
        }
        Err(fault) => {
            write!(out, "{fault:?}")?;
            Ok(None)
        }
    }
}

// The groups that took part, each by its number, with where it begins and ends.
fn write_groups<W: Write>(
    out: &mut W,
    groups: &[Option<(usize, usize)>; MAX_GROUPS],
) -> io::Result<()> {
    for (number, group) in groups.iter().enumerate() {
        if let Some((begin, end)) = group {
            write!(out, " {number}:{begin}-{end}")?;
        }
    }
    Ok(())
}

/// `match`: whether a pattern matches some of the octets, and the groups of the leftmost match.
pub fn write_match<W: Write>(
    out: &mut W,
    alloc: Global,
    pattern: &Pattern,
    octets: &[u8],
) -> io::Result<()> {
    let mut matcher = pattern.matcher(alloc)?;
    write!(out, "{}", matcher.is_match(octets))?;
    match matcher.captures(octets) {
        Some(groups) => write_groups(out, &groups),
        None => out.write_all(b" -"),
    }
}
