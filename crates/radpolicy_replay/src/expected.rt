//! An earlier output, with which this one is compared.

use crate::PROGRAM;
use crate::places::shown;
use radpolicy::Fault;
use radpolicy_common::{Redaction, SecretValues, Unread, refuse_early, unread_shown};
use radpolicy_help::refuse_unread_explained;
use std::alloc::{AllocError, Global};
use std::fs::File;
use std::io;
use std::io::{BufReader, ErrorKind};
use text_comparison::OtherLine;

/// The status where a record is answered otherwise, or by --strict refused, or where the output is not as expected.
pub const DIFFERENT: u8 = 1;

/// Opens the earlier output, if one is named.
pub fn open_expected<'a>(
    rt: &HostRuntime,
    path: Option<&'a str>,
) -> Result<Option<BufReader<File>>, Unread<'a>> {
    let Some(path) = path else {
        return Ok(None);
    };
    let Ok(file) = File::open(rt, path) else {
        return Err(Unread::File(path));
    };
    match BufReader::new(rt.alloc(), file) {
        Ok(earlier) => Ok(Some(earlier)),
        Err(_) => Err(Unread::Memory),
    }
}

// The sign before a line that is told of a test, which would begin a comment in a policy, and what is behind it.
fn around_sign(line: &[u8]) -> (&[u8], &[u8]) {
    let length = if line.starts_with(b"# ") { 2 } else { 0 };
    line.split_at(length.min(line.len()))
}

// A line as it is shown: without the values that stand beside names of secret attributes.
fn shown_line(
    alloc: Global,
    redaction: &Redaction<'_>,
    line: &Option<Vec<u8>>,
) -> Result<String, AllocError> {
    match line {
        Some(octets) => {
            let (sign, rest) = around_sign(octets);
            let mut text = Vec::from_slice(alloc, sign)?;
            text.extend_from_slice(&unread_shown(alloc, redaction, rest)?)?;
            shown(alloc, &text)
        }
        None => String::from_str(alloc, "(no line)"),
    }
}

// Whether something of a line of this output is hidden.
fn hides_something(line: &[u8]) -> bool {
    line.windows(8).any(|part| part.starts_with(b"(hidden)") || part.starts_with(b"(secret)"))
}

// The line of the earlier output as it is shown. That output may be of a version that hid less, so where something of the
// line is hidden now, all of it is.
fn shown_earlier(
    alloc: Global,
    redaction: &Redaction<'_>,
    other: &OtherLine,
) -> Result<String, AllocError> {
    match (&other.earlier, &other.current, redaction.secrets()) {
        (Some(_), Some(current), SecretValues::Hidden) if hides_something(current) => {
            String::from_str(alloc, "(hidden)")
        }
        (earlier, _, _) => shown_line(alloc, redaction, earlier),
    }
}

// What is said where both lines are shown alike: they differ behind what is kept of them, or in what is not shown.
fn where_alike(other: &OtherLine) -> &'static str {
    if other.earlier == other.current {
        ", but for its end"
    } else {
        ", but for what is not shown"
    }
}

// Says which line differs.
fn show_other(
    rt: &HostRuntime,
    redaction: &Redaction<'_>,
    path: &str,
    other: &OtherLine,
) -> Result<(), AllocError> {
    let number = other.number;
    let path = shown(rt.alloc(), path.as_bytes())?;
    let expected = shown_earlier(rt.alloc(), redaction, other)?;
    let now = shown_line(rt.alloc(), redaction, &other.current)?;
    let how = if expected.as_str() == now.as_str() {
        where_alike(other)
    } else {
        ""
    };
    let _ = eprintln!(rt; "{path}:{number}: expected {expected} / now {now}{how}");
    Ok(())
}

/// The status of a replay that ended with this one, where its output differs first in this line from the earlier one.
pub fn expected_status(
    rt: &HostRuntime,
    redaction: &Redaction<'_>,
    path: &str,
    other: io::Result<Option<OtherLine>>,
    ended: u8,
) -> u8 {
    match other {
        _ if ended > DIFFERENT => ended,
        Ok(None) => ended,
        Ok(Some(other)) => match show_other(rt, redaction, path, &other) {
            Ok(()) => DIFFERENT,
            Err(_) => refuse_early(rt, PROGRAM, &Fault::Memory),
        },
        Err(error) if error.kind() == ErrorKind::OutOfMemory => refuse_early(
            rt,
            PROGRAM,
            &Fault::Memory,
        ),
        Err(_) => refuse_unread_explained(rt, PROGRAM, Unread::File(path)),
    }
}
