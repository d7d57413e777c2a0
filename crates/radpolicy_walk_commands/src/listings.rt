//! What is shown of the lists, of the policy's text and of the whole run.

ghost use Rattle.std.specs.Prelude.{◌≡◌, IfOk, None};
ghost use Rattle.avp_unlang.specs.Resolutions.{StateFits};
ghost use Rattle.radpolicy_walk_commands.specs.Sessions.{lists_of};
ghost use Rattle.radpolicy_walk_commands.specs.Showings.{list_name, lists_text};

use crate::sessions::Session;
use crate::showings::{list_text, push_number, push_step};
use crate::sources::SourceLines;
use crate::steps::line_of;
use avp_lists::{List, State};
use radpolicy_common::Redaction;
use std::alloc::{AllocError, Global};

// How many lines of the policy are shown before and after one.
const LINES_AROUND: usize = 5;

// The number of a line is padded to this width.
const NUMBER_WIDTH: usize = 5;

/// The name of a list.
pub(crate) fn list_name(list: List) -> &'static str
    ensures { result.now ≡ list_name list }
{
    match list {
        List::Request => "request",
        List::Reply => "reply",
        List::Control => "control",
    }
}

// All three lists, each under its name.
fn all_lists_text(
    alloc: Global,
    redaction: &Redaction<'_>,
    lists: &State,
) -> Result<Vec<u8>, AllocError>
    requires { StateFits redaction.now.dictionary lists.now }
    ensures { IfOk result (λ text. text.items ≡ lists_text redaction.now None lists.now) }
{
    let mut text = list_text(alloc, redaction, "request", lists.request.as_slice())?;
    let reply = list_text(alloc, redaction, "reply", lists.reply.as_slice())?;
    let control = list_text(alloc, redaction, "control", lists.control.as_slice())?;
    text.extend_from_slice(&reply)?;
    text.extend_from_slice(&control)?;
    Ok(text)
}

/// A list at the place, or all three, each under its name.
pub fn lists_text(
    alloc: Global,
    session: &Session<'_>,
    which: Option<List>,
) -> Result<Vec<u8>, AllocError>
    ensures { IfOk result (λ text. text.items
        ≡ lists_text session.now.redaction which (lists_of session.now)) }
{
    let redaction = session.redaction();
    let lists = session.lists()?;
    match which {
        Some(list) => list_text(alloc, redaction, list_name(list), lists.list(list)),
        None => all_lists_text(alloc, redaction, &lists),
    }
}

// A number with blanks before it.
fn push_padded(text: &mut Vec<u8>, number: usize) -> Result<(), AllocError> {
    let mut digits = Vec::new(*text.allocator());
    push_number(&mut digits, number)?;
    for _ in digits.len()..NUMBER_WIDTH {
        text.push(b' ')?;
    }
    text.extend_from_slice(&digits)?;
    Ok(())
}

// A line of the policy after its number and a sign.
fn push_line(
    text: &mut Vec<u8>,
    sources: &SourceLines<'_>,
    sign: &[u8],
    number: usize,
) -> Result<(), AllocError> {
    if let Some(line) = sources.line(number) {
        text.extend_from_slice(sign)?;
        push_padded(text, number)?;
        text.extend_from_slice(b" | ")?;
        text.extend_from_slice(line)?;
        text.extend_from_slice(b"\n")?;
    }
    Ok(())
}

/// The line of the policy that the step at the place is on: `    8 |     Service-Type := Framed-User`. The start has
/// none.
pub fn source_text(
    alloc: Global,
    session: &Session<'_>,
    sources: &SourceLines<'_>,
) -> Result<Vec<u8>, AllocError> {
    let mut text = Vec::new(alloc);
    if let Some(line) = line_of(session.step().label) {
        push_line(&mut text, sources, b"", line)?;
    }
    Ok(text)
}

// `>` at the line of the step, `*` at a break.
fn sign_of(number: usize, line: usize, breaks: &[usize]) -> &'static [u8] {
    match (number == line, breaks.contains(&number)) {
        (true, true) => b">*",
        (true, false) => b"> ",
        (false, true) => b" *",
        (false, false) => b"  ",
    }
}

/// The policy around the line that the step at the place is on, or its first lines. The line has `>` before it, and
/// those with breaks `*`.
pub fn around_text(
    alloc: Global,
    session: &Session<'_>,
    sources: &SourceLines<'_>,
) -> Result<Vec<u8>, AllocError> {
    let line = line_of(session.step().label).unwrap_or(0);
    let first = line.saturating_sub(LINES_AROUND).max(1);
    let last = line.saturating_add(LINES_AROUND).min(sources.count());
    let mut text = Vec::new(alloc);
    for number in first..last.saturating_add(1) {
        let sign = sign_of(number, line, session.breaks());
        push_line(&mut text, sources, sign, number)?;
    }
    Ok(text)
}

/// The lines with breaks.
pub fn breaks_text(
    alloc: Global,
    session: &Session<'_>,
    sources: &SourceLines<'_>,
) -> Result<Vec<u8>, AllocError> {
    let mut text = Vec::new(alloc);
    for line in session.breaks() {
        push_line(&mut text, sources, b"", *line)?;
    }
    if text.is_empty() {
        text.extend_from_slice(b"no breaks\n")?;
    }
    Ok(text)
}

/// The whole run: a line for each position, with the line of the policy, and `>` before the place.
pub fn trace_text(
    alloc: Global,
    session: &Session<'_>,
    sources: &SourceLines<'_>,
) -> Result<Vec<u8>, AllocError> {
    let (place, last) = (session.position(), session.last_position());
    let mut text = Vec::new(alloc);
    let mut position: usize = 0;
    for step in session.steps() {
        text.extend_from_slice(if position == place { b"> " } else { b"  " })?;
        push_step(&mut text, position, last, *step)?;
        if let Some(line) = line_of(step.label).and_then(|line| sources.line(line)) {
            text.extend_from_slice(b" | ")?;
            text.extend_from_slice(line.trim_ascii())?;
        }
        text.extend_from_slice(b"\n")?;
        position = position.saturating_add(1);
    }
    Ok(text)
}
