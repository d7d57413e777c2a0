//! Why a step did what it did.

use crate::commands::Command;
use crate::instances::instances_text;
use crate::sessions::Session;
use crate::showings::{push_number, push_step};
use crate::sources::{SourceLines, named_in};
use crate::steps::{Step, line_of};
use avp_step::Label;
use radpolicy::code_text;
use radpolicy_common::reason_text;
use std::alloc::{AllocError, Global};

// Words, the number of a line, and words.
fn push_words(
    text: &mut Vec<u8>,
    before: &str,
    line: usize,
    after: &str,
) -> Result<(), AllocError> {
    text.extend_from_slice(before.as_bytes())?;
    push_number(text, line)?;
    text.extend_from_slice(after.as_bytes())?;
    Ok(())
}

fn push_failure(text: &mut Vec<u8>, line: usize, reason: u8) -> Result<(), AllocError> {
    push_words(text, "the update line ", line, " failed: ")?;
    text.extend_from_slice(
        reason_text(reason)
            .unwrap_or("for no known reason")
            .as_bytes(),
    )?;
    push_words(
        text,
        " (P",
        usize::from(reason),
        "); the update is taken back\n",
    )
}

fn push_word(text: &mut Vec<u8>, line: usize, step: Step) -> Result<(), AllocError> {
    push_words(text, "the word on line ", line, " sets the code to ")?;
    text.extend_from_slice(code_text(step.code).as_bytes())?;
    text.extend_from_slice(b"\n")?;
    Ok(())
}

// What stopped a transaction: the step before.
fn push_rollback(text: &mut Vec<u8>, session: &Session<'_>, line: usize) -> Result<(), AllocError> {
    push_words(
        text,
        "the transaction on line ",
        line,
        " is taken back after\n  ",
    )?;
    let before = session.position().saturating_sub(1);
    if let Some(step) = session.steps().get(before) {
        push_step(text, before, session.last_position(), *step)?;
    }
    text.extend_from_slice(b"\n")?;
    Ok(())
}

// What a step did.
fn push_reason(text: &mut Vec<u8>, session: &Session<'_>) -> Result<(), AllocError> {
    let step = session.step();
    match step.label {
        Label::Start => Ok(text.extend_from_slice(b"the run begins here\n")?),
        Label::Line(line) => push_words(text, "the update line ", line, " was made\n"),
        Label::Failed(line, reason) => push_failure(text, line, reason),
        Label::If(line, true) => push_words(text, "the condition on line ", line, " is true\n"),
        Label::If(line, false) => push_words(text, "the condition on line ", line, " is false\n"),
        Label::Word(line) => push_word(text, line, step),
        Label::Enter(line) => push_words(text, "into the transaction on line ", line, "\n"),
        Label::Commit(line) => push_words(text, "the transaction on line ", line, " is kept\n"),
        Label::Rollback(line) => push_rollback(text, session, line),
    }
}

// The instances of the attributes that a line of the policy names.
fn push_named(
    text: &mut Vec<u8>,
    session: &Session<'_>,
    line: &[u8],
    shown: &[u8],
) -> Result<(), AllocError> {
    let alloc = *text.allocator();
    for id in named_in(alloc, session.dictionary(), line, shown)? {
        text.extend_from_slice(&instances_text(alloc, session, id)?)?;
    }
    Ok(())
}

// Whether a step reads attributes: it tests them, or puts one into a list.
fn reads_attributes(label: Label) -> bool {
    matches!(
        label,
        Label::If(_, _) | Label::Failed(_, _) | Label::Line(_)
    )
}

/// What the step at the place did, and why: of an update line that failed the reason; of a condition its truth; of a
/// transaction that was taken back the step that stopped it. Below it are the attributes that the line names, as the
/// lists had them before the step: the policy's lines are given as they were read, and as they are shown.
pub fn why_text(
    alloc: Global,
    session: &mut Session<'_>,
    sources: &SourceLines<'_>,
    shown: &SourceLines<'_>,
) -> Result<Vec<u8>, AllocError> {
    let mut text = Vec::new(alloc);
    push_reason(&mut text, session)?;
    let label = session.step().label;
    if reads_attributes(label)
        && let Some(number) = line_of(label)
        && let (Some(line), Some(shown)) = (sources.line(number), shown.line(number))
    {
        session.make(Command::Back(1))?;
        push_named(&mut text, session, line, shown)?;
        session.make(Command::Forward(1))?;
    }
    Ok(text)
}
