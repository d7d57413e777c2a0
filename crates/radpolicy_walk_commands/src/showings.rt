//! What is shown of places and lists.

ghost use Rattle.std.specs.Prelude.{◌≡◌, ◌++◌, IfOk, OnOk, codes, decimal};
ghost use Rattle.avp_unlang.specs.Resolutions.{StateFits};
ghost use Rattle.radpolicy_common.specs.ChangeTexts.{AllFit, Fits};
ghost use Rattle.radpolicy_walk_commands.specs.Showings.{AreChanges, IsListChange, list_line, list_text, named_lines, step_text};

use crate::steps::Step;
use avp_lists::{Pair, State};
use itoa::Buffer;
use radpolicy::{code_text, push_label};
use radpolicy_common::{Redaction, change_lines, changes, pair_line};
use std::alloc::{AllocError, Global};

/// Appends a number in decimal digits.
pub(crate) fn push_number(text: &mut Vec<u8>, number: usize) -> Result<(), AllocError>
    ensures { OnOk result (text.new.items ≡ text.old.items ++ decimal number) }
{
    let mut digits = Buffer::new();
    text.extend_from_slice(digits.format(number).as_bytes())?;
    Ok(())
}

/// Appends a position, the last one and a step: `[3 of 17] line 8 ok`.
pub(crate) fn push_step(
    text: &mut Vec<u8>,
    position: usize,
    last: usize,
    step: Step,
) -> Result<(), AllocError>
    ensures { OnOk result (text.new.items ≡ text.old.items ++ step_text position last step) }
{
    text.extend_from_slice(b"[")?;
    push_number(text, position)?;
    text.extend_from_slice(b" of ")?;
    push_number(text, last)?;
    text.extend_from_slice(b"] ")?;
    push_label(text, step.label)?;
    text.extend_from_slice(b" ")?;
    text.extend_from_slice(code_text(step.code).as_bytes())?;
    Ok(())
}

fn push_pair(text: &mut Vec<u8>, redaction: &Redaction<'_>, pair: &Pair) -> Result<(), AllocError>
    requires { Fits redaction.now.dictionary pair.now }
    ensures { OnOk result (text.new.items ≡ text.old.items ++ list_line redaction.now pair.now) }
{
    let line = pair_line(*text.allocator(), redaction, pair)?;
    text.extend_from_slice(b"  ")?;
    text.extend_from_slice(&line)?;
    Ok(())
}

/// A list under its name, a line for each pair: `  Name = value`.
pub fn list_text(
    alloc: Global,
    redaction: &Redaction<'_>,
    name: &str,
    pairs: &[Pair],
) -> Result<Vec<u8>, AllocError>
    requires { AllFit redaction.now.dictionary pairs.now }
    ensures { IfOk result (λ text. text.items
        ≡ list_text redaction.now name.now pairs.now) }
{
    let mut text = Vec::new(alloc);
    text.extend_from_slice(name.as_bytes())?;
    text.extend_from_slice(b"\n")?;
    for pair in pairs {
        push_pair(&mut text, redaction, pair)?;
    }
    Ok(text)
}

// Lines under a name.
fn named_lines(alloc: Global, name: &str, lines: &[u8]) -> Result<Vec<u8>, AllocError>
    ensures { IfOk result (λ text. text.items ≡ named_lines name.now lines.now) }
{
    match lines {
        [] => Ok(Vec::new(alloc)),
        [_, ..] => {
            let room = name.len().saturating_add(1).saturating_add(lines.len());
            let mut text = Vec::with_capacity(alloc, room)?;
            text.extend_from_slice(name.as_bytes())?;
            text.extend_from_slice(b"\n")?;
            text.extend_from_slice(lines)?;
            Ok(text)
        }
    }
}

/// The lines of what changed from one list to another.
pub(crate) fn list_change(
    alloc: Global,
    redaction: &Redaction<'_>,
    name: &str,
    before: &[Pair],
    after: &[Pair],
) -> Result<Vec<u8>, AllocError>
    requires before { AllFit redaction.now.dictionary before.now }
    requires after { AllFit redaction.now.dictionary after.now }
    ensures { IfOk result (λ text.
        IsListChange redaction.now name.now before.now after.now text.items) }
{
    let changes = changes(alloc, before, after)?;
    let lines = change_lines(alloc, redaction, &changes)?;
    named_lines(alloc, name, &lines)
}

/// The lines of what changed from lists to others: of each list that changed its name, and then `- Name = value` for
/// what is gone and `+ Name = value` for what came.
pub fn change_text(
    alloc: Global,
    redaction: &Redaction<'_>,
    before: &State,
    after: &State,
) -> Result<Vec<u8>, AllocError>
    requires before { StateFits redaction.now.dictionary before.now }
    requires after { StateFits redaction.now.dictionary after.now }
    ensures { IfOk result (λ text.
        AreChanges redaction.now before.now after.now text.items) }
{
    let (old, new) = (before.request.as_slice(), after.request.as_slice());
    let mut text = list_change(alloc, redaction, "request", old, new)?;
    let (old, new) = (before.reply.as_slice(), after.reply.as_slice());
    let reply = list_change(alloc, redaction, "reply", old, new)?;
    let (old, new) = (before.control.as_slice(), after.control.as_slice());
    let control = list_change(alloc, redaction, "control", old, new)?;
    text.extend_from_slice(&reply)?;
    text.extend_from_slice(&control)?;
    Ok(text)
}
