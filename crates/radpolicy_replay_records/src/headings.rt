//! What is said of records before their answers.

ghost use Rattle.std.specs.Prelude.{◌≡◌, ◌++◌, IfOk, OnOk};
ghost use Rattle.radpolicy_replay_records.specs.Headings.{heading, in_brackets, lines_shown, name_of, request_member};

use crate::json_members::push_lines_member;
use crate::layouts::without_last;
use avp_lists::AttrId;
use radpolicy_record_answers::{Entry, RecordSecret, Shown, push_in_row, push_name};
use std::alloc::{AllocError, Global};

/// The name of a record with this number.
pub(crate) fn name_of(alloc: Global, number: u64, entry: &Entry) -> Result<Vec<u8>, AllocError>
    ensures { IfOk result (λ name. name.items ≡ name_of number entry.now) }
{
    let mut name = Vec::new(alloc);
    push_name(&mut name, number, entry.identifier.as_slice())?;
    Vec::from_slice(alloc, without_last(&name))
}

// Lines in brackets with a blank after them; nothing where there is no line.
fn push_in_brackets(text: &mut Vec<u8>, lines: &[u8]) -> Result<(), AllocError>
    ensures { OnOk result (text.new.items ≡ text.old.items ++ in_brackets lines.now) }
{
    if let [] = lines {
        return Ok(());
    }
    text.extend_from_slice(b"[")?;
    push_in_row(text, without_last(lines))?;
    text.extend_from_slice(b"] ")?;
    Ok(())
}

/// The name of a record with this number and what is shown of its request, each with a blank after it.
#[tactic(auto, unfolding(crate::specs::Headings::heading))]
pub(crate) fn heading(
    alloc: Global,
    shown: &Shown<'_>,
    number: u64,
    secret: &RecordSecret<'_>,
    entry: &Entry,
) -> Result<Vec<u8>, AllocError>
    ensures { IfOk result (λ text.
        text.items ≡ heading shown.now number secret.now entry.now) }
{
    let lines = shown.lines(alloc, secret, entry)?;
    let mut text = Vec::new(alloc);
    push_name(&mut text, number, entry.identifier.as_slice())?;
    push_in_brackets(&mut text, &lines)?;
    Ok(text)
}

fn push_lines_shown(text: &mut Vec<u8>, ids: &[AttrId], lines: &[u8]) -> Result<(), AllocError>
    ensures { OnOk result (text.new.items ≡ text.old.items ++ lines_shown ids.now lines.now) }
{
    if let [] = ids {
        return Ok(());
    }
    push_lines_member(text, b"request", 0, lines)
}

/// Adds what is shown of a request as a member of an object, where attributes are shown.
#[tactic(auto, unfolding(crate::specs::Headings::request_member))]
pub(crate) fn push_request_member(
    text: &mut Vec<u8>,
    shown: &Shown<'_>,
    secret: &RecordSecret<'_>,
    entry: &Entry,
) -> Result<(), AllocError>
    ensures { OnOk result (text.new.items
        ≡ text.old.items ++ request_member shown.now secret.now entry.now) }
{
    let lines = shown.lines(*text.allocator(), secret, entry)?;
    push_lines_shown(text, shown.ids, &lines)
}
