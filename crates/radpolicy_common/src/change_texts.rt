//! The change from one list of pairs to the next, as lines.

ghost use Rattle.std.specs.Prelude.{◌≡◌, ◌++◌, IfOk, OnOk, All, codes};
ghost use Rattle.radpolicy_common.specs.ChangeTexts.{AllFit, Fits, FitsIn, change_line, change_text, pair_line};
ghost use Rattle.radpolicy_common.specs.Changes.{after_of, before_of};

use crate::change_lists::Change;
use crate::redactions::Redaction;
use avp_lists::Pair;
use std::alloc::{AllocError, Global};

/// A pair as [`Redaction::pair_text`] shows it, with a line feed.
pub fn pair_line(
    alloc: Global,
    redaction: &Redaction<'_>,
    pair: &Pair,
) -> Result<Vec<u8>, AllocError>
    requires { Fits redaction.now.dictionary pair.now }
    ensures { IfOk result (λ text. text.items ≡ pair_line redaction.now pair.now) }
{
    let mut text = redaction.pair_text(alloc, pair)?;
    text.extend_from_slice(b"\n")?;
    Ok(text)
}

// A sign, and a pair.
fn push_signed(
    text: &mut Vec<u8>,
    redaction: &Redaction<'_>,
    sign: &[u8],
    pair: &Pair,
) -> Result<(), AllocError>
    requires { Fits redaction.now.dictionary pair.now }
    ensures { OnOk result
        (text.new.items ≡ text.old.items ++ sign.now ++ pair_line redaction.now pair.now) }
{
    let line = pair_line(*text.allocator(), redaction, pair)?;
    text.extend_from_slice(sign)?;
    text.extend_from_slice(&line)
}

// The line of a change.
fn push_change(
    text: &mut Vec<u8>,
    redaction: &Redaction<'_>,
    change: &Change<'_>,
) -> Result<(), AllocError>
    requires { FitsIn redaction.now.dictionary change.now }
    ensures { OnOk result
        (text.new.items ≡ text.old.items ++ change_line redaction.now change.now) }
{
    match change {
        Change::Kept(_) => Ok(()),
        Change::Removed(pair) => push_signed(text, redaction, b"- ", pair),
        Change::Added(pair) => push_signed(text, redaction, b"+ ", pair),
    }
}

// The lines of the changes.
fn push_changes(
    text: &mut Vec<u8>,
    redaction: &Redaction<'_>,
    changes: &[Change<'_>],
) -> Result<(), AllocError>
    requires { All (FitsIn redaction.now.dictionary) changes.now }
    ensures { OnOk result
        (text.new.items ≡ text.old.items ++ change_text redaction.now changes.now) }
{
    for change in changes {
        push_change(text, redaction, change)?;
    }
    Ok(())
}

/// The lines `- Name = value` of what is removed and `+ Name = value` of what is added, in the order of the changes,
/// each with a line feed. Names and values are printed in the forms of the wider profile, hidden ones as `(hidden)`.
/// What is kept has no line.
pub fn change_lines(
    alloc: Global,
    redaction: &Redaction<'_>,
    changes: &[Change<'_>],
) -> Result<Vec<u8>, AllocError>
    requires before { AllFit redaction.now.dictionary (before_of changes.now) }
    requires after { AllFit redaction.now.dictionary (after_of changes.now) }
    ensures { IfOk result (λ text. text.items ≡ change_text redaction.now changes.now) }
{
    let mut text = Vec::new(alloc);
    push_changes(&mut text, redaction, changes)?;
    Ok(text)
}
