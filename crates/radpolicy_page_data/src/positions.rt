//! The positions of a run as JSON.

ghost use Rattle.std.specs.Prelude.{◌≡◌, ◌++◌, ◌+◌, ◌-◌, IfErr, IfOk, List as Listed, OnOk, length};
ghost use Rattle.std.specs.List.{flat_map};
ghost use Rattle.avp_lists.specs.History.{present};
ghost use Rattle.avp_step.specs.Walk.{IsWithin, entry};
ghost use Rattle.avp_unlang.specs.Resolutions.{StateFits};
ghost use Rattle.radpolicy_common.specs.ChangeTexts.{AllFit, Fits};
ghost use Rattle.avp_step.specs.Trace.{Entry};
ghost use Rattle.radpolicy.specs.Scripts.{label_text};
ghost use Rattle.radpolicy_page_data.specs.Differences.{lists_at};
ghost use Rattle.radpolicy_page_data.specs.Embedding.{string_text};
ghost use Rattle.radpolicy_page_data.specs.Positions.{ArePositions, IsTooLarge, difference_text, pair_item, position_text, separator, splice_text};
ghost use Rattle.radpolicy_common.specs.Secrets.{Redaction as Shown};
ghost use Rattle.radpolicy_page_data.specs.internal.Marks.{AreMarks, IsMarkIfGiven};
ghost use Rattle.radpolicy_page_data.specs.internal.Writing.{DifferenceFits, IsWritten};

use crate::differences::{Difference, Mark, copy_of, difference_of};
use crate::faults::PageFault;
use crate::json::{push_number, push_string};
use crate::splices::Splice;
use avp_lists::{List, Pair, Pairs, SlotStore, State, Store};
use avp_step::{Label, Moved, Stepper};
use radpolicy::{code_text, push_label};
use radpolicy_common::Redaction;
use std::alloc::{AllocError, Global};

/// The most octets of the positions that are written.
pub(crate) const MAX_POSITIONS_TEXT: usize = 48_000_000;

fn push_pair(text: &mut Vec<u8>, redaction: &Redaction<'_>, pair: &Pair) -> Result<(), AllocError>
    requires { Fits redaction.now.dictionary pair.now }
    ensures { OnOk result (text.new.items ≡ text.old.items ++ pair_item redaction.now pair.now) }
{
    let pair = redaction.pair_text(*text.allocator(), pair)?;
    text.extend_from_slice(b",")?;
    push_string(text, &pair)
}

fn push_pairs(
    text: &mut Vec<u8>,
    redaction: &Redaction<'_>,
    pairs: &[Pair],
) -> Result<(), AllocError>
    requires { AllFit redaction.now.dictionary pairs.now }
    ensures { OnOk result
        (text.new.items ≡ text.old.items ++ flat_map (pair_item redaction.now) pairs.now) }
{
    for pair in pairs {
        push_pair(text, redaction, pair)?;
    }
    Ok(())
}

fn push_splice(
    text: &mut Vec<u8>,
    redaction: &Redaction<'_>,
    splice: &Splice<'_>,
) -> Result<(), AllocError>
    requires { AllFit redaction.now.dictionary splice.now.came.now }
    ensures { OnOk result (text.new.items
        ≡ text.old.items ++ splice_text redaction.now splice.now) }
{
    text.extend_from_slice(b"[")?;
    push_number(text, splice.at)?;
    text.extend_from_slice(b",")?;
    push_number(text, splice.gone)?;
    push_pairs(text, redaction, splice.came)?;
    text.extend_from_slice(b"]")
}

fn push_difference(
    text: &mut Vec<u8>,
    redaction: &Redaction<'_>,
    difference: &Difference<'_>,
) -> Result<(), AllocError>
    requires { DifferenceFits redaction.now.dictionary difference.now }
    ensures { OnOk result
        (text.new.items ≡ text.old.items ++ difference_text redaction.now difference.now) }
{
    match difference {
        Difference::Again(earlier) => push_number(text, *earlier),
        Difference::Spliced(request, reply, control) => {
            push_splice(text, redaction, request)?;
            text.extend_from_slice(b",")?;
            push_splice(text, redaction, reply)?;
            text.extend_from_slice(b",")?;
            push_splice(text, redaction, control)
        }
    }
}

fn push_separator(text: &mut Vec<u8>, position: usize) -> Result<(), AllocError>
    ensures { OnOk result (text.new.items ≡ text.old.items ++ separator position) }
{
    if position == 0 {
        Ok(())
    } else {
        text.extend_from_slice(b",")
    }
}

fn push_label_string(text: &mut Vec<u8>, label: Label) -> Result<(), AllocError>
    ensures { OnOk result (text.new.items ≡ text.old.items ++ string_text (label_text label)) }
{
    let mut own = Vec::new(*text.allocator());
    push_label(&mut own, label)?;
    push_string(text, &own)
}

// The lists at the place of a run.
fn lists_of(store: &SlotStore) -> Result<State, AllocError>
    ensures { IfOk result (λ lists. lists
        ≡ present (⟦<SlotStore as Store>⟧.history store.now)) }
{
    Ok(State {
        request: Pairs::from_vec(store.list(List::Request)?),
        reply: Pairs::from_vec(store.list(List::Reply)?),
        control: Pairs::from_vec(store.list(List::Control)?),
    })
}

fn push_position(
    text: &mut Vec<u8>,
    redaction: &Redaction<'_>,
    stepper: &Stepper<'_, SlotStore>,
    difference: &Difference<'_>,
) -> Result<(), AllocError>
    requires { DifferenceFits redaction.now.dictionary difference.now }
    ensures { OnOk result (text.new.items ≡ text.old.items
        ++ position_text redaction.now stepper.now.position (entry stepper.now) difference.now) }
{
    push_separator(text, stepper.position())?;
    text.extend_from_slice(b"[")?;
    push_label_string(text, stepper.label())?;
    text.extend_from_slice(b",")?;
    push_string(text, code_text(stepper.code()).as_bytes())?;
    text.extend_from_slice(b",")?;
    push_difference(text, redaction, difference)?;
    text.extend_from_slice(b"]")
}

// The mark of the transaction that ends with the step, if one does.
#[tactic(auto, using(crate::proofs::Markings::left, crate::proofs::Markings::taken))]
fn take_mark(marks: &mut Vec<Mark>, stepper: &Stepper<'_, SlotStore>) -> Option<Mark>
    requires { AreMarks stepper.now.trace stepper.now.position marks.old.items }
    ensures left { AreMarks stepper.now.trace stepper.now.position marks.new.items }
    ensures taken { IsMarkIfGiven stepper.now.trace stepper.now.position result }
{
    match stepper.label() {
        Label::Commit(_) | Label::Rollback(_) => marks.pop(),
        Label::Start
        | Label::Line(_)
        | Label::Failed(_, _)
        | Label::If(_, _)
        | Label::Word(_)
        | Label::Enter(_) => None,
    }
}

// A mark, where a transaction begins.
#[tactic(auto, using(crate::proofs::Markings::later, crate::proofs::Markings::with_one))]
fn put_mark(
    marks: &mut Vec<Mark>,
    stepper: &Stepper<'_, SlotStore>,
    lists: &State,
) -> Result<(), AllocError>
    requires marks { AreMarks stepper.now.trace stepper.now.position marks.old.items }
    requires lists { lists.now ≡ lists_at stepper.now.trace stepper.now.position }
    ensures { OnOk result (AreMarks stepper.now.trace (stepper.now.position + 1) marks.new.items) }
{
    if let Label::Enter(_) = stepper.label() {
        let (position, lists) = (stepper.position(), copy_of(lists)?);
        marks.push(Mark { position, lists })?;
    }
    Ok(())
}

// The positions that are written, and what is known at the last of them.
#[derive(Drop)]
struct Written {
    text: Vec<u8>,
    lists: State,
    marks: Vec<Mark>,
}

// The position at which the run is, after those before it.
#[tactic(auto, using(crate::proofs::Markings::is_made, crate::proofs::Writings::written_more, crate::proofs::Writings::lists_then))]
fn write_position(
    written: &mut Written,
    redaction: &Redaction<'_>,
    stepper: &Stepper<'_, SlotStore>,
) -> Result<(), AllocError>
    requires dictionary { redaction.now.dictionary ≡ stepper.now.dictionary }
    requires before { IsWritten redaction.now stepper.now.trace stepper.now.position written.old }
    ensures { OnOk result
        (IsWritten redaction.now stepper.now.trace (stepper.now.position + 1) written.new) }
{
    let lists = lists_of(stepper.store())?;
    let mark = take_mark(&mut written.marks, stepper);
    let difference = difference_of(&mark, &written.lists, &lists);
    push_position(&mut written.text, redaction, stepper, &difference)?;
    put_mark(&mut written.marks, stepper, &lists)?;
    written.lists = lists;
    Ok(())
}

fn nothing_written(alloc: Global) -> Written
    ensures { (redaction : Shown) → (trace : Listed Entry) → IsWritten redaction trace 0 result }
{
    Written {
        text: Vec::new(alloc),
        lists: State {
            request: Pairs::from_vec(Vec::new(alloc)),
            reply: Pairs::from_vec(Vec::new(alloc)),
            control: Pairs::from_vec(Vec::new(alloc)),
        },
        marks: Vec::new(alloc),
    }
}

/// The positions of a run as JSON, and the lists at its end.
pub(crate) fn positions_text(
    alloc: Global,
    redaction: &Redaction<'_>,
    stepper: &mut Stepper<'_, SlotStore>,
) -> Result<(Vec<u8>, State), PageFault>
    requires start { stepper.old.position ≡ 0 }
    requires dictionary { redaction.now.dictionary ≡ stepper.old.dictionary }
    ensures text { IfOk result (λ r. ArePositions redaction.now stepper.old.trace
        (length stepper.old.trace) r.0.items) }
    ensures lists { IfOk result (λ r. r.1
        ≡ lists_at stepper.old.trace (length stepper.old.trace - 1)) }
    ensures fit { IfOk result (λ r. StateFits stepper.old.dictionary r.1) }
    ensures large { IfErr result (λ fault. fault ≡ PageFault.TooLarge
        → IsTooLarge redaction.now stepper.old.trace) }
{
    // `position` ensures that the position is one of the trace's, which the proof needs.
    let _within = stepper.position();
    let mut written = nothing_written(alloc);
    write_position(&mut written, redaction, stepper)?;
    'steps: while let Moved::To(_) = stepper.forward()? {
        if written.text.len() > MAX_POSITIONS_TEXT {
            return Err(PageFault::TooLarge);
        }
        write_position(&mut written, redaction, stepper)?;
    }
    let lists = lists_of(stepper.store())?;
    let Written {
        text,
        lists: _,
        marks: _,
    } = written;
    Ok((text, lists))
}
