//! The lines of one run.

ghost use Rattle.std.specs.Prelude.{◌≡◌, IfOk, OnOk};
ghost use Rattle.avp_step.specs.Walk.{entry};
ghost use Rattle.radpolicy_changing_lines.specs.ChangingLines.{changing_line, instances_in, line_made, line_of, stopping_line};

use crate::instances::{are_same, instances};
use avp_lists::{AttrId, List, Pair, Pairs, Store};
use avp_step::{Label, Stepper};
use std::alloc::{AllocError, Global};

// The line of the policy's text that a step is on; the start is on none.
fn line_of(label: Label) -> Option<usize>
    ensures { result ≡ line_of label }
{
    match label {
        Label::Start => None,
        Label::Line(line)
        | Label::Failed(line, _)
        | Label::If(line, _)
        | Label::Word(line)
        | Label::Enter(line)
        | Label::Commit(line)
        | Label::Rollback(line) => Some(line),
    }
}

// The line of a step with this label, where the instances after it differ from those before it.
fn line_made(before: &[Pair], after: &[Pair], label: Label) -> Option<usize>
    ensures { result ≡ line_made before.now after.now label }
{
    if are_same(before, after) {
        None
    } else {
        line_of(label)
    }
}

// Copies of an attribute's instances in a list where a run is.
fn instances_here<S: Store>(
    alloc: Global,
    run: &Stepper<'_, S>,
    list: List,
    id: AttrId,
) -> Result<Pairs, AllocError>
    ensures { IfOk result (λ found. found ≡ instances_in list id (entry run.now)) }
{
    let found = instances(alloc, id, run.store(), list)?;
    Ok(found)
}

/// The line of the last step of a run that changed an attribute's instances in a list.
pub fn changing_line<S: Store>(
    alloc: Global,
    run: &mut Stepper<'_, S>,
    list: List,
    id: AttrId,
) -> Result<Option<usize>, AllocError>
    ensures line { IfOk result (λ line. line ≡ changing_line list id run.old.trace) }
    ensures trace { run.new.trace ≡ run.old.trace }
{
    // `position` ensures that the position is one of the trace's, which the proof needs.
    let _within = run.position();
    run.run_to_end()?;
    let mut after = instances_here(alloc, run, list, id)?;
    'steps: while run.position() > 0 {
        let label = run.label();
        let _ = run.back();
        let before = instances_here(alloc, run, list, id)?;
        if let Some(line) = line_made(before.as_slice(), after.as_slice(), label) {
            return Ok(Some(line));
        }
        after = before;
    }
    Ok(None)
}

/// The line that stopped a run; none where it went to the policy's end.
pub fn stopping_line<S: Store>(run: &mut Stepper<'_, S>) -> Result<Option<usize>, AllocError>
    ensures line { IfOk result (λ line. line ≡ stopping_line run.old.trace) }
    ensures trace { run.new.trace ≡ run.old.trace }
{
    run.run_to_end()?;
    if run.stopped() {
        Ok(line_of(run.label()))
    } else {
        Ok(None)
    }
}
