//! The moves of a stepper to a position.

ghost use Rattle.std.specs.Prelude.{◌≡◌, ◌<◌, OnOk, IfOk, length, map, max, min};
ghost use Rattle.avp_step.specs.Trace.{Entry};
ghost use Rattle.radpolicy_walk_commands.specs.Steps.{step_of};
ghost use Rattle.avp_step.specs.Walk.{entry};

use crate::steps::Step;
use avp_lists::Store;
use avp_step::{Moved, Stepper};
use std::alloc::{AllocError, Global};

fn step_at<S: Store>(stepper: &Stepper<'_, S>) -> Step
    ensures { result ≡ step_of (entry stepper.now) }
{
    Step {
        label: stepper.label(),
        code: stepper.code(),
    }
}

/// Runs to the end, and gives the step of each position.
pub(crate) fn steps_to_end<S: Store>(
    alloc: Global,
    stepper: &mut Stepper<'_, S>,
) -> Result<Vec<Step>, AllocError>
    requires { stepper.old.position ≡ 0 }
    ensures steps { IfOk result (λ steps. steps.items ≡ map step_of stepper.old.trace) }
    ensures dictionary { stepper.new.dictionary ≡ stepper.old.dictionary }
    ensures trace { stepper.new.trace ≡ stepper.old.trace }
{
    // `position` ensures that the position is one of the trace's, which the proof needs.
    let _within = stepper.position();
    let mut steps = Vec::new(alloc);
    steps.push(step_at(stepper))?;
    'steps: while let Moved::To(_) = stepper.forward()? {
        steps.push(step_at(stepper))?;
    }
    Ok(steps)
}

// Forward to a position that is not before this one.
fn forward_to<S: Store>(stepper: &mut Stepper<'_, S>, position: usize) -> Result<(), AllocError>
    requires { position < length stepper.old.trace }
    ensures position { OnOk result (stepper.new.position ≡ max stepper.old.position position) }
    ensures dictionary { stepper.new.dictionary ≡ stepper.old.dictionary }
    ensures trace { stepper.new.trace ≡ stepper.old.trace }
{
    'steps: while stepper.position() < position {
        let _ = stepper.forward()?;
    }
    Ok(())
}

// Back to a position that is not after this one.
fn back_to<S: Store>(stepper: &mut Stepper<'_, S>, position: usize)
    ensures position { stepper.new.position ≡ min stepper.old.position position }
    ensures dictionary { stepper.new.dictionary ≡ stepper.old.dictionary }
    ensures trace { stepper.new.trace ≡ stepper.old.trace }
{
    'steps: while position < stepper.position() {
        let _ = stepper.back();
    }
}

/// To a position of the run.
pub(crate) fn go_to<S: Store>(
    stepper: &mut Stepper<'_, S>,
    position: usize,
) -> Result<(), AllocError>
    requires { position < length stepper.old.trace }
    ensures position { OnOk result (stepper.new.position ≡ position) }
    ensures dictionary { stepper.new.dictionary ≡ stepper.old.dictionary }
    ensures trace { stepper.new.trace ≡ stepper.old.trace }
{
    forward_to(stepper, position)?;
    back_to(stepper, position);
    Ok(())
}
