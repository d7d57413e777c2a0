//! How the lists at a position of a run come from those before.

ghost use Rattle.std.specs.Prelude.{◌≡◌, IfOk, IsTrue, None};
ghost use Rattle.radpolicy_page_data.specs.internal.Marks.{IsDifference};

use crate::splices::Splice;
use avp_lists::{Pair, State};
use std::alloc::AllocError;

/// How the lists at a position come from those before.
#[derive(Clone, Copy, Debug, Drop)]
pub enum Difference<'a> {
    /// They are those of this earlier position.
    Again(usize),
    /// Each is made from the one at the position before: the request list, the reply list and the control list.
    Spliced(Splice<'a>, Splice<'a>, Splice<'a>),
}

/// A transaction that is not at its end: the position of its first step, and the lists there.
#[derive(Drop)]
pub(crate) struct Mark {
    pub position: usize,
    pub lists: State,
}

// Whether no pair is gone and none came.
#[tactic(auto, using(crate::proofs::Markings::nothing_changed))]
fn is_same(before: &[Pair], after: &[Pair]) -> bool
    ensures { IsTrue result → before.now ≡ after.now }
{
    let splice = Splice::between(before, after);
    splice.gone == 0 && splice.came.len() < 1
}

fn are_same(before: &State, after: &State) -> bool
    ensures { IsTrue result → before.now ≡ after.now }
{
    is_same(before.request.as_slice(), after.request.as_slice())
        && is_same(before.reply.as_slice(), after.reply.as_slice())
        && is_same(before.control.as_slice(), after.control.as_slice())
}

fn spliced<'a>(before: &State, lists: &'a State) -> Difference<'a>
    ensures { IsDifference None before.now lists.now result }
{
    Difference::Spliced(
        Splice::between(before.request.as_slice(), lists.request.as_slice()),
        Splice::between(before.reply.as_slice(), lists.reply.as_slice()),
        Splice::between(before.control.as_slice(), lists.control.as_slice()),
    )
}

/// How lists come from those before, at the end of a transaction with this mark or at another step.
pub(crate) fn difference_of<'a>(
    mark: &Option<Mark>,
    before: &State,
    lists: &'a State,
) -> Difference<'a>
    ensures { IsDifference mark.now before.now lists.now result }
{
    match mark {
        Some(mark) if are_same(&mark.lists, lists) => Difference::Again(mark.position),
        _ => spliced(before, lists),
    }
}

/// Copies of lists.
pub(crate) fn copy_of(lists: &State) -> Result<State, AllocError>
    ensures { IfOk result (λ copy. copy ≡ lists.now) }
{
    Ok(State {
        request: lists.request.clone()?,
        reply: lists.reply.clone()?,
        control: lists.control.clone()?,
    })
}
