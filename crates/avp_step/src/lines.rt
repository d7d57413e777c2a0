//! The edit of an update line.

ghost use Rattle.std.specs.Prelude.{◌≡◌, ◌+◌, ◌≤◌, IfOk, IsTrue, OnErr};
ghost use Rattle.avp_unlang.specs.Captures.{filled};
ghost use Rattle.avp_unlang.specs.Resolutions.{line_suits};
ghost use Rattle.avp_step.specs.Trace.{reason_number};
ghost use Rattle.avp_step.specs.internal.Courses.{IsLineDone, StatesFit};

use avp_dict::Dictionary;
use avp_lists::{Edit, EditFault, Store};
use avp_unlang::{Captured, Line, Reason, Unresolved, resolve_by};
use std::alloc::{AllocError, Global};

/// The number that a label gives a reason.
pub fn reason_number(reason: Reason) -> u8
    ensures { result ≡ reason_number reason }
{
    match reason {
        Reason::Absent => 1,
        Reason::NotValue => 2,
        Reason::TooLong => 3,
        Reason::Full => 4,
    }
}

/// Edits by a line, with what was captured put into its text, or gives the reason why it fails.
pub fn edit_by<S: Store>(
    alloc: Global,
    dictionary: &Dictionary,
    store: &mut S,
    line: &Line,
    captured: &Captured,
) -> Result<Option<Reason>, AllocError>
    requires line { IsTrue (line_suits dictionary.now line.now) }
    requires states { StatesFit dictionary.now (S.history store.old) }
    ensures done { IfOk result (λ failed. IsLineDone dictionary.now
        (filled captured.now.captures line.now) (S.history store.old) (S.history store.new)
        failed) }
    ensures fit { StatesFit dictionary.now (S.history store.new) }
    ensures refused { OnErr result (S.history store.new ≡ S.history store.old) }
    ensures kept { (S.history store.old).place + S.room store.old
        ≤ (S.history store.new).place + S.room store.new }
{
    match resolve_by(alloc, dictionary, line, store, captured) {
        Ok(pair) => {
            let edit = Edit {
                list: line.list,
                op: line.op,
                pair,
            };
            match store.edit_selected(edit, line.selection) {
                Ok(()) => Ok(None),
                Err(EditFault::Full) => Ok(Some(Reason::Full)),
                Err(EditFault::Memory) => Err(AllocError),
            }
        }
        Err(Unresolved::Absent) => Ok(Some(Reason::Absent)),
        Err(Unresolved::NotValue) => Ok(Some(Reason::NotValue)),
        Err(Unresolved::TooLong) => Ok(Some(Reason::TooLong)),
        Err(Unresolved::Memory) => Err(AllocError),
    }
}
