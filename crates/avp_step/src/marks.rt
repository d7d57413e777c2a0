//! What a position of a run keeps beside its lists.

use crate::labels::Label;
use avp_unlang::Code;

/// What a step did, the code after it, and whether it was a stop.
#[derive(Clone, Copy)]
pub struct Mark {
    pub label: Label,
    pub code: Code,
    pub stopped: bool,
}

/// The mark of a run that has made no step.
pub const START: Mark = Mark {
    label: Label::Start,
    code: Code::Ok,
    stopped: false,
};
