//! What becomes of records.

/// What became of a record.
#[derive(Clone, Copy, Debug, PartialEq, Eq)]
pub enum Verdict {
    /// The policy ran, and its answer was compared with none.
    Answered,
    /// Both policies ran, and came to the same; or the reply that was captured is the policy's.
    Same,
    /// Two policies answer it otherwise, or another reply was captured.
    Different,
    /// No reply was captured with which the policy's is compared.
    Unanswered,
    /// An Access-Challenge was captured, with which nothing is compared.
    Challenged,
    /// The line has no packet, or the packet was not taken, by both policies where two are compared; or what was
    /// captured is no reply to it.
    Refused,
    /// It was not asked for, and the policy did not run.
    LeftOut,
}
