//! What steps and moves of a run are called.

/// What a step of a run did, with the line of the policy's text.
#[derive(Clone, Copy, Debug, PartialEq, Eq)]
pub enum Label {
    /// Nothing yet.
    Start,
    /// An update line that succeeded.
    Line(usize),
    /// An update line that failed, and the number of the reason: 1 an absent source, 2 not a value, 3 too long, 4 a full
    /// list. The lists are those at the update's entry.
    Failed(usize, u8),
    /// A condition of an `if` or `elsif`, and whether it was true.
    If(usize, bool),
    /// A word.
    Word(usize),
    /// Into a transaction, by the line of its keyword.
    Enter(usize),
    /// Out of a transaction whose body did not stop.
    Commit(usize),
    /// Out of a transaction whose body stopped; the lists are those at its entry.
    Rollback(usize),
}

/// What a step forward came to.
#[derive(Clone, Copy, Debug, PartialEq, Eq)]
pub enum Moved {
    /// It made or repeated the step with this label.
    To(Label),
    /// The run is at its end.
    AtEnd,
}

/// A move of a stepper.
#[derive(Clone, Copy, Debug, PartialEq, Eq)]
pub enum Move {
    /// One step forward.
    Forward,
    /// One step back.
    Back,
    /// Back to the start.
    Start,
    /// Forward to the end.
    End,
}
