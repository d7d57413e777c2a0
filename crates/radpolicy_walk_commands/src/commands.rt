//! The commands of a session.

use avp_lists::{AttrId, List};

/// A command.
#[derive(Clone, Copy, Debug, PartialEq, Eq)]
pub enum Command {
    /// So many steps forward, or to the last position before that.
    Forward(usize),
    /// So many steps back, or to the start before that.
    Back(usize),
    /// To the start.
    Start,
    /// To the last position.
    End,
    /// To this position, or to the last one where there are fewer.
    Goto(usize),
    /// Forward to the next step on a line with a break, else to the last position.
    Continue,
    /// Back to the nearest step on a line with a break, else to the start.
    BackToBreak,
    /// Forward to the next failure, else to the last position: an update line that failed, a transaction that was taken
    /// back, or the word `fail` or `reject`.
    UntilFailure,
    /// A break on this line of the policy.
    Break(usize),
    /// No break on this line.
    Delete(usize),
    /// The lines with breaks.
    Breaks,
    /// The place.
    Where,
    /// A list, or all three.
    Show(Option<List>),
    /// The instances of an attribute.
    Print(AttrId),
    /// The positions, from the start to here, at which the instances of an attribute changed.
    History(AttrId),
    /// What the step did, and why.
    Why,
    /// The whole run.
    Trace,
    /// The policy around the step's line.
    List,
    /// The commands.
    Help,
    Quit,
}
