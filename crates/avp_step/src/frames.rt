//! Parts of a policy that are still to run.

use avp_unlang::{Block, Branch, Line, Statement};

/// The most frames of a policy: one for its statements, and two for each of the 64 braces that may be open.
pub const MAX_FRAMES: usize = 129;

/// A part of the policy that is still to run.
#[derive(Clone, Copy)]
pub enum Frame<'a> {
    /// The statements of a block.
    Statements(&'a [Statement]),
    /// The lines of an update, and the position at its entry.
    Lines(&'a [Line], usize),
    /// The branches of an `if` that are not yet tested, and its last block.
    Branches(&'a [Branch], &'a Option<Block>),
    /// The end of a transaction: its line, and the position at its entry.
    End(usize, usize),
}
