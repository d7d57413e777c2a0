//! What a dictionary holds.

use crate::entries::Note;
use crate::tables::{Attributes, Values, Vendors};

/// The lines of a dictionary with their tables, and its notes.
#[derive(Drop)]
pub struct Contents {
    pub attributes: Attributes,
    pub values: Values,
    /// The names of numbers beside tags.
    pub tagged_values: Values,
    pub vendors: Vendors,
    pub notes: Vec<Note>,
}
