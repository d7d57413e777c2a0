//! Ordered lists of attribute-value pairs, the edits of an `update` section, and a history of edited
//! states with undo, redo and rollback.
//!
//! [`Store`] is the contract that the layers above use. [`SlotStore`] meets it with one set of lists and a journal, and
//! [`SnapshotStore`] with whole states.
#![tactic(auto)]

mod bytes;
mod edits;
mod lists;
mod live;
mod operators;
mod pairs;
mod planning;
mod showing;
mod slot_store;
mod slots;
mod snapshots;
mod steps;
mod store;
mod tags;
mod undoing;
mod vectors;

pub use bytes::Octets;
pub use edits::{Edit, EditFault, Op};
pub use lists::{List, MAX_PAIRS, Pairs, State};
pub use pairs::{AttrId, Pair, Value, copy_pair};
pub use slot_store::SlotStore;
pub use snapshots::SnapshotStore;
pub use store::{ListsRefused, Store};
pub use tags::{Selection, Tagging, beside_tag, selects_all, tag_of};
pub use undoing::{edit_and_undo, undo_by};
