ghost use Rattle.std.specs.Prelude.{◌≡◌};
ghost use Rattle.avp_lists.specs.internal.Growth.{lengthens};

use crate::lists::List;
use crate::pairs::Pair;
use thiserror::Error;

/// What an edit does to a list. The signs are those of unlang(5); what each does to several instances
/// of an id is this project's own definition.
#[derive(Clone, Copy, Debug, PartialEq, Eq)]
pub enum Op {
    /// `=` adds the pair at the tail, unless its id has an instance.
    AddNew,
    /// `:=` puts the pair in the place of the first instance and drops the later ones; without an
    /// instance it goes to the tail.
    Replace,
    /// `+=` adds the pair at the tail.
    Append,
    /// `^=` adds the pair at the head, whether or not its id has an instance.
    Prepend,
    /// `-=` drops each pair that is equal to this one.
    RemoveEqual,
    /// `==` drops each instance of the id that is not equal to this pair.
    KeepEqual,
    /// `!*` drops each instance of the id, whatever the value.
    RemoveAll,
}

impl Op {
    // Whether it makes a list longer, by whether its id has an instance there.
    pub(crate) fn lengthens(self, has_instance: bool) -> bool
        ensures { result ≡ lengthens self has_instance }
    {
        match self {
            Op::Append | Op::Prepend => true,
            Op::AddNew | Op::Replace => !has_instance,
            Op::RemoveEqual | Op::KeepEqual | Op::RemoveAll => false,
        }
    }
}

/// A change of one list by one pair.
#[derive(Debug, Drop)]
pub struct Edit {
    pub list: List,
    pub op: Op,
    pub pair: Pair,
}

/// Why an edit was refused.
#[derive(Clone, Copy, Debug, PartialEq, Eq, Error)]
pub enum EditFault {
    /// The list would have more than [`MAX_PAIRS`](crate::MAX_PAIRS) pairs.
    #[error("the list is full")]
    Full,
    #[error("out of memory")]
    Memory,
}
