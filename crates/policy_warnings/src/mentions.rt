//! The instances that a condition's comparisons look at.

ghost use Rattle.std.specs.Prelude.{◌≡◌};
ghost use Rattle.policy_warnings.specs.Mentions.{implies, is_within, means_same, same_list, same_tagging, selected, whole};

use avp_lists::{AttrId, List, Selection, Tagging};

/// Instances of an attribute in one of the lists.
#[derive(Clone, Copy, Debug)]
pub struct Mention {
    pub list: List,
    pub id: AttrId,
    pub selection: Selection,
}

pub(crate) fn same_list(list: List, other: List) -> bool
    ensures { result ≡ same_list list other }
{
    list == other
}

pub(crate) fn same_tagging(tagging: Tagging, other: Tagging) -> bool
    ensures { result ≡ same_tagging tagging other }
{
    tagging == other
}

pub(crate) fn is_within(selection: Selection, other: Selection) -> bool
    ensures { result ≡ is_within selection other }
{
    match (selection, other) {
        (_, Selection::All | Selection::EachTag(_)) => true,
        (Selection::Tag(tagging, tag), Selection::Tag(other, number)) => {
            same_tagging(tagging, other) && tag == number
        }
        (Selection::All | Selection::EachTag(_), Selection::Tag(..)) => false,
    }
}

impl Mention {
    /// All instances of the attribute.
    pub(crate) fn whole(list: List, id: AttrId) -> Mention
        ensures { result ≡ whole list id }
    {
        Mention {
            list,
            id,
            selection: Selection::All,
        }
    }

    /// The instances of the attribute that the selection means.
    pub(crate) fn selected(list: List, id: AttrId, selection: Selection) -> Mention
        ensures { result ≡ selected list id selection }
    {
        Mention {
            list,
            id,
            selection,
        }
    }

    /// Whether one of the other instances is there wherever one of these is.
    pub(crate) fn implies(self, other: Mention) -> bool
        ensures { result ≡ implies self other }
    {
        same_list(self.list, other.list)
            && self.id.equals(other.id)
            && is_within(self.selection, other.selection)
    }

    /// Whether both are the same instances.
    pub(crate) fn means_same(self, other: Mention) -> bool
        ensures { result ≡ means_same self other }
    {
        self.implies(other) && other.implies(self)
    }
}
