//! Which instances a name of a policy means.

ghost use Rattle.std.specs.Prelude.{◌≡◌};
ghost use Rattle.avp_unlang.specs.Selecting.{line_selection, selected_for, selection_of, tagging_in, tagging_of};

use avp_dict::{Dictionary, Form};
use avp_forms::{Profile, Target};
use avp_lists::{AttrId, Op, Selection, Tagging};

#[tactic(auto, unfolding(crate::specs::Selecting::tagging_in))]
fn tagging_in(form: Form) -> Option<Tagging>
    ensures { result ≡ tagging_in form }
{
    match form {
        Form::TaggedInteger => Some(Tagging::Number),
        Form::TaggedString => Some(Tagging::Text),
        _ => None,
    }
}

#[tactic(auto, unfolding(crate::specs::Selecting::tagging_of))]
fn tagging_of(dictionary: &Dictionary, id: AttrId) -> Option<Tagging>
    ensures { result ≡ tagging_of dictionary.now id }
{
    let form = dictionary.form(id)?;
    tagging_in(form)
}

/// The instances to which a name refers.
#[tactic(auto, unfolding(crate::specs::Selecting::selection_of))]
pub(crate) fn selection_of(dictionary: &Dictionary, target: Target) -> Selection
    ensures { result ≡ selection_of dictionary.now target }
{
    match (tagging_of(dictionary, target.named.id), target.tag) {
        (Some(tagging), Some(tag)) => Selection::Tag(tagging, tag),
        _ => Selection::All,
    }
}

fn selected_for(op: Op, tagging: Tagging, tag: Option<u8>) -> Selection
    ensures { result ≡ selected_for op tagging tag }
{
    match (tag, op) {
        (Some(tag), _) => Selection::Tag(tagging, tag),
        (None, Op::RemoveEqual | Op::KeepEqual) => Selection::EachTag(tagging),
        (None, _) => Selection::All,
    }
}

/// The instances that an update line edits.
#[tactic(auto, unfolding(crate::specs::Selecting::line_selection))]
#[inline(always)]
pub(crate) fn line_selection(
    profile: Profile,
    dictionary: &Dictionary,
    op: Op,
    target: Target,
) -> Selection
    ensures { result ≡ line_selection profile dictionary.now op target }
{
    match profile {
        Profile::Plain => Selection::All,
        Profile::Wider => match tagging_of(dictionary, target.named.id) {
            None => Selection::All,
            Some(tagging) => selected_for(op, tagging, target.tag),
        },
    }
}
