//! The instances of an attribute in the lists.

ghost use Rattle.std.specs.Prelude.{◌≡◌, ◌++◌, ◌∷◌, [], IfOk, OnOk};
ghost use Rattle.avp_lists.specs.History.{present};
ghost use Rattle.avp_lists.specs.Instances.{instances};
ghost use Rattle.avp_lists.specs.States.{list_of};
ghost use Rattle.avp_unlang.specs.Resolutions.{StateFits};
ghost use Rattle.radpolicy_common.specs.ChangeTexts.{AllFit};
ghost use Rattle.radpolicy_walk_commands.specs.Histories.{IsContinued, instances_of};

use crate::sessions::Session;
use crate::showings::list_text;
use avp_dict::Dictionary;
use avp_lists::{AttrId, List, Pair, Pairs, State, Store, copy_pair};
use radpolicy_common::Redaction;
use std::alloc::{AllocError, Global};

// Adds a copy of a pair, if it is an instance.
fn push_instance(found: &mut Vec<Pair>, id: AttrId, pair: &Pair) -> Result<(), AllocError>
    ensures { OnOk result (found.new.items ≡ found.old.items ++ instances id (pair.now ∷ [])) }
{
    if pair.id.equals(id) {
        let alloc = *found.allocator();
        found.push(copy_pair(alloc, pair)?)?;
    }
    Ok(())
}

/// Copies of the instances in a present list of a store. The other pairs are passed over where they are.
pub(crate) fn instances<S: Store>(
    alloc: Global,
    id: AttrId,
    store: &S,
    list: List,
) -> Result<Pairs, AllocError>
    ensures { IfOk result (λ found. found
        ≡ instances id (list_of list (present (S.history store.now)))) }
{
    let mut found = Vec::new(alloc);
    for at in 0..store.count(list) {
        if let Some(pair) = store.pair(list, at) {
            push_instance(&mut found, id, pair)?;
        }
    }
    Ok(Pairs::from_vec(found))
}

/// The present lists of a store with nothing but copies of the instances.
pub(crate) fn instances_of<S: Store>(
    alloc: Global,
    id: AttrId,
    store: &S,
) -> Result<State, AllocError>
    ensures { IfOk result (λ found. found ≡ instances_of id (present (S.history store.now))) }
{
    Ok(State {
        request: instances(alloc, id, store, List::Request)?,
        reply: instances(alloc, id, store, List::Reply)?,
        control: instances(alloc, id, store, List::Control)?,
    })
}

/// Appends the name of an attribute as lists have it.
pub(crate) fn push_name(
    text: &mut Vec<u8>,
    dictionary: &Dictionary,
    id: AttrId,
) -> Result<(), AllocError>
    ensures { OnOk result (IsContinued text.old.items text.new.items) }
{
    match dictionary.by_id(id) {
        Some(entry) => text.extend_from_slice(entry.name),
        None => text.extend_from_slice(b"the attribute"),
    }
}

// The instances in a list, under its name.
fn push_instances(
    text: &mut Vec<u8>,
    redaction: &Redaction<'_>,
    name: &str,
    instances: &[Pair],
) -> Result<(), AllocError>
    requires { AllFit redaction.now.dictionary instances.now }
{
    if !instances.is_empty() {
        let alloc = *text.allocator();
        let lines = list_text(alloc, redaction, name, instances)?;
        text.extend_from_slice(&lines)?;
    }
    Ok(())
}

// The lists that are not empty, each under its name.
fn filled_lists_text(
    alloc: Global,
    redaction: &Redaction<'_>,
    lists: &State,
) -> Result<Vec<u8>, AllocError>
    requires { StateFits redaction.now.dictionary lists.now }
{
    let mut text = Vec::new(alloc);
    push_instances(&mut text, redaction, "request", lists.request.as_slice())?;
    push_instances(&mut text, redaction, "reply", lists.reply.as_slice())?;
    push_instances(&mut text, redaction, "control", lists.control.as_slice())?;
    Ok(text)
}

/// The instances of an attribute in the lists at the place, under the names of the lists.
pub fn instances_text(
    alloc: Global,
    session: &Session<'_>,
    id: AttrId,
) -> Result<Vec<u8>, AllocError> {
    let found = session.instances(alloc, id)?;
    let mut text = filled_lists_text(alloc, session.redaction(), &found)?;
    if text.is_empty() {
        text.extend_from_slice(b"no ")?;
        push_name(&mut text, session.dictionary(), id)?;
        text.extend_from_slice(b"\n")?;
    }
    Ok(text)
}
