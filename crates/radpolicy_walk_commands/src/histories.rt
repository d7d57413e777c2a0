//! What the steps of a run changed in the instances of an attribute.

ghost use Rattle.std.specs.Prelude.{◌≡◌, ◌<◌, ◌-◌, ◌++◌, ◌∷◌, [], IfOk, IfSome, IsTrue, OnOk};
ghost use Rattle.avp_lists.specs.Instances.{instances};
ghost use Rattle.avp_lists.specs.States.{list_of};
ghost use Rattle.avp_unlang.specs.Resolutions.{pair_of};
ghost use Rattle.radpolicy_common.specs.ChangeTexts.{AllFit};
ghost use Rattle.radpolicy_walk_commands.specs.Histories.{IsHistory, IsHistoryText, entry_at, instances_at, step_told};
ghost use Rattle.radpolicy_walk_commands.specs.Sessions.{entry_of, last_position, lists_of};
ghost use Rattle.radpolicy_walk_commands.specs.Showings.{AreChanges, IsListChange, list_name};
ghost use Rattle.radpolicy_walk_commands.specs.Steps.{step_of};
ghost use Rattle.radpolicy_walk_commands.specs.internal.EditedLines.{made_by};
ghost use Rattle.radpolicy_walk_commands.specs.internal.Following.{AreFollowing, IsFollowing};

use crate::commands::Command;
use crate::edited_lines::{EditedLines, Effect};
use crate::instances::push_name;
use crate::listings::list_name;
use crate::sessions::Session;
use crate::showings::{list_change, push_step};
use avp_lists::{AttrId, Edit, List, MAX_PAIRS, Op, Pair, Pairs, Selection, SnapshotStore, Store};
use std::alloc::{AllocError, Global};

// Whether the pair alone takes the place of the instances.
fn is_replaced_whole(id: AttrId, effect: &Effect, instances: &[Pair]) -> bool
    ensures { IsTrue result
        → made_by id effect.now instances.now ≡ pair_of id effect.now.value ∷ [] }
{
    match (effect.op, effect.selection, instances) {
        (Op::Replace, Selection::All, []) => true,
        (Op::Replace, Selection::All, [own]) => own.id.equals(id),
        _ => false,
    }
}

fn sole_pair(alloc: Global, pair: Pair) -> Result<Pairs, AllocError>
    ensures { IfOk result (λ pairs. pairs ≡ pair ∷ []) }
{
    let mut pairs = Vec::new(alloc);
    pairs.push(pair)?;
    Ok(Pairs::from_vec(pairs))
}

// What an update line makes of an attribute's instances; none where that can't be told so.
fn made_by(
    alloc: Global,
    id: AttrId,
    effect: &Effect,
    instances: &Pairs,
) -> Result<Option<Pairs>, AllocError>
    ensures { IfOk result (λ made. IfSome made (λ pairs. pairs
        ≡ made_by id effect.now instances.now)) }
{
    if is_replaced_whole(id, effect, instances.as_slice()) {
        let value = effect.value.copy(alloc)?;
        return Ok(Some(sole_pair(alloc, Pair { id, value })?));
    }
    if instances.as_slice().len() > MAX_PAIRS {
        return Ok(None);
    }
    let own = instances.clone()?.into_vec();
    let Ok(mut store) = SnapshotStore::new(alloc, own, Vec::new(alloc), Vec::new(alloc)) else {
        return Err(AllocError);
    };
    let value = effect.value.copy(alloc)?;
    let edit = Edit {
        list: List::Request,
        op: effect.op,
        pair: Pair { id, value },
    };
    match store.edit_selected(edit, effect.selection) {
        Ok(()) => Ok(Some(Pairs::from_vec(store.list(List::Request)?))),
        Err(_) => Ok(None),
    }
}

/// An attribute's instances in a list, as they are at a place that moves on step by step.
#[derive(Drop)]
pub(crate) struct Follower {
    edited: EditedLines,
    instances: Pairs,
}

impl Follower {
    // At the place.
    fn new(
        alloc: Global,
        session: &Session<'_>,
        list: List,
        id: AttrId,
    ) -> Result<Follower, AllocError>
        ensures { IfOk result (IsFollowing session.now.redaction.dictionary list id session.now.trace
            session.now.position) }
    {
        Ok(Follower {
            edited: session.edited_lines(alloc, list, id)?,
            instances: session.instances_in(alloc, list, id)?,
        })
    }

    // The instances at the place, after a step of this kind; before it they are these. They are told by the policy's text
    // or, where it does not tell them, looked for in the list.
    #[tactic(auto, using(crate::proofs::FittingInstances::list_instances_fit))]
    fn instances_after(
        &self,
        alloc: Global,
        session: &Session<'_>,
        list: List,
        id: AttrId,
    ) -> Result<Pairs, AllocError>
        requires moved { 0 < session.now.position }
        requires before { IsFollowing session.now.redaction.dictionary list id session.now.trace
            (session.now.position - 1) self.now }
        ensures instances { IfOk result (λ found. found
            ≡ instances id (list_of list (lists_of session.now))) }
        ensures fits { IfOk result (λ found. AllFit session.now.redaction.dictionary found) }
    {
        // `position` ensures that the place is one of the trace's, which the proof needs.
        let _within = session.position();
        session.lists_fit();
        let Some(effect) = self.edited.effect(session.step().label) else {
            return session.instances_in(alloc, list, id);
        };
        match made_by(alloc, id, effect, &self.instances)? {
            Some(made) => Ok(made),
            None => session.instances_in(alloc, list, id),
        }
    }

    // From the place before to the place, with the lines of what the step between them changed.
    fn follow(
        &mut self,
        alloc: Global,
        session: &Session<'_>,
        list: List,
        id: AttrId,
    ) -> Result<Vec<u8>, AllocError>
        requires moved { 0 < session.now.position }
        requires before { IsFollowing session.now.redaction.dictionary list id session.now.trace
            (session.now.position - 1) self.old }
        ensures lines { IfOk result (λ lines. IsListChange session.now.redaction
            (list_name list)
            (instances id (list_of list
            (entry_at session.now.trace (session.now.position - 1)).outcome.state))
            (instances id (list_of list (entry_of session.now).outcome.state)) lines.items) }
        ensures after { OnOk result (IsFollowing session.now.redaction.dictionary list id session.now.trace
            session.now.position self.new) }
    {
        // `position` ensures that the place is one of the trace's, which the proof needs.
        let _within = session.position();
        if !self.edited.may_change(session.step().label) {
            return Ok(Vec::new(alloc));
        }
        let found = self.instances_after(alloc, session, list, id)?;
        let lines = list_change(
            alloc,
            session.redaction(),
            list_name(list),
            self.instances.as_slice(),
            found.as_slice(),
        )?;
        self.instances = found;
        Ok(lines)
    }
}

/// An attribute's instances in the three lists.
#[derive(Drop)]
pub(crate) struct Followers {
    request: Follower,
    reply: Follower,
    control: Follower,
}

impl Followers {
    fn new(alloc: Global, session: &Session<'_>, id: AttrId) -> Result<Followers, AllocError>
        ensures { IfOk result (AreFollowing session.now.redaction.dictionary id session.now.trace
            session.now.position) }
    {
        Ok(Followers {
            request: Follower::new(alloc, session, List::Request, id)?,
            reply: Follower::new(alloc, session, List::Reply, id)?,
            control: Follower::new(alloc, session, List::Control, id)?,
        })
    }

    fn follow(
        &mut self,
        alloc: Global,
        session: &Session<'_>,
        id: AttrId,
    ) -> Result<Vec<u8>, AllocError>
        requires moved { 0 < session.now.position }
        requires before { AreFollowing session.now.redaction.dictionary id session.now.trace
            (session.now.position - 1) self.old }
        ensures lines { IfOk result (λ lines. AreChanges session.now.redaction
            (instances_at id session.now.trace (session.now.position - 1))
            (instances_at id session.now.trace session.now.position) lines.items) }
        ensures after { OnOk result (AreFollowing session.now.redaction.dictionary id session.now.trace
            session.now.position self.new) }
    {
        let mut lines = self.request.follow(alloc, session, List::Request, id)?;
        let reply = self.reply.follow(alloc, session, List::Reply, id)?;
        let control = self.control.follow(alloc, session, List::Control, id)?;
        lines.extend_from_slice(&reply)?;
        lines.extend_from_slice(&control)?;
        Ok(lines)
    }
}

// The step to the place, and below it the lines of what it changed; nothing where there are none.
fn push_told(text: &mut Vec<u8>, session: &Session<'_>, lines: &[u8]) -> Result<(), AllocError>
    ensures { OnOk result (text.new.items ≡ text.old.items ++ step_told session.now.position
        (last_position session.now) (step_of (entry_of session.now)) lines.now) }
{
    match lines {
        [] => {}
        [_, ..] => {
            push_step(
                text,
                session.position(),
                session.last_position(),
                session.step(),
            )?;
            text.extend_from_slice(b"\n")?;
            text.extend_from_slice(lines)?;
        }
    }
    Ok(())
}

/// What the steps from the start to the place changed in the instances of an attribute: each of those that changed
/// something, and below it, of each list that it changed, the lines with `-` and `+`.
pub fn history(alloc: Global, session: &mut Session<'_>, id: AttrId) -> Result<Vec<u8>, AllocError>
    ensures told { IfOk result (λ text. IsHistory session.old.redaction id
        session.old.trace session.old.position text.items) }
    ensures stays { OnOk result (session.new ≡ session.old) }
{
    let place = session.position();
    session.make(Command::Start)?;
    let mut followers = Followers::new(alloc, session, id)?;
    let mut text = Vec::new(alloc);
    'steps: while session.position() < place {
        session.make(Command::Forward(1))?;
        let lines = followers.follow(alloc, session, id)?;
        push_told(&mut text, session, &lines)?;
    }
    Ok(text)
}

/// The history of an attribute, or that nothing changed it.
pub fn history_text(
    alloc: Global,
    session: &mut Session<'_>,
    id: AttrId,
) -> Result<Vec<u8>, AllocError>
    ensures told { IfOk result (λ text. IsHistoryText session.old.redaction id
        session.old.trace session.old.position text.items) }
    ensures stays { OnOk result (session.new ≡ session.old) }
{
    let mut text = history(alloc, session, id)?;
    match text.as_slice() {
        [] => {
            push_name(&mut text, session.dictionary(), id)?;
            text.extend_from_slice(b" does not change up to here\n")?;
            Ok(text)
        }
        [_, ..] => Ok(text),
    }
}
