//! A run with a place in it, moved by commands.

ghost use Rattle.std.specs.Prelude.{◌≡◌, ◌<◌, IfOk, OnErr, OnOk, length, map};
ghost use Rattle.avp_lists.specs.History.{present};
ghost use Rattle.avp_lists.specs.Instances.{instances};
ghost use Rattle.avp_lists.specs.States.{list_of};
ghost use Rattle.avp_step.specs.Walk.{walk_from};
ghost use Rattle.avp_unlang.specs.Resolutions.{StateFits};
ghost use Rattle.radpolicy.specs.Starts.{entry_of as lists_of_start};
ghost use Rattle.radpolicy_common.specs.ChangeTexts.{AllFit};
ghost use Rattle.radpolicy_common.specs.Secrets.{IsRedactionOf};
ghost use Rattle.radpolicy_walk_commands.specs.Histories.{instances_of};
ghost use Rattle.radpolicy_walk_commands.specs.Sessions.{after, after_all, begun_anew, breaks_after, entry_of, last_position, lists_of, position_after, session_of, steps_of, with_break, without_break};
ghost use Rattle.radpolicy_walk_commands.specs.Showings.{AreChanges, step_text};
ghost use Rattle.radpolicy_walk_commands.specs.Steps.{step_of};
ghost use Rattle.radpolicy_walk_commands.specs.internal.EditedLines.{AreMade, LeaveOthers, effect_at};

use crate::commands::Command;
use crate::edited_lines::EditedLines;
use crate::instances::{instances, instances_of};
use crate::moves::{go_to, steps_to_end};
use crate::showings::{change_text, push_step};
use crate::steps::{Step, next_failure, next_on, previous_on};
use avp_dict::Dictionary;
use avp_lists::{AttrId, List, Pairs, SlotStore, State, Store};
use avp_step::Stepper;
use avp_unlang::Policy;
use radpolicy::Start;
use radpolicy_common::{Hiding, Redaction};
use std::alloc::{AllocError, Global};
use std::marker::Model;

/// A run of a policy that was made to its end, a position in it, and the lines with breaks.
#[derive(Drop)]
pub struct Session<'a> {
    redaction: Redaction<'a>,
    policy: &'a Policy,
    stepper: Stepper<'a, SlotStore>,
    // The step of each position.
    steps: Vec<Step>,
    breaks: Vec<usize>,
}

impl<'a> Model for Session<'a> {
    ghost use Rattle.std.specs.Prelude.{◌≡◌, map};
    ghost use Rattle.radpolicy_walk_commands.specs.Sessions.{Session as Shown};
    ghost use Rattle.radpolicy_walk_commands.specs.Steps.{step_of};
    ghost use Rattle.radpolicy_walk_commands.specs.internal.EditedLines.{IsRunOf};

    ghost Value = { Shown };

    ghost view = { λ s. record {
      redaction = s.redaction;
      trace = s.stepper.trace;
      position = s.stepper.position;
      breaks = s.breaks.items;
    } };

    ghost invariant = { λ s. (s.stepper.dictionary ≡ s.redaction.dictionary)
        × (s.steps.items ≡ map step_of s.stepper.trace)
        × IsRunOf s.redaction.dictionary s.policy.now s.stepper.trace };
}

fn without_break(alloc: Global, breaks: &[usize], line: usize) -> Result<Vec<usize>, AllocError>
    ensures { IfOk result (λ kept. kept.items ≡ without_break line breaks.now) }
{
    let mut kept = Vec::new(alloc);
    for own in breaks {
        if *own != line {
            kept.push(*own)?;
        }
    }
    Ok(kept)
}

fn with_break(breaks: &mut Vec<usize>, line: usize) -> Result<(), AllocError>
    ensures { OnOk result (breaks.new.items ≡ with_break line breaks.old.items) }
{
    if !breaks.contains(&line) {
        breaks.push(line)?;
    }
    Ok(())
}

// The lines with breaks after a command.
fn set_breaks(breaks: &mut Vec<usize>, command: Command) -> Result<(), AllocError>
    ensures { OnOk result (breaks.new.items ≡ breaks_after command breaks.old.items) }
{
    match command {
        Command::Break(line) => with_break(breaks, line),
        Command::Delete(line) => {
            *breaks = without_break(*breaks.allocator(), breaks.as_slice(), line)?;
            Ok(())
        }
        _ => Ok(()),
    }
}

/// Copies of the present lists of a store.
pub(crate) fn present_lists(store: &SlotStore) -> Result<State, AllocError>
    ensures { IfOk result (λ lists. lists
        ≡ present (⟦<SlotStore as Store>⟧.history store.now)) }
{
    Ok(State {
        request: Pairs::from_vec(store.list(List::Request)?),
        reply: Pairs::from_vec(store.list(List::Reply)?),
        control: Pairs::from_vec(store.list(List::Control)?),
    })
}

impl<'a> Session<'a> {
    /// A session over the run from a start, at its start and with no breaks. The run is made to its end.
    #[tactic(auto, using(crate::proofs::Redactions::redacts))]
    pub fn new(
        alloc: Global,
        start: Start<'a>,
        hiding: Hiding<'_>,
    ) -> Result<Session<'a>, AllocError>
        ensures begun { IfOk result (λ session. session ≡ session_of session.redaction
            (walk_from start.entry.prepared.dictionary start.entry.prepared.statements
            (lists_of_start start.entry))) }
        ensures hidden { IfOk result (λ session.
            IsRedactionOf start.entry.prepared.dictionary start.entry.prepared.statements hiding.entry
            session.redaction) }
    {
        let (dictionary, policy) = (start.dictionary(), start.policy());
        let redaction = Redaction::new(alloc, dictionary, hiding, &[policy])?;
        let mut stepper = start.stepper(alloc)?;
        let steps = steps_to_end(alloc, &mut stepper)?;
        stepper.to_start();
        Ok(Session {
            redaction,
            policy,
            stepper,
            steps,
            breaks: Vec::new(alloc),
        })
    }

    /// A session over another run, at its start; the breaks stay. Where memory is short nothing changes.
    pub fn begin_anew(
        &mut self,
        alloc: Global,
        start: Start<'a>,
        hiding: Hiding<'_>,
    ) -> Result<(), AllocError>
        ensures begun { OnOk result (self.new ≡ begun_anew self.new.redaction
            (walk_from start.entry.prepared.dictionary start.entry.prepared.statements
            (lists_of_start start.entry)) self.old) }
        ensures hidden { OnOk result
            (IsRedactionOf start.entry.prepared.dictionary start.entry.prepared.statements hiding.entry
            self.new.redaction) }
        ensures unchanged { OnErr result (self.new ≡ self.old) }
    {
        let Session {
            redaction,
            policy,
            stepper,
            steps,
            breaks: _,
        } = Session::new(alloc, start, hiding)?;
        self.redaction = redaction;
        self.policy = policy;
        self.stepper = stepper;
        self.steps = steps;
        Ok(())
    }

    /// What is hidden of the run.
    pub fn redaction(&self) -> &Redaction<'a>
        ensures { result.now ≡ self.now.redaction }
    {
        &self.redaction
    }

    /// The dictionary of the policy.
    pub fn dictionary(&self) -> &Dictionary
        ensures { result.now ≡ self.now.redaction.dictionary }
    {
        self.redaction.dictionary()
    }

    /// The number of steps before the place.
    pub fn position(&self) -> usize
        ensures position { result ≡ self.now.position }
        ensures within { self.now.position < length self.now.trace }
    {
        self.stepper.position()
    }

    /// The step of each position, from the start's.
    pub fn steps(&self) -> &[Step]
        ensures { result.now ≡ steps_of self.now }
    {
        self.steps.as_slice()
    }

    /// The step at the place.
    pub fn step(&self) -> Step
        ensures { result ≡ step_of (entry_of self.now) }
    {
        Step {
            label: self.stepper.label(),
            code: self.stepper.code(),
        }
    }

    /// The lines with breaks, in the order in which they were set.
    pub fn breaks(&self) -> &[usize]
        ensures { result.now ≡ self.now.breaks }
    {
        self.breaks.as_slice()
    }

    /// The last position.
    pub fn last_position(&self) -> usize
        ensures { result ≡ last_position self.now }
    {
        self.steps.len().saturating_sub(1)
    }

    /// Copies of the lists at the place.
    pub fn lists(&self) -> Result<State, AllocError>
        ensures lists { IfOk result (λ lists. lists ≡ lists_of self.now) }
        ensures fits { IfOk result (λ lists. StateFits self.now.redaction.dictionary lists) }
    {
        present_lists(self.stepper.store())
    }

    /// Copies of an attribute's instances in the lists at the place.
    #[tactic(auto, using(crate::proofs::FittingInstances::instances_fit))]
    pub(crate) fn instances(&self, alloc: Global, id: AttrId) -> Result<State, AllocError>
        ensures instances { IfOk result (λ found. found ≡ instances_of id (lists_of self.now)) }
        ensures fits { IfOk result (λ found. StateFits self.now.redaction.dictionary found) }
    {
        let found = instances_of(alloc, id, self.stepper.store())?;
        Ok(found)
    }

    /// Copies of an attribute's instances in a list at the place.
    #[tactic(auto, using(crate::proofs::FittingInstances::list_instances_fit))]
    pub(crate) fn instances_in(
        &self,
        alloc: Global,
        list: List,
        id: AttrId,
    ) -> Result<Pairs, AllocError>
        ensures instances { IfOk result (λ found. found
            ≡ instances id (list_of list (lists_of self.now))) }
        ensures fits { IfOk result (λ found. AllFit self.now.redaction.dictionary found) }
    {
        let found = instances(alloc, id, self.stepper.store(), list)?;
        Ok(found)
    }

    /// That the lists at the place fit the dictionary, for a proof that needs it.
    pub(crate) fn lists_fit(&self)
        ensures { StateFits self.now.redaction.dictionary (lists_of self.now) }
    {
        let _store = self.stepper.store();
    }

    /// The lines of the policy that edit an attribute in a list.
    pub(crate) fn edited_lines(
        &self,
        alloc: Global,
        list: List,
        id: AttrId,
    ) -> Result<EditedLines, AllocError>
        ensures others { IfOk result (λ edited. LeaveOthers list id edited self.now.trace) }
        ensures made { IfOk result (λ edited.
            AreMade list id (effect_at edited) self.now.trace) }
    {
        let lines = EditedLines::new(alloc, self.policy, list, id)?;
        Ok(lines)
    }

    // The position that a command leads to.
    fn position_after(&self, command: Command) -> usize
        ensures position { result ≡ position_after command self.now }
        ensures within { result < length self.now.trace }
    {
        let (steps, breaks) = (self.steps.as_slice(), self.breaks.as_slice());
        let (position, last) = (self.position(), self.last_position());
        match command {
            Command::Forward(count) => position.saturating_add(count).min(last),
            Command::Back(count) => position.saturating_sub(count),
            Command::Start => 0,
            Command::End => last,
            Command::Goto(to) => to.min(last),
            Command::Continue => next_on(breaks, steps, position),
            Command::BackToBreak => previous_on(breaks, steps, position),
            Command::UntilFailure => next_failure(steps, position),
            _ => position,
        }
    }

    /// Makes a command: it leads to the position that it names, or sets or deletes a break. What asks only for an
    /// answer changes nothing.
    pub fn make(&mut self, command: Command) -> Result<(), AllocError>
        ensures { OnOk result (self.new ≡ after command self.old) }
    {
        let position = self.position_after(command);
        go_to(&mut self.stepper, position)?;
        set_breaks(&mut self.breaks, command)
    }

    /// Makes commands one after another.
    pub fn follow(&mut self, commands: &[Command]) -> Result<(), AllocError>
        ensures { OnOk result (self.new ≡ after_all commands.now self.old) }
    {
        let mut rest = commands;
        while let Some((command, others)) = rest.split_first() {
            self.make(*command)?;
            rest = others;
        }
        Ok(())
    }

    /// Makes a command, and gives the lines of what it changed in the lists: of each list that changed its name, and
    /// then `- Name = value` for what is gone and `+ Name = value` for what came.
    pub fn change(&mut self, alloc: Global, command: Command) -> Result<Vec<u8>, AllocError>
        ensures after { OnOk result (self.new ≡ after command self.old) }
        ensures changes { IfOk result (λ text. AreChanges self.old.redaction (lists_of self.old)
            (lists_of (after command self.old)) text.items) }
    {
        let before = self.lists()?;
        self.make(command)?;
        let after = self.lists()?;
        change_text(alloc, &self.redaction, &before, &after)
    }

    /// The place: `[3 of 17] line 8 ok`.
    pub fn place_text(&self, alloc: Global) -> Result<Vec<u8>, AllocError>
        ensures { IfOk result (λ text. text.items
            ≡ step_text self.now.position (last_position self.now) (step_of (entry_of self.now))) }
    {
        let mut text = Vec::new(alloc);
        push_step(
            &mut text,
            self.position(),
            self.last_position(),
            self.step(),
        )?;
        Ok(text)
    }
}
