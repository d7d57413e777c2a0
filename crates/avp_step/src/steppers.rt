//! A run that goes forward and back.

ghost use Rattle.std.specs.Prelude.{◌≡◌, ◌+◌, ◌<◌, ◌≤◌, ◌↔◌, ◌⊎◌, ◌∷◌, ◌++◌, [], vec_len, vec_capacity, IfOk, IfErr, OnOk, OnErr, IsTrue};
ghost use Rattle.avp_lists.specs.History.{present};
ghost use Rattle.avp_unlang.specs.Meaning.{meaning_of};
ghost use Rattle.avp_unlang.specs.PolicyPatterns.{is_among, policy_patterns_pass};
ghost use Rattle.avp_unlang.specs.Suiting.{IsSpelled};
ghost use Rattle.avp_unlang.specs.Resolutions.{StateFits};
ghost use Rattle.avp_unlang.specs.Sizes.{size_of};
ghost use Rattle.avp_step.specs.Walk.{IsBeforeNewLine, IsHeldUp, IsHeldUpWith, IsWithin, MoveMay, MovesMay, Walk, answer_of_forward, entry, last_outcome, last_position, moved_back, moved_forward, moved_to_end, moved_to_start, walk_from};

use crate::labels::{Label, Move, Moved};
use crate::machines::Machine;
use crate::marks::{Mark, START};
use crate::searches::Searches;
use avp_dict::Dictionary;
use avp_lists::Store;
use avp_unlang::{Code, Policy, Statement, size};
use std::alloc::{AllocError, Global};
use std::marker::Model;

/// A run of a policy over a store, at one of its positions. Contracts see it as a walk: a trace that is fixed when the
/// stepper is made, and the position.
pub struct Stepper<'a, S: Store> {
    statements: &'a [Statement],
    // Its store has one state for each mark; it has to run what follows the last one.
    machine: Machine<'a, 'a, S>,
    // The start's, and one for each step that was made so far.
    marks: Vec<Mark>,
    position: usize,
}

impl<'a, S: Store> Drop for Stepper<'a, S> {
    fn drop(self) {
        let Stepper {
            statements: _,
            machine: _,
            marks: _,
            position: _,
        } = self;
    }
}

impl<'a, S: Store> Model for Stepper<'a, S> {
    ghost use Rattle.std.specs.Prelude.{vec_capacity};
    ghost use Rattle.avp_step.specs.Walk.{Walk};

    ghost Value = { Walk };

    ghost use Rattle.avp_step.specs.internal.Held.{walk_of, IsHeld};

    ghost view = { λ x. walk_of x.statements.now x.machine x.position };

    ghost invariant = { λ x. IsHeld x.statements.now x.machine x.marks.items x.position
        (vec_capacity x.marks) };
}

// One more mark.
fn put_mark(marks: &mut Vec<Mark>, mark: Mark)
    requires { vec_len marks.old < vec_capacity marks.old }
    ensures items { marks.new.items ≡ marks.old.items ++ mark ∷ [] }
    ensures capacity { vec_capacity marks.old ≤ vec_capacity marks.new }
{
    marks.push(mark).unwrap();
}

// What searches for the patterns of a policy.
fn searches_of(alloc: Global, policy: &Policy) -> Result<Searches<'_>, AllocError>
    ensures { IfOk result (λ searches.
        IsTrue (policy_patterns_pass (is_among searches.patterns) policy.entry.now)) }
{
    Searches::new(alloc, policy.patterns())
}

impl<'a, S: Store> Stepper<'a, S> {
    /// A run at its start, with room for all of its steps, and what searches for the patterns of the policy.
    /// `dictionary` is the one by which the policy was read. A refusal gives the store back.
    ///
    /// ```rust
    /// let policy = read_policy(
    ///     alloc,
    ///     dictionary,
    ///     b"update reply { Session-Timeout := 600 }",
    /// )?;
    /// let request = dictionary.read_request(alloc, b"User-Name = \"bob\"")?;
    /// let store = SlotStore::new(alloc, request, Vec::new(alloc), Vec::new(alloc))?;
    /// let stepper = Stepper::new(alloc, dictionary, &policy, store).map_err(|refused| refused.1)?;
    /// assert_eq!(rt; (stepper.position(), stepper.label()), (0, Label::Start));
    /// ```
    pub fn new(
        alloc: Global,
        dictionary: &'a Dictionary,
        policy: &'a Policy,
        store: S,
    ) -> Result<Stepper<'a, S>, (S, AllocError)>
        requires policy { IsSpelled dictionary.now policy.now }
        requires store { StateFits dictionary.now (present (S.history store)) }
        ensures start { IfOk result (λ stepper. stepper
            ≡ walk_from dictionary.entry.now policy.entry.now (present (S.history store))) }
        ensures last { IfOk result (λ stepper. last_outcome stepper
            ≡ meaning_of dictionary.entry.now policy.entry.now
            (present (S.history store)) Code.Ok) }
        ensures length { IfOk result (λ stepper. last_position stepper ≤ size_of policy.entry.now) }
        ensures refused { IfErr result (λ e. S.history e.0 ≡ S.history store) }
    {
        dictionary.is_sound();
        let statements = policy.statements().as_slice();
        let size = size(policy);
        let Ok(mut marks) = Vec::with_capacity(alloc, size + 1) else {
            return Err((store, AllocError));
        };
        let searches = match searches_of(alloc, policy) {
            Ok(searches) => searches,
            Err(refused) => return Err((store, refused)),
        };
        let keeps = policy.uses_captures();
        let machine = Machine::new(alloc, dictionary, statements, searches, keeps, store, size)?;
        put_mark(&mut marks, START);
        Ok(Stepper {
            statements,
            machine,
            marks,
            position: 0,
        })
    }

    /// The number of steps before this position.
    pub fn position(&self) -> usize
        ensures position { result ≡ self.now.position }
        ensures within { IsWithin self.now }
    {
        self.position
    }

    /// What the last step did.
    pub fn label(&self) -> Label
        ensures { result ≡ (entry self.now).label }
    {
        self.marks[self.position].label
    }

    /// The last code.
    pub fn code(&self) -> Code
        ensures { result ≡ (entry self.now).outcome.code }
    {
        self.marks[self.position].code
    }

    /// Whether the last step was a stop.
    pub fn stopped(&self) -> bool
        ensures { result ≡ (entry self.now).outcome.stopped }
    {
        self.marks[self.position].stopped
    }

    /// The store. Its present lists are those of this position, and its place is the position.
    pub fn store(&self) -> &S
        ensures place { (S.history result.now).place ≡ self.now.position }
        ensures lists { present (S.history result.now) ≡ (entry self.now).outcome.state }
        ensures fits { StateFits self.now.dictionary (present (S.history result.now)) }
    {
        self.machine.store()
    }

    /// One step back, if this is not the start.
    ///
    /// ```rust
    /// // The policy is `update reply { Session-Timeout := 600 }`, and `reject` on the line after it; this is its end.
    /// assert!(rt; stepper.back());
    /// assert_eq!(rt; stepper.label(), Label::Line(1));
    /// stepper.to_start();
    /// assert!(rt; !stepper.back());
    /// ```
    pub fn back(&mut self) -> bool
        ensures moved { IsTrue result ↔ (0 < self.old.position) }
        ensures after { self.new ≡ moved_back self.old }
    {
        if self.position == 0 {
            return false;
        }
        self.machine.back();
        self.position -= 1;
        true
    }

    /// One step forward, if this is not the end. Only the step of an update line may be refused, and none that was made
    /// before.
    ///
    /// ```rust
    /// // The policy is `update reply { Session-Timeout := 600 }`, and `reject` on the line after it.
    /// assert_eq!(rt; stepper.forward()?, Moved::To(Label::Line(1)));
    /// assert_eq!(rt; stepper.forward()?, Moved::To(Label::Word(2)));
    /// assert_eq!(rt; stepper.forward()?, Moved::AtEnd);
    /// ```
    pub fn forward(&mut self) -> Result<Moved, AllocError>
        ensures after { IfOk result (λ moved. (self.new ≡ moved_forward self.old)
            × (moved ≡ answer_of_forward self.old)) }
        ensures refused { OnErr result (self.new ≡ self.old) }
        ensures line { OnErr result (IsBeforeNewLine self.old) }
    {
        if self.position + 1 < self.marks.len() {
            self.machine.ahead();
            self.position += 1;
            return Ok(Moved::To(self.marks[self.position].label));
        }
        let last = self.marks[self.position];
        match self.machine.step(last) {
            Ok(None) => Ok(Moved::AtEnd),
            Ok(Some(mark)) => {
                put_mark(&mut self.marks, mark);
                self.position += 1;
                Ok(Moved::To(mark.label))
            }
            Err(refused) => Err(refused),
        }
    }

    /// Back to the start.
    pub fn to_start(&mut self)
        ensures { self.new ≡ moved_to_start self.old }
    {
        while self.back() {}
    }

    /// Forward to the end. After a refusal it is where the refused step began, with each step made again that was made
    /// before.
    ///
    /// ```rust
    /// // The policy is `update reply { Session-Timeout := 600 }`, and `reject` on the line after it.
    /// stepper.run_to_end()?;
    /// assert_eq!(rt; (stepper.code(), stepper.stopped()), (Code::Reject, true));
    /// assert_eq!(rt; stepper.store().count(List::Reply), 1);
    /// ```
    pub fn run_to_end(&mut self) -> Result<(), AllocError>
        ensures end { OnOk result (self.new ≡ moved_to_end self.old) }
        ensures refused { OnErr result (IsHeldUp self.old self.new) }
    {
        // `position` ensures that the position is one of the trace's, which the proof needs.
        let _within = self.position();
        while let Moved::To(_) = self.forward()? {}
        Ok(())
    }

    /// One move. A refused step of an update line is not reported; the stepper is then before that step.
    pub fn make(&mut self, step: Move)
        ensures { MoveMay self.old step self.new }
    {
        match step {
            Move::Forward => {
                let _ = self.forward();
            }
            Move::Back => {
                let _ = self.back();
            }
            Move::Start => self.to_start(),
            Move::End => {
                let _ = self.run_to_end();
            }
        }
    }

    /// Moves one after another, whether or not their steps are refused.
    ///
    /// ```rust
    /// // The policy is `update reply { Session-Timeout := 600 }`, and `reject` on the line after it.
    /// stepper.follow(&[Move::Start, Move::End, Move::Back]);
    /// assert_eq!(rt; stepper.position(), 1);
    /// ```
    pub fn follow(&mut self, moves: &[Move])
        ensures { MovesMay self.old moves.now self.new }
    {
        for step in moves {
            self.make(*step);
        }
    }

    /// The store, whose present lists are those of this position.
    pub fn into_store(self) -> S
        ensures lists { present (S.history result) ≡ (entry self.entry).outcome.state }
        ensures fits { StateFits self.entry.dictionary (present (S.history result)) }
    {
        let Stepper {
            statements: _,
            machine,
            marks: _,
            position: _,
        } = self;
        machine.into_store()
    }
}

/// Runs a policy to its end: the store's present lists, the code and the stop are those that the policy means. After a
/// refusal the store is as it was, or its present lists are those before the step of an update line.
///
/// ```rust
/// let policy = read_policy(
///     alloc,
///     dictionary,
///     b"update reply { Session-Timeout := 600 }",
/// )?;
/// let store = SlotStore::new(alloc, Vec::new(alloc), Vec::new(alloc), Vec::new(alloc))?;
/// let (store, code, stopped) = run(alloc, dictionary, &policy, store).map_err(|e| e.1)?;
/// assert_eq!(rt; (code, stopped), (Code::Ok, false));
/// assert_eq!(rt; store.count(List::Reply), 1);
/// ```
pub fn run<S: Store>(
    alloc: Global,
    dictionary: &Dictionary,
    policy: &Policy,
    store: S,
) -> Result<(S, Code, bool), (S, AllocError)>
    requires policy { IsSpelled dictionary.now policy.now }
    requires store { StateFits dictionary.now (present (S.history store)) }
    ensures ends { IfOk result (λ r.
        record { state = present (S.history r.0); code = r.1; stopped = r.2 }
        ≡ meaning_of dictionary.now policy.now (present (S.history store)) Code.Ok) }
    ensures fits { IfOk result (λ r. StateFits dictionary.now (present (S.history r.0))) }
    ensures refused { IfErr result (λ e. (S.history e.0 ≡ S.history store)
        ⊎ IsHeldUpWith (walk_from dictionary.now policy.now (present (S.history store)))
        (present (S.history e.0))) }
{
    let mut stepper = Stepper::new(alloc, dictionary, policy, store)?;
    match stepper.run_to_end() {
        Ok(()) => {
            let code = stepper.code();
            let stopped = stepper.stopped();
            Ok((stepper.into_store(), code, stopped))
        }
        Err(refused) => Err((stepper.into_store(), refused)),
    }
}
