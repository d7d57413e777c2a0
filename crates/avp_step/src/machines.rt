//! A store, and what is still to run over it.

ghost use Rattle.std.specs.Prelude.{◌≡◌, ◌+◌, ◌-◌, ◌<◌, ◌≤◌, ◌∷◌, ◌||◌, [], false, length, IfErr, IfNone, IfOk, IfSome, IsTrue, OnErr, OnOk, Ok, None};
ghost use Rattle.avp_lists.specs.History.{at_place, present, settled, state_at};
ghost use Rattle.avp_unlang.specs.Meaning.{stops};
ghost use Rattle.avp_unlang.specs.PolicyPatterns.{cond_patterns_pass, is_among, policy_patterns_pass};
ghost use Rattle.avp_unlang.specs.Resolutions.{StateFits, line_suits};
ghost use Rattle.avp_unlang.specs.Suiting.{cond_suits, policy_suits};
ghost use Rattle.avp_unlang.specs.Captures.{no_captures};
ghost use Rattle.avp_unlang.specs.Evaluations.{decided};
ghost use Rattle.avp_unlang.specs.internal.Depth.{depth_of};
ghost use Rattle.avp_step.specs.internal.Frames.{all_skips};
ghost use Rattle.avp_step.specs.internal.Courses.{FitsOn, IsAlike, IsAtLast, IsContinued, IsEdited, IsKept, IsReady, IsStep, ending, evaluating, standing, with_frame};

use crate::frames::{Frame, MAX_FRAMES};
use crate::labels::Label;
use crate::lines::{edit_by, reason_number};
use crate::marks::Mark;
use crate::searches::Searches;
use avp_dict::Dictionary;
use avp_lists::Store;
use avp_unlang::{
    Block, Branch, Captured, Code, Cond, Line, Matchers, Reason, Statement, evaluate, holds_by,
};
use std::alloc::{AllocError, Global};
use std::marker::Model;

/// A store, and what is still to run over it.
pub struct Machine<'a, 'p, S: Store> {
    alloc: Global,
    dictionary: &'a Dictionary,
    // Those of the patterns that conditions compare with.
    matchers: Matchers<'p>,
    // What was captured last, kept at least if the policy looks at it.
    captured: Captured,
    store: S,
    // The innermost part of what is still to run is the last.
    frames: Vec<Frame<'a>>,
}

impl<'a, 'p, S: Store> Drop for Machine<'a, 'p, S> {
    fn drop(self) {
        let Machine {
            alloc: _,
            dictionary: _,
            matchers: _,
            captured: _,
            store: _,
            frames: _,
        } = self;
    }
}

impl<'a, 'p, S: Store> Model for Machine<'a, 'p, S> {
    ghost use Rattle.std.specs.Prelude.{vec_capacity};
    ghost use Rattle.std.specs.Coded.{codes};
    ghost use Rattle.avp_unlang.specs.contracts.tree.Branch as branch;
    ghost use Rattle.avp_unlang.specs.contracts.tree.Statement as statement;
    ghost use Rattle.avp_step.specs.internal.Courses.{Course, IsSound, course_of};

    ghost Value = { Course };

    ghost coded = { Prim.hlevel (codes, statement.the_row.coded, branch.the_row.coded) };

    ghost view = { λ x. course_of x.dictionary.now x.matchers x.captured (S.history x.store)
        (S.room x.store) x.frames.items };

    ghost invariant = { λ x. IsSound (course_of x.dictionary.now x.matchers x.captured
        (S.history x.store) (S.room x.store) x.frames.items) (vec_capacity x.frames) };
}

fn stops(code: Code) -> bool
    ensures { result ≡ stops code }
{
    match code {
        Code::Ok | Code::Noop | Code::Updated => false,
        Code::Fail | Code::Reject => true,
    }
}

impl<'a, 'p, S: Store> Machine<'a, 'p, S> {
    /// A machine that has these statements to run from the present lists of the store, with room for so many steps, and
    /// for what their patterns capture if it is to be kept. A refusal gives the store back.
    pub fn new(
        alloc: Global,
        dictionary: &'a Dictionary,
        statements: &'a [Statement],
        searches: Searches<'p>,
        keeps: bool,
        mut store: S,
        size: usize,
    ) -> Result<Machine<'a, 'p, S>, (S, AllocError)>
        requires deep { depth_of statements.now + 1 ≤ MAX_FRAMES }
        requires suits { IsTrue (policy_suits dictionary.now statements.now) }
        requires passes { IsTrue (policy_patterns_pass (is_among searches.patterns)
            statements.now) }
        requires store { StateFits dictionary.now (present (S.history store)) }
        ensures start { IfOk result (λ m. m ≡ record {
          dictionary = dictionary.entry.now;
          patterns = searches.entry.patterns;
          keeps = searches.entry.has_room || keeps;
          captures = no_captures;
          history = settled (S.history store);
          reach = m.reach;
          frames = Frame.Statements statements.entry ∷ [];
        }) }
        ensures room { IfOk result (λ m. size ≤ m.reach) }
        ensures refused { IfErr result (λ e. S.history e.0 ≡ S.history store) }
    {
        let Ok(mut frames) = Vec::with_capacity(alloc, MAX_FRAMES) else {
            return Err((store, AllocError));
        };
        let Ok((matchers, captured)) = searches.into_parts(alloc, keeps) else {
            return Err((store, AllocError));
        };
        match store.reserve(size) {
            Err(refused) => Err((store, refused)),
            Ok(()) => {
                store.settle();
                frames.push(Frame::Statements(statements)).unwrap();
                Ok(Machine {
                    alloc,
                    dictionary,
                    matchers,
                    captured,
                    store,
                    frames,
                })
            }
        }
    }

    /// The store.
    pub fn store(&self) -> &S
        ensures history { S.history result.now ≡ self.now.history }
        ensures fits { StateFits self.now.dictionary (present self.now.history) }
    {
        &self.store
    }

    /// The store.
    pub fn into_store(self) -> S
        ensures history { S.history result ≡ self.entry.history }
        ensures fits { StateFits self.entry.dictionary (present self.entry.history) }
    {
        let Machine {
            alloc: _,
            dictionary: _,
            matchers: _,
            captured: _,
            store,
            frames: _,
        } = self;
        store
    }

    /// The store, and what the run searched with.
    pub fn into_parts(self) -> (S, Searches<'p>)
        ensures history { S.history result.0 ≡ self.entry.history }
        ensures fits { StateFits self.entry.dictionary (present self.entry.history) }
        ensures searches { result.1
            ≡ record { patterns = self.entry.patterns; has_room = self.entry.keeps } }
    {
        let Machine {
            alloc: _,
            dictionary: _,
            matchers,
            captured,
            store,
            frames: _,
        } = self;
        (store, Searches::of_parts(matchers, captured))
    }

    // The place of the store.
    fn place(&self) -> usize
        ensures { result ≡ self.now.history.place }
    {
        self.store.place()
    }

    /// To the state before.
    pub fn back(&mut self)
        ensures { self.new ≡ record self.old {
          history = at_place (self.old.history.place - 1) self.old.history;
        } }
    {
        let _ = self.store.undo();
    }

    /// To the state after, which there is.
    pub fn ahead(&mut self)
        requires { self.old.history.place + 1 < length self.old.history.states }
        ensures { self.new ≡ record self.old {
          history = at_place (self.old.history.place + 1) self.old.history;
        } }
    {
        let _ = self.store.redo();
    }

    fn put(&mut self, frame: Frame<'a>)
        requires { FitsOn self.old frame }
        ensures { self.new ≡ with_frame frame.entry self.old }
    {
        self.frames.push(frame).unwrap();
    }

    fn take(&mut self) -> Option<Frame<'a>>
        ensures some { IfSome result (λ f. self.old ≡ with_frame f self.new) }
        ensures fits { IfSome result (λ f. FitsOn self.new f) }
        ensures none { IfNone result ((self.new ≡ self.old) × (self.new.frames ≡ [])) }
    {
        self.frames.pop()
    }

    // One more state, which equals an earlier one.
    fn go_back(&mut self, to: usize)
        requires earlier { to ≤ self.old.history.place }
        requires at_last { IsAtLast self.old }
        requires room { self.old.history.place < self.old.reach }
        ensures { IsContinued (state_at self.old.history to) self.old self.new }
    {
        self.store.rollback(to).unwrap();
    }

    // One more state, which equals the present one.
    fn stay(&mut self)
        requires at_last { IsAtLast self.old }
        requires room { self.old.history.place < self.old.reach }
        ensures { IsContinued (present self.old.history) self.old self.new }
    {
        let place = self.place();
        self.go_back(place);
    }

    // Edits by a line, or gives the reason why it fails.
    fn edit(&mut self, line: &Line) -> Result<Option<Reason>, AllocError>
        requires line { IsTrue (line_suits self.old.dictionary line.now) }
        requires at_last { IsAtLast self.old }
        ensures done { IfOk result (λ failed. IsEdited line.now self.old self.new failed) }
        ensures kept { OnErr result (IsKept self.old self.new) }
        ensures frames { OnErr result (self.new.frames ≡ self.old.frames) }
    {
        edit_by(
            self.alloc,
            self.dictionary,
            &mut self.store,
            line,
            &self.captured,
        )
    }

    // Whether a condition is true of the present lists. What it captures is kept, if any is.
    fn holds(&mut self, cond: &Cond, code: Code) -> bool
        requires at_last { IsAtLast self.old }
        requires suits { IsTrue (cond_suits self.old.dictionary cond.now) }
        requires passes { IsTrue (cond_patterns_pass (is_among self.old.patterns) cond.now) }
        ensures evaluated { decided result self.new.captures ≡ evaluating self.old cond.now
            (present self.old.history) code self.old.captures }
        ensures same { self.new ≡ record self.old { captures = self.new.captures } }
    {
        let (dictionary, store, matchers) = (self.dictionary, &self.store, &mut self.matchers);
        if self.captured.keeps() {
            evaluate(dictionary, cond, store, code, matchers, &mut self.captured)
        } else {
            holds_by(dictionary, cond, store, code, matchers)
        }
    }

    // The first of these statements, above the others: an update or an `if` is put on the frames, any other is a step.
    fn step_statements(&mut self, last: Mark, statements: &'a [Statement]) -> Option<Mark>
        requires fits { FitsOn self.old (Frame.Statements statements) }
        requires running { last.stopped ≡ false }
        requires ready { IsReady last (with_frame (Frame.Statements statements) self.old) }
        ensures step { IsStep last (with_frame (Frame.Statements statements.entry) self.old)
            (Ok result) self.new }
        ensures passed { IfNone result (all_skips self.new.frames
            < all_skips (Frame.Statements statements.entry ∷ self.old.frames)) }
    {
        let [statement, others @ ..] = statements else {
            return None;
        };
        self.put(Frame::Statements(others));
        let place = self.place();
        match statement {
            Statement::Update(_, lines) => {
                self.put(Frame::Lines(lines.as_slice(), place));
                None
            }
            Statement::If(branches, otherwise) => {
                self.put(Frame::Branches(branches.as_slice(), otherwise));
                None
            }
            Statement::Transaction(line, block) => {
                self.put(Frame::End(*line, place));
                self.put(Frame::Statements(block.as_slice()));
                self.stay();
                Some(Mark {
                    label: Label::Enter(*line),
                    code: last.code,
                    stopped: false,
                })
            }
            Statement::Word(line, word) => {
                self.stay();
                Some(Mark {
                    label: Label::Word(*line),
                    code: *word,
                    stopped: stops(*word),
                })
            }
        }
    }

    // The first of these lines.
    fn step_lines(
        &mut self,
        last: Mark,
        lines: &'a [Line],
        entry: usize,
    ) -> Result<Option<Mark>, AllocError>
        requires fits { FitsOn self.old (Frame.Lines lines entry) }
        requires running { last.stopped ≡ false }
        requires ready { IsReady last (with_frame (Frame.Lines lines entry) self.old) }
        ensures step { IsStep last (with_frame (Frame.Lines lines.entry entry) self.old)
            result self.new }
        ensures passed { result ≡ Ok None → all_skips self.new.frames
            < all_skips (Frame.Lines lines.entry entry ∷ self.old.frames) }
    {
        let [line, others @ ..] = lines else {
            return Ok(None);
        };
        match self.edit(line) {
            Ok(None) => {
                self.put(Frame::Lines(others, entry));
                Ok(Some(Mark {
                    label: Label::Line(line.line),
                    code: last.code,
                    stopped: false,
                }))
            }
            Ok(Some(reason)) => {
                self.go_back(entry);
                Ok(Some(Mark {
                    label: Label::Failed(line.line, reason_number(reason)),
                    code: Code::Fail,
                    stopped: true,
                }))
            }
            Err(refused) => {
                self.put(Frame::Lines(lines, entry));
                Err(refused)
            }
        }
    }

    // The first of these conditions; after the last of them the last block is put on the frames.
    fn step_branches(
        &mut self,
        last: Mark,
        branches: &'a [Branch],
        otherwise: &'a Option<Block>,
    ) -> Option<Mark>
        requires fits { FitsOn self.old (Frame.Branches branches otherwise) }
        requires running { last.stopped ≡ false }
        requires ready { IsReady last (with_frame (Frame.Branches branches otherwise) self.old) }
        ensures step { IsStep last (with_frame (Frame.Branches branches.entry otherwise.entry)
            self.old) (Ok result) self.new }
        ensures passed { IfNone result (all_skips self.new.frames
            < all_skips (Frame.Branches branches.entry otherwise.entry ∷ self.old.frames)) }
    {
        let [branch, others @ ..] = branches else {
            if let Some(block) = otherwise {
                self.put(Frame::Statements(block.as_slice()));
            }
            return None;
        };
        let is_met = self.holds(&branch.cond, last.code);
        if is_met {
            self.put(Frame::Statements(branch.block.as_slice()));
        } else {
            self.put(Frame::Branches(others, otherwise));
        }
        self.stay();
        Some(Mark {
            label: Label::If(branch.line, is_met),
            code: last.code,
            stopped: false,
        })
    }

    // The end of a transaction: it commits, or goes back to its entry after a stop.
    fn step_end(&mut self, last: Mark, line: usize, entry: usize) -> Mark
        requires earlier { entry ≤ self.old.history.place }
        requires ready { IsReady last (with_frame (Frame.End line entry) self.old) }
        ensures { IsStep last (with_frame (Frame.End line entry) self.old)
            (Ok (Some result)) self.new }
    {
        let label = if last.stopped {
            self.go_back(entry);
            Label::Rollback(line)
        } else {
            self.stay();
            Label::Commit(line)
        };
        Mark {
            label,
            code: last.code,
            stopped: false,
        }
    }

    // The next step of a frame that was taken off, if it has one.
    fn step_frame(&mut self, last: Mark, frame: Frame<'a>) -> Result<Option<Mark>, AllocError>
        requires fits { FitsOn self.old frame }
        requires ready { IsReady last (with_frame frame self.old) }
        ensures step { IsStep last (with_frame frame.entry self.old) result self.new }
        ensures passed { result ≡ Ok None → all_skips self.new.frames
            < all_skips (frame.entry ∷ self.old.frames) }
    {
        match frame {
            Frame::End(line, entry) => Ok(Some(self.step_end(last, line, entry))),
            _ if last.stopped => Ok(None),
            Frame::Statements(statements) => Ok(self.step_statements(last, statements)),
            Frame::Lines(lines, entry) => self.step_lines(last, lines, entry),
            Frame::Branches(branches, otherwise) => {
                Ok(self.step_branches(last, branches, otherwise))
            }
        }
    }

    /// The next step, if the run is not over. Only the step of an update line may be refused; the same steps are then
    /// still to come.
    pub fn step(&mut self, last: Mark) -> Result<Option<Mark>, AllocError>
        requires ready { IsReady last self.old }
        ensures step { IsStep last self.old result self.new }
        ensures over { result ≡ Ok None → self.new.frames ≡ [] }
    {
        while let Some(frame) = self.take() {
            match self.step_frame(last, frame) {
                Ok(None) => {}
                stepped => return stepped,
            }
        }
        Ok(None)
    }

    /// Each step to the end, after one that left this mark; the mark of the last one. No step can be gone back to.
    pub fn run_to_end(&mut self, first: Mark) -> Result<Mark, AllocError>
        requires ready { IsReady first self.old }
        ensures end { IfOk result (λ last.
            (standing last self.new).outcome ≡ ending first self.old) }
        ensures alike { OnOk result (IsAlike self.old self.new) }
    {
        let mut last = first;
        while let Some(mark) = self.step(last)? {
            last = mark;
        }
        Ok(last)
    }
}
