//! Runs of one policy, one after another.

ghost use Rattle.std.specs.Prelude.{◌≡◌, true, IfErr, IfOk, IsTrue, None, OnOk, Some};
ghost use Rattle.avp_dict.specs.Sent.{is_clean};
ghost use Rattle.avp_unlang.specs.PolicyPatterns.{is_among, policy_patterns_pass};
ghost use Rattle.radpolicy.specs.Faults.{IsPrintedAnywhere, MemoryOr};
ghost use Rattle.radpolicy.specs.Replies.{proxy_states};
ghost use Rattle.radpolicy.specs.RunOutcomes.{OutcomeIsRead, outcome_of};
ghost use Rattle.radpolicy.specs.declared.faults.Fault.TheVariants as fault;

use crate::faults::Fault;
use crate::prepared::PreparedPolicy;
use crate::run_outcomes::RunOutcome;
use crate::starts::Start;
use avp_step::Searches;
use std::alloc::{AllocError, Global};
use std::marker::Model;

/// Runs a prepared policy on one request after another, and keeps what searches for its patterns, and the room for what
/// they capture, from run to run: to make that is dear beside a run. So the first run takes the memory for that, and so
/// does one after a run that was refused.
pub struct Runner<'p> {
    alloc: Global,
    prepared: &'p PreparedPolicy<'p>,
    // None before the first run, and after one that was refused.
    searches: Option<Searches<'p>>,
}

impl Drop for Runner<'_> {
    fn drop(self) {
        let Runner {
            alloc: _,
            prepared: _,
            searches: _,
        } = self;
    }
}

impl<'p> Model for Runner<'p> {
    ghost use Rattle.std.specs.Coded.{codes};
    ghost use Rattle.std.specs.Prelude.{IfSome, IsTrue};
    ghost use Rattle.avp_unlang.specs.contracts.tree.Statement as e;
    ghost use Rattle.avp_unlang.specs.PolicyPatterns.{is_among, policy_patterns_pass};
    ghost use Rattle.radpolicy.specs.Starts.{Prepared};

    ghost Value = { Prepared };

    ghost coded = { Prim.hlevel (codes, e.the_row.coded) };

    ghost view = { λ r. r.prepared.now };

    ghost invariant = { λ r. IfSome r.searches (λ s.
        IsTrue (policy_patterns_pass (is_among s.patterns) r.prepared.now.statements)) };
}

impl<'p> Runner<'p> {
    /// A runner of this policy.
    pub fn new(alloc: Global, prepared: &'p PreparedPolicy<'p>) -> Runner<'p>
        ensures { result ≡ prepared.entry.now }
    {
        Runner {
            alloc,
            prepared,
            searches: None,
        }
    }

    /// The policy.
    pub fn prepared(&self) -> &'p PreparedPolicy<'p>
        ensures { result.now ≡ self.now }
    {
        self.prepared
    }

    // What the next run searches with.
    fn take_searches(&mut self) -> Result<Searches<'p>, AllocError>
        ensures passes { IfOk result (λ searches.
            IsTrue (policy_patterns_pass (is_among searches.patterns) self.old.statements)) }
        ensures kept { self.new ≡ self.old }
    {
        match self.searches.take() {
            Some(searches) => Ok(searches),
            None => Searches::new(self.alloc, self.prepared.policy().patterns()),
        }
    }

    /// Runs the policy to its end, as [`Start::run`] does. The start is one of this policy.
    ///
    /// ```rust
    /// // The policy is `update reply { Session-Timeout := 600 }`.
    /// let mut runner = Runner::new(alloc, prepared);
    /// let (kind, id, authenticator) = (RequestKind::Access, 7, None);
    /// let head = RequestHead {
    ///     kind,
    ///     id,
    ///     authenticator,
    /// };
    /// let start = Start::of_lines(
    ///     alloc,
    ///     prepared,
    ///     None,
    ///     head,
    ///     Profile::Plain,
    ///     None,
    ///     b"NAS-Port = 3",
    /// )?;
    /// assert_eq!(rt; runner.run(start)?.store().count(List::Reply), 1);
    /// ```
    pub fn run<'a>(&mut self, start: Start<'a>) -> Result<RunOutcome<'a>, Fault>
        requires policy { start.prepared.statements ≡ self.old.statements }
        ensures ok { IfOk result (λ outcome. outcome_of start.entry ≡ Some outcome) }
        ensures refused { IfErr result (MemoryOr (λ f. (f ≡ fault.PacketTooLong)
            × (outcome_of start.entry ≡ None))) }
        ensures read { OnOk result
            (is_clean start.entry.reply start.entry.prepared.dictionary ≡ true
            → is_clean (proxy_states start.entry.request) start.entry.prepared.dictionary ≡ true
            → OutcomeIsRead start.entry) }
        ensures printed { IfErr result IsPrintedAnywhere }
        ensures kept { self.new ≡ self.old }
    {
        let searches = self.take_searches()?;
        let (outcome, searches) = start.run_with(self.alloc, searches)?;
        self.searches = Some(searches);
        Ok(outcome)
    }
}
