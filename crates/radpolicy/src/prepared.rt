//! A policy that is ready to run: read once with its dictionary, and run on any number of requests.

ghost use Rattle.std.specs.Arc.{arc_value};
ghost use Rattle.std.specs.Prelude.{◌≡◌, IfOk, IfErr, List};
ghost use Rattle.avp_forms.specs.Profiles.{profile_of};
ghost use Rattle.avp_unlang.specs.Policies.{SpellsPolicy};
ghost use Rattle.avp_unlang.specs.Suiting.{IsSpelled};
ghost use Rattle.avp_unlang.specs.declared.tree.Statement.{Statement as Tree};
ghost use Rattle.radpolicy.specs.Faults.{IsPrintedAnywhere, MemoryOr};
ghost use Rattle.radpolicy.specs.JobReports.{IsRefusedAsPolicy};
ghost use Rattle.radpolicy.specs.internal.Starting.{statements_held};

use crate::faults::Fault;
use avp_dict::Dictionary;
use avp_forms::{Profile, profile_of};
use avp_unlang::{Policy, read_policy};
use std::alloc::{AllocError, Global};
use std::marker::Model;
use std::sync::Arc;

// A policy, or one that its owner lends.
#[derive(Drop)]
pub(crate) enum HeldPolicy<'a> {
    Own(Policy),
    Lent(&'a Policy),
}

impl HeldPolicy<'_> {
    fn policy(&self) -> &Policy
        ensures { result.now ≡ statements_held self.now }
    {
        match self {
            HeldPolicy::Own(policy) => policy,
            HeldPolicy::Lent(policy) => policy,
        }
    }
}

/// A policy with the dictionary by which it was read. Any number of runs may begin from it, and none changes it.
pub struct PreparedPolicy<'a> {
    dictionary: &'a Dictionary,
    profile: Profile,
    policy: HeldPolicy<'a>,
}

// As a function, so that where a policy is dropped a proof sees one step and not those of its tree.
impl<'a> Drop for PreparedPolicy<'a> {
    fn drop(self) {
        let PreparedPolicy {
            dictionary: _,
            profile: _,
            policy: _,
        } = self;
    }
}

impl<'a> Model for PreparedPolicy<'a> {
    ghost use Rattle.std.specs.Coded.{codes};
    ghost use Rattle.avp_unlang.specs.contracts.tree.Statement as e;
    ghost use Rattle.avp_unlang.specs.Suiting.{IsSpelled};
    ghost use Rattle.radpolicy.specs.Starts.{Prepared};
    ghost use Rattle.radpolicy.specs.internal.Starting.{statements_held};

    ghost Value = { Prepared };

    ghost coded = { Prim.hlevel (codes, e.the_row.coded) };

    ghost view = { λ p. record {
      dictionary = p.dictionary.now;
      profile = p.profile;
      statements = statements_held p.policy;
    } };

    ghost invariant = { λ p. IsSpelled p.dictionary.now (statements_held p.policy) };
}

impl<'a> PreparedPolicy<'a> {
    /// The policy that a text spells by a dictionary. It is refused as a job's policy is.
    ///
    /// ```rust
    /// let prepared = PreparedPolicy::read(alloc, dictionary, b"update reply { Class := 0x01 }")?;
    /// assert_eq!(rt; prepared.policy().statements().len(), 1);
    /// let refused = PreparedPolicy::read(alloc, dictionary, b"rejected").err();
    /// let (line, offset, kind) = (1, 0, PolicyKind::Misplaced);
    /// assert_eq!(rt;
    ///     refused,
    ///     Some(Fault::Policy(PolicyFault { line, offset, kind }))
    /// );
    /// ```
    pub fn read(
        alloc: Global,
        dictionary: &'a Dictionary,
        text: &[u8],
    ) -> Result<PreparedPolicy<'a>, Fault>
        ensures dictionary { IfOk result (λ prepared. prepared.dictionary ≡ dictionary.now) }
        ensures profile { IfOk result (λ prepared. prepared.profile ≡ profile_of text.now) }
        ensures spelled { IfOk result (λ prepared.
            SpellsPolicy dictionary.now text.now prepared.statements) }
        ensures refused { IfErr result (MemoryOr (IsRefusedAsPolicy dictionary.now text.now)) }
        ensures printed { IfErr result IsPrintedAnywhere }
    {
        match read_policy(alloc, dictionary, text) {
            Ok(policy) => Ok(PreparedPolicy {
                dictionary,
                profile: profile_of(text),
                policy: HeldPolicy::Own(policy),
            }),
            Err(fault) => Err(Fault::from(fault)),
        }
    }

    /// The dictionary by which the policy was read.
    pub fn dictionary(&self) -> &Dictionary
        ensures { result.now ≡ self.now.dictionary }
    {
        self.dictionary
    }

    /// The profile that the comments before the policy's first statement ask for. Lists are printed by it.
    pub fn profile(&self) -> Profile
        ensures { result ≡ self.now.profile }
    {
        self.profile
    }

    /// The policy.
    pub fn policy(&self) -> &Policy
        ensures policy { result.now ≡ self.now.statements }
        ensures spelled { IsSpelled self.now.dictionary self.now.statements }
    {
        self.policy.policy()
    }
}

/// A policy that owns its dictionary, alone or with others: for those who can't lend it one.
pub struct OwnedPolicy {
    dictionary: Arc<Dictionary>,
    profile: Profile,
    policy: Policy,
}

impl Drop for OwnedPolicy {
    fn drop(self) {
        let OwnedPolicy {
            dictionary: _,
            profile: _,
            policy: _,
        } = self;
    }
}

impl Model for OwnedPolicy {
    ghost use Rattle.std.specs.Arc.{arc_value};
    ghost use Rattle.std.specs.Coded.{codes};
    ghost use Rattle.avp_unlang.specs.contracts.tree.Statement as e;
    ghost use Rattle.avp_unlang.specs.Suiting.{IsSpelled};
    ghost use Rattle.radpolicy.specs.Starts.{Prepared};

    ghost Value = { Prepared };

    ghost coded = { Prim.hlevel (codes, e.the_row.coded) };

    ghost view = { λ o. record {
      dictionary = arc_value o.dictionary;
      profile = o.profile;
      statements = o.policy;
    } };

    ghost invariant = { λ o. IsSpelled (arc_value o.dictionary) o.policy };
}

impl OwnedPolicy {
    /// The policy that a text spells by a dictionary, refused as [`PreparedPolicy::read`] refuses it. A refusal gives
    /// up the dictionary.
    pub fn read(alloc: Global, dictionary: Dictionary, text: &[u8]) -> Result<OwnedPolicy, Fault>
        ensures dictionary { IfOk result (λ owned. owned.dictionary ≡ dictionary) }
        ensures profile { IfOk result (λ owned. owned.profile ≡ profile_of text.now) }
        ensures spelled { IfOk result (λ owned.
            SpellsPolicy dictionary text.now owned.statements) }
        ensures refused { IfErr result (MemoryOr (IsRefusedAsPolicy dictionary text.now)) }
        ensures printed { IfErr result IsPrintedAnywhere }
    {
        OwnedPolicy::read_by(alloc, Arc::new(alloc, dictionary)?, text)
    }

    /// The same by a dictionary that others may own too: one that was read once serves any number of policies.
    ///
    /// ```rust
    /// let first = OwnedPolicy::read(alloc, dictionary, b"reject")?;
    /// let second = OwnedPolicy::read_by(alloc, first.share_dictionary()?, b"ok")?;
    /// drop(first);
    /// assert_eq!(rt; second.prepared().policy().statements().len(), 1);
    /// ```
    pub fn read_by(
        alloc: Global,
        dictionary: Arc<Dictionary>,
        text: &[u8],
    ) -> Result<OwnedPolicy, Fault>
        ensures dictionary { IfOk result (λ owned. owned.dictionary ≡ arc_value dictionary) }
        ensures profile { IfOk result (λ owned. owned.profile ≡ profile_of text.now) }
        ensures spelled { IfOk result (λ owned.
            SpellsPolicy (arc_value dictionary) text.now owned.statements) }
        ensures refused { IfErr result (MemoryOr
            (IsRefusedAsPolicy (arc_value dictionary) text.now)) }
        ensures printed { IfErr result IsPrintedAnywhere }
    {
        match read_policy(alloc, &dictionary, text) {
            Ok(policy) => Ok(OwnedPolicy {
                dictionary,
                profile: profile_of(text),
                policy,
            }),
            Err(fault) => Err(Fault::from(fault)),
        }
    }

    /// The dictionary, for one more owner.
    pub fn share_dictionary(&self) -> Result<Arc<Dictionary>, AllocError>
        ensures { IfOk result (λ shared. arc_value shared ≡ self.now.dictionary) }
    {
        Arc::try_clone(&self.dictionary)
    }

    /// The dictionary and the policy, lent to runs.
    ///
    /// ```rust
    /// // The policy is `reject`.
    /// let prepared = owned.prepared();
    /// let (kind, id, authenticator) = (RequestKind::Access, 7, None);
    /// let head = RequestHead {
    ///     kind,
    ///     id,
    ///     authenticator,
    /// };
    /// let outcome = Start::of_lines(
    ///     alloc,
    ///     &prepared,
    ///     None,
    ///     head,
    ///     Profile::Plain,
    ///     None,
    ///     b"NAS-Port = 3",
    /// )?
    /// .run(alloc)?;
    /// assert_eq!(rt; (outcome.code(), outcome.stopped()), (Code::Reject, true));
    /// ```
    pub fn prepared(&self) -> PreparedPolicy<'_>
        ensures { result ≡ self.now }
    {
        PreparedPolicy {
            dictionary: &self.dictionary,
            profile: self.profile,
            policy: HeldPolicy::Lent(&self.policy),
        }
    }
}
