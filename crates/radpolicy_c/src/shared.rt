//! A policy that any number of handles hold.

ghost use Rattle.std.specs.Prelude.{◌≡◌, IfOk};

use radpolicy::OwnedPolicy;
use std::alloc::{AllocError, Global};
use std::marker::Model;
use std::sync::Arc;

/// A policy with its dictionary. The last of those that share it gives its memory back.
#[derive(Drop)]
pub struct SharedPolicy {
    inner: Arc<OwnedPolicy, Global>,
}

impl Model for SharedPolicy {
    ghost use Rattle.std.specs.Arc.{arc_value};
    ghost use Rattle.std.specs.Coded.{codes};
    ghost use Rattle.avp_unlang.specs.contracts.tree.Statement as e;
    ghost use Rattle.radpolicy.specs.Starts.{Prepared};

    ghost Value = { Prepared };

    ghost coded = { Prim.hlevel (codes, e.the_row.coded) };

    ghost view = { λ s. arc_value s.inner };
}

impl SharedPolicy {
    pub(crate) fn new(alloc: Global, policy: OwnedPolicy) -> Result<SharedPolicy, AllocError>
        ensures { IfOk result (λ shared. shared ≡ policy) }
    {
        Ok(SharedPolicy {
            inner: Arc::new(alloc, policy)?,
        })
    }

    /// One more that shares the policy.
    pub(crate) fn share(&self) -> Result<SharedPolicy, AllocError>
        ensures { IfOk result (λ shared. shared ≡ self.now) }
    {
        Ok(SharedPolicy {
            inner: Arc::try_clone(&self.inner)?,
        })
    }

    pub(crate) fn policy(&self) -> &OwnedPolicy
        ensures { result.now ≡ self.now }
    {
        &self.inner
    }
}
