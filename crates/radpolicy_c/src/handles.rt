//! The handle that C keeps for a policy.

ghost use Rattle.std.specs.Prelude.{◌≡◌, None, Some, IfOk, MatchOption, is_some};
ghost use Rattle.radpolicy_c.specs.Closing.{closing_status};
ghost use Rattle.radpolicy_c.specs.Sharing.{SharesBy};

use crate::held::Held;
use crate::loose::Loose;
use crate::shared::SharedPolicy;
use crate::statuses::Status;
use std::alloc::{AllocError, Global};
use std::mem;

/// A policy with its dictionary, or none. C begins with one of zeros, which holds none.
// A copy in C of a handle that was closed since is C's fault, as a pointer that was freed is.
#[repr(C)]
pub struct RadpolicyPolicy {
    pub held: Held,
    pub is_open: bool,
    ghost opened: { is_open ≡ is_some held.policy },
}

impl RadpolicyPolicy {
    /// A handle that holds no policy.
    pub(crate) fn closed() -> RadpolicyPolicy
        ensures { result.held.policy ≡ None }
    {
        RadpolicyPolicy {
            held: Held::none(),
            is_open: false,
        }
    }

    /// A handle that holds this policy. C may give it to another thread, since the policy may be given to one.
    pub(crate) fn of(policy: Box<SharedPolicy>) -> RadpolicyPolicy
        ensures { result.held.policy ≡ Some policy.value }
    {
        may_cross(&policy);
        RadpolicyPolicy {
            held: Held::of(Loose::of(policy)),
            is_open: true,
        }
    }

    /// Lets one that holds no policy go.
    pub(crate) fn end(self)
        requires { self.held.policy ≡ None }
    {
        let RadpolicyPolicy { held, is_open: _ } = self;
        held.end();
    }

    /// The policy that it holds.
    pub(crate) fn into_box(self, alloc: Global) -> Option<Box<SharedPolicy>>
        ensures { MatchOption result (self.held.policy ≡ None)
            (λ policy. self.held.policy ≡ Some policy.value) }
    {
        let RadpolicyPolicy { held, is_open } = self;
        if is_open {
            Some(held.into_loose(alloc).into_box())
        } else {
            held.end();
            None
        }
    }

    /// Gives the policy up, and leaves a handle that holds none.
    pub(crate) fn close(&mut self, alloc: Global) -> Status
        ensures closed { self.new.held.policy ≡ None }
        ensures status { result ≡ closing_status self.old.held.policy }
    {
        match mem::replace(self, RadpolicyPolicy::closed()).into_box(alloc) {
            Some(_) => Status::Done,
            None => Status::Closed,
        }
    }

    /// Gives another handle the policy that this one holds.
    pub(crate) fn share(&mut self, alloc: Global, other: &mut RadpolicyPolicy) -> Status
        ensures kept { self.new.held.policy ≡ self.old.held.policy }
        ensures shares { SharesBy result self.old.held.policy other.old.held.policy
            other.new.held.policy }
    {
        match mem::replace(self, RadpolicyPolicy::closed()).into_box(alloc) {
            Some(policy) => {
                let status = other.take_share(alloc, &policy);
                mem::replace(self, RadpolicyPolicy::of(policy)).end();
                status
            }
            None => Status::Closed,
        }
    }

    // Takes a share of this policy, where it holds none yet.
    fn take_share(&mut self, alloc: Global, policy: &SharedPolicy) -> Status
        ensures { SharesBy result (Some policy.now) self.old.held.policy self.new.held.policy }
    {
        if self.is_open {
            return Status::AlreadyOpen;
        }
        match boxed_share(alloc, policy) {
            Ok(shared) => {
                mem::replace(self, RadpolicyPolicy::of(shared)).end();
                Status::Done
            }
            Err(_) => Status::NoMemory,
        }
    }
}

fn boxed_share(alloc: Global, policy: &SharedPolicy) -> Result<Box<SharedPolicy>, AllocError>
    ensures { IfOk result (λ shared. shared.value ≡ policy.now) }
{
    let shared = policy.share()?;
    Ok(Box::new(alloc, shared)?)
}

// Where it is called, another thread may have the value.
fn may_cross<T: Send>(_value: &T) {}
