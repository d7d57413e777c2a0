//! A policy behind a pointer that C keeps.

ghost use Rattle.std.specs.Prelude.{◌≡◌, ◌≢◌, Option, None, Some};
ghost use Rattle.std.specs.Coded.{coded_option, codes};
ghost use Rattle.avp_unlang.specs.contracts.tree.Statement as e;
ghost use Rattle.radpolicy.specs.Starts.{Prepared};
ghost use Rattle.radpolicy_c.specs.Held.{held_at};

use crate::loose::Loose;
use crate::shared::SharedPolicy;
use std::alloc::Global;
use std::marker::Model;
use std::ptr;

/// A policy with its dictionary, or none.
// It is not Drop, so that no policy is let go by mistake: each is given back by `into_loose`.
#[repr(C)]
pub struct Held {
    at: *mut u8,
    pub ghost policy: { Option Prepared } by { Prim.hlevel (codes, e.the_row.coded) },
}

impl Model for Held {
    ghost also_owns = { λ h. held_at h.at h.policy };
}

impl Held {
    pub(crate) fn none() -> Held
        ensures { result.policy ≡ None }
    {
        Held {
            at: ptr::null_mut(),
        }
    }

    // Lets one that holds nothing go.
    pub(crate) fn end(self)
        requires { self.policy ≡ None }
    {
        let Held { at: _ } = self;
    }

    pub(crate) fn of(policy: Loose<SharedPolicy, Global>) -> Held
        ensures { result.policy ≡ Some policy.value }
    {
        let Loose { at, alloc: _ } = policy;
        Held { at: at as *mut u8 }
    }

    pub(crate) fn into_loose(self, alloc: Global) -> Loose<SharedPolicy, Global>
        requires { self.policy ≢ None }
        ensures { self.policy ≡ Some result.value }
    {
        let Held { at } = self;
        Loose {
            at: at as *mut SharedPolicy,
            alloc,
        }
    }
}
