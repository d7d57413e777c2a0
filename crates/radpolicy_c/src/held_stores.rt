//! Lists behind a pointer that C keeps.

ghost use Rattle.std.specs.Prelude.{◌≡◌, ◌≢◌, Option, None, Some};
ghost use Rattle.std.specs.Coded.{codes};
ghost use Rattle.avp_lists.specs.History.{History};
ghost use Rattle.radpolicy_c.specs.HeldStores.{store_at};

use crate::kept_stores::KeptStore;
use crate::loose::Loose;
use std::alloc::Global;
use std::marker::Model;
use std::ptr;

/// A store, or none.
// As `Held`, of which there is one for each type, since what crosses to C has no type parameters.
#[repr(C)]
pub struct HeldStore {
    at: *mut u8,
    pub ghost history: { Option History } by { Prim.hlevel (codes) },
}

impl Model for HeldStore {
    ghost also_owns = { λ h. store_at h.at h.history };
}

impl HeldStore {
    pub(crate) fn none() -> HeldStore
        ensures { result.history ≡ None }
    {
        HeldStore {
            at: ptr::null_mut(),
        }
    }

    // Lets one that holds nothing go.
    pub(crate) fn end(self)
        requires { self.history ≡ None }
    {
        let HeldStore { at: _ } = self;
    }

    pub(crate) fn of(store: Loose<KeptStore, Global>) -> HeldStore
        ensures { result.history ≡ Some store.value }
    {
        let Loose { at, alloc: _ } = store;
        HeldStore { at: at as *mut u8 }
    }

    pub(crate) fn into_loose(self, alloc: Global) -> Loose<KeptStore, Global>
        requires { self.history ≢ None }
        ensures { self.history ≡ Some result.value }
    {
        let HeldStore { at } = self;
        Loose {
            at: at as *mut KeptStore,
            alloc,
        }
    }
}
