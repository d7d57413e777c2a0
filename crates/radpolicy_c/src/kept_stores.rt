//! The lists behind a handle.

ghost use Rattle.std.specs.Prelude.{◌≡◌, ◌↔◌, ◌<◌, ◌≤◌, ◌+◌, ◌-◌, IfOk, OnOk, OnErr, IsErrOf, IsTrue, Some, length, slice_get};
ghost use Rattle.std.specs.Bool.{OnTrue, OnFalse};
ghost use Rattle.std.specs.Option.{option_copied};
ghost use Rattle.avp_lists.specs.History.{after_edit, after_rollback, at_place, present, settled, starting};
ghost use Rattle.avp_lists.specs.States.{IsFull, empty_state, list_of};
ghost use Rattle.radpolicy_c.specs.StorePairs.{edit_given, list_given};
ghost use Rattle.radpolicy_c.specs.Stores.{EditsStoreBy, MovesStoreWithin, TellsCountBy, TellsPair, pair_there, rolled_back};

use crate::statuses::Status;
use crate::store_pairs::{RadpolicyEdit, RadpolicyStorePair, edit_given, list_given, tell_pair};
use avp_lists::{Edit, EditFault, List, Pair, SlotStore, Store};
use std::alloc::{AllocError, Global};
use std::marker::Model;

/// Lists with the states that they went through.
#[derive(Drop)]
pub struct KeptStore {
    store: SlotStore,
}

impl Model for KeptStore {
    ghost use Rattle.avp_lists.specs.History.{History};

    ghost Value = { History };

    ghost view = { λ k. ⟦<SlotStore as Store>⟧.history k.store };
}

impl KeptStore {
    /// One state of empty lists.
    pub(crate) fn new(alloc: Global) -> Result<KeptStore, AllocError>
        ensures { IfOk result (λ store. store ≡ starting empty_state) }
    {
        match SlotStore::new(alloc, Vec::new(alloc), Vec::new(alloc), Vec::new(alloc)) {
            Ok(store) => Ok(KeptStore { store }),
            Err(_) => Err(AllocError),
        }
    }

    pub(crate) fn count(&self, list: List) -> usize
        ensures { result ≡ length (list_of list (present self.now)) }
    {
        self.store.count(list)
    }

    pub(crate) fn pair(&self, list: List, at: usize) -> Option<&Pair>
        ensures { option_copied result ≡ slice_get (list_of list (present self.now)) at }
    {
        self.store.pair(list, at)
    }

    pub(crate) fn place(&self) -> usize
        ensures { result ≡ self.now.place }
    {
        self.store.place()
    }

    pub(crate) fn edit(&mut self, edit: Edit) -> Result<(), EditFault>
        ensures ok { OnOk result (self.new ≡ after_edit edit self.old) }
        ensures full { IsErrOf result EditFault.Full ↔ IsFull edit (present self.old) }
        ensures err { OnErr result (self.new ≡ self.old) }
    {
        self.store.edit(edit)
    }

    pub(crate) fn undo(&mut self) -> bool
        ensures variant { IsTrue result ↔ (0 < self.old.place) }
        ensures moved { self.new ≡ at_place (self.old.place - 1) self.old }
    {
        self.store.undo()
    }

    pub(crate) fn redo(&mut self) -> bool
        ensures variant { IsTrue result ↔ (self.old.place + 1 < length self.old.states) }
        ensures moved { OnTrue result (self.new ≡ at_place (self.old.place + 1) self.old) }
        ensures end { OnFalse result (self.new ≡ self.old) }
    {
        self.store.redo()
    }

    pub(crate) fn rollback(&mut self, to: usize) -> Result<(), AllocError>
        requires { to ≤ self.old.place }
        ensures ok { OnOk result (self.new ≡ after_rollback to self.old) }
        ensures err { OnErr result (self.new ≡ self.old) }
    {
        self.store.rollback(to)
    }

    pub(crate) fn settle(&mut self)
        ensures { self.new ≡ settled self.old }
    {
        self.store.settle();
    }

    /// Edits the present state, where the numbers of the edit name one.
    pub(crate) fn edit_given(&mut self, alloc: Global, asked: &RadpolicyEdit<'_>) -> Status
        ensures { EditsStoreBy result (edit_given asked.now) (Some self.old) (Some self.new) }
    {
        match edit_given(alloc, asked) {
            Ok(Some(edit)) => match self.edit(edit) {
                Ok(()) => Status::Done,
                Err(EditFault::Full) => Status::Full,
                Err(EditFault::Memory) => Status::NoMemory,
            },
            Ok(None) => Status::NotThere,
            Err(_) => Status::NoMemory,
        }
    }

    /// Rolls back to an earlier place, or to the present one.
    pub(crate) fn rollback_if_there(&mut self, to: usize) -> Status
        ensures { MovesStoreWithin result (rolled_back to) (Some self.old) (Some self.new) }
    {
        if self.place() < to {
            return Status::NotThere;
        }
        match self.rollback(to) {
            Ok(()) => Status::Done,
            Err(_) => Status::NoMemory,
        }
    }

    pub(crate) fn tell_count(&self, list: u8, count: &mut usize) -> Status
        ensures { TellsCountBy result (list_given list) (Some self.now) count.new }
    {
        match list_given(list) {
            Some(list) => {
                *count = self.count(list);
                Status::Done
            }
            None => {
                *count = 0;
                Status::NotThere
            }
        }
    }

    fn pair_there(&self, list: u8, at: usize) -> Option<&Pair>
        ensures { option_copied result ≡ pair_there (list_given list) self.now at }
    {
        match list_given(list) {
            Some(list) => self.pair(list, at),
            None => None,
        }
    }

    pub(crate) fn tell_pair(
        &self,
        list: u8,
        at: usize,
        shown: &mut RadpolicyStorePair,
        room: &mut [u8],
    ) -> Status
        ensures { TellsPair result (Some self.now) (list_given list) at shown.new room.old
            room.new }
    {
        match self.pair_there(list, at) {
            Some(pair) => tell_pair(pair, shown, room),
            None => {
                *shown = RadpolicyStorePair::none();
                Status::NotThere
            }
        }
    }
}
