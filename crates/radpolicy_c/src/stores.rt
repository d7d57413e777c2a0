//! The handle that C keeps for a store.

ghost use Rattle.std.specs.Prelude.{◌≡◌, if◌then◌else◌, None, Some, IfOk, MatchOption, is_some};
ghost use Rattle.avp_lists.specs.History.{starting};
ghost use Rattle.avp_lists.specs.States.{empty_state};
ghost use Rattle.radpolicy_c.specs.Closing.{closing_status};
ghost use Rattle.radpolicy_c.specs.StorePairs.{edit_given, list_given};
ghost use Rattle.radpolicy_c.specs.Stores.{EditsStoreBy, MovesStoreBy, MovesStoreWithin, OpensStoreBy, TellsCountBy, TellsPair, TellsPlaceBy, redone, rolled_back, settling, undone};
ghost use Rattle.radpolicy_c.specs.declared.statuses.Status.TheVariants.{Done, NotThere};

use crate::held_stores::HeldStore;
use crate::kept_stores::KeptStore;
use crate::loose::Loose;
use crate::statuses::Status;
use crate::store_pairs::{RadpolicyEdit, RadpolicyStorePair};
use std::alloc::{AllocError, Global};
use std::mem;

/// A store of lists, or none. C begins with one of zeros, which holds none.
#[repr(C)]
pub struct RadpolicyStore {
    pub held: HeldStore,
    pub is_open: bool,
    ghost opened: { is_open ≡ is_some held.history },
}

impl RadpolicyStore {
    /// A handle that holds no store.
    pub(crate) fn closed() -> RadpolicyStore
        ensures { result.held.history ≡ None }
    {
        RadpolicyStore {
            held: HeldStore::none(),
            is_open: false,
        }
    }

    /// A handle that holds this store. C may give it to another thread, since the store may be given to one.
    pub(crate) fn of(store: Box<KeptStore>) -> RadpolicyStore
        ensures { result.held.history ≡ Some store.value }
    {
        may_cross(&store);
        RadpolicyStore {
            held: HeldStore::of(Loose::of(store)),
            is_open: true,
        }
    }

    /// Lets one that holds no store go.
    pub(crate) fn end(self)
        requires { self.held.history ≡ None }
    {
        let RadpolicyStore { held, is_open: _ } = self;
        held.end();
    }

    /// The store that it holds.
    pub(crate) fn into_box(self, alloc: Global) -> Option<Box<KeptStore>>
        ensures { MatchOption result (self.held.history ≡ None)
            (λ store. self.held.history ≡ Some store.value) }
    {
        let RadpolicyStore { held, is_open } = self;
        if is_open {
            Some(held.into_loose(alloc).into_box())
        } else {
            held.end();
            None
        }
    }

    /// The store that it holds, which is to be put back.
    pub(crate) fn take(&mut self, alloc: Global) -> Option<Box<KeptStore>>
        ensures taken { MatchOption result (self.old.held.history ≡ None)
            (λ store. self.old.held.history ≡ Some store.value) }
        ensures left { self.new.held.history ≡ None }
    {
        mem::replace(self, RadpolicyStore::closed()).into_box(alloc)
    }

    /// Puts a store back.
    pub(crate) fn put(&mut self, store: Box<KeptStore>)
        requires { self.old.held.history ≡ None }
        ensures { self.new.held.history ≡ Some store.value }
    {
        mem::replace(self, RadpolicyStore::of(store)).end();
    }

    /// Opens a store of empty lists, where none is held yet.
    pub(crate) fn open(&mut self, alloc: Global) -> Status
        ensures { OpensStoreBy result self.old.held.history self.new.held.history }
    {
        if self.is_open {
            return Status::AlreadyOpen;
        }
        match boxed_store(alloc) {
            Ok(store) => {
                self.put(store);
                Status::Done
            }
            Err(_) => Status::NoMemory,
        }
    }

    /// Edits the present state.
    pub(crate) fn edit(&mut self, alloc: Global, asked: &RadpolicyEdit<'_>) -> Status
        ensures { EditsStoreBy result (edit_given asked.now) self.old.held.history
            self.new.held.history }
    {
        match self.take(alloc) {
            Some(mut store) => {
                let status = store.edit_given(alloc, asked);
                self.put(store);
                status
            }
            None => Status::Closed,
        }
    }

    pub(crate) fn undo(&mut self, alloc: Global) -> Status
        ensures { MovesStoreBy result undone self.old.held.history self.new.held.history }
    {
        match self.take(alloc) {
            Some(mut store) => {
                let status = moved(store.undo());
                self.put(store);
                status
            }
            None => Status::Closed,
        }
    }

    pub(crate) fn redo(&mut self, alloc: Global) -> Status
        ensures { MovesStoreBy result redone self.old.held.history self.new.held.history }
    {
        match self.take(alloc) {
            Some(mut store) => {
                let status = moved(store.redo());
                self.put(store);
                status
            }
            None => Status::Closed,
        }
    }

    pub(crate) fn rollback(&mut self, alloc: Global, to: usize) -> Status
        ensures { MovesStoreWithin result (rolled_back to) self.old.held.history
            self.new.held.history }
    {
        match self.take(alloc) {
            Some(mut store) => {
                let status = store.rollback_if_there(to);
                self.put(store);
                status
            }
            None => Status::Closed,
        }
    }

    pub(crate) fn settle(&mut self, alloc: Global) -> Status
        ensures { MovesStoreBy result settling self.old.held.history self.new.held.history }
    {
        match self.take(alloc) {
            Some(mut store) => {
                store.settle();
                self.put(store);
                Status::Done
            }
            None => Status::Closed,
        }
    }

    pub(crate) fn tell_place(&mut self, alloc: Global, place: &mut usize) -> Status
        ensures kept { self.new.held.history ≡ self.old.held.history }
        ensures tells { TellsPlaceBy result self.old.held.history place.new }
    {
        match self.take(alloc) {
            Some(store) => {
                *place = store.place();
                self.put(store);
                Status::Done
            }
            None => {
                *place = 0;
                Status::Closed
            }
        }
    }

    pub(crate) fn tell_count(&mut self, alloc: Global, list: u8, count: &mut usize) -> Status
        ensures kept { self.new.held.history ≡ self.old.held.history }
        ensures tells { TellsCountBy result (list_given list) self.old.held.history count.new }
    {
        match self.take(alloc) {
            Some(store) => {
                let status = store.tell_count(list, count);
                self.put(store);
                status
            }
            None => {
                *count = 0;
                Status::Closed
            }
        }
    }

    /// Tells the pair at a place of a list, with the octets of its value in the room.
    pub(crate) fn tell_pair(
        &mut self,
        alloc: Global,
        list: u8,
        at: usize,
        shown: &mut RadpolicyStorePair,
        room: &mut [u8],
    ) -> Status
        ensures kept { self.new.held.history ≡ self.old.held.history }
        ensures tells { TellsPair result self.old.held.history (list_given list) at shown.new
            room.old room.new }
    {
        match self.take(alloc) {
            Some(store) => {
                let status = store.tell_pair(list, at, shown, room);
                self.put(store);
                status
            }
            None => {
                *shown = RadpolicyStorePair::none();
                Status::Closed
            }
        }
    }

    /// Gives the store up, and leaves a handle that holds none.
    pub(crate) fn close(&mut self, alloc: Global) -> Status
        ensures closed { self.new.held.history ≡ None }
        ensures status { result ≡ closing_status self.old.held.history }
    {
        match self.take(alloc) {
            Some(_) => Status::Done,
            None => Status::Closed,
        }
    }
}

fn moved(has_moved: bool) -> Status
    ensures { result ≡ if has_moved then Done else NotThere }
{
    if has_moved {
        Status::Done
    } else {
        Status::NotThere
    }
}

fn boxed_store(alloc: Global) -> Result<Box<KeptStore>, AllocError>
    ensures { IfOk result (λ store. store.value ≡ starting empty_state) }
{
    let store = KeptStore::new(alloc)?;
    Ok(Box::new(alloc, store)?)
}

// Where it is called, another thread may have the value.
fn may_cross<T: Send>(_value: &T) {}
