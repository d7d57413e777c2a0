//! The functions of a store that C calls. `c/radpolicy.h` says what C has to keep.

ghost use Rattle.std.specs.Prelude.{◌≡◌, None};
ghost use Rattle.radpolicy_c.specs.Closing.{closing_status};
ghost use Rattle.radpolicy_c.specs.Statuses.{number_of};
ghost use Rattle.radpolicy_c.specs.StorePairs.{edit_given, list_given};
ghost use Rattle.radpolicy_c.specs.Stores.{EditsStoreBy, MovesStoreBy, MovesStoreWithin, OpensStoreBy, TellsCountBy, TellsPair, TellsPlaceBy, redone, rolled_back, settling, undone};
ghost use Rattle.radpolicy_c.specs.declared.statuses.Status.{Status as Ending};

use crate::store_pairs::{RadpolicyEdit, RadpolicyStorePair};
use crate::stores::RadpolicyStore;
use std::alloc::Global;

/// Opens a store of empty lists.
#[unsafe(no_mangle)]
pub extern "C" fn radpolicy_store_open(alloc: Global, store: &mut RadpolicyStore) -> u8
    ensures { (status : Ending)
        × OpensStoreBy status store.old.held.history store.new.held.history
        × (result ≡ number_of status) }
{
    store.open(alloc).number()
}

/// Closes a store: gives its memory back, and leaves a handle that holds none.
#[unsafe(no_mangle)]
pub extern "C" fn radpolicy_store_close(alloc: Global, store: &mut RadpolicyStore) -> u8
    ensures closed { store.new.held.history ≡ None }
    ensures status { result ≡ number_of (closing_status store.old.held.history) }
{
    store.close(alloc).number()
}

/// Edits a list. The states after the present one are cut off, and the edited one is added.
#[unsafe(no_mangle)]
pub extern "C" fn radpolicy_store_edit(
    alloc: Global,
    store: &mut RadpolicyStore,
    edit: &RadpolicyEdit<'_>,
) -> u8
    ensures { (status : Ending) × EditsStoreBy status (edit_given edit.now)
        store.old.held.history store.new.held.history × (result ≡ number_of status) }
{
    store.edit(alloc, edit).number()
}

/// Goes to the state before.
#[unsafe(no_mangle)]
pub extern "C" fn radpolicy_store_undo(alloc: Global, store: &mut RadpolicyStore) -> u8
    ensures { (status : Ending)
        × MovesStoreBy status undone store.old.held.history store.new.held.history
        × (result ≡ number_of status) }
{
    store.undo(alloc).number()
}

/// Goes to the state after.
#[unsafe(no_mangle)]
pub extern "C" fn radpolicy_store_redo(alloc: Global, store: &mut RadpolicyStore) -> u8
    ensures { (status : Ending)
        × MovesStoreBy status redone store.old.held.history store.new.held.history
        × (result ≡ number_of status) }
{
    store.redo(alloc).number()
}

/// Goes back to the lists at an earlier place, as one more state, which can be undone.
#[unsafe(no_mangle)]
pub extern "C" fn radpolicy_store_rollback(
    alloc: Global,
    store: &mut RadpolicyStore,
    to: usize,
) -> u8
    ensures { (status : Ending)
        × MovesStoreWithin status (rolled_back to) store.old.held.history
        store.new.held.history × (result ≡ number_of status) }
{
    store.rollback(alloc, to).number()
}

/// Forgets each state but the present one.
#[unsafe(no_mangle)]
pub extern "C" fn radpolicy_store_settle(alloc: Global, store: &mut RadpolicyStore) -> u8
    ensures { (status : Ending)
        × MovesStoreBy status settling store.old.held.history store.new.held.history
        × (result ≡ number_of status) }
{
    store.settle(alloc).number()
}

/// Tells the place of the present state.
#[unsafe(no_mangle)]
pub extern "C" fn radpolicy_store_place(
    alloc: Global,
    store: &mut RadpolicyStore,
    place: &mut usize,
) -> u8
    ensures kept { store.new.held.history ≡ store.old.held.history }
    ensures tells { (status : Ending) × TellsPlaceBy status store.old.held.history place.new
        × (result ≡ number_of status) }
{
    store.tell_place(alloc, place).number()
}

/// Tells how many pairs a list has.
#[unsafe(no_mangle)]
pub extern "C" fn radpolicy_store_count(
    alloc: Global,
    store: &mut RadpolicyStore,
    list: u8,
    count: &mut usize,
) -> u8
    ensures kept { store.new.held.history ≡ store.old.held.history }
    ensures tells { (status : Ending)
        × TellsCountBy status (list_given list) store.old.held.history count.new
        × (result ≡ number_of status) }
{
    store.tell_count(alloc, list, count).number()
}

/// Tells the pair at a place of a list. The octets of its value go to the front of the room.
#[unsafe(no_mangle)]
pub extern "C" fn radpolicy_store_pair(
    alloc: Global,
    store: &mut RadpolicyStore,
    list: u8,
    at: usize,
    pair: &mut RadpolicyStorePair,
    room: &mut [u8],
) -> u8
    ensures kept { store.new.held.history ≡ store.old.held.history }
    ensures tells { (status : Ending)
        × TellsPair status store.old.held.history (list_given list) at pair.new room.old room.new
        × (result ≡ number_of status) }
{
    store.tell_pair(alloc, list, at, pair, room).number()
}
