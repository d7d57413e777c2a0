//! Lists with one attribute set, for a run that is begun anew.

ghost use Rattle.std.specs.Prelude.{◌≡◌, ◌⊎◌, IfOk, IsErrOf};
ghost use Rattle.avp_lists.specs.History.{starting};
ghost use Rattle.avp_lists.specs.States.{IsFull};
ghost use Rattle.radpolicy_walk_commands.specs.Settings.{HasLongList, setting, with_set};

use crate::sessions::present_lists;
use avp_lists::{Edit, EditFault, List, MAX_PAIRS, Op, Pair, SlotStore, State, Store};
use std::alloc::Global;

// A store that begins with these lists.
fn store_of(alloc: Global, lists: State) -> Result<SlotStore, EditFault>
    ensures ok { IfOk result (λ store. ⟦<SlotStore as Store>⟧.history store ≡ starting lists) }
    ensures full { IsErrOf result EditFault.Full → HasLongList lists }
{
    let (request, reply) = (lists.request.into_vec(), lists.reply.into_vec());
    let control = lists.control.into_vec();
    if request.len() > MAX_PAIRS || reply.len() > MAX_PAIRS || control.len() > MAX_PAIRS {
        return Err(EditFault::Full);
    }
    match SlotStore::new(alloc, request, reply, control) {
        Ok(store) => Ok(store),
        Err(_) => Err(EditFault::Memory),
    }
}

/// The lists with this pair set in one of them: in the place of the first instance of its attribute, whose other
/// instances go, or at the end. Refused where the list would have more than 4,096 pairs.
pub fn with_set(alloc: Global, lists: State, list: List, pair: Pair) -> Result<State, EditFault>
    ensures ok { IfOk result (λ set. set ≡ with_set list pair lists) }
    ensures full { IsErrOf result EditFault.Full
        → HasLongList lists ⊎ IsFull (setting list pair) lists }
{
    let mut store = store_of(alloc, lists)?;
    store.edit(Edit {
        list,
        op: Op::Replace,
        pair,
    })?;
    match present_lists(&store) {
        Ok(lists) => Ok(lists),
        Err(_) => Err(EditFault::Memory),
    }
}
