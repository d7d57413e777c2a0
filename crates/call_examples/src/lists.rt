//! Pairs, and stores with their first state.

use avp_lists::{AttrId, List, MAX_PAIRS, Pair, SlotStore, Store, Value, copy_pair};
use std::alloc::Global;
use std::process::Abort;
use std::test::Fail;

// Example: copy_pair
fn copies_a_pair(rt: &impl Abort, alloc: Global) -> Result<(), Fail> {
    let id = AttrId::Plain(27);
    let value = Value::Int(600);
    let timeout = Pair { id, value };
    let copy = copy_pair(alloc, &timeout)?;
    assert!(rt; copy.equals(&timeout));
    Ok(())
}

// Example: SlotStore::new
fn new_slot_store(rt: &impl Abort, alloc: Global, request: Vec<Pair>) -> Result<(), Fail> {
    // The request is `NAS-Port = 3`.
    if request.len() > MAX_PAIRS {
        return Err(Fail::new("too many pairs"));
    }
    let store = SlotStore::new(alloc, request, Vec::new(alloc), Vec::new(alloc))?;
    assert_eq!(rt; store.count(List::Request), 1);
    Ok(())
}

#[test]
fn lists(rt: HostRuntime) -> Result<(), Fail> {
    let alloc = rt.alloc();
    copies_a_pair(&rt, alloc)?;
    let id = AttrId::Plain(5);
    let value = Value::Int(3);
    let request = vec![in alloc; Pair { id, value }]?;
    new_slot_store(&rt, alloc, request)
}
