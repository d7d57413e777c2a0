//! Edits of a store, and the ways back.

use avp_lists::{
    AttrId, Edit, List, Octets, Op, Pair, Selection, SlotStore, Store, Tagging, Value,
    edit_and_undo, tag_of, undo_by,
};
use std::alloc::Global;
use std::process::Abort;
use std::test::Fail;

// Example: Store::edit
fn edits<S: Store>(rt: &impl Abort, store: &mut S) -> Result<(), Fail> {
    let id = AttrId::Plain(27);
    let value = Value::Int(600);
    store.edit(Edit {
        list: List::Reply,
        op: Op::Replace,
        pair: Pair { id, value },
    })?;
    assert_eq!(rt; store.count(List::Reply), 1);
    Ok(())
}

// Example: Store::first
fn finds_an_instance<S: Store>(rt: &impl Abort, store: &S) -> Result<(), Fail> {
    // The reply is `Session-Timeout = 600`.
    let timeout = store
        .first(List::Reply, AttrId::Plain(27))
        .ok_or("no timeout")?;
    assert!(rt; timeout.value == Value::Int(600));
    Ok(())
}

// Example: Store::edit_selected
fn edits_a_tag<S: Store>(rt: &impl Abort, alloc: Global, store: &mut S) -> Result<(), Fail> {
    // The reply is `Tunnel-Type:1 = VLAN`, and GRE is the number 10.
    let id = AttrId::Plain(64);
    let value = Value::Bytes(Octets::from_slice(alloc, &[2, 0, 0, 10])?);
    let gre = Edit {
        list: List::Reply,
        op: Op::Replace,
        pair: Pair { id, value },
    };
    store.edit_selected(gre, Selection::Tag(Tagging::Number, 2))?;
    assert_eq!(rt; store.count(List::Reply), 2);
    Ok(())
}

// Example: Store::first_selected
fn finds_a_tag<S: Store>(rt: &impl Abort, store: &S) -> Result<(), Fail> {
    // The reply is `Tunnel-Type:1 = VLAN`, `Tunnel-Type:2 = GRE`.
    let second = Selection::Tag(Tagging::Number, 2);
    let tunnel = store
        .first_selected(List::Reply, AttrId::Plain(64), second)
        .ok_or("no tunnel")?;
    assert_eq!(rt; tag_of(Tagging::Number, &tunnel.value), Some(2));
    Ok(())
}

// Example: Store::pair
fn finds_a_pair<S: Store>(rt: &impl Abort, store: &S) -> Result<(), Fail> {
    // The reply is `Session-Timeout = 600`.
    let timeout = store.pair(List::Reply, 0).ok_or("no timeout")?;
    assert!(rt; timeout.value == Value::Int(600));
    assert!(rt; store.pair(List::Reply, 1).is_none());
    Ok(())
}

// Example: Store::undo
fn goes_back<S: Store>(rt: &impl Abort, store: &mut S, edit: Edit) -> Result<(), Fail> {
    // The reply has no pair, and the edit adds one.
    store.edit(edit)?;
    assert_eq!(rt; store.count(List::Reply), 1);
    assert!(rt; store.undo());
    assert_eq!(rt; store.count(List::Reply), 0);
    assert!(rt; store.redo());
    assert_eq!(rt; store.count(List::Reply), 1);
    Ok(())
}

// Example: Store::rollback
fn rolls_back<S: Store>(rt: &impl Abort, store: &mut S, edit: Edit) -> Result<(), Fail> {
    // The reply has no pair, and the edit adds one.
    let entry = store.place();
    store.edit(edit)?;
    store.rollback(entry)?;
    assert_eq!(rt; store.count(List::Reply), 0);
    assert!(rt; store.undo());
    assert_eq!(rt; store.count(List::Reply), 1);
    Ok(())
}

// Example: Store::settle
fn forgets<S: Store>(rt: &impl Abort, store: &mut S, edit: Edit) -> Result<(), Fail> {
    // The reply has no pair, and the edit adds one.
    store.edit(edit)?;
    store.settle();
    assert!(rt; !store.undo());
    assert_eq!(rt; (store.count(List::Reply), store.steps()), (1, 0));
    Ok(())
}

// Example: undo_by
fn undoes<S: Store>(rt: &impl Abort, store: &mut S, first: Edit, second: Edit) -> Result<(), Fail> {
    // The reply has no pair, and each edit adds one.
    store.edit(first)?;
    store.edit(second)?;
    undo_by(store, 2);
    assert_eq!(rt; store.count(List::Reply), 0);
    Ok(())
}

// Example: edit_and_undo
fn tries<S: Store>(rt: &impl Abort, store: &mut S, edit: Edit) -> Result<(), Fail> {
    // The reply has no pair, and the edit adds one.
    edit_and_undo(store, edit)?;
    assert_eq!(rt; store.count(List::Reply), 0);
    assert!(rt; store.redo());
    assert_eq!(rt; store.count(List::Reply), 1);
    Ok(())
}

fn empty_store(alloc: Global) -> Result<SlotStore, Fail> {
    let store = SlotStore::new(alloc, Vec::new(alloc), Vec::new(alloc), Vec::new(alloc))?;
    Ok(store)
}

// Adds an instance of Session-Timeout.
fn timeout() -> Edit {
    let id = AttrId::Plain(27);
    let value = Value::Int(600);
    Edit {
        list: List::Reply,
        op: Op::Append,
        pair: Pair { id, value },
    }
}

#[test]
fn edits_and_looks(rt: HostRuntime) -> Result<(), Fail> {
    let mut store = empty_store(rt.alloc())?;
    edits(&rt, &mut store)?;
    finds_an_instance(&rt, &store)?;
    finds_a_pair(&rt, &store)
}

// Adds `Tunnel-Type:1 = VLAN`.
fn tunnel(alloc: Global) -> Result<Edit, Fail> {
    let id = AttrId::Plain(64);
    let value = Value::Bytes(Octets::from_slice(alloc, &[1, 0, 0, 13])?);
    Ok(Edit {
        list: List::Reply,
        op: Op::Append,
        pair: Pair { id, value },
    })
}

#[test]
fn edits_and_finds_a_tag(rt: HostRuntime) -> Result<(), Fail> {
    let mut store = empty_store(rt.alloc())?;
    store.edit(tunnel(rt.alloc())?)?;
    edits_a_tag(&rt, rt.alloc(), &mut store)?;
    finds_a_tag(&rt, &store)
}

#[test]
fn goes_back_and_on(rt: HostRuntime) -> Result<(), Fail> {
    goes_back(&rt, &mut empty_store(rt.alloc())?, timeout())?;
    rolls_back(&rt, &mut empty_store(rt.alloc())?, timeout())?;
    forgets(&rt, &mut empty_store(rt.alloc())?, timeout())?;
    undoes(&rt, &mut empty_store(rt.alloc())?, timeout(), timeout())?;
    tries(&rt, &mut empty_store(rt.alloc())?, timeout())
}
