//! The program of docs/LIBRARY.md: lists that are edited, and that are back whole where a step fails.
#![tactic(auto)]

ghost use Rattle.std.specs.Prelude.{◌≡◌, OnOk, OnErr};
ghost use Rattle.avp_lists.specs.History.{present};
ghost use Rattle.avp_lists.specs.States.{edited};

use avp_lists::{
    AttrId, Edit, EditFault, List, MAX_PAIRS, Op, Pair, SlotStore, Store, Value, undo_by,
};
use std::alloc::Global;
use std::io;

const SESSION_TIMEOUT: AttrId = AttrId::Plain(27);

const IDLE_TIMEOUT: AttrId = AttrId::Plain(28);

fn seconds(id: AttrId, number: u64) -> Pair {
    Pair {
        id,
        value: Value::Int(number),
    }
}

fn added(pair: Pair) -> Edit {
    Edit {
        list: List::Reply,
        op: Op::Append,
        pair,
    }
}

// Makes both edits, or none.
fn edit_twice<S: Store>(store: &mut S, first: Edit, second: Edit) -> Result<(), EditFault>
    ensures ok { OnOk result (present (S.history store.new)
        ≡ edited second (edited first (present (S.history store.old)))) }
    ensures err { OnErr result (present (S.history store.new)
        ≡ present (S.history store.old)) }
{
    store.edit(first)?;
    match store.edit(second) {
        Ok(()) => Ok(()),
        Err(fault) => {
            let _ = store.undo();
            Err(fault)
        }
    }
}

// Gives a session ten minutes, one of them without use.
fn limit_session<S: Store>(rt: &HostRuntime, store: &mut S) -> io::Result<()> {
    let first = added(seconds(SESSION_TIMEOUT, 600));
    let second = added(seconds(IDLE_TIMEOUT, 60));
    match edit_twice(store, first, second) {
        Ok(()) => println!(rt; "limited"),
        Err(fault) => println!(rt; "not limited: {fault}"),
    }
}

// The first pairs of the reply list, and how many there are.
fn print_reply<S: Store>(rt: &HostRuntime, store: &S) -> io::Result<()> {
    println!(rt; "reply: {} pairs", store.count(List::Reply))?;
    for at in 0..2 {
        if let Some(pair) = store.pair(List::Reply, at) {
            if let (AttrId::Plain(number), Value::Int(seconds)) = (pair.id, &pair.value) {
                println!(rt; "  Attr-{number} = {seconds}")?;
            }
        }
    }
    Ok(())
}

// A store with this reply list, which must not be too long.
fn store_of(alloc: Global, reply: Vec<Pair>) -> io::Result<SlotStore> {
    if reply.len() > MAX_PAIRS {
        return Err(io::ErrorKind::InvalidInput.into());
    }
    match SlotStore::new(alloc, Vec::new(alloc), reply, Vec::new(alloc)) {
        Ok(store) => Ok(store),
        Err(_) => Err(io::ErrorKind::OutOfMemory.into()),
    }
}

fn main(rt: HostRuntime) -> io::Result<()> {
    let alloc = rt.alloc();
    let mut store = store_of(alloc, Vec::new(alloc))?;
    limit_session(&rt, &mut store)?;
    print_reply(&rt, &store)?;
    let place = store.place();
    undo_by(&mut store, place);
    print_reply(&rt, &store)?;

    // One pair fits this list, and the other one does not.
    let mut pairs = Vec::new(alloc);
    for _ in 1..MAX_PAIRS {
        pairs.push(seconds(SESSION_TIMEOUT, 30))?;
    }
    let mut store = store_of(alloc, pairs)?;
    limit_session(&rt, &mut store)?;
    print_reply(&rt, &store)
}
