//! Makes the calls of its words on a store, and prints what each answers and the state after it, also after a
//! refusal. The tests run it with allocations refused. The first word names the store; each other word is a call, as
//! `reply += 25 1`, `reply -= 25 1 each` beside the tags of texts, or `reply := 25 1 2` of those with the tag 2.

mod calls;

use avp_lists::{
    AttrId, EditFault, List, ListsRefused, MAX_PAIRS, Selection, SlotStore, SnapshotStore, Store,
};
use calls::{Call, call_of, pair_of};
use std::alloc::{AllocError, Global};
use std::io;

// The lists that a store begins with: an attribute with several instances, and another between them.
fn first_lists(alloc: Global) -> Result<ListsRefused, AllocError> {
    let mut reply = Vec::new(alloc);
    for (number, octet) in [(25, 1), (18, 97), (25, 2), (25, 1)] {
        reply.push(pair_of(alloc, number, &[octet])?)?;
    }
    Ok(ListsRefused {
        request: vec![in alloc; pair_of(alloc, 1, &[7])?]?,
        reply,
        control: Vec::new(alloc),
    })
}

// The calls of the words. Another word is an error.
fn calls_of(alloc: Global, words: &[String]) -> io::Result<Vec<Call>> {
    let mut calls = Vec::new(alloc);
    for word in words {
        let parts: Vec<&str> = word.split(' ').collect(alloc)?;
        match call_of(alloc, &parts)? {
            Some(call) => calls.push(call)?,
            None => return Err(io::ErrorKind::InvalidInput.into()),
        }
    }
    Ok(calls)
}

fn told<E: Drop>(answer: Result<(), E>) -> &'static str {
    match answer {
        Ok(()) => "done",
        Err(_) => "refused",
    }
}

fn moved(moved: bool) -> &'static str {
    if moved { "done" } else { "stays" }
}

fn edited(answer: Result<(), EditFault>) -> &'static str {
    match answer {
        Err(EditFault::Full) => "full",
        other => told(other),
    }
}

// Makes a call, and prints what it answers.
fn make<S: Store>(rt: &HostRuntime, store: &mut S, call: Call) -> io::Result<()> {
    let answer = match call {
        Call::Undo => moved(store.undo()),
        Call::Redo => moved(store.redo()),
        Call::Settle => {
            store.settle();
            "done"
        }
        Call::Reserve(count) => told(store.reserve(count)),
        Call::Rollback(to) if to > store.place() => "beyond",
        Call::Rollback(to) => told(store.rollback(to)),
        Call::Edit(edit, Selection::All) => edited(store.edit(edit)),
        Call::Edit(edit, selection) => edited(store.edit_selected(edit, selection)),
        Call::List(list) => match store.list(list) {
            Ok(pairs) => return println!(rt; "{pairs:?}"),
            Err(_) => "refused",
        },
    };
    println!(rt; "{answer}")
}

// Prints what a store shows without memory.
fn show<S: Store>(rt: &HostRuntime, store: &S) -> io::Result<()> {
    println!(rt;
        "place {} steps {} room {} pairs {} {} {} first {:?}",
        store.place(),
        store.steps(),
        store.room(),
        store.count(List::Request),
        store.count(List::Reply),
        store.count(List::Control),
        store.first(List::Reply, AttrId::Plain(25)),
    )
}

fn follow<S: Store>(rt: &HostRuntime, mut store: S, calls: Vec<Call>) -> io::Result<()> {
    show(rt, &store)?;
    for call in calls {
        make(rt, &mut store, call)?;
        show(rt, &store)?;
    }
    Ok(())
}

// Makes a store of the lists and the calls on it. Where the store is refused, the lists are printed as they came back,
// and it is made of them once more.
macro_rules! follow_new {
    ($rt:expr, $store:ident, $lists:expr, $calls:expr) => {
        match $store::new($rt.alloc(), $lists.request, $lists.reply, $lists.control) {
            Ok(store) => follow($rt, store, $calls),
            Err(back) => {
                println!($rt; "refused {:?} {:?} {:?}", back.request, back.reply, back.control)?;
                match $store::new($rt.alloc(), back.request, back.reply, back.control) {
                    Ok(store) => follow($rt, store, $calls),
                    Err(_) => Err(AllocError.into()),
                }
            }
        }
    };
}

/// Makes the calls of these words.
pub fn drive(rt: &HostRuntime, words: &[String]) -> io::Result<()> {
    let [store, words @ ..] = words else {
        return Err(io::ErrorKind::InvalidInput.into());
    };
    let calls = calls_of(rt.alloc(), words)?;
    let lists = first_lists(rt.alloc())?;
    if lists.reply.len() > MAX_PAIRS
        || lists.request.len() > MAX_PAIRS
        || lists.control.len() > MAX_PAIRS
    {
        return Err(io::ErrorKind::InvalidInput.into());
    }
    match store.as_str() {
        "snapshots" => follow_new!(rt, SnapshotStore, lists, calls),
        "slots" => follow_new!(rt, SlotStore, lists, calls),
        _ => Err(io::ErrorKind::InvalidInput.into()),
    }
}
