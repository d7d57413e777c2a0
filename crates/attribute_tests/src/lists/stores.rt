//! The worked examples over a store of one set of lists and a journal, and over a store of whole states.

ghost use Rattle.std.specs.Prelude.{◌≤◌, length};

use crate::lists::rows::{
    FOUR_PAIRS, OF_FOUR_PAIRS, OF_FULL_LISTS, ONES, THERE_AND_BACK, Table, pairs_of, play,
};
use crate::lists::tunnels::{
    LOOK_UPS, LOOKED_AT, TUNNELS, Tunnel, look_up, play_tunnels, tunnels_of,
};
use avp_lists::{MAX_PAIRS, Pair, SlotStore, SnapshotStore, Store};
use std::alloc::Global;
use std::process::Abort;
use std::test::Fail;

// A store that begins with a reply alone.
trait WithReply: Store {
    fn with_reply(alloc: Global, reply: Vec<Pair>) -> Result<Self, Fail>
        requires { length reply.items ≤ MAX_PAIRS };
}

impl WithReply for SlotStore {
    fn with_reply(alloc: Global, reply: Vec<Pair>) -> Result<SlotStore, Fail> {
        let store = SlotStore::new(alloc, Vec::new(alloc), reply, Vec::new(alloc))?;
        Ok(store)
    }
}

impl WithReply for SnapshotStore {
    fn with_reply(alloc: Global, reply: Vec<Pair>) -> Result<SnapshotStore, Fail> {
        let store = SnapshotStore::new(alloc, Vec::new(alloc), reply, Vec::new(alloc))?;
        Ok(store)
    }
}

fn store_of<S: WithReply>(rt: &impl Abort, alloc: Global, letters: &[u8]) -> Result<S, Fail> {
    let reply = pairs_of(alloc, letters)?;
    assert!(rt; reply.len() <= MAX_PAIRS);
    S::with_reply(alloc, reply)
}

fn tunnel_store<S: WithReply>(rt: &impl Abort, alloc: Global, reply: &[Tunnel]) -> Result<S, Fail> {
    let reply = tunnels_of(alloc, reply)?;
    assert!(rt; reply.len() <= MAX_PAIRS);
    S::with_reply(alloc, reply)
}

// Plays each table of tunnel attributes.
fn play_tags<S: WithReply>(rt: &impl Abort, alloc: Global) -> Result<(), Fail> {
    for table in &TUNNELS {
        let mut store: S = tunnel_store(rt, alloc, table.1)?;
        play_tunnels(rt, alloc, &mut store, table)?;
    }
    Ok(())
}

// Looks for tunnel attributes.
fn look_for_tags<S: WithReply>(rt: &impl Abort, alloc: Global) -> Result<(), Fail> {
    let store: S = tunnel_store(rt, alloc, LOOKED_AT)?;
    for row in LOOK_UPS {
        look_up(rt, alloc, &store, row)?;
    }
    Ok(())
}

// Plays each table over a store with this reply.
fn play_all<S: WithReply>(
    rt: &impl Abort,
    alloc: Global,
    reply: &[u8],
    tables: &[Table],
) -> Result<(), Fail> {
    for table in tables {
        let mut store: S = store_of(rt, alloc, reply)?;
        play(rt, alloc, &mut store, table)?;
    }
    Ok(())
}

// Plays one table over the same store, a thousand times.
fn play_again<S: WithReply>(rt: &impl Abort, alloc: Global) -> Result<(), Fail> {
    let mut store: S = store_of(rt, alloc, FOUR_PAIRS)?;
    for _ in 0..1000 {
        play(rt, alloc, &mut store, &THERE_AND_BACK)?;
    }
    Ok(())
}

#[test]
fn slots_are_as_the_tables_say(rt: HostRuntime) -> Result<(), Fail> {
    play_all::<SlotStore>(&rt, rt.alloc(), FOUR_PAIRS, &OF_FOUR_PAIRS)?;
    play_all::<SlotStore>(&rt, rt.alloc(), ONES, &OF_FULL_LISTS)?;
    play_tags::<SlotStore>(&rt, rt.alloc())?;
    look_for_tags::<SlotStore>(&rt, rt.alloc())
}

#[test]
fn snapshots_are_as_the_tables_say(rt: HostRuntime) -> Result<(), Fail> {
    play_all::<SnapshotStore>(&rt, rt.alloc(), FOUR_PAIRS, &OF_FOUR_PAIRS)?;
    play_all::<SnapshotStore>(&rt, rt.alloc(), ONES, &OF_FULL_LISTS)?;
    play_tags::<SnapshotStore>(&rt, rt.alloc())?;
    look_for_tags::<SnapshotStore>(&rt, rt.alloc())
}

#[test]
fn stores_are_edited_again_and_again(rt: HostRuntime) -> Result<(), Fail> {
    play_again::<SlotStore>(&rt, rt.alloc())?;
    play_again::<SnapshotStore>(&rt, rt.alloc())
}
