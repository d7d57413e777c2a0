//! The slots of a store's lists, and how a step turns their marks.
ghost use Rattle.std.specs.Prelude.{◌≡◌, ◌≤◌, ◌<◌, ◌++◌, false, OnOk, length, map, filter, take, vec_capacity};
ghost use Rattle.std.specs.Option.{option_to_list};
ghost use Rattle.avp_lists.specs.internal.Slots.{is_live, kept, turn, turn_all, swap_at, forward, backward, PlacesWithin, SwapWithin};
ghost use Rattle.avp_lists.specs.internal.Shown.{same_list, entered_at};
ghost use Rattle.avp_lists.specs.internal.Live.{NoneLive, AreLive, HaveRoom, AllBelow, AddsDark, HasRoomFor};

use crate::lists::List;
use crate::live::Live;
use crate::vectors::{cut_and_add, make_room};
use std::alloc::AllocError;

// Whether a slot shows a pair, and the place of that pair in the pool.
#[derive(Clone, Copy)]
pub(crate) struct Mark {
    pub live: bool,
    pub pair: usize,
}

// An end of a list.
#[derive(Clone, Copy)]
pub(crate) enum End {
    Head,
    Tail,
}

// A place of a list: the end at which it entered, its mark in the present state, and in the first one.
#[derive(Clone, Copy)]
pub(crate) struct Slot {
    pub list: List,
    pub end: End,
    pub mark: Mark,
    pub initial: Mark,
}

// The slot of a replaced pair, and the places in the pool of the pairs that it shows before and after.
#[derive(Clone, Copy)]
pub(crate) struct Swap {
    pub slot: usize,
    pub old: usize,
    pub new: usize,
}

// The slots of a store, and the places of those that show a pair.
#[derive(Drop)]
pub(crate) struct Slots {
    pub all: Vec<Slot>,
    pub live: Live,
    ghost in_order: { AreLive all.items live },
    ghost roomy: { HaveRoom all.items live },
}

pub(crate) fn same_list(a: List, b: List) -> bool
    ensures { result ≡ same_list a b }
{
    match (a, b) {
        (List::Request, List::Request) => true,
        (List::Reply, List::Reply) => true,
        (List::Control, List::Control) => true,
        _ => false,
    }
}

// Whether the slot entered its list at that end.
pub(crate) fn entered_at(slot: &Slot, end: End) -> bool
    ensures { result ≡ entered_at end slot.now }
{
    match (end, slot.end) {
        (End::Head, End::Head) => true,
        (End::Tail, End::Tail) => true,
        _ => false,
    }
}

fn keep_marks_of(slots: &mut [Slot])
    ensures { slots.new ≡ map kept slots.old }
{
    for slot in slots.iter_mut() {
        slot.initial = slot.mark;
    }
}

// Makes the present marks those of the first state.
fn keep_marks(slots: &mut Vec<Slot>)
    ensures { slots.new.items ≡ map kept slots.old.items }
{
    keep_marks_of(slots.as_mut_slice());
}

// Forgets the slots that show nothing, and each mark but the present ones.
fn forget_dark(slots: &mut Vec<Slot>)
    ensures { slots.new.items ≡ map kept (filter is_live slots.old.items) }
{
    slots.retain(|slot| slot.mark.live);
    keep_marks(slots);
}

impl Slots {
    // These slots, and in `live` the places of those that show a pair.
    pub fn new(all: Vec<Slot>, mut live: Live) -> Slots
        requires none { NoneLive live }
        requires room { HaveRoom all.items live }
        ensures { result.all.items ≡ all.items }
    {
        live.fill(&all);
        Slots { all, live }
    }

    pub fn len(&self) -> usize
        ensures { result ≡ length self.now.all.items }
    {
        self.all.len()
    }

    fn turn(&mut self, place: usize)
        requires { place < length self.old.all.items }
        ensures { self.new.all.items ≡ turn self.old.all.items place }
    {
        let slot = self.all[place];
        let live = !slot.mark.live;
        let mark = Mark { live, ..slot.mark };
        self.all[place] = Slot { mark, ..slot };
        self.live.turn(slot.list, slot.end, place, live);
    }

    fn turn_all(&mut self, places: &[usize])
        requires { PlacesWithin (length self.old.all.items) places.now }
        ensures { self.new.all.items ≡ turn_all places.now self.old.all.items }
    {
        for place in places {
            self.turn(*place);
        }
    }

    // The same, from the last place on: of places in order, those that are taken out so, and put in again from the
    // first on, move few others.
    fn turn_all_last_first(&mut self, places: &[usize])
        requires { PlacesWithin (length self.old.all.items) places.now }
        ensures { self.new.all.items ≡ turn_all places.now self.old.all.items }
    {
        let mut end = places.len();
        while end > 0 {
            end -= 1;
            self.turn(places[end]);
        }
    }

    fn put_other(&mut self, swap: Option<Swap>)
        requires { SwapWithin (length self.old.all.items) swap }
        ensures { self.new.all.items ≡ swap_at swap self.old.all.items }
    {
        if let Some(swap) = swap {
            let slot = self.all[swap.slot];
            let pair = if slot.mark.pair == swap.old {
                swap.new
            } else if slot.mark.pair == swap.new {
                swap.old
            } else {
                slot.mark.pair
            };
            let mark = Mark { pair, ..slot.mark };
            self.all[swap.slot] = Slot { mark, ..slot };
        }
    }

    // From the state before a step to the one after it.
    pub fn forward(&mut self, places: &[usize], by: Option<Swap>)
        requires places { PlacesWithin (length self.old.all.items) places.now }
        requires swap { SwapWithin (length self.old.all.items) by }
        ensures { self.new.all.items ≡ forward places.now by self.old.all.items }
    {
        self.turn_all_last_first(places);
        self.put_other(by);
    }

    // From the state after a step to the one before it.
    pub fn backward(&mut self, places: &[usize], by: Option<Swap>)
        requires places { PlacesWithin (length self.old.all.items) places.now }
        requires swap { SwapWithin (length self.old.all.items) by }
        ensures { self.new.all.items ≡ backward places.now by self.old.all.items }
    {
        self.put_other(by);
        self.turn_all(places);
    }

    // Makes room for a slot after the first `end`, and for its place.
    pub fn make_room(&mut self, end: usize, added: Option<Slot>) -> Result<(), AllocError>
        requires { end ≤ length self.old.all.items }
        ensures room { OnOk result (end < vec_capacity self.new.all) }
        ensures live_room { OnOk result (HasRoomFor end added self.new.live) }
        ensures items { self.new.all.items ≡ self.old.all.items }
    {
        make_room(&mut self.all, end)?;
        if let Some(slot) = added {
            self.live.make_room(slot.list, slot.end, end + 1)?;
        }
        Ok(())
    }

    // Cuts off the slots from `end` on, which show nothing, and adds one that shows nothing yet, if there is one.
    pub fn cut_and_add(&mut self, end: usize, added: Option<Slot>)
        requires within { end ≤ length self.old.all.items }
        requires room { end < vec_capacity self.old.all }
        requires live_room { HasRoomFor end added self.old.live }
        requires dark { AllBelow end self.old.all.items }
        requires unlit { AddsDark added }
        ensures { self.new.all.items ≡ take end self.old.all.items ++ option_to_list added }
    {
        cut_and_add(&mut self.all, end, added);
    }

    // Forgets the slots that show nothing, and each mark but the present ones.
    pub fn settle(&mut self)
        ensures { self.new.all.items ≡ map kept (filter is_live self.old.all.items) }
    {
        forget_dark(&mut self.all);
        self.live.clear();
        self.live.fill(&self.all);
    }
}
