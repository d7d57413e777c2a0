//! The places of the slots that show a pair, in order, so that a look-up and an edit cost what these cost.
ghost use Rattle.std.specs.Prelude.{◌≡◌, ◌≤◌, ◌<◌, ◌+◌, [], true, false, IfOk, OnOk, length, filter, vec_capacity};
ghost use Rattle.std.specs.List.Sorted.{IsPartitionedBy};
ghost use Rattle.avp_lists.specs.internal.Live.{at_end, live_in, live_at, before, turned_place, NoneIn, SameIn, RoomIn, TurnedIn, NoneLive, SameLive, LiveRoom, LiveTurned, HasTailRoom, AreLive, HaveRoom};

use crate::lists::List;
use crate::slots::{End, Slot};
use std::alloc::{AllocError, Global};

// The places of the live slots of a list: of those that entered at its head, and of those that entered at its tail.
#[derive(Drop)]
pub(crate) struct LivePlaces {
    pub head: Vec<usize>,
    pub tail: Vec<usize>,
}

// Those of each list.
#[derive(Drop)]
pub(crate) struct Live {
    request: LivePlaces,
    reply: LivePlaces,
    control: LivePlaces,
}

// How many places come before this one.
fn count_before(places: &[usize], place: usize) -> usize
    requires { IsPartitionedBy (before place) places.now }
    ensures { result ≡ length (filter (before place) places.now) }
{
    places.partition_point(|other| *other < place)
}

// Puts a place in among others in order, or takes it out.
fn turn_place(places: &mut Vec<usize>, place: usize, live: bool)
    requires order { IsPartitionedBy (before place) places.old.items }
    requires room { live ≡ true → length places.old.items < vec_capacity places.old }
    requires there { live ≡ false → length (filter (before place) places.old.items)
        < length places.old.items }
    ensures items { places.new.items ≡ turned_place place live places.old.items }
    ensures kept { vec_capacity places.old ≤ vec_capacity places.new }
{
    let at = count_before(places.as_slice(), place);
    if live {
        places.insert(at, place).unwrap();
    } else {
        let _removed = places.remove(at);
    }
}

// Makes room for so many places.
fn make_room_for(places: &mut Vec<usize>, count: usize) -> Result<(), AllocError>
    ensures ok { OnOk result (count ≤ vec_capacity places.new) }
    ensures items { places.new.items ≡ places.old.items }
    ensures kept { vec_capacity places.old ≤ vec_capacity places.new }
{
    places.reserve(count.saturating_sub(places.len()))
}

impl LivePlaces {
    // No places, with room for so many that enter at the tail.
    fn with_tails(alloc: Global, count: usize) -> Result<LivePlaces, AllocError>
        ensures { IfOk result (λ p. (p.head.items ≡ []) × (p.tail.items ≡ [])
            × (count ≤ vec_capacity p.tail)) }
    {
        Ok(LivePlaces {
            head: Vec::new(alloc),
            tail: Vec::with_capacity(alloc, count)?,
        })
    }

    // The number of both.
    pub fn len(&self) -> usize
        ensures { result ≡ length self.now.head.items + length self.now.tail.items }
    {
        self.head.len() + self.tail.len()
    }

    fn turn(&mut self, end: End, place: usize, live: bool)
        requires order { IsPartitionedBy (before place) (at_end end self.old).items }
        requires room { live ≡ true → length (at_end end self.old).items
            < vec_capacity (at_end end self.old) }
        requires there { live ≡ false → length (filter (before place) (at_end end self.old).items)
            < length (at_end end self.old).items }
        ensures turned { TurnedIn end place live self.old self.new }
        ensures kept { RoomIn self.old self.new }
    {
        match end {
            End::Head => turn_place(&mut self.head, place, live),
            End::Tail => turn_place(&mut self.tail, place, live),
        }
    }

    fn make_room(&mut self, end: End, count: usize) -> Result<(), AllocError>
        ensures ok { OnOk result (count ≤ vec_capacity (at_end end self.new)) }
        ensures same { SameIn self.old self.new }
        ensures kept { RoomIn self.old self.new }
    {
        match end {
            End::Head => make_room_for(&mut self.head, count),
            End::Tail => make_room_for(&mut self.tail, count),
        }
    }

    fn clear(&mut self)
        ensures none { NoneIn self.new }
        ensures kept { RoomIn self.old self.new }
    {
        self.head.truncate(0);
        self.tail.truncate(0);
    }
}

impl Live {
    // No places, with room for so many in each list that enter at its tail.
    pub fn with_tails(
        alloc: Global,
        request: usize,
        reply: usize,
        control: usize,
    ) -> Result<Live, AllocError>
        ensures none { IfOk result NoneLive }
        ensures room { IfOk result (HasTailRoom request reply control) }
    {
        Ok(Live {
            request: LivePlaces::with_tails(alloc, request)?,
            reply: LivePlaces::with_tails(alloc, reply)?,
            control: LivePlaces::with_tails(alloc, control)?,
        })
    }

    // The places of a list.
    pub fn of(&self, list: List) -> &LivePlaces
        ensures { result.now ≡ live_in list self.now }
    {
        match list {
            List::Request => &self.request,
            List::Reply => &self.reply,
            List::Control => &self.control,
        }
    }

    // Puts the place of a slot of this list and end in, or takes it out.
    pub fn turn(&mut self, list: List, end: End, place: usize, live: bool)
        requires order { IsPartitionedBy (before place) (live_at end list self.old).items }
        requires room { live ≡ true → length (live_at end list self.old).items
            < vec_capacity (live_at end list self.old) }
        requires there { live ≡ false
            → length (filter (before place) (live_at end list self.old).items)
            < length (live_at end list self.old).items }
        ensures turned { LiveTurned end list place live self.old self.new }
        ensures kept { LiveRoom self.old self.new }
    {
        match list {
            List::Request => self.request.turn(end, place, live),
            List::Reply => self.reply.turn(end, place, live),
            List::Control => self.control.turn(end, place, live),
        }
    }

    // Makes room for so many places of this list and end.
    pub fn make_room(&mut self, list: List, end: End, count: usize) -> Result<(), AllocError>
        ensures ok { OnOk result (count ≤ vec_capacity (live_at end list self.new)) }
        ensures same { SameLive self.old self.new }
        ensures kept { LiveRoom self.old self.new }
    {
        match list {
            List::Request => self.request.make_room(end, count),
            List::Reply => self.reply.make_room(end, count),
            List::Control => self.control.make_room(end, count),
        }
    }

    // Takes out every place.
    pub fn clear(&mut self)
        ensures none { NoneLive self.new }
        ensures kept { LiveRoom self.old self.new }
    {
        self.request.clear();
        self.reply.clear();
        self.control.clear();
    }

    // Puts in the places of those of these slots that show a pair.
    pub fn fill(&mut self, slots: &[Slot])
        requires none { NoneLive self.old }
        requires room { HaveRoom slots.now self.old }
        ensures filled { AreLive slots.now self.new }
        ensures room { HaveRoom slots.now self.new }
    {
        for place in 0..slots.len() {
            let slot = &slots[place];
            if slot.mark.live {
                self.turn(slot.list, slot.end, place, true);
            }
        }
    }
}
