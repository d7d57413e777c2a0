//! The steps that lead from state to state, and the moves along them.
ghost use Rattle.std.specs.Prelude.{◌≡◌, ◌+◌, ◌-◌, ◌≤◌, ◌<◌, ◌∷◌, ◌++◌, [], OnOk, IsOk, true, length, take, map, min, vec_capacity};
ghost use Rattle.avp_lists.specs.internal.Slots.{at_initial};
ghost use Rattle.avp_lists.specs.internal.Steps.{slots_at, change_at, turns, origin, StepsWithin, BacksBelow};

use crate::slots::{Slots, Swap};
use crate::vectors::make_room;
use std::alloc::AllocError;

// What a step did.
#[derive(Drop)]
pub(crate) enum Change {
    // It turned the marks of these slots, and put another pair into one.
    Turned(Vec<usize>, Option<Swap>),
    // It went back to the state at an earlier place, which no step of this kind led to.
    Back(usize),
}

// What leads to a state, and how many slots and pairs there were then.
#[derive(Drop)]
pub(crate) struct Step {
    pub change: Change,
    pub slots: usize,
    pub pairs: usize,
}

pub(crate) fn make_room_beside(
    steps: &mut Vec<Step>,
    nexts: &mut Vec<usize>,
    end: usize,
) -> Result<(), AllocError>
    requires within { end ≤ length steps.old.items }
    requires beside { length nexts.old.items ≡ length steps.old.items }
    ensures ok { OnOk result (end < min (vec_capacity steps.new) (vec_capacity nexts.new)) }
    ensures enough { end < min (vec_capacity steps.old) (vec_capacity nexts.old) → IsOk result }
    ensures steps { steps.new.items ≡ steps.old.items }
    ensures nexts { nexts.new.items ≡ nexts.old.items }
    ensures kept_steps { vec_capacity steps.old ≤ vec_capacity steps.new }
    ensures kept_nexts { vec_capacity nexts.old ≤ vec_capacity nexts.new }
{
    make_room(steps, end)?;
    make_room(nexts, end)
}

// Cuts off the steps from `end` on, and adds one.
pub(crate) fn cut_and_push(steps: &mut Vec<Step>, nexts: &mut Vec<usize>, end: usize, step: Step)
    requires within { end ≤ length steps.old.items }
    requires beside { length nexts.old.items ≡ length steps.old.items }
    requires room { end < min (vec_capacity steps.old) (vec_capacity nexts.old) }
    ensures steps { steps.new.items ≡ take end steps.old.items ++ step ∷ [] }
    ensures nexts { length nexts.new.items ≡ end + 1 }
    ensures capacity { vec_capacity steps.old ≤ vec_capacity steps.new }
    ensures beside { vec_capacity nexts.old ≤ vec_capacity nexts.new }
{
    steps.truncate(end);
    nexts.truncate(end);
    steps.push(step).unwrap();
    nexts.push(0).unwrap();
}

// The place of the state that the one at a place stands for.
pub(crate) fn origin(steps: &[Step], place: usize) -> usize
    requires { place < length steps.now }
    ensures { result ≡ origin steps.now place }
{
    match &steps[place].change {
        Change::Turned(_, _) => place,
        Change::Back(to) => *to,
    }
}

// From the state that a step leads to, to that of the place before it.
fn go_back(slots: &mut Slots, steps: &[Step], at: usize)
    requires within { StepsWithin (length slots.old.all.items) steps.now }
    requires at { (0 < at) × (at < length steps.now) × (turns (change_at steps.now at) ≡ true) }
    requires standing { slots.old.all.items ≡ slots_at slots.old.all.items steps.now at }
    ensures moved { slots.new.all.items ≡ slots_at slots.old.all.items steps.now (at - 1) }
    ensures initials { map at_initial slots.new.all.items ≡ map at_initial slots.old.all.items }
{
    match &steps[at].change {
        Change::Turned(places, by) => slots.backward(places.as_slice(), *by),
        Change::Back(_) => unreachable!(),
    }
}

// From the state of the place before a step to the one that it leads to.
fn go_ahead(slots: &mut Slots, steps: &[Step], at: usize)
    requires within { StepsWithin (length slots.old.all.items) steps.now }
    requires at { (0 < at) × (at < length steps.now) × (turns (change_at steps.now at) ≡ true) }
    requires standing { slots.old.all.items ≡ slots_at slots.old.all.items steps.now (at - 1) }
    ensures moved { slots.new.all.items ≡ slots_at slots.old.all.items steps.now at }
    ensures initials { map at_initial slots.new.all.items ≡ map at_initial slots.old.all.items }
{
    match &steps[at].change {
        Change::Turned(places, by) => slots.forward(places.as_slice(), *by),
        Change::Back(_) => unreachable!(),
    }
}

// From the state at one place to that at another: back to a state that both come from, then ahead along the next
// places, which are written first, from the far state back.
fn travel(slots: &mut Slots, steps: &[Step], nexts: &mut [usize], from: usize, to: usize)
    requires within { StepsWithin (length slots.old.all.items) steps.now }
    requires below { BacksBelow steps.now }
    requires beside { length nexts.old ≡ length steps.now }
    requires from { (from < length steps.now) × (turns (change_at steps.now from) ≡ true) }
    requires to { (to < length steps.now) × (turns (change_at steps.now to) ≡ true) }
    requires standing { slots.old.all.items ≡ slots_at slots.old.all.items steps.now from }
    ensures moved { slots.new.all.items ≡ slots_at slots.old.all.items steps.now to }
    ensures initials { map at_initial slots.new.all.items ≡ map at_initial slots.old.all.items }
{
    let mut here = from;
    let mut far = to;
    while here != far {
        if far < here {
            go_back(slots, steps, here);
            here = origin(steps, here - 1);
        } else {
            let before = origin(steps, far - 1);
            nexts[before] = far;
            far = before;
        }
    }
    while here != to {
        here = nexts[here];
        go_ahead(slots, steps, here);
    }
}

// From the state at one place to that at another.
pub(crate) fn move_to(
    slots: &mut Slots,
    steps: &[Step],
    nexts: &mut Vec<usize>,
    from: usize,
    to: usize,
)
    requires within { StepsWithin (length slots.old.all.items) steps.now }
    requires below { BacksBelow steps.now }
    requires beside { length nexts.old.items ≡ length steps.now }
    requires from { from < length steps.now }
    requires to { to < length steps.now }
    requires standing { slots_at slots.old.all.items steps.now from ≡ slots.old.all.items }
    ensures standing { slots_at slots.new.all.items steps.now to ≡ slots.new.all.items }
    ensures initials { map at_initial slots.new.all.items ≡ map at_initial slots.old.all.items }
    ensures slots { length slots.new.all.items ≡ length slots.old.all.items }
    ensures nexts { length nexts.new.items ≡ length nexts.old.items }
    ensures capacity { vec_capacity nexts.new ≡ vec_capacity nexts.old }
{
    let here = origin(steps, from);
    let there = origin(steps, to);
    travel(slots, steps, nexts.as_mut_slice(), here, there);
}
