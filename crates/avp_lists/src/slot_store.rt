//! A store that keeps one set of lists, and a journal of what each step turned in them.
ghost use Rattle.std.specs.Prelude.{◌≡◌, ◌↔◌, IsTrue, ◌+◌, ◌-◌, ◌≤◌, ◌<◌, ◌++◌, [], OnOk, OnErr, IfOk, IfErr, length, take, min, vec_capacity};
ghost use Rattle.avp_lists.specs.History.{starting, present, at_place};
ghost use Rattle.avp_lists.specs.Selections.{IsFullSelected, after_edit_selected, edited_selected, has_selected};
ghost use Rattle.avp_lists.specs.States.{list_of, IsLimited};
ghost use Rattle.avp_lists.specs.internal.Slots.{PlacesWithin, SwapWithin};
ghost use Rattle.avp_lists.specs.internal.Steps.{slots_at, max_kept, BacksBelow, AllCounted, CountsWithin, CountsGrow, AllHoused, StatesLimited};
ghost use Rattle.avp_lists.specs.internal.Live.{NoneLive, HasTailRoom, HasRoomFor, AllBelow, AddsDark};
ghost use Rattle.avp_lists.specs.internal.Plans.{pooled, widened, planned, fresh};

use crate::edits::{Edit, EditFault};
use crate::lists::{List, MAX_PAIRS};
use crate::live::Live;
use crate::pairs::{AttrId, Pair};
use crate::planning::{Plan, plan_edit};
use crate::showing::{first_shown, first_slot, pair_shown, shown_pairs};
use crate::slots::{End, Mark, Slot, Slots};
use crate::steps::{Change, Step, cut_and_push, make_room_beside, move_to, origin};
use crate::store::{ListsRefused, Store};
use crate::tags::Selection;
use crate::vectors::{cut_and_add, make_room};
use std::alloc::{AllocError, Global};

/// A store that keeps one set of lists, and what each step turned in them.
///
/// Each pair that enters a list stays in a pool, and a slot says whether it is shown. A step has the places of those
/// slots that it turned, so an edit copies no list: it costs a walk over the pairs shown, and what it changes.
pub struct SlotStore {
    alloc: Global,
    pool: Vec<Pair>,
    slots: Slots,
    // One for each state; the first one turns nothing.
    steps: Vec<Step>,
    // One for each state: where a move ahead goes on, which is written as the move begins.
    nexts: Vec<usize>,
    place: usize,
    ghost placed: { place < length steps.items },
    ghost beside: { length nexts.items ≡ length steps.items },
    ghost below: { BacksBelow steps.items },
    ghost counted: { AllCounted steps.items },
    ghost counts: { CountsWithin (length slots.all.items) (length pool.items) steps.items },
    ghost grow: { CountsGrow steps.items },
    ghost housed: { AllHoused slots.all.items steps.items },
    ghost standing: { slots_at slots.all.items steps.items place ≡ slots.all.items },
    ghost limited: { StatesLimited pool.items slots.all.items steps.items },
}

impl Drop for SlotStore {
    fn drop(self) {
        let SlotStore {
            alloc: _,
            pool: _,
            slots: _,
            steps: _,
            nexts: _,
            place: _,
        } = self;
    }
}

// The parts of a store.
#[derive(Drop)]
struct Parts {
    pool: Vec<Pair>,
    slots: Vec<Slot>,
    live: Live,
    steps: Vec<Step>,
    nexts: Vec<usize>,
}

// Room for a store of so many pairs.
fn empty_parts(
    alloc: Global,
    request: usize,
    reply: usize,
    control: usize,
) -> Result<Parts, AllocError>
    requires request_fits { request ≤ MAX_PAIRS }
    requires reply_fits { reply ≤ MAX_PAIRS }
    requires control_fits { control ≤ MAX_PAIRS }
    ensures pool { IfOk result (λ parts. (parts.pool.items ≡ [])
        × (request + reply + control ≤ vec_capacity parts.pool)) }
    ensures slots { IfOk result (λ parts. (parts.slots.items ≡ [])
        × (request + reply + control ≤ vec_capacity parts.slots)) }
    ensures live { IfOk result (λ parts. NoneLive parts.live) }
    ensures live_room { IfOk result (λ parts. HasTailRoom request reply control parts.live) }
    ensures steps { IfOk result (λ parts. (parts.steps.items ≡ [])
        × (1 ≤ vec_capacity parts.steps)) }
    ensures nexts { IfOk result (λ parts. (parts.nexts.items ≡ [])
        × (1 ≤ vec_capacity parts.nexts)) }
{
    let count = request + reply + control;
    Ok(Parts {
        pool: Vec::with_capacity(alloc, count)?,
        slots: Vec::with_capacity(alloc, count)?,
        live: Live::with_tails(alloc, request, reply, control)?,
        steps: Vec::with_capacity(alloc, 1)?,
        nexts: Vec::with_capacity(alloc, 1)?,
    })
}

// Adds slots for the pairs from a place in the pool on.
fn push_firsts(slots: &mut Vec<Slot>, list: List, from: usize, end: usize)
    requires order { from ≤ end }
    requires room { length slots.old.items + (end - from) ≤ vec_capacity slots.old }
    ensures items { slots.new.items ≡ slots.old.items ++ fresh list from (end - from) }
    ensures capacity { vec_capacity slots.old ≤ vec_capacity slots.new }
{
    for pair in from..end {
        let mark = Mark { live: true, pair };
        let slot = Slot {
            list,
            end: End::Tail,
            mark,
            initial: mark,
        };
        slots.push(slot).unwrap();
    }
}

// How many steps, slots and pairs stay when an edit cuts off what is after the place.
#[derive(Clone, Copy)]
struct Ends {
    steps: usize,
    slots: usize,
    pairs: usize,
}

// Makes room for what an edit adds after what it cuts off.
fn make_room_after(
    steps: &mut Vec<Step>,
    nexts: &mut Vec<usize>,
    slots: &mut Slots,
    pool: &mut Vec<Pair>,
    ends: Ends,
    added: Option<Slot>,
) -> Result<(), AllocError>
    requires beside { length nexts.old.items ≡ length steps.old.items }
    requires steps { ends.steps ≤ length steps.old.items }
    requires slots { ends.slots ≤ length slots.old.all.items }
    requires pool { ends.pairs ≤ length pool.old.items }
    ensures room { OnOk result (ends.steps
        < min (vec_capacity steps.new) (vec_capacity nexts.new)) }
    ensures slots_room { OnOk result (ends.slots < vec_capacity slots.new.all) }
    ensures live_room { OnOk result (HasRoomFor ends.slots added slots.new.live) }
    ensures pool_room { OnOk result (ends.pairs < vec_capacity pool.new) }
    ensures steps { steps.new.items ≡ steps.old.items }
    ensures nexts { nexts.new.items ≡ nexts.old.items }
    ensures slots { slots.new.all.items ≡ slots.old.all.items }
    ensures pool { pool.new.items ≡ pool.old.items }
    ensures kept_steps { vec_capacity steps.old ≤ vec_capacity steps.new }
    ensures kept_nexts { vec_capacity nexts.old ≤ vec_capacity nexts.new }
{
    make_room_beside(steps, nexts, ends.steps)?;
    slots.make_room(ends.slots, added)?;
    make_room(pool, ends.pairs)
}

// Cuts off the pairs from `end` on, and adds the edit's own where the plan needs it.
fn pool_for(pool: &mut Vec<Pair>, end: usize, plan: &Plan, pair: Pair)
    requires within { end ≤ length pool.old.items }
    requires room { end < vec_capacity pool.old }
    ensures { pool.new.items ≡ pooled plan.now pair (take end pool.old.items) }
{
    let added = if plan.enters() { Some(pair) } else { None };
    cut_and_add(pool, end, added);
}

// Cuts off the slots from `end` on, which show nothing, and carries out the plan.
fn slots_for(slots: &mut Slots, end: usize, plan: &Plan)
    requires within { end ≤ length slots.old.all.items }
    requires room { end < vec_capacity slots.old.all }
    requires live_room { HasRoomFor end plan.now.added slots.old.live }
    requires dark { AllBelow end slots.old.all.items }
    requires unlit { AddsDark plan.now.added }
    requires places { PlacesWithin (length (widened plan.now (take end slots.old.all.items)))
        plan.now.turned.items }
    requires swap { SwapWithin (length (widened plan.now (take end slots.old.all.items)))
        plan.now.swap }
    ensures { slots.new.all.items ≡ planned plan.now (take end slots.old.all.items) }
{
    slots.cut_and_add(end, plan.added);
    slots.forward(plan.turned.as_slice(), plan.swap);
}

// Adds the pairs of a list.
fn add_list(pool: &mut Vec<Pair>, slots: &mut Vec<Slot>, list: List, mut pairs: Vec<Pair>)
    requires pool_room { length pool.old.items + length pairs.items ≤ vec_capacity pool.old }
    requires slots_room { length slots.old.items + length pairs.items ≤ vec_capacity slots.old }
    ensures pool { pool.new.items ≡ pool.old.items ++ pairs.items }
    ensures slots { slots.new.items ≡ slots.old.items
        ++ fresh list (length pool.old.items) (length pairs.items) }
    ensures pool_kept { vec_capacity pool.old ≤ vec_capacity pool.new }
    ensures slots_kept { vec_capacity slots.old ≤ vec_capacity slots.new }
{
    let from = pool.len();
    pool.append(&mut pairs).unwrap();
    push_firsts(slots, list, from, pool.len());
}

impl SlotStore {
    /// A store with one state.
    ///
    /// ```rust
    /// // The request is `NAS-Port = 3`.
    /// if request.len() > MAX_PAIRS {
    ///     return Err(Fail::new("too many pairs"));
    /// }
    /// let store = SlotStore::new(alloc, request, Vec::new(alloc), Vec::new(alloc))?;
    /// assert_eq!(rt; store.count(List::Request), 1);
    /// ```
    pub fn new(
        alloc: Global,
        request: Vec<Pair>,
        reply: Vec<Pair>,
        control: Vec<Pair>,
    ) -> Result<SlotStore, ListsRefused>
        requires request_fits { length request.items ≤ MAX_PAIRS }
        requires reply_fits { length reply.items ≤ MAX_PAIRS }
        requires control_fits { length control.items ≤ MAX_PAIRS }
        ensures ok { IfOk result (λ s. ⟦<SlotStore as Store>⟧.history s
            ≡ starting (record {
              request = request.items;
              reply = reply.items;
              control =
                  control.items;
            })) }
        ensures err { IfErr result (λ back. back
            ≡ record { request = request; reply = reply; control = control }) }
    {
        let Ok(parts) = empty_parts(alloc, request.len(), reply.len(), control.len()) else {
            return Err(ListsRefused {
                request,
                reply,
                control,
            });
        };
        let Parts {
            mut pool,
            mut slots,
            live,
            mut steps,
            mut nexts,
        } = parts;
        add_list(&mut pool, &mut slots, List::Request, request);
        add_list(&mut pool, &mut slots, List::Reply, reply);
        add_list(&mut pool, &mut slots, List::Control, control);
        let slots = Slots::new(slots, live);
        let first = Step {
            change: Change::Turned(Vec::new(alloc), None),
            slots: slots.len(),
            pairs: pool.len(),
        };
        cut_and_push(&mut steps, &mut nexts, 0, first);
        Ok(SlotStore {
            alloc,
            pool,
            slots,
            steps,
            nexts,
            place: 0,
        })
    }

    fn has_selected(&self, list: List, id: AttrId, selection: Selection) -> bool
        ensures { result ≡ has_selected selection id
            (list_of list (present (⟦<SlotStore as Store>⟧.history self.now))) }
    {
        first_slot(
            &self.slots.all,
            &self.slots.live,
            &self.pool,
            list,
            id,
            selection,
        )
        .is_some()
    }

    // Whether the edit would make its list too long.
    fn is_full(&self, edit: &Edit, selection: Selection) -> bool
        ensures { IsTrue result ↔ IsFullSelected selection edit.now
            (present (⟦<SlotStore as Store>⟧.history self.now)) }
    {
        self.count(edit.list) == MAX_PAIRS
            && edit
                .op
                .lengthens(self.has_selected(edit.list, edit.pair.id, selection))
    }

    // Goes to the state at a place.
    fn go_to(&mut self, to: usize)
        requires { to < length self.old.steps.items }
        ensures moved { ⟦<SlotStore as Store>⟧.history self.new
            ≡ at_place to (⟦<SlotStore as Store>⟧.history self.old) }
        ensures kept { self.new.place + ⟦<SlotStore as Store>⟧.room self.new
            ≡ self.old.place + ⟦<SlotStore as Store>⟧.room self.old }
    {
        move_to(
            &mut self.slots,
            &self.steps,
            &mut self.nexts,
            self.place,
            to,
        );
        self.place = to;
    }

    // Cuts off what is after the place, and edits.
    fn change(&mut self, edit: Edit, selection: Selection) -> Result<(), AllocError>
        requires fits { IsLimited (edited_selected selection edit
            (present (⟦<SlotStore as Store>⟧.history self.old))) }
        ensures ok { OnOk result (⟦<SlotStore as Store>⟧.history self.new
            ≡ after_edit_selected selection edit (⟦<SlotStore as Store>⟧.history self.old)) }
        ensures err { OnErr result (⟦<SlotStore as Store>⟧.history self.new
            ≡ ⟦<SlotStore as Store>⟧.history self.old) }
        // What was cut off is given up: at most the edit's own pair is kept besides those that were there at the place.
        ensures slim { OnOk result (length self.new.pool.items
            ≤ max_kept self.old.steps.items self.old.place) }
        ensures kept { self.old.place + ⟦<SlotStore as Store>⟧.room self.old
            ≤ self.new.place + ⟦<SlotStore as Store>⟧.room self.new }
    {
        let last = &self.steps[self.place];
        let ends = Ends {
            steps: self.place + 1,
            slots: last.slots,
            pairs: last.pairs,
        };
        let plan = plan_edit(
            self.alloc,
            &self.slots.all[..ends.slots],
            &self.slots.live,
            &self.pool[..ends.pairs],
            &edit,
            selection,
        )?;
        make_room_after(
            &mut self.steps,
            &mut self.nexts,
            &mut self.slots,
            &mut self.pool,
            ends,
            plan.added,
        )?;
        pool_for(&mut self.pool, ends.pairs, &plan, edit.pair);
        slots_for(&mut self.slots, ends.slots, &plan);
        let step = Step {
            change: Change::Turned(plan.turned, plan.swap),
            slots: self.slots.len(),
            pairs: self.pool.len(),
        };
        cut_and_push(&mut self.steps, &mut self.nexts, ends.steps, step);
        self.place = ends.steps;
        Ok(())
    }
}

impl Store for SlotStore {
    ghost use Rattle.std.specs.Prelude.{◌+◌, ◌-◌, min, vec_capacity};
    ghost use Rattle.avp_lists.specs.internal.Steps.{shown_states};

    ghost history = { λ s. record { states = shown_states s.pool.items s.slots.all.items s.steps.items; place = s.place } };

    ghost room = { λ s. min (vec_capacity s.steps) (vec_capacity s.nexts) - (s.place + 1) };

    ghost use Rattle.avp_lists.specs.internal.SlotLaws.{placed_among, roomy_among};

    ghost placed = { λ s. placed_among s.pool.items s.slots.all.items s.steps.items s.place s.placed };

    ghost roomy = { λ s. roomy_among s.pool.items s.slots.all.items s.steps s.nexts s.place s.beside };

    ghost limited = { λ s k. s.limited k };

    fn count(&self, list: List) -> usize {
        self.slots.live.of(list).len()
    }

    fn first_selected(&self, list: List, id: AttrId, selection: Selection) -> Option<&Pair> {
        first_shown(
            &self.slots.all,
            &self.slots.live,
            &self.pool,
            list,
            id,
            selection,
        )
    }

    fn list(&self, list: List) -> Result<Vec<Pair>, AllocError> {
        shown_pairs(
            self.alloc,
            &self.slots.all,
            &self.slots.live,
            &self.pool,
            list,
        )
    }

    fn pair(&self, list: List, at: usize) -> Option<&Pair> {
        pair_shown(&self.slots.all, &self.slots.live, &self.pool, list, at)
    }

    fn place(&self) -> usize {
        self.place
    }

    fn steps(&self) -> usize {
        self.steps.len() - 1
    }

    fn room(&self) -> usize {
        self.steps.capacity().min(self.nexts.capacity()) - (self.place + 1)
    }

    fn reserve(&mut self, n: usize) -> Result<(), AllocError> {
        let ahead = self.steps.len() - (self.place + 1);
        self.steps.reserve(n.saturating_sub(ahead))?;
        self.nexts.reserve(n.saturating_sub(ahead))
    }

    fn edit_selected(&mut self, edit: Edit, selection: Selection) -> Result<(), EditFault> {
        if self.is_full(&edit, selection) {
            return Err(EditFault::Full);
        }
        self.change(edit, selection).map_err(|_| EditFault::Memory)
    }

    fn undo(&mut self) -> bool {
        if self.place == 0 {
            return false;
        }
        let to = self.place - 1;
        self.go_to(to);
        true
    }

    fn redo(&mut self) -> bool {
        let to = self.place + 1;
        if to == self.steps.len() {
            return false;
        }
        self.go_to(to);
        true
    }

    fn rollback(&mut self, to: usize) -> Result<(), AllocError> {
        let end = self.place + 1;
        make_room_beside(&mut self.steps, &mut self.nexts, end)?;
        move_to(
            &mut self.slots,
            &self.steps,
            &mut self.nexts,
            self.place,
            to,
        );
        let earlier = origin(&self.steps, to);
        let last = &self.steps[self.place];
        let step = Step {
            change: Change::Back(earlier),
            slots: last.slots,
            pairs: last.pairs,
        };
        cut_and_push(&mut self.steps, &mut self.nexts, end, step);
        self.place = end;
        Ok(())
    }

    fn settle(&mut self) {
        self.slots.settle();
        let step = Step {
            change: Change::Turned(Vec::new(self.alloc), None),
            slots: self.slots.len(),
            pairs: self.pool.len(),
        };
        cut_and_push(&mut self.steps, &mut self.nexts, 0, step);
        self.place = 0;
    }
}
