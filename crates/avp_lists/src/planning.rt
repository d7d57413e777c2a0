//! What an edit turns in the slots.
ghost use Rattle.std.specs.Prelude.{◌≡◌, ◌<◌, ◌++◌, true, false, IfOk, OnOk, length, filter};
ghost use Rattle.std.specs.List.{list_any};
ghost use Rattle.avp_lists.specs.internal.Slots.{slot_at, PairsWithin};
ghost use Rattle.avp_lists.specs.Tags.{is_selected};
ghost use Rattle.avp_lists.specs.internal.Shown.{shows_passing, ahead_at, shown_pairs};
ghost use Rattle.avp_lists.specs.internal.Live.{AreLive, AllLive};
ghost use Rattle.avp_lists.specs.internal.Growth.{adds_one, removes};
ghost use Rattle.avp_lists.specs.internal.Plans.{enters, end_for, is_removed, is_taken, is_taken_at, taken_places, IsPlan};
ghost use Rattle.avp_lists.specs.declared.edits.Op.TheVariants.{AddNew, Replace};

use crate::edits::{Edit, Op};
use crate::live::Live;
use crate::pairs::Pair;
use crate::showing::{first_slot, shows};
use crate::slots::{End, Mark, Slot, Swap};
use crate::tags::Selection;
use std::alloc::{AllocError, Global};

// What an edit turns, by the places of slots.
#[derive(Drop)]
pub(crate) struct Plan {
    // The slots that start or stop showing their pairs.
    pub turned: Vec<usize>,
    // The slot where the edit's pair takes the place of the first that is selected.
    pub swap: Option<Swap>,
    // A slot for the edit's pair, which shows nothing yet.
    pub added: Option<Slot>,
}

impl Plan {
    // Whether the edit's pair enters the pool.
    pub fn enters(&self) -> bool
        ensures { result ≡ enters self.now }
    {
        self.swap.is_some() || self.added.is_some()
    }
}

// Whether the operator takes the other pair away, where it is not the first that is selected.
#[inline(always)]
fn is_removed(selection: Selection, op: Op, pair: &Pair, other: &Pair) -> bool
    ensures { result ≡ is_removed selection op pair.now other.now }
{
    match op {
        Op::AddNew | Op::Append | Op::Prepend => false,
        Op::RemoveEqual => selection.is_same(other, pair),
        Op::KeepEqual => selection.is_selected(pair.id, other) && !selection.is_same(other, pair),
        Op::Replace | Op::RemoveAll => selection.is_selected(pair.id, other),
    }
}

// Whether an edit takes the pair of the slot away.
#[inline(always)]
fn is_taken(slot: &Slot, pool: &[Pair], edit: &Edit, selection: Selection) -> bool
    requires { slot.now.mark.live ≡ true → slot.now.mark.pair < length pool.now }
    ensures { result ≡ is_taken selection edit.now pool.now slot.now }
{
    shows(slot, edit.list) && is_removed(selection, edit.op, &edit.pair, &pool[slot.mark.pair])
}

// Those of these places whose slots' pairs an edit takes away.
#[inline(always)]
fn push_taken(
    taken: &mut Vec<usize>,
    places: &[usize],
    slots: &[Slot],
    pool: &[Pair],
    edit: &Edit,
    selection: Selection,
) -> Result<(), AllocError>
    requires pooled { PairsWithin (length pool.now) slots.now }
    requires live { AllLive slots.now places.now }
    ensures { OnOk result (taken.new.items
        ≡ taken.old.items
        ++ filter (is_taken_at selection edit.now pool.now slots.now) places.now) }
{
    for place in places {
        if is_taken(&slots[*place], pool, edit, selection) {
            taken.push(*place)?;
        }
    }
    Ok(())
}

// The places of the slots whose pairs an edit takes away: first those that entered at the head.
#[inline(always)]
fn find_taken_places(
    alloc: Global,
    slots: &[Slot],
    live: &Live,
    pool: &[Pair],
    edit: &Edit,
    selection: Selection,
) -> Result<Vec<usize>, AllocError>
    requires pooled { PairsWithin (length pool.now) slots.now }
    requires live { AreLive slots.now live.now }
    ensures { IfOk result (λ taken. taken.items
        ≡ taken_places selection edit.now pool.now slots.now) }
{
    let places = live.of(edit.list);
    let mut taken = Vec::new(alloc);
    push_taken(&mut taken, &places.head, slots, pool, edit, selection)?;
    push_taken(&mut taken, &places.tail, slots, pool, edit, selection)?;
    Ok(taken)
}

// Most edits ask for no tag: theirs is a loop of its own, which looks at no selection.
fn taken_places(
    alloc: Global,
    slots: &[Slot],
    live: &Live,
    pool: &[Pair],
    edit: &Edit,
    selection: Selection,
) -> Result<Vec<usize>, AllocError>
    requires pooled { PairsWithin (length pool.now) slots.now }
    requires live { AreLive slots.now live.now }
    ensures { IfOk result (λ taken. taken.items
        ≡ taken_places selection edit.now pool.now slots.now) }
{
    match selection {
        Selection::All => find_taken_places(alloc, slots, live, pool, edit, Selection::All),
        Selection::EachTag(_) | Selection::Tag(_, _) => {
            find_taken_places(alloc, slots, live, pool, edit, selection)
        }
    }
}

// The end at which an operator adds its pair.
fn end_for(op: Op) -> End
    ensures { result ≡ end_for op }
{
    match op {
        Op::Prepend => End::Head,
        _ => End::Tail,
    }
}

// The pair gets a slot of its own, whatever is selected.
fn plan_addition(
    alloc: Global,
    slots: &[Slot],
    pool: &[Pair],
    edit: &Edit,
) -> Result<Plan, AllocError>
    requires pooled { PairsWithin (length pool.now) slots.now }
    ensures { (selection : Selection)
        → adds_one edit.now.op (is_selected selection edit.now.pair.id)
        (shown_pairs edit.now.list pool.now slots.now) ≡ true
        → IfOk result (λ plan. IsPlan selection edit.now pool.now slots.now plan) }
{
    let mut turned = Vec::new(alloc);
    turned.push(slots.len())?;
    let mark = Mark {
        live: false,
        pair: pool.len(),
    };
    let added = Slot {
        list: edit.list,
        end: end_for(edit.op),
        mark,
        initial: mark,
    };
    Ok(Plan {
        turned,
        swap: None,
        added: Some(added),
    })
}

// The pair takes the place of the first that is selected, and the others go.
fn plan_replacement(
    alloc: Global,
    slots: &[Slot],
    live: &Live,
    pool: &[Pair],
    edit: &Edit,
    selection: Selection,
    first: usize,
) -> Result<Plan, AllocError>
    requires pooled { PairsWithin (length pool.now) slots.now }
    requires live { AreLive slots.now live.now }
    requires op { edit.now.op ≡ Replace }
    requires first { (first < length slots.now)
        × (shows_passing edit.now.list
        (is_selected selection edit.now.pair.id) pool.now (slot_at slots.now first) ≡ true) }
    requires none_before { list_any (shows_passing edit.now.list
        (is_selected selection edit.now.pair.id) pool.now)
        (ahead_at first slots.now) ≡ false }
    ensures { IfOk result (λ plan. IsPlan selection edit.now pool.now slots.now plan) }
{
    let mut turned = taken_places(alloc, slots, live, pool, edit, selection)?;
    turned.retain(|place| *place != first);
    let swap = Swap {
        slot: first,
        old: slots[first].mark.pair,
        new: pool.len(),
    };
    Ok(Plan {
        turned,
        swap: Some(swap),
        added: None,
    })
}

// Pairs are removed, and none is added.
fn plan_removal(
    alloc: Global,
    slots: &[Slot],
    live: &Live,
    pool: &[Pair],
    edit: &Edit,
    selection: Selection,
) -> Result<Plan, AllocError>
    requires pooled { PairsWithin (length pool.now) slots.now }
    requires live { AreLive slots.now live.now }
    requires removes { removes edit.now.op ≡ true }
    ensures { IfOk result (λ plan. IsPlan selection edit.now pool.now slots.now plan) }
{
    let turned = taken_places(alloc, slots, live, pool, edit, selection)?;
    Ok(Plan {
        turned,
        swap: None,
        added: None,
    })
}

// What the edit turns in these slots.
pub(crate) fn plan_edit(
    alloc: Global,
    slots: &[Slot],
    live: &Live,
    pool: &[Pair],
    edit: &Edit,
    selection: Selection,
) -> Result<Plan, AllocError>
    requires pooled { PairsWithin (length pool.now) slots.now }
    requires live { AreLive slots.now live.now }
    ensures { IfOk result (λ plan. IsPlan selection edit.now pool.now slots.now plan) }
{
    let (list, id) = (edit.list, edit.pair.id);
    match edit.op {
        Op::Append | Op::Prepend => plan_addition(alloc, slots, pool, edit),
        Op::AddNew => match first_slot(slots, live, pool, list, id, selection) {
            None => plan_addition(alloc, slots, pool, edit),
            Some(_) => Ok(Plan {
                turned: Vec::new(alloc),
                swap: None,
                added: None,
            }),
        },
        Op::Replace => match first_slot(slots, live, pool, list, id, selection) {
            None => plan_addition(alloc, slots, pool, edit),
            Some(first) => plan_replacement(alloc, slots, live, pool, edit, selection, first),
        },
        Op::RemoveEqual | Op::KeepEqual | Op::RemoveAll => plan_removal(
            alloc, slots, live, pool, edit, selection,
        ),
    }
}
