//! The pairs that slots show.
ghost use Rattle.std.specs.Prelude.{◌≡◌, ◌<◌, ◌+◌, ◌++◌, OnOk, IfOk, true, false, length, map, take, drop, find, slice_get, slice_index_or};
ghost use Rattle.std.specs.Option.{option_copied, IfSome, IfNone};
ghost use Rattle.std.specs.List.{list_any};
ghost use Rattle.avp_lists.specs.Tags.{is_selected};
ghost use Rattle.avp_lists.specs.internal.Slots.{slot_at, PairsWithin};
ghost use Rattle.avp_lists.specs.declared.slots.End.TheVariants.{Head, Tail};
ghost use Rattle.avp_lists.specs.internal.Shown.{shows, pair_at, passes_at, shows_passing, shows_passing_at, ahead_at, shown_pairs};
ghost use Rattle.avp_lists.specs.internal.Live.{AreLive, AllLive};

use crate::lists::List;
use crate::live::Live;
use crate::pairs::{AttrId, Pair, copy_pair};
use crate::slots::{Slot, same_list};
use crate::tags::Selection;
use std::alloc::{AllocError, Global};

pub(crate) fn shows(slot: &Slot, list: List) -> bool
    ensures { result ≡ shows list slot.now }
{
    slot.mark.live && same_list(list, slot.list)
}

// The first that is selected in a list.
pub(crate) fn first_shown<'a>(
    slots: &[Slot],
    live: &Live,
    pool: &'a [Pair],
    list: List,
    id: AttrId,
    selection: Selection,
) -> Option<&'a Pair>
    requires pooled { PairsWithin (length pool.now) slots.now }
    requires live { AreLive slots.now live.now }
    ensures { option_copied result ≡ find (is_selected selection id)
        (shown_pairs list pool.now slots.now) }
{
    let place = first_slot(slots, live, pool, list, id, selection)?;
    Some(&pool[slots[place].mark.pair])
}

// Copies of the pairs at these places.
fn push_shown(
    made: &mut Vec<Pair>,
    slots: &[Slot],
    pool: &[Pair],
    places: &[usize],
) -> Result<(), AllocError>
    requires pooled { PairsWithin (length pool.now) slots.now }
    requires live { AllLive slots.now places.now }
    ensures { OnOk result (made.new.items
        ≡ made.old.items ++ map (pair_at pool.now slots.now) places.now) }
{
    for place in places {
        made.push(copy_pair(*made.allocator(), &pool[slots[*place].mark.pair])?)?;
    }
    Ok(())
}

// A copy of a list.
pub(crate) fn shown_pairs(
    alloc: Global,
    slots: &[Slot],
    live: &Live,
    pool: &[Pair],
    list: List,
) -> Result<Vec<Pair>, AllocError>
    requires pooled { PairsWithin (length pool.now) slots.now }
    requires live { AreLive slots.now live.now }
    ensures { IfOk result (λ made. made.items ≡ shown_pairs list pool.now slots.now) }
{
    let places = live.of(list);
    let mut made = Vec::new(alloc);
    push_shown(&mut made, slots, pool, &places.head)?;
    made.reverse();
    push_shown(&mut made, slots, pool, &places.tail)?;
    Ok(made)
}

// The pair of one of these places.
fn pair_of<'a>(slots: &[Slot], pool: &'a [Pair], places: &[usize], at: usize) -> Option<&'a Pair>
    requires pooled { PairsWithin (length pool.now) slots.now }
    requires live { AllLive slots.now places.now }
    ensures { option_copied result ≡ slice_get (map (pair_at pool.now slots.now) places.now) at }
{
    if at < places.len() {
        let place = places[at];
        return Some(&pool[slots[place].mark.pair]);
    }
    None
}

// The pair at a place of a list.
pub(crate) fn pair_shown<'a>(
    slots: &[Slot],
    live: &Live,
    pool: &'a [Pair],
    list: List,
    at: usize,
) -> Option<&'a Pair>
    requires pooled { PairsWithin (length pool.now) slots.now }
    requires live { AreLive slots.now live.now }
    ensures { option_copied result ≡ slice_get (shown_pairs list pool.now slots.now) at }
{
    let places = live.of(list);
    let heads = places.head.len();
    if at < heads {
        pair_of(slots, pool, &places.head, heads - 1 - at)
    } else {
        pair_of(slots, pool, &places.tail, at - heads)
    }
}

// The last slot that shows a selected pair which entered at the head.
fn last_head(
    slots: &[Slot],
    live: &Live,
    pool: &[Pair],
    list: List,
    id: AttrId,
    selection: Selection,
) -> Option<usize>
    requires pooled { PairsWithin (length pool.now) slots.now }
    requires live { AreLive slots.now live.now }
    ensures shown { IfSome result (λ at. (at < length slots.now)
        × (shows_passing_at Head list (is_selected selection id) pool.now (slot_at slots.now at)
        ≡ true)) }
    ensures none_after { IfSome result (λ at.
        list_any
        (shows_passing_at Head list (is_selected selection id) pool.now) (drop (at + 1) slots.now)
        ≡ false) }
    ensures none { IfNone result (list_any
        (shows_passing_at Head list (is_selected selection id) pool.now) slots.now ≡ false) }
{
    let places = live.of(list).head.as_slice();
    let at = last_with(slots, pool, places, id, selection)?;
    Some(places[at])
}

// The first slot that shows a selected pair which entered at the tail.
fn first_tail(
    slots: &[Slot],
    live: &Live,
    pool: &[Pair],
    list: List,
    id: AttrId,
    selection: Selection,
) -> Option<usize>
    requires pooled { PairsWithin (length pool.now) slots.now }
    requires live { AreLive slots.now live.now }
    ensures shown { IfSome result (λ at. (at < length slots.now)
        × (shows_passing_at Tail list (is_selected selection id) pool.now (slot_at slots.now at)
        ≡ true)) }
    ensures none_before { IfSome result (λ at.
        list_any
        (shows_passing_at Tail list (is_selected selection id) pool.now) (take at slots.now)
        ≡ false) }
    ensures none { IfNone result (list_any
        (shows_passing_at Tail list (is_selected selection id) pool.now) slots.now ≡ false) }
{
    let places = live.of(list).tail.as_slice();
    let at = first_with(slots, pool, places, id, selection)?;
    Some(places[at])
}

// Which is the last of these places where a slot shows a selected pair.
fn last_with(
    slots: &[Slot],
    pool: &[Pair],
    places: &[usize],
    id: AttrId,
    selection: Selection,
) -> Option<usize>
    requires pooled { PairsWithin (length pool.now) slots.now }
    requires live { AllLive slots.now places.now }
    ensures found { IfSome result (λ at. (at < length places.now)
        × (passes_at (is_selected selection id) pool.now slots.now (slice_index_or places.now at 0)
        ≡ true)) }
    ensures none_after { IfSome result (λ at.
        list_any (passes_at (is_selected selection id) pool.now slots.now)
        (drop (at + 1) places.now) ≡ false) }
    ensures none { IfNone result (list_any
        (passes_at (is_selected selection id) pool.now slots.now) places.now ≡ false) }
{
    let mut end = places.len();
    while end > 0 {
        let at = end - 1;
        if selection.is_selected(id, &pool[slots[places[at]].mark.pair]) {
            return Some(at);
        }
        end = at;
    }
    None
}

// Which is the first.
fn first_with(
    slots: &[Slot],
    pool: &[Pair],
    places: &[usize],
    id: AttrId,
    selection: Selection,
) -> Option<usize>
    requires pooled { PairsWithin (length pool.now) slots.now }
    requires live { AllLive slots.now places.now }
    ensures found { IfSome result (λ at. (at < length places.now)
        × (passes_at (is_selected selection id) pool.now slots.now (slice_index_or places.now at 0)
        ≡ true)) }
    ensures none_before { IfSome result (λ at.
        list_any (passes_at (is_selected selection id) pool.now slots.now)
        (take at places.now) ≡ false) }
    ensures none { IfNone result (list_any
        (passes_at (is_selected selection id) pool.now slots.now) places.now ≡ false) }
{
    for at in 0..places.len() {
        if selection.is_selected(id, &pool[slots[places[at]].mark.pair]) {
            return Some(at);
        }
    }
    None
}

// The slot that shows the first that is selected in a list.
pub(crate) fn first_slot(
    slots: &[Slot],
    live: &Live,
    pool: &[Pair],
    list: List,
    id: AttrId,
    selection: Selection,
) -> Option<usize>
    requires pooled { PairsWithin (length pool.now) slots.now }
    requires live { AreLive slots.now live.now }
    ensures shown { IfSome result (λ at. (at < length slots.now)
        × (shows_passing list (is_selected selection id) pool.now (slot_at slots.now at) ≡ true)) }
    ensures none_before { IfSome result (λ at.
        list_any
        (shows_passing list (is_selected selection id) pool.now) (ahead_at at slots.now) ≡ false) }
    ensures none { IfNone result (list_any
        (shows_passing list (is_selected selection id) pool.now) slots.now ≡ false) }
{
    match last_head(slots, live, pool, list, id, selection) {
        Some(place) => Some(place),
        None => first_tail(slots, live, pool, list, id, selection),
    }
}
