//! What the operators of an `update` make of a list, as a new list.

ghost use Rattle.std.specs.Prelude.{◌≡◌, ◌≤◌, ◌++◌, ◌∷◌, [], IfOk, IfSome, OnOk, filter, length};
ghost use Rattle.std.specs.List.{position};
ghost use Rattle.std.specs.Option.{unwrap_or};
ghost use Rattle.avp_lists.specs.Instances.{has_id, has_instance, is_other};
ghost use Rattle.avp_lists.specs.Operators.{agrees, apply, differs};
ghost use Rattle.avp_lists.specs.declared.edits.Op.TheVariants.{AddNew};
ghost use Rattle.server_unlang.specs.Edits.{after_removal, is_id, is_later, kept, put_sorted, rank, replace_first, server_apply, sorted};

use avp_lists::{AttrId, Op, Pair, copy_pair};
use std::alloc::{AllocError, Global};

/// Where the walk of `==` over a sorted list is.
#[derive(Clone, Copy)]
pub(crate) enum Walk {
    /// At the head of what is left of the list.
    Head,
    /// At a pair that is passed over.
    Passed,
    Later,
}

impl Walk {
    fn after_removal(self) -> Walk
        ensures { result ≡ after_removal self }
    {
        match self {
            Walk::Head => Walk::Passed,
            Walk::Passed | Walk::Later => Walk::Later,
        }
    }
}

pub(crate) fn has_instance(pairs: &[Pair], id: AttrId) -> bool
    ensures { result ≡ has_instance id pairs.now }
{
    pairs.iter().any(|pair| pair.id.equals(id))
}

// The place of the first instance, if there is one.
fn first_place(pairs: &[Pair], id: AttrId) -> Option<usize>
    ensures { result ≡ position (has_id id) pairs.now }
{
    pairs.iter().position(|pair| pair.id.equals(id))
}

fn push_copies(made: &mut Vec<Pair>, pairs: &[Pair]) -> Result<(), AllocError>
    ensures { OnOk result (made.new.items ≡ made.old.items ++ pairs.now) }
{
    for pair in pairs {
        made.push(copy_pair(*made.allocator(), pair)?)?;
    }
    Ok(())
}

fn push_others(made: &mut Vec<Pair>, pairs: &[Pair], id: AttrId) -> Result<(), AllocError>
    ensures { OnOk result (made.new.items
        ≡ made.old.items ++ filter (is_other id) pairs.now) }
{
    for pair in pairs {
        if !pair.id.equals(id) {
            made.push(copy_pair(*made.allocator(), pair)?)?;
        }
    }
    Ok(())
}

fn push_unequal(made: &mut Vec<Pair>, pairs: &[Pair], than: &Pair) -> Result<(), AllocError>
    ensures { OnOk result (made.new.items
        ≡ made.old.items ++ filter (differs than.now) pairs.now) }
{
    for pair in pairs {
        if !pair.equals(than) {
            made.push(copy_pair(*made.allocator(), pair)?)?;
        }
    }
    Ok(())
}

fn append(made: &mut Vec<Pair>, pairs: &[Pair], pair: Pair) -> Result<(), AllocError>
    ensures { OnOk result (made.new.items ≡ made.old.items ++ (pairs.now ++ pair ∷ [])) }
{
    push_copies(made, pairs)?;
    Ok(made.push(pair)?)
}

fn prepend(made: &mut Vec<Pair>, pairs: &[Pair], pair: Pair) -> Result<(), AllocError>
    ensures { OnOk result (made.new.items ≡ made.old.items ++ pair ∷ pairs.now) }
{
    made.push(pair)?;
    push_copies(made, pairs)
}

// The pair is added where there is no instance.
fn add_new(made: &mut Vec<Pair>, pairs: &[Pair], pair: Pair) -> Result<(), AllocError>
    ensures { OnOk result (made.new.items
        ≡ made.old.items ++ apply AddNew pair pairs.now) }
{
    if has_instance(pairs, pair.id) {
        push_copies(made, pairs)
    } else {
        append(made, pairs, pair)
    }
}

fn replace_first(made: &mut Vec<Pair>, pairs: &[Pair], pair: Pair) -> Result<(), AllocError>
    ensures { OnOk result (made.new.items ≡ made.old.items ++ replace_first pair pairs.now) }
{
    match first_place(pairs, pair.id) {
        None => append(made, pairs, pair),
        Some(first) => {
            append(made, &pairs[..first], pair)?;
            push_copies(made, &pairs[first + 1..])
        }
    }
}

fn known_place(order: &[AttrId], id: AttrId) -> Option<usize>
    ensures { result ≡ position (is_id id) order.now }
{
    order.iter().position(|known| known.equals(id))
}

fn rank(order: &[AttrId], id: AttrId) -> usize
    ensures { result ≡ rank order.now id }
{
    match known_place(order, id) {
        Some(place) => place,
        None => order.len(),
    }
}

fn is_later(order: &[AttrId], pair: &Pair, other: &Pair) -> bool
    ensures { result ≡ is_later order.now pair.now other.now }
{
    rank(order, pair.id) < rank(order, other.id)
}

fn first_later(sorted: &[Pair], order: &[AttrId], pair: &Pair) -> Option<usize>
    ensures place { result ≡ position (is_later order.now pair.now) sorted.now }
    ensures within { IfSome result (λ place. place ≤ length sorted.now) }
{
    sorted.iter().position(|other| is_later(order, pair, other))
}

// Where a pair goes in a sorted list.
fn sorted_place(sorted: &[Pair], order: &[AttrId], pair: &Pair) -> usize
    ensures value { result ≡ unwrap_or (position (is_later order.now pair.now) sorted.now)
        (length sorted.now) }
    ensures within { result ≤ length sorted.now }
{
    match first_later(sorted, order, pair) {
        Some(place) => place,
        None => sorted.len(),
    }
}

fn put_sorted(made: &mut Vec<Pair>, order: &[AttrId], pair: Pair) -> Result<(), AllocError>
    ensures { OnOk result (made.new.items ≡ put_sorted order.now pair made.old.items) }
{
    let place = sorted_place(made.as_slice(), order, &pair);
    Ok(made.insert(place, pair)?)
}

fn sorted(alloc: Global, order: &[AttrId], pairs: &[Pair]) -> Result<Vec<Pair>, AllocError>
    ensures { IfOk result (λ made. made.items ≡ sorted order.now pairs.now) }
{
    let mut made = Vec::new(alloc);
    for pair in pairs {
        put_sorted(&mut made, order, copy_pair(alloc, pair)?)?;
    }
    Ok(made)
}

fn agrees(with: &Pair, pair: &Pair) -> bool
    ensures { result ≡ agrees with.now pair.now }
{
    !pair.id.equals(with.id) || pair.equals(with)
}

// What stays of a sorted list.
fn push_kept(made: &mut Vec<Pair>, sorted: &[Pair], with: &Pair, at: Walk) -> Result<(), AllocError>
    ensures { OnOk result (made.new.items ≡ made.old.items ++ kept with.now at sorted.now) }
{
    let mut at = at;
    for pair in sorted {
        if matches!(at, Walk::Passed) || agrees(with, pair) {
            made.push(copy_pair(*made.allocator(), pair)?)?;
            at = Walk::Later;
        } else {
            at = at.after_removal();
        }
    }
    Ok(())
}

/// The list that an operator makes.
pub(crate) fn server_apply(
    alloc: Global,
    order: &[AttrId],
    op: Op,
    pair: Pair,
    pairs: &[Pair],
) -> Result<Vec<Pair>, AllocError>
    ensures { IfOk result (λ made. made.items ≡ server_apply order.now op pair pairs.now) }
{
    let mut made = Vec::new(alloc);
    match op {
        Op::AddNew => add_new(&mut made, pairs, pair)?,
        Op::Replace => replace_first(&mut made, pairs, pair)?,
        Op::Append => append(&mut made, pairs, pair)?,
        Op::Prepend => prepend(&mut made, pairs, pair)?,
        Op::RemoveEqual => push_unequal(&mut made, pairs, &pair)?,
        Op::KeepEqual => push_kept(&mut made, &sorted(alloc, order, pairs)?, &pair, Walk::Head)?,
        Op::RemoveAll => push_others(&mut made, pairs, pair.id)?,
    }
    Ok(made)
}
