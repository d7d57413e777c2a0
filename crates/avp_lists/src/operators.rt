//! What an edit makes of a list, as a new list.
ghost use Rattle.std.specs.Prelude.{◌≡◌, ◌++◌, ◌∷◌, [], ◌<◌, ◌↔◌, IfOk, OnOk, IsTrue, filter, ◌+◌};
ghost use Rattle.std.specs.List.{find, position};
ghost use Rattle.std.specs.Option.{option_copied};
ghost use Rattle.avp_lists.specs.States.{IsLimited};
ghost use Rattle.avp_lists.specs.Tags.{is_selected};
ghost use Rattle.avp_lists.specs.Selections.{IsFullSelected, agrees_selected, apply_selected, differs_selected, edited_selected, has_selected, is_unselected, replace_selected};
ghost use Rattle.avp_lists.specs.declared.edits.Op.TheVariants.{AddNew};

use crate::edits::{Edit, Op};
use crate::lists::{List, MAX_PAIRS, Pairs, State, push_copies};
use crate::pairs::{AttrId, Pair, copy_pair};
use crate::tags::Selection;
use std::alloc::{AllocError, Global};

fn has_selected(pairs: &[Pair], id: AttrId, selection: Selection) -> bool
    ensures { result ≡ has_selected selection id pairs.now }
{
    pairs.iter().any(|pair| selection.is_selected(id, pair))
}

// The first that is selected, if there is one.
pub(crate) fn find_selected(pairs: &[Pair], id: AttrId, selection: Selection) -> Option<&Pair>
    ensures { option_copied result ≡ find (is_selected selection id) pairs.now }
{
    pairs.iter().find(|pair| selection.is_selected(id, pair))
}

// Its place, if there is one.
fn first_place(pairs: &[Pair], id: AttrId, selection: Selection) -> Option<usize>
    ensures { result ≡ position (is_selected selection id) pairs.now }
{
    pairs
        .iter()
        .position(|pair| selection.is_selected(id, pair))
}

// The pairs that are not selected.
fn push_others(
    made: &mut Vec<Pair>,
    pairs: &[Pair],
    id: AttrId,
    selection: Selection,
) -> Result<(), AllocError>
    ensures { OnOk result (made.new.items
        ≡ made.old.items ++ filter (is_unselected selection id) pairs.now) }
{
    for pair in pairs {
        if !selection.is_selected(id, pair) {
            made.push(copy_pair(*made.allocator(), pair)?)?;
        }
    }
    Ok(())
}

// The pairs that are not the same as this one.
fn push_unequal(
    made: &mut Vec<Pair>,
    pairs: &[Pair],
    than: &Pair,
    selection: Selection,
) -> Result<(), AllocError>
    ensures { OnOk result (made.new.items
        ≡ made.old.items ++ filter (differs_selected selection than.now) pairs.now) }
{
    for pair in pairs {
        if !selection.is_same(pair, than) {
            made.push(copy_pair(*made.allocator(), pair)?)?;
        }
    }
    Ok(())
}

// The pairs that are not selected, and those that are the same as this one.
fn push_agreeing(
    made: &mut Vec<Pair>,
    pairs: &[Pair],
    with: &Pair,
    selection: Selection,
) -> Result<(), AllocError>
    ensures { OnOk result (made.new.items
        ≡ made.old.items ++ filter (agrees_selected selection with.now) pairs.now) }
{
    for pair in pairs {
        if !selection.is_selected(with.id, pair) || selection.is_same(pair, with) {
            made.push(copy_pair(*made.allocator(), pair)?)?;
        }
    }
    Ok(())
}

fn replace_selected(
    made: &mut Vec<Pair>,
    pairs: &[Pair],
    pair: Pair,
    selection: Selection,
) -> Result<(), AllocError>
    ensures { OnOk result (made.new.items
        ≡ made.old.items ++ replace_selected selection pair pairs.now) }
{
    let id = pair.id;
    match first_place(pairs, id, selection) {
        None => append(made, pairs, pair),
        Some(first) => {
            append(made, &pairs[..first], pair)?;
            push_others(made, &pairs[first + 1..], id, selection)
        }
    }
}

// The pair is added where none is selected.
fn add_new(
    made: &mut Vec<Pair>,
    pairs: &[Pair],
    pair: Pair,
    selection: Selection,
) -> Result<(), AllocError>
    ensures { OnOk result (made.new.items
        ≡ made.old.items ++ apply_selected selection AddNew pair pairs.now) }
{
    if has_selected(pairs, pair.id, selection) {
        push_copies(made, pairs)
    } else {
        append(made, pairs, pair)
    }
}

fn append(made: &mut Vec<Pair>, pairs: &[Pair], pair: Pair) -> Result<(), AllocError>
    ensures { OnOk result (made.new.items ≡ made.old.items ++ (pairs.now ++ pair ∷ [])) }
{
    push_copies(made, pairs)?;
    Ok(made.push(pair)?)
}

fn prepend(made: &mut Vec<Pair>, pairs: &[Pair], pair: Pair) -> Result<(), AllocError>
    ensures { OnOk result (made.new.items ≡ made.old.items ++ pair ∷ pairs.now) }
{
    made.push(pair)?;
    push_copies(made, pairs)
}

// The pairs of the list that the operator makes.
fn push_applied(
    made: &mut Vec<Pair>,
    op: Op,
    pair: Pair,
    pairs: &[Pair],
    selection: Selection,
) -> Result<(), AllocError>
    ensures { OnOk result (made.new.items
        ≡ made.old.items ++ apply_selected selection op pair pairs.now) }
{
    match op {
        Op::AddNew => add_new(made, pairs, pair, selection),
        Op::Replace => replace_selected(made, pairs, pair, selection),
        Op::Append => append(made, pairs, pair),
        Op::Prepend => prepend(made, pairs, pair),
        Op::RemoveEqual => push_unequal(made, pairs, &pair, selection),
        Op::KeepEqual => push_agreeing(made, pairs, &pair, selection),
        Op::RemoveAll => push_others(made, pairs, pair.id, selection),
    }
}

// The list that the operator makes.
fn apply_selected(
    alloc: Global,
    op: Op,
    pair: Pair,
    pairs: &[Pair],
    selection: Selection,
) -> Result<Vec<Pair>, AllocError>
    ensures { IfOk result (λ made. made.items ≡ apply_selected selection op pair pairs.now) }
{
    let mut made = Vec::new(alloc);
    push_applied(&mut made, op, pair, pairs, selection)?;
    Ok(made)
}

// Whether the edit would make its list too long.
pub(crate) fn is_full(state: &State, edit: &Edit, selection: Selection) -> bool
    requires { IsLimited state.now }
    ensures { IsTrue result ↔ IsFullSelected selection edit.now state.now }
{
    let pairs = state.list(edit.list);
    pairs.len() == MAX_PAIRS
        && edit
            .op
            .lengthens(has_selected(pairs, edit.pair.id, selection))
}

// The state after the edit, as a new one.
pub(crate) fn edited_selected(
    alloc: Global,
    state: &State,
    edit: Edit,
    selection: Selection,
) -> Result<State, AllocError>
    ensures { IfOk result (λ made. made ≡ edited_selected selection edit state.now) }
{
    let Edit { list, op, pair } = edit;
    let pairs = apply_selected(alloc, op, pair, state.list(list), selection)?;
    let pairs = Pairs::from_vec(pairs);
    match list {
        List::Request => Ok(State {
            request: pairs,
            reply: state.reply.clone()?,
            control: state.control.clone()?,
        }),
        List::Reply => Ok(State {
            request: state.request.clone()?,
            reply: pairs,
            control: state.control.clone()?,
        }),
        List::Control => Ok(State {
            request: state.request.clone()?,
            reply: state.reply.clone()?,
            control: pairs,
        }),
    }
}
