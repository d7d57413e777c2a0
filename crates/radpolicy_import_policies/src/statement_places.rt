//! The places of statements among the items of a configuration.

ghost use Rattle.std.specs.Prelude.{◌≡◌, ◌⊎◌, ◌≤◌, ◌+◌, ◌++◌, true, false, get_or, Contains, IfOk, OnOk};
ghost use Rattle.radpolicy_import_policies.specs.Origins.{IsImported};
ghost use Rattle.radpolicy_import_policies.specs.Statements.{places_in, places_of};
ghost use Rattle.radpolicy_import_policies.specs.internal.Marks.{MarksOnly};

use crate::statements::Statement;
use std::alloc::{AllocError, Global};

// Adds the place of a statement, and of each in it.
#[cycle(placing)]
#[tactic(auto, using(crate::proofs::Counts::placed_after))]
fn push_places_in(places: &mut Vec<usize>, statement: &Statement) -> Result<(), AllocError>
    ensures { OnOk result (places.new.items ≡ places.old.items ++ places_in statement.now) }
{
    places.push(statement.place)?;
    push_places_of(places, statement.block.as_slice())?;
    Ok(())
}

#[cycle(placing)]
fn push_places_of(places: &mut Vec<usize>, statements: &[Statement]) -> Result<(), AllocError>
    ensures { OnOk result (places.new.items ≡ places.old.items ++ places_of statements.now) }
{
    for statement in statements {
        push_places_in(places, statement)?;
    }
    Ok(())
}

// So many marks, of which so many are set, the last ones.
#[tactic(auto, using(crate::proofs::MarkedLines::none_marked))]
fn last_marked(alloc: Global, count: usize, last: usize) -> Result<Vec<bool>, AllocError>
    ensures { IfOk result (λ marks. MarksOnly (λ place. count ≤ place + last) marks.items) }
{
    let mut marks = vec![in alloc; false; count]?;
    for place in count.saturating_sub(last)..count {
        if place < marks.len() {
            marks[place] = true;
        }
    }
    Ok(marks)
}

// Sets the marks at these places.
fn mark(marks: &mut [bool], places: &[usize])
    ensures { MarksOnly (λ place. Contains places.now place ⊎ get_or marks.old place false ≡ true)
        marks.new }
{
    for place in places {
        if *place < marks.len() {
            marks[*place] = true;
        }
    }
}

/// A mark for each of so many items: whether it is that of a statement or of one in it, or one of so many last ones.
pub(crate) fn marks_of(
    alloc: Global,
    count: usize,
    last: usize,
    statements: &[Statement],
) -> Result<Vec<bool>, AllocError>
    ensures { IfOk result (λ marks. MarksOnly (IsImported statements.now count last) marks.items) }
{
    let mut places = Vec::new(alloc);
    push_places_of(&mut places, statements)?;
    let mut marks = last_marked(alloc, count, last)?;
    mark(&mut marks, &places);
    Ok(marks)
}
