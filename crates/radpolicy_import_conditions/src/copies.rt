//! Copies of what conditions compare.

ghost use Rattle.std.specs.Prelude.{◌≡◌, IfOk};

use avp_unlang::{
    Comparand, Comparison, GroupMatching, Items, Matching, Part, Parts, TextComparison, TextSide,
};
use std::alloc::{AllocError, Global};

fn copy_comparand(alloc: Global, comparand: &Comparand) -> Result<Comparand, AllocError>
    ensures { IfOk result (λ copy. copy ≡ comparand.now) }
{
    match comparand {
        Comparand::Literal(value) => Ok(Comparand::Literal(value.copy(alloc)?)),
        Comparand::Instance(list, id) => Ok(Comparand::Instance(*list, *id)),
    }
}

pub(crate) fn copy_comparison(
    alloc: Global,
    comparison: &Comparison,
) -> Result<Comparison, AllocError>
    ensures { IfOk result (λ copy. copy ≡ comparison.now) }
{
    Ok(Comparison {
        list: comparison.list,
        id: comparison.id,
        kind: comparison.kind,
        relation: comparison.relation,
        comparand: copy_comparand(alloc, &comparison.comparand)?,
    })
}

pub(crate) fn copy_matching(alloc: Global, matching: &Matching) -> Result<Matching, AllocError>
    ensures { IfOk result (λ copy. copy ≡ matching.now) }
{
    Ok(Matching {
        list: matching.list,
        id: matching.id,
        selection: matching.selection,
        negated: matching.negated,
        pattern: matching.pattern.copy(alloc)?,
        flags: matching.flags,
    })
}

pub(crate) fn copy_group_matching(
    alloc: Global,
    matching: &GroupMatching,
) -> Result<GroupMatching, AllocError>
    ensures { IfOk result (λ copy. copy ≡ matching.now) }
{
    Ok(GroupMatching {
        group: matching.group,
        negated: matching.negated,
        pattern: matching.pattern.copy(alloc)?,
        flags: matching.flags,
    })
}

fn copy_part(alloc: Global, part: &Part) -> Result<Part, AllocError>
    ensures { IfOk result (λ copy. copy ≡ part.now) }
{
    match part {
        Part::Text(octets) => Ok(Part::Text(octets.copy(alloc)?)),
        Part::Instance(list, id) => Ok(Part::Instance(*list, *id)),
        Part::Meant(list, id, selection) => Ok(Part::Meant(*list, *id, *selection)),
        Part::Capture(group) => Ok(Part::Capture(*group)),
    }
}

fn copy_parts(alloc: Global, parts: &[Part]) -> Result<Parts, AllocError>
    ensures { IfOk result (λ copy. copy ≡ parts.now) }
{
    let mut copies = Vec::new(alloc);
    for part in parts {
        copies.push(copy_part(alloc, part)?)?;
    }
    Ok(Items::from_vec(copies))
}

fn copy_side(alloc: Global, side: &TextSide) -> Result<TextSide, AllocError>
    ensures { IfOk result (λ copy. copy ≡ side.now) }
{
    match side {
        TextSide::Text(parts) => Ok(TextSide::Text(copy_parts(alloc, parts.as_slice())?)),
        TextSide::Instance(list, id, selection) => {
            Ok(TextSide::Instance(*list, *id, *selection))
        }
    }
}

pub(crate) fn copy_texts(
    alloc: Global,
    comparison: &TextComparison,
) -> Result<TextComparison, AllocError>
    ensures { IfOk result (λ copy. copy ≡ comparison.now) }
{
    Ok(TextComparison {
        left: copy_side(alloc, &comparison.left)?,
        relation: comparison.relation,
        right: copy_parts(alloc, comparison.right.as_slice())?,
    })
}
