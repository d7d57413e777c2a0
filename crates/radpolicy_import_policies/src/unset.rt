//! Which attributes no line of a policy sets.

use avp_dict::Dictionary;
use avp_lists::{AttrId, List, Op};
use avp_unlang::{Branch, Line, Policy, Statement};
use radpolicy_import_conditions::{OtherAttribute, OtherSource};
use std::alloc::{AllocError, Global};

// Whether an operator makes instances.
fn makes(op: Op) -> bool {
    match op {
        Op::AddNew | Op::Replace | Op::Append | Op::Prepend => true,
        Op::RemoveEqual | Op::KeepEqual | Op::RemoveAll => false,
    }
}

fn is_set_by(lines: &[Line], list: List, id: AttrId) -> bool {
    lines.iter().any(|line| line.list == list && line.id.equals(id) && makes(line.op))
}

/// Whether a line of a block sets an attribute in a list.
#[cycle(blocks)]
pub(crate) fn is_set(block: &[Statement], list: List, id: AttrId) -> bool {
    for statement in block {
        if is_set_by_statement(statement, list, id) {
            return true;
        }
    }
    false
}

#[cycle(blocks)]
fn is_set_in_branches(branches: &[Branch], list: List, id: AttrId) -> bool {
    for branch in branches {
        if is_set(branch.block.as_slice(), list, id) {
            return true;
        }
    }
    false
}

#[cycle(blocks)]
fn is_set_by_statement(statement: &Statement, list: List, id: AttrId) -> bool {
    match statement {
        Statement::Update(_, lines) => is_set_by(lines.as_slice(), list, id),
        Statement::If(branches, otherwise) => {
            is_set_in_branches(branches.as_slice(), list, id)
                || match otherwise {
                    Some(block) => is_set(block.as_slice(), list, id),
                    None => false,
                }
        }
        Statement::Transaction(_, block) => is_set(block.as_slice(), list, id),
        Statement::Word(_, _) => false,
    }
}

/// Those of the attributes that no line of a policy sets, so that they are absent unless they are given to its run.
pub fn unset_attributes<'a>(
    alloc: Global,
    dictionary: &Dictionary,
    policy: &Policy,
    others: &'a [OtherAttribute],
) -> Result<Vec<&'a OtherAttribute>, AllocError> {
    let mut unset = Vec::new(alloc);
    for other in others {
        // That no `return` is kept says nothing of what has to be given, and names of values are not given.
        if let OtherSource::Returned | OtherSource::Value(_) = &other.source {
            continue;
        }
        if let Some(named) = dictionary.by_name(&other.own)
            && !is_set(policy.statements().as_slice(), List::Control, named.id)
        {
            unset.push(other)?;
        }
    }
    Ok(unset)
}
