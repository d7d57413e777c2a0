//! The attributes that a policy compares with patterns.

ghost use Rattle.std.specs.Prelude.{◌≡◌, ◌++◌, IfOk, OnOk};
ghost use Rattle.std.specs.List.{flat_map};
ghost use Rattle.radpolicy_common.specs.Secrets.{matched_by_key, matched_in, matched_in_branch, matched_in_cond, matched_of, statements_of};

use crate::secret_attributes::is_secret_text;
use avp_lists::AttrId;
use avp_unlang::{Branch, Cond, Policy, Statement};
use std::alloc::{AllocError, Global};

// A secret attribute, whatever the dictionary names it.
const USER_PASSWORD: AttrId = AttrId::Plain(2);

// ---- of conditions

fn push_by_key(ids: &mut Vec<AttrId>, pattern: &[u8]) -> Result<(), AllocError>
    ensures { OnOk result (ids.new.items ≡ ids.old.items ++ matched_by_key pattern.now) }
{
    if is_secret_text(pattern) {
        ids.push(USER_PASSWORD)?;
    }
    Ok(())
}

#[cycle(conds)]
fn push_conds(ids: &mut Vec<AttrId>, conds: &[Cond]) -> Result<(), AllocError>
    ensures { OnOk result (ids.new.items ≡ ids.old.items ++ flat_map matched_in_cond conds.now) }
{
    for cond in conds {
        push_cond(ids, cond)?;
    }
    Ok(())
}

#[cycle(conds)]
#[tactic(auto, using(crate::proofs::MatchedAttributes::in_any, crate::proofs::MatchedAttributes::in_all, crate::proofs::MatchedAttributes::in_not, crate::proofs::MatchedAttributes::match_pushed, crate::proofs::MatchedAttributes::match_text_pushed, crate::proofs::MatchedAttributes::in_match_group, crate::proofs::MatchedAttributes::none_in_last, crate::proofs::MatchedAttributes::none_in_present, crate::proofs::MatchedAttributes::none_in_present_selected, crate::proofs::MatchedAttributes::none_in_compare, crate::proofs::MatchedAttributes::none_in_compare_meant, crate::proofs::MatchedAttributes::none_in_compare_texts, crate::proofs::MatchedAttributes::none_in_captured))]
fn push_cond(ids: &mut Vec<AttrId>, cond: &Cond) -> Result<(), AllocError>
    ensures { OnOk result (ids.new.items ≡ ids.old.items ++ matched_in_cond cond.now) }
{
    match cond {
        Cond::Any(parts) => push_conds(ids, parts.as_slice()),
        Cond::All(parts) => push_conds(ids, parts.as_slice()),
        Cond::Not(part) => push_cond(ids, part.get()),
        Cond::Match(matching) => {
            ids.push(matching.id)?;
            push_by_key(ids, matching.pattern.as_slice())
        }
        Cond::MatchText(matching) => {
            ids.push(matching.id)?;
            push_by_key(ids, matching.pattern.as_slice())
        }
        Cond::MatchGroup(matching) => push_by_key(ids, matching.pattern.as_slice()),
        Cond::Last(_)
        | Cond::Present(..)
        | Cond::PresentSelected(..)
        | Cond::Compare(_)
        | Cond::CompareMeant(_)
        | Cond::CompareTexts(_)
        | Cond::Captured(_) => Ok(()),
    }
}

// ---- of statements

#[cycle(blocks)]
fn push_block(ids: &mut Vec<AttrId>, block: &[Statement]) -> Result<(), AllocError>
    ensures { OnOk result (ids.new.items ≡ ids.old.items ++ matched_of block.now) }
{
    for statement in block {
        push_statement(ids, statement)?;
    }
    Ok(())
}

#[cycle(blocks)]
fn push_branch(ids: &mut Vec<AttrId>, branch: &Branch) -> Result<(), AllocError>
    ensures { OnOk result (ids.new.items ≡ ids.old.items ++ matched_in_branch branch.now) }
{
    push_cond(ids, &branch.cond)?;
    push_block(ids, branch.block.as_slice())
}

#[cycle(blocks)]
fn push_branches(ids: &mut Vec<AttrId>, branches: &[Branch]) -> Result<(), AllocError>
    ensures { OnOk result (ids.new.items
        ≡ ids.old.items ++ flat_map matched_in_branch branches.now) }
{
    for branch in branches {
        push_branch(ids, branch)?;
    }
    Ok(())
}

#[cycle(blocks)]
#[tactic(auto, using(crate::proofs::MatchedAttributes::in_transaction, crate::proofs::MatchedAttributes::none_in_update, crate::proofs::MatchedAttributes::none_in_word))]
fn push_statement(ids: &mut Vec<AttrId>, statement: &Statement) -> Result<(), AllocError>
    ensures { OnOk result (ids.new.items ≡ ids.old.items ++ matched_in statement.now) }
{
    match statement {
        Statement::If(branches, otherwise) => {
            push_branches(ids, branches.as_slice())?;
            match otherwise {
                Some(block) => push_block(ids, block.as_slice()),
                None => Ok(()),
            }
        }
        Statement::Transaction(_, block) => push_block(ids, block.as_slice()),
        Statement::Update(_, _) | Statement::Word(_, _) => Ok(()),
    }
}

/// The attributes that the policies' conditions compare with patterns, each as often as they do.
pub(crate) fn matched_of(alloc: Global, policies: &[&Policy]) -> Result<Vec<AttrId>, AllocError>
    ensures { IfOk result (λ ids. ids.items ≡ matched_of (statements_of policies.now)) }
{
    let mut ids = Vec::new(alloc);
    for policy in policies {
        push_block(&mut ids, policy.statements().as_slice())?;
    }
    Ok(ids)
}
