//! Conditions that repeat an earlier one of their chain.

ghost use Rattle.std.specs.Prelude.{◌≡◌, ◌++◌, [], IfOk, OnOk, map};
ghost use Rattle.std.specs.List.{flat_map, list_any};
ghost use Rattle.avp_lists.specs.Pairs.{value_eq};
ghost use Rattle.avp_unlang.specs.PatternTruth.{pattern_in};
ghost use Rattle.avp_unlang.specs.PolicyPatterns.{same_bool, same_pattern};
ghost use Rattle.avp_unlang.specs.Truth.{same_code};
ghost use Rattle.avp_unlang.specs.declared.tree.Branch.{Branch};
ghost use Rattle.avp_unlang.specs.declared.tree.Statement.TheViews.{out-Branch};
ghost use Rattle.policy_warnings.specs.Repeats.{all_same, link, repeated_conditions, repeats_after, repeats_in, same_comparand, same_comparison, same_cond, same_form, same_matching, same_meant_comparand, same_meant_comparison, same_relation};

use crate::mentions::Mention;
use crate::warnings::{Reason, Warning, push_if};
use avp_dict::Form;
use avp_lists::Value;
use avp_unlang::{
    Branch, Code, Comparand, Comparison, Cond, Matching, MeantComparand, MeantComparison, Relation,
    Statement,
};
use std::alloc::{AllocError, Global};

fn same_relation(relation: Relation, other: Relation) -> bool
    ensures { result ≡ same_relation relation other }
{
    relation == other
}

fn same_form(form: Form, other: Form) -> bool
    ensures { result ≡ same_form form other }
{
    form == other
}

fn same_code(code: Code, other: Code) -> bool
    ensures { result ≡ same_code code other }
{
    code == other
}

fn same_value(value: &Value, other: &Value) -> bool
    ensures { result ≡ value_eq value.now other.now }
{
    value == other
}

fn same_comparand(comparand: &Comparand, other: &Comparand) -> bool
    ensures { result ≡ same_comparand comparand.now other.now }
{
    match (comparand, other) {
        (Comparand::Literal(value), Comparand::Literal(other)) => same_value(value, other),
        (Comparand::Instance(list, id), Comparand::Instance(other, number)) => {
            Mention::whole(*list, *id).means_same(Mention::whole(*other, *number))
        }
        (Comparand::Literal(_), Comparand::Instance(..))
        | (Comparand::Instance(..), Comparand::Literal(_)) => false,
    }
}

fn same_comparison(comparison: &Comparison, other: &Comparison) -> bool
    ensures { result ≡ same_comparison comparison.now other.now }
{
    Mention::whole(comparison.list, comparison.id).means_same(Mention::whole(other.list, other.id))
        && same_relation(comparison.relation, other.relation)
        && same_comparand(&comparison.comparand, &other.comparand)
}

fn same_meant_comparand(comparand: &MeantComparand, other: &MeantComparand) -> bool
    ensures { result ≡ same_meant_comparand comparand.now other.now }
{
    match (comparand, other) {
        (MeantComparand::Literal(form, octets), MeantComparand::Literal(other, wanted)) => {
            same_form(*form, *other) && octets.as_slice() == wanted.as_slice()
        }
        (
            MeantComparand::Instance(list, id, selection, _),
            MeantComparand::Instance(other, number, tags, _),
        ) => Mention::selected(*list, *id, *selection).means_same(Mention::selected(
            *other, *number, *tags,
        )),
        (MeantComparand::Literal(..), MeantComparand::Instance(..))
        | (MeantComparand::Instance(..), MeantComparand::Literal(..)) => false,
    }
}

fn same_meant_comparison(comparison: &MeantComparison, other: &MeantComparison) -> bool
    ensures { result ≡ same_meant_comparison comparison.now other.now }
{
    Mention::selected(comparison.list, comparison.id, comparison.selection).means_same(
        Mention::selected(other.list, other.id, other.selection),
    ) && same_relation(comparison.relation, other.relation)
        && same_meant_comparand(&comparison.comparand, &other.comparand)
}

#[tactic(auto, unfolding(avp_unlang::specs::PolicyPatterns::same_pattern))]
fn same_pattern(matching: &Matching, other: &Matching) -> bool
    ensures { result ≡ same_pattern (pattern_in matching.now) (pattern_in other.now) }
{
    matching.pattern.as_slice() == other.pattern.as_slice()
        && matching.flags.ignore_case == other.flags.ignore_case
        && matching.flags.multi_line == other.flags.multi_line
}

fn same_matching(matching: &Matching, other: &Matching) -> bool
    ensures { result ≡ same_matching matching.now other.now }
{
    Mention::selected(matching.list, matching.id, matching.selection).means_same(Mention::selected(
        other.list,
        other.id,
        other.selection,
    )) && matching.negated == other.negated
        && same_pattern(matching, other)
}

#[cycle(sameness)]
fn all_same(conds: &[Cond], others: &[Cond]) -> bool
    ensures { result ≡ all_same (map same_cond conds.now) others.now }
{
    if conds.len() != others.len() {
        return false;
    }
    for at in 0..conds.len() {
        if !same_cond(&conds[at], &others[at]) {
            return false;
        }
    }
    true
}

#[cycle(sameness)]
fn same_cond(cond: &Cond, other: &Cond) -> bool
    ensures { result ≡ same_cond cond.now other.now }
{
    match (cond, other) {
        (Cond::Any(conds), Cond::Any(others)) => all_same(conds.as_slice(), others.as_slice()),
        (Cond::All(conds), Cond::All(others)) => all_same(conds.as_slice(), others.as_slice()),
        (Cond::Not(cond), Cond::Not(other)) => same_cond(cond.get(), other.get()),
        (Cond::Last(code), Cond::Last(other)) => same_code(*code, *other),
        (Cond::Present(list, id), Cond::Present(other, number)) => {
            Mention::whole(*list, *id).means_same(Mention::whole(*other, *number))
        }
        (Cond::PresentSelected(list, id, selection), Cond::PresentSelected(other, number, tags)) =>
            Mention::selected(*list, *id, *selection).means_same(Mention::selected(
                *other, *number, *tags,
            )),
        (Cond::Compare(comparison), Cond::Compare(other)) => same_comparison(comparison, other),
        (Cond::CompareMeant(comparison), Cond::CompareMeant(other)) => {
            same_meant_comparison(comparison, other)
        }
        (Cond::Match(matching), Cond::Match(other)) => same_matching(matching, other),
        _ => false,
    }
}

fn is_repeated(cond: &Cond, earlier: &[Branch]) -> bool
    ensures { result ≡ list_any (λ (b : Branch). same_cond cond.now (out-Branch b).cond)
        earlier.now }
{
    earlier.iter().any(|branch| same_cond(cond, &branch.cond))
}

#[cycle(repeating)]
fn push_repeats_in_block(warnings: &mut Vec<Warning>, block: &[Statement]) -> Result<(), AllocError>
    ensures { OnOk result (warnings.new.items
        ≡ warnings.old.items ++ repeated_conditions block.now) }
{
    for statement in block {
        push_repeats_in(warnings, statement)?;
    }
    Ok(())
}

#[cycle(repeating)]
fn push_repeats_in_branches(
    warnings: &mut Vec<Warning>,
    branches: &[Branch],
) -> Result<(), AllocError>
    ensures { OnOk result (warnings.new.items
        ≡ warnings.old.items ++ repeats_after [] (map link branches.now)) }
{
    for at in 0..branches.len() {
        let branch = &branches[at];
        let repeated = is_repeated(&branch.cond, &branches[..at]);
        push_if(warnings, repeated, branch.line, Reason::RepeatedCondition)?;
        push_repeats_in_block(warnings, branch.block.as_slice())?;
    }
    Ok(())
}

#[cycle(repeating)]
fn push_repeats_in(warnings: &mut Vec<Warning>, statement: &Statement) -> Result<(), AllocError>
    ensures { OnOk result (warnings.new.items
        ≡ warnings.old.items ++ repeats_in statement.now) }
{
    match statement {
        Statement::Update(_, _) => Ok(()),
        Statement::If(branches, otherwise) => {
            push_repeats_in_branches(warnings, branches.as_slice())?;
            match otherwise {
                Some(block) => push_repeats_in_block(warnings, block.as_slice()),
                None => Ok(()),
            }
        }
        Statement::Transaction(_, block) => push_repeats_in_block(warnings, block.as_slice()),
        Statement::Word(_, _) => Ok(()),
    }
}

/// Which conditions of statements repeat an earlier one of their chain, so that their branch is never taken, in the
/// order of the text.
pub fn repeated_conditions(
    alloc: Global,
    statements: &[Statement],
) -> Result<Vec<Warning>, AllocError>
    ensures { IfOk result (λ warnings. warnings.items ≡ repeated_conditions statements.now) }
{
    let mut warnings = Vec::new(alloc);
    push_repeats_in_block(&mut warnings, statements)?;
    Ok(warnings)
}
