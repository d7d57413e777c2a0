//! The conditions of ours that stand for a server's comparisons, and what is made of them.

ghost use Rattle.std.specs.Prelude.{◌≡◌, ◌&&◌, ◌||◌, false, true, not, IfOk, is_some};
ghost use Rattle.avp_lists.specs.Selections.{has_selected};
ghost use Rattle.avp_lists.specs.States.{list_of};
ghost use Rattle.avp_lists.specs.declared.lists.State.{State};
ghost use Rattle.avp_unlang.specs.Truth.{same_code};
ghost use Rattle.avp_unlang.specs.declared.codes.Code.{Code as TheCode};
ghost use Rattle.avp_unlang.specs.declared.tree.Cond.TheVariants as conds;
ghost use Rattle.radpolicy_import_conditions.specs.Conditions.{comparison_answer, is_false, is_true, matching_answer, texts_answer};
ghost use Rattle.radpolicy_import_conditions.specs.internal.Guards.{Matches, truth_of};
ghost use Rattle.radpolicy_import_conditions.specs.internal.Rewriting as ours;

use crate::copies::{copy_comparison, copy_group_matching, copy_matching, copy_texts};
use avp_lists::{AttrId, List, Selection};
use avp_unlang::{
    Boxed, Code, Comparand, Comparison, Cond, GroupMatching, Items, Matching, TextComparison,
    TextSide,
};
use std::alloc::{AllocError, Global};

#[tactic(auto, using(crate::proofs::Truths::all_pushed))]
pub(crate) fn both(alloc: Global, first: Cond, next: Cond) -> Result<Cond, AllocError>
    ensures truth { IfOk result (λ cond. (m : Matches) (s : State) (c : TheCode)
        → truth_of m cond s c ≡ (truth_of m first s c && truth_of m next s c)) }
    ensures made { IfOk result (λ cond. cond ≡ ours.both first next) }
{
    let mut conds = Vec::new(alloc);
    conds.push(first)?;
    conds.push(next)?;
    Ok(Cond::All(Items::from_vec(conds)))
}

#[tactic(auto, using(crate::proofs::Truths::any_pushed))]
pub(crate) fn either(alloc: Global, first: Cond, next: Cond) -> Result<Cond, AllocError>
    ensures truth { IfOk result (λ cond. (m : Matches) (s : State) (c : TheCode)
        → truth_of m cond s c ≡ (truth_of m first s c || truth_of m next s c)) }
    ensures made { IfOk result (λ cond. cond ≡ ours.either first next) }
{
    let mut conds = Vec::new(alloc);
    conds.push(first)?;
    conds.push(next)?;
    Ok(Cond::Any(Items::from_vec(conds)))
}

#[tactic(auto, using(crate::proofs::Truths::negated_made))]
pub(crate) fn negated(alloc: Global, cond: Cond) -> Result<Cond, AllocError>
    ensures truth { IfOk result (λ made. (m : Matches) (s : State) (c : TheCode)
        → truth_of m made s c ≡ not (truth_of m cond s c)) }
    ensures made { IfOk result (λ made. made ≡ conds.Not cond) }
{
    Ok(Cond::Not(Boxed::new(alloc, cond)?))
}

// Our conditions have no constants: a code is the last one, or it is not.
#[tactic(auto, using(crate::proofs::Truths::or_negated))]
pub(crate) fn always(alloc: Global) -> Result<Cond, AllocError>
    ensures truth { IfOk result (λ cond. (m : Matches) (s : State) (c : TheCode)
        → truth_of m cond s c ≡ true) }
    ensures made { IfOk result (λ cond. cond ≡ ours.always) }
{
    let is_other = negated(alloc, Cond::Last(Code::Ok))?;
    let made = either(alloc, Cond::Last(Code::Ok), is_other)?;
    Ok(made)
}

#[tactic(auto, using(crate::proofs::Truths::and_negated))]
pub(crate) fn never(alloc: Global) -> Result<Cond, AllocError>
    ensures truth { IfOk result (λ cond. (m : Matches) (s : State) (c : TheCode)
        → truth_of m cond s c ≡ false) }
    ensures made { IfOk result (λ cond. cond ≡ ours.never) }
{
    let is_other = negated(alloc, Cond::Last(Code::Ok))?;
    let made = both(alloc, Cond::Last(Code::Ok), is_other)?;
    Ok(made)
}

// Whether an attribute has one of these instances.
#[tactic(auto, using(crate::proofs::Truths::all_there, crate::proofs::Truths::some_there))]
fn selected(list: List, id: AttrId, selection: Selection) -> Cond
    ensures truth { (m : Matches) (s : State) (c : TheCode) → truth_of m result s c
        ≡ has_selected selection id (list_of list s) }
    ensures made { result ≡ ours.selected list id selection }
{
    match selection {
        Selection::All => Cond::Present(list, id),
        selection => Cond::PresentSelected(list, id, selection),
    }
}

// Whether the attribute is there that is compared with a pattern.
pub(crate) fn is_there(matching: &Matching) -> Cond
    ensures truth { (m : Matches) (s : State) (c : TheCode) → truth_of m result s c
        ≡ has_selected matching.now.selection matching.now.id (list_of matching.now.list s) }
    ensures made { result ≡ ours.is_there matching.now }
{
    selected(matching.list, matching.id, matching.selection)
}

// Where a comparison with a pattern is false, and not without an answer.
#[tactic(auto, using(crate::proofs::Truths::mismatch_of))]
pub(crate) fn mismatches(alloc: Global, matching: &Matching) -> Result<Cond, AllocError>
    ensures truth { IfOk result (λ cond. (m : Matches) (s : State) (c : TheCode)
        → truth_of m cond s c ≡ is_false (matching_answer m.printed.matched matching.now s)) }
    ensures made { IfOk result (λ cond. cond ≡ ours.mismatches matching.now) }
{
    let is_unmet = negated(alloc, Cond::Match(copy_matching(alloc, matching)?))?;
    let made = both(alloc, is_there(matching), is_unmet)?;
    Ok(made)
}

// Where a text that is compared with a pattern does not meet it.
#[tactic(auto, using(crate::proofs::Truths::text_mismatch_of))]
pub(crate) fn text_mismatches(alloc: Global, matching: &Matching) -> Result<Cond, AllocError>
    ensures truth { IfOk result (λ cond. (m : Matches) (s : State) (c : TheCode)
        → truth_of m cond s c ≡ not (m.printed.text_matched matching.now s)) }
    ensures made { IfOk result (λ cond. cond ≡ conds.Not (conds.MatchText matching.now)) }
{
    let matched = Cond::MatchText(copy_matching(alloc, matching)?);
    let made = negated(alloc, matched)?;
    Ok(made)
}

// Where what was captured does not meet a pattern.
#[tactic(auto, using(crate::proofs::Truths::group_mismatch_of))]
pub(crate) fn group_mismatches(alloc: Global, matching: &GroupMatching) -> Result<Cond, AllocError>
    ensures truth { IfOk result (λ cond. (m : Matches) (s : State) (c : TheCode)
        → truth_of m cond s c ≡ not (m.printed.group_matched matching.now)) }
    ensures made { IfOk result (λ cond. cond ≡ conds.Not (conds.MatchGroup matching.now)) }
{
    let matched = Cond::MatchGroup(copy_group_matching(alloc, matching)?);
    let made = negated(alloc, matched)?;
    Ok(made)
}

// Where texts are not in the relation.
#[tactic(auto, using(crate::proofs::Truths::unmet_texts_copy))]
fn unmet_texts(alloc: Global, comparison: &TextComparison) -> Result<Cond, AllocError>
    ensures truth { IfOk result (λ cond. (m : Matches) (s : State) (c : TheCode)
        → truth_of m cond s c ≡ not (m.printed.texts comparison.now s)) }
    ensures made { IfOk result (λ cond. cond ≡ conds.Not (conds.CompareTexts comparison.now)) }
{
    let compared = Cond::CompareTexts(copy_texts(alloc, comparison)?);
    let made = negated(alloc, compared)?;
    Ok(made)
}

// Where a comparison of texts is false, and not without an answer.
#[tactic(auto, using(crate::proofs::Truths::texts_differ_of, crate::proofs::Truths::instance_differs_of))]
pub(crate) fn texts_differ(alloc: Global, comparison: &TextComparison) -> Result<Cond, AllocError>
    ensures truth { IfOk result (λ cond. (m : Matches) (s : State) (c : TheCode)
        → truth_of m cond s c ≡ is_false (texts_answer m.printed.texts comparison.now s)) }
    ensures made { IfOk result (λ cond. cond ≡ ours.texts_differ comparison.now) }
{
    let are_unmet = unmet_texts(alloc, comparison)?;
    match comparison.left {
        TextSide::Text(_) => Ok(are_unmet),
        TextSide::Instance(list, id, selection) => {
            let made = both(alloc, selected(list, id, selection), are_unmet)?;
            Ok(made)
        }
    }
}

// Whether both sides of a comparison are there.
#[tactic(auto, using(crate::proofs::Truths::sides_literal, crate::proofs::Truths::sides_instance))]
pub(crate) fn both_sides(alloc: Global, comparison: &Comparison) -> Result<Cond, AllocError>
    ensures truth { IfOk result (λ cond. (m : Matches) (s : State) (c : TheCode)
        → truth_of m cond s c ≡ is_some (comparison_answer comparison.now s)) }
    ensures made { IfOk result (λ cond. cond ≡ ours.both_sides comparison.now) }
{
    let present = Cond::Present(comparison.list, comparison.id);
    match comparison.comparand {
        Comparand::Literal(_) => Ok(present),
        Comparand::Instance(list, id) => {
            let made = both(alloc, present, Cond::Present(list, id))?;
            Ok(made)
        }
    }
}

// Where a comparison is not true.
#[tactic(auto, using(crate::proofs::Truths::unmet_copy))]
fn unmet(alloc: Global, comparison: &Comparison) -> Result<Cond, AllocError>
    ensures truth { IfOk result (λ cond. (m : Matches) (s : State) (c : TheCode)
        → truth_of m cond s c ≡ not (is_true (comparison_answer comparison.now s))) }
    ensures made { IfOk result (λ cond. cond ≡ conds.Not (conds.Compare comparison.now)) }
{
    let compared = Cond::Compare(copy_comparison(alloc, comparison)?);
    let made = negated(alloc, compared)?;
    Ok(made)
}

// Where a comparison is false, and not without an answer.
#[tactic(auto, using(crate::proofs::Truths::differs_of))]
pub(crate) fn differs(alloc: Global, comparison: &Comparison) -> Result<Cond, AllocError>
    ensures truth { IfOk result (λ cond. (m : Matches) (s : State) (c : TheCode)
        → truth_of m cond s c ≡ is_false (comparison_answer comparison.now s)) }
    ensures made { IfOk result (λ cond. cond ≡ ours.differs comparison.now) }
{
    let are_there = both_sides(alloc, comparison)?;
    let is_unmet = unmet(alloc, comparison)?;
    let made = both(alloc, are_there, is_unmet)?;
    Ok(made)
}

// Where another code is the last one.
#[tactic(auto, using(crate::proofs::Truths::not_last))]
pub(crate) fn is_other_code(alloc: Global, word: Code) -> Result<Cond, AllocError>
    ensures truth { IfOk result (λ cond. (m : Matches) (s : State) (c : TheCode)
        → truth_of m cond s c ≡ not (same_code c word)) }
    ensures made { IfOk result (λ cond. cond ≡ conds.Not (conds.Last word)) }
{
    let made = negated(alloc, Cond::Last(word))?;
    Ok(made)
}
