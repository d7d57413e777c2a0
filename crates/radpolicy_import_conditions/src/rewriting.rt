//! A server's conditions, as ours.

ghost use Rattle.std.specs.Prelude.{◌≡◌, ◌&&◌, ◌||◌, false, true, not, IfOk, IsTrue, is_some};
ghost use Rattle.avp_dict.specs.Dictionary.{Dictionary};
ghost use Rattle.avp_lists.specs.Instances.{has_instance};
ghost use Rattle.avp_lists.specs.States.{list_of};
ghost use Rattle.avp_lists.specs.declared.lists.State.{State};
ghost use Rattle.avp_unlang.specs.Captures.{Captures};
ghost use Rattle.avp_unlang.specs.Evaluations.{evaluated};
ghost use Rattle.avp_unlang.specs.Truth.{truth, truth_by};
ghost use Rattle.avp_unlang.specs.declared.codes.Code.{Code as TheCode};
ghost use Rattle.radpolicy_import_conditions.specs.Capturing.{keeps_captures, server_evaluated};
ghost use Rattle.radpolicy_import_conditions.specs.Conditions.{Answer, answer_both, answer_either, comparison_answer, is_false, is_side_there, is_true, matching_answer, server_truth, server_truth_by, texts_answer};
ghost use Rattle.radpolicy_import_conditions.specs.internal.Guards.{Matches, answer_of, truth_if, truth_of};
ghost use Rattle.radpolicy_import_conditions.specs.internal.Rewriting as ours;

use crate::copies::{copy_comparison, copy_group_matching, copy_matching, copy_texts};
use crate::made_conditions::{
    always, both, both_sides, differs, either, group_mismatches, is_other_code, is_there,
    mismatches, negated, never, text_mismatches, texts_differ,
};
use crate::server_conditions::ServerCondition;
use avp_lists::{AttrId, List, Selection};
use avp_unlang::{Comparand, Comparison, Cond, Matching, TextComparison, TextSide};
use std::alloc::{AllocError, Global};

// Whether a side of a comparison is a text, which is always there.
fn is_text(side: &TextSide) -> bool
    ensures truth { IsTrue result → (s : State) → is_side_there side.now s ≡ true }
    ensures made { result ≡ ours.is_text side.now }
{
    match side {
        TextSide::Text(_) => true,
        TextSide::Instance(..) => false,
    }
}

// Whether a comparison of texts has an answer in all lists.
#[tactic(auto, using(crate::proofs::Truths::texts_answered))]
fn are_texts(comparison: &TextComparison) -> bool
    ensures truth { IsTrue result → (m : Matches) (s : State)
        → is_some (texts_answer m.printed.texts comparison.now s) ≡ true }
    ensures made { result ≡ ours.is_text comparison.now.left }
{
    is_text(&comparison.left)
}

// Whether a condition has an answer in all lists.
fn is_certain(condition: &ServerCondition) -> bool
    ensures truth { IsTrue result → (m : Matches) (s : State) (c : TheCode)
        → is_some (answer_of m condition.now s c) ≡ true }
    ensures made { result ≡ ours.is_certain condition.now }
{
    match condition {
        ServerCondition::Constant(_)
        | ServerCondition::Last(_)
        | ServerCondition::Present(..)
        | ServerCondition::MatchText(_)
        | ServerCondition::MatchGroup(_)
        | ServerCondition::Captured(_) => true,
        ServerCondition::Compare(_) | ServerCondition::Match(_) => false,
        ServerCondition::CompareTexts(comparison) => are_texts(comparison),
        ServerCondition::Not(inner) => is_certain(inner),
        ServerCondition::And(first, next) | ServerCondition::Or(first, next) => {
            is_certain(first) && is_certain(next)
        }
    }
}

// Whether an attribute has an instance wherever a condition is true.
#[tactic(auto, using(crate::proofs::Truths::moved_present, crate::proofs::Truths::from_first, crate::proofs::Truths::from_next, crate::proofs::Truths::from_either))]
fn implies_present(condition: &ServerCondition, list: List, id: AttrId) -> bool
    ensures truth { IsTrue result → (m : Matches) (s : State) (c : TheCode)
        → IsTrue (is_true (answer_of m condition.now s c))
        → IsTrue (has_instance id (list_of list s)) }
    ensures made { result ≡ ours.implies_present condition.now list id }
{
    match condition {
        ServerCondition::Present(other, other_id) => is_same(*other, *other_id, list, id),
        ServerCondition::Compare(comparison) => names(comparison, list, id),
        ServerCondition::Match(matching) => is_matched(matching, list, id),
        ServerCondition::And(first, next) => {
            implies_present(first, list, id) || implies_present(next, list, id)
        }
        ServerCondition::Or(first, next) => {
            implies_present(first, list, id) && implies_present(next, list, id)
        }
        _ => false,
    }
}

fn is_same_list(list: List, other: List) -> bool
    ensures truth { IsTrue result → list ≡ other }
    ensures made { result ≡ ours.is_same_list list other }
{
    matches!(
        (list, other),
        (List::Request, List::Request) | (List::Reply, List::Reply) | (List::Control, List::Control)
    )
}

// Whether an attribute of a list is another.
fn is_same(list: List, id: AttrId, other: List, other_id: AttrId) -> bool
    ensures list { IsTrue result → list ≡ other }
    ensures id { IsTrue result → id ≡ other_id }
    ensures made { result ≡ ours.is_same list id other other_id }
{
    is_same_list(list, other) && id.equals(other_id)
}

// Whether what a comparison compares is the attribute.
#[tactic(auto, using(crate::proofs::Truths::left_present))]
fn is_left(comparison: &Comparison, list: List, id: AttrId) -> bool
    ensures truth { IsTrue result → (s : State)
        → IsTrue (is_true (comparison_answer comparison.now s))
        → IsTrue (has_instance id (list_of list s)) }
    ensures made { result ≡ ours.is_same comparison.now.list comparison.now.id list id }
{
    is_same(comparison.list, comparison.id, list, id)
}

// Whether what a comparison compares with is the attribute.
#[tactic(auto, using(crate::proofs::Truths::right_present))]
fn is_right(comparison: &Comparison, list: List, id: AttrId) -> bool
    ensures truth { IsTrue result → (s : State)
        → IsTrue (is_true (comparison_answer comparison.now s))
        → IsTrue (has_instance id (list_of list s)) }
    ensures made { result ≡ ours.is_right comparison.now.comparand list id }
{
    match comparison.comparand {
        Comparand::Literal(_) => false,
        Comparand::Instance(other, other_id) => is_same(other, other_id, list, id),
    }
}

// Whether one side of a comparison is the attribute.
fn names(comparison: &Comparison, list: List, id: AttrId) -> bool
    ensures truth { IsTrue result → (s : State)
        → IsTrue (is_true (comparison_answer comparison.now s))
        → IsTrue (has_instance id (list_of list s)) }
    ensures made { result ≡ ours.names comparison.now list id }
{
    is_left(comparison, list, id) || is_right(comparison, list, id)
}

// Whether what is compared with a pattern is the attribute.
#[tactic(auto, using(crate::proofs::Truths::matched_present))]
fn is_matched(matching: &Matching, list: List, id: AttrId) -> bool
    ensures truth { IsTrue result → (m : Matches) (s : State)
        → IsTrue (is_true (matching_answer m.printed.matched matching.now s))
        → IsTrue (has_instance id (list_of list s)) }
    ensures made { result ≡ ours.is_same matching.now.list matching.now.id list id }
{
    is_same(matching.list, matching.id, list, id)
}

// Whether a condition captures nothing where an attribute is absent.
fn captures_with(condition: &ServerCondition, list: List, id: AttrId) -> bool
    ensures { result ≡ ours.captures_with condition.now list id }
{
    match condition {
        ServerCondition::Match(matching) => is_same(matching.list, matching.id, list, id),
        ServerCondition::MatchText(_) | ServerCondition::MatchGroup(_) => false,
        ServerCondition::Not(inner) => captures_with(inner, list, id),
        ServerCondition::And(first, next) | ServerCondition::Or(first, next) => {
            captures_with(first, list, id) && captures_with(next, list, id)
        }
        _ => true,
    }
}

// That an attribute has an instance, unless a condition implies it.
#[tactic(auto, using(crate::proofs::Truths::implied_same, crate::proofs::Truths::present_same))]
fn present_before(list: List, id: AttrId, next: &ServerCondition) -> Option<Cond>
    ensures truth { (m : Matches) (s : State) (c : TheCode)
        → (truth_if m result s c && is_true (answer_of m next.now s c))
        ≡ (has_instance id (list_of list s) && is_true (answer_of m next.now s c)) }
    ensures made { result ≡ ours.present_before list id next.now }
{
    if implies_present(next, list, id) && captures_with(next, list, id) {
        None
    } else {
        Some(Cond::Present(list, id))
    }
}

// That both sides of a comparison are there, unless there is one alone and a condition implies that it is.
#[tactic(auto, using(crate::proofs::Truths::literal_before, crate::proofs::Truths::sides_here))]
fn sides_before(
    alloc: Global,
    comparison: &Comparison,
    next: &ServerCondition,
) -> Result<Option<Cond>, AllocError>
    ensures truth { IfOk result (λ made. (m : Matches) (s : State) (c : TheCode)
        → (truth_if m made s c && is_true (answer_of m next.now s c))
        ≡ (is_some (comparison_answer comparison.now s) && is_true (answer_of m next.now s c))) }
    ensures made { IfOk result (λ made. made ≡ ours.sides_before comparison.now next.now) }
{
    match comparison.comparand {
        Comparand::Literal(_) => Ok(present_before(comparison.list, comparison.id, next)),
        Comparand::Instance(..) => {
            let made = both_sides(alloc, comparison)?;
            Ok(Some(made))
        }
    }
}

// That what is compared with a pattern is there, unless a condition implies it.
#[tactic(auto, using(crate::proofs::Truths::matched_before, crate::proofs::Truths::matched_here))]
fn there_before(matching: &Matching, next: &ServerCondition) -> Option<Cond>
    ensures truth { (m : Matches) (s : State) (c : TheCode)
        → (truth_if m result s c && is_true (answer_of m next.now s c))
        ≡ (is_some (matching_answer m.printed.matched matching.now s)
        && is_true (answer_of m next.now s c)) }
    ensures made { result ≡ ours.there_before matching.now next.now }
{
    match matching.selection {
        Selection::All => present_before(matching.list, matching.id, next),
        _ => Some(is_there(matching)),
    }
}

// What has to hold so that a condition is asked after a first one that was not true.
#[tactic(auto, using(crate::proofs::Truths::unguarded, crate::proofs::Truths::guarded_sides, crate::proofs::Truths::guarded_false))]
fn guard_of(
    alloc: Global,
    first: &ServerCondition,
    fails_first: Cond,
    next: &ServerCondition,
) -> Result<Option<Cond>, AllocError>
    requires { (m : Matches) (s : State) (c : TheCode) → truth_of m fails_first s c
        ≡ is_false (answer_of m first.now s c) }
    ensures truth { IfOk result (λ guard. (m : Matches) (s : State) (c : TheCode)
        → (is_true (answer_of m first.now s c)
        || (truth_if m guard s c && is_true (answer_of m next.now s c)))
        ≡ is_true (answer_either (answer_of m first.now s c) (answer_of m next.now s c))) }
    ensures made { IfOk result (λ guard. guard ≡ ours.guard_of first.now fails_first next.now) }
{
    if is_certain(first) {
        return Ok(None);
    }
    match first {
        ServerCondition::Compare(comparison) => {
            let made = sides_before(alloc, comparison, next)?;
            Ok(made)
        }
        ServerCondition::Match(matching) => Ok(there_before(matching, next)),
        _ => Ok(Some(fails_first)),
    }
}

#[tactic(auto, using(crate::proofs::Truths::or_with))]
fn either_guarded(
    alloc: Global,
    first: Cond,
    guard: Option<Cond>,
    next: Cond,
) -> Result<Cond, AllocError>
    ensures truth { IfOk result (λ cond. (m : Matches) (s : State) (c : TheCode)
        → truth_of m cond s c
        ≡ (truth_of m first s c || (truth_if m guard s c && truth_of m next s c))) }
    ensures made { IfOk result (λ cond. cond ≡ ours.either_guarded first guard next) }
{
    match guard {
        Some(guard) => {
            let next = both(alloc, guard, next)?;
            let made = either(alloc, first, next)?;
            Ok(made)
        }
        None => either(alloc, first, next),
    }
}

// Where both conditions are false.
#[tactic(auto, using(crate::proofs::Truths::false_of_either))]
fn neither(
    alloc: Global,
    first: &ServerCondition,
    next: &ServerCondition,
    fails_first: Cond,
    fails_next: Cond,
) -> Result<Cond, AllocError>
    requires first { (m : Matches) (s : State) (c : TheCode) → truth_of m fails_first s c
        ≡ is_false (answer_of m first.now s c) }
    requires next { (m : Matches) (s : State) (c : TheCode) → truth_of m fails_next s c
        ≡ is_false (answer_of m next.now s c) }
    ensures truth { IfOk result (λ cond. (m : Matches) (s : State) (c : TheCode)
        → truth_of m cond s c
        ≡ is_false (answer_either (answer_of m first.now s c) (answer_of m next.now s c))) }
    ensures made { IfOk result (λ cond. cond ≡ ours.both fails_first fails_next) }
{
    let made = both(alloc, fails_first, fails_next)?;
    Ok(made)
}

// What has to hold so that the second part of a `&&` is asked.
#[tactic(auto, using(crate::proofs::Truths::false_unguarded, crate::proofs::Truths::false_guarded_by))]
fn guard_of_and(first: &ServerCondition, holds_first: Cond) -> Option<Cond>
    requires { (m : Matches) (s : State) (c : TheCode) → truth_of m holds_first s c
        ≡ is_true (answer_of m first.now s c) }
    ensures truth { (m : Matches) (s : State) (c : TheCode) (next : Answer)
        → (is_false (answer_of m first.now s c) || (truth_if m result s c && is_false next))
        ≡ is_false (answer_both (answer_of m first.now s c) next) }
    ensures made { result ≡ ours.guard_of_and first.now holds_first }
{
    if is_certain(first) {
        None
    } else {
        Some(holds_first)
    }
}

// Our condition that is true where the server's has the answer true.
#[cycle(rewriting)]
#[tactic(auto, using(crate::proofs::Truths::last_word, crate::proofs::Truths::truth_there, crate::proofs::Truths::compare_copied, crate::proofs::Truths::match_copied, crate::proofs::Truths::texts_copied, crate::proofs::Truths::text_match_copied, crate::proofs::Truths::group_match_copied, crate::proofs::Truths::captured_false))]
fn where_true(alloc: Global, condition: &ServerCondition) -> Result<Cond, AllocError>
    ensures truth { IfOk result (λ cond. (m : Matches) (s : State) (c : TheCode)
        → truth_of m cond s c ≡ is_true (answer_of m condition.now s c)) }
    ensures made { IfOk result (λ cond. cond ≡ ours.rewritten_as condition.now true) }
{
    match condition {
        ServerCondition::Constant(true) => always(alloc),
        ServerCondition::Constant(false) => never(alloc),
        ServerCondition::Last(word) => Ok(Cond::Last(*word)),
        ServerCondition::Present(list, id) => Ok(Cond::Present(*list, *id)),
        ServerCondition::Compare(comparison) => {
            Ok(Cond::Compare(copy_comparison(alloc, comparison)?))
        }
        ServerCondition::Match(matching) => Ok(Cond::Match(copy_matching(alloc, matching)?)),
        ServerCondition::CompareTexts(comparison) => {
            Ok(Cond::CompareTexts(copy_texts(alloc, comparison)?))
        }
        ServerCondition::MatchText(matching) => {
            Ok(Cond::MatchText(copy_matching(alloc, matching)?))
        }
        ServerCondition::MatchGroup(matching) => {
            Ok(Cond::MatchGroup(copy_group_matching(alloc, matching)?))
        }
        ServerCondition::Captured(group) => Ok(Cond::Captured(*group)),
        ServerCondition::Not(inner) => where_false(alloc, inner),
        ServerCondition::And(first, next) => {
            let holds_first = where_true(alloc, first)?;
            let holds_next = where_true(alloc, next)?;
            both(alloc, holds_first, holds_next)
        }
        ServerCondition::Or(first, next) => {
            let holds_first = where_true(alloc, first)?;
            let fails_first = where_false(alloc, first)?;
            let holds_next = where_true(alloc, next)?;
            let guard = guard_of(alloc, first, fails_first, next)?;
            either_guarded(alloc, holds_first, guard, holds_next)
        }
    }
}

// Our condition that is true where the server's has the answer false.
#[cycle(rewriting)]
#[tactic(auto, using(crate::proofs::Truths::not_there, crate::proofs::Truths::false_of_both, crate::proofs::Truths::not_captured))]
fn where_false(alloc: Global, condition: &ServerCondition) -> Result<Cond, AllocError>
    ensures truth { IfOk result (λ cond. (m : Matches) (s : State) (c : TheCode)
        → truth_of m cond s c ≡ is_false (answer_of m condition.now s c)) }
    ensures made { IfOk result (λ cond. cond ≡ ours.rewritten_as condition.now false) }
{
    match condition {
        ServerCondition::Constant(true) => never(alloc),
        ServerCondition::Constant(false) => always(alloc),
        ServerCondition::Last(word) => is_other_code(alloc, *word),
        ServerCondition::Present(list, id) => {
            let made = negated(alloc, Cond::Present(*list, *id))?;
            Ok(made)
        }
        ServerCondition::Compare(comparison) => differs(alloc, comparison),
        ServerCondition::Match(matching) => mismatches(alloc, matching),
        ServerCondition::CompareTexts(comparison) => texts_differ(alloc, comparison),
        ServerCondition::MatchText(matching) => text_mismatches(alloc, matching),
        ServerCondition::MatchGroup(matching) => group_mismatches(alloc, matching),
        ServerCondition::Captured(group) => {
            let made = negated(alloc, Cond::Captured(*group))?;
            Ok(made)
        }
        ServerCondition::Not(inner) => where_true(alloc, inner),
        ServerCondition::And(first, next) => {
            let fails_first = where_false(alloc, first)?;
            let holds_first = where_true(alloc, first)?;
            let fails_next = where_false(alloc, next)?;
            let guard = guard_of_and(first, holds_first);
            let made = either_guarded(alloc, fails_first, guard, fails_next)?;
            Ok(made)
        }
        ServerCondition::Or(first, next) => {
            let fails_first = where_false(alloc, first)?;
            let fails_next = where_false(alloc, next)?;
            neither(alloc, first, next, fails_first, fails_next)
        }
    }
}

/// Our condition that is true exactly where the server takes the branch of its condition, in all lists and after all
/// codes.
pub fn rewritten(alloc: Global, condition: &ServerCondition) -> Result<Cond, AllocError>
    // One that compares with no pattern and no texts.
    ensures plain { IfOk result (λ cond. (s : State) (c : TheCode) → truth cond s c
        ≡ server_truth condition.now s c) }
    // Any, by whichever dictionary values are printed.
    ensures by { IfOk result (λ cond. (d : Dictionary) (s : State) (c : TheCode)
        → truth_by d cond s c ≡ server_truth_by d condition.now s c) }
    // One that is evaluated as the server's: the same is captured.
    ensures captures { IfOk result (λ cond. IsTrue (keeps_captures condition.now)
        → (d : Dictionary) (s : State) (c : TheCode) (captures : Captures)
        → evaluated d cond s c captures ≡ server_evaluated d condition.now s c captures) }
{
    where_true(alloc, condition)
}
