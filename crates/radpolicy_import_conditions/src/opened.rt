//! Whether a policy asks for a condition.

ghost use Rattle.std.specs.Prelude.{◌≡◌, ◌∷◌, ◌++◌, IfSome, IsTrue};
ghost use Rattle.std.specs.List.{flat_map};
ghost use Rattle.avp_lists.specs.declared.lists.State.{State};
ghost use Rattle.avp_dict.specs.Dictionary.{Dictionary};
ghost use Rattle.avp_unlang.specs.Captures.{Captures};
ghost use Rattle.avp_unlang.specs.Evaluations.{evaluated};
ghost use Rattle.avp_unlang.specs.declared.codes.Code.{Code as TheCode};
ghost use Rattle.avp_unlang.specs.declared.tree.Cond.{Cond as TheCond};
ghost use Rattle.radpolicy_import_conditions.specs.Opened.{Says, opened, opened_parts};

use crate::printing::Join;
use avp_lists::{AttrId, List, Selection};
use avp_unlang::{
    Code, Comparand, Comparison, Cond, GroupMatching, Matching, Part, Policy, Statement,
    TextComparison, TextSide,
};

fn same_code(code: Code, other: Code) -> bool
    ensures { IsTrue result → other ≡ code }
{
    code == other
}

fn same_attribute(list: List, id: AttrId, other: List, number: AttrId) -> bool
    ensures { IsTrue result → (other ≡ list) × (number ≡ id) }
{
    list == other && id == number
}

fn same_comparand(comparand: &Comparand, other: &Comparand) -> bool
    ensures { IsTrue result → other.now ≡ comparand.now }
{
    match (comparand, other) {
        (Comparand::Literal(value), Comparand::Literal(other)) => value == other,
        (Comparand::Instance(list, id), Comparand::Instance(other, number)) => {
            same_attribute(*list, *id, *other, *number)
        }
        _ => false,
    }
}

fn same_relation(comparison: &Comparison, other: &Comparison) -> bool
    ensures { IsTrue result → (other.now.kind ≡ comparison.now.kind)
        × (other.now.relation ≡ comparison.now.relation) }
{
    comparison.kind == other.kind && comparison.relation == other.relation
}

fn same_comparison(comparison: &Comparison, other: &Comparison) -> bool
    ensures { IsTrue result → other.now ≡ comparison.now }
{
    if !same_attribute(comparison.list, comparison.id, other.list, other.id) {
        return false;
    }
    if !same_relation(comparison, other) {
        return false;
    }
    same_comparand(&comparison.comparand, &other.comparand)
}

fn same_pattern(matching: &Matching, other: &Matching) -> bool
    ensures { IsTrue result → (other.now.pattern ≡ matching.now.pattern)
        × (other.now.flags ≡ matching.now.flags) }
{
    matching.pattern == other.pattern && matching.flags == other.flags
}

fn same_sign(matching: &Matching, other: &Matching) -> bool
    ensures { IsTrue result → (other.now.selection ≡ matching.now.selection)
        × (other.now.negated ≡ matching.now.negated) }
{
    matching.selection == other.selection && matching.negated == other.negated
}

fn same_matching(matching: &Matching, other: &Matching) -> bool
    ensures { IsTrue result → other.now ≡ matching.now }
{
    if !same_attribute(matching.list, matching.id, other.list, other.id) {
        return false;
    }
    if !same_sign(matching, other) {
        return false;
    }
    same_pattern(matching, other)
}

fn same_group_pattern(matching: &GroupMatching, other: &GroupMatching) -> bool
    ensures { IsTrue result → (other.now.pattern ≡ matching.now.pattern)
        × (other.now.flags ≡ matching.now.flags) }
{
    matching.pattern == other.pattern && matching.flags == other.flags
}

fn same_group_matching(matching: &GroupMatching, other: &GroupMatching) -> bool
    ensures { IsTrue result → other.now ≡ matching.now }
{
    if matching.group != other.group || matching.negated != other.negated {
        return false;
    }
    same_group_pattern(matching, other)
}

fn same_instances(
    list: List,
    id: AttrId,
    selection: Selection,
    other: (List, AttrId, Selection),
) -> bool
    ensures { IsTrue result → other ≡ (list, id, selection) }
{
    list == other.0 && id == other.1 && selection == other.2
}

fn same_part(part: &Part, other: &Part) -> bool
    ensures { IsTrue result → other.now ≡ part.now }
{
    match (part, other) {
        (Part::Text(octets), Part::Text(others)) => octets == others,
        (Part::Meant(list, id, selection), Part::Meant(other, number, which)) => {
            same_instances(*list, *id, *selection, (*other, *number, *which))
        }
        (Part::Capture(group), Part::Capture(other)) => group == other,
        _ => false,
    }
}

// What is left of the others behind these parts, where they begin with them.
fn behind_parts<'a>(parts: &[Part], others: &'a [Part]) -> Option<&'a [Part]>
    ensures { IfSome result (λ rest. others.now ≡ parts.now ++ rest.now) }
{
    let mut rest = others;
    for part in parts {
        let (first, behind) = rest.split_first()?;
        if !same_part(part, first) {
            return None;
        }
        rest = behind;
    }
    Some(rest)
}

fn same_parts(parts: &[Part], others: &[Part]) -> bool
    ensures { IsTrue result → others.now ≡ parts.now }
{
    match behind_parts(parts, others) {
        Some([]) => true,
        _ => false,
    }
}

fn same_side(side: &TextSide, other: &TextSide) -> bool
    ensures { IsTrue result → other.now ≡ side.now }
{
    match (side, other) {
        (TextSide::Text(parts), TextSide::Text(others)) => {
            same_parts(parts.as_slice(), others.as_slice())
        }
        (TextSide::Instance(list, id, selection), TextSide::Instance(other, number, which)) =>
            same_instances(*list, *id, *selection, (*other, *number, *which)),
        _ => false,
    }
}

fn same_texts(comparison: &TextComparison, other: &TextComparison) -> bool
    ensures { IsTrue result → other.now ≡ comparison.now }
{
    if comparison.relation != other.relation {
        return false;
    }
    if !same_side(&comparison.left, &other.left) {
        return false;
    }
    same_parts(comparison.right.as_slice(), other.right.as_slice())
}

// What is left of conditions behind those that one becomes beside others.
#[cycle(opening)]
fn after_part<'a>(cond: &Cond, join: Join, conds: &'a [Cond]) -> Option<&'a [Cond]>
    ensures { IfSome result (λ rest. conds.now ≡ opened_parts join cond.now ++ rest.now) }
{
    match join {
        Join::And => match cond {
            Cond::All(inner) => after_parts(inner.as_slice(), join, conds),
            _ => after_opened(cond, conds),
        },
        Join::Or => match cond {
            Cond::Any(inner) => after_parts(inner.as_slice(), join, conds),
            _ => after_opened(cond, conds),
        },
    }
}

#[cycle(opening)]
fn after_opened<'a>(cond: &Cond, conds: &'a [Cond]) -> Option<&'a [Cond]>
    ensures { IfSome result (λ rest. conds.now ≡ opened cond.now ∷ rest.now) }
{
    let (first, rest) = conds.split_first()?;
    if is_opened(cond, first) {
        Some(rest)
    } else {
        None
    }
}

#[cycle(opening)]
fn after_parts<'a>(parts: &[Cond], join: Join, conds: &'a [Cond]) -> Option<&'a [Cond]>
    ensures { IfSome result (λ rest. conds.now
        ≡ flat_map (opened_parts join) parts.now ++ rest.now) }
{
    let mut rest = conds;
    for part in parts {
        rest = after_part(part, join, rest)?;
    }
    Some(rest)
}

#[cycle(opening)]
fn are_opened(parts: &[Cond], join: Join, conds: &[Cond]) -> bool
    ensures { IsTrue result → conds.now ≡ flat_map (opened_parts join) parts.now }
{
    match after_parts(parts, join, conds) {
        Some(rest) => rest.len() < 1,
        None => false,
    }
}

// Whether a condition is another one opened.
#[cycle(opening)]
fn is_opened(cond: &Cond, other: &Cond) -> bool
    ensures { IsTrue result → other.now ≡ opened cond.now }
{
    match (cond, other) {
        (Cond::Any(parts), Cond::Any(conds)) => {
            are_opened(parts.as_slice(), Join::Or, conds.as_slice())
        }
        (Cond::All(parts), Cond::All(conds)) => {
            are_opened(parts.as_slice(), Join::And, conds.as_slice())
        }
        (Cond::Not(cond), Cond::Not(other)) => is_opened(cond.get(), other.get()),
        (Cond::Last(code), Cond::Last(other)) => same_code(*code, *other),
        (Cond::Present(list, id), Cond::Present(other, number)) => {
            same_attribute(*list, *id, *other, *number)
        }
        (Cond::Compare(comparison), Cond::Compare(other)) => same_comparison(comparison, other),
        (Cond::Match(matching), Cond::Match(other)) => same_matching(matching, other),
        (Cond::CompareTexts(texts), Cond::CompareTexts(other)) => same_texts(texts, other),
        (Cond::MatchText(matching), Cond::MatchText(other)) => same_matching(matching, other),
        (Cond::MatchGroup(matching), Cond::MatchGroup(other)) => {
            same_group_matching(matching, other)
        }
        (Cond::Captured(group), Cond::Captured(other)) => group == other,
        _ => false,
    }
}

/// Whether a policy is an `if` of a condition alone, with an empty block, but for brackets that change nothing.
pub fn says(policy: &Policy, cond: &Cond) -> bool
    ensures { IsTrue result → Says policy.now cond.now }
{
    let [statement] = policy.statements().as_slice() else {
        return false;
    };
    let Statement::If(branches, otherwise) = statement else {
        return false;
    };
    if otherwise.is_some() {
        return false;
    }
    let [branch] = branches.as_slice() else {
        return false;
    };
    let [] = branch.block.as_slice() else {
        return false;
    };
    is_opened(cond, &branch.cond)
}

/// A condition holds where it holds when it is opened, and captures the same.
pub fn opened_alike()
    ensures { (dictionary : Dictionary) (cond : TheCond) (s : State) (code : TheCode)
        (captures : Captures)
        → evaluated dictionary (opened cond) s code captures
        ≡ evaluated dictionary cond s code captures }
{}
