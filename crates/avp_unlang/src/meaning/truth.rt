//! Whether conditions are true.

ghost use Rattle.std.specs.Prelude.{◌≡◌, IsTrue, Option, false};
ghost use Rattle.std.specs.List.{list_all, list_any};
ghost use Rattle.std.specs.Option.{option_copied, option_map};
ghost use Rattle.avp_lists.specs.History.{present};
ghost use Rattle.avp_dict.specs.Octets.{octets_of};
ghost use Rattle.avp_dict.specs.declared.entries.Kind.{Kind};
ghost use Rattle.avp_unlang.specs.Relations.{meets};
ghost use Rattle.avp_unlang.specs.Truth.{comparable, compared_with, first_value, is_alike, is_comparable, is_met, is_met_by_meaning, is_number_value, is_numeric, meant_with, meets_if_ordered, number_order, octets_meant, order, relates, same_code, selected_octets, truth};

use crate::codes::Code;
use crate::tree::{Comparand, Comparison, Cond, MeantComparand, MeantComparison, Relation};
use avp_dict::{Form, Kind};
use avp_forms::order_by_meaning;
use avp_lists::{AttrId, List, Selection, Store, Value};
use std::cmp::Ordering;

fn is_numeric(kind: Kind) -> bool
    ensures { result ≡ is_numeric kind }
{
    match kind {
        Kind::Text | Kind::Bytes | Kind::Addr | Kind::Ether => false,
        Kind::Byte | Kind::Short | Kind::Integer | Kind::Integer64 | Kind::Date | Kind::Signed =>
            true,
    }
}

fn number_order(value: &Value, other: &Value) -> Option<Ordering>
    ensures { result ≡ number_order value.now other.now }
{
    match (value, other) {
        (Value::Int(number), Value::Int(other)) => Some(number.cmp(other)),
        (Value::Signed(number), Value::Signed(other)) => Some(number.cmp(other)),
        _ => None,
    }
}

pub(crate) fn same_code(code: Code, word: Code) -> bool
    ensures { result ≡ same_code code word }
{
    code == word
}

pub(crate) fn meets(relation: Relation, order: Ordering) -> bool
    ensures { result ≡ meets relation order }
{
    match relation {
        Relation::Equal => order.is_eq(),
        Relation::Differs => order.is_ne(),
        Relation::Less => order.is_lt(),
        Relation::AtMost => order.is_le(),
        Relation::Greater => order.is_gt(),
        Relation::AtLeast => order.is_ge(),
    }
}

// The octets of a value that is no number.
fn octets(value: &Value) -> &[u8]
    requires { is_number_value value.now ≡ false }
    ensures { (kind : Option Kind) → result.now ≡ octets_of kind value.now }
{
    match value {
        Value::Text(octets) | Value::Bytes(octets) | Value::Raw(octets) => octets.as_slice(),
        Value::Addr(address) => address.as_slice(),
        Value::Ether(address) => address.as_slice(),
        Value::Int(_) | Value::Signed(_) => unreachable!(),
    }
}

fn order(kind: Kind, value: &Value, other: &Value) -> Option<Ordering>
    requires value { IsTrue (is_alike kind value.now) }
    requires other { IsTrue (is_alike kind other.now) }
    ensures { result ≡ order kind value.now other.now }
{
    if is_numeric(kind) {
        number_order(value, other)
    } else {
        Some(octets(value).cmp(&octets(other)))
    }
}

pub(crate) fn relates(kind: Kind, relation: Relation, value: &Value, other: &Value) -> bool
    requires value { IsTrue (is_alike kind value.now) }
    requires other { IsTrue (is_alike kind other.now) }
    ensures { result ≡ relates kind relation value.now other.now }
{
    match order(kind, value, other) {
        Some(order) => meets(relation, order),
        None => false,
    }
}

fn first_value<S: Store>(store: &S, list: List, id: AttrId) -> Option<&Value>
    ensures { option_copied result ≡ first_value list id (present (S.history store.now)) }
{
    let pair = store.first(list, id)?;
    Some(&pair.value)
}

fn compared_with<'a, S: Store>(comparand: &'a Comparand, store: &'a S) -> Option<&'a Value>
    ensures { option_copied result ≡ compared_with comparand.now (present (S.history store.now)) }
{
    match comparand {
        Comparand::Literal(value) => Some(value),
        Comparand::Instance(list, id) => first_value(store, *list, *id),
    }
}

pub(crate) fn is_met<S: Store>(comparison: &Comparison, store: &S) -> bool
    requires { IsTrue (is_comparable comparison.now (present (S.history store.now))) }
    ensures { result ≡ is_met comparison.now (present (S.history store.now)) }
{
    match (
        first_value(store, comparison.list, comparison.id),
        compared_with(&comparison.comparand, store),
    ) {
        (Some(value), Some(other)) => relates(comparison.kind, comparison.relation, value, other),
        _ => false,
    }
}

/// The octets of a value, and the form by which they mean something; raw ones mean nothing.
#[tactic(auto, unfolding(crate::specs::Truth::octets_meant))]
pub(crate) fn octets_meant(form: Form, value: &Value) -> Option<(Form, &[u8])>
    ensures { option_map (λ x. (x.0, x.1.now)) result ≡ octets_meant form value.now }
{
    match value {
        Value::Bytes(octets) => Some((form, octets.as_slice())),
        Value::Raw(octets) => Some((Form::AsTyped, octets.as_slice())),
        _ => None,
    }
}

fn selected_octets<S: Store>(
    store: &S,
    list: List,
    id: AttrId,
    selection: Selection,
    form: Form,
) -> Option<(Form, &[u8])>
    ensures { option_map (λ x. (x.0, x.1.now)) result
        ≡ selected_octets list id selection form (present (S.history store.now)) }
{
    let pair = store.first_selected(list, id, selection)?;
    octets_meant(form, &pair.value)
}

fn meant_with<'a, S: Store>(comparand: &'a MeantComparand, store: &'a S) -> Option<(Form, &'a [u8])>
    ensures { option_map (λ x. (x.0, x.1.now)) result
        ≡ meant_with comparand.now (present (S.history store.now)) }
{
    match comparand {
        MeantComparand::Literal(form, octets) => Some((*form, octets.as_slice())),
        MeantComparand::Instance(list, id, selection, form) => selected_octets(
            store, *list, *id, *selection, *form,
        ),
    }
}

fn meets_if_ordered(relation: Relation, order: Option<Ordering>) -> bool
    ensures { result ≡ meets_if_ordered relation order }
{
    match (relation, order) {
        (relation, Some(order)) => meets(relation, order),
        (Relation::Differs, None) => true,
        (_, None) => false,
    }
}

pub(crate) fn is_met_by_meaning<S: Store>(comparison: &MeantComparison, store: &S) -> bool
    ensures { result ≡ is_met_by_meaning comparison.now (present (S.history store.now)) }
{
    let MeantComparison {
        list,
        id,
        selection,
        form,
        relation,
        comparand,
    } = comparison;
    match (
        selected_octets(store, *list, *id, *selection, *form),
        meant_with(comparand, store),
    ) {
        (Some((form, octets)), Some((other, others))) => {
            let order = order_by_meaning(form, octets, other, others);
            meets_if_ordered(*relation, order)
        }
        _ => false,
    }
}

#[cycle(conditions)]
fn any_holds<S: Store>(conds: &[Cond], store: &S, code: Code) -> bool
    requires comparable { IsTrue (list_all (λ cond. comparable cond (present (S.history store.now)))
        conds.now) }
    ensures { result ≡ list_any (λ cond. truth cond (present (S.history store.now)) code)
        conds.now }
{
    for cond in conds {
        if holds(cond, store, code) {
            return true;
        }
    }
    false
}

#[cycle(conditions)]
fn all_hold<S: Store>(conds: &[Cond], store: &S, code: Code) -> bool
    requires comparable { IsTrue (list_all (λ cond. comparable cond (present (S.history store.now)))
        conds.now) }
    ensures { result ≡ list_all (λ cond. truth cond (present (S.history store.now)) code)
        conds.now }
{
    for cond in conds {
        if !holds(cond, store, code) {
            return false;
        }
    }
    true
}

/// Whether a condition is true of a store's present lists, `code` being the last code. It takes no memory. A comparison
/// with a pattern or of texts, and a look at what was captured, count as false: of these see
/// [`holds_by`](crate::holds_by) and [`evaluate`](crate::evaluate).
#[cycle(conditions)]
#[tactic(auto, using(crate::proofs::Truths::truth_any, crate::proofs::Truths::truth_all, crate::proofs::Truths::truth_not, crate::proofs::Truths::truth_last, crate::proofs::Truths::truth_present, crate::proofs::Truths::truth_present_selected, crate::proofs::Truths::truth_compare, crate::proofs::Truths::truth_compare_meant, crate::proofs::Truths::truth_match, crate::proofs::Truths::truth_compare_texts, crate::proofs::Truths::truth_match_text, crate::proofs::Truths::truth_match_group, crate::proofs::Truths::truth_captured, crate::proofs::Truths::comparable_any, crate::proofs::Truths::comparable_all, crate::proofs::Truths::comparable_not, crate::proofs::Truths::comparable_compare))]
pub fn holds<S: Store>(cond: &Cond, store: &S, code: Code) -> bool
    requires comparable { IsTrue (comparable cond.now (present (S.history store.now))) }
    ensures { result ≡ truth cond.now (present (S.history store.now)) code }
{
    match cond {
        Cond::Any(conds) => any_holds(conds.as_slice(), store, code),
        Cond::All(conds) => all_hold(conds.as_slice(), store, code),
        Cond::Not(cond) => !holds(cond.get(), store, code),
        Cond::Last(word) => same_code(code, *word),
        Cond::Present(list, id) => store.first(*list, *id).is_some(),
        Cond::PresentSelected(list, id, selection) => {
            store.first_selected(*list, *id, *selection).is_some()
        }
        Cond::Compare(comparison) => is_met(comparison, store),
        Cond::CompareMeant(comparison) => is_met_by_meaning(comparison, store),
        Cond::Match(_)
        | Cond::CompareTexts(_)
        | Cond::MatchText(_)
        | Cond::MatchGroup(_)
        | Cond::Captured(_) => false,
    }
}
