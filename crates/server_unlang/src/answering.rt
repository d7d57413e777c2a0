//! What a server makes of conditions.

ghost use Rattle.std.specs.Prelude.{◌≡◌, IfOk, Some};
ghost use Rattle.std.specs.Option.{option_copied};
ghost use Rattle.avp_lists.specs.Instances.{has_instance};
ghost use Rattle.avp_lists.specs.States.{list_of};
ghost use Rattle.avp_unlang.specs.Relations.{meets};
ghost use Rattle.avp_unlang.specs.Truth.{first_value};
ghost use Rattle.server_unlang.specs.Answers.{answer, compared, compared_as_prefixes, compared_beside, comparison_answer, is_true, meets_as_prefix, value_order};
ghost use Rattle.server_unlang.specs.Codes.{is_code};

use crate::codes::ServerCode;
use crate::conditions::{ServerComparand, ServerComparison, ServerCondition};
use crate::edits::has_instance;
use crate::servers::Server;
use crate::texts::first_instance;
use crate::tree::TextType;
use avp_lists::{State, Value};
use avp_unlang::Relation;
use std::alloc::AllocError;
use std::cmp::Ordering;

fn is_code(code: ServerCode, other: ServerCode) -> bool
    ensures { result ≡ is_code code other }
{
    code == other
}

fn meets(relation: Relation, order: Ordering) -> bool
    ensures { result ≡ meets relation order }
{
    match relation {
        Relation::Equal => order.is_eq(),
        Relation::Differs => order.is_ne(),
        Relation::Less => order.is_lt(),
        Relation::AtMost => order.is_le(),
        Relation::Greater => order.is_gt(),
        Relation::AtLeast => order.is_ge(),
    }
}

fn value_order(value: &Value, other: &Value) -> Option<Ordering>
    ensures { result ≡ value_order value.now other.now }
{
    match (value, other) {
        (Value::Text(octets), Value::Text(others)) => {
            Some(octets.as_slice().cmp(&others.as_slice()))
        }
        (Value::Bytes(octets), Value::Bytes(others)) => {
            Some(octets.as_slice().cmp(&others.as_slice()))
        }
        (Value::Int(number), Value::Int(other)) => Some(number.cmp(other)),
        (Value::Signed(number), Value::Signed(other)) => Some(number.cmp(other)),
        (Value::Addr(octets), Value::Addr(others)) => {
            Some(octets.as_slice().cmp(&others.as_slice()))
        }
        (Value::Ether(octets), Value::Ether(others)) => {
            Some(octets.as_slice().cmp(&others.as_slice()))
        }
        _ => None,
    }
}

pub(crate) fn compared(relation: Relation, value: &Value, other: &Value) -> Option<bool>
    ensures { result ≡ compared relation (Some value.now) (Some other.now) }
{
    let order = value_order(value, other)?;
    Some(meets(relation, order))
}

fn meets_as_prefix(relation: Relation, order: Ordering) -> bool
    ensures { result ≡ meets_as_prefix relation order }
{
    match relation {
        Relation::Equal | Relation::AtMost | Relation::AtLeast => order.is_eq(),
        Relation::Differs => order.is_ne(),
        Relation::Less | Relation::Greater => false,
    }
}

fn compared_as_prefixes(relation: Relation, value: &Value, other: &Value) -> Option<bool>
    ensures { result ≡ compared_as_prefixes relation (Some value.now) (Some other.now) }
{
    let order = value_order(value, other)?;
    Some(meets_as_prefix(relation, order))
}

// A value is compared with what a comparand gives.
fn compared_beside(
    comparand: &ServerComparand,
    relation: Relation,
    value: &Value,
    other: &Value,
) -> Option<bool>
    ensures { result
        ≡ compared_beside comparand.now relation (Some value.now) (Some other.now) }
{
    match comparand {
        ServerComparand::Text(TextType::Address, _) => compared_as_prefixes(relation, value, other),
        _ => compared(relation, value, other),
    }
}

/// Whether the branch of a condition is taken.
pub(crate) fn is_true(answer: Option<bool>) -> bool
    ensures { result ≡ is_true answer }
{
    answer.unwrap_or(false)
}

impl Server<'_> {
    fn comparison_answer(
        &self,
        comparison: &ServerComparison,
        state: &State,
    ) -> Result<Option<bool>, AllocError>
        ensures { IfOk result (λ answer.
            answer ≡ comparison_answer self.now comparison.now state.now) }
    {
        let Some(pair) = first_instance(state, comparison.list, comparison.id) else {
            return Ok(None);
        };
        let relation = comparison.relation;
        match &comparison.comparand {
            ServerComparand::Literal(value) => Ok(compared(relation, &pair.value, value)),
            ServerComparand::Instance(list, id) => match first_instance(state, *list, *id) {
                Some(other) => Ok(compared(relation, &pair.value, &other.value)),
                None => Ok(None),
            },
            ServerComparand::Text(kind, parts) => {
                match self.text_value(comparison.id, *kind, parts.as_slice(), state)? {
                    Some(value) => Ok(compared_beside(
                        &comparison.comparand,
                        relation,
                        &pair.value,
                        &value,
                    )),
                    None => Ok(None),
                }
            }
        }
    }

    /// Whether a condition is true after a code; nothing where a comparison ends it.
    pub(crate) fn answer(
        &self,
        condition: &ServerCondition,
        state: &State,
        code: ServerCode,
    ) -> Result<Option<bool>, AllocError>
        ensures { IfOk result (λ made. made ≡ answer self.now condition.now state.now code) }
    {
        match condition {
            ServerCondition::Constant(value) => Ok(Some(*value)),
            ServerCondition::Code(word) => Ok(Some(is_code(code, *word))),
            ServerCondition::Present(list, id) => { Ok(Some(has_instance(state.list(*list), *id))) }
            ServerCondition::Compare(comparison) => self.comparison_answer(comparison, state),
            ServerCondition::Not(inner) => match self.answer(inner, state, code)? {
                Some(truth) => Ok(Some(!truth)),
                None => Ok(None),
            },
            ServerCondition::And(first, next) => match self.answer(first, state, code)? {
                Some(true) => self.answer(next, state, code),
                ended => Ok(ended),
            },
            ServerCondition::Or(first, next) => match self.answer(first, state, code)? {
                Some(false) => self.answer(next, state, code),
                ended => Ok(ended),
            },
        }
    }
}
