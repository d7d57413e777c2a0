//! Comparisons by meaning, of wider policies.

ghost use Rattle.std.specs.Prelude.{◌≡◌, ◌≢◌, ◌≤◌, length, Some, None, IfErr, IfOk, option_map};
ghost use Rattle.std.specs.Option.{option_and_then};
ghost use Rattle.avp_dict.specs.Quotes.{octets_between};
ghost use Rattle.avp_unlang.specs.Conditions.{MeantBy, MeantIs, instance_compared, meant_form, meant_literal, other_literal, own_literal, plain_octets};
ghost use Rattle.avp_forms.specs.declared.profiles.Profile.TheVariants.{Wider};
ghost use Rattle.avp_unlang.specs.Forms.{Reads};
ghost use Rattle.avp_unlang.specs.RefusedConditions.{MeantFails, meant_refusal, own_refusal};
ghost use Rattle.avp_unlang.specs.RefusedForms.{Tells};
ghost use Rattle.avp_unlang.specs.RefusedValues.{IsValueRefused, literal_refusal, plain_refusal};
ghost use Rattle.avp_unlang.specs.declared.faults.PolicyKind.TheVariants.{Memory};

use crate::faults::{PolicyKind, Position, Refusal, refused_at};
use crate::meaning::truth::octets_meant;
use crate::text::cursors::{Cursor, Read};
use crate::text::operands::{expansion_refusal, has_expansion};
use crate::text::references::{Reference, alike};
use crate::text::selecting::selection_of;
use crate::text::tokens::{Excerpt, Sign, Token};
use crate::text::values::{ValuePositions, literal};
use crate::tree::{Cond, MeantComparand, MeantComparison, Relation};
use avp_dict::{Dictionary, Form, QuoteMark, octets_between};
use avp_forms::{Profile, Target, other_octets};
use avp_lists::{AttrId, Octets};
use std::alloc::{AllocError, Global};

// What the octets of an attribute stand for.
#[tactic(auto, unfolding(crate::specs::Conditions::meant_form))]
pub(crate) fn meant_form(dictionary: &Dictionary, id: AttrId) -> Form
    ensures { result ≡ meant_form dictionary.now id }
{
    dictionary.form(id).unwrap_or(Form::AsTyped)
}

// The octets of a value that a text stands for under a name, and their form.
fn own_literal(
    alloc: Global,
    dictionary: &Dictionary,
    target: Target,
    text: &[u8],
    positions: ValuePositions,
) -> Result<(Form, Octets), Refusal>
    ensures ok { IfOk result (λ x. own_literal dictionary.now target text.now ≡ Some x) }
    ensures err { IfErr result (λ refusal. refusal.kind ≢ Memory
        → own_literal dictionary.now target text.now ≡ None) }
    ensures refused { IfErr result (Tells (IsValueRefused
        (own_refusal (literal_refusal Wider dictionary.now target text.now))
        positions.name.left positions.value.left)) }
{
    let value = literal(alloc, Profile::Wider, dictionary, target, text, positions)?;
    match octets_meant(meant_form(dictionary, target.named.id), &value) {
        Some((form, octets)) => Ok((form, Octets::from_slice(alloc, octets)?)),
        None => Err(refused_at(positions.value, PolicyKind::NotValue)),
    }
}

// The octets of a prefix for an address, or of an address for a prefix, and their form.
fn other_literal(
    alloc: Global,
    dictionary: &Dictionary,
    target: Target,
    text: &[u8],
) -> Result<Option<(Form, Octets)>, AllocError>
    ensures { IfOk result (λ x. x ≡ other_literal dictionary.now target text.now) }
{
    if target.named.raw {
        Ok(None)
    } else {
        other_octets(alloc, meant_form(dictionary, target.named.id), text)
    }
}

// What a text is compared as under a name.
#[tactic(auto, unfolding(crate::specs::Conditions::meant_literal, crate::specs::RefusedConditions::meant_refusal))]
fn meant_literal(
    alloc: Global,
    dictionary: &Dictionary,
    target: Target,
    text: &[u8],
    positions: ValuePositions,
) -> Result<MeantComparand, Refusal>
    ensures ok { IfOk result (λ x. meant_literal dictionary.now target text.now ≡ Some x) }
    ensures err { IfErr result (λ refusal. refusal.kind ≢ Memory
        → meant_literal dictionary.now target text.now ≡ None) }
    ensures refused { IfErr result (Tells (IsValueRefused
        (meant_refusal dictionary.now target text.now) positions.name.left positions.value.left)) }
{
    let refusal = match own_literal(alloc, dictionary, target, text, positions) {
        Ok((form, octets)) => return Ok(MeantComparand::Literal(form, octets)),
        Err(refusal) => refusal,
    };
    if refusal.kind == PolicyKind::Memory {
        return Err(refusal);
    }
    match other_literal(alloc, dictionary, target, text)? {
        Some((form, octets)) => Ok(MeantComparand::Literal(form, octets)),
        None => Err(refusal),
    }
}

// What a text between quotes is compared as under a name.
fn quoted_meant(
    alloc: Global,
    dictionary: &Dictionary,
    target: Target,
    mark: QuoteMark,
    text: &Excerpt,
    positions: ValuePositions,
) -> Result<MeantComparand, Refusal>
    ensures ok { IfOk result (λ x. meant_literal dictionary.now target
        (octets_between mark text.now) ≡ Some x) }
    ensures err { IfErr result (λ refusal. refusal.kind ≢ Memory
        → meant_literal dictionary.now target (octets_between mark text.now) ≡ None) }
    ensures refused { IfErr result (Tells (IsValueRefused
        (meant_refusal dictionary.now target (octets_between mark text.now))
        positions.name.left positions.value.left)) }
{
    let octets = octets_between(alloc, mark, text.as_slice())?;
    meant_literal(alloc, dictionary, target, &octets, positions)
}

// What a text between double quotes is compared as, which may hold no expansion.
fn plain_meant(
    alloc: Global,
    dictionary: &Dictionary,
    target: Target,
    text: &Excerpt,
    positions: ValuePositions,
) -> Result<MeantComparand, Refusal>
    ensures ok { IfOk result (λ x. option_and_then (meant_literal dictionary.now target)
        (plain_octets text.now) ≡ Some x) }
    ensures err { IfErr result (λ refusal. refusal.kind ≢ Memory
        → option_and_then (meant_literal dictionary.now target) (plain_octets text.now) ≡ None) }
    ensures refused { IfErr result (Tells (IsValueRefused
        (plain_refusal (meant_refusal dictionary.now target) dictionary.now target text.now)
        positions.name.left positions.value.left)) }
{
    if has_expansion(text.as_slice()) {
        return Err(expansion_refusal(dictionary, target, positions));
    }
    quoted_meant(
        alloc,
        dictionary,
        target,
        QuoteMark::Double,
        text,
        positions,
    )
}

pub(crate) fn instance_compared(dictionary: &Dictionary, found: Reference) -> MeantComparand
    ensures { result ≡ instance_compared dictionary.now found }
{
    let id = found.target.named.id;
    let selection = selection_of(dictionary, found.target);
    MeantComparand::Instance(found.list, id, selection, meant_form(dictionary, id))
}

// What an attribute is compared with, whose name begins here.
fn meant_comparand<'a>(
    alloc: Global,
    dictionary: &Dictionary,
    target: Target,
    name: Position,
    at: &Cursor<'a>,
) -> Read<'a, MeantComparand>
    ensures read { Reads (MeantIs dictionary.now target at.now) result }
    ensures refused { IfErr result (Tells (MeantFails dictionary.now target name.left at.now)) }
    ensures shorter { IfOk result (λ x. length x.1.text ≤ length at.now.text) }
{
    let positions = ValuePositions {
        name,
        value: at.position(),
    };
    let (token, after) = at.next();
    match token {
        Token::Word(text) => {
            let x = meant_literal(alloc, dictionary, target, text.as_slice(), positions)?;
            Ok((x, after))
        }
        Token::Quoted(QuoteMark::Single, text) => {
            let mark = QuoteMark::Single;
            let x = quoted_meant(alloc, dictionary, target, mark, &text, positions)?;
            Ok((x, after))
        }
        Token::Quoted(QuoteMark::Double, text) => {
            let x = plain_meant(alloc, dictionary, target, &text, positions)?;
            Ok((x, after))
        }
        Token::Operator(Sign::Reference) => {
            let (found, rest) = alike(Profile::Wider, dictionary, target.named.id, &after)?;
            Ok((instance_compared(dictionary, found), rest))
        }
        _ => Err(at.unfit()),
    }
}

/// The comparison of a reference, which begins here, by what its values mean: what follows the operator.
pub(crate) fn related_by_meaning<'a>(
    alloc: Global,
    dictionary: &Dictionary,
    found: Reference,
    relation: Relation,
    name: Position,
    at: &Cursor<'a>,
) -> Read<'a, Cond>
    ensures read { Reads (MeantBy dictionary.now found relation at.now) result }
    ensures refused { IfErr result (Tells
        (MeantFails dictionary.now found.target name.left at.now)) }
    ensures shorter { IfOk result (λ x. length x.1.text ≤ length at.now.text) }
{
    let target = found.target;
    let (comparand, rest) = meant_comparand(alloc, dictionary, target, name, at)?;
    let comparison = MeantComparison {
        list: found.list,
        id: target.named.id,
        selection: selection_of(dictionary, target),
        form: meant_form(dictionary, target.named.id),
        relation,
        comparand,
    };
    Ok((Cond::CompareMeant(comparison), rest))
}
