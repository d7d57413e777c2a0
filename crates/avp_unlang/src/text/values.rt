//! Values as policy texts write them.

ghost use Rattle.std.specs.Prelude.{◌≡◌, ◌≢◌, ◌≤◌, length, Some, None, IfOk, IfErr, IsTrue};
ghost use Rattle.avp_dict.specs.Quotes.{octets_between};
ghost use Rattle.avp_dict.specs.declared.value.quotes.QuoteMark.{QuoteMark as TheQuoteMark};
ghost use Rattle.avp_unlang.specs.Forms.{Reads};
ghost use Rattle.avp_unlang.specs.RefusedForms.{Tells};
ghost use Rattle.avp_unlang.specs.RefusedValues.{IsValueRefused, WrittenFails, literal_refusal, value_kind, value_place};
ghost use Rattle.avp_unlang.specs.Values.{WrittenIs, literal};
ghost use Rattle.avp_unlang.specs.declared.faults.PolicyKind.TheVariants.{Memory};
ghost use Rattle.avp_unlang.specs.internal.Fitting.{AlwaysFits};

use crate::faults::{PolicyKind, Position, Refusal, refused_at};
use crate::text::cursors::{Cursor, Read};
use crate::text::references::{Reference, alike};
use crate::text::tokens::{Excerpt, Sign, Token};
use avp_dict::{Dictionary, QuoteMark, ValueFault, octets_between};
use avp_forms::{Profile, Target, value_written};
use avp_lists::{AttrId, Pair, Value};
use std::alloc::Global;

/// A value as it is written for an attribute.
#[derive(Drop)]
pub(crate) enum Written<'a> {
    /// A value that a text stands for under the attribute's name.
    Literal(Value),
    /// The octets between double quotes, as they are in the text: an update line reads them in another way than a
    /// condition.
    Double(Excerpt<'a>),
    /// `&list:name`: the first instance of an attribute.
    Instance(Reference),
}

/// Where a name begins, and the value that is written for it.
#[derive(Clone, Copy)]
pub(crate) struct ValuePositions {
    pub name: Position,
    pub value: Position,
}

// The refusal of a value's text.
fn value_refusal(fault: ValueFault, positions: ValuePositions) -> Refusal
    ensures kind { result.kind ≡ value_kind fault }
    ensures place { result.kind ≢ Memory
        → result.left ≡ value_place positions.name.left positions.value.left result.kind }
{
    match fault {
        ValueFault::NotWritable => refused_at(positions.name, PolicyKind::NotWritable),
        ValueFault::NotValue => refused_at(positions.value, PolicyKind::NotValue),
        ValueFault::TooLong => refused_at(positions.value, PolicyKind::TooLong),
        ValueFault::Memory => Refusal::OUT_OF_MEMORY,
    }
}

// Whether every value that texts spell under a name fits: a plain policy's are spelled by type, and an attribute of no
// vendor and of no extended type is known.
#[tactic(auto, using(crate::proofs::PlainFitting::plain_fits))]
fn always_fits(profile: Profile, target: Target) -> bool
    ensures { IsTrue result → AlwaysFits profile target }
{
    match profile {
        Profile::Wider => false,
        Profile::Plain => match target.named.id {
            AttrId::Plain(_) => true,
            _ => false,
        },
    }
}

/// The value that a text stands for under a name.
#[tactic(auto, unfolding(crate::specs::Values::literal, crate::specs::RefusedValues::literal_refusal))]
#[inline(always)]
pub(crate) fn literal(
    alloc: Global,
    profile: Profile,
    dictionary: &Dictionary,
    target: Target,
    text: &[u8],
    positions: ValuePositions,
) -> Result<Value, Refusal>
    ensures ok { IfOk result (λ value. literal profile dictionary.now target text.now
        ≡ Some value) }
    ensures err { IfErr result (λ refusal. refusal.kind ≢ Memory
        → literal profile dictionary.now target text.now ≡ None) }
    ensures refused { IfErr result (Tells (IsValueRefused
        (literal_refusal profile dictionary.now target text.now) positions.name.left
        positions.value.left)) }
{
    match value_written(alloc, dictionary, profile, target, None, text) {
        Ok(value) => {
            if always_fits(profile, target) {
                return Ok(value);
            }
            let pair = Pair {
                id: target.named.id,
                value,
            };
            if dictionary.fits(&pair) {
                Ok(pair.value)
            } else {
                Err(refused_at(positions.value, PolicyKind::NotValue))
            }
        }
        Err(fault) => Err(value_refusal(fault, positions)),
    }
}

// Whether a text between quotes has no escape in it, and so stands for its own octets.
fn has_no_escape(text: &[u8]) -> bool
    ensures { IsTrue result → (mark : TheQuoteMark) → octets_between mark text.now ≡ text.now }
{
    !text.contains(&b'\\')
}

/// The value that a text between quotes stands for under a name.
pub(crate) fn quoted_literal(
    alloc: Global,
    profile: Profile,
    dictionary: &Dictionary,
    target: Target,
    mark: QuoteMark,
    text: &Excerpt,
    positions: ValuePositions,
) -> Result<Value, Refusal>
    ensures ok { IfOk result (λ value. literal profile dictionary.now target
        (octets_between mark text.now) ≡ Some value) }
    ensures err { IfErr result (λ refusal. refusal.kind ≢ Memory
        → literal profile dictionary.now target (octets_between mark text.now) ≡ None) }
    ensures refused { IfErr result (Tells (IsValueRefused
        (literal_refusal profile dictionary.now target (octets_between mark text.now))
        positions.name.left positions.value.left)) }
{
    let written = text.as_slice();
    if has_no_escape(written) {
        return literal(alloc, profile, dictionary, target, written, positions);
    }
    let octets = octets_between(alloc, mark, written)?;
    literal(alloc, profile, dictionary, target, &octets, positions)
}

/// What is written for the attribute of a name, which begins here.
#[inline(always)]
pub(crate) fn written_value<'a>(
    alloc: Global,
    profile: Profile,
    dictionary: &Dictionary,
    target: Target,
    name: Position,
    at: &Cursor<'a>,
) -> Read<'a, Written<'a>>
    ensures read { Reads (WrittenIs profile dictionary.now target at.now) result }
    ensures refused { IfErr result (Tells
        (WrittenFails profile dictionary.now target name.left at.now)) }
    ensures shorter { IfOk result (λ x. length x.1.text ≤ length at.now.text) }
{
    let positions = ValuePositions {
        name,
        value: at.position(),
    };
    let (token, after) = at.next();
    match token {
        Token::Word(text) => {
            let value = literal(
                alloc,
                profile,
                dictionary,
                target,
                text.as_slice(),
                positions,
            )?;
            Ok((Written::Literal(value), after))
        }
        Token::Quoted(QuoteMark::Single, text) => {
            let value = quoted_literal(
                alloc,
                profile,
                dictionary,
                target,
                QuoteMark::Single,
                &text,
                positions,
            )?;
            Ok((Written::Literal(value), after))
        }
        Token::Quoted(QuoteMark::Double, text) => Ok((Written::Double(text), after)),
        Token::Operator(Sign::Reference) => {
            let (other, rest) = alike(profile, dictionary, target.named.id, &after)?;
            Ok((Written::Instance(other), rest))
        }
        _ => Err(at.unfit()),
    }
}
