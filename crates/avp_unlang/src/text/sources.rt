//! What update lines set their attributes to.

ghost use Rattle.std.specs.Prelude.{◌≡◌, ◌≢◌, ◌≤◌, length, Some, None, IfOk, IfErr, option_map};
ghost use Rattle.avp_unlang.specs.Forms.{Reads, ReadsAll, Takes};
ghost use Rattle.avp_unlang.specs.RefusedForms.{Tells};
ghost use Rattle.avp_unlang.specs.RefusedLines.{FilledFails, IgnoredFails, SourceFails, SourceFailsOf, whole_refusal};
ghost use Rattle.avp_unlang.specs.RefusedValues.{IsValueRefused, literal_refusal};
ghost use Rattle.avp_unlang.specs.Sources.{FilledIs, IgnoredIs, SourceIs, SourceOf, filled_source, instance_source, is_removal, shared_form, text_source, whole_text};
ghost use Rattle.avp_unlang.specs.declared.faults.PolicyKind.TheVariants.{Memory};

use crate::faults::{PolicyKind, Position, Refusal, refused_at};
use crate::text::cursors::{Cursor, Read};
use crate::text::parts::parts;
use crate::text::references::Reference;
use crate::text::selecting::selection_of;
use crate::text::tokens::{Excerpt, Sign, Token};
use crate::text::values::{ValuePositions, Written, literal, written_value};
use crate::tree::{Part, Parts, Source};
use avp_dict::{Dictionary, Form, is_container};
use avp_forms::{Profile, Target};
use avp_lists::{AttrId, Op};
use std::alloc::Global;

// The text of parts among which nothing is put in.
fn whole_text(parts: &Parts) -> Option<&[u8]>
    ensures { option_map (λ text. text.now) result ≡ whole_text parts.now }
{
    match parts.as_slice() {
        [] => Some(&[]),
        [Part::Text(octets)] => Some(octets.as_slice()),
        _ => None,
    }
}

// The source of parts among which something is put in.
#[inline(always)]
fn text_source(profile: Profile, target: Target, parts: Parts) -> Source
    ensures { result ≡ text_source profile target parts }
{
    match profile {
        Profile::Plain => Source::Text(target.named.raw, parts),
        Profile::Wider => Source::WiderText(target.named.raw, target.tag, parts),
    }
}

// The source of these parts: a literal if nothing is put in.
#[tactic(auto, unfolding(crate::specs::Sources::filled_source))]
fn filled_source(
    alloc: Global,
    profile: Profile,
    dictionary: &Dictionary,
    target: Target,
    parts: Parts,
    positions: ValuePositions,
) -> Result<Source, Refusal>
    ensures ok { IfOk result (λ source. filled_source profile dictionary.now target parts
        ≡ Some source) }
    ensures err { IfErr result (λ refusal. refusal.kind ≢ Memory
        → filled_source profile dictionary.now target parts ≡ None) }
    ensures refused { IfErr result (Tells (IsValueRefused
        (whole_refusal (literal_refusal profile dictionary.now target) (whole_text parts))
        positions.name.left positions.value.left)) }
{
    match whole_text(&parts) {
        None => Ok(text_source(profile, target, parts)),
        Some(text) => {
            let value = literal(alloc, profile, dictionary, target, text, positions)?;
            Ok(Source::Literal(value))
        }
    }
}

// The source of a text between double quotes.
fn filled_text(
    alloc: Global,
    profile: Profile,
    dictionary: &Dictionary,
    target: Target,
    text: Excerpt,
    positions: ValuePositions,
) -> Result<Source, Refusal>
    ensures read { ReadsAll (FilledIs profile dictionary.now target text.entry) result }
    ensures refused { IfErr result (Tells (FilledFails profile dictionary.now target
        positions.name.left positions.value.left text.entry)) }
{
    if dictionary.is_barred(target.named) {
        return Err(refused_at(positions.name, PolicyKind::NotWritable));
    }
    let parts = parts(alloc, profile, dictionary, text, positions.value)?;
    filled_source(alloc, profile, dictionary, target, parts, positions)
}

// The form of two attributes whose octets carry tags in the same way.
#[tactic(auto, unfolding(crate::specs::Sources::shared_form))]
fn shared_form(dictionary: &Dictionary, id: AttrId, other: AttrId) -> Form
    ensures { result ≡ shared_form dictionary.now id other }
{
    match (dictionary.form(id), dictionary.form(other)) {
        (Some(Form::TaggedInteger), Some(Form::TaggedInteger)) => Form::TaggedInteger,
        (Some(Form::TaggedString), Some(Form::TaggedString)) => Form::TaggedString,
        _ => Form::AsTyped,
    }
}

// The source of a reference.
#[inline(always)]
fn instance_source(
    profile: Profile,
    dictionary: &Dictionary,
    target: Target,
    found: Reference,
) -> Source
    ensures { result ≡ instance_source profile dictionary.now target found }
{
    let other = found.target.named.id;
    match profile {
        Profile::Plain => Source::Instance(found.list, other),
        Profile::Wider => Source::Tagged(
            found.list,
            other,
            selection_of(dictionary, found.target),
            shared_form(dictionary, target.named.id, other),
            target.tag.unwrap_or(0),
        ),
    }
}

// The source that a written value is.
fn source_of(
    alloc: Global,
    profile: Profile,
    dictionary: &Dictionary,
    target: Target,
    written: Written,
    positions: ValuePositions,
) -> Result<Source, Refusal>
    ensures read { ReadsAll (SourceOf profile dictionary.now target written.entry) result }
    ensures refused { IfErr result (Tells (SourceFailsOf profile dictionary.now target
        positions.name.left positions.value.left written.entry)) }
{
    match written {
        Written::Literal(value) => Ok(Source::Literal(value)),
        Written::Double(text) => filled_text(alloc, profile, dictionary, target, text, positions),
        Written::Instance(found) => Ok(instance_source(profile, dictionary, target, found)),
    }
}

// The place after a source that is not looked at.
fn ignored<'a>(at: &Cursor<'a>) -> Result<Cursor<'a>, Refusal>
    ensures taken { Takes (IgnoredIs at.now) result }
    ensures refused { IfErr result (Tells (IgnoredFails at.now)) }
    ensures shorter { IfOk result (λ rest. length rest.text ≤ length at.now.text) }
{
    let (token, after) = at.next();
    match token {
        Token::Word(_) | Token::Quoted(_, _) => Ok(after),
        Token::Operator(Sign::Reference) => match after.next() {
            (Token::Word(_), rest) => Ok(rest),
            _ => Err(after.unfit()),
        },
        _ => Err(at.unfit()),
    }
}

fn is_removal(operation: Op) -> bool
    ensures { result ≡ is_removal operation }
{
    matches!(operation, Op::RemoveAll)
}

/// The source that follows an operator, for a name that begins here.
pub(crate) fn source<'a>(
    alloc: Global,
    profile: Profile,
    dictionary: &Dictionary,
    operation: Op,
    target: Target,
    name: Position,
    at: &Cursor<'a>,
) -> Read<'a, Source>
    ensures read { Reads (SourceIs profile dictionary.now operation target at.now) result }
    ensures refused { IfErr result (Tells
        (SourceFails profile dictionary.now operation target name.left at.now)) }
    ensures shorter { IfOk result (λ x. length x.1.text ≤ length at.now.text) }
{
    if is_removal(operation) {
        let rest = ignored(at)?;
        return Ok((Source::Any, rest));
    }
    if is_container(target.named.id) {
        return Err(refused_at(name, PolicyKind::NotWritable));
    }
    let (written, rest) = written_value(alloc, profile, dictionary, target, name, at)?;
    let positions = ValuePositions {
        name,
        value: at.position(),
    };
    let source = source_of(alloc, profile, dictionary, target, written, positions)?;
    Ok((source, rest))
}
