//! Operands of conditions, read from a text.

ghost use Rattle.std.specs.Prelude.{◌≡◌, ◌≢◌, ◌≤◌, length, Some, None, false, true, IfErr, IfNone, IfOk, IfSome};
ghost use Rattle.avp_unlang.specs.Conditions.{ComparandOf, ComparedBy, ComparedIs, ReferredIs, RelatedIs, RelatedToText, TextOperand, TextRelated, ValueRelated, WordFrom, has_expansion, instance_related, is_beside_texts, is_by_meaning, is_text, is_text_beside, plain_literal, present_of, puts_in, reference_alone, relation_of, typing_of};
ghost use Rattle.avp_unlang.specs.Forms.{Reads, ReadsAll};
ghost use Rattle.avp_unlang.specs.References.{type_of};
ghost use Rattle.avp_unlang.specs.RefusedConditions.{ComparandFails, ComparedFails, ReferredFails, RelatedFails, RelatedToTextFails, TextOperandFails, TextRelatedFails, ValueRelatedFails, WordFailsFrom, comparand_refusal, group_alone};
ghost use Rattle.avp_forms.specs.declared.profiles.Profile.TheVariants.{Wider};
ghost use Rattle.avp_unlang.specs.RefusedForms.{Tells};
ghost use Rattle.avp_unlang.specs.RefusedValues.{IsValueRefused, expansion_kind, literal_refusal, plain_refusal};
ghost use Rattle.avp_unlang.specs.Words.{code_named};
ghost use Rattle.avp_unlang.specs.declared.faults.PolicyKind.TheVariants.{Memory};
ghost use Rattle.avp_unlang.specs.declared.text.references.Reference.{Reference as TheReference};
ghost use Rattle.avp_unlang.specs.declared.text.tokens.Token.TheVariants.{Quoted};

use crate::codes::code_named;
use crate::faults::{PolicyKind, Position, Refusal, refused_at};
use crate::text::cursors::{Cursor, Read};
use crate::text::meanings::{instance_compared, meant_form, related_by_meaning};
use crate::text::parts::group_in;
use crate::text::patterns::{matched, matcher_in};
use crate::text::references::{Reference, readable, referred, type_of};
use crate::text::selecting::selection_of;
use crate::text::texts::{
    instance_beside, only_reference, puts_in, quoted_parts, text_matched, texts_compared,
};
use crate::text::tokens::{Excerpt, Sign, Token, front};
use crate::text::values::{ValuePositions, Written, quoted_literal, written_value};
use crate::tree::{Comparand, Comparison, Cond, MeantComparison, Parts, Relation};
use avp_dict::{Dictionary, Form, Kind, QuoteMark};
use avp_forms::{Profile, Target};
use avp_lists::{AttrId, Value};
use std::alloc::Global;

#[tactic(auto, unfolding(crate::specs::Conditions::relation_of))]
#[inline(always)]
fn relation_of(token: &Token) -> Option<Relation>
    ensures { result ≡ relation_of token.now }
{
    match token {
        Token::Operator(Sign::Equal) => Some(Relation::Equal),
        Token::Operator(Sign::Differs) => Some(Relation::Differs),
        Token::Operator(Sign::Less) => Some(Relation::Less),
        Token::Operator(Sign::AtMost) => Some(Relation::AtMost),
        Token::Operator(Sign::Greater) => Some(Relation::Greater),
        Token::Operator(Sign::AtLeast) => Some(Relation::AtLeast),
        _ => None,
    }
}

/// Whether there is a `%{` in a text with no `\` before either octet.
pub(crate) fn has_expansion(text: &[u8]) -> bool
    ensures { result ≡ has_expansion false text.now }
{
    let mut escaped = false;
    let mut rest = text;
    while let Some((octet, after)) = front(rest) {
        if !escaped && octet == b'%' && after.first() == Some(&b'{') {
            return true;
        }
        escaped = !escaped && octet == b'\\';
        rest = after;
    }
    false
}

/// The refusal of an expansion in a condition; that the name is not writable comes first.
pub(crate) fn expansion_refusal(
    dictionary: &Dictionary,
    target: Target,
    positions: ValuePositions,
) -> Refusal
    ensures { IsValueRefused (expansion_kind dictionary.now target) positions.name.left
        positions.value.left result.left result.kind }
{
    if dictionary.is_barred(target.named) {
        refused_at(positions.name, PolicyKind::NotWritable)
    } else {
        refused_at(positions.value, PolicyKind::Unreadable)
    }
}

// The value of a text between double quotes, which may hold no expansion.
fn plain_literal(
    alloc: Global,
    profile: Profile,
    dictionary: &Dictionary,
    target: Target,
    text: &Excerpt,
    positions: ValuePositions,
) -> Result<Value, Refusal>
    ensures ok { IfOk result (λ value. plain_literal profile dictionary.now target text.now
        ≡ Some value) }
    ensures err { IfErr result (λ refusal. refusal.kind ≢ Memory
        → plain_literal profile dictionary.now target text.now ≡ None) }
    ensures refused { IfErr result (Tells (IsValueRefused
        (plain_refusal (literal_refusal profile dictionary.now target) dictionary.now target
        text.now) positions.name.left positions.value.left)) }
{
    if has_expansion(text.as_slice()) {
        return Err(expansion_refusal(dictionary, target, positions));
    }
    quoted_literal(
        alloc,
        profile,
        dictionary,
        target,
        QuoteMark::Double,
        text,
        positions,
    )
}

// What an attribute is compared with.
#[inline(always)]
fn comparand_of(
    alloc: Global,
    profile: Profile,
    dictionary: &Dictionary,
    target: Target,
    written: Written,
    positions: ValuePositions,
) -> Result<Comparand, Refusal>
    ensures read { ReadsAll (ComparandOf profile dictionary.now target written.entry) result }
    ensures refused { IfErr result (Tells (IsValueRefused
        (comparand_refusal profile dictionary.now target written.entry) positions.name.left
        positions.value.left)) }
{
    match written {
        Written::Literal(value) => Ok(Comparand::Literal(value)),
        Written::Double(text) => {
            let value = plain_literal(alloc, profile, dictionary, target, &text, positions)?;
            Ok(Comparand::Literal(value))
        }
        Written::Instance(found) => Ok(Comparand::Instance(found.list, found.target.named.id)),
    }
}

// The comparison of a reference, which begins here, by the type of its values: what follows the operator.
#[inline(always)]
fn related_by_type<'a>(
    alloc: Global,
    profile: Profile,
    dictionary: &Dictionary,
    found: Reference,
    relation: Relation,
    name: Position,
    at: &Cursor<'a>,
) -> Read<'a, Cond>
    ensures read { Reads (ComparedBy profile dictionary.now found relation at.now) result }
    ensures refused { IfErr result (Tells
        (ComparandFails profile dictionary.now found.target name.left at.now)) }
    ensures shorter { IfOk result (λ x. length x.1.text ≤ length at.now.text) }
{
    let target = found.target;
    let (written, rest) = written_value(alloc, profile, dictionary, target, name, at)?;
    let positions = ValuePositions {
        name,
        value: at.position(),
    };
    let comparand = comparand_of(alloc, profile, dictionary, target, written, positions)?;
    let comparison = Comparison {
        list: found.list,
        id: target.named.id,
        kind: type_of(dictionary, target.named.id),
        relation,
        comparand,
    };
    Ok((Cond::Compare(comparison), rest))
}

// Whether the values of an attribute are compared by what they mean. Of a plain policy no type is looked up.
#[inline(always)]
fn is_by_meaning(profile: Profile, dictionary: &Dictionary, id: AttrId) -> bool
    ensures { result ≡ is_by_meaning profile (type_of dictionary.now id) }
{
    match profile {
        Profile::Plain => false,
        Profile::Wider => matches!(type_of(dictionary, id), Kind::Bytes),
    }
}

// The reference that a text between these quotes is alone.
fn text_alone(dictionary: &Dictionary, mark: QuoteMark, text: &Excerpt) -> Option<Reference>
    ensures { result ≡ reference_alone dictionary.now (Quoted mark text.now) }
{
    match mark {
        QuoteMark::Double => only_reference(dictionary, text),
        QuoteMark::Single => None,
    }
}

fn reference_alone(dictionary: &Dictionary, token: &Token) -> Option<Reference>
    ensures { result ≡ reference_alone dictionary.now token.now }
{
    match token {
        Token::Quoted(mark, text) => text_alone(dictionary, *mark, text),
        _ => None,
    }
}

// The type of an attribute, and the form by which its octets mean something.
fn typing_of(dictionary: &Dictionary, found: Reference) -> (Kind, Form)
    ensures { result ≡ typing_of dictionary.now found }
{
    let id = found.target.named.id;
    (type_of(dictionary, id), meant_form(dictionary, id))
}

// The same, if its values are of the type and form of those of another.
fn alike_alone(dictionary: &Dictionary, found: Reference, token: &Token) -> Option<Reference>
    ensures alike { IfSome result (λ other. (reference_alone dictionary.now token.now ≡ Some other)
        × (typing_of dictionary.now found ≡ typing_of dictionary.now other)) }
    ensures none { IfNone result ((other : TheReference)
        → reference_alone dictionary.now token.now ≡ Some other
        → typing_of dictionary.now found ≢ typing_of dictionary.now other) }
{
    match reference_alone(dictionary, token) {
        None => None,
        Some(other) => {
            if typing_of(dictionary, other) == typing_of(dictionary, found) {
                Some(other)
            } else {
                None
            }
        }
    }
}

// A comparison with another instance.
fn instance_related(
    dictionary: &Dictionary,
    found: Reference,
    relation: Relation,
    other: Reference,
) -> Cond
    ensures { result
        ≡ instance_related (is_by_meaning Wider (type_of dictionary.now found.target.named.id))
        dictionary.now found relation other }
{
    let id = found.target.named.id;
    if is_by_meaning(Profile::Wider, dictionary, id) {
        Cond::CompareMeant(MeantComparison {
            list: found.list,
            id,
            selection: selection_of(dictionary, found.target),
            form: meant_form(dictionary, id),
            relation,
            comparand: instance_compared(dictionary, other),
        })
    } else {
        Cond::Compare(Comparison {
            list: found.list,
            id,
            kind: type_of(dictionary, id),
            relation,
            comparand: Comparand::Instance(other.list, other.target.named.id),
        })
    }
}

// Whether values of an attribute are compared with texts, octet by octet.
fn is_beside_texts(dictionary: &Dictionary, id: AttrId) -> bool
    ensures { result ≡ is_beside_texts dictionary.now id }
{
    match type_of(dictionary, id) {
        Kind::Text => true,
        Kind::Bytes => meant_form(dictionary, id) == Form::AsTyped,
        _ => false,
    }
}

// The comparison of a reference, which begins here, with a text that puts something in: one reference alone is that
// reference where type and form are alike; any text is compared octet by octet.
fn related_to_text<'a>(
    alloc: Global,
    dictionary: &Dictionary,
    found: Reference,
    relation: Relation,
    name: Position,
    at: &Cursor<'a>,
) -> Read<'a, Cond>
    ensures read { Reads (RelatedToText dictionary.now found relation at.now) result }
    ensures refused { IfErr result (Tells
        (RelatedToTextFails dictionary.now found name.left at.now)) }
    ensures shorter { IfOk result (λ x. length x.1.text ≤ length at.now.text) }
{
    if dictionary.is_barred(found.target.named) {
        return Err(refused_at(name, PolicyKind::NotWritable));
    }
    if let Some(other) = alike_alone(dictionary, found, at.token()) {
        let cond = instance_related(dictionary, found, relation, other);
        return Ok((cond, at.after()));
    }
    if is_beside_texts(dictionary, found.target.named.id) {
        instance_beside(alloc, dictionary, found, relation, at)
    } else {
        Err(at.refused(PolicyKind::OtherType))
    }
}

// The comparison of a reference, which begins here, with a value that follows the operator.
#[inline(always)]
fn value_related<'a>(
    alloc: Global,
    profile: Profile,
    dictionary: &Dictionary,
    found: Reference,
    relation: Relation,
    name: Position,
    at: &Cursor<'a>,
) -> Read<'a, Cond>
    ensures read { Reads (ValueRelated profile dictionary.now found relation at.now) result }
    ensures refused { IfErr result (Tells
        (ValueRelatedFails profile dictionary.now found.target name.left at.now)) }
    ensures shorter { IfOk result (λ x. length x.1.text ≤ length at.now.text) }
{
    if is_by_meaning(profile, dictionary, found.target.named.id) {
        related_by_meaning(alloc, dictionary, found, relation, name, at)
    } else {
        related_by_type(alloc, profile, dictionary, found, relation, name, at)
    }
}

// Whether a wider policy has a text there that puts something in.
fn is_text_beside(profile: Profile, token: &Token) -> bool
    ensures { result ≡ is_text_beside profile token.now }
{
    profile == Profile::Wider && puts_in(token)
}

// The comparison of a reference, which begins here: what follows the operator.
#[inline(always)]
fn related<'a>(
    alloc: Global,
    profile: Profile,
    dictionary: &Dictionary,
    found: Reference,
    relation: Relation,
    name: Position,
    at: &Cursor<'a>,
) -> Read<'a, Cond>
    ensures read { Reads (RelatedIs profile dictionary.now found relation at.now) result }
    ensures refused { IfErr result (Tells
        (RelatedFails profile dictionary.now found name.left at.now)) }
    ensures shorter { IfOk result (λ x. length x.1.text ≤ length at.now.text) }
{
    if is_text_beside(profile, at.token()) {
        related_to_text(alloc, dictionary, found, relation, name, at)
    } else {
        value_related(alloc, profile, dictionary, found, relation, name, at)
    }
}

// A reference by itself.
#[inline(always)]
fn present_of(dictionary: &Dictionary, found: Reference) -> Cond
    ensures { result ≡ present_of dictionary.now found found.target.tag }
{
    let id = found.target.named.id;
    match found.target.tag {
        None => Cond::Present(found.list, id),
        Some(_) => {
            let selection = selection_of(dictionary, found.target);
            Cond::PresentSelected(found.list, id, selection)
        }
    }
}

// What follows a reference that begins here: nothing of the operand, or a comparison.
#[inline(always)]
fn compared<'a>(
    alloc: Global,
    profile: Profile,
    dictionary: &Dictionary,
    found: Reference,
    name: Position,
    at: Cursor<'a>,
) -> Read<'a, Cond>
    ensures read { Reads (ComparedIs profile dictionary.now found at.entry) result }
    ensures refused { IfErr result (Tells
        (ComparedFails profile dictionary.now found name.left at.entry)) }
    ensures shorter { IfOk result (λ x. length x.1.text ≤ length at.entry.text) }
{
    if let Some(matcher) = matcher_in(profile, at.token()) {
        return matched(
            alloc,
            dictionary,
            found,
            &matcher,
            at.position(),
            at.after(),
        );
    }
    let Some(relation) = relation_of(at.token()) else {
        return Ok((present_of(dictionary, found), at));
    };
    let after = at.after();
    related(alloc, profile, dictionary, found, relation, name, &after)
}

// The operand after an `&`.
#[inline(always)]
pub(crate) fn referred_operand<'a>(
    alloc: Global,
    profile: Profile,
    dictionary: &Dictionary,
    at: &Cursor<'a>,
) -> Read<'a, Cond>
    ensures read { Reads (ReferredIs profile dictionary.now at.now) result }
    ensures refused { IfErr result (Tells (ReferredFails profile dictionary.now at.now)) }
    ensures shorter { IfOk result (λ x. length x.1.text ≤ length at.now.text) }
{
    let (found, mid) = referred(profile, dictionary, at)?;
    compared(alloc, profile, dictionary, found, at.position(), mid)
}

// The operand of a word, which begins here and is the token before this place.
#[inline(always)]
pub(crate) fn worded_operand<'a>(
    alloc: Global,
    profile: Profile,
    dictionary: &Dictionary,
    word: &[u8],
    name: Position,
    at: Cursor<'a>,
) -> Read<'a, Cond>
    ensures read { Reads (WordFrom profile dictionary.now (code_named word.now) word.now at.entry)
        result }
    ensures refused { IfErr result (Tells (WordFailsFrom profile dictionary.now
        (code_named word.now) word.now name.left at.entry)) }
    ensures shorter { IfOk result (λ x. length x.1.text ≤ length at.entry.text) }
{
    if let Some(code) = code_named(word) {
        return Ok((Cond::Last(code), at));
    }
    match readable(profile, dictionary, word) {
        Err(kind) => Err(refused_at(name, kind)),
        Ok(found) => compared(alloc, profile, dictionary, found, name, at),
    }
}

fn is_text(token: &Token) -> bool
    ensures { result ≡ is_text token.now }
{
    matches!(token, Token::Word(_) | Token::Quoted(_, _))
}

// What a text is alone beside a token, which may put nothing in.
fn alone_beside(alone: Option<Reference>, token: &Token) -> Option<Reference>
    ensures found { IfSome result (λ found. (alone ≡ Some found) × (puts_in token.now ≡ false)) }
    ensures none { IfNone result ((found : TheReference) → alone ≡ Some found
        → puts_in token.now ≡ true) }
{
    if puts_in(token) { None } else { alone }
}

// The comparison of a text that begins here: what follows the operator. One reference alone, beside a text that puts
// nothing in, is that reference.
fn text_related<'a>(
    alloc: Global,
    dictionary: &Dictionary,
    alone: Option<Reference>,
    parts: Parts,
    relation: Relation,
    begin: Position,
    at: &Cursor<'a>,
) -> Read<'a, Cond>
    ensures read { Reads (TextRelated dictionary.now alone parts relation at.now) result }
    ensures refused { IfErr result (Tells
        (TextRelatedFails dictionary.now alone begin.left at.now)) }
    ensures shorter { IfOk result (λ x. length x.1.text ≤ length at.now.text) }
{
    if !is_text(at.token()) {
        return Err(at.unfit());
    }
    match alone_beside(alone, at.token()) {
        Some(found) => value_related(
            alloc,
            Profile::Wider,
            dictionary,
            found,
            relation,
            begin,
            at,
        ),
        None => texts_compared(alloc, dictionary, parts, relation, at),
    }
}

// The group that a text is, between double quotes.
fn group_alone(mark: QuoteMark, text: &Excerpt) -> Option<u8>
    ensures { result ≡ group_alone mark text.now }
{
    match mark {
        QuoteMark::Double => group_in(Profile::Wider, text),
        QuoteMark::Single => None,
    }
}

// The operand of a text, which begins here and is the token before this place, in a wider policy.
fn text_operand<'a>(
    alloc: Global,
    dictionary: &Dictionary,
    mark: QuoteMark,
    text: &Excerpt,
    begin: Position,
    after: Cursor<'a>,
) -> Read<'a, Cond>
    ensures read { Reads (TextOperand Wider dictionary.now mark text.now after.entry) result }
    ensures refused { IfErr result (Tells
        (TextOperandFails Wider dictionary.now mark text.now begin.left after.entry)) }
    ensures shorter { IfOk result (λ x. length x.1.text ≤ length after.entry.text) }
{
    if let Some(matcher) = matcher_in(Profile::Wider, after.token()) {
        let parts = quoted_parts(alloc, dictionary, mark, text, begin)?;
        return text_matched(
            alloc,
            parts.as_slice(),
            &matcher,
            after.position(),
            after.after(),
        );
    }
    if let Some(relation) = relation_of(after.token()) {
        let parts = quoted_parts(alloc, dictionary, mark, text, begin)?;
        let alone = text_alone(dictionary, mark, text);
        return text_related(
            alloc,
            dictionary,
            alone,
            parts,
            relation,
            begin,
            &after.after(),
        );
    }
    if let Some(group) = group_alone(mark, text) {
        return Ok((Cond::Captured(group), after));
    }
    quoted_parts(alloc, dictionary, mark, text, begin)?;
    Err(after.unfit())
}

// The operand of a text, which begins here and is the token before this place.
pub(crate) fn quoted_operand<'a>(
    alloc: Global,
    profile: Profile,
    dictionary: &Dictionary,
    mark: QuoteMark,
    text: &Excerpt,
    begin: Position,
    after: Cursor<'a>,
) -> Read<'a, Cond>
    ensures read { Reads (TextOperand profile dictionary.now mark text.now after.entry) result }
    ensures refused { IfErr result (Tells
        (TextOperandFails profile dictionary.now mark text.now begin.left after.entry)) }
    ensures shorter { IfOk result (λ x. length x.1.text ≤ length after.entry.text) }
{
    match profile {
        Profile::Plain => Err(refused_at(begin, PolicyKind::Misplaced)),
        Profile::Wider => text_operand(alloc, dictionary, mark, text, begin, after),
    }
}
