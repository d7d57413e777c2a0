//! Texts in the conditions of wider policies.

ghost use Rattle.std.specs.Prelude.{◌≡◌, ◌≢◌, ◌≤◌, length, IfErr, IfOk};
ghost use Rattle.avp_patterns.specs.Patterns.{IsPattern};
ghost use Rattle.avp_unlang.specs.Conditions.{QuotedParts, RightIs, TextMatched, TextsBy, group_matching, has_expansion, only_reference, pattern_of, plain_parts, puts_in, side_of, text_matching};
ghost use Rattle.avp_unlang.specs.Forms.{Reads, ReadsAll};
ghost use Rattle.avp_unlang.specs.RefusedConditions.{IsPatternFault, QuotedPartsFail, RightFails, TextMatchedFails};
ghost use Rattle.avp_unlang.specs.RefusedForms.{Tells};
ghost use Rattle.avp_unlang.specs.declared.faults.PolicyKind.TheVariants.{Memory};
ghost use Rattle.avp_unlang.specs.declared.tree.TextSide.TheVariants as side;

use crate::faults::{PolicyKind, Position, Refusal, refused_at};
use crate::items::Items;
use crate::text::cursors::{Cursor, Read};
use crate::text::operands::has_expansion;
use crate::text::parts::{only_word, parts};
use crate::text::patterns::pattern_text;
use crate::text::references::{Reference, readable};
use crate::text::selecting::selection_of;
use crate::text::tokens::{Excerpt, Matcher, Token};
use crate::tree::{Cond, GroupMatching, Matching, Part, Parts, Relation, TextComparison, TextSide};
use avp_dict::{Dictionary, QuoteMark, octets_between};
use avp_forms::Profile;
use avp_lists::{AttrId, List, Octets, Selection};
use std::alloc::{AllocError, Global};

// Octets as they are; no part where there are none.
fn plain_parts(alloc: Global, octets: Vec<u8>) -> Result<Parts, AllocError>
    ensures { IfOk result (λ parts. parts ≡ plain_parts octets.items) }
{
    let mut parts = Vec::new(alloc);
    if 0 < octets.len() {
        parts.push(Part::Text(Octets::from_vec(octets)))?;
    }
    Ok(Items::from_vec(parts))
}

/// The parts of a text between quotes, which begins here.
pub(crate) fn quoted_parts(
    alloc: Global,
    dictionary: &Dictionary,
    mark: QuoteMark,
    text: &Excerpt,
    begin: Position,
) -> Result<Parts, Refusal>
    ensures read { ReadsAll (QuotedParts dictionary.now mark text.now) result }
    ensures refused { IfErr result (Tells
        (QuotedPartsFail dictionary.now begin.left mark text.now)) }
{
    match mark {
        QuoteMark::Double => parts(alloc, Profile::Wider, dictionary, text.copy(), begin),
        QuoteMark::Single => {
            let octets = octets_between(alloc, mark, text.as_slice())?;
            Ok(plain_parts(alloc, octets)?)
        }
    }
}

/// Whether a token is a text that puts something in.
pub(crate) fn puts_in(token: &Token) -> bool
    ensures { result ≡ puts_in token.now }
{
    match token {
        Token::Quoted(QuoteMark::Double, text) => has_expansion(text.as_slice()),
        _ => false,
    }
}

/// What a text refers to that is one reference alone.
#[tactic(auto, unfolding(crate::specs::Conditions::only_reference))]
pub(crate) fn only_reference(dictionary: &Dictionary, text: &Excerpt) -> Option<Reference>
    ensures { result ≡ only_reference dictionary.now text.now }
{
    let word = only_word(text)?;
    match readable(Profile::Wider, dictionary, word.as_slice()) {
        Ok(found) => Some(found),
        Err(_) => None,
    }
}

// The text on the right side of a comparison.
fn right_parts<'a>(alloc: Global, dictionary: &Dictionary, at: &Cursor<'a>) -> Read<'a, Parts>
    ensures read { Reads (RightIs dictionary.now at.now) result }
    ensures refused { IfErr result (Tells (RightFails dictionary.now at.now)) }
    ensures shorter { IfOk result (λ x. length x.1.text ≤ length at.now.text) }
{
    let (token, after) = at.next();
    match token {
        Token::Word(word) => {
            let octets = Vec::from_slice(alloc, word.as_slice())?;
            Ok((plain_parts(alloc, octets)?, after))
        }
        Token::Quoted(mark, text) => {
            let parts = quoted_parts(alloc, dictionary, mark, &text, at.position())?;
            Ok((parts, after))
        }
        _ => Err(at.unfit()),
    }
}

/// The comparison of a text with the one that begins here.
pub(crate) fn texts_compared<'a>(
    alloc: Global,
    dictionary: &Dictionary,
    left: Parts,
    relation: Relation,
    at: &Cursor<'a>,
) -> Read<'a, Cond>
    ensures read { Reads (TextsBy dictionary.now (side.Text left) relation at.now) result }
    ensures refused { IfErr result (Tells (RightFails dictionary.now at.now)) }
    ensures shorter { IfOk result (λ x. length x.1.text ≤ length at.now.text) }
{
    let (right, rest) = right_parts(alloc, dictionary, at)?;
    let comparison = TextComparison {
        left: TextSide::Text(left),
        relation,
        right,
    };
    Ok((Cond::CompareTexts(comparison), rest))
}

/// The comparison of the values of a reference, octet by octet, with the text that begins here.
pub(crate) fn instance_beside<'a>(
    alloc: Global,
    dictionary: &Dictionary,
    found: Reference,
    relation: Relation,
    at: &Cursor<'a>,
) -> Read<'a, Cond>
    ensures read { Reads (TextsBy dictionary.now (side_of dictionary.now found) relation at.now)
        result }
    ensures refused { IfErr result (Tells (RightFails dictionary.now at.now)) }
    ensures shorter { IfOk result (λ x. length x.1.text ≤ length at.now.text) }
{
    let (right, rest) = right_parts(alloc, dictionary, at)?;
    let left = TextSide::Instance(
        found.list,
        found.target.named.id,
        selection_of(dictionary, found.target),
    );
    let comparison = TextComparison {
        left,
        relation,
        right,
    };
    Ok((Cond::CompareTexts(comparison), rest))
}

// The comparison of the text of an instance with the pattern of a token that begins here.
fn text_matching(
    alloc: Global,
    instance: (List, AttrId, Selection),
    matcher: &Matcher,
    position: Position,
) -> Result<Matching, Refusal>
    ensures ok { IfOk result (λ matching. IsPattern (pattern_of matcher.now)
        × (matching ≡ text_matching matcher.now instance.0 instance.1 instance.2)) }
    ensures err { IfErr result (λ refusal. refusal.kind ≢ Memory
        → IsPattern (pattern_of matcher.now) → ⊥) }
    ensures refused { IfErr result (λ refusal. refusal.kind ≢ Memory
        → (refusal.left ≡ position.left) × IsPatternFault (pattern_of matcher.now) refusal.kind) }
{
    let text = pattern_text(alloc, matcher, position)?;
    let (list, id, selection) = instance;
    Ok(Matching {
        list,
        id,
        selection,
        negated: matcher.negated,
        pattern: Octets::from_vec(text),
        flags: matcher.flags,
    })
}

// The comparison of a group with it.
fn group_matching(
    alloc: Global,
    group: u8,
    matcher: &Matcher,
    position: Position,
) -> Result<GroupMatching, Refusal>
    ensures ok { IfOk result (λ matching. IsPattern (pattern_of matcher.now)
        × (matching ≡ group_matching matcher.now group)) }
    ensures err { IfErr result (λ refusal. refusal.kind ≢ Memory
        → IsPattern (pattern_of matcher.now) → ⊥) }
    ensures refused { IfErr result (λ refusal. refusal.kind ≢ Memory
        → (refusal.left ≡ position.left) × IsPatternFault (pattern_of matcher.now) refusal.kind) }
{
    let text = pattern_text(alloc, matcher, position)?;
    Ok(GroupMatching {
        group,
        negated: matcher.negated,
        pattern: Octets::from_vec(text),
        flags: matcher.flags,
    })
}

/// The comparison of a text with the pattern of a token that begins here, before this place.
pub(crate) fn text_matched<'a>(
    alloc: Global,
    parts: &[Part],
    matcher: &Matcher,
    position: Position,
    after: Cursor<'a>,
) -> Read<'a, Cond>
    ensures read { Reads (TextMatched matcher.now parts.now after.entry) result }
    ensures refused { IfErr result (Tells
        (TextMatchedFails matcher.now position.left parts.now after.entry)) }
    ensures shorter { IfOk result (λ x. length x.1.text ≤ length after.entry.text) }
{
    match parts {
        [Part::Meant(list, id, selection)] => {
            let instance = (*list, *id, *selection);
            let matching = text_matching(alloc, instance, matcher, position)?;
            Ok((Cond::MatchText(matching), after))
        }
        [Part::Capture(group)] => {
            let matching = group_matching(alloc, *group, matcher, position)?;
            Ok((Cond::MatchGroup(matching), after))
        }
        _ => Err(refused_at(position, PolicyKind::NotExpansion)),
    }
}
