//! Comparisons with patterns, of wider policies.

ghost use Rattle.std.specs.Prelude.{◌≡◌, ◌≢◌, ◌≤◌, ◌<◌, ◌++◌, [], length, IfErr, IfOk, IfSome, MatchOption};
ghost use Rattle.avp_patterns.specs.Patterns.{IsPattern};
ghost use Rattle.avp_unlang.specs.Conditions.{MatchedBy, matcher_in, pattern_of, unslashed};
ghost use Rattle.avp_unlang.specs.Forms.{Reads};
ghost use Rattle.avp_unlang.specs.RefusedConditions.{IsPatternFault, MatchedFails};
ghost use Rattle.avp_unlang.specs.RefusedForms.{Tells};
ghost use Rattle.avp_patterns.specs.declared.faults.PatternFault.TheVariants as faults;
ghost use Rattle.avp_unlang.specs.declared.faults.PolicyKind.TheVariants.{Memory, Pattern};

use crate::faults::{PolicyKind, Position, Refusal, refused_at};
use crate::text::cursors::{Cursor, Read};
use crate::text::references::Reference;
use crate::text::selecting::selection_of;
use crate::text::tokens::{Matcher, Token};
use crate::tree::{Cond, Matching};
use avp_dict::Dictionary;
use avp_forms::Profile;
use avp_lists::Octets;
use avp_patterns::{PatternFault, check_pattern};
use std::alloc::{AllocError, Global};

// The first octets of a pattern that a text stands for, and the text after what stands for them.
fn first_octets(text: &[u8]) -> Option<(&[u8], &[u8])>
    ensures read { MatchOption result (text.now ≡ [])
        (λ x. unslashed text.now ≡ x.0.now ++ unslashed x.1.now) }
    ensures shorter { IfSome result (λ x. length x.1.now < length text.now) }
{
    match text {
        [] => None,
        [b'\\', b'/', rest @ ..] => Some((&text[1..2], rest)),
        [b'\\', _, rest @ ..] => Some((&text[..2], rest)),
        [_, rest @ ..] => Some((&text[..1], rest)),
    }
}

pub(crate) fn unslashed(alloc: Global, text: &[u8]) -> Result<Vec<u8>, AllocError>
    ensures { IfOk result (λ octets. octets.items ≡ unslashed text.now) }
{
    let mut octets = Vec::new(alloc);
    let mut rest = text;
    while let Some((some, after)) = first_octets(rest) {
        octets.extend_from_slice(some)?;
        rest = after;
    }
    Ok(octets)
}

fn pattern_refusal(fault: PatternFault, position: Position) -> Refusal
    ensures memory { fault ≡ faults.Memory → result.kind ≡ Memory }
    ensures other { fault ≢ faults.Memory
        → (result.left ≡ position.left) × (result.kind ≡ Pattern fault) }
{
    match fault {
        PatternFault::Memory => Refusal::OUT_OF_MEMORY,
        other => refused_at(position, PolicyKind::Pattern(other)),
    }
}

#[inline(always)]
pub(crate) fn matcher_in<'a>(profile: Profile, token: &Token<'a>) -> Option<Matcher<'a>>
    ensures { result ≡ matcher_in profile token.now }
{
    match (profile, token) {
        (Profile::Wider, Token::Matching(matcher)) => Some(matcher.copy()),
        _ => None,
    }
}

// The text of a pattern, if it is one under its flags. A refusal is at the token that begins here.
pub(crate) fn pattern_text(
    alloc: Global,
    matcher: &Matcher,
    position: Position,
) -> Result<Vec<u8>, Refusal>
    ensures ok { IfOk result (λ text. IsPattern (pattern_of matcher.now)
        × (text.items ≡ unslashed matcher.now.pattern)) }
    ensures err { IfErr result (λ refusal. refusal.kind ≢ Memory
        → IsPattern (pattern_of matcher.now) → ⊥) }
    ensures refused { IfErr result (λ refusal. refusal.kind ≢ Memory
        → (refusal.left ≡ position.left)
        × IsPatternFault (pattern_of matcher.now) refusal.kind) }
{
    let text = unslashed(alloc, matcher.pattern.as_slice())?;
    match check_pattern(alloc, &text, matcher.flags) {
        Ok(()) => Ok(text),
        Err(fault) => Err(pattern_refusal(fault, position)),
    }
}

/// The comparison of a reference with the pattern of a token that begins here, before this place.
pub(crate) fn matched<'a>(
    alloc: Global,
    dictionary: &Dictionary,
    found: Reference,
    matcher: &Matcher,
    position: Position,
    after: Cursor<'a>,
) -> Read<'a, Cond>
    ensures read { Reads (MatchedBy dictionary.now found matcher.now after.entry) result }
    ensures refused { IfErr result (Tells
        (MatchedFails matcher.now position.left after.entry)) }
    ensures shorter { IfOk result (λ x. length x.1.text ≤ length after.entry.text) }
{
    let text = pattern_text(alloc, matcher, position)?;
    let matching = Matching {
        list: found.list,
        id: found.target.named.id,
        selection: selection_of(dictionary, found.target),
        negated: matcher.negated,
        pattern: Octets::from_vec(text),
        flags: matcher.flags,
    };
    Ok((Cond::Match(matching), after))
}
