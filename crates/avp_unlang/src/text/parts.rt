//! Texts between double quotes into which values are put.

ghost use Rattle.std.specs.Prelude.{◌≡◌, ◌<◌, ℕ, List as TheList, length, IfErr, IfOk, IfSome, IsTrue, OnErr, None, Some};
ghost use Rattle.avp_unlang.specs.Forms.{Reads, ReadsAll, While};
ghost use Rattle.avp_unlang.specs.RefusedForms.{Tells, WhileFails};
ghost use Rattle.avp_unlang.specs.RefusedLines.{PartFails, expansion_refusal, part_refusal};
ghost use Rattle.avp_unlang.specs.declared.tree.Part.{Part as ThePart};
ghost use Rattle.avp_unlang.specs.Parts.{ExpansionIs, OctetIs, PartIs, PartsAre, after_opening, begins_octet, braced, group_in, group_named, is_left, octet_at, only_word, part_named, part_of};

use crate::faults::{PolicyKind, Position, Refusal, refused_at};
use crate::items::Items;
use crate::text::references::{Reference, readable};
use crate::text::selecting::selection_of;
use crate::text::tokens::{Excerpt, word_length};
use crate::tree::{Part, Parts};
use avp_dict::{Dictionary, double_escape};
use avp_forms::Profile;
use avp_lists::Octets;
use std::alloc::{AllocError, Global};

// The octet that a text begins with, and the text after it; none at the end and at a `%` that is not followed by another.
#[tactic(auto, unfolding(crate::specs::Parts::octet_at))]
fn octet_at<'a>(text: &Excerpt<'a>) -> Option<(u8, Excerpt<'a>)>
    ensures same { result ≡ octet_at text.now }
    ensures shorter { IfSome result (λ x. length x.1 < length text.now) }
{
    match text.as_slice() {
        [] => None,
        [b'\\', rest @ ..] => {
            let escape = double_escape(rest);
            Some((escape.octet, Excerpt::new(&rest[escape.taken..])))
        }
        [b'%', b'%', rest @ ..] => Some((b'%', Excerpt::new(rest))),
        [b'%', ..] => None,
        [octet, rest @ ..] => Some((*octet, Excerpt::new(rest))),
    }
}

fn begins_octet(text: &Excerpt) -> bool
    ensures { result ≡ begins_octet text.now }
{
    octet_at(text).is_some()
}

// The octets that a text begins with, up to an expansion, and the text after them.
fn octets<'a>(alloc: Global, text: Excerpt<'a>) -> Result<(Octets, Excerpt<'a>), AllocError>
    ensures read { IfOk result (λ x. While begins_octet OctetIs text.entry x.0 x.1) }
    ensures shorter { IfOk result (λ x. IsTrue (begins_octet text.entry)
        → length x.1 < length text.entry) }
{
    let mut octets = Vec::new(alloc);
    let mut rest = text;
    while let Some((found, after)) = octet_at(&rest) {
        octets.push(found)?;
        rest = after;
    }
    Ok((Octets::from_vec(octets), rest))
}

// The text after a `%{`.
fn after_opening<'a>(text: &Excerpt<'a>) -> Option<Excerpt<'a>>
    ensures same { result ≡ after_opening text.now }
    ensures shorter { IfSome result (λ rest. length rest < length text.now) }
{
    match text.as_slice() {
        [b'%', b'{', rest @ ..] => Some(Excerpt::new(rest)),
        _ => None,
    }
}

// The word that a text begins with, and the text after it and a `}`.
fn braced<'a>(text: &Excerpt<'a>) -> Option<(Excerpt<'a>, Excerpt<'a>)>
    ensures same { result ≡ braced text.now }
    ensures shorter { IfSome result (λ x. length x.1 < length text.now) }
{
    let (word, after) = text.as_slice().split_at(word_length(text.as_slice()));
    match after {
        [b'}', rest @ ..] if !word.is_empty() => Some((Excerpt::new(word), Excerpt::new(rest))),
        _ => None,
    }
}

// A group of what was captured, by its digit; a plain policy has none.
#[tactic(auto, unfolding(crate::specs::Parts::group_named))]
fn group_named(profile: Profile, word: &[u8]) -> Option<u8>
    ensures { result ≡ group_named profile word.now }
{
    match (profile, word) {
        (Profile::Wider, [digit]) if digit.is_ascii_digit() => Some(*digit - b'0'),
        _ => None,
    }
}

/// The word that a whole text has between `%{` and `}`, which is no group.
#[tactic(auto, unfolding(crate::specs::Parts::only_word))]
pub(crate) fn only_word<'a>(text: &Excerpt<'a>) -> Option<Excerpt<'a>>
    ensures { result ≡ only_word text.now }
{
    let inner = after_opening(text)?;
    match braced(&inner) {
        Some((word, rest))
            if !is_left(&rest) && group_named(Profile::Wider, word.as_slice()).is_none() => {
            Some(word)
        }
        _ => None,
    }
}

/// The group that a whole text puts in.
#[tactic(auto, unfolding(crate::specs::Parts::group_in))]
pub(crate) fn group_in(profile: Profile, text: &Excerpt) -> Option<u8>
    ensures { result ≡ group_in profile text.now }
{
    let inner = after_opening(text)?;
    match braced(&inner) {
        Some((word, rest)) if !is_left(&rest) => group_named(profile, word.as_slice()),
        _ => None,
    }
}

// The part for a value that is put in.
#[inline(always)]
fn part_of(profile: Profile, dictionary: &Dictionary, found: Reference) -> Part
    ensures { result ≡ part_of profile dictionary.now found }
{
    let id = found.target.named.id;
    match profile {
        Profile::Plain => Part::Instance(found.list, id),
        Profile::Wider => Part::Meant(found.list, id, selection_of(dictionary, found.target)),
    }
}

// What a word stands for.
fn part_named(profile: Profile, dictionary: &Dictionary, word: &[u8]) -> Result<Part, PolicyKind>
    ensures ok { IfOk result (λ part. part_named profile dictionary.now word.now ≡ Some part) }
    ensures err { OnErr result (part_named profile dictionary.now word.now ≡ None) }
    ensures refused { IfErr result (λ kind. part_refusal profile dictionary.now word.now
        ≡ Some kind) }
{
    if let Some(group) = group_named(profile, word) {
        return Ok(Part::Capture(group));
    }
    let found = readable(profile, dictionary, word)?;
    Ok(part_of(profile, dictionary, found))
}

// What is put in by an expansion, and the text after it.
fn expansion<'a>(
    profile: Profile,
    dictionary: &Dictionary,
    text: &Excerpt<'a>,
) -> Result<(Part, Excerpt<'a>), PolicyKind>
    ensures ok { IfOk result (λ x. ExpansionIs profile dictionary.now text.now x.0 x.1) }
    ensures err { OnErr result ((part : ThePart) (rest : TheList ℕ)
        → ExpansionIs profile dictionary.now text.now part rest → ⊥) }
    ensures refused { IfErr result (λ kind. expansion_refusal profile dictionary.now text.now
        ≡ Some kind) }
    ensures shorter { IfOk result (λ x. length x.1 < length text.now) }
{
    let Some(inner) = after_opening(text) else {
        return Err(PolicyKind::Unreadable);
    };
    let Some((word, rest)) = braced(&inner) else {
        return Err(PolicyKind::Unreadable);
    };
    let found = part_named(profile, dictionary, word.as_slice())?;
    Ok((found, rest))
}

// The part that a text begins with, and the text after it.
fn part<'a>(
    alloc: Global,
    profile: Profile,
    dictionary: &Dictionary,
    text: Excerpt<'a>,
    quoted: Position,
) -> Result<(Part, Excerpt<'a>), Refusal>
    ensures read { Reads (PartIs profile dictionary.now text.entry) result }
    ensures refused { IfErr result (Tells
        (PartFails profile dictionary.now quoted.left text.entry)) }
    ensures shorter { IfOk result (λ x. length x.1 < length text.entry) }
{
    if begins_octet(&text) {
        let (octets, rest) = octets(alloc, text)?;
        return Ok((Part::Text(octets), rest));
    }
    match expansion(profile, dictionary, &text) {
        Ok((part, rest)) => Ok((part, rest)),
        Err(kind) => Err(refused_at(quoted, kind)),
    }
}

fn is_left(text: &Excerpt) -> bool
    ensures { result ≡ is_left text.now }
{
    !text.as_slice().is_empty()
}

/// The parts of a text between double quotes, which begins here.
pub(crate) fn parts(
    alloc: Global,
    profile: Profile,
    dictionary: &Dictionary,
    text: Excerpt,
    quoted: Position,
) -> Result<Parts, Refusal>
    ensures read { ReadsAll (PartsAre profile dictionary.now text.entry) result }
    ensures refused { IfErr result (Tells (WhileFails is_left (PartIs profile dictionary.now)
        (PartFails profile dictionary.now quoted.left) text.entry)) }
{
    let mut parts = Vec::new(alloc);
    let mut rest = text;
    while is_left(&rest) {
        let (found, end) = part(alloc, profile, dictionary, rest, quoted)?;
        parts.push(found)?;
        rest = end;
    }
    Ok(Items::from_vec(parts))
}
