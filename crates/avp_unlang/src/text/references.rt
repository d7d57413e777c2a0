//! What words refer to.

ghost use Rattle.std.specs.Prelude.{◌≡◌, ◌<◌, ◌∷◌, ℕ, List as TheList, length, Some, None, IfErr, IfOk, IsTrue, OnErr};
ghost use Rattle.avp_lists.specs.declared.lists.List.{List as Name};
ghost use Rattle.avp_unlang.specs.Forms.{Reads};
ghost use Rattle.avp_unlang.specs.RefusedForms.{Tells};
ghost use Rattle.avp_unlang.specs.RefusedValues.{AlikeFails, ReadableFails, reference_refusal};
ghost use Rattle.avp_unlang.specs.References.{AlikeIs, ReadableIs, list_named, readable, reference_in, target_in, type_of};

use crate::faults::PolicyKind;
use crate::text::cursors::{Cursor, Read};
use crate::text::tokens::{Token, front};
use avp_dict::{Dictionary, Kind, is_container};
use avp_forms::{Profile, Target, target_of};
use avp_lists::{AttrId, List};

/// What a word refers to: a list, and what the name of an attribute stands for, with its tag.
#[derive(Clone, Copy)]
pub(crate) struct Reference {
    pub list: List,
    pub target: Target,
}

#[tactic(auto, unfolding(crate::specs::References::list_named))]
#[inline(always)]
pub(crate) fn list_named(word: &[u8]) -> Option<List>
    ensures { result ≡ list_named word.now }
{
    if word == b"request".as_slice() {
        Some(List::Request)
    } else if word == b"reply".as_slice() {
        Some(List::Reply)
    } else if word == b"control".as_slice() {
        Some(List::Control)
    } else {
        None
    }
}

// Whether the name of no list begins with this octet.
#[inline(always)]
#[tactic(auto, unfolding(crate::specs::References::target_in))]
fn begins_no_list(octet: u8) -> bool
    ensures { IsTrue result → (own : Name) (rest : TheList ℕ)
        → target_in own (octet ∷ rest) ≡ (own, octet ∷ rest) }
{
    !matches!(octet, b'r' | b'c')
}

// The list and the name of a word that may begin with a list's.
#[tactic(auto, unfolding(crate::specs::References::target_in))]
fn listed_in(own: List, word: &[u8]) -> (List, &[u8])
    ensures { (result.0, result.1.now) ≡ target_in own word.now }
{
    if let Some(name) = word.strip_prefix(b"request:") {
        (List::Request, name)
    } else if let Some(name) = word.strip_prefix(b"reply:") {
        (List::Reply, name)
    } else if let Some(name) = word.strip_prefix(b"control:") {
        (List::Control, name)
    } else {
        (own, word)
    }
}

// The list and the name of a word; a name alone is of the list at hand.
#[inline(always)]
fn target_in(own: List, word: &[u8]) -> (List, &[u8])
    ensures { (result.0, result.1.now) ≡ target_in own word.now }
{
    match front(word) {
        Some((first, _)) if begins_no_list(first) => (own, word),
        _ => listed_in(own, word),
    }
}

/// What a word refers to; a name alone is of the list at hand.
#[tactic(auto, unfolding(crate::specs::References::reference_in))]
#[inline(always)]
pub(crate) fn reference_in(
    profile: Profile,
    dictionary: &Dictionary,
    own: List,
    word: &[u8],
) -> Option<Reference>
    ensures { result ≡ reference_in profile dictionary.now own word.now }
{
    let (list, name) = target_in(own, word);
    let target = target_of(dictionary, profile, name)?;
    Some(Reference { list, target })
}

/// What a word refers to, where its values may be looked at; a name alone is of the request.
#[tactic(auto, unfolding(crate::specs::References::readable, crate::specs::RefusedValues::reference_refusal))]
#[inline(always)]
pub(crate) fn readable(
    profile: Profile,
    dictionary: &Dictionary,
    word: &[u8],
) -> Result<Reference, PolicyKind>
    ensures ok { IfOk result (λ found. readable profile dictionary.now word.now ≡ Some found) }
    ensures err { OnErr result (readable profile dictionary.now word.now ≡ None) }
    ensures refused { IfErr result (λ kind. reference_refusal profile dictionary.now word.now
        ≡ Some kind) }
{
    match reference_in(profile, dictionary, List::Request, word) {
        None => Err(PolicyKind::Unknown),
        Some(found) => {
            if is_container(found.target.named.id) {
                Err(PolicyKind::NotWritable)
            } else {
                Ok(found)
            }
        }
    }
}

/// The reference after an `&`.
#[inline(always)]
pub(crate) fn referred<'a>(
    profile: Profile,
    dictionary: &Dictionary,
    at: &Cursor<'a>,
) -> Read<'a, Reference>
    ensures read { Reads (ReadableIs profile dictionary.now at.now) result }
    ensures refused { IfErr result (Tells (ReadableFails profile dictionary.now at.now)) }
    ensures shorter { IfOk result (λ x. length x.1.text < length at.now.text) }
{
    let (token, after) = at.next();
    match &token {
        Token::Word(word) => match readable(profile, dictionary, word.as_slice()) {
            Ok(found) => Ok((found, after)),
            Err(kind) => Err(at.refused(kind)),
        },
        _ => Err(at.unfit()),
    }
}

/// The type of an attribute's values; octets where the dictionary has none.
pub(crate) fn type_of(dictionary: &Dictionary, id: AttrId) -> Kind
    ensures { result ≡ type_of dictionary.now id }
{
    match dictionary.by_id(id) {
        None => Kind::Bytes,
        Some(entry) => entry.kind,
    }
}

/// The reference after an `&` to values of the same type as this attribute's.
pub(crate) fn alike<'a>(
    profile: Profile,
    dictionary: &Dictionary,
    id: AttrId,
    at: &Cursor<'a>,
) -> Read<'a, Reference>
    ensures read { Reads (AlikeIs profile dictionary.now id at.now) result }
    ensures refused { IfErr result (Tells (AlikeFails profile dictionary.now id at.now)) }
    ensures shorter { IfOk result (λ x. length x.1.text < length at.now.text) }
{
    let (found, after) = referred(profile, dictionary, at)?;
    if type_of(dictionary, id) != type_of(dictionary, found.target.named.id) {
        return Err(at.refused(PolicyKind::OtherType));
    }
    Ok((found, after))
}
