//! Words without `&` and without quotes that stand for an attribute on a server. A tree does not tell them from quoted
//! texts, so they are looked for among the tokens of the text.

ghost use Rattle.std.specs.Prelude.{◌≡◌, ◌+◌, ◌<◌, ◌≤◌, ◌^◌, false, length, map, option_map, IfOk};
ghost use Rattle.avp_unlang.specs.Faults.{from_token};
ghost use Rattle.avp_unlang.specs.Tokens.{skipped};
ghost use Rattle.policy_warnings.specs.BareNames.{after_folded, after_one_of, bare_names, is_bare_name, list_fronts, names_attribute, request_fronts, takes_value};

use crate::warnings::{Reason, Warning, push_if};
use avp_dict::{Dictionary, line_after, same_name};
use avp_forms::{Profile, profile_of, target_of};
use avp_unlang::{Sign, Token, first_token};
use std::alloc::{AllocError, Global};

/// What names of attributes begin with on a server that are of another request.
pub const REQUEST_FRONTS: [&str; 3] = ["outer.", "current.", "parent."];

/// What they begin with, behind that, that are of one of a server's lists.
pub const LIST_FRONTS: [&str; 11] = [
    "request:",
    "reply:",
    "control:",
    "config:",
    "session-state:",
    "proxy-request:",
    "proxy-reply:",
    "coa:",
    "coa-reply:",
    "disconnect:",
    "disconnect-reply:",
];

#[tactic(auto, using(std::proofs::lemmas::List::take_min))]
fn after_folded<'a>(front: &[u8], word: &'a [u8]) -> Option<&'a [u8]>
    ensures { option_map (λ rest. rest.now) result ≡ after_folded front.now word.now }
{
    let (begin, rest) = word.split_at(front.len().min(word.len()));
    if same_name(begin, front) {
        Some(rest)
    } else {
        None
    }
}

fn after_one_of<'a>(fronts: &[&str], word: &'a [u8]) -> &'a [u8]
    ensures { result.now ≡ after_one_of (map (λ front. front.now) fronts.now) word.now }
{
    for front in fronts {
        if let Some(rest) = after_folded(front.as_bytes(), word) {
            return rest;
        }
    }
    word
}

#[tactic(auto, unfolding(crate::specs::BareNames::request_fronts))]
fn after_request(word: &[u8]) -> &[u8]
    ensures { result.now ≡ after_one_of request_fronts word.now }
{
    after_one_of(&REQUEST_FRONTS, word)
}

#[tactic(auto, unfolding(crate::specs::BareNames::list_fronts))]
pub(crate) fn after_list(word: &[u8]) -> &[u8]
    ensures { result.now ≡ after_one_of list_fronts word.now }
{
    after_one_of(&LIST_FRONTS, word)
}

#[tactic(auto, unfolding(crate::specs::BareNames::names_attribute))]
fn names_attribute(dictionary: &Dictionary, word: &[u8]) -> bool
    ensures { result ≡ names_attribute dictionary.now word.now }
{
    let name = after_list(after_request(word));
    target_of(dictionary, Profile::Wider, name).is_some()
}

pub(crate) fn takes_value(sign: Sign) -> bool
    ensures { result ≡ takes_value sign }
{
    match sign {
        Sign::AddNew | Sign::Replace | Sign::Append | Sign::Prepend | Sign::RemoveEqual => true,
        Sign::Equal | Sign::Differs => true,
        Sign::Less | Sign::AtMost | Sign::Greater | Sign::AtLeast => true,
        _ => false,
    }
}

fn is_bare_name(dictionary: &Dictionary, before: &Token<'_>, token: &Token<'_>) -> bool
    ensures { result ≡ is_bare_name dictionary.now before.now token.now }
{
    match (before, token) {
        (Token::Operator(sign), Token::Word(word)) => {
            takes_value(*sign) && names_attribute(dictionary, word.as_slice())
        }
        _ => false,
    }
}

// The line of the first token of a text that begins on a line, where the text from that token on is given.
#[tactic(auto, using(crate::proofs::TokenLines::line_of_token, crate::proofs::TokenLines::line_within))]
pub(crate) fn line_of(line: usize, text: &[u8], start: &[u8]) -> usize
    requires fits { line + length text.now < 2 ^ 64 }
    requires start { start.now ≡ from_token text.now }
    requires short { length start.now ≤ length text.now }
    ensures same { result ≡ (skipped line false text.now).0 }
    ensures within { result + length start.now ≤ line + length text.now }
{
    line + (line_after(&text[..text.len() - start.len()]) - 1)
}

/// Where a policy's text has a word without `&` and without quotes as a value, and a server takes it for an attribute:
/// it is the name of one, or its number, with a request, a list and a tag or without. In a text that is read as a policy
/// such a word is the right side of a comparison or an update line.
pub fn bare_names(
    alloc: Global,
    dictionary: &Dictionary,
    text: &[u8],
) -> Result<Vec<Warning>, AllocError>
    ensures { IfOk result (λ warnings. warnings.items ≡ bare_names dictionary.now text.now) }
{
    let profile = profile_of(text);
    let mut warnings = Vec::new(alloc);
    let mut line = 1;
    let mut before = Token::End;
    let mut rest = text;
    for passed in 0..text.len() {
        let found = first_token(profile, rest);
        line = line_of(line, rest, found.start);
        let is_bare = is_bare_name(dictionary, &before, &found.token);
        push_if(&mut warnings, is_bare, line, Reason::BareName)?;
        before = found.token;
        rest = found.rest;
    }
    Ok(warnings)
}
