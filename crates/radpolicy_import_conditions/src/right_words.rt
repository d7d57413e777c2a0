//! Words without quotes on the right of comparisons and of lines of updates, as a server takes them.

ghost use Rattle.std.specs.Prelude.{◌≡◌, ◌<◌, ◌==◌, length, IfOk, IfSome};
ghost use Rattle.std.specs.Char.{is_ascii_digit};
ghost use Rattle.std.specs.List.{list_all, list_any, position};
ghost use Rattle.std.specs.Str.{str_eq_ignore_ascii_case};
ghost use Rattle.radpolicy_import_conditions.specs.RightWords.{before, begins_with_digit, behind, is_attribute, is_list, is_numbered, is_reference, is_tagged, meant_word, name_in, refers, tag_in, takes_tag, without_list, without_request};

use avp_dict::{Dictionary, Form, Named};
use std::alloc::{AllocError, Global};

/// What may stand before a full stop and a list or a name: which request is meant.
pub const REQUESTS: [&str; 3] = ["outer", "current", "parent"];

/// What may stand before a colon and a name, of any request.
pub const LISTS: [&str; 11] = [
    "request",
    "reply",
    "control",
    "config",
    "session-state",
    "proxy-request",
    "proxy-reply",
    "coa",
    "coa-reply",
    "disconnect",
    "disconnect-reply",
];

/// What a name by numbers begins with.
pub const NUMBERED: [&str; 2] = ["attr", "vendor"];

fn is_one_of(words: &[&str], word: &[u8]) -> bool
    ensures { result ≡ list_any (λ own. str_eq_ignore_ascii_case word.now own.now) words.now }
{
    words
        .iter()
        .any(|own| word.eq_ignore_ascii_case(own.as_bytes()))
}

fn place_of(mark: u8, word: &[u8]) -> Option<usize>
    ensures at { result ≡ position (λ c. c == mark) word.now }
    ensures within { IfSome result (λ at. at < length word.now) }
{
    word.iter().position(|octet| *octet == mark)
}

// What is before the first such octet of a word, and behind it.
fn around(mark: u8, word: &[u8]) -> (&[u8], &[u8])
    ensures front { result.0.now ≡ before mark word.now }
    ensures back { result.1.now ≡ behind mark word.now }
{
    match place_of(mark, word) {
        Some(at) => (&word[..at], &word[at + 1..]),
        None => (word, &word[word.len()..]),
    }
}

#[tactic(auto, unfolding(crate::specs::RightWords::requests))]
fn without_request(word: &[u8]) -> &[u8]
    ensures { result.now ≡ without_request word.now }
{
    let (front, back) = around(b'.', word);
    if is_one_of(&REQUESTS, front) {
        back
    } else {
        word
    }
}

#[tactic(auto, unfolding(crate::specs::RightWords::lists))]
fn without_list(word: &[u8]) -> &[u8]
    ensures { result.now ≡ without_list word.now }
{
    let (front, back) = around(b':', word);
    if is_one_of(&LISTS, front) { back } else { word }
}

#[tactic(auto, unfolding(crate::specs::RightWords::lists))]
fn is_list(word: &[u8]) -> bool
    ensures { result ≡ is_list word.now }
{
    let (front, back) = around(b':', word);
    is_one_of(&LISTS, front) && back.len() == 0
}

fn name_in(word: &[u8]) -> &[u8]
    ensures { result.now ≡ name_in word.now }
{
    let (front, _) = around(b':', word);
    around(b'[', front).0
}

fn tag_in(word: &[u8]) -> &[u8]
    ensures { result.now ≡ tag_in word.now }
{
    let (_, back) = around(b':', word);
    around(b'[', back).0
}

fn begins_with_digit(word: &[u8]) -> bool
    ensures { result ≡ begins_with_digit word.now }
{
    match word {
        [first, ..] => first.is_ascii_digit(),
        [] => false,
    }
}

#[tactic(auto, unfolding(crate::specs::RightWords::numbered))]
fn is_numbered(name: &[u8]) -> bool
    ensures { result ≡ is_numbered name.now }
{
    let (front, back) = around(b'-', name);
    is_one_of(&NUMBERED, front) && begins_with_digit(back)
}

fn are_digits(octets: &[u8]) -> bool
    ensures { result ≡ list_all is_ascii_digit octets.now }
{
    octets.iter().all(|octet| octet.is_ascii_digit())
}

fn is_tagged(form: Option<Form>) -> bool
    ensures { result ≡ is_tagged form }
{
    matches!(form, Some(Form::TaggedInteger | Form::TaggedString))
}

fn takes_tag(dictionary: &Dictionary, tag: &[u8], named: Named) -> bool
    ensures { result ≡ takes_tag dictionary.now tag.now named }
{
    tag.len() == 0 || (are_digits(tag) && is_tagged(dictionary.form(named.id)))
}

fn is_attribute(dictionary: &Dictionary, word: &[u8]) -> bool
    ensures { result ≡ is_attribute dictionary.now word.now }
{
    let name = name_in(word);
    if is_numbered(name) {
        return true;
    }
    match dictionary.by_name(name) {
        Some(named) => takes_tag(dictionary, tag_in(word), named),
        None => false,
    }
}

fn refers(dictionary: &Dictionary, word: &[u8]) -> bool
    ensures { result ≡ refers dictionary.now word.now }
{
    is_list(word) || is_attribute(dictionary, without_list(word))
}

/// Whether a server takes a word without quotes, which stands on the right and has no `&`, for a reference. It does so
/// wherever the dictionary has the name, also where the attribute on the left has a value of that name.
#[tactic(auto, unfolding(crate::specs::RightWords::is_reference))]
pub fn is_reference(dictionary: &Dictionary, word: &[u8]) -> bool
    ensures { result ≡ is_reference dictionary.now word.now }
{
    refers(dictionary, without_request(word))
}

/// Such a word as it is meant: a reference begins with `&`.
pub fn meant_word(
    alloc: Global,
    dictionary: &Dictionary,
    word: &[u8],
) -> Result<Vec<u8>, AllocError>
    ensures { IfOk result (λ meant. meant.items ≡ meant_word dictionary.now word.now) }
{
    if !is_reference(dictionary, word) {
        return Vec::from_slice(alloc, word);
    }
    let mut meant = Vec::from_slice(alloc, b"&")?;
    meant.extend_from_slice(word)?;
    Ok(meant)
}
