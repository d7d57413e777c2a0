//! Values that a server takes otherwise, by the attribute that they are of and the operator before them. A tree does
//! not tell how a value was written, so they are looked for among the tokens of the text, as patterns are.

ghost use Rattle.std.specs.Prelude.{◌≡◌, ◌++◌, IfOk, OnOk, option_map};
ghost use Rattle.std.specs.List.{list_all};
ghost use Rattle.avp_dict.specs.Names.{form_of};
ghost use Rattle.avp_dict.specs.Octets.{kind_of};
ghost use Rattle.avp_dict.specs.Words.{is_hexadecimal};
ghost use Rattle.policy_warnings.specs.WrittenValues.{expanded_name, has_tag_octet, has_tag_zero, is_empty_tagged, is_hexadecimal_number, is_integer64, is_ipv6_prefix, is_number_of_64, is_read_as_octets, is_short_prefix, is_tagged_integer, is_zero, parts_from_octets, parts_from_zero, pattern_warnings, reason_warnings, removes_value, sets_value, target_at, target_named, text_reason, token_warnings, value_reason, written_reason, written_text, written_values};

use crate::bare_words::{after_list, line_of, takes_value};
use crate::patterns::{repeats_octet, starts_line};
use crate::warnings::{Reason, Warning, push_if};
use avp_dict::{Dictionary, Form, Kind, QuoteMark};
use avp_forms::{Profile, Target, profile_of, target_of};
use avp_lists::AttrId;
use avp_unlang::{Sign, Token, first_token};
use std::alloc::{AllocError, Global};

// The name in a text that is one expansion alone.
fn expanded_name(text: &[u8]) -> Option<&[u8]>
    ensures { option_map (λ name. name.now) result ≡ expanded_name text.now }
{
    let rest = text.strip_prefix(b"%{")?;
    let (name, brace) = rest.split_at(rest.len().saturating_sub(1));
    if brace == b"}".as_slice() {
        Some(name)
    } else {
        None
    }
}

#[tactic(auto, unfolding(crate::specs::WrittenValues::target_named))]
fn target_named(profile: Profile, dictionary: &Dictionary, word: &[u8]) -> Option<Target>
    ensures { result ≡ target_named profile dictionary.now word.now }
{
    target_of(dictionary, profile, after_list(word))
}

fn target_at(profile: Profile, dictionary: &Dictionary, token: &Token<'_>) -> Option<Target>
    ensures { result ≡ target_at profile dictionary.now token.now }
{
    match token {
        Token::Word(word) => target_named(profile, dictionary, word.as_slice()),
        Token::Quoted(QuoteMark::Double, text) => {
            target_named(profile, dictionary, expanded_name(text.as_slice())?)
        }
        _ => None,
    }
}

fn sets_value(sign: Sign) -> bool
    ensures { result ≡ sets_value sign }
{
    match sign {
        Sign::AddNew | Sign::Replace | Sign::Append | Sign::Prepend => true,
        _ => false,
    }
}

fn removes_value(sign: Sign) -> bool
    ensures { result ≡ removes_value sign }
{
    sign == Sign::RemoveEqual
}

fn is_tagged_integer(dictionary: &Dictionary, id: AttrId) -> bool
    ensures { result ≡ is_tagged_integer (form_of id dictionary.now) }
{
    matches!(dictionary.form(id), Some(Form::TaggedInteger))
}

fn is_ipv6_prefix(dictionary: &Dictionary, id: AttrId) -> bool
    ensures { result ≡ is_ipv6_prefix (form_of id dictionary.now) }
{
    matches!(dictionary.form(id), Some(Form::Ipv6Prefix))
}

fn is_integer64(dictionary: &Dictionary, id: AttrId) -> bool
    ensures { result ≡ is_integer64 (kind_of id dictionary.now) }
{
    match dictionary.by_id(id) {
        Some(entry) => entry.kind == Kind::Integer64,
        None => false,
    }
}

fn is_hexadecimal(text: &[u8]) -> bool
    ensures { result ≡ is_hexadecimal text.now }
{
    matches!(text, [b'0', b'x', ..])
}

// Whether octets have the tag 0.
#[tactic(auto, unfolding(crate::specs::WrittenValues::has_tag_zero))]
fn has_tag_zero(text: &[u8]) -> bool
    ensures { result ≡ has_tag_zero text.now }
{
    text.len() == 10 && &text[..4] == b"0x00".as_slice()
}

fn parts_from_octets(profile: Profile, sign: Sign, text: &[u8]) -> bool
    ensures { result ≡ parts_from_octets profile sign text.now }
{
    !(has_tag_zero(text) && (sets_value(sign) || profile == Profile::Wider))
}

fn is_zero(digit: u8) -> bool
    ensures { result ≡ is_zero digit }
{
    digit == b'0'
}

fn are_zeros(digits: &[u8]) -> bool
    ensures { result ≡ list_all is_zero digits.now }
{
    digits.iter().all(|digit| is_zero(*digit))
}

// Whether a number in hexadecimal is not 0.
fn parts_from_zero(text: &[u8]) -> bool
    ensures { result ≡ parts_from_zero text.now }
{
    match text {
        [_, _, digits @ ..] => !are_zeros(digits),
        _ => false,
    }
}

// Whether a server takes a value for octets too.
fn is_read_as_octets(target: Target, sign: Sign) -> bool
    ensures { result ≡ is_read_as_octets target sign }
{
    target.named.raw && (sets_value(sign) || removes_value(sign))
}

fn is_number_of_64(dictionary: &Dictionary, target: Target, sign: Sign) -> bool
    ensures { result ≡ is_number_of_64 dictionary.now target sign }
{
    is_integer64(dictionary, target.named.id) && !is_read_as_octets(target, sign)
}

#[tactic(auto, unfolding(crate::specs::WrittenValues::is_hexadecimal_number))]
fn is_hexadecimal_number(
    profile: Profile,
    dictionary: &Dictionary,
    target: Target,
    sign: Sign,
    text: &[u8],
) -> bool
    ensures { result ≡ is_hexadecimal_number profile dictionary.now target sign text.now }
{
    is_hexadecimal(text)
        && ((is_tagged_integer(dictionary, target.named.id)
            && parts_from_octets(profile, sign, text))
            || (is_number_of_64(dictionary, target, sign) && parts_from_zero(text)))
}

fn has_tag_octet(tag: Option<u8>) -> bool
    ensures { result ≡ has_tag_octet tag }
{
    match tag {
        Some(tag) => tag >= 1,
        None => false,
    }
}

fn is_empty_tagged(target: Target, sign: Sign, text: &[u8]) -> bool
    ensures { result ≡ is_empty_tagged target sign text.now }
{
    text.is_empty() && has_tag_octet(target.tag) && sets_value(sign)
}

#[tactic(auto, unfolding(crate::specs::WrittenValues::text_reason))]
fn text_reason(
    profile: Profile,
    dictionary: &Dictionary,
    target: Target,
    sign: Sign,
    text: &[u8],
) -> Option<Reason>
    ensures { result ≡ text_reason profile dictionary.now target sign text.now }
{
    if is_empty_tagged(target, sign, text) {
        Some(Reason::EmptyTagged)
    } else if is_hexadecimal_number(profile, dictionary, target, sign, text) {
        Some(Reason::HexadecimalNumber)
    } else {
        None
    }
}

fn is_short_prefix(dictionary: &Dictionary, target: Target, sign: Sign) -> bool
    ensures { result ≡ is_short_prefix dictionary.now target sign }
{
    removes_value(sign) && is_ipv6_prefix(dictionary, target.named.id)
}

fn written_text<'a>(token: &Token<'a>) -> Option<&'a [u8]>
    ensures { option_map (λ text. text.now) result ≡ written_text token.now }
{
    match token {
        Token::Word(text) | Token::Quoted(_, text) => Some(text.as_slice()),
        _ => None,
    }
}

#[tactic(auto, unfolding(crate::specs::WrittenValues::value_reason))]
fn value_reason(
    profile: Profile,
    dictionary: &Dictionary,
    sign: Sign,
    value: &Token<'_>,
    target: Target,
) -> Option<Reason>
    ensures { result ≡ value_reason profile dictionary.now sign value.now target }
{
    if is_short_prefix(dictionary, target, sign) {
        return Some(Reason::ShortPrefix);
    }
    text_reason(profile, dictionary, target, sign, written_text(value)?)
}

fn written_reason(
    profile: Profile,
    dictionary: &Dictionary,
    name: &Token<'_>,
    before: &Token<'_>,
    value: &Token<'_>,
) -> Option<Reason>
    ensures { result ≡ written_reason profile dictionary.now name.now before.now value.now }
{
    match before {
        Token::Operator(sign) if takes_value(*sign) => {
            let target = target_at(profile, dictionary, name)?;
            value_reason(profile, dictionary, *sign, value, target)
        }
        _ => None,
    }
}

fn push_reason(
    warnings: &mut Vec<Warning>,
    line: usize,
    reason: Option<Reason>,
) -> Result<(), AllocError>
    ensures { OnOk result (warnings.new.items
        ≡ warnings.old.items ++ reason_warnings line reason) }
{
    match reason {
        Some(reason) => push_if(warnings, true, line, reason),
        None => Ok(()),
    }
}

fn push_patterns(
    warnings: &mut Vec<Warning>,
    line: usize,
    token: &Token<'_>,
) -> Result<(), AllocError>
    ensures { OnOk result (warnings.new.items
        ≡ warnings.old.items ++ pattern_warnings line token.now) }
{
    match token {
        Token::Matching(matcher) => {
            let is_repeated = repeats_octet(matcher.pattern.as_slice());
            push_if(warnings, is_repeated, line, Reason::RepeatedOctet)?;
            push_if(warnings, starts_line(matcher), line, Reason::LineStart)
        }
        _ => Ok(()),
    }
}

fn push_token(
    warnings: &mut Vec<Warning>,
    line: usize,
    reason: Option<Reason>,
    token: &Token<'_>,
) -> Result<(), AllocError>
    ensures { OnOk result (warnings.new.items
        ≡ warnings.old.items ++ token_warnings line reason token.now) }
{
    push_reason(warnings, line, reason)?;
    push_patterns(warnings, line, token)
}

/// Where a policy's text has a value or a pattern that a server takes otherwise: a number in hexadecimal for an integer
/// with a tag or of 64 bits, an empty text for an attribute with a tag, `-=` of an IPv6 prefix, and in a pattern a
/// repetition of a letter beyond ASCII or a `^` for each line.
pub fn written_values(
    alloc: Global,
    dictionary: &Dictionary,
    text: &[u8],
) -> Result<Vec<Warning>, AllocError>
    ensures { IfOk result (λ warnings. warnings.items ≡ written_values dictionary.now text.now) }
{
    let profile = profile_of(text);
    let mut warnings = Vec::new(alloc);
    let mut line = 1;
    let mut name = Token::End;
    let mut before = Token::End;
    let mut rest = text;
    for passed in 0..text.len() {
        let found = first_token(profile, rest);
        line = line_of(line, rest, found.start);
        let reason = written_reason(profile, dictionary, &name, &before, &found.token);
        push_token(&mut warnings, line, reason, &found.token)?;
        name = before;
        before = found.token;
        rest = found.rest;
    }
    Ok(warnings)
}
