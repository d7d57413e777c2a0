//! Which words and texts name secret attributes.

ghost use Rattle.std.specs.Prelude.{◌≡◌, false};
ghost use Rattle.std.specs.Char.{is_ascii_digit};
ghost use Rattle.std.specs.List.{list_all};
ghost use Rattle.std.specs.Option.{option_map_or};
ghost use Rattle.avp_unlang.specs.Tokens.{is_word_octet};
ghost use Rattle.radpolicy_common.specs.SecretWords.{begins_secret, is_name_octet, is_put_in_secret, names_secret_attribute, mentions_from, mentions_secret, name_front, puts_in_secret, word_front};

use crate::redactions::Redaction;

#[tactic(auto, unfolding(avp_unlang::specs::Tokens::is_word_octet))]
fn is_word_octet(octet: u8) -> bool
    ensures { result ≡ is_word_octet octet }
{
    octet.is_ascii_alphanumeric() || b"-_./:@".contains(&octet)
}

fn is_name_octet(octet: u8) -> bool
    ensures { result ≡ is_name_octet octet }
{
    is_word_octet(octet) && !b":@".contains(&octet)
}

// The name that a text begins with.
fn name_front(text: &[u8]) -> &[u8]
    ensures { result.now ≡ name_front text.now }
{
    for place in 0..text.len() {
        if !is_name_octet(text[place]) {
            return &text[..place];
        }
    }
    text
}

// The octets of a word that a text begins with.
fn word_front(text: &[u8]) -> &[u8]
    ensures { result.now ≡ word_front text.now }
{
    for place in 0..text.len() {
        if !is_word_octet(text[place]) {
            return &text[..place];
        }
    }
    text
}

#[tactic(auto, unfolding(crate::specs::SecretWords::names_secret_attribute))]
fn names_secret_attribute(redaction: &Redaction<'_>, name: &[u8]) -> bool
    ensures { result ≡ names_secret_attribute redaction.now name.now }
{
    match redaction.dictionary().by_name(name) {
        Some(found) => redaction.is_secret(found.id),
        None => false,
    }
}

/// Whether a secret attribute's name is in a text, with a list before it or a tag behind it or without.
pub(crate) fn mentions_secret(redaction: &Redaction<'_>, text: &[u8]) -> bool
    ensures { result ≡ mentions_secret redaction.now text.now }
{
    let mut rest = text;
    let mut within = false;
    while let [octet, others @ ..] = rest {
        if !within && names_secret_attribute(redaction, name_front(rest)) {
            return true;
        }
        within = is_name_octet(*octet);
        rest = others;
    }
    false
}

fn are_digits(word: &[u8]) -> bool
    ensures { result ≡ list_all is_ascii_digit word.now }
{
    word.iter().all(|octet| octet.is_ascii_digit())
}

fn is_put_in_secret(redaction: &Redaction<'_>, captured: bool, word: &[u8]) -> bool
    ensures { result ≡ is_put_in_secret redaction.now captured word.now }
{
    mentions_secret(redaction, word) || (captured && are_digits(word))
}

fn begins_secret(redaction: &Redaction<'_>, captured: bool, text: &[u8]) -> bool
    ensures { result ≡ begins_secret redaction.now captured text.now }
{
    match text {
        [b'%', b'{', inner @ ..] => is_put_in_secret(redaction, captured, word_front(inner)),
        _ => false,
    }
}

/// Whether a secret value is put into a text between double quotes; what was captured may be one.
pub(crate) fn puts_in_secret(redaction: &Redaction<'_>, captured: bool, text: &[u8]) -> bool
    ensures { result ≡ puts_in_secret redaction.now captured text.now }
{
    let mut rest = text;
    while let [_, others @ ..] = rest {
        if begins_secret(redaction, captured, rest) {
            return true;
        }
        rest = others;
    }
    false
}
