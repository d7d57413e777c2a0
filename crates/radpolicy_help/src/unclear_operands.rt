//! Operators of a text that can't be read which have not two clear operands, in a text that names a secret: what is
//! compared or set there may be one.

use crate::captures::{is_number, next_expansion};
use crate::hidden::Hidden;
use crate::places::quoted_from;
use crate::policy_tokens::{Token, from_token, is_match, text_of, token_of, tokens};
use crate::runs::Run;
use crate::unread_secrets::UnreadSecrets;
use std::alloc::AllocError;

// Whether an operator compares or sets something.
fn has_operands(sign: Token<'_>) -> bool {
    sign.octets.iter().any(|octet| b"=~<>".contains(octet))
}

// Whether a text that begins with a quote ends with one too.
fn is_ended(text: &str) -> bool {
    text.len() > 1 && text.as_bytes().first() == text.as_bytes().last()
}

// Whether a text between quotes ends, and has expansions of attributes and groups alone, and one at least.
fn is_clear_text(secrets: &UnreadSecrets<'_>, text: &str) -> bool {
    let mut rest = text;
    let mut is_clear = is_ended(text) && text.contains("%{");
    for _ in 0..text.len() {
        let Some((word, others)) = next_expansion(rest) else {
            break;
        };
        is_clear = is_clear && (is_number(word) || secrets.is_attribute(word.as_bytes()));
        rest = others;
    }
    is_clear
}

// Whether what follows an operator has attributes in it that are known.
fn is_clear(secrets: &UnreadSecrets<'_>, rest: &[u8]) -> bool {
    match rest {
        [b'"' | b'\'', ..] => is_clear_text(secrets, text_of(token_of(rest))),
        [b'&', name @ ..] => secrets.is_attribute(token_of(name)),
        _ => false,
    }
}

// Whether a text begins with a quote that is not closed on its line: what follows there may refer to a secret.
fn is_open_text(rest: &[u8]) -> bool {
    matches!(rest, [b'"' | b'\'', ..]) && !is_ended(text_of(token_of(rest)))
}

// Hides the operands of an operator that are not clear.
fn hide_operands(
    hidden: &mut Hidden,
    secrets: &UnreadSecrets<'_>,
    text: &[u8],
    sign: Token<'_>,
) -> Result<(), AllocError> {
    let left = text.get(..sign.offset).unwrap_or(text).trim_ascii_end();
    let end = sign.offset.saturating_add(sign.octets.len());
    let rest = from_token(text.get(end..).unwrap_or(&[]));
    let word = left
        .get(Run::PolicyWord.before(left).len()..)
        .unwrap_or(&[]);
    match left.last() {
        Some(b'"' | b'\'') if is_clear(secrets, rest) => Ok(()),
        Some(b'"' | b'\'') => hidden.add(quoted_from(text, left.len())),
        _ if secrets.is_attribute(word) && !is_open_text(rest) => Ok(()),
        _ => {
            hidden.add(Run::Blank.end(text, end))?;
            hidden.add(text.len().saturating_sub(rest.len()))
        }
    }
}

fn is_operator(token: Option<&Token<'_>>) -> bool {
    match token {
        Some(token) => {
            let is_sign = Run::Operator.before(token.octets).is_empty();
            is_match(token.text()) || (is_sign && has_operands(*token))
        }
        None => false,
    }
}

// Hides texts between quotes with no operator beside them.
fn hide_alone(hidden: &mut Hidden, tokens: &[Token<'_>]) -> Result<(), AllocError> {
    let mut before = None;
    for (at, token) in tokens.iter().enumerate() {
        let is_beside = is_operator(before) || is_operator(tokens.get(at.saturating_add(1)));
        if matches!(token.octets, [b'"' | b'\'', ..]) && !is_beside {
            hidden.add(token.offset)?;
        }
        before = Some(token);
    }
    Ok(())
}

/// Hides what is beside operators without clear operands, and texts between quotes that are beside none.
pub(crate) fn hide_unclear(
    hidden: &mut Hidden,
    secrets: &UnreadSecrets<'_>,
    text: &[u8],
) -> Result<(), AllocError> {
    hide_alone(hidden, &tokens(hidden.allocator(), text)?)?;
    let mut covered = 0usize;
    for sign in &Run::Operator.all_of(hidden.allocator(), text)? {
        if covered <= sign.offset && has_operands(*sign) {
            hide_operands(hidden, secrets, text, *sign)?;
            covered = hidden.covered_to(text, sign.offset);
        }
    }
    Ok(())
}
