//! What is shown of a policy's text, and of a text that may be none.

ghost use Rattle.std.specs.Prelude.{◌≡◌, ◌++◌, IfOk, OnOk, false};
ghost use Rattle.std.specs.List.{flat_map, list_any};
ghost use Rattle.radpolicy_common.specs.PolicyTexts.{begins_secret_value, element_shown, from_line_feed, has_secret_key, has_secret_references, hidden_octets, is_related, is_secret_piece, line_feeds, literals_hidden, may_refer_to_secret, octets_shown, piece_hidden, piece_text, pieces_shown, policy_shown, quotes_secret_text, refers_to_secret, rest_hidden, shown_by, unread_shown};

use crate::digit_runs::spelled_octets;
use crate::elements::{Reading, element_length};
use crate::pieces::{Piece, gap, pieces_of};
use crate::redactions::{Redaction, SecretValues};
use crate::secret_attributes::is_secret_text;
use crate::secret_words::{mentions_secret, puts_in_secret};
use avp_dict::{QuoteMark, octets_between};
use avp_forms::profile_of;
use avp_unlang::Token;
use std::alloc::{AllocError, Global};

// ---- which pieces are secret

// Whether a text has a secret key, or the octets for which hexadecimal digits in it stand have one.
fn has_secret_key(alloc: Global, text: &[u8]) -> Result<bool, AllocError>
    ensures { IfOk result (λ secret. secret ≡ has_secret_key text.now) }
{
    Ok(is_secret_text(text) || is_secret_text(&spelled_octets(alloc, text)?))
}

// Whether a text has one as it is, or with its escapes read.
fn quotes_secret_text(alloc: Global, text: &[u8]) -> Result<bool, AllocError>
    ensures { IfOk result (λ secret. secret ≡ quotes_secret_text text.now) }
{
    if has_secret_key(alloc, text)? {
        return Ok(true);
    }
    let octets = octets_between(alloc, QuoteMark::Double, text)?;
    has_secret_key(alloc, &octets)
}

// Whether a token refers to a secret attribute, or to what was captured of one, or is a text, a pattern or a word with a
// secret key.
fn refers_to_secret(
    alloc: Global,
    redaction: &Redaction<'_>,
    piece: &Piece<'_>,
) -> Result<bool, AllocError>
    ensures { IfOk result (λ secret.
        secret ≡ refers_to_secret redaction.now piece.now piece.now.token) }
{
    Ok(match &piece.token {
        Token::Word(word) => {
            mentions_secret(redaction, word.as_slice()) || has_secret_key(alloc, word.as_slice())?
        }
        Token::Quoted(QuoteMark::Double, text) => {
            quotes_secret_text(alloc, text.as_slice())?
                || puts_in_secret(redaction, redaction.captured(), text.as_slice())
        }
        Token::Quoted(QuoteMark::Single, text) => quotes_secret_text(alloc, text.as_slice())?,
        Token::Matching(matcher) => quotes_secret_text(alloc, matcher.pattern.as_slice())?,
        Token::Unreadable => {
            mentions_secret(redaction, piece.octets) || quotes_secret_text(alloc, piece.octets)?
        }
        _ => false,
    })
}

// The same in a text that may be no policy: each name between quotes counts, and each group that is put in.
fn may_refer_to_secret(
    alloc: Global,
    redaction: &Redaction<'_>,
    piece: &Piece<'_>,
) -> Result<bool, AllocError>
    ensures { IfOk result (λ secret.
        secret ≡ may_refer_to_secret redaction.now piece.now piece.now.token) }
{
    match &piece.token {
        Token::Quoted(QuoteMark::Double, text) => {
            Ok(
                quotes_secret_text(alloc, text.as_slice())?
                    || mentions_secret(redaction, text.as_slice())
                    || puts_in_secret(redaction, true, text.as_slice()),
            )
        }
        Token::Quoted(QuoteMark::Single, text) => {
            Ok(
                quotes_secret_text(alloc, text.as_slice())?
                    || mentions_secret(redaction, text.as_slice()),
            )
        }
        _ => refers_to_secret(alloc, redaction, piece),
    }
}

fn is_secret_piece(
    alloc: Global,
    reading: Reading,
    redaction: &Redaction<'_>,
    piece: &Piece<'_>,
) -> Result<bool, AllocError>
    ensures { IfOk result (λ secret.
        secret ≡ is_secret_piece reading redaction.now piece.now) }
{
    match reading {
        Reading::Policy => refers_to_secret(alloc, redaction, piece),
        Reading::Unread => may_refer_to_secret(alloc, redaction, piece),
    }
}

fn has_secret_piece(
    alloc: Global,
    reading: Reading,
    redaction: &Redaction<'_>,
    pieces: &[Piece<'_>],
) -> Result<bool, AllocError>
    ensures { IfOk result (λ found.
        found ≡ list_any (is_secret_piece reading redaction.now) pieces.now) }
{
    let mut rest = pieces;
    while let [piece, others @ ..] = rest {
        if is_secret_piece(alloc, reading, redaction, piece)? {
            return Ok(true);
        }
        rest = others;
    }
    Ok(false)
}

// ---- what is shown of pieces

fn push_line_feeds(text: &mut Vec<u8>, octets: &[u8]) -> Result<(), AllocError>
    ensures { OnOk result (text.new.items ≡ text.old.items ++ line_feeds octets.now) }
{
    for octet in octets {
        if *octet == b'\n' {
            text.push(*octet)?;
        }
    }
    Ok(())
}

fn push_hidden(text: &mut Vec<u8>, octets: &[u8]) -> Result<(), AllocError>
    ensures { OnOk result (text.new.items ≡ text.old.items ++ hidden_octets octets.now) }
{
    text.extend_from_slice(b"(hidden)")?;
    push_line_feeds(text, octets)
}

fn push_piece(text: &mut Vec<u8>, piece: &Piece<'_>) -> Result<(), AllocError>
    ensures { OnOk result (text.new.items ≡ text.old.items ++ piece_text piece.now) }
{
    text.extend_from_slice(piece.octets)?;
    text.extend_from_slice(piece.after)
}

fn push_pieces(text: &mut Vec<u8>, pieces: &[Piece<'_>]) -> Result<(), AllocError>
    ensures { OnOk result
        (text.new.items ≡ text.old.items ++ flat_map piece_text pieces.now) }
{
    for piece in pieces {
        push_piece(text, piece)?;
    }
    Ok(())
}

// The octets of a piece of a secret element of a policy, after an operator or not.
fn push_octets_shown(text: &mut Vec<u8>, related: bool, piece: &Piece<'_>) -> Result<(), AllocError>
    ensures { OnOk result (text.new.items
        ≡ text.old.items ++ octets_shown related piece.now piece.now.token) }
{
    match &piece.token {
        Token::Word(_) if related => push_hidden(text, piece.octets),
        Token::Matching(_) => {
            let (sign, pattern) = piece.octets.split_at(piece.octets.len().min(2));
            text.extend_from_slice(sign)?;
            text.extend_from_slice(b" ")?;
            push_hidden(text, pattern)
        }
        _ if piece.is_literal() => push_hidden(text, piece.octets),
        _ => text.extend_from_slice(piece.octets),
    }
}

fn is_related(related: bool, piece: &Piece<'_>) -> bool
    ensures { result ≡ is_related related piece.now }
{
    piece.is_relating() || (related && !piece.is_reference())
}

// A secret element of a policy.
fn push_literals_hidden(text: &mut Vec<u8>, pieces: &[Piece<'_>]) -> Result<(), AllocError>
    ensures { OnOk result
        (text.new.items ≡ text.old.items ++ literals_hidden false pieces.now) }
{
    let mut related = false;
    for piece in pieces {
        push_octets_shown(text, related, piece)?;
        text.extend_from_slice(piece.after)?;
        related = is_related(related, piece);
    }
    Ok(())
}

// ---- what is shown of a text that may be no policy

// Blanks and comments from the end of the line on.
fn from_line_feed(octets: &[u8]) -> &[u8]
    ensures { result.now ≡ from_line_feed octets.now }
{
    let mut rest = octets;
    while let [octet, others @ ..] = rest {
        if *octet == b'\n' {
            return rest;
        }
        rest = others;
    }
    rest
}

fn push_pieces_hidden(text: &mut Vec<u8>, pieces: &[Piece<'_>]) -> Result<(), AllocError>
    ensures { OnOk result
        (text.new.items ≡ text.old.items ++ flat_map piece_hidden pieces.now) }
{
    for piece in pieces {
        push_line_feeds(text, piece.octets)?;
        text.extend_from_slice(from_line_feed(piece.after))?;
    }
    Ok(())
}

// Whether a secret element is hidden from a piece on, which follows a secret name or not.
fn begins_secret_value(alloc: Global, named: bool, piece: &Piece<'_>) -> Result<bool, AllocError>
    ensures { IfOk result (λ begins. begins ≡ begins_secret_value named piece.now) }
{
    if piece.is_word() {
        return Ok(named || has_secret_key(alloc, piece.octets)?);
    }
    Ok(piece.is_literal())
}

// A secret element of a text that may be no policy: all is hidden behind an operator, and from a value on.
fn push_rest_hidden(
    text: &mut Vec<u8>,
    redaction: &Redaction<'_>,
    pieces: &[Piece<'_>],
) -> Result<(), AllocError>
    ensures { OnOk result
        (text.new.items ≡ text.old.items ++ rest_hidden redaction.now false pieces.now) }
{
    let mut rest = pieces;
    let mut named = false;
    while let [piece, others @ ..] = rest {
        if piece.is_relating() {
            text.extend_from_slice(piece.octets)?;
            text.extend_from_slice(b" (hidden)")?;
            text.extend_from_slice(from_line_feed(piece.after))?;
            return push_pieces_hidden(text, others);
        }
        if begins_secret_value(*text.allocator(), named, piece)? {
            push_hidden(text, piece.octets)?;
            text.extend_from_slice(from_line_feed(piece.after))?;
            return push_pieces_hidden(text, others);
        }
        push_piece(text, piece)?;
        named = is_secret_piece(*text.allocator(), Reading::Unread, redaction, piece)?;
        rest = others;
    }
    Ok(())
}

// ---- what is shown of texts

fn push_element(
    text: &mut Vec<u8>,
    redaction: &Redaction<'_>,
    reading: Reading,
    pieces: &[Piece<'_>],
) -> Result<(), AllocError>
    ensures { OnOk result
        (text.new.items ≡ text.old.items ++ element_shown reading redaction.now pieces.now) }
{
    if !has_secret_piece(*text.allocator(), reading, redaction, pieces)? {
        return push_pieces(text, pieces);
    }
    match reading {
        Reading::Policy => push_literals_hidden(text, pieces),
        Reading::Unread => push_rest_hidden(text, redaction, pieces),
    }
}

#[tactic(auto, using(crate::proofs::ElementLaws::shown_next))]
fn push_pieces_shown(
    text: &mut Vec<u8>,
    redaction: &Redaction<'_>,
    reading: Reading,
    pieces: &[Piece<'_>],
) -> Result<(), AllocError>
    ensures { OnOk result
        (text.new.items ≡ text.old.items ++ pieces_shown reading redaction.now pieces.now) }
{
    let mut shown = 0;
    while shown < pieces.len() {
        let rest = &pieces[shown..];
        let count = element_length(reading, rest);
        push_element(text, redaction, reading, &rest[..count])?;
        shown += count;
    }
    Ok(())
}

fn shown_by(
    alloc: Global,
    redaction: &Redaction<'_>,
    reading: Reading,
    text: &[u8],
) -> Result<Vec<u8>, AllocError>
    ensures { IfOk result (λ shown. shown.items ≡ shown_by reading redaction.now text.now) }
{
    match redaction.secrets() {
        SecretValues::Shown => Vec::from_slice(alloc, text),
        SecretValues::Hidden => {
            let pieces = pieces_of(alloc, profile_of(text), text)?;
            let mut shown = Vec::from_slice(alloc, gap(text))?;
            push_pieces_shown(&mut shown, redaction, reading, &pieces)?;
            Ok(shown)
        }
    }
}

/// A policy's text. Unless secret values are shown, each quoted text, each pattern and each value of a comparison or an
/// update line that refers to a secret attribute is `(hidden)`, on whichever side. Comments are shown, and a line of the
/// text is the same line of what is shown.
#[tactic(auto, unfolding(crate::specs::PolicyTexts::policy_shown))]
pub fn policy_shown(
    alloc: Global,
    redaction: &Redaction<'_>,
    text: &[u8],
) -> Result<Vec<u8>, AllocError>
    ensures { IfOk result (λ shown. shown.items ≡ policy_shown redaction.now text.now) }
{
    shown_by(alloc, redaction, Reading::Policy, text)
}

/// A text that a fault quotes: a policy that was not read, lines of it, or lines of a request. In a line with a word that
/// names a secret attribute all is hidden behind the first operator, and from the first quoted text on; what such a
/// line goes on with in the next one is too.
#[tactic(auto, unfolding(crate::specs::PolicyTexts::unread_shown))]
pub fn unread_shown(
    alloc: Global,
    redaction: &Redaction<'_>,
    text: &[u8],
) -> Result<Vec<u8>, AllocError>
    ensures { IfOk result (λ shown. shown.items ≡ unread_shown redaction.now text.now) }
{
    shown_by(alloc, redaction, Reading::Unread, text)
}

/// Whether something in a text refers to a secret attribute, or has a secret key, so that what a regular expression
/// captures there may be secret. The text may be no policy.
#[tactic(auto, unfolding(crate::specs::PolicyTexts::has_secret_references))]
pub fn has_secret_references(
    alloc: Global,
    redaction: &Redaction<'_>,
    text: &[u8],
) -> Result<bool, AllocError>
    ensures { IfOk result (λ found. found ≡ has_secret_references redaction.now text.now) }
{
    let pieces = pieces_of(alloc, profile_of(text), text)?;
    has_secret_piece(alloc, Reading::Policy, redaction, &pieces)
}
