//! A text cut into its tokens, as the reader of policies takes them, and what is between them.

ghost use Rattle.std.specs.Prelude.{◌≡◌, ◌≢◌, ◌≤◌, ◌<◌, IfOk, length, take, drop};
ghost use Rattle.avp_unlang.specs.Tokens.{token_in};
ghost use Rattle.radpolicy_common.specs.Pieces.{gap, is_border, is_border_sign, is_end, is_literal, is_reference, is_relating, is_relating_sign, is_word, line_length, pieces_from, pieces_of, token_length, unreadable_length};

use avp_forms::Profile;
use avp_unlang::{FirstToken, Sign, Token, first_token};
use std::alloc::{AllocError, Global};
use std::marker::Model;

/// A token of a text.
#[derive(Drop)]
pub(crate) struct Piece<'a> {
    pub token: Token<'a>,
    pub octets: &'a [u8],
    /// The blanks and comments up to the next token.
    pub after: &'a [u8],
}

impl<'a> Model for Piece<'a> {
    ghost use Rattle.radpolicy_common.specs.Pieces.{Piece as Cut};

    ghost Value = { Cut };

    ghost view = { λ p. record {
      token = p.token;
      octets = p.octets.now;
      after = p.after.now;
    } };
}

fn line_length(text: &[u8]) -> usize
    ensures same { result ≡ line_length text.now }
    ensures within { result ≤ length text.now }
{
    let mut rest = text;
    let mut passed = 0;
    while let [octet, others @ ..] = rest {
        if *octet == b'\n' {
            return passed;
        }
        passed += 1;
        rest = others;
    }
    passed
}

fn unreadable_length(text: &[u8]) -> usize
    ensures same { result ≡ unreadable_length text.now }
    ensures within { result ≤ length text.now }
{
    match text {
        [] => 0,
        [_, rest @ ..] => line_length(rest) + 1,
    }
}

fn token_length(found: &FirstToken<'_>) -> usize
    requires { length found.now.rest.now ≤ length found.now.start.now }
    ensures same { result ≡ token_length found.now.token found.now.rest.now found.now.start.now }
    ensures within { result ≤ length found.now.start.now }
{
    match found.token {
        Token::Unreadable => unreadable_length(found.start),
        _ => found.start.len() - found.rest.len(),
    }
}

fn is_end(token: &Token<'_>) -> bool
    ensures { result ≡ is_end token.now }
{
    matches!(token, Token::End)
}

/// The pieces of a text, after the blanks and comments that it begins with.
#[tactic(auto, unfolding(crate::specs::Pieces::pieces_of))]
pub(crate) fn pieces_of<'a>(
    alloc: Global,
    profile: Profile,
    text: &'a [u8],
) -> Result<Vec<Piece<'a>>, AllocError>
    ensures { IfOk result (λ pieces. pieces.items ≡ pieces_of profile text.now) }
{
    let mut pieces = Vec::new(alloc);
    let mut found = first_token(profile, text);
    while !is_end(&found.token) {
        let (octets, behind) = found.start.split_at(token_length(&found));
        let next = first_token(profile, behind);
        let (after, _) = behind.split_at(behind.len() - next.start.len());
        pieces.push(Piece {
            token: found.token,
            octets,
            after,
        })?;
        found = next;
    }
    Ok(pieces)
}

/// The blanks and comments that a text begins with.
pub(crate) fn gap(text: &[u8]) -> &[u8]
    ensures { result.now ≡ gap text.now }
{
    let found = first_token(Profile::Plain, text);
    &text[..text.len() - found.start.len()]
}

fn is_border_sign(sign: Sign) -> bool
    ensures { result ≡ is_border_sign sign }
{
    matches!(
        sign,
        Sign::BlockStart
            | Sign::BlockEnd
            | Sign::Open
            | Sign::Close
            | Sign::Or
            | Sign::And
            | Sign::Not
    )
}

fn is_relating_sign(sign: Sign) -> bool
    ensures { result ≡ is_relating_sign sign }
{
    !(is_border_sign(sign) || matches!(sign, Sign::Reference))
}

impl<'a> Piece<'a> {
    /// A sign at which a comparison or an update line ends.
    pub(crate) fn is_border(&self) -> bool
        ensures { result ≡ is_border self.now.token }
    {
        match &self.token {
            Token::Operator(sign) => is_border_sign(*sign),
            _ => false,
        }
    }

    /// `&`.
    pub(crate) fn is_reference(&self) -> bool
        ensures { result ≡ is_reference self.now.token }
    {
        matches!(&self.token, Token::Operator(Sign::Reference))
    }

    /// A sign that updates or compares.
    pub(crate) fn is_relating(&self) -> bool
        ensures { result ≡ is_relating self.now.token }
    {
        match &self.token {
            Token::Operator(sign) => is_relating_sign(*sign),
            _ => false,
        }
    }

    pub(crate) fn is_word(&self) -> bool
        ensures { result ≡ is_word self.now.token }
    {
        matches!(&self.token, Token::Word(_))
    }

    /// A quoted text, a pattern, or what is no token.
    pub(crate) fn is_literal(&self) -> bool
        ensures { result ≡ is_literal self.now.token }
    {
        matches!(
            &self.token,
            Token::Quoted(_, _) | Token::Matching(_) | Token::Unreadable
        )
    }
}
