//! What is found at a place of a policy.

use crate::places::Quoted;
use crate::policy_tokens::{from_token, text_of, token_of};

/// What a policy has at a place.
#[derive(Clone, Copy)]
pub(crate) struct Found<'a> {
    /// The text from the place on.
    pub back: &'a [u8],
    /// The token there.
    pub token: &'a str,
    /// What is shown of it.
    pub shown: &'a str,
    /// The token after it.
    pub next: &'a str,
}

impl<'a> Found<'a> {
    /// What is found at a place of a policy that is quoted.
    pub(crate) fn at(quoted: Quoted<'a>, offset: usize) -> Found<'a> {
        let text = quoted.source.text;
        let (_, back) = text.split_at(offset.min(text.len()));
        let octets = token_of(back);
        let token = text_of(octets);
        let after = back.get(octets.len()..).unwrap_or(&[]);
        Found {
            back,
            token,
            shown: quoted.hidden.shown(text, offset, token),
            next: text_of(token_of(from_token(after))),
        }
    }

    /// Whether the token is hidden.
    pub(crate) fn is_hidden(&self) -> bool {
        self.shown != self.token
    }
}
