//! The tokens of a policy's text one by one, as the reader of policies takes them, for those who show the text.

ghost use Rattle.std.specs.Prelude.{◌≡◌, ◌≢◌, ◌≤◌, ◌<◌, length};
ghost use Rattle.avp_unlang.specs.Faults.{from_token};
ghost use Rattle.avp_unlang.specs.Tokens.{token_in};
ghost use Rattle.avp_unlang.specs.declared.text.tokens.Token.TheVariants.{End};

use crate::text::pattern_tokens::token_in;
use crate::text::positions::from_token;
use crate::text::tokens::Token;
use avp_forms::Profile;

/// The first token of a text.
#[derive(Drop)]
pub struct FirstToken<'a> {
    /// The text from the token on, without the blanks and comments before it.
    pub start: &'a [u8],
    pub token: Token<'a>,
    /// The text after the token. Nothing is left after one that is not readable.
    pub rest: &'a [u8],
}

/// The first token of a text of a profile, which is the policy's ([`profile_of`](avp_forms::profile_of) its whole text).
/// The tokens of a policy are found by this again and again, in what is left after each, until the end is the token.
pub fn first_token<'a>(profile: Profile, text: &'a [u8]) -> FirstToken<'a>
    ensures start { result.start.now ≡ from_token text.now }
    ensures token { (result.token, result.rest.now) ≡ token_in profile (from_token text.now) }
    ensures within { length result.start.now ≤ length text.now }
    ensures after { length result.rest.now ≤ length result.start.now }
    ensures shorter { result.token ≢ End → length result.rest.now < length result.start.now }
{
    let start = from_token(text);
    let (token, rest) = token_in(profile, start);
    FirstToken { start, token, rest }
}
