//! Tokens of a policy text in a profile: in a wider one a comparison with a pattern is one.

ghost use Rattle.std.specs.Prelude.{◌≡◌, ◌≢◌, ◌≤◌, ◌<◌, ◌∷◌, [], length, option_map, IfSome};
ghost use Rattle.avp_unlang.specs.declared.text.tokens.Token.TheVariants.{End};
ghost use Rattle.avp_unlang.specs.Tokens.{after_blanks, flagged_at, flags_named, match_named, match_sign, pattern_at, token_in};

use crate::text::tokens::{Excerpt, Matcher, Token, front, quoted_length, token_at, word_length};
use avp_forms::Profile;
use avp_patterns::PatternFlags;

#[tactic(auto, unfolding(crate::specs::Tokens::match_named))]
fn match_named(first: u8, second: u8) -> Option<bool>
    ensures { result ≡ match_named (first ∷ second ∷ []) }
{
    match (first, second) {
        (b'=', b'~') => Some(false),
        (b'!', b'~') => Some(true),
        _ => None,
    }
}

fn match_sign(text: &[u8]) -> Option<(bool, &[u8])>
    ensures same { option_map (λ x. (x.0, x.1.now)) result ≡ match_sign text.now }
    ensures shorter { IfSome result (λ x. length x.1.now < length text.now) }
{
    let (first, rest) = front(text)?;
    let (second, after) = front(rest)?;
    let negated = match_named(first, second)?;
    Some((negated, after))
}

fn after_blanks(text: &[u8]) -> &[u8]
    ensures same { result.now ≡ after_blanks text.now }
    ensures shorter { length result.now ≤ length text.now }
{
    let mut rest = text;
    while let [b' ' | b'\t', after @ ..] = rest {
        rest = after;
    }
    rest
}

#[tactic(auto, unfolding(crate::specs::Tokens::flags_named))]
fn flags_named(word: &[u8]) -> Option<PatternFlags>
    ensures { result ≡ flags_named word.now }
{
    let (ignore_case, multi_line) = match word {
        [] => (false, false),
        [b'i'] => (true, false),
        [b'm'] => (false, true),
        [b'i', b'm'] | [b'm', b'i'] => (true, true),
        _ => return None,
    };
    Some(PatternFlags {
        ignore_case,
        multi_line,
    })
}

// The comparison with a pattern whose flags a text begins with.
fn flagged_at<'a>(negated: bool, pattern: Excerpt<'a>, text: &'a [u8]) -> (Token<'a>, &'a [u8])
    ensures same { (result.0, result.1.now) ≡ flagged_at negated pattern.entry text.now }
    ensures shorter { length result.1.now ≤ length text.now }
{
    let (word, rest) = text.split_at(word_length(text));
    match flags_named(word) {
        None => (Token::Unreadable, &text[text.len()..]),
        Some(flags) => {
            let matcher = Matcher {
                negated,
                pattern,
                flags,
            };
            (Token::Matching(matcher), rest)
        }
    }
}

// The comparison with the pattern that a text begins with.
fn pattern_at<'a>(negated: bool, text: &'a [u8]) -> (Token<'a>, &'a [u8])
    ensures same { (result.0, result.1.now) ≡ pattern_at negated text.now }
    ensures shorter { length result.1.now ≤ length text.now }
{
    let nothing = &text[text.len()..];
    let [b'/', rest @ ..] = text else {
        return (Token::Unreadable, nothing);
    };
    match quoted_length(b'/', rest) {
        None => (Token::Unreadable, nothing),
        Some(count) => {
            let pattern = Excerpt::new(&rest[..count]);
            flagged_at(negated, pattern, &rest[count + 1..])
        }
    }
}

/// The token that a text of a profile begins with, and the text after it.
#[inline(always)]
#[tactic(auto, unfolding(crate::specs::Tokens::token_in))]
pub(crate) fn token_in<'a>(profile: Profile, text: &'a [u8]) -> (Token<'a>, &'a [u8])
    ensures same { (result.0, result.1.now) ≡ token_in profile text.now }
    ensures within { length result.1.now ≤ length text.now }
    ensures shorter { result.0 ≢ End → length result.1.now < length text.now }
{
    match profile {
        Profile::Plain => token_at(text),
        Profile::Wider => match match_sign(text) {
            None => token_at(text),
            Some((negated, rest)) => pattern_at(negated, after_blanks(rest)),
        },
    }
}
