//! The tokens of a policy text.

ghost use Rattle.std.specs.Prelude.{◌≡◌, ◌≢◌, ◌≤◌, ◌<◌, [], ◌∷◌, ℕ, length, MatchOption, IfSome, IsTrue, None, false, option_map};
ghost use Rattle.avp_unlang.specs.declared.text.tokens.Token.TheVariants.{End};
ghost use Rattle.avp_unlang.specs.Tokens.{is_in_word, word_length, quoted_length, quoted_at, word_at, sign_named, operator_at, quote_of, text_at, token_at};

use avp_dict::QuoteMark;
use avp_patterns::PatternFlags;
use std::marker::Model;

/// A run of octets of the text, seen by contracts as their list.
#[derive(Drop)]
pub struct Excerpt<'a> {
    octets: &'a [u8],
}

impl<'a> Model for Excerpt<'a> {
    ghost use Rattle.std.specs.Prelude.{List, ℕ};

    ghost Value = { List ℕ };

    ghost view = { λ e. e.octets.now };
}

/// An operator or a bracket.
#[derive(Clone, Copy, PartialEq, Eq)]
pub enum Sign {
    /// `{`
    BlockStart,
    /// `}`
    BlockEnd,
    /// `(`
    Open,
    /// `)`
    Close,
    /// `||`
    Or,
    /// `&&`
    And,
    /// `!`
    Not,
    /// `&`
    Reference,
    /// `=`
    AddNew,
    /// `:=`
    Replace,
    /// `+=`
    Append,
    /// `^=`
    Prepend,
    /// `-=`
    RemoveEqual,
    /// `!*`
    RemoveAll,
    /// `==`
    Equal,
    /// `!=`
    Differs,
    /// `<`
    Less,
    /// `<=`
    AtMost,
    /// `>`
    Greater,
    /// `>=`
    AtLeast,
}

/// A comparison with a pattern.
#[derive(Drop)]
pub struct Matcher<'a> {
    /// The octets between the slashes, as they are in the text.
    pub pattern: Excerpt<'a>,
    /// Whether its sign is `!~` and not `=~`.
    pub negated: bool,
    pub flags: PatternFlags,
}

/// What a text begins with, after blanks and comments.
#[derive(Drop)]
pub enum Token<'a> {
    Operator(Sign),
    Word(Excerpt<'a>),
    /// The octets between the quotes, as they are in the text.
    Quoted(QuoteMark, Excerpt<'a>),
    /// `=~` or `!~` in a wider policy, and a pattern.
    Matching(Matcher<'a>),
    /// No token begins here.
    Unreadable,
    /// The end of the text.
    End,
}

impl<'a> Excerpt<'a> {
    pub(crate) fn new(octets: &'a [u8]) -> Excerpt<'a>
        ensures { result ≡ octets.now }
    {
        Excerpt { octets }
    }

    pub(crate) fn copy(&self) -> Excerpt<'a>
        ensures { result ≡ self.now }
    {
        Excerpt {
            octets: self.octets,
        }
    }

    /// The octets.
    pub fn as_slice(&self) -> &'a [u8]
        ensures { result.now ≡ self.now }
    {
        self.octets
    }
}

impl<'a> Matcher<'a> {
    pub(crate) fn copy(&self) -> Matcher<'a>
        ensures { result ≡ self.now }
    {
        Matcher {
            negated: self.negated,
            pattern: self.pattern.copy(),
            flags: self.flags,
        }
    }
}

impl<'a> Token<'a> {
    pub(crate) fn copy(&self) -> Token<'a>
        ensures { result ≡ self.now }
    {
        match self {
            Token::Operator(sign) => Token::Operator(*sign),
            Token::Word(text) => Token::Word(text.copy()),
            Token::Quoted(mark, text) => Token::Quoted(*mark, text.copy()),
            Token::Matching(matcher) => Token::Matching(matcher.copy()),
            Token::Unreadable => Token::Unreadable,
            Token::End => Token::End,
        }
    }
}

/// The first octet and those after it.
#[inline(always)]
pub(crate) fn front(text: &[u8]) -> Option<(u8, &[u8])>
    ensures { MatchOption result (text.now ≡ []) (λ p. text.now ≡ p.0 ∷ p.1.now) }
{
    let (first, rest) = text.split_first()?;
    Some((*first, rest))
}

#[inline(always)]
#[tactic(auto, unfolding(crate::specs::Tokens::is_in_word, crate::specs::Tokens::is_word_octet))]
fn is_in_word(octet: u8, after: &[u8]) -> bool
    ensures { result ≡ is_in_word octet after.now }
{
    if octet.is_ascii_alphabetic() {
        return true;
    }
    match octet {
        b'0'..=b'9' | b'_' | b'.' | b'/' | b'@' => true,
        b'-' | b':' => after.first() != Some(&b'='),
        _ => false,
    }
}

#[inline(always)]
pub(crate) fn word_length(text: &[u8]) -> usize
    ensures same { result ≡ word_length text.now }
    ensures within { result ≤ length text.now }
{
    let mut count = 0;
    let mut rest = text;
    while let Some((octet, after)) = front(rest) {
        if !is_in_word(octet, after) {
            return count;
        }
        count += 1;
        rest = after;
    }
    count
}

pub(crate) fn quoted_length(closing: u8, text: &[u8]) -> Option<usize>
    ensures same { result ≡ quoted_length closing false text.now }
    ensures within { IfSome result (λ n. n < length text.now) }
{
    let mut count = 0;
    let mut escaped = false;
    let mut rest = text;
    while let Some((octet, after)) = front(rest) {
        if octet == b'\n' {
            return None;
        }
        if !escaped && octet == closing {
            return Some(count);
        }
        escaped = !escaped && octet == b'\\';
        count += 1;
        rest = after;
    }
    None
}

#[inline(always)]
#[tactic(auto, unfolding(crate::specs::Tokens::sign_named))]
fn double(first: u8, second: u8) -> Option<Sign>
    ensures { result ≡ sign_named (first ∷ second ∷ []) }
{
    match (first, second) {
        (b'|', b'|') => Some(Sign::Or),
        (b'&', b'&') => Some(Sign::And),
        (b'!', b'*') => Some(Sign::RemoveAll),
        (b'!', b'=') => Some(Sign::Differs),
        (b'=', b'=') => Some(Sign::Equal),
        (b':', b'=') => Some(Sign::Replace),
        (b'+', b'=') => Some(Sign::Append),
        (b'^', b'=') => Some(Sign::Prepend),
        (b'-', b'=') => Some(Sign::RemoveEqual),
        (b'<', b'=') => Some(Sign::AtMost),
        (b'>', b'=') => Some(Sign::AtLeast),
        _ => None,
    }
}

#[inline(always)]
#[tactic(auto, unfolding(crate::specs::Tokens::sign_named))]
fn single(octet: u8) -> Option<Sign>
    ensures { result ≡ sign_named (octet ∷ []) }
{
    match octet {
        b'{' => Some(Sign::BlockStart),
        b'}' => Some(Sign::BlockEnd),
        b'(' => Some(Sign::Open),
        b')' => Some(Sign::Close),
        b'!' => Some(Sign::Not),
        b'&' => Some(Sign::Reference),
        b'=' => Some(Sign::AddNew),
        b'<' => Some(Sign::Less),
        b'>' => Some(Sign::Greater),
        _ => None,
    }
}

// Whether no operator begins with this octet.
#[inline(always)]
#[tactic(auto, unfolding(crate::specs::Tokens::sign_named))]
fn begins_no_operator(octet: u8) -> bool
    ensures single { IsTrue result → sign_named (octet ∷ []) ≡ None }
    ensures double { IsTrue result → (second : ℕ) → sign_named (octet ∷ second ∷ []) ≡ None }
{
    octet.is_ascii_alphabetic()
}

#[inline(always)]
#[tactic(auto, unfolding(crate::specs::Tokens::operator_at))]
fn operator_at(text: &[u8]) -> Option<(Sign, &[u8])>
    ensures same { option_map (λ x. (x.0, x.1.now)) result ≡ operator_at text.now }
    ensures shorter { IfSome result (λ x. length x.1.now < length text.now) }
{
    let (first, rest) = front(text)?;
    if begins_no_operator(first) {
        return None;
    }
    if let Some((second, after)) = front(rest) {
        if let Some(sign) = double(first, second) {
            return Some((sign, after));
        }
    }
    let sign = single(first)?;
    Some((sign, rest))
}

#[inline(always)]
fn quoted_at<'a>(mark: QuoteMark, closing: u8, text: &'a [u8]) -> (Token<'a>, &'a [u8])
    ensures same { (result.0, result.1.now) ≡ quoted_at mark text.now
        (quoted_length closing false text.now) }
    ensures shorter { length result.1.now ≤ length text.now }
{
    match quoted_length(closing, text) {
        None => (Token::Unreadable, &text[text.len()..]),
        Some(count) => {
            let octets = &text[..count];
            (Token::Quoted(mark, Excerpt { octets }), &text[count + 1..])
        }
    }
}

#[inline(always)]
fn word_at<'a>(text: &'a [u8]) -> (Token<'a>, &'a [u8])
    requires { 0 < length text.now }
    ensures same { (result.0, result.1.now) ≡ word_at text.now (word_length text.now) }
    ensures shorter { length result.1.now < length text.now }
{
    match word_length(text) {
        0 => (Token::Unreadable, &text[text.len()..]),
        count => {
            let octets = &text[..count];
            (Token::Word(Excerpt { octets }), &text[count..])
        }
    }
}

#[tactic(auto, unfolding(crate::specs::Tokens::quote_of))]
fn quote_of(octet: u8) -> Option<QuoteMark>
    ensures { result ≡ quote_of octet }
{
    match octet {
        b'"' => Some(QuoteMark::Double),
        b'\'' => Some(QuoteMark::Single),
        _ => None,
    }
}

/// The token that a text begins with, and the text after it.
#[inline(always)]
#[tactic(auto, unfolding(crate::specs::Tokens::token_at, crate::specs::Tokens::text_at))]
pub(crate) fn token_at<'a>(text: &'a [u8]) -> (Token<'a>, &'a [u8])
    ensures same { (result.0, result.1.now) ≡ token_at text.now }
    ensures within { length result.1.now ≤ length text.now }
    ensures shorter { result.0 ≢ End → length result.1.now < length text.now }
{
    if let Some((sign, rest)) = operator_at(text) {
        return (Token::Operator(sign), rest);
    }
    match front(text) {
        None => (Token::End, text),
        Some((octet, rest)) => match quote_of(octet) {
            None => word_at(text),
            Some(found) => quoted_at(found, octet, rest),
        },
    }
}
