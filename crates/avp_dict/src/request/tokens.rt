//! Tokens of request lines.

ghost use Rattle.std.specs.Prelude.{◌≡◌, ℕ, ◌∷◌, [], ◌++◌, ◌<◌, ◌≤◌, ◌+◌, MatchOption, IfSome, List, length, take, drop, true, false};
ghost use Rattle.std.specs.List.{position, position_or_len};
ghost use Rattle.avp_dict.specs.RefusedPlaces.{is_run};
ghost use Rattle.avp_dict.specs.RequestLines.{Between, Outside, Quoted, Run, Unended, quote_octet, tokens_at, tokens_from};
ghost use Rattle.avp_dict.specs.internal.LineEnds.{IsBlanksBefore, IsLexed};
ghost use Rattle.avp_dict.specs.internal.RequestTokens.{begins_blank, ends_run, is_ended, side_after, token_view};

use crate::file::words::is_blank;
use crate::value::quotes::QuoteMark;

/// A side of the `=` of a pair.
#[derive(Clone, Copy, PartialEq, Eq)]
pub enum Side {
    Name,
    Value,
}

/// What is in a request line.
#[derive(Clone, Copy)]
pub enum Token<'a> {
    Comma,
    /// The `=` between a name and a value.
    Sign,
    /// Octets outside quotes.
    Run(&'a [u8]),
    /// What is between quotes.
    Quoted(QuoteMark, &'a [u8]),
    /// A quote that nothing ends on its line.
    Unended,
}

impl Token<'_> {
    pub(crate) fn is_run(self) -> bool
        ensures { result ≡ is_run (token_view self.entry) }
    {
        matches!(self, Token::Run(_))
    }
}

fn first_octet(octets: &[u8]) -> Option<(u8, &[u8])>
    ensures { MatchOption result (octets.now ≡ []) (λ x. octets.now ≡ x.0 ∷ x.1.now) }
{
    match octets {
        [] => None,
        [first, rest @ ..] => Some((*first, rest)),
    }
}

fn without_blanks(side: Side, line: &[u8]) -> &[u8]
    ensures tokens { tokens_at side result.now ≡ tokens_at side line.now }
    ensures filled { begins_blank result.now ≡ false }
    ensures shorter { length result.now ≤ length line.now }
    ensures blanks { IsBlanksBefore result.now line.now }
{
    let mut rest = line;
    while let Some((octet, after)) = first_octet(rest)
        && is_blank(octet)
    {
        rest = after;
    }
    rest
}

fn ends_run(side: Side, octet: u8) -> bool
    ensures { result ≡ ends_run side octet }
{
    match octet {
        b'#' | b' ' | b'\t' | b'\r' | b',' | b'"' | b'\'' => true,
        b'=' => side == Side::Name,
        _ => false,
    }
}

fn run_end(side: Side, octets: &[u8]) -> Option<usize>
    ensures { result ≡ position (ends_run side) octets.now }
{
    octets.iter().position(|octet| ends_run(side, *octet))
}

// The run before the first octet that ends one, and the rest.
fn cut_run(side: Side, octets: &[u8]) -> (Token<'_>, &[u8])
    ensures token { token_view result.0 ≡ Run
        (take (position_or_len (ends_run side) octets.now) octets.now) }
    ensures side { side_after side result.0 ≡ side }
    ensures rest { result.1.now ≡ drop (position_or_len (ends_run side) octets.now) octets.now }
{
    match run_end(side, octets) {
        Some(end) => (Token::Run(&octets[..end]), &octets[end..]),
        None => (Token::Run(octets), &[]),
    }
}

impl QuoteMark {
    fn octet(self) -> u8
        ensures { result ≡ quote_octet self }
    {
        match self {
            QuoteMark::Double => b'"',
            QuoteMark::Single => b'\'',
        }
    }
}

// Where the text ends whose first quote is before the octets: at its next quote with no `\` of its own before it.
fn text_end(mark: QuoteMark, octets: &[u8]) -> Option<usize>
    ensures text { MatchOption result (tokens_from (Between mark) octets.now ≡ Unended ∷ [])
        (λ end. (more : List ℕ) → tokens_from (Between mark) (take (end + 1) octets.now ++ more)
        ≡ Quoted mark (take end octets.now) ∷ tokens_from (Outside Side.Value) more) }
    ensures within { IfSome result (λ end. end < length octets.now) }
{
    let mut is_escaped = false;
    for (place, octet) in octets.iter().enumerate() {
        if is_escaped {
            is_escaped = false;
        } else if *octet == mark.octet() {
            return Some(place);
        } else {
            is_escaped = *octet == b'\\';
        }
    }
    None
}

// The quoted text whose first quote is before the octets, and what follows it.
fn cut_quoted(mark: QuoteMark, octets: &[u8]) -> (Token<'_>, &[u8])
    ensures token { (side : Side) → tokens_at side (quote_octet mark ∷ octets.now)
        ≡ token_view result.0 ∷ tokens_at (side_after side result.0) result.1.now }
    ensures shorter { length result.1.now ≤ length octets.now }
    ensures lexed { (side : Side) → is_ended (token_view result.0) ≡ true → IsLexed side
        (quote_octet mark ∷ octets.now) (token_view result.0 ∷ []) (side_after side result.0)
        result.1.now }
{
    match text_end(mark, octets) {
        Some(end) => (Token::Quoted(mark, &octets[..end]), &octets[end + 1..]),
        None => (Token::Unended, &[]),
    }
}

/// The first token of a line from one side of the `=` on, and what follows it.
#[tactic(auto, using(crate::proofs::Lexing::lexing))]
pub fn next_token(side: Side, line: &[u8]) -> Option<(Token<'_>, &[u8])>
    ensures token { MatchOption result (tokens_at side line.now ≡ [])
        (λ x. tokens_at side line.now ≡ token_view x.0 ∷ tokens_at (side_after side x.0) x.1.now) }
    ensures shorter { IfSome result (λ x. length x.1.now < length line.now) }
    ensures lexed { IfSome result (λ x. is_ended (token_view x.0) ≡ true → IsLexed side line.now
        (token_view x.0 ∷ []) (side_after side x.0) x.1.now) }
{
    let filled = without_blanks(side, line);
    match first_octet(filled) {
        None | Some((b'#', _)) => None,
        Some((b',', rest)) => Some((Token::Comma, rest)),
        Some((b'"', rest)) => Some(cut_quoted(QuoteMark::Double, rest)),
        Some((b'\'', rest)) => Some(cut_quoted(QuoteMark::Single, rest)),
        Some((b'=', rest)) if side == Side::Name => Some((Token::Sign, rest)),
        Some(_) => Some(cut_run(side, filled)),
    }
}
