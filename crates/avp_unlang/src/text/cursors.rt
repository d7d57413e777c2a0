//! How far a policy text has been read.

ghost use Rattle.std.specs.Prelude.{◌≡◌, ◌≢◌, ◌≤◌, ◌<◌, ◌+◌, ◌^◌, length, IfSome, IfNone, IfErr, IfOk, IsFalse, false};
ghost use Rattle.avp_unlang.specs.Forms.{Takes};
ghost use Rattle.avp_unlang.specs.Tokens.{passed, skipped, next_token};
ghost use Rattle.avp_unlang.specs.Places.{Place, start_of, counted};
ghost use Rattle.avp_unlang.specs.RefusedForms.{Lacks, Misses, Tells, Unfit, left_at};
ghost use Rattle.avp_unlang.specs.Between.{Counts, Follows};
ghost use Rattle.avp_unlang.specs.declared.text.tokens.Token.TheVariants.{End, Operator, Word};

use crate::faults::{PolicyKind, Position, Refusal, refused_at};
use crate::text::pattern_tokens::token_in;
use crate::text::tokens::{Sign, Token, front};
use avp_forms::{Profile, profile_of};
use std::marker::Model;

/// A place in a policy text: what is left of it, on which line that begins, and how much may still be added to the
/// policy's size. The next token is found once, when the place is made.
#[derive(Drop)]
pub(crate) struct Cursor<'a> {
    text: &'a [u8],
    // That of the token before.
    line: usize,
    room: usize,
    // That of the whole text.
    profile: Profile,
    // The next token, where it begins, and the text after it.
    token: Token<'a>,
    position: Position,
    rest: &'a [u8],
}

impl<'a> Model for Cursor<'a> {
    ghost use Rattle.avp_unlang.specs.Places.{Place};
    ghost use Rattle.avp_unlang.specs.internal.Cursors.{IsAhead};

    ghost Value = { Place };

    ghost view = { λ c. record {
      text = c.text.now;
      line = c.line;
      room = c.room;
      profile = c.profile;
    } };

    ghost invariant = { λ c.
        IsAhead c.profile c.text.now c.line c.token c.position.line c.position.left c.rest.now };
}

/// What a reader answers: what it read, and the place after it.
pub(crate) type Read<'a, T> = Result<(T, Cursor<'a>), Refusal>;

#[inline(always)]
#[tactic(auto, unfolding(crate::specs::Tokens::passed))]
fn passed(line: usize, comment: bool, octet: u8) -> Option<(usize, bool)>
    requires { line + 1 < 2 ^ 64 }
    ensures passed { result ≡ passed line comment octet }
    ensures counted { IfSome result (λ p. p.0 ≤ line + 1) }
{
    match octet {
        b'\n' => Some((line + 1, false)),
        _ if comment => Some((line, true)),
        b'#' => Some((line, true)),
        b' ' | b'\t' | b'\r' => Some((line, false)),
        _ => None,
    }
}

/// The line and the text where the next token begins.
#[inline(always)]
pub(crate) fn skipped(line: usize, text: &[u8]) -> (usize, &[u8])
    requires { line + length text.now < 2 ^ 64 }
    ensures skipped { (result.0, result.1.now) ≡ skipped line false text.now }
    ensures counted { result.0 + length result.1.now ≤ line + length text.now }
    ensures shorter { length result.1.now ≤ length text.now }
{
    let mut place = line;
    let mut comment = false;
    let mut rest = text;
    while let Some((octet, after)) = front(rest) {
        match passed(place, comment, octet) {
            None => return (place, rest),
            Some((next, goes_on)) => {
                place = next;
                comment = goes_on;
                rest = after;
            }
        }
    }
    (place, rest)
}

/// The greatest size of a policy.
pub(crate) const MAX_SIZE: usize = 65_535;

impl<'a> Cursor<'a> {
    // A place from its text on.
    fn at(text: &'a [u8], line: usize, room: usize, profile: Profile) -> Cursor<'a>
        requires { line + length text.now < 2 ^ 64 }
        ensures { result ≡ record {
          text = text.now;
          line = line;
          room = room;
          profile = profile;
        } }
    {
        let (token_line, start) = skipped(line, text);
        let (token, rest) = token_in(profile, start);
        Cursor {
            text,
            line,
            room,
            profile,
            token,
            position: Position {
                line: token_line,
                left: start.len(),
            },
            rest,
        }
    }

    /// The beginning of a text.
    pub(crate) fn new(text: &'a [u8]) -> Cursor<'a>
        ensures { result ≡ start_of text.now }
    {
        Cursor::at(text, 1, MAX_SIZE, profile_of(text))
    }

    /// How much may still be added to the size.
    pub(crate) fn room(&self) -> usize
        ensures { result ≡ self.now.room }
    {
        self.room
    }

    /// The same place after so much is added to the size; none where that is too much.
    #[tactic(auto, unfolding(crate::specs::Places::counted))]
    #[inline(always)]
    fn counted(self, count: usize) -> Option<Cursor<'a>>
        ensures value { result ≡ counted count self.entry }
        ensures same { IfSome result (λ start. start.text ≡ self.entry.text) }
    {
        if count > self.room {
            return None;
        }
        let room = self.room - count;
        Some(Cursor { room, ..self })
    }

    /// The same place after so much is added to the size. A refusal is at this token.
    #[inline(always)]
    pub(crate) fn count(self, count: usize, token: Position) -> Result<Cursor<'a>, Refusal>
        ensures taken { Takes (Counts count self.entry) result }
        ensures refused { IfErr result (Tells (Lacks count token.left self.entry)) }
        ensures same { IfOk result (λ start. start.text ≡ self.entry.text) }
    {
        match self.counted(count) {
            Some(start) => Ok(start),
            None => Err(refused_at(token, PolicyKind::TooLarge)),
        }
    }

    /// The line of the token before.
    pub(crate) fn line(&self) -> usize
        ensures { result ≡ self.now.line }
    {
        self.line
    }

    /// The next token.
    #[tactic(auto, unfolding(crate::specs::Tokens::next_token))]
    pub(crate) fn token(&self) -> &Token<'a>
        ensures { result.now ≡ (next_token self.now).0 }
    {
        &self.token
    }

    /// Where the next token begins.
    #[tactic(auto, unfolding(crate::specs::Tokens::next_token, crate::specs::RefusedForms::left_at))]
    pub(crate) fn position(&self) -> Position
        ensures line { result.line ≡ (next_token self.now).1.line }
        ensures place { result.left ≡ left_at self.now }
    {
        self.position
    }

    /// The place after the next token. It finds the token that follows.
    #[tactic(auto, unfolding(crate::specs::Tokens::next_token))]
    #[inline(always)]
    pub(crate) fn after(&self) -> Cursor<'a>
        ensures follows { Follows (next_token self.now).0 self.now result }
        ensures within { length result.text ≤ length self.now.text }
        ensures shorter { (next_token self.now).0 ≢ End
            → length result.text < length self.now.text }
    {
        Cursor::at(self.rest, self.position.line, self.room, self.profile)
    }

    /// The next token, and the place after it.
    #[inline(always)]
    pub(crate) fn next(&self) -> (Token<'a>, Cursor<'a>)
        ensures same { result ≡ next_token self.now }
        ensures within { length result.1.text ≤ length self.now.text }
        ensures shorter { result.0 ≢ End → length result.1.text < length self.now.text }
    {
        (self.token().copy(), self.after())
    }

    /// Whether this operator or bracket comes next.
    #[inline(always)]
    pub(crate) fn is_before(&self, sign: Sign) -> bool
        ensures none { IsFalse result → (rest : Place) → Follows (Operator sign) self.now rest → ⊥ }
    {
        matches!(self.token(), Token::Operator(other) if *other == sign)
    }

    /// The place after this operator or bracket, if it comes next.
    #[inline(always)]
    pub(crate) fn after_sign(&self, sign: Sign) -> Option<Cursor<'a>>
        ensures found { IfSome result (Follows (Operator sign) self.now) }
        ensures none { IfNone result ((rest : Place) → Follows (Operator sign) self.now rest → ⊥) }
        ensures shorter { IfSome result (λ rest. length rest.text < length self.now.text) }
    {
        match self.token() {
            Token::Operator(other) if *other == sign => Some(self.after()),
            _ => None,
        }
    }

    /// The place after this word, if it comes next.
    #[inline(always)]
    pub(crate) fn after_word(&self, word: &[u8]) -> Option<Cursor<'a>>
        ensures found { IfSome result (Follows (Word word.now) self.now) }
        ensures none { IfNone result ((rest : Place) → Follows (Word word.now) self.now rest → ⊥) }
        ensures shorter { IfSome result (λ rest. length rest.text < length self.now.text) }
    {
        match self.token() {
            Token::Word(other) if other.as_slice() == word => Some(self.after()),
            _ => None,
        }
    }

    /// The place after this operator or bracket, which has to come next.
    #[inline(always)]
    pub(crate) fn expect(self, sign: Sign) -> Result<Cursor<'a>, Refusal>
        ensures taken { Takes (Follows (Operator sign) self.entry) result }
        ensures refused { IfErr result (Tells (Misses (Operator sign) self.entry)) }
        ensures shorter { IfOk result (λ rest. length rest.text < length self.entry.text) }
    {
        match self.after_sign(sign) {
            Some(rest) => Ok(rest),
            None => Err(self.unfit()),
        }
    }

    /// The refusal of a next token that does not fit.
    #[inline(always)]
    pub(crate) fn unfit(&self) -> Refusal
        ensures { Unfit self.now result.left result.kind }
    {
        let kind = match self.token() {
            Token::Unreadable => PolicyKind::Unreadable,
            _ => PolicyKind::Misplaced,
        };
        refused_at(self.position(), kind)
    }

    /// The refusal of the next token for this kind.
    #[inline(always)]
    pub(crate) fn refused(&self, kind: PolicyKind) -> Refusal
        ensures kind { result.kind ≡ kind }
        ensures place { result.left ≡ left_at self.now }
    {
        refused_at(self.position(), kind)
    }
}
