//! Words of a text that can't be read which speak of secrets, and what is hidden beside them.

use crate::hidden::Hidden;
use crate::packets::has_packet_digits;
use crate::places::{first_quote, is_quote, last_line, quoted_from};
use crate::policies::STATEMENT_WORDS;
use crate::policy_tokens::{Token, from_token};
use crate::runs::Run;
use crate::unclear_operands::hide_unclear;
use crate::unread_secrets::{UnreadSecrets, parts};
use avp_dict::next_line;
use radpolicy_common::unread_shown;
use std::alloc::{AllocError, Global};

/// What is taken for a secret in a text that can't be read.
#[derive(Clone, Copy)]
struct Suspects<'a> {
    secrets: &'a UnreadSecrets<'a>,
    /// A name that is misspelt, where it is near to that of a secret attribute.
    misspelt: &'a [u8],
}

/// How a word speaks of a secret.
#[derive(Clone, Copy, PartialEq, Eq)]
enum Mention {
    /// As a secret attribute does.
    Attribute,
    /// By what it says, though it is no attribute: so do names of other things.
    Name,
}

impl Suspects<'_> {
    fn is_misspelt(&self, alloc: Global, word: &[u8]) -> Result<bool, AllocError> {
        let misspelt = self
            .misspelt
            .split(|octet| *octet == b':')
            .next()
            .unwrap_or(&[]);
        Ok(!misspelt.is_empty() && parts(alloc, word)?.iter().any(|part| *part == misspelt))
    }

    fn mention(
        &self,
        alloc: Global,
        word: &[u8],
        is_expanded: bool,
    ) -> Result<Option<Mention>, AllocError> {
        let is_capture = is_expanded && self.secrets.captures(word);
        Ok(if is_capture
            || self.secrets.names_secret(alloc, word)?
            || self.is_misspelt(alloc, word)?
        {
            Some(Mention::Attribute)
        } else if self.secrets.speaks_of_secret(alloc, word)? {
            Some(Mention::Name)
        } else {
            None
        })
    }

    // What is hidden of a text. Where parts of the text that was first read are blank in it, what was hidden beside them
    // is hidden as well.
    fn hidden_of(&self, alloc: Global, text: &[u8]) -> Result<Hidden, AllocError> {
        let mut hidden = Hidden::none(alloc);
        self.hide_in(&mut hidden, text)?;
        let whole = self.secrets.text();
        if whole.len() == text.len() && whole != text {
            self.hide_in(&mut hidden, whole)?;
        }
        Ok(hidden)
    }

    fn hide_in(&self, hidden: &mut Hidden, text: &[u8]) -> Result<(), AllocError> {
        let alloc = hidden.allocator();
        if !self.misspelt.is_empty() || self.secrets.may_be_in(alloc, text)? {
            hidden.add_unlike(text, &unread_shown(alloc, self.secrets.redaction(), text)?)?;
        }
        self.hide_beside(hidden, text, &Run::PolicyWord.all_of(alloc, text)?)?;
        self.hide_beside(hidden, text, &Run::RequestName.all_of(alloc, text)?)?;
        hide_packets(hidden, text)?;
        if self.secrets.is_named() {
            hide_unclear(hidden, self.secrets, text)?;
        }
        Ok(())
    }

    // Hides what is beside those of the words that speak of a secret.
    fn hide_beside(
        &self,
        hidden: &mut Hidden,
        text: &[u8],
        words: &[Token<'_>],
    ) -> Result<(), AllocError> {
        let alloc = hidden.allocator();
        let mut covered = 0usize;
        for word in words {
            if word.offset < covered {
                continue;
            }
            let is_expanded = text.get(..word.offset).unwrap_or(text).ends_with(b"%{");
            if let Some(mention) = self.mention(alloc, word.octets, is_expanded)? {
                let place = Spot {
                    text,
                    start: word.offset,
                    end: word.offset.saturating_add(word.octets.len()),
                    is_expanded,
                };
                place.hide_before(hidden, self.secrets)?;
                place.hide_behind(hidden, self.secrets, mention)?;
                if let Some(at) = self.secrets.joint_in(word.octets) {
                    hidden.add(word.offset.saturating_add(at))?;
                }
                covered = hidden.covered_to(text, word.offset);
            }
        }
        Ok(())
    }
}

/// Where a word is in a text that speaks of a secret.
#[derive(Clone, Copy)]
struct Spot<'a> {
    text: &'a [u8],
    start: usize,
    end: usize,
    /// Whether it is that of an expansion.
    is_expanded: bool,
}

// Whether what is between two places is on one line.
fn is_one_line(text: &[u8], start: usize, end: usize) -> bool {
    !text.get(start..end).unwrap_or(&[]).contains(&b'\n')
}

// Whether signs close what a name stands in, so that nothing is compared with it or given to it.
fn is_closing(rest: &[u8]) -> bool {
    rest.is_empty()
        || rest.starts_with(b"&&")
        || rest.starts_with(b"||")
        || rest.first().is_some_and(|octet| b"){},#".contains(octet))
}

// Whether what comes after a name may be its value: on its line all but what closes what the name stands in, and on a
// later one a word that is no attribute's and begins no statement.
fn may_be_value(secrets: &UnreadSecrets<'_>, rest: &[u8], is_near: bool) -> bool {
    if is_near {
        return !is_closing(rest);
    }
    let word = rest.get(..Run::PolicyWord.end(rest, 0)).unwrap_or(&[]);
    let is_statement = STATEMENT_WORDS.iter().any(|known| known.as_bytes() == word);
    !word.is_empty() && !is_statement && !secrets.is_attribute(word)
}

impl Spot<'_> {
    // Where the next token begins, on whatever line.
    fn token_from(&self, place: usize) -> usize {
        let rest = from_token(self.text.get(place..).unwrap_or(&[]));
        self.text.len().saturating_sub(rest.len())
    }

    // The place behind the next quote on the line of a place.
    fn behind_quote(&self, place: usize) -> Option<usize> {
        let rest = self.text.get(place..)?;
        let at = rest
            .iter()
            .position(|octet| is_quote(*octet) || *octet == b'\n')?;
        if rest.get(at) == Some(&b'\n') {
            return None;
        }
        Some(place.saturating_add(at).saturating_add(1))
    }

    // Where what follows begins: behind the text, if the word is one of an expansion in it or the last of a text.
    fn behind(&self) -> Option<usize> {
        let is_last = match self.text.get(self.end) {
            Some(octet) => is_quote(*octet) && self.is_quoted(*octet),
            None => false,
        };
        if self.is_expanded || is_last {
            self.behind_quote(self.end)
        } else {
            Some(self.end)
        }
    }

    // Whether a quote was begun on the line before the word.
    fn is_quoted(&self, quote: u8) -> bool {
        let front = last_line(self.text.get(..self.start).unwrap_or(self.text));
        front.iter().filter(|octet| **octet == quote).count() % 2 == 1
    }

    // Hides what follows the word: what is behind an operator, or what takes its place.
    fn hide_behind(
        &self,
        hidden: &mut Hidden,
        secrets: &UnreadSecrets<'_>,
        mention: Mention,
    ) -> Result<(), AllocError> {
        let Some(behind) = self.behind() else {
            return hidden.add(self.end);
        };
        let next = self.token_from(behind);
        let rest = self.text.get(next..).unwrap_or(&[]);
        let is_near = is_one_line(self.text, behind, next);
        match rest {
            [octet, ..] if Run::Operator.has(*octet) => {
                let value = Run::Operator.end(self.text, next);
                hidden.add(Run::Blank.end(self.text, value))?;
                hidden.add(self.token_from(value))
            }
            [octet, ..]
                if mention == Mention::Attribute
                    && (is_quote(*octet) || may_be_value(secrets, rest, is_near)) => {
                hidden.add(next)
            }
            [b'{', ..] if self.is_switched() => hidden.add(next),
            _ if mention == Mention::Name => self.hide_quoted(hidden, behind),
            _ => Ok(()),
        }
    }

    // Whether the word is what a server's `switch` goes by.
    fn is_switched(&self) -> bool {
        self.before().trim_ascii_end().ends_with(b"switch")
    }

    // Hides the text between quotes that comes next on the line, unless the word is itself in one.
    fn hide_quoted(&self, hidden: &mut Hidden, place: usize) -> Result<(), AllocError> {
        if self.is_quoted(b'"') || self.is_quoted(b'\'') {
            return Ok(());
        }
        match self.behind_quote(place) {
            Some(after) => hidden.add(after.saturating_sub(1)),
            None => Ok(()),
        }
    }

    // The text before the word, or before the text in whose expansion it is.
    fn before(&self) -> &[u8] {
        let front = self.text.get(..self.start).unwrap_or(self.text);
        if !self.is_expanded {
            return Run::Blank.before(front).strip_suffix(b"&").unwrap_or(front);
        }
        let line = last_line(front);
        match line.iter().rposition(|octet| is_quote(*octet)) {
            Some(at) => {
                let place = front.len().saturating_sub(line.len()).saturating_add(at);
                front.get(..place).unwrap_or(front)
            }
            // (its quote may be missing)
            None => Run::PolicyWord.before(front.strip_suffix(b"%{").unwrap_or(front)),
        }
    }

    // Whether there is more in a text than the expansion that the word is in.
    fn is_in_longer_text(&self, opening: usize) -> bool {
        let first = opening.saturating_add(3) < self.start;
        let last = match self.text.get(self.end..) {
            Some([b'}', octet, ..]) => !is_quote(*octet),
            _ => true,
        };
        first || last
    }

    // Hides what is compared with the word: a text, or a word that is no attribute's; and what is beside an expansion in
    // one text.
    fn hide_before(
        &self,
        hidden: &mut Hidden,
        secrets: &UnreadSecrets<'_>,
    ) -> Result<(), AllocError> {
        let before = self.before();
        if self.is_expanded && self.is_in_longer_text(before.len()) {
            hidden.add(before.len())?;
        }
        let near = Run::Blank.before(before);
        let left = Run::Operator.before(before.trim_ascii_end());
        let operand = left.trim_ascii_end();
        if left.len() < before.trim_ascii_end().len() {
            return hide_operand(hidden, self.text, operand, secrets);
        }
        match near {
            [.., octet] if is_quote(*octet) => {
                hidden.add(first_quote(self.text, near.len()).unwrap_or(near.len()))
            }
            _ => Ok(()),
        }
    }
}

// Hides lines that may be a packet in hexadecimal digits: they give nothing a value.
fn hide_packets(hidden: &mut Hidden, text: &[u8]) -> Result<(), AllocError> {
    let mut rest = text;
    for _ in 0..text.len() {
        let Some((line, after)) = next_line(rest) else {
            break;
        };
        if !line.contains(&b'=') && has_packet_digits(line) {
            hidden.add(text.len().saturating_sub(rest.len()))?;
        }
        rest = after;
    }
    Ok(())
}

// Hides what a text ends with: a text between quotes, or a word that is no attribute's.
fn hide_operand(
    hidden: &mut Hidden,
    text: &[u8],
    front: &[u8],
    secrets: &UnreadSecrets<'_>,
) -> Result<(), AllocError> {
    let quote = first_quote(text, front.len()).unwrap_or(front.len());
    let start = Run::PolicyWord.before(front).len();
    let word = front.get(start..).unwrap_or(&[]);
    match front {
        [.., octet] if is_quote(*octet) => hidden.add(quoted_from(text, front.len())),
        _ if word.is_empty() || secrets.is_attribute(word) => Ok(()),
        _ => hidden.add(quote.min(start)),
    }
}

/// What is hidden of a text that can't be read, in which a name is misspelt that is near to that of a secret attribute,
/// or the empty one.
pub(crate) fn hidden_of(
    alloc: Global,
    secrets: &UnreadSecrets<'_>,
    text: &[u8],
    misspelt: &[u8],
) -> Result<Hidden, AllocError> {
    Suspects { secrets, misspelt }.hidden_of(alloc, text)
}
