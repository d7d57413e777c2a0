//! Runs of octets of one kind in a text, wherever quotes and lines begin and end in it.

use crate::policy_tokens::Token;
use std::alloc::{AllocError, Global};

/// What the octets of a run are.
#[derive(Clone, Copy, Debug, PartialEq, Eq)]
pub(crate) enum Run {
    /// Those of a policy's words.
    PolicyWord,
    /// Those of names in request lines.
    RequestName,
    /// Those of operators.
    Operator,
    /// Blanks within a line.
    Blank,
}

impl Run {
    pub(crate) fn has(self, octet: u8) -> bool {
        match self {
            Run::PolicyWord => octet.is_ascii_alphanumeric() || b"-_./:@".contains(&octet),
            Run::RequestName => !b" \t\r\n,\"'#=".contains(&octet),
            Run::Operator => b"=!<>+^*:-~".contains(&octet),
            Run::Blank => b" \t\r".contains(&octet),
        }
    }

    /// The place where a run ends that begins at another.
    pub(crate) fn end(self, text: &[u8], start: usize) -> usize {
        let rest = text.get(start..).unwrap_or(&[]);
        match rest.iter().position(|octet| !self.has(*octet)) {
            Some(length) => start.saturating_add(length),
            None => text.len(),
        }
    }

    /// What a text has before a run at its end.
    pub(crate) fn before(self, text: &[u8]) -> &[u8] {
        match text.iter().rposition(|octet| !self.has(*octet)) {
            Some(at) => text.get(..at.saturating_add(1)).unwrap_or(text),
            None => &[],
        }
    }

    /// The runs of a text.
    pub(crate) fn all_of<'a>(
        self,
        alloc: Global,
        text: &'a [u8],
    ) -> Result<Vec<Token<'a>>, AllocError> {
        let mut runs = Vec::new(alloc);
        let mut place = 0usize;
        for _ in 0..text.len() {
            let rest = text.get(place..).unwrap_or(&[]);
            let Some(others) = rest.iter().position(|octet| self.has(*octet)) else {
                break;
            };
            let offset = place.saturating_add(others);
            place = self.end(text, offset);
            runs.push(Token {
                offset,
                octets: text.get(offset..place).unwrap_or(&[]),
            })?;
        }
        Ok(runs)
    }
}
