//! A policy's text without one of its statements, so that the rest of it can be read on.

use crate::contexts::is_code;
use crate::policy_tokens::{Token, tokens};
use std::alloc::{AllocError, Global};

/// The statement at the top of a policy that is being gone over.
#[derive(Clone, Copy, Drop)]
struct Statement {
    /// Where it begins.
    start: usize,
    blocks: usize,
    brackets: usize,
}

fn begins_statement(word: &str) -> bool {
    matches!(word, "update" | "if" | "transaction") || is_code(word)
}

impl Statement {
    // How many blocks and brackets are open after a token.
    fn read(&mut self, token: Token<'_>) {
        match token.text() {
            "{" => self.blocks = self.blocks.saturating_add(1),
            "}" => self.blocks = self.blocks.saturating_sub(1),
            "(" => self.brackets = self.brackets.saturating_add(1),
            ")" => self.brackets = self.brackets.saturating_sub(1),
            _ => {}
        }
    }

    // Whether it ends with a token, before the next.
    fn ends(&self, token: Token<'_>, next: Option<&Token<'_>>) -> bool {
        if self.blocks > 0 || self.brackets > 0 {
            return false;
        }
        let next = match next {
            Some(next) => next.text(),
            None => return true,
        };
        match token.text() {
            "}" => !matches!(next, "elsif" | "else"),
            word if token.offset == self.start => is_code(word) || begins_statement(next),
            _ => begins_statement(next),
        }
    }
}

fn with_blanks(
    alloc: Global,
    text: &[u8],
    start: usize,
    end: usize,
) -> Result<Vec<u8>, AllocError> {
    let mut made = Vec::new(alloc);
    for (at, octet) in text.iter().enumerate() {
        let is_kept = at < start || end <= at || *octet == b'\n';
        made.push(if is_kept { *octet } else { b' ' })?;
    }
    Ok(made)
}

/// The policy with blanks in place of the statement, outside of all blocks, in which this place is, so that lines and
/// offsets stay as they are. None where its end is not clear: a block or a bracket of it is not closed.
pub fn without_statement(
    alloc: Global,
    text: &[u8],
    offset: usize,
) -> Result<Option<Vec<u8>>, AllocError> {
    let tokens = tokens(alloc, text)?;
    let mut open: Option<Statement> = None;
    for (at, token) in tokens.iter().enumerate() {
        let mut statement = open.unwrap_or(Statement {
            start: token.offset,
            blocks: 0,
            brackets: 0,
        });
        statement.read(*token);
        let end = token.offset.saturating_add(token.octets.len());
        open = Some(statement);
        if statement.ends(*token, tokens.get(at.saturating_add(1))) {
            if statement.start <= offset && offset < end {
                return Ok(Some(with_blanks(alloc, text, statement.start, end)?));
            }
            open = None;
        }
    }
    Ok(None)
}
