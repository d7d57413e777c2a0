//! Conditions that a server groups otherwise, or refuses, and texts that nobody expands. A tree has neither parentheses
//! nor quotes, so they are looked for in the text.

use crate::policy_tokens::{Token, tokens};
use policy_warnings::{Joint, regroups};
use std::alloc::{AllocError, Global};

// The signs between the conditions of each open parenthesis, and where the last `if` or `elsif` is.
#[derive(Drop)]
struct Levels {
    alloc: Global,
    open: Vec<Vec<Joint>>,
    begin: usize,
}

impl Levels {
    fn add(&mut self, joint: Joint) -> Result<(), AllocError> {
        if let Some(level) = self.open.last_mut() {
            level.push(joint)?;
        }
        Ok(())
    }

    // Reads a token, and says whether it closes a parenthesis within which a server groups otherwise.
    fn read(&mut self, token: &Token<'_>) -> Result<bool, AllocError> {
        match token.text() {
            "if" | "elsif" => self.begin = token.offset,
            "(" => self.open.push(Vec::new(self.alloc))?,
            "&&" => self.add(Joint::And)?,
            "||" => self.add(Joint::Or)?,
            ")" => {
                return Ok(match self.open.pop() {
                    Some(level) => regroups(&level),
                    None => false,
                });
            }
            _ => {}
        }
        Ok(false)
    }
}

// Whether a token is a sign by which a condition compares.
fn is_comparison(sign: &str) -> bool {
    matches!(sign, "==" | "!=" | "<" | "<=" | ">" | ">=")
}

/// Where a text without quotes begins that a condition compares, and that a server takes for a regular expression: how
/// many octets of the policy's text are before it.
pub(crate) fn slashed(alloc: Global, text: &[u8]) -> Result<Vec<usize>, AllocError> {
    let mut found = Vec::new(alloc);
    let mut is_compared = false;
    let mut open: usize = 0;
    for token in &tokens(alloc, text)? {
        if is_compared && token.octets.starts_with(b"/") {
            found.push(token.offset)?;
        }
        match token.text() {
            "(" => open = open.saturating_add(1),
            ")" => open = open.saturating_sub(1),
            _ => {}
        }
        is_compared = open > 0 && is_comparison(token.text());
    }
    Ok(found)
}

/// Where a text between single quotes begins that has an expansion in it: how many octets of the policy's text are before
/// it.
pub(crate) fn unexpanded(alloc: Global, text: &[u8]) -> Result<Vec<usize>, AllocError> {
    let mut found = Vec::new(alloc);
    for token in &tokens(alloc, text)? {
        if token.octets.starts_with(b"'") && token.text().contains("%{") {
            found.push(token.offset)?;
        }
    }
    Ok(found)
}

/// Where the `if` or `elsif` is of each condition that a server groups otherwise: how many octets of the policy's text
/// are before it.
pub(crate) fn regrouped(alloc: Global, text: &[u8]) -> Result<Vec<usize>, AllocError> {
    let mut levels = Levels {
        alloc,
        open: Vec::new(alloc),
        begin: 0,
    };
    let mut found = Vec::new(alloc);
    for token in &tokens(alloc, text)? {
        if levels.read(token)? && found.last() != Some(&levels.begin) {
            found.push(levels.begin)?;
        }
    }
    Ok(found)
}
