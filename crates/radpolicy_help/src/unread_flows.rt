//! Attributes to which a policy that can't be read seems to give secret values.

use crate::policy_tokens::{Token, is_update_operator, tokens};
use crate::runs::Run;
use crate::unread_secrets::UnreadSecrets;
use avp_lists::AttrId;
use std::alloc::{AllocError, Global};

/// An attribute that takes a value.
#[derive(Clone, Copy, Drop)]
struct Flow {
    /// The attribute that has the value; none of what was captured.
    from: Option<AttrId>,
    to: AttrId,
    is_secret: bool,
}

/// The flows of a policy's text.
#[derive(Drop)]
pub(crate) struct Flows {
    flows: Vec<Flow>,
}

// The attribute in a word, in whatever list and with whatever tag.
fn attribute_in(secrets: &UnreadSecrets<'_>, word: &[u8]) -> Option<AttrId> {
    let name = word
        .split(|octet| *octet == b':')
        .find(|part| secrets.id_of(part).is_some())?;
    secrets.id_of(name)
}

fn has_operator(token: Option<&Token<'_>>) -> bool {
    match token {
        Some(token) => is_update_operator(token.text()),
        None => false,
    }
}

// Whether a token is a sign that sets or compares.
fn is_sign(token: Token<'_>) -> bool {
    Run::Operator.before(token.octets).is_empty()
}

// Where a reader of a text is: whether in a condition, which attribute takes what follows, and whether its name is on the
// same line; where the last token ended, and whether it was a sign, after which what it begins goes on.
#[derive(Clone, Copy)]
struct Reader {
    in_condition: bool,
    target: Option<AttrId>,
    is_on_line: bool,
    end: usize,
    goes_on: bool,
}

impl Reader {
    fn new() -> Reader {
        Reader {
            in_condition: false,
            target: None,
            is_on_line: false,
            end: 0,
            goes_on: false,
        }
    }

    // Goes on to a token, which may be on a later line.
    fn reach(&mut self, text: &[u8], token: Token<'_>) {
        let between = text.get(self.end..token.offset).unwrap_or(&[]);
        if between.contains(&b'\n') && !self.goes_on {
            self.is_on_line = false;
        }
        self.end = token.offset.saturating_add(token.octets.len());
        self.goes_on = is_sign(token);
    }

    // Reads a token, and gives the attribute that may take it. What stands on the line of an attribute's name may all be
    // part of its value, whatever signs are between.
    fn read(
        &mut self,
        secrets: &UnreadSecrets<'_>,
        token: Token<'_>,
        next: Option<&Token<'_>>,
    ) -> Option<AttrId> {
        match token.octets {
            [b'{' | b'}' | b'(' | b')'] if self.is_on_line => return None,
            [b'{'] => self.in_condition = false,
            [b'('] => self.in_condition = true,
            [b'}' | b')'] => {}
            _ if self.in_condition => return None,
            _ => return self.read_word(secrets, token, next),
        }
        self.target = None;
        None
    }

    // The same of what is no bracket, outside of a condition.
    fn read_word(
        &mut self,
        secrets: &UnreadSecrets<'_>,
        token: Token<'_>,
        next: Option<&Token<'_>>,
    ) -> Option<AttrId> {
        let takes = self.target;
        if !token.is_word() || is_sign(token) {
            return takes;
        }
        let named = attribute_in(secrets, token.octets);
        if has_operator(next) {
            self.target = named;
            self.is_on_line = named.is_some();
            return None;
        }
        if !self.is_on_line && named.is_some() {
            self.target = named;
            self.is_on_line = true;
        }
        takes
    }
}

impl Flows {
    // Adds what a token gives an attribute.
    fn add_token(
        &mut self,
        secrets: &UnreadSecrets<'_>,
        token: Token<'_>,
        to: AttrId,
    ) -> Result<(), AllocError> {
        let alloc = *self.flows.allocator();
        for word in &Run::PolicyWord.all_of(alloc, token.octets)? {
            let from = attribute_in(secrets, word.octets);
            let is_secret = secrets.names_secret(alloc, word.octets)?
                || secrets.captures(word.octets);
            if from.is_some() || is_secret {
                self.flows.push(Flow {
                    from,
                    to,
                    is_secret,
                })?;
            }
        }
        Ok(())
    }

    /// The flows of a text into attributes that are not secret as it is: what follows an attribute's name outside of a
    /// condition on its line, and an operator after one up to the next such name.
    pub(crate) fn of(
        alloc: Global,
        secrets: &UnreadSecrets<'_>,
        text: &[u8],
    ) -> Result<Flows, AllocError> {
        let tokens = tokens(alloc, text)?;
        let mut flows = Flows {
            flows: Vec::new(alloc),
        };
        let mut reader = Reader::new();
        for (at, token) in tokens.iter().enumerate() {
            reader.reach(text, *token);
            let next = tokens.get(at.saturating_add(1));
            if let Some(to) = reader.read(secrets, *token, next)
                && !secrets.is_secret(to)
            {
                flows.add_token(secrets, *token, to)?;
            }
        }
        Ok(flows)
    }

    // What an attribute gives is secret, and what it takes is no news.
    fn learn(&mut self, id: AttrId) {
        self.flows.retain(|flow| !flow.to.equals(id));
        for flow in &mut self.flows {
            flow.is_secret = flow.is_secret || flow.from.is_some_and(|from| from.equals(id));
        }
    }

    /// Adds the attributes that take secret values, however often in turn.
    pub(crate) fn add_secrets(mut self, ids: &mut Vec<AttrId>) -> Result<(), AllocError> {
        for _ in 0..self.flows.len() {
            let Some(flow) = self.flows.iter().find(|flow| flow.is_secret) else {
                break;
            };
            let id = flow.to;
            ids.push(id)?;
            self.learn(id);
        }
        Ok(())
    }
}
