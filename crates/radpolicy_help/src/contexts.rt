//! What may come next at a place in a policy.

use crate::policy_tokens::{Token, is_match, tokens};
use avp_forms::Profile;
use std::alloc::{AllocError, Global};

/// What may come next.
#[derive(Clone, Copy, Debug, PartialEq, Eq)]
pub(crate) enum Expected {
    Statement,
    /// The list of an `update`, or its `{`.
    UpdateList,
    /// The `{` of an `update`.
    LineBlock,
    /// The `{` of a block of statements.
    StatementBlock,
    /// An update line, or the block's `}`.
    Line,
    Operator,
    /// What an update line sets.
    Value,
    /// The word after an `&` in an update line.
    Source,
    /// The `(` of a condition.
    Condition,
    Operand,
    /// The word after an `&` in a condition.
    Reference,
    /// What may follow an attribute in a condition.
    Relation,
    Comparand,
    /// The word after an `&` on the right side.
    ComparedReference,
    /// What may follow a whole operand.
    Joint,
    /// What may follow a text on the left side, of a wider policy.
    TextRelation,
    /// What may follow one group as a text, which may also be a condition by itself.
    GroupRelation,
}

/// An open block: where its first word begins, and whether it is an `update`.
#[derive(Clone, Copy)]
pub(crate) struct OpenBlock {
    pub offset: usize,
    pub is_update: bool,
}

/// How a policy's tokens before a place go on.
#[derive(Drop)]
pub(crate) struct Context<'a> {
    pub expected: Expected,
    pub blocks: Vec<OpenBlock>,
    /// Where the last word begins that begins a statement or a branch.
    pub begin: usize,
    /// The last such word.
    pub keyword: &'a str,
    /// The open brackets of the condition.
    pub brackets: usize,
    /// The last name of an attribute that was set or compared.
    pub name: &'a str,
    /// How many octets are before it.
    pub name_offset: usize,
}

pub(crate) fn is_code(word: &str) -> bool {
    matches!(word, "ok" | "noop" | "updated" | "fail" | "reject")
}

// Whether a token is a text of one group alone, as `"%{1}"`.
fn is_group_alone(token: &str) -> bool {
    matches!(
        token.as_bytes(),
        [b'"', b'%', b'{', b'0'..=b'9', b'}', b'"']
    )
}

fn is_relation(sign: &str) -> bool {
    matches!(sign, "==" | "!=" | "<" | "<=" | ">" | ">=")
}

impl<'a> Context<'a> {
    fn new(alloc: Global) -> Context<'a> {
        Context {
            expected: Expected::Statement,
            blocks: Vec::new(alloc),
            begin: 0,
            keyword: "",
            brackets: 0,
            name: "",
            name_offset: 0,
        }
    }

    fn read_name(&mut self, token: Token<'a>) {
        self.name = token.text();
        self.name_offset = token.offset;
    }

    fn read_statement(&mut self, token: Token<'a>) {
        if token.text() == "}" {
            self.blocks.pop();
            return;
        }
        self.begin = token.offset;
        self.keyword = token.text();
        self.expected = match token.text() {
            "update" => Expected::UpdateList,
            "if" | "elsif" => Expected::Condition,
            "else" | "transaction" => Expected::StatementBlock,
            _ => Expected::Statement,
        };
    }

    fn open_block(&mut self, is_update: bool) -> Result<(), AllocError> {
        self.blocks.push(OpenBlock {
            offset: self.begin,
            is_update,
        })?;
        self.expected = if is_update {
            Expected::Line
        } else {
            Expected::Statement
        };
        Ok(())
    }

    fn read_line(&mut self, token: Token<'a>) {
        if token.text() == "}" {
            self.blocks.pop();
            self.expected = Expected::Statement;
        } else if token.is_word() {
            self.read_name(token);
            self.expected = Expected::Operator;
        }
    }

    fn close_bracket(&mut self) {
        self.brackets = self.brackets.saturating_sub(1);
        self.expected = if self.brackets == 0 {
            Expected::StatementBlock
        } else {
            Expected::Joint
        };
    }

    fn read_operand(&mut self, token: Token<'a>) {
        if token.text() == "(" {
            self.brackets = self.brackets.saturating_add(1);
        } else if token.text() == "&" {
            self.expected = Expected::Reference;
        } else if is_code(token.text()) {
            self.expected = Expected::Joint;
        } else if is_group_alone(token.text()) {
            self.expected = Expected::GroupRelation;
        } else if token.text().starts_with("\"") || token.text().starts_with("'") {
            self.expected = Expected::TextRelation;
        } else if token.is_word() {
            self.read_name(token);
            self.expected = Expected::Relation;
        }
    }

    fn read_joint(&mut self, token: Token<'a>) {
        match token.text() {
            "&&" | "||" => self.expected = Expected::Operand,
            ")" => self.close_bracket(),
            sign => {
                if self.expected != Expected::Joint && is_relation(sign) {
                    self.expected = Expected::Comparand;
                } else if self.expected != Expected::Joint && is_match(sign) {
                    self.expected = Expected::Joint;
                }
            }
        }
    }

    fn read(&mut self, token: Token<'a>) -> Result<(), AllocError> {
        let is_reference = token.text() == "&";
        match self.expected {
            Expected::Statement => self.read_statement(token),
            Expected::UpdateList if token.text() == "{" => self.open_block(true)?,
            Expected::UpdateList => self.expected = Expected::LineBlock,
            Expected::LineBlock => self.open_block(true)?,
            Expected::StatementBlock => self.open_block(false)?,
            Expected::Line => self.read_line(token),
            Expected::Operator => self.expected = Expected::Value,
            Expected::Value if is_reference => self.expected = Expected::Source,
            Expected::Value | Expected::Source => self.expected = Expected::Line,
            Expected::Condition => {
                self.brackets = 1;
                self.expected = Expected::Operand;
            }
            Expected::Operand => self.read_operand(token),
            Expected::Reference => {
                self.read_name(token);
                self.expected = Expected::Relation;
            }
            Expected::Relation
            | Expected::TextRelation
            | Expected::GroupRelation
            | Expected::Joint => self.read_joint(token),
            Expected::Comparand if is_reference => self.expected = Expected::ComparedReference,
            Expected::Comparand | Expected::ComparedReference => self.expected = Expected::Joint,
        }
        Ok(())
    }
}

/// How the tokens of a text go on that is the beginning of a policy.
pub(crate) fn context_after<'a>(alloc: Global, front: &'a [u8]) -> Result<Context<'a>, AllocError> {
    let mut context = Context::new(alloc);
    for token in &tokens(alloc, front)? {
        context.read(*token)?;
    }
    Ok(context)
}

/// What may come next in a policy of a profile, in words.
pub(crate) fn expected_text(
    expected: Expected,
    is_in_block: bool,
    profile: Profile,
) -> &'static str {
    match expected {
        Expected::Statement if is_in_block => {
            "a statement (update, if, transaction, ok, noop, updated, fail or reject) or }"
        }
        Expected::Statement => {
            "a statement: update, if, transaction, ok, noop, updated, fail or reject"
        }
        Expected::UpdateList => "request, reply or control, or {",
        Expected::LineBlock | Expected::StatementBlock => "{",
        Expected::Line =>
            "an attribute, reply: or control: before it where it is of another list, or }",
        Expected::Operator => "one of = := += ^= -= == !*",
        Expected::Value => "a value, a text in quotes, or & and an attribute",
        Expected::Source | Expected::Reference | Expected::ComparedReference => {
            "an attribute, reply: or control: before it where it is of another list"
        }
        Expected::Condition => "(",
        Expected::Operand if profile == Profile::Wider => {
            "& and an attribute, a text in quotes, a code (ok, noop, updated, fail or reject), ! or ("
        }
        Expected::Operand =>
            "& and an attribute, a code (ok, noop, updated, fail or reject), ! or (",
        Expected::TextRelation => "one of == != < <= > >= =~ !~",
        Expected::Relation | Expected::GroupRelation if profile == Profile::Wider => {
            "one of == != < <= > >= =~ !~ && || )"
        }
        Expected::Relation | Expected::GroupRelation => "one of == != < <= > >= && || )",
        Expected::Comparand => "a value, a text in quotes, or & and an attribute",
        Expected::Joint => "one of && || )",
    }
}
