//! Statements, one after the other.

ghost use Rattle.std.specs.Prelude.{◌≡◌, ◌≤◌, ◌<◌, length, IfErr, OnOk};

use crate::cursors::Cursor;
use crate::faults::{Fault, FaultKind};
use crate::items::{Content, Operator, Text};
use crate::texts::{Ending, operator_of, read_condition, read_text};
use std::alloc::Global;

/// What a file has at one place.
#[derive(Drop)]
pub(crate) enum Statement {
    /// `}`
    Close,
    Item(Content),
}

impl Statement {
    pub(crate) fn is_include(&self) -> bool {
        matches!(self, Statement::Item(Content::Include { .. }))
    }
}

/// A statement, and the line on which it begins.
#[derive(Drop)]
pub(crate) struct Placed {
    pub(crate) line: usize,
    pub(crate) statement: Statement,
}

// The operator that follows, which is passed.
fn read_operator(cursor: &mut Cursor<'_>) -> Option<Operator>
    ensures shorter { length cursor.new.rest.now ≤ length cursor.old.rest.now }
    ensures lines { cursor.new.lines ≡ cursor.old.lines }
{
    let first = cursor.peek()?;
    let operator = operator_of(first, cursor.second())?;
    if !operator.is_short() {
        cursor.advance();
    }
    cursor.advance();
    Some(operator)
}

// What follows an operator, if anything does on its line.
fn read_value(alloc: Global, cursor: &mut Cursor<'_>) -> Result<Option<Text>, Fault>
    ensures shorter { length cursor.new.rest.now ≤ length cursor.old.rest.now }
    ensures lines { cursor.new.lines ≡ cursor.old.lines }
    ensures refused { IfErr result (λ fault. fault.line ≤ cursor.old.lines) }
{
    cursor.skip_blanks();
    match cursor.peek() {
        None | Some(b'\n' | b'#' | b',' | b'}') => Ok(None),
        Some(_) => Ok(Some(read_text(alloc, cursor, Ending::Value)?)),
    }
}

// Whether a statement goes on with another word.
fn goes_on(next: Option<u8>) -> bool {
    !matches!(next, None | Some(b'\n' | b'{' | b'}' | b'#' | b',' | b';'))
}

// The words up to a brace or the line's end.
fn read_arguments(alloc: Global, cursor: &mut Cursor<'_>) -> Result<Vec<Text>, Fault>
    ensures shorter { length cursor.new.rest.now ≤ length cursor.old.rest.now }
    ensures lines { cursor.new.lines ≡ cursor.old.lines }
    ensures refused { IfErr result (λ fault. fault.line ≤ cursor.old.lines) }
{
    let mut arguments = Vec::new(alloc);
    cursor.skip_blanks();
    while goes_on(cursor.peek()) {
        let argument = read_word(alloc, cursor)?;
        arguments.push(argument)?;
        cursor.skip_blanks();
    }
    Ok(arguments)
}

// A word that is not empty, or a quoted text.
fn read_word(alloc: Global, cursor: &mut Cursor<'_>) -> Result<Text, Fault>
    ensures shorter { length cursor.new.rest.now ≤ length cursor.old.rest.now }
    ensures taken { OnOk result (length cursor.new.rest.now < length cursor.old.rest.now) }
    ensures lines { cursor.new.lines ≡ cursor.old.lines }
    ensures refused { IfErr result (λ fault. fault.line ≤ cursor.old.lines) }
{
    let line = cursor.line();
    let before = cursor.left();
    let word = read_text(alloc, cursor, Ending::Name)?;
    if cursor.left() < before {
        Ok(word)
    } else {
        Err(Fault {
            line,
            kind: FaultKind::Unexpected,
        })
    }
}

// Passes the brace that opens a section, if it follows.
fn opens(cursor: &mut Cursor<'_>) -> bool
    ensures shorter { length cursor.new.rest.now ≤ length cursor.old.rest.now }
    ensures lines { cursor.new.lines ≡ cursor.old.lines }
{
    cursor.skip_blanks();
    let opens = cursor.peek() == Some(b'{');
    if opens {
        cursor.advance();
    }
    opens
}

// The rest of `if` or `elsif`.
fn read_branch(alloc: Global, cursor: &mut Cursor<'_>, name: Text) -> Result<Content, Fault>
    ensures shorter { length cursor.new.rest.now ≤ length cursor.old.rest.now }
    ensures lines { cursor.new.lines ≡ cursor.old.lines }
    ensures refused { IfErr result (λ fault. fault.line ≤ cursor.old.lines) }
{
    cursor.skip_blanks();
    let condition = read_condition(alloc, cursor)?;
    let line = cursor.line();
    if !opens(cursor) {
        return Err(Fault {
            line,
            kind: FaultKind::NoCondition,
        });
    }
    let mut arguments = Vec::new(alloc);
    arguments.push(condition)?;
    Ok(Content::Section { name, arguments })
}

// The rest of a pair, a section or a word.
fn read_content(alloc: Global, cursor: &mut Cursor<'_>, name: Text) -> Result<Content, Fault>
    ensures shorter { length cursor.new.rest.now ≤ length cursor.old.rest.now }
    ensures lines { cursor.new.lines ≡ cursor.old.lines }
    ensures refused { IfErr result (λ fault. fault.line ≤ cursor.old.lines) }
{
    cursor.skip_blanks();
    if let Some(operator) = read_operator(cursor) {
        let value = read_value(alloc, cursor)?;
        return Ok(Content::Pair {
            name,
            operator,
            value,
        });
    }
    let arguments = read_arguments(alloc, cursor)?;
    if opens(cursor) {
        Ok(Content::Section { name, arguments })
    } else {
        Ok(Content::Word { name, arguments })
    }
}

fn read_path(alloc: Global, cursor: &mut Cursor<'_>, optional: bool) -> Result<Content, Fault>
    ensures shorter { length cursor.new.rest.now ≤ length cursor.old.rest.now }
    ensures lines { cursor.new.lines ≡ cursor.old.lines }
    ensures refused { IfErr result (λ fault. fault.line ≤ cursor.old.lines) }
{
    cursor.skip_blanks();
    let path = read_text(alloc, cursor, Ending::Path)?;
    Ok(Content::Include { path, optional })
}

/// The statement that follows, after [`Cursor::skip_lines`].
pub(crate) fn read_statement(alloc: Global, cursor: &mut Cursor<'_>) -> Result<Statement, Fault>
    ensures shorter { length cursor.new.rest.now ≤ length cursor.old.rest.now }
    ensures taken { OnOk result (length cursor.new.rest.now < length cursor.old.rest.now) }
    ensures lines { cursor.new.lines ≡ cursor.old.lines }
    ensures refused { IfErr result (λ fault. fault.line ≤ cursor.old.lines) }
{
    if cursor.peek() == Some(b'}') {
        cursor.advance();
        return Ok(Statement::Close);
    }
    let name = read_word(alloc, cursor)?;
    let content = read_rest(alloc, cursor, name)?;
    cursor.skip_comment();
    Ok(Statement::Item(content))
}

// The rest of a statement, by its first word.
fn read_rest(alloc: Global, cursor: &mut Cursor<'_>, name: Text) -> Result<Content, Fault>
    ensures shorter { length cursor.new.rest.now ≤ length cursor.old.rest.now }
    ensures lines { cursor.new.lines ≡ cursor.old.lines }
    ensures refused { IfErr result (λ fault. fault.line ≤ cursor.old.lines) }
{
    if name.is_ignoring_case(b"$INCLUDE") {
        read_path(alloc, cursor, false)
    } else if name.is_ignoring_case(b"$-INCLUDE") {
        read_path(alloc, cursor, true)
    } else if name.is(b"if") || name.is(b"elsif") {
        read_branch(alloc, cursor, name)
    } else {
        read_content(alloc, cursor, name)
    }
}
