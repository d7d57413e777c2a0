//! How what is found is printed.

use itoa::Buffer;
use radpolicy_common::{Escaping, LineBreaks, push_json_string, visible_text};
use radpolicy_help::sentences;
use std::alloc::AllocError;

/// The form of the output.
#[derive(Clone, Copy, Debug, PartialEq, Eq)]
pub enum Format {
    /// A line, and below it what helps.
    Text,
    /// A line each, as compilers write them.
    Gcc,
    /// A JSON object a line.
    Json,
}

#[derive(Clone, Copy, Debug, PartialEq, Eq)]
pub enum Level {
    Error,
    Warning,
}

/// What is found at a place.
#[derive(Clone, Copy)]
pub struct Note<'a> {
    pub path: &'a str,
    /// From 1; 0 where it is about a file as a whole.
    pub line: usize,
    /// The digits of the column, from 1; empty where there is none.
    pub column: &'a str,
    pub level: Level,
    /// The name of a warning, or the number of a fault, as `E51`.
    pub name: &'a str,
    pub text: &'a str,
    /// What helps, in lines.
    pub help: &'a [u8],
}

fn level_name(level: Level) -> &'static str {
    match level {
        Level::Error => "error",
        Level::Warning => "warning",
    }
}

fn push(out: &mut Vec<u8>, text: &str) -> Result<(), AllocError> {
    out.extend_from_slice(text.as_bytes())
}

fn push_number(out: &mut Vec<u8>, number: usize) -> Result<(), AllocError> {
    let mut digits = Buffer::new();
    out.extend_from_slice(digits.format(number).as_bytes())
}

// `PATH:LINE:COLUMN: error: TEXT [NAME]`.
fn push_line(out: &mut Vec<u8>, note: &Note<'_>, text: &[u8]) -> Result<(), AllocError> {
    push(out, note.path)?;
    push(out, ":")?;
    if note.line > 0 {
        push_number(out, note.line)?;
        push(out, ":")?;
    }
    if !note.column.is_empty() {
        push(out, note.column)?;
        push(out, ":")?;
    }
    push(out, " ")?;
    push(out, level_name(note.level))?;
    push(out, ": ")?;
    out.extend_from_slice(text)?;
    push(out, " [")?;
    push(out, note.name)?;
    push(out, "]\n")
}

// The line of a note that has no other. What the help says comes in place of a fault's words, and behind a warning's.
fn push_line_alone(out: &mut Vec<u8>, note: &Note<'_>) -> Result<(), AllocError> {
    let alloc = *out.allocator();
    let said = sentences(alloc, note.help)?;
    match (note.level, said.strip_prefix(b": ")) {
        (Level::Error, Some(said)) => push_line(out, note, said),
        _ => {
            let mut text = Vec::from_slice(alloc, note.text.as_bytes())?;
            text.extend_from_slice(&said)?;
            push_line(out, note, &text)
        }
    }
}

// What helps, with blanks before each line.
fn push_help(out: &mut Vec<u8>, help: &[u8]) -> Result<(), AllocError> {
    for line in help.split(|octet| *octet == b'\n') {
        if !line.is_empty() {
            push(out, "    ")?;
            out.extend_from_slice(line)?;
            push(out, "\n")?;
        }
    }
    Ok(())
}

fn push_member(out: &mut Vec<u8>, name: &str, value: &[u8]) -> Result<(), AllocError> {
    push(out, ",\"")?;
    push(out, name)?;
    push(out, "\":")?;
    push_json_string(out, value, Escaping::Plain)
}

fn push_json(out: &mut Vec<u8>, note: &Note<'_>) -> Result<(), AllocError> {
    let path = visible_text(*out.allocator(), note.path.as_bytes(), LineBreaks::Escaped)?;
    push(out, "{\"path\":")?;
    push_json_string(out, &path, Escaping::Plain)?;
    if note.line > 0 {
        push(out, ",\"line\":")?;
        push_number(out, note.line)?;
    }
    if !note.column.is_empty() {
        push(out, ",\"column\":")?;
        push(out, note.column)?;
    }
    push_member(out, "level", level_name(note.level).as_bytes())?;
    push_member(out, "name", note.name.as_bytes())?;
    push_member(out, "text", note.text.as_bytes())?;
    push_member(out, "help", note.help)?;
    push(out, "}\n")
}

/// Adds a note in a form. As text it has no control character but line ends, whatever the files hold; as JSON it is one
/// line.
pub fn push_note(out: &mut Vec<u8>, format: Format, note: &Note<'_>) -> Result<(), AllocError> {
    let alloc = *out.allocator();
    if format == Format::Json {
        return push_json(out, note);
    }
    let mut text = Vec::new(alloc);
    if format == Format::Text {
        push_line(&mut text, note, note.text.as_bytes())?;
        push_help(&mut text, note.help)?;
    } else {
        push_line_alone(&mut text, note)?;
    }
    out.extend_from_slice(&visible_text(alloc, &text, LineBreaks::Kept)?)
}
