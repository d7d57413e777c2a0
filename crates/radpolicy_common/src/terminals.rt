//! What goes to a terminal: colours, and texts from requests and policies without control characters.

ghost use Rattle.std.specs.Prelude.{◌≡◌, ◌++◌, true, IfOk, OnOk};
ghost use Rattle.std.specs.List.{list_all};
ghost use Rattle.std.specs.Str.{IsUtf8};
ghost use Rattle.avp_dict.specs.Quotes.{octal_escape};
ghost use Rattle.radpolicy_common.specs.VisibleText.{IsVisibleText, all_visible, char_shown, is_visible, octal_text, text_shown, visible_text};
ghost use Rattle.radpolicy_common.specs.internal.PlainText.{is_plain};

use std::alloc::{AllocError, Global};
use std::env::VarError;
use std::io::IsTerminal;

/// A stream that a program writes to.
#[derive(Clone, Copy, Debug, PartialEq, Eq)]
pub enum Stream {
    Output,
    Error,
}

/// How a part of a text is shown in colour.
#[derive(Clone, Copy, Debug, PartialEq, Eq)]
pub enum Style {
    /// A line that begins with `-`: red.
    Removed,
    /// A line that begins with `+`: green.
    Added,
    /// Bold.
    Heading,
}

/// What becomes of LF and TAB in a text that is shown.
#[derive(Clone, Copy, Debug, PartialEq, Eq)]
pub enum LineBreaks {
    Escaped,
    Kept,
}

/// What ends a style.
pub const PLAIN_STYLE: &str = "\x1b[0m";

impl Stream {
    pub fn is_terminal(self, rt: &HostRuntime) -> bool {
        match self {
            Stream::Output => rt.stdout().is_terminal(),
            Stream::Error => rt.stderr().is_terminal(),
        }
    }

    /// Whether colours are wanted there: it is a terminal, and the environment's NO_COLOR is not set or is empty.
    pub fn is_coloured(self, rt: &HostRuntime) -> bool {
        self.is_terminal(rt) && !is_colour_refused(rt)
    }
}

fn is_colour_refused(rt: &HostRuntime) -> bool {
    match std::env::var(rt, "NO_COLOR") {
        Ok(value) => !value.is_empty(),
        Err(VarError::NotPresent) => false,
        Err(_) => true,
    }
}

impl Style {
    /// What begins the style on a terminal (ECMA-48, SGR).
    pub fn begin(self) -> &'static str {
        match self {
            Style::Removed => "\x1b[31m",
            Style::Added => "\x1b[32m",
            Style::Heading => "\x1b[1m",
        }
    }
}

fn is_visible(character: char, breaks: LineBreaks) -> bool
    ensures { result ≡ is_visible breaks character }
{
    match (character, breaks) {
        ('\n' | '\t', LineBreaks::Kept) => true,
        _ => !character.is_control(),
    }
}

// `\` and three octal digits.
fn push_octal(text: &mut Vec<u8>, octet: u8) -> Result<(), AllocError>
    ensures { OnOk result (text.new.items ≡ text.old.items ++ octal_escape octet) }
{
    text.push(b'\\')?;
    text.push(b'0' + octet / 64)?;
    text.push(b'0' + octet / 8 % 8)?;
    text.push(b'0' + octet % 8)?;
    Ok(())
}

fn push_octals(text: &mut Vec<u8>, octets: &[u8]) -> Result<(), AllocError>
    ensures { OnOk result (text.new.items ≡ text.old.items ++ octal_text octets.now) }
{
    for octet in octets {
        push_octal(text, *octet)?;
    }
    Ok(())
}

fn push_character(text: &mut Vec<u8>, character: char, breaks: LineBreaks) -> Result<(), AllocError>
    ensures { OnOk result (text.new.items ≡ text.old.items ++ char_shown breaks character) }
{
    let mut buffer = [0; 4];
    let octets = character.encode_utf8(&mut buffer).as_bytes();
    if is_visible(character, breaks) {
        text.extend_from_slice(octets)
    } else {
        push_octals(text, octets)
    }
}

fn push_text(text: &mut Vec<u8>, added: &str, breaks: LineBreaks) -> Result<(), AllocError>
    ensures { OnOk result (text.new.items ≡ text.old.items ++ text_shown breaks added.now) }
{
    for character in added.chars() {
        push_character(text, character, breaks)?;
    }
    Ok(())
}

// A character of ASCII that is shown as it is.
fn is_plain(octet: u8, breaks: LineBreaks) -> bool
    ensures { result ≡ is_plain breaks octet }
{
    octet.is_ascii() && is_visible(char::from(octet), breaks)
}

fn are_plain(octets: &[u8], breaks: LineBreaks) -> bool
    ensures { result ≡ list_all (is_plain breaks) octets.now }
{
    octets.iter().all(|octet| is_plain(*octet, breaks))
}

fn filtered_text(alloc: Global, octets: &[u8], breaks: LineBreaks) -> Result<Vec<u8>, AllocError>
    ensures shown { IfOk result (λ text. IsVisibleText breaks octets.now text.items) }
    ensures utf8 { IfOk result (λ text. IsUtf8 text.items) }
    ensures visible { IfOk result (λ text. all_visible breaks text.items ≡ true) }
    ensures text { IsUtf8 octets.now
        → IfOk result (λ text. text.items ≡ text_shown breaks octets.now) }
    ensures parts { IfOk result (λ text. text.items ≡ visible_text breaks octets.now) }
{
    let mut text = Vec::new(alloc);
    for chunk in octets.utf8_chunks() {
        push_text(&mut text, chunk.valid(), breaks)?;
        push_octals(&mut text, chunk.invalid())?;
    }
    Ok(text)
}

/// Octets as they may be shown on a terminal: control characters (below 0x20, 0x7f, and U+0080 to U+009F) and octets
/// that are no UTF-8 as `\` and three octal digits each. LF and TAB are kept where that is asked for.
#[tactic(auto, using(crate::proofs::PlainText::plain_is_shown, crate::proofs::PlainText::plain_is_utf8, crate::proofs::PlainText::plain_is_visible, crate::proofs::PlainText::plain_is_text, crate::proofs::PlainText::plain_is_parts))]
pub fn visible_text(alloc: Global, octets: &[u8], breaks: LineBreaks) -> Result<Vec<u8>, AllocError>
    ensures shown { IfOk result (λ text. IsVisibleText breaks octets.now text.items) }
    ensures utf8 { IfOk result (λ text. IsUtf8 text.items) }
    ensures visible { IfOk result (λ text. all_visible breaks text.items ≡ true) }
    ensures text { IsUtf8 octets.now
        → IfOk result (λ text. text.items ≡ text_shown breaks octets.now) }
    // There is one such text.
    ensures parts { IfOk result (λ text. text.items ≡ visible_text breaks octets.now) }
{
    // (most texts are plain, and to copy one is several times as fast as to look for its characters)
    if are_plain(octets, breaks) {
        let text = Vec::from_slice(alloc, octets)?;
        Ok(text)
    } else {
        filtered_text(alloc, octets, breaks)
    }
}
