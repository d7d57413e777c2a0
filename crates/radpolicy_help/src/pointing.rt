//! A line as it is shown, and a caret below one of its octets.

ghost use Rattle.std.specs.Prelude.{◌≡◌, ◌++◌, IfOk, OnOk, codes, replicate};
ghost use Rattle.std.specs.Str.{IsUtf8};
ghost use Rattle.radpolicy_help.specs.Pointing.{PointsBetween, columns, untabbed, untabbed_octet};

use radpolicy_common::{LineBreaks, visible_text};
use std::alloc::{AllocError, Global};
use std::str;
use unicode_width::UnicodeWidthStr;

/// A line as it is shown on a terminal, tabs as four spaces, and a line with a caret below one of its octets.
#[derive(Debug, Drop)]
pub struct Pointed {
    pub line: Vec<u8>,
    pub caret: Vec<u8>,
}

fn push_untabbed(text: &mut Vec<u8>, octet: u8) -> Result<(), AllocError>
    ensures { OnOk result (text.new.items ≡ text.old.items ++ untabbed_octet octet) }
{
    if octet == b'\t' {
        text.extend_from_slice(b"    ")
    } else {
        text.push(octet)?;
        Ok(())
    }
}

// The octets with spaces in place of tabs.
fn untabbed(alloc: Global, octets: &[u8]) -> Result<Vec<u8>, AllocError>
    ensures { IfOk result (λ text. text.items ≡ untabbed octets.now) }
{
    let mut text = Vec::new(alloc);
    for octet in octets {
        push_untabbed(&mut text, *octet)?;
    }
    Ok(text)
}

// How many columns of a terminal a text takes.
fn columns(text: &[u8]) -> usize
    requires { IsUtf8 text.now }
    ensures { result ≡ columns text.now }
{
    match str::from_utf8(text) {
        Ok(text) => text.width(),
        Err(_) => 0,
    }
}

// A caret after so many spaces.
fn caret_after(alloc: Global, spaces: usize) -> Result<Vec<u8>, AllocError>
    ensures { IfOk result (λ caret. caret.items ≡ replicate spaces 32 ++ codes "^") }
{
    let mut caret = Vec::new(alloc);
    caret.resize(spaces, b' ')?;
    caret.push(b'^')?;
    Ok(caret)
}

/// The line of these octets before and after a place, and a caret below the place. Control characters, and octets that
/// are no UTF-8, are shown as a `\` and three octal digits.
pub fn point_at(alloc: Global, front: &[u8], back: &[u8]) -> Result<Pointed, AllocError>
    ensures { IfOk result (λ p. PointsBetween front.now back.now p.line.items p.caret.items) }
{
    let mut line = visible_text(alloc, &untabbed(alloc, front)?, LineBreaks::Escaped)?;
    let caret = caret_after(alloc, columns(&line))?;
    let rest = visible_text(alloc, &untabbed(alloc, back)?, LineBreaks::Escaped)?;
    line.extend_from_slice(&rest)?;
    Ok(Pointed { line, caret })
}
