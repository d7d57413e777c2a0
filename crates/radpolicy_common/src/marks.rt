//! The line by which a program knows a file again that it wrote.

ghost use Rattle.std.specs.Prelude.{◌≡◌, ◌↔◌, ◌++◌, IfOk, IsTrue, OnOk};
ghost use Rattle.radpolicy_common.specs.Marks.{IsMarked, closing_of, head_length, head_of, mark, mark_line, marked, opening_of, without_mark};

use sha2::{Digest, Sha256};
use std::alloc::{AllocError, Global};

/// How comments are written in a file.
#[derive(Clone, Copy, Debug, PartialEq, Eq)]
pub enum Comments {
    /// From a `#` to the line's end.
    Hash,
    Html,
}

impl Comments {
    fn opening(self) -> &'static [u8]
        ensures { result.now ≡ opening_of self }
    {
        match self {
            Comments::Hash => b"# ",
            Comments::Html => b"<!-- ",
        }
    }

    fn closing(self) -> &'static [u8]
        ensures { result.now ≡ closing_of self }
    {
        match self {
            Comments::Hash => b"\n",
            Comments::Html => b" -->\n",
        }
    }

    // The line that stays the first where a text begins with it: it says how the others are read.
    fn head(self) -> &'static [u8]
        ensures { result.now ≡ head_of self }
    {
        match self {
            Comments::Hash => b"# profile: wider\n",
            Comments::Html => b"<!doctype html>\n",
        }
    }
}

// How many octets of a text come before the program's line.
fn head_length(comments: Comments, text: &[u8]) -> usize
    ensures { result ≡ head_length comments text.now }
{
    let head = comments.head();
    if text.starts_with(head) {
        head.len()
    } else {
        0
    }
}

/// The number of the program's line in a file of this text.
pub fn mark_line(comments: Comments, text: &[u8]) -> usize
    ensures { result ≡ mark_line comments text.now }
{
    if head_length(comments, text) == 0 {
        1
    } else {
        2
    }
}

// The program's line in a file of this text.
fn mark(
    alloc: Global,
    comments: Comments,
    program: &str,
    text: &[u8],
) -> Result<Vec<u8>, AllocError>
    ensures { IfOk result (λ line. line.items ≡ mark comments program.now text.now) }
{
    let digest = hex::encode(alloc, Sha256::digest(text))?;
    let mut line = Vec::from_slice(alloc, comments.opening())?;
    line.extend_from_slice(b"Written by ")?;
    line.extend_from_slice(program.as_bytes())?;
    line.extend_from_slice(b"; SHA-256 of the other lines: ")?;
    line.extend_from_slice(digest.as_bytes())?;
    line.extend_from_slice(comments.closing())?;
    Ok(line)
}

/// A text with a line that names the program and has the digest of all other lines: below the first line, where this
/// says how the others are read, and else at the top.
pub(crate) fn marked(
    alloc: Global,
    comments: Comments,
    program: &str,
    text: &[u8],
) -> Result<Vec<u8>, AllocError>
    ensures { IfOk result (λ file. file.items ≡ marked comments program.now text.now) }
{
    let (head, others) = text.split_at(head_length(comments, text));
    let mut file = Vec::from_slice(alloc, head)?;
    file.extend_from_slice(&mark(alloc, comments, program, text)?)?;
    file.extend_from_slice(others)?;
    Ok(file)
}

// What is left of a file without so many octets below its head.
#[tactic(auto, using(std::proofs::lemmas::List::drop_min))]
fn without_mark(
    alloc: Global,
    comments: Comments,
    length: usize,
    octets: &[u8],
) -> Result<Vec<u8>, AllocError>
    ensures { IfOk result (λ text. text.items ≡ without_mark comments length octets.now) }
{
    let (head, others) = octets.split_at(head_length(comments, octets));
    let (_, behind) = others.split_at(length.min(others.len()));
    let mut text = Vec::from_slice(alloc, head)?;
    text.extend_from_slice(behind)?;
    Ok(text)
}

/// Whether a program wrote this, and nobody has changed it since.
pub(crate) fn is_marked(
    alloc: Global,
    comments: Comments,
    program: &str,
    octets: &[u8],
) -> Result<bool, AllocError>
    ensures { IfOk result (λ is. IsTrue is ↔ IsMarked comments program.now octets.now) }
{
    // The line of whatever text is as long.
    let length = mark(alloc, comments, program, b"")?.len();
    let text = without_mark(alloc, comments, length, octets)?;
    Ok(marked(alloc, comments, program, &text)?.as_slice() == octets)
}
