//! What lines are read as. The words lie in the files.

use crate::entries::{Typing, VendorFormat};
use avp_lists::AttrId;

/// What a line says, by the lines before it.
#[derive(Clone, Copy)]
pub enum Meaning<'a> {
    /// A blank line, or an include.
    Nothing,
    /// A line that only gives a note.
    Skipped,
    /// A skipped ATTRIBUTE line of this name.
    SkippedAttribute(&'a [u8]),
    /// A VENDOR line: name, number and format.
    Vendor(&'a [u8], u32, VendorFormat),
    /// An ATTRIBUTE line that is not skipped: name, id and type.
    Attribute(&'a [u8], AttrId, Typing),
    /// A VALUE line: attribute, name and number.
    Value(&'a [u8], &'a [u8], u64),
    /// A block of this vendor, or one that is skipped.
    BeginVendor(&'a [u8], Option<u32>),
    BeginTlv(&'a [u8]),
    /// The end of the last open block, and whether it gives a note.
    End(bool),
}

/// A line, and what it was read as.
#[derive(Clone, Copy)]
pub struct Reading<'a> {
    /// The file's place in the set.
    pub file: usize,
    /// The line's number in the file, from 1 on.
    pub line: usize,
    pub meaning: Meaning<'a>,
}
