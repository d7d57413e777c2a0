//! The dictionary file that defines the attributes in place of what policies do not have.

use avp_dict::{
    Dictionary, FileSet, Named, NamedFile, last_component, next_line, same_name,
    words_between_blanks,
};
use avp_lists::AttrId;
use itoa::Buffer;
use radpolicy_import_conditions::{OtherAttribute, OtherSource};
use std::alloc::{AllocError, Global};

// They have numbers from here on, which are never sent.
const FIRST_NUMBER: u32 = 1_000_000_000;

// How many numbers there are for them.
const NUMBERS: u32 = 1_000_000_000;

// How deep files include one another.
const MOST_NESTED: usize = 64;

// The lines of attributes, and those of names of their values.
#[derive(Drop)]
struct Lines<'a> {
    alloc: Global,
    dictionary: &'a Dictionary,
    others: &'a [OtherAttribute],
    attributes: Vec<u8>,
    values: Vec<u8>,
    // The numbers that are given, and the names that have them.
    numbers: Vec<u32>,
    defined: Vec<&'a [u8]>,
}

// A number of a name, the same in each run (FNV-1a, of the letters in lower case).
fn number_of(name: &[u8]) -> u32 {
    let mut hash: u32 = 0x811c_9dc5;
    for octet in name {
        hash = (hash ^ u32::from(octet.to_ascii_lowercase())).wrapping_mul(0x0100_0193);
    }
    FIRST_NUMBER + hash % NUMBERS
}

fn push_number(out: &mut Vec<u8>, number: u32) -> Result<(), AllocError> {
    let mut digits = Buffer::new();
    out.extend_from_slice(digits.format(number).as_bytes())
}

// Whether a line of an attribute's name is one of what this is in place of: by its name, or where names of values are
// given by its id.
fn is_of(other: &OtherAttribute, name: &[u8], named: Option<Named>, is_attribute: bool) -> bool {
    match (&other.source, named) {
        (OtherSource::Attribute(_, _, own), _) if is_attribute => same_name(own, name),
        (OtherSource::Attribute(_, id, _), Some(named)) => id.equals(named.id),
        _ => false,
    }
}

fn is_include(word: &[u8]) -> bool {
    same_name(word, b"$INCLUDE") || same_name(word, b"$INCLUDE-")
}

// Whether the flags of an ATTRIBUTE line have that of a tag.
fn has_tag(flags: &[&[u8]]) -> bool {
    match flags {
        [words, ..] => words
            .split(|octet| *octet == b',')
            .any(|word| word.eq_ignore_ascii_case(b"has_tag")),
        [] => false,
    }
}

impl<'a> Lines<'a> {
    // The first number from that of the name on that neither the dictionary nor another of them has.
    fn free_number(&self, name: &[u8]) -> u32 {
        let mut number = number_of(name);
        for _ in 0..self.numbers.len().saturating_add(1_000) {
            let is_taken = self.dictionary.by_id(AttrId::Plain(number)).is_some();
            if !is_taken && !self.numbers.contains(&number) {
                return number;
            }
            number = number.saturating_add(1);
        }
        number
    }

    fn attribute(&mut self, own: &'a [u8], kind: &[u8], flags: &[&[u8]]) -> Result<(), AllocError> {
        if self.defined.iter().any(|name| same_name(name, own)) {
            return Ok(());
        }
        let number = self.free_number(own);
        self.numbers.push(number)?;
        self.defined.push(own)?;
        self.attributes.extend_from_slice(b"ATTRIBUTE\t")?;
        self.attributes.extend_from_slice(own)?;
        self.attributes.push(b'\t')?;
        push_number(&mut self.attributes, number)?;
        self.attributes.push(b'\t')?;
        self.attributes.extend_from_slice(kind)?;
        if has_tag(flags) {
            self.attributes.extend_from_slice(b"\thas_tag")?;
        }
        Ok(self.attributes.push(b'\n')?)
    }

    fn value(&mut self, own: &[u8], name: &[u8], number: &[u8]) -> Result<(), AllocError> {
        self.values.extend_from_slice(b"VALUE\t")?;
        self.values.extend_from_slice(own)?;
        self.values.push(b'\t')?;
        self.values.extend_from_slice(name)?;
        self.values.push(b'\t')?;
        self.values.extend_from_slice(number)?;
        Ok(self.values.push(b'\n')?)
    }

    // Those in place of expansions, which are texts.
    fn asked(&mut self) -> Result<(), AllocError> {
        let others = self.others;
        for other in others {
            if let OtherSource::Asked(_) | OtherSource::Returned = &other.source {
                self.attribute(&other.own, b"string", &[])?;
            }
        }
        Ok(())
    }

    // The names of values that the server's sections and modules define.
    fn values(&mut self) -> Result<(), AllocError> {
        let others = self.others;
        for other in others {
            if let OtherSource::Value(name) = &other.source {
                let mut number = Vec::new(self.alloc);
                push_number(&mut number, number_of(name))?;
                self.value(&other.own, name, &number)?;
            }
        }
        Ok(())
    }

    // What a line of a dictionary says of an attribute, said of those that are it in other lists.
    fn said(&mut self, words: &[&[u8]]) -> Result<(), AllocError> {
        let others = self.others;
        let [word, name, _, _, ..] = words else {
            return Ok(());
        };
        let is_attribute = same_name(word, b"ATTRIBUTE");
        if !is_attribute && !same_name(word, b"VALUE") {
            return Ok(());
        }
        let named = self.dictionary.by_name(name);
        for other in others {
            if !other.is_new || !is_of(other, name, named, is_attribute) {
                continue;
            }
            match words {
                [_, _, _, kind, flags @ ..] if is_attribute => {
                    self.attribute(&other.own, kind, flags)?;
                }
                [_, _, value, number, ..] => self.value(&other.own, value, number)?,
                _ => {}
            }
        }
        Ok(())
    }

    // The lines of a file, and of those that it includes.
    #[cycle(reading)]
    fn text(
        &mut self,
        files: &'a [NamedFile],
        text: &'a [u8],
        depth: usize,
    ) -> Result<(), AllocError> {
        let mut rest = text;
        for _ in 0..text.len() {
            let Some((line, after)) = next_line(rest) else {
                return Ok(());
            };
            self.line(files, line, depth)?;
            rest = after;
        }
        Ok(())
    }

    #[cycle(reading)]
    fn line(
        &mut self,
        files: &'a [NamedFile],
        line: &'a [u8],
        depth: usize,
    ) -> Result<(), AllocError> {
        let start = line.trim_ascii_start();
        if !matches!(start, [b'A' | b'a' | b'V' | b'v' | b'$', ..]) {
            return Ok(());
        }
        let words = words_between_blanks(self.alloc, line)?;
        match words.as_slice() {
            [word, path, ..] if is_include(word) => self.included(files, path, depth),
            words => self.said(words),
        }
    }

    #[cycle(reading)]
    fn included(
        &mut self,
        files: &'a [NamedFile],
        path: &[u8],
        depth: usize,
    ) -> Result<(), AllocError> {
        let Some(depth) = depth.checked_sub(1) else {
            return Ok(());
        };
        let name = last_component(path);
        for file in files {
            if file.name.as_slice() == name {
                return self.text(files, file.octets.as_slice(), depth);
            }
        }
        Ok(())
    }
}

/// A dictionary file that includes the main one of a set and defines these attributes: those in place of attributes of
/// other lists with the type and the names of values that they have there, those in place of expansions as texts; and
/// names of values that sections and modules of the server define. All numbers are from 1,000,000,000 on.
pub fn other_dictionary(
    alloc: Global,
    files: &FileSet,
    dictionary: &Dictionary,
    others: &[OtherAttribute],
) -> Result<Vec<u8>, AllocError> {
    let mut lines = Lines {
        alloc,
        dictionary,
        others,
        attributes: Vec::new(alloc),
        values: Vec::new(alloc),
        numbers: Vec::new(alloc),
        defined: Vec::new(alloc),
    };
    let files = files.as_slice();
    let mut text = Vec::from_slice(alloc, b"$INCLUDE ")?;
    if let Some(main) = files.first() {
        text.extend_from_slice(main.name.as_slice())?;
        lines.text(files, main.octets.as_slice(), MOST_NESTED)?;
    }
    lines.asked()?;
    lines.values()?;
    text.extend_from_slice(b"\n\n")?;
    text.extend_from_slice(&lines.attributes)?;
    text.push(b'\n')?;
    text.extend_from_slice(&lines.values)?;
    Ok(text)
}
