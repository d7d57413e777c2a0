//! The lines of dictionary files: their forms, and the lines that have to do with a refused one.

use crate::nearest::Nearest;
use crate::places::{first_line, last_line};
use crate::policy_tokens::text_of;
use crate::sources::{Source, Sources};
use avp_dict::{next_line, words_between_blanks};
use std::alloc::{AllocError, Global};

/// What a line begins with.
#[derive(Clone, Copy, PartialEq, Eq)]
pub(crate) enum Keyword {
    Attribute,
    Value,
    Vendor,
    BeginVendor,
    EndVendor,
    BeginTlv,
    EndTlv,
    Include,
    IncludeIfThere,
}

const KEYWORDS: [Keyword; 9] = [
    Keyword::Attribute,
    Keyword::Value,
    Keyword::Vendor,
    Keyword::BeginVendor,
    Keyword::EndVendor,
    Keyword::BeginTlv,
    Keyword::EndTlv,
    Keyword::Include,
    Keyword::IncludeIfThere,
];

impl Keyword {
    /// The keyword that is written so, in letters of either case.
    pub(crate) fn of(word: &[u8]) -> Option<Keyword> {
        KEYWORDS.iter().copied().find(|keyword| keyword
            .word()
            .as_bytes()
            .eq_ignore_ascii_case(word))
    }

    /// All keywords in words.
    pub(crate) fn words(alloc: Global) -> Result<Vec<&'static str>, AllocError> {
        let mut words = Vec::new(alloc);
        for keyword in &KEYWORDS {
            words.push(keyword.word())?;
        }
        Ok(words)
    }

    pub(crate) fn word(self) -> &'static str {
        match self {
            Keyword::Attribute => "ATTRIBUTE",
            Keyword::Value => "VALUE",
            Keyword::Vendor => "VENDOR",
            Keyword::BeginVendor => "BEGIN-VENDOR",
            Keyword::EndVendor => "END-VENDOR",
            Keyword::BeginTlv => "BEGIN-TLV",
            Keyword::EndTlv => "END-TLV",
            Keyword::Include => "$INCLUDE",
            Keyword::IncludeIfThere => "$INCLUDE-",
        }
    }

    /// The words that follow.
    pub(crate) fn form(self) -> &'static str {
        match self {
            Keyword::Attribute => "NAME NUMBER TYPE [FLAG,FLAG..]",
            Keyword::Value => "ATTRIBUTE NAME NUMBER",
            Keyword::Vendor => "NAME NUMBER [format=T,L]",
            Keyword::Include | Keyword::IncludeIfThere => "FILE",
            _ => "NAME",
        }
    }

    /// How many words may follow.
    pub(crate) fn most_words(self) -> usize {
        match self {
            Keyword::Attribute => 4,
            Keyword::Value | Keyword::Vendor => 3,
            Keyword::BeginVendor => 2,
            _ => 1,
        }
    }

    /// What may be at the word of this number, from 1 on.
    pub(crate) fn choice(self, number: usize) -> &'static str {
        match (self, number) {
            (Keyword::Attribute, 1) => "a name",
            (Keyword::Attribute, 2) => "a number, as 25, 0x19 or 241.1",
            (Keyword::Attribute, _) => "a type, as string, octets, integer, ipaddr or date",
            (Keyword::Value, 1) => "an attribute's name",
            (Keyword::Value, 2) => "a value's name",
            (Keyword::Vendor, 1) => "a name of 128 octets at most, from ! to ~",
            (Keyword::Vendor, 3) => {
                "format=T,L, where T is 1, 2 or 4 octets of a type, and L 0, 1 or 2 of a length"
            }
            (Keyword::Value | Keyword::Vendor, _) => "a number, as 7 or 0x07",
            (Keyword::Include | Keyword::IncludeIfThere, _) => "a file",
            _ => "a name",
        }
    }

    /// What ends the block that this begins.
    pub(crate) fn end(self) -> Option<Keyword> {
        match self {
            Keyword::BeginVendor => Some(Keyword::EndVendor),
            Keyword::BeginTlv => Some(Keyword::EndTlv),
            _ => None,
        }
    }
}

/// A word at which a file set is refused.
#[derive(Drop)]
pub(crate) struct RefusedWord<'a> {
    /// The file's place in the set.
    pub file: usize,
    /// How many octets of the file are before the word's line.
    pub start: usize,
    /// The words of the line before it.
    pub before: Vec<&'a [u8]>,
    /// It is empty where a word is lacking.
    pub word: &'a [u8],
    /// The word after it, empty where there is none.
    pub next: &'a [u8],
}

// A line before its comment.
fn before_comment(line: &[u8]) -> &[u8] {
    match line.iter().position(|octet| *octet == b'#') {
        Some(end) => line.get(..end).unwrap_or(line),
        None => line,
    }
}

fn words_of(alloc: Global, line: &[u8]) -> Result<Vec<&[u8]>, AllocError> {
    words_between_blanks(alloc, before_comment(line))
}

impl<'a> RefusedWord<'a> {
    /// The word that begins after so many octets of a file with this text.
    pub(crate) fn new(
        alloc: Global,
        text: &'a [u8],
        file: usize,
        offset: usize,
    ) -> Result<RefusedWord<'a>, AllocError> {
        let (front, back) = text.split_at(offset.min(text.len()));
        let rest = words_of(alloc, first_line(back))?;
        Ok(RefusedWord {
            file,
            start: front.len().saturating_sub(last_line(front).len()),
            before: words_between_blanks(alloc, last_line(front))?,
            word: rest.first().copied().unwrap_or(&[]),
            next: rest.get(1).copied().unwrap_or(&[]),
        })
    }

    /// The keyword of its line, where that is another word.
    pub(crate) fn keyword(&self) -> Option<Keyword> {
        let first = self.before.first()?;
        Keyword::of(first)
    }
}

// Whether a line begins with these words.
fn begins_with(words: &[&[u8]], sought: &[&[u8]]) -> bool {
    words.len() >= sought.len()
        && words
            .iter()
            .zip(sought)
            .all(|(word, sought)| word.eq_ignore_ascii_case(sought))
}

// How many octets of a text are before the first line with these words, but for the line after so many.
fn offset_of_line(
    alloc: Global,
    text: &[u8],
    sought: &[&[u8]],
    not: Option<usize>,
) -> Result<Option<usize>, AllocError> {
    let mut rest = text;
    for _ in 0..text.len() {
        let Some((line, after)) = next_line(rest) else {
            return Ok(None);
        };
        let offset = text.len().saturating_sub(rest.len());
        let words = words_of(alloc, line)?;
        if begins_with(words.as_slice(), sought) && not != Some(offset) {
            return Ok(Some(offset));
        }
        rest = after;
    }
    Ok(None)
}

/// A line of a dictionary file.
#[derive(Clone, Copy)]
pub(crate) struct DictionaryLine<'a> {
    pub file: Source<'a>,
    /// How many octets of the file are before it.
    pub start: usize,
}

impl<'a> RefusedWord<'a> {
    /// The first other line of dictionary files that begins with these words, in letters of either case, in the order of
    /// the command line.
    pub(crate) fn other_line<'s>(
        &self,
        alloc: Global,
        sources: &Sources<'s>,
        words: &[&[u8]],
    ) -> Result<Option<DictionaryLine<'s>>, AllocError> {
        let files = sources.files.as_slice().iter().zip(sources.dictionaries);
        for (at, (file, path)) in files.enumerate() {
            let text = file.octets.as_slice();
            let not = (at == self.file).then_some(self.start);
            if let Some(start) = offset_of_line(alloc, text, words, not)? {
                let file = Source { path, text };
                return Ok(Some(DictionaryLine { file, start }));
            }
        }
        Ok(None)
    }
}

// Adds the names in a text's lines with this keyword.
fn add_names<'a>(
    alloc: Global,
    nearest: &mut Nearest<'a>,
    text: &'a [u8],
    keyword: Keyword,
) -> Result<(), AllocError> {
    let mut rest = text;
    for _ in 0..text.len() {
        let Some((line, after)) = next_line(rest) else {
            return Ok(());
        };
        let words = words_of(alloc, line)?;
        if let [first, name, ..] = words.as_slice()
            && Keyword::of(first) == Some(keyword)
        {
            nearest.add(text_of(name))?;
        }
        rest = after;
    }
    Ok(())
}

/// The names that lines with this keyword define, those nearest to a word.
pub(crate) fn nearest_names<'a>(
    alloc: Global,
    sources: &Sources<'a>,
    keyword: Keyword,
    word: &[u8],
) -> Result<Vec<&'a str>, AllocError> {
    let mut nearest = Nearest::new(alloc, text_of(word))?;
    for file in sources.files.as_slice() {
        add_names(alloc, &mut nearest, file.octets.as_slice(), keyword)?;
    }
    Ok(nearest.names)
}

/// How many octets of a text are before the line with which the last block begins that it leaves open.
pub(crate) fn open_block(alloc: Global, text: &[u8]) -> Result<Option<usize>, AllocError> {
    let mut open = Vec::new(alloc);
    let mut rest = text;
    for _ in 0..text.len() {
        let Some((line, after)) = next_line(rest) else {
            break;
        };
        let words = words_of(alloc, line)?;
        match words.first().and_then(|word| Keyword::of(word)) {
            Some(Keyword::BeginVendor | Keyword::BeginTlv) => {
                open.push(text.len().saturating_sub(rest.len()))?;
            }
            Some(Keyword::EndVendor | Keyword::EndTlv) => {
                open.pop();
            }
            _ => {}
        }
        rest = after;
    }
    Ok(open.last().copied())
}

/// What ends the block that begins with the line after so many octets of a text: a keyword, and the block's name.
pub(crate) fn end_of_block(
    alloc: Global,
    text: &[u8],
    start: usize,
) -> Result<Option<(Keyword, &[u8])>, AllocError> {
    let line = first_line(text.get(start..).unwrap_or(&[]));
    let words = words_of(alloc, line)?;
    match words.as_slice() {
        [first, name, ..] => {
            Ok(
                Keyword::of(first)
                    .and_then(|keyword| keyword.end())
                    .map(|end| (end, *name)),
            )
        }
        _ => Ok(None),
    }
}
