//! Names of attributes and of their values, as dictionary files have them.

ghost use Rattle.std.specs.Prelude.{◌≡◌, true, IfOk};
ghost use Rattle.radpolicy_common.specs.VisibleText.{all_visible};
ghost use Rattle.radpolicy_common.specs.declared.terminals.LineBreaks.TheVariants.{Kept};

use crate::dictionaries::folder_of;
use crate::nearest::Nearest;
use crate::policy_tokens::text_of;
use crate::sources::Sources;
use crate::texts::{push_all, push_choices};
use crate::unread_secrets::UnreadSecrets;
use avp_dict::{Dictionary, FileSet, last_component, next_line, words_between_blanks};
use radpolicy_common::{LineBreaks, visible_text};
use std::alloc::{AllocError, Global};

/// How many names of values are shown at most.
const MOST_VALUES: usize = 12;

// The name of an attribute as its ATTRIBUTE line writes it.
fn written_name<'a>(dictionary: &'a Dictionary, name: &'a str) -> &'a str {
    let named = dictionary.by_name(name.as_bytes());
    match named.and_then(|named| dictionary.by_id(named.id)) {
        Some(entry) if entry.name.eq_ignore_ascii_case(name.as_bytes()) => text_of(entry.name),
        _ => name,
    }
}

// The names of attributes that are nearest to a word.
fn nearest_attributes<'a>(
    alloc: Global,
    dictionary: &'a Dictionary,
    word: &str,
) -> Result<Vec<&'a str>, AllocError> {
    let mut nearest = Nearest::new(alloc, word)?;
    for at in 0..dictionary.counts().attributes {
        if let Some(name) = dictionary.attribute_name(at) {
            nearest.add(text_of(name))?;
        }
    }
    for name in &mut nearest.names {
        *name = written_name(dictionary, name);
    }
    Ok(nearest.names)
}

/// Whether one of the attributes is secret whose names are nearest to a word. A tag may follow the word.
pub(crate) fn is_near_secret(
    alloc: Global,
    secrets: &UnreadSecrets<'_>,
    word: &str,
) -> Result<bool, AllocError> {
    let dictionary = secrets.redaction().dictionary();
    let (name, _) = word.split_once(":").unwrap_or((word, ""));
    for near in &nearest_attributes(alloc, dictionary, name)? {
        if secrets.names_secret(alloc, near.as_bytes())? {
            return Ok(true);
        }
    }
    Ok(false)
}

// Whether a line defines an attribute of this name.
fn is_attribute_line(alloc: Global, line: &[u8], attribute: &str) -> Result<bool, AllocError> {
    if !line.trim_ascii_start().starts_with(b"ATTRIBUTE") {
        return Ok(false);
    }
    let words = words_between_blanks(alloc, line)?;
    Ok(match words.as_slice() {
        [_, name, _, _, ..] => text_of(name).eq_ignore_ascii_case(attribute),
        _ => false,
    })
}

fn has_attribute_line(alloc: Global, text: &[u8], attribute: &str) -> Result<bool, AllocError> {
    for line in text.split(|octet| *octet == b'\n') {
        if is_attribute_line(alloc, line, attribute)? {
            return Ok(true);
        }
    }
    Ok(false)
}

// The path of the first file that has a line for the attribute.
fn path_with_attribute<'a>(
    alloc: Global,
    sources: &Sources<'a>,
    attribute: &str,
) -> Result<Option<&'a str>, AllocError> {
    for (file, path) in sources.files.as_slice().iter().zip(sources.dictionaries) {
        if has_attribute_line(alloc, file.octets.as_slice(), attribute)? {
            return Ok(Some(*path));
        }
    }
    Ok(None)
}

// The dictionary file that includes the others.
fn main_file<'a>(dictionaries: &[&'a str]) -> &'a str {
    match dictionaries {
        [main, ..] => main,
        [] => "the main one",
    }
}

/// Adds how a line comes into the dictionary that only a server has, of these words.
pub(crate) fn push_own_line(
    help: &mut Vec<u8>,
    sources: &Sources<'_>,
    words: &[&str],
) -> Result<(), AllocError> {
    push_all(help, &["write "])?;
    push_all(help, words)?;
    push_all(
        help,
        &[
            " into a dictionary file of your own, give that too, and write $INCLUDE and its name into ",
            main_file(sources.dictionaries),
            "\n",
        ],
    )
}

// Adds the names that may have been meant, or where the name may come from.
fn push_nearest_attributes(
    help: &mut Vec<u8>,
    names: &[&str],
    main: &str,
) -> Result<(), AllocError> {
    if names.is_empty() {
        return push_all(
            help,
            &[
                "give the dictionary file that has its ATTRIBUTE line too, and write $INCLUDE and its \
                name into ",
                main,
                "\n",
            ],
        );
    }
    push_all(help, &["write "])?;
    push_choices(help, names)?;
    push_all(help, &["\n"])
}

/// Adds what to do about a name whose line, of this keyword, is in a file.
pub(crate) fn push_unread_line(
    help: &mut Vec<u8>,
    dictionaries: &[&str],
    path: &str,
    keyword: &str,
) -> Result<(), AllocError> {
    let main = main_file(dictionaries);
    push_all(help, &[path, " has its ", keyword, " line"])?;
    if main == path {
        return push_all(help, &[", which is not read\n"]);
    }
    push_all(
        help,
        &[
            ": no file includes that one, or the line is not read\nwrite $INCLUDE ",
            text_of(last_component(path.as_bytes())),
            " into ",
            main,
            ", or give a main file first that includes it, as ",
            folder_of(path),
            "dictionary\n",
        ],
    )
}

/// Adds what to do about a name that is no attribute's.
pub(crate) fn push_unknown_attribute(
    alloc: Global,
    help: &mut Vec<u8>,
    sources: &Sources<'_>,
    name: &str,
) -> Result<(), AllocError> {
    if let Some(path) = path_with_attribute(alloc, sources, name)? {
        return push_unread_line(help, sources.dictionaries, path, "ATTRIBUTE");
    }
    match &sources.dictionary(alloc) {
        Some(dictionary) => {
            let names = nearest_attributes(alloc, dictionary, name)?;
            push_nearest_attributes(help, &names, main_file(sources.dictionaries))
        }
        None => Ok(()),
    }
}

/// What is said of a name that is no attribute's.
pub fn explain_name(
    alloc: Global,
    dictionary: &Dictionary,
    name: &str,
) -> Result<Vec<u8>, AllocError>
    ensures visible { IfOk result (λ text. all_visible Kept text.items ≡ true) }
{
    let mut help = Vec::new(alloc);
    push_all(&mut help, &["no attribute has the name ", name, "\n"])?;
    let names = nearest_attributes(alloc, dictionary, name)?;
    push_nearest_attributes(&mut help, &names, main_file(&[]))?;
    visible_text(alloc, &help, LineBreaks::Kept)
}

// The name that a line gives to a value of this attribute; the empty one where it gives none.
fn value_in_line<'a>(
    alloc: Global,
    line: &'a [u8],
    attribute: &str,
) -> Result<&'a str, AllocError> {
    if !line.trim_ascii_start().starts_with(b"VALUE") {
        return Ok("");
    }
    let words = words_between_blanks(alloc, line)?;
    match words.as_slice() {
        [_, other, name, _, ..] if text_of(other).eq_ignore_ascii_case(attribute) => Ok(text_of(
            name,
        )),
        _ => Ok(""),
    }
}

fn has_value_line(
    alloc: Global,
    text: &[u8],
    attribute: &str,
    value: &str,
) -> Result<bool, AllocError> {
    for line in text.split(|octet| *octet == b'\n') {
        let name = value_in_line(alloc, line, attribute)?;
        if !name.is_empty() && name.eq_ignore_ascii_case(value) {
            return Ok(true);
        }
    }
    Ok(false)
}

/// The path of the first file that has a line for a value of an attribute.
pub(crate) fn path_with_value<'a>(
    alloc: Global,
    sources: &Sources<'a>,
    attribute: &str,
    value: &str,
) -> Result<Option<&'a str>, AllocError> {
    for (file, path) in sources.files.as_slice().iter().zip(sources.dictionaries) {
        if has_value_line(alloc, file.octets.as_slice(), attribute, value)? {
            return Ok(Some(*path));
        }
    }
    Ok(None)
}

// The names that a file's lines give to the values of an attribute.
fn push_values_of_file<'a>(
    alloc: Global,
    names: &mut Vec<&'a str>,
    text: &'a [u8],
    attribute: &str,
) -> Result<(), AllocError> {
    let mut rest = text;
    for _ in 0..text.len() {
        let Some((line, after)) = next_line(rest) else {
            return Ok(());
        };
        let name = value_in_line(alloc, line, attribute)?;
        if !name.is_empty() {
            names.push(name)?;
        }
        rest = after;
    }
    Ok(())
}

/// The names that dictionary files give to the values of an attribute.
pub(crate) fn value_names<'a>(
    alloc: Global,
    files: &'a FileSet,
    attribute: &str,
) -> Result<Vec<&'a str>, AllocError> {
    let mut names = Vec::new(alloc);
    for file in files.as_slice() {
        push_values_of_file(alloc, &mut names, file.octets.as_slice(), attribute)?;
    }
    Ok(names)
}

// Whether a name begins with a word, in letters of either case.
fn begins_with(name: &str, word: &str) -> bool {
    match name.get(..word.len()) {
        Some(front) => front.eq_ignore_ascii_case(word),
        None => false,
    }
}

// The first of the names that begin with a word.
fn beginning_with<'a>(
    alloc: Global,
    names: &[&'a str],
    word: &str,
) -> Result<Vec<&'a str>, AllocError> {
    let mut found = Vec::new(alloc);
    for name in names {
        if word.len() > 2 && found.len() < MOST_VALUES && begins_with(name, word) {
            found.push(*name)?;
        }
    }
    Ok(found)
}

/// Those of the names that are nearest to a word; where none is near, those that begin with it, or all if they are few.
pub(crate) fn shown_values<'a>(
    alloc: Global,
    names: &[&'a str],
    word: &str,
) -> Result<Vec<&'a str>, AllocError> {
    let mut nearest = Nearest::new(alloc, word)?;
    for name in names {
        nearest.add(name)?;
    }
    if !nearest.names.is_empty() {
        return Ok(nearest.names);
    }
    if names.len() <= MOST_VALUES {
        return Vec::from_slice(alloc, names);
    }
    beginning_with(alloc, names, word)
}
