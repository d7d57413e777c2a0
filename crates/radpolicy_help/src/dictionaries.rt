//! Help for faults of dictionary files.

use crate::dictionary_lines::{
    DictionaryLine, Keyword, RefusedWord, end_of_block, nearest_names, open_block,
};
use crate::halves::HIDDEN;
use crate::hidden::Hidden;
use crate::nearest::nearest_of;
use crate::places::{Quoted, push_place};
use crate::policy_tokens::text_of;
use crate::secret_words::hidden_of;
use crate::sources::{Source, Sources};
use crate::texts::{push_all, push_choices};
use crate::unread_secrets::UnreadSecrets;
use avp_dict::{DictFault, DictKind, last_component};
use std::alloc::{AllocError, Global};

/// Keywords of FreeRADIUS 4's dictionaries that FreeRADIUS 3 does not have.
const LATER_KEYWORDS: [&str; 11] = [
    "ALIAS",
    "BEGIN",
    "BEGIN-PROTOCOL",
    "DEFINE",
    "END",
    "END-PROTOCOL",
    "ENUM",
    "FLAGS",
    "MEMBER",
    "PROTOCOL",
    "STRUCT",
];

/// What a path has before its last component.
pub(crate) fn folder_of(path: &str) -> &str {
    let length = path
        .len()
        .saturating_sub(last_component(path.as_bytes()).len());
    path.get(..length).unwrap_or("")
}

// Adds octets of a file between these texts.
fn push_around(
    help: &mut Vec<u8>,
    before: &str,
    octets: &[u8],
    after: &str,
) -> Result<(), AllocError> {
    push_all(help, &[before])?;
    help.extend_from_slice(octets)?;
    push_all(help, &[after])
}

// Ends a sentence by the place of a line.
fn push_line(
    alloc: Global,
    help: &mut Vec<u8>,
    end: &str,
    line: DictionaryLine<'_>,
) -> Result<(), AllocError> {
    push_all(help, &["; ", end, ":\n"])?;
    let nothing = Hidden::none(alloc);
    let quoted = Quoted {
        source: line.file,
        hidden: &nothing,
    };
    push_place(alloc, help, quoted, line.start)
}

// A line begins with no keyword.
fn push_no_keyword(alloc: Global, help: &mut Vec<u8>, word: &[u8]) -> Result<(), AllocError> {
    let keywords = Keyword::words(alloc)?;
    push_around(help, "found ", word, "; here may be ")?;
    push_choices(help, keywords.as_slice())?;
    let names = nearest_of(alloc, text_of(word), keywords.as_slice())?;
    if !names.is_empty() {
        push_all(help, &["\nwrite "])?;
        push_choices(help, &names)?;
        push_all(help, &["\n"])
    } else if LATER_KEYWORDS.contains(&text_of(word)) {
        push_all(
            help,
            &["\nthis is a line of FreeRADIUS 4: give the dictionaries of FreeRADIUS 3\n"],
        )
    } else {
        push_all(
            help,
            &[
                "\nput # before a comment; if the file is a policy or a request, give it by \
                --policy or -f\n",
            ],
        )
    }
}

// A line has not the words that its keyword asks for.
fn push_unreadable(
    alloc: Global,
    help: &mut Vec<u8>,
    refused: &RefusedWord<'_>,
) -> Result<(), AllocError> {
    let Some(keyword) = refused.keyword() else {
        return push_no_keyword(alloc, help, refused.word);
    };
    let number = refused.before.len();
    let is_too_many = number > keyword.most_words();
    if is_too_many {
        push_around(help, "found ", refused.word, ", a word too many")?;
    } else if refused.word.is_empty() {
        push_all(
            help,
            &["the line ends; here may be ", keyword.choice(number)],
        )?;
    } else {
        push_around(help, "found ", refused.word, "; here may be ")?;
        push_all(help, &[keyword.choice(number)])?;
    }
    push_all(help, &["\nwrite ", keyword.word(), " ", keyword.form()])?;
    if is_too_many {
        push_all(
            help,
            &[": a name has no blanks, and a comment begins with #"],
        )?;
    }
    push_all(help, &["\n"])
}

// A number is too great.
fn push_out_of_range(help: &mut Vec<u8>, refused: &RefusedWord<'_>) -> Result<(), AllocError> {
    if refused.keyword() == Some(Keyword::Value) {
        let attribute = refused.before.get(1).copied().unwrap_or(&[]);
        push_around(help, "the type of ", attribute, " does not hold ")?;
        push_around(
            help,
            "",
            refused.word,
            ": a byte is 255 at most, a short 65535, an integer 4294967295\n\
            write a smaller number, or a wider type in the ATTRIBUTE line\n",
        )
    } else {
        push_around(
            help,
            "found ",
            refused.word,
            "; here may be 4294967295 at most\nwrite a smaller number\n",
        )
    }
}

// An earlier line gives a name another number.
fn push_other_number(
    alloc: Global,
    help: &mut Vec<u8>,
    refused: &RefusedWord<'_>,
    sources: &Sources<'_>,
) -> Result<(), AllocError> {
    let mut words = Vec::from_slice(alloc, refused.before.as_slice())?;
    words.push(refused.word)?;
    let line = refused.other_line(alloc, sources, words.as_slice())?;
    push_all(
        help,
        &[
            "an earlier line gives this name another number\ngive one of both another name, or take \
            its line out",
        ],
    )?;
    match line {
        Some(line) => push_line(alloc, help, "the other is here", line),
        None => push_all(help, &["\n"]),
    }
}

// No line that is read before defines a name: a line of this keyword would.
fn push_undefined(
    alloc: Global,
    help: &mut Vec<u8>,
    refused: &RefusedWord<'_>,
    keyword: Keyword,
    sources: &Sources<'_>,
) -> Result<(), AllocError> {
    let mut words = Vec::new(alloc);
    words.push(keyword.word().as_bytes())?;
    words.push(refused.word)?;
    if let Some(line) = refused.other_line(alloc, sources, words.as_slice())? {
        push_all(
            help,
            &["move the line that has it, or include its file, before this one"],
        )?;
        return push_line(alloc, help, "it is here", line);
    }
    let names = nearest_names(alloc, sources, keyword, refused.word)?;
    if !names.is_empty() {
        push_all(help, &["write "])?;
        push_choices(help, &names)?;
        push_all(help, &[", or "])?;
    }
    push_all(help, &["include the file that has ", keyword.word()])?;
    push_around(help, " ", refused.word, "")?;
    if names.is_empty() {
        push_all(help, &[", or write that line before this one"])?;
    }
    push_all(help, &["\n"])
}

// A block is left open, or a line ends another one than the last that is open.
fn push_unmatched(
    alloc: Global,
    help: &mut Vec<u8>,
    refused: &RefusedWord<'_>,
    file: Source<'_>,
) -> Result<(), AllocError> {
    if let Some((end, name)) = end_of_block(alloc, file.text, refused.start)? {
        push_all(help, &["this block does not end\nwrite ", end.word()])?;
        return push_around(help, " ", name, " after its last line\n");
    }
    let before = file.text.get(..refused.start).unwrap_or(&[]);
    let Some(start) = open_block(alloc, before)? else {
        return push_all(
            help,
            &["no block of this file is open here\ntake the line out, or write its BEGIN line\n"],
        );
    };
    if let Some((end, name)) = end_of_block(alloc, file.text, start)? {
        push_all(
            help,
            &[
                "this does not end the last block that is open\nwrite ",
                end.word(),
            ],
        )?;
        push_around(help, " ", name, " for that one")?;
    }
    push_line(
        alloc,
        help,
        "it begins here",
        DictionaryLine { file, start },
    )
}

// The file of this name, which a line includes, is missing.
fn push_no_file(help: &mut Vec<u8>, path: &str, included: &[u8]) -> Result<(), AllocError> {
    let name = text_of(last_component(included));
    push_all(
        help,
        &[
            "this line includes ",
            name,
            ", which is not among the files of the command line\n\
        add ",
            folder_of(path),
            name,
            " to them; for a whole set write ",
            folder_of(path),
            "dictionary*\n",
        ],
    )
}

// Files include one another.
fn push_too_deep(help: &mut Vec<u8>, path: &str, included: &[u8]) -> Result<(), AllocError> {
    if last_component(included) == last_component(path.as_bytes()) {
        return push_all(
            help,
            &[
                "this file includes itself: a file is found by its name alone, without folders\n\
                take the line out, or rename the file that is meant\n",
            ],
        );
    }
    push_all(
        help,
        &["9 files include one another here\nlook for files that include each other\n"],
    )
}

// What was found, and what to do.
fn push_sentences(
    alloc: Global,
    help: &mut Vec<u8>,
    kind: DictKind,
    refused: &RefusedWord<'_>,
    file: Source<'_>,
    sources: &Sources<'_>,
) -> Result<(), AllocError> {
    match kind {
        DictKind::Unreadable => push_unreadable(alloc, help, refused),
        DictKind::OutOfRange => push_out_of_range(help, refused),
        DictKind::OtherNumber | DictKind::OtherValue => {
            push_other_number(alloc, help, refused, sources)
        }
        DictKind::UnknownVendor => {
            push_around(
                help,
                "no VENDOR line before this one has the name ",
                refused.word,
                "\n",
            )?;
            push_undefined(alloc, help, refused, Keyword::Vendor, sources)
        }
        DictKind::NoAttribute => {
            push_around(
                help,
                "no ATTRIBUTE line that is read has the name ",
                refused.word,
                "\n",
            )?;
            push_undefined(alloc, help, refused, Keyword::Attribute, sources)
        }
        DictKind::Unmatched => push_unmatched(alloc, help, refused, file),
        DictKind::NoFile => push_no_file(help, file.path, refused.word),
        DictKind::TooDeep => push_too_deep(help, file.path, refused.next),
        DictKind::TooLong => push_all(
            help,
            &[
                "the files have more than 200000 lines\ngive fewer files, with a main file that \
                includes only those\n",
            ],
        ),
        DictKind::Memory => Ok(()),
    }
}

// What is hidden of a file. The lines of a dictionary have no secret; a line that begins otherwise may be one of another
// file that was given as a dictionary.
fn hidden_in_file(
    alloc: Global,
    secrets: &UnreadSecrets<'_>,
    text: &[u8],
    refused: &RefusedWord<'_>,
) -> Result<Hidden, AllocError> {
    if refused.keyword().is_some() {
        Ok(Hidden::none(alloc))
    } else {
        hidden_of(alloc, secrets, text, &[])
    }
}

/// What is said of a fault of dictionary files.
pub(crate) fn dictionary_help(
    alloc: Global,
    fault: DictFault,
    sources: &Sources<'_>,
    secrets: &UnreadSecrets<'_>,
) -> Result<Vec<u8>, AllocError> {
    let mut help = Vec::new(alloc);
    let file = sources.files.as_slice().get(fault.file);
    let path = sources.dictionaries.get(fault.file);
    let (Some(file), Some(path)) = (file, path) else {
        return Ok(help);
    };
    let text = file.octets.as_slice();
    let mut refused = RefusedWord::new(alloc, text, fault.file, fault.offset)?;
    let hidden = hidden_in_file(alloc, secrets, text, &refused)?;
    if hidden.hides(text, fault.offset, refused.word.len()) {
        refused.word = HIDDEN.as_bytes();
    }
    let file = Source { path, text };
    let quoted = Quoted {
        source: file,
        hidden: &hidden,
    };
    push_place(alloc, &mut help, quoted, fault.offset)?;
    push_sentences(alloc, &mut help, fault.kind, &refused, file, sources)?;
    Ok(help)
}
