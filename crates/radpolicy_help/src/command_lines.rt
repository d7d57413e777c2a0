//! Help for a command line, and for files that could not be read.

ghost use Rattle.std.specs.Prelude.{◌≡◌, true, IfOk};
ghost use Rattle.radpolicy_common.specs.VisibleText.{all_visible};
ghost use Rattle.radpolicy_common.specs.declared.terminals.LineBreaks.TheVariants.{Kept};

use crate::nearest::nearest_of;
use crate::texts::{push_all, push_choices};
use radpolicy::{Fault, help_text, option_text};
use radpolicy_common::{LineBreaks, visible_text};
use std::alloc::{AllocError, Global};

const COMMANDS: [&str; 5] = ["run", "step", "encode", "decode", "check"];

// What to do, by what clap says of words.
const USAGE_HINTS: [(&str, &str); 10] = [
    (
        "'-D' found",
        "dictionary files come last, without an option: FOLDER/dictionary*\n",
    ),
    (
        "\n  <DICTIONARY>...",
        "dictionary files come last, as /usr/share/freeradius/dictionary*\n",
    ),
    (
        "\n  --script <SCRIPT>",
        "a script is a file with one word a line: forward, back, start, end or show\n",
    ),
    ("'--acct' found", "--acct is an option of run and encode\n"),
    ("'-i' found", "-i is an option of run and encode\n"),
    (
        "'--authenticator' found",
        "--authenticator is an option of run and encode\n",
    ),
    ("'--hex' found", "--hex is an option of run and step\n"),
    ("'--script' found", "--script is an option of step\n"),
    (
        "'--policy' found",
        "--policy is an option of run, step and check\n",
    ),
    (
        "'-S' found",
        "-S is an option of run, step, encode and decode\n",
    ),
];

fn push_usage_hints(help: &mut Vec<u8>, said: &str) -> Result<(), AllocError> {
    for (words, hint) in &USAGE_HINTS {
        if said.contains(*words) {
            push_all(help, &[hint])?;
        }
    }
    Ok(())
}

// Adds the commands that may have been meant.
fn push_commands(alloc: Global, help: &mut Vec<u8>, word: &str) -> Result<(), AllocError> {
    let names = nearest_of(alloc, word, &COMMANDS)?;
    if !names.is_empty() && !COMMANDS.contains(&word) {
        push_all(help, &["write "])?;
        push_choices(help, &names)?;
        push_all(help, &["\n"])?;
    }
    Ok(())
}

// What is said of words that ask for nothing that there is; without words, the whole help.
fn usage_help(alloc: Global, words: &[String]) -> Result<Vec<u8>, AllocError> {
    let mut help = Vec::new(alloc);
    match words {
        [_, command, ..] => {
            let said = help_text(alloc, words)?;
            push_all(&mut help, &[said.as_str()])?;
            push_usage_hints(&mut help, said.as_str())?;
            push_commands(alloc, &mut help, command.as_str())?;
        }
        _ => push_all(
            &mut help,
            &[help_text(alloc, &["radpolicy", "--help"])?.as_str()],
        )?,
    }
    Ok(help)
}

fn option_help(alloc: Global, words: &[String]) -> Result<Vec<u8>, AllocError> {
    let mut help = Vec::new(alloc);
    let text = option_text(alloc, words)?;
    if !text.is_empty() {
        push_all(
            &mut help,
            &[
                text,
                "\nradpolicy COMMAND --help lists a command's options\n",
            ],
        )?;
    }
    Ok(help)
}

/// What is said of the words of a command line that were refused for this: which word or option, what it takes, and how
/// to ask for the help. It is empty where there is nothing to say.
pub fn explain_words(alloc: Global, fault: &Fault, words: &[String]) -> Result<Vec<u8>, AllocError>
    ensures visible { IfOk result (λ text. all_visible Kept text.items ≡ true) }
{
    let help = match fault {
        Fault::Usage => usage_help(alloc, words)?,
        Fault::OptionValue => option_help(alloc, words)?,
        _ => Vec::new(alloc),
    };
    visible_text(alloc, &help, LineBreaks::Kept)
}

// Whether a line advises to write an option as a file's name, which nobody means.
fn is_no_advice(line: &[u8]) -> bool {
    line.trim_ascii().starts_with(b"tip: to pass")
}

/// What is said of the words of a command line that were refused for this, and how a program of this name is asked for
/// its options.
pub(crate) fn explain_options(
    alloc: Global,
    fault: &Fault,
    program: &str,
    said: &str,
) -> Result<Vec<u8>, AllocError> {
    let mut help = Vec::new(alloc);
    if !matches!(fault, Fault::Usage | Fault::OptionValue) {
        return Ok(help);
    }
    for line in said
        .trim_end_matches('\n')
        .as_bytes()
        .split(|octet| *octet == b'\n')
    {
        if !is_no_advice(line) {
            help.extend_from_slice(line)?;
            help.push(b'\n')?;
        }
    }
    push_all(&mut help, &[program, " --help lists its options\n"])?;
    visible_text(alloc, &help, LineBreaks::Kept)
}

/// What is said of the words of a command line that were refused for this, a sentence a line, without how the program is
/// used.
pub(crate) fn explain_options_shortly(
    alloc: Global,
    fault: &Fault,
    said: &str,
) -> Result<Vec<u8>, AllocError> {
    let mut help = Vec::new(alloc);
    if !matches!(fault, Fault::Usage | Fault::OptionValue) {
        return Ok(help);
    }
    for line in said.as_bytes().split(|octet| *octet == b'\n') {
        let line = line.trim_ascii();
        if line.starts_with(b"Usage:") {
            break;
        }
        if is_no_advice(line) {
            continue;
        }
        let sentence = line.strip_prefix(b"error: ").unwrap_or(line);
        help.extend_from_slice(sentence.strip_suffix(b":").unwrap_or(sentence))?;
        help.push(b'\n')?;
    }
    Ok(help)
}

/// What is said where no dictionary is named, and the system has none.
pub(crate) fn explain_no_dictionary(alloc: Global) -> Result<Vec<u8>, AllocError> {
    let mut help = Vec::new(alloc);
    push_all(
        &mut help,
        &[
            "no dictionary files are named, and the system has none\n\
            write -D and their folder, or the files themselves, the main one first\n",
        ],
    )?;
    Ok(help)
}

/// What is said of a file that could not be read.
pub fn explain_unread(alloc: Global, path: &str, is_folder: bool) -> Result<Vec<u8>, AllocError>
    ensures visible { IfOk result (λ text. all_visible Kept text.items ≡ true) }
{
    let mut help = Vec::new(alloc);
    if is_folder {
        push_all(
            &mut help,
            &[
                path,
                " is a folder\nfor dictionaries write its files: ",
                path.trim_end_matches('/'),
                "/dictionary*\n",
            ],
        )?;
    } else if path == "-" {
        push_all(
            &mut help,
            &["standard input could not be read, or has more than 16777216 octets\n"],
        )?;
    } else {
        push_all(
            &mut help,
            &[
                "there is no such file, or you may not read it, or it has more than 16777216 octets\n\
            look at it: ls -l ",
                path,
                "\n",
            ],
        )?;
    }
    visible_text(alloc, &help, LineBreaks::Kept)
}
