//! Scripts: words that move a stepper forward and back.

ghost use Rattle.std.specs.Prelude.{◌≡◌, ◌⊎◌, None, Ok, Some, IfErr, IfOk, IfSome, map};
ghost use Rattle.radpolicy.specs.Scripts.{IsUnknownWord, line_words, script_spelled, word_named, words_named};
ghost use Rattle.radpolicy.specs.declared.faults.Fault.TheVariants as fault;

use crate::faults::Fault;
use avp_dict::{next_line, words_between_blanks};
use avp_step::Move;
use std::alloc::{AllocError, Global};

/// A word of a script.
#[derive(Clone, Copy, Debug, PartialEq, Eq)]
pub(crate) enum ScriptWord {
    /// A move, whose line is printed.
    Make(Move),
    /// The three lists are printed.
    Show,
}

// What a word stands for.
#[tactic(auto, unfolding(crate::specs::Scripts::word_named))]
fn word_named(word: &[u8]) -> Option<ScriptWord>
    ensures { result ≡ word_named word.now }
{
    if word == b"forward".as_slice() {
        Some(ScriptWord::Make(Move::Forward))
    } else if word == b"back".as_slice() {
        Some(ScriptWord::Make(Move::Back))
    } else if word == b"start".as_slice() {
        Some(ScriptWord::Make(Move::Start))
    } else if word == b"end".as_slice() {
        Some(ScriptWord::Make(Move::End))
    } else if word == b"show".as_slice() {
        Some(ScriptWord::Show)
    } else {
        None
    }
}

// What words stand for; none where one is unknown.
#[tactic(auto, using(crate::proofs::ScriptWords::none_read, crate::proofs::ScriptWords::next_word, crate::proofs::ScriptWords::next_unknown, crate::proofs::ScriptWords::no_more_words))]
fn words_named(alloc: Global, texts: &[&[u8]]) -> Result<Option<Vec<ScriptWord>>, AllocError>
    ensures none { result ≡ Ok None → words_named (map (λ text. text.now) texts.now) ≡ None }
    ensures some { IfOk result (λ found.
        IfSome found (λ words. words_named (map (λ text. text.now) texts.now) ≡ Some words.items)) }
{
    let mut words = Vec::new(alloc);
    for text in texts {
        match word_named(text) {
            Some(word) => words.push(word)?,
            None => return Ok(None),
        }
    }
    Ok(Some(words))
}

// What the words of a line stand for; none where one is unknown.
fn words_of_line(alloc: Global, line: &[u8]) -> Result<Option<Vec<ScriptWord>>, AllocError>
    ensures none { result ≡ Ok None → words_named (line_words line.now) ≡ None }
    ensures some { IfOk result (λ found.
        IfSome found (λ words. words_named (line_words line.now) ≡ Some words.items)) }
{
    let texts = words_between_blanks(alloc, line)?;
    words_named(alloc, &texts)
}

/// The words of a script. The first unknown one is refused, with its line.
#[tactic(auto, using(crate::proofs::ScriptWords::none_before, crate::proofs::ScriptWords::one_line, crate::proofs::ScriptWords::unknown_line, crate::proofs::ScriptWords::no_line))]
pub(crate) fn read_script(alloc: Global, text: &[u8]) -> Result<Vec<ScriptWord>, Fault>
    ensures read { IfOk result (λ script. script_spelled text.now ≡ Ok script.items) }
    ensures refused { IfErr result (λ f. (f ≡ fault.Memory)
        ⊎ IsUnknownWord f (script_spelled text.now)) }
{
    let mut script = Vec::new(alloc);
    let mut number = 0;
    let mut rest = text;
    while let Some((line, after)) = next_line(rest) {
        number += 1;
        let Some(words) = words_of_line(alloc, line)? else {
            return Err(Fault::ScriptWord { line: number });
        };
        script.extend_from_slice(&words)?;
        rest = after;
    }
    Ok(script)
}
