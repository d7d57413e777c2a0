//! A condition of which signs and names of attributes alone are shown.

ghost use Rattle.std.specs.Prelude.{◌≡◌, OnOk, IfOk};
ghost use Rattle.std.specs.List.{list_all};
ghost use Rattle.radpolicy_common.specs.SecretAttributes.{without_blanks_behind};
ghost use Rattle.radpolicy_import_texts.specs.Concealing.{HasNoValues, awaits_value, ends_in_relation, is_blank, is_reference, is_relation, is_sign};
ghost use Rattle.radpolicy_import_texts.specs.SecretNames.{Secrets};
ghost use Rattle.radpolicy_import_texts.specs.Words.{is_reference_octet};

use crate::names::SecretNames;
use crate::words::is_reference_octet;
use std::alloc::{AllocError, Global};

/// What stands in the place of what is hidden.
pub(crate) const HIDDEN: &[u8] = b"(hidden)";

// Where a reader of a condition is.
#[derive(Clone, Copy, PartialEq, Eq)]
enum Place {
    Between,
    /// In a word, or in what else is no sign.
    Word,
    /// In a text or a pattern: what ends it, and whether a `\` was before.
    Quoted(u8, bool),
}

#[derive(Drop)]
struct Reader {
    place: Place,
    word: Vec<u8>,
    /// Whether the last sign was the `~` of `=~` or `!~`.
    matches: bool,
    shown: Vec<u8>,
}

fn is_blank(octet: u8) -> bool
    ensures { result ≡ is_blank octet }
{
    octet == b' ' || octet == b'\t'
}

#[tactic(auto, unfolding(crate::specs::Concealing::is_sign))]
fn is_sign(octet: u8) -> bool
    ensures { result ≡ is_sign octet }
{
    b"()!=<>~&|,{}[]*+^".contains(&octet)
}

fn is_quote(octet: u8) -> bool {
    octet == b'"' || octet == b'\'' || octet == b'`'
}

fn are_of_reference(octets: &[u8]) -> bool
    ensures { result ≡ list_all is_reference_octet octets.now }
{
    octets.iter().all(|octet| is_reference_octet(*octet))
}

// `&` and a name, with its list and its tag, or nothing behind the `&`.
#[tactic(auto, using(crate::proofs::ShownParts::reference_at))]
fn is_reference(word: &[u8]) -> bool
    ensures { result ≡ is_reference word.now }
{
    match word {
        [first, name @ ..] => *first == b'&' && are_of_reference(name),
        [] => false,
    }
}

#[tactic(auto, unfolding(crate::specs::Concealing::is_relation))]
fn is_relation(octet: u8) -> bool
    ensures { result ≡ is_relation octet }
{
    b"=<>~*".contains(&octet)
}

fn ends_in_relation(text: &[u8]) -> bool
    ensures { result ≡ ends_in_relation text.now }
{
    match text.last() {
        Some(octet) => is_relation(*octet),
        None => false,
    }
}

fn without_blanks_behind(text: &[u8]) -> &[u8]
    ensures { result.now ≡ without_blanks_behind text.now }
{
    text.trim_ascii_end()
}

// Whether what comes next in a condition is what something is compared with.
fn awaits_value(shown: &[u8]) -> bool
    ensures { result ≡ awaits_value shown.now }
{
    ends_in_relation(without_blanks_behind(shown))
}

impl Reader {
    #[tactic(auto, using(crate::proofs::ShownParts::nothing_shown))]
    fn new(alloc: Global) -> Reader
        ensures { (names : Secrets) → HasNoValues names result.shown.items }
    {
        Reader {
            place: Place::Between,
            word: Vec::new(alloc),
            matches: false,
            shown: Vec::new(alloc),
        }
    }

    // What is hidden side by side is hidden once.
    #[tactic(auto, using(crate::proofs::ShownParts::hidden_after))]
    fn hide(&mut self) -> Result<(), AllocError>
        ensures { (names : Secrets) → HasNoValues names self.old.shown.items
            → OnOk result (HasNoValues names self.new.shown.items) }
    {
        if !self.shown.ends_with(HIDDEN) {
            self.shown.extend_from_slice(HIDDEN)?;
        }
        Ok(())
    }

    #[tactic(auto, using(crate::proofs::ShownParts::name_after, crate::proofs::ShownParts::reference_after))]
    fn show_word(&mut self, names: &SecretNames<'_>) -> Result<(), AllocError>
        ensures { HasNoValues names.now self.old.shown.items
            → OnOk result (HasNoValues names.now self.new.shown.items) }
    {
        if is_reference(&self.word) {
            return self.shown.extend_from_slice(&self.word);
        }
        // (a bare word may be a value that reads like a name)
        if awaits_value(&self.shown) {
            return self.hide();
        }
        if names.names_attribute(&self.word) {
            return self.shown.extend_from_slice(&self.word);
        }
        self.hide()
    }

    fn end_word(&mut self, names: &SecretNames<'_>) -> Result<(), AllocError>
        ensures { HasNoValues names.now self.old.shown.items
            → OnOk result (HasNoValues names.now self.new.shown.items) }
    {
        if self.place == Place::Word {
            self.show_word(names)?;
            self.word.clear();
            self.place = Place::Between;
        }
        Ok(())
    }

    // A `&` begins a word, and a second one ends it again.
    fn begins_reference(&self, octet: u8) -> bool {
        octet == b'&' && self.place == Place::Between
    }

    fn begin_quoted(&mut self, octet: u8) -> Result<(), AllocError>
        ensures { (names : Secrets) → HasNoValues names self.old.shown.items
            → OnOk result (HasNoValues names self.new.shown.items) }
    {
        self.place = Place::Quoted(octet, false);
        self.matches = false;
        self.hide()
    }

    // An octet outside of texts and patterns.
    #[tactic(auto, using(crate::proofs::ShownParts::blank_after, crate::proofs::ShownParts::sign_after))]
    fn pass_outside(&mut self, names: &SecretNames<'_>, octet: u8) -> Result<(), AllocError>
        ensures { HasNoValues names.now self.old.shown.items
            → OnOk result (HasNoValues names.now self.new.shown.items) }
    {
        if is_quote(octet) || (octet == b'/' && self.matches) {
            self.end_word(names)?;
            self.begin_quoted(octet)
        } else if is_sign(octet) && !self.begins_reference(octet) {
            self.end_word(names)?;
            self.matches = octet == b'~';
            Ok(self.shown.push(octet)?)
        } else if is_blank(octet) {
            self.end_word(names)?;
            Ok(self.shown.push(octet)?)
        } else {
            self.place = Place::Word;
            self.matches = false;
            Ok(self.word.push(octet)?)
        }
    }

    fn pass(&mut self, names: &SecretNames<'_>, octet: u8) -> Result<(), AllocError>
        ensures { HasNoValues names.now self.old.shown.items
            → OnOk result (HasNoValues names.now self.new.shown.items) }
    {
        match self.place {
            Place::Quoted(mark, true) => {
                self.place = Place::Quoted(mark, false);
                Ok(())
            }
            Place::Quoted(mark, false) => {
                self.place = if octet == mark {
                    Place::Between
                } else {
                    Place::Quoted(mark, octet == b'\\')
                };
                Ok(())
            }
            Place::Between | Place::Word => self.pass_outside(names, octet),
        }
    }
}

/// A condition of which each text, pattern, number and other word that is no name of an attribute is `(hidden)`; what
/// something is compared with is shown behind a `&` alone.
pub(crate) fn concealed(
    alloc: Global,
    names: &SecretNames<'_>,
    text: &[u8],
) -> Result<Vec<u8>, AllocError>
    ensures { IfOk result (λ shown. HasNoValues names.now shown.items) }
{
    let mut reader = Reader::new(alloc);
    for octet in text {
        reader.pass(names, *octet)?;
    }
    reader.end_word(names)?;
    let Reader { shown, .. } = reader;
    Ok(shown)
}
