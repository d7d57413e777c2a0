//! Which names of a server's text are of secret attributes.

ghost use Rattle.std.specs.Prelude.{◌≡◌, ◌<◌, IfOk, IfSome, length};
ghost use Rattle.std.specs.Char.{is_ascii_digit};
ghost use Rattle.std.specs.List.{after_first, before_first, list_all, list_any, position};
ghost use Rattle.std.specs.Str.{str_eq_ignore_ascii_case};
ghost use Rattle.avp_dict.specs.Words.{same_name};
ghost use Rattle.radpolicy_common.specs.SecretAttributes.{is_colon};
ghost use Rattle.radpolicy_import_texts.specs.Concealing.{is_attribute, is_list, is_tag, names_attribute, without_list, without_tag};
ghost use Rattle.radpolicy_import_texts.specs.SecretNames.{assigns_secret, is_copy, is_secret, names_secret};

use crate::followers::followers;
use crate::words::{is_held, is_name_octet, is_opening};
use avp_dict::same_name;
use radpolicy_common::{Redaction, is_secret_name, spelled_octets};
use server_configuration::{Configuration, Content, Item, Quote, Text};
use std::alloc::{AllocError, Global};
use std::marker::Model;

/// The names of the attributes of a configuration whose values are hidden: of those that are secret by the dictionary or
/// by their names, and of those to which lines of updates give their values.
#[derive(Drop)]
pub struct SecretNames<'a> {
    redaction: &'a Redaction<'a>,
    // Names of attributes to which secret values are given.
    copies: Vec<Vec<u8>>,
    // Whether what is captured, or the value of a loop, may be secret.
    holds: bool,
    // Whether there are more of them than are looked for, so that each value may be secret.
    all: bool,
    // Of each item of the configuration, whether it stands behind a secret value on its line.
    followers: Vec<bool>,
}

// How often the lines are gone over, and how many names are kept.
const MOST_ROUNDS: usize = 16;

const MOST_COPIES: usize = 1_000;

/// What may stand before a name and a colon.
pub const LISTS: [&str; 14] = [
    "request",
    "reply",
    "control",
    "session-state",
    "proxy-request",
    "proxy-reply",
    "outer.request",
    "outer.reply",
    "outer.control",
    "outer.session-state",
    "coa",
    "coa-reply",
    "disconnect",
    "disconnect-reply",
];

fn is_one_of(words: &[&str], word: &[u8]) -> bool
    ensures { result ≡ list_any (λ own. str_eq_ignore_ascii_case word.now own.now) words.now }
{
    words
        .iter()
        .any(|own| word.eq_ignore_ascii_case(own.as_bytes()))
}

#[tactic(auto, unfolding(crate::specs::Concealing::lists))]
fn is_list(word: &[u8]) -> bool
    ensures { result ≡ is_list word.now }
{
    is_one_of(&LISTS, word)
}

// Whether what follows a name is a tag of it, or the place of an instance.
fn is_number(word: &[u8]) -> bool
    ensures { result ≡ list_all is_ascii_digit word.now }
{
    word.iter().all(|octet| octet.is_ascii_digit())
}

fn is_tag(word: &[u8]) -> bool
    ensures { result ≡ is_tag word.now }
{
    (word.len() == 1 || word.len() == 2) && is_number(word)
}

fn colon_in(word: &[u8]) -> Option<usize>
    ensures at { result ≡ position is_colon word.now }
    ensures within { IfSome result (λ at. at < length word.now) }
{
    word.iter().position(|octet| *octet == b':')
}

// What is before the first colon of a word, and behind it.
fn around_colon(word: &[u8]) -> (&[u8], &[u8])
    ensures front { result.0.now ≡ before_first is_colon word.now }
    ensures back { result.1.now ≡ after_first is_colon word.now }
{
    match colon_in(word) {
        Some(at) => (&word[..at], &word[at + 1..]),
        None => (word, &word[word.len()..]),
    }
}

fn without_list(word: &[u8]) -> &[u8]
    ensures { result.now ≡ without_list word.now }
{
    let (front, back) = around_colon(word);
    if is_list(front) { back } else { word }
}

fn without_tag(word: &[u8]) -> &[u8]
    ensures { result.now ≡ without_tag word.now }
{
    let (front, back) = around_colon(word);
    if is_tag(back) { front } else { word }
}

// The attribute's name of the left side of an update line: nothing of a whole list.
fn target(name: &Text) -> &[u8] {
    let word = name.octets.as_slice();
    let word = word.strip_prefix(b"&").unwrap_or(word);
    if word.ends_with(b":") {
        return b"";
    }
    // (which instance it is doesn't matter)
    let name = word.split(|octet| *octet == b'[').next().unwrap_or(word);
    let mut words = name.split(|octet| !is_name_octet(*octet));
    match (words.next(), words.next()) {
        (_, Some(second)) if !is_number(second) => second,
        (Some(first), _) => first,
        (None, _) => b"",
    }
}

// Whether a word begins with these octets, in either case, and a digit behind them.
fn begins_number(word: &[u8], begin: &[u8]) -> bool {
    let (front, back) = word.split_at(begin.len().min(word.len()));
    front.eq_ignore_ascii_case(begin)
        && match back.first() {
            Some(octet) => octet.is_ascii_digit(),
            None => false,
        }
}

// Whether a word is the number of an attribute, as `Attr-26.40000.1` or a server's `Vendor-40000-Attr-1`.
fn is_numbered(word: &[u8]) -> bool {
    begins_number(word, b"Attr-") || begins_number(word, b"Vendor-")
}

fn is_octal(octet: u8) -> bool {
    matches!(octet, b'0'..=b'7')
}

fn has_octal_escape(octets: &[u8]) -> bool {
    octets.windows(4).any(|four| match four {
        [b'\\', first, second, third] => {
            is_octal(*first) && is_octal(*second) && is_octal(*third)
        }
        _ => false,
    })
}

fn has_equals_sign(octets: &[u8]) -> bool {
    octets.contains(&b'=') || octets.windows(4).any(|four| four == b"\\075".as_slice())
}

// Whether a text may spell a key or its `=` by an escape of octal digits.
fn may_escape_key(octets: &[u8]) -> bool {
    has_octal_escape(octets) && has_equals_sign(octets)
}

fn has_pattern(arguments: &[Text]) -> bool {
    arguments.iter().any(|text| text.octets.contains(&b'~'))
}

fn is_section_named(item: &Item, word: &[u8]) -> bool {
    match &item.content {
        Content::Section { name, .. } => name.is(word),
        _ => false,
    }
}

// The section that an item is in, if it is in one of this name.
fn section_of<'a>(configuration: &'a Configuration, item: &Item, word: &[u8]) -> Option<&'a Item> {
    let section = configuration.items.get(item.section?)?;
    if is_section_named(section, word) {
        Some(section)
    } else {
        None
    }
}

fn has_name(names: &[Vec<u8>], name: &[u8]) -> bool
    ensures { result ≡ list_any (λ own. same_name own.items name.now) names.now }
{
    names.iter().any(|own| same_name(own, name))
}

impl<'a> Model for SecretNames<'a> {
    ghost use Rattle.radpolicy_import_texts.specs.SecretNames.{Secrets};

    ghost Value = { Secrets };

    ghost view = { λ s. record {
      redaction = s.redaction.now;
      copies = s.copies.items;
      holds = s.holds;
      all = s.all;
    } };
}

impl<'a> SecretNames<'a> {
    /// Those of a configuration.
    pub fn new(
        alloc: Global,
        redaction: &'a Redaction<'a>,
        configuration: &Configuration,
    ) -> Result<SecretNames<'a>, AllocError>
        ensures { IfOk result (λ names. names.redaction ≡ redaction.now) }
    {
        let mut names = SecretNames::with_copies(alloc, redaction, configuration)?;
        names.followers = followers(alloc, &names, configuration)?;
        Ok(names)
    }

    fn with_copies(
        alloc: Global,
        redaction: &'a Redaction<'a>,
        configuration: &Configuration,
    ) -> Result<SecretNames<'a>, AllocError>
        ensures { IfOk result (λ names. names.redaction ≡ redaction.now) }
    {
        let mut names = SecretNames {
            redaction,
            copies: Vec::new(alloc),
            holds: false,
            all: false,
            followers: Vec::new(alloc),
        };
        for _ in 0..MOST_ROUNDS {
            let (copies, holds) = (names.copies.len(), names.holds);
            names.add_copies(configuration)?;
            if names.copies.len() == copies && names.holds == holds {
                return Ok(names);
            }
        }
        names.all = true;
        Ok(names)
    }

    fn add_copies(&mut self, configuration: &Configuration) -> Result<(), AllocError>
        ensures { self.new.redaction ≡ self.old.redaction }
    {
        for item in &configuration.items {
            match &item.content {
                Content::Pair { name, value, .. } => {
                    if section_of(configuration, item, b"update").is_some() {
                        self.add_copy(name, value.as_ref())?;
                    }
                }
                Content::Section { name, arguments } => {
                    if name.is(b"foreach") || has_pattern(arguments) {
                        self.holds = self.holds || self.speak(arguments)?;
                    }
                }
                Content::Word { .. } | Content::Include { .. } => {}
            }
        }
        Ok(())
    }

    fn add_copy(&mut self, name: &Text, value: Option<&Text>) -> Result<(), AllocError>
        ensures { self.new.redaction ≡ self.old.redaction }
    {
        let Some(value) = value else {
            return Ok(());
        };
        let name = target(name);
        if name.is_empty() || self.all || self.is_secret(name) || !self.gives(value) {
            return Ok(());
        }
        if self.copies.len() >= MOST_COPIES {
            self.all = true;
            return Ok(());
        }
        let copy = Vec::from_slice(*self.copies.allocator(), name)?;
        self.copies.push(copy)?;
        Ok(())
    }

    fn is_copy(&self, name: &[u8]) -> bool
        ensures { result ≡ is_copy self.now.copies name.now }
    {
        has_name(&self.copies, name)
    }

    // Whether a name is one of them.
    fn is_secret(&self, name: &[u8]) -> bool
        ensures { result ≡ is_secret self.now name.now }
    {
        if self.is_copy(name) {
            return true;
        }
        match self.redaction.dictionary().by_name(name) {
            Some(named) => self.redaction.is_secret(named.id),
            None => is_secret_name(name),
        }
    }

    fn is_attribute(&self, name: &[u8]) -> bool
        ensures { result ≡ is_attribute self.now name.now }
    {
        self.redaction.dictionary().by_name(name).is_some()
    }

    /// Whether a word is the name of an attribute that the dictionary has, with a list before it or a tag behind it.
    pub(crate) fn names_attribute(&self, word: &[u8]) -> bool
        ensures { result ≡ names_attribute self.now word.now }
    {
        self.is_attribute(without_tag(without_list(word)))
    }

    // Whether one of a text's words is one of them.
    fn names_secret(&self, octets: &[u8]) -> bool
        ensures { result ≡ names_secret self.now octets.now }
    {
        octets
            .split(|octet| !is_name_octet(*octet))
            .any(|word| self.is_secret(word))
    }

    // Whether what follows a brace or a `&` is a reference to one of them, or to what was captured of one: its first words
    // are a function's name, its list and its own name, or some of these.
    fn begins(&self, octets: &[u8]) -> bool {
        octets.split(|octet| !is_name_octet(*octet)).take(3).any(|word| (self.holds
            && is_held(word))
            || self.is_secret(word))
    }

    // Whether a text refers to one of them.
    fn refers(&self, octets: &[u8]) -> bool {
        octets
            .split(|octet| is_opening(*octet))
            .skip(1)
            .any(|part| self.begins(part))
    }

    // Whether a text has one of them and a `=`.
    fn assigns_secret(&self, octets: &[u8]) -> bool
        ensures { result ≡ assigns_secret self.now octets.now }
    {
        octets.contains(&b'=') && self.names_secret(octets)
    }

    // Whether a value is made of one of them.
    fn gives(&self, value: &Text) -> bool {
        self.refers(&value.octets)
            || (value.quote == Quote::Bare && self.names_secret(&value.octets))
    }

    // The same of the octets for which hexadecimal digits in a text stand.
    fn spells_secret(&self, octets: &[u8]) -> Result<bool, AllocError> {
        let spelled = spelled_octets(*self.copies.allocator(), octets)?;
        Ok(self.assigns_secret(&spelled))
    }

    /// Whether octets speak of one of them.
    pub(crate) fn speaks(&self, octets: &[u8]) -> Result<bool, AllocError> {
        Ok(
            self.all
                || self.refers(octets)
                || self.assigns_secret(octets)
                || may_escape_key(octets)
                || self.spells_secret(octets)?,
        )
    }

    // Whether one of a text's words is the number of an attribute that the dictionary does not describe: nobody knows what
    // its octets are.
    fn names_number(&self, octets: &[u8]) -> bool {
        octets
            .split(|octet| !is_name_octet(*octet))
            .any(|word| is_numbered(word) && !self.is_attribute(word))
    }

    fn speaks_in(&self, text: &Text) -> Result<bool, AllocError> {
        let is_named = text.quote == Quote::Bare
            && (self.names_secret(&text.octets) || self.names_number(&text.octets));
        Ok(is_named || self.speaks(&text.octets)?)
    }

    fn speak(&self, texts: &[Text]) -> Result<bool, AllocError> {
        for text in texts {
            if self.speaks_in(text)? {
                return Ok(true);
            }
        }
        Ok(false)
    }

    /// Whether the text between the braces of an expansion speaks of one of them.
    pub(crate) fn expansion_speaks(&self, octets: &[u8]) -> Result<bool, AllocError> {
        Ok(self.begins(octets) || self.speaks(octets)?)
    }

    // Whether an item is a case of a `switch` by one of them.
    fn is_case_of_secret(
        &self,
        configuration: &Configuration,
        item: &Item,
    ) -> Result<bool, AllocError> {
        match section_of(configuration, item, b"switch") {
            Some(section) => match &section.content {
                Content::Section { arguments, .. } => self.speak(arguments),
                _ => Ok(false),
            },
            None => Ok(false),
        }
    }

    /// Whether the item at a place stands behind a secret value on its line, as further words of a value without quotes.
    pub(crate) fn is_follower(&self, place: usize) -> bool {
        matches!(self.followers.get(place), Some(true))
    }

    /// Whether an item speaks of one of them, so that its values are hidden.
    pub(crate) fn item_speaks(
        &self,
        configuration: &Configuration,
        item: &Item,
    ) -> Result<bool, AllocError> {
        match &item.content {
            Content::Pair { name, value, .. } => {
                if self.speaks_in(name)? {
                    return Ok(true);
                }
                match value {
                    Some(value) => self.speaks_in(value),
                    None => Ok(false),
                }
            }
            Content::Section { name, arguments } | Content::Word { name, arguments } => {
                Ok(
                    self.speaks_in(name)?
                        || self.speak(arguments)?
                        || self.is_case_of_secret(configuration, item)?,
                )
            }
            Content::Include { .. } => Ok(false),
        }
    }
}
