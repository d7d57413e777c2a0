//! What policies do not have, and the attributes of `control` that it is in a policy: attributes of other lists, and
//! expansions that ask something outside of the policy.

use crate::settings::{Module, ModuleAnswer, SectionKind, answer_of};
use crate::statements::{Statement, StatementKind};
use avp_dict::{Dictionary, Named, ValueFault, is_container, same_name};
use avp_lists::AttrId;
use itoa::Buffer;
use radpolicy_import_conditions::{
    OtherAttribute, OtherList, OtherSource, ServerCode, ServerList, expansions_in, is_name_octet,
};
use server_configuration::{Configuration, Content, Text, has_reference};
use std::alloc::{AllocError, Global};

/// Which expansions become attributes.
#[derive(Clone, Copy, Debug, PartialEq, Eq)]
pub enum Stubs {
    /// Those that ask something: a database, a directory, a program, what the server knows of a client.
    Asking,
    /// Functions too, as `%{tolower:..}`, whose results are then given and not computed.
    Functions,
}

/// What statements name that policies do not have.
#[derive(Drop)]
struct Finder<'a> {
    alloc: Global,
    configuration: &'a Configuration,
    dictionary: &'a Dictionary,
    stubs: Stubs,
    section: SectionKind,
    modules: &'a [Module],
    found: Vec<OtherAttribute>,
}

// The modules whose expansions ask something. The name of an instance mostly ends in that of its module, as `cuisql`.
const ASKING: [&[u8]; 14] = [
    b"sql",
    b"client",
    b"ldap",
    b"exec",
    b"echo",
    b"debug_attr",
    b"listen",
    b"home_server",
    b"perl",
    b"python",
    b"python3",
    b"rest",
    b"redis",
    b"cache",
];

// The module or function that an expansion calls, by the text between its braces.
fn called(word: &[u8]) -> Option<&[u8]> {
    let begin = word.get(..word.len().min(MOST_OCTETS))?;
    let colon = begin.iter().position(|octet| *octet == b':')?;
    let name = word.split_at(colon).0;
    let is_name = name.iter().all(|octet| octet.is_ascii_alphanumeric()
        || matches!(*octet, b'_' | b'-' | b'.'));
    // A word for a list, but for one that is a function too as it is written in small letters.
    let is_list = ServerList::named(name).is_some() && name != b"config".as_slice();
    if name.is_empty() || !is_name || is_list {
        return None;
    }
    Some(name)
}

fn asks(name: &[u8]) -> bool {
    ASKING.iter().any(|module| name.ends_with(module))
}

// What the name of an attribute for an expansion begins with, as `Import-Sql-`.
fn stub_name(alloc: Global, module: &[u8]) -> Result<Vec<u8>, AllocError> {
    let mut name = Vec::from_slice(alloc, b"Import-")?;
    for (place, octet) in module.iter().enumerate() {
        name.push(match *octet {
            b'_' | b'.' => b'-',
            octet if place == 0 => octet.to_ascii_uppercase(),
            octet => octet,
        })?;
    }
    name.push(b'-')?;
    Ok(name)
}

fn push_digits(name: &mut Vec<u8>, number: usize) -> Result<(), AllocError> {
    let mut digits = Buffer::new();
    name.extend_from_slice(digits.format(number).as_bytes())
}

// The name as its ATTRIBUTE line has it.
fn written_name<'a>(dictionary: &'a Dictionary, named: Named, name: &'a [u8]) -> &'a [u8] {
    match dictionary.by_id(named.id) {
        Some(entry) if same_name(entry.name, name) => entry.name,
        _ => name,
    }
}

// Whether two attributes are of one type and form.
fn are_alike(dictionary: &Dictionary, one: Named, other: Named) -> bool {
    match (dictionary.by_id(one.id), dictionary.by_id(other.id)) {
        (Some(own), Some(entry)) => {
            own.kind == entry.kind && dictionary.form(one.id) == dictionary.form(other.id)
        }
        _ => false,
    }
}

// The attributes whose values are named by sections and modules of a server.
const TYPES: [&[u8]; 9] = [
    b"Auth-Type",
    b"Autz-Type",
    b"Acct-Type",
    b"Session-Type",
    b"Post-Auth-Type",
    b"Pre-Proxy-Type",
    b"Post-Proxy-Type",
    b"Recv-CoA-Type",
    b"Send-CoA-Type",
];

fn behind_first(text: &[u8]) -> &[u8] {
    match text {
        [_, rest @ ..] => rest,
        [] => text,
    }
}

// The attribute's name behind a list, without its `&`.
fn name_behind_list(word: &[u8]) -> &[u8] {
    match word.iter().rposition(|octet| matches!(*octet, b':' | b'&')) {
        Some(place) => behind_first(word.split_at(place).1),
        None => word,
    }
}

// The word that a text ends in, before the sign of a comparison.
fn last_word(text: &[u8]) -> &[u8] {
    let text = text.trim_ascii_end();
    let text = text.strip_suffix(b"!").unwrap_or(text).trim_ascii_end();
    match text.iter().rposition(|octet| !is_word_octet(*octet)) {
        Some(place) => behind_first(text.split_at(place).1),
        None => text,
    }
}

// The word that a text begins with, or the first between quotes.
fn first_word(text: &[u8]) -> &[u8] {
    let text = match text.trim_ascii_start() {
        [b'"' | b'\'', rest @ ..] => rest,
        text => text,
    };
    match text.iter().position(|octet| !is_name_octet(*octet)) {
        Some(end) => text.split_at(end).0,
        None => text,
    }
}

// Whether a word may be the name of a value.
fn is_value_name(word: &[u8]) -> bool {
    !word.is_empty()
        && word.iter().all(|octet| is_name_octet(*octet))
        && !word.iter().all(|octet| octet.is_ascii_digit())
}

// The name of the attribute that is set where a section ends by `return`.
const RETURNED: &[u8] = b"Import-Returned";

// How many names are tried where others have them.
const MOST_NAMES: usize = 100;

// How long a name may be in a dictionary, in octets.
const MOST_OCTETS: usize = 128;

// How many attributes there are at most.
const MOST_FOUND: usize = 1_000;

// A name with a number behind it, where it is not the first.
fn numbered_name(alloc: Global, name: &[u8], number: usize) -> Result<Vec<u8>, AllocError> {
    let mut made = Vec::from_slice(alloc, name)?;
    if number > 1 {
        made.push(b'-')?;
        push_digits(&mut made, number)?;
    }
    Ok(made)
}

// The octets of a word that may name a list and an attribute.
fn is_word_octet(octet: u8) -> bool {
    is_name_octet(octet) || octet == b':'
}

impl<'a> Finder<'a> {
    fn is_full(&self) -> bool {
        self.found.len() >= MOST_FOUND
    }

    fn has(&self, list: OtherList, id: AttrId) -> bool {
        self.found.iter().any(|other| match &other.source {
            OtherSource::Attribute(own, known, _) => *own == list && known.equals(id),
            _ => false,
        })
    }

    fn has_asked(&self, word: &[u8]) -> bool {
        self.found.iter().any(|other| match &other.source {
            OtherSource::Asked(text) => text.as_slice() == word,
            _ => false,
        })
    }

    fn has_own(&self, name: &[u8]) -> bool {
        self.found.iter().any(|other| same_name(&other.own, name))
    }

    // How many expansions of a module there are.
    fn count_of(&self, module: &[u8]) -> usize {
        self.found
            .iter()
            .filter(|other| match &other.source {
                OtherSource::Asked(text) => called(text) == Some(module),
                _ => false,
            })
            .count()
    }

    // The next name of its kind that neither the dictionary nor another has.
    fn asked_name(&self, module: &[u8]) -> Result<Option<Vec<u8>>, AllocError> {
        let first = self.count_of(module).saturating_add(1);
        for number in first..first.saturating_add(MOST_NAMES) {
            let mut name = stub_name(self.alloc, module)?;
            push_digits(&mut name, number)?;
            if name.len() > MOST_OCTETS {
                return Ok(None);
            }
            if self.dictionary.by_name(&name).is_none() && !self.has_own(&name) {
                return Ok(Some(name));
            }
        }
        Ok(None)
    }

    // Whether an expansion becomes an attribute, by what it calls. An attribute's name is no function.
    fn is_stub(&self, module: &[u8]) -> bool {
        match self.stubs {
            Stubs::Asking => asks(module),
            Stubs::Functions => self.dictionary.by_name(module).is_none(),
        }
    }

    // Adds an expansion, by the text between its braces, and says whether it becomes an attribute.
    fn asked(&mut self, word: &[u8]) -> Result<bool, AllocError> {
        let Some(module) = called(word) else {
            return Ok(false);
        };
        if !self.is_stub(module) || self.is_full() {
            return Ok(false);
        }
        if self.has_asked(word) {
            return Ok(true);
        }
        let Some(own) = self.asked_name(module)? else {
            return Ok(false);
        };
        self.found.push(OtherAttribute {
            source: OtherSource::Asked(Vec::from_slice(self.alloc, word)?),
            own,
            is_new: true,
        })?;
        Ok(true)
    }

    // The expansions of a text. What is in one that becomes an attribute is a part of it.
    fn expansions(&mut self, text: &[u8]) -> Result<(), AllocError> {
        let mut passed = 0usize;
        for expansion in &expansions_in(self.alloc, text)? {
            let Some(word) = expansion.word(text) else {
                continue;
            };
            if expansion.start >= passed && self.asked(word)? {
                passed = expansion.end;
            }
        }
        Ok(())
    }

    // The name of the attribute of control, and whether it is new: one that is there already serves where it is alike.
    fn own_name(&self, whole: &[u8], named: Named) -> Result<Option<(Vec<u8>, bool)>, AllocError> {
        for number in 1..=MOST_NAMES {
            let name = numbered_name(self.alloc, whole, number)?;
            match self.dictionary.by_name(&name) {
                None if name.len() > MOST_OCTETS => return Ok(None),
                None if !self.has_own(&name) => return Ok(Some((name, true))),
                Some(other) if are_alike(self.dictionary, named, other) => {
                    return Ok(Some((name, false)));
                }
                _ => {}
            }
        }
        Ok(None)
    }

    // Adds the attribute of a name, which may have a tag behind it, in a list.
    fn add(&mut self, list: OtherList, name: &[u8]) -> Result<(), AllocError> {
        let end = name.iter().position(|octet| *octet == b':');
        let name = name.split_at(end.unwrap_or(name.len())).0;
        let dictionary = self.dictionary;
        let Some(named) = dictionary.by_name(name) else {
            return Ok(());
        };
        if named.raw || is_container(named.id) || self.is_full() || self.has(list, named.id) {
            return Ok(());
        }
        let mut whole = Vec::from_slice(self.alloc, list.prefix())?;
        whole.extend_from_slice(written_name(dictionary, named, name))?;
        if let Some((own, is_new)) = self.own_name(&whole, named)? {
            self.found.push(OtherAttribute {
                source: OtherSource::Attribute(list, named.id, Vec::from_slice(self.alloc, name)?),
                own,
                is_new,
            })?;
        }
        Ok(())
    }

    // Those that a text names with their list, and its expansions.
    fn text(&mut self, text: &[u8]) -> Result<(), AllocError> {
        self.expansions(text)?;
        for word in text.split(|octet| !is_word_octet(*octet)) {
            let Some(colon) = word.iter().position(|octet| *octet == b':') else {
                continue;
            };
            let (list, name) = word.split_at(colon);
            if let Some(list) = OtherList::named(list) {
                self.add(list, name.strip_prefix(b":").unwrap_or(name))?;
            }
        }
        Ok(())
    }

    // A text in a section, with its references filled in where that can be done.
    fn filled(&self, section: Option<usize>, text: &[u8]) -> Result<Vec<u8>, AllocError> {
        if has_reference(text)
            && let Ok(filled) = self.configuration.resolved(self.alloc, section, text, &[])
        {
            return Ok(filled);
        }
        Vec::from_slice(self.alloc, text)
    }

    fn text_in(&mut self, section: Option<usize>, text: &Text) -> Result<(), AllocError> {
        let filled = self.filled(section, &text.octets)?;
        self.compared(&filled)?;
        self.text(&filled)
    }

    fn texts(&mut self, section: Option<usize>, texts: &[Text]) -> Result<(), AllocError> {
        for text in texts {
            self.text_in(section, text)?;
        }
        Ok(())
    }

    fn has_value(&self, own: &[u8], word: &[u8]) -> bool {
        self.found.iter().any(|other| match &other.source {
            OtherSource::Value(name) => {
                same_name(&other.own, own) && name.as_slice().eq_ignore_ascii_case(word)
            }
            _ => false,
        })
    }

    // Adds the name of a value of an attribute whose values a server names, unless the dictionary has it.
    fn value(&mut self, name: &[u8], word: &[u8]) -> Result<(), AllocError> {
        let name = name_behind_list(name);
        let Some(own) = TYPES.iter().find(|known| same_name(known, name)) else {
            return Ok(());
        };
        let Some(named) = self.dictionary.by_name(name) else {
            return Ok(());
        };
        if self.is_full() || !is_value_name(word) || self.has_value(own, word) {
            return Ok(());
        }
        match self.dictionary.value_of_text(self.alloc, named, word) {
            Err(ValueFault::NotValue) => {}
            Err(ValueFault::Memory) => return Err(AllocError),
            _ => return Ok(()),
        }
        self.found.push(OtherAttribute {
            source: OtherSource::Value(Vec::from_slice(self.alloc, word)?),
            own: Vec::from_slice(self.alloc, own)?,
            is_new: true,
        })?;
        Ok(())
    }

    // The names of values that a condition compares with.
    fn compared(&mut self, text: &[u8]) -> Result<(), AllocError> {
        let mut name: &[u8] = b"";
        for side in text.split(|octet| *octet == b'=') {
            self.value(name, first_word(side))?;
            if !side.is_empty() {
                name = last_word(side);
            }
        }
        Ok(())
    }

    // Those of the item at a place.
    fn item(&mut self, place: usize) -> Result<(), AllocError> {
        let configuration = self.configuration;
        let Some(item) = configuration.items.get(place) else {
            return Ok(());
        };
        match &item.content {
            Content::Pair { name, value, .. } => {
                self.text(&name.octets)?;
                match value {
                    Some(value) => {
                        self.value(&name.octets, &value.octets)?;
                        self.text_in(item.section, value)
                    }
                    None => Ok(()),
                }
            }
            Content::Section { arguments, .. } | Content::Word { arguments, .. } => {
                self.texts(item.section, arguments)
            }
            Content::Include { .. } => Ok(()),
        }
    }

    // The list that an update at a place is of, if policies do not have it.
    fn list_of(&self, place: usize) -> Option<OtherList> {
        let configuration = self.configuration;
        let item = configuration.items.get(place)?;
        match &item.content {
            Content::Section { arguments, .. } => match ServerList::named(
                &arguments.first()?.octets,
            ) {
                Some(ServerList::Other(list)) => Some(list),
                _ => None,
            },
            _ => None,
        }
    }

    // The attribute that the line at a place sets in the list of its update.
    fn line(&mut self, list: OtherList, place: usize) -> Result<(), AllocError> {
        let configuration = self.configuration;
        let Some(item) = configuration.items.get(place) else {
            return Ok(());
        };
        match &item.content {
            Content::Pair { name, .. } => {
                let name = name.octets.as_slice();
                self.add(list, name.strip_prefix(b"&").unwrap_or(name))
            }
            _ => Ok(()),
        }
    }

    fn lines(&mut self, update: usize, lines: &[Statement]) -> Result<(), AllocError> {
        let Some(list) = self.list_of(update) else {
            return Ok(());
        };
        for line in lines {
            self.line(list, line.place)?;
        }
        Ok(())
    }

    fn has_returned(&self) -> bool {
        self.found
            .iter()
            .any(|other| matches!(&other.source, OtherSource::Returned))
    }

    // Whether a statement ends the section, and nothing else.
    fn ends(&self, statement: &Statement) -> bool {
        let ends_by_code = self.section == SectionKind::PostAuth;
        match statement.kind {
            StatementKind::Return => true,
            StatementKind::Code(ServerCode::Handled) => ends_by_code,
            StatementKind::Module => {
                let answer = answer_of(self.configuration, self.modules, statement.place);
                ends_by_code && matches!(answer, Some(ModuleAnswer::Code(ServerCode::Handled)))
            }
            _ => false,
        }
    }

    // Adds the attribute that is set where the section ends, once.
    fn returned(&mut self) -> Result<(), AllocError> {
        if self.has_returned() || self.is_full() {
            return Ok(());
        }
        for number in 1..=MOST_NAMES {
            let own = numbered_name(self.alloc, RETURNED, number)?;
            if self.dictionary.by_name(&own).is_none() && !self.has_own(&own) {
                self.found.push(OtherAttribute {
                    source: OtherSource::Returned,
                    own,
                    is_new: true,
                })?;
                break;
            }
        }
        Ok(())
    }

    #[cycle(finding)]
    fn statement(&mut self, statement: &Statement) -> Result<(), AllocError> {
        self.item(statement.place)?;
        if self.ends(statement) {
            self.returned()?;
        }
        let block = statement.block.as_slice();
        if statement.kind == StatementKind::Update {
            self.lines(statement.place, block)?;
        }
        self.block(block)
    }

    #[cycle(finding)]
    fn block(&mut self, statements: &[Statement]) -> Result<(), AllocError> {
        for statement in statements {
            self.statement(statement)?;
        }
        Ok(())
    }
}

/// The attributes in place of what statements name and policies do not have, each once, in the order of the statements,
/// and at most 1,000. Where the section may end by the answer of a module, there is one for that.
pub fn other_attributes(
    alloc: Global,
    configuration: &Configuration,
    dictionary: &Dictionary,
    stubs: Stubs,
    section: SectionKind,
    modules: &[Module],
    statements: &[Statement],
) -> Result<Vec<OtherAttribute>, AllocError> {
    let mut finder = Finder {
        alloc,
        configuration,
        dictionary,
        stubs,
        section,
        modules,
        found: Vec::new(alloc),
    };
    finder.block(statements)?;
    Ok(finder.found)
}
