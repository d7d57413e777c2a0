//! Attributes, as a server's policies name them.

use crate::other_attributes::{OtherAttribute, OtherSource};
use crate::other_lists::{OtherList, ServerList};
use crate::reasons::Reason;
use avp_dict::{Dictionary, Form, Kind, Named, is_container};
use avp_lists::{AttrId, List};
use std::alloc::AllocError;

/// How the name of an attribute is written in a policy.
#[derive(Clone, Copy)]
pub enum Spelling<'a> {
    /// As the server's policy has it.
    Word(&'a [u8]),
    /// As the dictionary has it.
    Printed,
    /// The same, of an attribute in place of an expansion.
    Asked,
}

/// A list, and what the name of an attribute stands for.
#[derive(Clone, Copy)]
pub struct Reference<'a> {
    pub list: List,
    pub spelling: Spelling<'a>,
    pub named: Named,
}

impl Reference<'_> {
    /// Whether the attribute is in place of an expansion.
    pub fn is_asked(&self) -> bool {
        matches!(self.spelling, Spelling::Asked)
    }
}

/// By what names are looked up: a dictionary, and the attributes in place of what policies do not have.
#[derive(Clone, Copy)]
pub struct Names<'a> {
    pub dictionary: &'a Dictionary,
    pub others: &'a [OtherAttribute],
}

impl<'a> Names<'a> {
    /// The name of the attribute of control that is this one of another list.
    pub(crate) fn own_name(&self, list: OtherList, name: &[u8]) -> Option<&'a [u8]> {
        let id = self.dictionary.by_name(name)?.id;
        let others = self.others;
        for other in others {
            if let OtherSource::Attribute(own, known, _) = &other.source
                && *own == list
                && known.equals(id)
            {
                return Some(&other.own);
            }
        }
        None
    }

    /// The name of the attribute of control that is set where a section has ended by `return`.
    pub fn returned(&self) -> Option<&'a [u8]> {
        let others = self.others;
        for other in others {
            if let OtherSource::Returned = &other.source {
                return Some(&other.own);
            }
        }
        None
    }

    /// The attribute of control that is in place of an expansion, by the text between its braces.
    pub fn asked(&self, word: &[u8]) -> Option<Named> {
        let others = self.others;
        for other in others {
            if let OtherSource::Asked(text) = &other.source
                && text.as_slice() == word
            {
                return self.dictionary.by_name(&other.own);
            }
        }
        None
    }
}

pub fn list_name(list: List) -> &'static [u8] {
    match list {
        List::Request => b"request",
        List::Reply => b"reply",
        List::Control => b"control",
    }
}

// An attribute of a list that policies have.
fn own_named<'a>(names: &Names<'_>, list: List, name: &'a [u8]) -> Result<Reference<'a>, Reason> {
    match names.dictionary.by_name(name) {
        Some(named) if is_container(named.id) => Err(Reason::NotValue),
        Some(named) => Ok(Reference {
            list,
            spelling: Spelling::Word(name),
            named,
        }),
        None if name.is_empty() => Err(Reason::WholeList),
        None if name.iter().all(|octet| is_name_octet(*octet)) => Err(Reason::UnknownAttribute),
        None => Err(Reason::NoName),
    }
}

// A name without its list: a number after a colon is a tag, and one between brackets counts instances.
fn named<'a>(names: &Names<'_>, list: ServerList, name: &'a [u8]) -> Result<Reference<'a>, Reason> {
    let name = name.strip_suffix(b"[0]").unwrap_or(name);
    if name.contains(&b'[') {
        return Err(Reason::Instance);
    }
    if name.contains(&b':') {
        return Err(Reason::Tag);
    }
    match list {
        ServerList::Own(list) => own_named(names, list, name),
        ServerList::Other(other) => {
            let own = names.own_name(other, name).ok_or(Reason::OtherList)?;
            let named = names.dictionary.by_name(own).ok_or(Reason::OtherList)?;
            Ok(Reference {
                list: List::Control,
                spelling: Spelling::Printed,
                named,
            })
        }
    }
}

pub fn is_name_octet(octet: u8) -> bool {
    octet.is_ascii_alphanumeric() || matches!(octet, b'-' | b'_' | b'.' | b'/')
}

pub(crate) fn is_number(octets: &[u8]) -> bool {
    !octets.is_empty() && octets.iter().all(|octet| octet.is_ascii_digit())
}

/// What a word refers to, without its `&`. A name alone is of the list at hand.
pub(crate) fn reference_in<'a>(
    names: &Names<'_>,
    own: ServerList,
    word: &'a [u8],
) -> Result<Reference<'a>, Reason> {
    let Some(colon) = word.iter().position(|octet| *octet == b':') else {
        return named(names, own, word);
    };
    let (list, name) = word.split_at(colon);
    let name = name.strip_prefix(b":").unwrap_or(name);
    if is_number(name) {
        return Err(Reason::Tag);
    }
    match ServerList::named(list) {
        Some(list) => named(names, list, name),
        None => Err(Reason::OtherList),
    }
}

/// A list, a name and what is behind it, as a tag is, of a word without its `&`. A name alone is of the list at hand.
pub fn parts_of(own: ServerList, word: &[u8]) -> (ServerList, &[u8], &[u8]) {
    let (list, name) = match word.iter().position(|octet| *octet == b':') {
        Some(colon) => {
            let (list, name) = word.split_at(colon);
            match ServerList::named(list) {
                Some(list) => (list, name.strip_prefix(b":").unwrap_or(name)),
                None => (own, word),
            }
        }
        None => (own, word),
    };
    let end = name.iter().position(|octet| *octet == b':');
    let (name, tag) = name.split_at(end.unwrap_or(name.len()));
    (list, name, tag)
}

/// The tag that is behind a name, with its colon: 0 where none is. None for one that is no tag.
pub(crate) fn tag_of(tag: &[u8]) -> Option<u8> {
    match tag {
        [] => Some(0),
        [b':', one @ b'0'..=b'9'] => Some(*one - b'0'),
        [b':', ten @ b'1'..=b'2', one @ b'0'..=b'9'] => Some((*ten - b'0') * 10 + (*one - b'0')),
        [b':', b'3', one @ b'0'..=b'1'] => Some(30 + (*one - b'0')),
        _ => None,
    }
}

/// What a word without `&` refers to in a text or a condition: a name alone is of the request.
pub(crate) fn reference_of<'a>(names: &Names<'_>, word: &'a [u8]) -> Result<Reference<'a>, Reason> {
    reference_in(names, ServerList::Own(List::Request), word)
}

/// Appends an attribute's name.
pub(crate) fn push_spelling(
    out: &mut Vec<u8>,
    dictionary: &Dictionary,
    reference: &Reference<'_>,
) -> Result<(), AllocError> {
    match reference.spelling {
        Spelling::Word(name) => out.extend_from_slice(name),
        Spelling::Printed | Spelling::Asked => match dictionary.by_id(reference.named.id) {
            Some(entry) => out.extend_from_slice(entry.name),
            None => Ok(()),
        },
    }
}

/// Whether an attribute's values have texts with a server that are octets here.
pub(crate) fn has_texts(dictionary: &Dictionary, named: Named) -> bool {
    match dictionary.form(named.id) {
        None | Some(Form::AsTyped | Form::Date) => true,
        Some(_) => named.raw,
    }
}

/// Whether an attribute's values are IPv6 addresses or prefixes.
pub(crate) fn is_ipv6(dictionary: &Dictionary, id: AttrId) -> bool {
    matches!(
        dictionary.form(id),
        Some(Form::Ipv6Address | Form::Ipv6Prefix)
    )
}

/// Whether an attribute's values are dates, which have texts of their own in the wider profile.
pub(crate) fn is_date(dictionary: &Dictionary, id: AttrId) -> bool {
    matches!(dictionary.form(id), Some(Form::Date))
}

/// The type of an attribute's values; octets where the dictionary has none.
pub(crate) fn kind_of(dictionary: &Dictionary, named: Named) -> Kind {
    match dictionary.by_id(named.id) {
        Some(entry) => entry.kind,
        None => Kind::Bytes,
    }
}

/// Whether an attribute's values are IPv4 addresses.
pub(crate) fn is_address(dictionary: &Dictionary, named: Named) -> bool {
    !named.raw && kind_of(dictionary, named) == Kind::Addr
}

/// Whether an attribute's values are octets, which are read from what begins with `0x`.
pub(crate) fn reads_digits(dictionary: &Dictionary, named: Named) -> bool {
    named.raw || kind_of(dictionary, named) == Kind::Bytes
}
