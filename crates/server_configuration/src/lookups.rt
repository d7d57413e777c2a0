//! Items by their names. Of several items of one name the first one counts, as in the server.

ghost use Rattle.std.specs.Prelude.{◌≡◌, ℕ};
ghost use Rattle.server_configuration.specs.Lookups.{first_place, is_first_of, is_pair_in, is_pair_named, is_same_section, is_section_in, is_section_named, is_section_with, is_section_with_in};

use crate::items::{Content, Item, Text};

fn is_same_section(section: Option<usize>, other: Option<usize>) -> bool
    ensures { result ≡ is_same_section section other }
{
    match (section, other) {
        (None, None) => true,
        (Some(place), Some(other)) => place == other,
        _ => false,
    }
}

fn is_first_of(octets: &[u8], texts: &[Text]) -> bool
    ensures { result ≡ is_first_of octets.now texts.now }
{
    match texts {
        [text, ..] => text.octets.as_slice() == octets,
        [] => false,
    }
}

impl Content {
    fn is_pair_named(&self, name: &[u8]) -> bool
        ensures { result ≡ is_pair_named name.now self.now }
    {
        match self {
            Content::Pair { name: given, .. } => given.octets.as_slice() == name,
            Content::Word { name: given, .. } => given.octets.as_slice() == name,
            _ => false,
        }
    }

    fn is_section_named(&self, name: &[u8]) -> bool
        ensures { result ≡ is_section_named name.now self.now }
    {
        match self {
            Content::Section { name: given, .. } => given.octets.as_slice() == name,
            _ => false,
        }
    }

    fn is_section_with(&self, name: &[u8], second: &[u8]) -> bool
        ensures { result ≡ is_section_with name.now second.now self.now }
    {
        match self {
            Content::Section {
                name: given,
                arguments,
            } => given.octets.as_slice() == name && is_first_of(second, arguments),
            _ => false,
        }
    }
}

impl Item {
    /// Whether a section holds it, or none does.
    pub fn is_in(&self, section: Option<usize>) -> bool
        ensures { result ≡ is_same_section self.now.section section }
    {
        is_same_section(self.section, section)
    }

    fn is_pair_in(&self, section: Option<usize>, name: &[u8]) -> bool
        ensures { result ≡ is_pair_in section name.now self.now }
    {
        self.is_in(section) && self.content.is_pair_named(name)
    }

    fn is_section_in(&self, section: Option<usize>, name: &[u8]) -> bool
        ensures { result ≡ is_section_in section name.now self.now }
    {
        self.is_in(section) && self.content.is_section_named(name)
    }

    fn is_section_with_in(&self, section: Option<usize>, name: &[u8], second: &[u8]) -> bool
        ensures { result ≡ is_section_with_in section name.now second.now self.now }
    {
        self.is_in(section) && self.content.is_section_with(name, second)
    }
}

pub(crate) fn first_pair(items: &[Item], section: Option<usize>, name: &[u8]) -> Option<usize>
    ensures { result ≡ first_place (is_pair_in section name.now) 0 items.now }
{
    for (place, item) in items.iter().enumerate() {
        if item.is_pair_in(section, name) {
            return Some(place);
        }
    }
    None
}

pub(crate) fn first_section(items: &[Item], section: Option<usize>, name: &[u8]) -> Option<usize>
    ensures { result ≡ first_place (is_section_in section name.now) 0 items.now }
{
    for (place, item) in items.iter().enumerate() {
        if item.is_section_in(section, name) {
            return Some(place);
        }
    }
    None
}

pub(crate) fn first_section_with(
    items: &[Item],
    section: Option<usize>,
    name: &[u8],
    second: &[u8],
) -> Option<usize>
    ensures { result ≡ first_place (is_section_with_in section name.now second.now) 0 items.now }
{
    for (place, item) in items.iter().enumerate() {
        if item.is_section_with_in(section, name, second) {
            return Some(place);
        }
    }
    None
}
