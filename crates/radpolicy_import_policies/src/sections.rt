//! Sections of a configuration, by name.

use server_configuration::{Configuration, Content, Item};

/// Which statements of a configuration are meant.
#[derive(Clone, Copy, Debug, PartialEq, Eq)]
pub struct Wanted<'a> {
    /// The virtual server; none for `default`, the first, or the top where there is none.
    pub server: Option<&'a [u8]>,
    /// The section's name, as `post-auth`.
    pub section: &'a [u8],
    /// The second name of a section in it, as `REJECT` of `Post-Auth-Type REJECT`.
    pub second: Option<&'a [u8]>,
}

// Whether an item is a section of a type with this second name.
fn is_of_type(item: &Item, second: &[u8]) -> bool {
    match &item.content {
        Content::Section { name, arguments } => match arguments.as_slice() {
            [argument, ..] => {
                name.octets.ends_with(b"-Type") && argument.octets.eq_ignore_ascii_case(second)
            }
            [] => false,
        },
        _ => false,
    }
}

fn section_of_type(configuration: &Configuration, outer: usize, second: &[u8]) -> Option<usize> {
    for (place, item) in configuration.items.iter().enumerate() {
        if item.section == Some(outer) && is_of_type(item, second) {
            return Some(place);
        }
    }
    None
}

// The section that is meant in a server or at the top.
fn section_in(
    configuration: &Configuration,
    server: Option<usize>,
    wanted: Wanted<'_>,
) -> Option<usize> {
    let outer = configuration.section(server, wanted.section)?;
    match wanted.second {
        Some(second) => section_of_type(configuration, outer, second),
        None => Some(outer),
    }
}

/// The place of the section that is meant.
pub fn section_of(configuration: &Configuration, wanted: Wanted<'_>) -> Option<usize> {
    if let Some(name) = wanted.server {
        let server = configuration.section_with(None, b"server", name)?;
        return section_in(configuration, Some(server), wanted);
    }
    if let Some(server) = configuration.section_with(None, b"server", b"default") {
        return section_in(configuration, Some(server), wanted);
    }
    match configuration.section(None, b"server") {
        Some(server) => section_in(configuration, Some(server), wanted),
        None => section_in(configuration, None, wanted),
    }
}

/// The place of a named policy, in `policy` or at the top.
pub fn policy_of(configuration: &Configuration, name: &[u8]) -> Option<usize> {
    configuration.section(configuration.section(None, b"policy"), name)
}
