//! What there is, where the section or the policy is not there that is to be imported.

use crate::command_line::Plan;
use radpolicy_common::{LineBreaks, visible_text};
use radpolicy_import_policies::Wanted;
use server_configuration::{Configuration, Content, Item, Text};
use std::alloc::{AllocError, Global};

// The sections of a server in which no statements are.
const OTHERS: [&[u8]; 2] = [b"listen", b"client"];

// The name of a section that is right in another, and what is beside it.
fn section_in(item: &Item, outer: Option<usize>) -> Option<(&[u8], &[Text])> {
    match &item.content {
        Content::Section { name, arguments } if item.section == outer => {
            Some((name.octets.as_slice(), arguments.as_slice()))
        }
        _ => None,
    }
}

fn push_once<'a>(names: &mut Vec<&'a [u8]>, name: &'a [u8]) -> Result<(), AllocError> {
    if !names.iter().any(|other| *other == name) {
        names.push(name)?;
    }
    Ok(())
}

// The names of the sections in one, or at the top.
fn names_in<'a>(
    alloc: Global,
    configuration: &'a Configuration,
    outer: Option<usize>,
) -> Result<Vec<&'a [u8]>, AllocError> {
    let mut names = Vec::new(alloc);
    for item in &configuration.items {
        if let Some((name, _)) = section_in(item, outer)
            && !OTHERS.iter().any(|other| *other == name)
        {
            push_once(&mut names, name)?;
        }
    }
    Ok(names)
}

// Whether a section has this name, or where it begins with a dash one that ends so.
fn is_called(name: &[u8], wanted: &[u8]) -> bool {
    name == wanted || wanted.starts_with(b"-") && name.ends_with(wanted)
}

// What is beside the names of the sections in one, or at the top, that are called so.
fn second_names_in<'a>(
    alloc: Global,
    configuration: &'a Configuration,
    outer: Option<usize>,
    wanted: &[u8],
) -> Result<Vec<&'a [u8]>, AllocError> {
    let mut names = Vec::new(alloc);
    for item in &configuration.items {
        if let Some((name, [second, ..])) = section_in(item, outer)
            && is_called(name, wanted)
        {
            push_once(&mut names, second.octets.as_slice())?;
        }
    }
    Ok(names)
}

// `BEFORE NAME; BEHIND A, B, C`.
fn lack(
    alloc: Global,
    before: &[&[u8]],
    behind: &str,
    names: &[&[u8]],
) -> Result<Vec<u8>, AllocError> {
    let mut text = before.concat(alloc)?;
    text.extend_from_slice(b"; ")?;
    text.extend_from_slice(behind.as_bytes())?;
    for (index, name) in names.iter().enumerate() {
        text.extend_from_slice(if index > 0 {
            b", ".as_slice()
        } else {
            b" ".as_slice()
        })?;
        text.extend_from_slice(name)?;
    }
    if names.is_empty() {
        text.extend_from_slice(b" none")?;
    }
    text.push(b'\n')?;
    Ok(text)
}

fn lack_of_policy(
    alloc: Global,
    configuration: &Configuration,
    name: &str,
) -> Result<Vec<u8>, AllocError> {
    let names = names_in(alloc, configuration, configuration.section(None, b"policy"))?;
    lack(
        alloc,
        &[b"there is no policy ".as_slice(), name.as_bytes()],
        "there are",
        &names,
    )
}

// The server that is meant, with its name; none where its sections are at the top.
fn server_of<'a>(
    configuration: &'a Configuration,
    wanted: Wanted<'_>,
) -> Option<(usize, &'a [u8])> {
    let place = match wanted.server {
        Some(name) => configuration.section_with(None, b"server", name)?,
        None => match configuration.section_with(None, b"server", b"default") {
            Some(place) => place,
            None => configuration.section(None, b"server")?,
        },
    };
    match section_in(configuration.items.get(place)?, None) {
        Some((_, [name, ..])) => Some((place, name.octets.as_slice())),
        _ => Some((place, b"".as_slice())),
    }
}

// What is lacking in a server, or at the top: the section, or the part of one.
fn lack_in<'a>(
    alloc: Global,
    configuration: &'a Configuration,
    server: Option<(usize, &'a [u8])>,
    wanted: Wanted<'a>,
) -> Result<Vec<u8>, AllocError> {
    let (place, kind, name) = match server {
        Some((place, name)) => (Some(place), b"the server ".as_slice(), name),
        None => (None, b"the configuration".as_slice(), b"".as_slice()),
    };
    match (configuration.section(place, wanted.section), wanted.second) {
        (Some(section), Some(second)) => {
            let names = second_names_in(alloc, configuration, Some(section), b"-Type")?;
            let before = [
                wanted.section,
                b" has no section of the type ".as_slice(),
                second,
            ];
            lack(alloc, &before, "it has", &names)
        }
        _ => {
            let names = names_in(alloc, configuration, place)?;
            let before = [kind, name, b" has no section ".as_slice(), wanted.section];
            lack(alloc, &before, "it has", &names)
        }
    }
}

fn lack_of_section<'a>(
    alloc: Global,
    configuration: &'a Configuration,
    wanted: Wanted<'a>,
) -> Result<Vec<u8>, AllocError> {
    match (server_of(configuration, wanted), wanted.server) {
        (None, Some(name)) => {
            let names = second_names_in(alloc, configuration, None, b"server")?;
            lack(
                alloc,
                &[b"there is no server ".as_slice(), name],
                "there are",
                &names,
            )
        }
        (server, _) => lack_in(alloc, configuration, server, wanted),
    }
}

/// The word of a plan that names what is not there: its policy, its virtual server, or its section.
pub fn lacking_word<'a>(
    configuration: &Configuration,
    plan: &Plan<'a>,
    wanted: Wanted<'_>,
) -> &'a str {
    match (plan.policy, plan.server) {
        (Some(name), _) => name,
        (None, Some(name)) if server_of(configuration, wanted).is_none() => name,
        _ => plan.section.unwrap_or("authorize"),
    }
}

/// What is not there that a plan means, and what there is in its place.
pub fn lack_text(
    alloc: Global,
    configuration: &Configuration,
    plan: &Plan<'_>,
    wanted: Wanted<'_>,
) -> Result<Vec<u8>, AllocError> {
    let said = match plan.policy {
        Some(name) => lack_of_policy(alloc, configuration, name)?,
        None => lack_of_section(alloc, configuration, wanted)?,
    };
    visible_text(alloc, &said, LineBreaks::Kept)
}
