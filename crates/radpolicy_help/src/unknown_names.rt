//! Help for names in policies that are no attribute's.

use crate::captures::{group_hint, is_group, is_number, next_expansion};
use crate::contexts::{Context, Expected, is_code};
use crate::found::Found;
use crate::names::{is_near_secret, push_own_line, push_unknown_attribute};
use crate::nearest::nearest_of;
use crate::policies::OTHER_LISTS;
use crate::policy_tokens::{text_of, token_of};
use crate::sources::Sources;
use crate::texts::{push_all, push_choices};
use crate::unread_secrets::UnreadSecrets;
use crate::values::tag_hint;
use avp_dict::Dictionary;
use avp_forms::profile_of;
use avp_unlang::{PolicyFault, PolicyKind};
use std::alloc::{AllocError, Global};

const CODES: [&str; 5] = ["ok", "noop", "updated", "fail", "reject"];

fn without_list(word: &str) -> &str {
    match word.split_once(":") {
        Some(("request" | "reply" | "control", name)) => name,
        _ => word,
    }
}

/// The name of an attribute in a word: without its list, and without the quotes and signs of an expansion.
pub(crate) fn name_in(found: &str) -> &str {
    match next_expansion(found) {
        Some((word, _)) => without_list(word),
        None => without_list(found),
    }
}

// Whether a dictionary has the attribute of this name, whatever tag follows it.
fn is_attribute(dictionary: &Dictionary, name: &str) -> bool {
    let name = match name.split_once(":") {
        Some((name, _)) => name,
        None => name,
    };
    dictionary.by_name(name.as_bytes()).is_some()
}

// The name of no attribute in a word, or in the first expansion that is neither of an attribute nor of a group.
fn unknown_name<'a>(alloc: Global, sources: &Sources<'_>, found: &'a str) -> &'a str {
    let profile = profile_of(sources.policy.text);
    let Some(dictionary) = sources.dictionary(alloc) else {
        return name_in(found);
    };
    let mut rest = found;
    for _ in 0..found.len() {
        let Some((word, others)) = next_expansion(rest) else {
            break;
        };
        let name = without_list(word);
        if !is_group(word, profile) && !is_attribute(&dictionary, name) {
            return name;
        }
        rest = others;
    }
    name_in(found)
}

// What to do where an operand begins with no name of an attribute. Returns whether there is something to tell.
fn push_operand_hint(alloc: Global, help: &mut Vec<u8>, name: &str) -> Result<bool, AllocError> {
    if name.starts_with("/") {
        push_all(
            help,
            &["a regular expression follows an attribute: write &Name =~ before it\n"],
        )?;
        return Ok(true);
    }
    if is_server_code(name) {
        push_all(
            help,
            &["of the server's codes there are ok, noop, updated, fail and reject\n"],
        )?;
        return Ok(true);
    }
    let codes = nearest_of(alloc, name, &CODES)?;
    let is_near = !codes.is_empty() && !is_code(name);
    if is_near {
        push_all(help, &["write "])?;
        push_choices(help, &codes)?;
        push_all(help, &["\n"])?;
    }
    Ok(is_near)
}

fn push_unknown_hint(
    alloc: Global,
    help: &mut Vec<u8>,
    sources: &Sources<'_>,
    context: &Context<'_>,
    name: &str,
) -> Result<(), AllocError> {
    if name.starts_with("outer.")
        || name.starts_with("proxy-")
        || name.starts_with("session-state")
    {
        return push_all(help, &[OTHER_LISTS]);
    }
    if let Some((list, attribute)) = list_and_dot(name) {
        return push_all(
            help,
            &["a colon follows a list: write ", list, ":", attribute, "\n"],
        );
    }
    if context.expected == Expected::Operand && push_operand_hint(alloc, help, name)? {
        return Ok(());
    }
    if let Some((_, tag)) = name.split_once(":") {
        if tag.len() <= 2 {
            return push_all(help, &[tag_hint(profile_of(sources.policy.text))]);
        }
    }
    if is_of_module(name) {
        push_all(help, &["a module of the server defines it: "])?;
        return push_own_line(help, sources, &["ATTRIBUTE ", name, " 3000 string"]);
    }
    push_unknown_attribute(alloc, help, sources, name)
}

// A list, and the attribute that follows it behind a dot.
fn list_and_dot(name: &str) -> Option<(&str, &str)> {
    match name.split_once(".") {
        Some((list, attribute)) if matches!(list, "request" | "reply" | "control") => Some((
            list, attribute,
        )),
        _ => None,
    }
}

// Whether it is one of a server's codes that the profile leaves out.
fn is_server_code(word: &str) -> bool {
    matches!(
        word,
        "handled" | "invalid" | "userlock" | "notfound" | "disallow"
    )
}

// Whether a server has the attribute from a module when it starts.
fn is_of_module(name: &str) -> bool {
    name.eq_ignore_ascii_case("LDAP-Group") || name.eq_ignore_ascii_case("SQL-Group")
}

/// What is said of a name of no attribute.
pub(crate) fn push_unknown(
    alloc: Global,
    help: &mut Vec<u8>,
    sources: &Sources<'_>,
    context: &Context<'_>,
    found: &Found<'_>,
) -> Result<(), AllocError> {
    if found.is_hidden() {
        return push_all(help, &["no attribute has the name that is hidden here\n"]);
    }
    let name = unknown_name(alloc, sources, found.token);
    push_all(help, &["no attribute has the name ", name, "\n"])?;
    if is_number(name) && found.token.contains("%{") {
        let profile = profile_of(sources.policy.text);
        return push_all(help, &[group_hint(profile), "\n"]);
    }
    push_unknown_hint(alloc, help, sources, context, name)
}

/// The word at the place of a fault, if it names no attribute and is near to the name of a secret one.
pub(crate) fn misspelt_at<'a>(
    alloc: Global,
    sources: &Sources<'a>,
    secrets: &UnreadSecrets<'_>,
    fault: PolicyFault,
) -> Result<&'a str, AllocError> {
    if fault.kind != PolicyKind::Unknown {
        return Ok("");
    }
    let text = sources.policy.text;
    let token = text_of(token_of(text.get(fault.offset..).unwrap_or(&[])));
    let name = unknown_name(alloc, sources, token);
    if is_near_secret(alloc, secrets, name)? {
        Ok(name)
    } else {
        Ok("")
    }
}
