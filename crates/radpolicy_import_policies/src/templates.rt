//! A file of the pairs of initial lists that a policy wants.

use crate::imports::Imported;
use crate::origin_texts::push_origin;
use crate::wanted::wanted_attributes;
use avp_dict::same_name;
use avp_lists::List;
use radpolicy_import_conditions::{Names, OtherAttribute, OtherSource, list_name};
use radpolicy_import_texts::{SecretNames, shown_expansion};
use server_configuration::Configuration;
use std::alloc::{AllocError, Global};

// The expansion that an attribute is in place of, if it is in place of one.
fn expansion_of<'a>(others: &'a [OtherAttribute], list: List, name: &[u8]) -> Option<&'a [u8]> {
    if list != List::Control {
        return None;
    }
    for other in others {
        if let OtherSource::Asked(text) = &other.source
            && same_name(&other.own, name)
        {
            return Some(text.as_slice());
        }
    }
    None
}

// Where the attribute is read first, and what it is in place of.
fn push_head(
    out: &mut Vec<u8>,
    configuration: &Configuration,
    imported: &Imported,
    line: usize,
    shown: &[u8],
) -> Result<(), AllocError> {
    out.extend_from_slice(b"# ")?;
    if let Some(line) = imported.lines.get(line.saturating_sub(1)) {
        push_origin(out, configuration, line.origin)?;
    }
    if !shown.is_empty() {
        out.extend_from_slice(b": %{")?;
        out.extend_from_slice(shown)?;
        out.push(b'}')?;
    }
    Ok(out.push(b'\n')?)
}

/// Lines of a file of initial lists, for what a policy reads in the reply and control lists and no line of it sets: each
/// a comment, to be filled in, below where it is read first.
pub fn initial_template(
    alloc: Global,
    configuration: &Configuration,
    names: Names<'_>,
    hidden: Option<&SecretNames<'_>>,
    imported: &Imported,
) -> Result<Vec<u8>, AllocError> {
    let mut out = Vec::new(alloc);
    for wanted in &wanted_attributes(alloc, &imported.policy)? {
        let Some(entry) = names.dictionary.by_id(wanted.id) else {
            continue;
        };
        let shown = match expansion_of(names.others, wanted.list, entry.name) {
            Some(text) => shown_expansion(alloc, hidden, text)?,
            None => Vec::new(alloc),
        };
        push_head(&mut out, configuration, imported, wanted.line, &shown)?;
        out.push(b'#')?;
        out.extend_from_slice(list_name(wanted.list))?;
        out.push(b':')?;
        out.extend_from_slice(entry.name)?;
        out.extend_from_slice(b" = \n")?;
    }
    Ok(out)
}
