//! What a command line asks for.

ghost use Rattle.std.specs.Prelude.{◌≡◌, ◌≢◌, true, false, All, IfOk, map};
ghost use Rattle.radpolicy.specs.Plans.{AreDistinct, names_of_paths};

use crate::jobs::{Command, Form};
use avp_dict::last_component;
use std::alloc::{AllocError, Global};

/// What the words of a command line ask for. Files are named by their paths, as they were given.
#[derive(Debug, Drop)]
pub struct Plan<'a> {
    pub command: Command,
    pub form: Form,
    /// 0 where none was asked for.
    pub identifier: u8,
    pub authenticator: Option<[u8; 16]>,
    /// The dictionary files, the main one first.
    pub dictionaries: Vec<&'a str>,
    /// The request; standard input where there is none. A check reads none.
    pub request: Option<&'a str>,
    pub policy: Option<&'a str>,
    pub secret: Option<&'a str>,
    pub script: Option<&'a str>,
}

// The names of the files at these paths.
fn names_of_paths<'a>(alloc: Global, paths: &[&'a str]) -> Result<Vec<&'a [u8]>, AllocError>
    ensures { IfOk result (λ names. map (λ name. name.now) names.items ≡ names_of_paths paths.now) }
{
    let mut names = Vec::new(alloc);
    for path in paths {
        names.push(last_component(path.as_bytes()))?;
    }
    Ok(names)
}

// Whether one of the names is this one.
fn has_name(names: &[&[u8]], name: &[u8]) -> bool
    ensures other { result ≡ false
        → All (λ taken. taken ≢ name.now) (map (λ taken. taken.now) names.now) }
    ensures taken { result ≡ true
        → All (λ taken. taken ≢ name.now) (map (λ taken. taken.now) names.now) → ⊥ }
{
    for taken in names {
        if *taken == name {
            return true;
        }
    }
    false
}

// Whether no two names are the same.
fn are_distinct(names: &[&[u8]]) -> bool
    ensures distinct { result ≡ true → AreDistinct (map (λ name. name.now) names.now) }
    ensures same { result ≡ false → AreDistinct (map (λ name. name.now) names.now) → ⊥ }
{
    for (i, name) in names.iter().enumerate() {
        if has_name(&names[..i], name) {
            return false;
        }
    }
    true
}

/// Whether no two paths end in one name.
pub(crate) fn has_distinct_names(alloc: Global, paths: &[&str]) -> Result<bool, AllocError>
    ensures distinct { IfOk result (λ distinct.
        distinct ≡ true → AreDistinct (names_of_paths paths.now)) }
    ensures same { IfOk result (λ distinct.
        distinct ≡ false → AreDistinct (names_of_paths paths.now) → ⊥) }
{
    Ok(are_distinct(&names_of_paths(alloc, paths)?))
}
