//! References in texts: `${name}`, `${.name}`, `${..name}`, `${a.b[c].d}`, `${..:name}`, and `$ENV{NAME}`.

ghost use Rattle.std.specs.Prelude.{◌≡◌, ◌<◌, ◌≤◌, length, false, IfOk, IfErr, codes};
ghost use Rattle.server_configuration.specs.References.{begins_reference, begins_with, has_reference};

use crate::items::{Content, Item, Quote};
use crate::lookups::{first_pair, first_section, first_section_with};
use crate::reader::MAX_OCTETS;
use std::alloc::{AllocError, AllocFailed, Global};
use thiserror::Error;

/// How deep references may lead to texts with references.
pub const MAX_REFERENCE_DEPTH: usize = 16;

/// The most references that one text may lead to.
pub const MAX_REFERENCES: usize = 1_024;

#[derive(Clone, Copy, Debug, PartialEq, Eq, Error)]
pub enum ReferenceFaultKind {
    #[error("out of memory")]
    Memory,
    /// A reference without its closing brace.
    #[error("reference without its end")]
    Open,
    /// Nothing has this name.
    #[error("unknown reference")]
    Unknown,
    /// What has this name is a section, or a word.
    #[error("reference without a value")]
    NoValue,
    /// More than [`MAX_REFERENCE_DEPTH`], as where references lead in a circle.
    #[error("references in a circle, or too deep")]
    TooDeep,
    /// More than [`MAX_REFERENCES`].
    #[error("too many references")]
    TooMany,
    /// More octets than a file may have.
    #[error("text too long")]
    TooLong,
}

/// Why a text's references are not filled in.
#[derive(Clone, Copy, Debug, PartialEq, Eq, Error)]
#[error("{kind}")]
pub struct ReferenceFault {
    /// The place of the pair whose value has the reference; none where it is in the text itself.
    pub pair: Option<usize>,
    /// The place of the reference in that text.
    pub offset: usize,
    pub kind: ReferenceFaultKind,
}

impl From<AllocError> for ReferenceFault {
    ghost use Rattle.server_configuration.specs.declared.references.ReferenceFaultKind.TheVariants.{Memory};

    ghost from_gives = { λ _ fault. fault.kind ≡ Memory };

    fn from(_error: AllocError) -> ReferenceFault {
        ReferenceFault {
            pair: None,
            offset: 0,
            kind: ReferenceFaultKind::Memory,
        }
    }
}

impl<T: Drop> From<AllocFailed<T>> for ReferenceFault {
    ghost use Rattle.server_configuration.specs.declared.references.ReferenceFaultKind.TheVariants.{Memory};

    ghost from_gives = { λ _ fault. fault.kind ≡ Memory };

    fn from(_error: AllocFailed<T>) -> ReferenceFault {
        ReferenceFault {
            pair: None,
            offset: 0,
            kind: ReferenceFaultKind::Memory,
        }
    }
}

/// What `$ENV{NAME}` stands for.
#[derive(Debug, Drop, PartialEq, Eq)]
pub struct Variable {
    pub name: Vec<u8>,
    pub value: Vec<u8>,
}

/// What a reference leads to: the pair or the section at a place, where no place is the top.
#[derive(Clone, Copy, Debug, PartialEq, Eq)]
pub enum Referent {
    Pair(usize),
    Section(Option<usize>),
}

fn begins_with(octets: &[u8], front: &[u8]) -> bool
    ensures { result ≡ begins_with front.now octets.now }
{
    let mut rest = octets;
    let mut wanted = front;
    while let [first, front @ ..] = wanted {
        match rest {
            [octet, after @ ..] if *first == *octet => {
                rest = after;
                wanted = front;
            }
            _ => return false,
        }
    }
    true
}

fn begins_reference(octets: &[u8]) -> bool
    ensures { result ≡ begins_reference octets.now }
{
    begins_with(octets, b"${") || begins_with(octets, b"$ENV{")
}

/// Whether a text has `${` or `$ENV{`.
pub fn has_reference(octets: &[u8]) -> bool
    ensures { result ≡ has_reference octets.now }
{
    let mut rest = octets;
    while let [_, after @ ..] = rest {
        if begins_reference(rest) {
            return true;
        }
        rest = after;
    }
    false
}

// The octets before the first one of a kind, and those after it.
fn split_at_first(octets: &[u8], mark: u8) -> Option<(&[u8], &[u8])> {
    let place = octets.iter().position(|octet| *octet == mark)?;
    let (before, rest) = octets.split_at(place);
    match rest {
        [_, after @ ..] => Some((before, after)),
        [] => None,
    }
}

// One name of a reference, and the names after it.
enum Step<'a> {
    Last(&'a [u8]),
    Down {
        name: &'a [u8],
        second: Option<&'a [u8]>,
        after: &'a [u8],
    },
    Broken,
}

fn next_step(steps: &[u8]) -> Step<'_> {
    let end = steps.iter().position(|octet| matches!(*octet, b'.' | b'['));
    let Some(end) = end else {
        return Step::Last(steps);
    };
    let (name, rest) = steps.split_at(end);
    match rest {
        [b'.', after @ ..] => Step::Down {
            name,
            second: None,
            after,
        },
        [_, after @ ..] => second_step(name, after),
        [] => Step::Last(steps),
    }
}

// The second name, up to its bracket.
fn second_step<'a>(name: &'a [u8], rest: &'a [u8]) -> Step<'a> {
    let Some((second, after)) = split_at_first(rest, b']') else {
        return Step::Broken;
    };
    match after {
        [] => Step::Down {
            name,
            second: Some(second),
            after,
        },
        [b'.', after @ ..] => Step::Down {
            name,
            second: Some(second),
            after,
        },
        _ => Step::Broken,
    }
}

// The section that holds a section; the top holds itself.
fn outer(items: &[Item], section: Option<usize>) -> Option<usize> {
    items.get(section?)?.section
}

// The section to which the dots lead, after the first, and the names after them.
fn after_dots<'a>(
    items: &[Item],
    section: Option<usize>,
    dots: &'a [u8],
) -> (Option<usize>, &'a [u8]) {
    let mut section = section;
    let mut rest = dots;
    while let [b'.', after @ ..] = rest {
        section = outer(items, section);
        rest = after;
    }
    (section, rest)
}

fn named_in(items: &[Item], section: Option<usize>, name: &[u8]) -> Option<Referent> {
    match first_pair(items, section, name) {
        Some(place) => Some(Referent::Pair(place)),
        None => match first_section(items, section, name) {
            Some(place) => Some(Referent::Section(Some(place))),
            None => None,
        },
    }
}

fn section_of(
    items: &[Item],
    section: Option<usize>,
    name: &[u8],
    second: Option<&[u8]>,
) -> Option<usize> {
    match second {
        Some(second) => first_section_with(items, section, name, second),
        None => first_section(items, section, name),
    }
}

// Where names lead, from a section down.
fn descend(items: &[Item], section: Option<usize>, names: &[u8]) -> Option<Referent> {
    let mut section = section;
    let mut steps = names;
    for _ in 0..names.len() {
        match next_step(steps) {
            Step::Broken => return None,
            Step::Last(name) => return named_in(items, section, name),
            Step::Down {
                name,
                second,
                after,
            } => {
                let Some(place) = section_of(items, section, name, second) else {
                    return named_in(items, section, steps);
                };
                if after.is_empty() {
                    return second.map(|_| Referent::Section(Some(place)));
                }
                section = Some(place);
                steps = after;
            }
        }
    }
    None
}

/// What a name leads to from a section, or from the top. `.name` is in the section, `..name` in the one that holds it,
/// and so on; `a.b` is in `a` at the top, `a[c].b` in the `a` whose second name is `c`; a name alone is in the
/// section, or else at the top.
pub(crate) fn referent_of(items: &[Item], section: Option<usize>, name: &[u8]) -> Option<Referent> {
    match name {
        [] => None,
        [b'.', rest @ ..] => {
            let (section, names) = after_dots(items, section, rest);
            if names.is_empty() {
                Some(Referent::Section(section))
            } else {
                descend(items, section, names)
            }
        }
        _ if name.contains(&b'.') => descend(items, None, name),
        _ => match descend(items, section, name) {
            Some(found) => Some(found),
            None => descend(items, None, name),
        },
    }
}

/// Where references are looked up.
#[derive(Clone, Copy)]
pub(crate) struct Scope<'a> {
    pub(crate) items: &'a [Item],
    // What `${confdir}` stands for at the top, whatever a file says of it.
    pub(crate) folder: &'a [u8],
    pub(crate) variables: &'a [Variable],
}

// A text in a configuration: the section that holds it, and the pair whose value it is.
#[derive(Clone, Copy)]
struct At {
    section: Option<usize>,
    pair: Option<usize>,
}

/// What has been filled in so far.
#[derive(Drop)]
struct Filled {
    octets: Vec<u8>,
    // How many references may still be filled in.
    left: usize,
}

impl Filled {
    fn push(&mut self, octets: &[u8]) -> Result<(), ReferenceFaultKind> {
        if octets.len() > MAX_OCTETS.saturating_sub(self.octets.len()) {
            return Err(ReferenceFaultKind::TooLong);
        }
        match self.octets.extend_from_slice(octets) {
            Ok(()) => Ok(()),
            Err(_) => Err(ReferenceFaultKind::Memory),
        }
    }

    fn push_at(&mut self, octets: &[u8], at: At, offset: usize) -> Result<(), ReferenceFault> {
        match self.push(octets) {
            Ok(()) => Ok(()),
            Err(kind) => Err(at.fault(offset, kind)),
        }
    }
}

fn value_of_variable<'a>(variables: &'a [Variable], name: &[u8]) -> Option<&'a [u8]> {
    for variable in variables {
        if variable.name.as_slice() == name {
            return Some(variable.value.as_slice());
        }
    }
    None
}

// The first name of a section, or the second where it has one.
fn section_name(items: &[Item], section: Option<usize>, is_instance: bool) -> &[u8] {
    let Some(place) = section else {
        return b"main";
    };
    let Some(item) = items.get(place) else {
        return b"";
    };
    let Content::Section { name, arguments } = &item.content else {
        return b"";
    };
    match arguments.first() {
        Some(second) if is_instance => second.octets.as_slice(),
        _ => name.octets.as_slice(),
    }
}

// What `${name:property}` stands for.
fn property<'a>(
    items: &'a [Item],
    referent: Referent,
    property: &[u8],
) -> Result<&'a [u8], ReferenceFaultKind> {
    let Referent::Section(section) = referent else {
        return Err(ReferenceFaultKind::NoValue);
    };
    if property == b"name".as_slice() {
        Ok(section_name(items, section, false))
    } else if property == b"instance".as_slice() {
        Ok(section_name(items, section, true))
    } else {
        Err(ReferenceFaultKind::Unknown)
    }
}

// What a reference stands for.
enum Meaning<'a> {
    Octets(&'a [u8]),
    // The value of the pair at a place, whose references are filled in.
    Value { octets: &'a [u8], at: At },
}

fn value_at<'a>(items: &'a [Item], place: usize) -> Result<Meaning<'a>, ReferenceFaultKind> {
    let Some(item) = items.get(place) else {
        return Err(ReferenceFaultKind::Unknown);
    };
    match &item.content {
        Content::Pair {
            value: Some(value),
            ..
        } if value.quote == Quote::Single => Ok(Meaning::Octets(value.octets.as_slice())),
        Content::Pair {
            value: Some(value),
            ..
        } => Ok(Meaning::Value {
            octets: value.octets.as_slice(),
            at: At {
                section: item.section,
                pair: Some(place),
            },
        }),
        _ => Err(ReferenceFaultKind::NoValue),
    }
}

impl<'a> Scope<'a> {
    // Whether a name means the folder of the first file.
    fn is_folder(&self, section: Option<usize>, name: &[u8]) -> bool {
        name == b"confdir".as_slice()
            && (section.is_none() || first_pair(self.items, section, name).is_none())
    }

    fn meaning(
        &self,
        section: Option<usize>,
        reference: &[u8],
    ) -> Result<Meaning<'a>, ReferenceFaultKind> {
        if self.is_folder(section, reference) {
            return Ok(Meaning::Octets(self.folder));
        }
        let (name, wanted) = match split_at_first(reference, b':') {
            Some((name, wanted)) => (name, Some(wanted)),
            None => (reference, None),
        };
        let Some(found) = referent_of(self.items, section, name) else {
            return Err(ReferenceFaultKind::Unknown);
        };
        match (wanted, found) {
            (Some(wanted), _) => Ok(Meaning::Octets(property(self.items, found, wanted)?)),
            (None, Referent::Pair(place)) => value_at(self.items, place),
            (None, Referent::Section(_)) => Err(ReferenceFaultKind::NoValue),
        }
    }
}

impl At {
    fn fault(self, offset: usize, kind: ReferenceFaultKind) -> ReferenceFault {
        ReferenceFault {
            pair: self.pair,
            offset,
            kind,
        }
    }
}

// A text after its `${` or `$ENV{`: whether it is `${`, what is in the braces, and what follows them.
fn in_braces(rest: &[u8]) -> Option<(bool, &[u8], &[u8])> {
    let is_reference = begins_with(rest, b"${");
    let (_, after) = split_at_first(rest, b'{')?;
    let (inside, after) = split_at_first(after, b'}')?;
    Some((is_reference, inside, after))
}

// What the reference at the beginning of a text stands for, and the text after it. A variable that is not known stays
// as it is.
fn next_meaning<'a>(
    scope: &Scope<'a>,
    section: Option<usize>,
    rest: &'a [u8],
    filled: &mut Filled,
) -> Result<(Meaning<'a>, &'a [u8]), ReferenceFaultKind> {
    let Some((is_reference, inside, after)) = in_braces(rest) else {
        return Err(ReferenceFaultKind::Open);
    };
    if filled.left == 0 {
        return Err(ReferenceFaultKind::TooMany);
    }
    filled.left -= 1;
    if is_reference {
        return Ok((scope.meaning(section, inside)?, after));
    }
    let whole = rest.split_at(rest.len().saturating_sub(after.len())).0;
    let value = value_of_variable(scope.variables, inside).unwrap_or(whole);
    Ok((Meaning::Octets(value), after))
}

// Adds a text with its references filled in.
fn fill<'a>(
    scope: &Scope<'a>,
    octets: &'a [u8],
    at: At,
    depth: usize,
    filled: &mut Filled,
) -> Result<(), ReferenceFault> {
    let mut rest = octets;
    for _ in 0..octets.len() {
        let [first, after @ ..] = rest else {
            break;
        };
        let offset = octets.len().saturating_sub(rest.len());
        if !begins_reference(rest) {
            filled.push_at(&[*first], at, offset)?;
            rest = after;
            continue;
        }
        match next_meaning(scope, at.section, rest, filled) {
            Err(kind) => return Err(at.fault(offset, kind)),
            Ok((Meaning::Octets(value), after)) => {
                filled.push_at(value, at, offset)?;
                rest = after;
            }
            Ok(
                (
                    Meaning::Value {
                        octets: value,
                        at: inner,
                    },
                    after,
                ),
            ) => {
                if depth == 0 {
                    return Err(at.fault(offset, ReferenceFaultKind::TooDeep));
                }
                fill(scope, value, inner, depth - 1, filled)?;
                rest = after;
            }
        }
    }
    Ok(())
}

/// A text with its references filled in from a section, or from the top.
pub(crate) fn resolved<'a>(
    alloc: Global,
    scope: &Scope<'a>,
    section: Option<usize>,
    octets: &'a [u8],
) -> Result<Vec<u8>, ReferenceFault>
    ensures plain { has_reference octets.now ≡ false
        → IfOk result (λ filled. filled.items ≡ octets.now) }
    ensures refused { has_reference octets.now ≡ false
        → IfErr result (λ fault. fault.kind ≡ ReferenceFaultKind.Memory) }
{
    if !has_reference(octets) {
        return Ok(Vec::from_slice(alloc, octets)?);
    }
    let mut filled = Filled {
        octets: Vec::new(alloc),
        left: MAX_REFERENCES,
    };
    let at = At {
        section,
        pair: None,
    };
    fill(scope, octets, at, MAX_REFERENCE_DEPTH, &mut filled)?;
    Ok(filled.octets)
}
