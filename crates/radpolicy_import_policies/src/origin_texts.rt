//! The texts of where lines of a policy come from.

ghost use Rattle.std.specs.Prelude.{◌≡◌, ◌≤◌, ◌++◌, decimal, length, IfOk, OnOk};
ghost use Rattle.std.specs.List.{flat_map};
ghost use Rattle.radpolicy_common.specs.VisibleText.{visible_text};
ghost use Rattle.radpolicy_common.specs.declared.terminals.LineBreaks.TheVariants.{Escaped};
ghost use Rattle.server_configuration.specs.Places.{line_feeds};
ghost use Rattle.radpolicy_import_policies.specs.OriginTexts.{after_front, folder, inner_name, map_line, origin_map, origin_path, origin_text, path_from, policies_text};

use crate::drafts::section_name;
use crate::origins::{LineOrigin, Origin};
use itoa::Buffer;
use radpolicy_common::{LineBreaks, visible_text};
use server_configuration::{Configuration, SourceFile};
use std::alloc::{AllocError, Global};

/// How many lines of a text end in a line feed.
pub(crate) fn line_feeds(text: &[u8]) -> usize
    ensures value { result ≡ line_feeds text.now }
    ensures bound { result ≤ length text.now }
{
    let mut count = 0;
    let mut rest = text;
    while let [octet, after @ ..] = rest {
        if *octet == b'\n' {
            count += 1;
        }
        rest = after;
    }
    count
}

fn push_number(out: &mut Vec<u8>, number: usize) -> Result<(), AllocError>
    ensures { OnOk result (out.new.items ≡ out.old.items ++ decimal number) }
{
    let mut buffer = Buffer::new();
    out.extend_from_slice(buffer.format(number).as_bytes())
}

// A text in one line, without control characters.
fn push_visible(out: &mut Vec<u8>, text: &[u8]) -> Result<(), AllocError>
    ensures { OnOk result (out.new.items ≡ out.old.items ++ visible_text Escaped text.now) }
{
    let shown = visible_text(*out.allocator(), text, LineBreaks::Escaped)?;
    out.extend_from_slice(&shown)
}

// A path up to its last `/`.
fn folder(path: &[u8]) -> &[u8]
    ensures { result.now ≡ folder path.now }
{
    let mut rest = path;
    while let [front @ .., last] = rest {
        if *last == b'/' {
            break;
        }
        rest = front;
    }
    rest
}

// What follows a front.
fn after_front<'a>(path: &'a [u8], front: &[u8]) -> &'a [u8]
    ensures { result.now ≡ after_front front.now path.now }
{
    path.strip_prefix(front).unwrap_or(path)
}

// A path from the folder of the first file on.
fn path_from<'a>(files: &[SourceFile], path: &'a [u8]) -> &'a [u8]
    ensures { result.now ≡ path_from files.now path.now }
{
    match files {
        [first, ..] => after_front(path, folder(&first.path)),
        [] => path,
    }
}

/// The path of an origin's file, from the folder of the configuration's first file on.
pub fn origin_path(configuration: &Configuration, origin: Origin) -> &[u8]
    ensures { result.now ≡ origin_path configuration.now.files.items origin }
{
    match configuration.files.get(origin.file) {
        Some(file) => path_from(&configuration.files, &file.path),
        None => b"",
    }
}

/// `FILE:LINE` of an origin, its path from the folder of the configuration's first file on.
pub fn push_origin(
    out: &mut Vec<u8>,
    configuration: &Configuration,
    origin: Origin,
) -> Result<(), AllocError>
    ensures { OnOk result
        (out.new.items ≡ out.old.items ++ origin_text configuration.now.files.items origin) }
{
    push_visible(out, origin_path(configuration, origin))?;
    out.push(b':')?;
    push_number(out, origin.line)
}

fn push_inner(
    out: &mut Vec<u8>,
    configuration: &Configuration,
    policies: &[usize],
) -> Result<(), AllocError>
    ensures { OnOk result (out.new.items ≡ out.old.items
        ++ flat_map (inner_name configuration.now.items.items) policies.now) }
{
    for policy in policies {
        out.extend_from_slice(b" > ")?;
        push_visible(out, section_name(configuration, *policy))?;
    }
    Ok(())
}

/// The names of the policies that a line was put in by.
#[tactic(auto, using(crate::proofs::CallerNames::shown))]
pub(crate) fn push_policies(
    out: &mut Vec<u8>,
    configuration: &Configuration,
    policies: &[usize],
) -> Result<(), AllocError>
    ensures { OnOk result (out.new.items
        ≡ out.old.items ++ policies_text configuration.now.items.items policies.now) }
{
    let [outermost, others @ ..] = policies else {
        return Ok(());
    };
    out.extend_from_slice(b" (")?;
    push_visible(out, section_name(configuration, *outermost))?;
    push_inner(out, configuration, others)?;
    Ok(out.push(b')')?)
}

fn push_line(
    out: &mut Vec<u8>,
    configuration: &Configuration,
    number: usize,
    line: &LineOrigin,
) -> Result<(), AllocError>
    ensures { OnOk result
        (out.new.items ≡ out.old.items ++ map_line configuration.now number line.now) }
{
    push_number(out, number)?;
    out.push(b' ')?;
    push_origin(out, configuration, line.origin)?;
    push_policies(out, configuration, &line.policies)?;
    Ok(out.push(b'\n')?)
}

/// A line for each line of a policy: its number, from 1 on, and where it comes from, as
/// `2 policy.d/filter:12 (filter_username)`.
pub fn origin_map(
    alloc: Global,
    configuration: &Configuration,
    lines: &[LineOrigin],
) -> Result<Vec<u8>, AllocError>
    ensures { IfOk result (λ map. map.items ≡ origin_map configuration.now lines.now) }
{
    let mut out = Vec::new(alloc);
    for (place, line) in lines.iter().enumerate() {
        push_line(&mut out, configuration, place + 1, line)?;
    }
    Ok(out)
}
