//! The report as JSON, an object a line.

use crate::reports::{OthersReport, ServerDifference};
use itoa::Buffer;
use radpolicy_common::{Escaping, LineBreaks, push_json_string, visible_text};
use radpolicy_import_conditions::OtherSource;
use radpolicy_import_policies::{Imported, LeftOut, Warning, origin_path};
use radpolicy_import_texts::shown_expansion;
use server_configuration::Configuration;
use std::alloc::{AllocError, Global};

// The name of a member, after what is before it.
fn push_name(out: &mut Vec<u8>, before: u8, name: &str) -> Result<(), AllocError> {
    out.push(before)?;
    out.push(b'"')?;
    out.extend_from_slice(name.as_bytes())?;
    out.extend_from_slice(b"\":")
}

fn push_number(out: &mut Vec<u8>, before: u8, name: &str, number: usize) -> Result<(), AllocError> {
    push_name(out, before, name)?;
    let mut digits = Buffer::new();
    out.extend_from_slice(digits.format(number).as_bytes())
}

// A text as the other report has it.
fn push_text(out: &mut Vec<u8>, before: u8, name: &str, text: &[u8]) -> Result<(), AllocError> {
    push_name(out, before, name)?;
    let shown = visible_text(*out.allocator(), text, LineBreaks::Escaped)?;
    push_json_string(out, &shown, Escaping::Plain)
}

// How many statements are kept.
fn push_counts(out: &mut Vec<u8>, imported: &Imported) -> Result<(), AllocError> {
    push_number(out, b'{', "kept", imported.kept)?;
    push_number(out, b',', "read", imported.read)?;
    push_number(out, b',', "calls", imported.calls)?;
    push_number(out, b',', "given", imported.given)?;
    out.extend_from_slice(b"}\n")
}

// A part that is left out.
fn push_part(
    alloc: Global,
    out: &mut Vec<u8>,
    configuration: &Configuration,
    part: &LeftOut,
) -> Result<(), AllocError> {
    let reason = part.reason;
    let reason = format!(in alloc; "{reason}")?;
    push_text(out, b'{', "file", origin_path(configuration, part.origin))?;
    push_number(out, b',', "line", part.origin.line)?;
    push_number(out, b',', "statements", part.count)?;
    push_text(out, b',', "reason", reason.as_bytes())?;
    push_text(out, b',', "text", &part.shown)?;
    out.extend_from_slice(b"}\n")
}

// What a server does otherwise with a condition or a line.
fn push_warning(
    alloc: Global,
    out: &mut Vec<u8>,
    configuration: &Configuration,
    warning: &Warning,
) -> Result<(), AllocError> {
    let difference = warning.difference;
    let text = format!(in alloc; "{difference}")?;
    let file = origin_path(configuration, warning.origin);
    push_text(out, b'{', "file", file)?;
    push_number(out, b',', "line", warning.origin.line)?;
    push_text(out, b',', "warning", text.as_bytes())?;
    if let Some(name) = difference.name() {
        push_text(out, b',', "name", name.as_bytes())?;
    }
    push_text(out, b',', "text", &warning.shown)?;
    out.extend_from_slice(b"}\n")
}

// What a server does otherwise with a line.
fn push_difference(
    out: &mut Vec<u8>,
    configuration: &Configuration,
    difference: &ServerDifference,
) -> Result<(), AllocError> {
    let (origin, advice) = (difference.origin, difference.advice);
    push_text(out, b'{', "file", origin_path(configuration, origin))?;
    push_number(out, b',', "line", origin.line)?;
    push_text(out, b',', "warning", advice.server.as_bytes())?;
    push_text(out, b',', "name", advice.name.as_bytes())?;
    push_text(out, b',', "text", advice.found.as_bytes())?;
    out.extend_from_slice(b"}\n")
}

/// How many statements are kept, each part that is left out, and each warning.
pub fn json_report(
    alloc: Global,
    configuration: &Configuration,
    imported: &Imported,
    differences: &[ServerDifference],
) -> Result<Vec<u8>, AllocError> {
    let mut out = Vec::new(alloc);
    push_counts(&mut out, imported)?;
    for part in &imported.left_out {
        push_part(alloc, &mut out, configuration, part)?;
    }
    for warning in &imported.warnings {
        push_warning(alloc, &mut out, configuration, warning)?;
    }
    for difference in differences {
        push_difference(&mut out, configuration, difference)?;
    }
    Ok(out)
}

/// The attributes of a dictionary that no line of the policy sets, and the expansions that they are in place of.
pub fn json_others(alloc: Global, report: &OthersReport<'_>) -> Result<Vec<u8>, AllocError> {
    let mut out = Vec::new(alloc);
    for other in report.unset {
        push_text(&mut out, b'{', "file", report.path.as_bytes())?;
        push_text(&mut out, b',', "unset", &other.own)?;
        if let OtherSource::Asked(text) = &other.source {
            let shown = shown_expansion(alloc, report.hidden, text)?;
            push_text(&mut out, b',', "expansion", &shown)?;
        }
        out.extend_from_slice(b"}\n")?;
    }
    Ok(out)
}
