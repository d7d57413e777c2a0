//! What the program writes.

use crate::PROGRAM;
use crate::json_reports::{json_others, json_report};
use crate::sources::FIRST;
use avp_dict::Dictionary;
use radpolicy::Fault;
use radpolicy_common::{LineBreaks, visible_text};
use radpolicy_help::{Advice, findings, refuse_at};
use radpolicy_import_conditions::{OtherAttribute, OtherSource, Reason};
use radpolicy_import_policies::{Imported, LeftOut, Origin, Warning, push_origin};
use radpolicy_import_texts::{SecretNames, shown_expansion};
use server_configuration::{Configuration, ConfigurationFault};
use std::alloc::{AllocError, Global};

// `FILE:LINE: reason: text` of a part that is left out, without line ends in it.
fn push_part(
    alloc: Global,
    out: &mut Vec<u8>,
    configuration: &Configuration,
    part: &LeftOut,
) -> Result<(), AllocError> {
    let (reason, count) = (part.reason, part.count);
    push_origin(out, configuration, part.origin)?;
    let text = if count > 1 {
        format!(in alloc; ": {reason} ({count} statements): ")?
    } else {
        format!(in alloc; ": {reason}: ")?
    };
    out.extend_from_slice(text.as_bytes())?;
    out.extend_from_slice(&part.shown)?;
    Ok(out.push(b'\n')?)
}

// `FILE:LINE: kept, but why [name]: text` of what a server does otherwise.
fn push_warning(
    alloc: Global,
    out: &mut Vec<u8>,
    configuration: &Configuration,
    warning: &Warning,
) -> Result<(), AllocError> {
    let difference = warning.difference;
    push_origin(out, configuration, warning.origin)?;
    let text = match difference.name() {
        Some(name) => format!(in alloc; ": kept, but {difference} [{name}]: ")?,
        None => format!(in alloc; ": kept, but {difference}: ")?,
    };
    out.extend_from_slice(text.as_bytes())?;
    out.extend_from_slice(&warning.shown)?;
    Ok(out.push(b'\n')?)
}

/// What a server does otherwise with a line that is kept, and where the line comes from.
#[derive(Clone, Copy, Drop)]
pub struct ServerDifference {
    pub origin: Origin,
    pub advice: Advice,
}

// Whether a server does otherwise where a policy has this warning. Of values and regular expressions the import tells
// that itself, by what the server's own text has.
fn is_of_server(name: &str) -> bool {
    matches!(
        name,
        "absent-comparison"
            | "absent-source"
            | "bare-name"
            | "filter-in-update"
            | "grouping"
            | "module-comparison"
            | "obeyed-control"
            | "printed-date"
            | "several-instances"
            | "virtual-attribute"
    )
}

// What a server does otherwise with the policy that was made, as far as the policy is warned of it.
fn server_differences(
    alloc: Global,
    dictionary: &Dictionary,
    imported: &Imported,
) -> Result<Vec<ServerDifference>, AllocError> {
    let mut differences = Vec::new(alloc);
    for finding in &findings(alloc, dictionary, &imported.policy, &imported.text)? {
        let line = imported.lines.get(finding.line.saturating_sub(1));
        if let Some(line) = line
            && is_of_server(finding.advice.name)
        {
            differences.push(ServerDifference {
                origin: line.origin,
                advice: finding.advice,
            })?;
        }
    }
    Ok(differences)
}

// `FILE:LINE: kept, with what [name]: what a server does` of a line.
fn push_difference(
    alloc: Global,
    out: &mut Vec<u8>,
    configuration: &Configuration,
    difference: &ServerDifference,
) -> Result<(), AllocError> {
    let Advice {
        name,
        found,
        server,
        ..
    } = difference.advice;
    push_origin(out, configuration, difference.origin)?;
    let text = format!(in alloc; ": kept, with {found} [{name}]: {server}\n")?;
    out.extend_from_slice(text.as_bytes())
}

// How many statements are kept, and how many of them depend on a value that is given, if there are any.
fn push_counts(alloc: Global, out: &mut Vec<u8>, imported: &Imported) -> Result<(), AllocError> {
    let (kept, read) = (imported.kept, imported.read);
    let calls = match imported.calls {
        1 => format!(in alloc; "1 module call is a comment")?,
        calls => format!(in alloc; "{calls} module calls are comments")?,
    };
    let given = match imported.given {
        0 => String::new(alloc),
        1 => format!(in alloc; "1 of the kept depends on a value that you supply\n")?,
        given => format!(in alloc; "{given} of the kept depend on a value that you supply\n")?,
    };
    let text = format!(in alloc; "{kept} of {read} statements kept, {calls}\n{given}")?;
    out.extend_from_slice(text.as_bytes())
}

// The report: how many statements are kept, each part that is left out, and each warning.
fn report(
    alloc: Global,
    configuration: &Configuration,
    imported: &Imported,
    differences: &[ServerDifference],
) -> Result<Vec<u8>, AllocError> {
    let mut out = Vec::new(alloc);
    push_counts(alloc, &mut out, imported)?;
    for part in &imported.left_out {
        push_part(alloc, &mut out, configuration, part)?;
    }
    for warning in &imported.warnings {
        push_warning(alloc, &mut out, configuration, warning)?;
    }
    for difference in differences {
        push_difference(alloc, &mut out, configuration, difference)?;
    }
    Ok(out)
}

/// Writes the report of an import by a dictionary to standard error.
pub fn show_report(
    rt: &HostRuntime,
    is_json: bool,
    configuration: &Configuration,
    dictionary: &Dictionary,
    imported: &Imported,
) -> Result<(), AllocError> {
    let differences = server_differences(rt.alloc(), dictionary, imported)?;
    let text = if is_json {
        json_report(rt.alloc(), configuration, imported, &differences)?
    } else {
        report(rt.alloc(), configuration, imported, &differences)?
    };
    let _ = rt.stderr().write_all(&text);
    Ok(())
}

/// What is to be known of the attributes that a dictionary defines.
#[derive(Clone, Copy)]
pub struct OthersReport<'a> {
    /// Where the dictionary is written.
    pub path: &'a str,
    pub count: usize,
    /// Those that no line sets.
    pub unset: &'a [&'a OtherAttribute],
    /// The names beside which values are hidden; none where all is shown.
    pub hidden: Option<&'a SecretNames<'a>>,
}

// How many attributes the dictionary has, and those that no line sets.
fn others_text(alloc: Global, report: &OthersReport<'_>) -> Result<Vec<u8>, AllocError> {
    let path = visible_text(alloc, report.path.as_bytes(), LineBreaks::Escaped)?;
    let count = report.count;
    let mut out = Vec::from_slice(alloc, &path)?;
    let noun = if count == 1 {
        "attribute"
    } else {
        "attributes"
    };
    out.extend_from_slice(format!(in alloc; ": {count} {noun}\n")?.as_bytes())?;
    for other in report.unset {
        out.extend_from_slice(&path)?;
        out.extend_from_slice(b": set by no line of the policy: &control:")?;
        out.extend_from_slice(&other.own)?;
        if let OtherSource::Asked(text) = &other.source {
            out.extend_from_slice(b" for %{")?;
            out.extend_from_slice(&shown_expansion(alloc, report.hidden, text)?)?;
            out.push(b'}')?;
        }
        out.push(b'\n')?;
    }
    Ok(out)
}

/// Writes what is to be known of the attributes that the dictionary defines to standard error.
pub fn show_others(
    rt: &HostRuntime,
    is_json: bool,
    report: &OthersReport<'_>,
) -> Result<(), AllocError> {
    let text = if is_json {
        json_others(rt.alloc(), report)?
    } else {
        others_text(rt.alloc(), report)?
    };
    let _ = rt.stderr().write_all(&text);
    Ok(())
}

/// The number of what is refused of a server's files, and of the lists that are given with them: that of a value of an
/// option, which names them.
pub const REFUSED: &str = "E02 ";

// `FILE:LINE: ` of a fault; nothing where the first file is not read, or is the list of the files that were named.
fn fault_place(alloc: Global, fault: &ConfigurationFault) -> Result<Vec<u8>, AllocError> {
    let path = fault.file.path.as_slice();
    let is_unread = matches!(&fault.unread, Some(unread) if unread.as_slice() == path);
    if is_unread || path == FIRST {
        return Ok(Vec::new(alloc));
    }
    let mut place = visible_text(alloc, path, LineBreaks::Escaped)?;
    let line = fault.line;
    place.extend_from_slice(format!(in alloc; ":{line}: ")?.as_bytes())?;
    Ok(place)
}

// `FILE:LINE: PATH: why` of a configuration that is not read, with the path of what was not.
fn fault_text(alloc: Global, fault: &ConfigurationFault) -> Result<Vec<u8>, AllocError> {
    let mut text = Vec::from_slice(alloc, b"radpolicy-import: ")?;
    text.extend_from_slice(&fault_place(alloc, fault)?)?;
    if let Some(unread) = &fault.unread {
        text.extend_from_slice(&visible_text(alloc, unread, LineBreaks::Escaped)?)?;
        text.extend_from_slice(b": ")?;
    }
    let kind = fault.kind;
    text.extend_from_slice(format!(in alloc; "{REFUSED}{kind}\n")?.as_bytes())?;
    Ok(text)
}

/// Writes where and why a configuration is not read.
pub fn show_fault(rt: &HostRuntime, fault: &ConfigurationFault) {
    let kind = fault.kind;
    let _ = match fault_text(rt.alloc(), fault) {
        Ok(text) => rt.stderr().write_all(&text),
        Err(_) => eprintln!(rt; "radpolicy-import: {REFUSED}{kind}"),
    };
}

// A line of standard error: what is before a text of the command line, the text, and what is behind it.
fn tell(rt: &HostRuntime, before: &str, text: &str, behind: &str) {
    let Ok(shown) = visible_text(rt.alloc(), text.as_bytes(), LineBreaks::Escaped) else {
        return;
    };
    let mut out = rt.stderr();
    let _ = out.write_all(before.as_bytes());
    let _ = out.write_all(&shown);
    let _ = out.write_all(behind.as_bytes());
}

/// Writes where and why the file of initial lists is not read.
pub fn show_initial_fault(rt: &HostRuntime, path: &str, fault: &server_configuration::Fault) {
    let (line, kind) = (fault.line, fault.kind);
    if let Ok(behind) = format!(in rt.alloc(); ":{line}: {REFUSED}{kind}\n") {
        tell(rt, "radpolicy-import: ", path, behind.as_str());
    }
}

/// Writes which line of the file of initial lists is no pair of one, and why.
pub fn show_initial_line(rt: &HostRuntime, path: &str, line: usize, reason: Reason) {
    if let Ok(behind) = format!(in rt.alloc(); ":{line}: {REFUSED}{reason}\n") {
        tell(rt, "radpolicy-import: ", path, behind.as_str());
    }
}

/// Refuses the value of an option.
pub fn refuse_value(rt: &HostRuntime, word: &str) -> u8 {
    let help = Ok(Vec::new(rt.alloc()));
    refuse_at(rt, PROGRAM, &Fault::OptionValue, word.as_bytes(), help)
}
