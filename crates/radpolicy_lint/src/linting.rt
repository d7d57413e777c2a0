//! What is found in the files.

use crate::command_line::Plan;
use crate::printing::{Level, Note, push_note};
use avp_dict::{Dictionary, FileSet};
use avp_forms::{profile_of, read_request};
use avp_lists::AttrId;
use avp_unlang::{PolicyKind, read_policy};
use radpolicy::{Fault, status};
use radpolicy_help::{
    Finding, Source, Sources, UnreadSecrets, explain, explain_by, findings, split_place,
    without_statement,
};
use std::alloc::{AllocError, Global};

/// The status of a warning, where one is asked for.
const WARNED: u8 = 1;

// Of so many faults of a policy it is told, each of which has the rest read again.
const MAX_FAULTS: usize = 100;

/// What was found, in the form of the output, and the status by it.
#[derive(Drop)]
pub struct Found {
    pub text: Vec<u8>,
    pub status: u8,
}

impl Found {
    pub fn new(alloc: Global) -> Found {
        Found {
            text: Vec::new(alloc),
            status: 0,
        }
    }

    fn raise(&mut self, status: u8) {
        self.status = self.status.max(status);
    }
}

/// The files that were read, and how they are judged.
#[derive(Clone, Copy)]
pub struct Linter<'a> {
    pub plan: &'a Plan<'a>,
    pub files: &'a FileSet,
}

/// By what policies are read, and what of them is hidden.
#[derive(Clone, Copy)]
pub struct Reading<'a> {
    pub dictionary: &'a Dictionary,
    /// Attributes whose values are hidden, beside those that are secret as it is.
    pub hidden: &'a [AttrId],
}

const NOTHING: Source<'static> = Source {
    path: "",
    text: &[],
};

// The column at the end of the first line of a fault's help, `PATH:LINE:COLUMN`, and the lines below it.
fn column_and_help(help: &[u8]) -> (&str, &[u8]) {
    let (place, below) = split_place(help);
    let digits = match place.iter().rposition(|octet| *octet == b':') {
        Some(at) => place.get(at.saturating_add(1)..).unwrap_or(&[]),
        None => &[],
    };
    (str::from_utf8(digits).unwrap_or(""), below)
}

// The line of a fault in its file; 0 where it has none.
fn line_of(fault: &Fault) -> usize {
    match fault {
        Fault::Policy(fault) => fault.line,
        Fault::Request(fault) => fault.line,
        Fault::Dictionary(fault) => fault.line,
        _ => 0,
    }
}

impl<'a> Linter<'a> {
    // Adds a fault of a file.
    fn add_fault(
        &self,
        found: &mut Found,
        path: &str,
        fault: Fault,
        help: &[u8],
    ) -> Result<(), AllocError> {
        let alloc = *found.text.allocator();
        let number = fault.number();
        let zero = if number < 10 { "0" } else { "" };
        let name = format!(in alloc; "E{zero}{number}")?;
        let (column, help) = column_and_help(help);
        let note = Note {
            path,
            line: line_of(&fault),
            column,
            level: Level::Error,
            name: name.as_str(),
            text: fault.text(),
            help,
        };
        push_note(&mut found.text, self.plan.format, &note)?;
        found.raise(status(&fault));
        Ok(())
    }

    fn add_warning(
        &self,
        found: &mut Found,
        path: &str,
        finding: Finding,
    ) -> Result<(), AllocError> {
        let alloc = *found.text.allocator();
        let (server, hint) = (finding.advice.server, finding.advice.hint);
        let help = format!(in alloc; "{server}\n{hint}\n")?;
        let note = Note {
            path,
            line: finding.line,
            column: "",
            level: Level::Warning,
            name: finding.advice.name,
            text: finding.advice.found,
            help: help.as_bytes(),
        };
        push_note(&mut found.text, self.plan.format, &note)?;
        if self.plan.strict {
            found.raise(WARNED);
        }
        Ok(())
    }

    /// Adds a file that was not read.
    pub fn add_unread(
        &self,
        found: &mut Found,
        path: &str,
        fault: Fault,
    ) -> Result<(), AllocError> {
        self.add_fault(found, path, fault, &[])
    }

    /// Adds a fault of the dictionary.
    pub fn add_dictionary(&self, found: &mut Found, fault: Fault) -> Result<(), AllocError> {
        let alloc = *found.text.allocator();
        let sources = Sources {
            files: self.files,
            dictionaries: &self.plan.dictionaries,
            request: NOTHING,
            policy: NOTHING,
            script: NOTHING,
            secret: "",
            is_request_wider: false,
            hidden: &self.plan.hidden,
        };
        let help = explain(alloc, &fault, &sources)?;
        let path = match &fault {
            Fault::Dictionary(fault) => self
                .plan
                .dictionaries
                .get(fault.file)
                .copied()
                .unwrap_or("dictionary"),
            _ => "dictionary",
        };
        self.add_fault(found, path, fault, &help)
    }

    // Adds what is found in a policy up to its first fault. The text without the statement that has it is given, where
    // the rest can be read.
    fn add_part(
        self,
        found: &mut Found,
        dictionary: &Dictionary,
        secrets: &UnreadSecrets<'_>,
        source: Source<'a>,
    ) -> Result<Option<Vec<u8>>, AllocError> {
        let alloc = *found.text.allocator();
        let Source { path, text } = source;
        match read_policy(alloc, dictionary, text) {
            Ok(policy) => {
                for finding in &findings(alloc, dictionary, &policy, text)? {
                    self.add_warning(found, path, *finding)?;
                }
                Ok(None)
            }
            Err(fault) if fault.kind == PolicyKind::Memory => Err(AllocError),
            Err(fault) => {
                let refusal = Fault::from(fault);
                let sources = Sources {
                    files: self.files,
                    dictionaries: &self.plan.dictionaries,
                    request: NOTHING,
                    policy: source,
                    script: NOTHING,
                    secret: "",
                    is_request_wider: false,
                    hidden: &self.plan.hidden,
                };
                let help = explain_by(alloc, &refusal, &sources, secrets)?;
                self.add_fault(found, path, refusal, &help)?;
                without_statement(alloc, text, fault.offset)
            }
        }
    }

    /// Adds what is found in a policy. After a fault the statements around it are read all the same, up to its last
    /// fault or to 100 of them.
    pub fn add_policy(
        &self,
        found: &mut Found,
        reading: Reading<'_>,
        path: &'a str,
        text: &[u8],
    ) -> Result<(), AllocError> {
        let Reading { dictionary, hidden } = reading;
        let secrets = UnreadSecrets::of(*found.text.allocator(), dictionary, hidden, text)?;
        let linter = *self;
        let source = Source { path, text };
        let mut left = linter.add_part(found, dictionary, &secrets, source)?;
        for _ in 1..MAX_FAULTS {
            match left {
                Some(rest) => {
                    let source = Source { path, text: &rest };
                    left = linter.add_part(found, dictionary, &secrets, source)?;
                }
                None => return Ok(()),
            }
        }
        Ok(())
    }

    /// Adds the fault of a request of lines, if it has one.
    pub fn add_request(
        &self,
        found: &mut Found,
        dictionary: &Dictionary,
        path: &'a str,
        text: &[u8],
    ) -> Result<(), AllocError> {
        let alloc = *found.text.allocator();
        match read_request(alloc, dictionary, profile_of(text), None, text) {
            Ok(_) => Ok(()),
            Err(fault) => {
                let fault = Fault::from(fault);
                let sources = Sources {
                    files: self.files,
                    dictionaries: &self.plan.dictionaries,
                    request: Source { path, text },
                    policy: NOTHING,
                    script: NOTHING,
                    secret: "",
                    is_request_wider: false,
                    hidden: &self.plan.hidden,
                };
                let help = explain(alloc, &fault, &sources)?;
                self.add_fault(found, path, fault, &help)
            }
        }
    }
}
