//! Warnings by the names and types of attributes: of those that a server obeys in the control list, and of dates in
//! texts.

use crate::warnings::{Advice, Finding};
use avp_dict::{Dictionary, Form};
use avp_lists::{AttrId, List, Op};
use avp_unlang::{Branch, Line, Part, Source, Statement};
use std::alloc::{AllocError, Global};

const OBEYED_CONTROL: Advice = Advice {
    name: "obeyed-control",
    found: "a control attribute that a server obeys",
    server: "a server acts by it after the policy, and here it is an attribute like any other",
    hint: "the code decides here: write reject for Auth-Type := Reject, and ok for Accept",
};

const PRINTED_DATE: Advice = Advice {
    name: "printed-date",
    found: "a date that is put into a text",
    server: "a server puts in a calendar date, and here it is a number of seconds",
    hint: "write # profile: wider in the first line, below which it is a date in UTC",
};

const OBEYED_NAMES: [&str; 5] = [
    "Auth-Type",
    "Response-Packet-Type",
    "Proxy-To-Realm",
    "Simultaneous-Use",
    "Cleartext-Password",
];

/// What is looked for in a policy that is read by a dictionary.
#[derive(Drop)]
pub(crate) struct Watcher<'a> {
    dictionary: &'a Dictionary,
    obeyed_ids: Vec<AttrId>,
}

/// The attributes of these names that a dictionary has.
pub(crate) fn ids_of(
    alloc: Global,
    dictionary: &Dictionary,
    names: &[&str],
) -> Result<Vec<AttrId>, AllocError> {
    let mut ids = Vec::new(alloc);
    for name in names {
        if let Some(named) = dictionary.by_name(name.as_bytes()) {
            ids.push(named.id)?;
        }
    }
    Ok(ids)
}

fn has(ids: &[AttrId], id: AttrId) -> bool {
    ids.iter().any(|other| other.equals(id))
}

// An operator that leaves an attribute set.
fn is_setting(op: Op) -> bool {
    matches!(op, Op::AddNew | Op::Replace | Op::Append | Op::Prepend)
}

fn add(
    found: &mut Vec<Finding>,
    test: bool,
    line: usize,
    advice: Advice,
) -> Result<(), AllocError> {
    if test {
        found.push(Finding { line, advice })?;
    }
    Ok(())
}

impl<'a> Watcher<'a> {
    pub(crate) fn new(
        alloc: Global,
        dictionary: &'a Dictionary,
    ) -> Result<Watcher<'a>, AllocError> {
        Ok(Watcher {
            dictionary,
            obeyed_ids: ids_of(alloc, dictionary, &OBEYED_NAMES)?,
        })
    }

    fn is_date(&self, id: AttrId) -> bool {
        self.dictionary.form(id) == Some(Form::Date)
    }

    // Below the line of the wider profile a text has a date as a server prints it.
    fn prints_date(&self, source: &Source) -> bool {
        match source {
            Source::Text(_, parts) => parts.as_slice().iter().any(|part| match part {
                Part::Instance(_, id) => self.is_date(*id),
                Part::Text(_) | Part::Meant(..) | Part::Capture(_) => false,
            }),
            _ => false,
        }
    }

    fn is_obeyed(&self, line: &Line) -> bool {
        line.list == List::Control && is_setting(line.op) && has(&self.obeyed_ids, line.id)
    }

    fn add_lines(&self, found: &mut Vec<Finding>, lines: &[Line]) -> Result<(), AllocError> {
        for line in lines {
            let at = line.line;
            add(found, self.prints_date(&line.source), at, PRINTED_DATE)?;
            add(found, self.is_obeyed(line), at, OBEYED_CONTROL)?;
        }
        Ok(())
    }

    /// Adds what statements are warned of.
    #[cycle(blocks)]
    pub(crate) fn add_block(
        &self,
        found: &mut Vec<Finding>,
        block: &[Statement],
    ) -> Result<(), AllocError> {
        for statement in block {
            self.add_statement(found, statement)?;
        }
        Ok(())
    }

    #[cycle(blocks)]
    fn add_branches(
        &self,
        found: &mut Vec<Finding>,
        branches: &[Branch],
    ) -> Result<(), AllocError> {
        for branch in branches {
            self.add_block(found, branch.block.as_slice())?;
        }
        Ok(())
    }

    #[cycle(blocks)]
    fn add_statement(
        &self,
        found: &mut Vec<Finding>,
        statement: &Statement,
    ) -> Result<(), AllocError> {
        match statement {
            Statement::Update(_, lines) => self.add_lines(found, lines.as_slice()),
            Statement::If(branches, otherwise) => {
                self.add_branches(found, branches.as_slice())?;
                match otherwise {
                    Some(block) => self.add_block(found, block.as_slice()),
                    None => Ok(()),
                }
            }
            Statement::Transaction(_, block) => self.add_block(found, block.as_slice()),
            Statement::Word(..) => Ok(()),
        }
    }
}
