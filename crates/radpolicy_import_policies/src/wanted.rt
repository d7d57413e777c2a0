//! Which attributes of the reply and control lists a policy reads and does not set.

use crate::unset::is_set;
use avp_lists::{AttrId, List};
use avp_unlang::{
    Branch, Comparand, Comparison, Cond, Line, MeantComparand, MeantComparison, Part, Policy,
    Source, Statement, TextSide,
};
use std::alloc::{AllocError, Global};

/// An attribute that is wanted of an initial list, and the line of the policy that reads it first.
#[derive(Clone, Copy, Debug)]
pub struct WantedAttribute {
    pub list: List,
    pub id: AttrId,
    pub line: usize,
}

// How many there are at most.
const MOST_WANTED: usize = 1_000;

// Those that are read, each once.
#[derive(Drop)]
struct Reads {
    found: Vec<WantedAttribute>,
}

impl Reads {
    fn has(&self, list: List, id: AttrId) -> bool {
        self.found
            .iter()
            .any(|read| read.list == list && read.id.equals(id))
    }

    fn read(&mut self, line: usize, list: List, id: AttrId) -> Result<(), AllocError> {
        if list == List::Request || self.found.len() >= MOST_WANTED || self.has(list, id) {
            return Ok(());
        }
        self.found.push(WantedAttribute { list, id, line })?;
        Ok(())
    }

    fn comparison(&mut self, line: usize, comparison: &Comparison) -> Result<(), AllocError> {
        self.read(line, comparison.list, comparison.id)?;
        match &comparison.comparand {
            Comparand::Literal(_) => Ok(()),
            Comparand::Instance(list, id) => self.read(line, *list, *id),
        }
    }

    fn meant(&mut self, line: usize, comparison: &MeantComparison) -> Result<(), AllocError> {
        self.read(line, comparison.list, comparison.id)?;
        match &comparison.comparand {
            MeantComparand::Literal(..) => Ok(()),
            MeantComparand::Instance(list, id, ..) => self.read(line, *list, *id),
        }
    }

    #[cycle(conditions)]
    fn condition(&mut self, line: usize, cond: &Cond) -> Result<(), AllocError> {
        match cond {
            Cond::Any(conds) | Cond::All(conds) => self.conditions(line, conds.as_slice()),
            Cond::Not(cond) => self.condition(line, cond.get()),
            Cond::Last(_) | Cond::MatchGroup(_) | Cond::Captured(_) => Ok(()),
            Cond::Present(list, id) | Cond::PresentSelected(list, id, _) => {
                self.read(line, *list, *id)
            }
            Cond::Compare(comparison) => self.comparison(line, comparison),
            Cond::CompareMeant(comparison) => self.meant(line, comparison),
            Cond::Match(matching) | Cond::MatchText(matching) => {
                self.read(line, matching.list, matching.id)
            }
            Cond::CompareTexts(comparison) => {
                self.side(line, &comparison.left)?;
                self.parts(line, comparison.right.as_slice())
            }
        }
    }

    fn side(&mut self, line: usize, side: &TextSide) -> Result<(), AllocError> {
        match side {
            TextSide::Text(parts) => self.parts(line, parts.as_slice()),
            TextSide::Instance(list, id, _) => self.read(line, *list, *id),
        }
    }

    #[cycle(conditions)]
    fn conditions(&mut self, line: usize, conds: &[Cond]) -> Result<(), AllocError> {
        for cond in conds {
            self.condition(line, cond)?;
        }
        Ok(())
    }

    fn parts(&mut self, line: usize, parts: &[Part]) -> Result<(), AllocError> {
        for part in parts {
            match part {
                Part::Text(_) | Part::Capture(_) => {}
                Part::Instance(list, id) | Part::Meant(list, id, _) => {
                    self.read(line, *list, *id)?;
                }
            }
        }
        Ok(())
    }

    fn line(&mut self, line: &Line) -> Result<(), AllocError> {
        match &line.source {
            Source::Literal(_) | Source::Any => Ok(()),
            Source::Text(_, parts) | Source::WiderText(_, _, parts) => {
                self.parts(line.line, parts.as_slice())
            }
            Source::Instance(list, id) | Source::Tagged(list, id, ..) => {
                self.read(line.line, *list, *id)
            }
        }
    }

    fn lines(&mut self, lines: &[Line]) -> Result<(), AllocError> {
        for line in lines {
            self.line(line)?;
        }
        Ok(())
    }

    #[cycle(reads)]
    fn branches(&mut self, branches: &[Branch]) -> Result<(), AllocError> {
        for branch in branches {
            self.condition(branch.line, &branch.cond)?;
            self.block(branch.block.as_slice())?;
        }
        Ok(())
    }

    #[cycle(reads)]
    fn statement(&mut self, statement: &Statement) -> Result<(), AllocError> {
        match statement {
            Statement::Update(_, lines) => self.lines(lines.as_slice()),
            Statement::If(branches, otherwise) => {
                self.branches(branches.as_slice())?;
                match otherwise {
                    Some(block) => self.block(block.as_slice()),
                    None => Ok(()),
                }
            }
            Statement::Transaction(_, block) => self.block(block.as_slice()),
            Statement::Word(..) => Ok(()),
        }
    }

    #[cycle(reads)]
    fn block(&mut self, block: &[Statement]) -> Result<(), AllocError> {
        for statement in block {
            self.statement(statement)?;
        }
        Ok(())
    }
}

/// The attributes of the reply and control lists that a policy reads and that no line of it sets, each once, in the
/// order in which they are read, and at most 1,000.
pub fn wanted_attributes(
    alloc: Global,
    policy: &Policy,
) -> Result<Vec<WantedAttribute>, AllocError> {
    let mut reads = Reads {
        found: Vec::new(alloc),
    };
    let statements = policy.statements().as_slice();
    reads.block(statements)?;
    let mut wanted = Vec::new(alloc);
    for read in &reads.found {
        if !is_set(statements, read.list, read.id) {
            wanted.push(*read)?;
        }
    }
    Ok(wanted)
}
