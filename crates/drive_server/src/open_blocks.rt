//! Statements of which not all has been read.

use crate::words::bad;
use avp_lists::{AttrId, List, Value};
use avp_unlang::Items;
use server_unlang::{OwnAction, ServerBranch, ServerCase, ServerCondition, ServerStatement};
use std::alloc::Global;
use std::io;

/// What a block is the block of.
#[derive(Drop)]
pub enum Head {
    Group,
    /// An `if` with the branches that were read, and the condition of this one.
    Branch(Vec<ServerBranch>, ServerCondition),
    /// A `switch` in which no case is open.
    Switch(List, AttrId, Vec<ServerCase>),
    /// A case, and its `switch`.
    Case(List, AttrId, Vec<ServerCase>, Option<Value>),
}

// A block whose end has not been read, and what stands before it.
#[derive(Drop)]
struct OpenBlock {
    before: Vec<ServerStatement>,
    actions: Vec<OwnAction>,
    head: Head,
}

/// The block that is read, and those that it stands in.
#[derive(Drop)]
pub struct OpenBlocks {
    alloc: Global,
    statements: Vec<ServerStatement>,
    actions: Vec<OwnAction>,
    outer: Vec<OpenBlock>,
}

impl OpenBlocks {
    pub fn new(alloc: Global) -> OpenBlocks {
        OpenBlocks {
            alloc,
            statements: Vec::new(alloc),
            actions: Vec::new(alloc),
            outer: Vec::new(alloc),
        }
    }

    pub fn push(&mut self, statement: ServerStatement) -> io::Result<()> {
        Ok(self.statements.push(statement)?)
    }

    /// An action of the block that is read.
    pub fn push_action(&mut self, action: OwnAction) -> io::Result<()> {
        Ok(self.actions.push(action)?)
    }

    /// Begins a block in this one.
    pub fn begin(&mut self, head: Head) -> io::Result<()> {
        let opened = OpenBlock {
            before: std::mem::replace(&mut self.statements, Vec::new(self.alloc)),
            actions: std::mem::replace(&mut self.actions, Vec::new(self.alloc)),
            head,
        };
        Ok(self.outer.push(opened)?)
    }

    // Ends the block that is read: its actions, its statements, and what it is the block of.
    fn ended(&mut self) -> io::Result<(Items<OwnAction>, Items<ServerStatement>, Head)> {
        let Some(opened) = self.outer.pop() else {
            return bad();
        };
        let OpenBlock {
            before,
            actions,
            head,
        } = opened;
        let block = std::mem::replace(&mut self.statements, before);
        let own = std::mem::replace(&mut self.actions, actions);
        Ok((Items::from_vec(own), Items::from_vec(block), head))
    }

    /// Ends a branch, and begins the next one of its `if`.
    pub fn next(&mut self, condition: ServerCondition) -> io::Result<()> {
        let (actions, block, head) = self.ended()?;
        let Head::Branch(mut branches, asked) = head else {
            return bad();
        };
        branches.push(ServerBranch {
            condition: asked,
            actions,
            block,
        })?;
        self.begin(Head::Branch(branches, condition))
    }

    /// Begins a case of the `switch` that is read, after the one before it.
    pub fn next_case(&mut self, value: Option<Value>) -> io::Result<()> {
        let (_, block, head) = self.ended()?;
        match head {
            Head::Switch(list, id, cases) => self.begin(Head::Case(list, id, cases, value)),
            Head::Case(list, id, mut cases, before) => {
                cases.push(ServerCase {
                    value: before,
                    block,
                })?;
                self.begin(Head::Case(list, id, cases, value))
            }
            Head::Group | Head::Branch(..) => bad(),
        }
    }

    /// Ends a block.
    pub fn end(&mut self) -> io::Result<()> {
        let (actions, block, head) = self.ended()?;
        match head {
            Head::Group => self.push(ServerStatement::Group(actions, block)),
            Head::Branch(mut branches, condition) => {
                branches.push(ServerBranch {
                    condition,
                    actions,
                    block,
                })?;
                self.push(ServerStatement::If(Items::from_vec(branches)))
            }
            Head::Switch(..) => bad(),
            Head::Case(list, id, mut cases, value) => {
                cases.push(ServerCase { value, block })?;
                self.push(ServerStatement::Switch(list, id, Items::from_vec(cases)))
            }
        }
    }

    /// All that was read.
    pub fn statements(&self) -> io::Result<&[ServerStatement]> {
        if self.outer.is_empty() {
            Ok(self.statements.as_slice())
        } else {
            bad()
        }
    }
}
