//! The statements of a server's section, as a tree.

ghost use Rattle.std.specs.Prelude.{◌≡◌, IfOk, IfSome};
ghost use Rattle.radpolicy_import_policies.specs.Statements.{count, count_of, weight};

use crate::faults::ImportFault;
use avp_unlang::Items;
use radpolicy_import_conditions::{Reason, ServerCode};
use server_configuration::{Configuration, Content, Item, Quote, Text};
use std::alloc::{AllocError, Global};
use std::mem;

/// The most statements of a tree. Policies that are called count as often as they are.
pub const MAX_STATEMENTS: usize = 65_535;

/// How deep sections and called policies may be in each other.
pub const MAX_NESTED_SECTIONS: usize = 64;

/// What a statement of a server is. What stands in it is its block.
#[derive(Clone, Copy, Debug, PartialEq, Eq)]
pub enum StatementKind {
    /// `update`, with its lines.
    Update,
    /// A line of an `update`.
    Line,
    /// An `if` with the `elsif` and the `else` after it.
    Chain,
    If,
    Elsif,
    Else,
    /// `switch`, with its cases.
    Switch,
    /// `case`, with a value or without, or `default`.
    Case,
    Group,
    /// `redundant` and `load-balance`: of its members the first counts.
    FirstOf,
    /// The call of a named policy, which is the section at this place of the configuration.
    Policy(usize),
    /// The call of a module.
    Module,
    Code(ServerCode),
    /// An expansion by itself, whose result nothing asks for: it writes to the server's log or does something elsewhere.
    Expansion,
    /// `return`, which ends the section, also in a policy that is called.
    Return,
    /// `Auth-Type NAME` and the like: a section of its own, which other sections do not run.
    OwnSection,
    LeftOut(Reason),
}

/// A statement of a server.
#[derive(Debug, Drop)]
pub struct Statement {
    /// The place of its item in the configuration.
    pub place: usize,
    pub kind: StatementKind,
    pub block: Items<Statement>,
}

impl StatementKind {
    // How many statements it is besides what it holds.
    fn weight(self) -> usize
        ensures { result ≡ weight self }
    {
        match self {
            StatementKind::Update
            | StatementKind::Chain
            | StatementKind::Module
            | StatementKind::OwnSection => 0,
            _ => 1,
        }
    }
}

// None where there are more than a number can say.
#[cycle(counting)]
#[tactic(auto, using(crate::proofs::Counts::count_here))]
fn count(statement: &Statement) -> Option<usize>
    ensures { IfSome result (λ n. n ≡ count statement.now) }
{
    let inside = count_of(statement.block.as_slice())?;
    inside.checked_add(statement.kind.weight())
}

/// How many statements there are: lines of updates, branches, cases and codes, calls of policies and what is put in
/// their place, groups, and what is left out. Calls of modules are none. None where there are more than a number can
/// say.
#[cycle(counting)]
pub fn count_of(statements: &[Statement]) -> Option<usize>
    ensures { IfSome result (λ n. n ≡ count_of statements.now) }
{
    let mut total = 0usize;
    for statement in statements {
        total = total.checked_add(count(statement)?)?;
    }
    Some(total)
}

/// The same, or the fault of too many.
pub(crate) fn counted(statements: &[Statement]) -> Result<usize, ImportFault>
    ensures { IfOk result (λ n. n ≡ count_of statements.now) }
{
    match count_of(statements) {
        Some(count) => Ok(count),
        None => Err(ImportFault::TooManyStatements),
    }
}

// Statements of a block so far, those of a chain of branches apart.
#[derive(Drop)]
struct Gathered {
    made: Vec<Statement>,
    chain: Vec<Statement>,
}

impl Gathered {
    fn new(alloc: Global) -> Gathered {
        Gathered {
            made: Vec::new(alloc),
            chain: Vec::new(alloc),
        }
    }

    fn end_chain(&mut self, alloc: Global) -> Result<(), AllocError> {
        let Some(first) = self.chain.first() else {
            return Ok(());
        };
        let place = first.place;
        let chain = mem::replace(&mut self.chain, Vec::new(alloc));
        self.made.push(Statement {
            place,
            kind: StatementKind::Chain,
            block: Items::from_vec(chain),
        })?;
        Ok(())
    }

    // Whether an `elsif` or an `else` may follow.
    fn is_open(&self) -> bool {
        match self.chain.last() {
            Some(last) => last.kind != StatementKind::Else,
            None => false,
        }
    }

    fn push(&mut self, alloc: Global, statement: Statement) -> Result<(), AllocError> {
        match statement.kind {
            StatementKind::If => {
                self.end_chain(alloc)?;
                self.chain.push(statement)?;
            }
            StatementKind::Elsif | StatementKind::Else if self.is_open() => {
                self.chain.push(statement)?;
            }
            StatementKind::Elsif | StatementKind::Else => {
                self.end_chain(alloc)?;
                self.made.push(Statement {
                    kind: StatementKind::LeftOut(Reason::NoIf),
                    ..statement
                })?;
            }
            _ => {
                self.end_chain(alloc)?;
                self.made.push(statement)?;
            }
        }
        Ok(())
    }

    fn finish(self, alloc: Global) -> Result<Items<Statement>, AllocError> {
        let mut gathered = self;
        gathered.end_chain(alloc)?;
        Ok(Items::from_vec(gathered.made))
    }
}

/// Whether a text calls what changes attributes itself.
pub(crate) fn changes_attributes(text: &[u8]) -> bool {
    text.windows(8).any(|part| part == b"explode:".as_slice())
        || text.windows(5).any(|part| part == b"rest:".as_slice())
        || text.windows(6).any(|part| part == b"%{map:".as_slice())
        || text
            .windows(13)
            .any(|part| part == b"dhcp_options:".as_slice())
}

// Whether a text by itself is an expansion that does nothing to attributes.
fn is_expansion(text: &Text) -> bool {
    matches!(text.quote, Quote::Bare | Quote::Double)
        && text.octets.starts_with(b"%{")
        && text.octets.ends_with(b"}")
        && !changes_attributes(&text.octets)
}

// What a section is by its name.
fn kind_of_section(name: &[u8], arguments: &[Text]) -> StatementKind {
    match name {
        b"update" => StatementKind::Update,
        b"if" => StatementKind::If,
        b"elsif" => StatementKind::Elsif,
        b"else" => StatementKind::Else,
        b"switch" => StatementKind::Switch,
        b"case" | b"default" => StatementKind::Case,
        b"group" => StatementKind::Group,
        b"redundant" | b"load-balance" | b"redundant-load-balance" => StatementKind::FirstOf,
        b"foreach" | b"parallel" | b"limit" | b"timeout" | b"map" | b"actions" => {
            StatementKind::LeftOut(Reason::OtherSection)
        }
        _ if name.ends_with(b"-Type") && arguments.len() > 0 => StatementKind::OwnSection,
        _ => kind_of_call(name),
    }
}

// A code, or else the call of a module, whose block says what is done after a code.
fn kind_of_call(name: &[u8]) -> StatementKind {
    match ServerCode::named(name.strip_prefix(b"-").unwrap_or(name)) {
        Some(code) => StatementKind::Code(code),
        None => StatementKind::Module,
    }
}

// Whether a section is another or in it, where sections come after those that hold them. No section is the top.
fn is_from(section: Option<usize>, outer: Option<usize>) -> bool {
    match (section, outer) {
        (_, None) => true,
        (Some(place), Some(outer)) => place >= outer,
        (None, Some(_)) => false,
    }
}

// The place of the first item after the head of a section, or at the top.
fn first_in(section: Option<usize>) -> usize {
    match section {
        Some(place) => place.saturating_add(1),
        None => 0,
    }
}

// Makes a tree of statements.
#[derive(Drop)]
struct Builder<'a> {
    alloc: Global,
    configuration: &'a Configuration,
    // Of which section policies are meant where a call does not say it.
    method: &'a [u8],
    policies: Option<usize>,
    // The policies that are being put in.
    open: Vec<usize>,
    // How many statements there may still be.
    left: usize,
}

impl<'a> Builder<'a> {
    fn new(alloc: Global, configuration: &'a Configuration, method: &'a [u8]) -> Builder<'a> {
        Builder {
            alloc,
            configuration,
            method,
            policies: configuration.section(None, b"policy"),
            open: Vec::new(alloc),
            left: MAX_STATEMENTS,
        }
    }

    // One statement more.
    fn spend(&mut self) -> Result<(), ImportFault> {
        match self.left.checked_sub(1) {
            Some(left) => {
                self.left = left;
                Ok(())
            }
            None => Err(ImportFault::TooManyStatements),
        }
    }

    // The named policy that a word calls: that of the section at hand before the one for all sections.
    fn policy_named(&self, word: &[u8]) -> Result<Option<usize>, AllocError> {
        let mut name = Vec::from_slice(self.alloc, word)?;
        name.push(b'.')?;
        name.extend_from_slice(self.method)?;
        let policies = self.policies;
        if let Some(place) = self.configuration.section(policies, &name) {
            return Ok(Some(place));
        }
        if let Some(place) = self.configuration.section(policies, word) {
            return Ok(Some(place));
        }
        let Some(dot) = word.iter().rposition(|octet| *octet == b'.') else {
            return Ok(None);
        };
        Ok(self.configuration.section(policies, word.split_at(dot).0))
    }

    fn leaf(&self, place: usize, kind: StatementKind) -> Statement {
        Statement {
            place,
            kind,
            block: Items::from_vec(Vec::new(self.alloc)),
        }
    }

    // The lines of the update at a place.
    fn lines(&mut self, place: usize) -> Result<Items<Statement>, ImportFault> {
        let mut lines = Vec::new(self.alloc);
        let configuration = self.configuration;
        for child in first_in(Some(place))..configuration.items.len() {
            let Some(item) = configuration.items.get(child) else {
                break;
            };
            if !is_from(item.section, Some(place)) {
                break;
            }
            if item.section != Some(place) {
                continue;
            }
            let kind = match &item.content {
                Content::Pair { .. } => StatementKind::Line,
                Content::Include { .. } => continue,
                _ => StatementKind::LeftOut(Reason::NoLine),
            };
            self.spend()?;
            lines.push(self.leaf(child, kind))?;
        }
        Ok(Items::from_vec(lines))
    }

    // What is in the section at a place, or at the top.
    #[cycle(building)]
    fn block(
        &mut self,
        section: Option<usize>,
        depth: usize,
    ) -> Result<Items<Statement>, ImportFault> {
        let mut gathered = Gathered::new(self.alloc);
        let configuration = self.configuration;
        for child in first_in(section)..configuration.items.len() {
            let Some(item) = configuration.items.get(child) else {
                break;
            };
            if !is_from(item.section, section) {
                break;
            }
            if item.section != section {
                continue;
            }
            if let Some(statement) = self.statement(child, item, depth)? {
                gathered.push(self.alloc, statement)?;
            }
        }
        Ok(gathered.finish(self.alloc)?)
    }

    // The statement at a place. Pairs outside of updates and includes are none.
    #[cycle(building)]
    fn statement(
        &mut self,
        place: usize,
        item: &Item,
        depth: usize,
    ) -> Result<Option<Statement>, ImportFault> {
        match &item.content {
            Content::Pair { .. } | Content::Include { .. } => Ok(None),
            Content::Word { name, .. } => Ok(Some(self.word(place, name, depth)?)),
            Content::Section { name, arguments } => {
                let kind = kind_of_section(&name.octets, arguments);
                Ok(Some(self.section(place, kind, depth)?))
            }
        }
    }

    #[cycle(building)]
    fn section(
        &mut self,
        place: usize,
        kind: StatementKind,
        depth: usize,
    ) -> Result<Statement, ImportFault> {
        self.spend()?;
        if kind == StatementKind::Update {
            let block = self.lines(place)?;
            return Ok(Statement { place, kind, block });
        }
        if kind == StatementKind::OwnSection {
            return Ok(self.leaf(place, kind));
        }
        let Some(depth) = depth.checked_sub(1) else {
            return Ok(self.leaf(place, StatementKind::LeftOut(Reason::TooDeep)));
        };
        let block = self.block(Some(place), depth)?;
        // The call of a module with codes of its own has pairs alone.
        let kind = match kind {
            StatementKind::Module | StatementKind::Code(_) if !block.is_empty() => {
                StatementKind::LeftOut(Reason::OtherSection)
            }
            kind => kind,
        };
        Ok(Statement { place, kind, block })
    }

    // A word by itself: a code, or the call of a policy or a module.
    #[cycle(building)]
    fn word(&mut self, place: usize, name: &Text, depth: usize) -> Result<Statement, ImportFault> {
        self.spend()?;
        if is_expansion(name) {
            return Ok(self.leaf(place, StatementKind::Expansion));
        }
        if name.quote != Quote::Bare || name.octets.first() == Some(&b'%') {
            let reason = if changes_attributes(&name.octets) {
                Reason::ChangedList
            } else {
                Reason::Expansion
            };
            return Ok(self.leaf(place, StatementKind::LeftOut(reason)));
        }
        let word = name.octets.strip_prefix(b"-").unwrap_or(&name.octets);
        if let Some(code) = ServerCode::named(word) {
            return Ok(self.leaf(place, StatementKind::Code(code)));
        }
        if word == b"return".as_slice() {
            return Ok(self.leaf(place, StatementKind::Return));
        }
        if word == b"break".as_slice() {
            return Ok(self.leaf(place, StatementKind::LeftOut(Reason::OtherCode)));
        }
        match self.policy_named(word)? {
            Some(policy) => self.call(place, policy, depth),
            None => Ok(self.leaf(place, StatementKind::Module)),
        }
    }

    // The call of a policy, with its statements.
    #[cycle(building)]
    fn call(
        &mut self,
        place: usize,
        policy: usize,
        depth: usize,
    ) -> Result<Statement, ImportFault> {
        if self.open.iter().any(|open| *open == policy) {
            return Ok(self.leaf(place, StatementKind::LeftOut(Reason::Loop)));
        }
        let Some(depth) = depth.checked_sub(1) else {
            return Ok(self.leaf(place, StatementKind::LeftOut(Reason::TooDeep)));
        };
        self.open.push(policy)?;
        let block = self.block(Some(policy), depth)?;
        let _ = self.open.pop();
        Ok(Statement {
            place,
            kind: StatementKind::Policy(policy),
            block,
        })
    }
}

/// The statements of the section at a place, or of the top, with those of named policies in their places. `method` is
/// the section's name: where a policy of the name `NAME.METHOD` is there, it is meant by `NAME`.
pub fn statements_of(
    alloc: Global,
    configuration: &Configuration,
    section: Option<usize>,
    method: &[u8],
) -> Result<Items<Statement>, ImportFault> {
    Builder::new(alloc, configuration, method).block(section, MAX_NESTED_SECTIONS)
}
