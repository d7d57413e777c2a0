//! A policy as a tree. The numbers of statements, branches and lines are lines of the text, from 1. Variants that are
//! said to be of a wider policy come from texts of the profile [`Wider`](avp_forms::Profile::Wider) alone.

use crate::boxed::Boxed;
use crate::codes::Code;
use crate::items::Items;
use avp_dict::{Form, Kind};
use avp_lists::{AttrId, List, Octets, Op, Selection, Value};
use avp_patterns::PatternFlags;

/// A part of a text in which values are put.
#[derive(Debug, Drop)]
pub enum Part {
    /// Octets as they are.
    Text(Octets),
    /// `%{list:name}`: the first instance of the attribute.
    Instance(List, AttrId),
    /// The same in a wider policy: what the first of these instances means.
    Meant(List, AttrId, Selection),
    /// `%{0}` to `%{9}` in a wider policy: what this group of the last comparison with a pattern captured.
    Capture(u8),
}

pub type Parts = Items<Part>;

/// What an update line sets its attribute to.
#[derive(Debug, Drop)]
pub enum Source {
    /// A value that is written out, by the type of the line's attribute.
    Literal(Value),
    /// A text with values put in, and whether the line's attribute is named by number, as `Attr-26.9.1`.
    Text(bool, Parts),
    /// The same in a wider policy, with the tag of the name: `Attribute:1`.
    WiderText(bool, Option<u8>, Parts),
    /// `&list:name`: the first instance of the attribute.
    Instance(List, AttrId),
    /// The same in a wider policy: the first of these instances. Where its octets are of the form, which is one with
    /// tags if the line's attribute has it too, they get this tag in place of their own.
    Tagged(List, AttrId, Selection, Form, u8),
    /// What follows `!*`.
    Any,
}

/// A line of an `update`.
#[derive(Debug, Drop)]
pub struct Line {
    pub line: usize,
    pub list: List,
    pub id: AttrId,
    pub op: Op,
    /// The instances that are edited; all where no wider policy names a tag.
    pub selection: Selection,
    pub source: Source,
}

pub type Lines = Items<Line>;

/// How two values are compared.
#[derive(Clone, Copy, Debug, PartialEq, Eq)]
pub enum Relation {
    /// `==`
    Equal,
    /// `!=`
    Differs,
    /// `<`
    Less,
    /// `<=`
    AtMost,
    /// `>`
    Greater,
    /// `>=`
    AtLeast,
}

/// What an instance is compared with.
#[derive(Debug, Drop)]
pub enum Comparand {
    /// A value that is written out, by the type of the compared attribute.
    Literal(Value),
    /// `&list:name`: the first instance of the attribute.
    Instance(List, AttrId),
}

/// A comparison of the first instance of an attribute.
#[derive(Debug, Drop)]
pub struct Comparison {
    pub list: List,
    pub id: AttrId,
    /// The type of the attribute's values; octets where the dictionary has none.
    pub kind: Kind,
    pub relation: Relation,
    pub comparand: Comparand,
}

/// What the octets of an instance are compared with in a wider policy.
#[derive(Debug, Drop)]
pub enum MeantComparand {
    /// Octets that are written out, or those of a text, and their form.
    Literal(Form, Octets),
    /// The first of these instances, and its form.
    Instance(List, AttrId, Selection, Form),
}

/// A comparison in a wider policy, of the first of the instances of an attribute whose values are octets, by what they
/// mean.
#[derive(Debug, Drop)]
pub struct MeantComparison {
    pub list: List,
    pub id: AttrId,
    pub selection: Selection,
    /// What the octets stand for.
    pub form: Form,
    pub relation: Relation,
    pub comparand: MeantComparand,
}

/// A comparison in a wider policy of the first of the instances of an attribute with a pattern.
#[derive(Debug, Drop)]
pub struct Matching {
    pub list: List,
    pub id: AttrId,
    pub selection: Selection,
    /// Whether this is `!~`, by which the pattern may not match, and not `=~`.
    pub negated: bool,
    /// The text of the pattern.
    pub pattern: Octets,
    pub flags: PatternFlags,
}

/// What a comparison of texts in a wider policy has on its left side.
#[derive(Debug, Drop)]
pub enum TextSide {
    Text(Parts),
    /// The first of these instances of an attribute of type string or octets.
    Instance(List, AttrId, Selection),
}

/// A comparison with a text in a wider policy: of two texts as numbers where both are decimal digits alone, else octet
/// by octet; of an instance always octet by octet.
#[derive(Debug, Drop)]
pub struct TextComparison {
    pub left: TextSide,
    pub relation: Relation,
    pub right: Parts,
}

/// A comparison of what was captured of a group in a wider policy with a pattern.
#[derive(Debug, Drop)]
pub struct GroupMatching {
    pub group: u8,
    /// Whether this is `!~`, by which the pattern may not match, and not `=~`.
    pub negated: bool,
    /// The text of the pattern.
    pub pattern: Octets,
    pub flags: PatternFlags,
}

/// What an `if` or `elsif` asks for.
#[derive(Debug, Drop)]
pub enum Cond {
    /// Two or more with `||` between them.
    Any(Items<Cond>),
    /// Two or more with `&&` between them.
    All(Items<Cond>),
    Not(Boxed<Cond>),
    /// Whether this is the last code.
    Last(Code),
    /// Whether the attribute has an instance.
    Present(List, AttrId),
    /// The same in a wider policy: whether there is one of these instances.
    PresentSelected(List, AttrId, Selection),
    Compare(Comparison),
    CompareMeant(MeantComparison),
    Match(Matching),
    CompareTexts(TextComparison),
    /// `"%{Name}" =~ /../`: as `Match`, of a text that is empty where there is no instance.
    MatchText(Matching),
    MatchGroup(GroupMatching),
    /// `"%{0}"` to `"%{9}"` in a wider policy: whether this group of the last comparison with a pattern captured an octet
    /// or more.
    Captured(u8),
}

/// A condition, and what is done where it is the first that holds.
#[cycle(statements)]
#[derive(Debug, Drop)]
pub struct Branch {
    /// The line of its `if` or `elsif`.
    pub line: usize,
    pub cond: Cond,
    pub block: Items<Statement>,
}

/// A statement, with the line of its first token; an `if` has those of its branches.
#[cycle(statements)]
#[derive(Debug, Drop)]
pub enum Statement {
    Update(usize, Lines),
    /// Branches, the first for `if` and the others for `elsif`, and the block of `else`.
    If(Items<Branch>, Option<Items<Statement>>),
    Transaction(usize, Items<Statement>),
    Word(usize, Code),
}

pub type Block = Items<Statement>;

pub type Branches = Items<Branch>;
