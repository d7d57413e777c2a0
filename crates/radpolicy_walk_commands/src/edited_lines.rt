//! The lines of a policy that edit an attribute in a list, by which alone its instances there can change.

ghost use Rattle.std.specs.Prelude.{◌≡◌, ◌++◌, ℕ, IfOk, IfSome, OnOk};
ghost use Rattle.std.specs.List.{flat_map};
ghost use Rattle.std.specs.Option.{option_copied};
ghost use Rattle.radpolicy_walk_commands.specs.Steps.{is_one_of};
ghost use Rattle.radpolicy_walk_commands.specs.internal.EditedLines.{AreEffects, AreOf, IsEffectOf, edits, effect_at, effect_in, has_any, has_number, kept_of, line_numbers, lines_behind, lines_in, lines_in_branch, lines_of, may_change_by, number_if, same_list, told_effect};

use avp_lists::{AttrId, List, Op, Selection, Value};
use avp_step::Label;
use avp_unlang::{Branch, Line, Policy, Source, Statement};
use std::alloc::{AllocError, Global};
use std::collections::{HashMap, HashSet};

/// What an update line with a value that is written out makes of an attribute's instances.
#[derive(Drop)]
pub(crate) struct Effect {
    pub op: Op,
    pub selection: Selection,
    pub value: Value,
}

/// The lines that edit an attribute in a list.
#[derive(Drop)]
pub(crate) struct EditedLines {
    lines: HashSet<usize>,
    any: bool,
    // What the only update line with this number makes; none where it is not told by the line alone.
    effects: HashMap<usize, Option<Effect>>,
}

fn same_list(a: List, b: List) -> bool
    ensures { result ≡ same_list a b }
{
    match (a, b) {
        (List::Request, List::Request) => true,
        (List::Reply, List::Reply) => true,
        (List::Control, List::Control) => true,
        _ => false,
    }
}

fn edits(list: List, id: AttrId, line: &Line) -> bool
    ensures { result ≡ edits list id line.now }
{
    same_list(list, line.list) && line.id.equals(id)
}

// ---- the update lines of a policy

fn push_lines<'a>(lines: &mut Vec<&'a Line>, own: &'a [Line]) -> Result<(), AllocError>
    ensures { OnOk result (lines_behind lines.new.items ≡ lines_behind lines.old.items ++ own.now) }
{
    for line in own {
        lines.push(line)?;
    }
    Ok(())
}

#[cycle(blocks)]
fn push_block<'a>(lines: &mut Vec<&'a Line>, block: &'a [Statement]) -> Result<(), AllocError>
    ensures { OnOk result (lines_behind lines.new.items
        ≡ lines_behind lines.old.items ++ lines_of block.now) }
{
    for statement in block {
        push_statement(lines, statement)?;
    }
    Ok(())
}

#[cycle(blocks)]
fn push_branch<'a>(lines: &mut Vec<&'a Line>, branch: &'a Branch) -> Result<(), AllocError>
    ensures { OnOk result (lines_behind lines.new.items
        ≡ lines_behind lines.old.items ++ lines_in_branch branch.now) }
{
    push_block(lines, branch.block.as_slice())
}

#[cycle(blocks)]
fn push_branches<'a>(lines: &mut Vec<&'a Line>, branches: &'a [Branch]) -> Result<(), AllocError>
    ensures { OnOk result (lines_behind lines.new.items
        ≡ lines_behind lines.old.items ++ flat_map lines_in_branch branches.now) }
{
    for branch in branches {
        push_branch(lines, branch)?;
    }
    Ok(())
}

#[cycle(blocks)]
fn push_statement<'a>(lines: &mut Vec<&'a Line>, statement: &'a Statement) -> Result<(), AllocError>
    ensures { OnOk result (lines_behind lines.new.items
        ≡ lines_behind lines.old.items ++ lines_in statement.now) }
{
    match statement {
        Statement::Update(_, own) => push_lines(lines, own.as_slice()),
        Statement::If(branches, otherwise) => {
            push_branches(lines, branches.as_slice())?;
            match otherwise {
                Some(block) => push_block(lines, block.as_slice()),
                None => Ok(()),
            }
        }
        Statement::Transaction(_, block) => push_block(lines, block.as_slice()),
        Statement::Word(_, _) => Ok(()),
    }
}

fn lines_of<'a>(alloc: Global, policy: &'a Policy) -> Result<Vec<&'a Line>, AllocError>
    ensures { IfOk result (λ lines. lines_behind lines.items ≡ lines_of policy.now) }
{
    let mut lines = Vec::new(alloc);
    push_block(&mut lines, policy.statements().as_slice())?;
    Ok(lines)
}

// ---- their numbers

fn push_number(
    numbers: &mut Vec<usize>,
    list: List,
    id: AttrId,
    line: &Line,
) -> Result<(), AllocError>
    ensures { OnOk result (numbers.new.items
        ≡ numbers.old.items ++ number_if (edits list id line.now) line.now.line) }
{
    if edits(list, id, line) {
        numbers.push(line.line)?;
    }
    Ok(())
}

fn line_numbers(
    alloc: Global,
    lines: &[&Line],
    list: List,
    id: AttrId,
) -> Result<Vec<usize>, AllocError>
    ensures { IfOk result (λ numbers. numbers.items
        ≡ line_numbers list id (lines_behind lines.now)) }
{
    let mut numbers = Vec::new(alloc);
    let mut rest = lines;
    while let [line, others @ ..] = rest {
        push_number(&mut numbers, list, id, line)?;
        rest = others;
    }
    Ok(numbers)
}

fn has_any(numbers: &[usize]) -> bool
    ensures { result ≡ has_any numbers.now }
{
    match numbers {
        [] => false,
        [_, ..] => true,
    }
}

fn set_of(alloc: Global, numbers: &[usize]) -> Result<HashSet<usize>, AllocError>
    ensures { IfOk result (λ set. (n : ℕ) → has_number set n ≡ is_one_of numbers.now n) }
{
    let mut lines = HashSet::new(alloc);
    for number in numbers {
        lines.insert(*number)?;
    }
    Ok(lines)
}

// ---- what they make

// What the line makes, if it edits the attribute with a value that is written out.
fn effect_of(
    alloc: Global,
    list: List,
    id: AttrId,
    line: &Line,
) -> Result<Option<Effect>, AllocError>
    ensures { IfOk result (λ effect. IfSome effect (λ own. IsEffectOf list id own line.now)) }
{
    if !edits(list, id, line) {
        return Ok(None);
    }
    match &line.source {
        Source::Literal(value) => Ok(Some(Effect {
            op: line.op,
            selection: line.selection,
            value: value.copy(alloc)?,
        })),
        _ => Ok(None),
    }
}

// What is kept of a line's number: of a second line with the number that its effect is not told.
fn put_effect(
    effects: &mut HashMap<usize, Option<Effect>>,
    line: usize,
    effect: Option<Effect>,
) -> Result<(), AllocError>
    ensures { OnOk result ((n : ℕ) → effect_in effects.new n
        ≡ kept_of line effect (effect_in effects.old line) (effect_in effects.old n) n) }
{
    let kept = if effects.contains_key(&line) {
        None
    } else {
        effect
    };
    effects.insert(line, kept)?;
    Ok(())
}

fn effects_of(
    alloc: Global,
    lines: &[&Line],
    list: List,
    id: AttrId,
) -> Result<HashMap<usize, Option<Effect>>, AllocError>
    ensures { IfOk result (λ effects.
        AreEffects list id (lines_behind lines.now) (effect_in effects)) }
{
    let mut effects = HashMap::new(alloc);
    for line in lines {
        let effect = effect_of(alloc, list, id, line)?;
        put_effect(&mut effects, line.line, effect)?;
    }
    Ok(effects)
}

impl EditedLines {
    /// Those of a policy.
    pub fn new(
        alloc: Global,
        policy: &Policy,
        list: List,
        id: AttrId,
    ) -> Result<EditedLines, AllocError>
        ensures numbers { IfOk result (AreOf (line_numbers list id (lines_of policy.now))) }
        ensures effects { IfOk result (λ edited.
            AreEffects list id (lines_of policy.now) (effect_at edited)) }
    {
        let lines = lines_of(alloc, policy)?;
        let numbers = line_numbers(alloc, lines.as_slice(), list, id)?;
        let effects = effects_of(alloc, lines.as_slice(), list, id)?;
        Ok(EditedLines {
            lines: set_of(alloc, numbers.as_slice())?,
            any: has_any(numbers.as_slice()),
            effects,
        })
    }

    /// Whether a step of this kind may change the instances.
    pub fn may_change(&self, label: Label) -> bool
        ensures { result ≡ may_change_by self.now label }
    {
        match label {
            Label::Line(line) => self.lines.contains(&line),
            Label::Failed(_, _) | Label::Rollback(_) => self.any,
            Label::Start | Label::If(_, _) | Label::Word(_) | Label::Enter(_) | Label::Commit(_) =>
                false,
        }
    }

    /// What a step of this kind makes of the instances, where the policy's text tells it.
    pub fn effect(&self, label: Label) -> Option<&Effect>
        ensures { option_copied result ≡ told_effect (effect_at self.now) label }
    {
        match label {
            Label::Line(line) => match self.effects.get(&line) {
                Some(Some(effect)) => Some(effect),
                Some(None) | None => None,
            },
            _ => None,
        }
    }
}
