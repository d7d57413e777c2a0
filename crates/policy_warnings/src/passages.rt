//! Which lines a policy is warned of by how many instances of an attribute there are.

ghost use Rattle.std.specs.Prelude.{◌≡◌, ◌++◌, ◌∷◌, [], IfOk, OnOk, false, map};
ghost use Rattle.std.specs.List.{flat_map, list_any};
ghost use Rattle.std.specs.Option.{option_map_or};
ghost use Rattle.policy_warnings.specs.Counts.{either_way, where_true};
ghost use Rattle.policy_warnings.specs.Mentions.{means_same};
ghost use Rattle.policy_warnings.specs.Passages.{Passage, after_lines, asked_by, asked_in, asked_in_branch, block_passage, chain, choice, copied_from, count_warnings, counted_at, counted_in_lines, counted_of, edited_by, has_several, may_lack, passage, update_passage, with_mention, with_mentions, word_passage};

use crate::counts::{Counts, either_way, where_false, where_true};
use crate::mentions::Mention;
use crate::warnings::{Reason, Warning, is_replacement, push_if};
use avp_unlang::{Branch, Code, Line, Source, Statement};
use std::alloc::{AllocError, Global};

// What is known after the branches of a chain, and where none of them is taken.
#[derive(Clone, Copy)]
struct Ways {
    after: Option<Counts>,
    rest: Option<Counts>,
}

fn edited_by(line: &Line) -> Mention
    ensures { result ≡ edited_by line.now }
{
    Mention::selected(line.list, line.id, line.selection)
}

fn copied_from(source: &Source) -> Option<Mention>
    ensures { result ≡ copied_from source.now }
{
    match source {
        Source::Instance(list, id) => Some(Mention::whole(*list, *id)),
        Source::Tagged(list, id, selection, _, _) => {
            Some(Mention::selected(*list, *id, *selection))
        }
        Source::Literal(_) | Source::Text(..) | Source::WiderText(..) | Source::Any => None,
    }
}

fn is_copied(mention: Mention, source: &Source) -> bool
    ensures { result ≡ option_map_or (means_same mention) (copied_from source.now) false }
{
    match copied_from(source) {
        Some(other) => mention.means_same(other),
        None => false,
    }
}

fn has_several(mention: Mention, line: &Line, counts: Counts) -> bool
    ensures { result ≡ has_several mention line.now counts }
{
    is_replacement(line.op) && mention.means_same(edited_by(line)) && counts.most.is_several()
}

fn may_lack(mention: Mention, line: &Line, counts: Counts) -> bool
    ensures { result ≡ may_lack mention line.now counts }
{
    is_copied(mention, &line.source) && !counts.is_certain
}

fn push_counted(
    warnings: &mut Vec<Warning>,
    mention: Mention,
    line: &Line,
    counts: Counts,
) -> Result<(), AllocError>
    ensures { OnOk result (warnings.new.items
        ≡ warnings.old.items ++ counted_at mention line.now counts) }
{
    let several = has_several(mention, line, counts);
    push_if(warnings, several, line.line, Reason::SeveralInstances)?;
    let lacking = may_lack(mention, line, counts);
    push_if(warnings, lacking, line.line, Reason::AbsentSource)
}

fn pass_lines(
    warnings: &mut Vec<Warning>,
    mention: Mention,
    lines: &[Line],
    before: Counts,
) -> Result<Counts, AllocError>
    ensures after { IfOk result (λ after. after ≡ after_lines mention lines.now before) }
    ensures warned { OnOk result (warnings.new.items
        ≡ warnings.old.items ++ counted_in_lines mention lines.now before) }
{
    let mut counts = before;
    for line in lines {
        push_counted(warnings, mention, line, counts)?;
        counts = counts.after_line(mention, line);
    }
    Ok(counts)
}

fn pass_update(
    warnings: &mut Vec<Warning>,
    mention: Mention,
    lines: &[Line],
    known: Option<Counts>,
) -> Result<Option<Counts>, AllocError>
    ensures after { IfOk result (λ after.
        after ≡ (update_passage mention lines.now).after known) }
    ensures warned { OnOk result (warnings.new.items
        ≡ warnings.old.items ++ (update_passage mention lines.now).warned known) }
{
    match known {
        Some(counts) => Ok(Some(pass_lines(warnings, mention, lines, counts)?)),
        None => Ok(None),
    }
}

fn pass_word(word: Code, known: Option<Counts>) -> Option<Counts>
    ensures { result ≡ (word_passage word).after known }
{
    match word {
        Code::Ok | Code::Noop | Code::Updated => known,
        Code::Fail | Code::Reject => None,
    }
}

#[cycle(passages)]
fn pass_block(
    warnings: &mut Vec<Warning>,
    mention: Mention,
    block: &[Statement],
    known: Option<Counts>,
) -> Result<Option<Counts>, AllocError>
    ensures after { IfOk result (λ after.
        after ≡ (block_passage mention block.now).after known) }
    ensures warned { OnOk result (warnings.new.items
        ≡ warnings.old.items ++ (block_passage mention block.now).warned known) }
{
    let mut after = known;
    for statement in block {
        after = pass_statement(warnings, mention, statement, after)?;
    }
    Ok(after)
}

#[cycle(passages)]
fn pass_branch(
    warnings: &mut Vec<Warning>,
    mention: Mention,
    branch: &Branch,
    known: Option<Counts>,
) -> Result<Option<Counts>, AllocError>
    ensures after { IfOk result (λ after.
        after ≡ (choice mention branch.now).block.after
        (where_true mention (choice mention branch.now).cond known)) }
    ensures warned { OnOk result (warnings.new.items
        ≡ warnings.old.items ++ (choice mention branch.now).block.warned
        (where_true mention (choice mention branch.now).cond known)) }
{
    let asked = where_true(mention, &branch.cond, known);
    pass_block(warnings, mention, branch.block.as_slice(), asked)
}

#[cycle(passages)]
fn pass_branches(
    warnings: &mut Vec<Warning>,
    mention: Mention,
    branches: &[Branch],
    known: Option<Counts>,
) -> Result<Ways, AllocError>
    ensures after { IfOk result (λ ways. (otherwise : Passage)
        → either_way ways.after (otherwise.after ways.rest)
        ≡ (chain mention (map (choice mention) branches.now) otherwise).after known) }
    ensures warned { IfOk result (λ ways. (otherwise : Passage)
        → warnings.new.items ++ otherwise.warned ways.rest
        ≡ warnings.old.items
        ++ (chain mention (map (choice mention) branches.now) otherwise).warned known) }
{
    let mut after = None;
    let mut rest = known;
    for branch in branches {
        let taken = pass_branch(warnings, mention, branch, rest)?;
        after = either_way(after, taken);
        rest = where_false(mention, &branch.cond, rest);
    }
    Ok(Ways { after, rest })
}

#[cycle(passages)]
fn pass_statement(
    warnings: &mut Vec<Warning>,
    mention: Mention,
    statement: &Statement,
    known: Option<Counts>,
) -> Result<Option<Counts>, AllocError>
    ensures after { IfOk result (λ after.
        after ≡ (passage mention statement.now).after known) }
    ensures warned { OnOk result (warnings.new.items
        ≡ warnings.old.items ++ (passage mention statement.now).warned known) }
{
    match statement {
        Statement::Update(_, lines) => pass_update(warnings, mention, lines.as_slice(), known),
        Statement::If(branches, otherwise) => {
            let ways = pass_branches(warnings, mention, branches.as_slice(), known)?;
            match otherwise {
                Some(block) => {
                    let last = pass_block(warnings, mention, block.as_slice(), ways.rest)?;
                    Ok(either_way(ways.after, last))
                }
                None => Ok(either_way(ways.after, ways.rest)),
            }
        }
        Statement::Transaction(_, block) => {
            let mut unsaid = Vec::new(*warnings.allocator());
            let kept = pass_block(&mut unsaid, mention, block.as_slice(), known)?;
            Ok(either_way(known, kept))
        }
        Statement::Word(_, word) => Ok(pass_word(*word, known)),
    }
}

fn push_asked_by(asked: &mut Vec<Mention>, line: &Line) -> Result<(), AllocError>
    ensures { OnOk result (asked.new.items ≡ asked.old.items ++ asked_by line.now) }
{
    if is_replacement(line.op) {
        asked.push(edited_by(line))?;
    }
    if let Some(mention) = copied_from(&line.source) {
        asked.push(mention)?;
    }
    Ok(())
}

fn push_asked_by_lines(asked: &mut Vec<Mention>, lines: &[Line]) -> Result<(), AllocError>
    ensures { OnOk result (asked.new.items ≡ asked.old.items ++ flat_map asked_by lines.now) }
{
    for line in lines {
        push_asked_by(asked, line)?;
    }
    Ok(())
}

#[cycle(asking)]
fn push_asked_in_block(asked: &mut Vec<Mention>, block: &[Statement]) -> Result<(), AllocError>
    ensures { OnOk result (asked.new.items ≡ asked.old.items ++ flat_map asked_in block.now) }
{
    for statement in block {
        push_asked_in(asked, statement)?;
    }
    Ok(())
}

#[cycle(asking)]
fn push_asked_in_branch(asked: &mut Vec<Mention>, branch: &Branch) -> Result<(), AllocError>
    ensures { OnOk result (asked.new.items
        ≡ asked.old.items ++ asked_in_branch branch.now) }
{
    push_asked_in_block(asked, branch.block.as_slice())
}

#[cycle(asking)]
fn push_asked_in_branches(asked: &mut Vec<Mention>, branches: &[Branch]) -> Result<(), AllocError>
    ensures { OnOk result (asked.new.items
        ≡ asked.old.items ++ flat_map asked_in_branch branches.now) }
{
    for branch in branches {
        push_asked_in_branch(asked, branch)?;
    }
    Ok(())
}

#[cycle(asking)]
fn push_asked_in(asked: &mut Vec<Mention>, statement: &Statement) -> Result<(), AllocError>
    ensures { OnOk result (asked.new.items ≡ asked.old.items ++ asked_in statement.now) }
{
    match statement {
        Statement::Update(_, lines) => push_asked_by_lines(asked, lines.as_slice()),
        Statement::If(branches, otherwise) => {
            push_asked_in_branches(asked, branches.as_slice())?;
            match otherwise {
                Some(block) => push_asked_in_block(asked, block.as_slice()),
                None => Ok(()),
            }
        }
        Statement::Transaction(_, block) => push_asked_in_block(asked, block.as_slice()),
        Statement::Word(_, _) => Ok(()),
    }
}

fn is_among(mention: Mention, mentions: &[Mention]) -> bool
    ensures { result ≡ list_any (means_same mention) mentions.now }
{
    mentions.iter().any(|other| mention.means_same(*other))
}

fn with_mention(mentions: &mut Vec<Mention>, mention: Mention) -> Result<(), AllocError>
    ensures { OnOk result (mentions.new.items ≡ with_mention mentions.old.items mention) }
{
    if !is_among(mention, mentions) {
        mentions.push(mention)?;
    }
    Ok(())
}

// Each of these once.
fn with_mentions(alloc: Global, asked: &[Mention]) -> Result<Vec<Mention>, AllocError>
    ensures { IfOk result (λ mentions. mentions.items ≡ with_mentions [] asked.now) }
{
    let mut mentions = Vec::new(alloc);
    for mention in asked {
        with_mention(&mut mentions, *mention)?;
    }
    Ok(mentions)
}

fn push_counted_of(
    warnings: &mut Vec<Warning>,
    statements: &[Statement],
    mention: Mention,
) -> Result<(), AllocError>
    ensures { OnOk result (warnings.new.items
        ≡ warnings.old.items ++ counted_of statements.now mention) }
{
    let start = Some(Counts::at_start(mention));
    pass_block(warnings, mention, statements, start)?;
    Ok(())
}

fn push_counted_of_each(
    warnings: &mut Vec<Warning>,
    statements: &[Statement],
    mentions: &[Mention],
) -> Result<(), AllocError>
    ensures { OnOk result (warnings.new.items
        ≡ warnings.old.items ++ flat_map (counted_of statements.now) mentions.now) }
{
    for mention in mentions {
        push_counted_of(warnings, statements, *mention)?;
    }
    Ok(())
}

/// What statements are warned of by how many instances of an attribute there are: for each of the attributes that an
/// update line asks for, in the order of their text.
pub fn count_warnings(alloc: Global, statements: &[Statement]) -> Result<Vec<Warning>, AllocError>
    ensures { IfOk result (λ warnings. warnings.items ≡ count_warnings statements.now) }
{
    let mut asked = Vec::new(alloc);
    push_asked_in_block(&mut asked, statements)?;
    let mentions = with_mentions(alloc, &asked)?;
    let mut warnings = Vec::new(alloc);
    push_counted_of_each(&mut warnings, statements, &mentions)?;
    Ok(warnings)
}
