//! Which attributes are secret in a policy.

ghost use Rattle.std.specs.Prelude.{◌≡◌, ◌++◌, IfOk, OnOk};
ghost use Rattle.std.specs.List.{flat_map, list_any};
ghost use Rattle.radpolicy_common.specs.Secrets.{AreSecret, captures_secret, is_among, lines_in, lines_in_branch, lines_of, part_takes, source_takes, statements_of};
ghost use Rattle.radpolicy_common.specs.internal.PolicyLines.{first_secret, is_newly_secret, lines_behind, next_secret};

use crate::matchings::matched_of;
use crate::secret_attributes::{SecretAttributes, has_id};
use avp_lists::AttrId;
use avp_unlang::{Branch, Line, Part, Policy, Source, Statement};
use std::alloc::{AllocError, Global};

// ---- the update lines of a policy

fn push_lines<'a>(lines: &mut Vec<&'a Line>, own: &'a [Line]) -> Result<(), AllocError>
    ensures { OnOk result (lines_behind lines.new.items ≡ lines_behind lines.old.items ++ own.now) }
{
    for line in own {
        lines.push(line)?;
    }
    Ok(())
}

#[cycle(blocks)]
fn push_block<'a>(lines: &mut Vec<&'a Line>, block: &'a [Statement]) -> Result<(), AllocError>
    ensures { OnOk result (lines_behind lines.new.items
        ≡ lines_behind lines.old.items ++ lines_of block.now) }
{
    for statement in block {
        push_statement(lines, statement)?;
    }
    Ok(())
}

#[cycle(blocks)]
fn push_branch<'a>(lines: &mut Vec<&'a Line>, branch: &'a Branch) -> Result<(), AllocError>
    ensures { OnOk result (lines_behind lines.new.items
        ≡ lines_behind lines.old.items ++ lines_in_branch branch.now) }
{
    push_block(lines, branch.block.as_slice())
}

#[cycle(blocks)]
fn push_branches<'a>(lines: &mut Vec<&'a Line>, branches: &'a [Branch]) -> Result<(), AllocError>
    ensures { OnOk result (lines_behind lines.new.items
        ≡ lines_behind lines.old.items ++ flat_map lines_in_branch branches.now) }
{
    for branch in branches {
        push_branch(lines, branch)?;
    }
    Ok(())
}

#[cycle(blocks)]
fn push_statement<'a>(lines: &mut Vec<&'a Line>, statement: &'a Statement) -> Result<(), AllocError>
    ensures { OnOk result (lines_behind lines.new.items
        ≡ lines_behind lines.old.items ++ lines_in statement.now) }
{
    match statement {
        Statement::Update(_, own) => push_lines(lines, own.as_slice()),
        Statement::If(branches, otherwise) => {
            push_branches(lines, branches.as_slice())?;
            match otherwise {
                Some(block) => push_block(lines, block.as_slice()),
                None => Ok(()),
            }
        }
        Statement::Transaction(_, block) => push_block(lines, block.as_slice()),
        Statement::Word(_, _) => Ok(()),
    }
}

fn lines_of<'a>(alloc: Global, policies: &[&'a Policy]) -> Result<Vec<&'a Line>, AllocError>
    ensures { IfOk result (λ lines.
        lines_behind lines.items ≡ lines_of (statements_of policies.now)) }
{
    let mut lines = Vec::new(alloc);
    for policy in policies {
        push_block(&mut lines, policy.statements().as_slice())?;
    }
    Ok(lines)
}

// ---- which of them give secret values

/// Whether an attribute is secret whatever the policy does, or one of these.
pub(crate) fn is_among(attributes: &SecretAttributes<'_>, ids: &[AttrId], id: AttrId) -> bool
    ensures { result ≡ is_among attributes.now ids.now id }
{
    attributes.is_secret_attribute(id) || has_id(ids, id)
}

// Whether one of these is secret whatever the policy does, or one of the others.
fn is_any_among(attributes: &SecretAttributes<'_>, others: &[AttrId], ids: &[AttrId]) -> bool
    ensures { result ≡ list_any (is_among attributes.now others.now) ids.now }
{
    ids.iter().any(|id| is_among(attributes, others, *id))
}

fn part_takes_secret(
    attributes: &SecretAttributes<'_>,
    ids: &[AttrId],
    captured: bool,
    part: &Part,
) -> bool
    ensures { result ≡ part_takes (is_among attributes.now ids.now) captured part.now }
{
    match part {
        Part::Text(_) => false,
        Part::Instance(_, id) | Part::Meant(_, id, _) => is_among(attributes, ids, *id),
        Part::Capture(_) => captured,
    }
}

fn parts_take_secret(
    attributes: &SecretAttributes<'_>,
    ids: &[AttrId],
    captured: bool,
    parts: &[Part],
) -> bool
    ensures { result ≡ list_any (part_takes (is_among attributes.now ids.now) captured) parts.now }
{
    parts
        .iter()
        .any(|part| part_takes_secret(attributes, ids, captured, part))
}

fn source_takes_secret(
    attributes: &SecretAttributes<'_>,
    ids: &[AttrId],
    captured: bool,
    source: &Source,
) -> bool
    ensures { result ≡ source_takes (is_among attributes.now ids.now) captured source.now }
{
    match source {
        Source::Literal(_) | Source::Any => false,
        Source::Text(_, parts) | Source::WiderText(_, _, parts) => {
            parts_take_secret(attributes, ids, captured, parts.as_slice())
        }
        Source::Instance(_, id) | Source::Tagged(_, id, _, _, _) => is_among(attributes, ids, *id),
    }
}

fn is_newly_secret(
    attributes: &SecretAttributes<'_>,
    ids: &[AttrId],
    captured: bool,
    line: &Line,
) -> bool
    ensures { result ≡ is_newly_secret attributes.now ids.now captured line.now }
{
    source_takes_secret(attributes, ids, captured, &line.source)
        && !is_among(attributes, ids, line.id)
}

// An attribute that a line gives a secret value, and that is not yet known to be secret.
fn first_secret(
    attributes: &SecretAttributes<'_>,
    ids: &[AttrId],
    captured: bool,
    lines: &[&Line],
) -> Option<AttrId>
    ensures { result ≡ first_secret attributes.now ids.now captured (lines_behind lines.now) }
{
    let mut rest = lines;
    while let [line, others @ ..] = rest {
        if is_newly_secret(attributes, ids, captured, line) {
            return Some(line.id);
        }
        rest = others;
    }
    None
}

// The same, by the attributes that are compared with patterns.
fn next_secret(
    attributes: &SecretAttributes<'_>,
    matched: &[AttrId],
    ids: &[AttrId],
    lines: &[&Line],
) -> Option<AttrId>
    ensures { result ≡ next_secret attributes.now matched.now ids.now (lines_behind lines.now) }
{
    let captured = is_any_among(attributes, ids, matched);
    first_secret(attributes, ids, captured, lines)
}

/// The attributes that are given, and those to which update lines of the policies give values of secret ones, by `&` or in
/// an expansion and however often in turn, beside those that are secret whatever a policy does ([`is_secret`]). What a
/// comparison with a pattern captures is a value of each attribute that a policy compares with one.
#[tactic(auto, using(crate::proofs::SecretFlows::all_more, crate::proofs::SecretFlows::all_themselves, crate::proofs::SecretFlows::none_is_closed, crate::proofs::SecretFlows::still_least, crate::proofs::SecretFlows::one_fewer))]
pub(crate) fn secret_attributes(
    alloc: Global,
    attributes: &SecretAttributes<'_>,
    given: &[AttrId],
    policies: &[&Policy],
) -> Result<Vec<AttrId>, AllocError>
    ensures { IfOk result (λ ids.
        AreSecret attributes.now given.now (statements_of policies.now) ids.items) }
{
    let lines = lines_of(alloc, policies)?;
    let matched = matched_of(alloc, policies)?;
    let mut ids = Vec::from_slice(alloc, given)?;
    'found: while let Some(id) = next_secret(attributes, &matched, &ids, &lines) {
        ids.push(id)?;
    }
    Ok(ids)
}

/// Whether an attribute that is compared with a pattern is secret, so that what was captured may be.
pub(crate) fn captures_secret(
    alloc: Global,
    attributes: &SecretAttributes<'_>,
    ids: &[AttrId],
    policies: &[&Policy],
) -> Result<bool, AllocError>
    ensures { IfOk result (λ captured.
        captured ≡ captures_secret attributes.now ids.now (statements_of policies.now)) }
{
    let matched = matched_of(alloc, policies)?;
    Ok(is_any_among(attributes, ids, &matched))
}
