//! Which policies look at what was captured.

ghost use Rattle.std.specs.Prelude.{◌≡◌};
ghost use Rattle.std.specs.List.{list_any};
ghost use Rattle.avp_unlang.specs.CaptureUse.{branch_uses_captures, branches_use_captures, line_uses_captures, statement_uses_captures, uses_captures};
ghost use Rattle.avp_unlang.specs.Evaluations.{cond_uses_captures, is_capture, side_has_captures};

use crate::tree::{Branch, Cond, Line, Part, Source, Statement, TextSide};

fn has_captures(parts: &[Part]) -> bool
    ensures { result ≡ list_any is_capture parts.now }
{
    parts.iter().any(|part| matches!(part, Part::Capture(_)))
}

fn side_has_captures(side: &TextSide) -> bool
    ensures { result ≡ side_has_captures side.now }
{
    match side {
        TextSide::Text(parts) => has_captures(parts.as_slice()),
        TextSide::Instance(..) => false,
    }
}

fn line_uses_captures(line: &Line) -> bool
    ensures { result ≡ line_uses_captures line.now }
{
    match &line.source {
        Source::Text(_, parts) => has_captures(parts.as_slice()),
        Source::WiderText(_, _, parts) => has_captures(parts.as_slice()),
        Source::Literal(_) | Source::Instance(..) | Source::Tagged(..) | Source::Any => false,
    }
}

fn lines_use_captures(lines: &[Line]) -> bool
    ensures { result ≡ list_any line_uses_captures lines.now }
{
    lines.iter().any(|line| line_uses_captures(line))
}

#[cycle(conds)]
fn any_cond_uses_captures(conds: &[Cond]) -> bool
    ensures { result ≡ list_any cond_uses_captures conds.now }
{
    for cond in conds {
        if cond_uses_captures(cond) {
            return true;
        }
    }
    false
}

#[cycle(conds)]
#[tactic(auto, using(crate::proofs::UsedCaptures::uses_any, crate::proofs::UsedCaptures::uses_all, crate::proofs::UsedCaptures::uses_not, crate::proofs::UsedCaptures::uses_last, crate::proofs::UsedCaptures::uses_present, crate::proofs::UsedCaptures::uses_present_selected, crate::proofs::UsedCaptures::uses_compare, crate::proofs::UsedCaptures::uses_compare_meant, crate::proofs::UsedCaptures::uses_match, crate::proofs::UsedCaptures::uses_compare_texts, crate::proofs::UsedCaptures::uses_match_text, crate::proofs::UsedCaptures::uses_match_group, crate::proofs::UsedCaptures::uses_captured))]
fn cond_uses_captures(cond: &Cond) -> bool
    ensures { result ≡ cond_uses_captures cond.now }
{
    match cond {
        Cond::Any(conds) => any_cond_uses_captures(conds.as_slice()),
        Cond::All(conds) => any_cond_uses_captures(conds.as_slice()),
        Cond::Not(cond) => cond_uses_captures(cond.get()),
        Cond::Captured(_) | Cond::MatchGroup(_) => true,
        Cond::CompareTexts(comparison) => {
            side_has_captures(&comparison.left) || has_captures(comparison.right.as_slice())
        }
        Cond::Last(_)
        | Cond::Present(..)
        | Cond::PresentSelected(..)
        | Cond::Compare(_)
        | Cond::CompareMeant(_)
        | Cond::Match(_)
        | Cond::MatchText(_) => false,
    }
}

#[cycle(blocks)]
fn branches_use_captures(branches: &[Branch]) -> bool
    ensures { result ≡ branches_use_captures branches.now }
{
    for branch in branches {
        if branch_uses_captures(branch) {
            return true;
        }
    }
    false
}

#[cycle(blocks)]
#[tactic(auto, using(crate::proofs::UsedCaptures::uses_Branch))]
fn branch_uses_captures(branch: &Branch) -> bool
    ensures { result ≡ branch_uses_captures branch.now }
{
    cond_uses_captures(&branch.cond) || uses_captures(branch.block.as_slice())
}

#[cycle(blocks)]
#[tactic(auto, using(crate::proofs::UsedCaptures::uses_Update, crate::proofs::UsedCaptures::uses_If, crate::proofs::UsedCaptures::uses_Transaction, crate::proofs::UsedCaptures::uses_Word))]
fn statement_uses_captures(statement: &Statement) -> bool
    ensures { result ≡ statement_uses_captures statement.now }
{
    match statement {
        Statement::Update(_, lines) => lines_use_captures(lines.as_slice()),
        Statement::If(branches, otherwise) => {
            if branches_use_captures(branches.as_slice()) {
                return true;
            }
            match otherwise {
                None => false,
                Some(block) => uses_captures(block.as_slice()),
            }
        }
        Statement::Transaction(_, block) => uses_captures(block.as_slice()),
        Statement::Word(..) => false,
    }
}

/// Whether some of these statements look at what was captured: in a text or in a condition.
#[cycle(blocks)]
pub(crate) fn uses_captures(statements: &[Statement]) -> bool
    ensures { result ≡ uses_captures statements.now }
{
    for statement in statements {
        if statement_uses_captures(statement) {
            return true;
        }
    }
    false
}
