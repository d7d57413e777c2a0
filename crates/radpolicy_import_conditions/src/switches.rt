//! `switch` as `if`, `elsif` and `else`.

ghost use Rattle.std.specs.Prelude.{◌≡◌, IfOk};
ghost use Rattle.avp_lists.specs.declared.lists.State.{State};
ghost use Rattle.avp_unlang.specs.declared.codes.Code.{Code as TheCode};
ghost use Rattle.radpolicy_import_conditions.specs.Switches.{chosen_case, first_case, is_default, taken_case};
ghost use Rattle.radpolicy_import_conditions.specs.internal.Branches.{branches_of};

use crate::copies::copy_comparison;
use avp_unlang::{Comparison, Cond};
use std::alloc::{AllocError, Global};

/// An `if` or `elsif` that a case becomes.
#[derive(Debug, Drop)]
pub struct SwitchBranch {
    /// The case's place among the cases.
    pub place: usize,
    pub cond: Cond,
}

/// What the cases of a `switch` become.
#[derive(Debug, Drop)]
pub struct SwitchChain {
    pub branches: Vec<SwitchBranch>,
    /// The place of the case that is the block of `else`.
    pub otherwise: Option<usize>,
}

// The place of the first case without a value.
fn default_place(cases: &[Option<Comparison>]) -> Option<usize>
    ensures { result ≡ first_case is_default 0 cases.now }
{
    for (place, case) in cases.iter().enumerate() {
        if case.is_none() {
            return Some(place);
        }
    }
    None
}

fn branches_of(alloc: Global, cases: &[Option<Comparison>]) -> Result<Vec<SwitchBranch>, AllocError>
    ensures { IfOk result (λ branches. branches.items ≡ branches_of 0 cases.now) }
{
    let mut branches = Vec::new(alloc);
    for (place, case) in cases.iter().enumerate() {
        if let Some(comparison) = case {
            let cond = Cond::Compare(copy_comparison(alloc, comparison)?);
            branches.push(SwitchBranch { place, cond })?;
        }
    }
    Ok(branches)
}

/// The chain that takes the case which a server takes, in all lists. A case without a value is the default.
#[tactic(auto, using(crate::proofs::Cases::chain_takes))]
pub fn chain_of(alloc: Global, cases: &[Option<Comparison>]) -> Result<SwitchChain, AllocError>
    ensures { IfOk result (λ chain. (s : State) (c : TheCode) → taken_case chain s c
        ≡ chosen_case cases.now s) }
{
    Ok(SwitchChain {
        branches: branches_of(alloc, cases)?,
        otherwise: default_place(cases),
    })
}
