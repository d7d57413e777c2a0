//! What runs the policies of a replay, on one record after another.

ghost use Rattle.std.specs.Prelude.{◌≡◌};
ghost use Rattle.radpolicy_replay_records.specs.internal.Running.{AreOf, policy_against, policy_beside};

use crate::replays::Replay;
use radpolicy::{PreparedPolicy, Runner};
use radpolicy_record_answers::{Against, Comparison};
use std::alloc::Global;

/// What runs the policy of a replay, and the one with whose answers its own are compared. Where there is none, the
/// second is of the same policy, and runs nothing.
#[derive(Drop)]
pub struct Runners<'p> {
    pub own: Runner<'p>,
    pub beside: Runner<'p>,
}

fn policy_against<'p>(own: &'p PreparedPolicy<'p>, against: &Against<'p>) -> &'p PreparedPolicy<'p>
    ensures { result.now ≡ policy_against own.entry.now against.now }
{
    match against {
        Against::Policy(policy) => *policy,
        Against::Captured => own,
    }
}

fn policy_beside<'p>(
    own: &'p PreparedPolicy<'p>,
    comparison: &Option<Comparison<'p>>,
) -> &'p PreparedPolicy<'p>
    ensures { result.now ≡ policy_beside own.entry.now comparison.now }
{
    match comparison {
        Some(comparison) => policy_against(own, &comparison.against),
        None => own,
    }
}

impl<'p> Runners<'p> {
    /// Those of this replay.
    pub fn of(alloc: Global, replay: &Replay<'p>) -> Runners<'p>
        ensures { AreOf replay.now result }
    {
        Runners {
            own: Runner::new(alloc, replay.policy),
            beside: Runner::new(alloc, policy_beside(replay.policy, &replay.comparison)),
        }
    }
}
