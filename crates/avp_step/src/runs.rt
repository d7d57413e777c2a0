//! Runs to the end that keep what they search with.

ghost use Rattle.std.specs.Prelude.{◌≡◌, IfOk, IsTrue};
ghost use Rattle.avp_lists.specs.History.{present};
ghost use Rattle.avp_unlang.specs.Meaning.{meaning_of};
ghost use Rattle.avp_unlang.specs.PolicyPatterns.{is_among, policy_patterns_pass};
ghost use Rattle.avp_unlang.specs.Resolutions.{StateFits};
ghost use Rattle.avp_unlang.specs.Suiting.{IsSpelled};
ghost use Rattle.avp_step.specs.Searches.{with_room_for};

use crate::machines::Machine;
use crate::marks::START;
use crate::searches::Searches;
use avp_dict::Dictionary;
use avp_lists::Store;
use avp_unlang::{Code, Policy, size};
use std::alloc::{AllocError, Global};

/// What a run leaves: its store, whose present lists are the last, the last code, whether it was stopped, and what it
/// searched with.
#[derive(Drop)]
pub struct Ended<'p, S: Store> {
    pub store: S,
    pub code: Code,
    pub stopped: bool,
    pub searches: Searches<'p>,
}

/// Runs a policy to its end, as [`run`](crate::run) does, with what an earlier run searched with. A refusal gives the
/// store and that up.
///
/// ```rust
/// let policy = read_policy(
///     alloc,
///     dictionary,
///     b"update reply { Session-Timeout := 600 }",
/// )?;
/// let store = SlotStore::new(alloc, Vec::new(alloc), Vec::new(alloc), Vec::new(alloc))?;
/// let searches = Searches::new(alloc, policy.patterns())?;
/// let ended = run_with(alloc, dictionary, &policy, searches, store)?;
/// assert_eq!(rt; (ended.code, ended.stopped), (Code::Ok, false));
/// ```
pub fn run_with<'p, S: Store>(
    alloc: Global,
    dictionary: &Dictionary,
    policy: &Policy,
    searches: Searches<'p>,
    store: S,
) -> Result<Ended<'p, S>, AllocError>
    requires policy { IsSpelled dictionary.now policy.now }
    requires passes { IsTrue (policy_patterns_pass (is_among searches.patterns) policy.now) }
    requires store { StateFits dictionary.now (present (S.history store)) }
    ensures ends { IfOk result (λ r.
        record { state = present (S.history r.store); code = r.code; stopped = r.stopped }
        ≡ meaning_of dictionary.now policy.now (present (S.history store)) Code.Ok) }
    ensures fits { IfOk result (λ r.
        StateFits dictionary.now (present (S.history r.store))) }
    ensures kept { IfOk result (λ r. r.searches ≡ with_room_for policy.now searches.entry) }
{
    dictionary.is_sound();
    let statements = policy.statements().as_slice();
    let (size, keeps) = (size(policy), policy.uses_captures());
    let mut machine = match Machine::new(
        alloc, dictionary, statements, searches, keeps, store, size,
    ) {
        Ok(machine) => machine,
        Err((_, refused)) => return Err(refused),
    };
    let last = machine.run_to_end(START)?;
    let (store, searches) = machine.into_parts();
    Ok(Ended {
        store,
        code: last.code,
        stopped: last.stopped,
        searches,
    })
}
