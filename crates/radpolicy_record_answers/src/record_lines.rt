//! The lines of policies that changed the answer to a record.

ghost use Rattle.std.specs.Prelude.{◌≡◌, IfOk, Ok, filter, not};
ghost use Rattle.std.specs.Option.{option_copied, option_map};
ghost use Rattle.avp_step.specs.Walk.{Walk, entry};
ghost use Rattle.radpolicy_record_answers.specs.Comparisons.{pairs_of, same_instances};
ghost use Rattle.radpolicy_record_answers.specs.Requests.{started};
ghost use Rattle.radpolicy_record_answers.specs.RecordLines.{differing_ids, differing_in, lines_alone, lines_beside, lines_between, lines_of_replies, lines_of_reply, request_trace, run_trace, same_result};

use crate::captured::Replies;
use crate::comparisons::{Comparison, compared, ids_of, same_code, same_instances, same_stop};
use crate::entries::Entry;
use crate::requests::{RecordRequest, RecordSecret};
use avp_lists::{AttrId, List, Pair, SlotStore, Store};
use avp_packet::Packet;
use avp_step::Stepper;
use radpolicy::{Fault, PreparedPolicy, Secret};
use radpolicy_changing_lines::{Difference, PolicyLine, Runs};
use std::alloc::{AllocError, Global};

// The run of a policy over a request, at its start, if the run begins.
#[tactic(auto, using(crate::proofs::RequestRuns::ran, crate::proofs::RequestRuns::not_begun))]
fn run_trace<'a>(
    alloc: Global,
    policy: &'a PreparedPolicy<'a>,
    secret: Option<&'a Secret<'a>>,
    request: &RecordRequest,
) -> Result<Option<Stepper<'a, SlotStore>>, AllocError>
    ensures { IfOk result (λ run. option_map (λ (walk : Walk). walk.trace) run
        ≡ run_trace (started policy.entry.now (option_copied secret.entry) request.now)) }
{
    match request.start(alloc, policy, secret) {
        Ok(start) => Ok(Some(start.stepper(alloc)?)),
        Err(Fault::Memory) => Err(AllocError),
        Err(_) => Ok(None),
    }
}

// The same, where the request's source may be no client's.
#[tactic(auto, unfolding(crate::specs::RecordLines::request_trace))]
fn request_run<'a>(
    alloc: Global,
    policy: &'a PreparedPolicy<'a>,
    secret: &'a RecordSecret<'a>,
    request: &RecordRequest,
) -> Result<Option<Stepper<'a, SlotStore>>, AllocError>
    ensures { IfOk result (λ run. option_map (λ (walk : Walk). walk.trace) run
        ≡ request_trace policy.entry.now secret.entry.now (Ok request.now)) }
{
    match secret {
        RecordSecret::Known(secret) => run_trace(alloc, policy, Some(secret), request),
        RecordSecret::Unknown => run_trace(alloc, policy, None, request),
        RecordSecret::Missing => Ok(None),
    }
}

/// The run of a policy over a record's request, at its start, if the request is read.
#[tactic(auto, using(crate::proofs::RequestRuns::no_request))]
pub fn run_of<'a>(
    alloc: Global,
    policy: &'a PreparedPolicy<'a>,
    secret: &'a RecordSecret<'a>,
    entry: &Entry,
) -> Result<Option<Stepper<'a, SlotStore>>, AllocError>
    ensures { IfOk result (λ run. option_map (λ (walk : Walk). walk.trace) run
        ≡ request_trace policy.entry.now secret.entry.now entry.now.request) }
{
    match &entry.request {
        Ok(request) => request_run(alloc, policy, secret, request),
        Err(_) => Ok(None),
    }
}

// Adds the attributes whose instances differ.
fn differing_among(
    alloc: Global,
    ids: &[AttrId],
    old: &[&Pair],
    new: &[&Pair],
) -> Result<Vec<AttrId>, AllocError>
    ensures { IfOk result (λ differing. differing.items ≡ filter
        (λ id. not (same_instances (pairs_of old.now) (pairs_of new.now) id)) ids.now) }
{
    let mut differing = Vec::new(alloc);
    for id in ids {
        if !same_instances(alloc, *id, old, new)? {
            differing.push(*id)?;
        }
    }
    Ok(differing)
}

// The attributes whose instances in two lists differ.
fn differing_ids(alloc: Global, old: &[&Pair], new: &[&Pair]) -> Result<Vec<AttrId>, AllocError>
    ensures { IfOk result (λ differing. differing.items
        ≡ differing_ids (pairs_of old.now) (pairs_of new.now)) }
{
    let ids = ids_of(alloc, old, new)?;
    differing_among(alloc, &ids, old, new)
}

// Whether two runs came to the same result where they are, and both are stopped or neither is.
fn same_result(old: &Stepper<'_, SlotStore>, new: &Stepper<'_, SlotStore>) -> bool
    ensures { result ≡ same_result (entry old.now).outcome (entry new.now).outcome }
{
    same_code(old.code(), new.code()) && same_stop(old.stopped(), new.stopped())
}

impl Comparison<'_> {
    // The attributes that differ in a list where two runs are.
    fn differing_in(
        &self,
        alloc: Global,
        list: List,
        old: &Stepper<'_, SlotStore>,
        new: &Stepper<'_, SlotStore>,
    ) -> Result<Vec<AttrId>, AllocError>
        ensures { IfOk result (λ differing. differing.items ≡ differing_in self.now list
            (entry old.now).outcome (entry new.now).outcome) }
    {
        let old_list = old.store().list(list)?;
        let new_list = new.store().list(list)?;
        let old_pairs = compared(alloc, self.ignored, &old_list)?;
        let new_pairs = compared(alloc, self.ignored, &new_list)?;
        differing_ids(alloc, &old_pairs, &new_pairs)
    }

    // The lines to which the difference between two ends of runs goes back.
    fn lines_between<'a>(
        &self,
        alloc: Global,
        new: Stepper<'a, SlotStore>,
        old: Stepper<'a, SlotStore>,
    ) -> Result<Vec<PolicyLine>, AllocError>
        ensures { IfOk result (λ lines.
            lines.items ≡ lines_between self.now new.entry.trace old.entry.trace) }
    {
        let (mut new, mut old) = (new, old);
        new.run_to_end()?;
        old.run_to_end()?;
        let reply = self.differing_in(alloc, List::Reply, &old, &new)?;
        let control = self.differing_in(alloc, List::Control, &old, &new)?;
        let difference = Difference {
            result: !same_result(&old, &new),
            reply: &reply,
            control: &control,
        };
        let runs = Runs {
            new_run: new,
            old_run: Some(old),
        };
        runs.lines_of(alloc, &difference)
    }

    /// The same, where both policies ran.
    pub fn lines_beside<'a>(
        &self,
        alloc: Global,
        new: Option<Stepper<'a, SlotStore>>,
        old: Option<Stepper<'a, SlotStore>>,
    ) -> Result<Vec<PolicyLine>, AllocError>
        ensures { IfOk result (λ lines. lines.items ≡ lines_beside self.now
            (option_map (λ (walk : Walk). walk.trace) new.entry)
            (option_map (λ (walk : Walk). walk.trace) old.entry)) }
    {
        match (new, old) {
            (Some(new), Some(old)) => self.lines_between(alloc, new, old),
            _ => Ok(Vec::new(alloc)),
        }
    }

    // The lines to which the difference between the reply that was captured and the policy's own goes back.
    fn lines_of_reply<'a>(
        &self,
        alloc: Global,
        new: Stepper<'a, SlotStore>,
        captured: &Packet,
        own: &Option<Packet>,
    ) -> Result<Vec<PolicyLine>, AllocError>
        ensures { IfOk result (λ lines.
            lines.items ≡ lines_of_reply self.now new.entry.trace captured.now own.now) }
    {
        let runs = Runs {
            new_run: new,
            old_run: None,
        };
        let Some(own) = own else {
            let difference = Difference {
                result: true,
                reply: &[],
                control: &[],
            };
            return runs.lines_of(alloc, &difference);
        };
        let captured_pairs = self.compared_pairs(alloc, captured.list.as_slice())?;
        let own_pairs = self.compared_pairs(alloc, own.list.as_slice())?;
        let reply = differing_ids(alloc, &captured_pairs, &own_pairs)?;
        let difference = Difference {
            result: captured.code != own.code,
            reply: &reply,
            control: &[],
        };
        runs.lines_of(alloc, &difference)
    }

    /// The same, where the policy ran.
    pub fn lines_alone<'a>(
        &self,
        alloc: Global,
        new: Option<Stepper<'a, SlotStore>>,
        replies: &Replies,
    ) -> Result<Vec<PolicyLine>, AllocError>
        ensures { IfOk result (λ lines. lines.items ≡ lines_alone self.now
            (option_map (λ (walk : Walk). walk.trace) new.entry) replies.now) }
    {
        match (new, replies) {
            (Some(new), Replies::Both { captured, own }) => {
                self.lines_of_reply(alloc, new, captured, own)
            }
            _ => Ok(Vec::new(alloc)),
        }
    }
}
