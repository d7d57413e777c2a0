//! The job that a command line asks for.

ghost use Rattle.std.specs.Prelude.{◌≡◌, IfOk, IfErr};
ghost use Rattle.radpolicy.specs.Plans.{asked_by_job, asked_by_plan};
ghost use Rattle.radpolicy_common.specs.Inputs.{AreUnread, IsHeldBy, IsJobOf, WhereKnown, inputs_of, request_of};

use crate::files::{Unread, read_dictionaries, read_optional};
use crate::inputs::Inputs;
use avp_lists::Octets;
use radpolicy::{Command, Job, Plan};

// The request; a check has none, and standard input is left alone.
fn request_octets<'a, I: Inputs>(inputs: &I, plan: &Plan<'a>) -> Result<Octets, Unread<'a>>
    ensures held { IfOk result (λ octets. WhereKnown (I.contents inputs.now) (λ c.
        IsHeldBy (request_of c plan.now.command plan.now.request) octets)) }
    ensures unread { IfErr result (λ unread. WhereKnown (I.contents inputs.now) (λ c.
        AreUnread (request_of c plan.now.command plan.now.request) unread)) }
{
    match (plan.command, plan.request) {
        (Command::Check, _) => Ok(Octets::from_vec(Vec::new(inputs.allocator()))),
        (_, Some(path)) => inputs.file(path),
        (_, None) => inputs.standard_input(),
    }
}

/// The job of a plan. Its files are read in the order dictionaries, request, policy, secret, script, up to the first
/// that cannot be read.
pub fn job_of<'a, I: Inputs>(inputs: &I, plan: &Plan<'a>) -> Result<Job, Unread<'a>>
    ensures asked { IfOk result (λ job. asked_by_job job ≡ asked_by_plan plan.now) }
    ensures job { IfOk result (λ job. WhereKnown (I.contents inputs.now) (λ c.
        IsJobOf c plan.now job)) }
    ensures unread { IfErr result (λ unread. WhereKnown (I.contents inputs.now) (λ c.
        AreUnread (inputs_of c plan.now) unread)) }
{
    let files = read_dictionaries(inputs, plan.dictionaries.as_slice())?;
    let request = request_octets(inputs, plan)?;
    let policy = read_optional(inputs, plan.policy)?;
    let secret = read_optional(inputs, plan.secret)?;
    let script = read_optional(inputs, plan.script)?;
    Ok(Job {
        command: plan.command,
        files,
        request,
        form: plan.form,
        identifier: plan.identifier,
        authenticator: plan.authenticator,
        policy,
        secret,
        script,
    })
}
