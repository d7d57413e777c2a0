//! A job, answered by its report.

ghost use Rattle.std.specs.Prelude.{All, ◌≡◌, ◌≢◌, ◌⊎◌, ◌<◌, ◌↔◌, None, Ok, Some, true, false, length, IfOk, IfErr, IsErrOf, OnOk};
ghost use Rattle.std.specs.Io.KnownBytes.{Appends};
ghost use Rattle.std.specs.Option.{option_copied};
ghost use Rattle.radpolicy.specs.Faults.{IsPrintedWith, MemoryOr};
ghost use Rattle.radpolicy.specs.JobReports.{IsCheckRefusal, IsCheckReport, IsCheckedPolicyRefusal, IsDictionaryRefusal, IsOpened, IsMakingRefusal, IsOpenRefusal, IsPacketReport, IsPolicy, IsPolicyRefusal, IsRefused, IsReport, IsRequestOrReplyRefusal, IsRunReport, IsScript, IsScriptOrRequestRefusal, IsSizeOf, IsStepReport, IsTooLargePattern, decode_report, dictionary_for, encode_report, opened, policy_of, profile_for, script_of};
ghost use Rattle.radpolicy.specs.Scripts.{IsUnknownWord, script_spelled};
ghost use Rattle.radpolicy.specs.OutcomeReports.{IsOutcomeRefusal, IsOutcomeReport};
ghost use Rattle.radpolicy.specs.Plans.{IsSound, asked_by_job};
ghost use Rattle.radpolicy.specs.ReplyMeaning.{IsRunRead};
ghost use Rattle.radpolicy.specs.Reports.{Report};
ghost use Rattle.radpolicy.specs.Secrets.{secret_for};
ghost use Rattle.radpolicy.specs.Starts.{start_of};
ghost use Rattle.radpolicy.specs.Received.{IsUnreadRequest, request_for};
ghost use Rattle.radpolicy.specs.Replies.{proxy_states};
ghost use Rattle.avp_dict.specs.Sent.{is_clean};
ghost use Rattle.avp_dict.specs.declared.request.faults.LineFault.{LineFault};
ghost use Rattle.avp_unlang.specs.declared.faults.PolicyFault.{PolicyFault};
ghost use Rattle.radpolicy.specs.RefusedPolicies.{AreOne};
ghost use Rattle.radpolicy.specs.Writing.{AppendsFrontOf};
ghost use Rattle.radpolicy.specs.declared.faults.Fault.TheVariants as fault;
ghost use Rattle.radpolicy.specs.declared.faults.Fault.{Fault};
ghost use Rattle.radpolicy.specs.declared.jobs.Command.TheVariants.{Check as TheCheck, Run as TheRun};
ghost use Rattle.radpolicy.specs.declared.jobs.Form.TheVariants.{Hex as InHex};

use crate::faults::Fault;
use crate::jobs::{Command, Job, Outcome};
use crate::outputs::{Output, put_all};
use crate::prepared::PreparedPolicy;
use crate::reports::checks::text_of_check;
use crate::reports::runs::report_of_run;
use crate::reports::texts::{packet_text, push_packet};
use crate::reports::walks::report_of_walk;
use crate::reports::{Report, plain_report};
use crate::requests::request_for;
use crate::scripts::{ScriptWord, read_script};
use crate::secrets::Secret;
use crate::starts::Start;
use avp_dict::Dictionary;
use avp_packet::encode_request;
use avp_unlang::{read_policy, size};
use std::alloc::Global;

// The policy's text.
fn policy_of(job: &Job) -> &[u8]
    ensures { result.now ≡ policy_of job.now }
{
    match &job.policy {
        Some(policy) => policy.as_slice(),
        None => &[],
    }
}

// Reads the dictionary.
fn dictionary_for(alloc: Global, job: &Job) -> Result<Dictionary, Fault>
    requires sound { IsSound (asked_by_job job.now) }
    ensures ok { IfOk result (λ dictionary. dictionary_for job.now ≡ Ok dictionary) }
    ensures noted { IfOk result (λ dictionary.
        All (λ note. note.file < length job.now.files) dictionary.notes) }
    ensures refused { IfErr result (MemoryOr (IsDictionaryRefusal job.now)) }
    ensures printed { IfErr result (IsPrintedWith job.now.files) }
{
    Ok(Dictionary::read(alloc, &job.files)?)
}

// The secret, where the job has one.
fn secret_for(job: &Job) -> Result<Option<Secret<'_>>, Fault>
    ensures ok { IfOk result (λ secret. secret_for job.now ≡ Some secret) }
    ensures there { job.now.secret ≢ None → IfOk result (λ secret. secret ≢ None) }
    ensures refused { IfErr result (λ f. (secret_for job.now ≡ None) × (f ≡ fault.EmptySecret)) }
{
    match &job.secret {
        None => Ok(None),
        Some(file) => Ok(Some(Secret::in_file(file.as_slice())?)),
    }
}

// The dictionary and the secret of a job.
#[derive(Drop)]
struct Opened<'a> {
    dictionary: Dictionary,
    secret: Option<Secret<'a>>,
}

// Reads the dictionary and the secret.
fn opened_for<'a>(alloc: Global, job: &'a Job) -> Result<Opened<'a>, Fault>
    requires sound { IsSound (asked_by_job job.now) }
    ensures ok { IfOk result (λ o.
        IsOpened job.now (opened o.dictionary o.secret)) }
    ensures there { job.now.secret ≢ None → IfOk result (λ o. o.secret ≢ None) }
    ensures refused { IfErr result (MemoryOr (IsOpenRefusal job.now)) }
    ensures printed { IfErr result (IsPrintedWith job.now.files) }
{
    let dictionary = dictionary_for(alloc, job)?;
    let secret = secret_for(job)?;
    Ok(Opened { dictionary, secret })
}

// Reads the policy.
fn policy_for<'a>(
    alloc: Global,
    dictionary: &'a Dictionary,
    secret: Option<&Secret<'_>>,
    job: &Job,
) -> Result<PreparedPolicy<'a>, Fault>
    requires opened { IsOpened job.now (opened dictionary.now (option_copied secret)) }
    ensures ok { IfOk result (λ policy. IsPolicy job.now dictionary.now policy.statements) }
    ensures dictionary { IfOk result (λ policy. policy.dictionary ≡ dictionary.now) }
    ensures profile { IfOk result (λ policy. policy.profile ≡ profile_for job.now) }
    ensures refused { IfErr result (MemoryOr (IsPolicyRefusal job.now)) }
    ensures printed { IfErr result (IsPrintedWith job.now.files) }
{
    PreparedPolicy::read(alloc, dictionary, policy_of(job))
}

// What the job's run begins with.
fn start_for<'a>(
    alloc: Global,
    prepared: &'a PreparedPolicy<'a>,
    secret: Option<&'a Secret<'a>>,
    job: &Job,
) -> Result<Start<'a>, Fault>
    requires hex { job.now.form ≡ InHex → secret ≢ None }
    ensures received { IfOk result (λ start. request_for prepared.entry.now.dictionary
        (option_copied secret.entry) job.now ≡ Ok start.request) }
    ensures start { IfOk result (λ start. start ≡ start_of prepared.entry.now
        (option_copied secret.entry) job.now.form start.request) }
    ensures proxies { IfOk result (λ start. is_clean (proxy_states start.request)
        prepared.entry.now.dictionary ≡ true) }
    ensures refused { IfErr result (λ f. (f ≡ fault.Memory)
        ⊎ IsUnreadRequest prepared.entry.now.dictionary job.now f
        (request_for prepared.entry.now.dictionary (option_copied secret.entry) job.now)) }
    ensures printed { IfErr result (IsPrintedWith job.now.files) }
{
    let request = request_for(alloc, prepared.dictionary(), secret, job)?;
    Ok(Start::new(alloc, prepared, secret, job.form, request))
}

// The report of a run, in the order in which it is refused.
fn run_report_of(
    alloc: Global,
    dictionary: &Dictionary,
    secret: Option<&Secret<'_>>,
    job: &Job,
) -> Result<Report, Fault>
    requires opened { IsOpened job.now (opened dictionary.now (option_copied secret)) }
    requires hex { job.now.form ≡ InHex → secret ≢ None }
    ensures ok { IfOk result (IsRunReport job.now) }
    ensures read { OnOk result (IsRunRead job.now) }
    ensures refused { IfErr result (MemoryOr (λ f.
        IsPolicyRefusal job.now f ⊎ IsRequestOrReplyRefusal job.now f)) }
    ensures printed { IfErr result (IsPrintedWith job.now.files) }
{
    let policy = policy_for(alloc, dictionary, secret, job)?;
    let start = start_for(alloc, &policy, secret, job)?;
    report_of_run(alloc, start)
}

// The script's text.
fn script_of(job: &Job) -> &[u8]
    ensures { result.now ≡ script_of job.now }
{
    match &job.script {
        Some(script) => script.as_slice(),
        None => &[],
    }
}

// Reads the script.
fn script_for(alloc: Global, job: &Job) -> Result<Vec<ScriptWord>, Fault>
    ensures ok { IfOk result (λ script. IsScript job.now script.items) }
    ensures refused { IfErr result (λ f. (f ≡ fault.Memory)
        ⊎ IsUnknownWord f (script_spelled (script_of job.now))) }
    ensures printed { IfErr result (IsPrintedWith job.now.files) }
{
    read_script(alloc, script_of(job))
}

// The report of a walk, in the order in which it is refused.
fn step_report_of(
    alloc: Global,
    dictionary: &Dictionary,
    secret: Option<&Secret<'_>>,
    job: &Job,
) -> Result<Report, Fault>
    requires opened { IsOpened job.now (opened dictionary.now (option_copied secret)) }
    requires hex { job.now.form ≡ InHex → secret ≢ None }
    ensures ok { IfOk result (IsStepReport job.now) }
    ensures refused { IfErr result (MemoryOr (λ f.
        IsPolicyRefusal job.now f ⊎ IsScriptOrRequestRefusal job.now f)) }
    ensures printed { IfErr result (IsPrintedWith job.now.files) }
{
    let policy = policy_for(alloc, dictionary, secret, job)?;
    let script = script_for(alloc, job)?;
    let start = start_for(alloc, &policy, secret, job)?;
    Ok(report_of_walk(alloc, &script, start)?)
}

// The report of `encode`, in the order in which it is refused.
fn encode_report_of(
    alloc: Global,
    dictionary: &Dictionary,
    secret: &Secret<'_>,
    job: &Job,
) -> Result<Report, Fault>
    requires opened { IsOpened job.now (opened dictionary.now (Some secret.now)) }
    ensures ok { IfOk result (IsPacketReport encode_report job.now) }
    ensures refused { IfErr result (MemoryOr (IsMakingRefusal encode_report job.now)) }
    ensures printed { IfErr result (IsPrintedWith job.now.files) }
{
    let request = request_for(alloc, dictionary, Some(secret), job)?;
    let octets = encode_request(
        alloc,
        dictionary,
        secret.as_slice(),
        request.code,
        request.id,
        &request.authenticator,
        request.list.as_slice(),
    )?;
    let mut text = Vec::new(alloc);
    push_packet(&mut text, &octets)?;
    Ok(plain_report(text))
}

// The report of `decode`, in the order in which it is refused.
fn decode_report_of(
    alloc: Global,
    dictionary: &Dictionary,
    secret: &Secret<'_>,
    job: &Job,
) -> Result<Report, Fault>
    requires opened { IsOpened job.now (opened dictionary.now (Some secret.now)) }
    ensures ok { IfOk result (IsPacketReport decode_report job.now) }
    ensures refused { IfErr result (MemoryOr (IsMakingRefusal decode_report job.now)) }
    ensures printed { IfErr result (IsPrintedWith job.now.files) }
{
    let request = request_for(alloc, dictionary, Some(secret), job)?;
    Ok(plain_report(packet_text(alloc, dictionary, &request)?))
}

// The report of a job that reads a request, by its command.
fn request_report_of(alloc: Global, job: &Job) -> Result<Report, Fault>
    requires sound { IsSound (asked_by_job job.now) }
    requires command { job.now.command ≢ TheCheck }
    ensures ok { IfOk result (IsReport job.now) }
    ensures read { OnOk result (job.now.command ≡ TheRun → IsRunRead job.now) }
    ensures refused { IfErr result (MemoryOr (IsRefused job.now)) }
    ensures printed { IfErr result (IsPrintedWith job.now.files) }
{
    let Opened { dictionary, secret } = opened_for(alloc, job)?;
    match (job.command, secret.as_ref()) {
        (Command::Run, secret) => run_report_of(alloc, &dictionary, secret, job),
        (Command::Step, secret) => step_report_of(alloc, &dictionary, secret, job),
        (Command::Encode, Some(secret)) => encode_report_of(alloc, &dictionary, secret, job),
        (Command::Decode, Some(secret)) => decode_report_of(alloc, &dictionary, secret, job),
        _ => unreachable!(),
    }
}

// The size of the policy, where the job has one.
fn size_of_policy(alloc: Global, dictionary: &Dictionary, job: &Job) -> Result<Option<usize>, Fault>
    requires { dictionary_for job.now ≡ Ok dictionary.now }
    ensures ok { IfOk result (λ size. IsSizeOf job.now.policy job.now dictionary.now size) }
    ensures refused { IfErr result (MemoryOr (IsCheckedPolicyRefusal job.now)) }
    ensures printed { IfErr result (IsPrintedWith job.now.files) }
{
    let Some(text) = &job.policy else {
        return Ok(None);
    };
    match read_policy(alloc, dictionary, text.as_slice()) {
        Ok(policy) => Ok(Some(size(&policy))),
        Err(fault) => Err(Fault::from(fault)),
    }
}

// The report of a check, in the order in which it is refused.
fn check_report_of(alloc: Global, job: &Job) -> Result<Report, Fault>
    requires sound { IsSound (asked_by_job job.now) }
    ensures ok { IfOk result (IsCheckReport job.now) }
    ensures refused { IfErr result (MemoryOr (IsCheckRefusal job.now)) }
    ensures printed { IfErr result (IsPrintedWith job.now.files) }
{
    let dictionary = dictionary_for(alloc, job)?;
    let size = size_of_policy(alloc, &dictionary, job)?;
    Ok(plain_report(text_of_check(alloc, &job.files, &dictionary, size)?))
}

// The report of a job, by its command.
fn report_of(alloc: Global, job: &Job) -> Result<Report, Fault>
    requires sound { IsSound (asked_by_job job.now) }
    ensures ok { IfOk result (IsReport job.now) }
    ensures read { OnOk result (job.now.command ≡ TheRun → IsRunRead job.now) }
    ensures refused { IfErr result (MemoryOr (IsRefused job.now)) }
    ensures printed { IfErr result (IsPrintedWith job.now.files) }
{
    match job.command {
        Command::Check => check_report_of(alloc, job),
        _ => request_report_of(alloc, job),
    }
}

/// Does a job: makes its report whole, and then puts it out.
///
/// The faults come in this order: the dictionary, the secret, the policy, the script, the request, a packet that would
/// be too long, the writing of the report.
///
/// ```rust
/// // The job runs the policy `reject`.
/// let mut report = Vec::new(alloc);
/// let outcome = answer(alloc, job, &mut WriteOutput::new(&mut report))?;
/// assert_eq!(rt; (outcome.code, outcome.stopped), (Some(Code::Reject), true));
/// assert!(rt; report.ends_with(b"control\nresult reject stopped\n"));
/// ```
pub fn answer<O: Output>(alloc: Global, job: &Job, out: &mut O) -> Result<Outcome, Fault>
    requires works { O.has_failed out.old ≡ false }
    requires sound { IsSound (asked_by_job job.now) }
    // The output took the report and nothing else, and has not failed.
    ensures done { IfOk result (λ outcome. (report : Report) × (IsReport job.now report
        × Appends (O.taken out.old) (O.taken out.new) report.text × (outcome ≡ report.outcome))) }
    ensures works { OnOk result (O.has_failed out.new ≡ false) }
    // What a run sends is accepted as the reply to its request, and its attributes mean the pairs
    // that are sent.
    ensures read { OnOk result (job.now.command ≡ TheRun → IsRunRead job.now) }
    // The output failed in this call, and took a front of the report.
    ensures cut { IsErrOf result Fault.Write → (report : Report) × (IsReport job.now report
        × AppendsFrontOf (O.taken out.old) (O.taken out.new) report.text
        × (O.has_failed out.new ≡ true)) }
    // With any other fault the output is as it was.
    ensures nothing { IfErr result (λ fault. fault ≢ Fault.Write → out.new ≡ out.old) }
    // Memory and the output aside, the job is refused for this fault.
    ensures refused { IfErr result (λ fault. (fault ≡ Fault.Write)
        ⊎ MemoryOr (IsRefused job.now) fault) }
    // A job has at most one report, and none if it is refused, but for a pattern that is too large.
    ensures one { (a b : Report) → IsReport job.now a → IsReport job.now b → a ≡ b }
    ensures either { (report : Report) (fault : Fault) → IsReport job.now report
        → IsRefused job.now fault → IsTooLargePattern job.now fault }
    // It is refused for one fault of its request's lines at most, that of the first refused place.
    ensures first { (a b : LineFault) → IsRefused job.now (fault.Request a)
        → IsRefused job.now (fault.Request b) → a ≡ b }
    // Likewise of its policy, but for patterns that are too large, and for places in patterns.
    ensures first_of_policy { (a b : PolicyFault) → IsRefused job.now (fault.Policy a)
        → IsRefused job.now (fault.Policy b) → AreOne a b }
    // The report of a run is the text of what its start comes to, and the run is refused where that
    // comes to nothing.
    ensures ran { job.now.command ≡ TheRun → (report : Report)
        → IsRunReport job.now report ↔ IsOutcomeReport job.now report }
    ensures too_long { job.now.command ≡ TheRun → (fault : Fault)
        → IsOutcomeRefusal job.now fault → IsRefused job.now fault }
    // The line of the fault can be printed.
    ensures printed { IfErr result (IsPrintedWith job.now.files) }
{
    let report = report_of(alloc, job)?;
    match put_all(out, report.text()) {
        Ok(()) => Ok(report.outcome()),
        Err(_) => Err(Fault::Write),
    }
}
