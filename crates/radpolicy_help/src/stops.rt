//! Why a run was stopped.

ghost use Rattle.std.specs.Prelude.{◌≡◌, true, IfOk};
ghost use Rattle.radpolicy_common.specs.VisibleText.{all_visible};
ghost use Rattle.radpolicy_common.specs.declared.terminals.LineBreaks.TheVariants.{Kept};

use crate::packets::packet_octets;
use crate::places::{first_line, line_start};
use crate::policy_tokens::{Token, is_update_operator, tokens};
use crate::sources::{Source, Sources};
use crate::texts::{push_all, push_number};
use crate::watching::ids_of;
use avp_dict::Dictionary;
use avp_forms::profile_of;
use avp_step::Label;
use avp_unlang::read_policy;
use radpolicy::{Fault, Form, Job, PreparedPolicy, RequestHead, RequestKind, Secret, Start};
use radpolicy_common::{
    Hiding, LineBreaks, Redaction, SecretValues, policy_shown, reason_text, visible_text,
};
use std::alloc::{AllocError, Global};

/// The step that stopped a run.
#[derive(Clone, Copy)]
struct Stop {
    /// Its line in the policy's text.
    line: usize,
    /// Why an update line failed; none of a word.
    reason: Option<u8>,
}

// The number of the reason that a source is absent.
const ABSENT: u8 = 1;

fn head_of(job: &Job) -> RequestHead {
    RequestHead {
        kind: match job.form {
            Form::Accounting => RequestKind::Accounting,
            Form::Access | Form::Hex => RequestKind::Access,
        },
        id: job.identifier,
        authenticator: job.authenticator,
    }
}

// The start of a job's run.
fn start_of<'a>(
    alloc: Global,
    prepared: &'a PreparedPolicy<'a>,
    secret: Option<&'a Secret<'a>>,
    job: &Job,
) -> Result<Start<'a>, Fault> {
    let text = job.request.as_slice();
    match (job.form, secret) {
        (Form::Hex, Some(secret)) => {
            let octets = packet_octets(alloc, text)?;
            Start::of_packet(alloc, prepared, secret, &octets)
        }
        (_, secret) => {
            let (head, profile) = (head_of(job), profile_of(text));
            Start::of_lines(alloc, prepared, secret, head, profile, None, text)
        }
    }
}

// The step that stops a run; none where it goes to the policy's end. A stop ends a run only outside of transactions, so
// it is the last step.
fn stop_of(alloc: Global, start: Start<'_>) -> Result<Option<Stop>, AllocError> {
    let mut stepper = start.stepper(alloc)?;
    stepper.run_to_end()?;
    if !stepper.stopped() {
        return Ok(None);
    }
    Ok(match stepper.label() {
        Label::Failed(line, reason) => Some(Stop {
            line,
            reason: Some(reason),
        }),
        Label::Word(line) => Some(Stop { line, reason: None }),
        _ => None,
    })
}

// The same of the run that a job makes.
fn stop_of_job(alloc: Global, dictionary: &Dictionary, job: &Job) -> Result<Option<Stop>, Fault> {
    let secret = match &job.secret {
        Some(file) => Some(Secret::in_file(file.as_slice())?),
        None => None,
    };
    let policy = match &job.policy {
        Some(text) => text.as_slice(),
        None => return Ok(None),
    };
    let prepared = PreparedPolicy::read(alloc, dictionary, policy)?;
    let start = start_of(alloc, &prepared, secret.as_ref(), job)?;
    Ok(stop_of(alloc, start)?)
}

// The word of the only source on a line that is a reference.
fn only_reference<'a>(tokens: &[Token<'a>]) -> Option<&'a str> {
    let mut found = None;
    for three in tokens.windows(3) {
        if let [operator, sign, word] = three
            && is_update_operator(operator.text())
            && sign.text() == "&"
        {
            if found.is_some() {
                return None;
            }
            found = Some(word.text());
        }
    }
    found
}

// Why an update line failed.
fn push_reason(text: &mut Vec<u8>, tokens: &[Token<'_>], reason: u8) -> Result<(), AllocError> {
    match only_reference(tokens) {
        Some(word) if reason == ABSENT => {
            let (list, name) = match word.split_once(":") {
                Some((list @ ("request" | "reply" | "control"), name)) => (list, name),
                _ => ("request", word),
            };
            push_all(text, &["the ", list, " has no ", name])?;
        }
        _ => push_all(text, &[reason_text(reason).unwrap_or("the line failed")])?,
    }
    push_all(text, &[" (P"])?;
    push_number(text, usize::from(reason))?;
    push_all(text, &[")\n"])
}

// A line to the end of its last token: without a comment.
fn up_to_comment<'a>(line: &'a [u8], tokens: &[Token<'_>]) -> &'a [u8] {
    match tokens.last() {
        Some(token) => {
            let end = token.offset.saturating_add(token.octets.len());
            line.get(..end).unwrap_or(line)
        }
        None => line,
    }
}

// A line of a text without the blanks round it.
fn line_at(text: &[u8], number: usize) -> &[u8] {
    let start = line_start(text, number);
    first_line(text.get(start..).unwrap_or(&[])).trim_ascii()
}

// A policy as it is shown: without the values that are secret in it.
fn shown_policy(
    alloc: Global,
    dictionary: &Dictionary,
    sources: &Sources<'_>,
) -> Result<Vec<u8>, AllocError> {
    let text = sources.policy.text;
    let given = ids_of(alloc, dictionary, sources.hidden)?;
    let hiding = Hiding {
        secrets: SecretValues::Hidden,
        given: &given,
    };
    match read_policy(alloc, dictionary, text) {
        Ok(policy) => {
            let redaction = Redaction::new(alloc, dictionary, hiding, &[&policy])?;
            policy_shown(alloc, &redaction, text)
        }
        Err(_) => Ok(Vec::new(alloc)),
    }
}

// `PATH:LINE: SOURCE: why`, with the source as it is shown.
fn push_stop(
    text: &mut Vec<u8>,
    source: Source<'_>,
    shown: &[u8],
    stop: Stop,
) -> Result<(), AllocError> {
    let alloc = *text.allocator();
    let line = line_at(shown, stop.line);
    push_all(text, &[source.path, ":"])?;
    push_number(text, stop.line)?;
    push_all(text, &[": "])?;
    text.extend_from_slice(up_to_comment(line, &tokens(alloc, line)?))?;
    push_all(text, &[": "])?;
    match stop.reason {
        Some(reason) => {
            let tokens = tokens(alloc, line_at(source.text, stop.line))?;
            push_reason(text, &tokens, reason)
        }
        None => push_all(text, &["the run was stopped here\n"]),
    }
}

fn draft(alloc: Global, sources: &Sources<'_>, job: &Job) -> Result<Vec<u8>, AllocError> {
    let mut text = Vec::new(alloc);
    let Some(dictionary) = sources.dictionary(alloc) else {
        return Ok(text);
    };
    if let Ok(Some(stop)) = stop_of_job(alloc, &dictionary, job) {
        let shown = shown_policy(alloc, &dictionary, sources)?;
        push_stop(&mut text, sources.policy, &shown, stop)?;
    }
    Ok(text)
}

/// Why the run of a job was stopped: the place and the text of the line that stopped it, and of an update line the
/// reason, as `policy:3: Class := &Class: the request has no Class (P1)`. It is empty where the run was not stopped. It
/// has no control character but line ends, whatever the files hold. What is secret in the policy is hidden.
pub fn stop_text(alloc: Global, sources: &Sources<'_>, job: &Job) -> Result<Vec<u8>, AllocError>
    ensures visible { IfOk result (λ text. all_visible Kept text.items ≡ true) }
{
    visible_text(alloc, &draft(alloc, sources, job)?, LineBreaks::Kept)
}
