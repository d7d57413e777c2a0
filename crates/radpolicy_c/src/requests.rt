//! A request, as C gives it, and what its run begins with.

ghost use Rattle.std.specs.Prelude.{◌≡◌, ◌⊎◌, IfOk, IfErr, if◌then◌else◌, Some, None};
ghost use Rattle.std.specs.Option.{option_copied};
ghost use Rattle.avp_forms.specs.Profiles.{profile_of};
ghost use Rattle.radpolicy.specs.Faults.{IsPrintedAnywhere, MemoryOr};
ghost use Rattle.radpolicy.specs.StartRefusals.{AreUnreadRequestLines};
ghost use Rattle.radpolicy_c.specs.Requests.{AreUnreadLists, BeginsRun, HasLists, IsBegun, IsBegunByLines, IsBegunByPacket, IsNotBegun, IsNotBegunByPacket, IsStartRefusal, form_given, head_given};

use avp_forms::profile_of;
use radpolicy::{Fault, Form, PreparedPolicy, RequestHead, RequestKind, Secret, Start};
use std::alloc::Global;

/// A request, and the reply and control lists with which its run begins.
#[repr(C)]
#[derive(Clone, Copy, Drop)]
pub struct RadpolicyRequest<'a> {
    /// A packet's octets, or lines.
    pub octets: &'a [u8],
    /// The secret, looked at only where `has_secret` says so.
    pub secret: &'a [u8],
    /// The lines of the initial reply list.
    pub reply: &'a [u8],
    /// The lines of the initial control list.
    pub control: &'a [u8],
    /// Of a request of lines, the Request Authenticator, looked at only where `has_authenticator` says so.
    pub authenticator: [u8; 16],
    /// 0 the octets of a packet, 1 the lines of an Access-Request, 2 those of an Accounting-Request.
    pub form: u8,
    /// Of a request of lines, the Identifier.
    pub identifier: u8,
    pub has_authenticator: bool,
    pub has_secret: bool,
}

pub(crate) fn form_given(number: u8) -> Option<Form>
    ensures { result ≡ form_given number }
{
    match number {
        0 => Some(Form::Hex),
        1 => Some(Form::Access),
        2 => Some(Form::Accounting),
        _ => None,
    }
}

fn head_given(kind: RequestKind, asked: &RadpolicyRequest<'_>) -> RequestHead
    ensures { result ≡ head_given kind asked.now }
{
    let authenticator = if asked.has_authenticator {
        Some(asked.authenticator)
    } else {
        None
    };
    RequestHead {
        kind,
        id: asked.identifier,
        authenticator,
    }
}

fn begun_by_packet<'a>(
    alloc: Global,
    prepared: &'a PreparedPolicy<'a>,
    secret: Option<&'a Secret<'a>>,
    octets: &[u8],
) -> Result<Start<'a>, Fault>
    ensures ok { IfOk result
        (IsBegunByPacket prepared.entry.now (option_copied secret.entry) octets.now) }
    ensures refused { IfErr result (MemoryOr
        (IsNotBegunByPacket prepared.entry.now (option_copied secret.entry) octets.now)) }
    ensures printed { IfErr result IsPrintedAnywhere }
{
    match secret {
        Some(secret) => Start::of_packet(alloc, prepared, secret, octets),
        None => Err(Fault::OptionValue),
    }
}

fn begun_by_lines<'a>(
    alloc: Global,
    prepared: &'a PreparedPolicy<'a>,
    secret: Option<&'a Secret<'a>>,
    kind: RequestKind,
    asked: &RadpolicyRequest<'_>,
) -> Result<Start<'a>, Fault>
    ensures ok { IfOk result
        (IsBegunByLines kind prepared.entry.now (option_copied secret.entry) asked.now) }
    ensures refused { IfErr result (MemoryOr (AreUnreadRequestLines
        (profile_of asked.now.octets.now) None prepared.entry.now.dictionary
        asked.now.octets.now)) }
    ensures printed { IfErr result IsPrintedAnywhere }
{
    Start::of_lines(
        alloc,
        prepared,
        secret,
        head_given(kind, asked),
        profile_of(asked.octets),
        None,
        asked.octets,
    )
}

// A run over the request alone.
fn begun<'a>(
    alloc: Global,
    prepared: &'a PreparedPolicy<'a>,
    secret: Option<&'a Secret<'a>>,
    asked: &RadpolicyRequest<'_>,
) -> Result<Start<'a>, Fault>
    ensures ok { IfOk result (IsBegun (form_given asked.now.form) prepared.entry.now
        (option_copied secret.entry) asked.now) }
    ensures refused { IfErr result (MemoryOr (IsNotBegun (form_given asked.now.form)
        prepared.entry.now (option_copied secret.entry) asked.now)) }
    ensures printed { IfErr result IsPrintedAnywhere }
{
    match form_given(asked.form) {
        Some(Form::Hex) => begun_by_packet(alloc, prepared, secret, asked.octets),
        Some(Form::Access) => begun_by_lines(alloc, prepared, secret, RequestKind::Access, asked),
        Some(Form::Accounting) => {
            begun_by_lines(alloc, prepared, secret, RequestKind::Accounting, asked)
        }
        None => Err(Fault::OptionValue),
    }
}

// The same with the initial lists.
fn with_lists<'a>(
    alloc: Global,
    start: Start<'a>,
    asked: &RadpolicyRequest<'_>,
) -> Result<Start<'a>, Fault>
    ensures ok { IfOk result (HasLists start.entry asked.now) }
    ensures refused { IfErr result
        (MemoryOr (AreUnreadLists start.entry.prepared.dictionary asked.now)) }
    ensures printed { IfErr result IsPrintedAnywhere }
{
    match start.with_reply_lines(alloc, profile_of(asked.reply), None, asked.reply) {
        Ok(start) => start.with_control_lines(
            alloc,
            profile_of(asked.control),
            None,
            asked.control,
        ),
        Err(fault) => Err(fault),
    }
}

/// What the request's run begins with.
pub(crate) fn start_for<'a>(
    alloc: Global,
    prepared: &'a PreparedPolicy<'a>,
    secret: Option<&'a Secret<'a>>,
    asked: &RadpolicyRequest<'_>,
) -> Result<Start<'a>, Fault>
    ensures ok { IfOk result
        (BeginsRun prepared.entry.now (option_copied secret.entry) asked.now) }
    ensures refused { IfErr result (MemoryOr
        (IsStartRefusal prepared.entry.now (option_copied secret.entry) asked.now)) }
    ensures printed { IfErr result IsPrintedAnywhere }
{
    match begun(alloc, prepared, secret, asked) {
        Ok(start) => with_lists(alloc, start, asked),
        Err(fault) => Err(fault),
    }
}
