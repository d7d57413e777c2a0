//! The request of a job.

ghost use Rattle.std.specs.Prelude.{◌≡◌, ◌≢◌, ◌⊎◌, ◌≤◌, ◌<◌, Err, IfErr, IfOk, IfSome, None, Ok, Some, length, true};
ghost use Rattle.std.specs.List.{filter};
ghost use Rattle.std.specs.Option.{option_copied};
ghost use Rattle.avp_lists.specs.Instances.{instances};
ghost use Rattle.avp_lists.specs.States.{max_pairs};
ghost use Rattle.avp_lists.specs.declared.pairs.AttrId.TheVariants.{Plain};
ghost use Rattle.avp_dict.specs.AttributeNumbers.{proxy_state};
ghost use Rattle.avp_dict.specs.Sent.{is_clean};
ghost use Rattle.avp_forms.specs.Requests.{request_written};
ghost use Rattle.avp_packet.specs.Packets.{IsRequestCode};
ghost use Rattle.radpolicy.specs.Faults.{IsPrintedWith};
ghost use Rattle.radpolicy.specs.Received.{AreRefusedWith, IsUnreadRequest, hex_octets, is_no_white_space, lines_for, lines_spelled, packet_for, request_for};
ghost use Rattle.radpolicy.specs.Replies.{proxy_states};
ghost use Rattle.radpolicy.specs.declared.faults.Fault.TheVariants as fault;
ghost use Rattle.radpolicy.specs.declared.jobs.Form.TheVariants.{Hex as InHex};
ghost use Rattle.radpolicy.specs.internal.Fitting.{AllFit};
ghost use Rattle.radpolicy.specs.internal.Starting.{IsFittingList};

use crate::faults::Fault;
use crate::jobs::{Form, Job};
use crate::secrets::Secret;
use avp_dict::{Dictionary, LineFault, LineKind};
use avp_forms::{Profile, profile_of, read_request};
use avp_lists::Pairs;
use avp_packet::{ACCESS_REQUEST, ACCOUNTING_REQUEST, Packet, decode};
use hex::FromHexError;
use std::alloc::{AllocError, Global};

fn is_no_white_space(octet: u8) -> bool
    ensures { result ≡ is_no_white_space octet }
{
    octet != b' ' && octet != b'\t' && octet != b'\r' && octet != b'\n'
}

fn without_white_space(alloc: Global, text: &[u8]) -> Result<Vec<u8>, AllocError>
    ensures { IfOk result (λ digits. digits.items ≡ filter is_no_white_space text.now) }
{
    let mut digits = Vec::new(alloc);
    for octet in text {
        if is_no_white_space(*octet) {
            digits.push(*octet)?;
        }
    }
    Ok(digits)
}

/// The octets that hexadecimal digits stand for, with white space among them; none where it is not so, or the number of
/// digits is odd.
#[tactic(auto, unfolding(crate::specs::Received::hex_octets))]
pub fn hex_octets(alloc: Global, text: &[u8]) -> Result<Option<Vec<u8>>, AllocError>
    ensures none { result ≡ Ok None → hex_octets text.now ≡ None }
    ensures some { IfOk result (λ octets.
        IfSome octets (λ os. hex_octets text.now ≡ Some os.items)) }
{
    let digits = without_white_space(alloc, text)?;
    match hex::decode(alloc, digits) {
        Ok(octets) => Ok(Some(octets)),
        Err(FromHexError::OutOfMemory) => Err(AllocError),
        Err(_) => Ok(None),
    }
}

// A packet in hexadecimal digits.
fn packet_for(
    alloc: Global,
    dictionary: &Dictionary,
    secret: &Secret<'_>,
    job: &Job,
) -> Result<Packet, Fault>
    ensures ok { IfOk result (λ packet.
        packet_for dictionary.now secret.now (hex_octets job.now.request) ≡ Ok packet) }
    ensures code { IfOk result (λ packet. IsRequestCode packet.code) }
    ensures few { IfOk result (λ packet. length packet.list ≤ max_pairs) }
    ensures fit { IfOk result (λ packet. AllFit dictionary.now packet.list) }
    ensures proxies { IfOk result (λ packet. is_clean (proxy_states packet) dictionary.now ≡ true) }
    ensures refused { IfErr result (λ f. (f ≡ fault.Memory)
        ⊎ IsUnreadRequest dictionary.now job.now f
        (packet_for dictionary.now secret.now (hex_octets job.now.request))) }
    ensures printed { IfErr result (IsPrintedWith job.now.files) }
{
    let Some(octets) = hex_octets(alloc, job.request.as_slice())? else {
        return Err(Fault::NotHex);
    };
    let packet = decode(alloc, dictionary, secret.as_slice(), &octets)?;
    Ok(packet)
}

// The pairs of lines.
pub(crate) fn read_lines(
    alloc: Global,
    dictionary: &Dictionary,
    profile: Profile,
    zone: Option<i16>,
    text: &[u8],
) -> Result<Pairs, LineFault>
    ensures read { IfOk result (λ pairs.
        request_written profile zone text.now dictionary.now ≡ Some pairs) }
    ensures list { IfOk result (IsFittingList dictionary.now) }
    ensures clean { IfOk result (λ pairs. is_clean pairs dictionary.now ≡ true) }
    ensures proxies { IfOk result (λ pairs.
        is_clean (instances (Plain proxy_state) pairs) dictionary.now ≡ true) }
    ensures refused { IfErr result (λ f. f.kind ≢ LineKind.Memory
        → AreRefusedWith profile zone dictionary.now text.now f) }
{
    Ok(Pairs::from_vec(read_request(alloc, dictionary, profile, zone, text)?))
}

// The lines of a request, as the list of a packet of this code.
fn lines_for(alloc: Global, dictionary: &Dictionary, code: u8, job: &Job) -> Result<Packet, Fault>
    ensures ok { IfOk result (λ packet.
        lines_for code job.now (lines_spelled job.now.request dictionary.now) ≡ Ok packet) }
    ensures code { IfOk result (λ packet. packet.code ≡ code) }
    ensures few { IfOk result (λ packet. length packet.list ≤ max_pairs) }
    ensures fit { IfOk result (λ packet. AllFit dictionary.now packet.list) }
    ensures proxies { IfOk result (λ packet. is_clean (proxy_states packet) dictionary.now ≡ true) }
    ensures refused { IfErr result (λ f. (f ≡ fault.Memory)
        ⊎ IsUnreadRequest dictionary.now job.now f
        (lines_for code job.now (lines_spelled job.now.request dictionary.now))) }
    ensures printed { IfErr result (IsPrintedWith job.now.files) }
{
    let text = job.request.as_slice();
    let list = read_lines(alloc, dictionary, profile_of(text), None, text)?;
    Ok(Packet {
        code,
        id: job.identifier,
        authenticator: job.authenticator.unwrap_or([0; 16]),
        list,
    })
}

/// The request of a job, by its form. A request in hexadecimal digits wants a secret.
pub(crate) fn request_for(
    alloc: Global,
    dictionary: &Dictionary,
    secret: Option<&Secret<'_>>,
    job: &Job,
) -> Result<Packet, Fault>
    requires hex { job.now.form ≡ InHex → secret ≢ None }
    ensures ok { IfOk result (λ packet.
        request_for dictionary.now (option_copied secret.entry) job.now ≡ Ok packet) }
    ensures code { IfOk result (λ packet. IsRequestCode packet.code) }
    ensures few { IfOk result (λ packet. length packet.list ≤ max_pairs) }
    ensures fit { IfOk result (λ packet. AllFit dictionary.now packet.list) }
    ensures proxies { IfOk result (λ packet. is_clean (proxy_states packet) dictionary.now ≡ true) }
    ensures refused { IfErr result (λ f. (f ≡ fault.Memory)
        ⊎ IsUnreadRequest dictionary.now job.now f
        (request_for dictionary.now (option_copied secret.entry) job.now)) }
    ensures printed { IfErr result (IsPrintedWith job.now.files) }
{
    match (job.form, secret) {
        (Form::Hex, Some(secret)) => packet_for(alloc, dictionary, secret, job),
        (Form::Hex, None) => unreachable!(),
        (Form::Access, _) => lines_for(alloc, dictionary, ACCESS_REQUEST, job),
        (Form::Accounting, _) => lines_for(alloc, dictionary, ACCOUNTING_REQUEST, job),
    }
}
