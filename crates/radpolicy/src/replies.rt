//! The reply packet of a run.

ghost use Rattle.std.specs.Prelude.{◌≡◌, ◌<◌, true, false, IfOk, OnOk, IfSome};
ghost use Rattle.std.specs.Option.{option_map};
ghost use Rattle.avp_lists.specs.Instances.{has_instance, instances};
ghost use Rattle.avp_lists.specs.Meets.{Finds};
ghost use Rattle.avp_lists.specs.declared.pairs.AttrId.TheVariants.{Plain};
ghost use Rattle.radpolicy.specs.internal.Fitting.{AllFit};
ghost use Rattle.avp_dict.specs.AttributeNumbers.{proxy_state};
ghost use Rattle.avp_packet.specs.Outcomes.{is_memory_encoding};
ghost use Rattle.avp_packet.specs.Packets.{IsReplyCode, IsRequestCode, accounting_request, accounting_response, authenticator_of};
ghost use Rattle.avp_packet.specs.Sending.{message_authenticator_id};
ghost use Rattle.radpolicy.specs.Replies.{answer_of, answered_authenticator, reply_code, reply_pairs, request_packet, signs_reply};
ghost use Rattle.radpolicy.specs.internal.ReplyHeads.{AnswerIsRead, IsAnswer, IsHeadOf, IsUsable, SentIsRead, answered_by, sent_by};
ghost use Rattle.radpolicy.specs.RunOutcomes.{reply_of};
ghost use Rattle.avp_lists.specs.History.{present};
ghost use Rattle.avp_unlang.specs.Resolutions.{StateFits};
ghost use Rattle.avp_unlang.specs.Meaning.{Outcome as End};

use crate::jobs::Form;
use crate::run_outcomes::Reply;
use crate::secrets::Secret;
use avp_dict::Dictionary;
use avp_lists::{AttrId, List, Octets, Pair, Store, copy_pair};
use avp_packet::{
    ACCESS_ACCEPT, ACCESS_REJECT, ACCESS_REQUEST, ACCOUNTING_REQUEST, ACCOUNTING_RESPONSE,
    EncodeFault, Packet, encode_reply, encoded_authenticator,
};
use avp_unlang::Code;
use std::alloc::{AllocError, Global};

/// The attribute that is sent back as it came (RFC 2865, section 5.33).
const PROXY_STATE_ID: AttrId = AttrId::Plain(33);

/// The attribute by which a request asks for a signed reply.
const MESSAGE_AUTHENTICATOR_ID: AttrId = AttrId::Plain(80);

/// What a reply takes of its request, and the secret.
#[derive(Drop)]
pub(crate) struct ReplyHead<'a> {
    secret: &'a Secret<'a>,
    code: u8,
    id: u8,
    /// `None` where the packet of an Accounting-Request's lines would be too long.
    authenticator: Option<[u8; 16]>,
    proxy_states: Vec<Pair>,
    /// Whether the reply has a Message-Authenticator (RFC 3579, section 3.2).
    signed: bool,
}

// The Proxy-States among pairs, in order.
fn proxy_states_of(alloc: Global, pairs: &[Pair]) -> Result<Vec<Pair>, AllocError>
    ensures { IfOk result (λ found. found.items ≡ instances (Plain proxy_state) pairs.now) }
{
    let mut found = Vec::new(alloc);
    for pair in pairs {
        if pair.id.equals(PROXY_STATE_ID) {
            found.push(copy_pair(alloc, pair)?)?;
        }
    }
    Ok(found)
}

// Whether there is a Message-Authenticator among pairs.
fn has_message_authenticator(pairs: &[Pair]) -> bool
    ensures { result ≡ has_instance message_authenticator_id pairs.now }
{
    pairs
        .iter()
        .any(|pair| pair.id.equals(MESSAGE_AUTHENTICATOR_ID))
}

// Whether the reply to a request is signed.
fn signs_reply(request: &Packet) -> bool
    ensures test { result ≡ signs_reply request.now }
    ensures accounting { request.now.code ≡ accounting_request → result ≡ false }
{
    request.code == ACCESS_REQUEST && has_message_authenticator(request.list.as_slice())
}

// The authenticator of the packet of an Accounting-Request's lines; `None` where that is too long.
#[tactic(auto, using(crate::proofs::PacketRoom::is_within, crate::proofs::PacketRoom::is_too_long))]
fn made_authenticator(
    alloc: Global,
    dictionary: &Dictionary,
    secret: &Secret<'_>,
    request: &Packet,
) -> Result<Option<[u8; 16]>, AllocError>
    requires code { IsRequestCode request.now.code }
    requires fit { AllFit dictionary.now request.now.list }
    ensures { IfOk result (λ authenticator. authenticator
        ≡ option_map authenticator_of (request_packet dictionary.now secret.now request.now)) }
{
    let made = encoded_authenticator(
        alloc,
        dictionary,
        secret.as_slice(),
        request.code,
        request.id,
        &request.authenticator,
        request.list.as_slice(),
    );
    match made {
        Ok(authenticator) => Ok(Some(authenticator)),
        Err(EncodeFault::TooLong) => Ok(None),
        Err(EncodeFault::Memory) => Err(AllocError),
    }
}

// The authenticator that a reply answers.
fn answered_authenticator(
    alloc: Global,
    dictionary: &Dictionary,
    secret: &Secret<'_>,
    form: Form,
    request: &Packet,
) -> Result<Option<[u8; 16]>, AllocError>
    requires code { IsRequestCode request.now.code }
    requires fit { AllFit dictionary.now request.now.list }
    ensures { IfOk result (λ authenticator. authenticator
        ≡ answered_authenticator form dictionary.now secret.now request.now) }
{
    match form {
        Form::Accounting => made_authenticator(alloc, dictionary, secret, request),
        Form::Hex | Form::Access => Ok(Some(request.authenticator)),
    }
}

/// What a reply takes of its request, before a run changes the request's list.
pub(crate) fn reply_head<'a>(
    alloc: Global,
    dictionary: &Dictionary,
    secret: &'a Secret<'a>,
    form: Form,
    request: &Packet,
) -> Result<ReplyHead<'a>, AllocError>
    requires code { IsRequestCode request.now.code }
    requires fit { AllFit dictionary.now request.now.list }
    ensures made { IfOk result (λ head. IsHeadOf form dictionary.now secret.now request.now head) }
    ensures head { IfOk result (λ head. (end : End)
        → answered_by dictionary.now head end.code end.state.reply
        ≡ answer_of form dictionary.now secret.now request.now end) }
    ensures usable { IfOk result (λ head. IsUsable dictionary.now head) }
{
    Ok(ReplyHead {
        secret,
        code: request.code,
        id: request.id,
        authenticator: answered_authenticator(alloc, dictionary, secret, form, request)?,
        proxy_states: proxy_states_of(alloc, request.list.as_slice())?,
        signed: signs_reply(request),
    })
}

// The code of the reply, if there is one.
fn reply_code(request_code: u8, last: Code) -> Option<u8>
    ensures code { result ≡ reply_code request_code last }
    ensures reply { IfSome result IsReplyCode }
    ensures accounting { IfSome result (λ code. code ≡ accounting_response → request_code
        ≡ accounting_request) }
{
    match (request_code, last) {
        (ACCOUNTING_REQUEST, Code::Fail | Code::Reject) => None,
        (ACCOUNTING_REQUEST, _) => Some(ACCOUNTING_RESPONSE),
        (_, Code::Fail | Code::Reject) => Some(ACCESS_REJECT),
        (_, _) => Some(ACCESS_ACCEPT),
    }
}

// The pairs of a reply.
fn reply_pairs(last: Code, reply: &[Pair]) -> &[Pair]
    ensures { result.now ≡ reply_pairs last reply.now }
{
    match last {
        Code::Fail => &[],
        _ => reply,
    }
}

// The reply packet of a run that ended with this code and this reply list, if it sends one.
#[tactic(auto, unfolding(crate::specs::internal::ReplyHeads::answered_by), using(crate::proofs::PacketRoom::is_within, crate::proofs::PacketRoom::is_too_long))]
fn answered_by(
    alloc: Global,
    dictionary: &Dictionary,
    head: &ReplyHead<'_>,
    last: Code,
    reply: &[Pair],
) -> Result<Option<Vec<u8>>, EncodeFault>
    requires usable { IsUsable dictionary.now head.now }
    requires reply { AllFit dictionary.now reply.now }
    ensures answer { IsAnswer result (answered_by dictionary.now head.now last reply.now) }
    ensures read { OnOk result (AnswerIsRead dictionary.now head.now last reply.now) }
{
    let Some(code) = reply_code(head.code, last) else {
        return Ok(None);
    };
    let Some(authenticator) = head.authenticator else {
        return Err(EncodeFault::TooLong);
    };
    let octets = encode_reply(
        alloc,
        dictionary,
        head.secret.as_slice(),
        code,
        head.id,
        &authenticator,
        reply_pairs(last, reply),
        head.proxy_states.as_slice(),
        head.signed,
    )?;
    Ok(Some(octets))
}

// What a run sends that ended with this code and this reply list.
fn reply_of(
    alloc: Global,
    dictionary: &Dictionary,
    head: &ReplyHead<'_>,
    last: Code,
    reply: &[Pair],
) -> Result<Reply, EncodeFault>
    requires usable { IsUsable dictionary.now head.now }
    requires reply { AllFit dictionary.now reply.now }
    ensures sent { Finds is_memory_encoding result
        (reply_of (answered_by dictionary.now head.now last reply.now)) }
    ensures read { OnOk result (AnswerIsRead dictionary.now head.now last reply.now) }
{
    match answered_by(alloc, dictionary, head, last, reply)? {
        Some(octets) => Ok(Reply::Packet(Octets::from_vec(octets))),
        None => Ok(Reply::Nothing),
    }
}

/// What a run sends that ended with this code and the reply list of this store; without a head no packet is made.
#[tactic(auto, unfolding(crate::specs::internal::ReplyHeads::sent_by))]
pub(crate) fn sent_by<S: Store>(
    alloc: Global,
    dictionary: &Dictionary,
    head: &Option<ReplyHead<'_>>,
    last: Code,
    store: &S,
) -> Result<Reply, EncodeFault>
    requires usable { IfSome head.now (λ h. IsUsable dictionary.now h) }
    requires fits { StateFits dictionary.now (present (S.history store.now)) }
    ensures sent { Finds is_memory_encoding result
        (sent_by dictionary.now head.now last (present (S.history store.now)).reply) }
    ensures read { OnOk result
        (SentIsRead dictionary.now head.now last (present (S.history store.now)).reply) }
{
    match head {
        Some(head) => {
            let pairs = store.list(List::Reply)?;
            reply_of(alloc, dictionary, head, last, &pairs)
        }
        None => Ok(Reply::Unmade),
    }
}
