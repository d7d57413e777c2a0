//! The reply of a policy where no packet is made of it, as no secret is known.

ghost use Rattle.std.specs.Prelude.{◌≡◌, IfOk};
ghost use Rattle.avp_dict.specs.Sent.{is_internal, is_sent, sent};
ghost use Rattle.avp_packet.specs.Sending.{without_signatures};
ghost use Rattle.radpolicy.specs.Replies.{reply_code, reply_pairs};
ghost use Rattle.radpolicy_common.specs.ChangeTexts.{AllFit, Fits};
ghost use Rattle.radpolicy_record_answers.specs.UnmadeReplies.{unmade_reply};
ghost use Rattle.radpolicy_record_answers.specs.internal.Fitting.{HasHead, OwnFits};

use avp_dict::Dictionary;
use avp_lists::{AttrId, List, Pair, Pairs, Store, Value, copy_pair};
use avp_packet::{ACCESS_ACCEPT, ACCESS_REJECT, ACCOUNTING_REQUEST, ACCOUNTING_RESPONSE, Packet};
use avp_unlang::Code;
use radpolicy::RunOutcome;
use std::alloc::{AllocError, Global};

/// Message-Authenticator (RFC 3579, section 3.2).
pub(crate) const MESSAGE_AUTHENTICATOR: AttrId = AttrId::Plain(80);

// Whether an attribute is never sent.
fn is_internal(id: AttrId) -> bool
    ensures { result ≡ is_internal id }
{
    match id {
        AttrId::Plain(number) => number > 255,
        AttrId::Vendor(_, _) => false,
        AttrId::Extended(_, _) => false,
    }
}

fn is_sent(alloc: Global, dictionary: &Dictionary, pair: &Pair) -> Result<bool, AllocError>
    requires { Fits dictionary.now pair.now }
    ensures { IfOk result (λ sent. sent ≡ is_sent dictionary.now pair.now) }
{
    if is_internal(pair.id) {
        return Ok(false);
    }
    let octets = dictionary.bytes_of_value(alloc, pair.id, &pair.value)?;
    let hides = dictionary.is_hidden(pair.id) && !matches!(pair.value, Value::Raw(_));
    Ok(octets.len() != 0 || hides)
}

// The pairs but for Message-Authenticators.
fn without_signatures(alloc: Global, pairs: &[Pair]) -> Result<Vec<Pair>, AllocError>
    ensures { IfOk result (λ kept. kept.items ≡ without_signatures pairs.now) }
{
    let mut kept = Vec::new(alloc);
    for pair in pairs {
        if !pair.id.equals(MESSAGE_AUTHENTICATOR) {
            kept.push(copy_pair(alloc, pair)?)?;
        }
    }
    Ok(kept)
}

// Those of the pairs that are sent.
#[tactic(auto, unfolding(avp_dict::specs::Sent::sent))]
fn sent(alloc: Global, dictionary: &Dictionary, pairs: &[Pair]) -> Result<Vec<Pair>, AllocError>
    requires { AllFit dictionary.now pairs.now }
    ensures { IfOk result (λ kept. kept.items ≡ sent pairs.now dictionary.now) }
{
    let mut kept = Vec::new(alloc);
    for pair in pairs {
        if is_sent(alloc, dictionary, pair)? {
            kept.push(copy_pair(alloc, pair)?)?;
        }
    }
    Ok(kept)
}

// The code of the reply, if there is one.
fn reply_code(request_code: u8, last: Code) -> Option<u8>
    ensures { result ≡ reply_code request_code last }
{
    match (request_code, last) {
        (ACCOUNTING_REQUEST, Code::Fail | Code::Reject) => None,
        (ACCOUNTING_REQUEST, _) => Some(ACCOUNTING_RESPONSE),
        (_, Code::Fail | Code::Reject) => Some(ACCESS_REJECT),
        (_, _) => Some(ACCESS_ACCEPT),
    }
}

fn reply_pairs(last: Code, reply: &[Pair]) -> &[Pair]
    ensures { result.now ≡ reply_pairs last reply.now }
{
    match last {
        Code::Fail => &[],
        _ => reply,
    }
}

// The pairs that are sent of the reply list at the end of a run.
fn sent_pairs(
    alloc: Global,
    dictionary: &Dictionary,
    outcome: &RunOutcome<'_>,
) -> Result<Pairs, AllocError>
    requires { outcome.now.dictionary ≡ dictionary.now }
    ensures pairs { IfOk result (λ pairs. pairs ≡ sent (without_signatures
        (reply_pairs outcome.now.end.code outcome.now.end.state.reply)) dictionary.now) }
    ensures fit { IfOk result (AllFit dictionary.now) }
{
    let list = outcome.store().list(List::Reply)?;
    let plain = without_signatures(alloc, reply_pairs(outcome.code(), &list))?;
    let kept = sent(alloc, dictionary, &plain)?;
    Ok(Pairs::from_vec(kept))
}

/// What the policy sends in reply to the request of these octets.
pub(crate) fn unmade_reply(
    alloc: Global,
    dictionary: &Dictionary,
    request: &[u8],
    outcome: &RunOutcome<'_>,
) -> Result<Option<Packet>, AllocError>
    requires head { HasHead request.now }
    requires over { outcome.now.dictionary ≡ dictionary.now }
    ensures reply { IfOk result (λ own.
        own ≡ unmade_reply dictionary.now request.now outcome.now.end) }
    ensures fits { IfOk result (OwnFits dictionary.now) }
{
    let Some(code) = reply_code(request[0], outcome.code()) else {
        return Ok(None);
    };
    Ok(Some(Packet {
        code,
        id: request[1],
        authenticator: [0; 16],
        list: sent_pairs(alloc, dictionary, outcome)?,
    }))
}
