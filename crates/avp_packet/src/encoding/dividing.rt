//! Lists divided at the Message-Authenticator of their packet (RFC 3579, section 3.2).

ghost use Rattle.std.specs.Prelude.{◌≡◌, ◌≤◌, Bool, true, length, All};
ghost use Rattle.std.specs.List.{position_or_len};
ghost use Rattle.avp_lists.specs.Instances.{has_id};
ghost use Rattle.avp_lists.specs.declared.pairs.Pair.{Pair};
ghost use Rattle.avp_packet.specs.Packets.{request_kind};
ghost use Rattle.avp_packet.specs.Sending.{Access, Reply, message_authenticator_id, without_signatures};
ghost use Rattle.avp_packet.specs.internal.Filling.{IsDivided, KeepsAll};

use crate::attribute::numbers::MESSAGE_AUTHENTICATOR;
use crate::packets::ACCOUNTING_REQUEST;
use avp_lists::{AttrId, Pair};

/// The attribute that signs a packet.
pub(crate) const MESSAGE_AUTHENTICATOR_ID: AttrId = AttrId::Plain(MESSAGE_AUTHENTICATOR as u32);

/// What is sent before and after the Message-Authenticator, and whether there is one. Of those after it no other one
/// is sent.
#[derive(Clone, Copy)]
pub(crate) struct Division<'a> {
    pub before: &'a [Pair],
    pub signed: bool,
    pub after: &'a [Pair],
}

// Where a list has its first Message-Authenticator, or its length.
fn signature_place(list: &[Pair]) -> usize
    ensures place { result ≡ position_or_len (has_id message_authenticator_id) list.now }
    ensures within { result ≤ length list.now }
{
    for place in 0..list.len() {
        if list[place].id.equals(MESSAGE_AUTHENTICATOR_ID) {
            return place;
        }
    }
    list.len()
}

// An Access-Request's list, divided at its first Message-Authenticator.
fn divide_access(list: &[Pair]) -> Division<'_>
    ensures divided { IsDivided Access list.now result }
    ensures kept { (q : Pair → Bool) → All (λ p. q p ≡ true) list.now → KeepsAll q result }
    ensures unsigned { without_signatures result.before.now ≡ result.before.now }
{
    let (before, rest) = list.split_at(signature_place(list));
    match rest {
        [_, after @ ..] => Division {
            before,
            signed: true,
            after,
        },
        _ => Division {
            before,
            signed: false,
            after: &[],
        },
    }
}

/// A request's list, which is sent as it is in an Accounting-Request.
pub(crate) fn divide_request(code: u8, list: &[Pair]) -> Division<'_>
    ensures divided { IsDivided (request_kind code) list.now result }
    ensures kept { (q : Pair → Bool) → All (λ p. q p ≡ true) list.now → KeepsAll q result }
    ensures unsigned { result.signed ≡ true → without_signatures result.before.now
        ≡ result.before.now }
{
    if code == ACCOUNTING_REQUEST {
        Division {
            before: list,
            signed: false,
            after: &[],
        }
    } else {
        divide_access(list)
    }
}

/// A reply's list, which comes after the Message-Authenticator.
pub(crate) fn divide_reply(signed: bool, list: &[Pair]) -> Division<'_>
    ensures divided { IsDivided (Reply signed) list.now result }
    ensures kept { (q : Pair → Bool) → All (λ p. q p ≡ true) list.now → KeepsAll q result }
    ensures unsigned { without_signatures result.before.now ≡ result.before.now }
{
    Division {
        before: &[],
        signed,
        after: list,
    }
}
