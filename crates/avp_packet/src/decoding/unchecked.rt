//! Packets read where no secret is known (RFC 2865, section 3; RFC 2866, section 3).

ghost use Rattle.std.specs.Prelude.{◌≡◌, ◌≤◌, [], true, length, All, IfOk, IfErr, OnOk, IsOk, IsTrue};
ghost use Rattle.avp_lists.specs.Meets.{Meets};
ghost use Rattle.avp_lists.specs.States.{max_pairs};
ghost use Rattle.avp_dict.specs.Limits.{fits};
ghost use Rattle.avp_packet.specs.Means.{Means};
ghost use Rattle.avp_packet.specs.Outcomes.{is_memory};
ghost use Rattle.avp_packet.specs.Packets.{IsRequestCode, IsTakenReplyCode, attributes_of, code_of, zeros};
ghost use Rattle.avp_packet.specs.Splitting.{parts};
ghost use Rattle.avp_packet.specs.Unchecked.{decoded_reply_unchecked, decoded_unchecked, is_request_code, unchecked_where};

use crate::authenticators::ZEROS;
use crate::decoding::packets::{count_whole, read_packet};
use crate::decoding::replies::is_taken_reply_code;
use crate::faults::PacketFault;
use crate::keys::Keys;
use crate::packets::{ACCESS_REQUEST, ACCOUNTING_REQUEST, Packet};
use avp_dict::Dictionary;
use std::alloc::Global;

fn is_request_code(code: u8) -> bool
    ensures { result ≡ is_request_code code }
{
    matches!(code, ACCESS_REQUEST | ACCOUNTING_REQUEST)
}

// The code of a packet; 0 where there are no octets.
fn code_of(octets: &[u8]) -> u8
    ensures { result ≡ code_of octets.now }
{
    match octets {
        [code, ..] => *code,
        [] => 0,
    }
}

// The packet of these octets, of which none is shown, where its code is taken.
#[tactic(auto, unfolding(crate::specs::Unchecked::unchecked_where))]
fn unchecked_where(
    alloc: Global,
    dictionary: &Dictionary,
    octets: &[u8],
    taken: bool,
) -> Result<Packet, PacketFault>
    ensures fits { IfOk result (λ packet.
        All (λ pair. fits pair dictionary.now ≡ true) packet.list) }
    ensures means { IfOk result (λ packet. Means dictionary.now [] zeros
        (parts (attributes_of octets.now)) packet.list) }
    ensures read { Meets is_memory result (unchecked_where dictionary.now octets.now taken) }
    ensures memory { IfErr result (λ fault. IsTrue (is_memory fault)
        → IsOk (unchecked_where dictionary.now octets.now taken)) }
    ensures taken { OnOk result (taken ≡ true) }
    ensures code { IfOk result (λ packet. packet.code ≡ code_of octets.now) }
    ensures few { IfOk result (λ packet. length packet.list ≤ max_pairs) }
{
    let count = count_whole(octets)?;
    if !taken {
        return Err(PacketFault::CodeNotTaken);
    }
    let keys = Keys {
        dictionary,
        secret: &[],
        authenticator: &ZEROS,
        last_id: None,
        last_vendor: None,
    };
    Ok(read_packet(alloc, &keys, octets, count)?)
}

/// Reads an Access-Request or an Accounting-Request whose secret is not known. No authenticator is looked at, and the
/// values of hidden attributes are their octets. It is refused as by [`decode`](crate::decode), but for the digests.
///
/// ```rust
/// // The octets of `User-Name = "bob", NAS-Port = 3`, with the identifier 7.
/// let request = decode_unchecked(alloc, dictionary, octets)?;
/// assert_eq!(rt; (request.code, request.list.as_slice().len()), (ACCESS_REQUEST, 2));
/// let refused = decode_reply_unchecked(alloc, dictionary, octets).err();
/// assert_eq!(rt; refused, Some(PacketFault::CodeNotTaken));
/// ```
pub fn decode_unchecked(
    alloc: Global,
    dictionary: &Dictionary,
    octets: &[u8],
) -> Result<Packet, PacketFault>
    ensures fits { IfOk result (λ packet.
        All (λ pair. fits pair dictionary.now ≡ true) packet.list) }

    // The list is the one that the attributes mean where nothing is shown.
    ensures means { IfOk result (λ packet. Means dictionary.now [] zeros
        (parts (attributes_of octets.now)) packet.list) }
    ensures read { Meets is_memory result (decoded_unchecked dictionary.now octets.now) }
    ensures memory { IfErr result (λ fault. IsTrue (is_memory fault)
        → IsOk (decoded_unchecked dictionary.now octets.now)) }
    ensures code { IfOk result (λ packet. IsRequestCode packet.code) }
    ensures few { IfOk result (λ packet. length packet.list ≤ max_pairs) }
{
    unchecked_where(alloc, dictionary, octets, is_request_code(code_of(octets)))
}

/// Reads an Access-Accept, an Access-Reject, an Accounting-Response or an Access-Challenge as
/// [`decode_unchecked`] reads requests. It is refused as by [`decode_reply`](crate::decode_reply), but for the digests.
pub fn decode_reply_unchecked(
    alloc: Global,
    dictionary: &Dictionary,
    octets: &[u8],
) -> Result<Packet, PacketFault>
    ensures fits { IfOk result (λ packet.
        All (λ pair. fits pair dictionary.now ≡ true) packet.list) }
    ensures means { IfOk result (λ packet. Means dictionary.now [] zeros
        (parts (attributes_of octets.now)) packet.list) }
    ensures read { Meets is_memory result (decoded_reply_unchecked dictionary.now octets.now) }
    ensures memory { IfErr result (λ fault. IsTrue (is_memory fault)
        → IsOk (decoded_reply_unchecked dictionary.now octets.now)) }
    ensures code { IfOk result (λ packet. IsTakenReplyCode packet.code) }
    ensures few { IfOk result (λ packet. length packet.list ≤ max_pairs) }
{
    unchecked_where(
        alloc,
        dictionary,
        octets,
        is_taken_reply_code(code_of(octets)),
    )
}
