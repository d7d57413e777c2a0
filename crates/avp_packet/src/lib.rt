//! RADIUS packets: attribute lists read and written, hidden passwords, and authenticators.
//!
//! [`decode`] reads a request and [`decode_reply`] its reply, [`encode_request`] and [`encode_reply`] write packets,
//! and [`check_reply`] and [`check_message`] look at their digests, by RFC 2865, RFC 2866, RFC 3579 and RFC 6929. Where
//! no secret is known, [`decode_unchecked`] and [`decode_reply_unchecked`] read what can be read without one.
#![tactic(auto)]

mod attribute;
mod authenticators;
mod decoding;
mod encoding;
mod faults;
mod hiding;
mod hmac;
mod keys;
mod packets;
mod signing;

pub use attribute::splitting::{Attribute, Attributes, BadLength};
pub use attribute::walking::attributes;
pub use authenticators::{MAX_PACKET_OCTETS, check_reply};
pub use decoding::replies::decode_reply;
pub use decoding::requests::decode;
pub use decoding::unchecked::{decode_reply_unchecked, decode_unchecked};
pub use encoding::packets::{encode_reply, encode_request, encoded_authenticator};
pub use faults::{EncodeFault, HideFault, PacketFault};
pub use hiding::{hide, unhide};
pub use packets::{
    ACCESS_ACCEPT, ACCESS_CHALLENGE, ACCESS_REJECT, ACCESS_REQUEST, ACCOUNTING_REQUEST,
    ACCOUNTING_RESPONSE, Packet,
};
pub use signing::check_message;
