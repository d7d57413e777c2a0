//! The digest of a packet under the secret (RFC 2104, section 2; RFC 3579, section 3.2).

ghost use Rattle.std.specs.Prelude.{◌≡◌, ◌++◌};
ghost use Rattle.md5.specs.Md5.{Holds};
ghost use Rattle.avp_packet.specs.AttributeOctets.{part};
ghost use Rattle.avp_packet.specs.Hiding.{masked};
ghost use Rattle.avp_packet.specs.Hmac.{hmac, key_block};
ghost use Rattle.avp_packet.specs.Packets.{zeros};
ghost use Rattle.avp_packet.specs.Splitting.{part_octets};

use crate::attribute::numbers::MESSAGE_AUTHENTICATOR;
use crate::attribute::splitting::ATTRIBUTE_HEAD_OCTETS;
use crate::authenticators::{DIGEST_OCTETS, ZEROS};
use crate::hiding::masked;
use md5::{Digest, Md5};

/// The octets of a block of MD5.
const MD5_BLOCK_OCTETS: usize = 64;

const INNER_PAD: [u8; MD5_BLOCK_OCTETS] = [0x36; MD5_BLOCK_OCTETS];

const OUTER_PAD: [u8; MD5_BLOCK_OCTETS] = [0x5c; MD5_BLOCK_OCTETS];

/// The octets of a Message-Authenticator: Type, Length and 16 of Value.
pub(crate) const SIGNATURE_OCTETS: usize = ATTRIBUTE_HEAD_OCTETS + DIGEST_OCTETS;

// The Type and Length of a Message-Authenticator.
const SIGNATURE_HEAD: [u8; ATTRIBUTE_HEAD_OCTETS] = [MESSAGE_AUTHENTICATOR, SIGNATURE_OCTETS as u8];

// The key, or the digest of a long one, with zeros up to a block.
fn key_block(key: &[u8]) -> [u8; MD5_BLOCK_OCTETS]
    ensures { result ≡ key_block key.now }
{
    let mut block = [0; MD5_BLOCK_OCTETS];
    if key.len() <= MD5_BLOCK_OCTETS {
        block[..key.len()].copy_from_slice(key);
    } else {
        let digest = Md5::digest(key);
        block[..digest.len()].copy_from_slice(&digest);
    }
    block
}

// A hasher of the key under a pad.
fn keyed_hasher(pad: &[u8; MD5_BLOCK_OCTETS], key: &[u8; MD5_BLOCK_OCTETS]) -> Md5
    ensures { Holds result (masked pad.now key.now) }
{
    let mut hasher = Md5::new();
    hasher.update(&masked(pad, key));
    hasher
}

/// HMAC-MD5, the digest of a text under a key.
#[tactic(auto, unfolding(crate::specs::Hmac::hmac))]
pub(crate) fn hmac(key: &[u8], text: &[u8]) -> [u8; 16]
    ensures { result ≡ hmac key.now text.now }
{
    let key = key_block(key);
    let mut inner = keyed_hasher(&INNER_PAD, &key);
    inner.update(text);
    let mut outer = keyed_hasher(&OUTER_PAD, &key);
    outer.update(&inner.finalize());
    outer.finalize()
}

/// The octets that sign a packet. Its Message-Authenticator is between those before and those after, with zeros for its
/// value.
#[tactic(auto, unfolding(crate::specs::Hmac::hmac))]
pub(crate) fn signature_between(
    secret: &[u8],
    code_id_length: &[u8],
    authenticator: &[u8; 16],
    before: &[u8],
    after: &[u8],
) -> [u8; 16]
    ensures { result ≡ hmac secret.now (code_id_length.now ++ authenticator.now ++ before.now
        ++ part_octets (part MESSAGE_AUTHENTICATOR zeros) ++ after.now) }
{
    let key = key_block(secret);
    let mut inner = keyed_hasher(&INNER_PAD, &key);
    inner.update(code_id_length);
    inner.update(authenticator);
    inner.update(before);
    inner.update(&SIGNATURE_HEAD);
    inner.update(&ZEROS);
    inner.update(after);
    let mut outer = keyed_hasher(&OUTER_PAD, &key);
    outer.update(&inner.finalize());
    outer.finalize()
}
