//! Hiding of passwords (RFC 2865, section 5.2).

ghost use Rattle.std.specs.Prelude.{◌≡◌, ◌++◌, ◌*◌, ◌/◌, ◌<◌, ◌≤◌, ◌↔◌, true, false, length, IfOk, OnOk, Some, Err};
ghost use Rattle.std.specs.Option.{option_map};
ghost use Rattle.md5.specs.Md5.{md5};
ghost use Rattle.avp_dict.specs.Octets.{is_hideable};
ghost use Rattle.avp_dict.specs.Sent.{is_block_length};
ghost use Rattle.avp_packet.specs.Hiding.{block_count, hidden, hidden_blocks, masked, padded, shown, shown_blocks, shown_by, without_last_nuls};

use crate::faults::HideFault;
use avp_dict::{MAX_HIDDEN_OCTETS, ends_in_nul, is_hideable};
use md5::{Digest, Md5};
use std::alloc::{AllocError, Global};

/// The octets of a block that is hidden by a digest.
const BLOCK_OCTETS: usize = 16;

fn mask_of(secret: &[u8], before: &[u8; 16]) -> [u8; 16]
    ensures { result ≡ md5 (secret.now ++ before.now) }
{
    let mut hasher = Md5::new();
    hasher.update(secret);
    hasher.update(before);
    hasher.finalize()
}

/// Each octet exclusive-or the mask's octet.
pub(crate) fn masked<const N: usize>(mask: &[u8; N], block: &[u8; N]) -> [u8; N]
    ensures { result ≡ masked mask.now block.now }
{
    let mut octets = *mask;
    for place in 0..N {
        octets[place] ^= block[place];
    }
    octets
}

fn block_count(length: usize) -> usize
    requires { length ≤ MAX_HIDDEN_OCTETS }
    ensures { result ≡ block_count length }
{
    1 + length.saturating_sub(1) / BLOCK_OCTETS
}

/// How many octets a password of so many is hidden in.
pub(crate) fn hidden_length(length: usize) -> usize
    requires { length ≤ MAX_HIDDEN_OCTETS }
    ensures { result ≡ 16 * block_count length }
{
    BLOCK_OCTETS * block_count(length)
}

// The password, with NULs up to whole blocks.
fn padded(alloc: Global, password: &[u8]) -> Result<Vec<u8>, AllocError>
    requires { length password.now ≤ MAX_HIDDEN_OCTETS }
    ensures { IfOk result (λ octets. octets.items ≡ padded password.now) }
{
    let mut octets = Vec::from_slice(alloc, password)?;
    octets.resize(BLOCK_OCTETS * block_count(password.len()), 0)?;
    Ok(octets)
}

fn hidden_blocks(
    alloc: Global,
    secret: &[u8],
    authenticator: &[u8; 16],
    padded: &[u8],
) -> Result<Vec<u8>, AllocError>
    ensures { IfOk result (λ octets. octets.items
        ≡ hidden_blocks (length padded.now / 16) secret.now authenticator.now padded.now) }
{
    let mut octets = Vec::with_capacity(alloc, padded.len())?;
    let mut before = *authenticator;
    let mut rest = padded;
    while let Some((block, after)) = rest.split_first_chunk::<BLOCK_OCTETS>() {
        before = masked(&mask_of(secret, &before), block);
        octets.extend_from_slice(&before)?;
        rest = after;
    }
    Ok(octets)
}

fn shown_blocks(
    alloc: Global,
    secret: &[u8],
    authenticator: &[u8; 16],
    hidden: &[u8],
) -> Result<Vec<u8>, AllocError>
    ensures { IfOk result (λ octets. octets.items
        ≡ shown_blocks (length hidden.now / 16) secret.now authenticator.now hidden.now) }
{
    let mut octets = Vec::with_capacity(alloc, hidden.len())?;
    let mut before = *authenticator;
    let mut rest = hidden;
    while let Some((block, after)) = rest.split_first_chunk::<BLOCK_OCTETS>() {
        octets.extend_from_slice(&masked(&mask_of(secret, &before), block))?;
        before = *block;
        rest = after;
    }
    Ok(octets)
}

fn drop_last_nuls(octets: &mut Vec<u8>)
    ensures { octets.new.items ≡ without_last_nuls octets.old.items }
{
    while ends_in_nul(octets) {
        octets.pop();
    }
}

fn is_block_length(length: usize) -> bool
    ensures { result ≡ is_block_length length }
{
    length % BLOCK_OCTETS == 0 && length >= BLOCK_OCTETS && length <= MAX_HIDDEN_OCTETS
}

/// A short password's octets hidden.
#[tactic(auto, unfolding(crate::specs::Hiding::hidden))]
pub(crate) fn hidden(
    alloc: Global,
    secret: &[u8],
    authenticator: &[u8; 16],
    password: &[u8],
) -> Result<Vec<u8>, AllocError>
    requires { length password.now ≤ MAX_HIDDEN_OCTETS }
    ensures { IfOk result (λ octets. octets.items
        ≡ hidden secret.now authenticator.now password.now) }
{
    let padded = padded(alloc, password)?;
    hidden_blocks(alloc, secret, authenticator, &padded)
}

/// A password's octets hidden, in whole blocks of 16 octets (RFC 2865, section 5.2).
///
/// ```rust
/// let hidden = hide(alloc, b"testing123", authenticator, b"hello")?;
/// assert_eq!(rt; hidden.len(), 16);
/// let shown = unhide(alloc, b"testing123", authenticator, &hidden)?.ok_or("not shown")?;
/// assert_eq!(rt; shown.as_slice(), b"hello".as_slice());
/// ```
pub fn hide(
    alloc: Global,
    secret: &[u8],
    authenticator: &[u8; 16],
    password: &[u8],
) -> Result<Vec<u8>, HideFault>
    requires { 0 < length secret.now }
    ensures hidden { IfOk result (λ octets. octets.items
        ≡ hidden secret.now authenticator.now password.now) }
    ensures hideable { OnOk result (is_hideable password.now ≡ true) }
    ensures too_long { (result ≡ Err HideFault.TooLong) ↔ (is_hideable password.now ≡ false) }

    // What is hidden is shown again.
    ensures shown { IfOk result (λ octets. shown secret.now authenticator.now octets.items
        ≡ Some password.now) }
{
    if !is_hideable(password) {
        return Err(HideFault::TooLong);
    }
    Ok(hidden(alloc, secret, authenticator, password)?)
}

/// Hidden octets shown.
#[tactic(auto, unfolding(crate::specs::Hiding::shown))]
pub(crate) fn shown(
    alloc: Global,
    secret: &[u8],
    authenticator: &[u8; 16],
    hidden: &[u8],
) -> Result<Option<Vec<u8>>, AllocError>
    ensures { IfOk result (λ password. option_map (λ octets. octets.items) password
        ≡ shown secret.now authenticator.now hidden.now) }
{
    if !is_block_length(hidden.len()) {
        return Ok(None);
    }
    let mut octets = shown_blocks(alloc, secret, authenticator, hidden)?;
    drop_last_nuls(&mut octets);
    Ok(Some(octets))
}

/// Hidden octets shown where there is a secret.
pub(crate) fn shown_by(
    alloc: Global,
    secret: &[u8],
    authenticator: &[u8; 16],
    hidden: &[u8],
) -> Result<Option<Vec<u8>>, AllocError>
    ensures { IfOk result (λ password. option_map (λ octets. octets.items) password
        ≡ shown_by secret.now authenticator.now hidden.now) }
{
    match secret {
        [] => Ok(None),
        [..] => shown(alloc, secret, authenticator, hidden),
    }
}

/// Hidden octets shown, without the NULs at their end; `None` where their number is not 16, 32, .. 128.
pub fn unhide(
    alloc: Global,
    secret: &[u8],
    authenticator: &[u8; 16],
    hidden: &[u8],
) -> Result<Option<Vec<u8>>, AllocError>
    requires { 0 < length secret.now }
    ensures { IfOk result (λ password. option_map (λ octets. octets.items) password
        ≡ shown secret.now authenticator.now hidden.now) }
{
    shown(alloc, secret, authenticator, hidden)
}
