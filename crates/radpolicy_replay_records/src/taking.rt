//! Which records are taken.

ghost use Rattle.std.specs.Prelude.{◌≡◌};
ghost use Rattle.radpolicy_replay_records.specs.Taking.{begins_with, is_taken, may_have_code};

use radpolicy_record_answers::{CapturedReply, Entry};

// The code of an Access-Challenge (RFC 2865, section 4.4).
const ACCESS_CHALLENGE: u8 = 11;

fn begins_with(code: u8, octets: &[u8]) -> bool
    ensures { result ≡ begins_with code octets.now }
{
    match octets {
        [first, ..] => *first == code,
        [] => false,
    }
}

fn may_have_code(code: u8, reply: &CapturedReply) -> bool
    ensures { result ≡ may_have_code code reply.now }
{
    match reply {
        CapturedReply::Octets(octets) => begins_with(code, octets.as_slice()),
        CapturedReply::Challenge => code == ACCESS_CHALLENGE,
        CapturedReply::Unread(_) => true,
        CapturedReply::Missing => false,
    }
}

/// Whether a record that says this is taken: any, or where a code is asked for, one to which a reply with that was
/// captured, or that can't be read.
pub(crate) fn is_taken(only: Option<u8>, entry: &Entry) -> bool
    ensures { result ≡ is_taken only entry.now }
{
    match (only, &entry.request) {
        (Some(code), Ok(_)) => may_have_code(code, &entry.reply),
        (Some(_), Err(_)) | (None, _) => true,
    }
}
