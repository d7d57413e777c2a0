//! What the tests share: heads of requests, pairs, and runs by lines.

use avp_forms::Profile;
use avp_lists::{AttrId, Octets, Pair, Value};
use radpolicy::{PreparedPolicy, RequestHead, RequestKind, Start};
use std::alloc::{AllocError, Global};
use std::test::Fail;

pub const ACCESS: RequestHead = RequestHead {
    kind: RequestKind::Access,
    id: 7,
    authenticator: None,
};

pub const ACCOUNTING: RequestHead = RequestHead {
    kind: RequestKind::Accounting,
    id: 7,
    authenticator: None,
};

/// A Class of one octet.
pub fn class(alloc: Global, octet: u8) -> Result<Pair, AllocError> {
    Ok(Pair {
        id: AttrId::Plain(25),
        value: Value::Bytes(Octets::from_slice(alloc, &[octet])?),
    })
}

/// The start of a run over an Access-Request of these lines, without a secret.
pub fn start<'a>(
    alloc: Global,
    prepared: &'a PreparedPolicy<'a>,
    lines: &[u8],
) -> Result<Start<'a>, Fail> {
    Ok(Start::of_lines(alloc, prepared, None, ACCESS, Profile::Plain, None, lines)?)
}

/// The report of a run over these request, reply and control lines.
pub fn run_of<'a>(
    alloc: Global,
    prepared: &'a PreparedPolicy<'a>,
    lists: [&[u8]; 3],
) -> Result<Vec<u8>, Fail> {
    let [request, reply, control] = lists;
    let outcome = start(alloc, prepared, request)?
        .with_reply_lines(alloc, Profile::Plain, None, reply)?
        .with_control_lines(alloc, Profile::Plain, None, control)?
        .run(alloc)?;
    Ok(outcome.text(alloc)?)
}
