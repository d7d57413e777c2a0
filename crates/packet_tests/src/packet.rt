//! Calls of packets that no example makes, packets that are full, and digests. What is read, written and refused is in
//! the rows of tests/rows.

use attribute_tests::samples::{all_fit, octets, test_dictionary};
use avp_dict::Dictionary;
use avp_lists::{AttrId, Pair, Value};
use avp_packet::{
    ACCESS_ACCEPT, ACCESS_REQUEST, ACCOUNTING_REQUEST, decode, decode_reply_unchecked,
    encode_reply, encode_request, encoded_authenticator, hide, unhide,
};
use md5::{Digest, Md5};
use std::alloc::Global;
use std::process::Abort;
use std::test::Fail;

const ZEROS: [u8; 16] = [0; 16];

#[test]
fn digests(rt: HostRuntime) {
    assert_eq!(rt;
        Md5::digest(b""),
        [
            0xd4, 0x1d, 0x8c, 0xd9, 0x8f, 0x00, 0xb2, 0x04, 0xe9, 0x80, 0x09, 0x98, 0xec, 0xf8,
            0x42, 0x7e
        ]
    );
    assert_eq!(rt;
        Md5::digest(b"abc"),
        [
            0x90, 0x01, 0x50, 0x98, 0x3c, 0xd2, 0x4f, 0xb0, 0xd6, 0x96, 0x3f, 0x7d, 0x28, 0xe1,
            0x7f, 0x72
        ]
    );
}

fn expect_full_packets(
    rt: &impl Abort,
    alloc: Global,
    dictionary: &Dictionary,
    list: &[Pair],
) -> Result<(), Fail> {
    if !all_fit(dictionary, list) {
        return Err(Fail::new("no fit"));
    }
    let code = ACCESS_REQUEST;
    let written = encode_request(alloc, dictionary, b"s", code, 0, &ZEROS, list)?;
    assert_eq!(rt; written.len(), 4096);
    let packet = decode(alloc, dictionary, b"s", &written)?;
    assert!(rt; packet.list.as_slice() == list);
    let code = ACCESS_ACCEPT;
    let reply = encode_reply(alloc, dictionary, b"s", code, 0, &ZEROS, list, &[], false)?;
    assert_eq!(rt; reply.len(), 4096);
    Ok(())
}

#[test]
fn full_packets(rt: HostRuntime) -> Result<(), Fail> {
    let dictionary = test_dictionary(rt.alloc())?;
    let mut list = Vec::new(rt.alloc());
    list.push(Pair {
        id: AttrId::Extended(245, 1),
        value: Value::Bytes(octets(rt.alloc(), &[0xaa; 4012])?),
    })?;
    expect_full_packets(&rt, rt.alloc(), &dictionary, &list)
}

// The authenticator that is found for a request is the one in its packet.
fn expect_authenticator(
    rt: &impl Abort,
    alloc: Global,
    dictionary: &Dictionary,
) -> Result<(), Fail> {
    let code = ACCOUNTING_REQUEST;
    let found = encoded_authenticator(alloc, dictionary, b"s", code, 7, &ZEROS, &[])?;
    let written = encode_request(alloc, dictionary, b"s", code, 7, &ZEROS, &[])?;
    assert_eq!(rt; written.get(4..20), Some(found.as_slice()));
    Ok(())
}

// A reply without attributes, whose digest nobody looks at.
fn expect_reply(rt: &impl Abort, alloc: Global, dictionary: &Dictionary) -> Result<(), Fail> {
    let octets = [2, 7, 0, 20, 0, 0, 0, 0, 0, 0, 0, 0, 0, 0, 0, 0, 0, 0, 0, 0];
    let packet = decode_reply_unchecked(alloc, dictionary, &octets)?;
    assert_eq!(rt; (packet.code, packet.id), (2, 7));
    Ok(())
}

#[test]
fn other_calls(rt: HostRuntime) -> Result<(), Fail> {
    let alloc = rt.alloc();
    let dictionary = test_dictionary(alloc)?;
    expect_authenticator(&rt, alloc, &dictionary)?;
    expect_reply(&rt, alloc, &dictionary)?;
    let hidden = hide(alloc, b"s", &ZEROS, b"arctangent")?;
    let shown = unhide(alloc, b"s", &ZEROS, &hidden)?.ok_or("not shown")?;
    assert_eq!(rt; shown.as_slice(), b"arctangent".as_slice());
    Ok(())
}
