//! One call of each that `radpolicy_traffic_packets` makes a packet by. Packets of records, and what is refused, are in
//! the cases of tests/replays. The packet was made by another program.

use attribute_tests::samples::test_dictionary;
use avp_dict::Dictionary;
use radpolicy_traffic::{Code, Record, Reply};
use radpolicy_traffic_packets::{TextFault, reply_packet, request_packet};
use std::alloc::{AllocError, Global};
use std::test::Fail;

const SECRET: &[u8] = b"testing123";

const ACCOUNTING: &[u8] =
    b"\x04\x00\x00\x1e\x3f\xe1\x1d\xd5\xce\x41\x0e\x96\xab\x6a\x36\x90\x8e\xc8\x7b\x1e\
    \x28\x06\x00\x00\x00\x01\x2c\x0417";

// A record of a request with these lines.
fn record_of(alloc: Global, code: Code, lines: &[u8]) -> Result<Record, AllocError> {
    Ok(Record {
        line: 1,
        identifier: Vec::new(alloc),
        source: None,
        code,
        request: Vec::from_slice(alloc, lines)?,
        reply: None,
        initial_reply: Vec::new(alloc),
        initial_control: Vec::new(alloc),
        is_too_long: false,
    })
}

#[test]
fn a_request_is_a_packet(rt: HostRuntime) -> Result<(), Fail> {
    let alloc = rt.alloc();
    let dictionary: Dictionary = test_dictionary(alloc)?;
    let lines = b"Acct-Status-Type = Start\nAcct-Session-Id = \"17\"\n";
    let mut record = record_of(alloc, Code::AccountingRequest, lines)?;
    let made = request_packet(alloc, &dictionary, SECRET, None, &record);
    assert!(&rt; matches!(&made, Ok(packet) if packet.as_slice() == ACCOUNTING));
    record.is_too_long = true;
    let made = request_packet(alloc, &dictionary, SECRET, None, &record);
    assert!(&rt; matches!(&made, Err(fault) if *fault == TextFault::TooLong));
    let record = record_of(alloc, Code::Other, lines)?;
    let made = request_packet(alloc, &dictionary, SECRET, None, &record);
    assert!(&rt; matches!(&made, Err(fault) if *fault == TextFault::OtherCode));
    Ok(())
}

#[test]
fn a_challenge_is_no_reply_packet(rt: HostRuntime) -> Result<(), Fail> {
    let dictionary: Dictionary = test_dictionary(rt.alloc())?;
    let reply = Reply {
        code: Code::AccessChallenge,
        lines: Vec::new(rt.alloc()),
    };
    let made = reply_packet(rt.alloc(), &dictionary, SECRET, None, &[0; 16], &reply);
    assert!(&rt; matches!(&made, Err(fault) if *fault == TextFault::OtherCode));
    Ok(())
}
