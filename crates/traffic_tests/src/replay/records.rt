//! The request of a record's line, and records as lines of packets.

use attribute_tests::samples::test_dictionary;
use radpolicy::{Fault, Secret};
use radpolicy_record_answers::{MAX_LINE_OCTETS, entry_of_record, request_octets};
use radpolicy_replay_records::{RecordReader, Records};
use radpolicy_traffic::Format;
use std::alloc::Global;
use std::test::Fail;

// Lines, and the last octets of their requests.
const LINES: [(&[u8], &[u8]); 4] = [
    (b"0107001400112233445566778899aabbccddeeff", b"\xee\xff"),
    (
        b"login 10.0.0.1 0107001400112233445566778899AABBCCDDEEFF\r",
        b"\xee\xff",
    ),
    (
        b"0107001400112233445566778899aabbccddeeff 0207001400112233445566778899aabbccddee00",
        b"\xee\xff",
    ),
    // A word of 38 digits is too short for a packet.
    (
        b"0107001400112233445566778899aabbccddee 0107001400112233445566778899aabbccddee00",
        b"\xee\x00",
    ),
];

const REFUSED: [&[u8]; 4] = [
    b"",
    b"no packet",
    b"0107001400112233445566778899aabbccddeeff0",
    b"0107001400112233445566778899aabbccddeefg",
];

#[test]
fn requests_are_read(rt: HostRuntime) -> Result<(), Fail> {
    let alloc = rt.alloc();
    for (line, end) in LINES {
        let octets = request_octets(alloc, line)?;
        assert_eq!(&rt; octets.len(), 20);
        assert!(&rt; octets.ends_with(end));
    }
    for line in REFUSED {
        assert_eq!(&rt; request_octets(alloc, line).err(), Some(Fault::NotHex));
    }
    Ok(())
}

#[test]
fn long_lines_are_refused(rt: HostRuntime) -> Result<(), Fail> {
    let alloc = rt.alloc();
    let line = vec![in alloc; b'0'; MAX_LINE_OCTETS]?;
    assert_eq!(&rt; request_octets(alloc, &line)?.len(), MAX_LINE_OCTETS / 2);
    let line = vec![in alloc; b'0'; MAX_LINE_OCTETS + 1]?;
    assert_eq!(&rt;
        request_octets(alloc, &line).err(),
        Some(Fault::PacketTooLong)
    );
    Ok(())
}

const REQUESTS: &[u8] = b"NAS-Port = 3\n\nNAS-Port = x\n\nNAS-Port = 4\nreply:Class = 0x01\n";

// The lines of packets of the records, which are from one source.
fn packet_lines(alloc: Global) -> Result<Vec<u8>, Fail> {
    let dictionary = test_dictionary(alloc)?;
    let secret = Some(Secret::new(b"testing123")?);
    let mut records = RecordReader::new(alloc, REQUESTS, Format::Records)?;
    let mut text = Vec::new(alloc);
    for number in 1..4 {
        let Some(record) = records.next_record()? else {
            return Ok(text);
        };
        let entry = entry_of_record(alloc, &dictionary, None, &secret, &record)?;
        entry.push_packet_line(&mut text, number, b"192.0.2.1")?;
    }
    Ok(text)
}

#[test]
fn a_record_without_packets_keeps_its_line(rt: HostRuntime) -> Result<(), Fail> {
    let wanted = b"1 192.0.2.1 0100001a00000000000000000000000000000000050600000003
2 E30 not a value line 1
3 initial lists
";
    assert_eq!(&rt; packet_lines(rt.alloc())?.as_slice(), wanted.as_slice());
    Ok(())
}
