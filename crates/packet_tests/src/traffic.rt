//! One call of each of `radpolicy_traffic`. The records of each format, and what is more than a reader keeps, are in
//! the cases of tests/traffic.

use radpolicy_traffic::{Code, Format, Reader, format_of};
use std::test::Fail;

#[test]
fn a_record_is_read(rt: HostRuntime) -> Result<(), Fail> {
    assert!(rt; format_of(b"no line\n\xff\x00\n=\n").is_none());
    assert!(rt; format_of(b"User-Name = bob\n") == Some(Format::Records));
    let mut reader = Reader::new(rt.alloc(), Format::Records);
    // Octets of any kind stay in their line.
    assert!(rt; reader.line(b"Class = \x00\xff\r")?.is_none());
    assert!(rt; reader.line(b"\x00")?.is_none());
    let Some(record) = reader.end() else {
        return Err(Fail::new("no record"));
    };
    assert!(rt; matches!(record.code, Code::AccessRequest) && !record.is_too_long);
    let lines = b"Class = \x00\xff\r\n\x00\n";
    assert_eq!(rt; record.request.as_slice(), lines.as_slice());
    Ok(())
}
