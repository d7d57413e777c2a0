//! The line and the status of each kind of fault, and outputs and inputs at their ends.

ghost use Rattle.std.specs.Prelude.{◌≡◌, true};
ghost use Rattle.radpolicy.specs.Faults.{IsPrintedWith};

use crate::program::Narrow;
use avp_dict::{DictFault, DictKind, FileSet, LineFault, LineKind, NamedFile};
use avp_lists::Octets;
use avp_packet::PacketFault;
use avp_patterns::PatternFault;
use avp_unlang::{PolicyFault, PolicyKind};
use radpolicy::{Fault, Output, OutputError, WriteOutput, print_fault, read_input, status};
use std::alloc::{AllocError, Global};
use std::process::Abort;
use std::test::Fail;

// Two dictionary files.
fn two_files(alloc: Global) -> Result<FileSet, AllocError> {
    let mut files = Vec::new(alloc);
    for path in ["raddb/d", "raddb/local/more"] {
        let octets = Octets::from_vec(Vec::new(alloc));
        files.push(NamedFile::at(alloc, path, octets)?)?;
    }
    Ok(FileSet::from_vec(files))
}

// Whether the line of a fault can be printed with these files.
fn can_print(fault: Fault, files: &FileSet) -> bool
    ensures { result ≡ true → IsPrintedWith files.now fault }
{
    match fault {
        Fault::Help | Fault::FileNotReadable => false,
        Fault::Dictionary(fault) => fault.file < files.as_slice().len(),
        _ => true,
    }
}

// The fault has this line after the program's name, which ends with its text, and this status.
fn expect_line(
    rt: &impl Abort,
    alloc: Global,
    fault: Fault,
    wanted_status: u8,
    wanted: &str,
) -> Result<(), Fail> {
    let files = two_files(alloc)?;
    assert!(rt; can_print(fault, &files));
    let mut held: Vec<u8> = Vec::new(alloc);
    assert!(rt; print_fault(&fault, &files, &mut WriteOutput::new(&mut held)));
    let line = format!(in alloc; "radpolicy: {wanted}\n")?;
    assert_eq!(rt; held.as_slice(), line.as_bytes());
    let shown = format!(in alloc; "{fault}")?;
    assert!(rt; wanted.ends_with(shown.as_str()));
    assert_eq!(rt; status(&fault), wanted_status);
    Ok(())
}

// Faults, their status and their line after the program's name.
const FAULTS: [(Fault, u8, &str); 19] = [
    (Fault::Usage, 2, "E01: usage"),
    (Fault::OptionValue, 2, "E02: option value"),
    (Fault::EmptySecret, 2, "E03: empty secret"),
    (Fault::NotHex, 2, "E05: not hex"),
    (
        Fault::ScriptWord { line: 7 },
        2,
        "E06 script:7: unknown script word",
    ),
    (Fault::Write, 3, "E07: write fault"),
    (Fault::Memory, 4, "E09: out of memory"),
    (Fault::PacketTooLong, 2, "E46: packet too long"),
    (
        Fault::Dictionary(DictFault {
            file: 0,
            line: 2,
            offset: 34,
            kind: DictKind::OtherNumber,
        }),
        2,
        "E12 d:2: name has another number",
    ),
    (
        Fault::Dictionary(DictFault {
            file: 1,
            line: 200_000,
            offset: 0,
            kind: DictKind::OtherValue,
        }),
        2,
        "E19 more:200000: VALUE has another number",
    ),
    (
        Fault::Dictionary(DictFault {
            file: 0,
            line: 0,
            offset: 0,
            kind: DictKind::Memory,
        }),
        4,
        "E09: out of memory",
    ),
    (
        Fault::Request(LineFault {
            line: 3,
            offset: 40,
            kind: LineKind::SecondPacket,
        }),
        2,
        "E34 request:3: second packet",
    ),
    (
        Fault::Request(LineFault {
            line: 1,
            offset: 0,
            kind: LineKind::Memory,
        }),
        4,
        "E09: out of memory",
    ),
    (
        Fault::Packet(PacketFault::TooShort),
        2,
        "E40: fewer than 20 octets",
    ),
    (
        Fault::Packet(PacketFault::BadAttribute(20)),
        2,
        "E43 offset 20: bad attribute length",
    ),
    (
        Fault::Policy(PolicyFault {
            line: 12,
            offset: 0,
            kind: PolicyKind::NotWritable,
        }),
        2,
        "E33 policy:12: not writable",
    ),
    (
        Fault::Policy(PolicyFault {
            line: 1,
            offset: 0,
            kind: PolicyKind::OtherType,
        }),
        2,
        "E55 policy:1: types differ",
    ),
    (
        Fault::Policy(PolicyFault {
            line: 3,
            offset: 40,
            kind: PolicyKind::Pattern(PatternFault::NotRead(2)),
        }),
        2,
        "E59 policy:3: not a pattern",
    ),
    (
        Fault::Policy(PolicyFault {
            line: 1,
            offset: 0,
            kind: PolicyKind::Memory,
        }),
        4,
        "E09: out of memory",
    ),
];

#[test]
fn shows_the_line_and_the_status_of_faults(rt: HostRuntime) -> Result<(), Fail> {
    for (fault, status, line) in FAULTS {
        expect_line(&rt, rt.alloc(), fault, status, line)?;
    }
    Ok(())
}

#[test]
fn says_that_the_output_failed(rt: HostRuntime) -> Result<(), Fail> {
    let files = two_files(rt.alloc())?;
    let mut writer = Narrow {
        held: Vec::new(rt.alloc()),
        room: 12,
    };
    let is_put = print_fault(&Fault::Usage, &files, &mut WriteOutput::new(&mut writer));
    assert!(rt; !is_put);
    let Narrow { held, room: _ } = writer;
    assert_eq!(rt; held.as_slice(), b"radpolicy: E".as_slice());
    Ok(())
}

// An output takes what its writer takes, and fails where it takes nothing.
#[test]
fn puts_until_the_writer_is_full(rt: HostRuntime) -> Result<(), Fail> {
    let mut writer = Narrow {
        held: Vec::new(rt.alloc()),
        room: 3,
    };
    let mut out = WriteOutput::new(&mut writer);
    assert_eq!(rt; out.put(b"re"), Ok(2));
    assert_eq!(rt; out.put(b"quest\n"), Ok(1));
    assert_eq!(rt; out.put(b"uest\n"), Err(OutputError));
    assert_eq!(rt; out.put(b"reply\n"), Err(OutputError));
    let Narrow { held, room: _ } = writer;
    assert_eq!(rt; held.as_slice(), b"req".as_slice());
    Ok(())
}

#[test]
fn reads_all_of_an_input(rt: HostRuntime) -> Result<(), Fail> {
    let octets = b"abc".as_slice();
    let input = read_input(rt.alloc(), octets)?.ok_or("short enough")?;
    assert_eq!(rt; input.as_slice(), octets);
    Ok(())
}
