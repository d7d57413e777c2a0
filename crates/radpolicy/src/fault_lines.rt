//! The line that shows a fault.

ghost use Rattle.std.specs.Prelude.{◌≡◌, true, false, OnOk, OnErr};
ghost use Rattle.std.specs.List.{flat_map};
ghost use Rattle.std.specs.Io.KnownBytes.{Appends};
ghost use Rattle.radpolicy.specs.Faults.{IsPrintedWith, NamesFileOf, fault_line, fault_told, named_fault_line, place_of, place_text};

use crate::faults::Fault;
use crate::outputs::{Output, OutputError, put_all};
use avp_dict::{FileSet, NamedFile};
use avp_packet::PacketFault;
use itoa::Buffer;

// The octets of all parts, in order.
fn put_parts<O: Output>(out: &mut O, parts: &[&[u8]]) -> Result<(), OutputError>
    ensures takes { OnOk result (Appends (O.taken out.old) (O.taken out.new) (flat_map (λ part.
        part.now) parts.now)) }
    ensures stays { OnOk result (O.has_failed out.new ≡ O.has_failed out.old) }
    ensures fails { OnErr result (O.has_failed out.new ≡ true) }
{
    for part in parts {
        put_all(out, part)?;
    }
    Ok(())
}

// The place of a fault that has one.
fn put_place_of<O: Output>(
    fault: Fault,
    files: &[NamedFile],
    out: &mut O,
) -> Result<(), OutputError>
    requires { NamesFileOf files.now fault }
    ensures takes { OnOk result
        (Appends (O.taken out.old) (O.taken out.new) (place_of files.now fault)) }
    ensures stays { OnOk result (O.has_failed out.new ≡ O.has_failed out.old) }
    ensures fails { OnErr result (O.has_failed out.new ≡ true) }
{
    let mut digits = Buffer::new();
    match fault {
        Fault::Dictionary(fault) => {
            let name = files[fault.file].name.as_slice();
            let line = digits.format(fault.line).as_bytes();
            put_parts(out, &[b" ", name, b":", line])
        }
        Fault::Request(fault) => {
            put_parts(out, &[b" request:", digits.format(fault.line).as_bytes()])
        }
        Fault::Reply(fault) => put_parts(out, &[b" reply:", digits.format(fault.line).as_bytes()]),
        Fault::Control(fault) => {
            put_parts(out, &[b" control:", digits.format(fault.line).as_bytes()])
        }
        Fault::Policy(fault) => {
            put_parts(out, &[b" policy:", digits.format(fault.line).as_bytes()])
        }
        Fault::ScriptWord { line } => {
            put_parts(out, &[b" script:", digits.format(line).as_bytes()])
        }
        Fault::Packet(PacketFault::BadAttribute(offset)) => {
            put_parts(out, &[b" offset ", digits.format(offset).as_bytes()])
        }
        _ => Ok(()),
    }
}

// Where a fault is, after a space; want of memory is nowhere.
fn put_place<O: Output>(fault: Fault, files: &[NamedFile], out: &mut O) -> Result<(), OutputError>
    requires { NamesFileOf files.now fault }
    ensures takes { OnOk result
        (Appends (O.taken out.old) (O.taken out.new) (place_text files.now fault)) }
    ensures stays { OnOk result (O.has_failed out.new ≡ O.has_failed out.old) }
    ensures fails { OnErr result (O.has_failed out.new ≡ true) }
{
    if !fault.is_memory() {
        put_place_of(fault, files, out)?;
    }
    Ok(())
}

// What the line of a fault has after a program's name.
fn put_told<O: Output>(fault: Fault, files: &[NamedFile], out: &mut O) -> Result<(), OutputError>
    requires { NamesFileOf files.now fault }
    ensures takes { OnOk result
        (Appends (O.taken out.old) (O.taken out.new) (fault_told files.now fault)) }
    ensures stays { OnOk result (O.has_failed out.new ≡ O.has_failed out.old) }
    ensures fails { OnErr result (O.has_failed out.new ≡ true) }
{
    let number = fault.number();
    let code = [b'E', b'0' + number / 10, b'0' + number % 10];
    put_parts(out, &[b": ", &code])?;
    put_place(fault, files, out)?;
    put_parts(out, &[b": ", fault.text().as_bytes(), b"\n"])?;
    Ok(())
}

// The line of a fault, under the name of a program.
fn put_line<O: Output>(
    program: &[u8],
    fault: Fault,
    files: &[NamedFile],
    out: &mut O,
) -> Result<(), OutputError>
    requires { NamesFileOf files.now fault }
    ensures takes { OnOk result (Appends (O.taken out.old) (O.taken out.new)
        (named_fault_line program.now files.now fault)) }
    ensures stays { OnOk result (O.has_failed out.new ≡ O.has_failed out.old) }
    ensures fails { OnErr result (O.has_failed out.new ≡ true) }
{
    put_all(out, program)?;
    put_told(fault, files, out)?;
    Ok(())
}

/// Puts the line of a fault under the name of a program, its line feed included, and says whether all of it was taken. It
/// takes no memory.
///
/// ```rust
/// let files = FileSet::from_vec(Vec::new(alloc));
/// let mut line = Vec::new(alloc);
/// let mut out = WriteOutput::new(&mut line);
/// assert!(rt; print_named_fault(b"radpolicy-walk", &Fault::Usage, &files, &mut out));
/// assert_eq!(rt; line.as_slice(), b"radpolicy-walk: E01: usage\n".as_slice());
/// ```
pub fn print_named_fault<O: Output>(
    program: &[u8],
    fault: &Fault,
    files: &FileSet,
    out: &mut O,
) -> bool
    requires printed { IsPrintedWith files.now fault.now }
    requires works { O.has_failed out.old ≡ false }
    ensures line { result ≡ true → Appends (O.taken out.old) (O.taken out.new)
        (named_fault_line program.now files.now fault.now) }
    ensures stays { result ≡ true → O.has_failed out.new ≡ false }
    ensures fails { result ≡ false → O.has_failed out.new ≡ true }
{
    put_line(program, *fault, files.as_slice(), out).is_ok()
}

/// The same under the name of `radpolicy` itself.
///
/// ```rust
/// let files = FileSet::from_vec(Vec::new(alloc));
/// let mut line = Vec::new(alloc);
/// let printed = print_fault(&Fault::Usage, &files, &mut WriteOutput::new(&mut line));
/// assert!(rt; printed);
/// assert_eq!(rt; line.as_slice(), b"radpolicy: E01: usage\n".as_slice());
/// ```
#[tactic(auto, unfolding(crate::specs::Faults::fault_line))]
pub fn print_fault<O: Output>(fault: &Fault, files: &FileSet, out: &mut O) -> bool
    requires printed { IsPrintedWith files.now fault.now }
    requires works { O.has_failed out.old ≡ false }
    ensures line { result ≡ true
        → Appends (O.taken out.old) (O.taken out.new) (fault_line files.now fault.now) }
    ensures stays { result ≡ true → O.has_failed out.new ≡ false }
    ensures fails { result ≡ false → O.has_failed out.new ≡ true }
{
    print_named_fault(b"radpolicy", fault, files, out)
}
