//! What is refused when a policy is prepared or a run begins, by the line of the fault.

ghost use Rattle.std.specs.Prelude.{IfErr, []};
ghost use Rattle.radpolicy.specs.Faults.{IsPrintedWith};

use crate::prepared::starts::{ACCESS, class, start};
use attribute_tests::samples::test_dictionary;
use avp_dict::FileSet;
use avp_forms::Profile;
use avp_lists::{AttrId, Pair, Pairs, Value, copy_pair};
use radpolicy::{Fault, OwnedPolicy, PreparedPolicy, Secret, Start, WriteOutput, print_fault};
use std::alloc::Global;
use std::sync::Arc;
use std::test::Fail;

// The line of a fault.
fn line_of(alloc: Global, fault: &Fault) -> Vec<u8>
    requires { IsPrintedWith [] fault.now }
{
    let files = FileSet::from_vec(Vec::new(alloc));
    let mut line = Vec::new(alloc);
    let _ = print_fault(fault, &files, &mut WriteOutput::new(&mut line));
    line
}

// The line of a start that is refused.
fn refused(alloc: Global, made: Result<Start<'_>, Fault>) -> Result<Vec<u8>, Fail>
    requires { IfErr made (IsPrintedWith []) }
{
    match made {
        Ok(_) => Err(Fail::new("a refusal")),
        Err(fault) => Ok(line_of(alloc, &fault)),
    }
}

#[test]
fn refuses_lines(rt: HostRuntime) -> Result<(), Fail> {
    let alloc = rt.alloc();
    let dictionary = test_dictionary(alloc)?;
    let prepared = PreparedPolicy::read(alloc, &dictionary, b"")?;
    let line = refused(
        alloc,
        Start::of_lines(
            alloc,
            &prepared,
            None,
            ACCESS,
            Profile::Plain,
            None,
            b"\nNosuch = 1",
        ),
    )?;
    assert!(&rt; line.as_slice() == b"radpolicy: E32 request:2: unknown attribute\n".as_slice());
    let made = start(alloc, &prepared, b"")?.with_reply_lines(
        alloc,
        Profile::Plain,
        None,
        b"\nNAS-Port = x",
    );
    let line = refused(alloc, made)?;
    assert!(&rt; line.as_slice() == b"radpolicy: E30 reply:2: not a value\n".as_slice());
    let made = start(alloc, &prepared, b"")?.with_control_lines(
        alloc,
        Profile::Plain,
        None,
        b"Attr-26 = 0x00",
    );
    let line = refused(alloc, made)?;
    assert!(&rt; line.as_slice() == b"radpolicy: E33 control:1: not writable\n".as_slice());
    Ok(())
}

// So many copies of a Class.
fn classes(alloc: Global, count: usize) -> Result<Pairs, Fail> {
    let one = class(alloc, 1)?;
    let mut pairs = Vec::new(alloc);
    for _ in 0..count {
        pairs.push(copy_pair(alloc, &one)?)?;
    }
    Ok(Pairs::from_vec(pairs))
}

// A Class, and a NAS-Port with an address for its value.
fn with_a_misfit(alloc: Global) -> Result<Pairs, Fail> {
    let mut pairs = Vec::new(alloc);
    pairs.push(class(alloc, 1)?)?;
    pairs.push(Pair {
        id: AttrId::Plain(5),
        value: Value::Addr([192, 0, 2, 1]),
    })?;
    Ok(Pairs::from_vec(pairs))
}

#[test]
fn refuses_pairs(rt: HostRuntime) -> Result<(), Fail> {
    let alloc = rt.alloc();
    let dictionary = test_dictionary(alloc)?;
    let prepared = PreparedPolicy::read(alloc, &dictionary, b"")?;
    let made = Start::of_pairs(alloc, &prepared, None, ACCESS, with_a_misfit(alloc)?);
    let line = refused(alloc, made)?;
    assert!(&rt; line.as_slice() == b"radpolicy: E30 request:2: not a value\n".as_slice());
    let made = Start::of_pairs(alloc, &prepared, None, ACCESS, classes(alloc, 4097)?);
    let line = refused(alloc, made)?;
    assert!(&rt; line.as_slice() == b"radpolicy: E35 request:4097: too many pairs\n".as_slice());
    let full = Start::of_pairs(alloc, &prepared, None, ACCESS, classes(alloc, 4096)?);
    assert!(&rt; full.is_ok());
    Ok(())
}

#[test]
fn refuses_initial_pairs(rt: HostRuntime) -> Result<(), Fail> {
    let alloc = rt.alloc();
    let dictionary = test_dictionary(alloc)?;
    let prepared = PreparedPolicy::read(alloc, &dictionary, b"")?;
    let reply = start(alloc, &prepared, b"")?.with_reply(with_a_misfit(alloc)?);
    let line = refused(alloc, reply)?;
    assert!(&rt; line.as_slice() == b"radpolicy: E30 reply:2: not a value\n".as_slice());
    let control = start(alloc, &prepared, b"")?.with_control(classes(alloc, 4097)?);
    let line = refused(alloc, control)?;
    assert!(&rt; line.as_slice() == b"radpolicy: E35 control:4097: too many pairs\n".as_slice());
    Ok(())
}

#[test]
fn refuses_policies(rt: HostRuntime) -> Result<(), Fail> {
    let alloc = rt.alloc();
    let dictionary = Arc::new(alloc, test_dictionary(alloc)?)?;
    let Err(fault) = PreparedPolicy::read(alloc, &dictionary, b"\nokay") else {
        return Err(Fail::new("a refusal"));
    };
    let line = line_of(alloc, &fault);
    assert!(&rt; line.as_slice() == b"radpolicy: E51 policy:2: token does not fit\n".as_slice());
    let Err(fault) = OwnedPolicy::read(alloc, test_dictionary(alloc)?, b"fails") else {
        return Err(Fail::new("a refusal"));
    };
    let line = line_of(alloc, &fault);
    assert!(&rt; line.as_slice() == b"radpolicy: E51 policy:1: token does not fit\n".as_slice());
    // The dictionary serves on after a policy by it was refused.
    let Err(fault) = OwnedPolicy::read_by(alloc, Arc::try_clone(&dictionary)?, b"fails") else {
        return Err(Fail::new("a refusal"));
    };
    let line = line_of(alloc, &fault);
    assert!(&rt; line.as_slice() == b"radpolicy: E51 policy:1: token does not fit\n".as_slice());
    let owned = OwnedPolicy::read_by(alloc, dictionary, b"reject")?;
    assert_eq!(&rt; owned.prepared().policy().statements().len(), 1);
    Ok(())
}

#[test]
fn refuses_secrets_and_packets(rt: HostRuntime) -> Result<(), Fail> {
    let alloc = rt.alloc();
    assert!(&rt; matches!(Secret::new(b""), Err(Fault::EmptySecret)));
    let dictionary = test_dictionary(alloc)?;
    let prepared = PreparedPolicy::read(alloc, &dictionary, b"")?;
    let secret = Secret::new(b"s")?;
    let packet = Start::of_packet(alloc, &prepared, &secret, b"\x01\x00\x00\x14");
    let line = refused(alloc, packet)?;
    assert!(&rt; line.as_slice() == b"radpolicy: E40: fewer than 20 octets\n".as_slice());
    Ok(())
}
