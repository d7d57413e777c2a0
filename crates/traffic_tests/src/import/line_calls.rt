//! One call of each that makes a line of a policy of one of a server's updates.

use attribute_tests::samples::read_dictionary;
use avp_dict::Dictionary;
use avp_lists::List;
use radpolicy_import_conditions::{LineReader, Names, Refusal, ServerList, UpdateLine};
use server_configuration::{Operator, Quote, Text};
use std::alloc::{AllocError, Global};
use std::test::Fail;

const ATTRIBUTES: &[u8] = b"ATTRIBUTE Reply-Message 18 string\n\
    ATTRIBUTE Tunnel-Type 64 integer has_tag\nVALUE Tunnel-Type VLAN 13\n";

// Reads lines of an update of the reply.
fn reader(alloc: Global, dictionary: &Dictionary) -> LineReader<'_> {
    LineReader {
        alloc,
        names: Names {
            dictionary,
            others: &[],
        },
        own: ServerList::Own(List::Reply),
        skips: true,
        takes_wider: true,
    }
}

fn value(alloc: Global, octets: &[u8]) -> Result<Text, AllocError> {
    Ok(Text {
        quote: Quote::Double,
        octets: Vec::from_slice(alloc, octets)?,
    })
}

// Whether a line was made, with this text.
fn is_line(made: Result<Option<UpdateLine>, Refusal>, wanted: &[u8]) -> bool {
    match made {
        Ok(Some(line)) => line.text.as_slice() == wanted,
        _ => false,
    }
}

#[test]
fn lines_with_tags(rt: HostRuntime) -> Result<(), Fail> {
    let dictionary = read_dictionary(rt.alloc(), ATTRIBUTES)?;
    let reader = reader(rt.alloc(), &dictionary);
    let vlan = value(rt.alloc(), b"VLAN")?;
    let wider = reader.wider_line(b"Tunnel-Type:1", Operator::Set, Some(&vlan));
    assert!(rt; is_line(wider, b"Tunnel-Type:1 := \"VLAN\""));
    let octets = reader.octets_line(b"Tunnel-Type:1", Operator::Set, Some(&vlan));
    assert!(rt; is_line(octets, b"Tunnel-Type := 0x0100000d"));
    Ok(())
}

#[test]
fn lines_of_texts(rt: HostRuntime) -> Result<(), Fail> {
    let dictionary = read_dictionary(rt.alloc(), ATTRIBUTES)?;
    let reader = reader(rt.alloc(), &dictionary);
    let text = value(rt.alloc(), b"a")?;
    let Ok(line) = reader.line(b"Reply-Message", Operator::Add, Some(&text)) else {
        return Err(Fail::new("no line"));
    };
    assert_eq!(rt; line.text.as_slice(), b"Reply-Message += \"a\"".as_slice());
    let Some(named) = dictionary.by_name(b"Tunnel-Type") else {
        return Err(Fail::new("no attribute"));
    };
    assert!(rt; reader.copies(b"Tunnel-Type", named.id));
    Ok(())
}

#[test]
fn a_line_that_is_cut(rt: HostRuntime) -> Result<(), Fail> {
    let mut octets = Vec::new(rt.alloc());
    for _ in 0..254 {
        octets.push(b'a')?;
    }
    let text = value(rt.alloc(), &octets)?;
    let dictionary = read_dictionary(rt.alloc(), ATTRIBUTES)?;
    let reader = reader(rt.alloc(), &dictionary);
    let Ok(Some(line)) = reader.cut_line(b"Reply-Message", Operator::Add, Some(&text)) else {
        return Err(Fail::new("no line"));
    };
    // `Reply-Message += "`, 253 letters and `"`.
    assert_eq!(rt; line.text.len(), 18 + 253 + 1);
    Ok(())
}
