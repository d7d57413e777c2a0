//! Asks a dictionary and a packet all that takes no memory, and prints the answers. The tests run it with every
//! allocation refused from the line `begin` on. Its words: the text of a dictionary, the octets of attributes, a
//! request line for each pair, and then the names to look up.

use crate::dictionaries;
use avp_dict::{Dictionary, Form};
use avp_forms::{FormValue, Profile, other_octets, target_of, value_written};
use avp_lists::{AttrId, Pair};
use avp_packet::{attributes, check_reply};
use std::io;

// The reply to the request in RFC 2865, section 7.1, whose authenticator and secret are these.
const REPLY: [u8; 38] = [
    0x02, 0x00, 0x00, 0x26, 0x86, 0xfe, 0x22, 0x0e, 0x76, 0x24, 0xba, 0x2a, 0x10, 0x05, 0xf6, 0xbf,
    0x9b, 0x55, 0xe0, 0xb2, 0x06, 0x06, 0x00, 0x00, 0x00, 0x01, 0x0f, 0x06, 0x00, 0x00, 0x00, 0x00,
    0x0e, 0x06, 0xc0, 0xa8, 0x01, 0x03,
];

const AUTHENTICATOR: [u8; 16] = [
    0x0f, 0x40, 0x3f, 0x94, 0x73, 0x97, 0x80, 0x57, 0xbd, 0x83, 0xd5, 0xcb, 0x98, 0xf4, 0x22, 0x7a,
];

const SECRET: &[u8] = b"xyzzy5461";

// What a name stands for, and what is known of that.
fn look_up(rt: &HostRuntime, dictionary: &Dictionary, name: &[u8]) -> io::Result<()> {
    match dictionary.by_name(name) {
        None => println!(rt; "none"),
        Some(named) => {
            println!(rt; "{named:?} {}", dictionary.greatest_length(named.id))?;
            match dictionary.by_id(named.id) {
                None => println!(rt; "no entry"),
                Some(entry) => println!(rt; "{:?} {:?} {}", entry.name, entry.kind, entry.hidden),
            }
        }
    }
}

fn look_at_all(rt: &HostRuntime, dictionary: &Dictionary, pairs: &[Pair]) -> io::Result<()> {
    println!(rt; "{:?} {:?}", dictionary.counts(), dictionary.notes())?;
    println!(rt; "{:?} {:?}", dictionary.vendor(9), dictionary.vendor(10))?;
    for pair in pairs {
        println!(rt; "fits {}", dictionary.fits(pair))?;
    }
    Ok(())
}

fn look_at_packets(rt: &HostRuntime, octets: &[u8]) -> io::Result<()> {
    for attribute in attributes(octets) {
        match attribute {
            Ok(whole) => println!(rt; "{} {:?} {}", whole.number, whole.value, whole.offset)?,
            Err(bad) => println!(rt; "bad {}", bad.offset)?,
        }
    }
    println!(rt; "reply {}", check_reply(&REPLY, &AUTHENTICATOR, SECRET))
}

// What a request line is refused for, and where.
fn look_at_line(rt: &HostRuntime, dictionary: &Dictionary, line: &[u8]) -> io::Result<()> {
    match dictionary.read_request(rt.alloc(), line) {
        Ok(pairs) => println!(rt; "{} pairs", pairs.len()),
        Err(fault) => println!(rt; "{:?} {}", fault.kind, fault.offset),
    }
}

// What a text is under a name.
fn look_at_text(
    rt: &HostRuntime,
    dictionary: &Dictionary,
    name: &[u8],
    text: &[u8],
) -> io::Result<()> {
    match dictionary.by_name(name) {
        None => println!(rt; "none"),
        Some(named) => { println!(rt; "{:?}", dictionary.value_of_text(rt.alloc(), named, text)) }
    }
}

// Values of which no octets are kept, and texts that are refused before any are.
fn look_at_values(rt: &HostRuntime, dictionary: &Dictionary) -> io::Result<()> {
    look_at_line(rt, dictionary, b"NAS-Port = three")?;
    look_at_line(rt, dictionary, b"Class = 0xno")?;
    look_at_line(rt, dictionary, b"Attr-26 = 0x00")?;
    look_at_line(rt, dictionary, b"Attr-26 = 'x'")?;
    look_at_text(rt, dictionary, b"NAS-Port", b"3")?;
    look_at_text(rt, dictionary, b"Login-IP-Host", b"192.168.1.3")?;
    look_at_text(rt, dictionary, b"Login-IP-Host", b"nemo")?;
    look_at_text(rt, dictionary, b"Attr-14", b"192.168.1.3")?;
    look_at_text(rt, dictionary, b"Attr-26", b"0x00")?;
    let port = dictionary.value_of_bytes(rt.alloc(), AttrId::Plain(5), &[0, 0, 0, 3])?;
    println!(rt; "{port:?}")
}

// What a text is under a name of the wider profile.
fn look_at_target(
    rt: &HostRuntime,
    dictionary: &Dictionary,
    name: &[u8],
    text: &[u8],
) -> io::Result<()> {
    let wider = Profile::Wider;
    match target_of(dictionary, wider, name) {
        None => println!(rt; "none"),
        Some(target) => {
            let value = value_written(rt.alloc(), dictionary, wider, target, None, text);
            println!(rt; "{value:?}")
        }
    }
}

// Values of forms of which no octets are kept.
fn look_at_forms(rt: &HostRuntime, dictionary: &Dictionary) -> io::Result<()> {
    let alloc = rt.alloc();
    look_at_target(rt, dictionary, b"Tunnel-Type:1", b"nemo")?;
    look_at_target(rt, dictionary, b"Tunnel-Type:1", b"0x01")?;
    let prefix = FormValue::of_text(alloc, dictionary, AttrId::Plain(97), 0, None, b"nemo");
    println!(rt; "{prefix:?}")?;
    let date = FormValue::of_octets(alloc, Form::Date, &[0, 0, 0, 60])?;
    println!(rt; "{date:?}")?;
    println!(rt; "{:?}", other_octets(alloc, Form::Ipv6Address, b"nemo")?)
}

/// Asks what these words say.
pub fn drive(rt: &HostRuntime, words: &[String]) -> io::Result<()> {
    let [text, octets, request, names @ ..] = words else {
        return Err(io::ErrorKind::InvalidInput.into());
    };
    let dictionary = dictionaries::of_text(rt.alloc(), text.as_bytes())?;
    let pairs = dictionary
        .read_request(rt.alloc(), request.as_bytes())
        .map_err(|_| io::Error::from(io::ErrorKind::InvalidData))?;
    println!(rt; "begin")?;
    look_at_all(rt, &dictionary, &pairs)?;
    look_at_packets(rt, octets.as_bytes())?;
    look_at_values(rt, &dictionary)?;
    look_at_forms(rt, &dictionary)?;
    for name in names {
        look_up(rt, &dictionary, name.as_bytes())?;
    }
    Ok(())
}
