//! Decodes a packet many times, or decodes it and encodes what it holds, and prints how often. The benchmark runs it.
//! Its words: how often, `decode` or `both`, the file of the packet's octets, and the dictionary files.

use crate::dictionaries;
use avp_dict::Dictionary;
use avp_packet::{decode, encode_request};
use std::alloc::Global;
use std::{fs, io};

// The secret of the packets in RFC 2865, section 7.1.
const SECRET: &[u8] = b"xyzzy5461";

#[derive(Clone, Copy)]
enum Work {
    Decode,
    Both,
}

fn work_named(name: &str) -> Option<Work> {
    match name {
        "decode" => Some(Work::Decode),
        "both" => Some(Work::Both),
        _ => None,
    }
}

// Does the work once. A packet that is refused is an error.
fn work_on(alloc: Global, dictionary: &Dictionary, octets: &[u8], work: Work) -> io::Result<()> {
    let Ok(packet) = decode(alloc, dictionary, SECRET, octets) else {
        return Err(io::ErrorKind::InvalidData.into());
    };
    match work {
        Work::Decode => Ok(()),
        Work::Both => {
            let pairs = packet.list.as_slice();
            let encoded = encode_request(
                alloc,
                dictionary,
                SECRET,
                packet.code,
                packet.id,
                &packet.authenticator,
                pairs,
            );
            match encoded {
                Ok(_) => Ok(()),
                Err(_) => Err(io::ErrorKind::InvalidData.into()),
            }
        }
    }
}

/// Does the work of these words.
pub fn drive(rt: &HostRuntime, words: &[String]) -> io::Result<()> {
    let [count, name, packet, paths @ ..] = words else {
        return println!(rt; "usage: drive packets COUNT decode|both PACKET DICTIONARY..");
    };
    let (Ok(count), Some(work)) = (count.parse(), work_named(name.as_str())) else {
        return Err(io::ErrorKind::InvalidInput.into());
    };
    let count: u32 = count;
    let dictionary = dictionaries::of_files(rt, paths)?;
    let octets = fs::read(rt, packet.as_str())?;
    for _ in 0..count {
        work_on(rt.alloc(), &dictionary, octets.as_slice(), work)?;
    }
    println!(rt; "{count}")
}
