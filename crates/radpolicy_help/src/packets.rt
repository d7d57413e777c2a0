//! Help for faults of packets.

use crate::sources::Sources;
use crate::texts::{push_all, push_number};
use avp_packet::PacketFault;
use std::alloc::{AllocError, Global};

/// How many hexadecimal digits in a row, blanks aside, may be a packet's.
const PACKET_DIGITS: usize = 16;

/// Whether a line may have a part of a packet in hexadecimal digits.
pub(crate) fn has_packet_digits(line: &[u8]) -> bool {
    let mut count = 0usize;
    for octet in line {
        if octet.is_ascii_hexdigit() {
            count = count.saturating_add(1);
        } else if !octet.is_ascii_whitespace() {
            count = 0;
        }
        if count >= PACKET_DIGITS {
            return true;
        }
    }
    false
}

/// The octets of hexadecimal digits with white space among them.
pub(crate) fn packet_octets(alloc: Global, text: &[u8]) -> Result<Vec<u8>, AllocError> {
    let mut digits = Vec::new(alloc);
    for octet in text {
        if octet.is_ascii_hexdigit() {
            digits.push(*octet)?;
        }
    }
    match hex::decode(alloc, digits) {
        Ok(octets) => Ok(octets),
        Err(_) => Ok(Vec::new(alloc)),
    }
}

// The Length that a packet's head has (RFC 2865, section 3).
fn length_in(octets: &[u8]) -> usize {
    match octets {
        [_, _, high, low, ..] => usize::from(*high) * 256 + usize::from(*low),
        _ => 0,
    }
}

fn push_lengths(help: &mut Vec<u8>, octets: &[u8]) -> Result<(), AllocError> {
    push_all(help, &["its Length is "])?;
    push_number(help, length_in(octets))?;
    push_all(help, &[", and "])?;
    push_number(help, octets.len())?;
    push_all(help, &[" octets are there\n"])
}

// The attribute that begins after so many octets.
fn push_attribute(help: &mut Vec<u8>, octets: &[u8], offset: usize) -> Result<(), AllocError> {
    match octets.get(offset..) {
        Some([number, length, ..]) => {
            push_all(help, &["the attribute there has the number "])?;
            push_number(help, usize::from(*number))?;
            push_all(help, &[" and the length "])?;
            push_number(help, usize::from(*length))?;
            push_all(
                help,
                &["\nlook for digits that are lost or added before it\n"],
            )
        }
        _ => push_all(
            help,
            &["its last octet begins an attribute\nlook for digits that are lost\n"],
        ),
    }
}

fn push_code(help: &mut Vec<u8>, octets: &[u8]) -> Result<(), AllocError> {
    if let [code, ..] = octets {
        push_all(help, &["the packet's code is "])?;
        push_number(help, usize::from(*code))?;
        push_all(
            help,
            &[
                "; taken are Access-Request (1) and Accounting-Request (4)\ngive the request, not the \
            server's reply\n",
            ],
        )?;
    }
    Ok(())
}

/// What is said of a packet's fault.
pub(crate) fn packet_help(
    alloc: Global,
    fault: PacketFault,
    sources: &Sources<'_>,
) -> Result<Vec<u8>, AllocError> {
    let octets = packet_octets(alloc, sources.request.text)?;
    let mut help = Vec::new(alloc);
    push_all(&mut help, &[sources.request.path, "\n"])?;
    match fault {
        PacketFault::TooShort => {
            push_number(&mut help, octets.len())?;
            push_all(
                &mut help,
                &[" octets are there\ngive the digits of the whole packet, from its code on\n"],
            )?;
        }
        PacketFault::LengthOutOfRange => {
            push_lengths(&mut help, &octets)?;
            push_all(
                &mut help,
                &["begin with the digits of the packet's first octet, its code\n"],
            )?;
        }
        PacketFault::CutShort => {
            push_lengths(&mut help, &octets)?;
            push_all(&mut help, &["give all digits of the packet\n"])?;
        }
        PacketFault::BadAttribute(offset) => push_attribute(&mut help, &octets, offset)?,
        PacketFault::CodeNotTaken => push_code(&mut help, &octets)?,
        PacketFault::WrongAuthenticator | PacketFault::WrongMessageAuthenticator => {
            push_all(
                &mut help,
                &[
                    "the packet was not signed with the secret in the first line of ",
                    sources.secret,
                    "\ngive the secret that the client and the server share\n",
                ],
            )?;
        }
        PacketFault::Memory => {}
    }
    Ok(help)
}
