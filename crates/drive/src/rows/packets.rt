//! Packets, by the secret and the authenticator that were given: `decode DIGITS`, `decode-reply DIGITS`,
//! `decode-unchecked DIGITS`, `decode-reply-unchecked DIGITS`, `encode CODE IDENTIFIER LINES`, `accept LINES`,
//! `accept-signed LINES`, `check DIGITS`, `hide TEXT`, `unhide DIGITS` and `attributes DIGITS`.

use super::setting::Setting;
use super::values::{write_pairs, write_quoted};
use super::words::{bad, first_word, octet_of, octets_of};
use avp_forms::read_request;
use avp_packet::{
    ACCESS_ACCEPT, ACCESS_REQUEST, ACCOUNTING_REQUEST, EncodeFault, Packet, PacketFault,
    attributes, check_message, check_reply, decode, decode_reply, decode_reply_unchecked,
    decode_unchecked, encode_reply, encode_request, encoded_authenticator, hide, unhide,
};
use std::io;
use std::io::Write;

fn write_digits<W: Write>(out: &mut W, setting: &Setting, octets: &[u8]) -> io::Result<()> {
    let digits = hex::encode(setting.alloc, octets)?;
    write!(out, "0x{digits}")
}

// What a packet holds, or why it is refused.
fn write_read<W: Write>(
    out: &mut W,
    setting: &Setting,
    read: Result<Packet, PacketFault>,
) -> io::Result<()> {
    match read {
        Ok(packet) => {
            write!(out, "code {}, identifier {}, ", packet.code, packet.id)?;
            write_digits(out, setting, &packet.authenticator)?;
            out.write_all(b", ")?;
            write_pairs(out, setting, packet.list.as_slice())
        }
        Err(fault) => write!(out, "{fault:?}: {fault}"),
    }
}

/// `decode`: what a request holds.
pub fn write_request<W: Write>(out: &mut W, setting: &Setting, text: &[u8]) -> io::Result<()> {
    let octets = octets_of(setting.alloc, text)?;
    if setting.secret.is_empty() {
        return bad();
    }
    let read = decode(setting.alloc, &setting.dictionary, &setting.secret, &octets);
    write_read(out, setting, read)
}

/// `decode-reply`: what the reply to the request with the authenticator holds.
pub fn write_reply<W: Write>(out: &mut W, setting: &Setting, text: &[u8]) -> io::Result<()> {
    let octets = octets_of(setting.alloc, text)?;
    if setting.secret.is_empty() {
        return bad();
    }
    let read = decode_reply(
        setting.alloc,
        &setting.dictionary,
        &setting.secret,
        &setting.authenticator,
        &octets,
    );
    write_read(out, setting, read)
}

/// `decode-unchecked`: what a request holds, without a look at digests.
pub fn write_unchecked<W: Write>(out: &mut W, setting: &Setting, text: &[u8]) -> io::Result<()> {
    let octets = octets_of(setting.alloc, text)?;
    let read = decode_unchecked(setting.alloc, &setting.dictionary, &octets);
    write_read(out, setting, read)
}

/// `decode-reply-unchecked`: the same of a reply.
pub fn write_reply_unchecked<W: Write>(
    out: &mut W,
    setting: &Setting,
    text: &[u8],
) -> io::Result<()> {
    let octets = octets_of(setting.alloc, text)?;
    let read = decode_reply_unchecked(setting.alloc, &setting.dictionary, &octets);
    write_read(out, setting, read)
}

fn write_made<W: Write>(
    out: &mut W,
    setting: &Setting,
    made: Result<Vec<u8>, EncodeFault>,
) -> io::Result<()> {
    match made {
        Ok(octets) => write_digits(out, setting, &octets),
        Err(fault) => write!(out, "{fault:?}: {fault}"),
    }
}

/// `encode`: the packet of a request, and the authenticator that is found for it.
pub fn write_encoded<W: Write>(out: &mut W, setting: &Setting, text: &[u8]) -> io::Result<()> {
    let (code, text) = first_word(text);
    let (id, text) = first_word(text);
    let (code, id) = (octet_of(code)?, octet_of(id)?);
    let (alloc, dictionary, given) = (setting.alloc, &setting.dictionary, &setting.authenticator);
    let secret = setting.secret.as_slice();
    if secret.is_empty() || (code != ACCESS_REQUEST && code != ACCOUNTING_REQUEST) {
        return bad();
    }
    let Ok(list) = read_request(alloc, dictionary, setting.profile, setting.zone, text) else {
        return bad();
    };
    let made = encode_request(alloc, dictionary, secret, code, id, given, &list);
    write_made(out, setting, made)?;
    match encoded_authenticator(alloc, dictionary, secret, code, id, given, &list) {
        Ok(own) => {
            out.write_all(b", authenticator ")?;
            write_digits(out, setting, &own)
        }
        Err(_) => Ok(()),
    }
}

fn write_accepted<W: Write>(
    out: &mut W,
    setting: &Setting,
    text: &[u8],
    signed: bool,
) -> io::Result<()> {
    let (alloc, dictionary, given) = (setting.alloc, &setting.dictionary, &setting.authenticator);
    let secret = setting.secret.as_slice();
    let code = ACCESS_ACCEPT;
    if secret.is_empty() {
        return bad();
    }
    let Ok(list) = read_request(alloc, dictionary, setting.profile, setting.zone, text) else {
        return bad();
    };
    let made = encode_reply(
        alloc,
        dictionary,
        secret,
        code,
        0,
        given,
        &list,
        &[],
        signed,
    );
    write_made(out, setting, made)
}

/// `accept`: an Access-Accept with the identifier 0.
pub fn write_accept<W: Write>(out: &mut W, setting: &Setting, text: &[u8]) -> io::Result<()> {
    write_accepted(out, setting, text, false)
}

/// `accept-signed`: the same with a Message-Authenticator.
pub fn write_signed<W: Write>(out: &mut W, setting: &Setting, text: &[u8]) -> io::Result<()> {
    write_accepted(out, setting, text, true)
}

/// `check`: whether octets are a reply to the request with the authenticator, and whether they are signed by it.
pub fn write_check<W: Write>(out: &mut W, setting: &Setting, text: &[u8]) -> io::Result<()> {
    let octets = octets_of(setting.alloc, text)?;
    if setting.secret.is_empty() {
        return bad();
    }
    let is_reply = check_reply(&octets, &setting.authenticator, &setting.secret);
    let is_signed = check_message(&octets, &setting.authenticator, &setting.secret);
    write!(out, "reply {is_reply}, signed {is_signed}")
}

/// `hide`: a password as it is sent.
pub fn write_hidden<W: Write>(out: &mut W, setting: &Setting, text: &[u8]) -> io::Result<()> {
    if setting.secret.is_empty() {
        return bad();
    }
    match hide(setting.alloc, &setting.secret, &setting.authenticator, text) {
        Ok(octets) => write_digits(out, setting, &octets),
        Err(fault) => write!(out, "{fault:?}: {fault}"),
    }
}

/// `unhide`: the password that is sent as these octets.
pub fn write_shown<W: Write>(out: &mut W, setting: &Setting, text: &[u8]) -> io::Result<()> {
    let octets = octets_of(setting.alloc, text)?;
    if setting.secret.is_empty() {
        return bad();
    }
    match unhide(
        setting.alloc,
        &setting.secret,
        &setting.authenticator,
        &octets,
    )? {
        Some(password) => write_quoted(out, setting, &password),
        None => out.write_all(b"none"),
    }
}

/// `attributes`: each with its number, its octets and its place, and the place of the one that is none.
pub fn write_walk<W: Write>(out: &mut W, setting: &Setting, text: &[u8]) -> io::Result<()> {
    let octets = octets_of(setting.alloc, text)?;
    for attribute in attributes(&octets) {
        match attribute {
            Ok(whole) => {
                write!(out, "{} at {} ", whole.number, whole.offset)?;
                write_digits(out, setting, whole.value)?;
                out.write_all(b"; ")?;
            }
            Err(bad) => write!(out, "none at {}; ", bad.offset)?,
        }
    }
    out.write_all(b"end")
}
