//! Clients as lines: an address or a prefix, and a secret.

ghost use Rattle.std.specs.Prelude.{◌≡◌, Err, IfErr, IfOk, Ok, OnOk};
ghost use Rattle.avp_dict.specs.internal.Views.{views};
ghost use Rattle.radpolicy_clients.specs.Lines.{client_of_line, client_of_words, client_with, clients_of_lines, is_comment};
ghost use Rattle.radpolicy_clients.specs.internal.Choosing.{IsReadTo};
ghost use Rattle.radpolicy_clients.specs.Faults.{LineMemoryOr, MemoryOr};

use crate::addresses::prefix_of;
use crate::clients::{Client, Clients};
use crate::faults::{ClientFault, LineFault};
use avp_dict::{next_line, words_between_blanks};
use std::alloc::Global;
use std::net::IpAddr;

fn is_comment(word: &[u8]) -> bool
    ensures { result ≡ is_comment word.now }
{
    matches!(word, [b'#', ..])
}

// The first octet of a text that is no blank.
fn after_blanks(text: &[u8]) -> &[u8] {
    let mut rest = text;
    while let [b' ' | b'\t' | b'\r', later @ ..] = rest {
        rest = later;
    }
    rest
}

// Whether the first word of a text has the sign of an address.
fn begins_with_address(text: &[u8]) -> bool {
    let mut rest = text;
    while let [octet, later @ ..] = rest {
        match octet {
            b'.' | b':' => return true,
            b' ' | b'\t' | b'\r' | b'\n' => return false,
            _ => rest = later,
        }
    }
    false
}

/// Whether a text is of lines: the first word that is no comment has the sign `.` or `:` of an address.
pub(crate) fn has_lines(text: &[u8]) -> bool {
    let mut rest = text;
    while let Some((line, later)) = next_line(rest) {
        match after_blanks(line) {
            [] | [b'#', ..] => rest = later,
            words => return begins_with_address(words),
        }
    }
    true
}

// A client with this prefix and secret.
fn client_with(
    alloc: Global,
    prefix: Option<(IpAddr, u8)>,
    secret: &[u8],
) -> Result<Option<Client>, ClientFault>
    ensures ok { IfOk result (λ client. client_with prefix secret.now ≡ Ok client) }
    ensures refused { IfErr result (MemoryOr (λ f. client_with prefix secret.now ≡ Err f)) }
{
    let Some((address, count)) = prefix else {
        return Err(ClientFault::NotAddress);
    };
    let secret = Vec::from_slice(alloc, secret)?;
    match Client::new(address, count, secret) {
        Some(client) => Ok(Some(client)),
        None => Err(ClientFault::NoSecret),
    }
}

// The client of a line's words.
fn client_of_words(alloc: Global, words: &[&[u8]]) -> Result<Option<Client>, ClientFault>
    ensures ok { IfOk result (λ client. client_of_words (views words.now) ≡ Ok client) }
    ensures refused { IfErr result (MemoryOr (λ f. client_of_words (views words.now) ≡ Err f)) }
{
    match words {
        [] => Ok(None),
        [word, ..] if is_comment(word) => Ok(None),
        [word, secret] => client_with(alloc, prefix_of(word), secret),
        _ => Err(ClientFault::NotTwoWords),
    }
}

// The client of a line; none where it is blank, or a comment.
fn client_of_line(alloc: Global, line: &[u8]) -> Result<Option<Client>, ClientFault>
    ensures ok { IfOk result (λ client. client_of_line line.now ≡ Ok client) }
    ensures refused { IfErr result (MemoryOr (λ f. client_of_line line.now ≡ Err f)) }
{
    let words = words_between_blanks(alloc, line)?;
    client_of_words(alloc, &words)
}

// Adds the client of a line, if it has one.
fn push_line(clients: &mut Clients, alloc: Global, line: &[u8]) -> Result<(), ClientFault>
    ensures ok { OnOk result (IsReadTo (client_of_line line.now) clients.old clients.new) }
    ensures refused { IfErr result (MemoryOr (λ f. client_of_line line.now ≡ Err f)) }
{
    match client_of_line(alloc, line)? {
        Some(client) => {
            clients.push(client)?;
            Ok(())
        }
        None => Ok(()),
    }
}

/// The clients of lines: on each an address or a prefix and a secret, or blanks, or a comment after `#`. Refused is the
/// first line that is none of these.
pub fn read_lines(alloc: Global, text: &[u8]) -> Result<Clients, LineFault>
    ensures ok { IfOk result (λ clients. clients_of_lines text.now ≡ Ok clients) }
    ensures refused { IfErr result (LineMemoryOr (λ f. clients_of_lines text.now ≡ Err f)) }
{
    let mut clients = Clients::new(alloc);
    let mut line = 0;
    let mut rest = text;
    while let Some((octets, later)) = next_line(rest) {
        line += 1;
        if let Err(fault) = push_line(&mut clients, alloc, octets) {
            return Err(LineFault { line, fault });
        }
        rest = later;
    }
    Ok(clients)
}
