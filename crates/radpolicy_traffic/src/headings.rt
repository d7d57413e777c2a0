//! The lines that say which packet follows.

use crate::records::Code;
use crate::texts::{Words, is, is_number, split_at_last, split_at_octet};

/// What a request is known by until it is answered. What a format does not print is empty.
#[derive(Clone, Copy)]
pub(crate) struct Key<'a> {
    /// The server's number, or the packet's Identifier.
    pub(crate) number: &'a [u8],
    pub(crate) client: &'a [u8],
    pub(crate) server: &'a [u8],
}

/// What a line says of the packet that follows.
#[derive(Clone, Copy)]
pub(crate) struct Heading<'a> {
    pub(crate) key: Key<'a>,
    pub(crate) identifier: &'a [u8],
    pub(crate) source: Option<&'a [u8]>,
    pub(crate) code: Code,
    /// The request was sent before.
    pub(crate) is_again: bool,
}

impl<'a> Key<'a> {
    pub(crate) fn of_number(number: &'a [u8]) -> Key<'a> {
        Key {
            number,
            client: b"",
            server: b"",
        }
    }
}

impl<'a> Heading<'a> {
    /// Of a record that has no such line.
    pub(crate) fn of_code(code: Code) -> Heading<'a> {
        Heading {
            key: Key::of_number(b""),
            identifier: b"",
            source: None,
            code,
            is_again: false,
        }
    }
}

// An address without its brackets and its port.
fn address_of(word: &[u8]) -> Option<&[u8]> {
    let (address, _) = split_at_last(word, b':')?;
    match address {
        [b'[', inner @ .., b']'] => Some(inner),
        _ => Some(address),
    }
}

// The same, where the name of an interface or a file may come first.
fn named_address_of(word: &[u8]) -> Option<&[u8]> {
    let address = address_of(word)?;
    match split_at_octet(address, b':') {
        Some((name, rest)) if !name.iter().all(|octet| octet.is_ascii_hexdigit()) => Some(rest),
        _ => Some(address),
    }
}

fn is_sent(word: &[u8]) -> Option<bool> {
    if is(word, "Sent") {
        Some(true)
    } else if is(word, "Received") {
        Some(false)
    } else {
        None
    }
}

/// A line of a server's log.
#[derive(Clone, Copy)]
pub(crate) struct LogHeading<'a> {
    pub(crate) heading: Heading<'a>,
    /// The server sends the packet.
    pub(crate) is_sent: bool,
}

/// `Received CODE Id I from ADDRESS:PORT to ..` of a server's log, after the request's number, or `Sent ..`.
pub(crate) fn log_heading<'a>(number: &'a [u8], text: &'a [u8]) -> Option<LogHeading<'a>> {
    let mut words = Words(text);
    let is_sent = is_sent(words.next())?;
    let code = Code::named(words.next());
    let is_heading = is(words.next(), "Id");
    words.next();
    if !is_heading || !is(words.next(), "from") {
        return None;
    }
    let heading = Heading {
        key: Key::of_number(number),
        identifier: number,
        source: address_of(words.next()),
        code,
        is_again: false,
    };
    Some(LogHeading { heading, is_sent })
}

/// `Virtual server NAME received request` of a server's log, after the request's number: the name.
pub(crate) fn inner_server(text: &[u8]) -> Option<&[u8]> {
    let mut words = Words(text);
    if !is(words.next(), "Virtual") || !is(words.next(), "server") {
        return None;
    }
    let name = words.next();
    if is(words.next(), "received") && is(words.next(), "request") {
        Some(name)
    } else {
        None
    }
}

/// `MODULE: Got tunneled reply code N` of a server's log, after the request's number, or `MODULE: Got tunneled CODE`: the
/// type of the reply from the virtual server.
pub(crate) fn inner_answer(text: &[u8]) -> Option<Code> {
    let mut words = Words(text);
    words.next();
    if !is(words.next(), "Got") || !is(words.next(), "tunneled") {
        return None;
    }
    let code = words.next();
    if !is(code, "reply") {
        return Some(Code::named(code));
    }
    if is(words.next(), "code") {
        Some(Code::numbered(words.next()))
    } else {
        None
    }
}

/// `Sent CODE Id I from ADDRESS:PORT to ADDRESS:PORT ..` of radclient, or `Received ..`.
pub(crate) fn client_heading(line: &[u8]) -> Option<Heading<'_>> {
    let mut words = Words(line);
    let is_sent = is_sent(words.next())?;
    let code = Code::named(words.next());
    if !is(words.next(), "Id") {
        return None;
    }
    let number = words.next();
    words.next();
    let from = words.next();
    words.next();
    let to = words.next();
    let (client, server) = if is_sent { (from, to) } else { (to, from) };
    let (_, port) = split_at_last(client, b':')?;
    Some(Heading {
        key: Key {
            number,
            client: port,
            server,
        },
        identifier: number,
        source: None,
        code,
        is_again: false,
    })
}

/// `(N) No reply from server for ID I ..` of radclient: the Identifier.
pub(crate) fn unanswered_identifier(line: &[u8]) -> Option<&[u8]> {
    let (_, text) = split_at_octet(line, b')')?;
    let mut words = Words(text);
    words.next();
    let says_no = is(words.next(), "No") && is(words.next(), "reply");
    words.next();
    words.next();
    words.next();
    if says_no && is(words.next(), "ID") {
        Some(words.next())
    } else {
        None
    }
}

/// A line of radsniff.
#[derive(Clone, Copy)]
pub(crate) struct SniffedLine<'a> {
    pub(crate) heading: Heading<'a>,
    /// The word between `**`, which says what became of the request.
    pub(crate) event: &'a [u8],
}

// The number in brackets.
fn number_of(word: &[u8]) -> Option<&[u8]> {
    match word {
        [b'(', number @ .., b')'] if is_number(number) => Some(number),
        _ => None,
    }
}

/// `DATE TIME (N) CODE Id I CLIENT -> SERVER ..` of radsniff; before the code may be `** EVENT **`.
pub(crate) fn sniffed_line(line: &[u8]) -> Option<SniffedLine<'_>> {
    let mut words = Words(line);
    words.next();
    words.next();
    let identifier = number_of(words.next())?;
    let mut code = words.next();
    let mut event: &[u8] = b"";
    if is(code, "**") {
        event = words.next();
        words.next();
        code = words.next();
    }
    if !is(words.next(), "Id") {
        return None;
    }
    let number = words.next();
    let client = words.next();
    words.next();
    let server = words.next();
    let heading = Heading {
        key: Key {
            number,
            client,
            server,
        },
        identifier,
        source: named_address_of(client),
        code: Code::named(code),
        is_again: is(event, "rtx"),
    };
    Some(SniffedLine { heading, event })
}
