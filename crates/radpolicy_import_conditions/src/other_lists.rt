//! Lists of a server that policies do not have.

use avp_lists::List;

/// A list that policies do not have. Its attributes are attributes of `control` in a policy that is imported with a
/// dictionary for them.
#[derive(Clone, Copy, Debug, PartialEq, Eq)]
pub enum OtherList {
    OuterRequest,
    OuterReply,
    OuterControl,
    OuterSessionState,
    SessionState,
    ProxyRequest,
    ProxyReply,
    Coa,
    CoaReply,
    Disconnect,
    DisconnectReply,
}

const OTHER_LISTS: [OtherList; 11] = [
    OtherList::OuterRequest,
    OtherList::OuterReply,
    OtherList::OuterControl,
    OtherList::OuterSessionState,
    OtherList::SessionState,
    OtherList::ProxyRequest,
    OtherList::ProxyReply,
    OtherList::Coa,
    OtherList::CoaReply,
    OtherList::Disconnect,
    OtherList::DisconnectReply,
];

impl OtherList {
    // As a server's policies write it.
    fn word(self) -> &'static [u8] {
        match self {
            OtherList::OuterRequest => b"outer.request",
            OtherList::OuterReply => b"outer.reply",
            OtherList::OuterControl => b"outer.control",
            OtherList::OuterSessionState => b"outer.session-state",
            OtherList::SessionState => b"session-state",
            OtherList::ProxyRequest => b"proxy-request",
            OtherList::ProxyReply => b"proxy-reply",
            OtherList::Coa => b"coa",
            OtherList::CoaReply => b"coa-reply",
            OtherList::Disconnect => b"disconnect",
            OtherList::DisconnectReply => b"disconnect-reply",
        }
    }

    /// What the names of its attributes begin with in `control`.
    pub fn prefix(self) -> &'static [u8] {
        match self {
            OtherList::OuterRequest => b"Outer-Request-",
            OtherList::OuterReply => b"Outer-Reply-",
            OtherList::OuterControl => b"Outer-Control-",
            OtherList::OuterSessionState => b"Outer-Session-State-",
            OtherList::SessionState => b"Session-State-",
            OtherList::ProxyRequest => b"Proxy-Request-",
            OtherList::ProxyReply => b"Proxy-Reply-",
            OtherList::Coa => b"CoA-",
            OtherList::CoaReply => b"CoA-Reply-",
            OtherList::Disconnect => b"Disconnect-",
            OtherList::DisconnectReply => b"Disconnect-Reply-",
        }
    }

    /// The list that a word names, with its letters in either case.
    pub fn named(word: &[u8]) -> Option<OtherList> {
        for list in OTHER_LISTS {
            if word.eq_ignore_ascii_case(list.word()) {
                return Some(list);
            }
        }
        None
    }
}

/// A list, as a server's policies name it.
#[derive(Clone, Copy, Debug, PartialEq, Eq)]
pub enum ServerList {
    /// One that policies have.
    Own(List),
    Other(OtherList),
}

impl ServerList {
    /// The list that a word names, with its letters in either case. `config` is the server's older word for `control`.
    pub fn named(word: &[u8]) -> Option<ServerList> {
        if word.eq_ignore_ascii_case(b"request") {
            Some(ServerList::Own(List::Request))
        } else if word.eq_ignore_ascii_case(b"reply") {
            Some(ServerList::Own(List::Reply))
        } else if word.eq_ignore_ascii_case(b"control") || word.eq_ignore_ascii_case(b"config") {
            Some(ServerList::Own(List::Control))
        } else {
            Some(ServerList::Other(OtherList::named(word)?))
        }
    }

    /// The list of a policy that its attributes are in.
    pub fn list(self) -> List {
        match self {
            ServerList::Own(list) => list,
            ServerList::Other(_) => List::Control,
        }
    }
}
