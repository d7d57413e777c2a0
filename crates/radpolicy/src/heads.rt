//! The head of a request whose pairs are given as a list.

ghost use Rattle.std.specs.Prelude.{◌≡◌};
ghost use Rattle.avp_packet.specs.Packets.{IsRequestCode};
ghost use Rattle.radpolicy.specs.Starts.{code_of, form_of, packet_of};

use crate::jobs::Form;
use avp_lists::Pairs;
use avp_packet::{ACCESS_REQUEST, ACCOUNTING_REQUEST, Packet};

/// What kind of request it is.
#[derive(Clone, Copy, Debug, PartialEq, Eq)]
pub enum RequestKind {
    /// An Access-Request (RFC 2865, section 4.1).
    Access,
    /// An Accounting-Request (RFC 2866, section 4.1).
    Accounting,
}

impl RequestKind {
    // The code of its packet.
    pub(crate) fn code_of(self) -> u8
        ensures code { result ≡ code_of self }
        ensures request { IsRequestCode result }
    {
        match self {
            RequestKind::Access => ACCESS_REQUEST,
            RequestKind::Accounting => ACCOUNTING_REQUEST,
        }
    }
}

/// What a request is besides its pairs (RFC 2865, section 3).
#[derive(Clone, Copy, Debug, PartialEq, Eq)]
pub struct RequestHead {
    pub kind: RequestKind,
    /// The Identifier.
    pub id: u8,
    /// The Request Authenticator. Without one that of an Access-Request is 16 zeros, and that of an Accounting-Request
    /// is the digest of the packet that its pairs make (RFC 2866, section 3).
    pub authenticator: Option<[u8; 16]>,
}

impl RequestHead {
    // The request with this head and these pairs.
    pub(crate) fn packet_of(self, pairs: Pairs) -> Packet
        ensures { result ≡ packet_of self pairs }
    {
        Packet {
            code: self.kind.code_of(),
            id: self.id,
            authenticator: self.authenticator.unwrap_or([0; 16]),
            list: pairs,
        }
    }

    // How its authenticator is known.
    pub(crate) fn form_of(self) -> Form
        ensures { result ≡ form_of self }
    {
        match (self.kind, self.authenticator) {
            (RequestKind::Access, _) => Form::Access,
            (RequestKind::Accounting, Some(_)) => Form::Hex,
            (RequestKind::Accounting, None) => Form::Accounting,
        }
    }
}
