use avp_lists::Pairs;

/// The code of an Access-Request (RFC 2865, section 4.1).
pub const ACCESS_REQUEST: u8 = 1;

/// The code of an Access-Accept (RFC 2865, section 4.2).
pub const ACCESS_ACCEPT: u8 = 2;

/// The code of an Access-Reject (RFC 2865, section 4.3).
pub const ACCESS_REJECT: u8 = 3;

/// The code of an Accounting-Request (RFC 2866, section 4.1).
pub const ACCOUNTING_REQUEST: u8 = 4;

/// The code of an Accounting-Response (RFC 2866, section 4.2).
pub const ACCOUNTING_RESPONSE: u8 = 5;

/// The code of an Access-Challenge (RFC 2865, section 4.4), which is read and never written.
pub const ACCESS_CHALLENGE: u8 = 11;

/// A request or a reply as it was read.
#[derive(Debug, Drop)]
pub struct Packet {
    /// [`ACCESS_REQUEST`] or [`ACCOUNTING_REQUEST`], and of a reply one of the other codes.
    pub code: u8,
    /// The Identifier (RFC 2865, section 3).
    pub id: u8,
    /// The packet's own: of a reply the Response Authenticator.
    pub authenticator: [u8; 16],
    pub list: Pairs,
}
