//! Attributes that rules name by their numbers, and the pieces of long values.

/// Vendor-Specific (RFC 2865, section 5.26).
pub(crate) const VENDOR_SPECIFIC: u8 = 26;
/// Message-Authenticator (RFC 3579, section 3.2).
pub(crate) const MESSAGE_AUTHENTICATOR: u8 = 80;

/// The first and the last of the types that hold one extended attribute (RFC 6929, section 2.1).
pub(crate) const EXTENDED_TYPE_1: u8 = 241;

pub(crate) const EXTENDED_TYPE_4: u8 = 244;

/// The types that hold long values (RFC 6929, section 2.2).
pub(crate) const LONG_EXTENDED_TYPE_1: u8 = 245;

pub(crate) const LONG_EXTENDED_TYPE_2: u8 = 246;

/// The octets of a piece that another one follows.
pub(crate) const PIECE_OCTETS: usize = 251;
/// The flag of such a piece.
pub(crate) const MORE_FLAG: u8 = 0x80;
