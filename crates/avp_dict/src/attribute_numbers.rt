//! Attributes that rules name by their numbers.

ghost use Rattle.std.specs.Prelude.{◌≡◌};
ghost use Rattle.avp_dict.specs.AttributeNumbers.{is_extended_type};

/// The greatest number that an attribute's one octet holds.
pub const MAX_PLAIN: u32 = 255;
/// Vendor-Specific (RFC 2865, section 5.26).
pub const VENDOR_SPECIFIC: u32 = 26;
/// Proxy-State (RFC 2865, section 5.33).
pub const PROXY_STATE: u32 = 33;
/// Message-Authenticator (RFC 3579, section 3.2).
pub const MESSAGE_AUTHENTICATOR: u32 = 80;

/// Whether it is a type of extended attributes (RFC 6929, section 2).
pub fn is_extended_type(number: u64) -> bool
    ensures { result ≡ is_extended_type number }
{
    number >= 241 && number <= 246
}
