//! What values stand for beyond the type in which they are held.

/// What the values of an attribute stand for, where their type does not say it: by the type word and the flags of its
/// ATTRIBUTE line. Values of the forms after [`AsTyped`](Form::AsTyped) are held as octets, and a date as a number.
#[derive(Clone, Copy, Debug, PartialEq, Eq)]
pub enum Form {
    /// What the type says, and no more.
    AsTyped,
    /// `ipv6addr`: an IPv6 address, 16 octets (RFC 3162, section 2.1; RFC 8044, section 3.9).
    Ipv6Address,
    /// `ipv6prefix`: an octet that is reserved, the prefix's length in bits, and at most 16 octets of prefix
    /// (RFC 3162, section 2.3; RFC 8044, section 3.10).
    Ipv6Prefix,
    /// `ipv4prefix`: an octet that is reserved, the prefix's length in bits, and 4 octets of prefix (RFC 8044,
    /// section 3.11).
    Ipv4Prefix,
    /// `ifid`: an interface id, 8 octets (RFC 3162, section 2.2; RFC 8044, section 3.7).
    InterfaceId,
    /// `date`: a number of seconds since the first of January 1970, 00:00 UTC (RFC 2869, section 5.3; RFC 8044,
    /// section 3.3).
    Date,
    /// `integer` with `has_tag`: a tag, and a number of 3 octets (RFC 2868, section 3.1).
    TaggedInteger,
    /// `string` with `has_tag`: a tag, where the first octet is at most 0x1f, and a text (RFC 2868, section 3.3).
    TaggedString,
}
