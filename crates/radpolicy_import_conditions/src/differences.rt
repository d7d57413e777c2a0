//! What a server does otherwise with what is kept.

use crate::patterns::PatternDifference;
use thiserror::Error;

/// What a server does otherwise with a line or a condition that is kept.
#[derive(Clone, Copy, Debug, PartialEq, Eq, Error)]
pub enum Difference {
    #[error("{0}")]
    Pattern(PatternDifference),
    /// The policy has what is sent of it.
    #[error("on a server the text is whole until the reply is sent")]
    LongText,
    /// What is sent has room for no more than an attribute of the dictionary.
    #[error("on a server the text is cut when it is sent if it becomes too long, and here the update fails")]
    LongExpansion,
    /// A server takes the value as a text.
    #[error("on a server the value is a text even if it begins with 0x; here it is octets, or the update fails")]
    TaggedOctets,
    #[error("on a server a date is one of its own zone")]
    DateZone,
    /// Put into a text or searched.
    #[error("on a server a date has a text of its own zone")]
    PrintedDate,
    /// Where both texts that are compared are digits, which may have a sign before them.
    #[error("on a server texts of digits are numbers of 64 bits, also behind a -")]
    TextNumbers,
    /// A string that is put in.
    #[error("on a server what is put in has a backslash before each quote, backslash and octet that is not printed")]
    EscapedOctets,
    #[error("on a server an empty text with a tag is not sent, and here its tag is")]
    EmptyTagged,
    /// Where the request has one in fewer octets than it is written with.
    #[error("on a server prefixes are compared by value, and here by their octets")]
    ShortPrefix,
    /// Printed, put into a text or searched.
    #[error("on a server an IPv6 address of 96 zero bits and an IPv4 address has dots, as ::10.1.2.3")]
    DottedAddress,
    /// As `%{explode:..}` does.
    #[error("on a server the expansion changes attributes")]
    ChangedList,
    /// The digits before the `x`.
    #[error("on a server 0x and digits are 0 for an attribute of type integer64")]
    HexadecimalNumber,
    /// Where the attribute's numbers have tags, and the text keeps its meaning here.
    #[error("on a server 0x and digits are a number, and here they are octets")]
    HexadecimalOctets,
}

impl Difference {
    /// Its name, and that of the row of docs/SERVER.md; none of most of those with regular expressions.
    pub fn name(self) -> Option<&'static str> {
        match self {
            Difference::Pattern(difference) => difference.name(),
            Difference::LongText => Some("long-text"),
            Difference::LongExpansion => Some("long-expansion"),
            Difference::TaggedOctets => Some("tagged-octets"),
            Difference::DateZone | Difference::PrintedDate => Some("date-zone"),
            Difference::TextNumbers => Some("text-numbers"),
            Difference::EscapedOctets => Some("escaped-octets"),
            Difference::EmptyTagged => Some("empty-tagged"),
            Difference::ShortPrefix => Some("short-prefix"),
            Difference::DottedAddress => Some("dotted-address"),
            Difference::ChangedList => Some("changed-list"),
            Difference::HexadecimalNumber | Difference::HexadecimalOctets => {
                Some("hexadecimal-number")
            }
        }
    }
}

impl From<PatternDifference> for Difference {
    fn from(difference: PatternDifference) -> Difference {
        Difference::Pattern(difference)
    }
}
