//! What a dictionary has, and what is found in it.

use crate::forms::Form;
use crate::spelling::Name;
use avp_lists::AttrId;

/// The type of an attribute's values.
#[derive(Clone, Copy, Debug, PartialEq, Eq)]
pub enum Kind {
    /// `string`
    Text,
    /// `octets`, and any type word that is none of the others
    Bytes,
    /// `ipaddr`
    Addr,
    /// `integer`, of 4 octets
    Integer,
    /// `date`, in seconds, of 4 octets
    Date,
    /// `byte`
    Byte,
    /// `short`, of 2 octets
    Short,
    /// `signed`, of 4 octets
    Signed,
    /// `integer64`, of 8 octets
    Integer64,
    /// `ether`
    Ether,
}

/// What a VENDOR line says of its vendor's attributes (RFC 2865, section 5.26).
#[derive(Clone, Copy)]
pub struct VendorFormat {
    /// Octets of the attribute's number: 1, 2 or 4.
    pub t: u8,
    /// Octets of the attribute's length: 0, 1 or 2.
    pub l: u8,
    /// Whether a third part follows, so that the attributes stay unread.
    pub third: bool,
}

/// How the values of an attribute are read.
#[derive(Clone, Copy)]
pub struct Typing {
    pub kind: Kind,
    /// Whether the octets are hidden (RFC 2865, section 5.2).
    pub hidden: bool,
    /// Whether a text without `0x` is taken as its own octets: the line's type word is string or octets, or the
    /// attribute is 26, 33, 80 or 241 to 246.
    pub takes_text: bool,
    pub form: Form,
    /// Whether the line has `encrypt=1`, `encrypt=2`, `encrypt=3` or `secret`.
    pub secret: bool,
}

/// What a used ATTRIBUTE line says.
#[derive(Drop)]
pub struct AttributeLine {
    pub name: Name,
    pub id: AttrId,
    pub typing: Typing,
}

/// What a used VALUE line says: a name of a number of this attribute's values.
#[derive(Drop)]
pub struct ValueLine {
    pub id: AttrId,
    pub name: Name,
    pub number: u64,
}

/// What a VENDOR line says.
#[derive(Drop)]
pub struct VendorLine {
    pub name: Name,
    pub number: u32,
    pub format: VendorFormat,
}

/// What a name stands for.
#[derive(Clone, Copy, Debug, PartialEq, Eq)]
pub struct Named {
    pub id: AttrId,
    /// Whether it is a name by number, as `Attr-26.9.1`, whose values are written as octets.
    pub raw: bool,
}

/// What an id stands for, by its last used ATTRIBUTE line.
#[derive(Clone, Copy, Debug)]
pub struct Entry<'a> {
    /// The printed name.
    pub name: &'a [u8],
    pub kind: Kind,
    /// Whether the octets are hidden (RFC 2865, section 5.2).
    pub hidden: bool,
}

/// How many octets a vendor's attributes have for their number and for their length (RFC 2865, section 5.26).
#[derive(Clone, Copy, Debug, PartialEq, Eq)]
pub struct Format {
    /// Octets of the number: 1, 2 or 4.
    pub t: u8,
    /// Octets of the length: 0, 1 or 2.
    pub l: u8,
}

/// Where a skipped line is.
#[derive(Clone, Copy, Debug, PartialEq, Eq)]
pub struct Note {
    /// The file's place in the set.
    pub file: usize,
    /// The line's number in the file, from 1 on.
    pub line: usize,
}

/// How many names there are, letters of either case taken as one.
#[derive(Clone, Copy, Debug, PartialEq, Eq)]
pub struct Counts {
    pub attributes: usize,
    /// Pairs of an attribute and a value's name.
    pub values: usize,
    pub vendors: usize,
}
