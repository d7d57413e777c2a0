//! The attributes of `control` in place of what policies do not have.

use crate::other_lists::OtherList;
use avp_lists::AttrId;

/// What an attribute of `control` is in a server's policy.
#[derive(Debug, Drop)]
pub enum OtherSource {
    /// An attribute of a list that policies do not have, by its id and its name there.
    Attribute(OtherList, AttrId, Vec<u8>),
    /// An expansion that asks something, as `sql:SELECT ..`, by the text between its braces.
    Asked(Vec<u8>),
    /// Whether the section has ended by `return`: it is set there, and what may follow asks for it.
    Returned,
    /// Nothing new: the attribute has a value of this name, as `ldap` of `Auth-Type`, which a section or a module of the
    /// server defines.
    Value(Vec<u8>),
}

/// An attribute of `control` in place of something that policies do not have.
#[derive(Debug, Drop)]
pub struct OtherAttribute {
    pub source: OtherSource,
    /// Its name, as `Outer-Request-User-Name`, `Import-Sql-1` or `Auth-Type`.
    pub own: Vec<u8>,
    /// Whether the dictionary that it was found with has no such name.
    pub is_new: bool,
}
