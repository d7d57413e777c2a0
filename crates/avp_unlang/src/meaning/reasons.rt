//! Why update lines fail.

/// Why an update line fails.
#[derive(Clone, Copy, Debug, PartialEq, Eq)]
pub enum Reason {
    /// Its source is a reference to an attribute that has no instance.
    Absent,
    /// Its source is no value of the attribute.
    NotValue,
    /// Its source has more octets than the attribute may have, or a hidden value ends in NUL.
    TooLong,
    /// Its list would have more than 4096 pairs.
    Full,
}
