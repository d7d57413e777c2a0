use thiserror::Error;

/// Why a text is no pattern, with how many octets of it are before the place that was refused.
#[derive(Clone, Copy, Debug, PartialEq, Eq, Error)]
pub enum PatternFault {
    /// It has no octet.
    #[error("pattern is empty")]
    Empty,
    /// It is not UTF-8 from here on.
    #[error("pattern is not UTF-8")]
    NotUtf8(usize),
    /// Here is a `%{`, which a server replaces when it matches.
    #[error("pattern holds an expansion")]
    Expansion(usize),
    /// The grammar of patterns reads none in it, or what it reads is nested too deep.
    #[error("not a pattern")]
    NotRead(usize),
    /// It is a pattern, and what is compiled of it is too large.
    #[error("pattern too large")]
    TooLarge,
    #[error("out of memory")]
    Memory,
}
