//! How patterns are read.

/// The flags that are written after a pattern.
#[derive(Clone, Copy, Debug, PartialEq, Eq)]
pub struct PatternFlags {
    /// `i`: a letter of ASCII matches in either case.
    pub ignore_case: bool,
    /// `m`: `^` and `$` match at the ends of lines too.
    pub multi_line: bool,
}
