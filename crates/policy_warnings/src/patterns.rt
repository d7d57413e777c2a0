//! Patterns that a server takes otherwise.

ghost use Rattle.std.specs.Prelude.{◌≡◌, ◌+◌, ◌<◌, ◌≤◌, ◌^◌, false};
ghost use Rattle.policy_warnings.specs.WrittenPatterns.{after_member, after_octet, after_part, at_front, goes_on, is_beyond_ascii, is_repetition, read_from, repeats_octet, starts_line, with_caret, with_flag};

use avp_unlang::Matcher;

/// What an octet of a pattern is behind.
#[derive(Clone, Copy, PartialEq, Eq)]
pub(crate) enum Behind {
    /// A `\` that is not escaped itself.
    Escape,
    /// The `[` of a class.
    ClassStart,
    /// The `[^` of a class.
    ClassCaret,
    /// A `(`.
    GroupStart,
    /// `(?`, and letters of flags.
    Flags,
    /// Anything else.
    Other,
}

/// What is known of a pattern behind some of its octets.
#[derive(Clone, Copy)]
pub(crate) struct Reading {
    /// How many classes are open.
    pub classes: usize,
    pub behind: Behind,
    /// Whether a flag `m` came, by which `^` matches at the beginning of each line.
    pub has_lines: bool,
    /// Whether a `^` came behind it.
    pub starts_line: bool,
}

#[tactic(auto, unfolding(crate::specs::WrittenPatterns::is_repetition))]
fn is_repetition(octet: u8) -> bool
    ensures { result ≡ is_repetition octet }
{
    matches!(octet, b'*' | b'+' | b'?' | b'{')
}

// Whether an octet is of a letter beyond ASCII, which has several.
fn is_beyond_ascii(octet: u8) -> bool
    ensures { result ≡ is_beyond_ascii octet }
{
    octet >= 128
}

// Whether a repetition is directly behind a letter beyond ASCII.
pub(crate) fn repeats_octet(pattern: &[u8]) -> bool
    ensures { result ≡ repeats_octet pattern.now }
{
    let mut beyond = false;
    for octet in pattern {
        if beyond && is_repetition(*octet) {
            return true;
        }
        beyond = is_beyond_ascii(*octet);
    }
    false
}

impl Reading {
    fn at_front(has_lines: bool) -> Reading
        ensures { result ≡ at_front has_lines }
    {
        Reading {
            classes: 0,
            behind: Behind::Other,
            has_lines,
            starts_line: false,
        }
    }

    fn goes_on(self, classes: usize, behind: Behind) -> Reading
        ensures { result ≡ goes_on self classes behind }
    {
        Reading {
            classes,
            behind,
            has_lines: self.has_lines,
            starts_line: self.starts_line,
        }
    }

    // Behind an octet of a class.
    #[tactic(auto, unfolding(crate::specs::WrittenPatterns::after_member))]
    fn after_member(self, octet: u8) -> Reading
        requires open { 1 ≤ self.classes }
        requires fits { self.classes + 1 < 2 ^ 64 }
        ensures same { result ≡ after_member self octet }
        ensures few { result.classes ≤ self.classes + 1 }
    {
        match (octet, self.behind) {
            (b'[', _) => self.goes_on(self.classes + 1, Behind::ClassStart),
            (b']', Behind::ClassStart | Behind::ClassCaret) => {
                self.goes_on(self.classes, Behind::Other)
            }
            (b']', _) => self.goes_on(self.classes - 1, Behind::Other),
            (b'^', Behind::ClassStart) => self.goes_on(self.classes, Behind::ClassCaret),
            _ => self.goes_on(self.classes, Behind::Other),
        }
    }

    fn with_flag(self, octet: u8) -> Reading
        ensures { result ≡ with_flag self octet }
    {
        Reading {
            classes: self.classes,
            behind: Behind::Flags,
            has_lines: self.has_lines || octet == b'm',
            starts_line: self.starts_line,
        }
    }

    fn with_caret(self) -> Reading
        ensures { result ≡ with_caret self }
    {
        Reading {
            classes: self.classes,
            behind: Behind::Other,
            has_lines: self.has_lines,
            starts_line: self.starts_line || self.has_lines,
        }
    }

    // Behind an octet that is not of a class.
    #[tactic(auto, unfolding(crate::specs::WrittenPatterns::after_part))]
    fn after_part(self, octet: u8) -> Reading
        requires fits { self.classes + 1 < 2 ^ 64 }
        ensures same { result ≡ after_part self octet }
        ensures few { result.classes ≤ self.classes + 1 }
    {
        match (octet, self.behind) {
            (b'[', _) => self.goes_on(self.classes + 1, Behind::ClassStart),
            (b'^', _) => self.with_caret(),
            (b'(', _) => self.goes_on(self.classes, Behind::GroupStart),
            (b'?', Behind::GroupStart) => self.goes_on(self.classes, Behind::Flags),
            (_, Behind::Flags) if octet.is_ascii_alphabetic() => self.with_flag(octet),
            _ => self.goes_on(self.classes, Behind::Other),
        }
    }

    #[tactic(auto, unfolding(crate::specs::WrittenPatterns::after_octet))]
    fn after_octet(self, octet: u8) -> Reading
        requires fits { self.classes + 1 < 2 ^ 64 }
        ensures same { result ≡ after_octet self octet }
        ensures few { result.classes ≤ self.classes + 1 }
    {
        if self.behind == Behind::Escape {
            self.goes_on(self.classes, Behind::Other)
        } else if octet == b'\\' {
            self.goes_on(self.classes, Behind::Escape)
        } else if self.classes >= 1 {
            self.after_member(octet)
        } else {
            self.after_part(octet)
        }
    }
}

// Whether a `^` of a pattern matches at the beginning of each line.
pub(crate) fn starts_line(matcher: &Matcher<'_>) -> bool
    ensures { result ≡ starts_line matcher.now }
{
    let mut reading = Reading::at_front(matcher.flags.multi_line);
    for octet in matcher.pattern.as_slice() {
        reading = reading.after_octet(*octet);
    }
    reading.starts_line
}
