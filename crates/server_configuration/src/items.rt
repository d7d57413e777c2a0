//! What a configuration consists of.

ghost use Rattle.std.specs.Prelude.{◌≡◌};
ghost use Rattle.server_configuration.specs.Contents.{is_section};

/// How a text is quoted.
#[derive(Clone, Copy, Debug, PartialEq, Eq)]
pub enum Quote {
    Bare,
    Double,
    Single,
    Back,
}

/// A name, a value or a condition, without its quotes. Escapes in it, references and expansions are as they were
/// written; a line that ended in `\` is joined to the next.
#[derive(Debug, Drop, PartialEq, Eq)]
pub struct Text {
    pub quote: Quote,
    pub octets: Vec<u8>,
}

impl Text {
    /// Whether it is this word, without quotes.
    pub fn is(&self, word: &[u8]) -> bool {
        self.quote == Quote::Bare && self.octets.as_slice() == word
    }

    /// The same without regard to case, as the server compares `$INCLUDE`.
    pub fn is_ignoring_case(&self, word: &[u8]) -> bool {
        self.quote == Quote::Bare && self.octets.as_slice().eq_ignore_ascii_case(word)
    }
}

/// The sign between a name and its value.
#[derive(Clone, Copy, Debug, PartialEq, Eq)]
pub enum Operator {
    /// `=`
    Equals,
    /// `:=`
    Set,
    /// `+=`
    Add,
    /// `-=`
    Subtract,
    /// `^=`
    Prepend,
    /// `==`
    IsEqual,
    /// `!=`
    IsNotEqual,
    /// `<`
    IsLess,
    /// `<=`
    IsAtMost,
    /// `>`
    IsGreater,
    /// `>=`
    IsAtLeast,
    /// `=~`
    Matches,
    /// `!~`
    MatchesNot,
    /// `=*`
    IsPresent,
    /// `!*`
    IsAbsent,
}

/// What an item is.
#[derive(Debug, Drop, PartialEq, Eq)]
pub enum Content {
    /// `name = value`. The value may be missing.
    Pair {
        name: Text,
        operator: Operator,
        value: Option<Text>,
    },
    /// `name arguments {`. The one argument of `if` and `elsif` is their condition, with its brackets.
    Section {
        name: Text,
        arguments: Vec<Text>,
    },
    /// `name arguments`, as the call of a module.
    Word {
        name: Text,
        arguments: Vec<Text>,
    },
    /// `$INCLUDE path`, or `$-INCLUDE path` of a file that may be missing.
    Include {
        path: Text,
        optional: bool,
    },
}

impl Content {
    pub fn is_section(&self) -> bool
        ensures { result ≡ is_section self.now }
    {
        matches!(self, Content::Section { .. })
    }
}

/// A part of a file.
#[derive(Debug, Drop, PartialEq, Eq)]
pub struct Item {
    /// The place of its file among those of a configuration; 0 where one text was read.
    pub file: usize,
    /// The line on which it begins, from 1 on.
    pub line: usize,
    /// The place, among the items, of the section that holds it; none at the top.
    pub section: Option<usize>,
    pub content: Content,
}
