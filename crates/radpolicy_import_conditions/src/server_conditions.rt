//! Conditions as a server reads them.

use avp_lists::{AttrId, List};
use avp_unlang::{Code, Comparison, GroupMatching, Matching, TextComparison};

/// A condition of a server. `&&` and `||` have no precedence there: what follows one of them is one condition, to the
/// end of the brackets.
#[derive(Debug, Drop)]
pub enum ServerCondition {
    /// A text or a number by itself, which has one truth.
    Constant(bool),
    /// Whether this is the last code.
    Last(Code),
    /// Whether the attribute has an instance.
    Present(List, AttrId),
    Compare(Comparison),
    /// A comparison with a regular expression.
    Match(Matching),
    /// A comparison of texts in which something may be put.
    CompareTexts(TextComparison),
    /// `"%{Name}" =~ /../`: as `Match`, of a text that is empty where the attribute is absent.
    MatchText(Matching),
    /// The same of what was captured, as `"%{1}"`.
    MatchGroup(GroupMatching),
    /// Whether the group that a regular expression captured last, as `%{8}`, is not empty.
    Captured(u8),
    Not(Box<ServerCondition>),
    And(Box<ServerCondition>, Box<ServerCondition>),
    Or(Box<ServerCondition>, Box<ServerCondition>),
}

impl ServerCondition {
    /// Whether it compares texts in which something may be put.
    pub fn compares_texts(&self) -> bool {
        match self {
            ServerCondition::CompareTexts(_) => true,
            ServerCondition::Not(inner) => inner.compares_texts(),
            ServerCondition::And(first, next) | ServerCondition::Or(first, next) => {
                first.compares_texts() || next.compares_texts()
            }
            _ => false,
        }
    }
}
