//! What conditions capture, and which of them look at it.

ghost use Rattle.std.specs.Prelude.{◌≡◌};
ghost use Rattle.std.specs.List.{list_any};
ghost use Rattle.avp_unlang.specs.Evaluations.{is_capture, side_has_captures};
ghost use Rattle.radpolicy_import_conditions.specs.Capturing.{has_pattern, is_repeatable, keeps_captures, uses_captures};

use crate::server_conditions::ServerCondition;
use avp_unlang::{Part, TextSide};

/// Whether a condition compares with a regular expression.
pub fn has_pattern(condition: &ServerCondition) -> bool
    ensures { result ≡ has_pattern condition.now }
{
    match condition {
        ServerCondition::Match(_)
        | ServerCondition::MatchText(_)
        | ServerCondition::MatchGroup(_) => true,
        ServerCondition::Not(inner) => has_pattern(inner),
        ServerCondition::And(first, next) | ServerCondition::Or(first, next) => {
            has_pattern(first) || has_pattern(next)
        }
        _ => false,
    }
}

// Whether something of a text is what was captured.
fn has_captures(parts: &[Part]) -> bool
    ensures { result ≡ list_any is_capture parts.now }
{
    parts.iter().any(|part| matches!(part, Part::Capture(_)))
}

fn side_has_captures(side: &TextSide) -> bool
    ensures { result ≡ side_has_captures side.now }
{
    match side {
        TextSide::Text(parts) => has_captures(parts.as_slice()),
        TextSide::Instance(..) => false,
    }
}

/// Whether a condition looks at what was captured.
pub fn uses_captures(condition: &ServerCondition) -> bool
    ensures { result ≡ uses_captures condition.now }
{
    match condition {
        ServerCondition::Captured(_) | ServerCondition::MatchGroup(_) => true,
        ServerCondition::CompareTexts(comparison) => {
            side_has_captures(&comparison.left) || has_captures(comparison.right.as_slice())
        }
        ServerCondition::Not(inner) => uses_captures(inner),
        ServerCondition::And(first, next) | ServerCondition::Or(first, next) => {
            uses_captures(first) || uses_captures(next)
        }
        _ => false,
    }
}

// Whether a condition comes to the same when it is asked once more.
fn is_repeatable(condition: &ServerCondition) -> bool
    ensures { result ≡ is_repeatable condition.now }
{
    !has_pattern(condition) || !uses_captures(condition)
}

/// Whether our condition captures what the server's does: what comes first in it may be asked once more before what
/// follows.
pub fn keeps_captures(condition: &ServerCondition) -> bool
    ensures { result ≡ keeps_captures condition.now }
{
    match condition {
        ServerCondition::Not(inner) => keeps_captures(inner),
        ServerCondition::And(first, next) | ServerCondition::Or(first, next) => {
            is_repeatable(first) && keeps_captures(first) && keeps_captures(next)
        }
        _ => true,
    }
}

/// Whether what was captured before a condition is not what there is where it is true.
pub fn captures_anew(condition: &ServerCondition) -> bool {
    match condition {
        ServerCondition::Match(_)
        | ServerCondition::MatchText(_)
        | ServerCondition::MatchGroup(_) => true,
        ServerCondition::And(first, next) => captures_anew(first) || captures_anew(next),
        ServerCondition::Or(first, next) => captures_anew(first) && captures_anew(next),
        _ => false,
    }
}
