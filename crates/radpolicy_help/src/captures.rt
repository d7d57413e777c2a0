//! Help for what regular expressions capture.

use avp_forms::Profile;

/// The word in the first expansion of a text, and what follows it.
pub(crate) fn next_expansion(text: &str) -> Option<(&str, &str)> {
    let (_, after) = text.split_once("%{")?;
    Some(after.split_once("}").unwrap_or((after, "")))
}

/// Whether a word in an expansion is a number, as of a group.
pub(crate) fn is_number(word: &str) -> bool {
    !word.is_empty() && word.as_bytes().iter().all(|octet| octet.is_ascii_digit())
}

/// Whether a word in an expansion of a policy of this profile is one of the groups.
pub(crate) fn is_group(word: &str, profile: Profile) -> bool {
    profile == Profile::Wider && word.len() == 1 && is_number(word)
}

/// Whether a number is expanded in a text.
pub(crate) fn has_number(text: &str) -> bool {
    let mut rest = text;
    for _ in 0..text.len() {
        let Some((word, others)) = next_expansion(rest) else {
            return false;
        };
        if is_number(word) {
            return true;
        }
        rest = others;
    }
    false
}

/// What to do about a number in an expansion that is no group of the profile.
pub(crate) fn group_hint(profile: Profile) -> &'static str {
    match profile {
        Profile::Plain => {
            "%{0} to %{9} are what a regular expression captured, below # profile: wider in the first \
            line"
        }
        Profile::Wider => "what a regular expression captured is %{0} to %{9}",
    }
}

/// What to do about a text with a number in an expansion that stands where a condition begins.
pub(crate) fn operand_hint(text: &str, profile: Profile) -> &'static str {
    let is_alone = text.starts_with("\"%{") && matches!(next_expansion(text), Some((_, "\"")));
    if profile == Profile::Plain || is_alone {
        group_hint(profile)
    } else {
        "as a condition %{0} to %{9} are alone between double quotes, as \"%{1}\""
    }
}
