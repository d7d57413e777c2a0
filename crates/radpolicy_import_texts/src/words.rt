//! Words of a server's text that may name attributes.

ghost use Rattle.std.specs.Prelude.{◌≡◌};
ghost use Rattle.radpolicy_import_texts.specs.Words.{is_name_octet, is_opening, is_reference_octet};

/// Letters, digits, and `-`, `_`, `.` and `/`.
#[tactic(auto, unfolding(crate::specs::Words::is_name_octet))]
pub(crate) fn is_name_octet(octet: u8) -> bool
    ensures { result ≡ is_name_octet octet }
{
    octet.is_ascii_alphanumeric() || b"-_./".contains(&octet)
}

/// Those of a name, and the colons behind its list and before its tag.
pub(crate) fn is_reference_octet(octet: u8) -> bool
    ensures { result ≡ is_reference_octet octet }
{
    is_name_octet(octet) || octet == b':'
}

/// What a reference follows: the brace of an expansion, or the sign of an attribute.
pub(crate) fn is_opening(octet: u8) -> bool
    ensures { result ≡ is_opening octet }
{
    octet == b'{' || octet == b'&'
}

/// Whether a word stands for what was captured, or for the value at which a loop is.
pub(crate) fn is_held(word: &[u8]) -> bool {
    matches!(word, [b'0'..=b'9']) || word.starts_with(b"Foreach-Variable-")
}
