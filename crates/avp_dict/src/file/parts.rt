//! The parts of a word.

ghost use Rattle.std.specs.Prelude.{◌≡◌, ◌==◌, ◌<◌, ◌∷◌, [], length, IfOk, IfSome, IfNone};
ghost use Rattle.std.specs.List.{slice_split, position};
ghost use Rattle.avp_dict.specs.internal.Views.{views};

use std::alloc::{AllocError, Global};

fn separator_at(separator: u8, text: &[u8]) -> Option<usize>
    ensures place { result ≡ position (λ o. o == separator) text.now }
    ensures within { IfSome result (λ end. end < length text.now) }
{
    text.iter().position(|octet| *octet == separator)
}

/// What is before the first separator, and after it.
pub(crate) fn first_between(separator: u8, text: &[u8]) -> Option<(&[u8], &[u8])>
    ensures cut { IfSome result (λ x. slice_split (λ o. o == separator) text.now
        ≡ x.0.now ∷ slice_split (λ o. o == separator) x.1.now) }
    ensures shorter { IfSome result (λ x. length x.1.now < length text.now) }
    ensures whole { IfNone result (slice_split (λ o. o == separator) text.now ≡ text.now ∷ []) }
{
    let end = separator_at(separator, text)?;
    Some((&text[..end], &text[end + 1..]))
}

/// The parts of a word between separators.
pub(crate) fn parts_between(
    alloc: Global,
    separator: u8,
    word: &[u8],
) -> Result<Vec<&[u8]>, AllocError>
    ensures { IfOk result (λ parts. views parts.items
        ≡ slice_split (λ o. o == separator) word.now) }
{
    let mut parts = Vec::new(alloc);
    let mut rest = word;
    while let Some((part, after)) = first_between(separator, rest) {
        parts.push(part)?;
        rest = after;
    }
    parts.push(rest)?;
    Ok(parts)
}
