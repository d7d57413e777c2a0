//! The parts of a text.

ghost use Rattle.std.specs.Prelude.{◌≡◌, ◌==◌, ◌<◌, ◌∷◌, [], length, IfSome, IfNone};
ghost use Rattle.std.specs.List.{slice_split, position};

fn separator_at(separator: u8, text: &[u8]) -> Option<usize>
    ensures place { result ≡ position (λ o. o == separator) text.now }
    ensures within { IfSome result (λ end. end < length text.now) }
{
    text.iter().position(|octet| *octet == separator)
}

/// What is before the first separator, and after it.
pub fn first_between(separator: u8, text: &[u8]) -> Option<(&[u8], &[u8])>
    ensures cut { IfSome result (λ x. slice_split (λ o. o == separator) text.now
        ≡ x.0.now ∷ slice_split (λ o. o == separator) x.1.now) }
    ensures whole { IfNone result (slice_split (λ o. o == separator) text.now ≡ text.now ∷ []) }
{
    let end = separator_at(separator, text)?;
    Some((&text[..end], &text[end + 1..]))
}
