//! The octets for which hexadecimal digits in a text stand.

ghost use Rattle.std.specs.Prelude.{◌≡◌, ◌<◌, ◌++◌, ◌∷◌, [], IfOk, IfSome, MatchOption, OnOk, SomeIff, length};
ghost use Rattle.std.specs.Char.{digit_value};
ghost use Rattle.radpolicy_common.specs.DigitRuns.{is_hexadecimal_digit, pairs_line, spelled_from, spelled_octets};

use std::alloc::{AllocError, Global};

fn digit(octet: u8) -> Option<u32>
    ensures { SomeIff result (digit_value octet < 16) (digit_value octet) }
{
    char::from(octet).to_digit(16)
}

fn is_hexadecimal_digit(octet: u8) -> bool
    ensures { result ≡ is_hexadecimal_digit octet }
{
    digit(octet).is_some()
}

// The octet for which the first two digits stand, and the text after them.
fn first_pair(text: &[u8]) -> Option<(u8, &[u8])>
    ensures read { MatchOption result (pairs_line text.now ≡ 10 ∷ [])
        (λ x. pairs_line text.now ≡ x.0 ∷ pairs_line x.1.now) }
    ensures shorter { IfSome result (λ x. length x.1.now < length text.now) }
{
    match text {
        [high, low, rest @ ..] => {
            let octet = digit(*high)? * 16 + digit(*low)?;
            Some((octet as u8, rest))
        }
        _ => None,
    }
}

fn push_pairs(octets: &mut Vec<u8>, text: &[u8]) -> Result<(), AllocError>
    ensures { OnOk result (octets.new.items ≡ octets.old.items ++ pairs_line text.now) }
{
    let mut rest = text;
    while let Some((octet, after)) = first_pair(rest) {
        octets.push(octet)?;
        rest = after;
    }
    octets.push(b'\n')?;
    Ok(())
}

/// The octets for which the hexadecimal digits in a text stand, with `0x` before them or without: a line for each run of
/// digits from its first on, and one from its second on, since a digit may be missing.
#[tactic(auto, unfolding(crate::specs::DigitRuns::spelled_octets))]
pub fn spelled_octets(alloc: Global, text: &[u8]) -> Result<Vec<u8>, AllocError>
    ensures { IfOk result (λ octets. octets.items ≡ spelled_octets text.now) }
{
    let mut octets = Vec::new(alloc);
    let mut rest = text;
    let mut within = false;
    while let [octet, others @ ..] = rest {
        let is_digit = is_hexadecimal_digit(*octet);
        if is_digit && !within {
            push_pairs(&mut octets, rest)?;
            push_pairs(&mut octets, others)?;
        }
        within = is_digit;
        rest = others;
    }
    Ok(octets)
}
