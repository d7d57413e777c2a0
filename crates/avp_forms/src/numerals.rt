//! Numbers that are written in digits.

ghost use Rattle.std.specs.Prelude.{◌≡◌, ◌≤◌, ◌<◌, ◌^◌, IfSome};
ghost use Rattle.std.specs.Char.{digit_value};
ghost use Rattle.avp_forms.specs.Numerals.{number_up_to, number_within, short_number};

fn digit_value(octet: u8) -> u64
    ensures { result ≡ digit_value octet }
{
    match octet {
        b'0'..=b'9' => (octet - b'0') as u64,
        b'A'..=b'Z' => (octet - b'A') as u64 + 10,
        b'a'..=b'z' => (octet - b'a') as u64 + 10,
        _ => 36,
    }
}

/// The number of one digit or more, where it is not above the greatest one.
#[tactic(auto, unfolding(crate::specs::Numerals::number_within))]
pub fn number_within(base: u64, most: u64, text: &[u8]) -> Option<u64>
    requires base { base ≤ 36 }
    requires most { most < 2 ^ 32 }
    ensures value { result ≡ number_within base most text.now }
    ensures within { IfSome result (λ number. number ≤ most) }
{
    if text.is_empty() {
        return None;
    }
    let mut number = 0;
    for octet in text {
        let digit = digit_value(*octet);
        if digit >= base {
            return None;
        }
        number = number * base + digit;
        if number > most {
            return None;
        }
    }
    Some(number)
}

/// The same of so many digits at the most.
#[tactic(auto, unfolding(crate::specs::Numerals::short_number))]
pub fn short_number(count: usize, base: u64, most: u64, text: &[u8]) -> Option<u64>
    requires base { base ≤ 36 }
    requires most { most < 2 ^ 32 }
    ensures value { result ≡ short_number count base most text.now }
    ensures within { IfSome result (λ number. number ≤ most) }
{
    if text.len() <= count {
        number_within(base, most, text)
    } else {
        None
    }
}

/// The number of decimal digits, or of `0x` and hexadecimal ones, where it is not above the greatest one.
#[tactic(auto, unfolding(crate::specs::Numerals::number_up_to, crate::specs::Numerals::number_within))]
pub fn number_up_to(most: u64, text: &[u8]) -> Option<u64>
    requires { most < 2 ^ 32 }
    ensures value { result ≡ number_up_to most text.now }
    ensures within { IfSome result (λ number. number ≤ most) }
{
    match text {
        [b'0', b'x', digits @ ..] => number_within(16, most, digits),
        _ => number_within(10, most, text),
    }
}
