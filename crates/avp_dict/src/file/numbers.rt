//! Numbers of a line.

ghost use Rattle.std.specs.Prelude.{◌≡◌, ◌≤◌, ◌+◌, ◌*◌, ◌^◌, ℕ, MatchOption, Option, is_some};
ghost use Rattle.std.specs.Char.{digit_value};
ghost use Rattle.avp_lists.specs.Meets.{Meets};
ghost use Rattle.avp_dict.specs.Outcomes.{is_memory_kind};
ghost use Rattle.avp_dict.specs.Vendors.{bounded};
ghost use Rattle.avp_dict.specs.Words.{digits, is_number, number_of};
ghost use Rattle.avp_dict.specs.internal.Numbers.{Holds, Reads};

use crate::faults::DictKind;

/// The greatest number of an attribute and of a vendor.
pub const GREATEST_NUMBER: u64 = u32::MAX as u64;
/// The greatest number of a VALUE line.
pub const GREATEST_VALUE: u64 = u64::MAX;

/// What a word is, read as a number.
#[derive(Clone, Copy)]
pub enum Number {
    Unreadable,
    /// 2 ^ 64 or more.
    TooGreat,
    Is(u64),
}

impl Number {
    /// Whether the word is a number.
    pub(crate) fn is_read(self) -> bool
        ensures { (n : Option ℕ) → Reads self n → result ≡ is_some n }
    {
        match self {
            Number::Unreadable => false,
            Number::TooGreat => true,
            Number::Is(_) => true,
        }
    }
}

fn digit(octet: u8) -> u64
    ensures { result ≡ digit_value octet }
{
    match octet {
        b'0'..=b'9' => (octet - b'0') as u64,
        b'A'..=b'Z' => (octet - b'A') as u64 + 10,
        b'a'..=b'z' => (octet - b'a') as u64 + 10,
        _ => 36,
    }
}

/// The number that the digits of a word are. Inlined, so that a loop knows its base.
#[inline(always)]
pub(crate) fn digits(base: u64, word: &[u8]) -> Number
    requires { 2 ≤ base }
    ensures { Reads result (digits base word.now) }
{
    if word.is_empty() {
        return Number::Unreadable;
    }
    let mut number = 0;
    for octet in word {
        let next = digit(*octet);
        if next >= base {
            return Number::Unreadable;
        }
        match with_digit(base, number, next) {
            Some(more) => number = more,
            None => return many_digits(base, word),
        }
    }
    Number::Is(number)
}

// One more digit, where the number stays below 2 ^ 64.
#[inline(always)]
fn with_digit(base: u64, number: u64, next: u64) -> Option<u64>
    ensures { MatchOption result (2 ^ 64 ≤ number * base + next)
        (λ more. more ≡ number * base + next) }
{
    number.checked_mul(base)?.checked_add(next)
}

// The same of a word whose number may be 2 ^ 64 or more.
fn many_digits(base: u64, word: &[u8]) -> Number
    requires { 2 ≤ base }
    ensures { Reads result (digits base word.now) }
{
    if word.is_empty() {
        return Number::Unreadable;
    }
    let mut number = Number::Is(0);
    for octet in word {
        let next = digit(*octet);
        if next >= base {
            return Number::Unreadable;
        }
        number = extended(base, number, next);
    }
    number
}

// One more digit.
fn extended(base: u64, number: Number, next: u64) -> Number
    requires { 2 ≤ base }
    ensures { (n : ℕ) → Holds number n → Holds result (n * base + next) }
{
    match number {
        Number::Is(value) => match with_digit(base, value, next) {
            None => Number::TooGreat,
            Some(more) => Number::Is(more),
        },
        other => other,
    }
}

/// The number that a word is: decimal digits, or `0x` and hexadecimal ones.
pub(crate) fn number_of(word: &[u8]) -> Number
    ensures { Reads result (number_of word.now) }
{
    match word {
        [b'0', b'x', rest @ ..] => digits(16, rest),
        _ => digits(10, word),
    }
}

pub(crate) fn is_number(word: &[u8]) -> bool
    ensures { result ≡ is_number word.now }
{
    number_of(word).is_read()
}

/// A number of a line, within its bound.
pub(crate) fn bounded(most: u64, word: &[u8]) -> Result<u64, DictKind>
    ensures { Meets is_memory_kind result (bounded most word.now) }
{
    match number_of(word) {
        Number::Unreadable => Err(DictKind::Unreadable),
        Number::TooGreat => Err(DictKind::OutOfRange),
        Number::Is(number) => {
            if number <= most {
                Ok(number)
            } else {
                Err(DictKind::OutOfRange)
            }
        }
    }
}
