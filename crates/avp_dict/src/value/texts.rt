//! Texts of values.

ghost use Rattle.std.specs.Prelude.{◌≡◌, ◌+◌, ◌∷◌, [], false, true, IfErr, IfOk, OnErr, ℕ, None, Option, is_some, pos};
ghost use Rattle.std.specs.List.{list_all};
ghost use Rattle.std.specs.Option.{option_and_then, option_map, option_map_or};
ghost use Rattle.std.specs.Result.{result_ok};
ghost use Rattle.hex.specs.Hex.{decode_of, is_hex_digit};
ghost use Rattle.avp_lists.specs.Meets.{Meets};
ghost use Rattle.avp_dict.specs.AttributeNumbers.{greatest_signed};
ghost use Rattle.avp_dict.specs.Octets.{keeps_octets};
ghost use Rattle.avp_dict.specs.Outcomes.{is_memory_value};
ghost use Rattle.avp_dict.specs.Sent.{is_container};
ghost use Rattle.avp_dict.specs.Spellings.{address_spelled, bytes_spelled, decimal_octet, digit_pair, each_number, ether_spelled, is_barred, negated, number_spelled, number_up_to, octets_spelled, signed_spelled, spelled, spelled_by, takes_memory, up_to, value_spelled};
ghost use Rattle.avp_dict.specs.Values.{max_of};
ghost use Rattle.avp_dict.specs.Words.{digits};
ghost use Rattle.avp_dict.specs.internal.Numbers.{Reads};

use crate::attribute_numbers::{VENDOR_SPECIFIC, is_extended_type};
use crate::dictionaries::Dictionary;
use crate::entries::{Kind, Named, Typing};
use crate::file::numbers::{Number, digits, number_of};
use crate::file::parts::first_between;
use crate::file::values::max_of;
use crate::value::faults::ValueFault;
use avp_lists::{AttrId, Octets, Value};
use hex::FromHexError;
use std::alloc::{AllocError, Global};

fn is_hex_digit(octet: u8) -> bool
    ensures { result ≡ is_hex_digit octet }
{
    matches!(octet, b'0'..=b'9' | b'a'..=b'f' | b'A'..=b'F')
}

fn are_hex_digits(text: &[u8]) -> bool
    ensures { result ≡ list_all is_hex_digit text.now }
{
    text.iter().all(|octet| is_hex_digit(*octet))
}

// Whether a text is pairs of hexadecimal digits.
#[tactic(auto, using(crate::proofs::DigitPairs::others_spell_none, crate::proofs::DigitPairs::pairs_spell))]
fn are_digit_pairs(text: &[u8]) -> bool
    ensures some { result ≡ true → is_some (result_ok (decode_of text.now)) ≡ true }
    ensures none { result ≡ false → result_ok (decode_of text.now) ≡ None }
{
    text.len() % 2 == 0 && are_hex_digits(text)
}

// The octets that `0x` and hexadecimal digits stand for. Memory is taken only once there are such.
#[tactic(auto, unfolding(crate::specs::Spellings::octets_spelled))]
fn octets_spelled(alloc: Global, text: &[u8]) -> Result<Option<Octets>, AllocError>
    ensures read { IfOk result (λ octets. octets ≡ octets_spelled text.now) }
    ensures memory { OnErr result (is_some (octets_spelled text.now) ≡ true) }
{
    match text {
        [b'0', b'x', digits @ ..] if are_digit_pairs(digits) => match hex::decode(alloc, digits) {
            Ok(octets) => Ok(Some(Octets::from_vec(octets))),
            Err(FromHexError::OutOfMemory) => Err(AllocError),
            Err(_) => Ok(None),
        },
        _ => Ok(None),
    }
}

// The octets of a text, and those of `0x` and hexadecimal digits.
#[tactic(auto, unfolding(crate::specs::Spellings::bytes_spelled))]
fn bytes_spelled(alloc: Global, takes_text: bool, text: &[u8]) -> Result<Option<Octets>, AllocError>
    ensures read { IfOk result (λ octets. octets ≡ bytes_spelled takes_text text.now) }
    ensures memory { OnErr result (is_some (bytes_spelled takes_text text.now) ≡ true) }
{
    match text {
        [b'0', b'x', ..] => octets_spelled(alloc, text),
        _ => {
            if takes_text {
                Ok(Some(Octets::from_slice(alloc, text)?))
            } else {
                octets_spelled(alloc, text)
            }
        }
    }
}

/// Whether the attribute only holds others (RFC 2865, section 5.26; RFC 6929, section 2).
pub fn is_container(id: AttrId) -> bool
    ensures { result ≡ is_container id }
{
    match id {
        AttrId::Plain(number) => number == VENDOR_SPECIFIC || is_extended_type(u64::from(number)),
        _ => false,
    }
}

impl Number {
    // The number, if it isn't above the greatest one.
    fn up_to(self, most: u64) -> Option<u64>
        ensures { (number : Option ℕ) → Reads self number → result ≡ up_to most number }
    {
        match self {
            Number::Is(number) if number <= most => Some(number),
            _ => None,
        }
    }
}

fn positive(text: &[u8]) -> Option<i32>
    ensures { result ≡ option_map pos (up_to greatest_signed (digits 10 text.now)) }
{
    let number = digits(10, text).up_to(i32::MAX as u64)?;
    Some(number as i32)
}

fn negative(text: &[u8]) -> Option<i32>
    ensures { result ≡ option_map negated (up_to (greatest_signed + 1) (digits 10 text.now)) }
{
    let number = digits(10, text).up_to(i32::MAX as u64 + 1)?;
    Some(-(number as i64) as i32)
}

#[tactic(auto, unfolding(crate::specs::Spellings::signed_spelled))]
fn signed_spelled(text: &[u8]) -> Option<i32>
    ensures { result ≡ signed_spelled text.now }
{
    match text {
        [b'-', digits @ ..] => negative(digits),
        _ => positive(text),
    }
}

#[tactic(auto, unfolding(crate::specs::Spellings::decimal_octet))]
fn decimal_octet(part: &[u8]) -> Option<u8>
    ensures { result ≡ decimal_octet part.now }
{
    if part.len() > 3 {
        return None;
    }
    let number = digits(10, part).up_to(255)?;
    Some(number as u8)
}

#[tactic(auto, using(crate::proofs::Misspellings::two_digits), unfolding(crate::specs::Spellings::digit_pair))]
fn digit_pair(part: &[u8]) -> Option<u8>
    ensures { result ≡ digit_pair part.now }
{
    if part.len() != 2 {
        return None;
    }
    let number = digits(16, part).up_to(255)?;
    Some(number as u8)
}

#[tactic(auto, unfolding(crate::specs::Spellings::each_number))]
fn decimal_octets(a: &[u8], b: &[u8], c: &[u8], d: &[u8]) -> Option<[u8; 4]>
    ensures { result ≡ each_number decimal_octet (a.now ∷ b.now ∷ c.now ∷ d.now ∷ []) }
{
    Some([
        decimal_octet(a)?,
        decimal_octet(b)?,
        decimal_octet(c)?,
        decimal_octet(d)?,
    ])
}

fn address_spelled(text: &[u8]) -> Option<[u8; 4]>
    ensures { result ≡ address_spelled text.now }
{
    let (a, rest) = first_between(b'.', text)?;
    let (b, rest) = first_between(b'.', rest)?;
    let (c, d) = first_between(b'.', rest)?;
    match first_between(b'.', d) {
        Some(_) => None,
        None => decimal_octets(a, b, c, d),
    }
}

#[tactic(auto, unfolding(crate::specs::Spellings::each_number))]
fn digit_pairs(a: &[u8], b: &[u8], c: &[u8], d: &[u8], e: &[u8], f: &[u8]) -> Option<[u8; 6]>
    ensures { result ≡ each_number digit_pair (a.now ∷ b.now ∷ c.now ∷ d.now ∷ e.now ∷ f.now ∷ []) }
{
    Some([
        digit_pair(a)?,
        digit_pair(b)?,
        digit_pair(c)?,
        digit_pair(d)?,
        digit_pair(e)?,
        digit_pair(f)?,
    ])
}

fn ether_spelled(text: &[u8]) -> Option<[u8; 6]>
    ensures { result ≡ ether_spelled text.now }
{
    let (a, rest) = first_between(b':', text)?;
    let (b, rest) = first_between(b':', rest)?;
    let (c, rest) = first_between(b':', rest)?;
    let (d, rest) = first_between(b':', rest)?;
    let (e, f) = first_between(b':', rest)?;
    match first_between(b':', f) {
        Some(_) => None,
        None => digit_pairs(a, b, c, d, e, f),
    }
}

impl Dictionary {
    // A number, or the name of one.
    #[tactic(auto, unfolding(crate::specs::Spellings::number_spelled))]
    fn number_spelled(&self, most: u64, id: AttrId, text: &[u8]) -> Option<u64>
        ensures { result ≡ number_spelled most id text.now self.now }
    {
        match number_of(text) {
            Number::Unreadable => match self.value_number(id, text) {
                Some(number) => Number::Is(number).up_to(most),
                None => None,
            },
            number => number.up_to(most),
        }
    }

    // The value of a number up to the greatest of its type, or of a VALUE name.
    fn number_value(&self, kind: Kind, id: AttrId, text: &[u8]) -> Option<Value>
        ensures { result ≡ option_and_then (number_up_to id text.now self.now) (max_of kind) }
    {
        let most = max_of(kind)?;
        let number = self.number_spelled(most, id, text)?;
        Some(Value::Int(number))
    }

    #[tactic(auto, using(crate::proofs::DigitPairs::bytes_kept))]
    fn spelled_by(
        &self,
        alloc: Global,
        typing: Typing,
        id: AttrId,
        text: &[u8],
    ) -> Result<Option<Value>, AllocError>
        ensures read { IfOk result (λ value. value ≡ spelled_by id text.now self.now typing) }
        ensures memory { OnErr result
            (option_map_or keeps_octets (spelled_by id text.now self.now typing) false ≡ true) }
    {
        match typing.kind {
            Kind::Text => Ok(Some(Value::Text(Octets::from_slice(alloc, text)?))),
            Kind::Bytes => Ok(bytes_spelled(alloc, typing.takes_text, text)?.map(Value::Bytes)),
            Kind::Addr => Ok(address_spelled(text).map(Value::Addr)),
            Kind::Ether => Ok(ether_spelled(text).map(Value::Ether)),
            kind @ (Kind::Byte | Kind::Short | Kind::Integer | Kind::Integer64) => {
                Ok(self.number_value(kind, id, text))
            }
            Kind::Date => Ok(number_of(text).up_to(u32::MAX as u64).map(Value::Int)),
            Kind::Signed => Ok(signed_spelled(text).map(Value::Signed)),
        }
    }

    // The value of a text, its length aside.
    #[tactic(auto, unfolding(crate::specs::Spellings::spelled, crate::specs::Spellings::takes_memory))]
    fn spelled(&self, alloc: Global, name: Named, text: &[u8]) -> Result<Option<Value>, AllocError>
        ensures read { IfOk result (λ value. value ≡ spelled name text.now self.now) }
        ensures memory { is_barred name self.now ≡ false
            → OnErr result (takes_memory name text.now self.now ≡ true) }
    {
        if name.raw {
            match octets_spelled(alloc, text)? {
                Some(octets) => Ok(Some(self.value_of_vec(name.id, octets.into_vec()))),
                None => Ok(None),
            }
        } else {
            match self.typing(name.id) {
                Some(typing) => self.spelled_by(alloc, typing, name.id, text),
                None => Ok(None),
            }
        }
    }

    /// Whether no value may be written under this name.
    pub fn is_barred(&self, name: Named) -> bool
        ensures { result ≡ is_barred name self.now }
    {
        is_container(name.id) || (name.raw && self.is_hidden(name.id))
    }

    /// The value that a text stands for under a name. Whether the name may be written is asked first, then whether the
    /// text is a value, then its length. The pair fits where the name is what [`by_name`](Dictionary::by_name) gave
    /// (see [`spelled_pairs_fit`](Dictionary::spelled_pairs_fit)).
    ///
    /// ```rust
    /// let port = dictionary.by_name(b"NAS-Port").ok_or("no attribute")?;
    /// let value = dictionary.value_of_text(alloc, port, b"3")?;
    /// assert!(rt; value == Value::Int(3));
    /// let refused = dictionary.value_of_text(alloc, port, b"three").err();
    /// assert_eq!(rt; refused, Some(ValueFault::NotValue));
    /// ```
    #[tactic(auto, unfolding(crate::specs::Spellings::value_spelled))]
    pub fn value_of_text(
        &self,
        alloc: Global,
        named: Named,
        text: &[u8],
    ) -> Result<Value, ValueFault>
        ensures answers { Meets is_memory_value result (value_spelled named text.now self.now) }
        ensures only { IfOk result (λ value. (other : Value) → value_spelled named text.now self.now
            ≡ Ok other → other ≡ value) }

        // So want of memory hides no other refusal than that the value is too long.
        ensures memory { IfErr result (λ fault. fault ≡ ValueFault.Memory
            → takes_memory named text.now self.now ≡ true) }
    {
        if self.is_barred(named) {
            return Err(ValueFault::NotWritable);
        }
        match self.spelled(alloc, named, text)? {
            Some(value) => {
                if self.is_within(named.id, &value) {
                    Ok(value)
                } else {
                    Err(ValueFault::TooLong)
                }
            }
            None => Err(ValueFault::NotValue),
        }
    }
}
