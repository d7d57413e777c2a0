//! Printed names and texts of values.

ghost use Rattle.std.specs.Prelude.{◌≡◌, ◌++◌, IfOk, IsTrue, OnOk, codes, decimal};
ghost use Rattle.std.specs.Fmt.{signed_decimal};
ghost use Rattle.avp_dict.specs.Limits.{fits};
ghost use Rattle.avp_dict.specs.Octets.{octets};
ghost use Rattle.avp_dict.specs.Printing.{address_text, attr_name, digit_pair_text, ether_text, hexadecimal, is_by_number, number_text, printed_name, printed_text, typed_text};

use crate::dictionaries::Dictionary;
use crate::entries::Kind;
use crate::value::octets::octets_of;
use crate::value::quotes::quote;
use crate::value::texts::is_container;
use avp_lists::{AttrId, Value};
use itoa::Buffer;
use std::alloc::{AllocError, Global};

fn push_decimal(text: &mut Vec<u8>, number: u64) -> Result<(), AllocError>
    ensures { OnOk result (text.new.items ≡ text.old.items ++ decimal number) }
{
    let mut buffer = Buffer::new();
    text.extend_from_slice(buffer.format(number).as_bytes())
}

fn decimal_text(alloc: Global, number: u64) -> Result<Vec<u8>, AllocError>
    ensures { IfOk result (λ text. text.items ≡ decimal number) }
{
    let mut text = Vec::new(alloc);
    push_decimal(&mut text, number)?;
    Ok(text)
}

fn signed_text(alloc: Global, number: i32) -> Result<Vec<u8>, AllocError>
    ensures { IfOk result (λ text. text.items ≡ signed_decimal number) }
{
    let mut buffer = Buffer::new();
    Vec::from_slice(alloc, buffer.format(number).as_bytes())
}

// `0x` and the octets in lower case.
fn hexadecimal(alloc: Global, octets: &[u8]) -> Result<Vec<u8>, AllocError>
    ensures { IfOk result (λ text. text.items ≡ hexadecimal octets.now) }
{
    let digits = hex::encode(alloc, octets)?;
    let mut text = Vec::from_slice(alloc, b"0x")?;
    text.extend_from_slice(digits.as_str().as_bytes())?;
    Ok(text)
}

// A dot and a number after it.
fn push_dotted(text: &mut Vec<u8>, number: u64) -> Result<(), AllocError>
    ensures { OnOk result (text.new.items ≡ text.old.items ++ (codes "." ++ decimal number)) }
{
    text.push(b'.')?;
    push_decimal(text, number)
}

fn push_digit_pair(text: &mut Vec<u8>, octet: u8) -> Result<(), AllocError>
    ensures { OnOk result (text.new.items ≡ text.old.items ++ digit_pair_text octet) }
{
    let digits = hex::encode(*text.allocator(), &[octet][..])?;
    text.extend_from_slice(digits.as_str().as_bytes())
}

// A colon and a pair of digits after it.
fn push_after_colon(text: &mut Vec<u8>, octet: u8) -> Result<(), AllocError>
    ensures { OnOk result (text.new.items ≡ text.old.items ++ (codes ":" ++ digit_pair_text octet)) }
{
    text.push(b':')?;
    push_digit_pair(text, octet)
}

fn address_text(alloc: Global, address: &[u8]) -> Result<Vec<u8>, AllocError>
    ensures { IfOk result (λ text. text.items ≡ address_text address.now) }
{
    let mut text = Vec::new(alloc);
    let [first, rest @ ..] = address else {
        return Ok(text);
    };
    push_decimal(&mut text, u64::from(*first))?;
    for octet in rest {
        push_dotted(&mut text, u64::from(*octet))?;
    }
    Ok(text)
}

fn ether_text(alloc: Global, address: &[u8]) -> Result<Vec<u8>, AllocError>
    ensures { IfOk result (λ text. text.items ≡ ether_text address.now) }
{
    let mut text = Vec::new(alloc);
    let [first, rest @ ..] = address else {
        return Ok(text);
    };
    push_digit_pair(&mut text, *first)?;
    for octet in rest {
        push_after_colon(&mut text, *octet)?;
    }
    Ok(text)
}

// Two numbers with a dot between, after the front of a name.
fn dotted_name(alloc: Global, front: &[u8], t: u64, n: u64) -> Result<Vec<u8>, AllocError>
    ensures { IfOk result (λ name. name.items ≡ front.now ++ decimal t ++ codes "." ++ decimal n) }
{
    let mut name = Vec::from_slice(alloc, front)?;
    push_decimal(&mut name, t)?;
    push_dotted(&mut name, n)?;
    Ok(name)
}

// The name by number of an id.
#[tactic(auto, unfolding(crate::specs::Printing::attr_name))]
fn attr_name(alloc: Global, id: AttrId) -> Result<Vec<u8>, AllocError>
    ensures { IfOk result (λ name. name.items ≡ attr_name id) }
{
    match id {
        AttrId::Plain(number) => {
            let mut name = Vec::from_slice(alloc, b"Attr-")?;
            push_decimal(&mut name, u64::from(number))?;
            Ok(name)
        }
        AttrId::Vendor(vendor, number) => {
            dotted_name(alloc, b"Attr-26.", u64::from(vendor), u64::from(number))
        }
        AttrId::Extended(t, number) => {
            dotted_name(alloc, b"Attr-", u64::from(t), u64::from(number))
        }
    }
}

fn is_by_number(id: AttrId, value: &Value) -> bool
    ensures { result ≡ is_by_number id value.now }
{
    is_container(id) || matches!(value, Value::Raw(_))
}

impl Dictionary {
    // A number, by the last name that it has.
    fn number_text(
        &self,
        alloc: Global,
        kind: Kind,
        id: AttrId,
        number: u64,
    ) -> Result<Vec<u8>, AllocError>
        ensures { IfOk result (λ text. text.items ≡ number_text kind id number self.now) }
    {
        match kind {
            Kind::Date => decimal_text(alloc, number),
            _ => match self.value_name(id, number) {
                Some(name) => Vec::from_slice(alloc, name),
                None => decimal_text(alloc, number),
            },
        }
    }

    // A value of a type.
    fn typed_text(
        &self,
        alloc: Global,
        kind: Kind,
        id: AttrId,
        value: &Value,
    ) -> Result<Vec<u8>, AllocError>
        ensures { IfOk result (λ text. text.items ≡ typed_text kind id value.now self.now) }
    {
        match value {
            Value::Text(octets) => quote(alloc, octets.as_slice()),
            Value::Bytes(octets) => hexadecimal(alloc, octets.as_slice()),
            Value::Int(number) => self.number_text(alloc, kind, id, *number),
            Value::Signed(number) => signed_text(alloc, *number),
            Value::Addr(address) => address_text(alloc, address),
            Value::Ether(address) => ether_text(alloc, address),
            Value::Raw(octets) => hexadecimal(alloc, octets.as_slice()),
        }
    }

    // `0x` and the value's octets.
    #[tactic(auto, unfolding(crate::specs::Octets::octets))]
    fn octets_text(&self, alloc: Global, id: AttrId, value: &Value) -> Result<Vec<u8>, AllocError>
        ensures { IfOk result (λ text. text.items ≡ hexadecimal (octets id value.now self.now)) }
    {
        let octets = octets_of(alloc, self.kind(id), value)?;
        hexadecimal(alloc, &octets)
    }

    /// The text that is printed for a value: its name where there is a VALUE line, a number, an address, a string in
    /// double quotes; and `0x` and the octets under a name by number.
    ///
    /// ```rust
    /// let (id, value) = (AttrId::Plain(6), Value::Int(1));
    /// let pair = Pair { id, value };
    /// if !dictionary.fits(&pair) {
    ///     return Err(Fail::new("no value of the attribute"));
    /// }
    /// let text = dictionary.text_of_value(alloc, id, &pair.value)?;
    /// assert_eq!(rt; text.as_slice(), b"Login-User".as_slice());
    /// ```
    #[tactic(auto, unfolding(crate::specs::Printing::printed_text))]
    pub fn text_of_value(
        &self,
        alloc: Global,
        id: AttrId,
        value: &Value,
    ) -> Result<Vec<u8>, AllocError>
        requires { IsTrue (fits (record { id = id; value = value.now }) self.now) }
        ensures { IfOk result (λ text. text.items ≡ printed_text id value.now self.now) }
    {
        if is_by_number(id, value) {
            return self.octets_text(alloc, id, value);
        }
        match self.by_id(id) {
            Some(entry) => self.typed_text(alloc, entry.kind, id, value),
            None => self.octets_text(alloc, id, value),
        }
    }

    /// The name that is printed before a value: that of the id's last ATTRIBUTE line, or `Attr-` and numbers, where
    /// there is none, where the value is raw, and where the attribute only holds others.
    ///
    /// ```rust
    /// let name = dictionary.printed_name(alloc, AttrId::Plain(5), &Value::Int(3))?;
    /// assert_eq!(rt; name.as_slice(), b"NAS-Port".as_slice());
    /// let unknown = dictionary.printed_name(alloc, AttrId::Vendor(9, 2), &Value::Int(3))?;
    /// assert_eq!(rt; unknown.as_slice(), b"Attr-26.9.2".as_slice());
    /// ```
    #[tactic(auto, unfolding(crate::specs::Printing::printed_name))]
    pub fn printed_name(
        &self,
        alloc: Global,
        id: AttrId,
        value: &Value,
    ) -> Result<Vec<u8>, AllocError>
        ensures { IfOk result (λ name. name.items ≡ printed_name id value.now self.now) }
    {
        if is_by_number(id, value) {
            return attr_name(alloc, id);
        }
        match self.by_id(id) {
            Some(entry) => Vec::from_slice(alloc, entry.name),
            None => attr_name(alloc, id),
        }
    }
}
