//! Values of forms: from octets and to octets.

ghost use Rattle.std.specs.Prelude.{◌≡◌, ◌≤◌, ◌∷◌, false, true, IfErr, IfOk, OnErr, decimal, length};
ghost use Rattle.std.specs.Option.{option_map, option_map_or, unwrap_or};
ghost use Rattle.avp_lists.specs.Meets.{Meets};
ghost use Rattle.avp_dict.specs.Dictionary.{tagged_name_numbered};
ghost use Rattle.avp_dict.specs.Octets.{keeps_octets};
ghost use Rattle.avp_dict.specs.Outcomes.{is_memory_value};
ghost use Rattle.avp_dict.specs.Printing.{hexadecimal};
ghost use Rattle.avp_forms.specs.Comparisons.{compared};
ghost use Rattle.avp_forms.specs.Prefixes.{ipv4_prefix_spelled, ipv6_prefix_spelled};
ghost use Rattle.avp_forms.specs.Texts.{form_spelled, ipv4_prefix_value, ipv6_prefix_value, is_text_form, keeps_text, printed_octets, printed_text, tagged_number_spelled, text_of, untagged_number, value_spelled};
ghost use Rattle.avp_forms.specs.Values.{date_of, ipv4_prefix_meant, ipv6_prefix_meant, is_proper, is_tagged_text, max_tag, meaning, meaning_of_value, octets_of, of_length, padded, tag_of, tagged_number_meant, tagged_text_meant, value_of, with_tag};
ghost use Rattle.avp_forms.specs.declared.values.FormValue.TheVariants.{InterfaceId, Ipv6Address};

use crate::dates::{date_spelled, date_text};
use crate::interface_ids::{interface_id_spelled, interface_id_text};
use crate::ipv6_addresses::{ipv6_address_text, ipv6_spelled};
use crate::numerals::number_up_to;
use crate::prefixes::{
    ipv4_prefix_spelled, ipv4_prefix_text, ipv6_prefix_spelled, ipv6_prefix_text, masked_4,
    masked_16, order_4, order_16,
};
use crate::short_texts::ShortText;
use avp_dict::{Dictionary, Form, ValueFault, quote};
use avp_lists::{AttrId, Octets, Value};
use itoa::Buffer;
use std::alloc::{AllocError, Global};
use std::cmp::Ordering;

/// The greatest tag (RFC 2868, section 3).
pub const MAX_TAG: u8 = 31;

const MAX_TAGGED_NUMBER: u64 = 16_777_215;

/// What the octets of an attribute stand for, where its [`Form`] says more than its type.
#[derive(Debug, Drop, PartialEq, Eq)]
pub enum FormValue {
    /// An IPv6 address, its first octet first.
    Ipv6Address([u8; 16]),
    /// The address of an IPv6 prefix, the bits past its length cleared, and the length in bits, at most 128.
    Ipv6Prefix([u8; 16], u8),
    /// The address of an IPv4 prefix, the bits past its length cleared, and the length in bits, at most 32.
    Ipv4Prefix([u8; 4], u8),
    /// An interface id: four groups of two octets.
    InterfaceId([u8; 8]),
    /// Seconds since the first of January 1970, 00:00 UTC.
    Date(u32),
    /// A tag, at most [`MAX_TAG`], and a number of three octets.
    TaggedNumber(u8, u32),
    /// A tag, at most [`MAX_TAG`], and a text, as its octets.
    TaggedText(u8, Octets),
}

pub(crate) fn ipv6_address_meant(octets: &[u8]) -> Option<FormValue>
    ensures { result ≡ of_length 16 Ipv6Address octets.now }
{
    if octets.len() != 16 {
        return None;
    }
    let mut address = [0; 16];
    address.copy_from_slice(octets);
    Some(FormValue::Ipv6Address(address))
}

pub(crate) fn interface_id_meant(octets: &[u8]) -> Option<FormValue>
    ensures { result ≡ of_length 8 InterfaceId octets.now }
{
    if octets.len() != 8 {
        return None;
    }
    let mut id = [0; 8];
    id.copy_from_slice(octets);
    Some(FormValue::InterfaceId(id))
}

// The octets, and zeros after them.
fn padded(octets: &[u8]) -> [u8; 16]
    requires { length octets.now ≤ 16 }
    ensures { result ≡ padded 16 octets.now }
{
    let mut address = [0; 16];
    address[..octets.len()].copy_from_slice(octets);
    address
}

pub(crate) fn ipv6_prefix_meant(octets: &[u8]) -> Option<FormValue>
    ensures { result ≡ ipv6_prefix_meant octets.now }
{
    match octets {
        [_, length, rest @ ..] if *length <= 128 && rest.len() <= 16 => {
            let address = masked_16(*length, padded(rest));
            Some(FormValue::Ipv6Prefix(address, *length))
        }
        _ => None,
    }
}

pub(crate) fn ipv4_prefix_meant(octets: &[u8]) -> Option<FormValue>
    ensures { result ≡ ipv4_prefix_meant octets.now }
{
    match octets {
        [_, length, a, b, c, d] if *length <= 32 => {
            let address = masked_4(*length, [*a, *b, *c, *d]);
            Some(FormValue::Ipv4Prefix(address, *length))
        }
        _ => None,
    }
}

pub(crate) fn date_meant(octets: &[u8]) -> Option<FormValue>
    ensures { result ≡ of_length 4 date_of octets.now }
{
    match octets {
        [a, b, c, d] => Some(FormValue::Date(u32::from_be_bytes([*a, *b, *c, *d]))),
        _ => None,
    }
}

pub(crate) fn tagged_number_meant(octets: &[u8]) -> Option<FormValue>
    ensures { result ≡ tagged_number_meant octets.now }
{
    match octets {
        [tag, a, b, c] if *tag <= MAX_TAG => {
            let number = u32::from_be_bytes([0, *a, *b, *c]);
            Some(FormValue::TaggedNumber(*tag, number))
        }
        _ => None,
    }
}

fn tagged_text_meant(alloc: Global, octets: &[u8]) -> Result<FormValue, AllocError>
    ensures read { IfOk result (λ value. value ≡ tagged_text_meant octets.now) }
    ensures memory { OnErr result (is_tagged_text (tagged_text_meant octets.now) ≡ true) }
{
    match octets {
        [tag, text @ ..] if *tag <= MAX_TAG => {
            Ok(FormValue::TaggedText(*tag, Octets::from_slice(alloc, text)?))
        }
        _ => Ok(FormValue::TaggedText(0, Octets::from_slice(alloc, octets)?)),
    }
}

// A tag, and what follows it.
fn after_tag(alloc: Global, tag: u8, rest: &[u8]) -> Result<Vec<u8>, AllocError>
    ensures { IfOk result (λ octets. octets.items ≡ tag ∷ rest.now) }
{
    let mut octets = Vec::new(alloc);
    octets.push(tag)?;
    octets.extend_from_slice(rest)?;
    Ok(octets)
}

// A reserved octet, a length, and an address.
fn after_length(alloc: Global, length: u8, address: &[u8]) -> Result<Vec<u8>, AllocError>
    ensures { IfOk result (λ octets. octets.items ≡ 0 ∷ length ∷ address.now) }
{
    let mut octets = Vec::new(alloc);
    octets.push(0)?;
    octets.push(length)?;
    octets.extend_from_slice(address)?;
    Ok(octets)
}

// The number beside a tag: its digits, or a name of it.
#[tactic(auto, unfolding(crate::specs::Texts::tagged_number_spelled))]
fn tagged_number_spelled(dictionary: &Dictionary, id: AttrId, text: &[u8]) -> Option<u32>
    ensures { result ≡ tagged_number_spelled id text.now dictionary.now }
{
    match number_up_to(MAX_TAGGED_NUMBER, text) {
        Some(number) => Some(number as u32),
        None => match dictionary.tagged_number(id, text) {
            Some(number) if number <= MAX_TAGGED_NUMBER => Some(number as u32),
            _ => None,
        },
    }
}

// The value that a text stands for, with the tag 0.
#[tactic(auto, unfolding(crate::specs::Texts::form_spelled))]
fn form_spelled(
    alloc: Global,
    dictionary: &Dictionary,
    form: Form,
    id: AttrId,
    zone: Option<i16>,
    text: &[u8],
) -> Result<Option<FormValue>, AllocError>
    ensures read { IfOk result (λ value.
        value ≡ form_spelled form id zone text.now dictionary.now) }
    ensures memory { OnErr result (is_text_form form ≡ true) }
{
    match form {
        Form::AsTyped => Ok(None),
        Form::Ipv6Address => Ok(ipv6_spelled(text).map(FormValue::Ipv6Address)),
        Form::Ipv6Prefix => Ok(ipv6_prefix_value(text)),
        Form::Ipv4Prefix => Ok(ipv4_prefix_value(text)),
        Form::InterfaceId => Ok(interface_id_spelled(text).map(FormValue::InterfaceId)),
        Form::Date => Ok(date_spelled(zone, text).map(FormValue::Date)),
        Form::TaggedInteger => Ok(tagged_number_value(dictionary, id, text)),
        Form::TaggedString => Ok(Some(FormValue::TaggedText(0, Octets::from_slice(alloc, text)?))),
    }
}

// The value with a tag of a text under an attribute's name.
#[tactic(auto, unfolding(crate::specs::Texts::value_spelled))]
pub(crate) fn value_spelled(
    alloc: Global,
    dictionary: &Dictionary,
    id: AttrId,
    tag: u8,
    zone: Option<i16>,
    text: &[u8],
) -> Result<FormValue, ValueFault>
    ensures answers { Meets is_memory_value result
        (value_spelled id tag zone text.now dictionary.now) }
    ensures memory { IfErr result (λ fault. fault ≡ ValueFault.Memory
        → keeps_text id dictionary.now ≡ true) }
{
    let form = dictionary.form(id).ok_or(ValueFault::NotValue)?;
    let value = form_spelled(alloc, dictionary, form, id, zone, text)?;
    let value = value.ok_or(ValueFault::NotValue)?.with_tag(tag);
    if value.count_of_octets() <= dictionary.greatest_length(id) {
        Ok(value)
    } else {
        Err(ValueFault::TooLong)
    }
}

fn ipv6_prefix_value(text: &[u8]) -> Option<FormValue>
    ensures { result ≡ option_map ipv6_prefix_value (ipv6_prefix_spelled text.now) }
{
    let (address, length) = ipv6_prefix_spelled(text)?;
    Some(FormValue::Ipv6Prefix(address, length))
}

fn ipv4_prefix_value(text: &[u8]) -> Option<FormValue>
    ensures { result ≡ option_map ipv4_prefix_value (ipv4_prefix_spelled text.now) }
{
    let (address, length) = ipv4_prefix_spelled(text)?;
    Some(FormValue::Ipv4Prefix(address, length))
}

fn tagged_number_value(dictionary: &Dictionary, id: AttrId, text: &[u8]) -> Option<FormValue>
    ensures { result ≡ option_map untagged_number
        (tagged_number_spelled id text.now dictionary.now) }
{
    let number = tagged_number_spelled(dictionary, id, text)?;
    Some(FormValue::TaggedNumber(0, number))
}

// A short text in memory of its own.
fn kept(alloc: Global, text: ShortText) -> Result<Vec<u8>, AllocError>
    ensures { IfOk result (λ octets. octets.items ≡ text.items) }
{
    Vec::from_slice(alloc, text.as_slice())
}

// A number by its last name, or in decimal digits.
fn tagged_number_text(
    alloc: Global,
    dictionary: &Dictionary,
    id: AttrId,
    number: u32,
) -> Result<Vec<u8>, AllocError>
    ensures { IfOk result (λ text. text.items
        ≡ unwrap_or (tagged_name_numbered id number dictionary.now.tagged_values)
        (decimal number)) }
{
    match dictionary.tagged_name(id, u64::from(number)) {
        Some(name) => Vec::from_slice(alloc, name),
        None => {
            let mut buffer = Buffer::new();
            Vec::from_slice(alloc, buffer.format(number).as_bytes())
        }
    }
}

// `0x` and the octets in lower case.
fn hexadecimal(alloc: Global, octets: &[u8]) -> Result<Vec<u8>, AllocError>
    ensures { IfOk result (λ text. text.items ≡ hexadecimal octets.now) }
{
    let digits = hex::encode(alloc, octets)?;
    let mut text = Vec::from_slice(alloc, b"0x")?;
    text.extend_from_slice(digits.as_str().as_bytes())?;
    Ok(text)
}

/// The text that is printed for octets: that of the value which they mean, else `0x` and the octets.
#[tactic(auto, unfolding(crate::specs::Texts::printed_octets))]
pub fn printed_octets(
    alloc: Global,
    dictionary: &Dictionary,
    form: Form,
    id: AttrId,
    octets: &[u8],
) -> Result<Vec<u8>, AllocError>
    ensures { IfOk result (λ text. text.items ≡ printed_octets form id octets.now dictionary.now) }
{
    match FormValue::of_octets(alloc, form, octets)? {
        Some(value) => value.printed_text(alloc, dictionary, id),
        None => hexadecimal(alloc, octets),
    }
}

impl FormValue {
    /// The value that octets mean, by what the attribute's values stand for: shorter octets of a prefix are taken as
    /// those of the whole one with zeros after them, and bits past its length as cleared.
    #[tactic(auto, unfolding(crate::specs::Values::meaning))]
    pub fn of_octets(
        alloc: Global,
        form: Form,
        octets: &[u8],
    ) -> Result<Option<FormValue>, AllocError>
        ensures read { IfOk result (λ value. value ≡ meaning form octets.now) }
        ensures memory { OnErr result
            (option_map_or is_tagged_text (meaning form octets.now) false ≡ true) }
    {
        match form {
            Form::AsTyped => Ok(None),
            Form::Ipv6Address => Ok(ipv6_address_meant(octets)),
            Form::Ipv6Prefix => Ok(ipv6_prefix_meant(octets)),
            Form::Ipv4Prefix => Ok(ipv4_prefix_meant(octets)),
            Form::InterfaceId => Ok(interface_id_meant(octets)),
            Form::Date => Ok(date_meant(octets)),
            Form::TaggedInteger => Ok(tagged_number_meant(octets)),
            Form::TaggedString => Ok(Some(tagged_text_meant(alloc, octets)?)),
        }
    }

    /// The value that a pair's value means: a date is held as a number, and the others as octets.
    #[tactic(auto, unfolding(crate::specs::Values::meaning_of_value))]
    pub fn of_value(
        alloc: Global,
        form: Form,
        value: &Value,
    ) -> Result<Option<FormValue>, AllocError>
        ensures read { IfOk result (λ meant. meant ≡ meaning_of_value form value.now) }
        ensures memory { OnErr result
            (option_map_or is_tagged_text (meaning_of_value form value.now) false ≡ true) }
    {
        match (form, value) {
            (form, Value::Bytes(octets)) => FormValue::of_octets(alloc, form, octets.as_slice()),
            (Form::Date, Value::Int(number)) if *number <= u32::MAX as u64 => {
                Ok(Some(FormValue::Date(*number as u32)))
            }
            _ => Ok(None),
        }
    }

    /// The octets that are sent: of a prefix all of its address, and no octet for the tag 0 of a text.
    #[tactic(auto, unfolding(crate::specs::Values::octets_of))]
    pub fn to_octets(&self, alloc: Global) -> Result<Vec<u8>, AllocError>
        ensures { IfOk result (λ octets. octets.items ≡ octets_of self.now) }
    {
        match self {
            FormValue::Ipv6Address(address) => Vec::from_slice(alloc, address),
            FormValue::Ipv6Prefix(address, length) => after_length(alloc, *length, address),
            FormValue::Ipv4Prefix(address, length) => after_length(alloc, *length, address),
            FormValue::InterfaceId(id) => Vec::from_slice(alloc, id),
            FormValue::Date(seconds) => Vec::from_slice(alloc, &seconds.to_be_bytes()),
            FormValue::TaggedNumber(tag, number) => after_tag(
                alloc,
                *tag,
                &number.to_be_bytes()[1..],
            ),
            FormValue::TaggedText(0, text) => Vec::from_slice(alloc, text.as_slice()),
            FormValue::TaggedText(tag, text) => after_tag(alloc, *tag, text.as_slice()),
        }
    }

    /// The value of a pair.
    #[tactic(auto, unfolding(crate::specs::Values::value_of))]
    pub fn to_value(&self, alloc: Global) -> Result<Value, AllocError>
        ensures value { IfOk result (λ value. value ≡ value_of self.now) }
        ensures memory { OnErr result (keeps_octets (value_of self.now) ≡ true) }
    {
        match self {
            FormValue::Date(seconds) => Ok(Value::Int(u64::from(*seconds))),
            other => Ok(Value::Bytes(Octets::from_vec(other.to_octets(alloc)?))),
        }
    }

    /// Whether the value is within the bounds of its form, as each is that octets or a text stand for: a length of no
    /// more bits than the address has, no bit past it, a tag of at most [`MAX_TAG`], and a number of three octets.
    #[tactic(auto, unfolding(crate::specs::Values::is_proper))]
    pub fn is_proper(&self) -> bool
        ensures { result ≡ is_proper self.now }
    {
        match self {
            FormValue::Ipv6Prefix(address, length) => {
                *length <= 128 && masked_16(*length, *address) == *address
            }
            FormValue::Ipv4Prefix(address, length) => {
                *length <= 32 && masked_4(*length, *address) == *address
            }
            FormValue::TaggedNumber(tag, number) => {
                *tag <= MAX_TAG && u64::from(*number) <= MAX_TAGGED_NUMBER
            }
            FormValue::TaggedText(tag, _) => *tag <= MAX_TAG,
            _ => true,
        }
    }

    /// The tag, where the form has one.
    #[tactic(auto, unfolding(crate::specs::Values::tag_of))]
    pub fn tag(&self) -> Option<u8>
        ensures { result ≡ tag_of self.now }
    {
        match self {
            FormValue::TaggedNumber(tag, _) => Some(*tag),
            FormValue::TaggedText(tag, _) => Some(*tag),
            _ => None,
        }
    }

    /// The value with this tag, where its form has one.
    #[tactic(auto, unfolding(crate::specs::Values::with_tag))]
    pub fn with_tag(self, tag: u8) -> FormValue
        ensures { result ≡ with_tag tag self }
    {
        match self {
            FormValue::TaggedNumber(_, number) => FormValue::TaggedNumber(tag, number),
            FormValue::TaggedText(_, text) => FormValue::TaggedText(tag, text),
            other => other,
        }
    }

    // How many octets are sent.
    #[tactic(auto, unfolding(crate::specs::Values::octets_of))]
    fn count_of_octets(&self) -> usize
        ensures { result ≡ length (octets_of self.now) }
    {
        match self {
            FormValue::Ipv6Address(address) => address.as_slice().len(),
            FormValue::Ipv6Prefix(address, _) => address.as_slice().len() + 2,
            FormValue::Ipv4Prefix(address, _) => address.as_slice().len() + 2,
            FormValue::InterfaceId(id) => id.as_slice().len(),
            FormValue::Date(_) => 4,
            FormValue::TaggedNumber(_, _) => 4,
            FormValue::TaggedText(0, text) => text.as_slice().len(),
            FormValue::TaggedText(_, text) => text.as_slice().len() + 1,
        }
    }

    /// The value that a text stands for under an attribute's name, with a tag, which is dropped where the attribute's
    /// values have none. Whether the text is a value is asked first, then its length. `zone` says how many minutes the
    /// clocks of the zone that a date names are before UTC's, where the date names a zone other than `UTC`.
    pub fn of_text(
        alloc: Global,
        dictionary: &Dictionary,
        id: AttrId,
        tag: u8,
        zone: Option<i16>,
        text: &[u8],
    ) -> Result<FormValue, ValueFault>
        requires { tag ≤ MAX_TAG }
        ensures answers { Meets is_memory_value result
            (value_spelled id tag zone text.now dictionary.now) }

        // So want of memory hides no other refusal where no text is kept.
        ensures memory { IfErr result (λ fault. fault ≡ ValueFault.Memory
            → keeps_text id dictionary.now ≡ true) }
    {
        value_spelled(alloc, dictionary, id, tag, zone, text)
    }

    /// The text of the value, without its tag and without quotes: the number beside a tag by the last name that a VALUE
    /// line gives.
    #[tactic(auto, unfolding(crate::specs::Texts::text_of))]
    pub fn text(
        &self,
        alloc: Global,
        dictionary: &Dictionary,
        id: AttrId,
    ) -> Result<Vec<u8>, AllocError>
        ensures { IfOk result (λ text. text.items ≡ text_of id self.now dictionary.now) }
    {
        match self {
            FormValue::Ipv6Address(address) => kept(alloc, ipv6_address_text(*address)),
            FormValue::Ipv6Prefix(address, length) => {
                kept(alloc, ipv6_prefix_text(*address, *length))
            }
            FormValue::Ipv4Prefix(address, length) => {
                kept(alloc, ipv4_prefix_text(*address, *length))
            }
            FormValue::InterfaceId(octets) => kept(alloc, interface_id_text(*octets)),
            FormValue::Date(seconds) => kept(alloc, date_text(*seconds)),
            FormValue::TaggedNumber(_, number) => tagged_number_text(
                alloc, dictionary, id, *number,
            ),
            FormValue::TaggedText(_, text) => Vec::from_slice(alloc, text.as_slice()),
        }
    }

    /// The text that is printed in a list: that of [`text`](FormValue::text), in double quotes where the value is a
    /// text. The tag is printed after the name, as in `Tunnel-Type:1`.
    #[tactic(auto, unfolding(crate::specs::Texts::printed_text))]
    pub fn printed_text(
        &self,
        alloc: Global,
        dictionary: &Dictionary,
        id: AttrId,
    ) -> Result<Vec<u8>, AllocError>
        ensures { IfOk result (λ text. text.items ≡ printed_text id self.now dictionary.now) }
    {
        match self {
            FormValue::TaggedText(_, text) => quote(alloc, text.as_slice()),
            other => other.text(alloc, dictionary, id),
        }
    }

    /// The order of two values of a form: addresses, interface ids, dates and numbers as numbers, texts by their
    /// octets, and tags not at all. A prefix is less than another that has it in it, and an address is a prefix of all
    /// its bits. Two prefixes of which neither has the other in it have no order, and differ.
    #[tactic(auto, unfolding(crate::specs::Comparisons::compared))]
    pub fn compare(&self, other: &FormValue) -> Option<Ordering>
        ensures { result ≡ compared self.now other.now }
    {
        match (self, other) {
            (FormValue::Ipv6Address(a), FormValue::Ipv6Address(b)) => Some(a.cmp(b)),
            (FormValue::Ipv6Address(a), FormValue::Ipv6Prefix(b, n)) => order_16(*a, 128, *b, *n),
            (FormValue::Ipv6Prefix(a, n), FormValue::Ipv6Address(b)) => order_16(*a, *n, *b, 128),
            (FormValue::Ipv6Prefix(a, m), FormValue::Ipv6Prefix(b, n)) => order_16(*a, *m, *b, *n),
            (FormValue::Ipv4Prefix(a, m), FormValue::Ipv4Prefix(b, n)) => order_4(*a, *m, *b, *n),
            (FormValue::InterfaceId(a), FormValue::InterfaceId(b)) => Some(a.cmp(b)),
            (FormValue::Date(m), FormValue::Date(n)) => Some(m.cmp(n)),
            (FormValue::TaggedNumber(_, m), FormValue::TaggedNumber(_, n)) => Some(m.cmp(n)),
            (FormValue::TaggedText(_, a), FormValue::TaggedText(_, b)) => {
                Some(a.as_slice().cmp(b.as_slice()))
            }
            _ => None,
        }
    }
}
