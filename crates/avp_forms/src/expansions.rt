//! The texts that expansions put in, made without memory.

ghost use Rattle.std.specs.Prelude.{◌≡◌, ◌≢◌, ◌≤◌, IfSome, IsTrue, decimal, false, length};
ghost use Rattle.std.specs.Option.{option_copied, option_map, unwrap_or};
ghost use Rattle.avp_dict.specs.Printing.{number_text};
ghost use Rattle.avp_dict.specs.declared.forms.Form.TheVariants as forms;
ghost use Rattle.avp_forms.specs.Expansions.{AreFew, HasShortNames, IsShortName, expanded, has_few_digits, is_printed_by_type, is_short_enough, max_expansion};
ghost use Rattle.avp_forms.specs.Texts.{text_of};
ghost use Rattle.avp_forms.specs.Values.{meaning, meaning_of_value, tagged_text_meant};
ghost use Rattle.avp_forms.specs.Written.{text_put, typed_text_put};
ghost use Rattle.avp_forms.specs.declared.profiles.Profile.TheVariants.{Wider};
ghost use Rattle.avp_forms.specs.internal.Texts.{is_text, text_beside};

use crate::dates::date_text;
use crate::interface_ids::interface_id_text;
use crate::ipv6_addresses::ipv6_address_text;
use crate::prefixes::{ipv4_prefix_text, ipv6_prefix_text};
use crate::short_texts::{ShortText, address_text, ether_text, number_text, signed_text};
use crate::values::{
    FormValue, MAX_TAG, date_meant, interface_id_meant, ipv4_prefix_meant, ipv6_address_meant,
    ipv6_prefix_meant, tagged_number_meant,
};
use avp_dict::{Dictionary, Form, Kind};
use avp_lists::{AttrId, Value};

/// What is put in for a value, made without memory.
#[derive(Drop)]
pub enum Expansion<'a> {
    /// The octets of a string or of a text beside a tag, or a VALUE name.
    Octets(&'a [u8]),
    /// `0x`, and the digits of these octets.
    Digits(&'a [u8]),
    Short(ShortText),
}

// A number by its name, or in decimal digits.
fn named_or_digits<'a>(name: Option<&'a [u8]>, number: u64) -> Expansion<'a>
    ensures text { expanded result ≡ unwrap_or (option_copied name.entry) (decimal number) }
    ensures digits { AreFew result }
    ensures length { IfSome (option_copied name.entry) IsShortName
        → length (expanded result) ≤ max_expansion }
{
    match name {
        Some(name) => Expansion::Octets(name),
        None => Expansion::Short(number_text(number)),
    }
}

// A number by the last name that it has; a date has no names.
fn number_expansion<'a>(
    dictionary: &'a Dictionary,
    kind: Kind,
    id: AttrId,
    number: u64,
) -> Expansion<'a>
    ensures text { expanded result ≡ number_text kind id number dictionary.now }
    ensures digits { AreFew result }
    ensures length { HasShortNames dictionary.now → length (expanded result) ≤ max_expansion }
{
    match kind {
        Kind::Date => named_or_digits(None, number),
        _ => named_or_digits(dictionary.value_name(id, number), number),
    }
}

// The text of a value by its type.
fn typed_expansion<'a>(dictionary: &'a Dictionary, id: AttrId, value: &'a Value) -> Expansion<'a>
    requires { IsTrue (is_printed_by_type id value.now dictionary.now) }
    ensures text { expanded result ≡ typed_text_put id value.now dictionary.now }
    ensures digits { IsTrue (has_few_digits value.now) → AreFew result }
    ensures length { HasShortNames dictionary.now → IsTrue (is_short_enough value.now)
        → length (expanded result) ≤ max_expansion }
{
    match value {
        Value::Text(octets) => Expansion::Octets(octets.as_slice()),
        Value::Bytes(octets) => Expansion::Digits(octets.as_slice()),
        Value::Raw(octets) => Expansion::Digits(octets.as_slice()),
        Value::Int(number) => match dictionary.by_id(id) {
            Some(entry) => number_expansion(dictionary, entry.kind, id, *number),
            None => unreachable!(),
        },
        Value::Signed(number) => Expansion::Short(signed_text(*number)),
        Value::Addr(address) => Expansion::Short(address_text(*address)),
        Value::Ether(address) => Expansion::Short(ether_text(*address)),
    }
}

// ---- what octets mean

// What octets of a form other than that of texts beside tags mean.
#[tactic(auto, unfolding(crate::specs::Values::meaning))]
fn fixed_meaning(form: Form, octets: &[u8]) -> Option<FormValue>
    requires { form ≢ forms.TaggedString }
    ensures value { result ≡ meaning form octets.now }
    ensures fixed { IfSome result (λ value. is_text value ≡ false) }
{
    match form {
        Form::AsTyped | Form::TaggedString => None,
        Form::Ipv6Address => ipv6_address_meant(octets),
        Form::Ipv6Prefix => ipv6_prefix_meant(octets),
        Form::Ipv4Prefix => ipv4_prefix_meant(octets),
        Form::InterfaceId => interface_id_meant(octets),
        Form::Date => date_meant(octets),
        Form::TaggedInteger => tagged_number_meant(octets),
    }
}

#[tactic(auto, unfolding(crate::specs::Texts::text_of))]
fn fixed_expansion<'a>(dictionary: &'a Dictionary, id: AttrId, value: FormValue) -> Expansion<'a>
    requires { is_text value ≡ false }
    ensures text { expanded result ≡ text_of id value dictionary.now }
    ensures digits { AreFew result }
    ensures length { HasShortNames dictionary.now → length (expanded result) ≤ max_expansion }
{
    match value {
        FormValue::Ipv6Address(address) => Expansion::Short(ipv6_address_text(address)),
        FormValue::Ipv6Prefix(address, length) => Expansion::Short(ipv6_prefix_text(
            address, length,
        )),
        FormValue::Ipv4Prefix(address, length) => Expansion::Short(ipv4_prefix_text(
            address, length,
        )),
        FormValue::InterfaceId(octets) => Expansion::Short(interface_id_text(octets)),
        FormValue::Date(seconds) => Expansion::Short(date_text(seconds)),
        FormValue::TaggedNumber(_, number) => {
            let number = u64::from(number);
            named_or_digits(dictionary.tagged_name(id, number), number)
        }
        FormValue::TaggedText(_, _) => unreachable!(),
    }
}

// The text beside a tag, where the first octet is one, else all octets.
fn untagged(octets: &[u8]) -> &[u8]
    ensures text { result.now ≡ text_beside (tagged_text_meant octets.now) }
    ensures length { length result.now ≤ length octets.now }
{
    match octets {
        [tag, text @ ..] if *tag <= MAX_TAG => text,
        _ => octets,
    }
}

// The text of what a value means, where it stands for more than its type says.
#[tactic(auto, unfolding(crate::specs::Values::meaning_of_value, crate::specs::Values::meaning, crate::specs::Texts::text_of))]
fn meant_expansion<'a>(
    dictionary: &'a Dictionary,
    id: AttrId,
    form: Form,
    value: &'a Value,
) -> Option<Expansion<'a>>
    ensures text { option_map expanded result
        ≡ option_map (λ meant. text_of id meant dictionary.now) (meaning_of_value form value.now) }
    ensures digits { IfSome result AreFew }
    ensures length { IfSome result (λ expansion. HasShortNames dictionary.now
        → IsTrue (is_short_enough value.now) → length (expanded expansion) ≤ max_expansion) }
{
    match (form, value) {
        (Form::TaggedString, Value::Bytes(octets)) => Some(Expansion::Octets(untagged(
            octets.as_slice(),
        ))),
        (form, Value::Bytes(octets)) => {
            let meant = fixed_meaning(form, octets.as_slice())?;
            Some(fixed_expansion(dictionary, id, meant))
        }
        (Form::Date, Value::Int(number)) if *number <= u32::MAX as u64 => {
            Some(Expansion::Short(date_text(*number as u32)))
        }
        _ => None,
    }
}

// No name that is printed for a number is longer than a name may be.
fn names_are_short(dictionary: &Dictionary)
    ensures { HasShortNames dictionary.now }
{
    dictionary.names_are_short();
}

/// The text that is put in for a value in the wider profile, as [`text_put`](crate::text_put) gives it, without memory.
#[tactic(auto, unfolding(crate::specs::Written::text_put, crate::specs::Written::meant_value))]
pub fn expansion_of<'a>(dictionary: &'a Dictionary, id: AttrId, value: &'a Value) -> Expansion<'a>
    requires { IsTrue (is_printed_by_type id value.now dictionary.now) }
    ensures text { expanded result ≡ text_put Wider id value.now dictionary.now }
    ensures digits { IsTrue (has_few_digits value.now) → AreFew result }
    ensures length { IsTrue (is_short_enough value.now)
        → length (expanded result) ≤ max_expansion }
{
    names_are_short(dictionary);
    if let Some(form) = dictionary.form(id)
        && let Some(expansion) = meant_expansion(dictionary, id, form, value)
    {
        return expansion;
    }
    typed_expansion(dictionary, id, value)
}
