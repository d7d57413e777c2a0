//! How octets compare by what they mean.

ghost use Rattle.std.specs.Prelude.{◌≡◌, ◌≢◌, is_some, true, IfOk, OnErr};
ghost use Rattle.avp_forms.specs.Comparisons.{compared};
ghost use Rattle.avp_forms.specs.Orders.{order_by_meaning, other_octets};
ghost use Rattle.avp_forms.specs.Values.{meaning, tagged_text_meant};
ghost use Rattle.avp_forms.specs.declared.values.FormValue.TheVariants.{TaggedText};
ghost use Rattle.avp_dict.specs.declared.forms.Form.TheVariants as forms;

use crate::ipv6_addresses::ipv6_spelled;
use crate::prefixes::ipv6_prefix_spelled;
use crate::values::{
    FormValue, MAX_TAG, date_meant, interface_id_meant, ipv4_prefix_meant, ipv6_address_meant,
    ipv6_prefix_meant, tagged_number_meant,
};
use avp_dict::Form;
use avp_lists::Octets;
use std::alloc::{AllocError, Global};
use std::cmp::Ordering;

// What octets mean, unless they are a text with a tag.
#[tactic(auto, unfolding(crate::specs::Values::meaning))]
fn meant(form: Form, octets: &[u8]) -> Option<FormValue>
    ensures { form ≢ forms.TaggedString → result ≡ meaning form octets.now }
{
    match form {
        Form::AsTyped | Form::TaggedString => None,
        Form::Ipv6Address => ipv6_address_meant(octets),
        Form::Ipv6Prefix => ipv6_prefix_meant(octets),
        Form::Ipv4Prefix => ipv4_prefix_meant(octets),
        Form::InterfaceId => interface_id_meant(octets),
        Form::Date => date_meant(octets),
        Form::TaggedInteger => tagged_number_meant(octets),
    }
}

// The tag and the text of octets that are one.
fn tagged_text(octets: &[u8]) -> (u8, &[u8])
    ensures { TaggedText result.0 result.1.now ≡ tagged_text_meant octets.now }
{
    match octets {
        [tag, text @ ..] if *tag <= MAX_TAG => (*tag, text),
        _ => (0, octets),
    }
}

// The order of a text with a tag and a value.
#[tactic(auto, unfolding(crate::specs::Comparisons::compared))]
fn text_compared(tag: u8, text: &[u8], value: &FormValue) -> Option<Ordering>
    ensures { result ≡ compared (TaggedText tag text.now) value.now }
{
    match value {
        FormValue::TaggedText(_, other) => {
            let _ = tag;
            Some(text.cmp(&other.as_slice()))
        },
        _ => None,
    }
}

// The order of a value and a text with a tag.
#[tactic(auto, unfolding(crate::specs::Comparisons::compared))]
fn compared_with_text(value: &FormValue, tag: u8, text: &[u8]) -> Option<Ordering>
    ensures { result ≡ compared value.now (TaggedText tag text.now) }
{
    match value {
        FormValue::TaggedText(_, other) => {
            let _ = tag;
            Some(other.as_slice().cmp(&text))
        },
        _ => None,
    }
}

/// The order of octets by what they mean, each by its form, as [`FormValue::compare`] has it; where one of the two
/// means nothing, that of the octets. It takes no memory.
#[tactic(auto, unfolding(crate::specs::Orders::order_by_meaning, crate::specs::Values::meaning, crate::specs::Comparisons::compared))]
pub fn order_by_meaning(form: Form, octets: &[u8], other: Form, others: &[u8]) -> Option<Ordering>
    ensures { result ≡ order_by_meaning form octets.now other others.now }
{
    match (form, other) {
        (Form::TaggedString, Form::TaggedString) => {
            let (_, text) = tagged_text(octets);
            let (_, other) = tagged_text(others);
            Some(text.cmp(&other))
        }
        (Form::TaggedString, _) => match meant(other, others) {
            Some(value) => {
                let (tag, text) = tagged_text(octets);
                text_compared(tag, text, &value)
            }
            None => Some(octets.cmp(&others)),
        },
        (_, Form::TaggedString) => match meant(form, octets) {
            Some(value) => {
                let (tag, text) = tagged_text(others);
                compared_with_text(&value, tag, text)
            }
            None => Some(octets.cmp(&others)),
        },
        _ => match (meant(form, octets), meant(other, others)) {
            (Some(value), Some(other)) => value.compare(&other),
            _ => Some(octets.cmp(&others)),
        },
    }
}

/// The octets of a prefix for an address's form, and of an address for a prefix's, and their own form.
#[tactic(auto, unfolding(crate::specs::Orders::other_octets, crate::specs::Values::octets_of))]
pub fn other_octets(
    alloc: Global,
    form: Form,
    text: &[u8],
) -> Result<Option<(Form, Octets)>, AllocError>
    ensures read { IfOk result (λ x. x ≡ other_octets form text.now) }
    ensures memory { OnErr result (is_some (other_octets form text.now) ≡ true) }
{
    match form {
        Form::Ipv6Address => match ipv6_prefix_spelled(text) {
            Some(found) => {
                let (address, length) = found;
                let prefix = FormValue::Ipv6Prefix(address, length);
                let octets = Octets::from_vec(prefix.to_octets(alloc)?);
                Ok(Some((Form::Ipv6Prefix, octets)))
            }
            None => Ok(None),
        },
        Form::Ipv6Prefix => match ipv6_spelled(text) {
            Some(address) => {
                let octets = Octets::from_slice(alloc, &address)?;
                Ok(Some((Form::Ipv6Address, octets)))
            }
            None => Ok(None),
        },
        _ => Ok(None),
    }
}
