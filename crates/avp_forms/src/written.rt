//! Values of texts under a target, and texts of values, in a profile.

ghost use Rattle.std.specs.Prelude.{◌≡◌, ◌||◌, Err, Ok, IfErr, IfOk, IsTrue, true};
ghost use Rattle.std.specs.Option.{option_map_or};
ghost use Rattle.avp_lists.specs.Meets.{Meets};
ghost use Rattle.avp_dict.specs.Limits.{fits};
ghost use Rattle.avp_dict.specs.Outcomes.{is_memory_value};
ghost use Rattle.avp_dict.specs.Words.{is_hexadecimal};
ghost use Rattle.avp_forms.specs.Texts.{value_spelled};
ghost use Rattle.avp_forms.specs.Written.{as_pair_value, bars_text, form_takes_memory, has_typed_values, is_read_by_type, meant_value, takes_memory, text_put, typed_text_put, value_written};
ghost use Rattle.avp_forms.specs.declared.profiles.Profile.TheVariants.{Wider};

use crate::profiles::Profile;
use crate::targets::Target;
use crate::values::{FormValue, MAX_TAG, value_spelled};
use avp_dict::{Dictionary, Form, ValueFault};
use avp_lists::{AttrId, Value};
use std::alloc::{AllocError, Global};

/// Whether a text begins with `0x`.
pub(crate) fn is_hexadecimal(text: &[u8]) -> bool
    ensures { result ≡ is_hexadecimal text.now }
{
    matches!(text, [b'0', b'x', ..])
}

fn has_typed_values(dictionary: &Dictionary, id: AttrId) -> bool
    ensures { result ≡ has_typed_values id dictionary.now }
{
    match dictionary.form(id) {
        Some(form) => matches!(form, Form::AsTyped),
        None => true,
    }
}

fn is_read_by_type(dictionary: &Dictionary, target: Target, text: &[u8]) -> bool
    ensures { result ≡ is_read_by_type target text.now dictionary.now }
{
    target.named.raw || has_typed_values(dictionary, target.named.id) || is_hexadecimal(text)
}

fn bars_text(tag: Option<u8>, text: &[u8]) -> bool
    ensures { result ≡ bars_text tag text.now }
{
    match tag {
        Some(tag) => tag > MAX_TAG || is_hexadecimal(text),
        None => false,
    }
}

// The pair's value of a text that stands for a value of the attribute's form.
fn form_value(
    alloc: Global,
    dictionary: &Dictionary,
    id: AttrId,
    tag: u8,
    zone: Option<i16>,
    text: &[u8],
) -> Result<Value, ValueFault>
    ensures answers { Meets is_memory_value result
        (as_pair_value (value_spelled id tag zone text.now dictionary.now)) }
    ensures memory { IfErr result (λ fault. fault ≡ ValueFault.Memory
        → form_takes_memory id tag zone text.now dictionary.now ≡ true) }
{
    let value = value_spelled(alloc, dictionary, id, tag, zone, text)?;
    Ok(value.to_value(alloc)?)
}

// The same in the wider profile.
#[tactic(auto, unfolding(crate::specs::Written::value_written, crate::specs::Written::takes_memory))]
fn wider_value(
    alloc: Global,
    dictionary: &Dictionary,
    target: Target,
    zone: Option<i16>,
    text: &[u8],
) -> Result<Value, ValueFault>
    ensures answers { Meets is_memory_value result
        (value_written Wider target text.now zone dictionary.now) }
    ensures memory { IfErr result (λ fault. fault ≡ ValueFault.Memory
        → takes_memory Wider target text.now zone dictionary.now ≡ true) }
{
    if dictionary.is_barred(target.named) {
        return Err(ValueFault::NotWritable);
    }
    if bars_text(target.tag, text) {
        return Err(ValueFault::NotValue);
    }
    if is_read_by_type(dictionary, target, text) {
        return dictionary.value_of_text(alloc, target.named, text);
    }
    let tag = target.tag.unwrap_or(0);
    form_value(alloc, dictionary, target.named.id, tag, zone, text)
}

/// The value that a text stands for under what [`target_of`](crate::target_of) gave. In the wider profile it is also a
/// value of the attribute's form, with the target's tag, or the tag 0 where it has none. Where a name is by number or
/// an attribute's values stand for no more than their type says, and where a text begins with `0x`, it is read as
/// [`Dictionary::value_of_text`] does, so what [`printed_octets`](crate::printed_octets) prints for octets without a
/// meaning is those octets again; but octets have their tag in them, so under a target with a tag they are no value.
/// Under a tag above [`MAX_TAG`] no text is one.
/// `zone` is as [`FormValue::of_text`] has it.
///
/// ```rust
/// // `ATTRIBUTE Tunnel-Private-Group-Id 81 string has_tag`
/// let profile = Profile::Wider;
/// let name = b"Tunnel-Private-Group-Id:2";
/// let target = target_of(dictionary, profile, name).ok_or("no target")?;
/// let value = value_written(alloc, dictionary, profile, target, None, b"40")?;
/// let octets = Octets::from_slice(alloc, b"\x0240")?;
/// assert!(rt; value == Value::Bytes(octets));
/// ```
#[tactic(auto, unfolding(crate::specs::Written::value_written, crate::specs::Written::takes_memory))]
#[inline]
pub fn value_written(
    alloc: Global,
    dictionary: &Dictionary,
    profile: Profile,
    target: Target,
    zone: Option<i16>,
    text: &[u8],
) -> Result<Value, ValueFault>
    ensures answers { Meets is_memory_value result
        (value_written profile target text.now zone dictionary.now) }
    ensures only { IfOk result (λ value. (other : Value)
        → value_written profile target text.now zone dictionary.now ≡ Ok other → other ≡ value) }

    // So want of memory hides no other refusal where no octets are kept.
    ensures memory { IfErr result (λ fault. fault ≡ ValueFault.Memory
        → takes_memory profile target text.now zone dictionary.now ≡ true) }
{
    match profile {
        Profile::Plain => dictionary.value_of_text(alloc, target.named, text),
        Profile::Wider => wider_value(alloc, dictionary, target, zone, text),
    }
}

// A string's own octets, and the printed text of another value.
fn typed_text_put(
    alloc: Global,
    dictionary: &Dictionary,
    id: AttrId,
    value: &Value,
) -> Result<Vec<u8>, AllocError>
    requires { IsTrue (fits (record { id = id; value = value.now }) dictionary.now) }
    ensures { IfOk result (λ text. text.items ≡ typed_text_put id value.now dictionary.now) }
{
    match value {
        Value::Text(octets) => Vec::from_slice(alloc, octets.as_slice()),
        other => dictionary.text_of_value(alloc, id, other),
    }
}

/// What an attribute's value means, where it stands for more than its type says.
#[tactic(auto, unfolding(crate::specs::Written::meant_value))]
pub(crate) fn meant_value(
    alloc: Global,
    dictionary: &Dictionary,
    id: AttrId,
    value: &Value,
) -> Result<Option<FormValue>, AllocError>
    ensures { IfOk result (λ meant. meant ≡ meant_value id value.now dictionary.now) }
{
    match dictionary.form(id) {
        Some(form) => FormValue::of_value(alloc, form, value),
        None => Ok(None),
    }
}

/// The text that an expansion puts in for a value: a string's own octets, or the printed text of another value. In the
/// wider profile it is the text of what the value means, without its tag.
#[tactic(auto, unfolding(crate::specs::Written::text_put))]
pub fn text_put(
    alloc: Global,
    dictionary: &Dictionary,
    profile: Profile,
    id: AttrId,
    value: &Value,
) -> Result<Vec<u8>, AllocError>
    requires { IsTrue (fits (record { id = id; value = value.now }) dictionary.now) }
    ensures { IfOk result (λ text. text.items ≡ text_put profile id value.now dictionary.now) }
{
    if profile == Profile::Wider
        && let Some(meant) = meant_value(alloc, dictionary, id, value)?
    {
        return meant.text(alloc, dictionary, id);
    }
    typed_text_put(alloc, dictionary, id, value)
}
