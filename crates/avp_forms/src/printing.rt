//! Names and texts that are printed for pairs in a profile.

ghost use Rattle.std.specs.Prelude.{◌≡◌, ◌++◌, IfOk, IsTrue, OnOk};
ghost use Rattle.avp_dict.specs.Limits.{fits};
ghost use Rattle.avp_forms.specs.Printing.{meant_text, printed_meaning, printed_pair_name, printed_pair_text, tag_of_meant, tag_text};

use crate::profiles::Profile;
use crate::values::FormValue;
use crate::written::{is_hexadecimal, meant_value};
use avp_dict::{Dictionary, quote};
use avp_lists::{AttrId, Value};
use itoa::Buffer;
use std::alloc::{AllocError, Global};

// What a value is printed by in the wider profile.
#[tactic(auto, unfolding(crate::specs::Printing::printed_meaning))]
fn printed_meaning(
    alloc: Global,
    dictionary: &Dictionary,
    id: AttrId,
    value: &Value,
) -> Result<Option<FormValue>, AllocError>
    ensures { IfOk result (λ meant. meant ≡ printed_meaning id value.now dictionary.now) }
{
    let Some(meant) = meant_value(alloc, dictionary, id, value)? else {
        return Ok(None);
    };
    let text = meant.text(alloc, dictionary, id)?;
    if is_hexadecimal(&text) {
        Ok(None)
    } else {
        Ok(Some(meant))
    }
}

// The tag, where what the value means has one.
fn tag_of_meant(meant: &Option<FormValue>) -> Option<u8>
    ensures { result ≡ tag_of_meant meant.now }
{
    match meant {
        Some(meant) => meant.tag(),
        None => None,
    }
}

// A colon and the tag, where there is one.
fn push_tag(name: &mut Vec<u8>, tag: Option<u8>) -> Result<(), AllocError>
    ensures { OnOk result (name.new.items ≡ name.old.items ++ tag_text tag) }
{
    let Some(tag) = tag else {
        return Ok(());
    };
    let mut buffer = Buffer::new();
    name.push(b':')?;
    name.extend_from_slice(buffer.format(tag).as_bytes())
}

fn meant_text(
    alloc: Global,
    dictionary: &Dictionary,
    id: AttrId,
    meant: &FormValue,
) -> Result<Vec<u8>, AllocError>
    ensures { IfOk result (λ text. text.items ≡ meant_text id meant.now dictionary.now) }
{
    match meant {
        FormValue::Date(_) => {
            let text = meant.text(alloc, dictionary, id)?;
            quote(alloc, &text)
        }
        other => other.printed_text(alloc, dictionary, id),
    }
}

/// The name that is printed before a value, as [`Dictionary::printed_name`] has it; in the wider profile with its tag,
/// also where that is 0, as in `Tunnel-Type:0`. A value whose text would be read as octets, since it begins with `0x`,
/// is printed as in the plain profile.
///
/// ```rust
/// // `ATTRIBUTE Tunnel-Private-Group-Id 81 string has_tag`
/// let (profile, id) = (Profile::Wider, AttrId::Plain(81));
/// let value = Value::Bytes(Octets::from_slice(alloc, b"\x0240")?);
/// let name = printed_pair_name(alloc, dictionary, profile, id, &value)?;
/// assert_eq!(rt; name.as_slice(), b"Tunnel-Private-Group-Id:2".as_slice());
/// ```
#[tactic(auto, unfolding(crate::specs::Printing::printed_pair_name))]
pub fn printed_pair_name(
    alloc: Global,
    dictionary: &Dictionary,
    profile: Profile,
    id: AttrId,
    value: &Value,
) -> Result<Vec<u8>, AllocError>
    ensures { IfOk result (λ name. name.items
        ≡ printed_pair_name profile id value.now dictionary.now) }
{
    let mut name = dictionary.printed_name(alloc, id, value)?;
    match profile {
        Profile::Plain => {}
        Profile::Wider => {
            let meant = printed_meaning(alloc, dictionary, id, value)?;
            push_tag(&mut name, tag_of_meant(&meant))?;
        }
    }
    Ok(name)
}

/// The text that is printed for a value, as [`Dictionary::text_of_value`] has it; in the wider profile that of what the
/// value means, a date's in double quotes, since there are blanks in it.
///
/// ```rust
/// // `ATTRIBUTE Tunnel-Private-Group-Id 81 string has_tag`
/// let (profile, id) = (Profile::Wider, AttrId::Plain(81));
/// let value = Value::Bytes(Octets::from_slice(alloc, b"\x0240")?);
/// let pair = Pair { id, value };
/// if !dictionary.fits(&pair) {
///     return Err(Fail::new("no value of the attribute"));
/// }
/// let text = printed_pair_text(alloc, dictionary, profile, id, &pair.value)?;
/// assert_eq!(rt; text.as_slice(), b"\"40\"".as_slice());
/// ```
#[tactic(auto, unfolding(crate::specs::Printing::printed_pair_text))]
pub fn printed_pair_text(
    alloc: Global,
    dictionary: &Dictionary,
    profile: Profile,
    id: AttrId,
    value: &Value,
) -> Result<Vec<u8>, AllocError>
    requires { IsTrue (fits (record { id = id; value = value.now }) dictionary.now) }
    ensures { IfOk result (λ text. text.items
        ≡ printed_pair_text profile id value.now dictionary.now) }
{
    if profile == Profile::Wider
        && let Some(meant) = printed_meaning(alloc, dictionary, id, value)?
    {
        return meant_text(alloc, dictionary, id, &meant);
    }
    dictionary.text_of_value(alloc, id, value)
}
