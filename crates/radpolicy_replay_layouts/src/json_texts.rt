//! Values of JSON.

ghost use Rattle.std.specs.Prelude.{◌≡◌, ◌++◌, OnOk, codes};
ghost use Rattle.std.specs.List.{flat_map};
ghost use Rattle.avp_dict.specs.internal.Views.{views};
ghost use Rattle.radpolicy_replay_layouts.specs.JsonTexts.{flag, string, strings};

use radpolicy_common::{Escaping, push_json_string};
use std::alloc::AllocError;

/// Adds a text as a string; octets that are no UTF-8 as the object that has them.
pub fn push_string(text: &mut Vec<u8>, octets: &[u8]) -> Result<(), AllocError>
    ensures { OnOk result (text.new.items ≡ text.old.items ++ string octets.now) }
{
    push_json_string(text, octets, Escaping::Plain)
}

/// Adds `true` or `false`.
pub fn push_flag(text: &mut Vec<u8>, holds: bool) -> Result<(), AllocError>
    ensures { OnOk result (text.new.items ≡ text.old.items ++ flag holds) }
{
    if holds {
        text.extend_from_slice(b"true")?;
    } else {
        text.extend_from_slice(b"false")?;
    }
    Ok(())
}

// The strings that come after a first one.
fn push_more(text: &mut Vec<u8>, later: &[&[u8]]) -> Result<(), AllocError>
    ensures { OnOk result (text.new.items ≡ text.old.items
        ++ flat_map (λ octets. codes "," ++ string octets) (views later.now)) }
{
    let mut rest = later;
    while let [octets, others @ ..] = rest {
        text.push(b',')?;
        push_string(text, octets)?;
        rest = others;
    }
    Ok(())
}

/// Adds an array of strings.
pub fn push_strings(text: &mut Vec<u8>, texts: &[&[u8]]) -> Result<(), AllocError>
    ensures { OnOk result (text.new.items ≡ text.old.items ++ strings (views texts.now)) }
{
    text.push(b'[')?;
    if let [first, later @ ..] = texts {
        push_string(text, first)?;
        push_more(text, later)?;
    }
    text.push(b']')?;
    Ok(())
}
