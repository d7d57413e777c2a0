//! JSON strings (RFC 8259, section 7).

ghost use Rattle.std.specs.Prelude.{◌≡◌, ◌++◌, true, length, drop, IfOk, OnOk};
ghost use Rattle.std.specs.List.{list_all};
ghost use Rattle.std.specs.Str.{IsUtf8, chars};
ghost use Rattle.std.specs.String.{string_bytes};
ghost use Rattle.json.specs.Print.{quoted};
ghost use Rattle.radpolicy_common.specs.declared.json_strings.Escaping.TheVariants.{ForMarkup};
ghost use Rattle.radpolicy_common.specs.JsonStrings.{char_text, is_no_markup, is_no_separator, json_octets, json_string, short_escape, with_escapes};

use serde_json::Value;
use std::alloc::{AllocError, Global};

/// What is escaped in a string besides what JSON asks for and the control characters from U+007F to U+009F.
#[derive(Clone, Copy, Debug, PartialEq, Eq)]
pub enum Escaping {
    Plain,
    /// `<`, `>`, `&`, U+2028 and U+2029, so that the string may be part of a script in HTML.
    ForMarkup,
}

// A text between quotes, as JSON asks for it.
fn quoted(alloc: Global, text: &str) -> Result<String, AllocError>
    ensures { IfOk result (λ string. string_bytes string ≡ quoted text.now) }
{
    Value::String(String::from_str(alloc, text)?).to_string(alloc)
}

// `\u00` and the two digits of an octet.
fn push_short_escape(text: &mut Vec<u8>, octet: u8) -> Result<(), AllocError>
    ensures { OnOk result (text.new.items ≡ text.old.items ++ short_escape octet) }
{
    let digits = hex::encode(*text.allocator(), [octet])?;
    text.extend_from_slice(b"\\u00")?;
    text.extend_from_slice(digits.as_bytes())
}

fn push_character(text: &mut Vec<u8>, character: char, escaping: Escaping) -> Result<(), AllocError>
    ensures { OnOk result (text.new.items ≡ text.old.items ++ char_text escaping character) }
{
    match (character, escaping) {
        ('\u{7f}'..='\u{9f}', _) => push_short_escape(text, character as u8),
        ('<', Escaping::ForMarkup) => text.extend_from_slice(b"\\u003c"),
        ('>', Escaping::ForMarkup) => text.extend_from_slice(b"\\u003e"),
        ('&', Escaping::ForMarkup) => text.extend_from_slice(b"\\u0026"),
        ('\u{2028}', Escaping::ForMarkup) => text.extend_from_slice(b"\\u2028"),
        ('\u{2029}', Escaping::ForMarkup) => text.extend_from_slice(b"\\u2029"),
        _ => {
            let mut buffer = [0; 4];
            text.extend_from_slice(character.encode_utf8(&mut buffer).as_bytes())
        }
    }
}

// The characters of a written string, with what is escaped besides.
fn push_with_escapes(text: &mut Vec<u8>, string: &str, escaping: Escaping) -> Result<(), AllocError>
    ensures { OnOk result (text.new.items ≡ text.old.items ++ with_escapes escaping string.now) }
{
    for character in string.chars() {
        push_character(text, character, escaping)?;
    }
    Ok(())
}

#[tactic(auto, unfolding(crate::specs::JsonStrings::json_octets))]
fn push_octets(text: &mut Vec<u8>, octets: &[u8]) -> Result<(), AllocError>
    ensures { OnOk result (text.new.items ≡ text.old.items ++ json_octets octets.now) }
{
    let digits = hex::encode(*text.allocator(), octets)?;
    text.extend_from_slice(b"{\"octets\":\"")?;
    text.extend_from_slice(digits.as_bytes())?;
    text.extend_from_slice(b"\"}")
}

#[tactic(auto, unfolding(crate::specs::JsonStrings::json_string))]
fn push_string(text: &mut Vec<u8>, string: &str, escaping: Escaping) -> Result<(), AllocError>
    ensures { OnOk result (text.new.items ≡ text.old.items ++ json_string escaping string.now) }
{
    let quoted = quoted(*text.allocator(), string)?;
    push_with_escapes(text, quoted.as_str(), escaping)
}

/// Adds octets as JSON: UTF-8 as a string, other octets as the object `{"octets":"00ff"}` of their hexadecimal digits.
///
/// In a string `"`, `\` and control characters (up to U+001F, and from U+007F to U+009F) are escaped, and what the escaping
/// says; other characters are as they are.
pub fn push_json_string(
    text: &mut Vec<u8>,
    octets: &[u8],
    escaping: Escaping,
) -> Result<(), AllocError>
    ensures string { IsUtf8 octets.now
        → OnOk result (text.new.items ≡ text.old.items ++ json_string escaping octets.now) }
    ensures octets { ¬ (IsUtf8 octets.now)
        → OnOk result (text.new.items ≡ text.old.items ++ json_octets octets.now) }
    // What is added for markup has no `<`, `>` or `&`.
    ensures no_markup { escaping ≡ ForMarkup → OnOk result
        (list_all is_no_markup (drop (length text.old.items) text.new.items) ≡ true) }
    // And neither U+2028 nor U+2029.
    ensures no_separator { escaping ≡ ForMarkup → OnOk result
        (list_all is_no_separator (chars (drop (length text.old.items) text.new.items)) ≡ true) }
    ensures utf8 { OnOk result (IsUtf8 (drop (length text.old.items) text.new.items)) }
{
    match std::str::from_utf8(octets) {
        Ok(string) => push_string(text, string, escaping),
        Err(_) => push_octets(text, octets),
    }
}
