//! Tests of the Test Anything Protocol.

ghost use Rattle.std.specs.Prelude.{◌≡◌, ◌++◌, OnOk, true};
ghost use Rattle.radpolicy_replay_layouts.specs.TestLines.{comments, described, octet_described, skipped_line, test_line, test_text};

use itoa::Buffer;
use std::alloc::AllocError;

// An octet of a description: `#` would begin a directive, and `\` is before what begins none.
fn push_octet_described(text: &mut Vec<u8>, octet: u8) -> Result<(), AllocError>
    ensures { OnOk result (text.new.items ≡ text.old.items ++ octet_described octet) }
{
    if matches!(octet, b'#' | b'\\') {
        text.push(b'\\')?;
    }
    text.push(octet)?;
    Ok(())
}

fn push_described(text: &mut Vec<u8>, name: &[u8]) -> Result<(), AllocError>
    ensures { OnOk result (text.new.items ≡ text.old.items ++ described name.now) }
{
    for octet in name {
        push_octet_described(text, *octet)?;
    }
    Ok(())
}

fn push_test_line(
    text: &mut Vec<u8>,
    passed: bool,
    number: u64,
    name: &[u8],
) -> Result<(), AllocError>
    ensures { OnOk result (text.new.items ≡ text.old.items ++ test_line passed number name.now) }
{
    let mut digits = Buffer::new();
    if !passed {
        text.extend_from_slice(b"not ")?;
    }
    text.extend_from_slice(b"ok ")?;
    text.extend_from_slice(digits.format(number).as_bytes())?;
    text.extend_from_slice(b" - ")?;
    push_described(text, name)?;
    text.push(b'\n')?;
    Ok(())
}

// The lines as comments.
fn push_comments(text: &mut Vec<u8>, lines: &[u8]) -> Result<(), AllocError>
    ensures { OnOk result (text.new.items ≡ text.old.items ++ comments true lines.now) }
{
    let mut begins = true;
    let mut rest = lines;
    while let [octet, later @ ..] = rest {
        if begins {
            text.extend_from_slice(b"# ")?;
        }
        text.push(*octet)?;
        begins = *octet == b'\n';
        rest = later;
    }
    Ok(())
}

/// Adds a test that was not made, with its number and its name.
pub fn push_skipped(text: &mut Vec<u8>, number: u64, name: &[u8]) -> Result<(), AllocError>
    ensures { OnOk result (text.new.items ≡ text.old.items ++ skipped_line number name.now) }
{
    let mut digits = Buffer::new();
    text.extend_from_slice(b"ok ")?;
    text.extend_from_slice(digits.format(number).as_bytes())?;
    text.extend_from_slice(b" - ")?;
    push_described(text, name)?;
    text.extend_from_slice(b" # SKIP\n")?;
    Ok(())
}

/// Adds a test that has passed or failed, with its number and its name, and below it these lines as comments.
pub fn push_test(
    text: &mut Vec<u8>,
    passed: bool,
    number: u64,
    name: &[u8],
    lines: &[u8],
) -> Result<(), AllocError>
    ensures { OnOk result (text.new.items
        ≡ text.old.items ++ test_text passed number name.now lines.now) }
{
    push_test_line(text, passed, number, name)?;
    push_comments(text, lines)
}
