//! JSON strings, as Python's `json.loads` reads them back, and texts for terminals.

use radpolicy_common::{
    Escaping, LineBreaks, PLAIN_STYLE, Style, push_json_string, reason_text, visible_text,
};
use std::test::Fail;

// Octets, and their string; of such as are no text an object. Among these are a character that is cut short, and a
// surrogate.
const STRINGS: [(&[u8], Escaping, &[u8]); 12] = [
    (b"", Escaping::Plain, b"\"\""),
    (
        b"say \"hi\" \\ back",
        Escaping::Plain,
        b"\"say \\\"hi\\\" \\\\ back\"",
    ),
    (
        b"a\0b\x1f\n\t\r\x08\x0c\x7f",
        Escaping::Plain,
        b"\"a\\u0000b\\u001f\\n\\t\\r\\b\\f\\u007f\"",
    ),
    (
        b"caf\xc3\xa9 \xe4\xb8\x96\xf0\x9f\x98\x80",
        Escaping::Plain,
        b"\"caf\xc3\xa9 \xe4\xb8\x96\xf0\x9f\x98\x80\"",
    ),
    (
        b"<a> & \xe2\x80\xa8",
        Escaping::Plain,
        b"\"<a> & \xe2\x80\xa8\"",
    ),
    (
        b"</script><!-- & -->",
        Escaping::ForMarkup,
        b"\"\\u003c/script\\u003e\\u003c!-- \\u0026 --\\u003e\"",
    ),
    (
        b"line\xe2\x80\xa8par\xe2\x80\xa9end\xe2\x80\xaa",
        Escaping::ForMarkup,
        b"\"line\\u2028par\\u2029end\xe2\x80\xaa\"",
    ),
    (
        b"\"<\" \x7f",
        Escaping::ForMarkup,
        b"\"\\\"\\u003c\\\" \\u007f\"",
    ),
    (b"\xff\0<", Escaping::Plain, b"{\"octets\":\"ff003c\"}"),
    (b"\xff\0<", Escaping::ForMarkup, b"{\"octets\":\"ff003c\"}"),
    (
        b"a\xe2\x80",
        Escaping::ForMarkup,
        b"{\"octets\":\"61e280\"}",
    ),
    (b"\xed\xa0\x80", Escaping::Plain, b"{\"octets\":\"eda080\"}"),
];

#[test]
fn strings_are_those_that_python_reads(rt: HostRuntime) -> Result<(), Fail> {
    for (octets, escaping, wanted) in STRINGS {
        let mut text = Vec::from_slice(rt.alloc(), b"[")?;
        push_json_string(&mut text, octets, escaping)?;
        assert_eq!(rt; text.as_slice().split_first(), Some((&b'[', wanted)));
    }
    Ok(())
}

// Octets, and what a terminal is shown of them.
const SHOWN: [(&[u8], LineBreaks, &[u8]); 10] = [
    (b"", LineBreaks::Escaped, b""),
    (b"bob \\ ~", LineBreaks::Escaped, b"bob \\ ~"),
    // Controls in octal.
    (
        b"\x1b[2J\x07\x7f\0",
        LineBreaks::Escaped,
        b"\\033[2J\\007\\177\\000",
    ),
    (b"a\nb\tc\rd", LineBreaks::Escaped, b"a\\012b\\011c\\015d"),
    // U+00E9, U+4E16 and U+00A0 stay; U+009B, which begins a control sequence, does not.
    (
        b"\xc3\xa9\xe4\xb8\x96\xc2\x9b2J\xc2\xa0",
        LineBreaks::Escaped,
        b"\xc3\xa9\xe4\xb8\x96\\302\\2332J\xc2\xa0",
    ),
    (
        b"\xc2\x80\xc2\x9f",
        LineBreaks::Escaped,
        b"\\302\\200\\302\\237",
    ),
    // No text.
    (b"a\xffb\xe2\x80", LineBreaks::Escaped, b"a\\377b\\342\\200"),
    (b"\xff\x1b\xc2", LineBreaks::Escaped, b"\\377\\033\\302"),
    (
        b"\xc3\xa9\xf0\x9f\x98(\xc3\xa9\x9b",
        LineBreaks::Escaped,
        b"\xc3\xa9\\360\\237\\230(\xc3\xa9\\233",
    ),
    (
        b"a\nb\tc\rd\x1b\xfe\n",
        LineBreaks::Kept,
        b"a\nb\tc\\015d\\033\\376\n",
    ),
];

#[test]
fn texts_are_shown_without_controls(rt: HostRuntime) -> Result<(), Fail> {
    for (octets, breaks, wanted) in SHOWN {
        let text = visible_text(rt.alloc(), octets, breaks)?;
        assert_eq!(rt; text.as_slice(), wanted);
    }
    Ok(())
}

#[test]
fn styles_and_reasons_have_texts(rt: HostRuntime) {
    assert_eq!(rt; Style::Removed.begin(), "\x1b[31m");
    assert_eq!(rt; Style::Added.begin(), "\x1b[32m");
    assert_eq!(rt; Style::Heading.begin(), "\x1b[1m");
    assert_eq!(rt; PLAIN_STYLE, "\x1b[0m");
    assert_eq!(rt; reason_text(2), Some("not a value of the type"));
    assert_eq!(rt; reason_text(4), Some("the list is full"));
    assert_eq!(rt; reason_text(5), None);
}
