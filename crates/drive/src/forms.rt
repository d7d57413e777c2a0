//! Reads lines from standard input, each `a` and the text of an IPv6 address, or `d` and the text of a date, with a blank
//! between, and prints for each the text of the value that it stands for, or why it stands for none.

use crate::dictionaries;
use crate::inputs::standard_input;
use avp_dict::Dictionary;
use avp_forms::FormValue;
use avp_lists::AttrId;
use std::alloc::Global;
use std::io;
use std::io::{BufWriter, Write};

const ADDRESS: AttrId = AttrId::Plain(95);

const DATE: AttrId = AttrId::Plain(55);

const LINES: &[u8] = b"ATTRIBUTE Address 95 ipv6addr\nATTRIBUTE Date 55 date\n";

const MAX_OCTETS: u64 = 64_000_000;

fn write_value<W: Write>(
    out: &mut W,
    alloc: Global,
    dictionary: &Dictionary,
    id: AttrId,
    text: &[u8],
) -> io::Result<()> {
    match FormValue::of_text(alloc, dictionary, id, 0, None, text) {
        Ok(value) => {
            let shown = value.text(alloc, dictionary, id)?;
            out.write_all(&shown)?;
        }
        Err(fault) => write!(out, "{fault}")?,
    }
    out.write_all(b"\n")
}

fn write_line<W: Write>(
    out: &mut W,
    alloc: Global,
    dictionary: &Dictionary,
    line: &[u8],
) -> io::Result<()> {
    match line {
        [] => Ok(()),
        [b'a', b' ', text @ ..] => write_value(out, alloc, dictionary, ADDRESS, text),
        [b'd', b' ', text @ ..] => write_value(out, alloc, dictionary, DATE, text),
        _ => out.write_all(b"?\n"),
    }
}

/// Answers each line of standard input.
pub fn drive(rt: &HostRuntime) -> io::Result<()> {
    let alloc = rt.alloc();
    let octets = standard_input(rt, MAX_OCTETS)?;
    let dictionary = dictionaries::of_text(alloc, LINES)?;
    let mut out = BufWriter::new(alloc, rt.stdout())?;
    for line in octets.as_slice().split(|octet| *octet == b'\n') {
        write_line(&mut out, alloc, &dictionary, line)?;
    }
    out.flush()
}
