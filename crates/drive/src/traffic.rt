//! Reads what servers and tools print from standard input, and prints the records of it: a line with what a record is,
//! and its attribute lines, those of its reply behind `<`, those of initial lists behind their names.

use crate::inputs::standard_input;
use radpolicy_traffic::{Reader, Record, format_of};
use std::io;
use std::io::{BufWriter, Write};

const MAX_OCTETS: u64 = 1 << 28;

fn write_lines<W: Write>(out: &mut W, front: &[u8], lines: &[u8]) -> io::Result<()> {
    for line in lines.split(|octet| *octet == b'\n') {
        if !line.is_empty() {
            out.write_all(front)?;
            out.write_all(line)?;
            out.write_all(b"\n")?;
        }
    }
    Ok(())
}

fn write_head<W: Write>(out: &mut W, record: &Record) -> io::Result<()> {
    write!(out, "{} (", record.line)?;
    out.write_all(&record.identifier)?;
    out.write_all(b") ")?;
    match &record.source {
        Some(address) => out.write_all(address)?,
        None => out.write_all(b"-")?,
    }
    let length = if record.is_too_long { " too long" } else { "" };
    match &record.reply {
        Some(reply) => writeln!(out, " {:?} {:?}{length}", record.code, reply.code),
        None => writeln!(out, " {:?} -{length}", record.code),
    }
}

fn write_record<W: Write>(out: &mut W, record: &Record) -> io::Result<()> {
    write_head(out, record)?;
    write_lines(out, b"> ", &record.request)?;
    write_lines(out, b"reply:", &record.initial_reply)?;
    write_lines(out, b"control:", &record.initial_control)?;
    match &record.reply {
        Some(reply) => write_lines(out, b"< ", &reply.lines),
        None => Ok(()),
    }
}

fn write_records<W: Write>(out: &mut W, reader: &mut Reader, text: &[u8]) -> io::Result<()> {
    for line in text.split(|octet| *octet == b'\n') {
        if let Some(record) = reader.line(line)? {
            write_record(out, &record)?;
        }
    }
    for _ in 0..u64::MAX {
        match reader.end() {
            Some(record) => write_record(out, &record)?,
            None => break,
        }
    }
    Ok(())
}

/// Prints the records of standard input.
pub fn drive(rt: &HostRuntime) -> io::Result<()> {
    let text = standard_input(rt, MAX_OCTETS)?;
    let mut out = BufWriter::new(rt.alloc(), io::writer(rt))?;
    match format_of(&text) {
        Some(format) => {
            writeln!(out, "{format:?}")?;
            let mut reader = Reader::new(rt.alloc(), format);
            write_records(&mut out, &mut reader, &text)?;
        }
        None => out.write_all(b"none\n")?,
    }
    out.flush()
}
