//! Reads one file of a configuration from standard input, and prints each item, or the fault. With the path of a file it
//! reads the whole configuration that begins there, and prints each item on a line, with its place and its values
//! filled in, or the fault.

use crate::inputs::standard_input;
use server_configuration::{
    Configuration, ConfigurationFault, Content, Item, MAX_OCTETS, SystemFiles, Text,
    read_configuration, read_items,
};
use std::alloc::Global;
use std::io;
use std::io::{BufWriter, Write};

fn print_items(rt: &HostRuntime, items: &[Item]) -> io::Result<()> {
    for item in items {
        println!(rt; "{item:?}")?;
    }
    Ok(())
}

fn print_file(rt: &HostRuntime) -> io::Result<()> {
    let octets = standard_input(rt, MAX_OCTETS as u64 + 1)?;
    match read_items(rt.alloc(), &octets) {
        Ok(items) => print_items(rt, &items),
        Err(fault) => println!(rt; "{fault:?}"),
    }
}

fn write_texts<W: Write>(out: &mut W, texts: &[Text]) -> io::Result<()> {
    for text in texts {
        out.write_all(b" ")?;
        out.write_all(&text.octets)?;
    }
    Ok(())
}

// A value with its references filled in, or why they are not.
fn write_value<W: Write>(
    out: &mut W,
    alloc: Global,
    read: &Configuration,
    item: &Item,
    value: &Text,
) -> io::Result<()> {
    match read.resolved(alloc, item.section, &value.octets, &[]) {
        Ok(octets) => out.write_all(&octets),
        Err(fault) => write!(out, "({} at {})", fault, fault.offset),
    }
}

fn write_content<W: Write>(
    out: &mut W,
    alloc: Global,
    read: &Configuration,
    item: &Item,
) -> io::Result<()> {
    match &item.content {
        Content::Pair {
            name,
            operator,
            value,
        } => {
            out.write_all(&name.octets)?;
            write!(out, " {operator:?} ")?;
            match value {
                Some(value) => write_value(out, alloc, read, item, value),
                None => Ok(()),
            }
        }
        Content::Section { name, arguments } => {
            out.write_all(&name.octets)?;
            write_texts(out, arguments)?;
            out.write_all(b" {")
        }
        Content::Word { name, arguments } => {
            out.write_all(&name.octets)?;
            write_texts(out, arguments)
        }
        Content::Include { path, .. } => {
            out.write_all(b"include ")?;
            out.write_all(&path.octets)
        }
    }
}

fn write_item<W: Write>(
    out: &mut W,
    alloc: Global,
    read: &Configuration,
    item: &Item,
) -> io::Result<()> {
    if let Some(file) = read.files.get(item.file) {
        out.write_all(&file.path)?;
    }
    write!(out, ":{}: ", item.line)?;
    if let Some(place) = item.section {
        write!(out, "in {place}: ")?;
    }
    write_content(out, alloc, read, item)?;
    out.write_all(b"\n")
}

fn print_configuration(rt: &HostRuntime, read: &Configuration) -> io::Result<()> {
    let mut out = BufWriter::new(rt.alloc(), io::writer(rt))?;
    for item in &read.items {
        write_item(&mut out, rt.alloc(), read, item)?;
    }
    writeln!(
        out,
        "{} files, {} items",
        read.files.len(),
        read.items.len()
    )?;
    out.flush()
}

fn print_fault(rt: &HostRuntime, fault: &ConfigurationFault) -> io::Result<()> {
    let mut out = BufWriter::new(rt.alloc(), io::writer(rt))?;
    out.write_all(&fault.file.path)?;
    writeln!(out, ":{}: fault: {:?}", fault.line, fault.kind)?;
    out.flush()
}

/// Prints the configuration that begins in the file of these words, or the file of standard input.
pub fn drive(rt: &HostRuntime, words: &[String]) -> io::Result<()> {
    let [path] = words else {
        return print_file(rt);
    };
    let named = [path.as_str()];
    let files = SystemFiles::new(rt, &named);
    match read_configuration(rt.alloc(), &files, path.as_bytes()) {
        Ok(read) => print_configuration(rt, &read),
        Err(fault) => print_fault(rt, &fault),
    }
}
