//! Records as lines of packets.

ghost use Rattle.std.specs.Prelude.{◌<◌, IfErr, length};
ghost use Rattle.avp_dict.specs.Lines.{HasDistinctNames};
ghost use Rattle.radpolicy.specs.Faults.{IsPrintedWith};

use crate::PROGRAM;
use crate::command_line::PacketsPlan;
use crate::log_watches::LogWatch;
use crate::places::{FileLine, refuse_in};
use crate::secrets::{held_secrets, read_secret};
use crate::streams::{Early, flush, refuse_input, write_text};
use crate::traffic::{Traffic, read_beginning, record_reader};
use avp_dict::{Dictionary, FileSet};
use avp_lists::Octets;
use radpolicy::Fault;
use radpolicy_common::{read_dictionary_set, refuse_early};
use radpolicy_help::{Source, Sources, refuse_unread_explained};
use radpolicy_record_answers::{entry_of_record, text_source};
use radpolicy_replay_records::{Records, ReplayFault, SharedSecrets};
use radpolicy_traffic::Record;
use std::alloc::Global;
use std::io::{BufWriter, Read, Write};

// How many records there were.
#[derive(Clone, Copy)]
struct Counts {
    read: u64,
    refused: u64,
}

// By what packets are made.
#[derive(Drop)]
struct Making<'a> {
    dictionary: &'a Dictionary,
    shared: SharedSecrets<'a>,
    zone: Option<i16>,
    // The virtual server to which the requests go, where they come out of tunnels.
    server: Option<&'a str>,
}

// The octets that are asked for by one read.
const BLOCK_OCTETS: usize = 4_096;

// Lines of packets are written as they are.
fn copy<R: Read + Drop, W: Write>(
    mut input: R,
    log: &mut LogWatch,
    out: &mut W,
) -> Result<(), ReplayFault> {
    let mut block = [0; BLOCK_OCTETS];
    for _ in 0..u64::MAX {
        let Ok(count) = input.read(&mut block) else {
            return Err(ReplayFault::Input);
        };
        log.look(&block[..count]);
        write_text(out, &block[..count])?;
        flush(out)?;
        if count == 0 {
            return Ok(());
        }
    }
    Err(ReplayFault::Input)
}

// The address of a record's source; empty where none is known.
fn source_of(record: &Record) -> &[u8] {
    match (text_source(record), &record.source) {
        (Some(_), Some(text)) => text.as_slice(),
        _ => &[],
    }
}

// Writes the line of a record, and says whether it has a packet.
fn write_record<W: Write>(
    alloc: Global,
    making: &Making<'_>,
    record: &Record,
    number: u64,
    out: &mut W,
) -> Result<bool, ReplayFault> {
    let secret = making.shared.of_text(record);
    let entry = entry_of_record(alloc, making.dictionary, making.zone, &secret, record)?;
    let mut text = Vec::new(alloc);
    entry.push_packet_line(&mut text, number, source_of(record))?;
    write_text(out, &text)?;
    flush(out)?;
    Ok(entry.has_packet())
}

fn write_records<R: Records, W: Write>(
    alloc: Global,
    making: &Making<'_>,
    records: &mut R,
    out: &mut W,
) -> Result<Counts, ReplayFault> {
    let mut refused = 0_u64;
    for read in 0..u64::MAX {
        let Some(record) = records.next_record()? else {
            return Ok(Counts { read, refused });
        };
        if !write_record(alloc, making, &record, read + 1, out)? {
            refused = refused.saturating_add(1);
        }
    }
    Err(ReplayFault::TooManyRecords)
}

// Of lines of packets nothing is counted.
fn write_traffic<R: Read + Drop, W: Write>(
    rt: &HostRuntime,
    making: &Making<'_>,
    traffic: Traffic,
    input: R,
    out: &mut W,
) -> Result<Option<Counts>, ReplayFault> {
    match traffic {
        Traffic::Hex => {
            let mut log = LogWatch::new(rt.alloc());
            let copied = copy(input, &mut log, out);
            log.tell(rt);
            copied?;
            Ok(None)
        }
        Traffic::Text(format) => {
            let mut records = record_reader(rt.alloc(), input, format, making.server)?;
            Ok(Some(write_records(rt.alloc(), making, &mut records, out)?))
        }
    }
}

fn write_input<W: Write>(
    rt: &HostRuntime,
    plan: &PacketsPlan<'_>,
    making: &Making<'_>,
    out: &mut W,
) -> Result<Option<Counts>, Early> {
    let mut input = rt.stdin();
    let beginning = read_beginning(rt.alloc(), &mut input, plan.traffic)?;
    let whole = beginning.octets.as_slice().chain(input);
    let counts = write_traffic(rt, making, beginning.traffic, whole, out)?;
    Ok(counts)
}

fn written(rt: &HostRuntime, plan: &PacketsPlan<'_>, making: &Making<'_>) -> u8 {
    let Ok(mut out) = BufWriter::new(rt.alloc(), rt.stdout()) else {
        return refuse_early(rt, PROGRAM, &Fault::Memory);
    };
    match write_input(rt, plan, making, &mut out) {
        Ok(Some(Counts { read, refused })) => {
            let _ = eprintln!(rt; "{read} read, {refused} refused");
            0
        }
        Ok(None) => 0,
        Err(early) => refuse_input(rt, early),
    }
}

// What is read of the files, and the lines by it.
fn write_by(
    rt: &HostRuntime,
    plan: &PacketsPlan<'_>,
    files: &FileSet,
    secret: &Octets,
) -> Result<u8, Fault>
    requires first { 0 < length files.now }
    requires distinct { HasDistinctNames files.now }
    ensures { IfErr result (IsPrintedWith files.now) }
{
    let dictionary = Dictionary::read(rt.alloc(), files)?;
    let secrets = match held_secrets(rt, plan.secret, secret.as_slice())? {
        Ok(secrets) => secrets,
        Err(status) => return Ok(status),
    };
    let making = Making {
        dictionary: &dictionary,
        shared: secrets.shared(),
        zone: plan.zone,
        server: plan.server,
    };
    Ok(written(rt, plan, &making))
}

// The files of a plan.
fn sources_of<'a>(plan: &'a PacketsPlan<'a>, files: &'a FileSet) -> Sources<'a> {
    let nothing = Source {
        path: "",
        text: &[],
    };
    Sources {
        files,
        dictionaries: &plan.dictionaries,
        request: nothing,
        is_request_wider: false,
        hidden: &[],
        policy: nothing,
        script: nothing,
        secret: plan.secret.path(),
    }
}

fn refuse_files(rt: &HostRuntime, plan: &PacketsPlan<'_>, files: &FileSet, fault: &Fault) -> u8
    requires { IsPrintedWith files.now fault.now }
{
    let sources = sources_of(plan, files);
    let place = FileLine::in_dictionary(fault, files);
    refuse_in(rt, fault, place, files, &sources)
}

/// Writes the records of standard input as lines of packets.
pub fn packets_plan(rt: &HostRuntime, plan: &PacketsPlan<'_>) -> u8 {
    let files = match read_dictionary_set(rt, plan.dictionaries.as_slice()) {
        Ok(files) => files,
        Err(unread) => return refuse_unread_explained(rt, PROGRAM, unread),
    };
    let secret = match read_secret(rt, plan.secret) {
        Ok(secret) => secret,
        Err(unread) => return refuse_unread_explained(rt, PROGRAM, unread),
    };
    match write_by(rt, plan, &files, &secret) {
        Ok(status) => status,
        Err(fault) => refuse_files(rt, plan, &files, &fault),
    }
}
