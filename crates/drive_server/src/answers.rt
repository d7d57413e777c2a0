//! What a run leaves, as lines.

use crate::words::name_of_code;
use avp_dict::Dictionary;
use avp_forms::{Profile, printed_pair_name, printed_pair_text};
use avp_lists::{Pair, State};
use server_unlang::Frame;
use std::alloc::Global;
use std::io;
use std::io::Write;

fn write_pair<W: Write>(
    out: &mut W,
    alloc: Global,
    dictionary: &Dictionary,
    pair: &Pair,
) -> io::Result<()> {
    let name = printed_pair_name(alloc, dictionary, Profile::Wider, pair.id, &pair.value)?;
    out.write_all(&name)?;
    out.write_all(b" = ")?;
    if dictionary.fits(pair) {
        let text = printed_pair_text(alloc, dictionary, Profile::Wider, pair.id, &pair.value)?;
        out.write_all(&text)?;
    }
    out.write_all(b"\n")
}

fn write_list<W: Write>(
    out: &mut W,
    alloc: Global,
    dictionary: &Dictionary,
    name: &[u8],
    pairs: &[Pair],
) -> io::Result<()> {
    for pair in pairs {
        out.write_all(name)?;
        out.write_all(b" ")?;
        write_pair(out, alloc, dictionary, pair)?;
    }
    Ok(())
}

fn write_state<W: Write>(
    out: &mut W,
    alloc: Global,
    dictionary: &Dictionary,
    state: &State,
) -> io::Result<()> {
    write_list(out, alloc, dictionary, b"request", state.request.as_slice())?;
    write_list(out, alloc, dictionary, b"reply", state.reply.as_slice())?;
    write_list(out, alloc, dictionary, b"control", state.control.as_slice())
}

pub fn write_answer<W: Write>(
    out: &mut W,
    alloc: Global,
    dictionary: &Dictionary,
    frame: &Frame,
) -> io::Result<()> {
    let left = if frame.place.has_left { " left" } else { "" };
    writeln!(out, "code {}{left}", name_of_code(frame.place.code))?;
    write_state(out, alloc, dictionary, &frame.state)?;
    out.write_all(b"end\n")
}
