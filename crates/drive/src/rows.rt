//! Answers the questions of standard input, a line for each line: a comment, which begins with `#`, and a blank line are
//! written as they are, and what gives no answer leaves its line blank. In a line `\` has behind it what it has between
//! double quotes in a policy.
//!
//! - `| TEXT` keeps a text and a line feed, `* COUNT TEXT` keeps a text so many times. The next question has what is kept
//!   behind its own text, after a blank.
//! - `file NAME TEXT` gives a file of the next dictionary, and `dictionary TEXT` reads one: TEXT is the first file, `d`,
//!   unless files are given and there is no text. Later questions are asked of the last one that was read.
//! - `profile plain|wider` and `zone OFFSET` say how names and texts are read from there on.
//! - `pattern FLAGS TEXT`, with `-` for no flags, reads a pattern, and `match TEXT` asks the last one that was read.
//! - `secret TEXT` and `authenticator DIGITS` say what packets are made and read by from there on, and `over TEXT` the
//!   request lines that policies run over.
//! - `entries`, `values`, `forms`, `policies` and `packets` have the other questions.

mod entries;
mod forms;
mod packets;
mod patterns;
mod policies;
mod setting;
mod values;
mod words;

use crate::inputs::standard_input;
use avp_dict::{NamedFile, QuoteMark, octets_between};
use avp_forms::{Profile, offset_spelled};
use avp_lists::Octets;
use avp_patterns::Pattern;
use setting::Setting;
use std::alloc::{AllocError, Global};
use std::io::{BufWriter, Write};
use std::{io, mem};
use words::{bad, first_word, number_of};

const MAX_OCTETS: u64 = 64_000_000;

/// What the lines before have given.
#[derive(Drop)]
struct Rows {
    kept: Vec<u8>,
    files: Vec<NamedFile>,
    pattern: Option<Pattern>,
    setting: Setting,
}

impl Rows {
    fn new(alloc: Global) -> io::Result<Rows> {
        Ok(Rows {
            kept: Vec::new(alloc),
            files: Vec::new(alloc),
            pattern: None,
            setting: Setting::new(alloc)?,
        })
    }

    fn keep_line(&mut self, text: &[u8]) -> Result<(), AllocError> {
        self.kept.extend_from_slice(text)?;
        self.kept.push(b'\n')?;
        Ok(())
    }

    // Keeps a text so many times.
    fn keep_times(&mut self, text: &[u8]) -> io::Result<()> {
        let (count, part) = first_word(text);
        for _ in 0..number_of(count)? {
            self.kept.extend_from_slice(part)?;
        }
        Ok(())
    }

    // A question's text, with what is kept behind it.
    fn with_kept(&mut self, text: &[u8]) -> Result<Vec<u8>, AllocError> {
        let mut whole = Vec::from_slice(self.setting.alloc, text)?;
        if !text.is_empty() && !self.kept.is_empty() {
            whole.push(b' ')?;
        }
        whole.extend_from_slice(&self.kept)?;
        self.kept.clear();
        Ok(whole)
    }

    fn add_file(&mut self, text: &[u8]) -> Result<(), AllocError> {
        let (name, text) = first_word(text);
        let name = Octets::from_slice(self.setting.alloc, name)?;
        let octets = Octets::from_slice(self.setting.alloc, text)?;
        self.files.push(NamedFile { name, octets })?;
        Ok(())
    }

    // The files that are given, behind that of the text.
    fn files_behind(&mut self, text: &[u8]) -> Result<Vec<NamedFile>, AllocError> {
        let alloc = self.setting.alloc;
        let given = mem::replace(&mut self.files, Vec::new(alloc));
        if text.is_empty() && !given.is_empty() {
            return Ok(given);
        }
        let octets = Octets::from_slice(alloc, text)?;
        let mut files = vec![in alloc; NamedFile::at(alloc, "d", octets)?]?;
        for file in given {
            files.push(file)?;
        }
        Ok(files)
    }

    fn set_profile(&mut self, text: &[u8]) -> io::Result<()> {
        self.setting.profile = match text {
            b"plain" => Profile::Plain,
            b"wider" => Profile::Wider,
            _ => return bad(),
        };
        Ok(())
    }

    // Answers a question, or takes what it says of later ones.
    fn answer<W: Write>(&mut self, out: &mut W, word: &[u8], text: &[u8]) -> io::Result<()> {
        match word {
            b"file" => self.add_file(text)?,
            b"dictionary" => {
                let files = self.files_behind(text)?;
                self.setting.read_dictionary(out, files)?;
            }
            b"profile" => self.set_profile(text)?,
            b"zone" => self.setting.zone = offset_spelled(text),
            b"secret" => self.setting.secret = Vec::from_slice(self.setting.alloc, text)?,
            b"authenticator" => self.setting.set_authenticator(text)?,
            b"over" => self.setting.request = Vec::from_slice(self.setting.alloc, text)?,
            b"pattern" => self.pattern = patterns::read(out, self.setting.alloc, text)?,
            b"match" => match &self.pattern {
                Some(pattern) => patterns::write_match(out, self.setting.alloc, pattern, text)?,
                None => return bad(),
            },
            _ => write_answer(out, &self.setting, word, text)?,
        }
        Ok(())
    }
}

// The answer to a question that says nothing of later ones.
fn write_answer<W: Write>(
    out: &mut W,
    setting: &Setting,
    word: &[u8],
    text: &[u8],
) -> io::Result<()> {
    match word {
        b"name" => entries::write_named(out, setting, text),
        b"id" => entries::write_entry(out, setting, text),
        b"attribute" => entries::write_attribute(out, setting, text),
        b"vendor" => entries::write_vendor(out, setting, text),
        b"number" => entries::write_number(out, setting, text),
        b"value-name" => entries::write_value_name(out, setting, text),
        b"last-component" => entries::write_last_component(out, text),
        b"value" => values::write_value(out, setting, text),
        b"beside" => values::write_beside(out, setting, text),
        b"octets" => values::write_octets(out, setting, text),
        b"fits" => values::write_fits(out, setting, text),
        b"quote" => values::write_quoted(out, setting, text),
        b"request" => values::write_request(out, setting, text),
        b"count" => values::write_count(out, setting, text),
        b"profile-of" => forms::write_profile(out, text),
        b"target" => forms::write_target(out, setting, text),
        b"form" => forms::write_form(out, setting, text),
        b"form-octets" => forms::write_form_octets(out, setting, text),
        b"compare" => forms::write_order(out, setting, text),
        b"put" => forms::write_texts_put(out, setting, text),
        b"expansion" => forms::write_expansion(out, setting, text),
        _ => write_packet_answer(out, setting, word, text),
    }
}

// The same of a question about packets.
fn write_packet_answer<W: Write>(
    out: &mut W,
    setting: &Setting,
    word: &[u8],
    text: &[u8],
) -> io::Result<()> {
    match word {
        b"decode" => packets::write_request(out, setting, text),
        b"decode-reply" => packets::write_reply(out, setting, text),
        b"decode-unchecked" => packets::write_unchecked(out, setting, text),
        b"decode-reply-unchecked" => packets::write_reply_unchecked(out, setting, text),
        b"encode" => packets::write_encoded(out, setting, text),
        b"accept" => packets::write_accept(out, setting, text),
        b"accept-signed" => packets::write_signed(out, setting, text),
        b"check" => packets::write_check(out, setting, text),
        b"hide" => packets::write_hidden(out, setting, text),
        b"unhide" => packets::write_shown(out, setting, text),
        b"attributes" => packets::write_walk(out, setting, text),
        _ => write_policy_answer(out, setting, word, text),
    }
}

// The same of a question about policies.
fn write_policy_answer<W: Write>(
    out: &mut W,
    setting: &Setting,
    word: &[u8],
    text: &[u8],
) -> io::Result<()> {
    match word {
        b"policy" => policies::write_policy(out, setting, text),
        b"tree" => policies::write_tree(out, setting, text),
        b"run" => policies::write_run(out, setting, text),
        _ => bad(),
    }
}

fn write_line<W: Write>(out: &mut W, rows: &mut Rows, line: &[u8]) -> io::Result<()> {
    let (word, text) = first_word(line);
    let text = octets_between(rows.setting.alloc, QuoteMark::Double, text)?;
    match word {
        [] | [b'#', ..] => out.write_all(line)?,
        [b'|'] => rows.keep_line(&text)?,
        [b'*'] => rows.keep_times(&text)?,
        _ => {
            let text = rows.with_kept(&text)?;
            rows.answer(out, word, &text)?;
        }
    }
    out.write_all(b"\n")
}

/// Answers each line of standard input.
pub fn drive(rt: &HostRuntime) -> io::Result<()> {
    let octets = standard_input(rt, MAX_OCTETS)?;
    let lines = match octets.as_slice() {
        [lines @ .., b'\n'] => lines,
        lines => lines,
    };
    let mut rows = Rows::new(rt.alloc())?;
    let mut out = BufWriter::new(rt.alloc(), rt.stdout())?;
    for line in lines.split(|octet| *octet == b'\n') {
        write_line(&mut out, &mut rows, line)?;
    }
    out.flush()
}
