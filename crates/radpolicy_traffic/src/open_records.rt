//! Requests whose lines or whose reply may still come.

ghost use Rattle.std.specs.Prelude.{◌≡◌, ◌++◌, ℕ, List, IfOk, OnOk, codes};
ghost use Rattle.radpolicy_traffic.specs.Growth.{IsGrown, IsGrownText, KeepsTexts, no_texts, reply_lines, texts_of};
ghost use Rattle.radpolicy_traffic.specs.Lines.{IsEndOf};
ghost use Rattle.radpolicy_traffic.specs.internal.Marks.{IsMarkOf};
ghost use Rattle.radpolicy_traffic.specs.internal.Owners.{belongs_to, has_key};

use crate::attributes::name_of;
use crate::headings::{Heading, Key};
use crate::marks::{Lines, Mark, Owner};
use crate::records::{Code, MAX_LINES, MAX_OCTETS, Record, Reply};
use crate::texts::is;
use std::alloc::{AllocError, Global};

/// Which packet of a record is being read.
#[derive(Clone, Copy, PartialEq, Eq)]
pub(crate) enum Part {
    Request,
    Reply,
    Nothing,
}

/// A record that may still grow.
#[derive(Drop)]
pub(crate) struct OpenRecord {
    number: Vec<u8>,
    client: Vec<u8>,
    server: Vec<u8>,
    part: Part,
    // It waits to be given out.
    is_done: bool,
    // No line has said the type of the request, and the attributes tell it.
    guesses_code: bool,
    lines: usize,
    octets: usize,
    record: Record,
}

impl OpenRecord {
    /// Ensures that a record has begun, without any lines.
    pub(crate) fn new(
        alloc: Global,
        line: usize,
        heading: &Heading<'_>,
        guesses_code: bool,
    ) -> Result<OpenRecord, AllocError>
        ensures { IfOk result (λ begun. texts_of begun.record ≡ no_texts) }
    {
        let source = match heading.source {
            Some(source) => Some(Vec::from_slice(alloc, source)?),
            None => None,
        };
        Ok(OpenRecord {
            number: Vec::from_slice(alloc, heading.key.number)?,
            client: Vec::from_slice(alloc, heading.key.client)?,
            server: Vec::from_slice(alloc, heading.key.server)?,
            part: Part::Request,
            is_done: false,
            guesses_code,
            lines: 0,
            octets: 0,
            record: Record {
                line,
                identifier: Vec::from_slice(alloc, heading.identifier)?,
                source,
                code: heading.code,
                request: Vec::new(alloc),
                reply: None,
                initial_reply: Vec::new(alloc),
                initial_control: Vec::new(alloc),
                is_too_long: false,
            },
        })
    }

    /// The same with the first line, which may be any.
    pub(crate) fn with_mark(
        alloc: Global,
        line: usize,
        mark: &Mark<'_>,
    ) -> Result<OpenRecord, AllocError>
        ensures { (line : List ℕ) → IsMarkOf line mark.now
            → IfOk result (λ begun. IsGrown line no_texts begun.record) }
    {
        match mark {
            Mark::Code(code) => OpenRecord::new(alloc, line, &Heading::of_code(*code), false),
            Mark::Attribute { lines, text, .. } => {
                let heading = Heading::of_code(Code::AccessRequest);
                let mut begun = OpenRecord::new(alloc, line, &heading, true)?;
                begun.add(alloc, *lines, text)?;
                Ok(begun)
            }
            _ => OpenRecord::new(alloc, line, &Heading::of_code(Code::Other), false),
        }
    }

    fn has_key(&self, key: &Key<'_>) -> bool
        ensures { result ≡ has_key key.now self.now }
    {
        self.number.as_slice() == key.number
            && self.client.as_slice() == key.client
            && self.server.as_slice() == key.server
    }

    /// Whether a line belongs to it.
    pub(crate) fn belongs_to(&self, owner: &Owner<'_>) -> bool
        ensures { result ≡ belongs_to owner.now self.now }
    {
        !self.is_done
            && match owner {
                Owner::Current => self.part != Part::Nothing,
                Owner::Keyed(key) => self.has_key(key),
                Owner::Identified(number) => self.number.as_slice() == *number,
            }
    }

    pub(crate) fn is_done(&self) -> bool
        ensures { result ≡ self.now.is_done }
    {
        self.is_done
    }

    /// The packet that was being read is over; with the reply the record is, unless its type is still to be told.
    pub(crate) fn pause(&mut self, awaits_code: bool)
        ensures { KeepsTexts self.old.record self.new.record }
    {
        self.is_done = self.is_done || (self.part == Part::Reply && !awaits_code);
        self.part = Part::Nothing;
    }

    /// No more lines come.
    pub(crate) fn finish(&mut self)
        ensures { KeepsTexts self.old.record self.new.record }
    {
        self.is_done = true;
        self.part = Part::Nothing;
    }

    /// A line says the type of the request.
    pub(crate) fn set_code(&mut self, code: Code)
        ensures { KeepsTexts self.old.record self.new.record }
    {
        self.guesses_code = false;
        self.record.code = code;
    }

    /// A line says the type of the reply, after which no more lines come.
    pub(crate) fn set_reply_code(&mut self, code: Code)
        ensures { KeepsTexts self.old.record self.new.record }
    {
        if let Some(reply) = &mut self.record.reply {
            reply.code = code;
        }
        self.finish();
    }

    /// A line says where the request came from.
    pub(crate) fn set_source(&mut self, address: &[u8]) -> Result<(), AllocError>
        ensures { OnOk result (KeepsTexts self.old.record self.new.record) }
    {
        let alloc = *self.number.allocator();
        self.record.source = Some(Vec::from_slice(alloc, address)?);
        Ok(())
    }

    /// The reply begins. Only the first one is kept.
    pub(crate) fn begin_reply(&mut self, alloc: Global, code: Code)
        ensures { KeepsTexts self.old.record self.new.record }
    {
        if self.record.reply.is_some() {
            self.part = Part::Nothing;
        } else {
            self.part = Part::Reply;
            self.record.reply = Some(Reply {
                code,
                lines: Vec::new(alloc),
            });
        }
    }

    // Leaves out all lines.
    #[tactic(auto, unfolding(crate::specs::Growth::IsGrown))]
    fn give_up(&mut self, alloc: Global)
        ensures { (line : List ℕ) → IsGrown line (texts_of self.old.record) self.new.record }
    {
        self.record.request = Vec::new(alloc);
        if let Some(reply) = &mut self.record.reply {
            reply.lines = Vec::new(alloc);
        }
        self.record.initial_reply = Vec::new(alloc);
        self.record.initial_control = Vec::new(alloc);
        self.record.is_too_long = true;
    }

    // Whether a record may have this line too.
    fn has_room(&self, text: &[u8]) -> bool {
        self.lines < MAX_LINES && text.len() < MAX_OCTETS.saturating_sub(self.octets)
    }

    // Counts a line; one that begins an accounting session tells what the packet is, where nothing else does.
    fn count(&mut self, text: &[u8])
        ensures { KeepsTexts self.old.record self.new.record }
    {
        self.lines = self.lines.saturating_add(1);
        self.octets = self.octets.saturating_add(text.len()).saturating_add(1);
        if self.guesses_code && is(name_of(text), "Acct-Status-Type") {
            self.record.code = Code::AccountingRequest;
        }
    }

    /// Adds a line, if one of its packets is being read.
    pub(crate) fn add(&mut self, alloc: Global, lines: Lines, text: &[u8]) -> Result<(), AllocError>
        ensures { (line : List ℕ) → IsEndOf line text.now
            → OnOk result (IsGrown line (texts_of self.old.record) self.new.record) }
    {
        if self.part == Part::Nothing || self.record.is_too_long {
            return Ok(());
        }
        if !self.has_room(text) {
            self.give_up(alloc);
            return Ok(());
        }
        self.count(text);
        let is_request = self.part == Part::Request;
        self.record.push(lines, is_request, text)
    }

    /// What was read.
    pub(crate) fn into_record(self) -> Record
        ensures { result ≡ self.record }
    {
        self.record
    }
}
