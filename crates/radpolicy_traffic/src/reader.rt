//! Records of a text that is given a line at a time.

ghost use Rattle.std.specs.Prelude.{◌≡◌, ◌+◌, ◌≤◌, ◌<◌, ℕ, List, IfOk, IfNone, IfSome, OnOk, length, option_to_list, vec_len};
ghost use Rattle.std.specs.List.{All, Any, Contains, position};
ghost use Rattle.radpolicy_traffic.specs.Lines.{IsEndOf};
ghost use Rattle.radpolicy_traffic.specs.internal.Owners.{belongs_to};
ghost use Rattle.radpolicy_traffic.specs.internal.Marks.{IsMarkOf};

use crate::formats::Format;
use crate::headings::Heading;
use crate::marks::{Lines, Mark, Owner, mark_of, receiving_server};
use crate::open_records::OpenRecord;
use crate::records::{Code, Record};
use std::alloc::{AllocError, Global};

/// How many requests wait for their replies at most.
pub const MAX_OPEN: usize = 256;

/// Joins requests and their replies. Lines are given one after another, without their LF. A record comes out when it is
/// whole, and a request without a reply when it is over by what is printed, when it is the oldest of too many, or at
/// the end. Without memory a record may be cut or missing: do not use the reader any more.
#[derive(Drop)]
pub struct Reader {
    format: Format,
    // Of a log with requests out of tunnels, the virtual server to which these go.
    server: Vec<u8>,
    // In the order in which the requests begin.
    records: Vec<OpenRecord>,
    // How many lines were given.
    lines: usize,
    ghost bounded: { vec_len records ≤ 256 },
}

fn place_of(records: &[OpenRecord], owner: &Owner<'_>) -> Option<usize>
    ensures value { result ≡ position (λ one. belongs_to owner.now one) records.now }
    ensures bound { IfSome result (λ place. place < length records.now) }
{
    records.iter().position(|record| record.belongs_to(owner))
}

// The one that is given out next: the first that is done, or the first of too many.
fn next_place(records: &[OpenRecord], limit: usize) -> Option<usize>
    requires { 1 ≤ limit }
    ensures place { IfSome result (λ place. place < length records.now) }
    ensures full { IfNone result (length records.now < limit) }
{
    let done = records.iter().position(|record| record.is_done());
    if done.is_none() && records.len() >= limit {
        Some(0)
    } else {
        done
    }
}

impl Reader {
    ghost use Rattle.radpolicy_traffic.specs.Growth.{AreFrom, IsFrom, IsGrown, no_texts, texts_of};
    ghost use Rattle.radpolicy_traffic.specs.declared.open_records.OpenRecord.{OpenRecord as AnOpenRecord};

    /// A reader of a format, before the first line.
    pub fn new(alloc: Global, format: Format) -> Reader
        ensures { vec_len result.records ≡ 0 }
    {
        Reader {
            format,
            server: Vec::new(alloc),
            records: Vec::new(alloc),
            lines: 0,
        }
    }

    /// A reader of a server's log, of the requests out of tunnels that go to a virtual server.
    pub fn of_server(alloc: Global, server: &[u8]) -> Result<Reader, AllocError>
        ensures { IfOk result (λ reader. vec_len reader.records ≡ 0) }
    {
        Ok(Reader {
            format: Format::InnerLog,
            server: Vec::from_slice(alloc, server)?,
            records: Vec::new(alloc),
            lines: 0,
        })
    }

    // Takes out the one that is given out next, where there are so many.
    fn take(&mut self, limit: usize) -> Option<Record>
        requires { 1 ≤ limit }
        ensures count { vec_len self.new.records + length (option_to_list result) ≡ vec_len self.old.records }
        ensures room { vec_len self.old.records ≤ limit → vec_len self.new.records < limit }
        ensures none { IfNone result (vec_len self.new.records < limit) }
        ensures held { All (Contains self.old.records.items) self.new.records.items }
        ensures taken { IfSome result (λ taken.
            Any (λ begun. begun.record ≡ taken) self.old.records.items) }
    {
        let place = next_place(&self.records, limit)?;
        let begun = self.records.remove(place);
        Some(begun.into_record())
    }

    // The packet that was being read is over.
    fn pause(&mut self, owner: &Owner<'_>)
        ensures count { vec_len self.new.records ≡ vec_len self.old.records }
        ensures held { (line : List ℕ) (olds : List AnOpenRecord)
            → AreFrom line olds self.old.records.items → AreFrom line olds self.new.records.items }
    {
        let awaits_code = self.format == Format::InnerLog;
        if let Some(place) = place_of(&self.records, owner) {
            self.records[place].pause(awaits_code);
        }
    }

    // The type of the reply that was read.
    fn set_reply_code(&mut self, owner: &Owner<'_>, code: Code)
        ensures count { vec_len self.new.records ≡ vec_len self.old.records }
        ensures held { (line : List ℕ) (olds : List AnOpenRecord)
            → AreFrom line olds self.old.records.items → AreFrom line olds self.new.records.items }
    {
        if let Some(place) = place_of(&self.records, owner) {
            self.records[place].set_reply_code(code);
        }
    }

    // What is said of another packet ends the one that was being read, but in a log, whose lines have numbers.
    fn pause_current(&mut self)
        ensures count { vec_len self.new.records ≡ vec_len self.old.records }
        ensures held { (line : List ℕ) (olds : List AnOpenRecord)
            → AreFrom line olds self.old.records.items → AreFrom line olds self.new.records.items }
    {
        if !matches!(self.format, Format::DebugLog | Format::InnerLog) {
            self.pause(&Owner::Current);
        }
    }

    // The request is over.
    fn finish(&mut self, owner: &Owner<'_>)
        ensures count { vec_len self.new.records ≡ vec_len self.old.records }
        ensures held { (line : List ℕ) (olds : List AnOpenRecord)
            → AreFrom line olds self.old.records.items → AreFrom line olds self.new.records.items }
    {
        if let Some(place) = place_of(&self.records, owner) {
            self.records[place].finish();
        }
    }

    // A line says that a request is over.
    fn end_request(&mut self, owner: &Owner<'_>)
        ensures count { vec_len self.new.records ≡ vec_len self.old.records }
        ensures held { (line : List ℕ) (olds : List AnOpenRecord)
            → AreFrom line olds self.old.records.items → AreFrom line olds self.new.records.items }
    {
        match owner {
            Owner::Current => self.finish(owner),
            Owner::Keyed(_) | Owner::Identified(_) => {
                self.pause_current();
                self.finish(owner);
            }
        }
    }

    // The reply to a request begins.
    fn answer(&mut self, alloc: Global, heading: &Heading<'_>)
        ensures count { vec_len self.new.records ≡ vec_len self.old.records }
        ensures held { (line : List ℕ) (olds : List AnOpenRecord)
            → AreFrom line olds self.old.records.items → AreFrom line olds self.new.records.items }
    {
        if let Some(place) = place_of(&self.records, &Owner::Keyed(heading.key)) {
            self.records[place].begin_reply(alloc, heading.code);
        }
    }

    // The type of the packet that is being read.
    fn set_code(&mut self, code: Code)
        ensures count { vec_len self.new.records ≡ vec_len self.old.records }
        ensures held { (line : List ℕ) (olds : List AnOpenRecord)
            → AreFrom line olds self.old.records.items → AreFrom line olds self.new.records.items }
    {
        if let Some(place) = place_of(&self.records, &Owner::Current) {
            self.records[place].set_code(code);
        }
    }

    // The address that the packet came from.
    fn set_source(&mut self, address: &[u8]) -> Result<(), AllocError>
        ensures count { vec_len self.new.records ≡ vec_len self.old.records }
        ensures held { (line : List ℕ) (olds : List AnOpenRecord)
            → AreFrom line olds self.old.records.items
            → OnOk result (AreFrom line olds self.new.records.items) }
    {
        match place_of(&self.records, &Owner::Current) {
            Some(place) => self.records[place].set_source(address),
            None => Ok(()),
        }
    }

    // Adds an attribute.
    fn add(
        &mut self,
        alloc: Global,
        owner: &Owner<'_>,
        lines: Lines,
        text: &[u8],
    ) -> Result<(), AllocError>
        ensures count { vec_len self.new.records ≡ vec_len self.old.records }
        ensures held { (line : List ℕ) → IsEndOf line text.now
            → OnOk result (AreFrom line self.old.records.items self.new.records.items) }
    {
        match place_of(&self.records, owner) {
            Some(place) => self.records[place].add(alloc, lines, text),
            None => Ok(()),
        }
    }

    // A request that is sent again is not read again. One of another with the same key ends that.
    fn is_again(&mut self, heading: &Heading<'_>) -> bool
        ensures count { vec_len self.new.records ≡ vec_len self.old.records }
        ensures held { (line : List ℕ) (olds : List AnOpenRecord)
            → AreFrom line olds self.old.records.items → AreFrom line olds self.new.records.items }
    {
        self.pause_current();
        if heading.is_again {
            return true;
        }
        let owner = Owner::Keyed(heading.key);
        if self.format == Format::Radclient && place_of(&self.records, &owner).is_some() {
            return true;
        }
        self.finish(&owner);
        false
    }

    // Adds a record, and takes out the one that is given out next.
    fn push(&mut self, begun: OpenRecord) -> Result<Option<Record>, AllocError>
        ensures count { IfOk result (λ taken. vec_len self.old.records
            ≤ vec_len self.new.records + length (option_to_list taken)) }
        ensures held { (line : List ℕ) (olds : List AnOpenRecord)
            → AreFrom line olds self.old.records.items → IsFrom line olds begun.record
            → OnOk result (AreFrom line olds self.new.records.items) }
        ensures taken { (line : List ℕ) (olds : List AnOpenRecord)
            → AreFrom line olds self.old.records.items
            → IfOk result (λ taken. IfSome taken (IsFrom line olds)) }
    {
        let record = self.take(MAX_OPEN);
        self.records.push(begun)?;
        Ok(record)
    }

    // A request begins.
    fn begin(&mut self, alloc: Global, heading: &Heading<'_>) -> Result<Option<Record>, AllocError>
        ensures count { IfOk result (λ taken. vec_len self.old.records
            ≤ vec_len self.new.records + length (option_to_list taken)) }
        ensures held { (line : List ℕ) (olds : List AnOpenRecord)
            → AreFrom line olds self.old.records.items
            → OnOk result (AreFrom line olds self.new.records.items) }
        ensures taken { (line : List ℕ) (olds : List AnOpenRecord)
            → AreFrom line olds self.old.records.items
            → IfOk result (λ taken. IfSome taken (IsFrom line olds)) }
    {
        if self.is_again(heading) {
            return Ok(self.take(MAX_OPEN + 1));
        }
        let begun = OpenRecord::new(alloc, self.lines, heading, false)?;
        self.push(begun)
    }

    // Whether a line begins a request to another virtual server.
    fn is_of_another(&self, line: &[u8]) -> bool {
        self.format == Format::InnerLog
            && receiving_server(line).is_some_and(|name| name != self.server.as_slice())
    }

    // What a line is to this reader: a request to another virtual server ends what its number has before it.
    fn mark_of<'b>(&self, line: &'b [u8]) -> Mark<'b>
        ensures { IsMarkOf line.now result }
    {
        match mark_of(self.format, line) {
            Mark::Request(heading) if self.is_of_another(line) => {
                Mark::End(Owner::Keyed(heading.key))
            }
            mark => mark,
        }
    }

    // Whether a record begins that no line announces.
    fn begins_unannounced(&self, mark: &Mark<'_>) -> bool {
        self.format == Format::Records
            && place_of(&self.records, &Owner::Current).is_none()
            && matches!(mark, Mark::Attribute { .. } | Mark::Code(_))
    }

    // Takes what a line is, within a request.
    fn take_mark(&mut self, alloc: Global, mark: &Mark<'_>) -> Result<(), AllocError>
        ensures count { vec_len self.new.records ≡ vec_len self.old.records }
        ensures held { (line : List ℕ) → IsMarkOf line mark.now
            → OnOk result (AreFrom line self.old.records.items self.new.records.items) }
    {
        match mark {
            Mark::Reply(heading) => {
                self.pause_current();
                self.answer(alloc, heading);
                Ok(())
            }
            Mark::Attribute { owner, lines, text } => self.add(alloc, owner, *lines, text),
            Mark::Code(code) => {
                self.set_code(*code);
                Ok(())
            }
            Mark::Answered(owner, code) => {
                self.set_reply_code(owner, *code);
                Ok(())
            }
            Mark::Source(address) => self.set_source(address),
            Mark::Pause(owner) => {
                self.pause(owner);
                Ok(())
            }
            Mark::End(owner) => {
                self.end_request(owner);
                Ok(())
            }
            Mark::Request(_) | Mark::Nothing => Ok(()),
        }
    }

    /// Takes the next line.
    pub fn line(&mut self, line: &[u8]) -> Result<Option<Record>, AllocError>
        ensures kept { IfOk result (λ taken. vec_len self.old.records
            ≤ vec_len self.new.records + length (option_to_list taken)) }
        ensures held { OnOk result (AreFrom line.now self.old.records.items self.new.records.items) }
        ensures taken { IfOk result (λ taken.
            IfSome taken (IsFrom line.now self.old.records.items)) }
    {
        let alloc = *self.records.allocator();
        self.lines = self.lines.saturating_add(1);
        let mark = self.mark_of(line);
        if let Mark::Request(heading) = &mark {
            return self.begin(alloc, heading);
        }
        if self.begins_unannounced(&mark) {
            let begun = OpenRecord::with_mark(alloc, self.lines, &mark)?;
            return self.push(begun);
        }
        self.take_mark(alloc, &mark)?;
        Ok(self.take(MAX_OPEN + 1))
    }

    /// After the last line, the next of the records that are left.
    pub fn end(&mut self) -> Option<Record>
        ensures count { vec_len self.new.records + length (option_to_list result)
            ≡ vec_len self.old.records }
        ensures none { IfNone result (vec_len self.new.records ≡ 0) }
        ensures held { All (Contains self.old.records.items) self.new.records.items }
        ensures taken { IfSome result (λ taken.
            Any (λ begun. begun.record ≡ taken) self.old.records.items) }
    {
        self.take(1)
    }
}
