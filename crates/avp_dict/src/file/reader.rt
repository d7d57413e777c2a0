//! The lines of a file set, read one after the other.

ghost use Rattle.std.specs.Prelude.{◌≡◌, ◌∷◌, ◌++◌, ◌+◌, ◌<◌, ◌≤◌, ◌^◌, [], Err, None, List, OnOk, IfOk, IfErr, length};
ghost use Rattle.avp_lists.specs.Meets.{Meets, Unless};
ghost use Rattle.avp_dict.specs.Blocks.{innermost};
ghost use Rattle.avp_dict.specs.DictionaryReading.{read_dictionary, settled_dictionary, unless_open};
ghost use Rattle.avp_dict.specs.Lines.{Line as SetLine, file_included, lines_in};
ghost use Rattle.avp_dict.specs.Meanings.{Reading as SetReading, context_of};
ghost use Rattle.avp_dict.specs.Readings.{read_line, read_lines, within};
ghost use Rattle.avp_dict.specs.Words.{words_of};
ghost use Rattle.avp_dict.specs.internal.Agreeing.{IsAgreeing, without_names};
ghost use Rattle.avp_dict.specs.internal.LineViews.{line_view};
ghost use Rattle.avp_dict.specs.internal.Meanings.{context_view, read_view, reading_views};
ghost use Rattle.avp_dict.specs.internal.Refused.{is_memory_refusal, is_memory_word};
ghost use Rattle.avp_dict.specs.internal.Views.{views};

use crate::faults::{DictKind, RefusedLine, RefusedWord};
use crate::file::context::{Context, innermost};
use crate::file::files::NamedFile;
use crate::file::lines::{Line, MAX_LEVELS, octets_at, place_included};
use crate::file::meanings::{Meaning, Reading};
use crate::file::readings::read_words;
use crate::file::words::replace_words;
use std::alloc::{AllocError, Global};

// Lines and ATTRIBUTE lines for which there is room from the first on: as many as FreeRADIUS's own dictionaries have by
// their octets, but no more than those have in all.
const OCTETS_A_LINE: usize = 48;

const OCTETS_AN_ATTRIBUTE: usize = 128;

const MOST_LINES: usize = 32_768;

const MOST_ATTRIBUTES: usize = 8_192;

/// Lines as they were read, and what they leave for the next one.
#[derive(Drop)]
pub struct ReadLines<'a> {
    pub readings: Vec<Reading<'a>>,
    pub context: Context<'a>,
}

impl<'a> ReadLines<'a> {
    /// No line yet, and room for those that so many octets mostly are.
    pub(crate) fn for_octets(alloc: Global, octets: usize) -> Result<ReadLines<'a>, AllocError>
        ensures read { IfOk result (λ read. reading_views read.readings.items ≡ []) }
        ensures tracked { IfOk result (λ read. context_view read.context ≡ context_of []) }
    {
        let attributes = (octets / OCTETS_AN_ATTRIBUTE).min(MOST_ATTRIBUTES);
        let context = Context::with_capacity(alloc, attributes)?;
        let lines = (octets / OCTETS_A_LINE).min(MOST_LINES);
        let readings = Vec::with_capacity(alloc, lines)?;
        Ok(ReadLines { readings, context })
    }

    // What one line more is read as, whose words these are, without the names of attributes; so many lines are read.
    #[tactic(auto, unfolding(crate::specs::Readings::read_line))]
    fn read_one(
        &self,
        alloc: Global,
        files: &[NamedFile],
        limit: usize,
        line: Line<'a>,
        words: &[&'a [u8]],
        included: Option<usize>,
    ) -> Result<Meaning<'a>, RefusedWord>
        requires words { views words.now ≡ words_of line.text.now }
        requires included { included ≡ file_included files.now line.text.now }
        requires agreeing { IsAgreeing (context_view self.now.context) }
        ensures { Meets is_memory_word (read_view result)
            (within limit (reading_views self.now.readings.items) (read_line files.now
            (without_names (context_view self.now.context)) (line_view line.entry))) }
    {
        if self.readings.len() >= limit {
            return Err(DictKind::TooLong.at_word(0));
        }
        read_words(alloc, &self.context, included, line.depth, words)
    }

    // Reads one line more.
    fn read_next(
        &mut self,
        alloc: Global,
        files: &[NamedFile],
        limit: usize,
        line: Line<'a>,
        words: &[&'a [u8]],
        included: Option<usize>,
    ) -> Result<(), RefusedLine>
        requires tracked { context_view self.old.context
            ≡ context_of (reading_views self.old.readings.items) }
        requires agreeing { IsAgreeing (context_view self.old.context) }
        requires words { views words.now ≡ words_of line.text.now }
        requires included { included ≡ file_included files.now line.text.now }
        requires room { length self.old.readings.items ≤ limit }
        ensures tracked { OnOk result (context_view self.new.context
            ≡ context_of (reading_views self.new.readings.items)) }
        ensures agreeing { OnOk result (IsAgreeing (context_view self.new.context)) }
        ensures room { OnOk result (length self.new.readings.items ≤ limit) }
        ensures longer { OnOk result (length self.new.readings.items
            ≡ length self.old.readings.items + 1) }
        ensures step { (ls : List SetLine)
            → OnOk result (read_lines limit files.now (reading_views self.old.readings.items)
            (line_view line.entry ∷ ls) ≡ read_lines limit files.now
            (reading_views self.new.readings.items) ls) }
        ensures refused { (ls : List SetLine)
            → IfErr result (λ refused. Unless (is_memory_refusal refused)
            (read_lines limit files.now (reading_views self.old.readings.items)
            (line_view line.entry ∷ ls) ≡ Err refused)) }
    {
        match self.read_one(alloc, files, limit, line, words, included) {
            Ok(meaning) => {
                let reading = Reading {
                    file: line.file,
                    line: line.number,
                    meaning,
                };
                if let Err(refused) = self.context.add(alloc, reading) {
                    return Err(refused.at_line(line.file, line.number));
                }
                self.readings.push(reading)?;
                Ok(())
            }
            Err(refused) => Err(refused.at_line(line.file, line.number)),
        }
    }

    // Reads the lines of a file, each followed by those of the file that it includes.
    fn read_file(
        &mut self,
        alloc: Global,
        files: &'a [NamedFile],
        limit: usize,
        levels: usize,
        place: usize,
    ) -> Result<(), RefusedLine>
        requires levels { levels ≤ MAX_LEVELS }
        requires limit { limit < 2 ^ 32 }
        requires tracked { context_view self.old.context
            ≡ context_of (reading_views self.old.readings.items) }
        requires agreeing { IsAgreeing (context_view self.old.context) }
        requires room { length self.old.readings.items ≤ limit }
        ensures tracked { OnOk result (context_view self.new.context
            ≡ context_of (reading_views self.new.readings.items)) }
        ensures agreeing { OnOk result (IsAgreeing (context_view self.new.context)) }
        ensures room { OnOk result (length self.new.readings.items ≤ limit) }
        ensures longer { OnOk result (length self.old.readings.items
            ≤ length self.new.readings.items) }
        ensures step { (ls : List SetLine)
            → OnOk result (read_lines limit files.now (reading_views self.old.readings.items)
            (lines_in files.now levels place ++ ls)
            ≡ read_lines limit files.now (reading_views self.new.readings.items) ls) }
        ensures refused { (ls : List SetLine)
            → IfErr result (λ refused. Unless (is_memory_refusal refused)
            (read_lines limit files.now (reading_views self.old.readings.items)
            (lines_in files.now levels place ++ ls) ≡ Err refused)) }
    {
        if levels == 0 {
            return Ok(());
        }
        let depth = MAX_LEVELS - levels;
        let mut rest = octets_at(files, place);
        let mut number = 1;
        let mut words = Vec::new(alloc);
        while !rest.is_empty() {
            let (text, after) = replace_words(&mut words, rest)?;
            let included = place_included(files, &words);
            let line = Line {
                file: place,
                number,
                depth,
                text,
            };
            self.read_next(alloc, files, limit, line, &words, included)?;
            if let Some(below) = included {
                self.read_file(alloc, files, limit, levels - 1, below)?;
            }
            number += 1;
            rest = after;
        }
        Ok(())
    }
}

// Refuses the last of the lines that opened blocks.
fn refuse_open(opened: &[Reading<'_>]) -> Result<(), RefusedLine>
    ensures closed { OnOk result (innermost (reading_views opened.now) ≡ None) }
    ensures left { (all : List SetReading)
        → IfErr result (λ refused. unless_open (innermost (reading_views opened.now)) all
        ≡ Err refused) }
{
    match innermost(opened) {
        Some(reading) => Err(
            DictKind::Unmatched
                .at_word(1)
                .at_line(reading.file, reading.line),
        ),
        None => Ok(()),
    }
}

/// Reads the lines of the set, so many at most, up to the first that is refused, and refuses a block left open.
pub(crate) fn read_set<'a>(
    alloc: Global,
    files: &'a [NamedFile],
    limit: usize,
    read: &mut ReadLines<'a>,
) -> Result<(), RefusedLine>
    requires limit { limit < 2 ^ 32 }
    requires read { reading_views read.old.readings.items ≡ [] }
    requires tracked { context_view read.old.context ≡ context_of [] }
    ensures tracked { OnOk result (context_view read.new.context
        ≡ context_of (reading_views read.new.readings.items)) }
    ensures read { OnOk result (read_dictionary limit files.now
        ≡ settled_dictionary (reading_views read.new.readings.items)) }
    ensures refused { IfErr result (λ refused.
        Unless (is_memory_refusal refused) (read_dictionary limit files.now ≡ Err refused)) }
{
    read.read_file(alloc, files, limit, MAX_LEVELS, 0)?;
    refuse_open(&read.context.opened)?;
    Ok(())
}
