//! The items of a file.

ghost use Rattle.std.specs.Prelude.{◌≡◌, ◌+◌, ◌≤◌, ◌<◌, ◌^◌, ℕ, List, length, IfOk, IfErr, OnOk};
ghost use Rattle.server_configuration.specs.Places.{AreNested, AreOnLines, BeginWithin, HasLine, IsSectionOf, line_feeds};
ghost use Rattle.server_configuration.specs.declared.sources.SourceFile.{SourceFile as Source};
ghost use Rattle.server_configuration.specs.internal.Statements.{AreWithin, Grows};

use crate::cursors::Cursor;
use crate::faults::{Fault, FaultKind};
use crate::items::{Content, Item};
use crate::statements::{Placed, Statement, read_statement};
use std::alloc::Global;
use std::collections::VecDeque;

/// The longest file, in octets.
pub const MAX_OCTETS: usize = 4_194_304;

/// The most items of a file.
pub const MAX_ITEMS: usize = 1_000_000;

/// Where statements are added: in a file, the section that is open there, and the one that is open throughout it.
#[derive(Clone, Copy)]
pub(crate) struct Spot {
    pub(crate) file: usize,
    pub(crate) section: Option<usize>,
    pub(crate) outer: Option<usize>,
}

// Adds an item, and gives the section that is open after it.
#[tactic(auto, using(crate::proofs::Lines::begin_with_one, crate::proofs::Lines::on_lines_with_one, crate::proofs::Nesting::nested_with_one, crate::proofs::Nesting::new_section, crate::proofs::Nesting::section_stays,))]
fn add_item(
    items: &mut Vec<Item>,
    spot: Spot,
    line: usize,
    content: Content,
) -> Result<Option<usize>, Fault>
    requires { length items.old.items < MAX_ITEMS }
    ensures within { (lines : ℕ) → 1 ≤ line → line ≤ lines → BeginWithin lines items.old.items
        → OnOk result (BeginWithin lines items.new.items) }
    ensures lines { (files : List Source) → HasLine files spot.file line
        → AreOnLines files items.old.items → AreOnLines files items.new.items }
    ensures nested { AreNested items.old.items → IsSectionOf items.old.items spot.section
        → AreNested items.new.items }
    ensures open { IsSectionOf items.old.items spot.section
        → IfOk result (IsSectionOf items.new.items) }
    ensures grows { Grows items.old.items items.new.items }
    ensures count { length items.new.items ≤ MAX_ITEMS }
    ensures refused { IfErr result (λ fault. fault.line ≡ 0) }
{
    let place = items.len();
    let open = if content.is_section() {
        Some(place)
    } else {
        spot.section
    };
    items.push(Item {
        file: spot.file,
        line,
        section: spot.section,
        content,
    })?;
    Ok(open)
}

/// Adds the statement on a line to the items, and gives the section that is open after it.
#[tactic(auto, using(crate::proofs::Nesting::section_of_item))]
pub(crate) fn add_statement(
    items: &mut Vec<Item>,
    spot: Spot,
    line: usize,
    statement: Statement,
) -> Result<Option<usize>, Fault>
    requires { length items.old.items ≤ MAX_ITEMS }
    ensures within { (lines : ℕ) → 1 ≤ line → line ≤ lines → BeginWithin lines items.old.items
        → OnOk result (BeginWithin lines items.new.items) }
    ensures lines { (files : List Source) → HasLine files spot.file line
        → AreOnLines files items.old.items → AreOnLines files items.new.items }
    ensures nested { AreNested items.old.items → IsSectionOf items.old.items spot.section
        → AreNested items.new.items }
    ensures open { AreNested items.old.items → IsSectionOf items.old.items spot.section
        → IfOk result (IsSectionOf items.new.items) }
    ensures grows { Grows items.old.items items.new.items }
    ensures count { length items.new.items ≤ MAX_ITEMS }
    ensures refused { IfErr result (λ fault. fault.line ≤ line) }
{
    match statement {
        Statement::Close => {
            if spot.section == spot.outer {
                return Err(Fault {
                    line,
                    kind: FaultKind::ExtraBrace,
                });
            }
            Ok(section_of(items, spot.section))
        }
        Statement::Item(content) => {
            let place = items.len();
            if place == MAX_ITEMS {
                return Err(Fault {
                    line,
                    kind: FaultKind::TooManyItems,
                });
            }
            add_item(items, spot, line, content)
        }
    }
}

// The section that holds a section.
fn section_of(items: &[Item], section: Option<usize>) -> Option<usize>
    ensures { AreNested items.now → IsSectionOf items.now result }
{
    items.get(section?)?.section
}

// That no section is open at the end, which is on this line.
fn closed(items: Vec<Item>, section: Option<usize>, end: usize) -> Result<Vec<Item>, Fault>
    ensures read { IfOk result (λ read. read.items ≡ items.items) }
    ensures refused { (lines : ℕ) → BeginWithin lines items.items
        → IfErr result (λ fault. fault.line ≤ lines) }
{
    match section {
        None => Ok(items),
        Some(place) => Err(Fault {
            line: line_of(&items, place),
            kind: FaultKind::OpenSection { end },
        }),
    }
}

fn line_of(items: &[Item], place: usize) -> usize
    ensures { (lines : ℕ) → BeginWithin lines items.now → result ≤ lines }
{
    match items.get(place) {
        Some(item) => item.line,
        None => 0,
    }
}

/// The statements of a file, at most so many.
#[tactic(auto, using(crate::proofs::Lines::within_with_one))]
pub(crate) fn read_statements(
    alloc: Global,
    octets: &[u8],
    limit: usize,
) -> Result<VecDeque<Placed>, Fault>
    requires { length octets.now < 2 ^ 32 }
    ensures read { IfOk result (λ read.
        AreWithin (1 + line_feeds octets.now) read.items) }
    ensures refused { IfErr result (λ fault. fault.line ≤ 1 + line_feeds octets.now) }
{
    let mut cursor = Cursor::new(octets);
    let mut statements = VecDeque::new(alloc);
    cursor.skip_lines();
    while cursor.left() > 0 {
        let line = cursor.line();
        if statements.len() >= limit {
            return Err(Fault {
                line,
                kind: FaultKind::TooManyItems,
            });
        }
        let statement = read_statement(alloc, &mut cursor)?;
        statements.push_back(Placed { line, statement })?;
        cursor.skip_lines();
    }
    Ok(statements)
}

/// The items of a file that holds these octets, in their order: a section comes before the items that it holds.
/// Sections may be nested as deep as the file is long.
pub fn read_items(alloc: Global, octets: &[u8]) -> Result<Vec<Item>, Fault>
    ensures within { IfOk result (λ items. BeginWithin (1 + line_feeds octets.now) items.items) }
    ensures count { IfOk result (λ items. length items.items ≤ MAX_ITEMS) }
    ensures nested { IfOk result (λ items. AreNested items.items) }
    ensures refused { IfErr result (λ fault. fault.line ≤ 1 + line_feeds octets.now) }
{
    if octets.len() > MAX_OCTETS {
        return Err(Fault {
            line: 0,
            kind: FaultKind::TooLong,
        });
    }
    let mut cursor = Cursor::new(octets);
    let mut items = Vec::new(alloc);
    let mut spot = Spot {
        file: 0,
        section: None,
        outer: None,
    };
    cursor.skip_lines();
    while cursor.left() > 0 {
        let line = cursor.line();
        let statement = read_statement(alloc, &mut cursor)?;
        spot.section = add_statement(&mut items, spot, line, statement)?;
        cursor.skip_lines();
    }
    closed(items, spot.section, cursor.line())
}
