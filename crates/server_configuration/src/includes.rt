//! Follows includes.

ghost use Rattle.std.specs.Prelude.{◌≡◌, ◌+◌, ◌-◌, ◌≤◌, ◌<◌, List, length, IfOk, IfErr, IfSome, OnOk};
ghost use Rattle.server_configuration.specs.Files.{octets_in};
ghost use Rattle.server_configuration.specs.Places.{AreOnLines, HasLine, IsSectionOf};
ghost use Rattle.server_configuration.specs.declared.sources.SourceFile.{SourceFile as Source};
ghost use Rattle.server_configuration.specs.internal.Readings.{IsIncludeIn, IsOpenIn, IsReading, IsTaskIn};
ghost use Rattle.server_configuration.specs.declared.items.Item.{Item as AnItem};
ghost use Rattle.server_configuration.specs.internal.Refusals.{IsPlaced};

use crate::configurations::first_folder;
use crate::cursors::line_feeds;
use crate::faults::{FaultKind, Refusal};
use crate::items::{Content, Item};
use crate::paths::{beside, is_folder, is_included_name, joined};
use crate::reader::{MAX_ITEMS, MAX_OCTETS, Spot, add_statement, read_statements};
use crate::references::{ReferenceFaultKind, Scope, resolved};
use crate::sources::{Files, SourceFile, Unread};
use crate::statements::Placed;
use std::alloc::Global;
use std::collections::VecDeque;

/// The most files of a configuration.
pub const MAX_FILES: usize = 4_096;

/// The most octets of all files of a configuration.
pub const MAX_CONFIGURATION_OCTETS: usize = 16_777_216;

/// How deep includes may be.
pub const MAX_DEPTH: usize = 32;

// How often a file is begun, or gone on with after an include: enough for as many includes as files.
const MAX_STEPS: usize = 4 * MAX_FILES;

/// A file that a line includes.
#[derive(Drop)]
pub(crate) struct Include {
    path: Vec<u8>,
    // The place of the include: its file, its line and its section.
    file: usize,
    line: usize,
    section: Option<usize>,
    // How many includes lead to what is included.
    depth: usize,
    optional: bool,
}

/// A file whose statements are not all among the items yet.
#[derive(Drop)]
pub(crate) struct OpenFile {
    file: usize,
    statements: VecDeque<Placed>,
    section: Option<usize>,
    outer: Option<usize>,
}

/// What is left to do, the next one last.
#[derive(Drop)]
pub(crate) enum Task {
    Open(Include),
    Read(OpenFile),
}

#[derive(Drop)]
pub(crate) struct Reading {
    pub(crate) files: Vec<SourceFile>,
    pub(crate) items: Vec<Item>,
    tasks: Vec<Task>,
    // How many statements may still be read.
    statements: usize,
}

impl Include {
    fn refused(&self, kind: FaultKind) -> Refusal
        ensures { (files : List Source) → HasLine files self.now.file self.now.line
            → IsPlaced files result }
    {
        match kind {
            FaultKind::Memory => Refusal::Memory,
            kind => Refusal::At {
                file: self.file,
                line: self.line,
                kind,
            },
        }
    }

    // What it leads to is not read.
    fn unread(&self, alloc: Global, unread: Unread) -> Refusal
        ensures { (files : List Source) → HasLine files self.now.file self.now.line
            → IsPlaced files result }
    {
        match Vec::from_slice(alloc, &self.path) {
            Ok(path) if unread != Unread::Memory => Refusal::Unread {
                file: self.file,
                line: self.line,
                kind: kind_of(unread),
                path,
            },
            _ => Refusal::Memory,
        }
    }
}

impl Task {
    // The step at which it would be taken is one too many.
    fn too_many(&self) -> Refusal
        ensures { (files : List Source) (items : List AnItem) → IsTaskIn files items self.now
            → IsPlaced files result }
    {
        match self {
            Task::Open(include) => include.refused(FaultKind::TooManyFiles),
            Task::Read(opened) => Refusal::At {
                file: opened.file,
                line: 1,
                kind: FaultKind::TooManyFiles,
            },
        }
    }
}

pub(crate) fn kind_of(unread: Unread) -> FaultKind {
    match unread {
        Unread::Memory => FaultKind::Memory,
        Unread::Missing | Unread::Unreadable => FaultKind::Unreadable,
        Unread::Forbidden => FaultKind::Forbidden,
        Unread::NotRegular => FaultKind::NotRegular,
        Unread::TooLong => FaultKind::TooLong,
    }
}

fn kind_of_reference(kind: ReferenceFaultKind) -> FaultKind {
    match kind {
        ReferenceFaultKind::Memory => FaultKind::Memory,
        kind => FaultKind::Reference(kind),
    }
}

fn refused(item: &Item, kind: FaultKind) -> Refusal
    ensures { (files : List Source) → HasLine files item.now.file item.now.line
        → IsPlaced files result }
{
    match kind {
        FaultKind::Memory => Refusal::Memory,
        kind => Refusal::At {
            file: item.file,
            line: item.line,
            kind,
        },
    }
}

// How many octets may still be read.
fn octets_left(files: &[SourceFile]) -> usize
    requires { octets_in files.now ≤ MAX_CONFIGURATION_OCTETS }
    ensures { result + octets_in files.now ≡ MAX_CONFIGURATION_OCTETS }
{
    let mut left = MAX_CONFIGURATION_OCTETS;
    for file in files {
        left -= file.octets.len();
    }
    left
}

// A file of a folder that is included, if its name is taken. A link that leads nowhere is left out.
fn file_in_folder<F: Files>(
    alloc: Global,
    source: &F,
    include: &Include,
    name: &[u8],
) -> Result<Option<Include>, Refusal>
    ensures found { (files : List Source) (items : List AnItem)
        → IsIncludeIn files items include.now
        → IfOk result (λ found. IfSome found (IsIncludeIn files items)) }
    ensures refused { IfErr result (λ refusal. refusal ≡ Refusal.Memory) }
{
    if !is_included_name(name) {
        return Ok(None);
    }
    let path = joined(alloc, &include.path, name)?;
    if source.is_folder(&path) {
        return Ok(None);
    }
    Ok(Some(Include {
        path,
        file: include.file,
        line: include.line,
        section: include.section,
        depth: include.depth,
        optional: true,
    }))
}

impl Reading {
    pub(crate) fn new(alloc: Global) -> Reading
        ensures reading { IsReading result }
        ensures files { length result.files.items ≡ 0 }
    {
        Reading {
            files: Vec::new(alloc),
            items: Vec::new(alloc),
            tasks: Vec::new(alloc),
            statements: MAX_ITEMS,
        }
    }

    // Adds a file, whose statements are the next to be read.
    pub(crate) fn begin(
        &mut self,
        alloc: Global,
        file: SourceFile,
        section: Option<usize>,
    ) -> Result<(), Refusal>
        requires reading { IsReading self.old }
        requires room { length self.old.files.items < MAX_FILES }
        requires size { length file.octets.items + octets_in self.old.files.items
            ≤ MAX_CONFIGURATION_OCTETS }
        requires depth { file.depth ≤ MAX_DEPTH }
        requires section { IsSectionOf self.old.items.items section }
        ensures reading { OnOk result (IsReading self.new) }
        ensures placed { IfErr result (IsPlaced self.new.files.items) }
    {
        let place = self.files.len();
        let read = read_statements(alloc, &file.octets, self.statements);
        self.files.push(file)?;
        match read {
            Ok(statements) => {
                self.statements = self.statements.saturating_sub(statements.len());
                self.tasks.push(Task::Read(OpenFile {
                    file: place,
                    statements,
                    section,
                    outer: section,
                }))?;
                Ok(())
            }
            Err(fault) => Err(fault.in_file(place)),
        }
    }

    // Reads a file that is included.
    fn open<F: Files>(&mut self, alloc: Global, source: &F, include: Include) -> Result<(), Refusal>
        requires reading { IsReading self.old }
        requires include { IsIncludeIn self.old.files.items self.old.items.items include }
        ensures reading { OnOk result (IsReading self.new) }
        ensures placed { IfErr result (IsPlaced self.new.files.items) }
    {
        if self.files.len() >= MAX_FILES {
            return Err(include.refused(FaultKind::TooManyFiles));
        }
        let limit = octets_left(&self.files).min(MAX_OCTETS);
        match source.octets(alloc, &include.path, limit) {
            Err(Unread::Missing) if include.optional => Ok(()),
            Err(unread) => Err(include.unread(alloc, unread)),
            Ok(octets) if octets.len() > limit => Err(include.unread(alloc, Unread::TooLong)),
            Ok(octets) => {
                let Include {
                    path,
                    section,
                    depth,
                    ..
                } = include;
                self.begin(
                    alloc,
                    SourceFile {
                        path,
                        octets,
                        depth,
                    },
                    section,
                )
            }
        }
    }

    // Reads the files of a folder, in the order of their names.
    fn open_folder<F: Files>(
        &mut self,
        alloc: Global,
        source: &F,
        include: &Include,
    ) -> Result<(), Refusal>
        requires reading { IsReading self.old }
        requires include { IsIncludeIn self.old.files.items self.old.items.items include.now }
        ensures reading { OnOk result (IsReading self.new) }
        ensures placed { IfErr result (IsPlaced self.new.files.items) }
    {
        match source.names(alloc, &include.path) {
            Err(Unread::Missing) if include.optional => Ok(()),
            Err(unread) => Err(include.unread(alloc, unread)),
            Ok(names) => self.open_names(alloc, source, include, names),
        }
    }

    fn open_names<F: Files>(
        &mut self,
        alloc: Global,
        source: &F,
        include: &Include,
        names: Vec<Vec<u8>>,
    ) -> Result<(), Refusal>
        requires reading { IsReading self.old }
        requires include { IsIncludeIn self.old.files.items self.old.items.items include.now }
        ensures reading { OnOk result (IsReading self.new) }
        ensures placed { IfErr result (IsPlaced self.new.files.items) }
    {
        let mut names = names;
        names.sort()?;
        while let Some(name) = names.pop() {
            if self.tasks.len() >= MAX_FILES {
                return Err(include.refused(FaultKind::TooManyFiles));
            }
            self.put_off_name(alloc, source, include, &name)?;
        }
        Ok(())
    }

    // Leaves a file of a folder for later, if its name is taken.
    fn put_off_name<F: Files>(
        &mut self,
        alloc: Global,
        source: &F,
        include: &Include,
        name: &[u8],
    ) -> Result<(), Refusal>
        requires reading { IsReading self.old }
        requires include { IsIncludeIn self.old.files.items self.old.items.items include.now }
        ensures reading { OnOk result (IsReading self.new) }
        ensures include { OnOk result
            (IsIncludeIn self.new.files.items self.new.items.items include.now) }
        ensures placed { IfErr result (IsPlaced self.new.files.items) }
    {
        match file_in_folder(alloc, source, include, name)? {
            Some(file) => self.put_off(file),
            None => Ok(()),
        }
    }

    // Leaves a file for later.
    #[tactic(auto, using(crate::proofs::Readings::with_task))]
    fn put_off(&mut self, include: Include) -> Result<(), Refusal>
        requires reading { IsReading self.old }
        requires include { IsIncludeIn self.old.files.items self.old.items.items include }
        ensures reading { OnOk result (IsReading self.new) }
        ensures files { self.new.files.items ≡ self.old.files.items }
        ensures items { self.new.items.items ≡ self.old.items.items }
        ensures placed { IfErr result (IsPlaced self.new.files.items) }
    {
        self.tasks.push(Task::Open(include))?;
        Ok(())
    }

    // Adds statements up to an include, whose place among the items it gives; none at the file's end.
    fn add_statements(&mut self, opened: &mut OpenFile) -> Result<Option<usize>, Refusal>
        requires reading { IsReading self.old }
        requires open { IsOpenIn self.old.files.items self.old.items.items opened.old }
        ensures reading { OnOk result (IsReading self.new) }
        ensures open { OnOk result (IsOpenIn self.new.files.items self.new.items.items opened.new) }
        ensures placed { IfErr result (IsPlaced self.new.files.items) }
    {
        while let Some(Placed { line, statement }) = opened.statements.pop_front() {
            let place = self.items.len();
            let is_include = statement.is_include();
            let spot = Spot {
                file: opened.file,
                section: opened.section,
                outer: opened.outer,
            };
            match add_statement(&mut self.items, spot, line, statement) {
                Ok(section) => opened.section = section,
                Err(fault) => return Err(fault.in_file(opened.file)),
            }
            if is_include {
                return Ok(Some(place));
            }
        }
        self.closed(opened)
    }

    // That no section is open at a file's end that was not before it.
    fn closed(&self, opened: &OpenFile) -> Result<Option<usize>, Refusal>
        requires lines { AreOnLines self.now.files.items self.now.items.items }
        ensures placed { IfErr result (IsPlaced self.now.files.items) }
    {
        if opened.section == opened.outer {
            return Ok(None);
        }
        let Some(place) = opened.section else {
            return Ok(None);
        };
        let Some(item) = self.items.get(place) else {
            return Ok(None);
        };
        Err(Refusal::At {
            file: item.file,
            line: item.line,
            kind: FaultKind::OpenSection {
                end: self.lines_of(opened.file),
            },
        })
    }

    fn lines_of(&self, file: usize) -> usize {
        match self.files.get(file) {
            Some(file) => line_feeds(&file.octets).saturating_add(1),
            None => 0,
        }
    }

    // The path of what a file includes. One that begins with a reference is not relative to the file.
    fn path_of<'a>(
        &'a self,
        alloc: Global,
        naming: &[u8],
        section: Option<usize>,
        text: &'a [u8],
    ) -> Result<Vec<u8>, FaultKind> {
        let scope = Scope {
            items: self.items.as_slice(),
            folder: first_folder(&self.files),
            variables: &[],
        };
        let path = match resolved(alloc, &scope, section, text) {
            Ok(path) => path,
            Err(fault) => return Err(kind_of_reference(fault.kind)),
        };
        if text.first() == Some(&b'$') {
            return Ok(path);
        }
        match beside(alloc, naming, &path) {
            Ok(path) => Ok(path),
            Err(_) => Err(FaultKind::Memory),
        }
    }

    // What the include at a place leads to.
    fn include_at(&self, alloc: Global, place: usize) -> Result<Option<Include>, Refusal>
        requires { IsReading self.now }
        ensures found { IfOk result (λ found.
            IfSome found (IsIncludeIn self.now.files.items self.now.items.items)) }
        ensures placed { IfErr result (IsPlaced self.now.files.items) }
    {
        let Some(item) = self.items.get(place) else {
            return Ok(None);
        };
        let Content::Include { path, optional } = &item.content else {
            return Ok(None);
        };
        let Some(naming) = self.files.get(item.file) else {
            return Ok(None);
        };
        if naming.depth >= MAX_DEPTH {
            return Err(refused(item, FaultKind::TooDeep));
        }
        let path = match self.path_of(alloc, &naming.path, item.section, &path.octets) {
            Ok(path) => path,
            Err(kind) => return Err(refused(item, kind)),
        };
        Ok(Some(Include {
            path,
            file: item.file,
            line: item.line,
            section: item.section,
            depth: naming.depth + 1,
            optional: *optional,
        }))
    }

    // Adds statements up to an include, and what it leads to to the tasks.
    fn read_on<F: Files>(
        &mut self,
        alloc: Global,
        source: &F,
        opened: OpenFile,
    ) -> Result<(), Refusal>
        requires reading { IsReading self.old }
        requires open { IsOpenIn self.old.files.items self.old.items.items opened }
        ensures reading { OnOk result (IsReading self.new) }
        ensures placed { IfErr result (IsPlaced self.new.files.items) }
    {
        let mut opened = opened;
        let Some(place) = self.add_statements(&mut opened)? else {
            return Ok(());
        };
        self.tasks.push(Task::Read(opened))?;
        match self.include_at(alloc, place)? {
            None => Ok(()),
            Some(include) => self.follow(alloc, source, include),
        }
    }

    fn follow<F: Files>(
        &mut self,
        alloc: Global,
        source: &F,
        include: Include,
    ) -> Result<(), Refusal>
        requires reading { IsReading self.old }
        requires include { IsIncludeIn self.old.files.items self.old.items.items include }
        ensures reading { OnOk result (IsReading self.new) }
        ensures placed { IfErr result (IsPlaced self.new.files.items) }
    {
        if is_folder(&include.path) {
            return self.open_folder(alloc, source, &include);
        }
        self.put_off(include)
    }

    fn take<F: Files>(&mut self, alloc: Global, source: &F, task: Task) -> Result<(), Refusal>
        requires reading { IsReading self.old }
        requires task { IsTaskIn self.old.files.items self.old.items.items task }
        ensures reading { OnOk result (IsReading self.new) }
        ensures placed { IfErr result (IsPlaced self.new.files.items) }
    {
        match task {
            Task::Open(include) => self.open(alloc, source, include),
            Task::Read(opened) => self.read_on(alloc, source, opened),
        }
    }

    fn next_task(&mut self) -> Option<Task>
        requires { IsReading self.old }
        ensures reading { IsReading self.new }
        ensures task { IfSome result (IsTaskIn self.new.files.items self.new.items.items) }
    {
        self.tasks.pop()
    }

    // Takes the tasks until none is left.
    pub(crate) fn finish<F: Files>(&mut self, alloc: Global, source: &F) -> Result<(), Refusal>
        requires reading { IsReading self.old }
        ensures reading { OnOk result (IsReading self.new) }
        ensures placed { IfErr result (IsPlaced self.new.files.items) }
    {
        for _ in 0..MAX_STEPS {
            let Some(task) = self.next_task() else {
                return Ok(());
            };
            self.take(alloc, source, task)?;
        }
        match self.next_task() {
            None => Ok(()),
            Some(task) => Err(task.too_many()),
        }
    }
}
