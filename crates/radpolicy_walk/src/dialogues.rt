//! The dialogue: commands are read, and what they come to is shown.

use crate::PROGRAM;
use avp_dict::{LineFault, LineKind, next_line};
use avp_forms::{Profile, read_request};
use avp_lists::{EditFault, List, Pair};
use radpolicy::{Fault, PreparedPolicy, RequestHead, Start};
use radpolicy_common::{Hiding, LineBreaks, PLAIN_STYLE, Stream, Style, visible_text};
use radpolicy_walk_commands::{
    Asked, Command, HELP_TEXT, Session, SourceLines, around_text, breaks_text, fails_after,
    has_step_on, history_text, instances_text, lists_text, nearest_line, read_command, source_text,
    trace_text, why_text, with_set,
};
use std::alloc::{AllocError, AllocFailed, Global};
use std::io;
use std::io::{IsTerminal, Write};

// The octet with which a terminal begins what a key says that moves.
const ESCAPE: u8 = 0x1b;

// What is said of a line that is no text, and so no command.
const NOT_TEXT: &str = "no command: the line is not UTF-8";

/// How a dialogue ended.
#[derive(Clone, Copy, Debug, PartialEq, Eq)]
pub enum Ending {
    /// By `quit`, or where the commands ended.
    Done,
    Memory,
    /// The commands could not be read.
    Input,
    /// What was to be shown could not be written.
    Output,
    /// A line of the script is no command. It was told which.
    Script,
}

/// What came of a line.
#[derive(Drop)]
enum Obeyed {
    Done,
    /// It is the command to end.
    Quit,
    /// It is no command, or is refused, for what is said.
    Refused(String),
}

impl From<AllocError> for Ending {
    fn from(_error: AllocError) -> Self {
        Ending::Memory
    }
}

impl<T: Drop> From<AllocFailed<T>> for Ending {
    fn from(_error: AllocFailed<T>) -> Self {
        Ending::Memory
    }
}

/// By what the run begins anew.
#[derive(Clone, Copy)]
pub struct Beginning<'a> {
    pub policy: &'a PreparedPolicy<'a>,
    pub head: RequestHead,
    /// By it dates are read.
    pub zone: Option<i16>,
    pub hiding: Hiding<'a>,
}

/// The lines of the policy's text.
#[derive(Drop)]
pub struct PolicyLines<'a> {
    read: SourceLines<'a>,
    // The same, as they are shown.
    shown: SourceLines<'a>,
}

impl<'a> PolicyLines<'a> {
    /// Those of the text that was read, and of what is shown of it.
    pub fn new(
        alloc: Global,
        text: &'a [u8],
        shown: &'a [u8],
    ) -> Result<PolicyLines<'a>, AllocError> {
        Ok(PolicyLines {
            read: SourceLines::new(alloc, text)?,
            shown: SourceLines::new(alloc, shown)?,
        })
    }
}

/// A session with the policy's text, and how it is shown.
#[derive(Drop)]
pub struct Dialogue<'a, 't> {
    beginning: Beginning<'a>,
    session: Session<'a>,
    lines: PolicyLines<'t>,
    // What is said at the start.
    title: &'t [u8],
    last: Command,
    is_coloured: bool,
}

fn write(rt: &HostRuntime, text: &[u8]) -> Result<(), Ending> {
    match rt.stdout().write_all(text) {
        Ok(()) => Ok(()),
        Err(_) => Err(Ending::Output),
    }
}

// A prompt, where the commands are typed and what they come to is read.
fn prompt(rt: &HostRuntime) -> Result<(), Ending> {
    if !rt.stdin().is_terminal() || !Stream::Output.is_terminal(rt) {
        return Ok(());
    }
    write(rt, b"(walk) ")?;
    match rt.stdout().flush() {
        Ok(()) => Ok(()),
        Err(_) => Err(Ending::Output),
    }
}

fn style_of(line: &[u8]) -> Option<Style> {
    match line {
        [b'-', ..] => Some(Style::Removed),
        [b'+', ..] => Some(Style::Added),
        [b'[', ..] => Some(Style::Heading),
        _ => None,
    }
}

// A text in colour, by the first octets of its lines.
fn coloured(alloc: Global, text: &[u8]) -> Result<Vec<u8>, AllocError> {
    let mut shown = Vec::new(alloc);
    let mut rest = text;
    while let Some((line, after)) = next_line(rest) {
        match style_of(line) {
            Some(style) => {
                shown.extend_from_slice(style.begin().as_bytes())?;
                shown.extend_from_slice(line)?;
                shown.extend_from_slice(PLAIN_STYLE.as_bytes())?;
            }
            None => shown.extend_from_slice(line)?,
        }
        shown.push(b'\n')?;
        rest = after;
    }
    Ok(shown)
}

// A word of a line that is no command, as it is told: behind a `=` there may be a secret value.
fn told(word: &str) -> &str {
    match word.split_once('=') {
        Some((before, _)) => before,
        None => word,
    }
}

// Why a line is no command.
fn complaint(alloc: Global, asked: Asked<'_>) -> Result<String, AllocError> {
    match asked {
        Asked::Make(_) | Asked::Set(_, _) | Asked::Again => Ok(String::new(alloc)),
        Asked::Unknown(word, nearest) => {
            let word = told(word);
            format!(in alloc; "no command \"{word}\"; the nearest is {nearest}")
        }
        Asked::Misused(usage) => format!(in alloc; "write: {usage}"),
        Asked::NoNumber(word) => {
            let word = told(word);
            format!(in alloc; "\"{word}\" is no number")
        }
        Asked::NoAttribute(word) => {
            let word = told(word);
            format!(in alloc; "no attribute \"{word}\"")
        }
        Asked::NoList(word) => {
            let word = told(word);
            format!(in alloc; "no list \"{word}\"; they are request, reply and control")
        }
    }
}

// The place of a line of a script.
fn script_place(alloc: Global, path: &str, line: usize) -> Result<String, AllocError> {
    let number = Fault::ScriptWord { line }.number();
    format!(in alloc; "{PROGRAM}: {path}:{line}: E{number:02} ")
}

// Says why a line was not obeyed, behind its place if it has one.
fn complain(rt: &HostRuntime, place: &str, said: &str) -> Result<(), Ending> {
    let line = format!(in rt.alloc(); "{place}{said}")?;
    let visible = visible_text(rt.alloc(), line.as_bytes(), LineBreaks::Escaped)?;
    let _ = rt.stderr().write_all(&visible);
    let _ = rt.stderr().write_all(b"\n");
    Ok(())
}

// Why an attribute is not set; none where memory is short.
fn not_set(alloc: Global, fault: Fault) -> Result<Obeyed, Ending> {
    let said = match fault {
        Fault::Memory => return Err(Ending::Memory),
        Fault::Request(
            LineFault {
                kind: LineKind::Unreadable,
                ..
            },
        ) => String::from_str(
            alloc,
            "not set: write one pair, as in set reply Session-Timeout = 600",
        ),
        fault => format!(in alloc; "not set: {fault}"),
    }?;
    Ok(Obeyed::Refused(said))
}

impl<'a, 't> Dialogue<'a, 't> {
    /// A dialogue over the run of a session, which begins with this title.
    pub fn new(
        rt: &HostRuntime,
        beginning: Beginning<'a>,
        session: Session<'a>,
        lines: PolicyLines<'t>,
        title: &'t [u8],
    ) -> Dialogue<'a, 't> {
        Dialogue {
            beginning,
            session,
            lines,
            title,
            last: Command::Show(None),
            is_coloured: Stream::Output.is_coloured(rt),
        }
    }

    // Shows a text, without control characters.
    fn show(&self, rt: &HostRuntime, text: &[u8]) -> Result<(), Ending> {
        let visible = visible_text(rt.alloc(), text, LineBreaks::Kept)?;
        if self.is_coloured {
            write(rt, &coloured(rt.alloc(), &visible)?)
        } else {
            write(rt, &visible)
        }
    }

    // The place, and the line of the policy.
    fn place_text(&self, alloc: Global) -> Result<Vec<u8>, AllocError> {
        let mut text = self.session.place_text(alloc)?;
        text.extend_from_slice(b"\n")?;
        text.extend_from_slice(&source_text(alloc, &self.session, &self.lines.shown)?)?;
        Ok(text)
    }

    // What a command comes to that leads to a place.
    fn moved_text(&mut self, alloc: Global, command: Command) -> Result<Vec<u8>, AllocError> {
        let changes = self.session.change(alloc, command)?;
        let mut text = self.place_text(alloc)?;
        text.extend_from_slice(&changes)?;
        Ok(text)
    }

    fn lists_text(&self, alloc: Global, command: Command) -> Result<Vec<u8>, AllocError> {
        let mut text = self.place_text(alloc)?;
        if let Command::Show(which) = command {
            let lists = lists_text(alloc, &self.session, which)?;
            text.extend_from_slice(&lists)?;
        }
        Ok(text)
    }

    // What a command comes to.
    fn text_of(&mut self, alloc: Global, command: Command) -> Result<Vec<u8>, AllocError> {
        let lines = &self.lines;
        match command {
            Command::Show(_) => self.lists_text(alloc, command),
            Command::Where => self.place_text(alloc),
            Command::Print(id) => instances_text(alloc, &self.session, id),
            Command::History(id) => history_text(alloc, &mut self.session, id),
            Command::Why => why_text(alloc, &mut self.session, &lines.read, &lines.shown),
            Command::Trace => trace_text(alloc, &self.session, &lines.shown),
            Command::List => around_text(alloc, &self.session, &lines.shown),
            Command::Breaks => breaks_text(alloc, &self.session, &lines.shown),
            Command::Help => Vec::from_slice(alloc, HELP_TEXT.as_bytes()),
            _ => self.moved_text(alloc, command),
        }
    }

    // Says where a command is not made as it is written; whether it is made at all.
    fn is_made(&self, rt: &HostRuntime, command: Command) -> bool {
        match command {
            Command::Break(line) if !has_step_on(self.session.steps(), line) => {
                let nearest = nearest_line(self.session.steps(), line).unwrap_or(0);
                let _ = eprintln!(rt;
                    "no step of this run is on line {line}; the nearest that has one is {nearest}"
                );
                false
            }
            Command::Goto(position) if position > self.session.last_position() => {
                let last = self.session.last_position();
                let _ = eprintln!(rt; "the last position is {last}");
                true
            }
            Command::UntilFailure if !fails_after(self.session.steps(), self.session.position()) =>
                {
                    let _ = eprintln!(rt; "nothing fails from here on; this is the last position");
                    true
                }
            _ => true,
        }
    }

    fn make(&mut self, rt: &HostRuntime, command: Command) -> Result<(), Ending> {
        self.last = command;
        if self.is_made(rt, command) {
            let text = self.text_of(rt.alloc(), command)?;
            self.show(rt, &text)?;
        }
        Ok(())
    }

    // The one pair of a request line.
    fn pair_of(&self, alloc: Global, line: &str) -> Result<Pair, Fault> {
        let dictionary = self.session.dictionary();
        let mut pairs = read_request(
            alloc,
            dictionary,
            Profile::Wider,
            self.beginning.zone,
            line.as_bytes(),
        )?;
        match (pairs.pop(), pairs.is_empty()) {
            (Some(pair), true) => Ok(pair),
            _ => Err(Fault::Request(LineFault {
                line: 1,
                offset: 0,
                kind: LineKind::Unreadable,
            })),
        }
    }

    // The start of the run with an attribute set in an initial list.
    fn start_with(&mut self, alloc: Global, list: List, line: &str) -> Result<Start<'a>, Fault> {
        let pair = self.pair_of(alloc, line)?;
        let position = self.session.position();
        self.session.make(Command::Start)?;
        let lists = self.session.lists()?;
        self.session.make(Command::Goto(position))?;
        let lists = match with_set(alloc, lists, list, pair) {
            Ok(lists) => lists,
            Err(EditFault::Memory) => return Err(Fault::Memory),
            Err(EditFault::Full) => {
                return Err(Fault::Request(LineFault {
                    line: 1,
                    offset: 0,
                    kind: LineKind::TooMany,
                }));
            }
        };
        let Beginning { policy, head, .. } = self.beginning;
        Start::of_pairs(alloc, policy, None, head, lists.request)?
            .with_reply(lists.reply)?
            .with_control(lists.control)
    }

    // Sets an attribute in an initial list, begins the run anew, and shows the list. A line that is refused changes
    // nothing.
    fn set(&mut self, rt: &HostRuntime, list: List, line: &str) -> Result<Obeyed, Ending> {
        match self.start_with(rt.alloc(), list, line) {
            Ok(start) => {
                self.session
                    .begin_anew(rt.alloc(), start, self.beginning.hiding)?;
                let text = self.lists_text(rt.alloc(), Command::Show(Some(list)))?;
                self.show(rt, &text)?;
                Ok(Obeyed::Done)
            }
            Err(fault) => not_set(rt.alloc(), fault),
        }
    }

    // Makes what a line asks for.
    fn obey(&mut self, rt: &HostRuntime, line: &str) -> Result<Obeyed, Ending> {
        let alloc = rt.alloc();
        if line.as_bytes().contains(&ESCAPE) {
            let said = "keys that move are not read: an empty line repeats the command before";
            return Ok(Obeyed::Refused(String::from_str(alloc, said)?));
        }
        match read_command(alloc, self.session.dictionary(), line)? {
            Asked::Make(Command::Quit) => return Ok(Obeyed::Quit),
            Asked::Make(command) => self.make(rt, command)?,
            Asked::Set(list, line) => return self.set(rt, list, line),
            Asked::Again => self.make(rt, self.last)?,
            asked => return Ok(Obeyed::Refused(complaint(alloc, asked)?)),
        }
        Ok(Obeyed::Done)
    }

    // Makes what a line of a terminal or a pipe asks for, and says whether the walk goes on.
    fn obey_or_complain(&mut self, rt: &HostRuntime, line: &str) -> Result<bool, Ending> {
        match self.obey(rt, line)? {
            Obeyed::Done => Ok(true),
            Obeyed::Quit => Ok(false),
            Obeyed::Refused(said) => {
                complain(rt, "", said.as_str())?;
                Ok(true)
            }
        }
    }

    fn obey_input(&mut self, rt: &HostRuntime) -> Result<(), Ending> {
        prompt(rt)?;
        for line in rt.lines(rt.alloc()) {
            match line {
                Ok(line) => {
                    if !self.obey_or_complain(rt, line.as_str())? {
                        return Ok(());
                    }
                }
                Err(error) if error.kind() == io::ErrorKind::OutOfMemory => {
                    return Err(Ending::Memory);
                }
                Err(error) if error.kind() == io::ErrorKind::InvalidData => {
                    complain(rt, "", NOT_TEXT)?;
                }
                Err(_) => return Err(Ending::Input),
            }
            prompt(rt)?;
        }
        Ok(())
    }

    // Makes what a line of a script asks for.
    fn obey_octets(&mut self, rt: &HostRuntime, line: &[u8]) -> Result<Obeyed, Ending> {
        match str::from_utf8(line) {
            Ok(line) => self.obey(rt, line),
            Err(_) => Ok(Obeyed::Refused(String::from_str(rt.alloc(), NOT_TEXT)?)),
        }
    }

    // Makes what the lines of a script ask for. Lines that are refused are passed over, and told with their places.
    fn obey_script(&mut self, rt: &HostRuntime, path: &str, script: &[u8]) -> Result<(), Ending> {
        let mut rest = script;
        let mut number: usize = 0;
        let mut ending = Ok(());
        while let Some((line, after)) = next_line(rest) {
            number = number.saturating_add(1);
            match self.obey_octets(rt, line)? {
                Obeyed::Done => {}
                Obeyed::Quit => return ending,
                Obeyed::Refused(said) => {
                    complain(
                        rt,
                        script_place(rt.alloc(), path, number)?.as_str(),
                        said.as_str(),
                    )?;
                    ending = Err(Ending::Script);
                }
            }
            rest = after;
        }
        ending
    }

    fn begin(&mut self, rt: &HostRuntime) -> Result<(), Ending> {
        self.show(rt, self.title)?;
        self.make(rt, Command::Show(None))
    }

    /// Shows the start, and then makes the commands of standard input.
    pub fn follow_input(&mut self, rt: &HostRuntime) -> Ending {
        match self.begin(rt) {
            Ok(()) => self.obey_input(rt).err().unwrap_or(Ending::Done),
            Err(ending) => ending,
        }
    }

    /// Shows the start, and then makes the commands of a script, which is in a file of this path.
    pub fn follow_script(&mut self, rt: &HostRuntime, path: &str, script: &[u8]) -> Ending {
        match self.begin(rt) {
            Ok(()) => self
                .obey_script(rt, path, script)
                .err()
                .unwrap_or(Ending::Done),
            Err(ending) => ending,
        }
    }
}
