//! How far a file has been read.

ghost use Rattle.std.specs.Prelude.{◌≡◌, ◌+◌, ◌-◌, ◌^◌, ◌≤◌, ◌<◌, length, OnSome, IsTrue};
ghost use Rattle.server_configuration.specs.Places.{line_feeds};

/// A place in a file: what is left, and on which line that begins.
#[derive(Drop)]
pub(crate) struct Cursor<'a> {
    rest: &'a [u8],
    line: usize,
    // The lines of the whole file.
    lines: usize,
    // The octet before the rest.
    last: u8,
    // Whether blanks at the beginnings of the lines that are joined are left out, as the server does from a `"\` on.
    trims: bool,
    ghost first: { 1 ≤ line },
    ghost within: { line + line_feeds rest.now ≤ lines },
}

pub(crate) fn is_blank(octet: u8) -> bool {
    matches!(octet, b' ' | b'\t' | b'\r' | 0x0b | 0x0c)
}

// Whether a `\` joins the line that ends here to the next.
fn joins(rest: &[u8]) -> bool
    ensures { IsTrue result → 2 ≤ length rest.now }
{
    matches!(rest, [b'\\', b'\n', ..] | [b'\\', b'\r', b'\n', ..])
}

pub(crate) fn line_feeds(text: &[u8]) -> usize
    ensures value { result ≡ line_feeds text.now }
    ensures bound { result ≤ length text.now }
{
    let mut count = 0;
    let mut rest = text;
    while let [octet, after @ ..] = rest {
        if *octet == b'\n' {
            count += 1;
        }
        rest = after;
    }
    count
}

impl<'a> Cursor<'a> {
    /// The beginning of a file that holds this.
    pub(crate) fn new(text: &'a [u8]) -> Cursor<'a>
        requires { length text.now < 2 ^ 32 }
        ensures { result.lines ≡ 1 + line_feeds text.now }
    {
        Cursor {
            rest: text,
            line: 1,
            lines: 1 + line_feeds(text),
            last: b'\n',
            trims: false,
        }
    }

    /// The line of the octet that follows. It is one of the file's.
    pub(crate) fn line(&self) -> usize
        ensures value { result ≡ self.now.line }
        ensures first { 1 ≤ result }
        ensures last { result ≤ self.now.lines }
    {
        self.line
    }

    pub(crate) fn lines(&self) -> usize
        ensures { result ≡ self.now.lines }
    {
        self.lines
    }

    /// How many octets are left.
    pub(crate) fn left(&self) -> usize
        ensures { result ≡ length self.now.rest.now }
    {
        self.rest.len()
    }

    /// The octet after the next.
    pub(crate) fn second(&self) -> Option<u8> {
        self.rest.get(1).copied()
    }

    /// Passes the next octet.
    pub(crate) fn advance(&mut self)
        ensures length { length self.new.rest.now ≡ length self.old.rest.now - 1 }
        ensures lines { self.new.lines ≡ self.old.lines }
    {
        if let [octet, rest @ ..] = self.rest {
            if *octet == b'\n' {
                self.line += 1;
                self.trims = false;
            }
            self.last = *octet;
            self.rest = rest;
        }
    }

    // Passes one end of a line at which a `\` joins it to the next, and blanks that are left out after it.
    fn pass_join(&mut self)
        requires { 2 ≤ length self.old.rest.now }
        ensures shorter { length self.new.rest.now < length self.old.rest.now }
        ensures lines { self.new.lines ≡ self.old.lines }
    {
        let trims = self.trims || self.last == b'"';
        let last = self.last;
        self.advance();
        if self.rest.first() == Some(&b'\r') {
            self.advance();
        }
        self.advance();
        self.trims = trims;
        self.last = last;
        if trims {
            self.pass_blanks();
        }
    }

    // Passes blanks on the same line, without what a `\` joins.
    fn pass_blanks(&mut self)
        ensures shorter { length self.new.rest.now ≤ length self.old.rest.now }
        ensures lines { self.new.lines ≡ self.old.lines }
    {
        while let [octet, ..] = self.rest
            && is_blank(*octet)
        {
            self.advance();
        }
    }

    /// The next octet, after the ends of lines at which a `\` joins them.
    pub(crate) fn peek(&mut self) -> Option<u8>
        ensures shorter { length self.new.rest.now ≤ length self.old.rest.now }
        ensures more { OnSome result (1 ≤ length self.new.rest.now) }
        ensures lines { self.new.lines ≡ self.old.lines }
    {
        while joins(self.rest) {
            self.pass_join();
        }
        self.rest.first().copied()
    }

    /// The next octet, which is passed.
    pub(crate) fn take(&mut self) -> Option<u8>
        ensures shorter { length self.new.rest.now ≤ length self.old.rest.now }
        ensures taken { OnSome result (length self.new.rest.now < length self.old.rest.now) }
        ensures lines { self.new.lines ≡ self.old.lines }
    {
        let octet = self.peek()?;
        self.advance();
        Some(octet)
    }

    /// Passes blanks.
    pub(crate) fn skip_blanks(&mut self)
        ensures shorter { length self.new.rest.now ≤ length self.old.rest.now }
        ensures lines { self.new.lines ≡ self.old.lines }
    {
        while let Some(octet) = self.peek()
            && is_blank(octet)
        {
            self.advance();
        }
    }

    // Passes the line of a comment. A `\` at its end joins nothing.
    fn skip_line(&mut self)
        ensures shorter { length self.new.rest.now ≤ length self.old.rest.now }
        ensures taken { 1 ≤ length self.old.rest.now
            → length self.new.rest.now < length self.old.rest.now }
        ensures lines { self.new.lines ≡ self.old.lines }
    {
        while let [octet, ..] = self.rest
            && *octet != b'\n'
        {
            self.advance();
        }
        self.advance();
    }

    /// Passes blanks, ends of lines, comments, and commas and semicolons between statements.
    pub(crate) fn skip_lines(&mut self)
        ensures shorter { length self.new.rest.now ≤ length self.old.rest.now }
        ensures lines { self.new.lines ≡ self.old.lines }
    {
        while let Some(octet) = self.peek() {
            if octet == b'#' {
                self.skip_line();
            } else if is_blank(octet) || matches!(octet, b'\n' | b',' | b';') {
                self.advance();
            } else {
                break;
            }
        }
    }

    /// Passes a comment behind a statement. A `\` at its end joins it to the next line.
    pub(crate) fn skip_comment(&mut self)
        ensures shorter { length self.new.rest.now ≤ length self.old.rest.now }
        ensures lines { self.new.lines ≡ self.old.lines }
    {
        self.skip_blanks();
        if self.peek() != Some(b'#') {
            return;
        }
        while let Some(octet) = self.peek()
            && octet != b'\n'
        {
            self.advance();
        }
    }
}
