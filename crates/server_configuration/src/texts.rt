//! Words, quoted texts and conditions.

ghost use Rattle.std.specs.Prelude.{◌≡◌, ◌≤◌, ◌<◌, length, IfErr};

use crate::cursors::{Cursor, is_blank};
use crate::faults::{Fault, FaultKind};
use crate::items::{Operator, Quote, Text};
use std::alloc::{AllocError, Global};

/// Where a word without quotes ends.
#[derive(Clone, Copy)]
pub(crate) enum Ending {
    /// At a blank, a brace, a bracket, a comma, a comment or an operator.
    Name,
    /// At a blank or a comma.
    Value,
    /// At a blank.
    Path,
}

/// The operator that begins with these octets.
pub(crate) fn operator_of(first: u8, second: Option<u8>) -> Option<Operator> {
    match (first, second) {
        (b':', Some(b'=')) => Some(Operator::Set),
        (b'+', Some(b'=')) => Some(Operator::Add),
        (b'-', Some(b'=')) => Some(Operator::Subtract),
        (b'^', Some(b'=')) => Some(Operator::Prepend),
        (b'=', Some(b'=')) => Some(Operator::IsEqual),
        (b'=', Some(b'~')) => Some(Operator::Matches),
        (b'=', Some(b'*')) => Some(Operator::IsPresent),
        (b'=', _) => Some(Operator::Equals),
        (b'!', Some(b'=')) => Some(Operator::IsNotEqual),
        (b'!', Some(b'~')) => Some(Operator::MatchesNot),
        (b'!', Some(b'*')) => Some(Operator::IsAbsent),
        (b'<', Some(b'=')) => Some(Operator::IsAtMost),
        (b'<', _) => Some(Operator::IsLess),
        (b'>', Some(b'=')) => Some(Operator::IsAtLeast),
        (b'>', _) => Some(Operator::IsGreater),
        _ => None,
    }
}

impl Operator {
    /// Whether it is one octet long.
    pub(crate) fn is_short(self) -> bool {
        matches!(
            self,
            Operator::Equals | Operator::IsLess | Operator::IsGreater
        )
    }
}

impl Ending {
    // Whether a word ends before an octet, outside of the braces of references and expansions.
    fn ends(self, octet: u8, second: Option<u8>) -> bool {
        if is_blank(octet) {
            return true;
        }
        match self {
            Ending::Path => false,
            Ending::Value => octet == b',',
            Ending::Name => {
                matches!(octet, b'{' | b'}' | b'(' | b')' | b',' | b';' | b'#')
                    || operator_of(octet, second).is_some()
            }
        }
    }
}

// How many braces are open after an octet.
fn nested(depth: usize, octet: u8) -> usize {
    match octet {
        b'{' => depth.saturating_add(1),
        b'}' => depth.saturating_sub(1),
        _ => depth,
    }
}

// A word without quotes. It may be empty.
fn read_bare(alloc: Global, cursor: &mut Cursor<'_>, ending: Ending) -> Result<Text, AllocError>
    ensures shorter { length cursor.new.rest.now ≤ length cursor.old.rest.now }
    ensures lines { cursor.new.lines ≡ cursor.old.lines }
{
    let mut octets = Vec::new(alloc);
    let mut depth = 0usize;
    let mut last = b' ';
    while let Some(octet) = cursor.peek() {
        let opens = octet == b'{' && matches!(last, b'%' | b'$');
        if octet == b'\n' || depth == 0 && !opens && ending.ends(octet, cursor.second()) {
            break;
        }
        if opens || depth > 0 {
            depth = nested(depth, octet);
        }
        octets.push(octet)?;
        last = octet;
        cursor.advance();
    }
    Ok(Text {
        quote: Quote::Bare,
        octets,
    })
}

// The octets before a quote's end, which is passed. No end: its line has none.
fn read_quoted(
    alloc: Global,
    cursor: &mut Cursor<'_>,
    mark: u8,
) -> Result<Option<Vec<u8>>, AllocError>
    ensures shorter { length cursor.new.rest.now ≤ length cursor.old.rest.now }
    ensures lines { cursor.new.lines ≡ cursor.old.lines }
{
    let mut octets = Vec::new(alloc);
    let mut escaped = false;
    while let Some(octet) = cursor.peek()
        && octet != b'\n'
    {
        cursor.advance();
        if octet == mark && !escaped {
            return Ok(Some(octets));
        }
        escaped = octet == b'\\' && !escaped;
        octets.push(octet)?;
    }
    Ok(None)
}

fn quote_of(octet: u8) -> Option<Quote> {
    match octet {
        b'"' => Some(Quote::Double),
        b'\'' => Some(Quote::Single),
        b'`' => Some(Quote::Back),
        _ => None,
    }
}

/// A text with its quotes, or a word that ends so. Without quotes it may be empty.
pub(crate) fn read_text(
    alloc: Global,
    cursor: &mut Cursor<'_>,
    ending: Ending,
) -> Result<Text, Fault>
    ensures shorter { length cursor.new.rest.now ≤ length cursor.old.rest.now }
    ensures lines { cursor.new.lines ≡ cursor.old.lines }
    ensures refused { IfErr result (λ fault. fault.line ≤ cursor.old.lines) }
{
    let mark = cursor.peek().unwrap_or(b' ');
    let Some(quote) = quote_of(mark) else {
        let text = read_bare(alloc, cursor, ending)?;
        return Ok(text);
    };
    let line = cursor.line();
    cursor.advance();
    match read_quoted(alloc, cursor, mark)? {
        Some(octets) => Ok(Text { quote, octets }),
        None => Err(Fault {
            line,
            kind: FaultKind::OpenQuote,
        }),
    }
}

// How far a condition has been read.
#[derive(Clone, Copy)]
struct Balance {
    // The brackets that are open.
    depth: usize,
    // The end of the quoted text or of the regular expression, in one.
    mark: Option<u8>,
    escaped: bool,
    // The last octet that was no blank.
    last: u8,
}

impl Balance {
    // What holds after one octet more.
    fn after(self, octet: u8) -> Balance {
        match self.mark {
            Some(mark) => Balance {
                mark: if octet == mark && !self.escaped {
                    None
                } else {
                    self.mark
                },
                escaped: octet == b'\\' && !self.escaped,
                last: octet,
                ..self
            },
            None => self.after_plain(octet),
        }
    }

    // The same outside of quotes. A `/` begins a regular expression only after `=~` or `!~`.
    fn after_plain(self, octet: u8) -> Balance {
        let last = if is_blank(octet) || octet == b'\n' {
            self.last
        } else {
            octet
        };
        let next = Balance {
            escaped: false,
            last,
            ..self
        };
        match octet {
            b'(' => Balance {
                depth: self.depth.saturating_add(1),
                ..next
            },
            b')' => Balance {
                depth: self.depth.saturating_sub(1),
                ..next
            },
            b'"' | b'\'' | b'`' => Balance {
                mark: Some(octet),
                ..next
            },
            b'/' if self.last == b'~' => Balance {
                mark: Some(octet),
                ..next
            },
            _ => next,
        }
    }

    fn is_whole(self) -> bool {
        self.depth == 0 && self.mark.is_none()
    }
}

// The octets of a condition, with its brackets; none where they do not balance, or a quote has no end on its line.
fn read_balanced(alloc: Global, cursor: &mut Cursor<'_>) -> Result<Option<Vec<u8>>, AllocError>
    ensures shorter { length cursor.new.rest.now ≤ length cursor.old.rest.now }
    ensures lines { cursor.new.lines ≡ cursor.old.lines }
{
    let mut octets = Vec::new(alloc);
    let mut balance = Balance {
        depth: 0,
        mark: None,
        escaped: false,
        last: b' ',
    };
    while let Some(octet) = cursor.peek() {
        if octet == b'\n' && balance.mark.is_some() {
            break;
        }
        cursor.advance();
        octets.push(octet)?;
        balance = balance.after(octet);
        if balance.is_whole() {
            return Ok(Some(octets));
        }
    }
    Ok(None)
}

/// A condition: its first bracket follows.
pub(crate) fn read_condition(alloc: Global, cursor: &mut Cursor<'_>) -> Result<Text, Fault>
    ensures shorter { length cursor.new.rest.now ≤ length cursor.old.rest.now }
    ensures lines { cursor.new.lines ≡ cursor.old.lines }
    ensures refused { IfErr result (λ fault. fault.line ≤ cursor.old.lines) }
{
    let line = cursor.line();
    if cursor.peek() != Some(b'(') {
        return Err(Fault {
            line,
            kind: FaultKind::NoCondition,
        });
    }
    match read_balanced(alloc, cursor)? {
        Some(octets) => Ok(Text {
            quote: Quote::Bare,
            octets,
        }),
        None => Err(Fault {
            line,
            kind: FaultKind::OpenCondition,
        }),
    }
}
