//! Patterns that were read.

ghost use Rattle.std.specs.Prelude.{◌≡◌, ◌≢◌, ◌<◌, ◌≤◌, ◌⊎◌, ◌^◌, ◌&&◌, false, not, length, IfErr, IfOk, IfSome, IsSome, OnOk};
ghost use Rattle.regex.specs.Bytes.{regex_config, regex_source, IsReadFromSource};
ghost use Rattle.regex.specs.Views.{builder_config, builder_size_limit, builder_source};
ghost use Rattle.avp_patterns.specs.Patterns.{IsPattern, IsRefused, expansion_at, expression_in, escapes, expression_of, has_flag_u, is_flag, options, sets_unicode, unicode_at};
ghost use Rattle.avp_patterns.specs.declared.faults.PatternFault.TheVariants.{Memory, NotRead, TooLarge};
ghost use Rattle.regex_syntax.specs.declared.error.ErrorKind.TheVariants.{OutOfMemory};
ghost use Rattle.avp_patterns.specs.declared.flags.PatternFlags.{PatternFlags as ThePatternFlags};
ghost use Rattle.avp_patterns.specs.internal.Searching.{IsNotCompiled, IsSource};

use crate::faults::PatternFault;
use crate::flags::PatternFlags;
use crate::matchers::PatternMatcher;
use regex::bytes::Regex;
use regex::{Error, RegexBuilder};
use regex_syntax::{Config, ErrorKind, Flags};
use std::alloc::{AllocError, Global};
use std::marker::Model;

// What is compiled of a pattern may take so many octets. It is tried with few first, so that policies can count them,
// yet with no fewer than its text has: each trial reads the text anew.
const MIN_COMPILED: usize = 1 << 10;

const MAX_COMPILED: usize = 256 << 10;

/// A pattern that was read and compiled, seen by contracts as it is written.
pub struct Pattern {
    regex: Regex,
    flags: PatternFlags,
    // What is compiled of it takes no more octets.
    size: usize,
}

impl Drop for Pattern {
    fn drop(self) {
        let Pattern {
            regex: _,
            flags: _,
            size: _,
        } = self;
    }
}

impl Model for Pattern {
    ghost use Rattle.std.specs.Prelude.{◌≡◌};
    ghost use Rattle.regex.specs.Bytes.{regex_config, regex_source, IsReadFromSource};
    ghost use Rattle.avp_patterns.specs.Patterns.{Written, IsPattern, options};

    ghost Value = { Written };

    ghost view = { λ p. record { text = regex_source p.regex; flags = p.flags } };

    ghost invariant = { λ p. (regex_config p.regex ≡ options p.flags)
        × IsReadFromSource p.regex
        × IsPattern (record { text = regex_source p.regex; flags = p.flags }) };
}

fn expansion_at(text: &[u8]) -> Option<usize>
    ensures { result ≡ expansion_at text.now }
{
    let mut rest = text;
    while let [_, after @ ..] = rest {
        if rest.starts_with(b"%{") {
            return Some(text.len() - rest.len());
        }
        rest = after;
    }
    None
}

fn is_flag(octet: u8) -> bool
    ensures { result ≡ is_flag octet }
{
    octet == b'-' || octet.is_ascii_alphabetic()
}

fn has_flag_u(flags: &[u8]) -> bool
    ensures { result ≡ has_flag_u flags.now }
{
    let mut rest = flags;
    while let [octet, after @ ..] = rest {
        if *octet == b'u' {
            return true;
        }
        if !is_flag(*octet) {
            return false;
        }
        rest = after;
    }
    false
}

fn sets_unicode(text: &[u8]) -> bool
    ensures { result ≡ sets_unicode text.now }
{
    match text {
        [b'(', b'?', flags @ ..] => has_flag_u(flags),
        _ => false,
    }
}

fn escapes(escaped: bool, octet: u8) -> bool
    ensures { result ≡ escapes escaped octet }
{
    !escaped && octet == b'\\'
}

// Whether such a group begins here, where the first octet is escaped or is not.
fn opens(escaped: bool, text: &[u8]) -> bool
    ensures { result ≡ (not escaped && sets_unicode text.now) }
{
    !escaped && sets_unicode(text)
}

fn unicode_at(text: &[u8]) -> Option<usize>
    ensures same { result ≡ unicode_at false text.now }
    ensures inside { IfSome result (λ at. at ≤ length text.now) }
{
    let mut rest = text;
    let mut escaped = false;
    while let [octet, after @ ..] = rest {
        if opens(escaped, rest) {
            return Some(text.len() - rest.len());
        }
        escaped = escapes(escaped, *octet);
        rest = after;
    }
    None
}

// A text of UTF-8, if no more than the grammar may refuse it.
#[tactic(auto, unfolding(crate::specs::Patterns::expression_of))]
fn source_of(text: &[u8]) -> Result<&str, PatternFault>
    ensures same { IfOk result (λ source. source.now ≡ text.now) }
    ensures plain { IfOk result (λ _. IsSource text.now) }
    ensures refused { (flags : ThePatternFlags) → IfErr result (IsRefused
        (record { text = text.now; flags = flags })) }
    ensures sure { IfErr result (λ fault. fault ≢ TooLarge) }
{
    if text.is_empty() {
        return Err(PatternFault::Empty);
    }
    let source = match std::str::from_utf8(text) {
        Ok(source) => source,
        Err(error) => return Err(PatternFault::NotUtf8(error.valid_up_to())),
    };
    if let Some(offset) = expansion_at(text) {
        return Err(PatternFault::Expansion(offset));
    }
    match unicode_at(text) {
        None => Ok(source),
        Some(offset) => Err(PatternFault::NotRead(offset)),
    }
}

fn options(flags: PatternFlags) -> Config
    ensures { result ≡ options flags }
{
    Config {
        flags: Flags {
            case_insensitive: flags.ignore_case,
            multi_line: flags.multi_line,
            dot_matches_new_line: false,
            swap_greed: false,
            unicode: false,
            crlf: false,
            ignore_whitespace: false,
        },
        octal: false,
        utf8: false,
        nest_limit: 250,
    }
}

fn fault_of(error: regex_syntax::Error) -> PatternFault
    ensures { (result ≡ Memory)
        ⊎ ((error.kind ≢ OutOfMemory) × (result ≡ NotRead error.span.start)) }
{
    match error.kind {
        ErrorKind::OutOfMemory => PatternFault::Memory,
        _ => PatternFault::NotRead(error.span.start),
    }
}

// Whether the grammar reads a text.
fn parsed(alloc: Global, source: &str, flags: PatternFlags) -> Result<(), PatternFault>
    ensures read { OnOk result (IsSome (expression_in
        (record { text = source.now; flags = flags }))) }
    ensures refused { IfErr result (IsNotCompiled (record { text = source.now; flags = flags })) }
    ensures sure { IfErr result (λ fault. fault ≢ TooLarge) }
{
    match regex_syntax::parse(alloc, source, &options(flags)) {
        Ok(_) => Ok(()),
        Err(error) => Err(fault_of(error)),
    }
}

/// Whether a text is a pattern under these flags. Nothing is compiled, so none is too large.
///
/// ```rust
/// let flags = PatternFlags { ignore_case: false, multi_line: false };
/// assert_eq!(rt; check_pattern(alloc, b"^(a|b", flags), Err(PatternFault::NotRead(1)));
/// ```
pub fn check_pattern(alloc: Global, text: &[u8], flags: PatternFlags) -> Result<(), PatternFault>
    ensures read { OnOk result (IsPattern (record { text = text.now; flags = flags })) }
    ensures refused { IfErr result (IsRefused (record { text = text.now; flags = flags })) }
    ensures sure { IfErr result (λ fault. fault ≢ TooLarge) }
{
    match source_of(text) {
        Ok(source) => parsed(alloc, source, flags),
        Err(fault) => Err(fault),
    }
}

fn builder_of(source: &str, flags: PatternFlags, size: usize) -> RegexBuilder<'_>
    ensures source { builder_source result ≡ source.now }
    ensures config { record (builder_config result) { utf8 = false } ≡ options flags }
    ensures limit { builder_size_limit result ≡ size }
{
    RegexBuilder::new(source)
        .unicode(false)
        .case_insensitive(flags.ignore_case)
        .multi_line(flags.multi_line)
        .size_limit(size)
}

// What is compiled of a text within so many octets. One that is nested too deep is not read.
fn compiled_within(
    alloc: Global,
    source: &str,
    flags: PatternFlags,
    size: usize,
) -> Result<Regex, PatternFault>
    requires { size ≤ 2 ^ 34 }
    ensures source { IfOk result (λ r. regex_source r ≡ source.now) }
    ensures config { IfOk result (λ r. regex_config r ≡ options flags) }
    ensures read { IfOk result IsReadFromSource }
    ensures refused { IfErr result (IsNotCompiled
        (record { text = source.now; flags = flags })) }
{
    match builder_of(source, flags, size).build_bytes(alloc) {
        Ok(regex) => Ok(regex),
        Err(Error::Syntax(error)) => Err(PatternFault::NotRead(error.span.start)),
        Err(Error::CompiledTooBig) => Err(PatternFault::TooLarge),
        Err(Error::Internal) => unreachable!(),
        Err(Error::OutOfMemory) => Err(PatternFault::Memory),
    }
}

// How many octets a text of so many is tried with first.
fn first_size(length: usize) -> usize
    ensures { (0 < result) × (result ≤ 2 ^ 19) }
{
    let mut size = MIN_COMPILED;
    while size < length && size < MAX_COMPILED {
        size *= 2;
    }
    size
}

// What is compiled of a text, and how many octets were enough for it.
fn compiled(
    alloc: Global,
    source: &str,
    flags: PatternFlags,
) -> Result<(Regex, usize), PatternFault>
    ensures source { IfOk result (λ r. regex_source r.0 ≡ source.now) }
    ensures config { IfOk result (λ r. regex_config r.0 ≡ options flags) }
    ensures read { IfOk result (λ r. IsReadFromSource r.0) }
    ensures refused { IfErr result (IsNotCompiled
        (record { text = source.now; flags = flags })) }
{
    let mut size = first_size(source.len());
    loop {
        match compiled_within(alloc, source, flags, size) {
            Ok(regex) => return Ok((regex, size)),
            Err(PatternFault::TooLarge) if size < MAX_COMPILED => size *= 2,
            Err(fault) => return Err(fault),
        }
    }
}

impl Pattern {
    /// The pattern that a text is under these flags.
    ///
    /// ```rust
    /// let flags = PatternFlags { ignore_case: true, multi_line: false };
    /// let pattern = Pattern::read(alloc, b"@example\\.(org|com)$", flags)?;
    /// let mut matcher = pattern.matcher(alloc)?;
    /// assert!(rt; matcher.is_match(b"bob@EXAMPLE.org"));
    /// ```
    pub fn read(alloc: Global, text: &[u8], flags: PatternFlags) -> Result<Pattern, PatternFault>
        ensures value { IfOk result (λ p. p ≡ record { text = text.now; flags = flags }) }
        ensures read { IfOk result IsPattern }
        ensures refused { IfErr result (IsRefused (record { text = text.now; flags = flags })) }
    {
        let source = match source_of(text) {
            Ok(source) => source,
            Err(fault) => return Err(fault),
        };
        let (regex, size) = compiled(alloc, source, flags)?;
        Ok(Pattern { regex, flags, size })
    }

    /// Its text.
    pub fn text(&self) -> &[u8]
        ensures { result.now ≡ self.now.text }
    {
        self.regex.as_str().as_bytes()
    }

    pub fn flags(&self) -> PatternFlags
        ensures { result ≡ self.now.flags }
    {
        self.flags
    }

    /// So many octets are enough for what is compiled of it: the least of 1, 2, 4 .. 256 KiB that was enough and is no
    /// less than its text.
    pub fn size(&self) -> usize {
        self.size
    }

    /// What searches for it.
    pub fn matcher(&self, alloc: Global) -> Result<PatternMatcher<'_>, AllocError>
        ensures { IfOk result (λ m. m ≡ self.now) }
    {
        let matcher = self.regex.matcher(alloc)?;
        Ok(PatternMatcher::of(self, matcher))
    }
}
