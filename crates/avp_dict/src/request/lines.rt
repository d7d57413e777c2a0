//! The request of a text of lines.

ghost use Rattle.std.specs.Prelude.{◌≡◌, ◌≢◌, ℕ, ◌≤◌, ◌<◌, ◌++◌, ◌∷◌, [], Some, None, true, false, IfOk, IfErr, OnOk, OnErr, IfSome, MatchOption, length, take, List, All, IsTrue};
ghost use Rattle.std.specs.Option.{option_and_then};
ghost use Rattle.std.specs.List.{before_first, after_first, list_all};
ghost use Rattle.avp_lists.specs.Meets.{Finds, Unless};
ghost use Rattle.avp_lists.specs.States.{max_pairs};
ghost use Rattle.avp_lists.specs.declared.pairs.Pair.{Pair};
ghost use Rattle.avp_dict.specs.Limits.{fits};
ghost use Rattle.avp_dict.specs.LineNumbers.{line_after};
ghost use Rattle.avp_dict.specs.Lines.{IsEnd, is_line_end, texts_of};
ghost use Rattle.avp_dict.specs.Outcomes.{is_memory_line};
ghost use Rattle.avp_dict.specs.RefusedPlaces.{IsOutOfMemoryAt, IsRefusedAfter, IsRefusedAt, is_before_filled, takes_for_token};
ghost use Rattle.avp_dict.specs.RequestLines.{Comma, is_blank_line, is_idle_line, pairs_of, tokens_at, value_text, without_front};
ghost use Rattle.avp_dict.specs.Names.{named};
ghost use Rattle.avp_dict.specs.Requests.{pair_assigned, pair_named, refusal_named, request_by, request_spelled};
ghost use Rattle.avp_dict.specs.Sent.{is_clean};
ghost use Rattle.avp_dict.specs.Spellings.{takes_memory};
ghost use Rattle.avp_dict.specs.declared.value.faults.ValueFault.TheVariants.{NotWritable};
ghost use Rattle.avp_dict.specs.internal.LineEnds.{IsCountKind, IsIdleRead, IsLexed, IsNoComma, IsOutLine, IsOutPair, IsPairRead, IsRefusedEnd, IsRefusedLine, IsRefusedPair, IsRefusedText, IsRefusedToken, refused_from};
ghost use Rattle.avp_dict.specs.internal.LineReading.{IsNoRequest, after_pairs, assigned_after, pair_of_token, pairs_after, pairs_at};
ghost use Rattle.avp_dict.specs.internal.RequestTokens.{is_ended, side_after, token_view};

use crate::dictionaries::Dictionary;
use crate::file::lines::split_line;
use crate::file::words::{is_blank, without_comment};
use crate::request::faults::{LineFault, LineKind};
use crate::request::readers::PairReader;
use crate::request::refusals::Refusal;
use crate::request::tokens::{Side, Token, next_token};
use crate::value::quotes::octets_between;
use avp_lists::{MAX_PAIRS, Pair};
use std::alloc::Global;

/// The first line of a text without its end, and what follows it; none where nothing is left.
pub fn next_line(text: &[u8]) -> Option<(&[u8], &[u8])>
    ensures cut { MatchOption result (texts_of text.now ≡ [])
        (λ x. texts_of text.now ≡ x.0.now ∷ texts_of x.1.now) }
    ensures line { IfSome result (λ x. x.0.now ≡ before_first is_line_end text.now) }
    ensures rest { IfSome result (λ x. x.1.now ≡ after_first is_line_end text.now) }
    ensures shorter { IfSome result (λ x. length x.1.now < length text.now) }
    ensures within { IfSome result (λ x. length x.0.now ≤ length text.now) }
    ensures end { IfSome result (λ x. IsEnd x.1.now text.now) }
{
    if text.is_empty() {
        return None;
    }
    Some(split_line(text))
}

fn is_blank_line(line: &[u8]) -> bool
    ensures { result ≡ is_blank_line line.now }
{
    line.iter().all(|octet| is_blank(*octet))
}

/// Whether a line of a request or a policy holds no more than blanks and a comment.
pub fn is_idle_line(line: &[u8]) -> bool
    ensures { result ≡ is_idle_line line.now }
{
    is_blank_line(without_comment(line))
}

// The text from its first line on that holds more than blanks and a comment.
fn without_idle_lines(text: &[u8]) -> &[u8]
    ensures lines { texts_of result.now ≡ without_front is_idle_line (texts_of text.now) }
    ensures idle { IsIdleRead text.now result.now }
{
    let mut rest = text;
    while let Some((line, after)) = next_line(rest)
        && is_idle_line(line)
    {
        rest = after;
    }
    rest
}

// What a line that holds more than a comment is refused for after the end of a packet.
fn kind_after_packet(line: &[u8]) -> LineKind
    requires { is_idle_line line.now ≡ false }
    ensures { IsRefusedAfter result (tokens_at Side.Name line.now) }
{
    match next_token(Side::Name, line) {
        Some((first, _)) => {
            if first.is_run() {
                LineKind::SecondPacket
            } else {
                LineKind::Unreadable
            }
        }
        None => LineKind::Unreadable,
    }
}

// What may follow the line that ends a packet: nothing but blanks and comments.
fn end_of_packet(rest: &[u8]) -> Result<(), Refusal>
    ensures ok { OnOk result (list_all is_idle_line (texts_of rest.now) ≡ true) }
    ensures err { OnErr result (list_all is_idle_line (texts_of rest.now) ≡ false) }
    ensures kind { IfErr result (λ refusal. refusal.kind ≢ LineKind.Memory) }
    ensures within { IfErr result (λ refusal. refusal.left ≤ length rest.now) }
    ensures place { IfErr result (λ refusal. IsRefusedEnd rest.now refusal.kind refusal.left) }
{
    let rest = without_idle_lines(rest);
    let Some((line, _)) = next_line(rest) else {
        return Ok(());
    };
    Err(kind_after_packet(line).at(rest.len()))
}

// What follows a pair on its line: the text after a comma, or nothing.
#[tactic(auto, using(crate::proofs::Lexing::at_end), unfolding(crate::specs::RequestLines::pairs_of))]
fn after_pair(rest: &[u8]) -> Result<&[u8], Refusal>
    ensures read { IfOk result (λ after. assigned_after (tokens_at Side.Value rest.now)
        ≡ pairs_of (tokens_at Side.Name after.now)) }
    ensures shorter { IfOk result (λ after. length after.now ≤ length rest.now) }
    ensures lexed { IfOk result (λ after. 0 < length after.now → IsLexed Side.Value rest.now
        (Comma ∷ []) Side.Name after.now) }
    ensures refused { OnErr result (assigned_after (tokens_at Side.Value rest.now) ≡ None) }
    ensures no_comma { OnErr result (IsNoComma (tokens_at Side.Value rest.now)) }
    ensures kind { IfErr result (λ refusal. refusal.kind ≡ LineKind.Unreadable) }
    ensures left { IfErr result (λ refusal. refusal.left ≡ length rest.now) }
{
    match next_token(Side::Value, rest) {
        None => Ok(&[]),
        Some((Token::Comma, after)) => Ok(after),
        Some(_) => Err(LineKind::Unreadable.at(rest.len())),
    }
}

// How many octets are left where a pair is refused for this, of those from the name on and those from the value on: a
// name that is not writable is refused only after its value was found.
fn refused_from(kind: LineKind, name: usize, value: usize) -> usize
    ensures { result ≡ refused_from kind name value }
{
    match kind {
        LineKind::NotWritable => name,
        _ => value,
    }
}

// Adds a pair to those that were read before it.
fn push_pair(pairs: &mut Vec<Pair>, pair: Pair) -> Result<(), LineKind>
    requires { length pairs.old.items ≤ max_pairs }
    ensures pushed { OnOk result (pairs.new.items ≡ pairs.old.items ++ pair ∷ []) }
    ensures few { OnOk result (length pairs.new.items ≤ max_pairs) }
    ensures refused { IfErr result (λ kind. kind ≢ LineKind.Memory → length pairs.old.items
        ≡ max_pairs) }
    ensures room { IfErr result (λ kind. kind ≡ LineKind.Memory → length pairs.old.items
        < max_pairs) }
    ensures kind { IfErr result IsCountKind }
{
    if pairs.len() == MAX_PAIRS {
        return Err(LineKind::TooMany);
    }
    pairs.push(pair)?;
    Ok(())
}

// The pair of what a name stands for and a text.
fn pair_of_text<R: PairReader>(
    reader: &R,
    alloc: Global,
    target: R::Target,
    text: &[u8],
) -> Result<Pair, LineKind>
    ensures pair { Finds is_memory_line result (R.pair_of reader.now target text.now) }
    ensures refused { IfErr result (λ kind.
        IsRefusedText (R.refusal_of reader.now target text.now) kind) }
    ensures memory { IfErr result (λ kind. kind ≡ LineKind.Memory
        → R.takes_memory reader.now target text.now ≡ true) }
{
    match reader.pair(alloc, target, text) {
        Ok(pair) => Ok(pair),
        Err(fault) => Err(LineKind::from(fault)),
    }
}

// The pair of what a name stands for and the token of its value.
fn pair_of_token<R: PairReader>(
    reader: &R,
    alloc: Global,
    target: R::Target,
    token: Token,
) -> Result<Pair, LineKind>
    ensures pair { Finds is_memory_line result
        (pair_of_token (R.pair_of reader.now) target (token_view token.entry)) }
    ensures refused { IfErr result (λ kind. IsRefusedToken (token_view token.entry)
        (option_and_then (R.refusal_of reader.now target) (value_text (token_view token.entry)))
        kind) }
    ensures text { IfErr result (λ kind. kind ≡ LineKind.Memory
        → value_text (token_view token.entry) ≢ None) }
    ensures writable { IfErr result (λ kind. kind ≡ LineKind.Memory
        → option_and_then (R.refusal_of reader.now target) (value_text (token_view token.entry))
        ≢ Some NotWritable) }
    ensures memory { IfErr result (λ kind. kind ≡ LineKind.Memory
        → takes_for_token (R.takes_memory reader.now target) (token_view token.entry) ≡ true) }
{
    match token {
        Token::Run([b'=', ..]) => Err(LineKind::Unreadable),
        Token::Run(_) | Token::Quoted(_, _) if reader.is_barred(target) => {
            Err(LineKind::NotWritable)
        }
        Token::Run(text) => pair_of_text(reader, alloc, target, text),
        Token::Quoted(mark, text) => {
            let octets = octets_between(alloc, mark, text)?;
            pair_of_text(reader, alloc, target, &octets)
        }
        Token::Comma | Token::Sign | Token::Unended => Err(LineKind::Unreadable),
    }
}

// The pair of a name, the first token of a line, and a value, and what follows it.
#[tactic(auto, unfolding(crate::specs::RequestLines::pairs_of, crate::specs::internal::LineReading::pairs_at))]
fn read_pair<'a, R: PairReader>(
    reader: &R,
    alloc: Global,
    line: &'a [u8],
    first: Token,
    rest: &'a [u8],
) -> Result<(Pair, &'a [u8]), Refusal>
    requires token { tokens_at Side.Name line.now
        ≡ token_view first ∷ tokens_at (side_after Side.Name first) rest.now }
    requires lexed { is_ended (token_view first) ≡ true → IsLexed Side.Name line.now
        (token_view first ∷ []) (side_after Side.Name first) rest.now }
    requires shorter { length rest.now ≤ length line.now }
    ensures read { IfOk result (λ x.
        pairs_at (pair_assigned (R.target_of reader.now) (R.pair_of reader.now))
        (token_view first.entry ∷ tokens_at (side_after Side.Name first.entry) rest.now)
        ≡ after_pairs (x.0 ∷ [])
        (pairs_after (pair_assigned (R.target_of reader.now) (R.pair_of reader.now))
        (tokens_at Side.Value x.1.now))) }
    ensures shorter { IfOk result (λ x. length x.1.now ≤ length rest.now) }
    ensures refused { IfErr result (λ refusal.
        Unless (is_memory_line refusal.kind)
        (pairs_at (pair_assigned (R.target_of reader.now) (R.pair_of reader.now))
        (token_view first.entry ∷ tokens_at (side_after Side.Name first.entry) rest.now)
        ≡ None)) }
    ensures pair { IfOk result (λ x. IsPairRead (R.target_of reader.now) (R.pair_of reader.now)
        line.now x.0 x.1.now) }
    ensures within { IfErr result (λ refusal. refusal.left ≤ length line.now) }
    ensures place { IfErr result (λ refusal. Unless (is_memory_line refusal.kind) ((count : ℕ)
        → IsRefusedPair (R.target_of reader.now) (R.pair_of reader.now) (R.refusal_of reader.now)
        count line.now refusal.kind refusal.left)) }
    ensures memory { IfErr result (λ refusal. refusal.kind ≡ LineKind.Memory → (count : ℕ)
        → IsOutPair (R.target_of reader.now) (R.pair_of reader.now) (R.refusal_of reader.now)
        (R.takes_memory reader.now) count line.now refusal.left) }
{
    let Token::Run(name) = first else {
        return Err(LineKind::Unreadable.at(line.len()));
    };
    let Some(target) = reader.target(name) else {
        return Err(LineKind::Unknown.at(line.len()));
    };
    let Some((Token::Sign, text)) = next_token(Side::Name, rest) else {
        return Err(LineKind::Unreadable.at(rest.len()));
    };
    let Some((value, after)) = next_token(Side::Value, text) else {
        return Err(LineKind::Unreadable.at(text.len()));
    };
    match pair_of_token(reader, alloc, target, value) {
        Ok(pair) => Ok((pair, after)),
        Err(kind) => Err(kind.at(refused_from(kind, line.len(), text.len()))),
    }
}

// Adds the pairs of a line to those of the lines before it.
fn read_line<R: PairReader>(
    reader: &R,
    alloc: Global,
    line: &[u8],
    pairs: &mut Vec<Pair>,
) -> Result<(), Refusal>
    requires { length pairs.old.items ≤ max_pairs }
    ensures read { OnOk result (after_pairs pairs.old.items
        (pairs_at (pair_assigned (R.target_of reader.now) (R.pair_of reader.now))
        (tokens_at Side.Name line.now)) ≡ Some pairs.new.items) }
    ensures few { OnOk result (length pairs.new.items ≤ max_pairs) }
    ensures refused { IfErr result (λ refusal. refusal.kind ≢ LineKind.Memory
        → IsNoRequest pairs.old.items
        (pairs_at (pair_assigned (R.target_of reader.now) (R.pair_of reader.now))
        (tokens_at Side.Name line.now))) }
    ensures within { IfErr result (λ refusal. refusal.left ≤ length line.now) }
    ensures place { IfErr result (λ refusal. Unless (is_memory_line refusal.kind)
        (IsRefusedLine (R.target_of reader.now) (R.pair_of reader.now) (R.refusal_of reader.now)
        pairs.old.items line.now refusal.kind refusal.left)) }
    ensures memory { IfErr result (λ refusal. refusal.kind ≡ LineKind.Memory
        → IsOutLine (R.target_of reader.now) (R.pair_of reader.now) (R.refusal_of reader.now)
        (R.takes_memory reader.now) pairs.old.items line.now refusal.left) }
{
    let mut rest = line;
    while let Some((first, after)) = next_token(Side::Name, rest) {
        let (pair, after) = read_pair(reader, alloc, rest, first, after)?;
        if let Err(kind) = push_pair(pairs, pair) {
            return Err(kind.at(rest.len()));
        }
        rest = after_pair(after)?;
    }
    Ok(())
}

/// The pairs that the lines of a text assign, as [`read_request`](Dictionary::read_request) has them, with names and
/// texts read by `reader`.
///
/// ```rust
/// let pairs = read_pairs(dictionary, alloc, b"User-Name = \"bob\", NAS-Port = 3")?;
/// assert_eq!(rt; pairs.len(), 2);
/// ```
pub fn read_pairs<R: PairReader>(
    reader: &R,
    alloc: Global,
    text: &[u8],
) -> Result<Vec<Pair>, LineFault>
    ensures read { IfOk result (λ pairs.
        request_by (pair_assigned (R.target_of reader.now) (R.pair_of reader.now)) text.now
        ≡ Some pairs.items) }
    ensures few { IfOk result (λ pairs. length pairs.items ≤ max_pairs) }
    ensures refused { IfErr result (λ fault. fault.kind ≢ LineKind.Memory
        → request_by (pair_assigned (R.target_of reader.now) (R.pair_of reader.now)) text.now
        ≡ None) }

    // A refusal has its place in the text.
    ensures within { IfErr result (λ fault. fault.offset ≤ length text.now) }
    ensures line { IfErr result (λ fault. fault.line ≡ line_after (take fault.offset text.now)) }
    ensures filled { IfErr result (λ fault. is_before_filled fault.offset text.now ≡ true) }
    ensures place { IfErr result (λ fault. IsRefusedAt (R.target_of reader.now)
        (R.pair_of reader.now) (R.refusal_of reader.now) text.now fault.kind fault.offset) }
    ensures memory { IfErr result (λ fault. fault.kind ≡ LineKind.Memory
        → IsOutOfMemoryAt (R.target_of reader.now) (R.pair_of reader.now)
        (R.refusal_of reader.now) (R.takes_memory reader.now) text.now fault.offset) }
{
    let mut pairs = Vec::new(alloc);
    let mut rest = without_idle_lines(text);
    while let Some((line, after)) = next_line(rest) {
        if is_blank_line(line) {
            if let Err(refusal) = end_of_packet(after) {
                return Err(refusal.in_text(text, 0));
            }
            return Ok(pairs);
        }
        if let Err(refusal) = read_line(reader, alloc, line, &mut pairs) {
            return Err(refusal.in_text(text, rest.len() - line.len()));
        }
        rest = after;
    }
    Ok(pairs)
}

impl Dictionary {
    /// The request that the lines of a text spell: pairs `Name = value` with commas or line ends between them. The first
    /// blank line after a pair ends the request; only blanks and comments may follow. The first refused place of the
    /// text is reported.
    ///
    /// ```rust
    /// let request = dictionary.read_request(alloc, b"User-Name = \"bob\", NAS-Port = 3")?;
    /// assert_eq!(rt; request.len(), 2);
    /// let refused = dictionary.read_request(alloc, b"NAS-Port = three").err();
    /// let (line, offset, kind) = (1, 11, LineKind::NotValue);
    /// assert_eq!(rt; refused, Some(LineFault { line, offset, kind }));
    /// ```
    pub fn read_request(&self, alloc: Global, text: &[u8]) -> Result<Vec<Pair>, LineFault>
        ensures read { IfOk result (λ pairs. request_spelled text.now self.now ≡ Some pairs.items) }
        ensures fits { IfOk result (λ pairs.
            All (λ pair. IsTrue (fits pair self.now)) pairs.items) }
        ensures few { IfOk result (λ pairs. length pairs.items ≤ max_pairs) }

        // What is written of the pairs is read back as they are.
        ensures clean { IfOk result (λ pairs. is_clean pairs.items self.now ≡ true) }
        ensures only { IfOk result (λ pairs. (other : List Pair) → request_spelled text.now self.now
            ≡ Some other → other ≡ pairs.items) }
        ensures refused { IfErr result (λ fault. fault.kind ≢ LineKind.Memory
            → request_spelled text.now self.now ≡ None) }

        // A refusal has its place in the text.
        ensures within { IfErr result (λ fault. fault.offset ≤ length text.now) }
        ensures line { IfErr result (λ fault.
            fault.line ≡ line_after (take fault.offset text.now)) }
        ensures filled { IfErr result (λ fault. is_before_filled fault.offset text.now ≡ true) }
        ensures place { IfErr result (λ fault. IsRefusedAt (λ name. named name self.now)
            (λ target value. pair_named self.now value target)
            (λ target value. refusal_named self.now value target) text.now fault.kind
            fault.offset) }
        ensures memory { IfErr result (λ fault. fault.kind ≡ LineKind.Memory
            → IsOutOfMemoryAt (λ name. named name self.now)
            (λ target value. pair_named self.now value target)
            (λ target value. refusal_named self.now value target)
            (λ target value. takes_memory target value self.now) text.now fault.offset) }
    {
        // That each pair fits rests on what holds of the lines of every dictionary.
        self.sound();
        read_pairs(self, alloc, text)
    }
}
