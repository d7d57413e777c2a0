//! Statements, read from a text.

ghost use Rattle.std.specs.Prelude.{◌≡◌, ◌≤◌, ◌<◌, suc, length, IfErr, IfOk};
ghost use Rattle.avp_unlang.specs.Forms.{Reads, While};
ghost use Rattle.avp_unlang.specs.Lines.{LineIs, begins_line};
ghost use Rattle.avp_unlang.specs.RefusedForms.{Lacks, Tells, WhileFails};
ghost use Rattle.avp_unlang.specs.RefusedStatements.{BlockFails, BranchFails, BranchesFail, IfFails, NestedFails, OtherwiseFails, TransactionFails, UpdateFails, UpdateFailsOn};
ghost use Rattle.avp_unlang.specs.Statements.{BlockIs, BranchIs, BranchesAre, IfIs, Nested, Otherwise, StatementFrom, TransactionOn, WordOn, begins_word, keyword_in, keyword_named, list_at};
ghost use Rattle.avp_unlang.specs.declared.text.statements.Keyword.TheVariants as keyword;

use crate::codes::{Code, code_named};
use crate::faults::{PolicyKind, Position, refused_at};
use crate::items::Items;
use crate::text::conditions::closed;
use crate::text::cursors::{Cursor, Read};
use crate::text::lines::lines;
use crate::text::references::list_named;
use crate::text::tokens::{Sign, Token};
use crate::tree::{Block, Branch, Branches, Lines, Statement};
use avp_dict::Dictionary;
use avp_forms::Profile;
use avp_lists::List;
use std::alloc::Global;

/// What a word begins where a statement may begin.
#[derive(Clone, Copy)]
pub(crate) enum Keyword {
    Update,
    If,
    Transaction,
    Code(Code),
    /// No statement.
    Other,
}

#[tactic(auto, unfolding(crate::specs::Statements::keyword_named))]
#[inline(always)]
fn keyword_named(word: &[u8]) -> Keyword
    ensures { result ≡ keyword_named word.now }
{
    match word {
        b"if" => Keyword::If,
        _ if word == b"update".as_slice() => Keyword::Update,
        _ if word == b"transaction".as_slice() => Keyword::Transaction,
        _ => match code_named(word) {
            None => Keyword::Other,
            Some(code) => Keyword::Code(code),
        },
    }
}

#[inline(always)]
fn keyword_in(token: &Token) -> Keyword
    ensures { result ≡ keyword_in token.now }
{
    match token {
        Token::Word(word) => keyword_named(word.as_slice()),
        _ => Keyword::Other,
    }
}

#[inline(always)]
fn begins_word(at: &Cursor) -> bool
    ensures { result ≡ begins_word at.now }
{
    matches!(at.token(), Token::Word(_))
}

// The list that is named next, else the request's.
#[tactic(auto, unfolding(crate::specs::Statements::list_at))]
fn list_at<'a>(at: Cursor<'a>) -> (List, Cursor<'a>)
    ensures same { result ≡ list_at at.entry }
    ensures within { length result.1.text ≤ length at.entry.text }
{
    if let Token::Word(word) = at.token() {
        if let Some(list) = list_named(word.as_slice()) {
            return (list, at.after());
        }
    }
    (List::Request, at)
}

// `{`, lines of this list and `}`.
fn line_block<'a>(
    alloc: Global,
    profile: Profile,
    dictionary: &Dictionary,
    depth: usize,
    own: List,
    at: Cursor<'a>,
) -> Read<'a, Lines>
    ensures read { Reads (BlockIs depth begins_line (LineIs profile dictionary.now own) at.entry)
        result }
    ensures refused { IfErr result (Tells
        (UpdateFailsOn profile dictionary.now depth own at.entry)) }
    ensures shorter { IfOk result (λ x. length x.1.text < length at.entry.text) }
{
    let sign = at.position();
    let start = at.expect(Sign::BlockStart)?;
    if depth == 0 {
        return Err(refused_at(sign, PolicyKind::TooDeep));
    }
    let (found, end) = lines(alloc, profile, dictionary, own, start)?;
    let rest = end.expect(Sign::BlockEnd)?;
    Ok((found, rest))
}

// What follows the word `update`, which is the token before this place.
fn update<'a>(
    alloc: Global,
    profile: Profile,
    dictionary: &Dictionary,
    depth: usize,
    at: Cursor<'a>,
) -> Read<'a, Statement>
    ensures read { Reads (StatementFrom profile dictionary.now depth
        (Nested profile dictionary.now depth) keyword.Update at.entry) result }
    ensures refused { IfErr result (Tells (UpdateFails profile dictionary.now depth at.entry)) }
    ensures shorter { IfOk result (λ x. length x.1.text < length at.entry.text) }
{
    let line = at.line();
    let (own, start) = list_at(at);
    let (found, rest) = line_block(alloc, profile, dictionary, depth, own, start)?;
    Ok((Statement::Update(line, found), rest))
}

// A code, which begins here and is the token before this place.
#[inline(always)]
fn word<'a>(code: Code, begin: Position, at: Cursor<'a>) -> Read<'a, Statement>
    ensures read { Reads (WordOn code at.entry.line at.entry) result }
    ensures refused { IfErr result (Tells (Lacks 1 begin.left at.entry)) }
    ensures shorter { IfOk result (λ x. length x.1.text ≤ length at.entry.text) }
{
    let line = at.line();
    let rest = at.count(1, begin)?;
    Ok((Statement::Word(line, code), rest))
}

/// A statement. At most `depth` signs are nested in it.
#[cycle(statements)]
#[inline(always)]
fn statement<'a>(
    alloc: Global,
    profile: Profile,
    dictionary: &Dictionary,
    depth: usize,
    at: Cursor<'a>,
) -> Read<'a, Statement>
    ensures read { Reads (Nested profile dictionary.now (suc depth) at.entry) result }
    ensures refused { IfErr result (Tells
        (NestedFails profile dictionary.now (suc depth) at.entry)) }
    ensures shorter { IfOk result (λ x. length x.1.text < length at.entry.text) }
{
    let begin = at.position();
    let (token, after) = at.next();
    match keyword_in(&token) {
        Keyword::Update => update(alloc, profile, dictionary, depth, after),
        Keyword::If => conditional(alloc, profile, dictionary, depth, begin, after),
        Keyword::Transaction => transaction(alloc, profile, dictionary, depth, begin, after),
        Keyword::Code(code) => word(code, begin, after),
        Keyword::Other => Err(at.unfit()),
    }
}

// What follows the word `transaction`, which begins here and is the token before this place.
#[cycle(statements)]
fn transaction<'a>(
    alloc: Global,
    profile: Profile,
    dictionary: &Dictionary,
    depth: usize,
    begin: Position,
    at: Cursor<'a>,
) -> Read<'a, Statement>
    ensures read { Reads (TransactionOn depth (Nested profile dictionary.now depth) at.entry.line
        at.entry) result }
    ensures refused { IfErr result (Tells (TransactionFails profile dictionary.now depth
        (Nested profile dictionary.now depth) (NestedFails profile dictionary.now depth)
        begin.left at.entry)) }
    ensures shorter { IfOk result (λ x. length x.1.text < length at.entry.text) }
{
    let line = at.line();
    let start = at.count(2, begin)?;
    let (found, rest) = block(alloc, profile, dictionary, depth, start)?;
    Ok((Statement::Transaction(line, found), rest))
}

// What follows the word `if`, which begins here and is the token before this place.
#[cycle(statements)]
#[inline(always)]
fn conditional<'a>(
    alloc: Global,
    profile: Profile,
    dictionary: &Dictionary,
    depth: usize,
    begin: Position,
    at: Cursor<'a>,
) -> Read<'a, Statement>
    ensures read { Reads (IfIs profile dictionary.now depth (Nested profile dictionary.now depth)
        at.entry) result }
    ensures refused { IfErr result (Tells (IfFails profile dictionary.now depth
        (Nested profile dictionary.now depth) (NestedFails profile dictionary.now depth)
        begin.left at.entry)) }
    ensures shorter { IfOk result (λ x. length x.1.text < length at.entry.text) }
{
    let (branches, mid) = branches(alloc, profile, dictionary, depth, begin, at)?;
    let (otherwise, rest) = otherwise(alloc, profile, dictionary, depth, mid)?;
    Ok((Statement::If(branches, otherwise), rest))
}

// The branch of an `if`, which begins here, and those of each `elsif` after it.
#[cycle(statements)]
#[inline(always)]
fn branches<'a>(
    alloc: Global,
    profile: Profile,
    dictionary: &Dictionary,
    depth: usize,
    begin: Position,
    at: Cursor<'a>,
) -> Read<'a, Branches>
    ensures read { Reads (BranchesAre profile dictionary.now depth
        (Nested profile dictionary.now depth) at.entry) result }
    ensures refused { IfErr result (Tells (BranchesFail profile dictionary.now depth
        (Nested profile dictionary.now depth) (NestedFails profile dictionary.now depth)
        begin.left at.entry)) }
    ensures shorter { IfOk result (λ x. length x.1.text < length at.entry.text) }
{
    let (first, mut rest) = branch(alloc, profile, dictionary, depth, begin, at)?;
    let mut branches = vec![in alloc; first]?;
    while let Some(next) = rest.after_word(b"elsif") {
        let (branch, end) = branch(alloc, profile, dictionary, depth, rest.position(), next)?;
        branches.push(branch)?;
        rest = end;
    }
    Ok((Items::from_vec(branches), rest))
}

// A condition in brackets and a block; the word before them begins here and is the token before this place.
#[cycle(statements)]
#[inline(always)]
fn branch<'a>(
    alloc: Global,
    profile: Profile,
    dictionary: &Dictionary,
    depth: usize,
    begin: Position,
    at: Cursor<'a>,
) -> Read<'a, Branch>
    ensures read { Reads (BranchIs profile dictionary.now depth
        (Nested profile dictionary.now depth) at.entry) result }
    ensures refused { IfErr result (Tells (BranchFails profile dictionary.now depth
        (Nested profile dictionary.now depth) (NestedFails profile dictionary.now depth)
        begin.left at.entry)) }
    ensures shorter { IfOk result (λ x. length x.1.text < length at.entry.text) }
{
    let line = at.line();
    let start = at.count(1, begin)?;
    let sign = start.position();
    let opened = start.expect(Sign::Open)?;
    let (cond, next) = closed(alloc, profile, dictionary, depth, sign, opened)?;
    let (block, rest) = block(alloc, profile, dictionary, depth, next)?;
    Ok((Branch { line, cond, block }, rest))
}

// `else` and its block, if it comes next.
#[cycle(statements)]
#[inline(always)]
fn otherwise<'a>(
    alloc: Global,
    profile: Profile,
    dictionary: &Dictionary,
    depth: usize,
    at: Cursor<'a>,
) -> Read<'a, Option<Block>>
    ensures read { Reads (Otherwise depth (Nested profile dictionary.now depth) at.entry) result }
    ensures refused { IfErr result (Tells (OtherwiseFails profile dictionary.now depth
        (Nested profile dictionary.now depth) (NestedFails profile dictionary.now depth)
        at.entry)) }
    ensures shorter { IfOk result (λ x. length x.1.text ≤ length at.entry.text) }
{
    match at.after_word(b"else") {
        None => Ok((None, at)),
        Some(next) => {
            let (found, rest) = block(alloc, profile, dictionary, depth, next)?;
            Ok((Some(found), rest))
        }
    }
}

// `{`, statements and `}`.
#[cycle(statements)]
fn block<'a>(
    alloc: Global,
    profile: Profile,
    dictionary: &Dictionary,
    depth: usize,
    at: Cursor<'a>,
) -> Read<'a, Block>
    ensures read { Reads (BlockIs depth begins_word (Nested profile dictionary.now depth) at.entry)
        result }
    ensures refused { IfErr result (Tells (BlockFails depth begins_word
        (Nested profile dictionary.now depth) (NestedFails profile dictionary.now depth)
        at.entry)) }
    ensures shorter { IfOk result (λ x. length x.1.text < length at.entry.text) }
{
    let sign = at.position();
    let start = at.expect(Sign::BlockStart)?;
    if depth == 0 {
        return Err(refused_at(sign, PolicyKind::TooDeep));
    }
    let (found, end) = statements(alloc, profile, dictionary, depth - 1, start)?;
    let rest = end.expect(Sign::BlockEnd)?;
    Ok((found, rest))
}

/// Statement after statement. At most `depth` signs are nested in each.
#[cycle(statements)]
pub(crate) fn statements<'a>(
    alloc: Global,
    profile: Profile,
    dictionary: &Dictionary,
    depth: usize,
    at: Cursor<'a>,
) -> Read<'a, Block>
    ensures read { Reads (While begins_word (Nested profile dictionary.now (suc depth)) at.entry)
        result }
    ensures refused { IfErr result (Tells (WhileFails begins_word
        (Nested profile dictionary.now (suc depth)) (NestedFails profile dictionary.now (suc depth))
        at.entry)) }
    ensures shorter { IfOk result (λ x. length x.1.text ≤ length at.entry.text) }
{
    let mut statements = Vec::new(alloc);
    let mut rest = at;
    while begins_word(&rest) {
        let (found, end) = statement(alloc, profile, dictionary, depth, rest)?;
        statements.push(found)?;
        rest = end;
    }
    Ok((Items::from_vec(statements), rest))
}
