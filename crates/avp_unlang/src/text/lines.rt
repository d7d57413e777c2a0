//! The lines of an `update`.

ghost use Rattle.std.specs.Prelude.{◌≡◌, ◌≤◌, ◌<◌, length, IfErr, IfOk};
ghost use Rattle.avp_unlang.specs.Forms.{Reads, While};
ghost use Rattle.avp_unlang.specs.Lines.{LineIs, OpIs, after_reference, begins_line, op_of};
ghost use Rattle.avp_unlang.specs.RefusedForms.{Tells, WhileFails};
ghost use Rattle.avp_unlang.specs.RefusedLines.{LineFails, NamedFails, OpFails};
ghost use Rattle.avp_unlang.specs.internal.Targets.{NamedIs};

use crate::faults::PolicyKind;
use crate::items::Items;
use crate::text::cursors::{Cursor, Read};
use crate::text::references::{Reference, reference_in};
use crate::text::selecting::line_selection;
use crate::text::sources::source;
use crate::text::tokens::{Sign, Token};
use crate::tree::{Line, Lines};
use avp_dict::Dictionary;
use avp_forms::Profile;
use avp_lists::{List, Op};
use std::alloc::Global;

// The place after an `&`, if there is one.
#[tactic(auto, unfolding(crate::specs::Lines::after_reference))]
fn after_reference<'a>(at: Cursor<'a>) -> Cursor<'a>
    ensures same { result ≡ after_reference at.entry }
    ensures within { length result.text ≤ length at.entry.text }
{
    match at.token() {
        Token::Operator(Sign::Reference) => at.after(),
        _ => at,
    }
}

// The target of a line, after its `&`.
fn named_target<'a>(
    profile: Profile,
    dictionary: &Dictionary,
    own: List,
    at: &Cursor<'a>,
) -> Read<'a, Reference>
    ensures read { Reads (NamedIs profile dictionary.now own at.now) result }
    ensures refused { IfErr result (Tells (NamedFails profile dictionary.now own at.now)) }
    ensures shorter { IfOk result (λ x. length x.1.text < length at.now.text) }
{
    let (token, after) = at.next();
    match &token {
        Token::Word(word) => match reference_in(profile, dictionary, own, word.as_slice()) {
            None => Err(at.refused(PolicyKind::Unknown)),
            Some(found) => Ok((found, after)),
        },
        _ => Err(at.unfit()),
    }
}

#[tactic(auto, unfolding(crate::specs::Lines::op_of))]
fn op_of(token: &Token) -> Option<Op>
    ensures { result ≡ op_of token.now }
{
    match token {
        Token::Operator(Sign::AddNew) => Some(Op::AddNew),
        Token::Operator(Sign::Replace) => Some(Op::Replace),
        Token::Operator(Sign::Append) => Some(Op::Append),
        Token::Operator(Sign::Prepend) => Some(Op::Prepend),
        Token::Operator(Sign::RemoveEqual) => Some(Op::RemoveEqual),
        Token::Operator(Sign::Equal) => Some(Op::KeepEqual),
        Token::Operator(Sign::RemoveAll) => Some(Op::RemoveAll),
        _ => None,
    }
}

fn operator<'a>(at: &Cursor<'a>) -> Read<'a, Op>
    ensures read { Reads (OpIs at.now) result }
    ensures refused { IfErr result (Tells (OpFails at.now)) }
    ensures shorter { IfOk result (λ x. length x.1.text ≤ length at.now.text) }
{
    let (token, after) = at.next();
    match op_of(&token) {
        None => Err(at.unfit()),
        Some(operation) => Ok((operation, after)),
    }
}

// A line of an `update` of this list.
fn line<'a>(
    alloc: Global,
    profile: Profile,
    dictionary: &Dictionary,
    own: List,
    at: Cursor<'a>,
) -> Read<'a, Line>
    ensures read { Reads (LineIs profile dictionary.now own at.entry) result }
    ensures refused { IfErr result (Tells (LineFails profile dictionary.now own at.entry)) }
    ensures shorter { IfOk result (λ x. length x.1.text < length at.entry.text) }
{
    let first = at.position();
    let start = at.count(1, first)?;
    let begin = after_reference(start);
    let name = begin.position();
    let (found, mid) = named_target(profile, dictionary, own, &begin)?;
    let (op, end) = operator(&mid)?;
    let (source, rest) = source(alloc, profile, dictionary, op, found.target, name, &end)?;
    let line = Line {
        line: first.line,
        list: found.list,
        id: found.target.named.id,
        op,
        selection: line_selection(profile, dictionary, op, found.target),
        source,
    };
    Ok((line, rest))
}

fn begins_line(at: &Cursor) -> bool
    ensures { result ≡ begins_line at.now }
{
    matches!(
        at.token(),
        Token::Operator(Sign::Reference) | Token::Word(_)
    )
}

/// The lines of an `update` of this list.
pub(crate) fn lines<'a>(
    alloc: Global,
    profile: Profile,
    dictionary: &Dictionary,
    own: List,
    at: Cursor<'a>,
) -> Read<'a, Lines>
    ensures read { Reads (While begins_line (LineIs profile dictionary.now own) at.entry) result }
    ensures refused { IfErr result (Tells (WhileFails begins_line
        (LineIs profile dictionary.now own) (LineFails profile dictionary.now own) at.entry)) }
    ensures shorter { IfOk result (λ x. length x.1.text ≤ length at.entry.text) }
{
    let mut lines = Vec::new(alloc);
    let mut rest = at;
    while begins_line(&rest) {
        let (found, end) = line(alloc, profile, dictionary, own, rest)?;
        lines.push(found)?;
        rest = end;
    }
    Ok((Items::from_vec(lines), rest))
}
