//! Conditions, read from a text.

ghost use Rattle.std.specs.Prelude.{◌≡◌, ◌≢◌, ◌≤◌, ◌∷◌, [], suc, length, Some, IfErr, IfOk};
ghost use Rattle.avp_unlang.specs.Conditions.{Both, Closed, Either, Negated, Within, all_of, any_of};
ghost use Rattle.avp_unlang.specs.Forms.{Reads};
ghost use Rattle.avp_unlang.specs.RefusedConditions.{BothFails, ClosedFails, EitherFails, WithinFails};
ghost use Rattle.avp_unlang.specs.RefusedForms.{DeepFails, Tells};
ghost use Rattle.avp_unlang.specs.declared.text.tokens.Token.TheVariants.{Quoted};

use crate::boxed::Boxed;
use crate::faults::{PolicyKind, Position, refused_at};
use crate::items::Items;
use crate::text::cursors::{Cursor, Read};
use crate::text::operands::{quoted_operand, referred_operand, worded_operand};
use crate::text::tokens::{Sign, Token};
use crate::tree::Cond;
use avp_dict::Dictionary;
use avp_forms::Profile;
use std::alloc::Global;

// The only condition of a list, else all of them.
fn only_of(mut conds: Vec<Cond>) -> Result<Cond, Vec<Cond>>
    ensures ok { IfOk result (λ only. conds.items ≡ only ∷ []) }
    ensures err { IfErr result (λ others. (others ≡ conds) × (length conds.items ≢ 1)) }
{
    if conds.len() == 1 {
        if let Some(only) = conds.pop() {
            return Ok(only);
        }
    }
    Err(conds)
}

// Operands with `&&` between them; one is itself.
fn all_of(conds: Vec<Cond>) -> Cond
    ensures { result ≡ all_of conds.items }
{
    match only_of(conds) {
        Ok(only) => only,
        Err(conds) => Cond::All(Items::from_vec(conds)),
    }
}

// Operands with `||` between them; one is itself.
fn any_of(conds: Vec<Cond>) -> Cond
    ensures { result ≡ any_of conds.items }
{
    match only_of(conds) {
        Ok(only) => only,
        Err(conds) => Cond::Any(Items::from_vec(conds)),
    }
}

/// An operand. At most `depth` signs are nested in it.
#[cycle(conditions)]
#[inline(always)]
fn operand<'a>(
    alloc: Global,
    profile: Profile,
    dictionary: &Dictionary,
    depth: usize,
    at: Cursor<'a>,
) -> Read<'a, Cond>
    ensures read { Reads (Within profile dictionary.now (suc depth) at.entry) result }
    ensures refused { IfErr result (Tells
        (WithinFails profile dictionary.now (suc depth) at.entry)) }
    ensures shorter { IfOk result (λ x. length x.1.text ≤ length at.entry.text) }
{
    let begin = at.position();
    let (token, after) = at.next();
    match token {
        Token::Operator(Sign::Not) => negated(alloc, profile, dictionary, depth, begin, after),
        Token::Operator(Sign::Open) => closed(alloc, profile, dictionary, depth, begin, after),
        Token::Operator(Sign::Reference) => referred_operand(alloc, profile, dictionary, &after),
        Token::Word(word) => {
            worded_operand(alloc, profile, dictionary, word.as_slice(), begin, after)
        }
        Token::Quoted(mark, text) => {
            quoted_operand(alloc, profile, dictionary, mark, &text, begin, after)
        }
        _ => Err(at.unfit()),
    }
}

// The operand after a `!`, which begins here and is the token before this place.
#[cycle(conditions)]
fn negated<'a>(
    alloc: Global,
    profile: Profile,
    dictionary: &Dictionary,
    depth: usize,
    sign: Position,
    at: Cursor<'a>,
) -> Read<'a, Cond>
    ensures read { Reads (Negated (Within profile dictionary.now depth) at.entry) result }
    ensures refused { IfErr result (Tells (DeepFails depth sign.left
        (WithinFails profile dictionary.now depth) at.entry)) }
    ensures shorter { IfOk result (λ x. length x.1.text ≤ length at.entry.text) }
{
    if depth == 0 {
        return Err(refused_at(sign, PolicyKind::TooDeep));
    }
    let (cond, rest) = operand(alloc, profile, dictionary, depth - 1, at)?;
    Ok((Cond::Not(Boxed::new(alloc, cond)?), rest))
}

/// The condition after a `(`, which begins here and is the token before this place, and the `)`. At most `depth` signs
/// are nested, the `(` counted.
#[cycle(conditions)]
#[inline(always)]
pub(crate) fn closed<'a>(
    alloc: Global,
    profile: Profile,
    dictionary: &Dictionary,
    depth: usize,
    sign: Position,
    at: Cursor<'a>,
) -> Read<'a, Cond>
    ensures read { Reads (Closed (Within profile dictionary.now depth) at.entry) result }
    ensures refused { IfErr result (Tells (ClosedFails depth sign.left
        (Within profile dictionary.now depth) (WithinFails profile dictionary.now depth)
        at.entry)) }
    ensures shorter { IfOk result (λ x. length x.1.text ≤ length at.entry.text) }
{
    if depth == 0 {
        return Err(refused_at(sign, PolicyKind::TooDeep));
    }
    let (cond, end) = either(alloc, profile, dictionary, depth - 1, at)?;
    let rest = end.expect(Sign::Close)?;
    Ok((cond, rest))
}

// Operands with `&&` between them.
#[cycle(conditions)]
#[inline(always)]
fn both<'a>(
    alloc: Global,
    profile: Profile,
    dictionary: &Dictionary,
    depth: usize,
    at: Cursor<'a>,
) -> Read<'a, Cond>
    ensures read { Reads (Both (Within profile dictionary.now (suc depth)) at.entry) result }
    ensures refused { IfErr result (Tells (BothFails (Within profile dictionary.now (suc depth))
        (WithinFails profile dictionary.now (suc depth)) at.entry)) }
    ensures shorter { IfOk result (λ x. length x.1.text ≤ length at.entry.text) }
{
    let (first, mut rest) = operand(alloc, profile, dictionary, depth, at)?;
    if !rest.is_before(Sign::And) {
        return Ok((first, rest));
    }
    let mut conds = Vec::new(alloc);
    conds.push(first)?;
    while let Some(next) = rest.after_sign(Sign::And) {
        let (cond, end) = operand(alloc, profile, dictionary, depth, next)?;
        conds.push(cond)?;
        rest = end;
    }
    Ok((all_of(conds), rest))
}

// Operands with `&&`, and `||` between these.
#[cycle(conditions)]
#[inline(always)]
fn either<'a>(
    alloc: Global,
    profile: Profile,
    dictionary: &Dictionary,
    depth: usize,
    at: Cursor<'a>,
) -> Read<'a, Cond>
    ensures read { Reads (Either (Within profile dictionary.now (suc depth)) at.entry) result }
    ensures refused { IfErr result (Tells (EitherFails (Within profile dictionary.now (suc depth))
        (WithinFails profile dictionary.now (suc depth)) at.entry)) }
    ensures shorter { IfOk result (λ x. length x.1.text ≤ length at.entry.text) }
{
    let (first, mut rest) = both(alloc, profile, dictionary, depth, at)?;
    if !rest.is_before(Sign::Or) {
        return Ok((first, rest));
    }
    let mut conds = Vec::new(alloc);
    conds.push(first)?;
    while let Some(next) = rest.after_sign(Sign::Or) {
        let (cond, end) = both(alloc, profile, dictionary, depth, next)?;
        conds.push(cond)?;
        rest = end;
    }
    Ok((any_of(conds), rest))
}
