//! Conditions as words: what is asked for, and behind it `not`, `and` and `or`.

use crate::words::{
    bad, code_of, fields, id_of, list_of, parts_of, relation_of, type_of, value_of,
};
use avp_dict::Dictionary;
use avp_lists::AttrId;
use server_unlang::{ServerComparand, ServerComparison, ServerCondition};
use std::alloc::Global;
use std::io;

fn comparand_of(
    alloc: Global,
    dictionary: &Dictionary,
    id: AttrId,
    words: &[&[u8]],
) -> io::Result<ServerComparand> {
    match words {
        [b"literal", digits] => {
            let value = value_of(alloc, dictionary, id, digits)?;
            Ok(ServerComparand::Literal(value))
        }
        [b"instance", list, name] => Ok(ServerComparand::Instance(
            list_of(list)?,
            id_of(dictionary, name)?,
        )),
        [b"text", kind, parts] => Ok(ServerComparand::Text(
            type_of(kind)?,
            parts_of(alloc, dictionary, parts)?,
        )),
        _ => bad(),
    }
}

// One question, its fields with `:` between.
fn question(alloc: Global, dictionary: &Dictionary, word: &[u8]) -> io::Result<ServerCondition> {
    match fields(alloc, word, b':')?.as_slice() {
        [b"code", code] => Ok(ServerCondition::Code(code_of(code)?)),
        [b"present", list, name] => Ok(ServerCondition::Present(
            list_of(list)?,
            id_of(dictionary, name)?,
        )),
        [b"compare", list, name, relation, comparand @ ..] => {
            let id = id_of(dictionary, name)?;
            Ok(ServerCondition::Compare(ServerComparison {
                list: list_of(list)?,
                id,
                relation: relation_of(relation)?,
                comparand: comparand_of(alloc, dictionary, id, comparand)?,
            }))
        }
        _ => bad(),
    }
}

fn popped(stack: &mut Vec<ServerCondition>) -> io::Result<ServerCondition> {
    match stack.pop() {
        Some(condition) => Ok(condition),
        None => bad(),
    }
}

// What a word makes of the conditions before it.
fn push_word(
    alloc: Global,
    dictionary: &Dictionary,
    stack: &mut Vec<ServerCondition>,
    word: &[u8],
) -> io::Result<()> {
    let made = match word {
        b"not" => ServerCondition::Not(Box::new(alloc, popped(stack)?)?),
        b"and" => {
            let next = Box::new(alloc, popped(stack)?)?;
            ServerCondition::And(Box::new(alloc, popped(stack)?)?, next)
        }
        b"or" => {
            let next = Box::new(alloc, popped(stack)?)?;
            ServerCondition::Or(Box::new(alloc, popped(stack)?)?, next)
        }
        asked => question(alloc, dictionary, asked)?,
    };
    Ok(stack.push(made)?)
}

pub fn condition_of(
    alloc: Global,
    dictionary: &Dictionary,
    words: &[&[u8]],
) -> io::Result<ServerCondition> {
    let mut stack = Vec::new(alloc);
    for word in words {
        push_word(alloc, dictionary, &mut stack, word)?;
    }
    popped(&mut stack)
}
