//! One call of each that asks something of a condition, a text, a name or a code.

use attribute_tests::samples::test_dictionary;
use avp_dict::Dictionary;
use avp_lists::List;
use avp_unlang::{Code, Comparison, Relation};
use radpolicy_import_conditions::{
    ConditionReader, Difference, KnownCodes, Names, Operand, OtherList, PatternDifference,
    ServerCode, ServerCondition, ServerList, add_differences, alternatives, between, captures_anew,
    chain_of, compares_numbers, expansions_in, has_choices, has_pattern, is_name_octet,
    keeps_captures, list_name, parts_of, uses_captures,
};
use server_configuration::Quote;
use std::alloc::Global;
use std::test::Fail;

// Reads conditions in a section `authorize`.
fn reader(alloc: Global, dictionary: &Dictionary) -> ConditionReader<'_> {
    ConditionReader {
        alloc,
        names: Names {
            dictionary,
            others: &[],
        },
        codes: KnownCodes::of_section(b"authorize"),
        takes_patterns: true,
        is_meant: true,
    }
}

fn condition(alloc: Global, text: &[u8]) -> Result<ServerCondition, Fail> {
    let dictionary = test_dictionary(alloc)?;
    match reader(alloc, &dictionary).condition(text) {
        Ok(condition) => Ok(condition),
        Err(_) => Err(Fail::new("no condition")),
    }
}

#[test]
fn what_is_captured(rt: HostRuntime) -> Result<(), Fail> {
    let pattern = condition(rt.alloc(), b"(&User-Name =~ /a$/)")?;
    assert!(rt; has_pattern(&pattern) && captures_anew(&pattern));
    let group = condition(rt.alloc(), b"(\"%{1}\")")?;
    assert!(rt; uses_captures(&group) && keeps_captures(&group));
    let mut found = Vec::new(rt.alloc());
    add_differences(&mut found, &pattern)?;
    assert!(rt; matches!(found.as_slice(), [PatternDifference::LineFeed]));
    assert!(rt; Difference::LongText.name() == Some("long-text"));
    Ok(())
}

#[test]
fn what_is_compared(rt: HostRuntime) -> Result<(), Fail> {
    let texts = condition(rt.alloc(), b"(\"%{User-Name}\" == \"%{Reply-Message}\")")?;
    assert!(rt; texts.compares_texts() && compares_numbers(&texts));
    let code = condition(rt.alloc(), b"(notfound)")?;
    assert!(rt; matches!(code, ServerCondition::Constant(true)));
    Ok(())
}

fn bare(octets: &[u8]) -> Operand<'_> {
    Operand {
        quote: Quote::Bare,
        octets,
    }
}

#[test]
fn the_chain_of_a_switch(rt: HostRuntime) -> Result<(), Fail> {
    let dictionary = test_dictionary(rt.alloc())?;
    let reader = reader(rt.alloc(), &dictionary);
    let own = bare(b"&NAS-Port");
    assert!(rt; matches!(reader.attribute(own, true), Ok(Some(found)) if !found.is_asked()));
    let Ok(comparison) = reader.comparison(own, Relation::Equal, bare(b"1")) else {
        return Err(Fail::new("no comparison"));
    };
    let cases: Vec<Option<Comparison>> = vec![in rt.alloc(); None, Some(comparison)]?;
    let chain = chain_of(rt.alloc(), &cases)?;
    assert!(rt; chain.otherwise == Some(0));
    assert!(rt; matches!(chain.branches.as_slice(), [branch] if branch.place == 1));
    Ok(())
}

#[test]
fn texts_with_expansions(rt: HostRuntime) -> Result<(), Fail> {
    let alloc = rt.alloc();
    let text = b"a%{%{User-Name}:-b}";
    assert!(rt; has_choices(text));
    let dictionary = test_dictionary(alloc)?;
    let Ok(found) = alternatives(alloc, &reader(alloc, &dictionary).names, text) else {
        return Err(Fail::new("no alternatives"));
    };
    assert!(rt;
        matches!(found.as_slice(), [one, other]
            if one.text.as_slice() == b"a%{User-Name}".as_slice() && other.text.as_slice() == b"ab".as_slice())
    );
    let expansions = expansions_in(alloc, text)?;
    assert!(rt;
        matches!(expansions.as_slice(), [_, inner] if inner.word(text) == Some(b"User-Name".as_slice()))
    );
    assert_eq!(rt;
        between(alloc, b"(", b"a", b")")?.as_slice(),
        b"(a)".as_slice()
    );
    Ok(())
}

#[test]
fn names_of_lists(rt: HostRuntime) -> Result<(), Fail> {
    let reply = ServerList::Own(List::Reply);
    assert!(rt;
        parts_of(reply, b"control:Class:1")
            == (
                ServerList::Own(List::Control),
                b"Class".as_slice(),
                b":1".as_slice()
            )
    );
    assert!(rt; ServerList::named(b"REPLY") == Some(reply) && reply.list() == List::Reply);
    assert!(rt; OtherList::named(b"coa") == Some(OtherList::Coa));
    assert!(rt; OtherList::Coa.prefix() == b"CoA-".as_slice());
    assert!(rt; list_name(List::Request) == b"request".as_slice() && is_name_octet(b'/'));
    Ok(())
}

#[test]
fn codes_that_are_known(rt: HostRuntime) -> Result<(), Fail> {
    assert!(rt; ServerCode::named(b"userlock") == Some(ServerCode::UserLock));
    assert!(rt; ServerCode::Ok.own() == Some(Code::Ok));
    let known = KnownCodes::of_section(b"post-auth");
    assert!(rt; known.after_code(Code::Ok).after_update() != known.after_update());
    assert!(rt; known.after_server_code(ServerCode::NotFound) != known);
    assert!(rt; known.either(known) == known && known.inside() == known);
    assert!(rt; known.after_block(KnownCodes::unknown()) == KnownCodes::unknown());
    Ok(())
}
