//! Update lines that no text spells, groups that are asked for before any comparison, and laws of policies.

ghost use Rattle.std.specs.Prelude.{IfOk};
ghost use Rattle.avp_lists.specs.History.{present};
ghost use Rattle.avp_unlang.specs.Resolutions.{StateFits};

use attribute_tests::samples::test_dictionary;
use avp_dict::Dictionary;
use avp_lists::{AttrId, List, Op, Pair, Selection, SnapshotStore, Store, Value};
use avp_unlang::{
    Captured, Line, Source, Unresolved, keeps_reply_clean, one_policy, read_policy, resolve, size,
};
use std::alloc::Global;
use std::test::Fail;

// A store whose request list the text spells.
fn store_of(alloc: Global, dictionary: &Dictionary, request: &[u8]) -> Result<SnapshotStore, Fail>
    ensures { IfOk result (λ store.
        StateFits dictionary.now (present (⟦<SnapshotStore as Store>⟧.history store))) }
{
    let pairs = dictionary.read_request(alloc, request)?;
    match SnapshotStore::new(alloc, pairs, Vec::new(alloc), Vec::new(alloc)) {
        Ok(store) => Ok(store),
        Err(_) => Err(Fail::new("out of memory")),
    }
}

// What the user's name gives an attribute, of whatever type.
#[tactic(auto, unfolding(avp_unlang::specs::Resolutions::line_suits, avp_dict::specs::Limits::is_known))]
fn copied(alloc: Global, request: &[u8], number: u32) -> Result<Result<Pair, Unresolved>, Fail> {
    let dictionary = test_dictionary(alloc)?;
    let store = store_of(alloc, &dictionary, request)?;
    let line = Line {
        line: 1,
        list: List::Control,
        id: AttrId::Plain(number),
        op: Op::Replace,
        selection: Selection::All,
        source: Source::Instance(List::Request, AttrId::Plain(1)),
    };
    Ok(resolve(alloc, &dictionary, &line, &store))
}

fn number_of(given: Result<Pair, Unresolved>) -> Option<u64> {
    match given {
        Ok(pair) => match pair.value {
            Value::Int(number) => Some(number),
            _ => None,
        },
        Err(_) => None,
    }
}

#[test]
fn references(rt: HostRuntime) -> Result<(), Fail> {
    assert!(rt; copied(rt.alloc(), b"User-Name = abc", 5)? == Err(Unresolved::NotValue));
    assert_eq!(rt;
        number_of(copied(rt.alloc(), b"User-Name = abcd", 5)?),
        Some(1633837924)
    );
    Ok(())
}

#[test]
fn clean_replies(rt: HostRuntime) -> Result<(), Fail> {
    let dictionary = test_dictionary(rt.alloc())?;
    let policy = read_policy(
        rt.alloc(),
        &dictionary,
        b"if (&User-Name) {\n update reply {\n Reply-Message := \"%{User-Name}\"\n Reply-Message += &User-Name\n }\n}",
    )?;
    keeps_reply_clean(&dictionary, &policy);
    one_policy();
    assert_eq!(rt; size(&policy), 3);
    Ok(())
}

#[test]
fn nothing_captured(rt: HostRuntime) -> Result<(), Fail> {
    let mut captured = Captured::new(rt.alloc())?;
    captured.clear();
    assert!(rt; captured.keeps());
    assert_eq!(rt;
        (captured.group(0), captured.group(9)),
        (b"".as_slice(), b"".as_slice())
    );
    assert_eq!(rt; captured.group(255), b"".as_slice());
    let captured = Captured::none(rt.alloc());
    assert!(rt; !captured.keeps());
    assert_eq!(rt; captured.group(1), b"".as_slice());
    Ok(())
}
