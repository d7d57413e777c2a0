//! Calls of values of forms that no example makes.

ghost use Rattle.std.specs.Prelude.{IsTrue};
ghost use Rattle.avp_forms.specs.Expansions.{is_printed_by_type};

use crate::samples::read_dictionary;
use avp_dict::{Form, is_container};
use avp_forms::{Expansion, FormValue, Profile, expansion_of, printed_octets, text_put};
use avp_lists::{AttrId, Octets, Pair, Value};
use std::cmp::Ordering;
use std::test::Fail;

const LINE: &[u8] = b"ATTRIBUTE Tunnel-Private-Group-Id 81 string has_tag\n";

const GROUP: AttrId = AttrId::Plain(81);

#[test]
fn texts_and_octets(rt: HostRuntime) -> Result<(), Fail> {
    let alloc = rt.alloc();
    let dictionary = read_dictionary(alloc, LINE)?;
    let value = FormValue::of_text(alloc, &dictionary, GROUP, 2, None, b"40")?;
    let octets = value.to_octets(alloc)?;
    assert_eq!(rt; octets.as_slice(), b"\x0240".as_slice());
    let text = value.text(alloc, &dictionary, GROUP)?;
    assert_eq!(rt; text.as_slice(), b"40".as_slice());
    let printed = value.printed_text(alloc, &dictionary, GROUP)?;
    assert_eq!(rt; printed.as_slice(), b"\"40\"".as_slice());
    let form = Form::TaggedString;
    let meant = FormValue::of_octets(alloc, form, &octets)?.ok_or("no meaning")?;
    assert_eq!(rt; meant.compare(&value), Some(Ordering::Equal));
    let printed = printed_octets(alloc, &dictionary, form, GROUP, &octets)?;
    assert_eq!(rt; printed.as_slice(), b"\"40\"".as_slice());
    Ok(())
}

#[test]
fn texts_put_in(rt: HostRuntime) -> Result<(), Fail> {
    let alloc = rt.alloc();
    let dictionary = read_dictionary(alloc, LINE)?;
    let value = Value::Bytes(Octets::from_slice(alloc, b"\x0230")?);
    let pair = Pair { id: GROUP, value };
    if !dictionary.fits(&pair) || is_container(pair.id) || dictionary.by_id(pair.id).is_none() {
        return Err(Fail::new("no value of the attribute"));
    }
    let text = text_put(alloc, &dictionary, Profile::Wider, pair.id, &pair.value)?;
    assert_eq!(rt; text.as_slice(), b"30".as_slice());
    match expansion_of(&dictionary, pair.id, &pair.value) {
        Expansion::Octets(octets) => assert_eq!(rt; octets, b"30".as_slice()),
        _ => panic!(rt; "no octets"),
    }
    Ok(())
}
