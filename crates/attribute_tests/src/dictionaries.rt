//! Calls of a dictionary that no example makes, what it says of refused memory, and its laws.

use crate::samples::read_dictionary;
use avp_dict::{Counts, DictKind, Format, Note, is_container, last_component};
use avp_lists::{AttrId, Pair};
use std::test::Fail;

#[test]
fn tells_what_a_dictionary_has(rt: HostRuntime) -> Result<(), Fail> {
    let lines = b"ATTRIBUTE A 200 integer\nVALUE A One 1\nVENDOR V 100\n$INCLUDE- gone\n";
    let dictionary = read_dictionary(rt.alloc(), lines)?;
    let counts = Counts {
        attributes: 1,
        values: 1,
        vendors: 1,
    };
    assert_eq!(rt; dictionary.counts(), counts);
    assert_eq!(rt; dictionary.notes(), [Note { file: 0, line: 4 }].as_slice());
    assert_eq!(rt; dictionary.attribute_name(0), Some(b"a".as_slice()));
    assert_eq!(rt; dictionary.vendor(100), Some(Format { t: 1, l: 1 }));
    assert_eq!(rt; last_component(b"sub/x"), b"x".as_slice());
    assert!(rt; is_container(AttrId::Plain(26)));
    let told = format!(in rt.alloc(); "{}", DictKind::Memory)?;
    assert_eq!(rt; told.as_str(), "out of memory");
    Ok(())
}

#[test]
fn laws_of_a_dictionary(rt: HostRuntime) -> Result<(), Fail> {
    let alloc = rt.alloc();
    let dictionary = read_dictionary(alloc, b"ATTRIBUTE Offset 203 signed\n")?;
    dictionary.is_sound();
    dictionary.spelled_pairs_fit();
    dictionary.spelled_values_clean();
    let named = dictionary.by_name(b"Offset").ok_or("no name")?;
    let value = dictionary.value_of_text(alloc, named, b"-2")?;
    let id = named.id;
    let pair = Pair { id, value };
    if !dictionary.fits(&pair) {
        return Err(Fail::new("the pair doesn't fit"));
    }
    let octets = dictionary.bytes_of_value(alloc, id, &pair.value)?;
    assert_eq!(rt; octets.as_slice(), [255, 255, 255, 254].as_slice());
    Ok(())
}
