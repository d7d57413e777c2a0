//! Attributes in place of what policies do not have, and their dictionary.

use crate::import::imports::{authorize, configuration, imported, settings};
use attribute_tests::samples::{file, one_file};
use avp_dict::{Dictionary, FileSet};
use radpolicy_import_conditions::{Names, OtherAttribute};
use radpolicy_import_policies::{
    Imported, SectionKind, Settings, Stubs, keeps_names, other_attributes, other_dictionary,
    unset_attributes,
};
use std::alloc::Global;
use std::test::Fail;

const ATTRIBUTES: &[u8] = b"ATTRIBUTE User-Name 1 string\n\
    ATTRIBUTE Tunnel-Type 64 integer has_tag\nVALUE Tunnel-Type VLAN 13\n\
    ATTRIBUTE Auth-Type 1000 integer\nVALUE Auth-Type Accept 254\n";

const CONFIGURATION: &[u8] =
    b"authorize {\n if (&outer.request:User-Name) {\n update outer.reply {\n \
    Tunnel-Type:1 := VLAN\n User-Name := \"%{session-state:User-Name}\"\n }\n }\n \
    if (\"%{sql:SELECT '%{User-Name}'}\" == \"x\") {\n reject\n }\n \
    if (\"%{sql:SELECT '%{User-Name}'}\" != 'y') {\n ok\n }\n}";

fn dictionary_of(alloc: Global, files: &FileSet) -> Result<Dictionary, Fail> {
    if files.is_empty() || !files.has_distinct_names() {
        return Err(Fail::new("no files"));
    }
    Ok(Dictionary::read(alloc, files)?)
}

// The dictionary of the attributes alone.
fn plain(alloc: Global) -> Result<Dictionary, Fail> {
    dictionary_of(alloc, &one_file(alloc, ATTRIBUTES)?)
}

// The attributes in place of what the section names and policies do not have.
fn others(alloc: Global) -> Result<Vec<OtherAttribute>, Fail> {
    let read = configuration(alloc, CONFIGURATION)?;
    let statements = authorize(alloc, &read)?;
    let (stubs, section) = (Stubs::Asking, SectionKind::Access);
    let statements = statements.as_slice();
    let dictionary = plain(alloc)?;
    Ok(other_attributes(alloc, &read, &dictionary, stubs, section, &[], statements)?)
}

// The dictionary that defines them, in front of the other.
fn both(alloc: Global, others: &[OtherAttribute]) -> Result<Dictionary, Fail> {
    let files = one_file(alloc, ATTRIBUTES)?;
    let defined = other_dictionary(alloc, &files, &plain(alloc)?, others)?;
    let all = vec![in alloc;
        file(alloc, b"others", &defined)?,
        file(alloc, b"d", ATTRIBUTES)?,
    ]?;
    dictionary_of(alloc, &FileSet::from_vec(all))
}

// What the section becomes by that dictionary.
fn policy(
    alloc: Global,
    dictionary: &Dictionary,
    others: &[OtherAttribute],
) -> Result<Imported, Fail> {
    let read = configuration(alloc, CONFIGURATION)?;
    let statements = authorize(alloc, &read)?;
    let settings = Settings {
        others,
        ..settings()
    };
    imported(alloc, &read, dictionary, settings, statements.as_slice())
}

#[test]
fn attributes_of_control(rt: HostRuntime) -> Result<(), Fail> {
    let alloc = rt.alloc();
    let others = others(alloc)?;
    let dictionary = both(alloc, &others)?;
    let imported = policy(alloc, &dictionary, &others)?;
    let unset = unset_attributes(alloc, &dictionary, &imported.policy, &others)?;
    assert!(rt; (unset.len(), imported.given) == (3, 2));
    let names = Names {
        dictionary: &dictionary,
        others: &others,
    };
    assert!(rt; names.asked(b"sql:SELECT '%{User-Name}'").is_some());
    assert!(rt; names.returned().is_none());
    Ok(())
}

#[test]
fn names_stay_what_they_were(rt: HostRuntime) -> Result<(), Fail> {
    let alloc = rt.alloc();
    let plain = plain(alloc)?;
    let both = both(alloc, &others(alloc)?)?;
    assert!(rt; keeps_names(&plain, &both));
    let other = one_file(alloc, b"ATTRIBUTE User-Name 1 octets\n")?;
    assert!(rt; !keeps_names(&plain, &dictionary_of(alloc, &other)?));
    Ok(())
}
