//! Sections and named policies, and what comes with their policies.

use crate::import::memory_files::{MemoryFile, MemoryFiles};
use attribute_tests::samples::test_dictionary;
use avp_dict::Dictionary;
use avp_forms::Profile;
use avp_lists::List;
use avp_unlang::Items;
use radpolicy_import_conditions::{KnownCodes, Names};
use radpolicy_import_policies::{
    Imported, LineEnds, Meaning, Origin, SectionKind, Settings, Statement, Wanted, add_initial,
    count_of, import_statements, initial_template, origin_map, origin_of, origin_path, policy_of,
    push_origin, section_of, statements_of, wanted_attributes,
};
use server_configuration::{Configuration, read_configuration};
use std::alloc::Global;
use std::test::Fail;

pub(crate) fn configuration(alloc: Global, text: &[u8]) -> Result<Configuration, Fail> {
    let files = [MemoryFile {
        path: b"r/main",
        octets: text,
    }];
    match read_configuration(alloc, &MemoryFiles { files: &files }, b"r/main") {
        Ok(read) => Ok(read),
        Err(_) => Err(Fail::new("no configuration")),
    }
}

// The statements of the section `authorize`.
pub(crate) fn authorize(
    alloc: Global,
    configuration: &Configuration,
) -> Result<Items<Statement>, Fail> {
    let wanted = Wanted {
        server: None,
        section: b"authorize",
        second: None,
    };
    let Some(place) = section_of(configuration, wanted) else {
        return Err(Fail::new("no section"));
    };
    match statements_of(alloc, configuration, Some(place), b"authorize") {
        Ok(statements) => Ok(statements),
        Err(_) => Err(Fail::new("no statements")),
    }
}

// A server's meaning, without comments at the ends of lines.
pub(crate) fn settings<'a>() -> Settings<'a> {
    Settings {
        meaning: Meaning::Server,
        line_ends: LineEnds::Nothing,
        profile: Profile::Wider,
        modules: &[],
        others: &[],
        codes: KnownCodes::unknown(),
        section: SectionKind::named(b"authorize"),
        initial: 0,
        hidden: None,
    }
}

// What statements become.
pub(crate) fn imported(
    alloc: Global,
    configuration: &Configuration,
    dictionary: &Dictionary,
    settings: Settings<'_>,
    statements: &[Statement],
) -> Result<Imported, Fail> {
    match import_statements(alloc, configuration, dictionary, settings, statements) {
        Ok(imported) => Ok(imported),
        Err(_) => Err(Fail::new("no policy")),
    }
}

#[test]
fn a_section(rt: HostRuntime) -> Result<(), Fail> {
    let alloc = rt.alloc();
    let read = configuration(alloc, b"authorize {\n if (&User-Name) {\n sql\n ok\n }\n}")?;
    let statements = authorize(alloc, &read)?;
    let statements = statements.as_slice();
    assert!(rt; count_of(statements) == Some(2));
    let dictionary = test_dictionary(alloc)?;
    let imported = imported(alloc, &read, &dictionary, settings(), statements)?;
    let wanted = b"if (&User-Name) {\n\t# module sql\n\tok\n}\n";
    assert_eq!(rt; imported.text.as_slice(), wanted.as_slice());
    assert!(rt; (imported.kept, imported.read, imported.calls) == (2, 2, 1));
    let map = origin_map(alloc, &read, &imported.lines)?;
    assert_eq!(rt;
        map.as_slice(),
        b"1 main:2\n2 main:3\n3 main:4\n4 main:2\n".as_slice()
    );
    Ok(())
}

#[test]
fn where_a_policy_begins(rt: HostRuntime) -> Result<(), Fail> {
    let alloc = rt.alloc();
    let read = configuration(alloc, b"policy {\n\n p {\n ok\n }\n}")?;
    let Some(place) = policy_of(&read, b"p") else {
        return Err(Fail::new("no policy"));
    };
    let Some(origin) = origin_of(&read, place) else {
        return Err(Fail::new("no place"));
    };
    assert!(rt; origin == Origin { file: 0, line: 3 });
    assert_eq!(rt; origin_path(&read, origin), b"main".as_slice());
    let mut text = Vec::from_slice(alloc, b"at ")?;
    push_origin(&mut text, &read, origin)?;
    assert_eq!(rt; text.as_slice(), b"at main:3".as_slice());
    Ok(())
}

#[test]
fn initial_lists(rt: HostRuntime) -> Result<(), Fail> {
    let alloc = rt.alloc();
    let text = b"authorize {\n if (&control:User-Name == &reply:Reply-Message) {\n ok\n }\n}";
    let mut read = configuration(alloc, text)?;
    let statements = authorize(alloc, &read)?;
    let Ok(count) = add_initial(alloc, &mut read, b"first", b"control:User-Name = 'bob'\n") else {
        return Err(Fail::new("no items"));
    };
    let settings = Settings {
        initial: count,
        ..settings()
    };
    let dictionary = test_dictionary(alloc)?;
    let imported = imported(alloc, &read, &dictionary, settings, statements.as_slice())?;
    assert!(rt;
        imported.text.starts_with(b"# initial lists\nupdate control {\n\tUser-Name += \"bob\"\n}\n")
    );
    let wanted = wanted_attributes(alloc, &imported.policy)?;
    assert!(rt; matches!(wanted.as_slice(), [one] if one.list == List::Reply && one.line == 5));
    let names = Names {
        dictionary: &dictionary,
        others: &[],
    };
    let template = initial_template(alloc, &read, names, None, &imported)?;
    assert_eq!(rt;
        template.as_slice(),
        b"# main:2\n#reply:Reply-Message = \n".as_slice()
    );
    Ok(())
}
