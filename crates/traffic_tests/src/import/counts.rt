//! How many statements each line of a policy is.

use crate::import::imports::{authorize, configuration, imported, settings};
use attribute_tests::samples::test_dictionary;
use radpolicy_import_policies::{ImportFault, import_statements};
use std::alloc::Global;
use std::test::Fail;

// How many statements each line is of what the section becomes.
fn counts(alloc: Global, text: &[u8]) -> Result<Vec<usize>, Fail> {
    let read = configuration(alloc, text)?;
    let statements = authorize(alloc, &read)?;
    let dictionary = test_dictionary(alloc)?;
    let imported = imported(alloc, &read, &dictionary, settings(), statements.as_slice())?;
    let mut counts = Vec::new(alloc);
    for line in &imported.lines {
        counts.push(line.statements)?;
    }
    Ok(counts)
}

// Sections, and the statements of each line.
const COUNTS: [(&[u8], &[usize]); 3] = [
    // The last line's `if`, `update` and braces belong to it.
    (
        b"authorize {\n update reply {\n Session-Timeout := 60\n Class := 1\n }\n \
        group {\n update reply {\n Class := &Class\n }\n }\n}",
        &[0, 1, 1, 0, 2, 0, 0, 0, 0],
    ),
    // `if`, `# policy p`, `ok`, `}`, `elsif`, `# module sql`, `}`, `else`, `reject`, `}`, `# return`.
    (
        b"policy {\n p {\n ok\n }\n}\nauthorize {\n if (&Class) {\n p\n }\n \
        elsif (&NAS-Port) {\n sql\n }\n else {\n reject\n }\n return\n}",
        &[1, 1, 1, 0, 1, 0, 0, 1, 1, 0, 1],
    ),
    // A switch counts at its first line; its default by itself has none of its own.
    (
        b"authorize {\n switch &User-Name {\n case \"bob\" {\n ok\n }\n case {\n reject\n }\n \
        }\n switch &User-Name {\n case {\n noop\n }\n }\n}",
        &[2, 1, 0, 1, 1, 0, 3],
    ),
];

#[test]
fn of_each_line(rt: HostRuntime) -> Result<(), Fail> {
    for (text, wanted) in COUNTS {
        let counts = counts(rt.alloc(), text)?;
        assert_eq!(rt; counts.as_slice(), wanted);
    }
    Ok(())
}

#[test]
fn of_statements_of_another_configuration(rt: HostRuntime) -> Result<(), Fail> {
    let (alloc, settings) = (rt.alloc(), settings());
    let read = configuration(alloc, b"authorize {\n ok\n}")?;
    let statements = authorize(alloc, &read)?;
    let other = configuration(alloc, b"authorize {\n}")?;
    let dictionary = test_dictionary(alloc)?;
    let statements = statements.as_slice();
    let is_lost = match import_statements(alloc, &other, &dictionary, settings, statements) {
        Ok(_) => false,
        Err(fault) => fault == ImportFault::Lost,
    };
    assert!(rt; is_lost);
    Ok(())
}
