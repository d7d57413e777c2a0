//! One call of each of `server_configuration`, files that nobody may read, and what `drive configuration` does not
//! show. What is read and refused is in the cases of tests/configurations.

use server_configuration::{
    Configuration, Content, FaultKind, Files, ReferenceFault, ReferenceFaultKind, Referent, Unread,
    Variable, read_configuration, read_items,
};
use std::alloc::Global;
use std::test::Fail;

#[derive(Clone, Copy)]
struct MemoryFile<'a> {
    path: &'a [u8],
    octets: &'a [u8],
}

// Whether no one may read what has this path.
fn is_forbidden(path: &[u8]) -> bool {
    path.ends_with(b"secret") || path.ends_with(b"secret/")
}

// A folder for each path up to a `/`.
#[derive(Clone, Copy)]
struct MemoryFiles<'a> {
    files: &'a [MemoryFile<'a>],
}

fn copied(alloc: Global, octets: &[u8]) -> Result<Vec<u8>, Unread> {
    match Vec::from_slice(alloc, octets) {
        Ok(octets) => Ok(octets),
        Err(_) => Err(Unread::Memory),
    }
}

impl Files for MemoryFiles<'_> {
    fn octets(&self, alloc: Global, path: &[u8], limit: usize) -> Result<Vec<u8>, Unread> {
        if is_forbidden(path) {
            return Err(Unread::Forbidden);
        }
        for file in self.files {
            if file.path == path {
                if file.octets.len() > limit {
                    return Err(Unread::TooLong);
                }
                return copied(alloc, file.octets);
            }
        }
        Err(Unread::Missing)
    }

    fn names(&self, alloc: Global, folder: &[u8]) -> Result<Vec<Vec<u8>>, Unread> {
        if is_forbidden(folder) {
            return Err(Unread::Forbidden);
        }
        let mut names = Vec::new(alloc);
        for file in self.files {
            if let Some(name) = file.path.strip_prefix(folder) {
                let name = copied(alloc, name)?;
                if names.push(name).is_err() {
                    return Err(Unread::Memory);
                }
            }
        }
        Ok(names)
    }

    fn is_folder(&self, path: &[u8]) -> bool {
        path.ends_with(b"d")
    }
}

const FILES: [MemoryFile<'static>; 7] = [
    MemoryFile {
        path: b"r/main",
        octets: b"a = 1\n$INCLUDE b",
    },
    MemoryFile {
        path: b"r/file",
        octets: b"$-INCLUDE s/secret",
    },
    MemoryFile {
        path: b"r/folder",
        octets: b"$INCLUDE secret/",
    },
    MemoryFile {
        path: b"r/whole",
        octets: b"$INCLUDE t/",
    },
    MemoryFile {
        path: b"r/t/a",
        octets: b"a",
    },
    MemoryFile {
        path: b"r/t/secret",
        octets: b"b",
    },
    MemoryFile {
        path: b"r/brace",
        octets: b"}",
    },
];

// First files, why they are refused, and the path of what could not be read.
const REFUSED: [(&[u8], FaultKind, Option<&[u8]>); 7] = [
    (b"r/main", FaultKind::Unreadable, Some(b"r/b")),
    (b"r/file", FaultKind::Forbidden, Some(b"r/s/secret")),
    (b"r/folder", FaultKind::Forbidden, Some(b"r/secret/")),
    (b"r/none", FaultKind::Unreadable, Some(b"r/none")),
    (b"secret", FaultKind::Forbidden, Some(b"secret")),
    // A file in a folder that is included.
    (b"r/whole", FaultKind::Forbidden, Some(b"r/t/secret")),
    // Other faults name no path.
    (b"r/brace", FaultKind::ExtraBrace, None),
];

fn is_refused(alloc: Global, first: &[u8], kind: FaultKind, unread: Option<&[u8]>) -> bool {
    match read_configuration(alloc, &MemoryFiles { files: &FILES }, first) {
        Ok(_) => false,
        Err(fault) => {
            fault.file.path.as_slice() == first
                && fault.kind == kind
                && match (&fault.unread, unread) {
                    (Some(path), Some(unread)) => path.as_slice() == unread,
                    (None, None) => true,
                    _ => false,
                }
        }
    }
}

#[test]
fn what_could_not_be_read_has_its_path(rt: HostRuntime) {
    for (first, kind, unread) in REFUSED {
        assert!(rt; is_refused(rt.alloc(), first, kind, unread), "{first:?}");
    }
}

#[test]
fn each_front_is_read_or_refused(rt: HostRuntime) -> Result<(), Fail> {
    let text =
        b"a = \"b\"\nc d {\n if (\"%{x}\" =~ /a\\/(b)/) {\n e := ${f.g[h]}\n }\n}\n".as_slice();
    let mut count = 0u64;
    for length in 0..text.len() {
        if read_items(rt.alloc(), &text[..length]).is_ok() {
            count = count.wrapping_add(1);
        }
    }
    // Whole are 0 to 4 and 7 to 12 octets, and all but the last line feed.
    assert_eq!(rt; count, 12);
    Ok(())
}

#[test]
fn octets_of_any_kind_are_kept(rt: HostRuntime) -> Result<(), Fail> {
    let Ok(items) = read_items(rt.alloc(), b"a = \x00\xff") else {
        return Err(Fail::new("refused"));
    };
    assert!(rt;
        matches!(items.as_slice(), [item] if matches!(&item.content, Content::Pair { value: Some(value), .. }
            if value.octets.as_slice() == b"\x00\xff".as_slice()))
    );
    Ok(())
}

const TEXT: &[u8] =
    b"a = 1\na = 2\nc {\n d = 3\n a = 4\n e f {\n  g = 5\n }\n e h {\n }\n}\nl = ${m}\nm = ${l}\n";

fn read(alloc: Global) -> Result<Configuration, Fail> {
    let files = [MemoryFile {
        path: b"main",
        octets: TEXT,
    }];
    match read_configuration(alloc, &MemoryFiles { files: &files }, b"main") {
        Ok(read) => Ok(read),
        Err(_) => Err(Fail::new("refused")),
    }
}

#[test]
fn the_first_of_a_name_counts(rt: HostRuntime) -> Result<(), Fail> {
    let read = read(rt.alloc())?;
    assert!(rt; read.pair(None, b"a") == Some(0));
    assert!(rt; read.section(None, b"c") == Some(2));
    assert!(rt; read.pair(Some(2), b"a") == Some(4));
    assert!(rt; read.section_with(Some(2), b"e", b"h") == Some(7));
    assert!(rt; read.referent(None, b"c.e") == Some(Referent::Section(Some(5))));
    let children = read.children(rt.alloc(), Some(5))?;
    assert!(rt; children.as_slice() == [6].as_slice());
    Ok(())
}

#[test]
fn references_are_filled_in(rt: HostRuntime) -> Result<(), Fail> {
    let alloc = rt.alloc();
    let read = read(alloc)?;
    let variables = [Variable {
        name: Vec::from_slice(alloc, b"A")?,
        value: Vec::from_slice(alloc, b"v")?,
    }];
    match read.resolved(alloc, None, b"$ENV{A}$ENV{B}${a}", &variables) {
        Ok(filled) => assert!(rt; filled.as_slice() == b"v$ENV{B}1".as_slice()),
        Err(_) => return Err(Fail::new("refused")),
    }
    // From the text to `l`, to `m` and so on: the last one is `m`.
    let circle = ReferenceFault {
        pair: Some(9),
        offset: 0,
        kind: ReferenceFaultKind::TooDeep,
    };
    assert!(rt; matches!(read.resolved(alloc, None, b"${l}", &[]), Err(fault) if fault == circle));
    Ok(())
}
