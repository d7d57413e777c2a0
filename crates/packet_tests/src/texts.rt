//! The first line in which two texts differ.

use std::alloc::{AllocError, Global};
use std::io;
use std::io::Write;
use std::test::Fail;
use text_comparison::{Comparison, MAX_LINE_OCTETS, OtherLine, Watched};

// A text that comes in two parts.
type Parts = (&'static [u8], &'static [u8]);

// The number of a line, and the line in both texts, where they have it.
type Other = (u64, Option<&'static [u8]>, Option<&'static [u8]>);

// Earlier texts, texts of now, and the first line in which they differ.
const COMPARED: [(Parts, Parts, Option<Other>); 8] = [
    ((b"a\nb", b"c\n"), (b"a\nb", b"c\n"), None),
    // In a later part.
    (
        (b"a\nb", b"c\nd\n"),
        (b"a\nb", b"x\nd\n"),
        Some((2, Some(b"bc"), Some(b"bx"))),
    ),
    // Only the first line counts.
    (
        (b"a\nb\n", b"c\n"),
        (b"x\nb\n", b"y\n"),
        Some((1, Some(b"a"), Some(b"x"))),
    ),
    // The rest of the line comes later.
    (
        (b"a\nbx", b"yz\nd\n"),
        (b"a\nbv", b"w\nd\n\n"),
        Some((2, Some(b"bxyz"), Some(b"bvw"))),
    ),
    // A text ends before.
    ((b"a\n", b""), (b"a\n", b"b\n"), Some((2, None, Some(b"b")))),
    ((b"a\n", b"b\n"), (b"a\n", b""), Some((2, Some(b"b"), None))),
    // A line without its end is another.
    (
        (b"a\nb", b"\n"),
        (b"a\nb", b""),
        Some((2, Some(b"b"), Some(b"b"))),
    ),
    // An empty line is one.
    (
        (b"a\n", b"\n"),
        (b"a\n", b"b\n"),
        Some((2, Some(b""), Some(b"b"))),
    ),
];

// The first line in which two texts differ that come in two parts each.
fn other_of(
    alloc: Global,
    earlier: (&[u8], &[u8]),
    now: (&[u8], &[u8]),
) -> Result<Option<OtherLine>, AllocError> {
    let mut comparison = Comparison::new(alloc);
    comparison.add(earlier.0, now.0)?;
    comparison.add(earlier.1, now.1)?;
    comparison.first_other()
}

fn is_line(line: &Option<Vec<u8>>, wanted: Option<&[u8]>) -> bool {
    match (line, wanted) {
        (Some(line), Some(wanted)) => line.as_slice() == wanted,
        (None, None) => true,
        _ => false,
    }
}

fn is_other(
    found: &Option<OtherLine>,
    wanted: Option<(u64, Option<&[u8]>, Option<&[u8]>)>,
) -> bool {
    match (found, wanted) {
        (Some(found), Some((number, earlier, current))) => {
            found.number == number
                && is_line(&found.earlier, earlier)
                && is_line(&found.current, current)
        }
        (None, None) => true,
        _ => false,
    }
}

#[test]
fn texts_differ_in_a_line(rt: HostRuntime) -> Result<(), Fail> {
    for (earlier, now, wanted) in COMPARED {
        let other = other_of(rt.alloc(), earlier, now)?;
        assert!(rt; is_other(&other, wanted), "{earlier:?} {now:?}");
    }
    Ok(())
}

#[test]
fn a_long_line_is_kept_in_part(rt: HostRuntime) -> Result<(), Fail> {
    let long = [b'x'; MAX_LINE_OCTETS + 1];
    let other = other_of(rt.alloc(), (&long, b"y"), (&long, b"z"))?;
    let wanted = (1, Some(&long[1..]), Some(&long[1..]));
    assert!(rt; is_other(&other, Some(wanted)));
    Ok(())
}

// Earlier texts, what is written in two parts, and the first line in which that differs.
const WATCHED: [(&[u8], Parts, Option<Other>); 4] = [
    (b"a\nbc\n", (b"a\nb", b"c\n"), None),
    (
        b"a\nxyz\nd\n",
        (b"a\nb", b"c\n"),
        Some((2, Some(b"xyz"), Some(b"bc"))),
    ),
    // The earlier text is longer, and shorter.
    (
        b"a\nbcd\n",
        (b"a\nb", b"c"),
        Some((2, Some(b"bcd"), Some(b"bc"))),
    ),
    (
        b"a\nb",
        (b"a\nb", b"c\n"),
        Some((2, Some(b"b"), Some(b"bc"))),
    ),
];

// What is said where this is written in two parts.
fn other_of_written(
    rt: &HostRuntime,
    earlier: &[u8],
    parts: (&[u8], &[u8]),
) -> io::Result<Option<OtherLine>> {
    let mut out = Watched::new(rt.alloc(), io::sink(), earlier);
    out.write_all(parts.0)?;
    out.write_all(parts.1)?;
    out.first_other()
}

#[test]
fn what_is_written_is_watched(rt: HostRuntime) -> Result<(), Fail> {
    for (earlier, parts, wanted) in WATCHED {
        let other = other_of_written(&rt, earlier, parts)?;
        assert!(rt; is_other(&other, wanted), "{earlier:?}");
    }
    Ok(())
}
