//! Files that are not there, and the refusals of files.

use attribute_tests::samples::one_file;
use avp_dict::Dictionary;
use radpolicy::{Fault, status};
use radpolicy_common::{
    Unread, read_dictionary_set, read_file, read_optional, refuse, refuse_early, refuse_unread,
};
use std::test::Fail;

const ABSENT: &str = "/nowhere/dictionary";

#[test]
fn files_are_read_or_named(rt: HostRuntime) -> Result<(), Fail> {
    assert!(rt; matches!(read_file(&rt, ABSENT), Err(Unread::File(ABSENT))));
    assert!(rt; matches!(read_optional(&rt, Some(ABSENT)), Err(Unread::File(ABSENT))));
    assert!(rt; matches!(read_optional(&rt, None), Ok(None)));
    // A folder.
    assert!(rt; matches!(read_file(&rt, "/"), Err(Unread::File("/"))));
    // Names are compared before files are read.
    assert!(rt; matches!(read_dictionary_set(&rt, &[]), Err(Unread::NoDictionary)));
    let twice = ["/nowhere/a/dictionary", "/nowhere/b/dictionary"];
    assert!(rt; matches!(read_dictionary_set(&rt, &twice), Err(Unread::SameNames)));
    let other = [ABSENT, "/nowhere/other"];
    assert!(rt; matches!(read_dictionary_set(&rt, &other), Err(Unread::File(ABSENT))));
    match read_dictionary_set(&rt, &["/dev/null"]) {
        Ok(files) => {
            let dictionary = Dictionary::read(rt.alloc(), &files)?;
            assert_eq!(rt; dictionary.counts().attributes, 0);
            Ok(())
        }
        Err(_) => Err(Fail::new("not read")),
    }
}

#[test]
fn refusals_have_the_statuses_of_their_faults(rt: HostRuntime) -> Result<(), Fail> {
    let files = one_file(rt.alloc(), b"")?;
    assert_eq!(rt; refuse(&rt, "radpolicy", &Fault::EmptySecret, &files), 2);
    assert_eq!(rt; refuse_early(&rt, "radpolicy", &Fault::Memory), 4);
    assert_eq!(rt; refuse_unread(&rt, "radpolicy", Unread::Memory), 4);
    assert_eq!(rt; refuse_unread(&rt, "radpolicy", Unread::NoDictionary), 2);
    assert_eq!(rt; refuse_unread(&rt, "radpolicy", Unread::SameNames), 2);
    assert_eq!(rt; refuse_unread(&rt, "radpolicy", Unread::File(ABSENT)), 3);
    assert_eq!(rt; Unread::SameNames.fault(), Fault::OptionValue);
    assert_eq!(rt; status(&Unread::File("-").fault()), 3);
    Ok(())
}
