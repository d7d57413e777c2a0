//! How what is said of records is laid out.

ghost use Rattle.std.specs.Prelude.{◌≡◌};
ghost use Rattle.radpolicy_replay_records.specs.Layouts.{has_passed, without_last};

use radpolicy_record_answers::Verdict;

/// How what is said of records is laid out.
#[derive(Clone, Copy, Debug, PartialEq, Eq)]
pub enum Layout {
    /// As it is.
    Plain,
    /// As tests of the Test Anything Protocol, of which one fails whose record is different.
    Tests,
    /// The same, and one fails too whose record is refused.
    StrictTests,
    /// As JSON, an object a line.
    Json,
}

/// Whether the test of a record has passed of which this became.
pub(crate) fn has_passed(strict: bool, verdict: Verdict) -> bool
    ensures { result ≡ has_passed strict verdict }
{
    match verdict {
        Verdict::Different => false,
        Verdict::Refused => !strict,
        _ => true,
    }
}

/// A name without the blank that ends it.
pub(crate) fn without_last(name: &[u8]) -> &[u8]
    ensures { result.now ≡ without_last name.now }
{
    match name {
        [front @ .., _] => front,
        [] => name,
    }
}
