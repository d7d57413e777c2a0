ghost use Rattle.std.specs.Prelude.{◌≡◌};
ghost use Rattle.avp_unlang.specs.Words.{code_named};

/// A result code.
#[derive(Clone, Copy, Debug, PartialEq, Eq)]
pub enum Code {
    Ok,
    Noop,
    Updated,
    Fail,
    Reject,
}

/// The code that a word names.
#[tactic(auto, unfolding(crate::specs::Words::code_named))]
pub(crate) fn code_named(word: &[u8]) -> Option<Code>
    ensures { result ≡ code_named word.now }
{
    // The short ones are most frequent, and compared in place.
    match word {
        b"ok" => Some(Code::Ok),
        b"noop" => Some(Code::Noop),
        b"fail" => Some(Code::Fail),
        _ if word == b"updated".as_slice() => Some(Code::Updated),
        _ if word == b"reject".as_slice() => Some(Code::Reject),
        _ => None,
    }
}
