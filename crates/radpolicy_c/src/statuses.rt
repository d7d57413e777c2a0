//! How a call ended.

ghost use Rattle.std.specs.Prelude.{◌≡◌};
ghost use Rattle.radpolicy_c.specs.Statuses.{number_of};

/// How a call ended. C sees its number, which never changes.
#[derive(Clone, Copy, Debug, PartialEq, Eq)]
pub enum Status {
    /// It did what was asked.
    Done,
    /// What was given is refused; the line of the fault is told.
    Refused,
    /// There is not enough memory. Nothing was done.
    NoMemory,
    /// The caller's room is too short for what is to be told, and nothing was done.
    TooShort,
    /// The handle holds nothing.
    Closed,
    /// The handle holds something already.
    AlreadyOpen,
    /// The list would have too many pairs.
    Full,
    /// What a number names is not there.
    NotThere,
}

impl Status {
    /// Its number in C.
    pub fn number(self) -> u8
        ensures { result ≡ number_of self }
    {
        match self {
            Status::Done => 0,
            Status::Refused => 2,
            Status::NoMemory => 4,
            Status::TooShort => 5,
            Status::Closed => 6,
            Status::AlreadyOpen => 7,
            Status::Full => 8,
            Status::NotThere => 9,
        }
    }
}
