ghost use Rattle.std.specs.Prelude.{◌≡◌};
ghost use Rattle.server_unlang.specs.Codes.{default_action, first_code};

/// A code that a module, a block or a section results in.
#[derive(Clone, Copy, Debug, PartialEq, Eq)]
pub enum ServerCode {
    Reject,
    Fail,
    Ok,
    Handled,
    Invalid,
    Userlock,
    Notfound,
    Noop,
    Updated,
}

/// What the code of a statement does in the block that has it.
#[derive(Clone, Copy, Debug, PartialEq, Eq)]
pub enum Action {
    /// The block ends with that code.
    Return,
    /// The block ends with `reject`.
    Reject,
    /// The block has that code from then on, unless it has one of this priority or a higher one.
    Priority(u8),
}

/// A section of a server's configuration.
#[derive(Clone, Copy, Debug, PartialEq, Eq)]
pub enum Section {
    Authorize,
    PostAuth,
    Preacct,
    Accounting,
}

impl Section {
    /// The code that it begins with.
    pub fn first_code(self) -> ServerCode
        ensures { result ≡ first_code self }
    {
        match self {
            Section::Authorize => ServerCode::Notfound,
            Section::PostAuth | Section::Preacct | Section::Accounting => ServerCode::Noop,
        }
    }

    /// What a code does where nothing else is written.
    pub fn default_action(self, code: ServerCode) -> Action
        ensures { result ≡ default_action self code }
    {
        match (self, code) {
            (Section::Authorize | Section::PostAuth, ServerCode::Notfound) => Action::Priority(1),
            (Section::Authorize | Section::PostAuth, ServerCode::Noop) => Action::Priority(2),
            (Section::Authorize | Section::PostAuth, ServerCode::Ok) => Action::Priority(3),
            (Section::Authorize | Section::PostAuth, ServerCode::Updated) => Action::Priority(4),
            (Section::Preacct | Section::Accounting, ServerCode::Noop) => Action::Priority(1),
            (Section::Preacct | Section::Accounting, ServerCode::Ok) => Action::Priority(2),
            (Section::Preacct | Section::Accounting, ServerCode::Updated) => Action::Priority(3),
            _ => Action::Return,
        }
    }
}
