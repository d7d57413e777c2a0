//! The codes of a server, where a condition asks for the last one.

use avp_unlang::Code;

/// A code of a server.
#[derive(Clone, Copy, Debug, PartialEq, Eq)]
pub enum ServerCode {
    Ok,
    Noop,
    Updated,
    Fail,
    Reject,
    NotFound,
    Invalid,
    UserLock,
    Handled,
}

impl ServerCode {
    /// The code that a word is.
    pub fn named(word: &[u8]) -> Option<ServerCode> {
        match word {
            b"ok" => Some(ServerCode::Ok),
            b"noop" => Some(ServerCode::Noop),
            b"updated" => Some(ServerCode::Updated),
            b"fail" => Some(ServerCode::Fail),
            b"reject" => Some(ServerCode::Reject),
            b"notfound" => Some(ServerCode::NotFound),
            b"invalid" => Some(ServerCode::Invalid),
            b"userlock" => Some(ServerCode::UserLock),
            b"handled" => Some(ServerCode::Handled),
            _ => None,
        }
    }

    /// The same code of a policy, unless policies do not have it.
    pub fn own(self) -> Option<Code> {
        match self {
            ServerCode::Ok => Some(Code::Ok),
            ServerCode::Noop => Some(Code::Noop),
            ServerCode::Updated => Some(Code::Updated),
            ServerCode::Fail => Some(Code::Fail),
            ServerCode::Reject => Some(Code::Reject),
            ServerCode::NotFound
            | ServerCode::Invalid
            | ServerCode::UserLock
            | ServerCode::Handled => None,
        }
    }

    // How high it is among the codes that a block goes on after.
    fn rank(self) -> u8 {
        match self {
            ServerCode::Updated => 4,
            ServerCode::Ok => 3,
            ServerCode::Noop => 2,
            ServerCode::NotFound => 1,
            _ => 0,
        }
    }
}

impl From<Code> for ServerCode {
    fn from(code: Code) -> ServerCode {
        match code {
            Code::Ok => ServerCode::Ok,
            Code::Noop => ServerCode::Noop,
            Code::Updated => ServerCode::Updated,
            Code::Fail => ServerCode::Fail,
            Code::Reject => ServerCode::Reject,
        }
    }
}

// The code of a block, and between which numbers is how high it is.
#[derive(Clone, Copy, Debug, PartialEq, Eq)]
struct BlockCode {
    code: ServerCode,
    lowest: u8,
    highest: u8,
}

impl BlockCode {
    fn of(code: ServerCode) -> BlockCode {
        let rank = code.rank();
        BlockCode {
            code,
            lowest: rank,
            highest: rank,
        }
    }

    // Where a block begins: any other code is higher.
    fn first(code: ServerCode) -> BlockCode {
        BlockCode {
            code,
            lowest: 0,
            highest: 0,
        }
    }

    // The higher of the two, the earlier one where they are as high as each other, if it is known.
    fn higher(self, other: BlockCode) -> Option<BlockCode> {
        if other.lowest > self.highest {
            Some(other)
        } else if other.highest <= self.lowest {
            Some(self)
        } else if self.code == other.code {
            Some(BlockCode {
                code: self.code,
                lowest: self.lowest.max(other.lowest),
                highest: self.highest.max(other.highest),
            })
        } else {
            None
        }
    }

    // That of one of two ways, if it is the same code.
    fn either(self, other: BlockCode) -> Option<BlockCode> {
        (self.code == other.code).then_some(BlockCode {
            code: self.code,
            lowest: self.lowest.min(other.lowest),
            highest: self.highest.max(other.highest),
        })
    }
}

/// What is known of the codes of a server at a place in a block: the last code, which a condition asks for, and the
/// block's, which is the last code where a block in it begins.
///
/// | Where | The last code | The block's |
/// |---|---|---|
/// | `authorize` begins | `notfound` | the same |
/// | `preacct`, `accounting`, `post-auth` or a section in it begins | `noop` | the same |
/// | after a code | the code | the higher of the code and the one before |
/// | after an update | `noop` | the higher of `noop` and the one before |
/// | a branch, a case, a group or a named policy begins | the outer block's | the same, until there is another |
/// | after it | the inner block's | the higher of the inner block's, if a code was set in it, and the outer's before |
///
/// The highest is `updated`, then `ok`, `noop` and `notfound`; the others end the section. A block with nothing in it
/// changes none. After branches or cases a code is known where it is the same whichever is taken, or none. In
/// `authenticate` `ok` is above `updated`, and nothing is known of a block there.
#[derive(Clone, Copy, Debug, PartialEq, Eq)]
pub struct KnownCodes {
    last: Option<ServerCode>,
    block: Option<BlockCode>,
    // Whether the policy has this last code too.
    is_own: bool,
}

impl KnownCodes {
    // Where no code was before this in the section, if it is known: any other is the block's.
    fn first(code: Option<ServerCode>) -> KnownCodes {
        KnownCodes {
            last: code,
            block: match code {
                Some(code) => Some(BlockCode::first(code)),
                None => None,
            },
            is_own: false,
        }
    }

    /// Where a section of this name begins.
    pub fn of_section(name: &[u8]) -> KnownCodes {
        match name {
            b"authorize" => KnownCodes::first(Some(ServerCode::NotFound)),
            b"preacct" | b"accounting" | b"post-auth" => KnownCodes::first(Some(ServerCode::Noop)),
            _ => KnownCodes::unknown(),
        }
    }

    pub fn unknown() -> KnownCodes {
        KnownCodes::first(None)
    }

    // After the code, or the block whose code it is.
    fn after(self, made: BlockCode, is_own: bool) -> KnownCodes {
        KnownCodes {
            last: Some(made.code),
            block: match self.block {
                Some(block) => block.higher(made),
                None => None,
            },
            is_own,
        }
    }

    /// After a code that the policy has too.
    pub fn after_code(self, code: Code) -> KnownCodes {
        self.after(BlockCode::of(ServerCode::from(code)), true)
    }

    /// After a code of the server alone.
    pub fn after_server_code(self, code: ServerCode) -> KnownCodes {
        self.after(BlockCode::of(code), false)
    }

    pub fn after_update(self) -> KnownCodes {
        self.after(BlockCode::of(ServerCode::Noop), false)
    }

    // Whether the block's code is the policy's last.
    fn has_own_block(self) -> bool {
        match (self.last, self.block) {
            (Some(last), Some(block)) => self.is_own && last == block.code,
            _ => false,
        }
    }

    /// Where a block begins.
    pub fn inside(self) -> KnownCodes {
        let Some(BlockCode { code, .. }) = self.block else {
            return KnownCodes::unknown();
        };
        KnownCodes {
            last: Some(code),
            block: Some(BlockCode::first(code)),
            is_own: self.has_own_block(),
        }
    }

    /// After a block that ends so.
    pub fn after_block(self, inner: KnownCodes) -> KnownCodes {
        match inner.block {
            Some(made) => self.after(made, inner.has_own_block()),
            None => KnownCodes::unknown(),
        }
    }

    /// After one of two ways.
    pub fn either(self, other: KnownCodes) -> KnownCodes {
        KnownCodes {
            last: if self.last == other.last {
                self.last
            } else {
                None
            },
            block: match (self.block, other.block) {
                (Some(block), Some(other)) => block.either(other),
                _ => None,
            },
            is_own: self.is_own && other.is_own,
        }
    }

    /// The server's last code, if it is known.
    pub(crate) fn last(self) -> Option<ServerCode> {
        self.last
    }

    /// Whether the policy has this last code too.
    pub(crate) fn is_own(self) -> bool {
        self.is_own
    }
}
