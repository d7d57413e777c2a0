//! A job, and what it came to.

use avp_dict::FileSet;
use avp_lists::Octets;
use avp_unlang::Code;

/// What is to be done.
#[derive(Clone, Copy, Debug, PartialEq, Eq)]
pub enum Command {
    /// A policy is run over a request.
    Run,
    /// The steps of a run are walked forward and back.
    Step,
    /// A request's packet is made.
    Encode,
    /// A request's packet is shown as text.
    Decode,
    /// A dictionary, and a policy where there is one, is read and counted.
    Check,
}

/// How the request is given.
#[derive(Clone, Copy, Debug, PartialEq, Eq)]
pub enum Form {
    /// A packet in hexadecimal digits.
    Hex,
    /// The lines of an Access-Request (RFC 2865, section 4.1).
    Access,
    /// The lines of an Accounting-Request (RFC 2866, section 4.1).
    Accounting,
}

/// What is asked for, over octets that were read.
#[derive(Debug, Drop)]
pub struct Job {
    pub command: Command,
    /// The dictionary files, the main one first.
    pub files: FileSet,
    pub request: Octets,
    pub form: Form,
    /// The Identifier of the request's packet (RFC 2865, section 3); 0 where none was asked for.
    pub identifier: u8,
    /// The Request Authenticator (RFC 2865, section 3).
    pub authenticator: Option<[u8; 16]>,
    /// The whole file that holds the shared secret in its first line.
    pub secret: Option<Octets>,
    pub policy: Option<Octets>,
    pub script: Option<Octets>,
}

/// What a job came to.
#[derive(Clone, Copy, Debug, PartialEq, Eq)]
pub struct Outcome {
    /// What the policy came to; `None` where none was run.
    pub code: Option<Code>,
    /// Whether the policy was stopped before its end.
    pub stopped: bool,
}
