//! The words of the commands that worked rows call. `d` is the test dictionary, `t`, `v` and `n` are others, `p` is the
//! policy, and `s`, `x` and `e` have secrets; of a walk `s` is the script.

/// A run over request lines, without a secret.
pub const RUN: &str = "radpolicy run --policy p d";

pub const RUN_TYPES: &str = "radpolicy run --policy p t";

pub const RUN_TAGGED: &str = "radpolicy run --policy p v";

pub const RUN_UNNAMED: &str = "radpolicy run --policy p n";

/// A run over a packet.
pub const RUN_PACKET: &str = "radpolicy run --hex -S s --policy p d";

pub const RUN_STANDARD: &str = "radpolicy run --hex -S x --policy p d";

/// A run over the lines of an Accounting-Request, with a secret.
pub const RUN_ACCOUNTING: &str = "radpolicy run --acct -S s --policy p d";

/// Runs over the lines of an Access-Request with the Identifiers 0 and 5, and with a secret.
pub const RUN_ACCESS: &str =
    "radpolicy run -S s --authenticator 0f403f9473978057bd83d5cb98f4227a -i 0 --policy p d";

pub const RUN_ACCESS_5: &str =
    "radpolicy run -S s --authenticator 0f403f9473978057bd83d5cb98f4227a -i 5 --policy p d";

pub const STEP: &str = "radpolicy step --policy p --script s d";

pub const STEP_PACKET: &str = "radpolicy step --hex --policy p --script s d";

pub const CHECK: &str = "radpolicy check d";

pub const CHECK_POLICY: &str = "radpolicy check --policy p d";

/// The packet of an Access-Request's lines, with the Identifier 0.
pub const ENCODE: &str =
    "radpolicy encode -i 0 -S x --authenticator 0f403f9473978057bd83d5cb98f4227a d";

pub const ENCODE_ZEROS: &str =
    "radpolicy encode -i 0 -S s --authenticator 00000000000000000000000000000000 d";

pub const DECODE: &str = "radpolicy decode -S s d";

pub const DECODE_STANDARD: &str = "radpolicy decode -S x d";

pub const DECODE_EMPTY: &str = "radpolicy decode -S e d";
