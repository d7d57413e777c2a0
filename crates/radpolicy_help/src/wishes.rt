//! Whether help is wanted.

use radpolicy_common::Stream;

/// Whether help is to follow a fault: where standard error is a terminal, unless the environment's RADPOLICY_HELP is
/// `always` or `never`.
pub fn is_help_wanted(rt: &HostRuntime) -> bool {
    match std::env::var(rt, "RADPOLICY_HELP") {
        Ok(wish) if wish.as_str() == "always" => true,
        Ok(wish) if wish.as_str() == "never" => false,
        _ => Stream::Error.is_terminal(rt),
    }
}
