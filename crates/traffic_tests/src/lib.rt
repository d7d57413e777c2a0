//! Tests of replays and of imports.
#![tactic(auto)]

#[cfg(test)]
mod import;
#[cfg(test)]
mod replay;
