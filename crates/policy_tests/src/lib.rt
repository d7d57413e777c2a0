//! Tests of policies: what no row and no case shows of the calls that read them, and of what is warned of.
#![tactic(auto)]

#[cfg(test)]
mod policies;
#[cfg(test)]
mod warnings;
