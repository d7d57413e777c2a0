//! Tests of what programs share, and of the libraries of `radpolicy-page`, `radpolicy-walk` and `radpolicy-replay`.
#![tactic(auto)]

#[cfg(test)]
mod changing_lines;
#[cfg(test)]
mod clients;
#[cfg(test)]
mod common;
#[cfg(test)]
mod help;
#[cfg(test)]
mod page;
#[cfg(test)]
mod shared;
#[cfg(test)]
mod walk;
