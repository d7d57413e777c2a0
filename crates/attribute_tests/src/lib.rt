//! Tests of lists, and of dictionaries, forms of values and patterns what the rows of `tests/rows` do not ask; in
//! [`samples`] what the tests of other crates share with them.
#![tactic(auto)]

#[cfg(test)]
mod dictionaries;
#[cfg(test)]
mod forms;
#[cfg(test)]
mod lists;
#[cfg(test)]
mod patterns;
pub mod samples;
