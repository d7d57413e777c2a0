//! Tests of prepared policies: what their runs come to, and what is refused.

mod refusals;
mod replies;
mod runs;
mod starts;
