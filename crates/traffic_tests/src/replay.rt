//! Tests of the public calls of `radpolicy_record_answers` and `radpolicy_replay_records`: one call of each, inputs
//! that break, and outputs with little room. What is told of records is in the cases of tests/replays.

mod faults;
mod records;
mod replays;
