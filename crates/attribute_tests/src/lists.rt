//! Worked examples of the operators, of tags and of the history for both stores, and each call that takes memory once.

mod rows;
mod stores;
mod tunnels;
