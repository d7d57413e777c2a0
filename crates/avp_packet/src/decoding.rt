//! Packets read: their heads, their attributes, and the pairs that these mean.

pub mod fragments;
pub mod packets;
pub mod pairs;
pub mod replies;
pub mod requests;
pub mod unchecked;
pub mod values;
