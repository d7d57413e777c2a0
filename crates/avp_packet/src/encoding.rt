//! Packets written: their pairs, and the attributes that these are sent in.

pub mod attributes;
pub mod dividing;
pub mod lengths;
pub mod packets;
pub mod pairs;
