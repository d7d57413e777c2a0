//! Values: their texts and octets, how long they may be, and how they are printed.

pub mod faults;
pub mod limits;
pub mod octets;
pub mod printing;
pub mod quotes;
pub mod texts;
