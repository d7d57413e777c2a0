//! Attributes and the attributes within them, one after the other.

pub mod numbers;
pub mod splitting;
pub mod subattributes;
pub mod walking;
