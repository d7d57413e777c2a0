//! Policies read from a text.

pub mod capture_uses;
pub mod compiling;
pub mod conditions;
pub mod cursors;
pub mod first_tokens;
pub mod lines;
pub mod meanings;
pub mod operands;
pub mod parts;
pub mod pattern_tokens;
pub mod patterns;
pub mod policies;
pub mod positions;
pub mod references;
pub mod selecting;
pub mod sources;
pub mod statements;
pub mod texts;
pub mod tokens;
pub mod values;
