//! Dictionary files: their lines, and what the lines are read as.

pub mod attributes;
pub mod blocks;
pub mod context;
pub mod files;
pub mod keywords;
pub mod lanes;
pub mod lines;
pub mod meanings;
pub mod name_octets;
pub mod numbers;
pub mod offsets;
pub mod parts;
pub mod reader;
pub mod readings;
pub mod settling;
pub mod types;
pub mod values;
pub mod vendors;
pub mod words;
