//! Tests of the public calls of `radpolicy_import_policies` and `radpolicy_import_conditions`: one of each, and what
//! the program doesn't show. What sections become is in the cases of `tests/imports`.

mod condition_calls;
mod counts;
mod imports;
mod line_calls;
mod memory_files;
mod other_lists;
mod said_conditions;
