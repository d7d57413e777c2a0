//! Conditions, names and update lines of a server's policies, as policies that [`avp_unlang::read_policy`] reads have them.
//!
//! [`ConditionReader`] reads a condition, [`rewritten`] gives the one of a policy that holds where a server takes the
//! branch, and [`ConditionPrinter`] writes it; [`LineReader`] does all of that with a line of an update.
#![tactic(auto)]

mod addresses;
mod capturing;
mod choices;
mod condition_texts;
mod copies;
mod differences;
mod expansions;
mod hexadecimal;
mod lengths;
mod line_values;
mod lines;
mod made_conditions;
mod opened;
mod operands;
mod other_attributes;
mod other_lists;
mod patterns;
mod printing;
mod reasons;
mod references;
mod repetitions;
mod rewriting;
mod right_words;
mod server_codes;
mod server_conditions;
mod switches;
mod text_sides;
mod texts;

pub use capturing::{captures_anew, has_pattern, keeps_captures, uses_captures};
pub use choices::{Alternative, ChosenLine, alternatives, has_choices};
pub use condition_texts::ConditionReader;
pub use differences::Difference;
pub use expansions::{Expansion, expansions_in};
pub use lines::{LineReader, TaggedLine, UpdateLine};
pub use opened::{opened_alike, says};
pub use operands::Operand;
pub use other_attributes::{OtherAttribute, OtherSource};
pub use other_lists::{OtherList, ServerList};
pub use patterns::{PatternDifference, add_differences};
pub use printing::ConditionPrinter;
pub use reasons::{Reason, Refusal};
pub use references::{Names, Reference, Spelling, is_name_octet, list_name, parts_of};
pub use rewriting::rewritten;
pub use right_words::{is_reference, meant_word};
pub use server_codes::{KnownCodes, ServerCode};
pub use server_conditions::ServerCondition;
pub use switches::{SwitchBranch, SwitchChain, chain_of};
pub use text_sides::{compares_numbers, prints_address, prints_date};
pub use texts::{between, has_expansion};
