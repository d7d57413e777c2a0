//! A server's own policies, as policies that [`avp_unlang::read_policy`] reads.
//!
//! [`statements_of`] makes a tree of a section of a configuration, in which named policies are in their places, and
//! [`import_statements`] a policy of it.
#![tactic(auto)]

mod definitions;
mod drafts;
mod faults;
mod importers;
mod imports;
mod initial;
mod item_readers;
mod kept;
mod origin_texts;
mod origins;
mod others;
mod policy_texts;
mod sections;
mod settings;
mod statement_places;
mod statements;
mod tagged_lines;
mod templates;
mod unset;
mod wanted;

pub use definitions::other_dictionary;
pub use faults::ImportFault;
pub use imports::{Imported, LeftOut, Warning, import_statements};
pub use initial::add_initial;
pub use kept::keeps_names;
pub use origin_texts::{origin_map, origin_path, push_origin};
pub use origins::{LineOrigin, Origin, origin_of};
pub use others::{Stubs, other_attributes};
pub use sections::{Wanted, policy_of, section_of};
pub use settings::{LineEnds, Meaning, Module, ModuleAnswer, SectionKind, Settings};
pub use statements::{
    MAX_NESTED_SECTIONS, MAX_STATEMENTS, Statement, StatementKind, count_of, statements_of,
};
pub use templates::initial_template;
pub use unset::unset_attributes;
pub use wanted::{WantedAttribute, wanted_attributes};
