//! Reads a FreeRADIUS 3 server's configuration: pairs, sections, words and includes, each with its file and line; and
//! looks up what it has by name.
#![tactic(auto)]

mod configurations;
mod cursors;
mod faults;
mod includes;
mod items;
mod lookups;
mod paths;
mod reader;
mod reading;
mod references;
mod sources;
mod statements;
mod texts;

pub use configurations::Configuration;
pub use faults::{ConfigurationFault, Fault, FaultKind};
pub use includes::{MAX_CONFIGURATION_OCTETS, MAX_DEPTH, MAX_FILES};
pub use items::{Content, Item, Operator, Quote, Text};
pub use reader::{MAX_ITEMS, MAX_OCTETS, read_items};
pub use reading::read_configuration;
pub use references::{
    MAX_REFERENCE_DEPTH, MAX_REFERENCES, ReferenceFault, ReferenceFaultKind, Referent, Variable,
    has_reference,
};
pub use sources::{Files, SourceFile, SystemFiles, Unread};
