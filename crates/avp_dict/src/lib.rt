//! Dictionary files: names and ids of attributes, their types, and the names of their values; values and their texts;
//! request lines.
//!
//! [`Dictionary::read`] reads a [`FileSet`] in the profile of FreeRADIUS 3's dictionary(5) that `docs/FORMATS.md` states,
//! and a [`Dictionary`] reads and prints values ([`value_of_text`](Dictionary::value_of_text),
//! [`text_of_value`](Dictionary::text_of_value)) and reads requests ([`read_request`](Dictionary::read_request)).
#![tactic(auto)]

mod attribute_numbers;
mod contents;
mod dictionaries;
mod entries;
mod faults;
mod file;
mod forms;
mod laws;
mod line_numbers;
mod names;
mod request;
mod spelling;
mod tables;
mod value;

pub use dictionaries::Dictionary;
pub use entries::{Counts, Entry, Format, Kind, Named, Note};
pub use faults::{DictFault, DictKind};
pub use file::files::{FileSet, NamedFile, last_component};
pub use file::lines::MAX_LINES;
pub use file::words::{first_part, is_blank, same_name, words_between_blanks};
pub use forms::Form;
pub use line_numbers::line_after;
pub use request::faults::{LineFault, LineKind};
pub use request::lines::{is_idle_line, next_line, read_pairs};
pub use request::readers::PairReader;
pub use value::faults::ValueFault;
pub use value::octets::{MAX_HIDDEN_OCTETS, ends_in_nul, is_hideable};
pub use value::quotes::{Escape, QuoteMark, double_escape, octets_between, quote};
pub use value::texts::is_container;
