//! What the octets of attributes stand for beyond their types: IPv6 addresses, prefixes, interface ids, dates, and
//! numbers and texts with a tag; the texts that stand for them, and the texts that are printed.
//!
//! [`Dictionary::form`](avp_dict::Dictionary::form) says what the values of an attribute stand for. A [`FormValue`] is
//! such a value.
#![tactic(auto)]

mod dates;
mod expansions;
mod interface_ids;
mod ipv6_addresses;
mod laws;
mod numerals;
mod orders;
mod parts;
mod prefixes;
mod printing;
mod profiles;
mod requests;
mod short_texts;
mod targets;
mod values;
mod written;

pub use dates::offset_spelled;
pub use expansions::{Expansion, expansion_of};
pub use laws::{
    octets_read_back, pair_read_back, reads_addresses, refused_once, written_values_fit,
};
pub use orders::{order_by_meaning, other_octets};
pub use printing::{printed_pair_name, printed_pair_text};
pub use profiles::{Profile, profile_of};
pub use requests::read_request;
pub use short_texts::{MAX_SHORT, ShortText};
pub use targets::{Target, target_of};
pub use values::{FormValue, MAX_TAG, printed_octets};
pub use written::{text_put, value_written};
