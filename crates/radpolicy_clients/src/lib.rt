//! The clients of a RADIUS server: the addresses from which requests come, and the secrets that are shared with them.
//! They are read from lines, or from a FreeRADIUS server's `clients.conf` as it is.
#![tactic(auto)]

mod addresses;
mod clients;
mod configurations;
mod faults;
mod files;
mod lines;

pub use addresses::{address_of, prefix_of};
pub use clients::{Client, Clients};
pub use faults::{ClientFault, ClientsFault, LineFault};
pub use files::read_clients;
pub use lines::read_lines;
