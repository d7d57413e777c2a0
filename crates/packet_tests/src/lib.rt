//! Tests of packets, of the records that servers and tools print, of a server's configuration, and of texts that are
//! compared.
#![tactic(auto)]

#[cfg(test)]
mod configuration;
#[cfg(test)]
mod packet;
#[cfg(test)]
mod texts;
#[cfg(test)]
mod traffic;
#[cfg(test)]
mod traffic_packets;
