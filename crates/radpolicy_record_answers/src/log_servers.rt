//! The virtual servers of a server's log.

use crate::found_records::NameList;
use radpolicy_common::{LineBreaks, visible_text};
use radpolicy_traffic::receiving_server;
use std::alloc::{AllocError, Global};
use std::str;

// Of so many virtual servers it is told.
const MOST_SERVERS: usize = 8;

/// The virtual servers to which requests out of tunnels go, as of PEAP and TTLS: those that lines of a server's log name,
/// each once, in their order.
#[derive(Drop)]
pub struct LogServers {
    alloc: Global,
    names: Vec<Vec<u8>>,
}

impl LogServers {
    pub fn new(alloc: Global) -> LogServers {
        LogServers {
            alloc,
            names: Vec::new(alloc),
        }
    }

    /// Those of a log.
    pub fn of_log(alloc: Global, log: &[u8]) -> Result<LogServers, AllocError> {
        let mut servers = LogServers::new(alloc);
        for line in log.split(|octet| *octet == b'\n') {
            servers.look(line)?;
        }
        Ok(servers)
    }

    fn has(&self, name: &[u8]) -> bool {
        self.names.iter().any(|known| known.as_slice() == name)
    }

    /// Looks at the next line.
    pub fn look(&mut self, line: &[u8]) -> Result<(), AllocError> {
        if let Some(name) = receiving_server(line)
            && self.names.len() < MOST_SERVERS
            && !self.has(name)
        {
            self.names.push(Vec::from_slice(self.alloc, name)?)?;
        }
        Ok(())
    }

    /// What is said of a log, in which no request goes to this virtual server. It has no control characters.
    pub fn text(&self, wanted: &str) -> Result<Vec<u8>, AllocError> {
        let mut names = NameList::new(self.alloc);
        for name in &self.names {
            names.add(name)?;
        }
        let text = if self.names.is_empty() {
            format!(in self.alloc; "no request of the log comes out of a tunnel")
        } else {
            let names = str::from_utf8(names.as_slice()).unwrap_or("");
            format!(in self.alloc;
                "no request out of a tunnel goes to the virtual server {wanted}: those of the log go to {names}"
            )
        }?;
        visible_text(self.alloc, text.as_bytes(), LineBreaks::Escaped)
    }
}
