//! Where a report goes: an output that takes octets a few at a time, and may fail.

ghost use Rattle.std.specs.Prelude.{◌≡◌, ℕ, ◌<◌, ◌≤◌, Bool, true, false, List, Option, length, take, IfOk, OnOk, OnErr};
ghost use Rattle.std.specs.Io.KnownBytes.{Appends, Keeps};
ghost use Rattle.radpolicy.specs.Writing.{AppendsFrontOf, Outlet};

use std::io::Write;
use std::marker::Model;
use thiserror::Error;

/// An output failed, and took nothing in that call.
#[derive(Clone, Copy, Debug, PartialEq, Eq, Error)]
#[error("the output failed")]
pub struct OutputError;

/// Something that takes octets.
pub trait Output {
    // The octets that it took, where these can be known.
    ghost taken: { Self → Option (List ℕ) };

    // Whether it has failed.
    ghost has_failed: { Self → Bool };

    /// Takes one octet at least of those that it is given, from the front.
    fn put(&mut self, octets: &[u8]) -> Result<usize, OutputError>
        requires { 0 < length octets.now }
        ensures some { IfOk result (λ n. (0 < n) × (n ≤ length octets.now)) }
        ensures takes { IfOk result (λ n.
            Appends (taken self.old) (taken self.new) (take n octets.now)) }
        ensures stays { OnOk result (has_failed self.new ≡ has_failed self.old) }
        ensures none { OnErr result (Keeps (taken self.old) (taken self.new)) }
        ensures fails { OnErr result (has_failed self.new ≡ true) };
}

/// The output over a writer.
#[derive(Drop)]
pub struct WriteOutput<W: Write> {
    writer: W,
    has_failed: bool,
}

impl<W: Write> Model for WriteOutput<W> {
    ghost Value = { Outlet };

    ghost view = { λ o. record { taken = W.contents o.writer; has_failed = o.has_failed } };
}

impl<W: Write> WriteOutput<W> {
    /// An output that has not failed.
    pub fn new(writer: W) -> Self
        ensures { result ≡ record { taken = W.contents writer; has_failed = false } }
    {
        WriteOutput {
            writer,
            has_failed: false,
        }
    }
}

impl<W: Write> Output for WriteOutput<W> {
    ghost taken = { λ o. o.taken };

    ghost has_failed = { λ o. o.has_failed };

    // A count of 0 would be given again and again, so it is a failure too. So is an interrupted
    // write.
    fn put(&mut self, octets: &[u8]) -> Result<usize, OutputError> {
        match self.writer.write(octets) {
            Ok(0) | Err(_) => {
                self.has_failed = true;
                Err(OutputError)
            }
            Ok(n) => Ok(n),
        }
    }
}

/// Puts all of the octets, in as many calls as it takes. After an error the output took a front of
/// them.
pub fn put_all<O: Output>(out: &mut O, octets: &[u8]) -> Result<(), OutputError>
    ensures takes { OnOk result (Appends (O.taken out.old) (O.taken out.new) octets.now) }
    ensures stays { OnOk result (O.has_failed out.new ≡ O.has_failed out.old) }
    ensures front { OnErr result (AppendsFrontOf (O.taken out.old) (O.taken out.new) octets.now) }
    ensures fails { OnErr result (O.has_failed out.new ≡ true) }
{
    let mut done = 0;
    while done < octets.len() {
        done += out.put(&octets[done..])?;
    }
    Ok(())
}
