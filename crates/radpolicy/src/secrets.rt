//! Shared secrets.

ghost use Rattle.std.specs.Prelude.{◌≡◌, ◌<◌, [], length, IfOk, IfErr};
ghost use Rattle.std.specs.List.{before_first};
ghost use Rattle.avp_dict.specs.Lines.{is_line_end};
ghost use Rattle.radpolicy.specs.Secrets.{secret_in, without_last_controls};
ghost use Rattle.radpolicy.specs.declared.faults.Fault.TheVariants as fault;

use crate::faults::Fault;
use avp_dict::next_line;
use std::marker::Model;

// Octets without the controls at their end.
#[tactic(auto, using(crate::proofs::Controls::kept_at_end, crate::proofs::Controls::dropped_at_end, crate::proofs::Controls::none_at_end))]
fn without_last_controls(octets: &[u8]) -> &[u8]
    ensures { result.now ≡ without_last_controls octets.now }
{
    match octets.split_last() {
        Some((last, rest)) => {
            if *last < 32 {
                without_last_controls(rest)
            } else {
                octets
            }
        }
        None => octets,
    }
}

// A text's first line, without its end.
fn first_line(text: &[u8]) -> &[u8]
    ensures { result.now ≡ before_first is_line_end text.now }
{
    match next_line(text) {
        Some((line, _)) => line,
        None => text,
    }
}

/// A shared secret, which has one octet at least.
// It has no Debug, so that it is not printed by mistake.
#[derive(Drop)]
pub struct Secret<'a> {
    octets: &'a [u8],
}

impl<'a> Model for Secret<'a> {
    ghost use Rattle.std.specs.Prelude.{◌<◌, ℕ, List, length};

    ghost Value = { List ℕ };

    ghost view = { λ s. s.octets.now };

    ghost invariant = { λ s. 0 < length s.octets.now };
}

impl<'a> Secret<'a> {
    /// A secret of these octets. `EmptySecret` where there are none.
    pub fn new(octets: &'a [u8]) -> Result<Secret<'a>, Fault>
        ensures ok { IfOk result (λ secret. secret ≡ octets.entry.now) }
        ensures refused { IfErr result (λ f. (octets.entry.now ≡ []) × (f ≡ fault.EmptySecret)) }
    {
        if octets.is_empty() {
            Err(Fault::EmptySecret)
        } else {
            Ok(Secret { octets })
        }
    }

    /// The secret in a file's octets: its first line without the octets below 0x20 at its end. `EmptySecret` where that
    /// has no octets.
    ///
    /// ```rust
    /// let secret = Secret::in_file(b"testing123\r\n")?;
    /// assert_eq!(rt; secret.as_slice(), b"testing123".as_slice());
    /// assert_eq!(rt; Secret::in_file(b"\n").err(), Some(Fault::EmptySecret));
    /// ```
    pub fn in_file(file: &'a [u8]) -> Result<Secret<'a>, Fault>
        ensures ok { IfOk result (λ secret. secret ≡ secret_in file.entry.now) }
        ensures refused { IfErr result (λ f.
            (secret_in file.entry.now ≡ []) × (f ≡ fault.EmptySecret)) }
    {
        Secret::new(without_last_controls(first_line(file)))
    }

    /// Its octets.
    pub fn as_slice(&self) -> &[u8]
        ensures octets { result.now ≡ self.now }
        ensures some { 0 < length result.now }
    {
        self.octets
    }
}
