//! Walks over attributes.

ghost use Rattle.std.specs.Prelude.{◌≡◌, ◌<◌, ◌-◌, ℕ, [], List, length, IfOk, IfErr};
ghost use Rattle.avp_packet.specs.Splitting.{IsSplit, Part, items, left, parts};
ghost use Rattle.avp_packet.specs.internal.Views.{items_left};

use crate::attribute::splitting::{Attributes, BadLength, first_attribute};

/// The attributes in a slice, one after the other; as the last item the first one that is not whole (RFC 2865,
/// section 5).
///
/// ```rust
/// let mut walk = attributes(&[5, 6, 0, 0, 0, 3, 8, 9]);
/// let port = walk.next().ok_or("no attribute")??;
/// assert_eq!(rt; (port.number, port.value), (5, [0, 0, 0, 3].as_slice()));
/// let refused = walk.next().ok_or("no attribute")?.err();
/// assert_eq!(rt; refused, Some(BadLength { offset: 6 }));
/// ```
pub fn attributes(octets: &[u8]) -> Attributes<'_>
    ensures items { items_left result ≡ items octets.now }
    ensures split { IsSplit octets.now (parts octets.now) (left octets.now) }
    ensures only { (found : List Part) (rest : List ℕ) → IsSplit octets.now found rest
        → (found ≡ parts octets.now) × (rest ≡ left octets.now) }
{
    Attributes::new(octets)
}

/// How many attributes there are, where each of them is whole.
pub(crate) fn count_attributes(octets: &[u8]) -> Result<usize, BadLength>
    ensures count { IfOk result (λ count. count ≡ length (parts octets.now)) }
    ensures whole { IfOk result (λ count. left octets.now ≡ []) }
    ensures bad { IfErr result (λ bad. bad.offset ≡ length octets.now - length (left octets.now)) }
    ensures some { IfErr result (λ bad. 0 < length (left octets.now)) }
{
    let mut count = 0;
    let mut rest = octets;
    while let Some(front) = first_attribute(rest) {
        rest = front.rest;
        count += 1;
    }
    if rest.is_empty() {
        Ok(count)
    } else {
        Err(BadLength {
            offset: octets.len() - rest.len(),
        })
    }
}
