//! Attributes, one after the other (RFC 2865, section 5).

ghost use Rattle.std.specs.Prelude.{◌≡◌, ◌≤◌, ◌+◌, ◌∷◌, ◌++◌, false, length, IfSome, IfNone};
ghost use Rattle.avp_packet.specs.AttributeOctets.{part};
ghost use Rattle.avp_packet.specs.Splitting.{IsSplit, begins_whole, items, left, part_octets, parts};

use thiserror::Error;

/// Octets of an attribute's Type and Length.
pub(crate) const ATTRIBUTE_HEAD_OCTETS: usize = 2;

/// An attribute, where it is.
#[derive(Clone, Copy, Debug)]
pub struct Attribute<'a> {
    pub number: u8,
    pub value: &'a [u8],
    /// Where it begins, counted from the slice's start.
    pub offset: usize,
}

/// Where an attribute begins that has a Length below 2 or past the end, counted from the slice's start.
#[derive(Clone, Copy, Debug, PartialEq, Eq, Error)]
#[error("bad attribute length")]
pub struct BadLength {
    pub offset: usize,
}

/// The attributes in a slice, one after the other; as the last item the first one that is not whole.
#[derive(Clone, Copy, Debug)]
pub struct Attributes<'a> {
    octets: &'a [u8],
    // Where the next one begins.
    offset: usize,
    ghost within: { offset ≤ length octets.now },
}

// The first attribute, and what is after it.
#[derive(Clone, Copy)]
pub(crate) struct Front<'a> {
    pub number: u8,
    pub value: &'a [u8],
    pub rest: &'a [u8],
}

pub(crate) fn first_attribute(octets: &[u8]) -> Option<Front<'_>>
    ensures octets { IfSome result (λ f. octets.now
        ≡ part_octets (part f.number f.value.now) ++ f.rest.now) }
    ensures length { IfSome result (λ f. length octets.now
        ≡ 2 + length f.value.now + length f.rest.now) }
    ensures none { IfNone result (begins_whole octets.now ≡ false) }
{
    match octets {
        [number, length, after @ ..] => {
            let length = usize::from(*length);
            if length < ATTRIBUTE_HEAD_OCTETS || length > ATTRIBUTE_HEAD_OCTETS + after.len() {
                return None;
            }
            let (value, rest) = after.split_at(length - ATTRIBUTE_HEAD_OCTETS);
            Some(Front {
                number: *number,
                value,
                rest,
            })
        }
        _ => None,
    }
}

impl<'a> Attributes<'a> {
    ghost use Rattle.std.specs.Prelude.{[], drop};
    ghost use Rattle.avp_packet.specs.internal.Views.{item_view, items_left};

    /// Those of a slice, from its start.
    pub fn new(octets: &'a [u8]) -> Attributes<'a>
        ensures items { items_left result ≡ items octets.now }
        ensures split { IsSplit octets.now (parts octets.now) (left octets.now) }
    {
        Attributes { octets, offset: 0 }
    }

    fn rest(&self) -> &'a [u8]
        ensures { result.now ≡ drop self.now.offset self.now.octets.now }
    {
        &self.octets[self.offset..]
    }

    fn advance(&mut self) -> Option<Result<Attribute<'a>, BadLength>>
        ensures some { IfSome result (λ item.
            items_left self.old ≡ item_view item ∷ items_left self.new) }
        ensures end { IfNone result (items_left self.old ≡ []) }
        ensures ended { IfNone result (items_left self.new ≡ []) }
    {
        let offset = self.offset;
        let rest = self.rest();
        if rest.is_empty() {
            return None;
        }
        match first_attribute(rest) {
            Some(front) => {
                self.offset = self.octets.len() - front.rest.len();
                Some(Ok(Attribute {
                    number: front.number,
                    value: front.value,
                    offset,
                }))
            }
            None => {
                self.offset = self.octets.len();
                Some(Err(BadLength { offset }))
            }
        }
    }
}

impl<'a> Iterator for Attributes<'a> {
    ghost use Rattle.std.specs.Iterator.{YieldsFirstBy, item_count};
    ghost use Rattle.avp_packet.specs.internal.Views.{item_view, items_left};

    type Item = Result<Attribute<'a>, BadLength>;

    ghost next_gives = { YieldsFirstBy item_view items_left };

    ghost remaining = { item_count items_left };

    fn next(&mut self) -> Option<Result<Attribute<'a>, BadLength>> {
        self.advance()
    }
}
