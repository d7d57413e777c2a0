//! Values of update lines, as a server takes them.

use crate::differences::Difference;
use crate::hexadecimal::{is_zero_alone, meant_text};
use crate::lines::{LineReader, adds};
use crate::reasons::Refusal;
use crate::references::{Reference, Spelling, kind_of, parts_of, tag_of};
use crate::texts::{PutIn, has_expansion, text_octets};
use avp_dict::{Form, Kind, Named};
use avp_lists::List;
use server_configuration::{Operator, Quote, Text};
use std::alloc::AllocError;

// The number of hexadecimal digits.
fn number_of(digits: &[u8]) -> Option<u64> {
    let mut number = 0u64;
    for octet in digits {
        let digit = match *octet {
            b'0'..=b'9' => *octet - b'0',
            b'a'..=b'f' => *octet - b'a' + 10,
            b'A'..=b'F' => *octet - b'A' + 10,
            _ => return None,
        };
        number = number.checked_mul(16)?.checked_add(u64::from(digit))?;
    }
    (!digits.is_empty()).then_some(number)
}

impl<'a> LineReader<'a> {
    /// What a line copies. An attribute by its number is to a server the one of that name, and to a policy its octets.
    pub(crate) fn meant_source<'b>(
        &self,
        target: &Reference<'_>,
        source: Reference<'b>,
    ) -> Reference<'b> {
        let kind = kind_of(self.names.dictionary, source.named);
        let is_alike = kind == kind_of(self.names.dictionary, target.named);
        if !self.skips || !source.named.raw || !is_alike || kind == Kind::Bytes {
            return source;
        }
        Reference {
            spelling: Spelling::Printed,
            named: Named {
                raw: false,
                ..source.named
            },
            ..source
        }
    }

    /// What a policy writes for a value that a server takes otherwise by its digits. None for any other.
    pub(crate) fn meant_value(
        &self,
        target: &Reference<'_>,
        value: &Text,
    ) -> Result<Option<Text>, AllocError> {
        if !self.skips {
            return Ok(None);
        }
        let dictionary = self.names.dictionary;
        match meant_text(self.alloc, dictionary, target.named, &value.octets)? {
            Some(octets) => Ok(Some(Text {
                quote: value.quote,
                octets,
            })),
            None => Ok(None),
        }
    }

    /// What a server does otherwise with a line's value, into which something may be put.
    pub(crate) fn value_difference(
        &self,
        target: &Reference<'_>,
        operator: Operator,
        value: &Text,
        put_in: PutIn,
    ) -> Option<Difference> {
        if is_zero_alone(self.names.dictionary, target.named, &value.octets) {
            return Some(Difference::HexadecimalNumber);
        }
        self.cut_when_sent(target.list, target.named, operator, put_in)
    }

    // Whether a number with a tag is written as other octets than those that a server sends of it.
    fn is_other_octets(&self, value: &Text) -> bool {
        !self.skips
            && match value.octets.strip_prefix(b"0x") {
                Some(digits) => digits.len() != 8 || !digits.starts_with(b"00"),
                None => false,
            }
    }

    /// The number that a value is to a server, if it is one in hexadecimal and its attribute's numbers have tags: of
    /// such a one policies read the octets.
    pub(crate) fn hexadecimal_number(
        &self,
        name: &[u8],
        value: &Text,
    ) -> Result<Option<u64>, Refusal> {
        if !self.skips
            || self.form(name) != Some(Form::TaggedInteger)
            || has_expansion(&value.octets)
            || value.quote == Quote::Back
        {
            return Ok(None);
        }
        let text = text_octets(self.alloc, &self.names, value.quote, &value.octets)?;
        match text.strip_prefix(b"0x") {
            Some(digits) => Ok(number_of(digits)),
            None => Ok(None),
        }
    }

    /// What a server does otherwise with a value that is written out.
    pub(crate) fn written_difference(
        &self,
        name: &[u8],
        operator: Operator,
        value: &Text,
    ) -> Option<Difference> {
        let (list, _, tag) = parts_of(self.own, name);
        let is_sent = list.list() == List::Reply && adds(operator);
        match self.form(name) {
            Some(Form::Date) => Some(Difference::DateZone),
            Some(Form::TaggedInteger) if self.is_other_octets(value) => {
                Some(Difference::HexadecimalOctets)
            }
            Some(Form::TaggedString)
                if is_sent && value.octets.is_empty() && matches!(tag_of(tag), Some(1..)) => {
                Some(Difference::EmptyTagged)
            }
            Some(Form::Ipv6Prefix) if matches!(operator, Operator::Subtract | Operator::IsEqual) =>
                { Some(Difference::ShortPrefix) }
            _ => None,
        }
    }
}
