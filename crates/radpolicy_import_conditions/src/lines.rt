//! Lines of updates.

use crate::addresses::octal_address;
use crate::differences::Difference;
use crate::other_lists::ServerList;
use crate::reasons::{Reason, Refusal};
use crate::references::{
    Names, Reference, has_texts, is_address, kind_of, list_name, parts_of, push_spelling,
    reads_digits, reference_in, reference_of, tag_of,
};
use crate::texts::{
    Beginning, PutIn, between, has_expansion, octets_before_expansions, push_double,
    push_expansion, push_octets, push_reference, single_octets, text_octets,
};
use avp_dict::{Form, Kind, Named};
use avp_lists::{AttrId, List, Pair, Selection, Value};
use avp_unlang::{Line, Policy, Source, Statement, read_policy};
use server_configuration::{Operator, Quote, Text};
use std::alloc::{AllocError, Global};

/// What a line is of, where the attribute's values have tags.
#[derive(Clone, Copy)]
pub struct TaggedLine {
    pub list: List,
    pub id: AttrId,
    pub tag: u8,
    /// Whether it does something else where there are instances with another tag.
    pub minds_others: bool,
}

/// A line of an update in a policy.
#[derive(Drop)]
pub struct UpdateLine {
    pub text: Vec<u8>,
    /// The attribute without which a server skips the line, with its `&`.
    pub needs: Option<Vec<u8>>,
    /// Whether it is one of the wider profile.
    pub is_wider: bool,
    /// Whether something captured is put into it.
    pub captures: bool,
    /// Whether what is put into it may be no value of the attribute, by which the update fails.
    pub may_fail: bool,
    /// What it is of, where the attribute's values have tags.
    pub tagged: Option<TaggedLine>,
    /// Whether a string is put into octets, which a server puts in as it prints it.
    pub is_escaped: bool,
    /// Whether an IPv6 address or prefix is put into it.
    pub prints_address: bool,
    /// Whether a date is put into it.
    pub prints_date: bool,
    /// What else a server does otherwise with it.
    pub difference: Option<Difference>,
}

// A line that needs nothing, of the plain profile.
fn plain_line(text: Vec<u8>) -> UpdateLine {
    UpdateLine {
        text,
        needs: None,
        is_wider: false,
        captures: false,
        may_fail: false,
        tagged: None,
        is_escaped: false,
        prints_address: false,
        prints_date: false,
        difference: None,
    }
}

/// What is known where a line stands.
#[derive(Clone, Copy)]
pub struct LineReader<'a> {
    pub alloc: Global,
    pub names: Names<'a>,
    /// The list of the update.
    pub own: ServerList,
    /// Whether a line with an absent source is skipped, as a server does.
    pub skips: bool,
    /// Whether lines of the wider profile are taken.
    pub takes_wider: bool,
}

// The operator of an update, as it is written.
fn sign(operator: Operator) -> Option<&'static [u8]> {
    match operator {
        Operator::Equals => Some(b"="),
        Operator::Set => Some(b":="),
        Operator::Add => Some(b"+="),
        Operator::Subtract => Some(b"-="),
        Operator::Prepend => Some(b"^="),
        Operator::IsEqual => Some(b"=="),
        Operator::IsAbsent => Some(b"!*"),
        _ => None,
    }
}

/// Whether an update adds the value to those of its list, or sets it.
pub(crate) fn adds(operator: Operator) -> bool {
    matches!(
        operator,
        Operator::Equals | Operator::Set | Operator::Add | Operator::Prepend
    )
}

// `0x`, and two hexadecimal digits for each octet.
fn hexadecimal(alloc: Global, octets: &[u8]) -> Result<Vec<u8>, AllocError> {
    let digits = hex::encode(alloc, octets)?;
    between(alloc, b"0x", digits.as_bytes(), b"")
}

// Whether octets are one word of a policy.
fn is_word(octets: &[u8]) -> bool {
    !octets.is_empty()
        && octets.iter().all(|octet| {
            octet.is_ascii_alphanumeric()
                || matches!(*octet, b'-' | b'_' | b'.' | b'/' | b':' | b'@')
        })
}

impl<'a> LineReader<'a> {
    /// Whether an attribute's text, put into the attribute of a name, gives the value again.
    pub fn copies(&self, name: &[u8], source: AttrId) -> bool {
        let name = name.strip_prefix(b"&").unwrap_or(name);
        let Ok(target) = reference_in(&self.names, self.own, name) else {
            return false;
        };
        let dictionary = self.names.dictionary;
        match (dictionary.by_id(target.named.id), dictionary.by_id(source)) {
            (Some(own), Some(entry)) if own.kind == entry.kind => match own.kind {
                Kind::Text => false,
                Kind::Bytes | Kind::Addr => true,
                // Numbers may have names, each attribute its own.
                _ => target.named.id.equals(source),
            },
            _ => false,
        }
    }

    // Whether a text with expansions may be put into an attribute: into others a server puts numbers that a policy
    // would refuse.
    fn takes_expansions(&self, target: &Reference<'_>) -> bool {
        match self.names.dictionary.by_id(target.named.id) {
            Some(entry) => matches!(entry.kind, Kind::Text | Kind::Bytes),
            None => true,
        }
    }

    fn push_text(
        &self,
        out: &mut Vec<u8>,
        target: &Reference<'_>,
        text: &[u8],
    ) -> Result<PutIn, Refusal> {
        let put_in = push_double(out, &self.names, text)?;
        if put_in.captures && !self.takes_wider {
            return Err(Refusal::LeftOut(Reason::Capture));
        }
        if put_in.meanings && !self.takes_wider {
            return Err(Refusal::LeftOut(Reason::OctetsHere));
        }
        if put_in.is_some() && !self.takes_expansions(target) {
            return Err(Refusal::LeftOut(Reason::ExpandedValue));
        }
        // No expansion makes it shorter. What is written out alone is read with the policy.
        let may_be_digits = put_in.beginning != Beginning::Other;
        if put_in.is_some() && put_in.octets > self.room(target.named, may_be_digits) {
            return Err(Refusal::LeftOut(Reason::TooLong));
        }
        Ok(put_in)
    }

    // How long a text may be for an attribute. Of octets it may be the digits, two for each behind `0x`.
    fn room(&self, named: Named, is_digits: bool) -> usize {
        let most = self.names.dictionary.greatest_length(named.id);
        if is_digits && reads_digits(self.names.dictionary, named) {
            most.saturating_mul(2).saturating_add(2)
        } else {
            most
        }
    }

    /// What a server does otherwise with a text for an attribute in a reply, where it becomes too long.
    pub(crate) fn cut_when_sent(
        &self,
        list: List,
        named: Named,
        operator: Operator,
        put_in: PutIn,
    ) -> Option<Difference> {
        let is_digits = matches!(put_in.beginning, Beginning::Digits | Beginning::Octets);
        let may_be_cut = list == List::Reply
            && adds(operator)
            && put_in.is_some()
            && put_in.most > self.room(named, is_digits);
        may_be_cut.then_some(Difference::LongExpansion)
    }

    fn push_value(
        &self,
        out: &mut Vec<u8>,
        target: &Reference<'_>,
        value: &Text,
    ) -> Result<PutIn, Refusal> {
        if let Some(address) = self.octal_address(target, value)? {
            self.push_address(out, target, address)?;
            return Ok(PutIn::nothing());
        }
        let meant = self.meant_value(target, value)?;
        let value = meant.as_ref().unwrap_or(value);
        let octets = value.octets.as_slice();
        match value.quote {
            Quote::Double => return self.push_text(out, target, octets),
            Quote::Single => push_octets(out, &single_octets(self.alloc, octets)?)?,
            Quote::Back => return Err(Refusal::LeftOut(Reason::Command)),
            Quote::Bare if has_expansion(octets) => return self.push_text(out, target, octets),
            Quote::Bare if is_word(octets) => out.extend_from_slice(octets)?,
            Quote::Bare => push_octets(out, octets)?,
        }
        Ok(PutIn::nothing())
    }

    // Whether what is put into a text may make it one that the attribute's type does not read: octets are read from
    // what begins with `0x`.
    fn may_fail(&self, target: &Reference<'_>, put_in: PutIn) -> bool {
        self.skips
            && put_in.is_some()
            && reads_digits(self.names.dictionary, target.named)
            && put_in.beginning != Beginning::Other
    }

    // The address that a text is to a server, if policies read another.
    fn octal_address(
        &self,
        target: &Reference<'_>,
        value: &Text,
    ) -> Result<Option<[u8; 4]>, Refusal> {
        if !self.skips
            || !is_address(self.names.dictionary, target.named)
            || has_expansion(&value.octets)
            || value.quote == Quote::Back
        {
            return Ok(None);
        }
        let octets = text_octets(self.alloc, &self.names, value.quote, &value.octets)?;
        Ok(octal_address(&octets)?)
    }

    fn push_address(
        &self,
        out: &mut Vec<u8>,
        target: &Reference<'_>,
        address: [u8; 4],
    ) -> Result<(), Refusal> {
        let pair = Pair {
            id: target.named.id,
            value: Value::Addr(address),
        };
        if !self.names.dictionary.fits(&pair) {
            return Err(Refusal::LeftOut(Reason::NotValue));
        }
        let text = self
            .names
            .dictionary
            .text_of_value(self.alloc, pair.id, &pair.value)?;
        Ok(out.extend_from_slice(&text)?)
    }

    // Whether a server makes a text of a number or an address that is copied.
    fn becomes_text(&self, target: &Reference<'_>, source: &Reference<'_>) -> bool {
        let dictionary = self.names.dictionary;
        let kind = kind_of(dictionary, source.named);
        self.skips
            && !source.named.raw
            && !target.named.raw
            && kind_of(dictionary, target.named) == Kind::Text
            && !matches!(kind, Kind::Text | Kind::Bytes | Kind::Date)
    }

    // The line that copies an attribute, which needs it.
    fn copy_of(
        &self,
        before: Vec<u8>,
        target: &Reference<'_>,
        word: &[u8],
    ) -> Result<UpdateLine, Refusal> {
        let dictionary = self.names.dictionary;
        let found = self.meant_source(target, reference_of(&self.names, word)?);
        if !has_texts(dictionary, found.named) {
            return Err(Refusal::LeftOut(Reason::OctetsHere));
        }
        let mut text = before;
        if self.becomes_text(target, &found) {
            push_expansion(&mut text, dictionary, &found)?;
        } else {
            push_reference(&mut text, dictionary, &found)?;
        }
        let mut source = Vec::new(self.alloc);
        push_reference(&mut source, dictionary, &found)?;
        Ok(UpdateLine {
            needs: self.skips.then_some(source),
            ..plain_line(text)
        })
    }

    fn target(&self, out: &mut Vec<u8>, target: &Reference<'_>) -> Result<(), AllocError> {
        if target.list != self.own.list() {
            out.extend_from_slice(list_name(target.list))?;
            out.push(b':')?;
        }
        push_spelling(out, self.names.dictionary, target)
    }

    /// The line of a name, an operator and a value, whose references to the configuration are filled in.
    pub fn line(
        &self,
        name: &[u8],
        operator: Operator,
        value: Option<&Text>,
    ) -> Result<UpdateLine, Refusal> {
        let Some(sign) = sign(operator) else {
            return Err(Refusal::LeftOut(Reason::Operator));
        };
        let name = name.strip_prefix(b"&").unwrap_or(name);
        let target = reference_in(&self.names, self.own, name)?;
        let mut text = Vec::new(self.alloc);
        self.target(&mut text, &target)?;
        text.push(b' ')?;
        text.extend_from_slice(sign)?;
        text.push(b' ')?;
        if operator == Operator::IsAbsent {
            text.extend_from_slice(b"ANY")?;
            return Ok(plain_line(text));
        }
        let Some(value) = value else {
            return Err(Refusal::LeftOut(Reason::NotValue));
        };
        if !has_texts(self.names.dictionary, target.named) {
            return Err(Refusal::LeftOut(Reason::OctetsHere));
        }
        if value.quote == Quote::Bare
            && let Some(word) = value.octets.strip_prefix(b"&")
        {
            return self.copy_of(text, &target, word);
        }
        let put_in = self.push_value(&mut text, &target, value)?;
        Ok(UpdateLine {
            is_wider: put_in.captures || put_in.meanings,
            captures: put_in.captures,
            may_fail: self.may_fail(&target, put_in),
            is_escaped: put_in.strings
                && !target.named.raw
                && kind_of(self.names.dictionary, target.named) == Kind::Bytes,
            prints_address: put_in.addresses,
            prints_date: put_in.dates,
            difference: self.value_difference(&target, operator, value, put_in),
            ..plain_line(text)
        })
    }

    /// The line in a reply with as much of a text as is sent; none where that is not known, or where the line compares.
    pub fn cut_line(
        &self,
        name: &[u8],
        operator: Operator,
        value: Option<&Text>,
    ) -> Result<Option<UpdateLine>, Refusal> {
        let (Some(sign), Some(value), true) = (sign(operator), value, adds(operator)) else {
            return Ok(None);
        };
        let target = reference_in(
            &self.names,
            self.own,
            name.strip_prefix(b"&").unwrap_or(name),
        )?;
        if target.list != List::Reply || !self.takes_expansions(&target) {
            return Ok(None);
        }
        let octets = octets_before_expansions(self.alloc, &self.names, value)?;
        let is_digits = matches!(octets.as_slice(), [b'0', b'x' | b'X', ..]);
        if is_digits && reads_digits(self.names.dictionary, target.named) {
            return Ok(None);
        }
        let most = self.names.dictionary.greatest_length(target.named.id);
        let Some(sent) = octets.get(..most) else {
            return Ok(None);
        };
        let mut text = Vec::new(self.alloc);
        self.target(&mut text, &target)?;
        text.push(b' ')?;
        text.extend_from_slice(sign)?;
        text.push(b' ')?;
        push_octets(&mut text, sent)?;
        Ok(Some(UpdateLine {
            difference: Some(Difference::LongText),
            ..plain_line(text)
        }))
    }

    // The name of a line's attribute, which may have a tag. False where it is of another list and not known.
    fn push_target(&self, out: &mut Vec<u8>, word: &[u8]) -> Result<bool, AllocError> {
        let (list, name, tag) = parts_of(self.own, word);
        let ServerList::Other(list) = list else {
            out.extend_from_slice(word)?;
            return Ok(true);
        };
        let Some(name) = self.names.own_name(list, name) else {
            return Ok(false);
        };
        if !matches!(self.own.list(), List::Control) {
            out.extend_from_slice(b"control:")?;
        }
        out.extend_from_slice(name)?;
        out.extend_from_slice(tag)?;
        Ok(true)
    }

    // A value that is written out, as the wider profile reads it. False where it is none: a reference or a command, or
    // with something to put in.
    fn push_written(&self, out: &mut Vec<u8>, value: &Text) -> Result<bool, Refusal> {
        let octets = value.octets.as_slice();
        if has_expansion(octets) || octets.starts_with(b"&") {
            return Ok(false);
        }
        match value.quote {
            Quote::Back => return Ok(false),
            Quote::Double => {
                push_double(out, &self.names, octets)?;
            }
            Quote::Single => push_octets(out, &single_octets(self.alloc, octets)?)?,
            Quote::Bare if is_word(octets) => out.extend_from_slice(octets)?,
            Quote::Bare => push_octets(out, octets)?,
        }
        Ok(true)
    }

    // A value that is written out, as the wider profile has what it is to a server. False where it is none.
    fn push_meant(&self, out: &mut Vec<u8>, name: &[u8], value: &Text) -> Result<bool, Refusal> {
        match self.hexadecimal_number(name, value)? {
            Some(number) => {
                let digits = format!(in self.alloc; "{number}")?;
                out.extend_from_slice(digits.as_bytes())?;
                Ok(true)
            }
            None => self.push_written(out, value),
        }
    }

    // The attribute that a line copies, with its `&`, where both are IPv6 addresses or the like, whose octets are the
    // same.
    fn copied(&self, name: &[u8], value: &Text) -> Result<Option<Vec<u8>>, Refusal> {
        let (Quote::Bare, Some(word)) = (value.quote, value.octets.strip_prefix(b"&")) else {
            return Ok(None);
        };
        let target = reference_in(&self.names, self.own, name)?;
        let source = reference_of(&self.names, word)?;
        let dictionary = self.names.dictionary;
        let form = dictionary.form(source.named.id);
        let is_plain = matches!(
            form,
            Some(Form::Ipv6Address | Form::Ipv6Prefix | Form::Ipv4Prefix | Form::InterfaceId)
        );
        if !is_plain || dictionary.form(target.named.id) != form {
            return Ok(None);
        }
        let mut text = Vec::new(self.alloc);
        push_reference(&mut text, dictionary, &source)?;
        Ok(Some(text))
    }

    // The line that copies an attribute, which needs it.
    fn copying_line(&self, before: Vec<u8>, source: Vec<u8>) -> Result<UpdateLine, Refusal> {
        let mut text = before;
        text.extend_from_slice(&source)?;
        Ok(UpdateLine {
            needs: self.skips.then_some(source),
            is_wider: true,
            ..plain_line(text)
        })
    }

    // The attribute of a name, which may have a tag.
    fn attribute(&self, name: &[u8]) -> Option<Named> {
        let dictionary = self.names.dictionary;
        match parts_of(self.own, name) {
            (ServerList::Own(_), name, _) => dictionary.by_name(name),
            (ServerList::Other(list), name, _) => {
                dictionary.by_name(self.names.own_name(list, name)?)
            }
        }
    }

    /// The form of an attribute's values, where it is not given by its number.
    pub(crate) fn form(&self, name: &[u8]) -> Option<Form> {
        let named = self.attribute(name)?;
        if named.raw {
            return None;
        }
        self.names.dictionary.form(named.id)
    }

    // What a line begins with, up to its value. False where its attribute is not known, or it is no line.
    fn push_begin(
        &self,
        out: &mut Vec<u8>,
        name: &[u8],
        operator: Operator,
    ) -> Result<bool, AllocError> {
        let Some(sign) = sign(operator) else {
            return Ok(false);
        };
        if !is_word(name) || !self.push_target(out, name)? {
            return Ok(false);
        }
        out.push(b' ')?;
        out.extend_from_slice(sign)?;
        out.push(b' ')?;
        Ok(true)
    }

    // The value of a line behind what it begins with, if it is a text with expansions for an attribute whose texts have
    // tags.
    fn filled_line(
        &self,
        before: &[u8],
        name: &[u8],
        operator: Operator,
        value: &Text,
    ) -> Result<Option<UpdateLine>, Refusal> {
        if !has_expansion(&value.octets)
            || !matches!(value.quote, Quote::Double | Quote::Bare)
            || self.form(name) != Some(Form::TaggedString)
        {
            return Ok(None);
        }
        let mut text = Vec::from_slice(self.alloc, before)?;
        let put_in = push_double(&mut text, &self.names, &value.octets)?;
        // A server takes it as a text, and policies read octets.
        if put_in.beginning == Beginning::Digits {
            return Ok(None);
        }
        Ok(Some(UpdateLine {
            is_wider: put_in.captures || put_in.meanings,
            captures: put_in.captures,
            prints_address: put_in.addresses,
            prints_date: put_in.dates,
            difference: self.filled_difference(name, operator, put_in),
            ..plain_line(text)
        }))
    }

    // What a server does otherwise with a text with something put in, whose attribute's texts have tags.
    fn filled_difference(
        &self,
        name: &[u8],
        operator: Operator,
        put_in: PutIn,
    ) -> Option<Difference> {
        if put_in.beginning != Beginning::Other {
            return Some(Difference::TaggedOctets);
        }
        let (list, _, tag) = parts_of(self.own, name);
        let put_in = PutIn {
            most: put_in
                .most
                .saturating_add(usize::from(matches!(tag_of(tag), Some(1..)))),
            ..put_in
        };
        self.cut_when_sent(list.list(), self.attribute(name)?, operator, put_in)
    }

    // The octets of the text that a value is to a server, if it begins with `0x` and its attribute's texts have tags:
    // of such a text policies read the digits.
    fn lettered_octets(&self, name: &[u8], value: &Text) -> Result<Option<Vec<u8>>, Refusal> {
        let octets = value.octets.as_slice();
        if !self.skips
            || self.form(name) != Some(Form::TaggedString)
            || has_expansion(octets)
            || value.quote == Quote::Back
        {
            return Ok(None);
        }
        let letters = text_octets(self.alloc, &self.names, value.quote, octets)?;
        let Some(tag) = tag_of(parts_of(self.own, name).2) else {
            return Ok(None);
        };
        if !letters.starts_with(b"0x") {
            return Ok(None);
        }
        let mut sent = Vec::new(self.alloc);
        if tag != 0 {
            sent.push(tag)?;
        }
        sent.extend_from_slice(&letters)?;
        Ok(Some(sent))
    }

    // The line of such a value, with its octets in place of it.
    fn lettered_line(
        &self,
        name: &[u8],
        operator: Operator,
        value: &Text,
    ) -> Result<Option<UpdateLine>, Refusal> {
        let Some(octets) = self.lettered_octets(name, value)? else {
            return Ok(None);
        };
        let Some(named) = self.attribute(name) else {
            return Ok(None);
        };
        let (list, _, tag) = parts_of(self.own, name);
        let bare = name.strip_suffix(tag).unwrap_or(name);
        let mut text = Vec::new(self.alloc);
        if !self.push_begin(&mut text, bare, operator)? {
            return Ok(None);
        }
        text.extend_from_slice(&hexadecimal(self.alloc, &octets)?)?;
        let tag = tag_of(tag).filter(|_| !tag.is_empty());
        Ok(Some(UpdateLine {
            tagged: self.tagged(list.list(), named.id, tag, operator),
            ..plain_line(text)
        }))
    }

    /// The line in the wider profile of a name, which may have a tag, an operator and a value that is written out, an
    /// attribute of the same form, or a text for an attribute whose texts have tags; none where it is none of them.
    pub fn wider_line(
        &self,
        name: &[u8],
        operator: Operator,
        value: Option<&Text>,
    ) -> Result<Option<UpdateLine>, Refusal> {
        let name = name.strip_prefix(b"&").unwrap_or(name);
        let mut text = Vec::new(self.alloc);
        let Some(value) = value else {
            return Ok(None);
        };
        if let Some(line) = self.lettered_line(name, operator, value)? {
            return Ok(Some(line));
        }
        if !self.push_begin(&mut text, name, operator)? {
            return Ok(None);
        }
        if let Some(line) = self.filled_line(&text, name, operator, value)? {
            return Ok(Some(UpdateLine {
                is_wider: true,
                tagged: self.tagged_by_name(name),
                ..line
            }));
        }
        if let Some(source) = self.copied(name, value)? {
            let line = self.copying_line(text, source)?;
            return Ok(Some(line));
        }
        if !self.push_meant(&mut text, name, value)? {
            return Ok(None);
        }
        Ok(Some(UpdateLine {
            is_wider: true,
            tagged: self.tagged_by_name(name),
            difference: self.written_difference(name, operator, value),
            ..plain_line(text)
        }))
    }

    // What a line of the wider profile is of, which minds no other tags.
    fn tagged_by_name(&self, name: &[u8]) -> Option<TaggedLine> {
        let (list, _, tag) = parts_of(self.own, name);
        let id = self.attribute(name)?.id;
        self.tagged(list.list(), id, tag_of(tag), Operator::Add)
    }

    // What a line of the wider profile is, read by itself.
    fn policy_of(&self, text: &[u8]) -> Result<Policy, Refusal> {
        let own = list_name(self.own.list());
        let mut whole = between(self.alloc, b"# profile: wider\nupdate ", own, b" { ")?;
        whole.extend_from_slice(text)?;
        whole.extend_from_slice(b" }")?;
        Ok(read_policy(self.alloc, self.names.dictionary, &whole)?)
    }

    // What a line in octets is of, if the attribute's values have tags.
    fn tagged(
        &self,
        list: List,
        id: AttrId,
        tag: Option<u8>,
        operator: Operator,
    ) -> Option<TaggedLine> {
        let form = self.names.dictionary.form(id)?;
        if !matches!(form, Form::TaggedInteger | Form::TaggedString) {
            return None;
        }
        let minds_others = match operator {
            Operator::Set | Operator::Equals => tag.is_some(),
            Operator::Subtract => tag.is_none(),
            Operator::IsEqual => true,
            _ => false,
        };
        Some(TaggedLine {
            list,
            id,
            tag: tag.unwrap_or(0),
            minds_others,
        })
    }

    // What is written out in the wider profile, as the plain one has it: octets, or a number of seconds.
    fn plain_value(&self, source: &Source) -> Result<Option<Vec<u8>>, AllocError> {
        match source {
            Source::Literal(Value::Bytes(octets)) => {
                Ok(Some(hexadecimal(self.alloc, octets.as_slice())?))
            }
            Source::Literal(Value::Int(seconds)) => {
                let digits = format!(in self.alloc; "{seconds}")?;
                Ok(Some(Vec::from_slice(self.alloc, digits.as_bytes())?))
            }
            _ => Ok(None),
        }
    }

    // The line that sets the same octets, or the same number of seconds, behind what it begins with.
    fn written_line(
        &self,
        before: Vec<u8>,
        wider: UpdateLine,
        line: &Line,
        operator: Operator,
    ) -> Result<Option<UpdateLine>, Refusal> {
        // What is copied so are the octets.
        if let Source::Tagged(_, _, Selection::All, Form::AsTyped, _) = &line.source {
            return Ok(Some(UpdateLine {
                is_wider: false,
                ..wider
            }));
        }
        let Some(value) = self.plain_value(&line.source)? else {
            return Ok(None);
        };
        let tag = match line.selection {
            Selection::Tag(_, tag) => Some(tag),
            _ => None,
        };
        let mut text = before;
        text.extend_from_slice(&value)?;
        Ok(Some(UpdateLine {
            text,
            is_wider: false,
            tagged: self.tagged(line.list, line.id, tag, operator),
            ..wider
        }))
    }

    // The line in octets of one of the wider profile, which is read for it.
    fn line_in_octets(
        &self,
        before: Vec<u8>,
        wider: UpdateLine,
        operator: Operator,
    ) -> Result<Option<UpdateLine>, Refusal> {
        let policy = self.policy_of(&wider.text)?;
        let [Statement::Update(_, lines)] = policy.statements().as_slice() else {
            return Ok(None);
        };
        let [line] = lines.as_slice() else {
            return Ok(None);
        };
        self.written_line(before, wider, line, operator)
    }

    // The line of a text with the tag 0 into which something is put, as the plain profile reads it.
    fn untagged_line(
        &self,
        name: &[u8],
        operator: Operator,
        filled: UpdateLine,
    ) -> Option<UpdateLine> {
        let (list, _, tag) = parts_of(self.own, name);
        if filled.is_wider || !tag.is_empty() {
            return None;
        }
        let id = self.attribute(name)?.id;
        Some(UpdateLine {
            tagged: self.tagged(list.list(), id, None, operator),
            ..filled
        })
    }

    /// The line in the plain profile that does what such a line does, with octets in place of what they mean, if there is
    /// one.
    pub fn octets_line(
        &self,
        name: &[u8],
        operator: Operator,
        value: Option<&Text>,
    ) -> Result<Option<UpdateLine>, Refusal> {
        let Some(text) = value else {
            return Ok(None);
        };
        let name = name.strip_prefix(b"&").unwrap_or(name);
        let bare = name
            .strip_suffix(parts_of(self.own, name).2)
            .unwrap_or(name);
        if let Some(line) = self.lettered_line(name, operator, text)? {
            return Ok(Some(line));
        }
        let mut before = Vec::new(self.alloc);
        if !self.push_begin(&mut before, bare, operator)? {
            return Ok(None);
        }
        if let Some(filled) = self.filled_line(&before, bare, operator, text)? {
            return Ok(self.untagged_line(name, operator, filled));
        }
        match self.wider_line(name, operator, value)? {
            Some(wider) => self.line_in_octets(before, wider, operator),
            None => Ok(None),
        }
    }
}
