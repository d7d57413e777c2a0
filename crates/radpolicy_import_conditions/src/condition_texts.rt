//! Conditions, read as a server reads them.

ghost use Rattle.std.specs.Prelude.{◌≤◌, length};

use crate::addresses::octal_address;
use crate::choices::sole_choice;
use crate::hexadecimal::meant_text;
use crate::operands::{Operand, after_blanks, next_operand, next_pattern, relation};
use crate::patterns::{WrittenPattern, by_octets, match_sign, pattern_text};
use crate::reasons::{Reason, Refusal};
use crate::references::{
    Names, Reference, has_texts, is_address, is_number, kind_of, reference_of,
};
use crate::right_words::is_reference;
use crate::server_codes::{KnownCodes, ServerCode};
use crate::server_conditions::ServerCondition;
use crate::text_sides::text_parts;
use crate::texts::{expansion, has_expansion, sole_capture, sole_expansion, text_octets};
use avp_dict::{Kind, Named};
use avp_lists::{Octets, Selection, Value};
use avp_unlang::{
    Comparand, Comparison, GroupMatching, Items, Matching, Part, Relation, TextComparison, TextSide,
};
use server_configuration::Quote;
use std::alloc::{AllocError, Global};

/// The most octets of a condition.
const MAX_CONDITION: usize = 4_096;

/// How many brackets and `!` may be open at once in a condition. Each may double what it becomes.
const MAX_NESTED: usize = 8;

/// The most conditions with `&&` or `||` between them, and brackets and `!` round them.
const MAX_PARTS: usize = 256;

const EMPTY: Operand<'static> = Operand {
    quote: Quote::Single,
    octets: b"",
};

// A text that is `%{%{A}:-B}` alone: that of an attribute, or where it is empty another.
#[derive(Clone, Copy)]
struct ChosenText<'a> {
    found: Reference<'a>,
    other: Operand<'a>,
}

/// Reads conditions by the names of attributes.
#[derive(Clone, Copy)]
pub struct ConditionReader<'a> {
    pub alloc: Global,
    pub names: Names<'a>,
    pub codes: KnownCodes,
    /// Whether comparisons with regular expressions are taken, and what they capture.
    pub takes_patterns: bool,
    /// Whether what policies read otherwise is what a server takes it for: parts of addresses that begin with `0`, which
    /// are octal, numbers and octets in hexadecimal, and letters beyond ASCII that a regular expression repeats.
    pub is_meant: bool,
}

// How deep a part of a condition is, and how many parts may follow.
#[derive(Clone, Copy)]
struct Room {
    nested: usize,
    parts: usize,
}

// The same with its sides exchanged.
fn turned(relation: Relation) -> Relation {
    match relation {
        Relation::Equal => Relation::Equal,
        Relation::Differs => Relation::Differs,
        Relation::Less => Relation::Greater,
        Relation::AtMost => Relation::AtLeast,
        Relation::Greater => Relation::Less,
        Relation::AtLeast => Relation::AtMost,
    }
}

// Whether the empty text compares so with a text.
fn meets_empty(relation: Relation, text: &[u8]) -> bool {
    match relation {
        Relation::Equal | Relation::AtLeast => text.is_empty(),
        Relation::Differs | Relation::Less => !text.is_empty(),
        Relation::AtMost => true,
        Relation::Greater => false,
    }
}

// The truth of a word by itself that is no name.
fn constant(word: &[u8]) -> Option<bool> {
    if word.eq_ignore_ascii_case(b"true") {
        Some(true)
    } else if word.eq_ignore_ascii_case(b"false") {
        Some(false)
    } else if !word.is_empty() && word.iter().all(|octet| octet.is_ascii_digit()) {
        Some(word.iter().any(|octet| *octet != b'0'))
    } else {
        None
    }
}

// Whether a text that is written out is false by itself.
fn is_false(text: &[u8]) -> bool {
    text.is_empty() || text == b"0".as_slice() || text == b"false".as_slice()
}

impl<'a> ConditionReader<'a> {
    // The attribute that a word without `&` is on the right of a comparison, if a server takes it for one.
    fn right_attribute<'b>(&self, word: &'b [u8]) -> Result<Option<Reference<'b>>, Reason> {
        if !is_reference(self.names.dictionary, word) {
            return Ok(None);
        }
        Ok(Some(reference_of(&self.names, word)?))
    }

    /// The attribute that an operand is, if it is one. A bare word without `&` is one on the right where a server takes
    /// it for a reference, and on the left, where words are taken, as far as policies have it.
    pub fn attribute<'b>(
        &self,
        operand: Operand<'b>,
        takes_words: bool,
    ) -> Result<Option<Reference<'b>>, Reason> {
        match operand.quote {
            Quote::Bare if operand.octets.starts_with(b"%{") => {
                Ok(sole_expansion(&self.names, operand.octets))
            }
            Quote::Bare => {
                if let Some(name) = operand.octets.strip_prefix(b"&") {
                    return Ok(Some(reference_of(&self.names, name)?));
                }
                if !takes_words {
                    return self.right_attribute(operand.octets);
                }
                match reference_of(&self.names, operand.octets) {
                    Ok(found) => Ok(Some(found)),
                    Err(_) => Ok(None),
                }
            }
            Quote::Double => Ok(sole_expansion(&self.names, operand.octets)),
            Quote::Single | Quote::Back => Ok(None),
        }
    }

    // The value that a text is.
    fn value_of_text(&self, named: Named, text: &[u8]) -> Result<Value, Refusal> {
        let dictionary = self.names.dictionary;
        if self.is_meant
            && is_address(dictionary, named)
            && let Some(address) = octal_address(text)?
        {
            return Ok(Value::Addr(address));
        }
        if self.is_meant
            && let Some(meant) = meant_text(self.alloc, dictionary, named, text)?
        {
            return Ok(dictionary.value_of_text(self.alloc, named, &meant)?);
        }
        Ok(dictionary.value_of_text(self.alloc, named, text)?)
    }

    /// The comparison of an attribute with what a text stands for.
    pub(crate) fn compared_with_text(
        &self,
        reference: &Reference<'_>,
        relation: Relation,
        operand: Operand<'_>,
    ) -> Result<Comparison, Refusal> {
        if !has_texts(self.names.dictionary, reference.named) {
            return Err(Refusal::LeftOut(Reason::OctetsHere));
        }
        let octets = text_octets(self.alloc, &self.names, operand.quote, operand.octets)?;
        let value = self.value_of_text(reference.named, &octets)?;
        Ok(Comparison {
            list: reference.list,
            id: reference.named.id,
            kind: kind_of(self.names.dictionary, reference.named),
            relation,
            comparand: Comparand::Literal(value),
        })
    }

    // The comparison of two attributes.
    fn compared_with_attribute(
        &self,
        reference: &Reference<'_>,
        relation: Relation,
        other: &Reference<'_>,
    ) -> Result<Comparison, Refusal> {
        let kind = kind_of(self.names.dictionary, reference.named);
        if kind != kind_of(self.names.dictionary, other.named) {
            return Err(Refusal::LeftOut(Reason::OtherType));
        }
        Ok(Comparison {
            list: reference.list,
            id: reference.named.id,
            kind,
            relation,
            comparand: Comparand::Instance(other.list, other.named.id),
        })
    }

    // The comparison of what is in place of an expansion with a text. On a server that is a text always, the empty one
    // where there is nothing.
    fn asked_compared(
        &self,
        asked: &Reference<'_>,
        relation: Relation,
        operand: Operand<'_>,
    ) -> Result<ServerCondition, Refusal> {
        let text = text_octets(self.alloc, &self.names, operand.quote, operand.octets)?;
        if is_number(&text) {
            return self.number_compared(text, turned(relation), asked);
        }
        let comparison = self.compared_with_text(asked, relation, operand)?;
        let compare = ServerCondition::Compare(comparison);
        self.of_text(asked, compare, meets_empty(relation, &text))
    }

    // The comparison of a number with what is in place of an expansion, which is a number too where it is digits alone.
    fn number_compared(
        &self,
        number: Vec<u8>,
        relation: Relation,
        asked: &Reference<'_>,
    ) -> Result<ServerCondition, Refusal> {
        if !self.takes_patterns {
            return Err(Refusal::LeftOut(Reason::ExpandedNumber));
        }
        let mut left = Vec::new(self.alloc);
        left.push(Part::Text(Octets::from_vec(number)))?;
        let mut right = Vec::new(self.alloc);
        right.push(Part::Meant(asked.list, asked.named.id, Selection::All))?;
        Ok(ServerCondition::CompareTexts(TextComparison {
            left: TextSide::Text(Items::from_vec(left)),
            relation,
            right: Items::from_vec(right),
        }))
    }

    // A condition of the text of an attribute alone, which is the empty text where that is absent.
    fn of_text(
        &self,
        found: &Reference<'_>,
        condition: ServerCondition,
        meets_empty: bool,
    ) -> Result<ServerCondition, Refusal> {
        let condition = Box::new(self.alloc, condition)?;
        let present = ServerCondition::Present(found.list, found.named.id);
        let present = Box::new(self.alloc, present)?;
        if meets_empty {
            let absent = Box::new(self.alloc, ServerCondition::Not(present))?;
            Ok(ServerCondition::Or(absent, condition))
        } else {
            Ok(ServerCondition::And(present, condition))
        }
    }

    // The group that an operand is of what was captured, if it is one alone.
    fn capture(&self, operand: Operand<'_>) -> Result<Option<u8>, Reason> {
        let group = match operand.quote {
            Quote::Bare | Quote::Double => sole_capture(operand.octets),
            Quote::Single | Quote::Back => None,
        };
        if group.is_some() && !self.takes_patterns {
            return Err(Reason::Capture);
        }
        Ok(group)
    }

    // Whether what was captured is empty, if a comparison of it with the empty text asks that.
    fn capture_compared(
        &self,
        operand: Operand<'_>,
        relation: Relation,
        other: Operand<'_>,
    ) -> Result<Option<ServerCondition>, Refusal> {
        let Some(group) = self.capture(operand)? else {
            return Ok(None);
        };
        let captured = ServerCondition::Captured(group);
        match relation {
            Relation::Differs if other.is_empty() => Ok(Some(captured)),
            Relation::Equal if other.is_empty() => {
                let captured = Box::new(self.alloc, captured)?;
                Ok(Some(ServerCondition::Not(captured)))
            }
            _ => Ok(None),
        }
    }

    // Whether a server compares two operands as texts, into one of which something is put. One expansion alone beside
    // a text that is written out is its attribute.
    fn are_compared_as_texts(
        &self,
        left: Operand<'_>,
        own: Option<Reference<'_>>,
        right: Operand<'_>,
        other: Option<Reference<'_>>,
    ) -> bool {
        if !self.takes_patterns {
            return false;
        }
        match other {
            Some(asked) if asked.is_asked() => left.puts_in(),
            Some(_) => left.is_text() && right.puts_in(),
            None => right.puts_in() || (left.puts_in() && own.is_none()),
        }
    }

    // The comparison of two texts, or of a string with a text.
    fn as_texts(
        &self,
        left: Operand<'_>,
        own: Option<Reference<'_>>,
        relation: Relation,
        right: Operand<'_>,
    ) -> Result<ServerCondition, Refusal> {
        let left = match own {
            _ if left.is_text() => { TextSide::Text(text_parts(self.alloc, &self.names, left)?) }
            Some(own) if self.is_text(&own) => {
                TextSide::Instance(own.list, own.named.id, Selection::All)
            }
            Some(_) => return Err(Refusal::LeftOut(Reason::ExpandedValue)),
            None => return Err(Refusal::LeftOut(Reason::TwoTexts)),
        };
        Ok(ServerCondition::CompareTexts(TextComparison {
            left,
            relation,
            right: text_parts(self.alloc, &self.names, right)?,
        }))
    }

    // The comparison of two texts that are written out, which has one truth.
    fn texts_compared(
        &self,
        left: Operand<'_>,
        relation: Relation,
        right: Operand<'_>,
    ) -> Result<ServerCondition, Refusal> {
        let is_quoted = matches!(left.quote, Quote::Single | Quote::Double);
        if left.quote == Quote::Bare && left.octets.first().is_some_and(u8::is_ascii_alphabetic) {
            return Err(Refusal::LeftOut(Reason::UnknownWord));
        }
        if !is_quoted || has_expansion(left.octets) || has_expansion(right.octets) {
            return Err(Refusal::LeftOut(Reason::TwoTexts));
        }
        let one = text_octets(self.alloc, &self.names, left.quote, left.octets)?;
        let other = text_octets(self.alloc, &self.names, right.quote, right.octets)?;
        if is_number(&one) && is_number(&other) {
            return Err(Refusal::LeftOut(Reason::TwoTexts));
        }
        let is_same = one.as_slice() == other.as_slice();
        match relation {
            Relation::Equal => Ok(ServerCondition::Constant(is_same)),
            Relation::Differs => Ok(ServerCondition::Constant(!is_same)),
            _ => Err(Refusal::LeftOut(Reason::TwoTexts)),
        }
    }

    // The comparison of a text with what is in place of an expansion, which is the empty text where there is nothing.
    fn compared_with_asked(
        &self,
        own: &Reference<'_>,
        relation: Relation,
        asked: &Reference<'_>,
    ) -> Result<ServerCondition, Refusal> {
        let alloc = self.alloc;
        let with_asked = self.compared_with_attribute(own, relation, asked)?;
        let with_empty = self.compared_with_text(own, relation, EMPTY)?;
        let is_there = Box::new(alloc, ServerCondition::Present(asked.list, asked.named.id))?;
        let is_there_too = Box::new(alloc, ServerCondition::Present(asked.list, asked.named.id))?;
        let is_absent = Box::new(alloc, ServerCondition::Not(is_there_too))?;
        let compare = Box::new(alloc, ServerCondition::Compare(with_asked))?;
        let compare_empty = Box::new(alloc, ServerCondition::Compare(with_empty))?;
        let first = Box::new(alloc, ServerCondition::Or(is_absent, compare))?;
        let next = Box::new(alloc, ServerCondition::Or(is_there, compare_empty))?;
        Ok(ServerCondition::And(first, next))
    }

    // ---- `%{%{A}:-B}`

    fn is_text(&self, found: &Reference<'_>) -> bool {
        !found.named.raw && kind_of(self.names.dictionary, found.named) == Kind::Text
    }

    // The text of this form that an operand is, if it is one.
    fn chosen_text<'b>(&self, operand: Operand<'b>) -> Result<Option<ChosenText<'b>>, Reason> {
        if operand.quote != Quote::Double {
            return Ok(None);
        }
        let Some((first, other)) = sole_choice(operand.octets)? else {
            return Ok(None);
        };
        let found = expansion(&self.names, first)?;
        if !self.is_text(&found) {
            return Err(Reason::Expansion);
        }
        let other = Operand {
            quote: Quote::Double,
            octets: other,
        };
        Ok(Some(ChosenText { found, other }))
    }

    // That an attribute is there, and not the empty text.
    fn filled(&self, found: &Reference<'_>) -> Result<ServerCondition, Refusal> {
        let differs = self.compared_with_text(found, Relation::Differs, EMPTY)?;
        let present = ServerCondition::Present(found.list, found.named.id);
        Ok(ServerCondition::And(
            Box::new(self.alloc, present)?,
            Box::new(self.alloc, ServerCondition::Compare(differs))?,
        ))
    }

    // A condition where an attribute is there and not the empty text, and else another. Each is asked once at most.
    fn where_filled(
        &self,
        found: &Reference<'_>,
        condition: ServerCondition,
        otherwise: ServerCondition,
    ) -> Result<ServerCondition, Refusal> {
        let alloc = self.alloc;
        let condition = Box::new(alloc, condition)?;
        let is_filled = Box::new(alloc, self.filled(found)?)?;
        if let ServerCondition::Constant(false) = otherwise {
            return Ok(ServerCondition::And(is_filled, condition));
        }
        let is_blank = Box::new(alloc, ServerCondition::Not(is_filled))?;
        let first = ServerCondition::Or(is_blank, condition);
        if let ServerCondition::Constant(true) = otherwise {
            return Ok(first);
        }
        let is_filled = Box::new(alloc, self.filled(found)?)?;
        let next = ServerCondition::Or(is_filled, Box::new(alloc, otherwise)?);
        let (first, next) = (Box::new(alloc, first)?, Box::new(alloc, next)?);
        Ok(ServerCondition::And(first, next))
    }

    // Whether such a text is not empty.
    fn is_chosen(&self, chosen: &ChosenText<'_>) -> Result<ServerCondition, Refusal> {
        let is_filled = self.filled(&chosen.found)?;
        match self.text_compared(chosen.other, Relation::Differs, EMPTY)? {
            ServerCondition::Constant(false) => Ok(is_filled),
            otherwise => Ok(ServerCondition::Or(
                Box::new(self.alloc, is_filled)?,
                Box::new(self.alloc, otherwise)?,
            )),
        }
    }

    // The comparison of a text, of an attribute or written out, with one that is written out.
    fn text_compared(
        &self,
        left: Operand<'_>,
        relation: Relation,
        right: Operand<'_>,
    ) -> Result<ServerCondition, Refusal> {
        let Some(found) = self.attribute(left, false)? else {
            return self.texts_compared(left, relation, right);
        };
        if !self.is_text(&found) {
            return Err(Refusal::LeftOut(Reason::Expansion));
        }
        let text = text_octets(self.alloc, &self.names, right.quote, right.octets)?;
        let comparison = self.compared_with_text(&found, relation, right)?;
        let compare = ServerCondition::Compare(comparison);
        self.of_text(&found, compare, meets_empty(relation, &text))
    }

    // The comparison of an attribute with a text of another, or one that is written out.
    fn compared_with_other(
        &self,
        own: &Reference<'_>,
        relation: Relation,
        other: Operand<'_>,
    ) -> Result<ServerCondition, Refusal> {
        match self.attribute(other, false)? {
            Some(found) if self.is_text(&found) => self.compared_with_asked(own, relation, &found),
            Some(_) => Err(Refusal::LeftOut(Reason::Expansion)),
            None => {
                let comparison = self.compared_with_text(own, relation, other)?;
                Ok(ServerCondition::Compare(comparison))
            }
        }
    }

    // The comparison of such a text with an attribute, or with a text that is written out and no number.
    fn chosen_compared(
        &self,
        chosen: &ChosenText<'_>,
        relation: Relation,
        right: Operand<'_>,
    ) -> Result<ServerCondition, Refusal> {
        if !matches!(relation, Relation::Equal | Relation::Differs) {
            return Err(Refusal::LeftOut(Reason::TwoTexts));
        }
        if let Some(own) = self.attribute(right, false)? {
            let compared = self.compared_with_attribute(&own, relation, &chosen.found)?;
            let otherwise = self.compared_with_other(&own, relation, chosen.other)?;
            return self.where_filled(&chosen.found, ServerCondition::Compare(compared), otherwise);
        }
        if is_number(&text_octets(self.alloc, &self.names, right.quote, right.octets)?) {
            return Err(Refusal::LeftOut(Reason::ExpandedNumber));
        }
        let compared = self.compared_with_text(&chosen.found, relation, right)?;
        let otherwise = self.text_compared(chosen.other, relation, right)?;
        self.where_filled(&chosen.found, ServerCondition::Compare(compared), otherwise)
    }

    // The comparison of such a text with a regular expression.
    fn chosen_matched(
        &self,
        chosen: &ChosenText<'_>,
        negated: bool,
        pattern: WrittenPattern<'_>,
    ) -> Result<ServerCondition, Refusal> {
        let Some(other) = self.attribute(chosen.other, false)? else {
            return Err(Refusal::LeftOut(Reason::MatchedText));
        };
        let matched = self.matching(&chosen.found, negated, pattern)?;
        let otherwise = self.matching(&other, negated, pattern)?;
        self.where_filled(
            &chosen.found,
            ServerCondition::Match(matched),
            ServerCondition::MatchText(otherwise),
        )
    }

    // ---- comparisons

    // Whether what is on the left of a comparison is a text.
    fn compares_text(&self, left: Operand<'_>) -> Result<bool, Reason> {
        match self.attribute(left, true)? {
            Some(found) => Ok(self.is_text(&found)),
            None => Ok(true),
        }
    }

    // The condition that a comparison of two operands is.
    fn compared(
        &self,
        left: Operand<'_>,
        relation: Relation,
        right: Operand<'_>,
    ) -> Result<ServerCondition, Refusal> {
        if right.is_digits() && self.compares_text(left)? {
            return Err(Refusal::LeftOut(Reason::TextOfOctets));
        }
        if let Some(chosen) = self.chosen_text(left)? {
            return self.chosen_compared(&chosen, relation, right);
        }
        if let Some(chosen) = self.chosen_text(right)? {
            return self.chosen_compared(&chosen, turned(relation), left);
        }
        if let Some(condition) = self.capture_compared(left, relation, right)? {
            return Ok(condition);
        }
        if let Some(condition) = self.capture_compared(right, turned(relation), left)? {
            return Ok(condition);
        }
        let own = self.attribute(left, true)?;
        let other = self.attribute(right, false)?;
        if self.are_compared_as_texts(left, own, right, other) {
            return self.as_texts(left, own, relation, right);
        }
        match (own, other) {
            (Some(own), None) if own.is_asked() => self.asked_compared(&own, relation, right),
            (None, Some(other)) if other.is_asked() => {
                self.asked_compared(&other, turned(relation), left)
            }
            (None, None) => self.texts_compared(left, relation, right),
            (Some(own), Some(asked)) if asked.is_asked() && !own.is_asked() => {
                self.compared_with_asked(&own, relation, &asked)
            }
            (Some(asked), Some(other)) if asked.is_asked() && !other.is_asked() => {
                self.compared_with_asked(&other, turned(relation), &asked)
            }
            // Where one is absent, a server compares the empty text in its place.
            (Some(_), Some(_)) if left.is_text() && right.puts_in() => {
                Err(Refusal::LeftOut(Reason::TwoTexts))
            }
            _ => {
                let comparison = self.comparison(left, relation, right)?;
                Ok(ServerCondition::Compare(comparison))
            }
        }
    }

    /// The comparison of two operands, of which none is an expansion with something in its place.
    pub fn comparison(
        &self,
        left: Operand<'_>,
        relation: Relation,
        right: Operand<'_>,
    ) -> Result<Comparison, Refusal> {
        let own = self.attribute(left, true)?;
        let other = self.attribute(right, false)?;
        match (own, other) {
            (Some(asked), _) | (_, Some(asked)) if asked.is_asked() => {
                Err(Refusal::LeftOut(Reason::Expansion))
            }
            (Some(own), Some(other)) => self.compared_with_attribute(&own, relation, &other),
            (Some(own), None) => self.compared_with_text(&own, relation, right),
            (None, Some(other)) => self.compared_with_text(&other, turned(relation), left),
            (None, None) => Err(Refusal::LeftOut(Reason::TwoTexts)),
        }
    }

    // The text of a regular expression.
    fn pattern(&self, pattern: WrittenPattern<'_>) -> Result<Octets, AllocError> {
        let text = pattern_text(self.alloc, pattern.octets)?;
        if self.is_meant {
            return Ok(Octets::from_vec(by_octets(self.alloc, &text)?));
        }
        Ok(Octets::from_vec(text))
    }

    // The search of an attribute for a regular expression.
    fn matching(
        &self,
        found: &Reference<'_>,
        negated: bool,
        pattern: WrittenPattern<'_>,
    ) -> Result<Matching, Refusal> {
        if found.named.raw {
            return Err(Refusal::LeftOut(Reason::MatchedRaw));
        }
        Ok(Matching {
            list: found.list,
            id: found.named.id,
            selection: Selection::All,
            negated,
            pattern: self.pattern(pattern)?,
            flags: pattern.flags,
        })
    }

    // The search of what was captured.
    fn group_matching(
        &self,
        group: u8,
        negated: bool,
        pattern: WrittenPattern<'_>,
    ) -> Result<ServerCondition, Refusal> {
        Ok(ServerCondition::MatchGroup(GroupMatching {
            group,
            negated,
            pattern: self.pattern(pattern)?,
            flags: pattern.flags,
        }))
    }

    // The comparison of an attribute, or of a text that is one expansion alone, with a regular expression.
    fn matched(
        &self,
        left: Operand<'_>,
        negated: bool,
        pattern: WrittenPattern<'_>,
    ) -> Result<ServerCondition, Refusal> {
        if !self.takes_patterns {
            return Err(Refusal::LeftOut(Reason::RegularExpression));
        }
        if let Some(chosen) = self.chosen_text(left)? {
            return self.chosen_matched(&chosen, negated, pattern);
        }
        if let Some(group) = self.capture(left)? {
            return self.group_matching(group, negated, pattern);
        }
        let Some(found) = self.attribute(left, true)? else {
            return Err(Refusal::LeftOut(Reason::MatchedText));
        };
        let matching = self.matching(&found, negated, pattern)?;
        if left.is_text() {
            Ok(ServerCondition::MatchText(matching))
        } else {
            Ok(ServerCondition::Match(matching))
        }
    }

    // The condition that asks for a code, if a word is one.
    fn code(&self, word: &[u8]) -> Result<Option<ServerCondition>, Reason> {
        let Some(code) = ServerCode::named(word) else {
            return Ok(None);
        };
        match (self.codes.last(), code.own()) {
            (Some(_), Some(own)) if self.codes.is_own() => Ok(Some(ServerCondition::Last(own))),
            (Some(last), _) => Ok(Some(ServerCondition::Constant(last == code))),
            (None, Some(_)) => Err(Reason::UnknownCode),
            (None, None) => Err(Reason::OtherCode),
        }
    }

    // An operand by itself.
    fn existence(&self, operand: Operand<'_>) -> Result<ServerCondition, Refusal> {
        if operand.quote == Quote::Bare && !operand.octets.starts_with(b"%{") {
            if let Some(condition) = self.code(operand.octets)? {
                return Ok(condition);
            }
            if let Some(value) = constant(operand.octets) {
                return Ok(ServerCondition::Constant(value));
            }
            let name = operand.octets.strip_prefix(b"&").unwrap_or(operand.octets);
            let found = reference_of(&self.names, name)?;
            return Ok(ServerCondition::Present(found.list, found.named.id));
        }
        if let Some(group) = self.capture(operand)? {
            return Ok(ServerCondition::Captured(group));
        }
        if let Some(chosen) = self.chosen_text(operand)? {
            return self.is_chosen(&chosen);
        }
        if let Some(found) = self.attribute(operand, false)? {
            if found.is_asked() {
                return self.asked_compared(&found, Relation::Differs, EMPTY);
            }
            return Ok(ServerCondition::Present(found.list, found.named.id));
        }
        let octets = text_octets(self.alloc, &self.names, operand.quote, operand.octets)?;
        Ok(ServerCondition::Constant(!is_false(&octets)))
    }

    // An operand by itself, or a comparison, and what follows it.
    fn atom<'b>(&self, text: &'b [u8]) -> Result<(ServerCondition, &'b [u8]), Refusal> {
        let (left, rest) = next_operand(text)?;
        if let Some((negated, rest)) = match_sign(after_blanks(rest)) {
            let (pattern, rest) = next_pattern(after_blanks(rest))?;
            return Ok((self.matched(left, negated, pattern)?, rest));
        }
        match relation(after_blanks(rest))? {
            None => Ok((self.existence(left)?, rest)),
            Some((relation, rest)) => {
                let (right, rest) = next_operand(after_blanks(rest))?;
                Ok((self.compared(left, relation, right)?, rest))
            }
        }
    }

    // What a `!` negates, what stands between brackets, or an atom, and what follows.
    #[cycle(reading)]
    fn term<'b>(&self, text: &'b [u8], room: Room) -> Result<(ServerCondition, &'b [u8]), Refusal> {
        if room.nested == 0 || room.parts == 0 {
            return Err(Refusal::LeftOut(Reason::LargeCondition));
        }
        let inner = Room {
            nested: room.nested - 1,
            parts: room.parts - 1,
        };
        match after_blanks(text) {
            [b'!', rest @ ..] => {
                let (found, rest) = self.term(rest, inner)?;
                Ok((ServerCondition::Not(Box::new(self.alloc, found)?), rest))
            }
            [b'(', rest @ ..] => {
                let (found, rest) = self.chain(rest, inner)?;
                match after_blanks(rest) {
                    [b')', rest @ ..] => Ok((found, rest)),
                    _ => Err(Refusal::LeftOut(Reason::Condition)),
                }
            }
            text => self.atom(text),
        }
    }

    // A condition to its end, and what follows it.
    #[cycle(reading)]
    fn chain<'b>(
        &self,
        text: &'b [u8],
        room: Room,
    ) -> Result<(ServerCondition, &'b [u8]), Refusal> {
        let (first, rest) = self.term(text, room)?;
        if room.parts == 0 {
            return Err(Refusal::LeftOut(Reason::LargeCondition));
        }
        let inner = Room {
            nested: room.nested,
            parts: room.parts - 1,
        };
        match after_blanks(rest) {
            [b'&', b'&', rest @ ..] => {
                let (next, rest) = self.chain(rest, inner)?;
                let first = Box::new(self.alloc, first)?;
                let next = Box::new(self.alloc, next)?;
                Ok((ServerCondition::And(first, next), rest))
            }
            [b'|', b'|', rest @ ..] => {
                let (next, rest) = self.chain(rest, inner)?;
                let first = Box::new(self.alloc, first)?;
                let next = Box::new(self.alloc, next)?;
                Ok((ServerCondition::Or(first, next), rest))
            }
            _ => Ok((first, rest)),
        }
    }

    /// The condition of an `if` or `elsif`, which is between brackets.
    pub fn condition(&self, text: &[u8]) -> Result<ServerCondition, Refusal> {
        if text.len() > MAX_CONDITION {
            return Err(Refusal::LeftOut(Reason::LargeCondition));
        }
        let room = Room {
            nested: MAX_NESTED,
            parts: MAX_PARTS,
        };
        let (found, rest) = self.term(text, room)?;
        if after_blanks(rest).is_empty() {
            Ok(found)
        } else {
            Err(Refusal::LeftOut(Reason::Condition))
        }
    }
}
