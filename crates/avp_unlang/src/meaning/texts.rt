//! Texts of conditions in a run, compared without memory.

ghost use Rattle.std.specs.Prelude.{◌≡◌, ◌&&◌, ◌∷◌, ◌+◌, ◌^◌, ◌<◌, ◌≤◌, [], IfSome, IsTrue, Some, drop, is_some, length, slice_get, true};
ghost use Rattle.std.specs.Cmp.Lexicographic.{slice_cmp};
ghost use Rattle.std.specs.Option.{option_copied, option_map_or, unwrap_or};
ghost use Rattle.std.specs.Ordering.{nat_cmp};
ghost use Rattle.hex.specs.Hex.{hex_digit_value};
ghost use Rattle.avp_lists.specs.History.{present};
ghost use Rattle.avp_dict.specs.Limits.{max_long_octets};
ghost use Rattle.avp_dict.specs.Printing.{hexadecimal};
ghost use Rattle.avp_dict.specs.Spellings.{bytes_spelled};
ghost use Rattle.avp_dict.specs.Words.{digits, is_hexadecimal};
ghost use Rattle.avp_forms.specs.Expansions.{AreFew, expanded};
ghost use Rattle.avp_unlang.specs.Captures.{captured, filled_part};
ghost use Rattle.avp_unlang.specs.PatternTruth.{is_matchable_by};
ghost use Rattle.avp_unlang.specs.Resolutions.{meaning_put, part_text};
ghost use Rattle.avp_unlang.specs.Texts.{is_met_by_texts, octets_order, order_beside, own_octets, text_beside, text_order};
ghost use Rattle.avp_unlang.specs.Truth.{are_printable, part_printable, side_printable};
ghost use Rattle.avp_unlang.specs.internal.SpelledOctets.{after_pair, octet_spelled, octets_of_pairs};
ghost use Rattle.avp_unlang.specs.internal.UnreadTexts.{IsLegible, are_legible, captures_of, digit_of, text_around, unread, without_zeros};

use crate::meaning::captured::Captured;
use crate::meaning::truth::meets;
use crate::text::references::type_of;
use crate::tree::{Part, TextComparison, TextSide};
use avp_dict::{Dictionary, Kind};
use avp_forms::{Expansion, expansion_of};
use avp_lists::{Pair, Store, Value};
use std::cmp::Ordering;
use std::marker::Model;

const HEXADECIMAL_DIGITS: &[u8; 16] = b"0123456789abcdef";

/// What texts of conditions are made of in a run.
#[derive(Drop)]
pub(crate) struct Surroundings<'a, S: Store> {
    dictionary: &'a Dictionary,
    store: &'a S,
    // What was captured; nothing where a run keeps none.
    captured: Option<&'a Captured>,
}

impl<'a, S: Store> Model for Surroundings<'a, S> {
    ghost use Rattle.std.specs.Option.{option_copied};
    ghost use Rattle.avp_lists.specs.History.{present};
    ghost use Rattle.avp_unlang.specs.internal.UnreadTexts.{Around, captures_of};

    ghost Value = { Around };

    ghost view = { λ x. record {
      dictionary = x.dictionary.now;
      state = present (S.history x.store.now);
      captures = captures_of (option_copied x.captured);
    } };
}

// What is put in for an instance; nothing where there is none.
fn instance_expansion<'a>(dictionary: &'a Dictionary, pair: Option<&'a Pair>) -> Expansion<'a>
    requires { IsTrue (option_map_or (is_matchable_by dictionary.now) (option_copied pair)
        true) }
    ensures text { expanded result
        ≡ option_map_or (meaning_put dictionary.now) (option_copied pair.entry) [] }
    ensures few { AreFew result }
{
    match pair {
        Some(pair) => expansion_of(dictionary, pair.id, &pair.value),
        None => Expansion::Octets(&[]),
    }
}

// What was captured of a group.
fn group_expansion<'a>(kept: Option<&'a Captured>, group: u8) -> Expansion<'a>
    ensures text { expanded result ≡ captured group (captures_of (option_copied kept.entry)) }
    ensures few { AreFew result }
{
    match kept {
        Some(captured) => Expansion::Octets(captured.group(group)),
        None => Expansion::Octets(&[]),
    }
}

impl<'a, S: Store> Surroundings<'a, S> {
    pub(crate) fn new(
        dictionary: &'a Dictionary,
        store: &'a S,
        captured: Option<&'a Captured>,
    ) -> Surroundings<'a, S>
        ensures { result ≡ record {
          dictionary = dictionary.now;
          state = present (S.history store.now);
          captures = captures_of (option_copied captured.entry);
        } }
    {
        Surroundings {
            dictionary,
            store,
            captured,
        }
    }

    // The text of a part.
    fn part_expansion(&self, part: &'a Part) -> Expansion<'a>
        requires { IsTrue (part_printable self.now.dictionary self.now.state part.now) }
        ensures text { expanded result ≡ part_text self.now.dictionary self.now.state
            (filled_part self.now.captures part.now) }
        ensures few { AreFew result }
    {
        match part {
            Part::Text(octets) => Expansion::Octets(octets.as_slice()),
            Part::Meant(list, id, selection) => {
                let pair = self.store.first_selected(*list, *id, *selection);
                instance_expansion(self.dictionary, pair)
            }
            Part::Capture(group) => group_expansion(self.captured, *group),
            Part::Instance(..) => unreachable!(),
        }
    }
}

// ---- octet by octet

fn octet_of(octets: &[u8], at: usize) -> Option<u8>
    ensures octet { result ≡ slice_get octets.now at }
    ensures place { IfSome result (λ _. at + 1 < 2 ^ 64) }
{
    octets.get(at).copied()
}

// The digit of an octet at a place: of its upper four bits, or at an odd place of the others.
fn digit_of(octet: u8, at: usize) -> u8
    ensures { result ≡ digit_of octet at }
{
    if at % 2 == 0 {
        HEXADECIMAL_DIGITS[usize::from(octet / 16)]
    } else {
        HEXADECIMAL_DIGITS[usize::from(octet % 16)]
    }
}

// The octet at a place in `0x` and the digits of some octets.
fn digit_at(octets: &[u8], at: usize) -> Option<u8>
    requires { length octets.now ≤ max_long_octets }
    ensures octet { result ≡ slice_get (hexadecimal octets.now) at }
    ensures place { IfSome result (λ _. at + 1 < 2 ^ 64) }
{
    if at < 2 {
        return Some(b"0x"[at]);
    }
    match octet_of(octets, (at - 2) / 2) {
        Some(octet) => Some(digit_of(octet, at)),
        None => None,
    }
}

// The octet at a place in what is put in.
fn octet_at(expansion: &Expansion<'_>, at: usize) -> Option<u8>
    requires { AreFew expansion.now }
    ensures octet { result ≡ slice_get (expanded expansion.now) at }
    ensures place { IfSome result (λ _. at + 1 < 2 ^ 64) }
{
    match expansion {
        Expansion::Octets(octets) => octet_of(octets, at),
        Expansion::Digits(octets) => digit_at(octets, at),
        Expansion::Short(text) => octet_of(text.as_slice(), at),
    }
}

// What is left of a text: of the part at hand, and the parts after it.
#[derive(Drop)]
struct Unread<'a> {
    here: Expansion<'a>,
    at: usize,
    parts: &'a [Part],
}

impl<'a> Unread<'a> {
    fn of_parts(parts: &'a [Part]) -> Unread<'a>
        ensures parts { result.parts.now ≡ parts.now }
        ensures few { AreFew result.here }
        ensures nothing { drop result.at (expanded result.here) ≡ [] }
    {
        Unread {
            here: Expansion::Octets(&[]),
            at: 0,
            parts,
        }
    }

    fn of_octets(octets: &'a [u8]) -> Unread<'a>
        ensures parts { result.parts.now ≡ [] }
        ensures few { AreFew result.here }
        ensures all { drop result.at (expanded result.here) ≡ octets.now }
    {
        Unread {
            here: Expansion::Octets(octets),
            at: 0,
            parts: &[],
        }
    }

    // The next octet of the part at hand.
    fn next_here(&mut self) -> Option<u8>
        requires { AreFew self.old.here }
        ensures few { AreFew self.new.here }
        ensures read { drop self.old.at (expanded self.old.here)
            ≡ option_map_or (λ octet. octet ∷ drop self.new.at (expanded self.new.here)) result [] }
        ensures parts { self.new.parts.now ≡ self.old.parts.now }
    {
        match octet_at(&self.here, self.at) {
            Some(octet) => {
                self.at += 1;
                Some(octet)
            }
            None => None,
        }
    }

    // The next octet.
    fn next<S: Store>(&mut self, around: &Surroundings<'a, S>) -> Option<u8>
        requires { IsLegible around.now self.old }
        ensures legible { IsLegible around.now self.new }
        ensures read { unread around.now self.old
            ≡ option_map_or (λ octet. octet ∷ unread around.now self.new) result [] }
    {
        loop {
            if let Some(octet) = self.next_here() {
                return Some(octet);
            }
            let [first, rest @ ..] = self.parts else {
                return None;
            };
            *self = Unread {
                here: around.part_expansion(first),
                at: 0,
                parts: rest,
            };
        }
    }

    // The next octet that is no `0`.
    fn next_nonzero<S: Store>(&mut self, around: &Surroundings<'a, S>) -> Option<u8>
        requires { IsLegible around.now self.old }
        ensures legible { IsLegible around.now self.new }
        ensures read { without_zeros (unread around.now self.old)
            ≡ option_map_or (λ octet. octet ∷ unread around.now self.new) result [] }
    {
        while let Some(octet) = self.next(around) {
            if octet != b'0' {
                return Some(octet);
            }
        }
        None
    }
}

// ---- octets that digits stand for

fn hex_digit_value(digit: u8) -> Option<u8>
    ensures value { result ≡ hex_digit_value digit }
    ensures small { IfSome result (λ value. value < 16) }
{
    match digit {
        b'A'..=b'F' => Some(digit - 55),
        b'a'..=b'f' => Some(digit - 87),
        b'0'..=b'9' => Some(digit - 48),
        _ => None,
    }
}

// The octet of two digits, the high one first.
fn octet_spelled(high: u8, low: u8) -> Option<u8>
    ensures { result ≡ octet_spelled high low }
{
    let high = hex_digit_value(high)?;
    let low = hex_digit_value(low)?;
    Some(high * 16 + low)
}

impl<'a> Unread<'a> {
    // The octet of the next two digits, or none where two digits are not next; nothing at the end.
    fn next_pair<S: Store>(&mut self, around: &Surroundings<'a, S>) -> Option<Option<u8>>
        requires { IsLegible around.now self.old }
        ensures legible { IsLegible around.now self.new }
        ensures read { octets_of_pairs (unread around.now self.old)
            ≡ after_pair result (octets_of_pairs (unread around.now self.new)) }
        ensures shorter { IfSome result (λ octet. IfSome octet (λ _.
            length (unread around.now self.new) < length (unread around.now self.old))) }
    {
        let high = self.next(around)?;
        match self.next(around) {
            Some(low) => Some(octet_spelled(high, low)),
            None => Some(None),
        }
    }
}

// Whether a text begins with `0x`.
fn is_hexadecimal<'a, S: Store>(around: &Surroundings<'a, S>, parts: &'a [Part]) -> bool
    requires { IsTrue (are_legible around.now parts.now) }
    ensures { result ≡ is_hexadecimal (text_around around.now parts.now) }
{
    let mut text = Unread::of_parts(parts);
    let first = text.next(around);
    let second = text.next(around);
    first == Some(b'0') && second == Some(b'x')
}

// What is left of a text after `0x`.
fn after_prefix<'a, S: Store>(around: &Surroundings<'a, S>, parts: &'a [Part]) -> Unread<'a>
    requires legible { IsTrue (are_legible around.now parts.now) }
    requires prefix { is_hexadecimal (text_around around.now parts.now) ≡ true }
    ensures legible { IsLegible around.now result }
    ensures left { unread around.now result ≡ drop 2 (text_around around.now parts.now) }
{
    let mut text = Unread::of_parts(parts);
    text.next(around);
    text.next(around);
    text
}

// Whether what is left of a text is pairs of digits.
fn are_pairs<'a, S: Store>(around: &Surroundings<'a, S>, mut digits: Unread<'a>) -> bool
    requires { IsLegible around.now digits }
    ensures { result ≡ is_some (octets_of_pairs (unread around.now digits.entry)) }
{
    while let Some(octet) = digits.next_pair(around) {
        if octet.is_none() {
            return false;
        }
    }
    true
}

// The order of octets and of those that pairs of digits stand for.
fn order_of_pairs<'a, S: Store>(
    around: &Surroundings<'a, S>,
    mut left: Unread<'a>,
    mut digits: Unread<'a>,
) -> Ordering
    requires left { IsLegible around.now left }
    requires digits { IsLegible around.now digits }
    requires pairs { IsTrue (is_some (octets_of_pairs (unread around.now digits))) }
    ensures { result ≡ slice_cmp nat_cmp (unread around.now left.entry)
        (unwrap_or (octets_of_pairs (unread around.now digits.entry)) []) }
{
    while let Some(octet) = left.next(around) {
        let Some(spelled) = digits.next_pair(around) else {
            return Ordering::Greater;
        };
        let Some(beside) = spelled else {
            unreachable!();
        };
        if octet != beside {
            return octet.cmp(&beside);
        }
    }
    match digits.next_pair(around) {
        Some(_) => Ordering::Less,
        None => Ordering::Equal,
    }
}

// ---- orders

// Whether a text is decimal digits, one or more.
fn is_numeral<'a, S: Store>(around: &Surroundings<'a, S>, parts: &'a [Part]) -> bool
    requires { IsTrue (are_legible around.now parts.now) }
    ensures { result ≡ is_some (digits 10 (text_around around.now parts.now)) }
{
    let mut text = Unread::of_parts(parts);
    let mut is_numeral = false;
    while let Some(octet) = text.next(around) {
        if !octet.is_ascii_digit() {
            return false;
        }
        is_numeral = true;
    }
    is_numeral
}

// The order of two texts, octet by octet.
fn order_of_octets<'a, S: Store>(
    around: &Surroundings<'a, S>,
    mut left: Unread<'a>,
    mut right: Unread<'a>,
) -> Ordering
    requires left { IsLegible around.now left }
    requires right { IsLegible around.now right }
    ensures { result ≡ slice_cmp nat_cmp (unread around.now left.entry)
        (unread around.now right.entry) }
{
    while let Some(octet) = left.next(around) {
        let Some(beside) = right.next(around) else {
            return Ordering::Greater;
        };
        if octet != beside {
            return octet.cmp(&beside);
        }
    }
    match right.next(around) {
        Some(_) => Ordering::Less,
        None => Ordering::Equal,
    }
}

// The order of the numbers of two texts of decimal digits.
fn order_of_numbers<'a, S: Store>(
    around: &Surroundings<'a, S>,
    mut left: Unread<'a>,
    mut right: Unread<'a>,
) -> Ordering
    requires left { IsLegible around.now left }
    requires right { IsLegible around.now right }
    requires left_number { IsTrue (is_some (digits 10 (unread around.now left))) }
    requires right_number { IsTrue (is_some (digits 10 (unread around.now right))) }
    ensures { result ≡ nat_cmp (unwrap_or (digits 10 (unread around.now left.entry)) 0)
        (unwrap_or (digits 10 (unread around.now right.entry)) 0) }
{
    let mut order = Ordering::Equal;
    let mut digit = left.next_nonzero(around);
    let mut beside = right.next_nonzero(around);
    while let Some(octet) = digit {
        let Some(other) = beside else {
            return Ordering::Greater;
        };
        order = order.then(octet.cmp(&other));
        digit = left.next(around);
        beside = right.next(around);
    }
    match beside {
        Some(_) => Ordering::Less,
        None => order,
    }
}

fn are_numerals<'a, S: Store>(
    around: &Surroundings<'a, S>,
    left: &'a [Part],
    right: &'a [Part],
) -> bool
    requires left { IsTrue (are_legible around.now left.now) }
    requires right { IsTrue (are_legible around.now right.now) }
    ensures { result ≡ (is_some (digits 10 (text_around around.now left.now))
        && is_some (digits 10 (text_around around.now right.now))) }
{
    is_numeral(around, left) && is_numeral(around, right)
}

fn text_order<'a, S: Store>(
    around: &Surroundings<'a, S>,
    left: &'a [Part],
    right: &'a [Part],
) -> Ordering
    requires left { IsTrue (are_legible around.now left.now) }
    requires right { IsTrue (are_legible around.now right.now) }
    ensures { result ≡ text_order (text_around around.now left.now)
        (text_around around.now right.now) }
{
    let unread = Unread::of_parts(left);
    let beside = Unread::of_parts(right);
    if are_numerals(around, left, right) {
        order_of_numbers(around, unread, beside)
    } else {
        order_of_octets(around, unread, beside)
    }
}

// The octets that a value has of its own; a number or an address has none.
fn own_octets(value: &Value) -> Option<&[u8]>
    ensures { option_copied result ≡ own_octets value.now }
{
    match value {
        Value::Text(octets) | Value::Bytes(octets) | Value::Raw(octets) => Some(octets.as_slice()),
        _ => None,
    }
}

// The order of octets and of what a text stands for beside them.
fn order_beside_octets<'a, S: Store>(
    around: &Surroundings<'a, S>,
    own: &'a [u8],
    right: &'a [Part],
) -> Option<Ordering>
    requires { IsTrue (are_legible around.now right.now) }
    ensures { result ≡ octets_order (Some own.now)
        (bytes_spelled true (text_around around.now right.now)) }
{
    let left = Unread::of_octets(own);
    if !is_hexadecimal(around, right) {
        return Some(order_of_octets(around, left, Unread::of_parts(right)));
    }
    if !are_pairs(around, after_prefix(around, right)) {
        return None;
    }
    Some(order_of_pairs(around, left, after_prefix(around, right)))
}

// The order of octets of a type and of what a text stands for beside them.
fn order_by_type<'a, S: Store>(
    around: &Surroundings<'a, S>,
    kind: Kind,
    own: &'a [u8],
    right: &'a [Part],
) -> Option<Ordering>
    requires { IsTrue (are_legible around.now right.now) }
    ensures { result ≡ octets_order (Some own.now)
        (text_beside kind (text_around around.now right.now)) }
{
    match kind {
        Kind::Bytes => order_beside_octets(around, own, right),
        _ => {
            let left = Unread::of_octets(own);
            Some(order_of_octets(around, left, Unread::of_parts(right)))
        }
    }
}

// The order of a side and a text; an instance is compared octet by octet.
fn order_beside<'a, S: Store>(
    around: &Surroundings<'a, S>,
    side: &'a TextSide,
    right: &'a [Part],
) -> Option<Ordering>
    requires left { IsTrue (side_printable around.now.dictionary around.now.state side.now) }
    requires right { IsTrue (are_legible around.now right.now) }
    ensures { result ≡ order_beside around.now.dictionary around.now.state around.now.captures
        side.now (text_around around.now right.now) }
{
    match side {
        TextSide::Text(left) => Some(text_order(around, left.as_slice(), right)),
        TextSide::Instance(list, id, selection) => {
            let pair = around.store.first_selected(*list, *id, *selection)?;
            let own = own_octets(&pair.value)?;
            order_by_type(around, type_of(around.dictionary, *id), own, right)
        }
    }
}

/// Whether two texts are in the relation.
pub(crate) fn is_met_by_texts<'a, S: Store>(
    around: &Surroundings<'a, S>,
    comparison: &'a TextComparison,
) -> bool
    requires { IsTrue (are_printable around.now.dictionary comparison.now around.now.state) }
    ensures { result ≡ is_met_by_texts around.now.dictionary comparison.now around.now.state
        around.now.captures }
{
    match order_beside(around, &comparison.left, comparison.right.as_slice()) {
        Some(order) => meets(comparison.relation, order),
        None => false,
    }
}
