//! How many instances of an attribute there are at a place of a policy.

ghost use Rattle.std.specs.Prelude.{◌≡◌};
ghost use Rattle.std.specs.Option.{option_map};
ghost use Rattle.policy_warnings.specs.Absences.{said_of};
ghost use Rattle.policy_warnings.specs.Counts.{after_line, are_apart, at_least_one, at_start, both_ways, certain_after, edited, either_way, found, greater, is_several, means_all, most_after, most_at_start, one_more, touches, where_false, where_true};

use crate::absences::said_of;
use crate::mentions::{Mention, is_within, same_list, same_tagging};
use avp_lists::{List, Op, Selection};
use avp_unlang::{Cond, Line};

/// How many instances there are at most.
#[derive(Clone, Copy, Debug, PartialEq, Eq)]
pub enum Most {
    Zero,
    One,
    Several,
}

/// How many instances of an attribute there are at a place of a policy.
#[derive(Clone, Copy, Debug)]
pub struct Counts {
    /// One is there in every run that gets to the place.
    pub is_certain: bool,
    /// No run that gets there from a request that repeats nothing has more.
    pub most: Most,
}

fn means_all(selection: Selection) -> bool
    ensures { result ≡ means_all selection }
{
    match selection {
        Selection::All | Selection::EachTag(_) => true,
        Selection::Tag(..) => false,
    }
}

fn are_apart(a: Selection, b: Selection) -> bool
    ensures { result ≡ are_apart a b }
{
    match (a, b) {
        (Selection::Tag(tagging, n), Selection::Tag(other, k)) => {
            same_tagging(tagging, other) && n != k
        }
        _ => false,
    }
}

fn touches(mention: Mention, line: &Line) -> bool
    ensures { result ≡ touches mention line.now }
{
    same_list(mention.list, line.list)
        && mention.id.equals(line.id)
        && !are_apart(mention.selection, line.selection)
}

fn certain_after(op: Op, meant: bool, certain: bool) -> bool
    ensures { result ≡ certain_after op meant certain }
{
    match op {
        Op::AddNew | Op::Append | Op::Prepend => meant || certain,
        Op::Replace => meant,
        Op::RemoveEqual | Op::KeepEqual | Op::RemoveAll => false,
    }
}

impl Most {
    fn one_more(self) -> Most
        ensures { result ≡ one_more self }
    {
        match self {
            Most::Zero => Most::One,
            Most::One | Most::Several => Most::Several,
        }
    }

    fn at_least_one(self) -> Most
        ensures { result ≡ at_least_one self }
    {
        match self {
            Most::Zero | Most::One => Most::One,
            Most::Several => Most::Several,
        }
    }

    fn greater(self, other: Most) -> Most
        ensures { result ≡ greater self other }
    {
        match self {
            Most::Zero => other,
            Most::One => other.at_least_one(),
            Most::Several => Most::Several,
        }
    }

    pub(crate) fn is_several(self) -> bool
        ensures { result ≡ is_several self }
    {
        self == Most::Several
    }

    fn at_start(list: List) -> Most
        ensures { result ≡ most_at_start list }
    {
        match list {
            List::Request => Most::One,
            List::Reply | List::Control => Most::Zero,
        }
    }

    fn after(self, op: Op, is_for_all: bool) -> Most
        ensures { result ≡ most_after op is_for_all self }
    {
        match op {
            Op::AddNew if is_for_all => self.at_least_one(),
            Op::Replace if is_for_all => Most::One,
            Op::AddNew | Op::Replace | Op::Append | Op::Prepend => self.one_more(),
            Op::RemoveAll if is_for_all => Most::Zero,
            Op::RemoveEqual | Op::KeepEqual | Op::RemoveAll => self,
        }
    }
}

impl Counts {
    /// Where a policy begins.
    pub(crate) fn at_start(mention: Mention) -> Counts
        ensures { result ≡ at_start mention }
    {
        Counts {
            is_certain: false,
            most: Most::at_start(mention.list),
        }
    }

    fn edited(self, mention: Mention, line: &Line) -> Counts
        ensures { result ≡ edited mention line.now self }
    {
        Counts {
            is_certain: certain_after(line.op, means_all(mention.selection), self.is_certain),
            most: self
                .most
                .after(line.op, is_within(mention.selection, line.selection)),
        }
    }

    pub(crate) fn after_line(self, mention: Mention, line: &Line) -> Counts
        ensures { result ≡ after_line mention line.now self }
    {
        if touches(mention, line) {
            self.edited(mention, line)
        } else {
            self
        }
    }

    fn found(self, there: bool) -> Counts
        ensures { result ≡ found there self }
    {
        Counts {
            is_certain: there || self.is_certain,
            most: self.most,
        }
    }

    fn both_ways(self, other: Counts) -> Counts
        ensures { result ≡ both_ways self other }
    {
        Counts {
            is_certain: self.is_certain && other.is_certain,
            most: self.most.greater(other.most),
        }
    }
}

/// What is known where a condition is true, of what was known before it.
pub(crate) fn where_true(mention: Mention, cond: &Cond, known: Option<Counts>) -> Option<Counts>
    ensures { result ≡ where_true mention cond.now known }
{
    let there = said_of(cond, mention).present_when_true;
    match known {
        Some(counts) => Some(counts.found(there)),
        None => None,
    }
}

/// The same where it is false.
pub(crate) fn where_false(mention: Mention, cond: &Cond, known: Option<Counts>) -> Option<Counts>
    ensures { result ≡ where_false mention cond.now known }
{
    let there = said_of(cond, mention).present_when_false;
    match known {
        Some(counts) => Some(counts.found(there)),
        None => None,
    }
}

/// What is known where two ways come together, of each of which it is known.
pub(crate) fn either_way(known: Option<Counts>, other: Option<Counts>) -> Option<Counts>
    ensures { result ≡ either_way known other }
{
    match (known, other) {
        (None, known) | (known, None) => known,
        (Some(counts), Some(other)) => Some(counts.both_ways(other)),
    }
}
