//! The tags of values, and which instances of an id an edit or a look-up means.
ghost use Rattle.std.specs.Prelude.{◌≡◌, ◌&&◌};
ghost use Rattle.avp_lists.specs.Selections.{AppliesToAll, ContinuesAll, EditsAll, FindsAll};
ghost use Rattle.avp_lists.specs.Tags.{beside_number_tag, beside_tag, beside_text_tag, is_same, is_selected, is_tag, number_tag, same_beside, tag_of, text_tag};

use crate::pairs::{AttrId, Pair, Value};

// The greatest tag (RFC 2868, section 3.1).
const MAX_TAG: u8 = 31;

/// How the octets of an attribute carry a tag (RFC 2868, section 3).
#[derive(Clone, Copy, Debug, PartialEq, Eq)]
pub enum Tagging {
    /// Four octets: a tag of at most 31, and a number of three.
    Number,
    /// A tag of at most 31 before a text. A text without one has the tag 0.
    Text,
}

/// Which instances of an id an edit or a look-up means, and by what an edit compares their values.
#[derive(Clone, Copy, Debug, PartialEq, Eq)]
pub enum Selection {
    /// All, and values are compared whole.
    All,
    /// All, and values with a tag are compared by the octets beside it.
    EachTag(Tagging),
    /// Those with this tag, of 0 to 31, and they are compared by the octets beside it. No instance has a greater one.
    Tag(Tagging, u8),
}

fn number_tag(octets: &[u8]) -> Option<u8>
    ensures { result ≡ number_tag octets.now }
{
    match octets {
        [tag, _, _, _] if *tag <= MAX_TAG => Some(*tag),
        _ => None,
    }
}

fn beside_number_tag(octets: &[u8]) -> &[u8]
    ensures { result.now ≡ beside_number_tag octets.now }
{
    match octets {
        [tag, number @ ..] if *tag <= MAX_TAG && number.len() == 3 => number,
        _ => octets,
    }
}

fn text_tag(octets: &[u8]) -> u8
    ensures { result ≡ text_tag octets.now }
{
    match octets {
        [tag, ..] if *tag <= MAX_TAG => *tag,
        _ => 0,
    }
}

fn beside_text_tag(octets: &[u8]) -> &[u8]
    ensures { result.now ≡ beside_text_tag octets.now }
{
    match octets {
        [tag, text @ ..] if *tag <= MAX_TAG => text,
        _ => octets,
    }
}

/// The tag of a value. A value that is not octets has none.
pub fn tag_of(tagging: Tagging, value: &Value) -> Option<u8>
    ensures { result ≡ tag_of tagging value.now }
{
    match (tagging, value) {
        (Tagging::Number, Value::Bytes(octets)) => number_tag(octets.as_slice()),
        (Tagging::Text, Value::Bytes(octets)) => Some(text_tag(octets.as_slice())),
        _ => None,
    }
}

/// The octets of a value beside its tag: all of them where it has none. A value that is not octets has none of these.
pub fn beside_tag(tagging: Tagging, value: &Value) -> &[u8]
    ensures { result.now ≡ beside_tag tagging value.now }
{
    match (tagging, value) {
        (Tagging::Number, Value::Bytes(octets)) => beside_number_tag(octets.as_slice()),
        (Tagging::Text, Value::Bytes(octets)) => beside_text_tag(octets.as_slice()),
        _ => &[],
    }
}

fn is_tag(tag: u8, found: Option<u8>) -> bool
    ensures { result ≡ is_tag tag found }
{
    match found {
        Some(found) => found == tag,
        None => false,
    }
}

// Not inlined, as what else looks at tags: most walks over a list ask for none.
#[inline(never)]
fn has_tag(tagging: Tagging, tag: u8, value: &Value) -> bool
    ensures { result ≡ is_tag tag (tag_of tagging value.now) }
{
    is_tag(tag, tag_of(tagging, value))
}

fn same_beside(tagging: Tagging, x: &Value, y: &Value) -> bool
    ensures { result ≡ same_beside tagging x.now y.now }
{
    if tag_of(tagging, x).is_some() {
        tag_of(tagging, y).is_some() && beside_tag(tagging, x) == beside_tag(tagging, y)
    } else {
        x.equals(y)
    }
}

impl Selection {
    // Whether the pair is one of those that are meant by the id. Inlined, since walks ask it of each pair.
    #[inline]
    pub(crate) fn is_selected(self, id: AttrId, pair: &Pair) -> bool
        ensures { result ≡ is_selected self id pair.now }
    {
        pair.id.equals(id)
            && match self {
                Selection::All | Selection::EachTag(_) => true,
                Selection::Tag(tagging, tag) => has_tag(tagging, tag, &pair.value),
            }
    }

    // Whether the other pair is one of those that are meant by the pair's id, and has its value.
    #[inline(always)]
    pub(crate) fn is_same(self, other: &Pair, pair: &Pair) -> bool
        ensures { result ≡ is_same self other.now pair.now }
    {
        match self {
            Selection::All => other.equals(pair),
            Selection::EachTag(tagging) | Selection::Tag(tagging, _) => {
                self.is_same_beside(tagging, other, pair)
            }
        }
    }

    #[inline(never)]
    fn is_same_beside(self, tagging: Tagging, other: &Pair, pair: &Pair) -> bool
        ensures { result ≡ (is_selected self pair.now.id other.now
            && same_beside tagging other.now.value pair.now.value) }
    {
        self.is_selected(pair.id, other) && same_beside(tagging, &other.value, &pair.value)
    }
}

/// What an edit and a look-up of all instances are: those without a selection. A law, as a call that does nothing.
#[tactic(auto, using(crate::proofs::Selecting::applies_to_all, crate::proofs::Selecting::edits_all, crate::proofs::Selecting::continues_all, crate::proofs::Selecting::finds_all))]
pub fn selects_all()
    ensures applied { AppliesToAll }
    ensures edited { EditsAll }
    ensures continued { ContinuesAll }
    ensures found { FindsAll }
{}
