//! Pairs, as C sees them.

ghost use Rattle.std.specs.Prelude.{◌≡◌, ◌++◌, ◌∷◌, [], IfOk, IsTrue, OnOk, length};
ghost use Rattle.avp_dict.specs.Limits.{fits};
ghost use Rattle.avp_lists.specs.History.{present};
ghost use Rattle.avp_lists.specs.States.{list_of};
ghost use Rattle.avp_unlang.specs.Resolutions.{StateFits};
ghost use Rattle.radpolicy_c.specs.Pairs.{all_pairs, no_lists, octets_told, outcome_lists, outcome_octets, pair_octets, pair_told, pairs_told};

use crate::attributes::RadpolicyAttribute;
use avp_dict::Dictionary;
use avp_forms::{Profile, printed_pair_name, printed_pair_text};
use avp_lists::{List, Octets, Pair, Store};
use radpolicy::RunOutcome;
use std::alloc::{AllocError, Global};
use std::marker::Model;

/// A pair: its attribute, and where its octets are among those that are told with it.
#[repr(C)]
#[derive(Clone, Copy, Debug)]
pub struct RadpolicyPair {
    /// Where the octets of the value begin.
    pub value: usize,
    pub value_length: usize,
    /// Where the line begins, as `Class = 0x01`.
    pub line: usize,
    pub line_length: usize,
    /// Of the name with which the line begins.
    pub name_length: usize,
    /// The vendor, or the type of an extended attribute; 0 of a plain one.
    pub within: u32,
    /// Of the attribute; of an extended one, the Extended-Type.
    pub number: u32,
    /// 0 a plain attribute, 1 a vendor's, 2 an extended one.
    pub kind: u8,
}

/// Records of pairs in order, seen by contracts as their list.
#[derive(Debug, Drop)]
pub struct ToldPairs {
    pairs: Vec<RadpolicyPair>,
}

impl Model for ToldPairs {
    ghost use Rattle.std.specs.Prelude.{List};
    ghost use Rattle.radpolicy_c.specs.declared.pairs.RadpolicyPair.{RadpolicyPair};

    ghost Value = { List RadpolicyPair };

    ghost view = { λ told. told.pairs.items };
}

impl ToldPairs {
    fn from_vec(pairs: Vec<RadpolicyPair>) -> ToldPairs
        ensures { result ≡ pairs.items }
    {
        ToldPairs { pairs }
    }

    pub(crate) fn as_slice(&self) -> &[RadpolicyPair]
        ensures { result.now ≡ self.now }
    {
        self.pairs.as_slice()
    }
}

/// The pairs of the request, the reply and the control list, and how many there are of each.
#[derive(Debug, Drop)]
pub struct ToldLists {
    pub pairs: ToldPairs,
    pub request_count: usize,
    pub reply_count: usize,
    pub control_count: usize,
}

impl ToldLists {
    /// No list.
    pub(crate) fn none(alloc: Global) -> ToldLists
        ensures { result ≡ no_lists }
    {
        ToldLists {
            pairs: ToldPairs::from_vec(Vec::new(alloc)),
            request_count: 0,
            reply_count: 0,
            control_count: 0,
        }
    }
}

// The records that were made so far, and the octets to which they point.
#[derive(Drop)]
struct CollectedPairs {
    pairs: Vec<RadpolicyPair>,
    octets: Vec<u8>,
}

impl CollectedPairs {
    // A pair after those before it.
    fn push(
        &mut self,
        dictionary: &Dictionary,
        profile: Profile,
        pair: &Pair,
    ) -> Result<(), AllocError>
        requires { IsTrue (fits pair.now dictionary.now) }
        ensures octets { OnOk result (self.new.octets.items ≡ self.old.octets.items
            ++ pair_octets profile dictionary.now pair.now) }
        ensures pairs { OnOk result (self.new.pairs.items ≡ self.old.pairs.items
            ++ (pair_told (length self.old.octets.items) profile dictionary.now pair.now ∷ [])) }
    {
        let alloc = *self.octets.allocator();
        let value = dictionary.bytes_of_value(alloc, pair.id, &pair.value)?;
        let name = printed_pair_name(alloc, dictionary, profile, pair.id, &pair.value)?;
        let text = printed_pair_text(alloc, dictionary, profile, pair.id, &pair.value)?;
        let start = self.octets.len();
        self.octets.extend_from_slice(value.as_slice())?;
        let line = self.octets.len();
        let attribute = RadpolicyAttribute::of(pair.id);
        self.octets.extend_from_slice(name.as_slice())?;
        self.octets.extend_from_slice(b" = ")?;
        self.octets.extend_from_slice(text.as_slice())?;
        self.pairs.push(RadpolicyPair {
            value: start,
            value_length: value.len(),
            line,
            line_length: self.octets.len() - line,
            name_length: name.len(),
            within: attribute.within,
            number: attribute.number,
            kind: attribute.kind,
        })?;
        Ok(())
    }

    // The pairs of a present list, read where they are.
    fn push_list<S: Store>(
        &mut self,
        dictionary: &Dictionary,
        profile: Profile,
        store: &S,
        list: List,
    ) -> Result<(), AllocError>
        requires { StateFits dictionary.now (present (S.history store.now)) }
        ensures octets { OnOk result (self.new.octets.items ≡ self.old.octets.items
            ++ octets_told profile dictionary.now (list_of list (present (S.history store.now)))) }
        ensures pairs { OnOk result (self.new.pairs.items ≡ self.old.pairs.items
            ++ pairs_told (length self.old.octets.items) profile dictionary.now
            (list_of list (present (S.history store.now)))) }
    {
        for at in 0..store.count(list) {
            if let Some(pair) = store.pair(list, at) {
                self.push(dictionary, profile, pair)?;
            }
        }
        Ok(())
    }

    // The records and the octets of the three present lists.
    fn of_lists<S: Store>(
        alloc: Global,
        dictionary: &Dictionary,
        profile: Profile,
        store: &S,
    ) -> Result<CollectedPairs, AllocError>
        requires { StateFits dictionary.now (present (S.history store.now)) }
        ensures octets { IfOk result (λ told. told.octets.items
            ≡ octets_told profile dictionary.now (all_pairs (present (S.history store.now)))) }
        ensures pairs { IfOk result (λ told. told.pairs.items
            ≡ pairs_told 0 profile dictionary.now (all_pairs (present (S.history store.now)))) }
    {
        let mut told = CollectedPairs {
            pairs: Vec::new(alloc),
            octets: Vec::new(alloc),
        };
        told.push_list(dictionary, profile, store, List::Request)?;
        told.push_list(dictionary, profile, store, List::Reply)?;
        told.push_list(dictionary, profile, store, List::Control)?;
        Ok(told)
    }
}

/// The lists of an outcome, and the octets of their pairs, by the dictionary and the profile of its policy.
pub(crate) fn lists_of(
    alloc: Global,
    dictionary: &Dictionary,
    profile: Profile,
    outcome: &RunOutcome<'_>,
) -> Result<(Octets, ToldLists), AllocError>
    requires dictionary { outcome.now.dictionary ≡ dictionary.now }
    requires profile { outcome.now.profile ≡ profile }
    ensures octets { IfOk result (λ told. told.0 ≡ outcome_octets outcome.now) }
    ensures lists { IfOk result (λ told. told.1 ≡ outcome_lists outcome.now) }
{
    let store = outcome.store();
    let CollectedPairs { pairs, octets } = CollectedPairs::of_lists(
        alloc, dictionary, profile, store,
    )?;
    let lists = ToldLists {
        pairs: ToldPairs::from_vec(pairs),
        request_count: store.count(List::Request),
        reply_count: store.count(List::Reply),
        control_count: store.count(List::Control),
    };
    Ok((Octets::from_vec(octets), lists))
}
