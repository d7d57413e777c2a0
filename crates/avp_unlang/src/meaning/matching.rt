//! Whether conditions are true that compare with patterns.

ghost use Rattle.std.specs.Prelude.{◌≡◌, ◌≤◌, IsTrue, length, true};
ghost use Rattle.std.specs.List.{list_all, list_any};
ghost use Rattle.std.specs.Option.{option_map_or};
ghost use Rattle.avp_lists.specs.History.{present};
ghost use Rattle.avp_dict.specs.Limits.{max_long_octets};
ghost use Rattle.avp_dict.specs.Printing.{hexadecimal};
ghost use Rattle.avp_patterns.specs.Matching.{matches};
ghost use Rattle.avp_unlang.specs.Captures.{no_captures};
ghost use Rattle.avp_unlang.specs.PatternTruth.{instance_in, is_matchable_by, is_matched, pattern_in};
ghost use Rattle.avp_unlang.specs.PolicyPatterns.{cond_patterns_pass, is_among};
ghost use Rattle.avp_unlang.specs.Resolutions.{meaning_put};
ghost use Rattle.avp_unlang.specs.Texts.{group_pattern, is_group_matched, is_met_by_texts, is_text_matched};
ghost use Rattle.avp_unlang.specs.Truth.{are_printable, comparable_by, truth_by};

use crate::codes::Code;
use crate::meaning::matchers::Matchers;
use crate::meaning::texts::{Surroundings, is_met_by_texts};
use crate::meaning::truth::{is_met, is_met_by_meaning, same_code};
use crate::tree::{Cond, GroupMatching, Matching, TextComparison};
use avp_dict::Dictionary;
use avp_forms::{Expansion, expansion_of};
use avp_lists::{Pair, Store};
use avp_patterns::PatternFlags;

/// The most octets of an attribute.
pub(crate) const MAX_OCTETS: usize = 4012;

// Whether a pattern matches `0x` and the hexadecimal digits of some octets.
fn matches_digits(
    matchers: &mut Matchers<'_>,
    text: &[u8],
    flags: PatternFlags,
    octets: &[u8],
) -> bool
    requires among { IsTrue (is_among matchers.old (record { text = text.now; flags = flags })) }
    requires length { length octets.now ≤ max_long_octets }
    ensures found { result ≡ matches (record { text = text.now; flags = flags })
        (hexadecimal octets.now) }
    ensures same { matchers.new ≡ matchers.old }
{
    let mut digits = [0; 2 + 2 * MAX_OCTETS];
    let end = 2 + 2 * octets.len();
    digits[0] = b'0';
    digits[1] = b'x';
    hex::encode_to_slice(octets, &mut digits[2..end]).unwrap();
    matchers.is_match(text, flags, &digits[..end])
}

// Whether a pattern matches what an expansion puts in for an instance.
fn matches_instance(
    dictionary: &Dictionary,
    matchers: &mut Matchers<'_>,
    matching: &Matching,
    pair: &Pair,
) -> bool
    requires among { IsTrue (is_among matchers.old (pattern_in matching.now)) }
    requires matchable { IsTrue (is_matchable_by dictionary.now pair.now) }
    ensures found { result
        ≡ matches (pattern_in matching.now) (meaning_put dictionary.now pair.now) }
    ensures same { matchers.new ≡ matchers.old }
{
    let text = matching.pattern.as_slice();
    match expansion_of(dictionary, pair.id, &pair.value) {
        Expansion::Octets(octets) => matchers.is_match(text, matching.flags, octets),
        Expansion::Digits(octets) => matches_digits(matchers, text, matching.flags, octets),
        Expansion::Short(short) => matchers.is_match(text, matching.flags, short.as_slice()),
    }
}

fn is_matched<S: Store>(
    dictionary: &Dictionary,
    matchers: &mut Matchers<'_>,
    matching: &Matching,
    store: &S,
) -> bool
    requires among { IsTrue (is_among matchers.old (pattern_in matching.now)) }
    requires matchable { IsTrue (option_map_or (is_matchable_by dictionary.now)
        (instance_in matching.now (present (S.history store.now))) true) }
    ensures found { result
        ≡ is_matched dictionary.now matching.now (present (S.history store.now)) }
    ensures same { matchers.new ≡ matchers.old }
{
    match store.first_selected(matching.list, matching.id, matching.selection) {
        None => false,
        Some(pair) => matches_instance(dictionary, matchers, matching, pair) != matching.negated,
    }
}

// Whether the text of an instance, which is empty where there is none, is matched.
fn is_text_matched<S: Store>(
    dictionary: &Dictionary,
    matchers: &mut Matchers<'_>,
    matching: &Matching,
    store: &S,
) -> bool
    requires among { IsTrue (is_among matchers.old (pattern_in matching.now)) }
    requires matchable { IsTrue (option_map_or (is_matchable_by dictionary.now)
        (instance_in matching.now (present (S.history store.now))) true) }
    ensures found { result
        ≡ is_text_matched dictionary.now matching.now (present (S.history store.now)) }
    ensures same { matchers.new ≡ matchers.old }
{
    let instance = store.first_selected(matching.list, matching.id, matching.selection);
    match instance {
        None => {
            let text = matching.pattern.as_slice();
            matchers.is_match(text, matching.flags, &[]) != matching.negated
        }
        Some(pair) => {
            let matches = matches_instance(dictionary, matchers, matching, pair);
            matches != matching.negated
        }
    }
}

// Whether a group is matched where nothing was captured.
fn is_empty_group_matched(matchers: &mut Matchers<'_>, matching: &GroupMatching) -> bool
    requires { IsTrue (is_among matchers.old (group_pattern matching.now)) }
    ensures found { result ≡ is_group_matched matching.now no_captures }
    ensures same { matchers.new ≡ matchers.old }
{
    matchers.is_match(matching.pattern.as_slice(), matching.flags, &[]) != matching.negated
}

// Whether two texts are in the relation where nothing was captured.
fn are_texts_met<'a, S: Store>(
    dictionary: &'a Dictionary,
    comparison: &'a TextComparison,
    store: &'a S,
) -> bool
    requires { IsTrue (are_printable dictionary.now comparison.now
        (present (S.history store.now))) }
    ensures { result ≡ is_met_by_texts dictionary.now comparison.now
        (present (S.history store.now)) no_captures }
{
    let around = Surroundings::new(dictionary, store, None);
    is_met_by_texts(&around, comparison)
}

#[cycle(matched)]
fn any_holds_by<S: Store>(
    dictionary: &Dictionary,
    conds: &[Cond],
    store: &S,
    code: Code,
    matchers: &mut Matchers<'_>,
) -> bool
    requires comparable { IsTrue (list_all (λ cond. comparable_by dictionary.now cond
        (present (S.history store.now))) conds.now) }
    requires patterns { IsTrue (list_all (cond_patterns_pass (is_among matchers.old)) conds.now) }
    ensures truth { result ≡ list_any (λ cond. truth_by dictionary.now cond
        (present (S.history store.now)) code) conds.now }
    ensures same { matchers.new ≡ matchers.old }
{
    for cond in conds {
        if holds_by(dictionary, cond, store, code, matchers) {
            return true;
        }
    }
    false
}

#[cycle(matched)]
fn all_hold_by<S: Store>(
    dictionary: &Dictionary,
    conds: &[Cond],
    store: &S,
    code: Code,
    matchers: &mut Matchers<'_>,
) -> bool
    requires comparable { IsTrue (list_all (λ cond. comparable_by dictionary.now cond
        (present (S.history store.now))) conds.now) }
    requires patterns { IsTrue (list_all (cond_patterns_pass (is_among matchers.old)) conds.now) }
    ensures truth { result ≡ list_all (λ cond. truth_by dictionary.now cond
        (present (S.history store.now)) code) conds.now }
    ensures same { matchers.new ≡ matchers.old }
{
    for cond in conds {
        if !holds_by(dictionary, cond, store, code, matchers) {
            return false;
        }
    }
    true
}

/// Whether a condition is true of a store's present lists, `code` being the last code; as [`holds`](crate::holds), and
/// also where it compares with patterns. `dictionary` is the one by which the condition was read. What was captured
/// counts as empty: a condition such as `"%{1}"` is false. No condition is refused for memory.
#[cycle(matched)]
#[tactic(auto, using(crate::proofs::Truths::truth_by_any, crate::proofs::Truths::truth_by_all, crate::proofs::Truths::truth_by_not, crate::proofs::Truths::truth_by_last, crate::proofs::Truths::truth_by_present, crate::proofs::Truths::truth_by_present_selected, crate::proofs::Truths::truth_by_compare, crate::proofs::Truths::truth_by_compare_meant, crate::proofs::Truths::truth_by_match, crate::proofs::Truths::truth_by_compare_texts, crate::proofs::Truths::truth_by_match_text, crate::proofs::Truths::truth_by_match_group, crate::proofs::Truths::truth_by_captured, crate::proofs::Truths::comparable_by_any, crate::proofs::Truths::comparable_by_all, crate::proofs::Truths::comparable_by_not, crate::proofs::Truths::comparable_by_compare, crate::proofs::Truths::comparable_by_match, crate::proofs::Truths::comparable_by_compare_texts, crate::proofs::Truths::comparable_by_match_text, crate::proofs::Truths::passes_any, crate::proofs::Truths::passes_all, crate::proofs::Truths::passes_not, crate::proofs::Truths::passes_match, crate::proofs::Truths::passes_match_text, crate::proofs::Truths::passes_match_group))]
pub fn holds_by<S: Store>(
    dictionary: &Dictionary,
    cond: &Cond,
    store: &S,
    code: Code,
    matchers: &mut Matchers<'_>,
) -> bool
    requires comparable { IsTrue (comparable_by dictionary.now cond.now
        (present (S.history store.now))) }
    requires patterns { IsTrue (cond_patterns_pass (is_among matchers.old) cond.now) }
    ensures truth { result ≡ truth_by dictionary.now cond.now
        (present (S.history store.now)) code }
    ensures same { matchers.new ≡ matchers.old }
{
    match cond {
        Cond::Any(conds) => any_holds_by(dictionary, conds.as_slice(), store, code, matchers),
        Cond::All(conds) => all_hold_by(dictionary, conds.as_slice(), store, code, matchers),
        Cond::Not(cond) => !holds_by(dictionary, cond.get(), store, code, matchers),
        Cond::Last(word) => same_code(code, *word),
        Cond::Present(list, id) => store.first(*list, *id).is_some(),
        Cond::PresentSelected(list, id, selection) => {
            store.first_selected(*list, *id, *selection).is_some()
        }
        Cond::Compare(comparison) => is_met(comparison, store),
        Cond::CompareMeant(comparison) => is_met_by_meaning(comparison, store),
        Cond::Match(matching) => is_matched(dictionary, matchers, matching, store),
        Cond::CompareTexts(comparison) => are_texts_met(dictionary, comparison, store),
        Cond::MatchText(matching) => is_text_matched(dictionary, matchers, matching, store),
        Cond::MatchGroup(matching) => is_empty_group_matched(matchers, matching),
        Cond::Captured(_) => false,
    }
}
