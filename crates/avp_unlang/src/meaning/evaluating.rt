//! What conditions come to, from left to right: whether they are true, and what was captured after them.

ghost use Rattle.std.specs.Prelude.{◌≡◌, ◌≤◌, IsTrue, length, map, true};
ghost use Rattle.std.specs.List.{list_all};
ghost use Rattle.std.specs.Option.{option_map_or};
ghost use Rattle.avp_lists.specs.History.{present};
ghost use Rattle.avp_dict.specs.Limits.{max_long_octets};
ghost use Rattle.avp_dict.specs.Printing.{hexadecimal};
ghost use Rattle.avp_forms.specs.Expansions.{max_expansion};
ghost use Rattle.avp_patterns.specs.Matching.{matches};
ghost use Rattle.avp_unlang.specs.Captures.{captured, captures_after, captures_in};
ghost use Rattle.avp_unlang.specs.Evaluations.{all_evaluated, any_evaluated, decided, evaluated};
ghost use Rattle.avp_unlang.specs.PatternTruth.{instance_in, is_matched, pattern_in};
ghost use Rattle.avp_unlang.specs.PolicyPatterns.{cond_patterns_pass, is_among};
ghost use Rattle.avp_unlang.specs.Resolutions.{StateFits, meaning_put};
ghost use Rattle.avp_unlang.specs.Texts.{captures_after_group, captures_after_text, group_pattern, is_group_matched, is_met_by_texts, is_text_matched};
ghost use Rattle.avp_unlang.specs.Truth.{are_printable, comparable_by};
ghost use Rattle.avp_unlang.specs.internal.CaptureRoom.{is_keepable};

use crate::codes::Code;
use crate::meaning::captured::Captured;
use crate::meaning::matchers::Matchers;
use crate::meaning::matching::MAX_OCTETS;
use crate::meaning::texts::{Surroundings, is_met_by_texts};
use crate::meaning::truth::{is_met, is_met_by_meaning, same_code};
use crate::tree::{Cond, GroupMatching, Matching, TextComparison};
use avp_dict::Dictionary;
use avp_forms::{Expansion, expansion_of};
use avp_lists::{Pair, Store};

// Whether a pattern matches some octets, and what it captures in them.
#[tactic(auto, unfolding(crate::specs::Captures::captures_in))]
fn capture(
    matchers: &mut Matchers<'_>,
    matching: &Matching,
    octets: &[u8],
    captured: &mut Captured,
) -> bool
    requires among { IsTrue (is_among matchers.old (pattern_in matching.now)) }
    requires keeps { IsTrue captured.old.keeps }
    requires length { length octets.now ≤ max_expansion }
    ensures found { result ≡ matches (pattern_in matching.now) octets.now }
    ensures captures { captured.new.captures ≡ captures_in (pattern_in matching.now) octets.now }
    ensures kept { captured.new.keeps ≡ captured.old.keeps }
    ensures same { matchers.new ≡ matchers.old }
{
    match matchers.captures(matching.pattern.as_slice(), matching.flags, octets) {
        Some(groups) => {
            captured.keep(octets, groups);
            true
        }
        None => {
            captured.clear();
            false
        }
    }
}

// The same of `0x` and the hexadecimal digits of some octets.
fn capture_digits(
    matchers: &mut Matchers<'_>,
    matching: &Matching,
    octets: &[u8],
    captured: &mut Captured,
) -> bool
    requires among { IsTrue (is_among matchers.old (pattern_in matching.now)) }
    requires keeps { IsTrue captured.old.keeps }
    requires length { length octets.now ≤ max_long_octets }
    ensures found { result ≡ matches (pattern_in matching.now) (hexadecimal octets.now) }
    ensures captures { captured.new.captures ≡ captures_in (pattern_in matching.now)
        (hexadecimal octets.now) }
    ensures kept { captured.new.keeps ≡ captured.old.keeps }
    ensures same { matchers.new ≡ matchers.old }
{
    let mut digits = [0; 2 + 2 * MAX_OCTETS];
    let end = 2 + 2 * octets.len();
    digits[0] = b'0';
    digits[1] = b'x';
    hex::encode_to_slice(octets, &mut digits[2..end]).unwrap();
    capture(matchers, matching, &digits[..end], captured)
}

// The same of what an expansion puts in for an instance.
fn capture_instance(
    dictionary: &Dictionary,
    matchers: &mut Matchers<'_>,
    matching: &Matching,
    pair: &Pair,
    captured: &mut Captured,
) -> bool
    requires among { IsTrue (is_among matchers.old (pattern_in matching.now)) }
    requires keeps { IsTrue captured.old.keeps }
    requires keepable { IsTrue (is_keepable dictionary.now pair.now) }
    ensures found { result
        ≡ matches (pattern_in matching.now) (meaning_put dictionary.now pair.now) }
    ensures captures { captured.new.captures
        ≡ captures_in (pattern_in matching.now) (meaning_put dictionary.now pair.now) }
    ensures kept { captured.new.keeps ≡ captured.old.keeps }
    ensures same { matchers.new ≡ matchers.old }
{
    match expansion_of(dictionary, pair.id, &pair.value) {
        Expansion::Octets(octets) => capture(matchers, matching, octets, captured),
        Expansion::Digits(octets) => capture_digits(matchers, matching, octets, captured),
        Expansion::Short(text) => capture(matchers, matching, text.as_slice(), captured),
    }
}

// Whether a comparison with a pattern is met, and what was captured after it.
#[tactic(auto, unfolding(crate::specs::Captures::captures_after))]
fn evaluate_match<S: Store>(
    dictionary: &Dictionary,
    matchers: &mut Matchers<'_>,
    matching: &Matching,
    store: &S,
    captured: &mut Captured,
) -> bool
    requires among { IsTrue (is_among matchers.old (pattern_in matching.now)) }
    requires keeps { IsTrue captured.old.keeps }
    requires keepable { IsTrue (option_map_or (is_keepable dictionary.now)
        (instance_in matching.now (present (S.history store.now))) true) }
    ensures found { result
        ≡ is_matched dictionary.now matching.now (present (S.history store.now)) }
    ensures captures { captured.new.captures ≡ captures_after dictionary.now matching.now
        (present (S.history store.now)) captured.old.captures }
    ensures kept { captured.new.keeps ≡ captured.old.keeps }
    ensures same { matchers.new ≡ matchers.old }
{
    match store.first_selected(matching.list, matching.id, matching.selection) {
        None => false,
        Some(pair) => {
            let matches = capture_instance(dictionary, matchers, matching, pair, captured);
            matches != matching.negated
        }
    }
}

// The same of a text, which is empty where there is no instance.
#[tactic(auto, unfolding(crate::specs::Texts::captures_after_text))]
fn evaluate_text_match<S: Store>(
    dictionary: &Dictionary,
    matchers: &mut Matchers<'_>,
    matching: &Matching,
    store: &S,
    captured: &mut Captured,
) -> bool
    requires among { IsTrue (is_among matchers.old (pattern_in matching.now)) }
    requires keeps { IsTrue captured.old.keeps }
    requires keepable { IsTrue (option_map_or (is_keepable dictionary.now)
        (instance_in matching.now (present (S.history store.now))) true) }
    ensures found { result
        ≡ is_text_matched dictionary.now matching.now (present (S.history store.now)) }
    ensures captures { captured.new.captures ≡ captures_after_text dictionary.now matching.now
        (present (S.history store.now)) }
    ensures kept { captured.new.keeps ≡ captured.old.keeps }
    ensures same { matchers.new ≡ matchers.old }
{
    match store.first_selected(matching.list, matching.id, matching.selection) {
        None => {
            let matches = capture(matchers, matching, &[], captured);
            matches != matching.negated
        }
        Some(pair) => {
            let matches = capture_instance(dictionary, matchers, matching, pair, captured);
            matches != matching.negated
        }
    }
}

// Whether a pattern matches what was captured of a group, and what it captures there.
#[tactic(auto, unfolding(crate::specs::Texts::captures_after_group, crate::specs::Captures::captures_in))]
fn capture_group(matchers: &mut Matchers<'_>, matching: &GroupMatching, kept: &mut Captured) -> bool
    requires { IsTrue (is_among matchers.old (group_pattern matching.now)) }
    ensures found { result ≡ matches (group_pattern matching.now)
        (captured matching.now.group kept.old.captures) }
    ensures captures { kept.new.captures ≡ captures_after_group matching.now kept.old.captures }
    ensures kept { kept.new.keeps ≡ kept.old.keeps }
    ensures same { matchers.new ≡ matchers.old }
{
    let text = kept.group(matching.group);
    match matchers.captures(matching.pattern.as_slice(), matching.flags, text) {
        Some(groups) => {
            kept.keep_within(matching.group, groups);
            true
        }
        None => {
            kept.clear();
            false
        }
    }
}

// The same of a comparison.
fn evaluate_group_match(
    matchers: &mut Matchers<'_>,
    matching: &GroupMatching,
    captured: &mut Captured,
) -> bool
    requires { IsTrue (is_among matchers.old (group_pattern matching.now)) }
    ensures found { result ≡ is_group_matched matching.now captured.old.captures }
    ensures captures { captured.new.captures
        ≡ captures_after_group matching.now captured.old.captures }
    ensures kept { captured.new.keeps ≡ captured.old.keeps }
    ensures same { matchers.new ≡ matchers.old }
{
    let matches = capture_group(matchers, matching, captured);
    matches != matching.negated
}

// Whether two texts are in the relation, with what was captured put in.
fn are_texts_met<'a, S: Store>(
    dictionary: &'a Dictionary,
    comparison: &'a TextComparison,
    store: &'a S,
    captured: &'a Captured,
) -> bool
    requires { IsTrue (are_printable dictionary.now comparison.now
        (present (S.history store.now))) }
    ensures { result ≡ is_met_by_texts dictionary.now comparison.now
        (present (S.history store.now)) captured.now.captures }
{
    let around = Surroundings::new(dictionary, store, Some(captured));
    is_met_by_texts(&around, comparison)
}

#[cycle(evaluations)]
fn any_evaluated<S: Store>(
    dictionary: &Dictionary,
    conds: &[Cond],
    store: &S,
    code: Code,
    matchers: &mut Matchers<'_>,
    captured: &mut Captured,
) -> bool
    requires comparable { IsTrue (list_all (λ cond. comparable_by dictionary.now cond
        (present (S.history store.now))) conds.now) }
    requires patterns { IsTrue (list_all (cond_patterns_pass (is_among matchers.old)) conds.now) }
    requires keeps { IsTrue captured.old.keeps }
    requires store { StateFits dictionary.now (present (S.history store.now)) }
    ensures evaluated { decided result captured.new.captures
        ≡ any_evaluated (map (evaluated dictionary.now) conds.now)
        (present (S.history store.now)) code captured.old.captures }
    ensures kept { captured.new.keeps ≡ captured.old.keeps }
    ensures same { matchers.new ≡ matchers.old }
{
    for cond in conds {
        if evaluate(dictionary, cond, store, code, matchers, captured) {
            return true;
        }
    }
    false
}

#[cycle(evaluations)]
fn all_evaluated<S: Store>(
    dictionary: &Dictionary,
    conds: &[Cond],
    store: &S,
    code: Code,
    matchers: &mut Matchers<'_>,
    captured: &mut Captured,
) -> bool
    requires comparable { IsTrue (list_all (λ cond. comparable_by dictionary.now cond
        (present (S.history store.now))) conds.now) }
    requires patterns { IsTrue (list_all (cond_patterns_pass (is_among matchers.old)) conds.now) }
    requires keeps { IsTrue captured.old.keeps }
    requires store { StateFits dictionary.now (present (S.history store.now)) }
    ensures evaluated { decided result captured.new.captures
        ≡ all_evaluated (map (evaluated dictionary.now) conds.now)
        (present (S.history store.now)) code captured.old.captures }
    ensures kept { captured.new.keeps ≡ captured.old.keeps }
    ensures same { matchers.new ≡ matchers.old }
{
    for cond in conds {
        if !evaluate(dictionary, cond, store, code, matchers, captured) {
            return false;
        }
    }
    true
}

/// Whether a condition is true of a store's present lists, `code` being the last code, and what was captured after it:
/// its parts are evaluated from left to right, up to the one that decides. `dictionary` is the one by which the
/// condition was read. No condition is refused for memory.
#[cycle(evaluations)]
#[tactic(auto, using(crate::proofs::EvaluatedConds::evaluated_any, crate::proofs::EvaluatedConds::evaluated_all, crate::proofs::EvaluatedConds::evaluated_not, crate::proofs::EvaluatedConds::evaluated_last, crate::proofs::EvaluatedConds::evaluated_present, crate::proofs::EvaluatedConds::evaluated_present_selected, crate::proofs::EvaluatedConds::evaluated_compare, crate::proofs::EvaluatedConds::evaluated_compare_meant, crate::proofs::EvaluatedConds::evaluated_captured, crate::proofs::Truths::comparable_by_any, crate::proofs::Truths::comparable_by_all, crate::proofs::Truths::comparable_by_not, crate::proofs::Truths::comparable_by_compare, crate::proofs::Truths::comparable_by_match, crate::proofs::Truths::comparable_by_compare_texts, crate::proofs::Truths::comparable_by_match_text, crate::proofs::Truths::passes_any, crate::proofs::Truths::passes_all, crate::proofs::Truths::passes_not, crate::proofs::Truths::passes_match, crate::proofs::Truths::passes_match_text, crate::proofs::Truths::passes_match_group))]
pub fn evaluate<S: Store>(
    dictionary: &Dictionary,
    cond: &Cond,
    store: &S,
    code: Code,
    matchers: &mut Matchers<'_>,
    captured: &mut Captured,
) -> bool
    requires comparable { IsTrue (comparable_by dictionary.now cond.now
        (present (S.history store.now))) }
    requires patterns { IsTrue (cond_patterns_pass (is_among matchers.old) cond.now) }
    requires keeps { IsTrue captured.old.keeps }
    requires store { StateFits dictionary.now (present (S.history store.now)) }
    ensures evaluated { decided result captured.new.captures ≡ evaluated dictionary.now cond.now
        (present (S.history store.now)) code captured.old.captures }
    ensures kept { captured.new.keeps ≡ captured.old.keeps }
    ensures same { matchers.new ≡ matchers.old }
{
    match cond {
        Cond::Any(conds) => {
            any_evaluated(
                dictionary,
                conds.as_slice(),
                store,
                code,
                matchers,
                captured,
            )
        }
        Cond::All(conds) => {
            all_evaluated(
                dictionary,
                conds.as_slice(),
                store,
                code,
                matchers,
                captured,
            )
        }
        Cond::Not(cond) => !evaluate(dictionary, cond.get(), store, code, matchers, captured),
        Cond::Last(word) => same_code(code, *word),
        Cond::Present(list, id) => store.first(*list, *id).is_some(),
        Cond::PresentSelected(list, id, selection) => {
            store.first_selected(*list, *id, *selection).is_some()
        }
        Cond::Compare(comparison) => is_met(comparison, store),
        Cond::CompareMeant(comparison) => is_met_by_meaning(comparison, store),
        Cond::Match(matching) => evaluate_match(dictionary, matchers, matching, store, captured),
        Cond::CompareTexts(comparison) => are_texts_met(dictionary, comparison, store, captured),
        Cond::MatchText(matching) => {
            evaluate_text_match(dictionary, matchers, matching, store, captured)
        }
        Cond::MatchGroup(matching) => evaluate_group_match(matchers, matching, captured),
        Cond::Captured(group) => 0 < captured.group(*group).len(),
    }
}
