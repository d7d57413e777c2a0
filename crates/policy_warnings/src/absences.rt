//! Comparisons with attributes that may be absent.

ghost use Rattle.std.specs.Prelude.{◌≡◌, false, map};
ghost use Rattle.std.specs.List.{flat_map, list_any};
ghost use Rattle.avp_lists.specs.declared.lists.State.{State};
ghost use Rattle.avp_dict.specs.Dictionary.{Dictionary};
ghost use Rattle.avp_unlang.specs.Truth.{truth, truth_by};
ghost use Rattle.avp_unlang.specs.declared.codes.Code.{Code};
ghost use Rattle.avp_unlang.specs.declared.tree.Cond.{Cond};
ghost use Rattle.policy_warnings.specs.Absences.{EmptyLacks, NegatedMatchingsDiffer, NegatedTextsDiffer, NegationsDiffer, WarnsOfNegatedMatchings, WarnsOfNegatedTexts, WarnsOfNegations, all_of, always, any_implies, any_of, asked, both, compared, either, negated, said_of, warns_of_absence};
ghost use Rattle.policy_warnings.specs.Answers.{server_truth, server_truth_by};
ghost use Rattle.policy_warnings.specs.Mentions.{comparand_mentions, comparison_mentions, matching_mentions, meant_comparand_mentions, meant_comparison_mentions, mentions, side_mentions};
ghost use Rattle.policy_warnings.specs.ServerEvaluations.{CapturesAlike, TakesAlike};
ghost use Rattle.policy_warnings.specs.declared.absences.Absence.{Absence};
ghost use Rattle.policy_warnings.specs.declared.mentions.Mention.{Mention};

use crate::mentions::Mention;
use avp_unlang::{
    Comparand, Comparison, Cond, Matching, MeantComparand, MeantComparison, TextSide,
};

/// What a condition says of an attribute, and where it overlooks that the attribute is absent.
#[derive(Clone, Copy, Debug)]
pub struct Absence {
    /// The condition is true only where the attribute is there.
    pub present_when_true: bool,
    /// It is false only where the attribute is there.
    pub present_when_false: bool,
    /// It may be true although a comparison with the attribute, which was absent, had ended it on a server.
    pub overlooked_when_true: bool,
    /// The same where it is false.
    pub overlooked_when_false: bool,
}

const SILENT: Absence = Absence {
    present_when_true: false,
    present_when_false: false,
    overlooked_when_true: false,
    overlooked_when_false: false,
};

impl Absence {
    fn always() -> Absence
        ensures { result ≡ always }
    {
        Absence {
            present_when_false: true,
            ..SILENT
        }
    }

    fn asked(implied: bool) -> Absence
        ensures { result ≡ asked implied }
    {
        Absence {
            present_when_true: implied,
            ..SILENT
        }
    }

    fn compared(implied: bool) -> Absence
        ensures { result ≡ compared implied }
    {
        Absence {
            present_when_true: implied,
            overlooked_when_false: implied,
            ..SILENT
        }
    }

    fn negated(self) -> Absence
        ensures { result ≡ negated self }
    {
        Absence {
            present_when_true: self.present_when_false,
            present_when_false: self.present_when_true,
            overlooked_when_true: self.overlooked_when_false,
            overlooked_when_false: self.overlooked_when_true,
        }
    }

    fn both(self, other: Absence) -> Absence
        ensures { result ≡ both self other }
    {
        Absence {
            present_when_true: self.present_when_true || other.present_when_true,
            present_when_false: self.present_when_false && other.present_when_false,
            overlooked_when_true: (self.overlooked_when_true && !other.present_when_true)
                || (other.overlooked_when_true && !self.present_when_true),
            overlooked_when_false: self.overlooked_when_false
                || (self.overlooked_when_true && !other.present_when_false)
                || (other.overlooked_when_false && !self.present_when_true),
        }
    }

    fn either(self, other: Absence) -> Absence
        ensures { result ≡ either self other }
    {
        self.negated().both(other.negated()).negated()
    }
}

// Whether the instances that a comparison looks at, where they are there, imply the mentioned ones.
fn comparison_implies(comparison: &Comparison, mention: Mention) -> bool
    ensures { result ≡ any_implies (comparison_mentions comparison.now) mention }
{
    Mention::whole(comparison.list, comparison.id).implies(mention)
        || match comparison.comparand {
            Comparand::Literal(_) => false,
            Comparand::Instance(list, id) => Mention::whole(list, id).implies(mention),
        }
}

fn meant_comparison_implies(comparison: &MeantComparison, mention: Mention) -> bool
    ensures { result ≡ any_implies (meant_comparison_mentions comparison.now) mention }
{
    Mention::selected(comparison.list, comparison.id, comparison.selection).implies(mention)
        || match comparison.comparand {
            MeantComparand::Literal(..) => false,
            MeantComparand::Instance(list, id, selection, _) => {
                Mention::selected(list, id, selection).implies(mention)
            }
        }
}

fn matching_implies(matching: &Matching, mention: Mention) -> bool
    ensures { result ≡ any_implies (matching_mentions matching.now) mention }
{
    Mention::selected(matching.list, matching.id, matching.selection).implies(mention)
}

fn side_implies(side: &TextSide, mention: Mention) -> bool
    ensures { result ≡ any_implies (side_mentions side.now) mention }
{
    match side {
        TextSide::Text(_) => false,
        TextSide::Instance(list, id, selection) => {
            Mention::selected(*list, *id, *selection).implies(mention)
        }
    }
}

#[cycle(absences)]
fn all_of(conds: &[Cond], mention: Mention) -> Absence
    ensures { result ≡ all_of always (map (said_of mention) conds.now) }
{
    let mut before = Absence::always();
    for cond in conds {
        before = before.both(said_of(cond, mention));
    }
    before
}

#[cycle(absences)]
fn any_of(conds: &[Cond], mention: Mention) -> Absence
    ensures { result ≡ any_of (negated always) (map (said_of mention) conds.now) }
{
    let mut before = Absence::always().negated();
    for cond in conds {
        before = before.either(said_of(cond, mention));
    }
    before
}

#[cycle(absences)]
#[tactic(auto, using(crate::proofs::Layers::absence_any, crate::proofs::Layers::absence_all, crate::proofs::Layers::absence_not, crate::proofs::Layers::absence_last, crate::proofs::Layers::absence_present, crate::proofs::Layers::absence_present_selected, crate::proofs::Layers::absence_compare, crate::proofs::Layers::absence_compare_meant, crate::proofs::Layers::absence_match, crate::proofs::Layers::absence_compare_texts, crate::proofs::Layers::absence_match_text, crate::proofs::Layers::absence_match_group, crate::proofs::Layers::absence_captured))]
pub(crate) fn said_of(cond: &Cond, mention: Mention) -> Absence
    ensures { result ≡ said_of mention cond.now }
{
    match cond {
        Cond::Any(conds) => any_of(conds.as_slice(), mention),
        Cond::All(conds) => all_of(conds.as_slice(), mention),
        Cond::Not(cond) => said_of(cond.get(), mention).negated(),
        Cond::Last(_) | Cond::MatchText(_) | Cond::MatchGroup(_) | Cond::Captured(_) => SILENT,
        Cond::Present(list, id) => Absence::asked(Mention::whole(*list, *id).implies(mention)),
        Cond::PresentSelected(list, id, selection) => {
            Absence::asked(Mention::selected(*list, *id, *selection).implies(mention))
        }
        Cond::Compare(comparison) => Absence::compared(comparison_implies(comparison, mention)),
        Cond::CompareMeant(comparison) => {
            Absence::compared(meant_comparison_implies(comparison, mention))
        }
        Cond::Match(matching) => Absence::compared(matching_implies(matching, mention)),
        Cond::CompareTexts(comparison) => Absence::compared(side_implies(
            &comparison.left,
            mention,
        )),
    }
}

fn overlooks(whole: &Cond, mention: Mention) -> bool
    ensures { result ≡ (said_of mention whole.now).overlooked_when_true }
{
    said_of(whole, mention).overlooked_when_true
}

fn comparison_overlooked(comparison: &Comparison, whole: &Cond) -> bool
    ensures { result ≡ list_any (λ (m : Mention). (said_of m whole.now).overlooked_when_true)
        (comparison_mentions comparison.now) }
{
    overlooks(whole, Mention::whole(comparison.list, comparison.id))
        || match comparison.comparand {
            Comparand::Literal(_) => false,
            Comparand::Instance(list, id) => overlooks(whole, Mention::whole(list, id)),
        }
}

fn meant_comparison_overlooked(comparison: &MeantComparison, whole: &Cond) -> bool
    ensures { result ≡ list_any (λ (m : Mention). (said_of m whole.now).overlooked_when_true)
        (meant_comparison_mentions comparison.now) }
{
    overlooks(
        whole,
        Mention::selected(comparison.list, comparison.id, comparison.selection),
    ) || match comparison.comparand {
        MeantComparand::Literal(..) => false,
        MeantComparand::Instance(list, id, selection, _) => {
            overlooks(whole, Mention::selected(list, id, selection))
        }
    }
}

fn matching_overlooked(matching: &Matching, whole: &Cond) -> bool
    ensures { result ≡ list_any (λ (m : Mention). (said_of m whole.now).overlooked_when_true)
        (matching_mentions matching.now) }
{
    overlooks(
        whole,
        Mention::selected(matching.list, matching.id, matching.selection),
    )
}

fn side_overlooked(side: &TextSide, whole: &Cond) -> bool
    ensures { result ≡ list_any (λ (m : Mention). (said_of m whole.now).overlooked_when_true)
        (side_mentions side.now) }
{
    match side {
        TextSide::Text(_) => false,
        TextSide::Instance(list, id, selection) => {
            overlooks(whole, Mention::selected(*list, *id, *selection))
        }
    }
}

#[cycle(overlooking)]
fn any_overlooked(conds: &[Cond], whole: &Cond) -> bool
    ensures { result ≡ list_any (λ (m : Mention). (said_of m whole.now).overlooked_when_true)
        (flat_map mentions conds.now) }
{
    for cond in conds {
        if is_overlooked(cond, whole) {
            return true;
        }
    }
    false
}

// Whether an absence that a comparison in this part of a condition may meet is overlooked by the whole.
#[cycle(overlooking)]
#[tactic(auto, using(crate::proofs::Layers::mentions_any, crate::proofs::Layers::mentions_all, crate::proofs::Layers::mentions_not, crate::proofs::Layers::mentions_last, crate::proofs::Layers::mentions_present, crate::proofs::Layers::mentions_present_selected, crate::proofs::Layers::mentions_compare, crate::proofs::Layers::mentions_compare_meant, crate::proofs::Layers::mentions_match, crate::proofs::Layers::mentions_compare_texts, crate::proofs::Layers::mentions_match_text, crate::proofs::Layers::mentions_match_group, crate::proofs::Layers::mentions_captured))]
fn is_overlooked(part: &Cond, whole: &Cond) -> bool
    ensures { result ≡ list_any (λ (m : Mention). (said_of m whole.now).overlooked_when_true)
        (mentions part.now) }
{
    match part {
        Cond::Any(conds) | Cond::All(conds) => any_overlooked(conds.as_slice(), whole),
        Cond::Not(cond) => is_overlooked(cond.get(), whole),
        Cond::Last(_)
        | Cond::Present(..)
        | Cond::PresentSelected(..)
        | Cond::MatchText(_)
        | Cond::MatchGroup(_)
        | Cond::Captured(_) => false,
        Cond::Compare(comparison) => comparison_overlooked(comparison, whole),
        Cond::CompareMeant(comparison) => meant_comparison_overlooked(comparison, whole),
        Cond::Match(matching) => matching_overlooked(matching, whole),
        Cond::CompareTexts(comparison) => side_overlooked(&comparison.left, whole),
    }
}

/// Whether a condition compares an attribute that may be absent where that matters: a server ends the whole condition
/// there, as false. Without a warning a server takes the branch in the same states, after the same codes and with the
/// same captures. Where a server ends the condition it may have captured less, of which this does not warn.
pub fn warns_of_absence(cond: &Cond) -> bool
    ensures definition { result ≡ warns_of_absence cond.now }
    ensures agrees { result ≡ false
        → (s : State) (c : Code) → truth cond.now s c ≡ server_truth cond.now s c }
    ensures agrees_by { result ≡ false → (d : Dictionary) (s : State) (c : Code)
        → truth_by d cond.now s c ≡ server_truth_by d cond.now s c }
    ensures takes_alike { result ≡ false → TakesAlike cond.now }
    ensures captures_alike { CapturesAlike cond.now }
{
    is_overlooked(cond, cond)
}

/// Each comparison of an attribute under `!` is warned of, and where it is absent a server does otherwise. A law, as a
/// call that does nothing.
#[tactic(auto, using(crate::proofs::Negations::warned, crate::proofs::Negations::matching_warned, crate::proofs::Negations::texts_warned, crate::proofs::Negations::lacks))]
pub fn warns_of_negations()
    ensures warned { WarnsOfNegations }
    ensures differ { NegationsDiffer }
    ensures matchings_warned { WarnsOfNegatedMatchings }
    ensures matchings_differ { NegatedMatchingsDiffer }
    ensures texts_warned { WarnsOfNegatedTexts }
    ensures texts_differ { NegatedTextsDiffer }
    ensures lacks { EmptyLacks }
{}
