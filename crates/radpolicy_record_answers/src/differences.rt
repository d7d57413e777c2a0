//! What is said of two answers to a record that were compared.

ghost use Rattle.std.specs.Prelude.{◌≡◌, ◌++◌, IfOk, Ok, OnOk};
ghost use Rattle.std.specs.List.{flat_map};
ghost use Rattle.radpolicy_common.specs.ChangeTexts.{AllFit, Fits};
ghost use Rattle.radpolicy_record_answers.specs.Comparisons.{ids_of, line_fault_number, pairs_of, same_answers, same_faults, text_fault_number};
ghost use Rattle.radpolicy_record_answers.specs.Differences.{added_line, answers_told, change_of, changes_of, difference_told, instances_change, list_change, named_change, pair_line, pairs_change, removed_line, result_or_fault, same_told, value_shown, verdict_of_answers, verdict_of_same};
ghost use Rattle.radpolicy_record_answers.specs.internal.Over.{IsOver};

use crate::answers::{RecordFault, push_refusal, push_result};
use crate::comparisons::{Comparison, Order, Told, compared, ids_of, instances, same_pairs};
use crate::verdicts::Verdict;
use avp_dict::{Dictionary, LineFault};
use avp_forms::{Profile, printed_pair_name, printed_pair_text};
use avp_lists::{AttrId, List, Pair, Store};
use radpolicy::{Fault, RunOutcome};
use radpolicy_common::Redaction;
use radpolicy_traffic_packets::TextFault;
use std::alloc::{AllocError, Global};

/// The dictionaries by which the pairs of two lists are printed, and what is hidden of them.
#[derive(Drop)]
pub struct Printer<'a> {
    pub old: &'a Dictionary,
    pub new: &'a Dictionary,
    pub redaction: &'a Redaction<'a>,
}

// The text of a value, or `(hidden)`.
fn value_shown(
    alloc: Global,
    dictionary: &Dictionary,
    redaction: &Redaction<'_>,
    pair: &Pair,
) -> Result<Vec<u8>, AllocError>
    requires { Fits dictionary.now pair.now }
    ensures { IfOk result (λ text.
        text.items ≡ value_shown dictionary.now redaction.now pair.now) }
{
    if redaction.hides(pair.id, &pair.value) {
        Vec::from_slice(alloc, b"(hidden)")
    } else {
        printed_pair_text(alloc, dictionary, Profile::Wider, pair.id, &pair.value)
    }
}

/// The line of a pair, after these octets.
pub(crate) fn push_pair_line(
    text: &mut Vec<u8>,
    before: &[u8],
    dictionary: &Dictionary,
    redaction: &Redaction<'_>,
    pair: &Pair,
) -> Result<(), AllocError>
    requires { Fits dictionary.now pair.now }
    ensures { OnOk result (text.new.items ≡ text.old.items
        ++ before.now ++ pair_line dictionary.now redaction.now pair.now) }
{
    let alloc = *text.allocator();
    let name = printed_pair_name(alloc, dictionary, Profile::Wider, pair.id, &pair.value)?;
    let value = value_shown(alloc, dictionary, redaction, pair)?;
    text.extend_from_slice(before)?;
    text.extend_from_slice(&name)?;
    text.extend_from_slice(b" = ")?;
    text.extend_from_slice(&value)?;
    text.extend_from_slice(b"\n")?;
    Ok(())
}

impl Printer<'_> {
    fn push_removed(&self, text: &mut Vec<u8>, pair: &Pair) -> Result<(), AllocError>
        requires { Fits self.now.old.now pair.now }
        ensures { OnOk result (text.new.items
            ≡ text.old.items ++ removed_line self.now.old.now self.now.redaction.now pair.now) }
    {
        push_pair_line(text, b"  - ", self.old, self.redaction, pair)
    }

    fn push_added(&self, text: &mut Vec<u8>, pair: &Pair) -> Result<(), AllocError>
        requires { Fits self.now.new.now pair.now }
        ensures { OnOk result (text.new.items
            ≡ text.old.items ++ added_line self.now.new.now self.now.redaction.now pair.now) }
    {
        push_pair_line(text, b"  + ", self.new, self.redaction, pair)
    }

    fn push_all_removed(&self, text: &mut Vec<u8>, pairs: &[&Pair]) -> Result<(), AllocError>
        requires { AllFit self.now.old.now (pairs_of pairs.now) }
        ensures { OnOk result (text.new.items ≡ text.old.items
            ++ flat_map (removed_line self.now.old.now self.now.redaction.now)
            (pairs_of pairs.now)) }
    {
        let mut rest = pairs;
        while let [pair, later @ ..] = rest {
            self.push_removed(text, pair)?;
            rest = later;
        }
        Ok(())
    }

    fn push_all_added(&self, text: &mut Vec<u8>, pairs: &[&Pair]) -> Result<(), AllocError>
        requires { AllFit self.now.new.now (pairs_of pairs.now) }
        ensures { OnOk result (text.new.items ≡ text.old.items
            ++ flat_map (added_line self.now.new.now self.now.redaction.now) (pairs_of pairs.now)) }
    {
        let mut rest = pairs;
        while let [pair, later @ ..] = rest {
            self.push_added(text, pair)?;
            rest = later;
        }
        Ok(())
    }

    // Two lists, where they are not equal.
    fn push_pairs(&self, text: &mut Vec<u8>, old: &[&Pair], new: &[&Pair]) -> Result<(), AllocError>
        requires old { AllFit self.now.old.now (pairs_of old.now) }
        requires new { AllFit self.now.new.now (pairs_of new.now) }
        ensures { OnOk result (text.new.items ≡ text.old.items
            ++ pairs_change (removed_line self.now.old.now self.now.redaction.now)
            (added_line self.now.new.now self.now.redaction.now)
            (pairs_of old.now) (pairs_of new.now)) }
    {
        if same_pairs(old, new) {
            return Ok(());
        }
        self.push_all_removed(text, old)?;
        self.push_all_added(text, new)
    }

    // The instances of an attribute, where they are not equal.
    #[tactic(auto, using(crate::proofs::Fitting::instances_fit))]
    fn push_instances(
        &self,
        text: &mut Vec<u8>,
        id: AttrId,
        old: &[&Pair],
        new: &[&Pair],
    ) -> Result<(), AllocError>
        requires old { AllFit self.now.old.now (pairs_of old.now) }
        requires new { AllFit self.now.new.now (pairs_of new.now) }
        ensures { OnOk result (text.new.items ≡ text.old.items
            ++ instances_change (removed_line self.now.old.now self.now.redaction.now)
            (added_line self.now.new.now self.now.redaction.now)
            (pairs_of old.now) (pairs_of new.now) id) }
    {
        let alloc = *text.allocator();
        let removed = instances(alloc, id, old)?;
        let added = instances(alloc, id, new)?;
        self.push_pairs(text, &removed, &added)
    }

    fn push_all_instances(
        &self,
        text: &mut Vec<u8>,
        ids: &[AttrId],
        old: &[&Pair],
        new: &[&Pair],
    ) -> Result<(), AllocError>
        requires old { AllFit self.now.old.now (pairs_of old.now) }
        requires new { AllFit self.now.new.now (pairs_of new.now) }
        ensures { OnOk result (text.new.items ≡ text.old.items
            ++ flat_map (instances_change (removed_line self.now.old.now self.now.redaction.now)
            (added_line self.now.new.now self.now.redaction.now)
            (pairs_of old.now) (pairs_of new.now)) ids.now) }
    {
        let mut rest = ids;
        while let [id, later @ ..] = rest {
            self.push_instances(text, *id, old, new)?;
            rest = later;
        }
        Ok(())
    }

    /// Two lists, where they are not the same.
    #[tactic(auto, unfolding(crate::specs::Differences::list_change))]
    pub(crate) fn push_lists(
        &self,
        text: &mut Vec<u8>,
        order: Order,
        old: &[&Pair],
        new: &[&Pair],
    ) -> Result<(), AllocError>
        requires old { AllFit self.now.old.now (pairs_of old.now) }
        requires new { AllFit self.now.new.now (pairs_of new.now) }
        ensures { OnOk result (text.new.items ≡ text.old.items
            ++ list_change (removed_line self.now.old.now self.now.redaction.now)
            (added_line self.now.new.now self.now.redaction.now) order (pairs_of old.now)
            (pairs_of new.now)) }
    {
        match order {
            Order::Ordered => self.push_pairs(text, old, new),
            Order::ByName => {
                let ids = ids_of(*text.allocator(), old, new)?;
                self.push_all_instances(text, &ids, old, new)
            }
        }
    }
}

/// The lines of a list's change below its name, where there are any.
pub(crate) fn push_named(text: &mut Vec<u8>, name: &[u8], lines: &[u8]) -> Result<(), AllocError>
    ensures { OnOk result (text.new.items ≡ text.old.items ++ named_change name.now lines.now) }
{
    if let [] = lines {
        return Ok(());
    }
    text.extend_from_slice(b"  ")?;
    text.extend_from_slice(name)?;
    text.extend_from_slice(b"\n")?;
    text.extend_from_slice(lines)?;
    Ok(())
}

fn line_fault_number(fault: LineFault) -> u8
    ensures { result ≡ line_fault_number fault }
{
    Fault::Request(fault).number()
}

// The kinds of faults of lines.
fn text_fault_number(fault: TextFault) -> u8
    ensures { result ≡ text_fault_number fault }
{
    match fault {
        TextFault::TooLong => 0,
        TextFault::OtherCode => 1,
        TextFault::Lines(fault) => line_fault_number(fault),
        TextFault::PacketTooLong => Fault::PacketTooLong.number(),
        TextFault::Memory => Fault::Memory.number(),
    }
}

fn same_faults(old: RecordFault, new: RecordFault) -> bool
    ensures { result ≡ same_faults old new }
{
    match (old, new) {
        (RecordFault::Request(old), RecordFault::Request(new)) => old.number() == new.number(),
        (RecordFault::NoClient, RecordFault::NoClient) => true,
        (RecordFault::Text(old), RecordFault::Text(new)) => {
            text_fault_number(old) == text_fault_number(new)
        }
        (RecordFault::ReplyList(old), RecordFault::ReplyList(new))
        | (RecordFault::ControlList(old), RecordFault::ControlList(new)) => {
            line_fault_number(old) == line_fault_number(new)
        }
        _ => false,
    }
}

// The result of an answer, or its fault.
fn push_result_or_fault(
    text: &mut Vec<u8>,
    answer: &Result<RunOutcome<'_>, RecordFault>,
) -> Result<(), AllocError>
    ensures { OnOk result (text.new.items ≡ text.old.items ++ result_or_fault answer.now) }
{
    match answer {
        Ok(outcome) => push_result(text, outcome),
        Err(fault) => push_refusal(text, *fault),
    }
}

fn push_same(
    text: &mut Vec<u8>,
    told: Told,
    name: &[u8],
    answer: &Result<RunOutcome<'_>, RecordFault>,
) -> Result<(), AllocError>
    ensures { OnOk result (text.new.items ≡ text.old.items ++ same_told told name.now answer.now) }
{
    if let Told::Different = told {
        return Ok(());
    }
    text.extend_from_slice(name)?;
    push_result_or_fault(text, answer)?;
    text.extend_from_slice(b"\n")?;
    Ok(())
}

/// What became of a record that is answered alike.
pub fn verdict_of_same(answer: &Result<RunOutcome<'_>, RecordFault>) -> Verdict
    ensures { result ≡ verdict_of_same answer.now }
{
    match answer {
        Ok(_) => Verdict::Same,
        Err(_) => Verdict::Refused,
    }
}

impl Comparison<'_> {
    /// How a list at the end of two runs differs.
    #[tactic(auto, using(crate::proofs::Fitting::compared_fit))]
    pub fn change_of(
        &self,
        alloc: Global,
        printer: &Printer<'_>,
        list: List,
        old: &RunOutcome<'_>,
        new: &RunOutcome<'_>,
    ) -> Result<Vec<u8>, AllocError>
        requires old { old.now.dictionary ≡ printer.now.old.now }
        requires new { new.now.dictionary ≡ printer.now.new.now }
        ensures { IfOk result (λ text.
            text.items ≡ change_of printer.now.redaction.now self.now list old.now new.now) }
    {
        let old_list = old.store().list(list)?;
        let new_list = new.store().list(list)?;
        let old_pairs = compared(alloc, self.ignored, &old_list)?;
        let new_pairs = compared(alloc, self.ignored, &new_list)?;
        let mut text = Vec::new(alloc);
        printer.push_lists(&mut text, self.order, &old_pairs, &new_pairs)?;
        Ok(text)
    }

    fn push_changes_of_ends(
        &self,
        text: &mut Vec<u8>,
        printer: &Printer<'_>,
        old: &RunOutcome<'_>,
        new: &RunOutcome<'_>,
    ) -> Result<(), AllocError>
        requires old { old.now.dictionary ≡ printer.now.old.now }
        requires new { new.now.dictionary ≡ printer.now.new.now }
        ensures { OnOk result (text.new.items ≡ text.old.items
            ++ changes_of printer.now.redaction.now self.now (Ok old.now) (Ok new.now)) }
    {
        let alloc = *text.allocator();
        let reply = self.change_of(alloc, printer, List::Reply, old, new)?;
        let control = self.change_of(alloc, printer, List::Control, old, new)?;
        push_named(text, b"reply", &reply)?;
        push_named(text, b"control", &control)
    }

    // How the reply and control lists differ, where both ran.
    fn push_changes(
        &self,
        text: &mut Vec<u8>,
        printer: &Printer<'_>,
        old: &Result<RunOutcome<'_>, RecordFault>,
        new: &Result<RunOutcome<'_>, RecordFault>,
    ) -> Result<(), AllocError>
        requires old { IsOver printer.now.old.now old.now }
        requires new { IsOver printer.now.new.now new.now }
        ensures { OnOk result (text.new.items
            ≡ text.old.items ++ changes_of printer.now.redaction.now self.now old.now new.now) }
    {
        if let Ok(old) = old {
            if let Ok(new) = new {
                return self.push_changes_of_ends(text, printer, old, new);
            }
        }
        Ok(())
    }

    fn push_difference(
        &self,
        text: &mut Vec<u8>,
        printer: &Printer<'_>,
        name: &[u8],
        old: &Result<RunOutcome<'_>, RecordFault>,
        new: &Result<RunOutcome<'_>, RecordFault>,
    ) -> Result<(), AllocError>
        requires old { IsOver printer.now.old.now old.now }
        requires new { IsOver printer.now.new.now new.now }
        ensures { OnOk result (text.new.items ≡ text.old.items
            ++ difference_told printer.now.redaction.now self.now name.now old.now new.now) }
    {
        text.extend_from_slice(name)?;
        push_result_or_fault(text, old)?;
        text.extend_from_slice(b" -> ")?;
        push_result_or_fault(text, new)?;
        text.extend_from_slice(b"\n")?;
        self.push_changes(text, printer, old, new)
    }

    /// Whether two answers are the same.
    pub fn same_answers(
        &self,
        alloc: Global,
        old: &Result<RunOutcome<'_>, RecordFault>,
        new: &Result<RunOutcome<'_>, RecordFault>,
    ) -> Result<bool, AllocError>
        ensures { IfOk result (λ same. same ≡ same_answers self.now old.now new.now) }
    {
        match old {
            Ok(old) => match new {
                Ok(new) => self.same_ends(alloc, old, new),
                Err(_) => Ok(false),
            },
            Err(old) => match new {
                Ok(_) => Ok(false),
                Err(new) => Ok(same_faults(*old, *new)),
            },
        }
    }

    /// Says what there is to say of two answers to the record of this name, and what became of it.
    #[tactic(auto, unfolding(crate::specs::Differences::answers_told, crate::specs::Differences::verdict_of_answers))]
    pub fn push_answers(
        &self,
        text: &mut Vec<u8>,
        printer: &Printer<'_>,
        name: &[u8],
        old: &Result<RunOutcome<'_>, RecordFault>,
        new: &Result<RunOutcome<'_>, RecordFault>,
    ) -> Result<Verdict, AllocError>
        requires old { IsOver printer.now.old.now old.now }
        requires new { IsOver printer.now.new.now new.now }
        ensures text { OnOk result (text.new.items ≡ text.old.items
            ++ answers_told printer.now.redaction.now self.now name.now old.now new.now) }
        ensures verdict { IfOk result (λ verdict.
            verdict ≡ verdict_of_answers self.now old.now new.now) }
    {
        if self.same_answers(*text.allocator(), old, new)? {
            push_same(text, self.told, name, new)?;
            return Ok(verdict_of_same(new));
        }
        self.push_difference(text, printer, name, old, new)?;
        Ok(Verdict::Different)
    }
}
