//! What the JSON object of a record has besides its name: the answer to it, or how two answers differ.

ghost use Rattle.std.specs.Prelude.{◌≡◌, ◌++◌, ◌∷◌, [], IfOk, Ok, OnOk, drop, filter, map};
ghost use Rattle.avp_dict.specs.Lines.{is_line_end};
ghost use Rattle.avp_dict.specs.Words.{is_word};
ghost use Rattle.avp_dict.specs.internal.Views.{views};
ghost use Rattle.radpolicy_record_answers.specs.Answers.{hides_reply, refusal_shown};
ghost use Rattle.radpolicy_record_answers.specs.Captured.{captured_fault_shown, verdict_of_replies};
ghost use Rattle.radpolicy_record_answers.specs.Differences.{added_line, removed_line, verdict_of_answers};
ghost use Rattle.radpolicy_replay_records.specs.JsonEntries.{answer_members, answers_members, captured_list_member, captured_member, change_member, change_members, difference_members, end_members, fault_member, line_strings, lines_member, named_changes, other_members, own_members, own_reply_members, replies_members, reply_string, reply_value, result_members};
ghost use Rattle.radpolicy_record_answers.specs.declared.captured.Replies.TheVariants.{Both};
ghost use Rattle.radpolicy_record_answers.specs.internal.Fitting.{OwnFits, PacketFits, RepliesFit};
ghost use Rattle.radpolicy_record_answers.specs.internal.Over.{IsOver};

use crate::lines::first_line_end;
use avp_dict::Dictionary;
use avp_lists::List;
use avp_packet::Packet;
use radpolicy::{Reply, RunOutcome, code_text};
use radpolicy_common::Redaction;
use radpolicy_record_answers::{
    CapturedFault, Comparison, Printer, RecordFault, Replies, Verdict, captured_lines, hides_reply,
    push_captured_fault, push_refusal, push_reply, reply_name, verdict_of_same,
};
use radpolicy_replay_layouts::{push_flag, push_string, push_strings};
use std::alloc::{AllocError, Global};

// The result, and whether the run was stopped.
fn push_result_members(text: &mut Vec<u8>, outcome: &RunOutcome<'_>) -> Result<(), AllocError>
    ensures { OnOk result (text.new.items ≡ text.old.items ++ result_members outcome.now.end) }
{
    text.extend_from_slice(b"\"result\":")?;
    push_string(text, code_text(outcome.code()).as_bytes())?;
    text.extend_from_slice(b",\"stopped\":")?;
    push_flag(text, outcome.stopped())
}

fn push_fault_member(text: &mut Vec<u8>, words: &[u8]) -> Result<(), AllocError>
    ensures { OnOk result (text.new.items ≡ text.old.items ++ fault_member words.now) }
{
    text.extend_from_slice(b"\"fault\":")?;
    push_string(text, words)
}

fn push_refusal_member(text: &mut Vec<u8>, fault: RecordFault) -> Result<(), AllocError>
    ensures { OnOk result (text.new.items
        ≡ text.old.items ++ fault_member (refusal_shown fault)) }
{
    let mut words = Vec::new(*text.allocator());
    push_refusal(&mut words, fault)?;
    push_fault_member(text, &words)
}

fn push_unread_member(text: &mut Vec<u8>, fault: CapturedFault) -> Result<(), AllocError>
    ensures { OnOk result (text.new.items
        ≡ text.old.items ++ fault_member (captured_fault_shown fault)) }
{
    let mut words = Vec::new(*text.allocator());
    push_captured_fault(&mut words, fault)?;
    push_fault_member(text, &words)
}

// The result, or why the record is refused.
fn push_end_members(
    text: &mut Vec<u8>,
    answer: &Result<RunOutcome<'_>, RecordFault>,
) -> Result<(), AllocError>
    ensures { OnOk result (text.new.items ≡ text.old.items ++ end_members answer.now) }
{
    match answer {
        Ok(outcome) => push_result_members(text, outcome),
        Err(fault) => push_refusal_member(text, *fault),
    }
}

fn push_reply_value(text: &mut Vec<u8>, hides: bool, reply: &Reply) -> Result<(), AllocError>
    ensures { OnOk result (text.new.items ≡ text.old.items ++ reply_value hides reply.now) }
{
    if let Reply::Packet(_) = reply {
        let mut shown = Vec::new(*text.allocator());
        push_reply(&mut shown, hides, reply)?;
        return push_string(text, &shown);
    }
    text.extend_from_slice(b"null")?;
    Ok(())
}

/// An answer that is not compared.
pub(crate) fn push_answer_members(
    text: &mut Vec<u8>,
    redaction: &Redaction<'_>,
    answer: &Result<RunOutcome<'_>, RecordFault>,
) -> Result<(), AllocError>
    ensures { OnOk result (text.new.items
        ≡ text.old.items ++ answer_members redaction.now answer.now) }
{
    text.push(b',')?;
    match answer {
        Ok(outcome) => {
            let hides = hides_reply(redaction, outcome)?;
            push_result_members(text, outcome)?;
            text.extend_from_slice(b",\"reply\":")?;
            push_reply_value(text, hides, outcome.reply())
        }
        Err(fault) => push_refusal_member(text, *fault),
    }
}

// A line without so many blanks before it.
fn without_blanks(line: &[u8], blanks: usize) -> &[u8]
    ensures { result.now ≡ drop blanks line.now }
{
    &line[blanks.min(line.len())..]
}

fn push_line_string<'a>(
    strings: &mut Vec<&'a [u8]>,
    blanks: usize,
    line: &'a [u8],
) -> Result<(), AllocError>
    ensures { OnOk result (views strings.new.items
        ≡ views strings.old.items ++ map (drop blanks) (filter is_word (line.now ∷ []))) }
{
    if !line.is_empty() {
        strings.push(without_blanks(line, blanks))?;
    }
    Ok(())
}

// Lines without so many blanks before each.
fn line_strings(alloc: Global, blanks: usize, lines: &[u8]) -> Result<Vec<&[u8]>, AllocError>
    ensures { IfOk result (λ strings. views strings.items ≡ line_strings blanks lines.now) }
{
    let mut strings = Vec::new(alloc);
    let mut rest = lines;
    while let Some((line, later)) = first_line_end(rest) {
        push_line_string(&mut strings, blanks, line)?;
        rest = later;
    }
    push_line_string(&mut strings, blanks, rest)?;
    Ok(strings)
}

/// Lines that are indented so, below this name.
pub(crate) fn push_lines_member(
    text: &mut Vec<u8>,
    name: &[u8],
    blanks: usize,
    lines: &[u8],
) -> Result<(), AllocError>
    ensures { OnOk result (text.new.items
        ≡ text.old.items ++ lines_member name.now blanks lines.now) }
{
    text.extend_from_slice(b",\"")?;
    text.extend_from_slice(name)?;
    text.extend_from_slice(b"\":")?;
    let strings = line_strings(*text.allocator(), blanks, lines)?;
    push_strings(text, &strings)
}

// How the list of this name differs.
fn push_change_member(text: &mut Vec<u8>, name: &[u8], lines: &[u8]) -> Result<(), AllocError>
    ensures { OnOk result (text.new.items ≡ text.old.items ++ change_member name.now lines.now) }
{
    push_lines_member(text, name, 2, lines)
}

#[tactic(auto, unfolding(crate::specs::JsonEntries::reply_string))]
fn push_reply_name(text: &mut Vec<u8>, code: u8) -> Result<(), AllocError>
    ensures { OnOk result (text.new.items ≡ text.old.items ++ reply_string code) }
{
    push_string(text, reply_name(code))
}

#[tactic(auto, unfolding(crate::specs::JsonEntries::named_changes))]
fn push_named_changes(text: &mut Vec<u8>, code: u8, lines: &[u8]) -> Result<(), AllocError>
    ensures { OnOk result (text.new.items ≡ text.old.items ++ named_changes code lines.now) }
{
    push_reply_name(text, code)?;
    push_change_member(text, b"reply_changes", lines)
}

// The list of the reply that was captured, where it is shown.
fn push_captured_list_member(
    comparison: &Comparison<'_>,
    text: &mut Vec<u8>,
    dictionary: &Dictionary,
    redaction: &Redaction<'_>,
    captured: &Packet,
) -> Result<(), AllocError>
    requires { PacketFits dictionary.now captured.now }
    ensures { OnOk result (text.new.items ≡ text.old.items
        ++ captured_list_member redaction.now dictionary.now comparison.now captured.now) }
{
    if !comparison.shows_replies {
        return Ok(());
    }
    let lines = captured_lines(*text.allocator(), dictionary, redaction, captured)?;
    push_lines_member(text, b"captured_list", 4, &lines)
}

// That reply.
#[tactic(auto, unfolding(crate::specs::JsonEntries::captured_member))]
fn push_captured_member(
    comparison: &Comparison<'_>,
    text: &mut Vec<u8>,
    dictionary: &Dictionary,
    redaction: &Redaction<'_>,
    captured: &Packet,
) -> Result<(), AllocError>
    requires { PacketFits dictionary.now captured.now }
    ensures { OnOk result (text.new.items ≡ text.old.items
        ++ captured_member redaction.now dictionary.now comparison.now captured.now) }
{
    text.extend_from_slice(b",\"captured\":")?;
    push_reply_name(text, captured.code)?;
    push_captured_list_member(comparison, text, dictionary, redaction, captured)
}

fn push_change_members_of_ends(
    comparison: &Comparison<'_>,
    text: &mut Vec<u8>,
    printer: &Printer<'_>,
    old: &RunOutcome<'_>,
    new: &RunOutcome<'_>,
) -> Result<(), AllocError>
    requires old { old.now.dictionary ≡ printer.now.old.now }
    requires new { new.now.dictionary ≡ printer.now.new.now }
    ensures { OnOk result (text.new.items ≡ text.old.items
        ++ change_members printer.now.redaction.now comparison.now (Ok old.now) (Ok new.now)) }
{
    let alloc = *text.allocator();
    let reply = comparison.change_of(alloc, printer, List::Reply, old, new)?;
    let control = comparison.change_of(alloc, printer, List::Control, old, new)?;
    push_change_member(text, b"reply_changes", &reply)?;
    push_change_member(text, b"control_changes", &control)
}

// How the reply and control lists differ, where both ran.
fn push_change_members(
    comparison: &Comparison<'_>,
    text: &mut Vec<u8>,
    printer: &Printer<'_>,
    old: &Result<RunOutcome<'_>, RecordFault>,
    new: &Result<RunOutcome<'_>, RecordFault>,
) -> Result<(), AllocError>
    requires old { IsOver printer.now.old.now old.now }
    requires new { IsOver printer.now.new.now new.now }
    ensures { OnOk result (text.new.items
        ≡ text.old.items ++ change_members printer.now.redaction.now comparison.now old.now new.now) }
{
    if let Ok(old) = old {
        if let Ok(new) = new {
            return push_change_members_of_ends(comparison, text, printer, old, new);
        }
    }
    Ok(())
}

// A record that two policies answer otherwise.
fn push_difference_members(
    comparison: &Comparison<'_>,
    text: &mut Vec<u8>,
    printer: &Printer<'_>,
    old: &Result<RunOutcome<'_>, RecordFault>,
    new: &Result<RunOutcome<'_>, RecordFault>,
) -> Result<(), AllocError>
    requires old { IsOver printer.now.old.now old.now }
    requires new { IsOver printer.now.new.now new.now }
    ensures { OnOk result (text.new.items
        ≡ text.old.items ++ difference_members printer.now.redaction.now comparison.now old.now new.now) }
{
    text.extend_from_slice(b",\"old\":{")?;
    push_end_members(text, old)?;
    text.extend_from_slice(b"},\"new\":{")?;
    push_end_members(text, new)?;
    text.extend_from_slice(b"}")?;
    push_change_members(comparison, text, printer, old, new)
}

/// The answers of two policies, and what became of their record.
#[tactic(auto, unfolding(crate::specs::JsonEntries::answers_members, radpolicy_record_answers::specs::Differences::verdict_of_answers))]
pub(crate) fn push_answers_members(
    comparison: &Comparison<'_>,
    text: &mut Vec<u8>,
    printer: &Printer<'_>,
    old: &Result<RunOutcome<'_>, RecordFault>,
    new: &Result<RunOutcome<'_>, RecordFault>,
) -> Result<Verdict, AllocError>
    requires old { IsOver printer.now.old.now old.now }
    requires new { IsOver printer.now.new.now new.now }
    ensures text { OnOk result (text.new.items
        ≡ text.old.items ++ answers_members printer.now.redaction.now comparison.now old.now new.now) }
    ensures verdict { IfOk result (λ verdict.
        verdict ≡ verdict_of_answers comparison.now old.now new.now) }
{
    if comparison.same_answers(*text.allocator(), old, new)? {
        text.push(b',')?;
        push_end_members(text, new)?;
        return Ok(verdict_of_same(new));
    }
    push_difference_members(comparison, text, printer, old, new)?;
    Ok(Verdict::Different)
}

// How the policy's own reply differs.
fn push_own_reply(
    comparison: &Comparison<'_>,
    text: &mut Vec<u8>,
    printer: &Printer<'_>,
    captured: &Packet,
    own: &Packet,
) -> Result<(), AllocError>
    requires captured { PacketFits printer.now.old.now captured.now }
    requires own { PacketFits printer.now.new.now own.now }
    ensures { OnOk result (text.new.items ≡ text.old.items ++ own_reply_members
        (removed_line printer.now.old.now printer.now.redaction.now)
        (added_line printer.now.new.now printer.now.redaction.now) comparison.now captured.now own.now) }
{
    let lines = comparison.packets_lines(*text.allocator(), printer, captured, own)?;
    push_named_changes(text, own.code, &lines)
}

// The same, where it sends one.
fn push_own_members(
    comparison: &Comparison<'_>,
    text: &mut Vec<u8>,
    dictionary: &Dictionary,
    redaction: &Redaction<'_>,
    captured: &Packet,
    own: &Option<Packet>,
) -> Result<(), AllocError>
    requires captured { PacketFits dictionary.now captured.now }
    requires own { OwnFits dictionary.now own.now }
    ensures { OnOk result (text.new.items ≡ text.old.items
        ++ own_members redaction.now dictionary.now comparison.now captured.now own.now) }
{
    let Some(own) = own else {
        text.extend_from_slice(b"null")?;
        return Ok(());
    };
    let printer = Printer {
        old: dictionary,
        new: dictionary,
        redaction,
    };
    push_own_reply(comparison, text, &printer, captured, own)
}

fn push_other_members(
    comparison: &Comparison<'_>,
    text: &mut Vec<u8>,
    dictionary: &Dictionary,
    redaction: &Redaction<'_>,
    captured: &Packet,
    own: &Option<Packet>,
) -> Result<(), AllocError>
    requires captured { PacketFits dictionary.now captured.now }
    requires own { OwnFits dictionary.now own.now }
    ensures { OnOk result (text.new.items ≡ text.old.items
        ++ other_members redaction.now dictionary.now comparison.now captured.now own.now) }
{
    push_captured_member(comparison, text, dictionary, redaction, captured)?;
    text.extend_from_slice(b",\"own\":")?;
    push_own_members(comparison, text, dictionary, redaction, captured, own)
}

// Two replies, and what became of their record.
#[tactic(auto, unfolding(crate::specs::JsonEntries::replies_members, radpolicy_record_answers::specs::Captured::verdict_of_replies))]
fn push_both_members(
    comparison: &Comparison<'_>,
    text: &mut Vec<u8>,
    dictionary: &Dictionary,
    redaction: &Redaction<'_>,
    captured: &Packet,
    own: &Option<Packet>,
) -> Result<Verdict, AllocError>
    requires captured { PacketFits dictionary.now captured.now }
    requires own { OwnFits dictionary.now own.now }
    ensures text { OnOk result (text.new.items ≡ text.old.items
        ++ replies_members redaction.now dictionary.now comparison.now (Both captured.now own.now)) }
    ensures verdict { IfOk result (λ verdict.
        verdict ≡ verdict_of_replies comparison.now (Both captured.now own.now)) }
{
    if comparison.same_replies(*text.allocator(), captured, own)? {
        push_captured_member(comparison, text, dictionary, redaction, captured)?;
        return Ok(Verdict::Same);
    }
    push_other_members(comparison, text, dictionary, redaction, captured, own)?;
    Ok(Verdict::Different)
}

/// The reply that was captured and the policy's own, and what became of their record.
#[tactic(auto, unfolding(crate::specs::JsonEntries::replies_members, radpolicy_record_answers::specs::Captured::verdict_of_replies))]
pub(crate) fn push_replies_members(
    comparison: &Comparison<'_>,
    text: &mut Vec<u8>,
    dictionary: &Dictionary,
    redaction: &Redaction<'_>,
    replies: &Replies,
) -> Result<Verdict, AllocError>
    requires { RepliesFit dictionary.now replies.now }
    ensures text { OnOk result (text.new.items
        ≡ text.old.items ++ replies_members redaction.now dictionary.now comparison.now replies.now) }
    ensures verdict { IfOk result (λ verdict.
        verdict ≡ verdict_of_replies comparison.now replies.now) }
{
    match replies {
        Replies::Refused(fault) => {
            text.push(b',')?;
            push_refusal_member(text, *fault)?;
            Ok(Verdict::Refused)
        }
        Replies::Unanswered => Ok(Verdict::Unanswered),
        Replies::Unread(fault) => {
            text.push(b',')?;
            push_unread_member(text, *fault)?;
            Ok(Verdict::Refused)
        }
        Replies::Challenge => Ok(Verdict::Challenged),
        Replies::Both { captured, own } => {
            push_both_members(comparison, text, dictionary, redaction, captured, own)
        }
    }
}
