//! What is said of a record as JSON.

ghost use Rattle.std.specs.Prelude.{◌≡◌, ◌++◌, IfOk, None, OnOk, Some};
ghost use Rattle.radpolicy_replay_records.specs.JsonEntries.{has_line, is_told, json_line, line_if, verdict_text};
ghost use Rattle.radpolicy_replay_records.specs.internal.Running.{AreFor, AreOf};
ghost use Rattle.radpolicy_replay_records.specs.Replays.{compared_members, compared_verdict, entry_json, members_by, taken_verdict, verdict_on};
ghost use Rattle.radpolicy_record_answers.specs.declared.comparisons.Against.TheVariants.{Captured, Policy};

use crate::headings::{name_of, push_request_member};
use crate::json_members::{push_answer_members, push_answers_members, push_replies_members};
use crate::replays::Replay;
use crate::runners::Runners;
use radpolicy::PreparedPolicy;
use radpolicy_record_answers::{
    Against, Comparison, Entry, Printer, RecordSecret, Told, Verdict, answer_over, entry_answer,
    entry_replies,
};
use radpolicy_replay_layouts::push_string;
use std::alloc::AllocError;

fn verdict_text(verdict: Verdict) -> &'static [u8]
    ensures { result.now ≡ verdict_text verdict }
{
    match verdict {
        Verdict::Answered => b"answered",
        Verdict::Same => b"same",
        Verdict::Different => b"different",
        Verdict::Unanswered => b"unanswered",
        Verdict::Challenged => b"challenged",
        Verdict::Refused => b"refused",
        Verdict::LeftOut => b"left out",
    }
}

// A record of this name, of which that became, with these members.
fn push_json_line(
    text: &mut Vec<u8>,
    name: &[u8],
    verdict: Verdict,
    members: &[u8],
) -> Result<(), AllocError>
    ensures { OnOk result (text.new.items
        ≡ text.old.items ++ json_line name.now verdict members.now) }
{
    text.extend_from_slice(b"{\"record\":")?;
    push_string(text, name)?;
    text.extend_from_slice(b",\"verdict\":")?;
    push_string(text, verdict_text(verdict))?;
    text.extend_from_slice(members)?;
    text.extend_from_slice(b"}\n")?;
    Ok(())
}

fn is_told(told: Told, verdict: Verdict) -> bool
    ensures { result ≡ is_told told verdict }
{
    match (told, verdict) {
        (Told::All, _) | (Told::Different, Verdict::Different) => true,
        (Told::Different, _) => false,
    }
}

// Whether a record has a line of which this became.
fn has_line(comparison: &Option<Comparison<'_>>, verdict: Verdict) -> bool
    ensures { result ≡ has_line comparison.now verdict }
{
    match comparison {
        None => true,
        Some(comparison) => is_told(comparison.told, verdict),
    }
}

impl<'a> Replay<'a> {
    fn push_members_alone<'b>(
        &'b self,
        text: &mut Vec<u8>,
        runners: &mut Runners<'a>,
        secret: &'b RecordSecret<'b>,
        entry: &Entry,
    ) -> Result<Verdict, AllocError>
        requires runners { runners.old.own ≡ self.now.policy.now }
        ensures text { OnOk result (text.new.items
            ≡ text.old.items ++ members_by self.now None secret.now entry.now) }
        ensures verdict { IfOk result (λ verdict.
            verdict ≡ verdict_on self.now None secret.now entry.now) }
        ensures kept { runners.new ≡ runners.old }
    {
        let answer = entry_answer(*text.allocator(), &mut runners.own, secret, entry)?;
        push_answer_members(text, self.redaction, &answer)?;
        match answer {
            Ok(_) => Ok(Verdict::Answered),
            Err(_) => Ok(Verdict::Refused),
        }
    }

    fn push_members_beside_policy<'b>(
        &'b self,
        text: &mut Vec<u8>,
        runners: &mut Runners<'a>,
        comparison: &'b Comparison<'b>,
        against: &'b PreparedPolicy<'b>,
        secret: &'b RecordSecret<'b>,
        entry: &Entry,
    ) -> Result<Verdict, AllocError>
        requires runners { (runners.old.own ≡ self.now.policy.now)
            × (runners.old.beside ≡ against.now) }
        ensures text { OnOk result (text.new.items ≡ text.old.items ++ compared_members self.now
            comparison.now (Policy against.entry) secret.now entry.now) }
        ensures verdict { IfOk result (λ verdict. verdict ≡ compared_verdict self.now
            comparison.now (Policy against.entry) secret.now entry.now) }
        ensures kept { runners.new ≡ runners.old }
    {
        let alloc = *text.allocator();
        let old = answer_over(alloc, &mut runners.beside, secret, entry)?;
        let new = answer_over(alloc, &mut runners.own, secret, entry)?;
        let printer = Printer {
            old: against.dictionary(),
            new: self.policy.dictionary(),
            redaction: self.redaction,
        };
        push_answers_members(comparison, text, &printer, &old, &new)
    }

    fn push_members_beside_captured<'b>(
        &'b self,
        text: &mut Vec<u8>,
        runners: &mut Runners<'a>,
        comparison: &'b Comparison<'b>,
        secret: &'b RecordSecret<'b>,
        entry: &Entry,
    ) -> Result<Verdict, AllocError>
        requires runners { runners.old.own ≡ self.now.policy.now }
        ensures text { OnOk result (text.new.items ≡ text.old.items
            ++ compared_members self.now comparison.now Captured secret.now entry.now) }
        ensures verdict { IfOk result (λ verdict. verdict
            ≡ compared_verdict self.now comparison.now Captured secret.now entry.now) }
        ensures kept { runners.new ≡ runners.old }
    {
        let replies = entry_replies(*text.allocator(), &mut runners.own, secret, entry)?;
        let dictionary = self.policy.dictionary();
        push_replies_members(comparison, text, dictionary, self.redaction, &replies)
    }

    fn push_members_compared<'b>(
        &'b self,
        text: &mut Vec<u8>,
        runners: &mut Runners<'a>,
        comparison: &'b Comparison<'b>,
        secret: &'b RecordSecret<'b>,
        entry: &Entry,
    ) -> Result<Verdict, AllocError>
        requires runners { AreFor self.now (Some comparison.now) runners.old }
        ensures text { OnOk result (text.new.items ≡ text.old.items
            ++ members_by self.now (Some comparison.now) secret.now entry.now) }
        ensures verdict { IfOk result (λ verdict.
            verdict ≡ verdict_on self.now (Some comparison.now) secret.now entry.now) }
        ensures kept { runners.new ≡ runners.old }
    {
        match &comparison.against {
            Against::Policy(against) => {
                self.push_members_beside_policy(text, runners, comparison, *against, secret, entry)
            }
            Against::Captured => {
                self.push_members_beside_captured(text, runners, comparison, secret, entry)
            }
        }
    }

    // What the object of a record has besides its name.
    #[tactic(auto, unfolding(crate::specs::Replays::taken_verdict))]
    fn push_members<'b>(
        &'b self,
        text: &mut Vec<u8>,
        runners: &mut Runners<'a>,
        secret: &'b RecordSecret<'b>,
        entry: &Entry,
    ) -> Result<Verdict, AllocError>
        requires runners { AreOf self.now runners.old }
        ensures text { OnOk result (text.new.items
            ≡ text.old.items ++ members_by self.now self.now.comparison secret.now entry.now) }
        ensures verdict { IfOk result (λ verdict.
            verdict ≡ taken_verdict self.now secret.now entry.now) }
        ensures kept { runners.new ≡ runners.old }
    {
        match &self.comparison {
            None => self.push_members_alone(text, runners, secret, entry),
            Some(comparison) => self.push_members_compared(
                text, runners, comparison, secret, entry,
            ),
        }
    }

    /// What is said of a record, as JSON.
    pub(crate) fn push_json<'b>(
        &'b self,
        text: &mut Vec<u8>,
        runners: &mut Runners<'a>,
        number: u64,
        secret: &'b RecordSecret<'b>,
        entry: &Entry,
    ) -> Result<Verdict, AllocError>
        requires runners { AreOf self.now runners.old }
        ensures text { OnOk result (text.new.items
            ≡ text.old.items ++ entry_json self.now number secret.now entry.now) }
        ensures verdict { IfOk result (λ verdict.
            verdict ≡ taken_verdict self.now secret.now entry.now) }
        ensures kept { runners.new ≡ runners.old }
    {
        let alloc = *text.allocator();
        let name = name_of(alloc, number, entry)?;
        let mut members = Vec::new(alloc);
        push_request_member(&mut members, &self.shown, secret, entry)?;
        let verdict = self.push_members(&mut members, runners, secret, entry)?;
        if has_line(&self.comparison, verdict) {
            push_json_line(text, &name, verdict, &members)?;
        }
        Ok(verdict)
    }
}
