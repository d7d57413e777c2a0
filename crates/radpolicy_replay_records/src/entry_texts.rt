//! What is said of records, as lines or as tests.

ghost use Rattle.std.specs.Prelude.{◌≡◌, ◌++◌, IfOk, None, OnOk, Some};
ghost use Rattle.radpolicy_record_answers.specs.Answers.{answer_shown};
ghost use Rattle.radpolicy_record_answers.specs.Requests.{answer_by};
ghost use Rattle.radpolicy_record_answers.specs.declared.comparisons.Against.TheVariants.{Captured, Policy};
ghost use Rattle.radpolicy_replay_records.specs.Headings.{name_of};
ghost use Rattle.radpolicy_replay_records.specs.Replays.{compared_text, compared_verdict, entry_text, entry_verdict, left_out_in, taken_text, taken_verdict, test_of, text_by, verdict_by, verdict_on};
ghost use Rattle.radpolicy_replay_records.specs.internal.Running.{AreFor, AreOf};

use crate::headings::{heading, name_of};
use crate::layouts::{Layout, has_passed, without_last};
use crate::replays::Replay;
use crate::runners::Runners;
use crate::taking::is_taken;
use radpolicy::PreparedPolicy;
use radpolicy_record_answers::{
    Against, Comparison, Entry, Printer, RecordSecret, Verdict, answer_over, entry_answer,
    entry_replies, push_outcome, push_refusal,
};
use radpolicy_replay_layouts::{push_skipped, push_test};
use std::alloc::AllocError;

impl<'a> Replay<'a> {
    // What is said of the answer to a record.
    fn push_answer<'b>(
        &'b self,
        text: &mut Vec<u8>,
        runners: &mut Runners<'a>,
        secret: &'b RecordSecret<'b>,
        entry: &Entry,
    ) -> Result<Verdict, AllocError>
        requires runners { runners.old.own ≡ self.now.policy.now }
        ensures text { OnOk result (text.new.items ≡ text.old.items
            ++ answer_shown self.now.redaction.now
            (answer_by self.now.policy.now secret.now entry.now.request)) }
        ensures verdict { IfOk result (λ verdict. verdict
            ≡ verdict_by (answer_by self.now.policy.now secret.now entry.now.request)) }
        ensures kept { runners.new ≡ runners.old }
    {
        match entry_answer(*text.allocator(), &mut runners.own, secret, entry)? {
            Ok(outcome) => {
                push_outcome(text, self.redaction, &outcome)?;
                Ok(Verdict::Answered)
            }
            Err(fault) => {
                push_refusal(text, fault)?;
                Ok(Verdict::Refused)
            }
        }
    }

    // The line of a record whose answer is not compared.
    fn push_answered<'b>(
        &'b self,
        text: &mut Vec<u8>,
        runners: &mut Runners<'a>,
        name: &[u8],
        secret: &'b RecordSecret<'b>,
        entry: &Entry,
    ) -> Result<Verdict, AllocError>
        requires runners { runners.old.own ≡ self.now.policy.now }
        ensures text { OnOk result (text.new.items
            ≡ text.old.items ++ text_by self.now None name.now secret.now entry.now) }
        ensures verdict { IfOk result (λ verdict.
            verdict ≡ verdict_on self.now None secret.now entry.now) }
        ensures kept { runners.new ≡ runners.old }
    {
        text.extend_from_slice(name)?;
        let verdict = self.push_answer(text, runners, secret, entry)?;
        text.extend_from_slice(b"\n")?;
        Ok(verdict)
    }

    // What is said of a record whose answer is compared with that of another policy.
    pub(crate) fn push_beside_policy<'b>(
        &'b self,
        text: &mut Vec<u8>,
        runners: &mut Runners<'a>,
        comparison: &'b Comparison<'b>,
        against: &'b PreparedPolicy<'b>,
        name: &[u8],
        secret: &'b RecordSecret<'b>,
        entry: &Entry,
    ) -> Result<Verdict, AllocError>
        requires runners { (runners.old.own ≡ self.now.policy.now)
            × (runners.old.beside ≡ against.now) }
        ensures text { OnOk result (text.new.items ≡ text.old.items ++ compared_text self.now
            comparison.now (Policy against.entry) name.now secret.now entry.now) }
        ensures verdict { IfOk result (λ verdict. verdict ≡ compared_verdict self.now
            comparison.now (Policy against.entry) secret.now entry.now) }
        ensures kept { runners.new ≡ runners.old }
    {
        let alloc = *text.allocator();
        let old = answer_over(alloc, &mut runners.beside, secret, entry)?;
        let new = answer_over(alloc, &mut runners.own, secret, entry)?;
        let printer = Printer {
            old: against.dictionary(),
            new: self.policy.dictionary(),
            redaction: self.redaction,
        };
        comparison.push_answers(text, &printer, name, &old, &new)
    }

    // What is said of a record whose answer is compared with the reply that was captured.
    pub(crate) fn push_beside_captured<'b>(
        &'b self,
        text: &mut Vec<u8>,
        runners: &mut Runners<'a>,
        comparison: &'b Comparison<'b>,
        name: &[u8],
        secret: &'b RecordSecret<'b>,
        entry: &Entry,
    ) -> Result<Verdict, AllocError>
        requires runners { runners.old.own ≡ self.now.policy.now }
        ensures text { OnOk result (text.new.items ≡ text.old.items
            ++ compared_text self.now comparison.now Captured name.now secret.now entry.now) }
        ensures verdict { IfOk result (λ verdict. verdict
            ≡ compared_verdict self.now comparison.now Captured secret.now entry.now) }
        ensures kept { runners.new ≡ runners.old }
    {
        let replies = entry_replies(*text.allocator(), &mut runners.own, secret, entry)?;
        let dictionary = self.policy.dictionary();
        comparison.push_replies(text, dictionary, self.redaction, name, &replies)
    }

    // What is said of a record whose answer is compared.
    fn push_compared<'b>(
        &'b self,
        text: &mut Vec<u8>,
        runners: &mut Runners<'a>,
        comparison: &'b Comparison<'b>,
        name: &[u8],
        secret: &'b RecordSecret<'b>,
        entry: &Entry,
    ) -> Result<Verdict, AllocError>
        requires runners { AreFor self.now (Some comparison.now) runners.old }
        ensures text { OnOk result (text.new.items ≡ text.old.items
            ++ text_by self.now (Some comparison.now) name.now secret.now entry.now) }
        ensures verdict { IfOk result (λ verdict.
            verdict ≡ verdict_on self.now (Some comparison.now) secret.now entry.now) }
        ensures kept { runners.new ≡ runners.old }
    {
        match &comparison.against {
            Against::Policy(against) => {
                self.push_beside_policy(text, runners, comparison, *against, name, secret, entry)
            }
            Against::Captured => {
                self.push_beside_captured(text, runners, comparison, name, secret, entry)
            }
        }
    }

    // What is said of a record, as it is.
    #[tactic(auto, unfolding(crate::specs::Replays::taken_verdict))]
    fn push_plain<'b>(
        &'b self,
        text: &mut Vec<u8>,
        runners: &mut Runners<'a>,
        name: &[u8],
        secret: &'b RecordSecret<'b>,
        entry: &Entry,
    ) -> Result<Verdict, AllocError>
        requires runners { AreOf self.now runners.old }
        ensures text { OnOk result (text.new.items
            ≡ text.old.items
            ++ text_by self.now self.now.comparison name.now secret.now entry.now) }
        ensures verdict { IfOk result (λ verdict.
            verdict ≡ taken_verdict self.now secret.now entry.now) }
        ensures kept { runners.new ≡ runners.old }
    {
        match &self.comparison {
            None => self.push_answered(text, runners, name, secret, entry),
            Some(comparison) => self.push_compared(text, runners, comparison, name, secret, entry),
        }
    }

    // The same as a test.
    fn push_test<'b>(
        &'b self,
        text: &mut Vec<u8>,
        runners: &mut Runners<'a>,
        strict: bool,
        number: u64,
        name: &[u8],
        secret: &'b RecordSecret<'b>,
        entry: &Entry,
    ) -> Result<Verdict, AllocError>
        requires runners { AreOf self.now runners.old }
        ensures text { OnOk result (text.new.items
            ≡ text.old.items ++ test_of self.now strict number name.now secret.now entry.now) }
        ensures verdict { IfOk result (λ verdict.
            verdict ≡ taken_verdict self.now secret.now entry.now) }
        ensures kept { runners.new ≡ runners.old }
    {
        let mut told = Vec::new(*text.allocator());
        let verdict = self.push_plain(&mut told, runners, name, secret, entry)?;
        let passed = has_passed(strict, verdict);
        push_test(text, passed, number, without_last(name), &told)?;
        Ok(verdict)
    }

    // What is said of a record that is taken.
    #[tactic(auto, unfolding(crate::specs::Replays::taken_text))]
    fn push_taken<'b>(
        &'b self,
        text: &mut Vec<u8>,
        runners: &mut Runners<'a>,
        number: u64,
        secret: &'b RecordSecret<'b>,
        entry: &Entry,
    ) -> Result<Verdict, AllocError>
        requires runners { AreOf self.now runners.old }
        ensures text { OnOk result (text.new.items
            ≡ text.old.items ++ taken_text self.now number secret.now entry.now) }
        ensures verdict { IfOk result (λ verdict.
            verdict ≡ taken_verdict self.now secret.now entry.now) }
        ensures kept { runners.new ≡ runners.old }
    {
        let name = heading(*text.allocator(), &self.shown, number, secret, entry)?;
        match self.layout {
            Layout::Plain => self.push_plain(text, runners, &name, secret, entry),
            Layout::Tests => self.push_test(text, runners, false, number, &name, secret, entry),
            Layout::StrictTests => {
                self.push_test(text, runners, true, number, &name, secret, entry)
            }
            Layout::Json => self.push_json(text, runners, number, secret, entry),
        }
    }

    // What is said of a record that is not taken.
    fn push_left_out(
        &self,
        text: &mut Vec<u8>,
        number: u64,
        entry: &Entry,
    ) -> Result<(), AllocError>
        ensures { OnOk result (text.new.items
            ≡ text.old.items ++ left_out_in self.now.layout number (name_of number entry.now)) }
    {
        match self.layout {
            Layout::Plain | Layout::Json => Ok(()),
            Layout::Tests | Layout::StrictTests => {
                let name = name_of(*text.allocator(), number, entry)?;
                push_skipped(text, number, &name)
            }
        }
    }

    /// Adds what is said of a record, and says what became of it.
    #[tactic(auto, unfolding(crate::specs::Replays::entry_text, crate::specs::Replays::entry_verdict))]
    pub(crate) fn push_entry<'b>(
        &'b self,
        text: &mut Vec<u8>,
        runners: &mut Runners<'a>,
        number: u64,
        secret: &'b RecordSecret<'b>,
        entry: &Entry,
    ) -> Result<Verdict, AllocError>
        requires runners { AreOf self.now runners.old }
        ensures text { OnOk result (text.new.items
            ≡ text.old.items ++ entry_text self.now number secret.now entry.now) }
        ensures verdict { IfOk result (λ verdict.
            verdict ≡ entry_verdict self.now secret.now entry.now) }
        ensures kept { runners.new ≡ runners.old }
    {
        if is_taken(self.only, entry) {
            return self.push_taken(text, runners, number, secret, entry);
        }
        self.push_left_out(text, number, entry)?;
        Ok(Verdict::LeftOut)
    }
}
