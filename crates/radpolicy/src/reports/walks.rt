//! A walk by a script, and its report.

ghost use Rattle.std.specs.Prelude.{◌≡◌, ◌++◌, IfOk, OnOk, codes, decimal};
ghost use Rattle.avp_step.specs.Walk.{walk_from};
ghost use Rattle.radpolicy.specs.JobReports.{step_report};
ghost use Rattle.radpolicy.specs.Starts.{entry_of};
ghost use Rattle.radpolicy.specs.Scripts.{after_script, after_script_word, label_text, move_line, moved, script_text, stays_text, truth_text, word_text};

use crate::jobs::Outcome;
use crate::reports::Report;
use crate::reports::texts::{code_text, push_lists};
use crate::scripts::ScriptWord;
use crate::starts::Start;
use avp_dict::Dictionary;
use avp_forms::Profile;
use avp_lists::Store;
use avp_step::{Label, Move, Stepper};
use itoa::Buffer;
use std::alloc::{AllocError, Global};

fn push_number(text: &mut Vec<u8>, number: usize) -> Result<(), AllocError>
    ensures { OnOk result (text.new.items ≡ text.old.items ++ decimal number) }
{
    let mut digits = Buffer::new();
    text.extend_from_slice(digits.format(number).as_bytes())?;
    Ok(())
}

// A word, and the line of the policy's text.
fn push_numbered(text: &mut Vec<u8>, word: &str, line: usize) -> Result<(), AllocError>
    ensures { OnOk result (text.new.items ≡ text.old.items ++ word.now ++ codes " "
        ++ decimal line) }
{
    text.extend_from_slice(word.as_bytes())?;
    text.extend_from_slice(b" ")?;
    push_number(text, line)?;
    Ok(())
}

fn truth_text(truth: bool) -> &'static str
    ensures { result.now ≡ truth_text truth }
{
    if truth { "true" } else { "false" }
}

/// Appends the words of a step's label, as the reports of `step` have them: `line 3 failed P1`.
pub fn push_label(text: &mut Vec<u8>, label: Label) -> Result<(), AllocError>
    ensures { OnOk result (text.new.items ≡ text.old.items ++ label_text label) }
{
    match label {
        Label::Start => text.extend_from_slice(b"start")?,
        Label::Line(line) => push_numbered(text, "line", line)?,
        Label::Failed(line, reason) => {
            push_numbered(text, "line", line)?;
            text.extend_from_slice(b" failed P")?;
            push_number(text, usize::from(reason))?;
        }
        Label::If(line, truth) => {
            push_numbered(text, "if", line)?;
            text.extend_from_slice(b" ")?;
            text.extend_from_slice(truth_text(truth).as_bytes())?;
        }
        Label::Word(line) => push_numbered(text, "word", line)?,
        Label::Enter(line) => push_numbered(text, "enter", line)?,
        Label::Commit(line) => push_numbered(text, "commit", line)?,
        Label::Rollback(line) => push_numbered(text, "rollback", line)?,
    }
    Ok(())
}

// Said where the position did not change.
fn push_stays(text: &mut Vec<u8>, stays: bool) -> Result<(), AllocError>
    ensures { OnOk result (text.new.items ≡ text.old.items ++ stays_text stays) }
{
    if stays {
        text.extend_from_slice(b" stays")?;
    }
    Ok(())
}

// The line of a move from this position.
fn push_move<S: Store>(
    text: &mut Vec<u8>,
    before: usize,
    stepper: &Stepper<'_, S>,
) -> Result<(), AllocError>
    ensures { OnOk result (text.new.items ≡ text.old.items ++ move_line before stepper.now) }
{
    push_number(text, stepper.position())?;
    text.extend_from_slice(b" ")?;
    push_label(text, stepper.label())?;
    text.extend_from_slice(b" ")?;
    text.extend_from_slice(code_text(stepper.code()).as_bytes())?;
    push_stays(text, stepper.position() == before)?;
    text.extend_from_slice(b"\n")?;
    Ok(())
}

// One move, unless memory is short.
fn make_move<S: Store>(stepper: &mut Stepper<'_, S>, step: Move) -> Result<(), AllocError>
    ensures { OnOk result (stepper.new ≡ moved step stepper.old) }
{
    match step {
        Move::Forward => {
            let _ = stepper.forward()?;
        }
        Move::Back => {
            let _ = stepper.back();
        }
        Move::Start => stepper.to_start(),
        Move::End => stepper.run_to_end()?,
    }
    Ok(())
}

// One word of the script.
fn push_word<S: Store>(
    text: &mut Vec<u8>,
    dictionary: &Dictionary,
    profile: Profile,
    stepper: &mut Stepper<'_, S>,
    word: ScriptWord,
) -> Result<(), AllocError>
    requires { stepper.old.dictionary ≡ dictionary.now }
    ensures text { OnOk result (text.new.items
        ≡ text.old.items ++ word_text profile word stepper.old) }
    ensures after { OnOk result (stepper.new ≡ after_script_word word stepper.old) }
{
    match word {
        ScriptWord::Make(step) => {
            let before = stepper.position();
            make_move(stepper, step)?;
            push_move(text, before, stepper)?;
        }
        ScriptWord::Show => push_lists(text, dictionary, profile, stepper.store())?,
    }
    Ok(())
}

// All words of the script.
#[tactic(auto, unfolding(crate::specs::Scripts::script_text))]
fn push_script<S: Store>(
    text: &mut Vec<u8>,
    dictionary: &Dictionary,
    profile: Profile,
    stepper: &mut Stepper<'_, S>,
    script: &[ScriptWord],
) -> Result<(), AllocError>
    requires { stepper.old.dictionary ≡ dictionary.now }
    ensures text { OnOk result (text.new.items ≡ text.old.items
        ++ script_text profile script.now stepper.old) }
    ensures after { OnOk result (stepper.new ≡ after_script script.now stepper.old) }
{
    let mut rest = script;
    while let Some((word, others)) = rest.split_first() {
        push_word(text, dictionary, profile, stepper, *word)?;
        rest = others;
    }
    Ok(())
}

/// The report of a walk by a script over a run.
pub(crate) fn report_of_walk(
    alloc: Global,
    script: &[ScriptWord],
    start: Start<'_>,
) -> Result<Report, AllocError>
    ensures { IfOk result (λ report. step_report start.entry.prepared.profile script.now
        (walk_from start.entry.prepared.dictionary start.entry.prepared.statements
        (entry_of start.entry)) ≡ report) }
{
    let dictionary = start.dictionary();
    let profile = start.profile();
    let mut stepper = start.stepper(alloc)?;
    let mut text = Vec::new(alloc);
    push_script(&mut text, dictionary, profile, &mut stepper, script)?;
    let outcome = Outcome {
        code: Some(stepper.code()),
        stopped: stepper.stopped(),
    };
    Ok(Report::new(text, outcome))
}
