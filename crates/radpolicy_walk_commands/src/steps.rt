//! The steps of a run, and the positions that are looked for among them.

ghost use Rattle.std.specs.Prelude.{◌≡◌, ◌<◌, ◌≤◌, length};
ghost use Rattle.std.specs.List.{position};
ghost use Rattle.radpolicy_walk_commands.specs.Steps.{has_step_on, is_failure, is_on, is_on_one_of, is_refusal, line_of, next_where, previous_where};

use avp_step::Label;
use avp_unlang::Code;

/// What the step before a position did, and the last code there.
#[derive(Clone, Copy, Debug, PartialEq, Eq)]
pub struct Step {
    pub label: Label,
    pub code: Code,
}

/// The line of the policy's text that a step is on; the start is on none.
pub fn line_of(label: Label) -> Option<usize>
    ensures { result ≡ line_of label }
{
    match label {
        Label::Start => None,
        Label::Line(line)
        | Label::Failed(line, _)
        | Label::If(line, _)
        | Label::Word(line)
        | Label::Enter(line)
        | Label::Commit(line)
        | Label::Rollback(line) => Some(line),
    }
}

fn is_refusal(code: Code) -> bool
    ensures { result ≡ is_refusal code }
{
    match code {
        Code::Fail | Code::Reject => true,
        Code::Ok | Code::Noop | Code::Updated => false,
    }
}

fn is_failure(step: &Step) -> bool
    ensures { result ≡ is_failure step.now }
{
    match step.label {
        Label::Failed(_, _) | Label::Rollback(_) => true,
        Label::Word(_) => is_refusal(step.code),
        Label::Start | Label::Line(_) | Label::If(_, _) | Label::Enter(_) | Label::Commit(_) => {
            false
        }
    }
}

/// Whether a step is on one of these lines.
pub(crate) fn is_on_one_of(lines: &[usize], step: &Step) -> bool
    ensures { result ≡ is_on_one_of lines.now step.now }
{
    match line_of(step.label) {
        Some(line) => lines.contains(&line),
        None => false,
    }
}

fn is_on(line: usize, step: &Step) -> bool
    ensures { result ≡ is_on line step.now }
{
    line_of(step.label) == Some(line)
}

fn first_on(lines: &[usize], steps: &[Step]) -> Option<usize>
    ensures { result ≡ position (is_on_one_of lines.now) steps.now }
{
    steps.iter().position(|step| is_on_one_of(lines, step))
}

fn first_failure(steps: &[Step]) -> Option<usize>
    ensures { result ≡ position is_failure steps.now }
{
    steps.iter().position(|step| is_failure(step))
}

/// The next position of a step on one of these lines, else the last one.
#[tactic(auto, using(crate::proofs::Positions::next_found, crate::proofs::Positions::next_none))]
pub(crate) fn next_on(lines: &[usize], steps: &[Step], from: usize) -> usize
    requires { from < length steps.now }
    ensures value { result ≡ next_where (is_on_one_of lines.now) steps.now from }
    ensures within { result < length steps.now }
{
    match first_on(lines, &steps[from + 1..]) {
        Some(count) => from + 1 + count,
        None => steps.len() - 1,
    }
}

/// The next position of a failure, else the last one.
#[tactic(auto, using(crate::proofs::Positions::next_found, crate::proofs::Positions::next_none))]
pub(crate) fn next_failure(steps: &[Step], from: usize) -> usize
    requires { from < length steps.now }
    ensures value { result ≡ next_where is_failure steps.now from }
    ensures within { result < length steps.now }
{
    match first_failure(&steps[from + 1..]) {
        Some(count) => from + 1 + count,
        None => steps.len() - 1,
    }
}

/// The nearest earlier position of a step on one of these lines, else the start.
#[tactic(auto, using(crate::proofs::Positions::previous_here, crate::proofs::Positions::previous_earlier, crate::proofs::Positions::previous_start))]
pub(crate) fn previous_on(lines: &[usize], steps: &[Step], from: usize) -> usize
    requires { from < length steps.now }
    ensures value { result ≡ previous_where (is_on_one_of lines.now) steps.now from }
    ensures within { result ≤ from }
{
    let mut at = from;
    while at > 0 {
        at -= 1;
        if is_on_one_of(lines, &steps[at]) {
            return at;
        }
    }
    0
}

/// Whether a step of the run is on this line.
pub fn has_step_on(steps: &[Step], line: usize) -> bool
    ensures { result ≡ has_step_on line steps.now }
{
    steps.iter().any(|step| is_on(line, step))
}

/// Whether a step after this position is a failure.
pub fn fails_after(steps: &[Step], from: usize) -> bool {
    steps.iter().skip(from).skip(1).any(|step| is_failure(step))
}

/// The line that is nearest to this one, of those that a step of the run is on.
pub fn nearest_line(steps: &[Step], line: usize) -> Option<usize> {
    let mut nearest: Option<usize> = None;
    for step in steps {
        let Some(own) = line_of(step.label) else {
            continue;
        };
        match nearest {
            Some(other) if other.abs_diff(line) <= own.abs_diff(line) => {}
            _ => nearest = Some(own),
        }
    }
    nearest
}
