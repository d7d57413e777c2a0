//! The reports of jobs, and their texts.

ghost use Rattle.std.specs.Prelude.{◌≡◌};
ghost use Rattle.radpolicy.specs.Reports.{plain_report};

pub mod checks;
pub mod runs;
pub mod texts;
pub mod walks;

use crate::jobs::Outcome;
use std::marker::Model;

/// A report: its text, and what the job came to.
#[derive(Debug, Drop)]
pub(crate) struct Report {
    text: Vec<u8>,
    outcome: Outcome,
}

impl Model for Report {
    ghost use Rattle.radpolicy.specs.Reports.{Report as Shown};

    ghost Value = { Shown };

    ghost view = { λ report. record { text = report.text.items; outcome = report.outcome } };
}

impl Report {
    pub(crate) fn new(text: Vec<u8>, outcome: Outcome) -> Report
        ensures { result ≡ record { text = text.items; outcome = outcome } }
    {
        Report { text, outcome }
    }

    pub(crate) fn text(&self) -> &[u8]
        ensures { result.now ≡ self.now.text }
    {
        self.text.as_slice()
    }

    pub(crate) fn outcome(&self) -> Outcome
        ensures { result ≡ self.now.outcome }
    {
        self.outcome
    }
}

/// The report of a job that runs no policy.
pub(crate) fn plain_report(text: Vec<u8>) -> Report
    ensures { result ≡ plain_report text.items }
{
    let outcome = Outcome {
        code: None,
        stopped: false,
    };
    Report::new(text, outcome)
}
