//! A run, from its start to its report.

ghost use Rattle.std.specs.Prelude.{◌≡◌, IfErr, IfOk, None, OnOk, Some, true};
ghost use Rattle.std.specs.Option.{option_map};
ghost use Rattle.avp_dict.specs.Sent.{is_clean};
ghost use Rattle.radpolicy.specs.Faults.{IsPrintedAnywhere, MemoryOr};
ghost use Rattle.radpolicy.specs.Replies.{proxy_states};
ghost use Rattle.radpolicy.specs.RunOutcomes.{OutcomeIsRead, outcome_of, outcome_report};
ghost use Rattle.radpolicy.specs.declared.faults.Fault.TheVariants as fault;

use crate::faults::Fault;
use crate::jobs::Outcome;
use crate::reports::Report;
use crate::starts::Start;
use std::alloc::Global;

/// The report of a run: the text of its outcome.
pub(crate) fn report_of_run(alloc: Global, start: Start<'_>) -> Result<Report, Fault>
    ensures ok { IfOk result (λ report.
        option_map outcome_report (outcome_of start.entry) ≡ Some report) }
    ensures refused { IfErr result (MemoryOr (λ f. (f ≡ fault.PacketTooLong)
        × (outcome_of start.entry ≡ None))) }
    ensures read { OnOk result
        (is_clean start.entry.reply start.entry.prepared.dictionary ≡ true
        → is_clean (proxy_states start.entry.request) start.entry.prepared.dictionary ≡ true
        → OutcomeIsRead start.entry) }
    ensures printed { IfErr result IsPrintedAnywhere }
{
    let ran = start.run(alloc)?;
    let outcome = Outcome {
        code: Some(ran.code()),
        stopped: ran.stopped(),
    };
    Ok(Report::new(ran.text(alloc)?, outcome))
}
