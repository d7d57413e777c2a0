//! RADIUS attribute policy: a policy that is read once and run on requests ([`PreparedPolicy`], [`Start`]); a job over
//! one request, its report, and the faults for which it is refused ([`answer`]); the command line that asks for a job.
#![tactic(auto)]

mod answers;
mod command_line;
mod fault_lines;
mod faults;
mod heads;
mod inputs;
mod jobs;
mod outputs;
mod plans;
mod prepared;
mod refused_words;
mod replies;
mod reports;
mod requests;
mod run_outcomes;
mod runners;
mod scripts;
mod secrets;
mod starts;

pub use answers::answer;
pub use command_line::{help_text, read_words, word_fault};
pub use fault_lines::{print_fault, print_named_fault};
pub use faults::{Fault, status};
pub use heads::{RequestHead, RequestKind};
pub use inputs::{MAX_INPUT_OCTETS, read_input, read_input_with_room};
pub use jobs::{Command, Form, Job, Outcome};
pub use outputs::{Output, OutputError, WriteOutput, put_all};
pub use plans::Plan;
pub use prepared::{OwnedPolicy, PreparedPolicy};
pub use refused_words::option_text;
pub use reports::texts::code_text;
pub use reports::walks::push_label;
pub use requests::hex_octets;
pub use run_outcomes::{Reply, RunOutcome};
pub use runners::Runner;
pub use secrets::Secret;
pub use starts::Start;
