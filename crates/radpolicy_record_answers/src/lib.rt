//! What records of traffic say, what a policy answers to them, and how two answers differ.
#![tactic(auto)]

mod answers;
mod captured;
mod captured_lists;
mod comparisons;
mod differences;
mod entries;
mod found_records;
mod log_servers;
mod packet_lines;
mod record_lines;
mod records;
mod requests;
mod shown_requests;
mod text_entries;
mod unmade_replies;
mod verdicts;

pub use answers::{RecordFault, answer, hides_reply, push_outcome, push_refusal, push_reply};
pub use captured::{
    CapturedFault, CapturedReply, Replies, entry_replies, push_captured_fault, replies_to,
    reply_name,
};
pub use captured_lists::captured_lines;
pub use comparisons::{Against, Comparison, Order, Told, compared, same_lists};
pub use differences::{Printer, verdict_of_same};
pub use entries::{Entry, answer_over, entry_answer, entry_of_line};
pub use found_records::{AskedRecord, RecordedRequest, Search, find_record, search_text};
pub use log_servers::LogServers;
pub use record_lines::run_of;
pub use records::{
    MAX_LINE_OCTETS, is_packet_word, line_identifier, push_name, request_octets, source_of,
};
pub use requests::{RecordRequest, RecordSecret};
pub use shown_requests::{Shown, push_in_row};
pub use text_entries::{entry_of_record, text_identifier, text_source};
pub use verdicts::Verdict;
