//! What C calls: a policy is read once and kept behind a handle, and run on any number of requests; a store of lists is
//! edited, and goes back.
#![tactic(auto)]

mod answers;
mod attribute_calls;
mod attributes;
mod dictionaries;
mod exports;
mod files;
mod handles;
mod held;
mod held_stores;
mod jobs;
mod kept_stores;
mod lines;
mod loose;
mod opening;
mod outcomes;
mod pairs;
mod requests;
mod runs;
mod shared;
mod statuses;
mod store_calls;
mod store_pairs;
mod stores;

pub use answers::Answered;
pub use attribute_calls::{radpolicy_attribute_name, radpolicy_attribute_named};
pub use attributes::RadpolicyAttribute;
pub use dictionaries::RadpolicyDictionary;
pub use exports::{
    radpolicy_answer, radpolicy_close, radpolicy_dictionary_close, radpolicy_dictionary_open,
    radpolicy_dictionary_share, radpolicy_open, radpolicy_policy_open, radpolicy_reply,
    radpolicy_run, radpolicy_run_pairs, radpolicy_share,
};
pub use files::RadpolicyFile;
pub use handles::RadpolicyPolicy;
pub use held::Held;
pub use held_stores::HeldStore;
pub use jobs::RadpolicyJob;
pub use kept_stores::KeptStore;
pub use opening::Opening;
pub use outcomes::{RadpolicyLists, RadpolicyOutcome};
pub use pairs::{RadpolicyPair, ToldLists, ToldPairs};
pub use requests::RadpolicyRequest;
pub use runs::{Ran, Wanted};
pub use shared::SharedPolicy;
pub use statuses::Status;
pub use store_calls::{
    radpolicy_store_close, radpolicy_store_count, radpolicy_store_edit, radpolicy_store_open,
    radpolicy_store_pair, radpolicy_store_place, radpolicy_store_redo, radpolicy_store_rollback,
    radpolicy_store_settle, radpolicy_store_undo,
};
pub use store_pairs::{RadpolicyEdit, RadpolicyStorePair};
pub use stores::RadpolicyStore;
