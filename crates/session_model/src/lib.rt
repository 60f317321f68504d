//! What a session is made of: transactions, the state of a session and its calls, with the laws of histories and of calls.
#![tactic(auto)]

mod calls;
mod history;
mod transactions;
mod txn;

pub use calls::{commits_are_given_back, sessions_are_worlds};
pub use history::{commits_extend_past, redos_go_on, scenes_are_valid, undos_go_back};
pub use scene_model::Edit;
pub use transactions::{transactions_keep_their_begin, transactions_lead_back_and_forth};
pub use txn::{Txn, TxnParts};
