//! The lines of outputs, each appended to a text, and the outcomes of subcommands.
//!
//! Costs are whole thousandths of a GML unit, and are written in units with three digits after the
//! decimal point. Each call that appends its line, or lines, to `out` writes them to a text of its own
//! and appends that at the end. The only error is out of memory, and `out` is then as it was.
#![tactic(auto)]

mod audit;
mod fault;
mod file;
mod finding;
mod hint;
mod number;
mod outcome;
mod preview;
mod refusal;
mod reply;
mod routed;
mod shared;
mod status;

pub use audit::{push_audit_line_line, push_audit_rule_line, push_audit_yes_line};
pub use fault::{push_fault_line, push_gml_fault_line};
pub use file::{
    MOST_BYTES, MOST_CERTIFICATE_BYTES, MOST_SCRIPT_BYTES, push_read_fault_line,
    push_too_long_line, push_words_line,
};
pub use finding::{EdgeFinding, Finding, push_finding_lines};
pub use hint::{Hint, Place, Unrouted};
pub use number::push_milli;
pub use outcome::{Outcome, no_diagram};
pub use preview::{push_preview_lines, push_refused_preview};
pub use refusal::{Refusal, push_refusal};
pub use reply::{LineReply, Reply, push_end_line, push_open_line, push_reply_lines};
pub use routed::{EdgeRouted, Routed, push_routed, push_routed_lines};
pub use shared::{push_crossings_line, push_shared_lines};
pub use status::Status;
