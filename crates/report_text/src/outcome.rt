//! The outcome of a subcommand: how it ends, and what it writes.
ghost use Rattle.std.specs.Prelude.{◌≡◌, IfOk};
ghost use Rattle.report_text.specs.Faults.{fault_line};
ghost use Rattle.report_text.specs.Outcome.{counted, hinted, uncounted, unsearched};

use crate::fault::push_fault_line;
use crate::hint::Hint;
use crate::status::Status;
use diagram_read::DiagramFault;
use route_search::Tally;
use std::alloc::{AllocError, Global};
use std::marker::Model;

/// What a subcommand answers: how it ends, its whole output, the searches that were made for it, where they are
/// counted, and what people are told.
#[derive(Drop)]
pub struct Outcome {
    pub status: Status,
    pub text: Vec<u8>,
    pub tally: Option<Tally>,
    pub hint: Hint,
}

impl Model for Outcome {
    ghost use Rattle.report_text.specs.Outcome.{Outcome as OutcomeValue};

    ghost Value = { OutcomeValue };

    ghost view = { λ o. record { status = o.status; text = o.text.items; searched = o.tally; hint = o.hint } };
}

impl Outcome {
    /// The outcome whose searches are those of the tally.
    pub fn counted(status: Status, text: Vec<u8>, tally: Tally) -> Outcome
        ensures { result ≡ counted status text.items tally }
    {
        Outcome {
            status,
            text,
            tally: Some(tally),
            hint: Hint::Nothing,
        }
    }

    /// The outcome without a search.
    pub fn unsearched(status: Status, text: Vec<u8>) -> Outcome
        ensures { result ≡ unsearched status text.items }
    {
        Outcome::counted(status, text, Tally::new())
    }

    /// The outcome of a subcommand whose searches are not counted.
    pub fn uncounted(status: Status, text: Vec<u8>) -> Outcome
        ensures { result ≡ uncounted status text.items }
    {
        Outcome {
            status,
            text,
            tally: None,
            hint: Hint::Nothing,
        }
    }

    /// The outcome with this hint.
    pub fn hinted(self, hint: Hint) -> Outcome
        ensures { result ≡ hinted self hint }
    {
        let Outcome {
            status,
            text,
            tally,
            ..
        } = self;
        Outcome {
            status,
            text,
            tally,
            hint,
        }
    }
}

/// The outcome where the document is not a valid diagram, or a line of it cannot be read. The only error is out of
/// memory.
pub fn no_diagram(alloc: Global, fault: &DiagramFault) -> Result<Outcome, AllocError>
    ensures { IfOk result (λ o. o ≡ unsearched Status.Diagram (fault_line fault.now)) }
{
    let mut text = Vec::new(alloc);
    push_fault_line(&mut text, fault)?;
    Ok(Outcome::unsearched(Status::Diagram, text))
}
