//! Why a run stops early, and the outcomes of runs that read no diagram.
ghost use Rattle.std.specs.Prelude.{◌≡◌, IfOk};
ghost use Rattle.report_text.specs.Faults.{gml_fault_line};
ghost use Rattle.report_text.specs.Files.{read_fault_line, too_long_line, words_line};
ghost use Rattle.reroute_app.specs.Hint.{gml_hint};
ghost use Rattle.report_text.specs.Outcome.{hinted, unsearched};

use crate::hint::gml_hint;
use gml_text::GmlFault;
use report_text::{
    Outcome, Status, push_gml_fault_line, push_read_fault_line, push_too_long_line, push_words_line,
};
use std::alloc::{AllocError, AllocFailed, Global};

/// Why a run stops early.
#[derive(Drop)]
pub(crate) enum Stop {
    /// It ends with this outcome.
    Ended(Outcome),
    /// Out of memory.
    Memory,
}

impl From<AllocError> for Stop {
    ghost use Rattle.reroute_app.specs.declared.stop.Stop.TheVariants.{Memory};

    ghost from_gives = { λ _ s. s ≡ Memory };

    fn from(_: AllocError) -> Self {
        Stop::Memory
    }
}

impl<T: Drop> From<AllocFailed<T>> for Stop {
    ghost use Rattle.reroute_app.specs.declared.stop.Stop.TheVariants.{Memory};

    ghost from_gives = { λ _ s. s ≡ Memory };

    fn from(_: AllocFailed<T>) -> Self {
        Stop::Memory
    }
}

/// The arguments are not valid.
pub(crate) fn not_understood(alloc: Global) -> Result<Outcome, AllocError>
    ensures { IfOk result (λ o. o ≡ unsearched Status.Words words_line) }
{
    let mut text = Vec::new(alloc);
    push_words_line(&mut text)?;
    Ok(Outcome::unsearched(Status::Words, text))
}

/// The file with this name cannot be read.
pub(crate) fn read_fault(alloc: Global, name: &str) -> Result<Outcome, AllocError>
    ensures { IfOk result (λ o. o ≡ unsearched Status.ReadFault (read_fault_line name.now)) }
{
    let mut text = Vec::new(alloc);
    push_read_fault_line(&mut text, name)?;
    Ok(Outcome::unsearched(Status::ReadFault, text))
}

/// The file with this name has more bytes than the limit.
pub(crate) fn too_long(alloc: Global, name: &str, limit: u64) -> Result<Outcome, AllocError>
    ensures { IfOk result (λ o. o ≡ unsearched Status.TooLong (too_long_line name.now limit)) }
{
    let mut text = Vec::new(alloc);
    push_too_long_line(&mut text, name, limit)?;
    Ok(Outcome::unsearched(Status::TooLong, text))
}

/// The bytes are not valid GML.
pub(crate) fn no_document(
    alloc: Global,
    bytes: &[u8],
    fault: &GmlFault,
) -> Result<Outcome, AllocError>
    ensures { IfOk result (λ o. o
        ≡ hinted (unsearched Status.Diagram (gml_fault_line fault.now)) (gml_hint bytes.now fault.now)) }
{
    let mut text = Vec::new(alloc);
    push_gml_fault_line(&mut text, fault)?;
    Ok(Outcome::unsearched(Status::Diagram, text).hinted(gml_hint(bytes, fault)))
}
