//! Proofs that are read.
ghost use Rattle.std.specs.Prelude.{◌≡◌, [], None, IfErr, IfOk, OnOk};
ghost use Rattle.proof_text.specs.Fronts.{IsFaultOf};
ghost use Rattle.proof_text.specs.Reading.{proofs_of, state_of};
ghost use Rattle.proof_text.specs.Text.{IsText};

use crate::reader::Reader;
use proof_model::Proof;
use std::alloc::{AllocError, Global};
use thiserror::Error;

/// Why bytes are no text of proofs.
#[derive(Clone, Copy, Debug, PartialEq, Eq, Error)]
pub enum ProofFault {
    /// The first line at whose end no text of proofs can go on, counted from 1.
    #[error("line {line} is no line of a certificate")]
    Line { line: u64 },
    /// An allocation failed.
    #[error("out of memory")]
    Memory,
}

impl From<AllocError> for ProofFault {
    ghost use Rattle.proof_text.specs.declared.read.ProofFault.TheVariants.{Memory};

    ghost from_gives = { λ _ fault. fault ≡ Memory };

    fn from(_: AllocError) -> ProofFault {
        ProofFault::Memory
    }
}

/// The proofs that the bytes spell, whether or not they prove a scene.
///
/// It answers `Line` exactly where the bytes are no text of proofs, with the first line at whose end
/// no text can go on; a last line without a line feed counts as such a line. The work is linear in
/// the number of bytes, which are not copied.
pub fn read_proofs(alloc: Global, bytes: &[u8]) -> Result<Vec<Proof>, ProofFault>
    ensures text { IfOk result (λ proofs. IsText bytes.now proofs.items) }
    ensures fault { IfErr result (IsFaultOf bytes.now) }
{
    let mut reader = Reader::new(alloc);
    read_lines(&mut reader, alloc, bytes)?;
    Ok(reader.finish()?)
}

/// Reads line by line, up to the first bad line.
fn read_lines(reader: &mut Reader, alloc: Global, bytes: &[u8]) -> Result<(), ProofFault>
    requires { state_of reader.old ≡ ([], None) }
    ensures text { OnOk result (IsText bytes.now (proofs_of (state_of reader.new))) }
    ensures fault { IfErr result (IsFaultOf bytes.now) }
{
    let mut rest = bytes;
    let mut line = 0;
    while !rest.is_empty() {
        line += 1;
        let Some(after) = reader.take_line(alloc, rest)? else {
            return Err(ProofFault::Line { line });
        };
        rest = after;
    }
    Ok(())
}
