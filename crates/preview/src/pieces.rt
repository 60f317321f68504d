//! The answers to pieces of the proposals, one piece for each worker.
ghost use Rattle.std.specs.Prelude.{◌≡◌, All, IfOk, IsOk, OnOk};
ghost use Rattle.std.specs.List.{flat_map};
ghost use Rattle.scene_model.specs.Answers.{AreAnswers};
ghost use Rattle.preview.specs.Pieces.{IsAnswered, answers_in};
ghost use Rattle.preview.specs.Previews.{IsProposable};

use crate::answer::{Previewed, answer};
use crate::proposals::Proposal;
use par_route::{Gate, Piece};
use route_book::Book;
use scene_model::{Edit, Edits};
use scene_store::Scene;
use std::alloc::{AllocError, Global};

/// The answers to the proposals of a piece.
#[derive(Drop)]
pub(crate) struct Answered {
    pub(crate) answers: Vec<Previewed>,
}

/// The edits as a slice.
fn edits_of(edits: &Edits) -> &[Edit]
    ensures { result.now ≡ edits.now }
{
    &edits.0
}

/// Answers each proposal of the piece, after it has passed the gate.
pub(crate) fn answers<G: Gate>(
    piece: Piece<'_, Proposal>,
    alloc: Global,
    scene: &Scene,
    book: &Book,
    gate: &G,
) -> Result<Answered, AllocError>
    requires right { AreAnswers scene.now book.now }
    requires edits { All IsProposable piece.items.now }
    ensures { IfOk result (IsAnswered scene.now book.now piece.entry) }
{
    let Piece {
        number,
        items: proposals,
    } = piece;
    gate.pass(number);
    let mut answers = Vec::new(alloc);
    for proposal in proposals {
        let edits = edits_of(&proposal.edits);
        answers.push(answer(alloc, scene, book, edits)?)?;
    }
    Ok(Answered { answers })
}

/// The answers of all pieces, in order.
pub(crate) fn join(
    alloc: Global,
    pieces: Vec<Result<Answered, AllocError>>,
) -> Result<Vec<Previewed>, AllocError>
    ensures memory { OnOk result (All (λ p. IsOk p) pieces.items) }
    ensures answers { IfOk result (λ answers. answers.items ≡ flat_map answers_in pieces.items) }
{
    let mut all = Vec::new(alloc);
    for piece in pieces {
        let Answered { mut answers } = piece?;
        all.append(&mut answers)?;
    }
    Ok(all)
}
