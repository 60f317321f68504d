//! The answers to many proposed transactions, side by side or one after the other.
ghost use Rattle.std.specs.Prelude.{◌≤◌, All, IfOk, length};
ghost use Rattle.scene_model.specs.Answers.{AreAnswers};
ghost use Rattle.preview.specs.Pieces.{IsAnswered};
ghost use Rattle.preview.specs.Previews.{ArePreviews, IsProposable};

use crate::answer::Previewed;
use crate::pieces::{Answered, answers, join};
use par_route::{Gate, OpenGate, Piece, cut};
use route_book::Book;
use scene_model::Edits;
use scene_store::Scene;
use std::alloc::{AllocError, Global};
use std::thread;
use std::thread::Threads;

/// The most proposals of one call.
pub const MOST_PROPOSALS: usize = 64;

/// A proposed transaction: its edits, in order. Each pin that they add has a direction.
#[derive(Drop)]
pub struct Proposal {
    pub edits: Edits,
}

/// The answers to the proposals, in order, all asked of the scene, for which the book is right.
///
/// Scene and book stay as they are. The proposals are cut into at most `workers` pieces, which are answered side by
/// side; each piece passes the gate once, with its number from 1, before its first proposal. The only error is out of
/// memory.
pub fn preview<R: Threads + Sync, G: Gate>(
    rt: &R,
    alloc: Global,
    scene: &Scene,
    book: &Book,
    proposals: &[Proposal],
    workers: u32,
    gate: &G,
) -> Result<Vec<Previewed>, AllocError>
    requires right { AreAnswers scene.now book.now }
    requires some { 1 ≤ workers }
    requires few { workers ≤ 4 }
    requires few_proposals { length proposals.now ≤ 64 }
    requires edits { All IsProposable proposals.now }
    ensures { IfOk result (λ answers. ArePreviews scene.now book.now proposals.now answers.items) }
{
    let pieces = cut(alloc, proposals, workers)?;
    let answered = thread::map_vec(
        rt,
        pieces,
        &|piece: Piece<Proposal>| -> Result<Answered, AllocError>
            requires right { AreAnswers scene.now book.now }
            requires edits { All IsProposable piece.items.now }
            ensures { IfOk result (IsAnswered scene.entry.now book.entry.now piece.entry) }
        { answers(piece, alloc, scene, book, gate) },
    )?;
    join(alloc, answered)
}

/// The answers to the proposals, in order, all asked of the scene, for which the book is right, one after the other,
/// without threads.
///
/// Scene and book stay as they are. The only error is out of memory.
pub fn preview_alone(
    alloc: Global,
    scene: &Scene,
    book: &Book,
    proposals: &[Proposal],
) -> Result<Vec<Previewed>, AllocError>
    requires right { AreAnswers scene.now book.now }
    requires few_proposals { length proposals.now ≤ 64 }
    requires edits { All IsProposable proposals.now }
    ensures { IfOk result (λ answers. ArePreviews scene.now book.now proposals.now answers.items) }
{
    let piece = Piece {
        number: 1,
        items: proposals,
    };
    let answered = answers(piece, alloc, scene, book, &OpenGate)?;
    Ok(answered.answers)
}
