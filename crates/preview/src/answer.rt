//! The answer to one proposed transaction.

ghost use Rattle.std.specs.Prelude.{◌≡◌, ◌≢◌, IfOk, None, List};
ghost use Rattle.scene_model.specs.Answers.{AreAnswers};
ghost use Rattle.scene_model.specs.Inverses.{redone};
ghost use Rattle.scene_model.specs.declared.edit.Edit.{Edit};
ghost use Rattle.scene_model.specs.declared.fault.SceneFault.TheVariants as faults;
ghost use Rattle.preview.specs.Edited.{ComesTo};
ghost use Rattle.preview.specs.Previews.{AreProposable, IsPreview, first_refused};

use route_book::Book;
use route_search::Tally;
use scene_model::{Edit, SceneFault};
use scene_store::Scene;
use session_model::Txn;
use std::alloc::{AllocError, Global};

/// The answer to a proposed transaction.
#[derive(Drop)]
pub enum Previewed {
    /// No edit is refused: the scene after all edits, its right answers, and the number of connectors that a commit
    /// would search.
    Committed {
        scene: Scene,
        book: Book,
        searched: u64,
    },
    /// The first edit that is refused, by its place from 1, and why. The fault is never out of memory.
    Refused {
        place: u32,
        fault: SceneFault,
    },
}

/// The result of edits: the scene after all of them, or the first that is refused.
#[derive(Drop)]
enum Edited {
    Done(Scene),
    Refused { place: u32, fault: SceneFault },
}

/// The edit at the place is refused with the fault, unless that is out of memory.
fn stopped(place: u32, fault: SceneFault) -> Result<Edited, AllocError>
    ensures { IfOk result (λ e. (fault ≢ faults.Memory) × (e ≡ Edited.Refused place fault)) }
{
    match fault {
        SceneFault::Memory => Err(AllocError),
        _ => Ok(Edited::Refused { place, fault }),
    }
}

/// Applies the edits to a copy of the scene.
fn after_edits(alloc: Global, scene: &Scene, edits: &[Edit]) -> Result<Edited, AllocError>
    requires { AreProposable edits.now }
    ensures { IfOk result (ComesTo edits.now scene.now) }
{
    let mut txn = Txn::begin(alloc, scene)?;
    for (index, edit) in edits.iter().enumerate() {
        match txn.apply(edit) {
            Ok(()) => {}
            Err(fault) => return stopped(index as u32 + 1, fault),
        }
    }
    Ok(Edited::Done(txn.into_parts().scene))
}

/// The right answers of the new scene, from those of the old one, with the number of searches.
fn followed(old: &Scene, book: &Book, new: Scene) -> Result<Previewed, AllocError>
    requires { AreAnswers old.now book.now }
    ensures { (edits : List Edit) → first_refused 1 edits old.now ≡ None → new ≡ redone edits old.now →
        IfOk result (IsPreview old.now book.now edits) }
{
    // Both scenes are known to be valid from here.
    old.valid();
    new.valid();
    let mut tally = Tally::new();
    let book = book.followed_alone(old, &new, &mut tally)?;
    Ok(Previewed::Committed {
        scene: new,
        book,
        searched: tally.count(),
    })
}

/// The answer to the edits on the scene, for which the book is right.
pub(crate) fn answer(
    alloc: Global,
    scene: &Scene,
    book: &Book,
    edits: &[Edit],
) -> Result<Previewed, AllocError>
    requires right { AreAnswers scene.now book.now }
    requires edits { AreProposable edits.now }
    ensures { IfOk result (IsPreview scene.now book.now edits.now) }
{
    match after_edits(alloc, scene, edits)? {
        Edited::Done(new) => followed(scene, book, new),
        Edited::Refused { place, fault } => Ok(Previewed::Refused { place, fault }),
    }
}
