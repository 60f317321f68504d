//! One step toward the past or the future of a history.
ghost use Rattle.std.specs.Prelude.{◌≡◌, IfOk, IfSome, IsSome, option_copied, slice_get};
ghost use Rattle.route_session.specs.Turning.{MayTurn, no_step, scene_toward, steps_toward, turned_log};
ghost use Rattle.route_session.specs.Upheld.{turned_step};
ghost use Rattle.undo_log.specs.Lending.{gone_back, gone_forth};

use crate::present::Present;
use crate::scenes::{edits, inverses, scene_after, scene_before};
use route_book::Changes;
use scene_store::{Scene, SessionFault};
use std::alloc::AllocError;
use undo_log::{Step, UndoLog};

/// Whether a turn goes to the scene before the present one, or to the scene after it.
#[derive(Clone, Copy)]
pub(crate) enum Toward {
    Past,
    Future,
}

/// The nearest step that lies there, if there is one.
pub(crate) fn nearest_step(log: &UndoLog<Changes>, toward: Toward) -> Option<&Step<Changes>>
    ensures { option_copied result ≡ slice_get (steps_toward toward log.now) 0 }
{
    match toward {
        Toward::Past => log.past_step(),
        Toward::Future => log.future_step(),
    }
}

/// The fault of a turn where no step lies there.
pub(crate) fn no_step(toward: Toward) -> SessionFault
    ensures { result ≡ no_step toward }
{
    match toward {
        Toward::Past => SessionFault::NothingToUndo,
        Toward::Future => SessionFault::NothingToRedo,
    }
}

/// The scene to which the step leads, as a copy of this one that is changed.
pub(crate) fn scene_toward(
    scene: &Scene,
    step: &Step<Changes>,
    toward: Toward,
) -> Result<Scene, AllocError>
    requires { MayTurn toward step.now scene.now }
    ensures { IfOk result (λ s. s ≡ scene_toward toward step.now scene.now) }
{
    match toward {
        Toward::Past => scene_before(scene, inverses(&step.back)),
        Toward::Future => scene_after(scene, edits(&step.forth)),
    }
}

/// Moves the nearest step that lies there to the other side; its answers go into the book, and the
/// scene to which it leads becomes the present one.
pub(crate) fn exchange_toward(
    log: &mut UndoLog<Changes>,
    present: &mut Present,
    scene: Scene,
    toward: Toward,
)
    requires some { IsSome (slice_get (steps_toward toward log.old) 0) }
    requires here { IfSome (slice_get (steps_toward toward log.old) 0) (λ t. t.changes.here ≡ present.old.book) }
    ensures log { IfSome (slice_get (steps_toward toward log.old) 0) (λ t. log.new ≡ turned_log toward log.old (turned_step t)) }
    ensures book { IfSome (slice_get (steps_toward toward log.old) 0) (λ t. present.new.book ≡ t.changes.there) }
    ensures scene { present.new.scene ≡ scene }
    ensures graph { present.new.graph ≡ present.old.graph }
    ensures tally { present.new.tally ≡ present.old.tally }
{
    match toward {
        Toward::Past => exchange_back(log, present, scene),
        Toward::Future => exchange_forth(log, present, scene),
    }
}

/// Moves the latest past step into the future; its answers go into the book, and the scene before
/// it becomes the present one.
fn exchange_back(log: &mut UndoLog<Changes>, present: &mut Present, scene: Scene)
    requires some { IsSome (slice_get log.old.past 0) }
    requires here { IfSome (slice_get log.old.past 0) (λ t. t.changes.here ≡ present.old.book) }
    ensures log { IfSome (slice_get log.old.past 0) (λ t. log.new ≡ gone_back log.old (turned_step t)) }
    ensures book { IfSome (slice_get log.old.past 0) (λ t. present.new.book ≡ t.changes.there) }
    ensures scene { present.new.scene ≡ scene }
    ensures graph { present.new.graph ≡ present.old.graph }
    ensures tally { present.new.tally ≡ present.old.tally }
{
    present.replace_scene(scene);
    if let Some(step) = log.go_back() {
        present.exchange(&mut step.changes);
    }
}

/// Moves the next future step into the past; its answers go into the book, and the scene after it
/// becomes the present one.
fn exchange_forth(log: &mut UndoLog<Changes>, present: &mut Present, scene: Scene)
    requires some { IsSome (slice_get log.old.future 0) }
    requires here { IfSome (slice_get log.old.future 0) (λ t. t.changes.here ≡ present.old.book) }
    ensures log { IfSome (slice_get log.old.future 0) (λ t. log.new ≡ gone_forth log.old (turned_step t)) }
    ensures book { IfSome (slice_get log.old.future 0) (λ t. present.new.book ≡ t.changes.there) }
    ensures scene { present.new.scene ≡ scene }
    ensures graph { present.new.graph ≡ present.old.graph }
    ensures tally { present.new.tally ≡ present.old.tally }
{
    present.replace_scene(scene);
    if let Some(step) = log.go_forth() {
        present.exchange(&mut step.changes);
    }
}
