//! Why a connector has no route.
ghost use Rattle.std.specs.Prelude.{◌≢◌, ◌≤◌, IfOk, IfSome, IsSomeAnd, length};
ghost use Rattle.route_causes.specs.Causes.{IsCause};
ghost use Rattle.route_causes.specs.declared.cause.Cause.TheVariants.{Apart};
ghost use Rattle.scene_model.specs.Routing.{solids, task_of};
ghost use Rattle.scene_model.specs.Scene.{edge_with};
ghost use Rattle.walk_model.specs.Order.{HasNoWalk};

use crate::first::{closed_by, covered_by};
use plane_geom::Solid;
use scene_store::Scene;
use std::alloc::AllocError;
use walk_model::Task;

/// An end of a connector.
#[derive(Clone, Copy, Debug, PartialEq, Eq, Hash)]
pub enum End {
    Source,
    Target,
}

/// Why a connector has no route, with the id of a box as the diagram has it.
///
/// Boxes are grown by the buffer. The first cause counts: source, target, checkpoints in order.
#[derive(Clone, Copy, Debug, PartialEq, Eq, Hash)]
pub enum Cause {
    /// Other boxes close each way out of the end; the first way, this one first.
    ClosedEnd { end: End, node: i64 },
    /// The checkpoint, counted from 1, lies inside a box, first in this one.
    CoveredCheckpoint { place: u32, node: i64 },
    /// None of these: if there is no route, boxes leave no way between the ends and checkpoints.
    Apart,
}

/// The cause for the task among the solids.
fn cause_among(solids: &[Solid], task: &Task) -> Cause
    requires { length task.now.via ≤ 4 }
    ensures { IsCause solids.now task.now result }
{
    if let Some(node) = closed_by(solids, task.starts.as_slice()) {
        let end = End::Source;
        Cause::ClosedEnd { end, node }
    } else if let Some(node) = closed_by(solids, task.ends.as_slice()) {
        let end = End::Target;
        Cause::ClosedEnd { end, node }
    } else if let Some((place, node)) = covered_by(solids, task.via.as_slice()) {
        Cause::CoveredCheckpoint { place, node }
    } else {
        Cause::Apart
    }
}

/// Why the connector with the number has no route, if it has none.
///
/// The edge exists and is not a loop. Where the cause is not `Apart`, no walk is legal. The only
/// error is out of memory.
pub fn cause_of(scene: &Scene, number: u32) -> Result<Cause, AllocError>
    requires { IsSomeAnd (edge_with scene.now number) (λ e. e.from ≢ e.to) }
    ensures cause { IfOk result (λ cause. IfSome (edge_with scene.now number)
        (λ e. IsCause (solids scene.now) (task_of scene.now e) cause)) }
    ensures no_walk { IfOk result (λ cause. cause ≢ Apart → IfSome (edge_with scene.now number)
        (λ e. HasNoWalk (solids scene.now) (task_of scene.now e))) }
{
    scene.valid();
    let solids = scene.solids()?;
    let task = scene.task(number)?;
    Ok(cause_among(solids.as_slice(), &task))
}
