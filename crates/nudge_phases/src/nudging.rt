//! Both phases of nudging, on the right answers of a scene.
ghost use Rattle.std.specs.Prelude.{◌≡◌, IfOk, map};
ghost use Rattle.scene_model.specs.Answers.{AreAnswers};
ghost use Rattle.nudge_phases.specs.Apart.{KeepsApart};
ghost use Rattle.nudge_phases.specs.Raw.{routed};
ghost use Rattle.nudge_phases.specs.Nudged.{AreLegalNudgedLines, IsNudgedScene};

use crate::raw::raw_routes;
use crate::{Nudged, nudge_routes};
use bumpalo::Bump;
use scene_store::Scene;
use std::alloc::{AllocError, Global};
use walk_model::Answer;

/// Nudges the routes of a scene's right answers. The only error is out of memory.
///
/// Phase x moves the vertical runs of the routes, and its result is rounded down to whole
/// thousandths; phase y moves the horizontal runs of that result. In each phase the runs of a
/// bundle move to the least positions for the bundle's own widest gap, up to the scene's wanted
/// nudge, and the corners follow. After phase y, equal neighbouring points become one, and a point
/// at which the heading continues is dropped.
pub fn nudge(alloc: Global, scene: &Scene, answers: &[Answer]) -> Result<Nudged, AllocError>
    requires { AreAnswers scene.now answers.now }
    // The lines are those of both phases on the raw routes.
    ensures nudged { IfOk result (λ n. IsNudgedScene scene.now answers.now n.routes.items) }
    // Every separation of a phase is met: by its bundle's gap if it links two runs, otherwise by
    // the wanted nudge.
    ensures apart { IfOk result (λ n. (p : IsNudgedScene scene.now answers.now n.routes.items) →
        KeepsApart p.nudged.x × KeepsApart p.nudged.y) }
    // Every line is a legal walk of its connector, with the choices of its route.
    ensures legal { IfOk result (λ n. AreLegalNudgedLines scene.now answers.now n.routes.items) }
    // One line for each answer with a route, in order.
    ensures edges { IfOk result (λ n. map (λ l. l.edge) n.routes.items ≡ map (λ p. p.0) (routed answers.now)) }
{
    let nudge = scene.settings().nudge;
    let bump = Bump::new(alloc);
    let raw = raw_routes(&bump, scene, answers)?;
    let solids = scene.solids()?;
    nudge_routes(alloc, solids.as_slice(), raw, nudge)
}
