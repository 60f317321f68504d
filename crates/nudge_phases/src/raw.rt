//! The raw routes of a scene's answers.
ghost use Rattle.std.specs.Prelude.{◌<◌, ◌≤◌, ◌^◌, IfOk, IsSomeAnd, length};
ghost use Rattle.scene_model.specs.Answers.{AreAnswers};
ghost use Rattle.scene_model.specs.Routing.{task_of};
ghost use Rattle.scene_model.specs.Scene.{edge_with};
ghost use Rattle.scene_model.specs.Valid.{IsValid};
ghost use Rattle.nudge_phases.specs.Raw.{AreRawRoutes, IsRawRoute};

use bumpalo::Bump;
use channel_bundles::{PhaseRoute, RouteAnchors};
use scene_store::Scene;
use segment_order::runs_of;
use std::alloc::AllocError;
use walk_model::{Answer, Route};

/// The route of the connector with the number, as the input of the first phase.
fn raw_route<'a>(
    bump: &'a Bump,
    scene: &Scene,
    number: u32,
    route: &Route,
) -> Result<PhaseRoute<'a>, AllocError>
    requires start { IsSomeAnd (edge_with scene.now number) (λ e. route.now.start < length (task_of scene.now e).starts) }
    requires end { IsSomeAnd (edge_with scene.now number) (λ e. route.now.end < length (task_of scene.now e).ends) }
    requires few { length route.now.points ≤ 2 ^ 32 }
    ensures { IfOk result (IsRawRoute scene.now number route.now) }
{
    let edge = scene.edge(number).unwrap();
    let start = scene.start_at(number, route.start as usize).unwrap();
    let end = scene.end_at(number, route.end as usize).unwrap();
    Ok(PhaseRoute {
        edge: number,
        runs: runs_of(bump, number, route.points.as_slice())?,
        anchors: RouteAnchors {
            source_port: start.port,
            target_port: end.port,
            via: Vec::from_slice(bump, edge.via.as_slice())?,
        },
        weight: edge.weight,
    })
}

/// The routes of the answers that have one, as the input of the first phase.
pub(crate) fn raw_routes<'a>(
    bump: &'a Bump,
    scene: &Scene,
    answers: &[Answer],
) -> Result<Vec<PhaseRoute<'a>, &'a Bump>, AllocError>
    requires valid { IsValid scene.now }
    requires answers { AreAnswers scene.now answers.now }
    ensures { IfOk result (λ raw. AreRawRoutes scene.now answers.now raw.items) }
{
    let mut raw = Vec::with_capacity(bump, answers.len())?;
    for answer in answers {
        if let Some(route) = &answer.route {
            raw.push(raw_route(bump, scene, answer.edge, route)?)?;
        }
    }
    Ok(raw)
}
