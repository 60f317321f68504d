//! The connectors of a scene that have no route.
ghost use Rattle.std.specs.Prelude.{◌≡◌, ◌++◌, [], ◌∷◌, All, IfOk, OnOk, filter, is_none, map};
ghost use Rattle.route_book.specs.Search.{IsConnector};
ghost use Rattle.route_causes.specs.Unrouted.{AreUnrouted, HasCause};
ghost use Rattle.scene_model.specs.Answers.{AreAnswers};

use crate::cause::{Cause, cause_of};
use scene_store::Scene;
use std::alloc::{AllocError, Global};
use walk_model::Answer;

/// A connector that has no route, and why.
#[derive(Clone, Copy, Debug, PartialEq, Eq, Hash)]
pub struct Unrouted {
    pub edge: u32,
    pub cause: Cause,
}

/// Appends the connector of the answer with its cause, if it has no route.
fn push_if_unrouted(
    found: &mut Vec<Unrouted>,
    scene: &Scene,
    answer: &Answer,
) -> Result<(), AllocError>
    requires { IsConnector scene.now answer.now.edge }
    ensures edges { OnOk result (map (λ u. u.edge) found.new.items
        ≡ map (λ u. u.edge) found.old.items ++ map (λ a. a.edge) (filter (λ a. is_none a.route) (answer.now ∷ []))) }
    ensures causes { OnOk result (All (HasCause scene.now) found.old.items → All (HasCause scene.now) found.new.items) }
{
    if answer.route.is_none() {
        let edge = answer.edge;
        let cause = cause_of(scene, edge)?;
        found.push(Unrouted { edge, cause })?;
    }
    Ok(())
}

/// The connectors that have no route by the right answers of the scene, in order, each with its
/// cause. The only error is out of memory.
pub fn all_unrouted(
    alloc: Global,
    scene: &Scene,
    answers: &[Answer],
) -> Result<Vec<Unrouted>, AllocError>
    requires { AreAnswers scene.now answers.now }
    ensures { IfOk result (λ found. AreUnrouted scene.now answers.now found.items) }
{
    scene.valid();
    let mut found = Vec::new(alloc);
    for answer in answers {
        push_if_unrouted(&mut found, scene, answer)?;
    }
    Ok(found)
}
