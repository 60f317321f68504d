//! The sums over the answers of a scene.
ghost use Rattle.std.specs.Prelude.{◌≡◌};
ghost use Rattle.walk_model.specs.Cost.{bends};
ghost use Rattle.walk_model.specs.Line.{IsOrthogonal, steps_of};
ghost use Rattle.scene_model.specs.Answers.{AreAnswers};
ghost use Rattle.form_make.specs.Sums.{SumsUp};

use crate::summary::Summary;
use plane_geom::Point;
use scene_store::Scene;
use walk_model::{Answer, cost_of};

/// The number of bends of a line: the difference of its costs with bends at 1 and at 0.
fn bends_of(points: &[Point]) -> u64
    requires { IsOrthogonal points.now }
    ensures { result ≡ bends (steps_of points.now) }
{
    cost_of(points, 1) - cost_of(points, 0)
}

/// The summary of the right answers of the scene, after `searched` searches.
pub(crate) fn summed(scene: &Scene, answers: &[Answer], searched: u64) -> Summary
    requires { AreAnswers scene.now answers.now }
    ensures { SumsUp answers.now searched result }
{
    scene.valid();
    let mut summary = Summary {
        routed: 0,
        unrouted: 0,
        cost: 0,
        bends: 0,
        searched,
    };
    for answer in answers {
        match &answer.route {
            Some(route) => {
                summary.routed += 1;
                summary.cost += u128::from(route.cost);
                summary.bends += bends_of(route.points.as_slice());
            }
            None => summary.unrouted += 1,
        }
    }
    summary
}
