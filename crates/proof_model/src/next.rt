//! Where the move from a crossing in a direction leads.
ghost use Rattle.std.specs.Prelude.{◌≤◌, IfSome, IsNone, length};
ghost use Rattle.line_arena.specs.Arena.{StandsAt};
ghost use Rattle.move_model.specs.Problems.{IsProblem};
ghost use Rattle.plane_geom.specs.declared.floor.Floor.{Floor};
ghost use Rattle.proof_model.specs.Next.{IsNext, IsNoneNext};
ghost use Rattle.search_problem.specs.Problems.{IsReady};

use line_arena::CrossId;
use move_model::Place;
use plane_geom::{Dir, Point};
use search_problem::{Problem, stage_at};

/// The end of a move: the place with its point, and the number of steps that lead to it.
#[derive(Clone, Copy, Debug)]
pub struct Next {
    pub place: Place,
    pub at: Point,
    pub steps: u64,
}

/// Where the move in the direction leads from the crossing, which stands at the point, in the
/// stage. `None` exactly where no crossing is ahead.
///
/// All four headings have the same move. Its cost is its steps and the penalty for each bend.
pub fn next_place(
    problem: &Problem<'_>,
    crossing: CrossId,
    at: Point,
    stage: u32,
    dir: Dir,
) -> Option<Next>
    requires ready { IsReady problem.now }
    requires here { StandsAt problem.now.arena.now crossing at }
    requires stage { stage ≤ length problem.now.task.now.via }
    ensures there { IfSome result (λ n. StandsAt problem.now.arena.now n.place.crossing n.at) }
    ensures stage { IfSome result (λ n. n.place.stage ≤ length problem.now.task.now.via) }
    ensures short { IfSome result (λ n. n.steps ≤ 8000000000) }
    ensures next { IfSome result (λ n. (floor : Floor) →
        IsProblem floor problem.now.arena.now problem.now.solids.now problem.now.task.now →
        IsNext floor problem.now.task.now stage at dir n) }
    ensures none { IsNone result → (floor : Floor) →
        IsProblem floor problem.now.arena.now problem.now.solids.now problem.now.task.now →
        IsNoneNext floor problem.now.task.now stage at dir }
{
    let crossing = problem.arena.next_on_line(crossing, dir)?;
    let there = problem.arena.point(crossing);
    let stage = stage_at(problem.task.via.as_slice(), stage, there);
    Some(Next {
        place: Place {
            crossing,
            stage,
            heading: dir,
        },
        at: there,
        steps: at.distance(there),
    })
}
