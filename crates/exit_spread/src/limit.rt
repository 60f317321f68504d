//! Limits on what walks may cost, from a lower bound on.
ghost use Rattle.std.specs.Prelude.{◌<◌, ◌≤◌, ◌^◌, Contains};
ghost use Rattle.search_problem.specs.Bounds.{most_cost};
ghost use Rattle.search_problem.specs.Problems.{IsReady};

use move_model::Place;
use search_problem::{Ending, MOST_COST, Problem};

/// A lower bound on the cost of a walk that ends by the stub of the ending.
fn cost_by(problem: &Problem<'_>, ending: &Ending) -> u64
    requires ready { IsReady problem.now }
    requires ending { Contains problem.now.endings.items ending.now }
{
    // To arrive with another heading and turn costs no less.
    let place = Place {
        crossing: ending.crossing,
        stage: problem.task.via.as_slice().len() as u32,
        heading: ending.dir,
    };
    ending.rest + problem.bound(&place, ending.port)
}

/// A lower bound on the cost of a walk, at most `MOST_COST`.
pub fn least_cost(problem: &Problem<'_>) -> u64
    requires { IsReady problem.now }
    ensures { result ≤ most_cost }
{
    let mut least = MOST_COST;
    for ending in &problem.endings {
        least = least.min(cost_by(problem, ending));
    }
    least
}

/// A limit above this one: two bends above the least cost, then about ten, then the most.
pub fn raised(limit: u64, least: u64, penalty: u64) -> u64
    requires limit { limit ≤ most_cost }
    requires penalty { penalty ≤ 10 ^ 9 }
    ensures rises { limit < most_cost → limit < result }
    ensures most { result ≤ most_cost }
{
    let two_bends = penalty * 2 + 1;
    let above = limit.saturating_sub(least);
    if above > two_bends {
        return MOST_COST;
    }
    MOST_COST.min(limit + above * 3 + two_bends)
}
