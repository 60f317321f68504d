//! The results of searches as plain values.
ghost use Rattle.plane_geom.specs.Floor.{IsFloor};
ghost use Rattle.walk_model.specs.Floors.{IsFloorOf};
ghost use Rattle.walk_model.specs.Legal.{IsTask};

use route_search::{Tally, find_first};
use std::alloc::{AllocError, Global};
use std::test::Fail;
use visibility_graph::Graph;
use walk_model::{Route, Task};

/// A point of a route.
#[derive(Clone, Copy, Debug, PartialEq, Eq)]
pub struct Corner(pub i64, pub i64);

/// The cost, the choices and the corners of a route, if there is one, and the number of searches.
#[derive(Debug, Drop)]
pub struct Found {
    pub cost: Option<u64>,
    pub choices: Option<(u32, u32)>,
    pub corners: Vec<Corner>,
    pub searches: u64,
}

impl Found {
    /// Whether it is a route with this cost and these corners, or no route if there are none.
    pub fn is_along(&self, cost: Option<u64>, corners: &[Corner]) -> bool {
        self.cost == cost && self.corners.as_slice() == corners
    }
}

/// The corners of the route; none if there is no route.
fn corners(alloc: Global, route: &Option<Route>) -> Result<Vec<Corner>, AllocError> {
    let mut corners = Vec::new(alloc);
    if let Some(route) = route {
        for point in route.points.as_slice() {
            corners.push(Corner(point.x, point.y))?;
        }
    }
    Ok(corners)
}

/// The route as plain values.
fn reported(alloc: Global, route: Option<Route>, searches: u64) -> Result<Found, Fail> {
    Ok(Found {
        cost: route.as_ref().map(|r| r.cost),
        choices: route.as_ref().map(|r| (r.start, r.end)),
        corners: corners(alloc, &route)?,
        searches,
    })
}

/// The result of a search for the task on the graph.
pub fn found_in(alloc: Global, graph: &Graph, task: &Task) -> Result<Found, Fail>
    requires floor { IsFloor graph.now.floor }
    requires task { IsTask task.now }
    requires floor_of { IsFloorOf graph.now.floor task.now }
{
    let mut tally = Tally::new();
    let solids = graph.floor().solids.as_slice();
    let route = find_first(alloc, graph.arena(), solids, task, &mut tally)?;
    reported(alloc, route, tally.count())
}
