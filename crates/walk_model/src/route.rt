//! The answer of a search for a connector.
ghost use Rattle.std.specs.Prelude.{◌≡◌, IfOk};

use plane_geom::Points;
use std::alloc::{AllocError, Global};

/// The route of a task that has a legal walk.
///
/// `start` and `end` are indexes into the task's `starts` and `ends`, from 0. `points` are the
/// corners: a pin, each turn, each tip of a doubling back, and the last pin. `cost`, in
/// thousandths, includes both connection costs.
#[derive(Debug, Drop)]
pub struct Route {
    pub start: u32,
    pub end: u32,
    pub points: Points,
    pub cost: u64,
}

impl Route {
    /// A copy of the route. The only error is out of memory.
    pub fn copy(&self, alloc: Global) -> Result<Route, AllocError>
        ensures { IfOk result (λ r. r ≡ self.now) }
    {
        Ok(Route {
            start: self.start,
            end: self.end,
            points: self.points.copy(alloc)?,
            cost: self.cost,
        })
    }
}

/// The answer for the connector with this number; it has no route where the connector has no legal
/// walk.
#[derive(Debug, Drop)]
pub struct Answer {
    pub edge: u32,
    pub route: Option<Route>,
}

impl Answer {
    /// A copy of the answer. The only error is out of memory.
    pub fn copy(&self, alloc: Global) -> Result<Answer, AllocError>
        ensures { IfOk result (λ a. a ≡ self.now) }
    {
        let route = match &self.route {
            Some(route) => Some(route.copy(alloc)?),
            None => None,
        };
        Ok(Answer {
            edge: self.edge,
            route,
        })
    }
}

/// The line of a connector as it is written to the diagram.
#[derive(Debug, Drop)]
pub struct WrittenRoute {
    pub edge: u32,
    pub points: Points,
}
