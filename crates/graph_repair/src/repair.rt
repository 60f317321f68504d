//! The contents of a repair.
use plane_geom::{Floor, Line};
use std::alloc::Global;
use std::marker::Model;

/// Leads from one floor of a graph to another one, and back.
///
/// Lines are named by their values, so that no id becomes invalid, and crossings by their lines.
#[derive(Drop)]
pub struct Repair {
    pub(crate) alloc: Global,
    // The floor that the graph does not represent.
    pub(crate) floor: Floor,
    // The kept lines of both floors, those of the graph's floor alone, and those of the other floor
    // alone.
    pub(crate) stay: Vec<Line>,
    pub(crate) here: Vec<Line>,
    pub(crate) there: Vec<Line>,
    // Whether the graph represents the new floor.
    pub(crate) applied: bool,
}

impl Model for Repair {
    ghost use Rattle.graph_repair.specs.Change.{Change};

    ghost Value = { Change };

    ghost view = { λ a. record {
      floor = a.floor;
      stay = a.stay.items;
      here = a.here.items;
      there = a.there.items;
      applied = a.applied;
    } };
}
