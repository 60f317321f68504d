//! The labels of a search, written as rows.
ghost use Rattle.std.specs.Prelude.{◌≡◌, ◌++◌, ◌+◌, ◌≤◌, All, IfOk, OnOk, length};
ghost use Rattle.line_arena.specs.Arena.{StandsAt};
ghost use Rattle.search_problem.specs.Problems.{IsReady};
ghost use Rattle.proof_search.specs.Rows.{has_label, place_of, row_at, rows_in, rows_upto};
ghost use Rattle.proof_search.specs.Search.{HasRooms, cost_at};

use crate::labels::Labels;
use crate::spots::Spot;
use crate::spread::cost_in;
use move_model::Place;
use plane_geom::Dir;
use proof_model::{LabelRow, Rows};
use search_problem::Problem;
use std::alloc::{AllocError, Global};

/// Whether the row has a label.
fn has_label(row: &LabelRow) -> bool
    ensures { result ≡ has_label row.now }
{
    row.east.is_some() || row.south.is_some() || row.west.is_some() || row.north.is_some()
}

impl Labels {
    /// The label of the heading at the spot, in the stage.
    fn cost_at(&self, problem: &Problem<'_>, stage: u32, spot: &Spot, heading: Dir) -> Option<u64>
        requires rooms { HasRooms problem.now self.now }
        requires here { StandsAt problem.now.arena.now spot.now.crossing spot.now.at }
        requires stage { stage ≤ length problem.now.task.now.via }
        ensures { result ≡ cost_at self.now (place_of stage spot.now heading) }
    {
        let place = Place {
            crossing: spot.crossing,
            stage,
            heading,
        };
        let number = problem.arena.index(place.crossing);
        cost_in(self.table.label(&place, number))
    }

    /// The row of the spot in the stage.
    fn row_at(&self, problem: &Problem<'_>, stage: u32, spot: &Spot) -> LabelRow
        requires rooms { HasRooms problem.now self.now }
        requires here { StandsAt problem.now.arena.now spot.now.crossing spot.now.at }
        requires stage { stage ≤ length problem.now.task.now.via }
        ensures { result ≡ row_at self.now stage spot.now }
    {
        LabelRow {
            stage,
            at: spot.at,
            east: self.cost_at(problem, stage, spot, Dir::East),
            south: self.cost_at(problem, stage, spot, Dir::South),
            west: self.cost_at(problem, stage, spot, Dir::West),
            north: self.cost_at(problem, stage, spot, Dir::North),
        }
    }

    /// Appends the rows of the stage that have labels, in the order of the spots.
    fn push_stage(
        &self,
        rows: &mut Vec<LabelRow>,
        problem: &Problem<'_>,
        stage: u32,
        spots: &[Spot],
    ) -> Result<(), AllocError>
        requires rooms { HasRooms problem.now self.now }
        requires here { All (λ s. StandsAt problem.now.arena.now s.crossing s.at) spots.now }
        requires stage { stage ≤ length problem.now.task.now.via }
        ensures { OnOk result
            (rows.new.items ≡ rows.old.items ++ rows_in self.now stage spots.now) }
    {
        for spot in spots {
            let row = self.row_at(problem, stage, spot);
            if has_label(&row) {
                rows.push(row)?;
            }
        }
        Ok(())
    }

    /// All rows that have labels, by stage and then in the order of the spots.
    pub fn rows(
        &self,
        alloc: Global,
        problem: &Problem<'_>,
        spots: &[Spot],
    ) -> Result<Rows, AllocError>
        requires ready { IsReady problem.now }
        requires rooms { HasRooms problem.now self.now }
        requires here { All (λ s. StandsAt problem.now.arena.now s.crossing s.at) spots.now }
        ensures { IfOk result
            (λ r. r ≡ rows_upto self.now (length problem.now.task.now.via + 1) spots.now) }
    {
        let stages = problem.task.via.as_slice().len() as u32 + 1;
        let mut rows = Vec::new(alloc);
        for stage in 0..stages {
            self.push_stage(&mut rows, problem, stage, spots)?;
        }
        Ok(Rows(rows))
    }
}
