//! Labels of places, found in constant time.
ghost use Rattle.std.specs.Prelude.{◌≡◌, ◌*◌, ◌<◌, ◌≤◌, ℕ, [], IfSome, OnOk, length, slice_index};
ghost use Rattle.line_arena.specs.Arena.{StandsAt};
ghost use Rattle.plane_geom.specs.declared.point.Dir.TheVariants.{East};
ghost use Rattle.proof_model.specs.Labels.{is_row_of, label_of};
ghost use Rattle.route_audit.specs.Index.{AreLabels, Pushes, crossing_in, slot_of};

use line_arena::{CrossId, LineArena};
use move_model::Place;
use plane_geom::Point;
use proof_model::LabelRow;
use std::alloc::{AllocError, Global};

/// Where rows stand, by their crossings and stages.
///
/// A slot is never cleared: what an earlier proof left there is no row of the place, or the right
/// one.
#[derive(Drop)]
pub(crate) struct RowIndex {
    /// What the numbers of crossings are below.
    pub places: usize,
    /// The place of the row of a crossing in a stage stands at `stage * places + number of the
    /// crossing`.
    pub slots: Vec<usize>,
    /// The crossing of each row, in order.
    pub crossings: Vec<CrossId>,
}

impl RowIndex {
    /// An index of no rows. Takes no memory.
    pub(crate) fn new(alloc: Global) -> RowIndex {
        RowIndex {
            places: 0,
            slots: Vec::new(alloc),
            crossings: Vec::new(alloc),
        }
    }

    /// Makes room for the places of an arena in this number of stages. No row is indexed then.
    pub(crate) fn fit(&mut self, places: usize, stages: usize) -> Result<(), AllocError>
        ensures places { OnOk result (self.new.places ≡ places) }
        ensures slots { OnOk result (stages * places ≤ length self.new.slots.items) }
        ensures crossings { OnOk result (self.new.crossings.items ≡ []) }
    {
        let Some(wanted) = places.checked_mul(stages) else {
            return Err(AllocError);
        };
        if self.slots.len() < wanted {
            self.slots.resize(wanted, 0)?;
        }
        self.crossings.clear();
        self.places = places;
        Ok(())
    }

    /// The crossing of the last row.
    pub(crate) fn last(&self) -> Option<CrossId>
        ensures { IfSome result (λ c. (k : ℕ) × (k < length self.now.crossings.items) ×
            (c ≡ crossing_in self.now k)) }
    {
        let count = self.crossings.len();
        if count == 0 {
            return None;
        }
        Some(self.crossings[count - 1])
    }

    /// What the slot of the stage and the crossing with the number holds.
    fn row_place(&self, stage: u32, number: usize) -> usize
        requires room { slot_of self.now stage number < length self.now.slots.items }
        ensures { result ≡ slice_index self.now.slots.items (slot_of self.now stage number) }
    {
        self.slots[stage as usize * self.places + number]
    }

    /// Puts in the next row, at the place among the rows: it is of the crossing, which has the
    /// number, in the stage.
    pub(crate) fn push(
        &mut self,
        place: usize,
        stage: u32,
        crossing: CrossId,
        number: usize,
    ) -> Result<(), AllocError>
        requires number { number ≡ crossing }
        requires room { slot_of self.old stage crossing < length self.old.slots.items }
        ensures { OnOk result (Pushes self.old self.new place stage crossing) }
    {
        self.crossings.push(crossing)?;
        let slot = stage as usize * self.places + number;
        self.slots[slot] = place;
        Ok(())
    }
}

/// Rows that rise, with their index.
#[derive(Clone, Copy)]
pub(crate) struct Labels<'a> {
    pub rows: &'a [LabelRow],
    pub index: &'a RowIndex,
}

/// Whether the row is that of the crossing at the point in the stage.
fn is_row_of(row: &LabelRow, stage: u32, at: Point) -> bool
    ensures { result ≡ is_row_of row.now (record { stage = stage; at = at; heading = East }) }
{
    row.stage == stage && row.at.x == at.x && row.at.y == at.y
}

impl<'a> Labels<'a> {
    /// The label of the place, whose crossing stands at the point.
    pub(crate) fn label(&self, arena: &LineArena, place: &Place, at: Point) -> Option<u64>
        requires labels { (last : ℕ) × (place.now.stage ≤ last) × AreLabels arena.now last self.now }
        requires here { StandsAt arena.now place.now.crossing at }
        ensures { result ≡ label_of self.now.rows.now
            (record { stage = place.now.stage; at = at; heading = place.now.heading }) }
    {
        arena.laws();
        let number = arena.index(place.crossing);
        let row_place = self.index.row_place(place.stage, number);
        if row_place >= self.rows.len() {
            return None;
        }
        let row = self.rows[row_place];
        if !is_row_of(&row, place.stage, at) {
            return None;
        }
        row.label(place.heading)
    }
}
