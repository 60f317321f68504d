//! The labels of all places.
ghost use Rattle.std.specs.Prelude.{◌≡◌, ◌*◌, ◌≤◌, IfOk, length};
ghost use Rattle.proof_search.specs.Tables.{HasRow, IsClear, Puts, label_of, row_of};

use crate::label::{EMPTY, Label, Row};
use move_model::Place;
use std::alloc::{AllocError, Global};

/// The labels of all places.
#[derive(Drop)]
pub struct Table {
    /// A number that is greater than the number of each crossing.
    pub places: usize,
    /// The row of a crossing in a stage is at `stage * places + number of the crossing`.
    pub rows: Vec<Row>,
}

impl Table {
    /// A table with rows for the places of an arena in `stages` stages. No place has a label. The only error is out of
    /// memory.
    pub fn new(alloc: Global, places: usize, stages: usize) -> Result<Table, AllocError>
        ensures clear { IfOk result IsClear }
        ensures places { IfOk result (λ t. t.places ≡ places) }
        ensures rows { IfOk result (λ t. stages * places ≤ length t.rows.items) }
    {
        let Some(count) = places.checked_mul(stages) else {
            return Err(AllocError);
        };
        let mut rows = Vec::new(alloc);
        rows.resize(count, EMPTY)?;
        Ok(Table { places, rows })
    }

    /// The index of the row of the place, whose crossing has the number.
    fn row(&self, place: &Place, number: usize) -> usize
        requires number { number ≡ place.now.crossing }
        requires room { HasRow self.now place.now }
        ensures { result ≡ row_of self.now place.now }
    {
        place.stage as usize * self.places + number
    }

    /// The label of the place, whose crossing has the number.
    pub fn label(&self, place: &Place, number: usize) -> Label
        requires number { number ≡ place.now.crossing }
        requires room { HasRow self.now place.now }
        ensures { result ≡ label_of self.now place.now }
    {
        let at = self.row(place, number);
        self.rows[at].label(place.heading)
    }

    /// Sets the label of the place, whose crossing has the number.
    pub fn put(&mut self, place: &Place, number: usize, label: Label)
        requires number { number ≡ place.now.crossing }
        requires room { HasRow self.old place.now }
        ensures { Puts self.old self.new place.now label }
    {
        let at = self.row(place, number);
        self.rows[at].set(place.heading, label);
    }
}
