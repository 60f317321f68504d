//! The labels of a search, and the queue of those that are open.
ghost use Rattle.std.specs.Prelude.{◌≡◌, ◌*◌, ◌≤◌, IfOk, length};
ghost use Rattle.proof_search.specs.Search.{AreNone};

use crate::table::Table;
use move_model::Place;
use search_problem::Queue;
use std::alloc::{AllocError, Global};

/// The labels of a search, the open ones in a queue. Of a label only `cost` is used.
#[derive(Drop)]
pub struct Labels {
    pub table: Table,
    pub queue: Queue<Place>,
}

impl Labels {
    /// No labels, with rows for the places of an arena in `stages` stages. The only error is out of memory.
    pub fn new(alloc: Global, places: usize, stages: usize) -> Result<Labels, AllocError>
        ensures none { IfOk result AreNone }
        ensures places { IfOk result (λ l. l.table.places ≡ places) }
        ensures rows { IfOk result (λ l. stages * places ≤ length l.table.rows.items) }
    {
        Ok(Labels {
            table: Table::new(alloc, places, stages)?,
            queue: Queue::new(alloc),
        })
    }
}
