//! One step of the history.

use scene_model::{Edits, Inverses};

/// A committed transaction, with a value of the caller that is kept with it.
#[derive(Drop)]
pub struct Step<C: Drop> {
    /// The inverses of the transaction's edits, in the order of the edits.
    pub back: Inverses,
    /// The edits that redo the transaction, in order.
    pub forth: Edits,
    pub changes: C,
}
