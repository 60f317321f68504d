//! Places on the lines.

use line_arena::CrossId;
use plane_geom::Dir;

/// A crossing that a walk has reached with `heading`, after `stage` checkpoints.
#[derive(Clone, Copy, Debug, PartialEq, Eq, PartialOrd, Ord, Hash)]
pub struct Place {
    pub crossing: CrossId,
    pub stage: u32,
    pub heading: Dir,
}
