//! Routes by their runs, and the paths that two of them share.

use segment_order::{Run, Side};
use std::marker::Model;

/// The runs of a route, in order.
#[derive(Drop)]
pub struct Runs(pub Vec<Run>);

impl Model for Runs {
    ghost use Rattle.std.specs.Prelude.{List};
    ghost use Rattle.segment_order.specs.declared.run.Run.{Run};

    ghost Value = { List Run };

    ghost view = { λ r. r.0.items };
}

impl Runs {
    ghost use Rattle.std.specs.Prelude.{◌≡◌};

    /// The runs as a slice.
    pub fn as_slice(&self) -> &[Run]
        ensures { result.now ≡ self.now }
    {
        &self.0
    }
}

/// The route of an edge, by its runs.
#[derive(Drop)]
pub struct EdgeRuns {
    pub edge: u32,
    pub runs: Runs,
}

/// What two routes do at an end of the path that they share: both stop there, or they part.
///
/// Where they part, the earlier route is on this hand of the other, seen in its own heading.
#[derive(Clone, Copy, Debug, PartialEq, Eq)]
pub enum End {
    Tie,
    Parts(Side),
}

/// A path that the routes of edges `a` and `b` share, as far as they go together.
///
/// It leads from the run `first` of `a` to its run `last`, and along the other route from `b_first`
/// to `b_last`. Runs are counted from 1. `back` and `ahead` are its ends in the heading of `a`.
/// `side` is the hand that its parting ends agree on.
#[derive(Clone, Copy, Debug, PartialEq, Eq)]
pub struct SharedPath {
    pub a: u32,
    pub b: u32,
    pub first: u32,
    pub last: u32,
    pub b_first: u32,
    pub b_last: u32,
    pub back: End,
    pub ahead: End,
    pub side: Option<Side>,
}
