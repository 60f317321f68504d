//! What is claimed of a connector, and the labels that prove it.

use plane_geom::{Dir, Point, Points};
use std::marker::Model;

/// The labels of one crossing in one stage, by heading.
///
/// A walk that reaches the crossing in a heading, with `stage` checkpoints passed, has cost at
/// least the label of the heading by then; or at least as much as is claimed, where there is no
/// label.
#[derive(Clone, Copy, Debug, PartialEq, Eq, Hash)]
pub struct LabelRow {
    pub stage: u32,
    pub at: Point,
    pub east: Option<u64>,
    pub south: Option<u64>,
    pub west: Option<u64>,
    pub north: Option<u64>,
}

/// Rows of labels, in order.
#[derive(Debug, Drop)]
pub struct Rows(pub Vec<LabelRow>);

impl Model for Rows {
    ghost use Rattle.std.specs.Prelude.{List};
    ghost use Rattle.proof_model.specs.declared.proof.LabelRow.{LabelRow};

    ghost Value = { List LabelRow };

    ghost view = { λ r. r.0.items };
}

impl Rows {
    ghost use Rattle.std.specs.Prelude.{◌≡◌};

    /// The rows, in order.
    pub fn as_slice(&self) -> &[LabelRow]
        ensures { result.now ≡ self.now }
    {
        &self.0
    }
}

/// What is claimed of a connector.
#[derive(Debug, Drop)]
pub enum Claim {
    /// The walk along these points costs this, and none costs less.
    Cost { cost: u64, points: Points },
    /// No walk is legal.
    Cut,
}

/// A claim of the connector with this number, and the labels that prove it.
#[derive(Debug, Drop)]
pub struct Proof {
    pub edge: u32,
    pub claim: Claim,
    pub rows: Rows,
}

impl LabelRow {
    ghost use Rattle.std.specs.Prelude.{◌≡◌};
    ghost use Rattle.proof_model.specs.Labels.{label_in};

    /// The label of the heading.
    pub fn label(&self, heading: Dir) -> Option<u64>
        ensures { result ≡ label_in self.now heading }
    {
        match heading {
            Dir::East => self.east,
            Dir::South => self.south,
            Dir::West => self.west,
            Dir::North => self.north,
        }
    }
}
