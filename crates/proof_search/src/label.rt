//! Labels of places.
ghost use Rattle.std.specs.Prelude.{◌≡◌};
ghost use Rattle.proof_search.specs.Labels.{ahead_in, label_in, with_label};

use move_model::Ahead;
use plane_geom::Dir;

/// The least that is known to be ahead of a place. An open label is still to be propagated.
#[derive(Clone, Copy, Debug)]
pub enum Label {
    Absent,
    Open(Ahead),
    Closed(Ahead),
}

impl Label {
    /// What is known to be ahead, whether open or closed.
    pub fn ahead(self) -> Option<Ahead>
        ensures { result ≡ ahead_in self }
    {
        match self {
            Label::Absent => None,
            Label::Open(ahead) | Label::Closed(ahead) => Some(ahead),
        }
    }
}

/// The labels of a crossing in a stage, by heading.
#[derive(Clone, Copy, Debug)]
pub struct Row {
    east: Label,
    south: Label,
    west: Label,
    north: Label,
}

/// A row without labels.
pub const EMPTY: Row = Row {
    east: Label::Absent,
    south: Label::Absent,
    west: Label::Absent,
    north: Label::Absent,
};

impl Row {
    /// The label of the heading.
    pub fn label(&self, heading: Dir) -> Label
        ensures { result ≡ label_in self.now heading }
    {
        match heading {
            Dir::East => self.east,
            Dir::South => self.south,
            Dir::West => self.west,
            Dir::North => self.north,
        }
    }

    /// Sets the label of the heading.
    pub fn set(&mut self, heading: Dir, label: Label)
        ensures { self.new ≡ with_label self.old heading label }
    {
        match heading {
            Dir::East => self.east = label,
            Dir::South => self.south = label,
            Dir::West => self.west = label,
            Dir::North => self.north = label,
        }
    }
}
