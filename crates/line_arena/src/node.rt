//! What a line and a crossing know about the lists that they are in.
ghost use Rattle.std.specs.Prelude.{◌≡◌};
ghost use Rattle.line_arena.specs.Node.{line_of, next_of, start_of, with_next, with_start};

use crate::id::{LineId, Link};
use plane_geom::Dir;

/// The ends of a line's list.
#[derive(Clone, Copy, Debug)]
pub struct Ends {
    pub first: Link,
    pub last: Link,
}

/// A crossing in the lists of its two lines: its nearest neighbours on all four sides.
#[derive(Clone, Copy, Debug)]
pub struct Node {
    pub vertical: LineId,
    pub horizontal: LineId,
    pub east: Link,
    pub south: Link,
    pub west: Link,
    pub north: Link,
}

impl Ends {
    /// The first crossing for one who walks along the line in the direction.
    pub fn start(&self, dir: Dir) -> Link
        ensures { result ≡ start_of dir self.now }
    {
        match dir {
            Dir::East | Dir::South => self.first,
            Dir::West | Dir::North => self.last,
        }
    }

    /// The same ends with another first crossing in the direction.
    pub fn with_start(mut self, dir: Dir, to: Link) -> Ends
        ensures { result ≡ with_start dir to self }
    {
        match dir {
            Dir::East | Dir::South => self.first = to,
            Dir::West | Dir::North => self.last = to,
        }
        self
    }
}

impl Node {
    /// The line along which one travels in the direction.
    pub fn line(&self, dir: Dir) -> LineId
        ensures { result ≡ line_of dir self.now }
    {
        match dir {
            Dir::East | Dir::West => self.horizontal,
            Dir::South | Dir::North => self.vertical,
        }
    }

    /// The neighbour in the direction.
    pub fn next(&self, dir: Dir) -> Link
        ensures { result ≡ next_of dir self.now }
    {
        match dir {
            Dir::East => self.east,
            Dir::South => self.south,
            Dir::West => self.west,
            Dir::North => self.north,
        }
    }

    /// The same node with another neighbour in the direction.
    pub fn with_next(mut self, dir: Dir, to: Link) -> Node
        ensures { result ≡ with_next dir to self }
    {
        match dir {
            Dir::East => self.east = to,
            Dir::South => self.south = to,
            Dir::West => self.west = to,
            Dir::North => self.north = to,
        }
        self
    }
}
