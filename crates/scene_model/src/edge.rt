//! Edges and their checkpoints.
ghost use Rattle.std.specs.Prelude.{◌≡◌, ◌<◌, ◌≤◌, [], length, insert, remove, IfOk, OnOk, OnErr};

use plane_geom::Point;
use smallvec::SmallVec;
use std::alloc::{AllocError, Global};
use std::marker::Model;

/// The checkpoints of a connector, in order. Up to the limit of a connector they take no memory.
#[derive(Debug, Drop)]
pub struct Via(pub SmallVec<Point, 4, Global>);

impl Model for Via {
    ghost use Rattle.std.specs.Prelude.{List};
    ghost use Rattle.plane_geom.specs.declared.point.Point.{Point};

    ghost Value = { List Point };

    ghost view = { λ v. v.0.items };
}

impl Via {
    /// No checkpoints. Takes no memory.
    pub fn new(alloc: Global) -> Via
        ensures { result ≡ [] }
    {
        Via(SmallVec::new(alloc))
    }

    /// A list of these checkpoints. The only error is out of memory.
    pub fn from_slice(alloc: Global, points: &[Point]) -> Result<Via, AllocError>
        ensures { IfOk result (λ v. v ≡ points.now) }
    {
        Ok(Via(SmallVec::from_slice(alloc, points)?))
    }

    /// The checkpoints, in order.
    pub fn as_slice(&self) -> &[Point]
        ensures { result.now ≡ self.now }
    {
        self.0.as_slice()
    }

    /// A copy of the checkpoints. The only error is out of memory.
    pub fn copy(&self, alloc: Global) -> Result<Via, AllocError>
        ensures { IfOk result (λ v. v ≡ self.now) }
    {
        Via::from_slice(alloc, self.as_slice())
    }

    /// Inserts a checkpoint at the place, from 0. The only error is out of memory, which leaves
    /// everything as it was.
    pub fn insert(&mut self, place: usize, point: Point) -> Result<(), AllocError>
        requires { place ≤ length self.old }
        ensures ok { OnOk result (self.new ≡ insert self.old place point) }
        ensures err { OnErr result (self.new ≡ self.old) }
    {
        self.0.insert(place, point)?;
        Ok(())
    }

    /// Removes the checkpoint at the place, from 0.
    pub fn remove(&mut self, place: usize)
        requires { place < length self.old }
        ensures { self.new ≡ remove self.old place }
    {
        self.0.remove(place);
    }
}

/// An edge. It is a loop if both its ends are at one node, otherwise a connector.
#[derive(Debug, Drop)]
pub struct Edge {
    pub number: u32,
    pub from: i64,
    pub to: i64,
    /// The class of the pins that the end at `from` may use; 0 is the centre.
    pub from_class: u32,
    /// The class of the pins that the end at `to` may use; 0 is the centre.
    pub to_class: u32,
    pub via: Via,
    /// The place of the edge's pair in the diagram's graph list, from 0; none if a script added the
    /// edge.
    pub origin: Option<u32>,
    /// The weight of a displacement of its runs in nudging, from 1 to 4.
    pub weight: u32,
}

impl Edge {
    /// A copy of the edge. The only error is out of memory.
    pub fn copy(&self, alloc: Global) -> Result<Edge, AllocError>
        ensures { IfOk result (λ e. e ≡ self.now) }
    {
        Ok(Edge {
            number: self.number,
            from: self.from,
            to: self.to,
            from_class: self.from_class,
            to_class: self.to_class,
            via: self.via.copy(alloc)?,
            origin: self.origin,
            weight: self.weight,
        })
    }
}
