//! Lists of points and of solids, which are plain lists in contracts.
ghost use Rattle.std.specs.Prelude.{◌≡◌, [], ◌∷◌, ◌++◌, IfOk, OnOk, OnErr};

use crate::point::Point;
use crate::rect::Solid;
use smallvec::SmallVec;
use std::alloc::{AllocError, Global};
use std::marker::Model;

/// Points in order: the corners of a line, checkpoints, or anchors. Up to eight take no memory.
#[derive(Debug, Drop)]
pub struct Points(pub SmallVec<Point, 8, Global>);

impl Model for Points {
    ghost use Rattle.std.specs.Prelude.{List};
    ghost use Rattle.plane_geom.specs.declared.point.Point.{Point};

    ghost Value = { List Point };

    ghost view = { λ p. p.0.items };
}

impl Points {
    /// No points. Takes no memory.
    pub fn new(alloc: Global) -> Points
        ensures { result ≡ [] }
    {
        Points(SmallVec::new(alloc))
    }

    /// These points. The only error is out of memory.
    pub fn from_slice(alloc: Global, points: &[Point]) -> Result<Points, AllocError>
        ensures { IfOk result (λ p. p ≡ points.now) }
    {
        Ok(Points(SmallVec::from_slice(alloc, points)?))
    }

    /// The points of the list, which stay where they are.
    pub fn from_vec(points: Vec<Point>) -> Points
        ensures { result ≡ points.items }
    {
        Points(SmallVec::from_vec(points))
    }

    /// The points, in order.
    pub fn as_slice(&self) -> &[Point]
        ensures { result.now ≡ self.now }
    {
        self.0.as_slice()
    }

    /// Appends a point. The only error is out of memory, which leaves everything as it was.
    pub fn push(&mut self, point: Point) -> Result<(), AllocError>
        ensures ok { OnOk result (self.new ≡ self.old ++ point ∷ []) }
        ensures err { OnErr result (self.new ≡ self.old) }
    {
        self.0.push(point)?;
        Ok(())
    }

    /// A copy of the points. The only error is out of memory.
    pub fn copy(&self, alloc: Global) -> Result<Points, AllocError>
        ensures { IfOk result (λ p. p ≡ self.now) }
    {
        Points::from_slice(alloc, self.as_slice())
    }
}

/// Solids in order.
#[derive(Debug, Drop)]
pub struct Solids(pub Vec<Solid>);

impl Model for Solids {
    ghost use Rattle.std.specs.Prelude.{List};
    ghost use Rattle.plane_geom.specs.declared.rect.Solid.{Solid};

    ghost Value = { List Solid };

    ghost view = { λ s. s.0.items };
}

impl Solids {
    /// The solids, in order.
    pub fn as_slice(&self) -> &[Solid]
        ensures { result.now ≡ self.now }
    {
        &self.0
    }

    /// A copy of the solids. The only error is out of memory.
    pub fn copy(&self, alloc: Global) -> Result<Solids, AllocError>
        ensures { IfOk result (λ s. s ≡ self.now) }
    {
        Ok(Solids(Vec::from_slice(alloc, &self.0)?))
    }
}
