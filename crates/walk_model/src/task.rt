//! The task of a connector: what its route has to meet.
ghost use Rattle.std.specs.Prelude.{◌≡◌, IfOk};

use plane_geom::{Dir, Point, Points};
use std::alloc::{AllocError, Global};
use std::marker::Model;

/// A pin of a connector's end with one of its directions.
///
/// The route goes straight from the pin to the port, which lies on the edge of the node's buffered
/// box.
#[derive(Clone, Copy, Debug, PartialEq, Eq, Hash)]
pub struct Choice {
    pub node: i64,
    pub pin: Point,
    pub dir: Dir,
    pub port: Point,
    /// The cost of using the pin, in thousandths, at most 10^9.
    pub cost: u64,
}

/// The choices of one end of a connector, in order.
#[derive(Debug, Drop)]
pub struct Choices(pub Vec<Choice>);

impl Model for Choices {
    ghost use Rattle.std.specs.Prelude.{List};
    ghost use Rattle.walk_model.specs.declared.task.Choice.{Choice};

    ghost Value = { List Choice };

    ghost view = { λ c. c.0.items };
}

impl Choices {
    /// The choices, in order.
    pub fn as_slice(&self) -> &[Choice]
        ensures { result.now ≡ self.now }
    {
        &self.0
    }

    /// A copy of the choices. The only error is out of memory.
    pub fn copy(&self, alloc: Global) -> Result<Choices, AllocError>
        ensures { IfOk result (λ c. c ≡ self.now) }
    {
        Ok(Choices(Vec::from_slice(alloc, &self.0)?))
    }
}

/// The task of a connector: what its route has to meet.
#[derive(Debug, Drop)]
pub struct Task {
    /// The choices of the source, in order.
    pub starts: Choices,
    /// The choices of the target, in order.
    pub ends: Choices,
    /// The checkpoints, to be passed in this order between the two ports.
    pub via: Points,
    /// The cost of a bend, in thousandths, at most 10^9.
    pub penalty: u64,
}

impl Task {
    /// A copy of the task. The only error is out of memory.
    pub fn copy(&self, alloc: Global) -> Result<Task, AllocError>
        ensures { IfOk result (λ t. t ≡ self.now) }
    {
        Ok(Task {
            starts: self.starts.copy(alloc)?,
            ends: self.ends.copy(alloc)?,
            via: self.via.copy(alloc)?,
            penalty: self.penalty,
        })
    }
}
