//! Nodes.
ghost use Rattle.std.specs.Prelude.{◌≡◌, IfOk};

use crate::pin::{Pins, any_of_class};
use std::alloc::{AllocError, Global};

/// A node: its centre and its half sizes, in thousandths.
#[derive(Debug, Drop)]
pub struct Node {
    pub id: i64,
    pub x: i64,
    pub y: i64,
    pub half_w: i64,
    pub half_h: i64,
    /// A group has no solid: routes may cross it.
    pub group: bool,
    pub pins: Pins,
    /// The place of the node's pair in the diagram's graph list, from 0; none if a script added the
    /// node.
    pub origin: Option<u32>,
}

impl Node {
    ghost use Rattle.scene_model.specs.Scene.{has_class};

    /// Whether an end at the node may use the class: 0 is the centre's, each other one that of a
    /// pin.
    pub fn has_class(&self, class: u32) -> bool
        ensures { result ≡ has_class self.now class }
    {
        class == 0 || any_of_class(self.pins.as_slice(), class)
    }

    /// A copy of the node. The only error is out of memory.
    pub fn copy(&self, alloc: Global) -> Result<Node, AllocError>
        ensures { IfOk result (λ n. n ≡ self.now) }
    {
        Ok(Node {
            id: self.id,
            x: self.x,
            y: self.y,
            half_w: self.half_w,
            half_h: self.half_h,
            group: self.group,
            pins: self.pins.copy(alloc)?,
            origin: self.origin,
        })
    }
}
