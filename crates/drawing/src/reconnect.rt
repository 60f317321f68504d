//! A connector that is moved to another box: a cut, and a new connector with what the old one had.
ghost use Rattle.std.specs.Prelude.{◌≡◌, ◌≤◌, ◌++◌, All, IfOk, OnOk, length};
ghost use Rattle.scene_model.specs.Edits.{IsDirected};
ghost use Rattle.drawing.specs.Reconnect.{AreEdited, IsReconnected, joined, passing, reconnection};

use crate::drawing::Drawing;
use plane_geom::Point;
use scene_model::{Command, Edge, Edit, SessionFault};
use scene_store::Scene;
use std::alloc::{AllocError, Global};

/// An end of a connector.
#[derive(Clone, Copy, Debug, PartialEq, Eq)]
pub enum End {
    From,
    To,
}

/// The connector with this end at the box, at a pin of the class. The other end stays as it is.
fn joined(edge: &Edge, end: End, id: i64, class: u32) -> Edit
    ensures { result ≡ joined edge.now end id class }
{
    match end {
        End::From => Edit::AddEdge {
            from: id,
            to: edge.to,
            from_class: class,
            to_class: edge.to_class,
        },
        End::To => Edit::AddEdge {
            from: edge.from,
            to: id,
            from_class: edge.from_class,
            to_class: class,
        },
    }
}

/// Appends the edits that add the checkpoints, in order, to the connector with this number.
fn push_checkpoints(edits: &mut Vec<Edit>, number: u32, via: &[Point]) -> Result<(), AllocError>
    requires { length via.now ≤ 4 }
    ensures { OnOk result (edits.new.items ≡ edits.old.items ++ passing number 1 via.now) }
{
    let mut place = 1;
    for &point in via {
        edits.push(Edit::AddVia {
            number,
            place,
            x: point.x,
            y: point.y,
        })?;
        place += 1;
    }
    Ok(())
}

/// The edits that move an end of the connector with this number to the box, at a pin of the class.
fn reconnection(
    alloc: Global,
    scene: &Scene,
    number: u32,
    end: End,
    id: i64,
    class: u32,
) -> Result<Vec<Edit>, AllocError>
    ensures { IfOk result (λ edits. edits.items ≡ reconnection scene.now number end id class) }
{
    // So its connectors are known to have few checkpoints.
    scene.valid();
    let mut edits = Vec::new(alloc);
    edits.push(Edit::CutEdge { number })?;
    if let Some(edge) = scene.edge(number) {
        edits.push(joined(edge, end, id, class))?;
        push_checkpoints(&mut edits, scene.next_edge(), edge.via.as_slice())?;
    }
    Ok(edits)
}

impl Drawing {
    /// Makes the edits, in order, up to the first that is refused.
    fn edit_all(&mut self, edits: &[Edit]) -> Result<(), SessionFault>
        requires { All IsDirected edits.now }
        ensures { AreEdited edits.now result self.old self.new }
    {
        for &edit in edits {
            if let Err(fault) = self.run(&Command::Edit(edit)) {
                return Err(fault);
            }
        }
        Ok(())
    }

    /// Moves an end of a connector to another box, at a pin of the class; class 0 is the box's centre. Answers the number
    /// of the connector, which is a new one.
    ///
    /// The connector is cut, and another with its other end, its class there and its checkpoints is added. A weight that
    /// came with the file is lost, since an edit adds connectors of weight 1. The error is that of the first edit that is
    /// refused, as `UnknownEdge` where no connector has the number, or out of memory; then no transaction is open, and
    /// scenes, answers and history are as before it.
    pub fn reconnect(
        &mut self,
        alloc: Global,
        number: u32,
        end: End,
        id: i64,
        class: u32,
    ) -> Result<u32, SessionFault>
        ensures { IsReconnected number end id class result self.old self.new }
    {
        let next = self.next_number();
        let Ok(edits) = reconnection(alloc, self.scene(), number, end, id, class) else {
            self.roll_back();
            return Err(SessionFault::Memory);
        };
        self.edit_all(&edits)?;
        Ok(next)
    }
}
