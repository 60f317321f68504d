//! The inverses of edits.
ghost use Rattle.std.specs.Prelude.{◌≡◌, None, IsSome, IfOk, OnOk, OnErr};
ghost use Rattle.scene_model.specs.Edits.{refusal};
ghost use Rattle.scene_model.specs.Inverses.{Fits, inverse_of, put_edge, put_node, restored, set_edge, set_node, setting_value};
ghost use Rattle.scene_model.specs.Scene.{edge_with, node_with};
ghost use Rattle.scene_model.specs.Valid.{IsValid};

use crate::changes::with_setting;
use crate::parts::Parts;
use scene_model::{Edit, Inverse, Setting, Settings};
use std::alloc::AllocError;

/// The value of a setting.
fn value_of(what: Setting, settings: Settings) -> i64
    ensures { result ≡ setting_value what settings }
{
    match what {
        Setting::Penalty => settings.penalty,
        Setting::Buffer => settings.buffer,
        Setting::Nudge => settings.nudge,
    }
}

impl Parts {
    /// The inverse of an edit that is not refused. The only error is out of memory.
    pub fn inverse(&self, edit: &Edit) -> Result<Inverse, AllocError>
        requires valid { IsValid self.now }
        requires free { refusal edit.now self.now ≡ None }
        ensures { IfOk result (λ i. i ≡ inverse_of edit.now self.now) }
    {
        match *edit {
            Edit::AddNode { id, .. } => Ok(Inverse::TakeNode { id }),
            Edit::MoveNode { id, .. } => self.node_set_back(id),
            Edit::SizeNode { id, .. } => self.node_set_back(id),
            Edit::AddPin { id, .. } => self.node_set_back(id),
            Edit::DropPin { id, .. } => self.node_set_back(id),
            Edit::DropNode { id } => self.node_put_back(id),
            Edit::AddEdge { .. } => Ok(Inverse::TakeEdge {
                number: self.next_edge,
                next: self.next_edge,
            }),
            Edit::CutEdge { number } => self.edge_put_back(number),
            Edit::SetClasses { number, .. } => self.edge_set_back(number),
            Edit::AddVia { number, .. } => self.edge_set_back(number),
            Edit::DropVia { number, .. } => self.edge_set_back(number),
            Edit::Set { what, .. } => Ok(Inverse::Set {
                what,
                value: value_of(what, self.settings),
            }),
        }
    }

    fn node_set_back(&self, id: i64) -> Result<Inverse, AllocError>
        requires { IsSome (node_with self.now id) }
        ensures { IfOk result (λ i. i ≡ set_node self.now id) }
    {
        Ok(Inverse::SetNode {
            node: self.node_copy(id)?,
        })
    }

    fn edge_set_back(&self, number: u32) -> Result<Inverse, AllocError>
        requires { IsSome (edge_with self.now number) }
        ensures { IfOk result (λ i. i ≡ set_edge self.now number) }
    {
        Ok(Inverse::SetEdge {
            edge: self.edge_copy(number)?,
        })
    }

    fn node_put_back(&self, id: i64) -> Result<Inverse, AllocError>
        requires valid { IsValid self.now }
        requires there { IsSome (node_with self.now id) }
        ensures { IfOk result (λ i. i ≡ put_node self.now id) }
    {
        let before = self.nodes.place_of(id).unwrap();
        Ok(Inverse::PutNode {
            place: before as u32 + 1,
            node: self.node_copy(id)?,
        })
    }

    fn edge_put_back(&self, number: u32) -> Result<Inverse, AllocError>
        requires valid { IsValid self.now }
        requires there { IsSome (edge_with self.now number) }
        ensures { IfOk result (λ i. i ≡ put_edge self.now number) }
    {
        let before = self.edges.place_of(i64::from(number)).unwrap();
        Ok(Inverse::PutEdge {
            place: before as u32 + 1,
            edge: self.edge_copy(number)?,
        })
    }

    /// Applies the inverse of an edit. The only error is out of memory, which leaves everything as
    /// it was.
    pub fn restore(&mut self, inverse: &Inverse) -> Result<(), AllocError>
        requires valid { IsValid self.old }
        requires fits { Fits inverse.now self.old }
        ensures ok { OnOk result (self.new ≡ restored inverse.now self.old) }
        ensures err { OnErr result (self.new ≡ self.old) }
    {
        match inverse {
            Inverse::PutNode { place, node } => {
                let node = node.copy(self.alloc)?;
                self.nodes.put_at(*place as usize - 1, node)
            }
            Inverse::TakeNode { id } => {
                self.take_node(*id);
                Ok(())
            }
            Inverse::SetNode { node } => {
                let node = node.copy(self.alloc)?;
                self.set_node(node);
                Ok(())
            }
            Inverse::PutEdge { place, edge } => {
                let edge = edge.copy(self.alloc)?;
                self.edges.put_at(*place as usize - 1, edge)
            }
            Inverse::TakeEdge { number, next } => {
                self.take_edge(*number);
                self.next_edge = *next;
                Ok(())
            }
            Inverse::SetEdge { edge } => {
                let edge = edge.copy(self.alloc)?;
                self.set_edge(edge);
                Ok(())
            }
            Inverse::Set { what, value } => {
                self.settings = with_setting(*what, *value, self.settings);
                Ok(())
            }
        }
    }
}
