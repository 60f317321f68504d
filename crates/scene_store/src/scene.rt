//! The scene: look-ups, single edits, loading, and the inverses of edits.
ghost use Rattle.std.specs.Prelude.{◌≡◌, ◌≢◌, None, IsSomeAnd, IfSome, IfOk, OnOk, OnErr, option_and_then, option_copied, slice_get};
ghost use Rattle.scene_model.specs.Edits.{IsDirected, IsEdited, changed, refusal};
ghost use Rattle.scene_model.specs.Inverses.{IsRestorable, inverse_of, restored};
ghost use Rattle.scene_model.specs.Loads.{IsEdgeLoaded, IsLoadableEdge, IsLoadableNode, IsNodeLoaded};
ghost use Rattle.plane_geom.specs.Floor.{IsFloor};
ghost use Rattle.walk_model.specs.Floors.{IsTaskOn};
ghost use Rattle.scene_model.specs.Routing.{floor_of, solids, task_of};
ghost use Rattle.scene_model.specs.Scene.{Scene as SceneValue, edge_with, empty_scene, node_with, pin_count, via_count};
ghost use Rattle.scene_model.specs.Valid.{HasDirection, IsValid};
ghost use Rattle.scene_model.specs.declared.edit.Edit.TheVariants as edits;

use crate::routing;
use plane_geom::{Floor, Solids};
use scene_model::{Dirs, Edge, Edit, Inverse, Node, SceneFault, Setting, Settings};
use scene_parts::Parts;
use std::alloc::{AllocError, Global};
use std::marker::Model;
use walk_model::{Choice, Task};

/// The nodes and edges of a diagram, in order, its settings and the next edge number. It is always
/// valid.
#[derive(Drop)]
pub struct Scene {
    parts: Parts,
    alloc: Global,
}

impl Model for Scene {
    ghost Value = { SceneValue };

    ghost view = { λ s. s.parts };

    ghost invariant = { λ s. IsValid s.parts };
}

impl Scene {
    /// No nodes, no edges, the default settings, and 1 as the next edge number. Takes no memory.
    pub fn new(alloc: Global) -> Scene
        ensures { result ≡ empty_scene }
    {
        Scene {
            parts: Parts::new(alloc),
            alloc,
        }
    }

    /// What holds of every scene, for proofs: it is valid. Does nothing.
    pub fn valid(&self)
        ensures { IsValid self.now }
    {
        let _ = &self.parts;
    }

    /// The node with the id.
    pub fn node(&self, id: i64) -> Option<&Node>
        ensures { option_copied result ≡ node_with self.now id }
    {
        self.parts.node(id)
    }

    /// The edge with the number.
    pub fn edge(&self, number: u32) -> Option<&Edge>
        ensures { option_copied result ≡ edge_with self.now number }
    {
        self.parts.edge(number)
    }

    /// The nodes, in order.
    pub fn nodes(&self) -> &[Node]
        ensures value { result.now ≡ self.now.nodes }
        ensures valid { IsValid self.now }
    {
        self.parts.nodes()
    }

    /// The edges, in order.
    pub fn edges(&self) -> &[Edge]
        ensures value { result.now ≡ self.now.edges }
        ensures valid { IsValid self.now }
    {
        self.parts.edges()
    }

    /// The number of pins that were added to the nodes.
    pub fn pin_count(&self) -> usize
        ensures { result ≡ pin_count self.now }
    {
        self.parts.pin_count()
    }

    /// The number of checkpoints of the connectors.
    pub fn via_count(&self) -> usize
        ensures { result ≡ via_count self.now }
    {
        self.parts.via_count()
    }

    /// The node at the place, from 0.
    pub fn node_at(&self, place: usize) -> Option<&Node>
        ensures { option_copied result ≡ slice_get self.now.nodes place }
    {
        self.parts.nodes().get(place)
    }

    /// The edge at the place, from 0.
    pub fn edge_at(&self, place: usize) -> Option<&Edge>
        ensures { option_copied result ≡ slice_get self.now.edges place }
    {
        self.parts.edges().get(place)
    }

    /// The settings. For proofs, the call also shows that the scene is valid.
    pub fn settings(&self) -> Settings
        ensures value { result ≡ self.now.settings }
        ensures valid { IsValid self.now }
    {
        self.parts.settings()
    }

    /// The number of the next edge that is added.
    pub fn next_edge(&self) -> u32
        ensures value { result ≡ self.now.next_edge }
        ensures valid { IsValid self.now }
    {
        self.parts.next_edge()
    }

    /// A copy of the scene. The only error is out of memory.
    pub fn copy(&self) -> Result<Scene, AllocError>
        ensures { IfOk result (λ s. s ≡ self.now) }
    {
        Ok(Scene {
            parts: self.parts.copy()?,
            alloc: self.alloc,
        })
    }

    /// The floor for a visibility graph of the scene: the solids of its nodes, and as anchors the
    /// ports of all pins and the checkpoints of all connectors. The only error is out of memory.
    pub fn floor(&self) -> Result<Floor, AllocError>
        ensures floor { IfOk result (λ f. f ≡ floor_of self.now) }
        ensures fits { IfOk result IsFloor }
    {
        routing::floor(self.alloc, &self.parts)
    }

    /// The solids of its nodes, in order. The only error is out of memory.
    pub fn solids(&self) -> Result<Solids, AllocError>
        ensures { IfOk result (λ s. s ≡ solids self.now) }
    {
        routing::solids(self.alloc, &self.parts)
    }

    /// The task of the connector with the number; the edge exists and is not a loop. The only error
    /// is out of memory.
    pub fn task(&self, number: u32) -> Result<Task, AllocError>
        requires { IsSomeAnd (edge_with self.now number) (λ e. e.from ≢ e.to) }
        ensures ok { IfOk result (λ t. IfSome (edge_with self.now number) (λ e. t ≡ task_of self.now e)) }
        ensures task { IfOk result (IsTaskOn (solids self.now)) }
    {
        routing::task(self.alloc, &self.parts, number)
    }

    /// The choice at the place, from 0, among those of the source of the edge with the number.
    pub fn start_at(&self, number: u32, place: usize) -> Option<Choice>
        ensures { result ≡ option_and_then (λ e. slice_get (task_of self.now e).starts place) (edge_with self.now number) }
    {
        routing::start_at(&self.parts, number, place)
    }

    /// The choice at the place, from 0, among those of the target of the edge with the number.
    pub fn end_at(&self, number: u32, place: usize) -> Option<Choice>
        ensures { result ≡ option_and_then (λ e. slice_get (task_of self.now e).ends place) (edge_with self.now number) }
    {
        routing::end_at(&self.parts, number, place)
    }

    /// Why the edit would be refused: the first refusal that applies, or `None`. Takes no memory.
    pub fn refusal(&self, edit: &Edit) -> Option<SceneFault>
        ensures { result ≡ refusal edit.now self.now }
    {
        self.parts.refusal(edit)
    }

    /// Applies an edit that is not refused. The only error is out of memory, which leaves everything
    /// as it was.
    pub fn change(&mut self, edit: &Edit) -> Result<(), AllocError>
        requires directed { IsDirected edit.now }
        requires free { refusal edit.now self.old ≡ None }
        ensures ok { OnOk result (self.new ≡ changed edit.now self.old) }
        ensures err { OnErr result (self.new ≡ self.old) }
    {
        self.parts.change(edit)
    }

    /// Applies an edit. A refusal or out of memory leaves everything as it was.
    pub fn edit(&mut self, edit: &Edit) -> Result<(), SceneFault>
        requires { IsDirected edit.now }
        ensures { IsEdited edit.now self.old self.new result }
    {
        if let Some(fault) = self.refusal(edit) {
            return Err(fault);
        }
        match self.change(edit) {
            Ok(()) => Ok(()),
            Err(_) => Err(SceneFault::Memory),
        }
    }

    /// Appends a node without pins. Its sizes are halved and rounded up.
    pub fn add_node(&mut self, id: i64, x: i64, y: i64, w: i64, h: i64) -> Result<(), SceneFault>
        ensures { IsEdited (edits.AddNode id x y w h) self.old self.new result }
    {
        self.edit(&Edit::AddNode { id, x, y, w, h })
    }

    /// Moves the centre of a node.
    pub fn move_node(&mut self, id: i64, x: i64, y: i64) -> Result<(), SceneFault>
        ensures { IsEdited (edits.MoveNode id x y) self.old self.new result }
    {
        self.edit(&Edit::MoveNode { id, x, y })
    }

    /// Changes the sizes of a node; they are halved and rounded up.
    pub fn size_node(&mut self, id: i64, w: i64, h: i64) -> Result<(), SceneFault>
        ensures { IsEdited (edits.SizeNode id w h) self.old self.new result }
    {
        self.edit(&Edit::SizeNode { id, w, h })
    }

    /// Removes a node at which no edge ends.
    pub fn drop_node(&mut self, id: i64) -> Result<(), SceneFault>
        ensures { IsEdited (edits.DropNode id) self.old self.new result }
    {
        self.edit(&Edit::DropNode { id })
    }

    /// Appends a pin of connection cost 0 to a node, by its offset from the centre.
    pub fn add_pin(
        &mut self,
        id: i64,
        class: u32,
        dx: i64,
        dy: i64,
        dirs: Dirs,
    ) -> Result<(), SceneFault>
        requires { HasDirection dirs }
        ensures { IsEdited (edits.AddPin id class dx dy dirs) self.old self.new result }
    {
        self.edit(&Edit::AddPin {
            id,
            class,
            dx,
            dy,
            dirs,
        })
    }

    /// Removes the pin at the place, from 1.
    pub fn drop_pin(&mut self, id: i64, place: u32) -> Result<(), SceneFault>
        ensures { IsEdited (edits.DropPin id place) self.old self.new result }
    {
        self.edit(&Edit::DropPin { id, place })
    }

    /// Appends a connector. It takes the next edge number, which rises by one.
    pub fn add_edge(
        &mut self,
        from: i64,
        to: i64,
        from_class: u32,
        to_class: u32,
    ) -> Result<(), SceneFault>
        ensures { IsEdited (edits.AddEdge from to from_class to_class) self.old self.new result }
    {
        self.edit(&Edit::AddEdge {
            from,
            to,
            from_class,
            to_class,
        })
    }

    /// Removes an edge.
    pub fn cut_edge(&mut self, number: u32) -> Result<(), SceneFault>
        ensures { IsEdited (edits.CutEdge number) self.old self.new result }
    {
        self.edit(&Edit::CutEdge { number })
    }

    /// Changes the pin classes of the ends of a connector.
    pub fn set_classes(
        &mut self,
        number: u32,
        from_class: u32,
        to_class: u32,
    ) -> Result<(), SceneFault>
        ensures { IsEdited (edits.SetClasses number from_class to_class) self.old self.new result }
    {
        self.edit(&Edit::SetClasses {
            number,
            from_class,
            to_class,
        })
    }

    /// Inserts a checkpoint of a connector at the place, from 1.
    pub fn add_via(&mut self, number: u32, place: u32, x: i64, y: i64) -> Result<(), SceneFault>
        ensures { IsEdited (edits.AddVia number place x y) self.old self.new result }
    {
        self.edit(&Edit::AddVia {
            number,
            place,
            x,
            y,
        })
    }

    /// Removes the checkpoint at the place, from 1.
    pub fn drop_via(&mut self, number: u32, place: u32) -> Result<(), SceneFault>
        ensures { IsEdited (edits.DropVia number place) self.old self.new result }
    {
        self.edit(&Edit::DropVia { number, place })
    }

    /// Changes a setting.
    pub fn set(&mut self, what: Setting, value: i64) -> Result<(), SceneFault>
        ensures { IsEdited (edits.Set what value) self.old self.new result }
    {
        self.edit(&Edit::Set { what, value })
    }

    /// The inverse of an edit that is not refused. The only error is out of memory.
    pub fn inverse(&self, edit: &Edit) -> Result<Inverse, AllocError>
        requires { refusal edit.now self.now ≡ None }
        ensures { IfOk result (λ i. i ≡ inverse_of edit.now self.now) }
    {
        self.parts.inverse(edit)
    }

    /// Applies the inverse of an edit. The only error is out of memory, which leaves everything as
    /// it was.
    pub fn restore(&mut self, inverse: &Inverse) -> Result<(), AllocError>
        requires { IsRestorable inverse.now self.old }
        ensures ok { OnOk result (self.new ≡ restored inverse.now self.old) }
        ensures err { OnErr result (self.new ≡ self.old) }
    {
        self.parts.restore(inverse)
    }

    /// Appends a node of a diagram, with its pins and origin. A refusal or out of memory leaves
    /// everything as it was.
    pub fn load_node(&mut self, node: Node) -> Result<(), SceneFault>
        requires { IsLoadableNode node }
        ensures { IsNodeLoaded node self.old self.new result }
    {
        if let Some(fault) = self.parts.node_refusal(&node) {
            return Err(fault);
        }
        match self.parts.push_node(node) {
            Ok(()) => Ok(()),
            Err(_) => Err(SceneFault::Memory),
        }
    }

    /// Appends an edge of a diagram, with its checkpoints and origin; the next edge number becomes
    /// its number plus 1. A refusal or out of memory leaves everything as it was.
    pub fn load_edge(&mut self, edge: Edge) -> Result<(), SceneFault>
        requires { IsLoadableEdge self.old edge }
        ensures { IsEdgeLoaded edge self.old self.new result }
    {
        if let Some(fault) = self.parts.edge_refusal(&edge) {
            return Err(fault);
        }
        match self.parts.push_edge(edge) {
            Ok(()) => Ok(()),
            Err(_) => Err(SceneFault::Memory),
        }
    }
}
