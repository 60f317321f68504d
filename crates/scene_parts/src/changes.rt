//! The effect of edits that are not refused on the lists of a scene.
ghost use Rattle.std.specs.Prelude.{◌≡◌, None, Some, IsSome, IfOk, OnOk, OnErr};
ghost use Rattle.scene_model.specs.Edits.{change_node, change_edge, changed, new_edge, new_node, new_pin, refusal, with_setting};
ghost use Rattle.scene_model.specs.Scene.{node_with, edge_with};
ghost use Rattle.scene_model.specs.Valid.{IsValid};
ghost use Rattle.scene_model.specs.declared.edit.Edit.TheVariants as edits;

use crate::parts::Parts;
use crate::refusals::new_pin;
use plane_geom::Point;
use scene_model::{Edge, Edit, Node, Pin, Pins, Setting, Settings, Via, half};
use std::alloc::{AllocError, Global};

/// The width and height of a box.
#[derive(Clone, Copy)]
struct Size {
    w: i64,
    h: i64,
}

/// A node as edits add it.
fn new_node(alloc: Global, id: i64, x: i64, y: i64, half_w: i64, half_h: i64) -> Node
    ensures { result ≡ new_node id x y half_w half_h }
{
    Node {
        id,
        x,
        y,
        half_w,
        half_h,
        group: false,
        pins: Pins(Vec::new(alloc)),
        origin: None,
    }
}

/// An edge as edits add it.
fn new_edge(alloc: Global, number: u32, from: i64, to: i64, from_class: u32, to_class: u32) -> Edge
    ensures { result ≡ new_edge number from to from_class to_class }
{
    Edge {
        number,
        from,
        to,
        from_class,
        to_class,
        via: Via::new(alloc),
        origin: None,
        weight: 1,
    }
}

/// The settings with this one changed.
pub(crate) fn with_setting(what: Setting, value: i64, settings: Settings) -> Settings
    ensures { result ≡ with_setting what value settings }
{
    match what {
        Setting::Penalty => Settings {
            penalty: value,
            ..settings
        },
        Setting::Buffer => Settings {
            buffer: value,
            ..settings
        },
        Setting::Nudge => Settings {
            nudge: value,
            ..settings
        },
    }
}

impl Parts {
    /// A copy of the node with the id.
    pub(crate) fn node_copy(&self, id: i64) -> Result<Node, AllocError>
        requires { IsSome (node_with self.now id) }
        ensures { IfOk result (λ n. node_with self.now id ≡ Some n) }
    {
        self.node(id).unwrap().copy(self.alloc)
    }

    /// A copy of the edge with the number.
    pub(crate) fn edge_copy(&self, number: u32) -> Result<Edge, AllocError>
        requires { IsSome (edge_with self.now number) }
        ensures { IfOk result (λ e. edge_with self.now number ≡ Some e) }
    {
        self.edge(number).unwrap().copy(self.alloc)
    }

    /// Replaces the node that has the same id.
    pub(crate) fn set_node(&mut self, node: Node)
        requires valid { IsValid self.old }
        requires there { IsSome (node_with self.old node.id) }
        ensures { self.new ≡ change_node self.old node.id (λ _. node) }
    {
        self.nodes.set(node);
    }

    /// Replaces the edge that has the same number.
    pub(crate) fn set_edge(&mut self, edge: Edge)
        requires valid { IsValid self.old }
        requires there { IsSome (edge_with self.old edge.number) }
        ensures { self.new ≡ change_edge self.old edge.number (λ _. edge) }
    {
        self.edges.set(edge);
    }

    /// Removes the node with the id.
    pub(crate) fn take_node(&mut self, id: i64)
        requires valid { IsValid self.old }
        requires there { IsSome (node_with self.old id) }
        ensures { self.new ≡ changed (edits.DropNode id) self.old }
    {
        self.nodes.take(id);
    }

    /// Removes the edge with the number.
    pub(crate) fn take_edge(&mut self, number: u32)
        requires valid { IsValid self.old }
        requires there { IsSome (edge_with self.old number) }
        ensures { self.new ≡ changed (edits.CutEdge number) self.old }
    {
        self.edges.take(i64::from(number));
    }

    /// Applies an edit that is not refused. The only error is out of memory, which leaves
    /// everything as it was.
    pub fn change(&mut self, edit: &Edit) -> Result<(), AllocError>
        requires valid { IsValid self.old }
        requires free { refusal edit.now self.old ≡ None }
        ensures ok { OnOk result (self.new ≡ changed edit.now self.old) }
        ensures err { OnErr result (self.new ≡ self.old) }
    {
        match *edit {
            Edit::AddNode { id, x, y, w, h } => self.add_node(id, x, y, w, h),
            Edit::MoveNode { id, x, y } => self.move_node(id, Point { x, y }),
            Edit::SizeNode { id, w, h } => self.size_node(id, Size { w, h }),
            Edit::DropNode { id } => self.drop_node(id),
            Edit::AddPin {
                id,
                class,
                dx,
                dy,
                dirs,
            } => self.add_pin(id, new_pin(class, dx, dy, dirs)),
            Edit::DropPin { id, place } => self.drop_pin(id, place),
            Edit::AddEdge {
                from,
                to,
                from_class,
                to_class,
            } => self.add_edge(from, to, from_class, to_class),
            Edit::CutEdge { number } => self.cut_edge(number),
            Edit::SetClasses {
                number,
                from_class,
                to_class,
            } => self.set_classes(number, from_class, to_class),
            Edit::AddVia {
                number,
                place,
                x,
                y,
            } => self.add_via(number, place, Point { x, y }),
            Edit::DropVia { number, place } => self.drop_via(number, place),
            Edit::Set { what, value } => {
                self.settings = with_setting(what, value, self.settings);
                Ok(())
            }
        }
    }

    fn add_node(&mut self, id: i64, x: i64, y: i64, w: i64, h: i64) -> Result<(), AllocError>
        requires { refusal (edits.AddNode id x y w h) self.old ≡ None }
        ensures ok { OnOk result (self.new ≡ changed (edits.AddNode id x y w h) self.old) }
        ensures err { OnErr result (self.new ≡ self.old) }
    {
        let node = new_node(self.alloc, id, x, y, half(w), half(h));
        self.nodes.push(node)
    }

    fn move_node(&mut self, id: i64, centre: Point) -> Result<(), AllocError>
        requires valid { IsValid self.old }
        requires free { refusal (edits.MoveNode id centre.x centre.y) self.old ≡ None }
        ensures ok { OnOk result (self.new ≡ changed (edits.MoveNode id centre.x centre.y) self.old) }
        ensures err { OnErr result (self.new ≡ self.old) }
    {
        let mut node = self.node_copy(id)?;
        node.x = centre.x;
        node.y = centre.y;
        self.set_node(node);
        Ok(())
    }

    fn size_node(&mut self, id: i64, size: Size) -> Result<(), AllocError>
        requires valid { IsValid self.old }
        requires free { refusal (edits.SizeNode id size.w size.h) self.old ≡ None }
        ensures ok { OnOk result (self.new ≡ changed (edits.SizeNode id size.w size.h) self.old) }
        ensures err { OnErr result (self.new ≡ self.old) }
    {
        let mut node = self.node_copy(id)?;
        node.half_w = half(size.w);
        node.half_h = half(size.h);
        self.set_node(node);
        Ok(())
    }

    fn drop_node(&mut self, id: i64) -> Result<(), AllocError>
        requires valid { IsValid self.old }
        requires free { refusal (edits.DropNode id) self.old ≡ None }
        ensures ok { OnOk result (self.new ≡ changed (edits.DropNode id) self.old) }
        ensures err { OnErr result (self.new ≡ self.old) }
    {
        self.take_node(id);
        Ok(())
    }

    fn add_pin(&mut self, id: i64, pin: Pin) -> Result<(), AllocError>
        requires valid { IsValid self.old }
        requires plain { pin ≡ new_pin pin.class pin.dx pin.dy pin.dirs }
        requires free { refusal (edits.AddPin id pin.class pin.dx pin.dy pin.dirs) self.old ≡ None }
        ensures ok { OnOk result (self.new ≡ changed (edits.AddPin id pin.class pin.dx pin.dy pin.dirs) self.old) }
        ensures err { OnErr result (self.new ≡ self.old) }
    {
        let mut node = self.node_copy(id)?;
        node.pins.push(pin)?;
        self.set_node(node);
        Ok(())
    }

    fn drop_pin(&mut self, id: i64, place: u32) -> Result<(), AllocError>
        requires valid { IsValid self.old }
        requires free { refusal (edits.DropPin id place) self.old ≡ None }
        ensures ok { OnOk result (self.new ≡ changed (edits.DropPin id place) self.old) }
        ensures err { OnErr result (self.new ≡ self.old) }
    {
        let mut node = self.node_copy(id)?;
        node.pins.remove(place as usize - 1);
        self.set_node(node);
        Ok(())
    }

    fn add_edge(
        &mut self,
        from: i64,
        to: i64,
        from_class: u32,
        to_class: u32,
    ) -> Result<(), AllocError>
        requires valid { IsValid self.old }
        requires free { refusal (edits.AddEdge from to from_class to_class) self.old ≡ None }
        ensures ok { OnOk result (self.new ≡ changed (edits.AddEdge from to from_class to_class) self.old) }
        ensures err { OnErr result (self.new ≡ self.old) }
    {
        let edge = new_edge(self.alloc, self.next_edge, from, to, from_class, to_class);
        self.edges.push(edge)?;
        self.next_edge += 1;
        Ok(())
    }

    fn cut_edge(&mut self, number: u32) -> Result<(), AllocError>
        requires valid { IsValid self.old }
        requires free { refusal (edits.CutEdge number) self.old ≡ None }
        ensures ok { OnOk result (self.new ≡ changed (edits.CutEdge number) self.old) }
        ensures err { OnErr result (self.new ≡ self.old) }
    {
        self.take_edge(number);
        Ok(())
    }

    fn set_classes(&mut self, number: u32, from_class: u32, to_class: u32) -> Result<(), AllocError>
        requires valid { IsValid self.old }
        requires free { refusal (edits.SetClasses number from_class to_class) self.old ≡ None }
        ensures ok { OnOk result (self.new ≡ changed (edits.SetClasses number from_class to_class) self.old) }
        ensures err { OnErr result (self.new ≡ self.old) }
    {
        let mut edge = self.edge_copy(number)?;
        edge.from_class = from_class;
        edge.to_class = to_class;
        self.set_edge(edge);
        Ok(())
    }

    fn add_via(&mut self, number: u32, place: u32, point: Point) -> Result<(), AllocError>
        requires valid { IsValid self.old }
        requires free { refusal (edits.AddVia number place point.x point.y) self.old ≡ None }
        ensures ok { OnOk result (self.new ≡ changed (edits.AddVia number place point.x point.y) self.old) }
        ensures err { OnErr result (self.new ≡ self.old) }
    {
        let mut edge = self.edge_copy(number)?;
        edge.via.insert(place as usize - 1, point)?;
        self.set_edge(edge);
        Ok(())
    }

    fn drop_via(&mut self, number: u32, place: u32) -> Result<(), AllocError>
        requires valid { IsValid self.old }
        requires free { refusal (edits.DropVia number place) self.old ≡ None }
        ensures ok { OnOk result (self.new ≡ changed (edits.DropVia number place) self.old) }
        ensures err { OnErr result (self.new ≡ self.old) }
    {
        let mut edge = self.edge_copy(number)?;
        edge.via.remove(place as usize - 1);
        self.set_edge(edge);
        Ok(())
    }
}
