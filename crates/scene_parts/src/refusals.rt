//! The reasons for which edits are refused. Finding them takes no memory.
ghost use Rattle.std.specs.Prelude.{◌≡◌, ◌-◌, ◌<◌, ◌≤◌, ◌==◌, false, not, length, position, remove, IfSome};
ghost use Rattle.std.specs.List.{list_any};
ghost use Rattle.std.specs.Option.{option_map_or};
ghost use Rattle.scene_model.specs.Edits.{half, in_use, is_no_size, is_off, is_outside, is_no_place, out_of_limits, new_pin, refusal};
ghost use Rattle.scene_model.specs.Scene.{has_class, node_with};
ghost use Rattle.scene_model.specs.Valid.{IsValid};
ghost use Rattle.scene_model.specs.declared.edit.Edit.TheVariants as edits;

use crate::parts::Parts;
use scene_model::{
    Dirs, Edit, Node, Pin, SceneFault, Setting, any_of_class, half, is_off, is_outside,
};

/// Whether no box has this width or height.
fn is_no_size(size: i64) -> bool
    ensures { result ≡ is_no_size size }
{
    size < 0 || 2_000_000_000 < size
}

/// Whether the place, counted from 1, is not that of one of `count` entries.
fn is_no_place(count: usize, place: u32) -> bool
    ensures { result ≡ is_no_place count place }
{
    place == 0 || count < place as usize
}

/// Whether the setting may not have this value.
fn out_of_limits(what: Setting, value: i64) -> bool
    ensures { result ≡ out_of_limits what value }
{
    match what {
        Setting::Penalty => value < 1 || 1_000_000_000 < value,
        Setting::Buffer => value < 1 || 1_000_000 < value,
        Setting::Nudge => value < 0 || 1_000_000 < value,
    }
}

/// A pin as edits add it.
pub(crate) fn new_pin(class: u32, dx: i64, dy: i64, dirs: Dirs) -> Pin
    ensures { result ≡ new_pin class dx dy dirs }
{
    Pin {
        class,
        dx,
        dy,
        dirs,
        cost: 0,
    }
}

/// The number of pins before the first that is outside a box with these half sizes.
fn before_outside(half_w: i64, half_h: i64, pins: &[Pin]) -> Option<usize>
    ensures place { result ≡ position (is_outside half_w half_h) pins.now }
    ensures within { IfSome result (λ k. k < length pins.now) }
{
    pins.iter().position(|p| is_outside(half_w, half_h, *p))
}

/// Whether a pin other than the one at the place, from 0, has the class.
fn any_other_of_class(pins: &[Pin], at: usize, class: u32) -> bool
    requires { at < length pins.now }
    ensures { result ≡ list_any (λ p. p.class == class) (remove pins.now at) }
{
    any_of_class(&pins[..at], class) || any_of_class(&pins[at + 1..], class)
}

impl Parts {
    /// Why the edit is refused: the first refusal that applies, or `None`.
    pub fn refusal(&self, edit: &Edit) -> Option<SceneFault>
        requires { IsValid self.now }
        ensures { result ≡ refusal edit.now self.now }
    {
        match *edit {
            Edit::AddNode { id, x, y, w, h } => self.refusal_of_add_node(id, x, y, w, h),
            Edit::MoveNode { id, x, y } => self.refusal_of_move_node(id, x, y),
            Edit::SizeNode { id, w, h } => self.refusal_of_size_node(id, w, h),
            Edit::DropNode { id } => self.refusal_of_drop_node(id),
            Edit::AddPin {
                id,
                class,
                dx,
                dy,
                dirs,
            } => self.refusal_of_add_pin(id, new_pin(class, dx, dy, dirs)),
            Edit::DropPin { id, place } => self.refusal_of_drop_pin(id, place),
            Edit::AddEdge {
                from,
                to,
                from_class,
                to_class,
            } => self.refusal_of_add_edge(from, to, from_class, to_class),
            Edit::CutEdge { number } => self.refusal_of_cut_edge(number),
            Edit::SetClasses {
                number,
                from_class,
                to_class,
            } => self.refusal_of_set_classes(number, from_class, to_class),
            Edit::AddVia {
                number,
                place,
                x,
                y,
            } => self.refusal_of_add_via(number, place, x, y),
            Edit::DropVia { number, place } => self.refusal_of_drop_via(number, place),
            Edit::Set { what, value } => self.refusal_of_set(what, value),
        }
    }

    fn refusal_of_add_node(&self, id: i64, x: i64, y: i64, w: i64, h: i64) -> Option<SceneFault>
        ensures { result ≡ refusal (edits.AddNode id x y w h) self.now }
    {
        if self.node(id).is_some() {
            return Some(SceneFault::NodeExists { id });
        }
        if self.nodes.len() >= 256 {
            return Some(SceneFault::TooMany { limit: 256 });
        }
        if is_no_size(w) {
            return Some(SceneFault::OutOfRange { word: 5 });
        }
        if is_no_size(h) {
            return Some(SceneFault::OutOfRange { word: 6 });
        }
        if is_off(x, half(w)) {
            return Some(SceneFault::OutOfRange { word: 3 });
        }
        if is_off(y, half(h)) {
            return Some(SceneFault::OutOfRange { word: 4 });
        }
        None
    }

    fn refusal_of_move_node(&self, id: i64, x: i64, y: i64) -> Option<SceneFault>
        ensures { result ≡ refusal (edits.MoveNode id x y) self.now }
    {
        let Some(node) = self.node(id) else {
            return Some(SceneFault::UnknownNode { id });
        };
        if is_off(x, node.half_w) {
            return Some(SceneFault::OutOfRange { word: 3 });
        }
        if is_off(y, node.half_h) {
            return Some(SceneFault::OutOfRange { word: 4 });
        }
        None
    }

    fn refusal_of_size_node(&self, id: i64, w: i64, h: i64) -> Option<SceneFault>
        requires { IsValid self.now }
        ensures { result ≡ refusal (edits.SizeNode id w h) self.now }
    {
        let Some(node) = self.node(id) else {
            return Some(SceneFault::UnknownNode { id });
        };
        if is_no_size(w) {
            return Some(SceneFault::OutOfRange { word: 3 });
        }
        if is_off(node.x, half(w)) {
            return Some(SceneFault::OutOfRange { word: 3 });
        }
        if is_no_size(h) {
            return Some(SceneFault::OutOfRange { word: 4 });
        }
        if is_off(node.y, half(h)) {
            return Some(SceneFault::OutOfRange { word: 4 });
        }
        let before = before_outside(half(w), half(h), node.pins.as_slice())?;
        Some(SceneFault::PinOutside {
            place: before as u32 + 1,
        })
    }

    fn refusal_of_drop_node(&self, id: i64) -> Option<SceneFault>
        ensures { result ≡ refusal (edits.DropNode id) self.now }
    {
        if self.node(id).is_none() {
            return Some(SceneFault::UnknownNode { id });
        }
        let edge = self.first_edge_at(id)?;
        Some(SceneFault::NodeInUse { edge })
    }

    fn refusal_of_add_pin(&self, id: i64, pin: Pin) -> Option<SceneFault>
        requires valid { IsValid self.now }
        requires plain { pin ≡ new_pin pin.class pin.dx pin.dy pin.dirs }
        ensures { result ≡ refusal (edits.AddPin id pin.class pin.dx pin.dy pin.dirs) self.now }
    {
        let Some(node) = self.node(id) else {
            return Some(SceneFault::UnknownNode { id });
        };
        if pin.class == 0 || 65_535 < pin.class {
            return Some(SceneFault::OutOfRange { word: 3 });
        }
        if self.pin_count() >= 256 {
            return Some(SceneFault::TooMany { limit: 256 });
        }
        if is_outside(node.half_w, node.half_h, pin) {
            return Some(SceneFault::PinOutside {
                place: node.pins.as_slice().len() as u32 + 1,
            });
        }
        None
    }

    fn refusal_of_drop_pin(&self, id: i64, place: u32) -> Option<SceneFault>
        ensures { result ≡ refusal (edits.DropPin id place) self.now }
    {
        let Some(node) = self.node(id) else {
            return Some(SceneFault::UnknownNode { id });
        };
        if is_no_place(node.pins.as_slice().len(), place) {
            return Some(SceneFault::NoSuchPlace { place });
        }
        let pin = node.pins.as_slice().get(place as usize - 1)?;
        self.pin_in_use(node, place, *pin)
    }

    /// The refusal if an edge uses the class of this pin, and no other pin of the node has it.
    fn pin_in_use(&self, node: &Node, place: u32, pin: Pin) -> Option<SceneFault>
        requires some { 0 < place }
        requires within { place ≤ length node.now.pins }
        ensures { result ≡ in_use self.now node.now place pin }
    {
        if any_other_of_class(node.pins.as_slice(), place as usize - 1, pin.class) {
            return None;
        }
        let edge = self.first_user(node.id, pin.class)?;
        Some(SceneFault::PinInUse { edge })
    }

    fn refusal_of_add_edge(
        &self,
        from: i64,
        to: i64,
        from_class: u32,
        to_class: u32,
    ) -> Option<SceneFault>
        ensures { result ≡ refusal (edits.AddEdge from to from_class to_class) self.now }
    {
        let Some(source) = self.node(from) else {
            return Some(SceneFault::UnknownNode { id: from });
        };
        let Some(target) = self.node(to) else {
            return Some(SceneFault::UnknownNode { id: to });
        };
        if from == to {
            return Some(SceneFault::SameNode { id: from });
        }
        if !source.has_class(from_class) {
            return Some(SceneFault::UnknownPinClass { class: from_class });
        }
        if !target.has_class(to_class) {
            return Some(SceneFault::UnknownPinClass { class: to_class });
        }
        if self.edges.len() >= 512 {
            return Some(SceneFault::TooMany { limit: 512 });
        }
        if self.next_edge == u32::MAX {
            return Some(SceneFault::TooMany { limit: u32::MAX });
        }
        None
    }

    fn refusal_of_cut_edge(&self, number: u32) -> Option<SceneFault>
        ensures { result ≡ refusal (edits.CutEdge number) self.now }
    {
        if self.edge(number).is_none() {
            return Some(SceneFault::UnknownEdge { number });
        }
        None
    }

    fn refusal_of_set_classes(
        &self,
        number: u32,
        from_class: u32,
        to_class: u32,
    ) -> Option<SceneFault>
        ensures { result ≡ refusal (edits.SetClasses number from_class to_class) self.now }
    {
        let Some(edge) = self.edge(number) else {
            return Some(SceneFault::UnknownEdge { number });
        };
        if edge.from == edge.to {
            return Some(SceneFault::SameNode { id: edge.from });
        }
        if self.lacks_class(edge.from, from_class) {
            return Some(SceneFault::UnknownPinClass { class: from_class });
        }
        if self.lacks_class(edge.to, to_class) {
            return Some(SceneFault::UnknownPinClass { class: to_class });
        }
        None
    }

    fn refusal_of_add_via(&self, number: u32, place: u32, x: i64, y: i64) -> Option<SceneFault>
        requires { IsValid self.now }
        ensures { result ≡ refusal (edits.AddVia number place x y) self.now }
    {
        let Some(edge) = self.edge(number) else {
            return Some(SceneFault::UnknownEdge { number });
        };
        if edge.from == edge.to {
            return Some(SceneFault::SameNode { id: edge.from });
        }
        let own = edge.via.as_slice().len();
        if is_no_place(own.saturating_add(1), place) {
            return Some(SceneFault::NoSuchPlace { place });
        }
        if is_off(x, 0) {
            return Some(SceneFault::OutOfRange { word: 4 });
        }
        if is_off(y, 0) {
            return Some(SceneFault::OutOfRange { word: 5 });
        }
        if own >= 4 {
            return Some(SceneFault::TooMany { limit: 4 });
        }
        if self.via_count() >= 256 {
            return Some(SceneFault::TooMany { limit: 256 });
        }
        None
    }

    fn refusal_of_drop_via(&self, number: u32, place: u32) -> Option<SceneFault>
        ensures { result ≡ refusal (edits.DropVia number place) self.now }
    {
        let Some(edge) = self.edge(number) else {
            return Some(SceneFault::UnknownEdge { number });
        };
        if is_no_place(edge.via.as_slice().len(), place) {
            return Some(SceneFault::NoSuchPlace { place });
        }
        None
    }

    /// Whether the node exists and has no pin of the class.
    pub(crate) fn lacks_class(&self, id: i64, class: u32) -> bool
        ensures { result ≡ option_map_or (λ n. not (has_class n class)) (node_with self.now id) false }
    {
        match self.node(id) {
            Some(node) => !node.has_class(class),
            None => false,
        }
    }

    fn refusal_of_set(&self, what: Setting, value: i64) -> Option<SceneFault>
        ensures { result ≡ refusal (edits.Set what value) self.now }
    {
        if out_of_limits(what, value) {
            return Some(SceneFault::OutOfRange { word: 3 });
        }
        None
    }
}
