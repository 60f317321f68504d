//! The scene by its places: that of the open transaction, if one is open, otherwise the present one.
ghost use Rattle.std.specs.Prelude.{◌≡◌, IfSome, IsNone, Some, false, true};
ghost use Rattle.reroute_c.specs.Scenes.{IsWrittenFrom, box_info, box_info_at, checkpoint_at, connector_info, connector_info_at, pin_info, pin_info_at, read_scene, settings_info};
ghost use Rattle.reroute_c.specs.Lines.{IsCornerWritten};
ghost use Rattle.scene_model.specs.Valid.{IsNode};

use crate::edits::Directions;
use crate::handle::Handle;
use crate::lines::Corner;
use drawing::Drawing;
use scene_model::{Edge, Node, Pin};

/// A box: its id, its centre, its whole width and height, how many pins it has, and whether it is a group.
#[repr(C)]
#[derive(Drop)]
pub struct BoxInfo {
    pub id: i64,
    pub x: i64,
    pub y: i64,
    pub w: i64,
    pub h: i64,
    pub pins: usize,
    pub group: bool,
}

/// A pin: its class, its offset from the centre of its box, and the directions in which lines may leave it.
#[repr(C)]
#[derive(Drop)]
pub struct PinInfo {
    pub class: u32,
    pub dx: i64,
    pub dy: i64,
    pub directions: Directions,
}

/// A connector: its number, its ends with the classes of their pins, and how many checkpoints it has.
#[repr(C)]
#[derive(Drop)]
pub struct ConnectorInfo {
    pub number: u32,
    pub from: i64,
    pub from_class: u32,
    pub to: i64,
    pub to_class: u32,
    pub checkpoints: usize,
}

/// What a bend costs, how far lines keep from boxes, and how far lines side by side are kept apart.
#[repr(C)]
#[derive(Drop)]
pub struct SettingsInfo {
    pub penalty: i64,
    pub buffer: i64,
    pub nudge: i64,
}

impl BoxInfo {
    fn of(node: &Node) -> BoxInfo
        requires { IsNode node.now }
        ensures { result ≡ box_info node.now }
    {
        BoxInfo {
            id: node.id,
            x: node.x,
            y: node.y,
            w: 2 * node.half_w,
            h: 2 * node.half_h,
            pins: node.pins.as_slice().len(),
            group: node.group,
        }
    }
}

impl PinInfo {
    fn of(pin: &Pin) -> PinInfo
        ensures { result ≡ pin_info pin.now }
    {
        PinInfo {
            class: pin.class,
            dx: pin.dx,
            dy: pin.dy,
            directions: Directions {
                east: pin.dirs.east,
                south: pin.dirs.south,
                west: pin.dirs.west,
                north: pin.dirs.north,
            },
        }
    }
}

impl ConnectorInfo {
    fn of(edge: &Edge) -> ConnectorInfo
        ensures { result ≡ connector_info edge.now }
    {
        ConnectorInfo {
            number: edge.number,
            from: edge.from,
            from_class: edge.from_class,
            to: edge.to,
            to_class: edge.to_class,
            checkpoints: edge.via.as_slice().len(),
        }
    }
}

/// Writes the box at the place, if there is one.
fn write_box(drawing: &Drawing, place: usize, info: &mut BoxInfo) -> bool
    ensures { IsWrittenFrom (box_info_at (read_scene drawing.now) place) result info.old info.new }
{
    let scene = drawing.scene();
    scene.valid();
    let Some(node) = scene.node_at(place) else {
        return false;
    };
    *info = BoxInfo::of(node);
    true
}

/// Writes the box at the place, from 0; whether there is one.
#[unsafe(no_mangle)]
pub extern "C" fn reroute_box(handle: &mut Handle, place: usize, info: &mut BoxInfo) -> bool
    ensures closed { IsNone handle.old.drawing → result ≡ false }
    ensures closed_kept { IsNone handle.old.drawing → info.new ≡ info.old }
    ensures info { IfSome handle.old.drawing (λ s. IsWrittenFrom (box_info_at (read_scene s) place) result info.old info.new) }
    ensures kept { handle.new.drawing ≡ handle.old.drawing }
{
    let Some(drawing) = handle.take() else {
        return false;
    };
    let there = write_box(&drawing, place, info);
    handle.put(drawing);
    there
}

/// Writes the pin at the place of a box, if there is one.
fn write_pin(drawing: &Drawing, of: usize, place: usize, info: &mut PinInfo) -> bool
    ensures { IsWrittenFrom (pin_info_at (read_scene drawing.now) of place) result info.old info.new }
{
    let Some(node) = drawing.scene().node_at(of) else {
        return false;
    };
    let Some(pin) = node.pins.as_slice().get(place) else {
        return false;
    };
    *info = PinInfo::of(pin);
    true
}

/// Writes the pin at the place, from 0, of the box at a place, from 0; whether there is one.
#[unsafe(no_mangle)]
pub extern "C" fn reroute_pin(
    handle: &mut Handle,
    of: usize,
    place: usize,
    info: &mut PinInfo,
) -> bool
    ensures closed { IsNone handle.old.drawing → result ≡ false }
    ensures closed_kept { IsNone handle.old.drawing → info.new ≡ info.old }
    ensures pin { IfSome handle.old.drawing (λ s. IsWrittenFrom (pin_info_at (read_scene s) of place) result info.old info.new) }
    ensures kept { handle.new.drawing ≡ handle.old.drawing }
{
    let Some(drawing) = handle.take() else {
        return false;
    };
    let there = write_pin(&drawing, of, place, info);
    handle.put(drawing);
    there
}

/// Writes the connector at the place, if there is one.
fn write_connector(drawing: &Drawing, place: usize, info: &mut ConnectorInfo) -> bool
    ensures { IsWrittenFrom (connector_info_at (read_scene drawing.now) place) result info.old info.new }
{
    let Some(edge) = drawing.scene().edge_at(place) else {
        return false;
    };
    *info = ConnectorInfo::of(edge);
    true
}

/// Writes the connector at the place, from 0, in the order of their numbers; whether there is one.
#[unsafe(no_mangle)]
pub extern "C" fn reroute_connector(
    handle: &mut Handle,
    place: usize,
    info: &mut ConnectorInfo,
) -> bool
    ensures closed { IsNone handle.old.drawing → result ≡ false }
    ensures closed_kept { IsNone handle.old.drawing → info.new ≡ info.old }
    ensures connector { IfSome handle.old.drawing (λ s. IsWrittenFrom (connector_info_at (read_scene s) place) result info.old info.new) }
    ensures kept { handle.new.drawing ≡ handle.old.drawing }
{
    let Some(drawing) = handle.take() else {
        return false;
    };
    let there = write_connector(&drawing, place, info);
    handle.put(drawing);
    there
}

/// Writes a checkpoint of a connector, if there is one.
fn write_checkpoint(drawing: &Drawing, of: usize, place: usize, point: &mut Corner) -> bool
    ensures { IsCornerWritten (checkpoint_at (read_scene drawing.now) of place) result point.old point.new }
{
    let Some(edge) = drawing.scene().edge_at(of) else {
        return false;
    };
    let Some(via) = edge.via.as_slice().get(place) else {
        return false;
    };
    point.x = via.x;
    point.y = via.y;
    true
}

/// Writes the checkpoint at the place, from 0, of the connector at a place, from 0; whether there is one.
#[unsafe(no_mangle)]
pub extern "C" fn reroute_checkpoint(
    handle: &mut Handle,
    of: usize,
    place: usize,
    point: &mut Corner,
) -> bool
    ensures closed { IsNone handle.old.drawing → result ≡ false }
    ensures closed_kept { IsNone handle.old.drawing → point.new ≡ point.old }
    ensures checkpoint { IfSome handle.old.drawing (λ s. IsCornerWritten (checkpoint_at (read_scene s) of place) result point.old point.new) }
    ensures kept { handle.new.drawing ≡ handle.old.drawing }
{
    let Some(drawing) = handle.take() else {
        return false;
    };
    let there = write_checkpoint(&drawing, of, place, point);
    handle.put(drawing);
    there
}

/// Writes the settings; whether a session is open.
#[unsafe(no_mangle)]
pub extern "C" fn reroute_settings(handle: &mut Handle, info: &mut SettingsInfo) -> bool
    ensures closed { IsNone handle.old.drawing → result ≡ false }
    ensures closed_kept { IsNone handle.old.drawing → info.new ≡ info.old }
    ensures settings { IfSome handle.old.drawing (λ s. IsWrittenFrom (Some (settings_info (read_scene s))) result info.old info.new) }
    ensures kept { handle.new.drawing ≡ handle.old.drawing }
{
    let Some(drawing) = handle.take() else {
        return false;
    };
    let settings = drawing.scene().settings();
    *info = SettingsInfo {
        penalty: settings.penalty,
        buffer: settings.buffer,
        nudge: settings.nudge,
    };
    handle.put(drawing);
    true
}
