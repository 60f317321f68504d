//! Tests of the scene: refusals in order, limits, each edit applied and taken back, and loading.
ghost use Rattle.std.specs.Prelude.{IsTrue};
ghost use Rattle.scene_model.specs.Edits.{IsDirected};

use plane_geom::{Dir, Point, Rect, Solid};
use scene_store::{Dirs, Edge, Edit, Node, Pins, Scene, SceneFault, Setting, Via};
use std::alloc::Global;
use walk_model::{Choice, Task};

/// Two boxes, three pins, two edges and a checkpoint.
const SMALL: [Edit; 8] = [
    Edit::AddNode {
        id: 1,
        x: 0,
        y: 0,
        w: 20_000,
        h: 20_001,
    },
    Edit::AddNode {
        id: 2,
        x: -100_000,
        y: 0,
        w: 20_000,
        h: 20_000,
    },
    Edit::AddPin {
        id: 1,
        class: 7,
        dx: 10_000,
        dy: 0,
        dirs: Dirs::EAST,
    },
    Edit::AddPin {
        id: 1,
        class: 7,
        dx: 0,
        dy: 10_001,
        dirs: Dirs::EAST,
    },
    Edit::AddPin {
        id: 1,
        class: 8,
        dx: 0,
        dy: 0,
        dirs: Dirs::EAST,
    },
    Edit::AddEdge {
        from: 1,
        to: 2,
        from_class: 7,
        to_class: 0,
    },
    Edit::AddEdge {
        from: 2,
        to: 1,
        from_class: 0,
        to_class: 8,
    },
    Edit::AddVia {
        number: 1,
        place: 1,
        x: 50,
        y: 60,
    },
];

/// The other edits, and those that make room for them.
const CHANGES: [Edit; 9] = [
    Edit::SizeNode {
        id: 1,
        w: 20_001,
        h: 20_002,
    },
    Edit::MoveNode { id: 1, x: 5, y: 6 },
    Edit::DropVia {
        number: 1,
        place: 1,
    },
    Edit::SetClasses {
        number: 1,
        from_class: 0,
        to_class: 0,
    },
    Edit::DropPin { id: 1, place: 1 },
    Edit::CutEdge { number: 1 },
    Edit::CutEdge { number: 2 },
    Edit::DropNode { id: 2 },
    Edit::Set {
        what: Setting::Penalty,
        value: 9,
    },
];

/// Edits of the small scene and their refusals.
const REFUSALS: [(Edit, Option<SceneFault>); 42] = [
    (
        Edit::AddNode {
            id: 1,
            x: 0,
            y: 0,
            w: -1,
            h: -1,
        },
        Some(SceneFault::NodeExists { id: 1 }),
    ),
    (
        Edit::AddNode {
            id: 3,
            x: 0,
            y: 0,
            w: 2000000001,
            h: -1,
        },
        Some(SceneFault::OutOfRange { word: 5 }),
    ),
    (
        Edit::AddNode {
            id: 3,
            x: 0,
            y: 0,
            w: 0,
            h: 2000000001,
        },
        Some(SceneFault::OutOfRange { word: 6 }),
    ),
    (
        Edit::AddNode {
            id: 3,
            x: 1000000000,
            y: 0,
            w: 1,
            h: 0,
        },
        Some(SceneFault::OutOfRange { word: 3 }),
    ),
    (
        Edit::AddNode {
            id: 3,
            x: 999999999,
            y: 0,
            w: 1,
            h: 0,
        },
        None,
    ),
    (
        Edit::AddNode {
            id: i64::MIN,
            x: 0,
            y: 0,
            w: 2000000000,
            h: 2000000000,
        },
        None,
    ),
    (
        Edit::MoveNode { id: 9, x: 0, y: 0 },
        Some(SceneFault::UnknownNode { id: 9 }),
    ),
    (
        Edit::MoveNode {
            id: 1,
            x: 999990000,
            y: -1000000000,
        },
        Some(SceneFault::OutOfRange { word: 4 }),
    ),
    (
        Edit::MoveNode {
            id: 1,
            x: i64::MIN,
            y: 0,
        },
        Some(SceneFault::OutOfRange { word: 3 }),
    ),
    (
        Edit::SizeNode {
            id: 1,
            w: 2000000000,
            h: -1,
        },
        Some(SceneFault::OutOfRange { word: 4 }),
    ),
    (
        Edit::SizeNode {
            id: 2,
            w: 2000000000,
            h: 2000000000,
        },
        Some(SceneFault::OutOfRange { word: 3 }),
    ),
    (
        Edit::SizeNode {
            id: 1,
            w: 19999,
            h: 20001,
        },
        None,
    ),
    (
        Edit::SizeNode {
            id: 1,
            w: 19998,
            h: 0,
        },
        Some(SceneFault::PinOutside { place: 1 }),
    ),
    (
        Edit::SizeNode {
            id: 1,
            w: 19999,
            h: 19999,
        },
        Some(SceneFault::PinOutside { place: 2 }),
    ),
    (
        Edit::DropNode { id: 1 },
        Some(SceneFault::NodeInUse { edge: 1 }),
    ),
    (
        Edit::AddPin {
            id: 1,
            class: 65536,
            dx: 99999,
            dy: 0,
            dirs: Dirs::EAST,
        },
        Some(SceneFault::OutOfRange { word: 3 }),
    ),
    (
        Edit::AddPin {
            id: 1,
            class: 65535,
            dx: 10000,
            dy: -10001,
            dirs: Dirs::EAST,
        },
        None,
    ),
    (
        Edit::AddPin {
            id: 1,
            class: 1,
            dx: 0,
            dy: -10002,
            dirs: Dirs::EAST,
        },
        Some(SceneFault::PinOutside { place: 4 }),
    ),
    (
        Edit::DropPin { id: 1, place: 0 },
        Some(SceneFault::NoSuchPlace { place: 0 }),
    ),
    (
        Edit::DropPin { id: 1, place: 4 },
        Some(SceneFault::NoSuchPlace { place: 4 }),
    ),
    (
        Edit::DropPin { id: 1, place: 3 },
        Some(SceneFault::PinInUse { edge: 2 }),
    ),
    (Edit::DropPin { id: 1, place: 1 }, None),
    (
        Edit::AddEdge {
            from: 8,
            to: 9,
            from_class: 9,
            to_class: 9,
        },
        Some(SceneFault::UnknownNode { id: 8 }),
    ),
    (
        Edit::AddEdge {
            from: 1,
            to: 9,
            from_class: 9,
            to_class: 9,
        },
        Some(SceneFault::UnknownNode { id: 9 }),
    ),
    (
        Edit::AddEdge {
            from: 1,
            to: 1,
            from_class: 9,
            to_class: 9,
        },
        Some(SceneFault::SameNode { id: 1 }),
    ),
    (
        Edit::AddEdge {
            from: 1,
            to: 2,
            from_class: 8,
            to_class: 7,
        },
        Some(SceneFault::UnknownPinClass { class: 7 }),
    ),
    (
        Edit::AddEdge {
            from: 1,
            to: 2,
            from_class: 8,
            to_class: 0,
        },
        None,
    ),
    (
        Edit::CutEdge { number: 3 },
        Some(SceneFault::UnknownEdge { number: 3 }),
    ),
    (Edit::CutEdge { number: 2 }, None),
    (
        Edit::SetClasses {
            number: 1,
            from_class: 8,
            to_class: 9,
        },
        Some(SceneFault::UnknownPinClass { class: 9 }),
    ),
    (
        Edit::SetClasses {
            number: 1,
            from_class: 8,
            to_class: 0,
        },
        None,
    ),
    (
        Edit::AddVia {
            number: 1,
            place: 0,
            x: 1000000001,
            y: 0,
        },
        Some(SceneFault::NoSuchPlace { place: 0 }),
    ),
    (
        Edit::AddVia {
            number: 1,
            place: 3,
            x: 1000000001,
            y: 0,
        },
        Some(SceneFault::NoSuchPlace { place: 3 }),
    ),
    (
        Edit::AddVia {
            number: 1,
            place: 2,
            x: 1000000001,
            y: 1000000001,
        },
        Some(SceneFault::OutOfRange { word: 4 }),
    ),
    (
        Edit::AddVia {
            number: 1,
            place: 2,
            x: -1000000000,
            y: 1000000001,
        },
        Some(SceneFault::OutOfRange { word: 5 }),
    ),
    (
        Edit::AddVia {
            number: 1,
            place: 1,
            x: 1000000000,
            y: -1000000000,
        },
        None,
    ),
    (
        Edit::DropVia {
            number: 1,
            place: 2,
        },
        Some(SceneFault::NoSuchPlace { place: 2 }),
    ),
    (
        Edit::DropVia {
            number: 1,
            place: 1,
        },
        None,
    ),
    (
        Edit::Set {
            what: Setting::Penalty,
            value: 0,
        },
        Some(SceneFault::OutOfRange { word: 3 }),
    ),
    (
        Edit::Set {
            what: Setting::Penalty,
            value: 1000000000,
        },
        None,
    ),
    (
        Edit::Set {
            what: Setting::Buffer,
            value: 1000001,
        },
        Some(SceneFault::OutOfRange { word: 3 }),
    ),
    (
        Edit::Set {
            what: Setting::Nudge,
            value: 0,
        },
        None,
    ),
];

/// Edits of a full scene and their refusals.
const LIMITS: [(Edit, Option<SceneFault>); 5] = [
    (
        Edit::AddNode {
            id: 256,
            x: 0,
            y: 0,
            w: 0,
            h: 0,
        },
        Some(SceneFault::TooMany { limit: 256 }),
    ),
    (
        Edit::AddPin {
            id: 7,
            class: 1,
            dx: 9,
            dy: 9,
            dirs: Dirs::EAST,
        },
        Some(SceneFault::TooMany { limit: 256 }),
    ),
    (
        Edit::AddEdge {
            from: 7,
            to: 9,
            from_class: 0,
            to_class: 0,
        },
        Some(SceneFault::TooMany { limit: 512 }),
    ),
    (
        Edit::AddVia {
            number: 64,
            place: 1,
            x: 0,
            y: 0,
        },
        Some(SceneFault::TooMany { limit: 4 }),
    ),
    (
        Edit::AddVia {
            number: 65,
            place: 1,
            x: 0,
            y: 0,
        },
        Some(SceneFault::TooMany { limit: 256 }),
    ),
];

/// Edits of a scene without a free edge number, and their refusals.
const NO_NUMBER_LEFT: [(Edit, Option<SceneFault>); 3] = [
    (
        Edit::AddEdge {
            from: 1,
            to: 2,
            from_class: 9,
            to_class: 0,
        },
        Some(SceneFault::UnknownPinClass { class: 9 }),
    ),
    (
        Edit::AddEdge {
            from: 1,
            to: 2,
            from_class: 8,
            to_class: 0,
        },
        Some(SceneFault::TooMany { limit: 4294967295 }),
    ),
    (Edit::CutEdge { number: 4294967294 }, None),
];

/// The solids of the small scene, to which a group adds none.
const SOLIDS: [Solid; 2] = [
    Solid {
        node: 1,
        rect: Rect {
            left: -14_000,
            top: -14_001,
            right: 14_000,
            bottom: 14_001,
        },
    },
    Solid {
        node: 2,
        rect: Rect {
            left: -114_000,
            top: -14_000,
            right: -86_000,
            bottom: 14_000,
        },
    },
];

/// The ports of the small scene with a group, node by node, and its checkpoint.
const ANCHORS: [Point; 16] = [
    Point { x: 14000, y: 0 },
    Point { x: 0, y: 14001 },
    Point { x: -14000, y: 0 },
    Point { x: 0, y: -14001 },
    Point { x: 14000, y: 0 },
    Point { x: 14000, y: 10001 },
    Point { x: 14000, y: 0 },
    Point { x: -86000, y: 0 },
    Point {
        x: -100000,
        y: 14000,
    },
    Point { x: -114000, y: 0 },
    Point {
        x: -100000,
        y: -14000,
    },
    Point { x: 4016, y: 8 },
    Point { x: 7, y: 4018 },
    Point { x: -4002, y: 8 },
    Point { x: 7, y: -4002 },
    Point { x: 50, y: 60 },
];

/// The choices from which the first edge may start.
const STARTS: [Choice; 2] = [
    Choice {
        node: 1,
        pin: Point { x: 10_000, y: 0 },
        dir: Dir::East,
        port: Point { x: 14_000, y: 0 },
        cost: 0,
    },
    Choice {
        node: 1,
        pin: Point { x: 0, y: 10_001 },
        dir: Dir::East,
        port: Point {
            x: 14_000,
            y: 10_001,
        },
        cost: 0,
    },
];

/// The place of the first edit that would not be refused with its fault.
fn first_wrong(scene: &Scene, rows: &[(Edit, Option<SceneFault>)]) -> Option<usize> {
    for (place, (edit, fault)) in rows.iter().enumerate() {
        if scene.refusal(edit) != *fault {
            return Some(place);
        }
    }
    None
}

/// Whether a pin that the edit adds leads to the east.
fn is_directed(edit: &Edit) -> bool
    ensures { IsTrue result → IsDirected edit.now }
{
    match *edit {
        Edit::AddPin { dirs, .. } => dirs.east,
        _ => true,
    }
}

/// Applies the edits in turn.
fn edit_all(scene: &mut Scene, edits: &[Edit]) -> Result<(), SceneFault> {
    for edit in edits {
        if is_directed(edit) {
            scene.edit(edit)?;
        }
    }
    Ok(())
}

/// Applies the edit and takes it back.
fn there_and_back(scene: &mut Scene, edit: &Edit) -> Result<(), SceneFault>
    requires { IsDirected edit.now }
{
    scene.valid();
    if let Some(fault) = scene.refusal(edit) {
        return Err(fault);
    }
    let Ok(inverse) = scene.inverse(edit) else {
        return Err(SceneFault::Memory);
    };
    scene.edit(edit)?;
    if scene.restore(&inverse).is_err() {
        return Err(SceneFault::Memory);
    }
    Ok(())
}

/// Applies each edit, takes it back and applies it again.
fn edit_all_twice(scene: &mut Scene, edits: &[Edit]) -> Result<(), SceneFault> {
    for edit in edits {
        if is_directed(edit) {
            there_and_back(scene, edit)?;
            scene.edit(edit)?;
        }
    }
    Ok(())
}

/// The greatest numbers of nodes and pins.
fn add_nodes(scene: &mut Scene) -> Result<(), SceneFault> {
    for id in 0..256 {
        scene.add_node(id, id, 0, 0, 0)?;
        scene.add_pin(id, 1, 0, 0, Dirs::EAST)?;
    }
    Ok(())
}

/// The greatest number of edges.
fn add_edges(scene: &mut Scene) -> Result<(), SceneFault> {
    for id in 0..256 {
        let other = if id == 0 { 1 } else { 0 };
        scene.add_edge(id, other, 0, 1)?;
        scene.add_edge(other, id, 1, 0)?;
    }
    Ok(())
}

/// The greatest number of checkpoints.
fn add_checkpoints(scene: &mut Scene) -> Result<(), SceneFault> {
    for number in 1..65 {
        for place in 1..5 {
            scene.add_via(number, place, 5, 6)?;
        }
    }
    Ok(())
}

/// Loads a group with the id.
fn load_group(scene: &mut Scene, alloc: Global, id: i64) -> Result<(), SceneFault> {
    scene.load_node(Node {
        id,
        x: 7,
        y: 8,
        half_w: 9,
        half_h: 10,
        group: true,
        pins: Pins(Vec::new(alloc)),
        origin: Some(5),
    })
}

/// Loads an edge from node 3 to this class of node 1, if the scene accepts the number.
fn load_edge(
    scene: &mut Scene,
    alloc: Global,
    number: u32,
    to_class: u32,
) -> Result<(), SceneFault> {
    if number < scene.next_edge() || number == u32::MAX {
        return Ok(());
    }
    scene.load_edge(Edge {
        number,
        from: 3,
        to: 1,
        from_class: 0,
        to_class,
        via: Via::new(alloc),
        origin: None,
        weight: 4,
    })
}

/// Loads a group and an edge from it with the number.
fn load(scene: &mut Scene, alloc: Global, number: u32) -> Result<(), SceneFault> {
    load_group(scene, alloc, 3)?;
    load_edge(scene, alloc, number, 8)
}

/// The same of a copy of the scene, and a place beyond all without memory.
fn first_wrong_in_copy(scene: &Scene, rows: &[(Edit, Option<SceneFault>)]) -> Option<usize> {
    match scene.copy() {
        Ok(copied) => first_wrong(&copied, rows),
        Err(_) => Some(rows.len()),
    }
}

/// The number of anchors of the scene's floor.
fn count_of_anchors(scene: &Scene) -> Option<usize> {
    match scene.floor() {
        Ok(floor) => Some(floor.anchors.as_slice().len()),
        Err(_) => None,
    }
}

/// Whether a full scene loads neither a node nor an edge, and its floor stays full.
fn loads_no_more(scene: &mut Scene, alloc: Global) -> bool {
    load_group(scene, alloc, 256) == Err(SceneFault::TooMany { limit: 256 })
        && load_edge(scene, alloc, 600, 0) == Err(SceneFault::TooMany { limit: 512 })
        && count_of_anchors(scene) == Some(1536)
}

/// The place of the first edit that a copy of the full scene would not refuse with its fault, and
/// the number of these edits where the scene itself loads more.
fn first_beyond_limits(scene: &mut Scene, alloc: Global) -> Option<usize> {
    if loads_no_more(scene, alloc) {
        first_wrong_in_copy(scene, &LIMITS)
    } else {
        Some(LIMITS.len())
    }
}

/// The scene's floor has the solids and the anchors.
fn has_floor(scene: &Scene) -> bool {
    match scene.floor() {
        Ok(floor) => {
            floor.solids.as_slice() == SOLIDS.as_slice()
                && floor.anchors.as_slice() == ANCHORS.as_slice()
        }
        Err(_) => false,
    }
}

/// The task of a connector.
fn task_with(scene: &Scene, number: u32) -> Option<Task> {
    let edge = scene.edge(number)?;
    if edge.from == edge.to {
        return None;
    }
    scene.task(number).ok()
}

/// The first edge's task is this one.
fn is_first_task(task: &Task) -> bool {
    let ends = task.ends.as_slice();
    task.starts.as_slice() == STARTS.as_slice()
        && ends.len() == 4
        && ends[2].port == ANCHORS[9]
        && task.via.as_slice() == &ANCHORS[15..]
        && task.penalty == 50_000
}

/// The scene has the first edge's task.
fn has_first_task(scene: &Scene) -> bool {
    match task_with(scene, 1) {
        Some(task) => is_first_task(&task),
        None => false,
    }
}

/// The number of starts of the task of a connector.
fn count_of_starts(scene: &Scene, number: u32) -> Option<usize> {
    match task_with(scene, number) {
        Some(task) => Some(task.starts.as_slice().len()),
        None => None,
    }
}

/// The nodes and edges are those after the changes and the loads.
fn are_as_changed(scene: &Scene) -> bool {
    let (Some(first), Some(second)) = (scene.node(1), scene.node_at(1)) else {
        return false;
    };
    let (Some(third), Some(only)) = (scene.edge(3), scene.edge_at(0)) else {
        return false;
    };
    (first.x, first.y, first.half_w, first.half_h) == (5, 6, 10_001, 10_001)
        && second.id == 3
        && third.to_class == 8
        && only.weight == 4
        && scene.settings().penalty == 9
        && scene.next_edge() == 4
}

/// How a scene is made.
#[derive(Clone, Copy)]
enum Made {
    /// By the edits of the small scene.
    Small,
    /// With the greatest numbers of all parts.
    Full,
    /// The small scene, with a group and an edge of the number loaded.
    Loaded(u32),
    /// By each edit, taken back and made again, and with a group and an edge loaded.
    Changed,
}

fn add_all(scene: &mut Scene) -> Result<(), SceneFault> {
    add_nodes(scene)?;
    add_edges(scene)?;
    add_checkpoints(scene)
}

fn edit_and_load(scene: &mut Scene, alloc: Global, number: u32) -> Result<(), SceneFault> {
    edit_all(scene, &SMALL)?;
    load(scene, alloc, number)
}

fn change_and_load(scene: &mut Scene, alloc: Global) -> Result<(), SceneFault> {
    edit_all_twice(scene, &SMALL)?;
    edit_all_twice(scene, &CHANGES)?;
    load(scene, alloc, 3)
}

fn make(scene: &mut Scene, alloc: Global, made: Made) -> Result<(), SceneFault> {
    match made {
        Made::Small => edit_all(scene, &SMALL),
        Made::Full => add_all(scene),
        Made::Loaded(number) => edit_and_load(scene, alloc, number),
        Made::Changed => change_and_load(scene, alloc),
    }
}

/// What must be so in a scene.
#[derive(Clone, Copy)]
enum Claim {
    RefusesInOrder,
    KeepsLimits,
    HasNextEdge(u32),
    HasNoNumberLeft,
    IsChanged,
    HasFloor,
    HasFirstTask,
    /// The task of the edge has so many starts.
    HasStarts(u32, usize),
}

/// The place of what is wrong, which is 0 for a claim without rows.
fn first_if_not(so: bool) -> Option<usize> {
    if so { None } else { Some(0) }
}

/// The place of the first row that is wrong, if the claim does not hold.
fn wrong_in(scene: &mut Scene, alloc: Global, claim: Claim) -> Option<usize> {
    match claim {
        Claim::RefusesInOrder => first_wrong(scene, &REFUSALS),
        Claim::KeepsLimits => first_beyond_limits(scene, alloc),
        Claim::HasNextEdge(number) => first_if_not(scene.next_edge() == number),
        Claim::HasNoNumberLeft => first_wrong(scene, &NO_NUMBER_LEFT),
        Claim::IsChanged => first_if_not(are_as_changed(scene)),
        Claim::HasFloor => first_if_not(has_floor(scene)),
        Claim::HasFirstTask => first_if_not(has_first_task(scene)),
        Claim::HasStarts(number, count) => {
            first_if_not(count_of_starts(scene, number) == Some(count))
        }
    }
}

fn made_and_wrong_in(
    scene: &mut Scene,
    alloc: Global,
    made: Made,
    claim: Claim,
) -> Result<Option<usize>, SceneFault> {
    make(scene, alloc, made)?;
    Ok(wrong_in(scene, alloc, claim))
}

/// The same of a new scene that is made so.
fn wrong(alloc: Global, made: Made, claim: Claim) -> Result<Option<usize>, SceneFault> {
    let mut scene = Scene::new(alloc);
    made_and_wrong_in(&mut scene, alloc, made, claim)
}

const LAST: u32 = 4_294_967_294;

const CLAIMS: [(Made, Claim, &str); 8] = [
    (Made::Small, Claim::RefusesInOrder, "refusals in order"),
    (Made::Full, Claim::KeepsLimits, "limits"),
    (
        Made::Loaded(LAST),
        Claim::HasNextEdge(u32::MAX),
        "the last number",
    ),
    (Made::Loaded(LAST), Claim::HasNoNumberLeft, "no number left"),
    (
        Made::Changed,
        Claim::IsChanged,
        "each edit, also taken back",
    ),
    (Made::Loaded(3), Claim::HasFloor, "the floor"),
    (Made::Loaded(3), Claim::HasFirstTask, "the first task"),
    (
        Made::Loaded(3),
        Claim::HasStarts(3, 4),
        "the task of a loaded edge",
    ),
];

#[test]
fn is_as_claimed(rt: HostRuntime) {
    for &(made, claim, name) in &CLAIMS {
        assert_eq!(rt; wrong(rt.alloc(), made, claim), Ok(None), "{name}");
    }
}
