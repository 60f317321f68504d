//! Worked routes over scenes.
ghost use Rattle.std.specs.Prelude.{◌≢◌, All, IfOk, IsSomeAnd, IsTrue};
ghost use Rattle.plane_geom.specs.Floor.{IsFloor};
ghost use Rattle.scene_model.specs.Loads.{IsLoadablePin};
ghost use Rattle.scene_model.specs.Scene.{edge_with};
ghost use Rattle.walk_model.specs.Floors.{IsFloorOf};
ghost use Rattle.walk_model.specs.Legal.{IsTask};

use crate::found::{Corner, Found, found_in};
use plane_geom::Floor;
use scene_model::{Dirs, Node, Pin, Pins};
use scene_store::Scene;
use std::alloc::{AllocError, Global};
use std::test::Fail;
use visibility_graph::Graph;
use walk_model::Task;

/// A node by its id, its centre and its whole sizes.
#[derive(Clone, Copy)]
struct Place(i64, i64, i64, i64, i64);

/// A pin of class 1 by its offset from the centre, its directions and its cost.
#[derive(Clone, Copy)]
struct Offset(i64, i64, Dirs, i64);

/// The nodes of a scene, the pins of nodes 1 and 2, and the checkpoints of a connector from node 1
/// to node 2.
///
/// An end at a node with pins may use only those, otherwise the centre.
#[derive(Clone, Copy)]
struct Plan {
    places: &'static [Place],
    starts: &'static [Offset],
    ends: &'static [Offset],
    via: &'static [Corner],
}

/// A plan, and the expected cost and corners of the route.
#[derive(Clone, Copy)]
struct Row {
    plan: Plan,
    cost: Option<u64>,
    corners: &'static [Corner],
}

const SOURCE: Place = Place(1, 0, 0, 20_000, 20_000);

const TARGET: Place = Place(2, 100_000, 0, 20_000, 20_000);

const ROWS: [Row; 12] = [
    // Around a box.
    Row {
        plan: Plan {
            places: &[SOURCE, TARGET, Place(3, 50_000, 0, 20_000, 40_000)],
            starts: &[],
            ends: &[],
            via: &[],
        },
        cost: Some(248_000),
        corners: &[
            Corner(0, 0),
            Corner(0, -24_000),
            Corner(100_000, -24_000),
            Corner(100_000, 0),
        ],
    },
    // Walled in.
    Row {
        plan: Plan {
            places: &[
                SOURCE,
                TARGET,
                Place(3, 100_000, -30_000, 80_000, 20_000),
                Place(4, 100_000, 30_000, 80_000, 20_000),
                Place(5, 70_000, 0, 20_000, 60_000),
                Place(6, 130_000, 0, 20_000, 60_000),
            ],
            starts: &[],
            ends: &[],
            via: &[],
        },
        cost: None,
        corners: &[],
    },
    // Back from a checkpoint in a corridor of width 0.
    Row {
        plan: Plan {
            places: &[
                SOURCE,
                TARGET,
                Place(3, 36_000, -50_000, 20_000, 52_000),
                Place(4, 64_000, -50_000, 20_000, 52_000),
                Place(5, 50_000, -90_000, 20_000, 20_000),
            ],
            starts: &[],
            ends: &[],
            via: &[Corner(50_000, -60_000)],
        },
        cost: Some(420_000),
        corners: &[
            Corner(0, 0),
            Corner(50_000, 0),
            Corner(50_000, -60_000),
            Corner(50_000, 0),
            Corner(100_000, 0),
        ],
    },
    // Through a corridor of width 0.
    Row {
        plan: Plan {
            places: &[
                SOURCE,
                Place(2, 0, 100_000, 20_000, 20_000),
                Place(3, -24_000, 50_000, 40_000, 20_000),
                Place(4, 24_000, 50_000, 40_000, 20_000),
            ],
            starts: &[],
            ends: &[],
            via: &[],
        },
        cost: Some(100_000),
        corners: &[Corner(0, 0), Corner(0, 100_000)],
    },
    // A stub through the own box.
    Row {
        plan: Plan {
            places: &[SOURCE, Place(2, -100_000, 0, 20_000, 20_000)],
            starts: &[Offset(10_000, 0, Dirs::WEST, 0)],
            ends: &[],
            via: &[],
        },
        cost: Some(110_000),
        corners: &[Corner(10_000, 0), Corner(-100_000, 0)],
    },
    // East before south.
    Row {
        plan: Plan {
            places: &[SOURCE, Place(2, 100_000, 100_000, 20_000, 20_000)],
            starts: &[],
            ends: &[],
            via: &[],
        },
        cost: Some(250_000),
        corners: &[Corner(0, 0), Corner(100_000, 0), Corner(100_000, 100_000)],
    },
    // The cheaper pin.
    Row {
        plan: Plan {
            places: &[SOURCE, TARGET],
            starts: &[
                Offset(10_000, 0, Dirs::EAST, 60_000),
                Offset(0, -10_000, Dirs::NORTH, 20_000),
            ],
            ends: &[],
            via: &[],
        },
        cost: Some(150_000),
        corners: &[Corner(10_000, 0), Corner(100_000, 0)],
    },
    // One run before three at equal cost.
    Row {
        plan: Plan {
            places: &[SOURCE, TARGET],
            starts: &[
                Offset(10_000, 0, Dirs::EAST, 148_000),
                Offset(0, -10_000, Dirs::NORTH, 20_000),
            ],
            ends: &[],
            via: &[],
        },
        cost: Some(238_000),
        corners: &[Corner(10_000, 0), Corner(100_000, 0)],
    },
    // Three runs that cost less than one.
    Row {
        plan: Plan {
            places: &[SOURCE, TARGET],
            starts: &[
                Offset(10_000, 0, Dirs::EAST, 148_001),
                Offset(0, -10_000, Dirs::NORTH, 20_000),
            ],
            ends: &[],
            via: &[],
        },
        cost: Some(238_000),
        corners: &[
            Corner(0, -10_000),
            Corner(0, -14_000),
            Corner(100_000, -14_000),
            Corner(100_000, 0),
        ],
    },
    // Two pins on one line, the shorter list first.
    Row {
        plan: Plan {
            places: &[SOURCE, TARGET],
            starts: &[],
            ends: &[
                Offset(-10_000, 0, Dirs::WEST, 5_000),
                Offset(-5_000, 0, Dirs::WEST, 0),
            ],
            via: &[],
        },
        cost: Some(95_000),
        corners: &[Corner(0, 0), Corner(90_000, 0)],
    },
    // Two walks that tie but in their directions: on one line, the run of the one is held by the box
    // to the north, and that of the other by the box to the south.
    Row {
        plan: Plan {
            places: &[
                Place(1, 0, 60_000, 20_000, 20_000),
                Place(2, 210_000, 0, 20_000, 100_000),
                Place(3, 30_000, 54_000, 20_000, 100_000),
                Place(4, 70_000, -54_000, 100_000, 100_000),
            ],
            starts: &[Offset(0, -10_000, Dirs::NORTH, 0)],
            ends: &[
                Offset(-10_000, -40_000, Dirs::WEST, 0),
                Offset(-10_000, 40_000, Dirs::WEST, 0),
            ],
            via: &[],
        },
        cost: Some(440_000),
        corners: &[
            Corner(0, 50_000),
            Corner(0, 0),
            Corner(124_000, 0),
            Corner(124_000, -40_000),
            Corner(200_000, -40_000),
        ],
    },
    // The same with x and y exchanged, where the other walk is first.
    Row {
        plan: Plan {
            places: &[
                Place(1, 60_000, 0, 20_000, 20_000),
                Place(2, 0, 210_000, 100_000, 20_000),
                Place(3, 54_000, 30_000, 100_000, 20_000),
                Place(4, -54_000, 70_000, 100_000, 100_000),
            ],
            starts: &[Offset(-10_000, 0, Dirs::WEST, 0)],
            ends: &[
                Offset(-40_000, -10_000, Dirs::NORTH, 0),
                Offset(40_000, -10_000, Dirs::NORTH, 0),
            ],
            via: &[],
        },
        cost: Some(440_000),
        corners: &[
            Corner(50_000, 0),
            Corner(0, 0),
            Corner(0, 44_000),
            Corner(40_000, 44_000),
            Corner(40_000, 200_000),
        ],
    },
];

/// Whether a node with the pin can be loaded.
fn is_loadable(pin: Pin) -> bool
    ensures { IsTrue result → IsLoadablePin pin }
{
    let directed = pin.dirs.east || pin.dirs.south || pin.dirs.west || pin.dirs.north;
    directed && 0 <= pin.cost && pin.cost <= 1_000_000_000
}

/// The pins at the offsets.
fn pins(alloc: Global, offsets: &[Offset]) -> Result<Pins, AllocError>
    ensures { IfOk result (All IsLoadablePin) }
{
    let mut pins = Vec::new(alloc);
    for Offset(dx, dy, dirs, cost) in offsets {
        let pin = Pin {
            class: 1,
            dx: *dx,
            dy: *dy,
            dirs: *dirs,
            cost: *cost,
        };
        if is_loadable(pin) {
            pins.push(pin)?;
        }
    }
    Ok(Pins(pins))
}

fn load(alloc: Global, scene: &mut Scene, place: Place, offsets: &[Offset]) -> Result<(), Fail> {
    let Place(id, x, y, w, h) = place;
    scene.load_node(Node {
        id,
        x,
        y,
        half_w: w / 2,
        half_h: h / 2,
        group: false,
        pins: pins(alloc, offsets)?,
        origin: None,
    })?;
    Ok(())
}

/// Loads the nodes of the plan.
fn load_all(alloc: Global, scene: &mut Scene, plan: Plan) -> Result<(), Fail> {
    for place in plan.places {
        let offsets = match place.0 {
            1 => plan.starts,
            2 => plan.ends,
            _ => &[],
        };
        load(alloc, scene, *place, offsets)?;
    }
    Ok(())
}

/// Adds the connector of the plan, with its checkpoints.
fn connect(scene: &mut Scene, plan: Plan) -> Result<(), Fail> {
    let from_class = u32::from(!plan.starts.is_empty());
    let to_class = u32::from(!plan.ends.is_empty());
    scene.add_edge(1, 2, from_class, to_class)?;
    for Corner(x, y) in plan.via {
        scene.add_via(1, 1, *x, *y)?;
    }
    Ok(())
}

/// Whether the number is a connector's.
fn is_connector(scene: &Scene, number: u32) -> bool
    ensures { IsTrue result → IsSomeAnd (edge_with scene.now number) (λ e. e.from ≢ e.to) }
{
    match scene.edge(number) {
        Some(edge) => edge.from != edge.to,
        None => false,
    }
}

/// The result of a search for the task on the graph of the floor.
fn found_on(alloc: Global, floor: &Floor, task: &Task) -> Result<Found, Fail>
    requires floor { IsFloor floor.now }
    requires task { IsTask task.now }
    requires floor_of { IsFloorOf floor.now task.now }
{
    let graph = Graph::build(alloc, floor)?;
    found_in(alloc, &graph, task)
}

/// The result of a search for the connector.
fn found_of(alloc: Global, scene: &Scene, number: u32) -> Result<Found, Fail>
    requires { IsSomeAnd (edge_with scene.now number) (λ e. e.from ≢ e.to) }
{
    scene.valid();
    let task = scene.task(number)?;
    let floor = scene.floor()?;
    found_on(alloc, &floor, &task)
}

/// The result of a search for the plan in the scene, which is empty.
fn found_by(alloc: Global, scene: &mut Scene, plan: Plan) -> Result<Found, Fail> {
    load_all(alloc, scene, plan)?;
    connect(scene, plan)?;
    if !is_connector(scene, 1) {
        return Err(Fail::from("no connector"));
    }
    found_of(alloc, scene, 1)
}

/// The result of a search for the plan.
fn found(alloc: Global, plan: Plan) -> Result<Found, Fail> {
    let mut scene = Scene::new(alloc);
    found_by(alloc, &mut scene, plan)
}

/// Whether it is the route of the row, found by one search.
fn is_of(found: &Found, row: &Row) -> bool {
    found.is_along(row.cost, row.corners) && found.searches == 1
}

#[test]
fn finds_worked_routes(rt: HostRuntime) -> Result<(), Fail> {
    for (place, row) in ROWS.iter().enumerate() {
        let found = found(rt.alloc(), row.plan)?;
        assert!(rt; is_of(&found, row), "in row {place}: {found:?}");
    }
    Ok(())
}
