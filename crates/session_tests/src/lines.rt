//! Small scenes whose edges are nudged, and a large number of edges, through a session.
use crate::asks::open;
use plane_geom::Point;
use route_session::Session;
use scene_store::{Dirs, Edge, Scene, SceneFault, Setting, Via};
use std::alloc::{AllocError, Global};
use std::thread::Threads;
use walk_model::WrittenRoute;

/// The parts of a scene, in order. Lengths are in units.
#[derive(Clone, Copy)]
enum Part {
    /// A box's id, centre and sizes.
    Node(i64, i16, i16, i16, i16),
    /// A pin of class 1 at the centre of this box, which leads north.
    North(i64),
    /// The same, south.
    South(i64),
    /// A connector between pins of the class.
    Edge(i64, i64, u32),
    /// A connector between the centres of the first boxes, of weight 3.
    Heavy,
    /// The first checkpoint of the connector.
    Via(u32, i16, i16),
    /// The wanted nudge, in thousandths.
    Nudge(i64),
}

/// The number of units, in thousandths.
fn milli(units: i16) -> i64 {
    i64::from(units) * 1000
}

/// Adds a connector of weight 3 between the first boxes, if the scene has a number left.
fn add_heavy(scene: &mut Scene, alloc: Global) -> Result<(), SceneFault> {
    let number = scene.next_edge();
    if number == u32::MAX {
        return Ok(());
    }
    scene.load_edge(Edge {
        number,
        from: 1,
        to: 2,
        from_class: 0,
        to_class: 0,
        via: Via::new(alloc),
        origin: None,
        weight: 3,
    })
}

fn add(scene: &mut Scene, alloc: Global, part: Part) -> Result<(), SceneFault> {
    match part {
        Part::Node(id, x, y, w, h) => scene.add_node(id, milli(x), milli(y), milli(w), milli(h)),
        Part::North(id) => scene.add_pin(id, 1, 0, 0, Dirs::NORTH),
        Part::South(id) => scene.add_pin(id, 1, 0, 0, Dirs::SOUTH),
        Part::Edge(from, to, class) => scene.add_edge(from, to, class, class),
        Part::Heavy => add_heavy(scene, alloc),
        Part::Via(number, x, y) => scene.add_via(number, 1, milli(x), milli(y)),
        Part::Nudge(nudge) => scene.set(Setting::Nudge, nudge),
    }
}

fn add_all(scene: &mut Scene, alloc: Global, parts: &[Part]) -> Result<(), SceneFault> {
    for part in parts {
        add(scene, alloc, *part)?;
    }
    Ok(())
}

/// Loads these parts into the scene, one list after the other, and then one part a number of times.
fn draw(scene: &mut Scene, alloc: Global, row: &Row) -> Result<(), SceneFault> {
    for parts in row.parts {
        add_all(scene, alloc, parts)?;
    }
    for _ in 0..row.crowd {
        add(scene, alloc, JOINED)?;
    }
    Ok(())
}

/// A scene, and the corners of each of its nudged lines.
struct Row {
    name: &'static str,
    parts: &'static [&'static [Part]],
    /// The number of additional connectors between the first two boxes.
    crowd: u16,
    lines: &'static [&'static [(i64, i64)]],
}

/// Two boxes side by side, and a higher one between them.
const ROUND: &[Part] = &[
    Part::Node(1, 0, 0, 20, 20),
    Part::Node(2, 100, 0, 20, 20),
    Part::Node(3, 50, 0, 20, 40),
];

/// The same, lower, so that the way above the middle box is at height 0.
const LOW_ROUND: &[Part] = &[
    Part::Node(1, 0, 24, 20, 20),
    Part::Node(2, 100, 24, 20, 20),
    Part::Node(3, 50, 24, 20, 40),
];

/// The first box connected to the second.
const JOINED: Part = Part::Edge(1, 2, 0);

/// Boxes around which two ways share a line, one with its boxes below it and one with a box above
/// it.
const MEETING: &[Part] = &[
    Part::Node(1, 0, 24, 20, 20),
    Part::Node(2, 200, 24, 20, 20),
    Part::Node(3, 50, 24, 20, 40),
    Part::Node(4, 120, 60, 20, 20),
    Part::North(4),
    Part::Node(5, 300, -60, 20, 20),
    Part::South(5),
    Part::Node(6, 235, -30, 22, 52),
];

const MEETING_EDGES: &[Part] = &[JOINED, Part::Edge(4, 5, 1)];

const ROWS: [Row; 11] = [
    Row {
        name: "no connectors",
        parts: &[],
        crowd: 0,
        lines: &[],
    },
    Row {
        name: "two round a box",
        parts: &[ROUND, &[JOINED, JOINED]],
        crowd: 0,
        lines: &[
            &[(0, 0), (0, -28_000), (100_000, -28_000), (100_000, 0)],
            &[(0, 0), (0, -24_000), (100_000, -24_000), (100_000, 0)],
        ],
    },
    Row {
        name: "two round a box, turned",
        parts: &[&[
            Part::Node(1, 0, 0, 20, 20),
            Part::Node(2, 0, 100, 20, 20),
            Part::Node(3, 0, 50, 40, 20),
            JOINED,
            JOINED,
        ]],
        crowd: 0,
        lines: &[
            &[(0, 0), (-28_000, 0), (-28_000, 100_000), (0, 100_000)],
            &[(0, 0), (-24_000, 0), (-24_000, 100_000), (0, 100_000)],
        ],
    },
    Row {
        name: "halves of a thousandth",
        parts: &[&[Part::Nudge(1)], MEETING, MEETING_EDGES],
        crowd: 0,
        lines: &[
            &[(0, 24_000), (0, -1), (200_000, -1), (200_000, 24_000)],
            &[
                (120_000, 60_000),
                (120_000, 0),
                (300_000, 0),
                (300_000, -60_000),
            ],
        ],
    },
    Row {
        name: "halves of the gap",
        parts: &[&[Part::Nudge(4000)], MEETING, MEETING_EDGES],
        crowd: 0,
        lines: &[
            &[(0, 24_000), (0, -2000), (200_000, -2000), (200_000, 24_000)],
            &[
                (120_000, 60_000),
                (120_000, 2000),
                (300_000, 2000),
                (300_000, -60_000),
            ],
        ],
    },
    Row {
        name: "weights 3 and 1",
        parts: &[MEETING, &[Part::Heavy, Part::Edge(4, 5, 1)]],
        crowd: 0,
        lines: &[
            &[(0, 24_000), (0, -1000), (200_000, -1000), (200_000, 24_000)],
            &[
                (120_000, 60_000),
                (120_000, 3000),
                (300_000, 3000),
                (300_000, -60_000),
            ],
        ],
    },
    Row {
        name: "a narrow channel, and a free one",
        parts: &[
            LOW_ROUND,
            &[
                Part::Node(4, 50, -19, 20, 20),
                Part::Node(11, 1000, 0, 20, 20),
                Part::Node(12, 1100, 0, 20, 20),
                Part::Node(13, 1050, 0, 20, 40),
                JOINED,
                JOINED,
                JOINED,
                Part::Edge(11, 12, 0),
                Part::Edge(11, 12, 0),
            ],
        ],
        crowd: 0,
        lines: &[
            &[(0, 24_000), (0, -5000), (100_000, -5000), (100_000, 24_000)],
            &[(0, 24_000), (0, -2500), (100_000, -2500), (100_000, 24_000)],
            &[(0, 24_000), (0, 0), (100_000, 0), (100_000, 24_000)],
            &[
                (1_000_000, 0),
                (1_000_000, -28_000),
                (1_100_000, -28_000),
                (1_100_000, 0),
            ],
            &[
                (1_000_000, 0),
                (1_000_000, -24_000),
                (1_100_000, -24_000),
                (1_100_000, 0),
            ],
        ],
    },
    Row {
        name: "a corridor of width 0, straight",
        parts: &[&[
            Part::Node(1, 0, 0, 20, 20),
            Part::Node(2, 0, 100, 20, 20),
            Part::Node(3, -24, 50, 40, 20),
            Part::Node(4, 24, 50, 40, 20),
            JOINED,
            JOINED,
        ]],
        crowd: 0,
        lines: &[&[(0, 0), (0, 100_000)], &[(0, 0), (0, 100_000)]],
    },
    Row {
        name: "a corridor of width 0 on the way",
        parts: &[LOW_ROUND, &[Part::Node(4, 50, -14, 20, 20), JOINED, JOINED]],
        crowd: 0,
        lines: &[
            &[(0, 24_000), (0, 0), (100_000, 0), (100_000, 24_000)],
            &[(0, 24_000), (0, 0), (100_000, 0), (100_000, 24_000)],
        ],
    },
    Row {
        name: "two that double back at one checkpoint",
        parts: &[
            LOW_ROUND,
            &[
                Part::Node(4, 36, -50, 20, 52),
                Part::Node(5, 64, -50, 20, 52),
                Part::Node(6, 50, -90, 20, 20),
                JOINED,
                Part::Via(1, 50, -60),
                JOINED,
                Part::Via(2, 50, -60),
            ],
        ],
        crowd: 0,
        lines: &[
            &[
                (0, 24_000),
                (0, -20_000),
                (50_000, -20_000),
                (50_000, -60_000),
                (50_000, -20_000),
                (100_000, -20_000),
                (100_000, 24_000),
            ],
            &[
                (0, 24_000),
                (0, -16_000),
                (50_000, -16_000),
                (50_000, -60_000),
                (50_000, -16_000),
                (100_000, -16_000),
                (100_000, 24_000),
            ],
        ],
    },
    // The middle runs are one bundle, above which there is room.
    Row {
        name: "a crowd",
        parts: &[ROUND],
        crowd: 512,
        lines: &[],
    },
];

/// Whether the corners are these.
fn are_corners(points: &[Point], corners: &[(i64, i64)]) -> bool {
    for (point, corner) in points.iter().zip(corners) {
        if (point.x, point.y) != *corner {
            return false;
        }
    }
    points.len() == corners.len()
}

/// Whether the lines have these corners.
fn are_lines(lines: &[WrittenRoute], wanted: &[&[(i64, i64)]]) -> bool {
    for (line, corners) in lines.iter().zip(wanted) {
        if !are_corners(line.points.as_slice(), corners) {
            return false;
        }
    }
    lines.len() == wanted.len()
}

/// Whether each line's middle run is one gap above the next one's, and the last one's as near to
/// the box as possible.
fn are_apart(lines: &[WrittenRoute], crowd: u16) -> bool {
    for (behind, line) in (0..crowd).rev().zip(lines) {
        let y = -24_000 - 4000 * i64::from(behind);
        let corners = [(0, 0), (0, y), (100_000, y), (100_000, 0)];
        if !are_corners(line.points.as_slice(), &corners) {
            return false;
        }
    }
    lines.len() == usize::from(crowd)
}

/// Whether the lines are those of the row.
fn are_wanted(lines: &[WrittenRoute], row: &Row) -> bool {
    if row.crowd > 0 {
        return are_apart(lines, row.crowd);
    }
    are_lines(lines, row.lines)
}

/// Whether the nudged lines of the session are those of the row.
fn compared(session: &Session, row: &Row) -> Result<bool, AllocError> {
    let nudged = session.nudged()?;
    Ok(are_wanted(&nudged.routes, row))
}

/// Whether the row has its lines in a session, by two workers, or without threads.
fn reported<R: Threads + Sync>(
    rt: Option<&R>,
    alloc: Global,
    row: &Row,
) -> Result<bool, SceneFault> {
    let mut scene = Scene::new(alloc);
    let drawn = draw(&mut scene, alloc, row);
    let Ok(session) = open(rt, alloc, scene) else {
        return Err(SceneFault::Memory);
    };
    let reported = compared(&session, row);
    let _tally = session.into_tally();
    drawn?;
    reported.map_err(|_| SceneFault::Memory)
}

/// Whether the row has its result.
fn is_right<R: Threads + Sync>(rt: Option<&R>, alloc: Global, row: &Row) -> bool {
    reported(rt, alloc, row) == Ok(true)
}

#[test]
fn nudges_worked_scenes(rt: HostRuntime) {
    for row in &ROWS {
        assert!(rt; is_right(Some(&rt), rt.alloc(), row), "{}", row.name);
        assert!(rt;
            is_right::<HostRuntime>(None, rt.alloc(), row),
            "{}, alone",
            row.name
        );
    }
}
