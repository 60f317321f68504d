//! Verdicts on drawn lines, each at least once.
ghost use Rattle.std.specs.Prelude.{All, IfOk};
ghost use Rattle.plane_geom.specs.Rect.{RectIsOnSheet};
ghost use Rattle.walk_model.specs.Legal.{IsTask};

use crate::choices::{Asked, Stub, points, task};
use plane_geom::Dir::{East, North, South, West};
use plane_geom::{Rect, Solid};
use route_check::{Breach, check};
use std::alloc::{AllocError, Global};
use std::test::Fail;
use walk_model::Task;

/// A node, and the left, top, right and bottom side of its box.
type NodeBox = (i16, i16, i16, i16, i16);

const SOURCE: NodeBox = (1, -14, -14, 14, 14);

const TARGET: NodeBox = (2, 86, -14, 114, 14);

const MIDDLE: NodeBox = (3, 36, -24, 64, 24);

/// A line and its verdict.
struct Case {
    name: &'static str,
    boxes: &'static [NodeBox],
    via: &'static [(i16, i16)],
    line: &'static [(i16, i16)],
    verdict: Result<u64, Breach>,
}

/// The source's pin is at (0, 0), and has two costs to the East. Each stub has 14 steps.
const STARTS: [Stub; 5] = [
    Stub(0, 0, East, 13, 7),
    Stub(0, 0, East, 13, 3),
    Stub(0, 0, South, 13, 0),
    Stub(0, 0, West, 13, 0),
    Stub(0, 0, North, 13, 0),
];

/// The target has a pin at (100, 0), with two costs to the West, and one at (20, 0), where the
/// straight way has no room for two stubs.
const ENDS: [Stub; 6] = [
    Stub(100, 0, East, 13, 0),
    Stub(100, 0, South, 13, 0),
    Stub(100, 0, West, 13, 5),
    Stub(100, 0, West, 13, 2),
    Stub(100, 0, North, 13, 0),
    Stub(20, 0, West, 13, 0),
];

static CASES: [Case; 28] = [
    Case {
        name: "straight on, with the cheapest choices",
        boxes: &[SOURCE, TARGET],
        via: &[],
        line: &[(0, 0), (100, 0)],
        verdict: Ok(105),
    },
    Case {
        name: "corners and equal points on the way",
        boxes: &[SOURCE, TARGET],
        via: &[],
        line: &[(0, 0), (7, 0), (7, 0), (50, 0), (100, 0)],
        verdict: Ok(105),
    },
    Case {
        name: "along the side of a box",
        boxes: &[SOURCE, TARGET, MIDDLE],
        via: &[],
        line: &[(0, 0), (0, -24), (100, -24), (100, 0)],
        verdict: Ok(248),
    },
    Case {
        name: "one step inside that side",
        boxes: &[SOURCE, TARGET, MIDDLE],
        via: &[],
        line: &[(0, 0), (0, -23), (100, -23), (100, 0)],
        verdict: Err(Breach::Hits {
            segment: 2,
            node: 3,
        }),
    },
    Case {
        name: "behind segments without steps",
        boxes: &[SOURCE, TARGET, MIDDLE],
        via: &[],
        line: &[(0, 0), (20, 0), (20, 0), (100, 0)],
        verdict: Err(Breach::Hits {
            segment: 3,
            node: 3,
        }),
    },
    Case {
        name: "doubling back at a checkpoint",
        boxes: &[SOURCE, TARGET],
        via: &[(0, -60)],
        line: &[(0, 0), (0, -60), (0, -40), (100, -40), (100, 0)],
        verdict: Ok(420),
    },
    Case {
        name: "the source's box behind its stub",
        boxes: &[SOURCE, TARGET],
        via: &[],
        line: &[(0, 0), (-40, 0), (100, 0)],
        verdict: Err(Breach::Hits {
            segment: 2,
            node: 1,
        }),
    },
    Case {
        name: "the target's box before its stub",
        boxes: &[SOURCE, TARGET],
        via: &[],
        line: &[(0, 0), (140, 0), (100, 0)],
        verdict: Err(Breach::Hits {
            segment: 1,
            node: 2,
        }),
    },
    Case {
        name: "the start's stub in another box",
        boxes: &[SOURCE, (3, 5, -5, 9, 5)],
        via: &[],
        line: &[(0, 0), (100, 0)],
        verdict: Err(Breach::Hits {
            segment: 1,
            node: 3,
        }),
    },
    Case {
        name: "the end's stub in another box",
        boxes: &[TARGET, (4, 90, -5, 95, 5)],
        via: &[],
        line: &[(0, 0), (100, 0)],
        verdict: Err(Breach::Hits {
            segment: 1,
            node: 4,
        }),
    },
    Case {
        name: "two boxes met at once",
        boxes: &[(9, 40, -1, 50, 1), (4, 40, -1, 60, 1)],
        via: &[],
        line: &[(0, 0), (100, 0)],
        verdict: Err(Breach::Hits {
            segment: 1,
            node: 9,
        }),
    },
    Case {
        name: "the nearer of two boxes",
        boxes: &[(9, 41, -1, 50, 1), (4, 40, -1, 60, 1)],
        via: &[],
        line: &[(0, 0), (100, 0)],
        verdict: Err(Breach::Hits {
            segment: 1,
            node: 4,
        }),
    },
    Case {
        name: "the stubs would overlap",
        boxes: &[SOURCE, TARGET],
        via: &[],
        line: &[(0, 0), (20, 0)],
        verdict: Err(Breach::EndOff),
    },
    Case {
        name: "the end's stub too short",
        boxes: &[SOURCE, TARGET],
        via: &[],
        line: &[(0, 0), (50, 0), (50, -13), (100, -13), (100, 0)],
        verdict: Err(Breach::EndOff),
    },
    Case {
        name: "no end choice, and a box before",
        boxes: &[SOURCE, TARGET, MIDDLE],
        via: &[],
        line: &[(0, 0), (80, 0)],
        verdict: Err(Breach::EndOff),
    },
    Case {
        name: "the start's stub too short",
        boxes: &[SOURCE, TARGET],
        via: &[],
        line: &[(0, 0), (13, 0), (13, 40), (100, 40), (100, 0)],
        verdict: Err(Breach::StartOff),
    },
    Case {
        name: "begins beside the pin",
        boxes: &[SOURCE, TARGET],
        via: &[],
        line: &[(1, 0), (100, 0)],
        verdict: Err(Breach::StartOff),
    },
    Case {
        name: "no points",
        boxes: &[],
        via: &[],
        line: &[],
        verdict: Err(Breach::StartOff),
    },
    Case {
        name: "one point",
        boxes: &[],
        via: &[],
        line: &[(0, 0)],
        verdict: Err(Breach::StartOff),
    },
    Case {
        name: "no steps",
        boxes: &[],
        via: &[],
        line: &[(0, 0), (0, 0)],
        verdict: Err(Breach::StartOff),
    },
    Case {
        name: "a slanted segment",
        boxes: &[SOURCE, TARGET, MIDDLE],
        via: &[],
        line: &[(0, 0), (50, 0), (100, 5)],
        verdict: Err(Breach::Slanted { segment: 2 }),
    },
    Case {
        name: "slanted, and begins beside the pin",
        boxes: &[],
        via: &[],
        line: &[(3, 3), (4, 4)],
        verdict: Err(Breach::Slanted { segment: 1 }),
    },
    Case {
        name: "equal checkpoints at one point",
        boxes: &[SOURCE, TARGET],
        via: &[(50, 0), (50, 0)],
        line: &[(0, 0), (100, 0)],
        verdict: Ok(105),
    },
    Case {
        name: "checkpoints side by side",
        boxes: &[SOURCE, TARGET],
        via: &[(50, 0), (50, 1)],
        line: &[(0, 0), (100, 0)],
        verdict: Err(Breach::MissesVia { place: 2 }),
    },
    Case {
        name: "checkpoints in the other order",
        boxes: &[SOURCE, TARGET],
        via: &[(60, 0), (40, 0)],
        line: &[(0, 0), (100, 0)],
        verdict: Err(Breach::MissesVia { place: 2 }),
    },
    Case {
        name: "a checkpoint on a stub",
        boxes: &[SOURCE, TARGET],
        via: &[(13, 0)],
        line: &[(0, 0), (100, 0)],
        verdict: Err(Breach::MissesVia { place: 1 }),
    },
    Case {
        name: "checkpoints at the ports",
        boxes: &[SOURCE, TARGET],
        via: &[(14, 0), (86, 0)],
        line: &[(0, 0), (100, 0)],
        verdict: Ok(105),
    },
    Case {
        name: "a missed checkpoint behind a box",
        boxes: &[SOURCE, TARGET, MIDDLE],
        via: &[(5, 5)],
        line: &[(0, 0), (100, 0)],
        verdict: Err(Breach::Hits {
            segment: 1,
            node: 3,
        }),
    },
];

fn solid(of: NodeBox) -> Solid
    ensures { RectIsOnSheet result.rect }
{
    let (node, left, top, right, bottom) = of;
    Solid {
        node: i64::from(node),
        rect: Rect {
            left: i64::from(left),
            top: i64::from(top),
            right: i64::from(right),
            bottom: i64::from(bottom),
        },
    }
}

fn solids(alloc: Global, boxes: &[NodeBox]) -> Result<Vec<Solid>, AllocError>
    ensures { IfOk result (λ v. All (λ s. RectIsOnSheet s.rect) v.items) }
{
    let mut all = Vec::new(alloc);
    for &of in boxes {
        all.push(solid(of))?;
    }
    Ok(all)
}

/// The verdict on the line among the solids.
fn verdict(
    alloc: Global,
    solids: &[Solid],
    task: &Task,
    places: &[(i16, i16)],
) -> Result<Result<u64, Breach>, Fail>
    requires solids { All (λ s. RectIsOnSheet s.rect) solids.now }
    requires task { IsTask task.now }
{
    let line = points(alloc, places)?;
    if line.len() <= 40_000_000 {
        Ok(check(solids, task, &line))
    } else {
        Err(Fail::from("no line"))
    }
}

/// The verdict of the case.
fn judged(alloc: Global, case: &Case) -> Result<Result<u64, Breach>, Fail> {
    let asked = Asked {
        starts: &STARTS,
        ends: &ENDS,
        via: case.via,
        penalty: 50,
    };
    let solids = solids(alloc, case.boxes)?;
    let task = task(alloc, asked)?;
    verdict(alloc, &solids, &task, case.line)
}

#[test]
fn gives_each_verdict(rt: HostRuntime) -> Result<(), Fail> {
    for case in &CASES {
        assert_eq!(rt; judged(rt.alloc(), case)?, case.verdict, "{}", case.name);
    }
    Ok(())
}
