//! Tasks whose ends lie along one line, where walks tie and stubs pass the ports of others.

use crate::choices::{Asked, Stub, task};
use crate::floors::graph;
use crate::found::{Corner, Found, found_in};
use plane_geom::Dir::{East, North, South, West};
use std::alloc::Global;
use std::test::Fail;

/// A task without solids, and the choices, the cost and the corners of its route.
#[derive(Clone, Copy)]
struct Tied {
    asked: Asked,
    start: u32,
    end: u32,
    cost: u64,
    corners: &'static [Corner],
}

const TIED: [Tied; 15] = [
    // East: three stubs tie, and the one that ends first passes the port of another.
    Tied {
        asked: Asked {
            starts: &[Stub(3, 3, South, 4, 1)],
            ends: &[
                Stub(9, 3, West, 3, 4),
                Stub(11, 3, West, 0, 2),
                Stub(12, 3, West, 3, 1),
            ],
            via: &[],
            penalty: 3,
        },
        start: 0,
        end: 0,
        cost: 30,
        corners: &[Corner(3, 3), Corner(3, 8), Corner(3, 3), Corner(9, 3)],
    },
    // East: stubs tie after a checkpoint.
    Tied {
        asked: Asked {
            starts: &[Stub(2, 3, South, 1, 4)],
            ends: &[
                Stub(6, 3, West, 2, 2),
                Stub(7, 3, West, 2, 1),
                Stub(8, 3, West, 0, 0),
            ],
            via: &[(3, 3)],
            penalty: 3,
        },
        start: 0,
        end: 0,
        cost: 23,
        corners: &[Corner(2, 3), Corner(2, 5), Corner(2, 3), Corner(6, 3)],
    },
    // East: two starts tie, and two stubs.
    Tied {
        asked: Asked {
            starts: &[Stub(1, 3, East, 3, 0), Stub(2, 3, East, 1, 1)],
            ends: &[Stub(14, 3, West, 2, 2), Stub(12, 3, West, 4, 4)],
            via: &[(6, 3)],
            penalty: 1,
        },
        start: 0,
        end: 1,
        cost: 15,
        corners: &[Corner(1, 3), Corner(12, 3)],
    },
    // South: three stubs tie, and the one that ends first passes the port of another.
    Tied {
        asked: Asked {
            starts: &[Stub(3, 3, North, 0, 1)],
            ends: &[
                Stub(3, 6, North, 2, 2),
                Stub(3, 7, North, 0, 1),
                Stub(3, 8, North, 2, 0),
            ],
            via: &[],
            penalty: 2,
        },
        start: 0,
        end: 0,
        cost: 12,
        corners: &[Corner(3, 3), Corner(3, 2), Corner(3, 6)],
    },
    // South: stubs tie after a checkpoint.
    Tied {
        asked: Asked {
            starts: &[Stub(3, 4, West, 0, 2), Stub(3, 2, North, 4, 4)],
            ends: &[
                Stub(3, 9, North, 1, 2),
                Stub(3, 9, West, 1, 2),
                Stub(3, 11, North, 2, 0),
            ],
            via: &[(6, 4)],
            penalty: 2,
        },
        start: 0,
        end: 0,
        cost: 27,
        corners: &[
            Corner(3, 4),
            Corner(2, 4),
            Corner(6, 4),
            Corner(3, 4),
            Corner(3, 9),
        ],
    },
    // South: a stub that was begun earlier ends later than one that begins after it.
    Tied {
        asked: Asked {
            starts: &[Stub(3, 4, South, 4, 2)],
            ends: &[Stub(3, 12, North, 0, 4), Stub(3, 14, North, 3, 2)],
            via: &[],
            penalty: 3,
        },
        start: 0,
        end: 0,
        cost: 14,
        corners: &[Corner(3, 4), Corner(3, 12)],
    },
    // West: three stubs tie, and the one that ends first passes the port of another.
    Tied {
        asked: Asked {
            starts: &[Stub(0, 3, West, 0, 1)],
            ends: &[
                Stub(-11, 3, East, 4, 1),
                Stub(-9, 3, East, 4, 3),
                Stub(-10, 3, East, 2, 2),
            ],
            via: &[],
            penalty: 2,
        },
        start: 0,
        end: 1,
        cost: 13,
        corners: &[Corner(0, 3), Corner(-9, 3)],
    },
    // West: stubs tie after a checkpoint.
    Tied {
        asked: Asked {
            starts: &[Stub(-1, 3, West, 4, 4), Stub(-3, 3, North, 4, 3)],
            ends: &[Stub(-12, 3, East, 1, 4), Stub(-13, 3, East, 1, 3)],
            via: &[(1, 2)],
            penalty: 3,
        },
        start: 1,
        end: 0,
        cost: 43,
        corners: &[
            Corner(-3, 3),
            Corner(-3, -2),
            Corner(1, -2),
            Corner(1, 3),
            Corner(-12, 3),
        ],
    },
    // West: two starts tie, and two stubs.
    Tied {
        asked: Asked {
            starts: &[Stub(-1, 3, East, 0, 3), Stub(-4, 3, East, 3, 0)],
            ends: &[
                Stub(-12, 3, East, 2, 1),
                Stub(-11, 3, East, 3, 2),
                Stub(-7, 3, East, 3, 1),
            ],
            via: &[(4, 5), (-5, 3)],
            penalty: 3,
        },
        start: 0,
        end: 1,
        cost: 41,
        corners: &[
            Corner(-1, 3),
            Corner(4, 3),
            Corner(4, 5),
            Corner(4, 3),
            Corner(-11, 3),
        ],
    },
    // North: three stubs tie, and the one that ends first passes the port of another.
    Tied {
        asked: Asked {
            starts: &[Stub(3, 0, South, 4, 3)],
            ends: &[
                Stub(3, -10, South, 4, 4),
                Stub(3, -13, South, 0, 1),
                Stub(3, -11, South, 1, 3),
            ],
            via: &[],
            penalty: 3,
        },
        start: 0,
        end: 0,
        cost: 33,
        corners: &[Corner(3, 0), Corner(3, 5), Corner(3, -10)],
    },
    // North: stubs tie after a checkpoint.
    Tied {
        asked: Asked {
            starts: &[Stub(3, -4, South, 4, 4), Stub(3, -1, North, 0, 3)],
            ends: &[
                Stub(3, -13, South, 3, 1),
                Stub(3, -11, South, 4, 3),
                Stub(3, -14, East, 3, 0),
            ],
            via: &[(5, 4)],
            penalty: 2,
        },
        start: 1,
        end: 1,
        cost: 40,
        corners: &[
            Corner(3, -1),
            Corner(3, -2),
            Corner(5, -2),
            Corner(5, 4),
            Corner(3, 4),
            Corner(3, -11),
        ],
    },
    // North: a stub that was begun earlier ends later than one that begins after it.
    Tied {
        asked: Asked {
            starts: &[Stub(3, -2, North, 3, 4)],
            ends: &[
                Stub(3, -11, South, 4, 1),
                Stub(3, -8, South, 4, 1),
                Stub(3, -10, South, 2, 2),
            ],
            via: &[],
            penalty: 3,
        },
        start: 0,
        end: 2,
        cost: 14,
        corners: &[Corner(3, -2), Corner(3, -10)],
    },
    // South: a checkpoint twice at one point.
    Tied {
        asked: Asked {
            starts: &[Stub(3, 4, West, 0, 2), Stub(3, 2, North, 4, 4)],
            ends: &[
                Stub(3, 9, North, 1, 2),
                Stub(3, 9, West, 1, 2),
                Stub(3, 11, North, 2, 0),
            ],
            via: &[(6, 4), (6, 4)],
            penalty: 2,
        },
        start: 0,
        end: 0,
        cost: 27,
        corners: &[
            Corner(3, 4),
            Corner(2, 4),
            Corner(6, 4),
            Corner(3, 4),
            Corner(3, 9),
        ],
    },
    // East: checkpoints at the port of an end, and then at that of the start.
    Tied {
        asked: Asked {
            starts: &[Stub(3, 3, South, 1, 1)],
            ends: &[
                Stub(9, 3, West, 3, 4),
                Stub(11, 3, West, 0, 2),
                Stub(12, 3, West, 3, 1),
            ],
            via: &[(10, 3), (3, 5)],
            penalty: 3,
        },
        start: 0,
        end: 0,
        cost: 54,
        corners: &[
            Corner(3, 3),
            Corner(3, 5),
            Corner(10, 5),
            Corner(10, 3),
            Corner(3, 3),
            Corner(3, 5),
            Corner(3, 3),
            Corner(9, 3),
        ],
    },
    // West: checkpoints on the lines of stubs, past the port of one and before that of another.
    Tied {
        asked: Asked {
            starts: &[Stub(-1, 3, East, 0, 3), Stub(-4, 3, East, 3, 0)],
            ends: &[
                Stub(-12, 3, East, 2, 1),
                Stub(-11, 3, East, 3, 2),
                Stub(-7, 3, East, 3, 1),
            ],
            via: &[(-8, 3), (-2, 3)],
            penalty: 3,
        },
        start: 0,
        end: 2,
        cost: 42,
        corners: &[
            Corner(-1, 3),
            Corner(0, 3),
            Corner(-8, 3),
            Corner(-2, 3),
            Corner(-7, 3),
        ],
    },
];

/// The result of a search for the described task.
fn found(alloc: Global, asked: Asked) -> Result<Found, Fail> {
    let task = task(alloc, asked)?;
    let graph = graph(alloc, &task)?;
    found_in(alloc, &graph, &task)
}

/// Whether it is the route of the row.
fn is_of(found: &Found, row: &Tied) -> bool {
    found.is_along(Some(row.cost), row.corners) && found.choices == Some((row.start, row.end))
}

#[test]
fn finds_routes_along_a_line(rt: HostRuntime) -> Result<(), Fail> {
    for (place, row) in TIED.iter().enumerate() {
        let found = found(rt.alloc(), row.asked)?;
        assert!(rt; is_of(&found, row), "in row {place}: {found:?}");
    }
    Ok(())
}
