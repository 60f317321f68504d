//! Worked phases, with the bundles that an independent program gives.
use plane_geom::Dir::{East, North, South};
use plane_geom::{Dir, SHEET_START};

/// A solid by its left, top, right and bottom sides.
#[derive(Clone, Copy)]
pub(super) struct Block(
    pub(super) i64,
    pub(super) i64,
    pub(super) i64,
    pub(super) i64,
);

/// A point.
#[derive(Clone, Copy)]
pub(super) struct Corner(pub(super) i64, pub(super) i64);

/// A run in the direction to the point.
#[derive(Clone, Copy)]
pub(super) struct Leg(pub(super) Dir, pub(super) i64, pub(super) i64);

/// A route of the edge, run by run from its start.
#[derive(Clone, Copy)]
pub(super) struct Drawn {
    pub(super) edge: u32,
    pub(super) weight: u32,
    pub(super) start: Corner,
    pub(super) legs: &'static [Leg],
    pub(super) source_port: Corner,
    pub(super) target_port: Corner,
    pub(super) via: &'static [Corner],
}

/// A run of a bundle by its edge and its place, with its want, its limits and its weight.
#[derive(Clone, Copy, Debug, PartialEq, Eq)]
pub(super) struct Placed(
    pub(super) u32,
    pub(super) u32,
    pub(super) i64,
    pub(super) i64,
    pub(super) i64,
    pub(super) u32,
);

/// A rule from one run of the bundle to another, and whether it is spaced.
#[derive(Clone, Copy, Debug, PartialEq, Eq)]
pub(super) struct Ruled(pub(super) u32, pub(super) u32, pub(super) bool);

/// A bundle by its runs and its rules.
#[derive(Clone, Copy)]
pub(super) struct Wanted(pub(super) &'static [Placed], pub(super) &'static [Ruled]);

/// Routes between solids, and the bundles of their vertical and of their horizontal runs.
#[derive(Clone, Copy)]
pub(super) struct Row {
    pub(super) solids: &'static [Block],
    pub(super) routes: &'static [Drawn],
    pub(super) nudge: i64,
    pub(super) vertical: &'static [Wanted],
    pub(super) horizontal: &'static [Wanted],
}

pub(super) const ROUND_BOXES: [Row; 3] = [
    // Two edges around a box.
    Row {
        solids: &[
            Block(-14_000, -14_000, 14_000, 14_000),
            Block(86_000, -14_000, 114_000, 14_000),
            Block(36_000, -24_000, 64_000, 24_000),
        ],
        routes: &[
            Drawn {
                edge: 1,
                weight: 1,
                start: Corner(0, 0),
                legs: &[
                    Leg(North, 0, -24_000),
                    Leg(East, 100_000, -24_000),
                    Leg(South, 100_000, 0),
                ],
                source_port: Corner(0, -14_000),
                target_port: Corner(100_000, -14_000),
                via: &[],
            },
            Drawn {
                edge: 2,
                weight: 1,
                start: Corner(0, 0),
                legs: &[
                    Leg(North, 0, -24_000),
                    Leg(East, 100_000, -24_000),
                    Leg(South, 100_000, 0),
                ],
                source_port: Corner(0, -14_000),
                target_port: Corner(100_000, -14_000),
                via: &[],
            },
        ],
        nudge: 4_000,
        vertical: &[
            Wanted(&[Placed(1, 1, 0, 0, 0, 1)], &[]),
            Wanted(&[Placed(2, 1, 0, 0, 0, 1)], &[]),
            Wanted(&[Placed(1, 3, 100_000, 100_000, 100_000, 1)], &[]),
            Wanted(&[Placed(2, 3, 100_000, 100_000, 100_000, 1)], &[]),
        ],
        horizontal: &[Wanted(
            &[
                Placed(1, 2, -24_000, SHEET_START, -24_000, 1),
                Placed(2, 2, -24_000, SHEET_START, -24_000, 1),
            ],
            &[Ruled(0, 1, true)],
        )],
    },
    // Over one box and under another, with a gap that is halved.
    Row {
        solids: &[
            Block(-14_000, 10_000, 14_000, 38_000),
            Block(186_000, 10_000, 214_000, 38_000),
            Block(36_000, 0, 64_000, 48_000),
            Block(106_000, 46_000, 134_000, 74_000),
            Block(286_000, -74_000, 314_000, -46_000),
            Block(220_000, -60_000, 250_000, 0),
        ],
        routes: &[
            Drawn {
                edge: 1,
                weight: 1,
                start: Corner(0, 24_000),
                legs: &[
                    Leg(North, 0, 0),
                    Leg(East, 200_000, 0),
                    Leg(South, 200_000, 24_000),
                ],
                source_port: Corner(0, 10_000),
                target_port: Corner(200_000, 10_000),
                via: &[],
            },
            Drawn {
                edge: 2,
                weight: 1,
                start: Corner(120_000, 60_000),
                legs: &[
                    Leg(North, 120_000, 0),
                    Leg(East, 300_000, 0),
                    Leg(North, 300_000, -60_000),
                ],
                source_port: Corner(120_000, 46_000),
                target_port: Corner(300_000, -46_000),
                via: &[],
            },
        ],
        nudge: 1,
        vertical: &[
            Wanted(&[Placed(1, 1, 0, 0, 0, 1)], &[]),
            Wanted(&[Placed(2, 1, 120_000, 120_000, 120_000, 1)], &[]),
            Wanted(&[Placed(1, 3, 200_000, 200_000, 200_000, 1)], &[]),
            Wanted(&[Placed(2, 3, 300_000, 300_000, 300_000, 1)], &[]),
        ],
        horizontal: &[Wanted(
            &[
                Placed(1, 2, 0, SHEET_START, 0, 1),
                Placed(2, 2, 0, 0, 10_000, 1),
            ],
            &[Ruled(0, 1, true)],
        )],
    },
    // The same with weights 3 and 1.
    Row {
        solids: &[
            Block(-14_000, 10_000, 14_000, 38_000),
            Block(186_000, 10_000, 214_000, 38_000),
            Block(36_000, 0, 64_000, 48_000),
            Block(106_000, 46_000, 134_000, 74_000),
            Block(286_000, -74_000, 314_000, -46_000),
            Block(220_000, -60_000, 250_000, 0),
        ],
        routes: &[
            Drawn {
                edge: 1,
                weight: 3,
                start: Corner(0, 24_000),
                legs: &[
                    Leg(North, 0, 0),
                    Leg(East, 200_000, 0),
                    Leg(South, 200_000, 24_000),
                ],
                source_port: Corner(0, 10_000),
                target_port: Corner(200_000, 10_000),
                via: &[],
            },
            Drawn {
                edge: 2,
                weight: 1,
                start: Corner(120_000, 60_000),
                legs: &[
                    Leg(North, 120_000, 0),
                    Leg(East, 300_000, 0),
                    Leg(North, 300_000, -60_000),
                ],
                source_port: Corner(120_000, 46_000),
                target_port: Corner(300_000, -46_000),
                via: &[],
            },
        ],
        nudge: 4_000,
        vertical: &[
            Wanted(&[Placed(1, 1, 0, 0, 0, 3)], &[]),
            Wanted(&[Placed(2, 1, 120_000, 120_000, 120_000, 1)], &[]),
            Wanted(&[Placed(1, 3, 200_000, 200_000, 200_000, 3)], &[]),
            Wanted(&[Placed(2, 3, 300_000, 300_000, 300_000, 1)], &[]),
        ],
        horizontal: &[Wanted(
            &[
                Placed(1, 2, 0, SHEET_START, 0, 3),
                Placed(2, 2, 0, 0, 10_000, 1),
            ],
            &[Ruled(0, 1, true)],
        )],
    },
];

pub(super) const CHANNELS: [Row; 3] = [
    // Three edges through a channel of width 5000, and two around a box: widest gaps 2500 and 4000.
    Row {
        solids: &[
            Block(-14_000, 10_000, 14_000, 38_000),
            Block(86_000, 10_000, 114_000, 38_000),
            Block(36_000, 0, 64_000, 48_000),
            Block(36_000, -33_000, 64_000, -5_000),
            Block(986_000, -14_000, 1_014_000, 14_000),
            Block(1_086_000, -14_000, 1_114_000, 14_000),
            Block(1_036_000, -24_000, 1_064_000, 24_000),
        ],
        routes: &[
            Drawn {
                edge: 1,
                weight: 1,
                start: Corner(0, 24_000),
                legs: &[
                    Leg(North, 0, 0),
                    Leg(East, 100_000, 0),
                    Leg(South, 100_000, 24_000),
                ],
                source_port: Corner(0, 10_000),
                target_port: Corner(100_000, 10_000),
                via: &[],
            },
            Drawn {
                edge: 2,
                weight: 1,
                start: Corner(0, 24_000),
                legs: &[
                    Leg(North, 0, 0),
                    Leg(East, 100_000, 0),
                    Leg(South, 100_000, 24_000),
                ],
                source_port: Corner(0, 10_000),
                target_port: Corner(100_000, 10_000),
                via: &[],
            },
            Drawn {
                edge: 3,
                weight: 1,
                start: Corner(0, 24_000),
                legs: &[
                    Leg(North, 0, 0),
                    Leg(East, 100_000, 0),
                    Leg(South, 100_000, 24_000),
                ],
                source_port: Corner(0, 10_000),
                target_port: Corner(100_000, 10_000),
                via: &[],
            },
            Drawn {
                edge: 4,
                weight: 1,
                start: Corner(1_000_000, 0),
                legs: &[
                    Leg(North, 1_000_000, -24_000),
                    Leg(East, 1_100_000, -24_000),
                    Leg(South, 1_100_000, 0),
                ],
                source_port: Corner(1_000_000, -14_000),
                target_port: Corner(1_100_000, -14_000),
                via: &[],
            },
            Drawn {
                edge: 5,
                weight: 1,
                start: Corner(1_000_000, 0),
                legs: &[
                    Leg(North, 1_000_000, -24_000),
                    Leg(East, 1_100_000, -24_000),
                    Leg(South, 1_100_000, 0),
                ],
                source_port: Corner(1_000_000, -14_000),
                target_port: Corner(1_100_000, -14_000),
                via: &[],
            },
        ],
        nudge: 4_000,
        vertical: &[
            Wanted(&[Placed(1, 1, 0, 0, 0, 1)], &[]),
            Wanted(&[Placed(2, 1, 0, 0, 0, 1)], &[]),
            Wanted(&[Placed(3, 1, 0, 0, 0, 1)], &[]),
            Wanted(&[Placed(1, 3, 100_000, 100_000, 100_000, 1)], &[]),
            Wanted(&[Placed(2, 3, 100_000, 100_000, 100_000, 1)], &[]),
            Wanted(&[Placed(3, 3, 100_000, 100_000, 100_000, 1)], &[]),
            Wanted(&[Placed(4, 1, 1_000_000, 1_000_000, 1_000_000, 1)], &[]),
            Wanted(&[Placed(5, 1, 1_000_000, 1_000_000, 1_000_000, 1)], &[]),
            Wanted(&[Placed(4, 3, 1_100_000, 1_100_000, 1_100_000, 1)], &[]),
            Wanted(&[Placed(5, 3, 1_100_000, 1_100_000, 1_100_000, 1)], &[]),
        ],
        horizontal: &[
            Wanted(
                &[
                    Placed(4, 2, -24_000, SHEET_START, -24_000, 1),
                    Placed(5, 2, -24_000, SHEET_START, -24_000, 1),
                ],
                &[Ruled(0, 1, true)],
            ),
            Wanted(
                &[
                    Placed(1, 2, 0, -5_000, 0, 1),
                    Placed(2, 2, 0, -5_000, 0, 1),
                    Placed(3, 2, 0, -5_000, 0, 1),
                ],
                &[Ruled(0, 1, true), Ruled(0, 2, true), Ruled(1, 2, true)],
            ),
        ],
    },
    // Two runs on two sides of a box that keeps them exactly as far apart as they want.
    Row {
        solids: &[Block(40_000, -5_000, 60_000, 0)],
        routes: &[
            Drawn {
                edge: 1,
                weight: 1,
                start: Corner(0, -40_000),
                legs: &[
                    Leg(South, 0, -20_000),
                    Leg(East, 100_000, -20_000),
                    Leg(North, 100_000, -60_000),
                ],
                source_port: Corner(0, -39_000),
                target_port: Corner(100_000, -59_000),
                via: &[],
            },
            Drawn {
                edge: 2,
                weight: 1,
                start: Corner(10_000, 60_000),
                legs: &[
                    Leg(North, 10_000, 20_000),
                    Leg(East, 90_000, 20_000),
                    Leg(South, 90_000, 40_000),
                ],
                source_port: Corner(10_000, 59_000),
                target_port: Corner(90_000, 39_000),
                via: &[],
            },
        ],
        nudge: 5_000,
        vertical: &[
            Wanted(&[Placed(1, 1, 0, 0, 0, 1)], &[]),
            Wanted(&[Placed(2, 1, 10_000, 10_000, 10_000, 1)], &[]),
            Wanted(&[Placed(2, 3, 90_000, 90_000, 90_000, 1)], &[]),
            Wanted(&[Placed(1, 3, 100_000, 100_000, 100_000, 1)], &[]),
        ],
        horizontal: &[
            Wanted(&[Placed(1, 2, -20_000, -39_000, -5_000, 1)], &[]),
            Wanted(&[Placed(2, 2, 20_000, 0, 39_000, 1)], &[]),
        ],
    },
    // The same, and they want one thousandth more.
    Row {
        solids: &[Block(40_000, -5_000, 60_000, 0)],
        routes: &[
            Drawn {
                edge: 1,
                weight: 1,
                start: Corner(0, -40_000),
                legs: &[
                    Leg(South, 0, -20_000),
                    Leg(East, 100_000, -20_000),
                    Leg(North, 100_000, -60_000),
                ],
                source_port: Corner(0, -39_000),
                target_port: Corner(100_000, -59_000),
                via: &[],
            },
            Drawn {
                edge: 2,
                weight: 1,
                start: Corner(10_000, 60_000),
                legs: &[
                    Leg(North, 10_000, 20_000),
                    Leg(East, 90_000, 20_000),
                    Leg(South, 90_000, 40_000),
                ],
                source_port: Corner(10_000, 59_000),
                target_port: Corner(90_000, 39_000),
                via: &[],
            },
        ],
        nudge: 5_001,
        vertical: &[
            Wanted(&[Placed(1, 1, 0, 0, 0, 1)], &[]),
            Wanted(&[Placed(2, 1, 10_000, 10_000, 10_000, 1)], &[]),
            Wanted(&[Placed(2, 3, 90_000, 90_000, 90_000, 1)], &[]),
            Wanted(&[Placed(1, 3, 100_000, 100_000, 100_000, 1)], &[]),
        ],
        horizontal: &[Wanted(
            &[
                Placed(1, 2, -20_000, -39_000, -5_000, 1),
                Placed(2, 2, 20_000, 0, 39_000, 1),
            ],
            &[Ruled(0, 1, true)],
        )],
    },
];
