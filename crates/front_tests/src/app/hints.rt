//! What people are told besides the output.

use crate::app::rows::EMPTY;
use crate::app::runs::{Row, exit_on, faultless};
use reroute_app::{Exit, Hint, Place, Status, Unrouted};
use std::test::Fail;

/// A box in a larger one, two others, and edges of which two end in the larger one.
const COVERED: &[u8] =
    b"begin\nnode 1 0 0 20 20\nnode 2 200 0 20 20\nnode 3 0 0 60 60\nnode 4 200 100 20 20\n\
    edge 1 2 0 0\nedge 2 4 0 0\nedge 4 1 0 0\ncommit\n";

/// The place of this line and column.
fn at(line: usize, column: usize) -> Hint {
    Hint::At(Place { line, column })
}

/// Arguments, diagram and script, the write that fails, and how the program ends.
fn rows() -> [(Row<'static>, Hint); 12] {
    let two_unrouted = Hint::Unrouted(Unrouted { without: 2, all: 3 });
    [
        (
            faultless("route|d.gml|s.txt", EMPTY, COVERED, Status::Done, None),
            two_unrouted,
        ),
        (
            faultless("check|d.gml", EMPTY, b"", Status::Done, None),
            Hint::Nothing,
        ),
        (
            faultless("check|d.gml", b"", b"", Status::Diagram, None),
            Hint::Nothing,
        ),
        (
            faultless(
                "check|d.gml",
                b"graph [\n ]\n  ]",
                b"",
                Status::Diagram,
                None,
            ),
            at(3, 3),
        ),
        (
            faultless("shared|d.gml", b"\n\ngraph", b"", Status::Diagram, None),
            at(3, 6),
        ),
        (
            faultless("prove|d.gml", b"!", b"", Status::Diagram, None),
            at(1, 1),
        ),
        (
            faultless("check", EMPTY, b"", Status::Words, None),
            Hint::Nothing,
        ),
        (
            faultless("chek|d.gml", EMPTY, b"", Status::Words, None),
            Hint::NoCommand,
        ),
        (
            faultless("", EMPTY, b"", Status::Words, None),
            Hint::NoCommand,
        ),
        (
            faultless("check|x.gml", EMPTY, b"", Status::ReadFault, None),
            Hint::Nothing,
        ),
        (
            Row {
                failing_write: 1,
                ..faultless(
                    "route|d.gml|s.txt",
                    EMPTY,
                    COVERED,
                    Status::WriteFault,
                    None,
                )
            },
            Hint::Nothing,
        ),
        (
            Row {
                failing_write: 1,
                ..faultless("check|d.gml", b"!", b"", Status::WriteFault, None)
            },
            Hint::Nothing,
        ),
    ]
}

#[test]
fn tells_where_and_how_many(rt: HostRuntime) -> Result<(), Fail> {
    for (row, hint) in rows() {
        let wanted = Exit {
            status: row.status,
            hint,
        };
        assert_eq!(rt; exit_on(&rt, rt.alloc(), &row)?, wanted, "{}", row.words);
    }
    Ok(())
}
