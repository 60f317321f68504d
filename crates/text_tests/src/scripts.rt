//! Scripts: rows of commands, and a long line.

use edit_script::commands;
use scene_model::{Command, Dirs, Edit, Setting};
use std::alloc::{AllocError, Global};
use std::test::Fail;

const BEYOND: i64 = 1_000_000_000_000_001;

const WEST_AND_EAST: Dirs = Dirs {
    east: true,
    south: false,
    west: true,
    north: false,
};

/// A line and its command.
type Row = (usize, Command);

/// A line of each form and of each refusal.
const SCRIPT: &str =
    "begin\n\n  # node 1 0 0 1 1\r\nnode -07 1.5 -2E1 +0 1E999\r\n\tmove 1 -1E999 2.0005\nsize 2 3 4\n\
drop 3\npin 4 5 6 7 WE\nunpin 8 009\nedge 1 2 0 65535\ncut 999999999\nclasses 1 2 3\nvia 4 5 6 7\nunvia 8 9\n\
set nudge .5 \ncommit\nabort\nundo\nredo\nNode 1 0 0 1 1\nbegin now\nset nudge\npin 1 2 3 4 NN\ncut 0123456789\n\
redo\r\r\nset width 1\ncut +1\ncut 1\r";

/// Its commands, each with its line.
const ROWS: [Row; 26] = [
    (1, Command::Begin),
    (
        4,
        Command::Edit(Edit::AddNode {
            id: -7,
            x: 1500,
            y: -20_000,
            w: 0,
            h: BEYOND,
        }),
    ),
    (
        5,
        Command::Edit(Edit::MoveNode {
            id: 1,
            x: -BEYOND,
            y: 2001,
        }),
    ),
    (
        6,
        Command::Edit(Edit::SizeNode {
            id: 2,
            w: 3000,
            h: 4000,
        }),
    ),
    (7, Command::Edit(Edit::DropNode { id: 3 })),
    (
        8,
        Command::Edit(Edit::AddPin {
            id: 4,
            class: 5,
            dx: 6000,
            dy: 7000,
            dirs: WEST_AND_EAST,
        }),
    ),
    (9, Command::Edit(Edit::DropPin { id: 8, place: 9 })),
    (
        10,
        Command::Edit(Edit::AddEdge {
            from: 1,
            to: 2,
            from_class: 0,
            to_class: 65535,
        }),
    ),
    (
        11,
        Command::Edit(Edit::CutEdge {
            number: 999_999_999,
        }),
    ),
    (
        12,
        Command::Edit(Edit::SetClasses {
            number: 1,
            from_class: 2,
            to_class: 3,
        }),
    ),
    (
        13,
        Command::Edit(Edit::AddVia {
            number: 4,
            place: 5,
            x: 6000,
            y: 7000,
        }),
    ),
    (
        14,
        Command::Edit(Edit::DropVia {
            number: 8,
            place: 9,
        }),
    ),
    (
        15,
        Command::Edit(Edit::Set {
            what: Setting::Nudge,
            value: 500,
        }),
    ),
    (16, Command::Commit),
    (17, Command::Abort),
    (18, Command::Undo),
    (19, Command::Redo),
    (20, Command::Bad),
    (21, Command::Bad),
    (22, Command::Bad),
    (23, Command::Bad),
    (24, Command::Bad),
    (25, Command::Bad),
    (26, Command::Bad),
    (27, Command::Bad),
    (28, Command::Edit(Edit::CutEdge { number: 1 })),
];

/// The first line of which another command is read than expected, or 0 where there is none.
fn wrong_line(read: &[Row], wanted: &[Row]) -> usize {
    for (row, want) in read.iter().zip(wanted) {
        if *row != *want {
            return want.0;
        }
    }
    if read.len() == wanted.len() {
        0
    } else {
        usize::MAX
    }
}

/// The same of a script.
fn wrong_line_of(alloc: Global, script: &[u8], wanted: &[Row]) -> Result<usize, AllocError> {
    Ok(wrong_line(&commands(alloc, script)?, wanted))
}

/// A node that is further than any number is read.
const FAR: Command = Command::Edit(Edit::AddNode {
    id: 1,
    x: BEYOND,
    y: 0,
    w: 1000,
    h: 1000,
});

#[test]
fn reads_each_form(rt: HostRuntime) -> Result<(), Fail> {
    assert_eq!(rt; wrong_line_of(rt.alloc(), SCRIPT.as_bytes(), &ROWS)?, 0);
    let far = b"node 1 1E999 0 1 1";
    assert_eq!(rt; wrong_line_of(rt.alloc(), far, &[(1, FAR)])?, 0);
    Ok(())
}
