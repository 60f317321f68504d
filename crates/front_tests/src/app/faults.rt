//! Faults of the outside, files that are too long, and the exit codes of all statuses.

use crate::app::rows::{EMPTY, PARALLEL, ROUND, STRAIGHT, STRAIGHT_OUT};
use crate::app::runs::{Row, ends, exit_on, faultless};
use reroute_app::Status;
use std::alloc::{AllocError, Global};
use std::process::ExitCode;
use std::test::Fail;
use std::thread::Threads;

/// As many bytes as there are.
const ALL: usize = usize::MAX;

/// Arguments and diagram, with the script of a straight edge; the greatest number of bytes that a write takes, the read
/// and the write that fail; and the result.
const FAULTS: [(&str, &[u8], usize, u64, u64, Status, &str); 14] = [
    ("check|d.gml", ROUND, 5, 0, 2, Status::WriteFault, "edge "),
    (
        "check|d.gml",
        ROUND,
        1,
        0,
        0,
        Status::Done,
        "edge 1: cost 248.000\n",
    ),
    (
        "check|d.gml",
        ROUND,
        ALL,
        1,
        0,
        Status::ReadFault,
        "read fault: d.gml\n",
    ),
    ("check|d.gml", ROUND, ALL, 1, 1, Status::WriteFault, ""),
    (
        "route|d.gml|s.txt",
        EMPTY,
        1,
        0,
        0,
        Status::Done,
        STRAIGHT_OUT,
    ),
    (
        "route|d.gml|s.txt",
        EMPTY,
        ALL,
        1,
        0,
        Status::ReadFault,
        "read fault: d.gml\n",
    ),
    (
        "route|d.gml|s.txt",
        EMPTY,
        ALL,
        2,
        0,
        Status::ReadFault,
        "read fault: s.txt\n",
    ),
    (
        "route|d.gml|s.txt",
        EMPTY,
        ALL,
        2,
        1,
        Status::WriteFault,
        "",
    ),
    // After a diagram that is refused no script is read.
    (
        "route|d.gml|s.txt",
        b"",
        ALL,
        2,
        0,
        Status::Diagram,
        "diagram: NoGraph\n",
    ),
    (
        "preview|d.gml|s.txt",
        EMPTY,
        ALL,
        2,
        0,
        Status::ReadFault,
        "read fault: s.txt\n",
    ),
    (
        "audit|d.gml|s.txt",
        EMPTY,
        ALL,
        2,
        0,
        Status::ReadFault,
        "read fault: s.txt\n",
    ),
    // Nothing is read where the arguments are not understood, such as empty ones.
    ("", ROUND, ALL, 1, 0, Status::Words, NOT_UNDERSTOOD),
    ("check|", ROUND, ALL, 1, 0, Status::Words, NOT_UNDERSTOOD),
    (
        "check|d.gml|d.gml",
        ROUND,
        ALL,
        1,
        0,
        Status::Words,
        NOT_UNDERSTOOD,
    ),
];

const NOT_UNDERSTOOD: &str = "words: not understood\n";

#[test]
fn meets_faults_of_the_outside(rt: HostRuntime) -> Result<(), Fail> {
    for &(words, diagram, most, failing_read, failing_write, status, output) in &FAULTS {
        let row = Row {
            most,
            failing_read,
            failing_write,
            ..faultless(words, diagram, STRAIGHT, status, Some(output))
        };
        assert!(rt;
            ends(&rt, rt.alloc(), &row)?,
            "{words}, {failing_read}, {failing_write}"
        );
    }
    Ok(())
}

/// Each write of a run fails once.
#[test]
fn fails_at_each_write(rt: HostRuntime) -> Result<(), Fail> {
    for call in 1..46u16 {
        let held = STRAIGHT_OUT.get(..10 * (usize::from(call) - 1));
        let row = Row {
            most: 10,
            failing_write: u64::from(call),
            ..faultless(
                "route|d.gml|s.txt",
                EMPTY,
                STRAIGHT,
                Status::WriteFault,
                held,
            )
        };
        assert!(rt; held.is_some() && ends(&rt, rt.alloc(), &row)?, "{call}");
    }
    Ok(())
}

/// A byte, how often it stands in a file, whether that is the script of a `route` or else the diagram of a `check`, and
/// the result.
const LONG: [(u8, usize, bool, Status, &str); 5] = [
    (
        b' ',
        16_777_216,
        false,
        Status::Diagram,
        "diagram: NoGraph\n",
    ),
    (
        b' ',
        16_777_217,
        false,
        Status::TooLong,
        "too long: d.gml limit 16777216\n",
    ),
    (b' ', 4_194_304, true, Status::Done, "graph [\n]\n"),
    (
        b'a',
        4_194_304,
        true,
        Status::Refused,
        "# line 1: X1 Syntax\ngraph [\n]\n",
    ),
    (
        b' ',
        4_194_305,
        true,
        Status::TooLong,
        "too long: s.txt limit 4194304\n",
    ),
];

/// Whether a run on the bytes ends so.
fn ends_on(
    rt: &(impl Threads + Sync),
    alloc: Global,
    bytes: &[u8],
    is_script: bool,
    status: Status,
    output: &str,
) -> Result<bool, AllocError> {
    if is_script {
        let row = faultless("route|d.gml|s.txt", EMPTY, bytes, status, Some(output));
        ends(rt, alloc, &row)
    } else {
        let row = faultless("check|d.gml", bytes, b"", status, Some(output));
        ends(rt, alloc, &row)
    }
}

fn ends_on_long(
    rt: &(impl Threads + Sync),
    alloc: Global,
    (byte, count, is_script, status, output): (u8, usize, bool, Status, &str),
) -> Result<bool, AllocError> {
    let bytes = vec![in alloc; byte; count]?;
    ends_on(rt, alloc, &bytes, is_script, status, output)
}

#[test]
fn reads_long_files(rt: HostRuntime) -> Result<(), Fail> {
    for &row in &LONG {
        assert!(rt; ends_on_long(&rt, rt.alloc(), row)?, "{}", row.4);
    }
    Ok(())
}

/// Each status, with its exit status.
const CODES: [(Status, u8); 10] = [
    (Status::Done, 0),
    (Status::Refused, 1),
    (Status::Words, 2),
    (Status::Diagram, 3),
    (Status::ReadFault, 4),
    (Status::WriteFault, 5),
    (Status::NoMemory, 6),
    (Status::TooLong, 7),
    (Status::BadLine, 8),
    (Status::AuditNo, 9),
];

#[test]
fn has_a_code_for_each_end(rt: HostRuntime) {
    for &(status, code) in &CODES {
        assert!(rt; status.code() == code, "{code}");
    }
}

/// A line that leaves its box beside the port.
const BREACH: &[u8] = b"graph [ node [ id 1 graphics [ x 0 y 0 w 20 h 20 ] ] \
    node [ id 2 graphics [ x 100 y 0 w 20 h 20 ] ] \
    edge [ source 1 target 2 graphics [ Line [ point [ x 0 y 1 ] point [ x 100 y 1 ] ] ] ] ]";

/// Arguments, diagram and second file, the write that fails, and the exit status.
const ENDS: [(&str, &[u8], &[u8], u64, u8); 9] = [
    ("check|d.gml", EMPTY, b"", 0, 0),
    (
        "route|--workers|2|--count|d.gml|s.txt",
        EMPTY,
        PARALLEL,
        0,
        0,
    ),
    ("route|d.gml|s.txt", EMPTY, b"undo", 0, 1),
    ("check", EMPTY, b"", 0, 2),
    ("check|d.gml", b"", b"", 0, 3),
    ("check|x.gml", EMPTY, b"", 0, 4),
    ("check|d.gml", ROUND, b"", 1, 5),
    ("check|d.gml", BREACH, b"", 0, 8),
    ("audit|d.gml|s.txt", EMPTY, b"edge 1 cut\n", 0, 9),
];

#[test]
fn ends_with_the_code_of_its_status(rt: HostRuntime) -> Result<(), Fail> {
    for &(words, diagram, second, failing_write, code) in &ENDS {
        let row = Row {
            failing_write,
            ..faultless(words, diagram, second, Status::Done, None)
        };
        let ended = exit_on(&rt, rt.alloc(), &row)?;
        assert!(rt; ended.code() == ExitCode::from(code), "{words}");
    }
    Ok(())
}
