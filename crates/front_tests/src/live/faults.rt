//! Ends of the input, lines at the limit, and reads and writes that fail.

use crate::live::runs::{Row, Verdict, both_reported, reported, whole_row, wrote};
use live_replies::{End, ServeFault};
use std::alloc::{AllocError, Global};
use std::test::Fail;

/// Two boxes and a connector between them.
pub(crate) const DRAWN: &str =
    "begin\nnode 1 0 0 20 20\nnode 2 100 0 20 20\nedge 1 2 0 0\ncommit\n";

pub(crate) const DRAWN_REPLIES: &str = "ok\nok\nok\nok\nline 1 0.000 0.000 100.000 0.000\nok\n";

/// Inputs that end, and faults, each with how the session ends.
fn rows() -> [(Row<'static>, Result<End, ServeFault>); 7] {
    let drawn = whole_row("the end of the input", DRAWN.as_bytes(), DRAWN_REPLIES);
    [
        (drawn, Ok(End::Input)),
        (whole_row("no input", b"", ""), Ok(End::Input)),
        (
            whole_row("no line feed at the end", b"next\nquit", "next 1\nok\nok\n"),
            Ok(End::Quit),
        ),
        (
            Row {
                name: "output byte by byte",
                most: 1,
                ..drawn
            },
            Ok(End::Input),
        ),
        (
            Row {
                name: "the third read fails",
                failing_read: 3,
                written: "ok\nok\n",
                ..drawn
            },
            Err(ServeFault::Read),
        ),
        (
            Row {
                name: "the second write fails",
                failing_write: 2,
                written: "ok\n",
                ..drawn
            },
            Err(ServeFault::Write),
        ),
        (
            Row {
                name: "a write fails in the middle of a reply",
                most: 2,
                failing_write: 10,
                written: "ok\nok\nok\nok\nli",
                ..drawn
            },
            Err(ServeFault::Write),
        ),
    ]
}

#[test]
fn ends_as_its_input_and_output_do(rt: HostRuntime) {
    for (row, end) in rows() {
        let reported = reported(&rt, rt.alloc(), &row);
        assert_eq!(rt; reported, Some(wrote(end)), "{}", row.name);
    }
}

#[test]
fn is_as_after_the_line_whose_reply_was_not_written(rt: HostRuntime) {
    let first = Row {
        failing_write: 5,
        written: "ok\nok\nok\nok\n",
        ..whole_row("the reply to a commit", DRAWN.as_bytes(), "")
    };
    let second = whole_row(
        "the lines and a step back",
        b"lines\nundo\nlines\n",
        "line 1 0.000 0.000 100.000 0.000\nok\nno line 1\nok\nok\n",
    );
    let reported = both_reported(&rt, rt.alloc(), &first, &second);
    let wanted = (wrote(Err(ServeFault::Write)), wrote(Ok(End::Input)));
    assert_eq!(rt; reported, Some(wanted));
}

/// Appends a comment of this many bytes in all, at least 1, and a line feed.
pub(crate) fn push_comment(out: &mut Vec<u8>, length: usize) -> Result<(), AllocError> {
    out.push(b'#')?;
    for _ in 1..length {
        out.push(b'x')?;
    }
    out.push(b'\n')?;
    Ok(())
}

/// A transaction with a line of exactly 4096 bytes, and one with a line that is longer by one.
fn long_lines(alloc: Global) -> Result<Vec<u8>, AllocError> {
    let mut input = Vec::new(alloc);
    input.extend_from_slice(b"begin\n")?;
    push_comment(&mut input, 4096)?;
    input.extend_from_slice(b"commit\nbegin\n")?;
    push_comment(&mut input, 4097)?;
    input.extend_from_slice(b"commit\nnext\n")?;
    Ok(input)
}

#[test]
fn skips_lines_that_are_too_long(rt: HostRuntime) -> Result<(), Fail> {
    let input = long_lines(rt.alloc())?;
    let replies = "ok\nok\nok\nok\nrefused TooLong\nrefused X2 NoTransaction\nnext 1\nok\n";
    let row = whole_row("long lines", &input, replies);
    let reported: Option<Verdict> = reported(&rt, rt.alloc(), &row);
    assert_eq!(rt; reported, Some(wrote(Ok(End::Input))));
    Ok(())
}
