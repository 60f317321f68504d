//! Inputs that do not end a session: reads that are interrupted, a very long line, and thousands of lines.

use crate::live::faults::{DRAWN, DRAWN_REPLIES, push_comment};
use crate::live::runs::{reported, reported_lines, whole_row, wrote};
use host_edge::ReaderLines;
use live_replies::{End, ServeFault};
use std::alloc::{AllocError, Global};
use std::io;
use std::io::{ErrorKind, Read};
use std::test::Fail;

/// Bytes whose every second read, the first one among them, meets an error of this kind.
#[derive(Drop)]
struct Hindered<'a> {
    bytes: &'a [u8],
    kind: ErrorKind,
    is_hindered: bool,
}

impl<'a> Read for Hindered<'a> {
    fn read(&mut self, buf: &mut [u8]) -> io::Result<usize> {
        self.is_hindered = !self.is_hindered;
        if self.is_hindered {
            return Err(io::Error::from(self.kind));
        }
        let count = buf.len().min(self.bytes.len());
        buf[..count].copy_from_slice(&self.bytes[..count]);
        self.bytes = &self.bytes[count..];
        Ok(count)
    }
}

/// The lines of `DRAWN`, each of whose bytes is read after such an error.
fn hindered_lines(kind: ErrorKind) -> ReaderLines<Hindered<'static>> {
    ReaderLines::new(Hindered {
        bytes: DRAWN.as_bytes(),
        kind,
        is_hindered: false,
    })
}

#[test]
fn reads_on_after_interrupts(rt: HostRuntime) {
    let row = whole_row("interrupts", b"", DRAWN_REPLIES);
    let mut lines = hindered_lines(ErrorKind::Interrupted);
    let reported = reported_lines(&rt, rt.alloc(), &mut lines, &row);
    assert_eq!(rt; reported, Some(wrote(Ok(End::Input))));
    assert_eq!(rt; lines.faults, 0);
}

#[test]
fn ends_at_other_errors(rt: HostRuntime) {
    let row = whole_row("an error", b"", "");
    let mut lines = hindered_lines(ErrorKind::UnexpectedEof);
    let reported = reported_lines(&rt, rt.alloc(), &mut lines, &row);
    assert_eq!(rt; reported, Some(wrote(Err(ServeFault::Read))));
    assert_eq!(rt; lines.faults, 1);
}

/// A line of 100,000 bytes in a transaction, which it ends.
fn very_long_line(alloc: Global) -> Result<Vec<u8>, AllocError> {
    let mut input = Vec::from_slice(alloc, b"begin\n")?;
    push_comment(&mut input, 100_000)?;
    input.extend_from_slice(b"commit\nnext\n")?;
    Ok(input)
}

#[test]
fn skips_a_very_long_line(rt: HostRuntime) -> Result<(), Fail> {
    let input = very_long_line(rt.alloc())?;
    let row = whole_row(
        "a line of 100,000 bytes",
        &input,
        "ok\nrefused TooLong\nrefused X2 NoTransaction\nnext 1\nok\n",
    );
    let reported = reported(&rt, rt.alloc(), &row);
    assert_eq!(rt; reported, Some(wrote(Ok(End::Input))));
    Ok(())
}

/// This text so many times.
fn repeated(alloc: Global, text: &str, count: usize) -> Result<String, AllocError> {
    let mut all = String::new(alloc);
    for _ in 0..count {
        all.push_str(text)?;
    }
    Ok(all)
}

#[test]
fn replies_to_thousands_of_lines(rt: HostRuntime) -> Result<(), Fail> {
    let input = repeated(rt.alloc(), "# a comment\n", 5_000)?;
    let replies = repeated(rt.alloc(), "ok\n", 5_000)?;
    let row = whole_row("5,000 comments", input.as_bytes(), &replies);
    let reported = reported(&rt, rt.alloc(), &row);
    assert_eq!(rt; reported, Some(wrote(Ok(End::Input))));
    Ok(())
}
