//! Arguments of a program, as a test gives them.

use host_edge::all_arguments;
use std::alloc::{AllocError, Global};
use std::env::FillError;
use std::rt::Env;
use std::test::Fail;

/// An environment in which this was typed, one argument a line, beginning with the program's name.
#[derive(Drop)]
struct Typed<'a> {
    lines: &'a [u8],
}

impl<'a> Env for Typed<'a> {
    fn arg(&self, number: usize, buf: &mut [u8]) -> Result<usize, FillError> {
        let mut words = self.lines.split(|byte| *byte == b'\n');
        let word = words.nth(number).ok_or(FillError::NotPresent)?;
        if word.len() > buf.len() {
            return Err(FillError::TooLong);
        }
        buf[..word.len()].copy_from_slice(word);
        Ok(word.len())
    }

    fn var(&self, _name: &str, _buf: &mut [u8]) -> Result<usize, FillError> {
        Err(FillError::NotPresent)
    }

    fn var_at(&self, _number: usize, _buf: &mut [u8]) -> Result<usize, FillError> {
        Err(FillError::NotPresent)
    }
}

/// The arguments that are read, each followed by a bar.
fn taken(alloc: Global, lines: &[u8]) -> Result<String, AllocError> {
    let mut text = String::new(alloc);
    for argument in &all_arguments(&Typed { lines }, alloc)? {
        text.push_str(argument)?;
        text.push('|')?;
    }
    Ok(text)
}

/// What is typed, and the arguments that must be read.
const ROWS: [(&[u8], &str); 3] = [
    (b"reroute", ""),
    (b"reroute\ncheck\n\nd.gml", "check||d.gml|"),
    (b"reroute\n\xff.gml\ncheck", "|check|"),
];

/// Whether these arguments are read.
fn are_taken(alloc: Global, lines: &[u8], want: &str) -> Result<bool, AllocError> {
    Ok(taken(alloc, lines)?.as_str() == want)
}

/// Whether an argument of 300 bytes is read, and the one after it.
fn is_long_one_taken(alloc: Global) -> Result<bool, AllocError> {
    let mut lines = Vec::from_slice(alloc, b"reroute\n")?;
    lines.resize(308, b'x')?;
    lines.extend_from_slice(b"\ncheck")?;
    let text = taken(alloc, &lines)?;
    Ok(text.len() == 300 + "|check|".len() && text.as_str().ends_with("x|check|"))
}

#[test]
fn takes_every_argument(rt: HostRuntime) -> Result<(), Fail> {
    let alloc = rt.alloc();
    for &(lines, want) in &ROWS {
        assert!(rt; are_taken(alloc, lines, want)?, "{want}");
    }
    assert!(rt; is_long_one_taken(alloc)?, "a long one");
    Ok(())
}
