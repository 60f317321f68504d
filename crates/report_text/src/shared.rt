//! What is said of the paths that routes share, and of the crossings of lines.
ghost use Rattle.std.specs.Prelude.{◌≡◌, ◌++◌, OnErr, OnOk};
ghost use Rattle.report_text.specs.Shared.{crossings_line, end_text, ends_text, runs_text};
ghost use Rattle.report_text.specs.Shared.{shared_line, shared_lines, side_text, some_side_text};

use crate::number::push_numbered;
use shared_paths::{End, SharedPath, Side};
use std::alloc::AllocError;

/// Appends one line for each path.
pub fn push_shared_lines(out: &mut Vec<u8>, paths: &[SharedPath]) -> Result<(), AllocError>
    ensures ok { OnOk result (out.new.items ≡ out.old.items ++ shared_lines paths.now) }
    ensures err { OnErr result (out.new.items ≡ out.old.items) }
{
    let mut text = Vec::new(*out.allocator());
    for path in paths {
        push_shared_line(&mut text, path)?;
    }
    out.extend_from_slice(&text)
}

fn push_shared_line(out: &mut Vec<u8>, path: &SharedPath) -> Result<(), AllocError>
    ensures { OnOk result (out.new.items ≡ out.old.items ++ shared_line path.now) }
{
    push_runs(out, path)?;
    push_ends(out, path)?;
    out.push(b'\n')?;
    Ok(())
}

fn push_runs(out: &mut Vec<u8>, path: &SharedPath) -> Result<(), AllocError>
    ensures { OnOk result (out.new.items ≡ out.old.items ++ runs_text path.now) }
{
    push_numbered(out, b"shared ", u64::from(path.a))?;
    push_numbered(out, b" ", u64::from(path.b))?;
    push_numbered(out, b" runs ", u64::from(path.first))?;
    push_numbered(out, b"-", u64::from(path.last))
}

fn push_ends(out: &mut Vec<u8>, path: &SharedPath) -> Result<(), AllocError>
    ensures { OnOk result (out.new.items ≡ out.old.items ++ ends_text path.now) }
{
    out.extend_from_slice(b": back ")?;
    push_end(out, path.back)?;
    out.extend_from_slice(b", ahead ")?;
    push_end(out, path.ahead)?;
    out.extend_from_slice(b", side ")?;
    push_some_side(out, path.side)
}

fn push_end(out: &mut Vec<u8>, end: End) -> Result<(), AllocError>
    ensures { OnOk result (out.new.items ≡ out.old.items ++ end_text end) }
{
    match end {
        End::Tie => out.extend_from_slice(b"tie"),
        End::Parts(side) => push_side(out, side),
    }
}

fn push_some_side(out: &mut Vec<u8>, side: Option<Side>) -> Result<(), AllocError>
    ensures { OnOk result (out.new.items ≡ out.old.items ++ some_side_text side) }
{
    match side {
        Some(side) => push_side(out, side),
        None => out.extend_from_slice(b"none"),
    }
}

fn push_side(out: &mut Vec<u8>, side: Side) -> Result<(), AllocError>
    ensures { OnOk result (out.new.items ≡ out.old.items ++ side_text side) }
{
    match side {
        Side::Left => out.extend_from_slice(b"left"),
        Side::Right => out.extend_from_slice(b"right"),
    }
}

/// Appends the line on the number of crossings.
pub fn push_crossings_line(out: &mut Vec<u8>, crossings: u64) -> Result<(), AllocError>
    ensures ok { OnOk result (out.new.items ≡ out.old.items ++ crossings_line crossings) }
    ensures err { OnErr result (out.new.items ≡ out.old.items) }
{
    let mut text = Vec::new(*out.allocator());
    push_numbered(&mut text, b"crossings ", crossings)?;
    text.push(b'\n')?;
    out.extend_from_slice(&text)
}
