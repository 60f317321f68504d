//! The lines of replies.
ghost use Rattle.std.specs.Prelude.{◌≡◌, ◌++◌, OnOk, codes, decimal};
ghost use Rattle.std.specs.Fmt.{signed_decimal};
ghost use Rattle.std.specs.List.{flat_map};
ghost use Rattle.fixed_milli.specs.Milli.{milli_text};
ghost use Rattle.live_replies.specs.Texts.{connector_text, corner_text, corners_text, drawn_text, drawn_texts, gml_text, gone_text, next_text, ok_line};

use itoa::Buffer;
use plane_geom::Point;
use std::alloc::AllocError;
use walk_model::WrittenRoute;

/// Appends a text and the digits of a number after it.
pub(crate) fn push_numbered(out: &mut Vec<u8>, text: &[u8], number: u64) -> Result<(), AllocError>
    ensures { OnOk result (out.new.items ≡ out.old.items ++ (text.now ++ decimal number)) }
{
    let mut buffer = Buffer::new();
    out.extend_from_slice(text)?;
    out.extend_from_slice(buffer.format(number).as_bytes())
}

/// Appends a text and the id of a box after it.
pub(crate) fn push_with_id(out: &mut Vec<u8>, text: &[u8], id: i64) -> Result<(), AllocError>
    ensures { OnOk result (out.new.items ≡ out.old.items ++ (text.now ++ signed_decimal id)) }
{
    let mut buffer = Buffer::new();
    out.extend_from_slice(text)?;
    out.extend_from_slice(buffer.format(id).as_bytes())
}

/// Appends a space and a length in units.
pub(crate) fn push_milli(out: &mut Vec<u8>, value: i64) -> Result<(), AllocError>
    ensures { OnOk result (out.new.items ≡ out.old.items ++ (codes " " ++ milli_text value)) }
{
    out.push(b' ')?;
    report_text::push_milli(out, value)
}

/// Appends a corner.
pub(crate) fn push_corner(out: &mut Vec<u8>, corner: &Point) -> Result<(), AllocError>
    ensures { OnOk result (out.new.items ≡ out.old.items ++ corner_text corner.now) }
{
    push_milli(out, corner.x)?;
    push_milli(out, corner.y)
}

fn push_corners(out: &mut Vec<u8>, corners: &[Point]) -> Result<(), AllocError>
    ensures { OnOk result (out.new.items ≡ out.old.items ++ corners_text corners.now) }
{
    for corner in corners {
        push_corner(out, corner)?;
    }
    Ok(())
}

/// Appends the line that says which corners a connector's line has.
pub(crate) fn push_drawn(out: &mut Vec<u8>, line: &WrittenRoute) -> Result<(), AllocError>
    ensures { OnOk result (out.new.items ≡ out.old.items ++ drawn_text line.now) }
{
    push_numbered(out, b"line ", u64::from(line.edge))?;
    push_corners(out, line.points.as_slice())?;
    out.push(b'\n')?;
    Ok(())
}

/// Appends the line of each connector.
pub(crate) fn push_all_drawn(out: &mut Vec<u8>, lines: &[WrittenRoute]) -> Result<(), AllocError>
    ensures { OnOk result (out.new.items ≡ out.old.items ++ drawn_texts lines.now) }
{
    for line in lines {
        push_drawn(out, line)?;
    }
    Ok(())
}

/// Appends the line that says that a connector has no line any more.
pub(crate) fn push_gone(out: &mut Vec<u8>, edge: u32) -> Result<(), AllocError>
    ensures { OnOk result (out.new.items ≡ out.old.items ++ gone_text edge) }
{
    push_numbered(out, b"no line ", u64::from(edge))?;
    out.push(b'\n')?;
    Ok(())
}

/// Appends the line that says which number the next connector gets.
pub(crate) fn push_next(out: &mut Vec<u8>, number: u32) -> Result<(), AllocError>
    ensures { OnOk result (out.new.items ≡ out.old.items ++ next_text number) }
{
    push_numbered(out, b"next ", u64::from(number))?;
    out.push(b'\n')?;
    Ok(())
}

/// Appends the line that says which number a connector got that was moved.
pub(crate) fn push_connector(out: &mut Vec<u8>, number: u32) -> Result<(), AllocError>
    ensures { OnOk result (out.new.items ≡ out.old.items ++ connector_text number) }
{
    push_numbered(out, b"connector ", u64::from(number))?;
    out.push(b'\n')?;
    Ok(())
}

/// Appends a diagram, after the line that says how many bytes it has.
pub(crate) fn push_gml(out: &mut Vec<u8>, diagram: &[u8]) -> Result<(), AllocError>
    ensures { OnOk result (out.new.items ≡ out.old.items ++ gml_text diagram.now) }
{
    push_numbered(out, b"gml ", diagram.len() as u64)?;
    out.push(b'\n')?;
    out.extend_from_slice(diagram)
}

/// Appends the last line of a reply to what is done.
pub(crate) fn push_ok(out: &mut Vec<u8>) -> Result<(), AllocError>
    ensures { OnOk result (out.new.items ≡ out.old.items ++ ok_line) }
{
    out.extend_from_slice(b"ok\n")
}
