//! The lines for input that is refused.
ghost use Rattle.std.specs.Prelude.{◌≡◌, ◌++◌, OnErr, OnOk};
ghost use Rattle.report_text.specs.Faults.{fault_line, fault_text, gml_fault_line, gml_fault_text, part_text, place_text};

use crate::number::push_numbered;
use diagram_read::{DiagramFault, Part};
use gml_text::GmlFault;
use std::alloc::AllocError;

/// Appends the line for bytes that are not valid GML.
pub fn push_gml_fault_line(out: &mut Vec<u8>, fault: &GmlFault) -> Result<(), AllocError>
    ensures ok { OnOk result (out.new.items ≡ out.old.items ++ gml_fault_line fault.now) }
    ensures err { OnErr result (out.new.items ≡ out.old.items) }
{
    let mut text = Vec::new(*out.allocator());
    text.extend_from_slice(b"diagram: ")?;
    push_gml_fault(&mut text, fault)?;
    text.push(b'\n')?;
    out.extend_from_slice(&text)
}

fn push_gml_fault(out: &mut Vec<u8>, fault: &GmlFault) -> Result<(), AllocError>
    ensures { OnOk result (out.new.items ≡ out.old.items ++ gml_fault_text fault.now) }
{
    match *fault {
        GmlFault::Syntax { at } => push_numbered(out, b"Syntax at ", at),
        GmlFault::TooDeep { at } => push_numbered(out, b"TooDeep at ", at),
        GmlFault::Memory => Ok(()),
    }
}

/// Appends the line for a document that is not a valid diagram, or that has a line which cannot be
/// read.
pub fn push_fault_line(out: &mut Vec<u8>, fault: &DiagramFault) -> Result<(), AllocError>
    ensures ok { OnOk result (out.new.items ≡ out.old.items ++ fault_line fault.now) }
    ensures err { OnErr result (out.new.items ≡ out.old.items) }
{
    let mut text = Vec::new(*out.allocator());
    text.extend_from_slice(b"diagram: ")?;
    push_fault(&mut text, fault)?;
    text.push(b'\n')?;
    out.extend_from_slice(&text)
}

fn push_fault(out: &mut Vec<u8>, fault: &DiagramFault) -> Result<(), AllocError>
    ensures { OnOk result (out.new.items ≡ out.old.items ++ fault_text fault.now) }
{
    match *fault {
        DiagramFault::NoGraph => out.extend_from_slice(b"NoGraph"),
        DiagramFault::BadId { place } => push_placed(out, b"BadId ", Part::Node, place),
        DiagramFault::SameId { place } => push_placed(out, b"SameId ", Part::Node, place),
        DiagramFault::NoPlace { place } => push_placed(out, b"NoPlace ", Part::Node, place),
        DiagramFault::BadNumber { part, place } => push_placed(out, b"BadNumber ", part, place),
        DiagramFault::BadEnd { place } => push_placed(out, b"BadEnd ", Part::Edge, place),
        DiagramFault::OutOfRange { part, place } => push_placed(out, b"OutOfRange ", part, place),
        DiagramFault::TooMany { part } => {
            out.extend_from_slice(b"TooMany ")?;
            push_part(out, part)
        }
        DiagramFault::BadPin { place } => push_placed(out, b"BadPin ", Part::Node, place),
        DiagramFault::BadVia { place } => push_placed(out, b"BadVia ", Part::Edge, place),
        DiagramFault::BadWeight { place } => push_placed(out, b"BadWeight ", Part::Edge, place),
        DiagramFault::Memory => Ok(()),
    }
}

/// Appends a text, followed by a part with its place.
fn push_placed(out: &mut Vec<u8>, text: &[u8], part: Part, place: u32) -> Result<(), AllocError>
    ensures { OnOk result (out.new.items ≡ out.old.items ++ (text.now ++ place_text part place)) }
{
    out.extend_from_slice(text)?;
    push_part(out, part)?;
    if part == Part::Router {
        return Ok(());
    }
    push_numbered(out, b" ", u64::from(place))
}

fn push_part(out: &mut Vec<u8>, part: Part) -> Result<(), AllocError>
    ensures { OnOk result (out.new.items ≡ out.old.items ++ part_text part) }
{
    match part {
        Part::Router => out.extend_from_slice(b"router"),
        Part::Node => out.extend_from_slice(b"node"),
        Part::Edge => out.extend_from_slice(b"edge"),
        Part::Pin => out.extend_from_slice(b"pin"),
        Part::Via => out.extend_from_slice(b"via"),
    }
}
