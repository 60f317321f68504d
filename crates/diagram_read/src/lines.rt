//! The line of an edge.
ghost use Rattle.std.specs.Prelude.{◌≡◌, codes, option_map, option_and_then};
ghost use Rattle.gml_text.specs.View.{pairs, tree};
ghost use Rattle.diagram_read.specs.Faults.{IsRead, IsReadInto, each};
ghost use Rattle.diagram_read.specs.Lines.{line_in, line_of, list_with, on_sheet, point_in, with_point};
ghost use Rattle.diagram_read.specs.Values.{lists_at};

use crate::fault::{DiagramFault, Part};
use crate::values::{
    as_list, has_key, in_range, inner_at, is_no_number, list_at, number_at, value_with,
};
use gml_text::{Doc, Pair};
use plane_geom::{Point, Points, is_coordinate};
use scene_model::Edge;
use std::alloc::Global;

/// The line of an edge of the document's scene, if the edge has one: the points in order.
///
/// It has one if its first `graphics` that is a list has a `Line`, and the first `Line` is a list;
/// the points are the lists `point` in it. An edge whose origin is not a list of the document has
/// none.
///
/// The error is `BadNumber` if an `x` or a `y` of a point is missing or not a number, and
/// `OutOfRange` if one is beyond 2 * 10^9 thousandths, both with the part `Edge` and the edge's
/// number; the first point with a fault decides. The error is `Memory` when out of memory.
pub fn line_of(alloc: Global, doc: &Doc, edge: &Edge) -> Result<Option<Points>, DiagramFault>
    ensures { IsRead (line_of (tree doc.now) edge.now) result }
{
    let Some(line) = find_line(doc, edge) else {
        return Ok(None);
    };
    let mut points = Points::new(alloc);
    add_points(&mut points, edge.number, line)?;
    Ok(Some(points))
}

/// Appends the points of a `Line`, which is that of the edge with this number.
fn add_points(points: &mut Points, number: u32, line: &[Pair]) -> Result<(), DiagramFault>
    ensures { IsReadInto (each (with_point number) points.old (lists_at (codes "point") (pairs line.now))) points.new result }
{
    for pair in line {
        if has_key(pair, b"point")
            && let Some(list) = as_list(&pair.value)
        {
            add_point(points, number, list)?;
        }
    }
    Ok(())
}

/// Appends the point that a list describes.
fn add_point(points: &mut Points, number: u32, list: &[Pair]) -> Result<(), DiagramFault>
    ensures { IsReadInto (with_point number points.old (pairs list.now)) points.new result }
{
    let point = point_in(number, list)?;
    points.push(point)?;
    Ok(())
}

/// The `Line` of the edge, if it has one.
fn find_line<'a>(doc: &'a Doc, edge: &Edge) -> Option<&'a [Pair]>
    ensures { option_map (λ l. pairs l.now) result ≡ option_and_then line_in (option_and_then (list_with (tree doc.now)) edge.now.origin) }
{
    let list = list_with(doc, edge.origin?)?;
    let graphics = list_at(list, b"graphics")?;
    inner_at(graphics, b"Line")
}

/// The list at a place of the graph list, from 0.
fn list_with(doc: &Doc, origin: u32) -> Option<&[Pair]>
    ensures { option_map (λ l. pairs l.now) result ≡ list_with (tree doc.now) origin }
{
    let graph = list_at(&doc.pairs, b"graph")?;
    as_list(value_with(graph, origin as usize)?)
}

/// The point that a list describes, in the line of the edge with this number.
fn point_in(number: u32, list: &[Pair]) -> Result<Point, DiagramFault>
    ensures { result ≡ point_in number (pairs list.now) }
{
    let x = number_at(list, b"x");
    let y = number_at(list, b"y");
    if is_no_number(x) || is_no_number(y) {
        return Err(DiagramFault::BadNumber {
            part: Part::Edge,
            place: number,
        });
    }
    let out_of_range = DiagramFault::OutOfRange {
        part: Part::Edge,
        place: number,
    };
    let x = in_range(x).and_then(on_sheet).ok_or(out_of_range)?;
    let y = in_range(y).and_then(on_sheet).ok_or(out_of_range)?;
    Ok(Point { x, y })
}

/// A coordinate on the sheet.
fn on_sheet(value: i64) -> Option<i64>
    ensures { result ≡ on_sheet value }
{
    if is_coordinate(value) {
        Some(value)
    } else {
        None
    }
}
