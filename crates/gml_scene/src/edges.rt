//! The list of an edge that is already in the diagram.
ghost use Rattle.std.specs.Prelude.{◌≡◌, option_map, IfOk, OnOk};
ghost use Rattle.gml_text.specs.View.{content, pairs};
ghost use Rattle.gml_scene.specs.Changes.{change_inside};
ghost use Rattle.gml_scene.specs.Edges.{edge_again, put_class, put_line, put_line_in, put_via};

use crate::changes::{list_place, put, put_only, remove_all};
use crate::copies::copy_pairs;
use crate::forms::{class_of, line_of, push_line, push_via};
use gml_text::{Pair, Value};
use plane_geom::Point;
use scene_model::Edge;
use std::alloc::{AllocError, Global};

/// Writes a class if it has changed.
fn put_class(
    alloc: Global,
    list: &mut Vec<Pair>,
    key: &[u8],
    was: u32,
    now: u32,
) -> Result<(), AllocError>
    ensures { OnOk result (pairs list.new.items ≡ put_class key.now was now (pairs list.old.items)) }
{
    if was == now {
        return Ok(());
    }
    put(alloc, list, key, class_of(alloc, now)?)
}

/// Replaces all checkpoints, appended at the end, if they have changed.
fn put_via(
    alloc: Global,
    list: &mut Vec<Pair>,
    was: &[Point],
    via: &[Point],
) -> Result<(), AllocError>
    ensures { OnOk result (pairs list.new.items ≡ put_via was.now via.now (pairs list.old.items)) }
{
    if was == via {
        return Ok(());
    }
    remove_all(list, b"via");
    push_via(alloc, list, via)
}

/// Replaces the first `Line` in `value`, which is the value of a `graphics`, and removes any
/// further one; without a line it removes all of them.
fn put_line_in(alloc: Global, value: &mut Value, line: Option<&[Point]>) -> Result<(), AllocError>
    ensures { OnOk result (content value.new ≡ change_inside (put_line_in (option_map (λ l. l.now) line.entry)) (content value.old)) }
{
    let Value::List(graphics) = value else {
        return Ok(());
    };
    match line {
        Some(points) => put_only(alloc, graphics, b"Line", line_of(alloc, points)?),
        None => {
            remove_all(graphics, b"Line");
            Ok(())
        }
    }
}

/// Writes the line into the `graphics`, which are appended if there are none.
fn put_line(alloc: Global, list: &mut Vec<Pair>, line: Option<&[Point]>) -> Result<(), AllocError>
    ensures { OnOk result (pairs list.new.items ≡ put_line (option_map (λ l. l.now) line.entry) (pairs list.old.items)) }
{
    match list_place(list, b"graphics") {
        Some(index) => put_line_in(alloc, &mut list[index].value, line),
        None => push_line(alloc, list, line),
    }
}

/// The pairs of an edge that was read as `was` and is now `edge`; those of a loop stay.
pub(crate) fn edge_again(
    alloc: Global,
    was: &Edge,
    edge: &Edge,
    line: Option<&[Point]>,
    list: &[Pair],
) -> Result<Vec<Pair>, AllocError>
    ensures { IfOk result (λ v. pairs v.items ≡ edge_again was.now edge.now (option_map (λ l. l.now) line.entry) (pairs list.now)) }
{
    let mut out = copy_pairs(alloc, list)?;
    if edge.from == edge.to {
        return Ok(out);
    }
    put_class(
        alloc,
        &mut out,
        b"sourcePin",
        was.from_class,
        edge.from_class,
    )?;
    put_class(alloc, &mut out, b"targetPin", was.to_class, edge.to_class)?;
    put_via(alloc, &mut out, was.via.as_slice(), edge.via.as_slice())?;
    put_line(alloc, &mut out, line)?;
    Ok(out)
}
