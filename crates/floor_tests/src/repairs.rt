//! The worked row in both directions, repairs that change little, nothing or everything, the hulls
//! of changes, and a large floor.
ghost use Rattle.std.specs.Prelude.{◌≡◌, IfOk, false};
ghost use Rattle.graph_repair.specs.Change.{LeadsFrom};
ghost use Rattle.plane_geom.specs.Floor.{IsFloor};

use crate::small::{Sides, small_floor, tile, tiles_behind};
use graph_repair::{Repair, apply, hull_of_difference, plan, revert};
use line_arena::LineId;
use plane_geom::{Floor, Line};
use std::alloc::{AllocError, Global};
use std::test::Fail;
use sweep_lines::all_lines;
use visibility_graph::Graph;

/// `written` after the repair there, back, and there again.
fn turned(graph: &mut Graph, repair: &mut Repair) -> [u64; 3]
    requires leads { LeadsFrom graph.old repair.old }
    requires planned { repair.old.applied ≡ false }
{
    apply(graph, repair);
    let there = graph.arena().written();
    revert(graph, repair);
    let back = graph.arena().written();
    apply(graph, repair);
    [there, back, graph.arena().written()]
}

/// `written` after the build, the plan, and the repair there, back, and there again.
fn planned(alloc: Global, graph: &mut Graph, new: &Floor) -> Result<[u64; 5], AllocError>
    requires { IsFloor new.now }
{
    let built = graph.arena().written();
    let mut repair = plan(alloc, graph, new)?;
    let planned = graph.arena().written();
    let [there, back, again] = turned(graph, &mut repair);
    Ok([built, planned, there, back, again])
}

fn turns(alloc: Global, old: &Floor, new: &Floor) -> Result<[u64; 5], AllocError>
    requires old { IsFloor old.now }
    requires new { IsFloor new.now }
{
    let mut graph = Graph::build(alloc, old)?;
    planned(alloc, &mut graph, new)
}

/// The solids and the anchors of a floor.
type Plain<'a> = (&'a [Sides], &'a [(i64, i64)]);

fn turns_to(alloc: Global, old: &Floor, new: Plain<'_>) -> Result<[u64; 5], AllocError>
    requires { IsFloor old.now }
{
    let new = small_floor(alloc, new.0, new.1)?;
    turns(alloc, old, &new)
}

fn turns_between(alloc: Global, old: Plain<'_>, new: Plain<'_>) -> Result<[u64; 5], AllocError> {
    let old = small_floor(alloc, old.0, old.1)?;
    turns_to(alloc, &old, new)
}

const SQUARE: Sides = (0, 0, 10, 10);

const NONE: Plain<'static> = (&[], &[]);

const ONE: Plain<'static> = (&[SQUARE], &[]);

/// Two floors, and the numbers of writes for the changes between them.
type Turned = (Plain<'static>, Plain<'static>, [u64; 5]);

const TURNED: [Turned; 6] = [
    (ONE, (&[SQUARE, (-5, 100, 5, 110)], &[]), [8, 8, 25, 28, 45]),
    (ONE, ONE, [8, 8, 8, 8, 8]),
    (ONE, (&[SQUARE, SQUARE], &[]), [8, 8, 8, 8, 8]),
    (ONE, NONE, [8, 8, 8, 16, 16]),
    (NONE, ONE, [0, 0, 8, 8, 16]),
    // A corridor of width 0, and an anchor in it.
    (
        (&[SQUARE, (0, 10, 10, 20)], &[]),
        (&[SQUARE, (0, 10, 10, 20)], &[(5, 10)]),
        [11, 11, 13, 13, 15],
    ),
];

/// Whether the row's numbers of writes are found.
fn turns_as_said(alloc: Global, row: &Turned) -> Result<bool, AllocError> {
    let found = turns_between(alloc, row.0, row.1)?;
    Ok(found == row.2)
}

#[test]
fn writes_what_is_new(rt: HostRuntime) -> Result<(), Fail> {
    for (place, row) in TURNED.iter().enumerate() {
        assert!(rt; turns_as_said(rt.alloc(), row)?, "in row {place}");
    }
    Ok(())
}

/// Whether the entries have these lines.
fn are_of(entries: &[(Line, LineId)], lines: &[Line]) -> bool {
    for (entry, line) in entries.iter().zip(lines) {
        if !entry.0.is_same(line) {
            return false;
        }
    }
    entries.len() == lines.len()
}

/// Whether the graph's lines are these.
fn has_lines(graph: &Graph, lines: &[Line]) -> bool {
    are_of(graph.arena().lines_in_order(), lines)
}

/// Whether the graph has exactly the kept lines of the floor.
fn has_lines_of(alloc: Global, graph: &Graph, floor: &Floor) -> Result<bool, AllocError>
    requires { IsFloor floor.now }
{
    let lines = all_lines(alloc, floor)?;
    Ok(has_lines(graph, lines.as_slice()))
}

/// Whether the planned repair there and back finds the kept lines of both floors.
fn finds_lines_of(
    alloc: Global,
    graph: &mut Graph,
    repair: &mut Repair,
    old: &Floor,
    new: &Floor,
) -> Result<bool, AllocError>
    requires leads { LeadsFrom graph.old repair.old }
    requires planned { repair.old.applied ≡ false }
    requires old { IsFloor old.now }
    requires new { IsFloor new.now }
{
    apply(graph, repair);
    let there = has_lines_of(alloc, graph, new)?;
    revert(graph, repair);
    Ok(there && has_lines_of(alloc, graph, old)?)
}

fn finds_lines_from(
    alloc: Global,
    graph: &mut Graph,
    old: &Floor,
    new: &Floor,
) -> Result<bool, AllocError>
    requires old { IsFloor old.now }
    requires new { IsFloor new.now }
{
    let mut repair = plan(alloc, graph, new)?;
    finds_lines_of(alloc, graph, &mut repair, old, new)
}

/// Whether a repair from one floor to the other and back finds the kept lines of both.
fn finds_lines(alloc: Global, old: &Floor, new: &Floor) -> Result<bool, AllocError>
    requires old { IsFloor old.now }
    requires new { IsFloor new.now }
{
    let mut graph = Graph::build(alloc, old)?;
    finds_lines_from(alloc, &mut graph, old, new)
}

/// The hull of the differences, as left, top, right and bottom.
fn hull(old: &Floor, new: &Floor) -> Sides {
    let hull = hull_of_difference(old, new);
    (hull.left, hull.top, hull.right, hull.bottom)
}

/// The hull of the differences, if it is the same in both directions, and so are the kept lines
/// that repairs find.
fn hull_between(alloc: Global, old: &Floor, new: &Floor) -> Result<Option<Sides>, AllocError>
    requires old { IsFloor old.now }
    requires new { IsFloor new.now }
{
    let sides = hull(old, new);
    let found = finds_lines(alloc, old, new)? && finds_lines(alloc, new, old)?;
    Ok((found && hull(new, old) == sides).then_some(sides))
}

/// How far a node is moved from its place, if it is there.
type Shift = Option<(i8, i8)>;

const HERE: Shift = Some((0, 0));

const MOVED: Shift = Some((7, -13));

const FIVE: [Shift; 5] = [HERE; 5];

/// The sides of a node, in thousandths.
fn sides_of(place: u8, shift: (i8, i8)) -> Sides {
    let x = i64::from(place) * 60 + i64::from(shift.0);
    let y = i64::from(place % 3) * 45 + i64::from(shift.1);
    (x, y, x + 30, y + 20)
}

/// A place on the left side of a node, and one on its right side.
fn anchors_of(sides: Sides) -> [(i64, i64); 2] {
    let (left, top, right, _) = sides;
    [
        (left, top.saturating_add(10)),
        (right, top.saturating_add(7)),
    ]
}

/// Adds a node and its two anchors.
fn push_node(
    rects: &mut Vec<Sides>,
    anchors: &mut Vec<(i64, i64)>,
    sides: Sides,
) -> Result<(), AllocError> {
    rects.push(sides)?;
    anchors.extend_from_slice(&anchors_of(sides))
}

/// Adds the nodes that are there.
fn push_nodes(
    rects: &mut Vec<Sides>,
    anchors: &mut Vec<(i64, i64)>,
    shifts: [Shift; 5],
) -> Result<(), AllocError> {
    for place in 0..5u8 {
        if let Some(shift) = shifts[usize::from(place)] {
            push_node(rects, anchors, sides_of(place, shift))?;
        }
    }
    Ok(())
}

/// The floor of the nodes that are there, which are added to these.
fn floor_of(
    alloc: Global,
    rects: &mut Vec<Sides>,
    anchors: &mut Vec<(i64, i64)>,
    shifts: [Shift; 5],
) -> Result<Floor, AllocError>
    ensures { IfOk result IsFloor }
{
    push_nodes(rects, anchors, shifts)?;
    small_floor(alloc, rects.as_slice(), anchors.as_slice())
}

/// A floor of nodes with two anchors each.
fn nodes(alloc: Global, shifts: [Shift; 5]) -> Result<Floor, AllocError>
    ensures { IfOk result IsFloor }
{
    let (mut rects, mut anchors) = (Vec::new(alloc), Vec::new(alloc));
    floor_of(alloc, &mut rects, &mut anchors, shifts)
}

fn hull_to(alloc: Global, old: &Floor, shifts: [Shift; 5]) -> Result<Option<Sides>, AllocError>
    requires { IsFloor old.now }
{
    let new = nodes(alloc, shifts)?;
    hull_between(alloc, old, &new)
}

/// The hull of the differences from five nodes at their places.
fn hull_of_nodes(alloc: Global, shifts: [Shift; 5]) -> Result<Option<Sides>, AllocError> {
    let all = nodes(alloc, FIVE)?;
    hull_to(alloc, &all, shifts)
}

const HULLS: [([Shift; 5], Sides); 9] = [
    (FIVE, (i64::MAX, i64::MAX, i64::MIN, i64::MIN)),
    ([HERE, HERE, None, HERE, HERE], (120, 90, 150, 110)),
    ([None, HERE, HERE, HERE, HERE], (0, 0, 30, 20)),
    ([HERE, HERE, HERE, HERE, None], (240, 45, 270, 65)),
    ([HERE, HERE, MOVED, HERE, HERE], (120, 77, 157, 110)),
    ([HERE, HERE, MOVED, None, HERE], (120, 0, 210, 110)),
    // Far apart, onto a node and onto the whole line of a side, and all.
    ([MOVED, HERE, HERE, HERE, Some((0, 99))], (0, -13, 270, 164)),
    (
        [Some((60, 45)), HERE, HERE, Some((30, 0)), HERE],
        (0, 0, 240, 65),
    ),
    ([Some((11, 4)); 5], (0, 0, 281, 114)),
];

#[test]
fn finds_lines_near_what_changes(rt: HostRuntime) -> Result<(), Fail> {
    for (place, &(shifts, want)) in HULLS.iter().enumerate() {
        assert_eq!(rt;
            hull_of_nodes(rt.alloc(), shifts)?,
            Some(want),
            "in row {place}"
        );
    }
    Ok(())
}

fn turns_tiles(alloc: Global, old: &[Sides]) -> Result<[u64; 5], AllocError> {
    let new = tiles_behind(alloc, (3, 2, 23, 17))?;
    turns_between(alloc, (old, &[]), (new.as_slice(), &[]))
}

#[test]
fn moves_one_of_many(rt: HostRuntime) -> Result<(), Fail> {
    let old = tiles_behind(rt.alloc(), tile(0))?;
    let turned = turns_tiles(rt.alloc(), old.as_slice());
    assert_eq!(rt; turned.ok(), Some([5936, 5936, 5980, 6016, 6060]));
    Ok(())
}
