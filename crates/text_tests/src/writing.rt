//! Diagrams that are written back, with routes and after edits.
ghost use Rattle.std.specs.Prelude.{◌≢◌, IfOk, IsOk, IsSomeAnd, IsTrue};
ghost use Rattle.gml_text.specs.Printed.{IsPrintable};
ghost use Rattle.gml_text.specs.View.{tree};
ghost use Rattle.scene_model.specs.Edits.{IsDirected};
ghost use Rattle.scene_model.specs.Scene.{edge_with};
ghost use Rattle.diagram_read.specs.Scene.{scene_of};
ghost use Rattle.gml_scene.specs.Origins.{AreEdgesOf, AreNodesOf, AreRoutesOf};

use gml_scene::{Labels, edits_keep_origins, own_scenes_fit, put_routes, scene_of};
use gml_text::{Doc, parse, print};
use plane_geom::{Point, Points};
use scene_model::{Edit, Setting};
use scene_store::Scene;
use std::alloc::{AllocError, Global};
use walk_model::WrittenRoute;

/// A diagram as an editor writes it.
const EDITED: &str = "Creator \"yFiles\" Version \"2.22\" graph [ hierarchic 1 directed 1 \
node [ id 0 label \"A\" graphics [ x 0.0 y 0.12345678901234 w 20.0 h 20.0 type \"rectangle\" fill \"#FFCC00\" ] \
LabelGraphics [ text \"A\" fontSize 12 ] ] \
node [ id 1 label \"B\" graphics [ x 100.00000000000001 y 0.12345678901234 w 20.0 h 20.0 ] ] \
node [ id 2 label \"G\" isGroup 1 graphics [ x 50.0 y 0.0 w 200.0 h 100.0 ] ] \
edge [ source 0 target 1 graphics [ fill \"#000000\" Line [ point [ x 0.0 y 0.0 ] point [ x 50.0 y 40.0 ] \
point [ x 100.0 y 0.0 ] ] targetArrow \"standard\" ] ] ]";

/// The same with its route.
const ROUTED: &str = "Creator \"yFiles\"
Version \"2.22\"
graph [
  hierarchic 1
  directed 1
  node [
    id 0
    label \"A\"
    graphics [
      x 0.0
      y 0.12345678901234
      w 20.0
      h 20.0
      type \"rectangle\"
      fill \"#FFCC00\"
    ]
    LabelGraphics [
      text \"A\"
      fontSize 12
    ]
  ]
  node [
    id 1
    label \"B\"
    graphics [
      x 100.00000000000001
      y 0.12345678901234
      w 20.0
      h 20.0
    ]
  ]
  node [
    id 2
    label \"G\"
    isGroup 1
    graphics [
      x 50.0
      y 0.0
      w 200.0
      h 100.0
    ]
  ]
  edge [
    source 0
    target 1
    graphics [
      fill \"#000000\"
      Line [
        point [
          x 0.000
          y 0.123
        ]
        point [
          x 100.000
          y 0.123
        ]
      ]
      targetArrow \"standard\"
    ]
  ]
]
";

/// A text, an edit, and the text afterwards, both without layout.
type Row = (&'static str, Edit, &'static str);

/// Whole diagrams.
const DIAGRAMS: [Row; 7] = [
    (
        "graph [ a 1 node [ id 1 b 1 graphics [ z 1 y 0.0001 x 1E0 ] ] c \"d\" ] graph [ ]",
        Edit::MoveNode {
            id: 1,
            x: 1_000,
            y: 5,
        },
        "graph [ a 1 node [ id 1 b 1 graphics [ z 1 y 0.005 x 1E0 ] ] c \"d\" ] graph [ ]",
    ),
    (
        "graph [ node [ id 1 graphics [ x 0 y 0 w 19.999 w 3 ] ] ]",
        Edit::SizeNode {
            id: 1,
            w: 20_000,
            h: 30_001,
        },
        "graph [ node [ id 1 graphics [ x 0 y 0 w 19.999 w 3 h 30.002 ] ] ]",
    ),
    (
        "graph [ node [ id 1 pin [ class 3 x 1 y 1 c 1 ] graphics [ x 0 y 0 ] pin [ class 3 x 0 y 0 ] ] ]",
        Edit::DropPin { id: 1, place: 2 },
        "graph [ node [ id 1 graphics [ x 0 y 0 ] pin [ class 3 x 1.000 y 1.000 dirs \"ESWN\" ] ] ]",
    ),
    (
        "graph [ node [ id 1 graphics [ x 0 y 0 ] pin [ class 3 x 1 y 1 ] pin [ class 4 x 0 y 0 dirs \"WE\" cost 1 ] ] ]",
        Edit::DropPin { id: 1, place: 1 },
        "graph [ node [ id 1 graphics [ x 0 y 0 ] pin [ class 4 x 0.000 y 0.000 dirs \"EW\" cost 1.000 ] ] ]",
    ),
    (
        "graph [ node [ id 1 graphics [ x 0 y 0 ] ] node 5 node [ id 2 graphics [ x 0 y 0 ] ] ]",
        Edit::DropNode { id: 1 },
        "graph [ node 5 node [ id 2 graphics [ x 0 y 0 ] ] ]",
    ),
    (
        "graph [ router 1 router [ nudge 1 z 2 ] router [ penalty 1 ] ]",
        Edit::Set {
            what: Setting::Penalty,
            value: 7,
        },
        "graph [ router 1 router [ nudge 1 z 2 penalty 0.007 ] router [ penalty 1 ] ]",
    ),
    (
        "graph [ router 1 ]",
        Edit::Set {
            what: Setting::Buffer,
            value: 5_000,
        },
        "graph [ router 1 router [ penalty 50.000 buffer 5.000 nudge 4.000 ] ]",
    ),
];

/// The texts before and after the edges of two nodes.
const FRONT: &str =
    "graph [ node [ id 1 graphics [ x 0 y 0 ] pin [ class 3 x 1 y 1 ] ] node [ id 2 graphics [ x 90 y 0 ] ] ";

const BACK: &str = " ]";

/// Their edges.
const EDGES: [Row; 7] = [
    (
        "edge [ source 1 target 2 sourcePin +03 nudgeWeight 2 ]",
        Edit::SetClasses {
            number: 1,
            from_class: 0,
            to_class: 0,
        },
        "edge [ source 1 target 2 sourcePin 0 nudgeWeight 2 ]",
    ),
    (
        "edge [ source 2 target 1 ]",
        Edit::SetClasses {
            number: 1,
            from_class: 0,
            to_class: 3,
        },
        "edge [ source 2 target 1 targetPin 3 ]",
    ),
    (
        "edge [ source 1 target 2 via [ x 1 y 1 a 1 ] b 1 ]",
        Edit::AddVia {
            number: 1,
            place: 1,
            x: 50_000,
            y: -7,
        },
        "edge [ source 1 target 2 b 1 via [ x 50.000 y -0.007 ] via [ x 1.000 y 1.000 ] ]",
    ),
    (
        "e [ ]",
        Edit::AddEdge {
            from: 2,
            to: 1,
            from_class: 0,
            to_class: 3,
        },
        "e [ ] edge [ source 2 target 1 targetPin 3 ]",
    ),
    (
        "edge [ source 1 target 2 graphics [ Line [ ] f 1 Line 2 ] ]",
        Edit::AddNode {
            id: -3,
            x: 1,
            y: -1,
            w: 3,
            h: 0,
        },
        "edge [ source 1 target 2 graphics [ f 1 ] ] node [ id -3 graphics [ x 0.001 y -0.001 w 0.004 h 0.000 ] ]",
    ),
    (
        "edge [ source 1 target 2 ] edge [ source 2 target 2 sourcePin 00 via 7 graphics [ Line [ ] ] ] edge 5",
        Edit::CutEdge { number: 1 },
        "edge [ source 2 target 2 sourcePin 00 via 7 graphics [ Line [ ] ] ] edge 5",
    ),
    (
        "edge [ source 1 target 2 ]",
        Edit::Set {
            what: Setting::Nudge,
            value: 4_000,
        },
        "edge [ source 1 target 2 ]",
    ),
];

/// An edge, and the same with its route.
const ROUTES: [(&str, &str); 3] = [
    (
        "edge [ source 1 target 2 graphics 1 ]",
        "edge [ source 1 target 2 graphics 1 graphics [ Line [ point [ x 0.000 y -0.001 ] ] ] ]",
    ),
    (
        "edge [ graphics [ ] source 1 target 2 graphics [ Line 3 ] ]",
        "edge [ graphics [ Line [ point [ x 0.000 y -0.001 ] ] ] source 1 target 2 graphics [ Line 3 ] ]",
    ),
    (
        "edge [ source 1 target 2 graphics [ a 1 Line 2 b 3 Line [ c 4 ] ] ] edge [ source 1 target 2 graphics [ Line [ ] ] ]",
        "edge [ source 1 target 2 graphics [ a 1 Line [ point [ x 0.000 y -0.001 ] ] b 3 ] ] edge [ source 1 target 2 graphics [ ] ]",
    ),
];

/// The reason why a diagram is not written back.
#[derive(Debug, Drop)]
enum Unwritten {
    Unread,
    Refused,
    Memory,
}

/// The text, unless out of memory.
fn reported(text: Result<Vec<u8>, AllocError>) -> Result<Vec<u8>, Unwritten> {
    match text {
        Ok(text) => Ok(text),
        Err(_) => Err(Unwritten::Memory),
    }
}

/// The text of a document with these routes of its scene.
fn written(
    alloc: Global,
    doc: &Doc,
    scene: &Scene,
    routes: &[WrittenRoute],
) -> Result<Vec<u8>, AllocError>
    requires printable { IsPrintable (tree doc.now) }
    requires source { IsOk (scene_of (tree doc.now)) }
    requires nodes { IfOk (scene_of (tree doc.now)) (λ was. AreNodesOf was scene.now) }
    requires edges { IfOk (scene_of (tree doc.now)) (λ was. AreEdgesOf was scene.now) }
    requires routes { AreRoutesOf scene.now routes.now }
{
    let out = put_routes(alloc, doc, scene, &Labels::none(alloc), routes)?;
    print(alloc, &out)
}

/// Whether the scene's first edge is a connector.
fn has_connector(scene: &Scene) -> bool
    ensures { IsTrue result → IsSomeAnd (edge_with scene.now 1) (λ e. e.from ≢ e.to) }
{
    match scene.edge(1) {
        Some(edge) => edge.from != edge.to,
        None => false,
    }
}

/// The text of a document with the line of its scene's first edge.
fn with_line(
    alloc: Global,
    doc: &Doc,
    scene: &Scene,
    points: Vec<Point>,
) -> Result<Vec<u8>, AllocError>
    requires printable { IsPrintable (tree doc.now) }
    requires source { IsOk (scene_of (tree doc.now)) }
    requires nodes { IfOk (scene_of (tree doc.now)) (λ was. AreNodesOf was scene.now) }
    requires edges { IfOk (scene_of (tree doc.now)) (λ was. AreEdgesOf was scene.now) }
    requires connector { IsSomeAnd (edge_with scene.now 1) (λ e. e.from ≢ e.to) }
{
    let route = WrittenRoute {
        edge: 1,
        points: Points::from_vec(points),
    };
    written(alloc, doc, scene, &[route])
}

/// The text of a document with the line of its first edge, which is a connector.
fn read_and_routed(alloc: Global, doc: &Doc, points: Vec<Point>) -> Result<Vec<u8>, Unwritten>
    requires { IsPrintable (tree doc.now) }
{
    own_scenes_fit();
    let Ok(scene) = scene_of(alloc, doc) else {
        return Err(Unwritten::Unread);
    };
    scene.valid();
    if has_connector(&scene) {
        reported(with_line(alloc, doc, &scene, points))
    } else {
        Err(Unwritten::Refused)
    }
}

/// The text of a diagram with the line of its first edge, which is a connector.
fn routed(alloc: Global, text: &str, points: Vec<Point>) -> Result<Vec<u8>, Unwritten> {
    match parse(alloc, text.as_bytes()) {
        Ok(doc) => read_and_routed(alloc, &doc, points),
        Err(_) => Err(Unwritten::Unread),
    }
}

/// Whether the edit adds no pin.
fn is_directed(edit: &Edit) -> bool
    ensures { IsTrue result → IsDirected edit.now }
{
    !matches!(*edit, Edit::AddPin { .. })
}

/// The text of a document without routes after an edit that adds no pin.
fn read_and_edited(alloc: Global, doc: &Doc, edit: &Edit) -> Result<Vec<u8>, Unwritten>
    requires printable { IsPrintable (tree doc.now) }
    requires directed { IsDirected edit.now }
{
    own_scenes_fit();
    edits_keep_origins();
    let Ok(mut scene) = scene_of(alloc, doc) else {
        return Err(Unwritten::Unread);
    };
    scene.valid();
    match scene.edit(edit) {
        Ok(()) => reported(written(alloc, doc, &scene, &[])),
        Err(_) => Err(Unwritten::Refused),
    }
}

/// The text of a diagram without routes after an edit that adds no pin.
fn edited(alloc: Global, text: &str, edit: &Edit) -> Result<Vec<u8>, Unwritten> {
    if !is_directed(edit) {
        return Err(Unwritten::Refused);
    }
    match parse(alloc, text.as_bytes()) {
        Ok(doc) => read_and_edited(alloc, &doc, edit),
        Err(_) => Err(Unwritten::Unread),
    }
}

/// The three texts as one.
fn joined(alloc: Global, front: &str, middle: &str, back: &str) -> Result<String, AllocError> {
    let mut text = String::new(alloc);
    text.push_str(front)?;
    text.push_str(middle)?;
    text.push_str(back)?;
    Ok(text)
}

/// A text in its printed form.
fn laid_out(alloc: Global, text: &str) -> Result<Vec<u8>, Unwritten> {
    match parse(alloc, text.as_bytes()) {
        Ok(doc) => reported(print(alloc, &doc)),
        Err(_) => Err(Unwritten::Unread),
    }
}

/// Whether the result is the expected text in its printed form.
fn is_text(alloc: Global, found: &[u8], want: &str) -> bool {
    match laid_out(alloc, want) {
        Ok(want) => found == want.as_slice(),
        Err(_) => false,
    }
}

/// The same for a text between the two others, if there is a result.
fn is_between(
    alloc: Global,
    found: Result<Vec<u8>, Unwritten>,
    front: &str,
    want: &str,
    back: &str,
) -> bool {
    match (found, joined(alloc, front, want, back)) {
        (Ok(found), Ok(want)) => is_text(alloc, &found, &want),
        _ => false,
    }
}

/// The text between the two others after the edit.
fn edited_between(
    alloc: Global,
    front: &str,
    text: &str,
    back: &str,
    edit: &Edit,
) -> Result<Vec<u8>, Unwritten> {
    match joined(alloc, front, text, back) {
        Ok(text) => edited(alloc, &text, edit),
        Err(_) => Err(Unwritten::Memory),
    }
}

/// Whether the row's text, between the two others, is as expected after the edit.
fn is_right(alloc: Global, front: &str, row: &Row, back: &str) -> bool {
    let found = edited_between(alloc, front, row.0, back, &row.1);
    is_between(alloc, found, front, row.2, back)
}

/// The first row whose text is different after the edit.
fn first_wrong(alloc: Global, front: &str, rows: &[Row], back: &str) -> Option<&'static str> {
    for row in rows {
        if !is_right(alloc, front, row, back) {
            return Some(row.0);
        }
    }
    None
}

/// The texts before and after the rows' texts, and the rows.
const TABLES: [(&str, &[Row], &str); 2] = [("", &DIAGRAMS, ""), (FRONT, &EDGES, BACK)];

#[test]
fn writes_edits(rt: HostRuntime) {
    for &(front, rows, back) in &TABLES {
        assert_eq!(rt; first_wrong(rt.alloc(), front, rows, back), None);
    }
}

/// The text, between the two others, with a route of one point.
fn routed_between(alloc: Global, text: &str) -> Result<Vec<u8>, Unwritten> {
    match (
        joined(alloc, FRONT, text, BACK),
        Vec::from_slice(alloc, &[Point { x: 0, y: -1 }]),
    ) {
        (Ok(text), Ok(points)) => routed(alloc, &text, points),
        _ => Err(Unwritten::Memory),
    }
}

/// Whether the text, between the two others, is as expected with a route of one point.
fn is_routed(alloc: Global, text: &str, want: &str) -> bool {
    is_between(alloc, routed_between(alloc, text), FRONT, want, BACK)
}

/// The first row whose text is different with its route.
fn first_unrouted(alloc: Global) -> Option<&'static str> {
    for &(text, want) in &ROUTES {
        if !is_routed(alloc, text, want) {
            return Some(text);
        }
    }
    None
}

#[test]
fn writes_routes(rt: HostRuntime) {
    assert_eq!(rt; first_unrouted(rt.alloc()), None);
}

/// A number of points on a straight line.
fn many_points(alloc: Global, count: i64) -> Result<Vec<Point>, AllocError> {
    let mut points = Vec::new(alloc);
    for x in 0..count {
        points.push(Point { x, y: 0 })?;
    }
    Ok(points)
}

#[test]
fn writes_a_long_line(rt: HostRuntime) {
    let points = many_points(rt.alloc(), 20_000).expect(&rt, "no memory for the points");
    match routed(rt.alloc(), EDITED, points) {
        Ok(text) => assert!(rt; text.len() > 1_000_000),
        Err(fault) => assert!(rt; matches!(fault, Unwritten::Memory)),
    }
}

#[test]
fn writes_a_route(rt: HostRuntime) {
    let line = [Point { x: 0, y: 123 }, Point { x: 100_000, y: 123 }];
    let points = Vec::from_slice(rt.alloc(), &line).expect(&rt, "no memory for the points");
    let text = routed(rt.alloc(), EDITED, points).expect(&rt, "no text");
    assert_eq!(rt; text.as_slice(), ROUTED.as_bytes());
}
