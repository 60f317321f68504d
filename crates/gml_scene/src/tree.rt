//! The tree of a scene and its routes.
ghost use Rattle.std.specs.Prelude.{◌≡◌, [], ◌∷◌, codes, option_map, IfOk, IfSome, IsOk, OnOk};
ghost use Rattle.std.specs.Option.{option_copied};
ghost use Rattle.gml_text.specs.Printed.{IsPrintable};
ghost use Rattle.gml_text.specs.Tree.{◌then◌};
ghost use Rattle.gml_text.specs.View.{content, pairs, tree};
ghost use Rattle.scene_model.specs.Valid.{IsNode};
ghost use Rattle.diagram_read.specs.Scene.{scene_of};
ghost use Rattle.gml_scene.specs.Changes.{change_inside, one};
ghost use Rattle.gml_scene.specs.Origins.{AreEdgesOf, AreNodesOf, AreRoutesOf};
ghost use Rattle.gml_scene.specs.Tree.{edge_from, graph_again, is_at, kept, kept_edge, kept_from, kept_node};
ghost use Rattle.gml_scene.specs.Tree.{line_for, new_edges, new_nodes, node_from, tree_of};

use crate::changes::{has_key, has_list, list_place, push};
use crate::copies::{copy_pairs, copy_value, push_copies, push_copy};
use crate::edges::edge_again;
use crate::forms::{push_edge, push_node};
use crate::labels::Labels;
use crate::nodes::node_again;
use crate::settings::{push_settings, put_settings};
use diagram_read::scene_of;
use gml_text::{Doc, Pair, Value};
use plane_geom::Point;
use scene_model::{Edge, Node};
use scene_store::Scene;
use std::alloc::{AllocError, Global};
use walk_model::WrittenRoute;

/// The document of a scene with its labels and routes: the tree of the diagram that the scene comes from,
/// changed only where the scene differs from the diagram.
///
/// The document has to be a diagram, and each node and edge of the scene with an origin has to be
/// one of that diagram: a node with the same id, an edge with the same number and ends. The routes
/// have to be of different connectors of the scene, in its order. Their points are in thousandths.
///
/// - In a node's list `x`, `y`, `w` and `h` are replaced, or appended, where the present value
///   differs from the one that is read; all `pin` pairs are replaced where the pins differ. In a
///   connector's list the same holds for `sourcePin`, `targetPin` and the `via` pairs. Its first
///   `Line` is replaced by its route, and any further one is removed; without a route all are
///   removed. A loop's list stays.
/// - A node or an edge that the scene no longer has is removed.
/// - Settings are replaced in the first `router` list; if there is none and a setting is not the
///   default one, a `router` is appended.
/// - Nodes and then edges without an origin are appended, each with its label, if one is given.
///
/// Everything else stays byte for byte. The recursion is as deep as the document's lists nest, at
/// most 64 for a document that `gml_text::parse` returns. The only error is out of memory.
pub fn put_routes(
    alloc: Global,
    doc: &Doc,
    scene: &Scene,
    labels: &Labels,
    routes: &[WrittenRoute],
) -> Result<Doc, AllocError>
    requires source { IsOk (scene_of (tree doc.now)) }
    requires nodes { IfOk (scene_of (tree doc.now)) (λ was. AreNodesOf was scene.now) }
    requires edges { IfOk (scene_of (tree doc.now)) (λ was. AreEdgesOf was scene.now) }
    requires routes { AreRoutesOf scene.now routes.now }
    ensures tree { IfOk result (λ d. IfOk (scene_of (tree doc.now)) (λ was. tree d ≡ tree_of (tree doc.now) was scene.now labels.now routes.now)) }

    // So the result can be printed.
    ensures printable { IsPrintable (tree doc.now) → IfOk result (λ d. IsPrintable (tree d)) }
{
    // For the proof: labels are texts, so they may be printed.
    labels.quotable();
    let Ok(was) = scene_of(alloc, doc) else {
        return Err(AllocError);
    };
    let change = Change {
        alloc,
        was: &was,
        scene,
        labels,
        routes,
    };
    let pairs = change.tree_of(&doc.pairs)?;
    Ok(Doc { pairs })
}

/// A scene with its labels and routes, and the scene that is read from its diagram.
#[derive(Drop)]
struct Change<'a> {
    alloc: Global,
    was: &'a Scene,
    scene: &'a Scene,
    labels: &'a Labels,
    routes: &'a [WrittenRoute],
}

/// The node whose origin is the place of the graph list.
fn node_from(scene: &Scene, place: usize) -> Option<&Node>
    ensures found { option_copied result ≡ node_from scene.now place }
    ensures node { IfSome result (λ n. IsNode n.now) }
{
    scene.nodes().iter().find(|node| is_at(place, node.origin))
}

/// The edge whose origin is the place of the graph list.
fn edge_from(scene: &Scene, place: usize) -> Option<&Edge>
    ensures { option_copied result ≡ edge_from scene.now place }
{
    scene.edges().iter().find(|edge| is_at(place, edge.origin))
}

/// Whether the origin is this place of the graph list.
fn is_at(place: usize, origin: Option<u32>) -> bool
    ensures { result ≡ is_at place origin }
{
    match origin {
        Some(origin) => origin as usize == place,
        None => false,
    }
}

impl Change<'_> {
    /// The pairs of the document.
    fn tree_of(&self, tree: &[Pair]) -> Result<Vec<Pair>, AllocError>
        ensures { IfOk result (λ v. pairs v.items ≡ tree_of (pairs tree.now) self.now.was.now self.now.scene.now self.now.labels.now self.now.routes.now) }
    {
        let Some(index) = list_place(tree, b"graph") else {
            return copy_pairs(self.alloc, tree);
        };
        let mut out = Vec::new(self.alloc);
        push_copies(self.alloc, &tree[..index], &mut out)?;
        self.push_graph(&mut out, &tree[index].value)?;
        push_copies(self.alloc, &tree[index + 1..], &mut out)?;
        Ok(out)
    }

    /// Appends the graph, which is `value`.
    fn push_graph(&self, out: &mut Vec<Pair>, value: &Value) -> Result<(), AllocError>
        ensures { OnOk result (pairs out.new.items ≡ pairs out.old.items
            then one (codes "graph") (change_inside (graph_again self.now.was.now self.now.scene.now self.now.labels.now self.now.routes.now) (content value.now))) }
    {
        let value = match value {
            Value::List(graph) => Value::List(self.graph_again(graph)?),
            Value::Number(_) | Value::Text(_) => copy_value(self.alloc, value)?,
        };
        push(self.alloc, out, b"graph", value)
    }

    /// The pairs of the graph list.
    fn graph_again(&self, graph: &[Pair]) -> Result<Vec<Pair>, AllocError>
        ensures { IfOk result (λ v. pairs v.items ≡ graph_again self.now.was.now self.now.scene.now self.now.labels.now self.now.routes.now (pairs graph.now)) }
    {
        let mut out = Vec::new(self.alloc);
        self.push_kept(&mut out, graph)?;
        let settings = self.scene.settings();
        put_settings(self.alloc, &mut out, self.was.settings(), settings)?;
        let has_router = has_list(graph, b"router");
        push_settings(self.alloc, &mut out, has_router, settings)?;
        self.push_new_nodes(&mut out)?;
        self.push_new_edges(&mut out)?;
        Ok(out)
    }

    /// Appends what remains of the graph list.
    fn push_kept(&self, out: &mut Vec<Pair>, graph: &[Pair]) -> Result<(), AllocError>
        ensures { OnOk result (pairs out.new.items ≡ pairs out.old.items
            then kept_from self.now.was.now self.now.scene.now self.now.routes.now 0 (pairs graph.now)) }
    {
        for (place, pair) in graph.iter().enumerate() {
            self.push_pair(out, place, pair)?;
        }
        Ok(())
    }

    /// Appends what remains of a pair of the graph list.
    fn push_pair(&self, out: &mut Vec<Pair>, place: usize, pair: &Pair) -> Result<(), AllocError>
        ensures { OnOk result (pairs out.new.items ≡ pairs out.old.items
            then kept self.now.was.now self.now.scene.now self.now.routes.now place pair.now.key (content pair.now.value)) }
    {
        match &pair.value {
            Value::List(inner) if has_key(pair, b"node") => self.push_node(out, place, inner),
            Value::List(inner) if has_key(pair, b"edge") => self.push_edge(out, place, inner),
            _ => push_copy(self.alloc, pair, out),
        }
    }

    /// Appends the list of a node, if the scene still has the node.
    fn push_node(&self, out: &mut Vec<Pair>, place: usize, list: &[Pair]) -> Result<(), AllocError>
        ensures { OnOk result (pairs out.new.items ≡ pairs out.old.items
            then kept_node (codes "node") (pairs list.now) (node_from self.now.was.now place) (node_from self.now.scene.now place)) }
    {
        let (Some(was), Some(node)) = (node_from(self.was, place), node_from(self.scene, place))
        else {
            return Ok(());
        };
        let list = node_again(self.alloc, was, node, list)?;
        push(self.alloc, out, b"node", Value::List(list))
    }

    /// Appends the list of an edge, if the scene still has the edge.
    fn push_edge(&self, out: &mut Vec<Pair>, place: usize, list: &[Pair]) -> Result<(), AllocError>
        ensures { OnOk result (pairs out.new.items ≡ pairs out.old.items
            then kept_edge (codes "edge") (pairs list.now) self.now.routes.now (edge_from self.now.was.now place) (edge_from self.now.scene.now place)) }
    {
        let (Some(was), Some(edge)) = (edge_from(self.was, place), edge_from(self.scene, place))
        else {
            return Ok(());
        };
        let line = self.line_for(edge.number);
        let list = edge_again(self.alloc, was, edge, line, list)?;
        push(self.alloc, out, b"edge", Value::List(list))
    }

    /// The line of the edge with the number, if it has a route.
    fn line_for(&self, number: u32) -> Option<&[Point]>
        ensures { option_map (λ l. l.now) result ≡ line_for self.now.routes.now number }
    {
        let route = self.routes.iter().find(|route| route.edge == number)?;
        Some(route.points.as_slice())
    }

    /// Appends a node with its label, if an edit added it.
    fn push_new_node(&self, out: &mut Vec<Pair>, node: &Node) -> Result<(), AllocError>
        requires { IsNode node.now }
        ensures { OnOk result (pairs out.new.items ≡ pairs out.old.items then new_nodes self.now.labels.now (node.now ∷ [])) }
    {
        if node.origin.is_some() {
            return Ok(());
        }
        push_node(self.alloc, out, node, self.labels.of_node(node.id))
    }

    /// Appends the nodes that edits added.
    fn push_new_nodes(&self, out: &mut Vec<Pair>) -> Result<(), AllocError>
        ensures { OnOk result (pairs out.new.items ≡ pairs out.old.items then new_nodes self.now.labels.now self.now.scene.now.nodes) }
    {
        for node in self.scene.nodes() {
            self.push_new_node(out, node)?;
        }
        Ok(())
    }

    /// Appends an edge with its label, if an edit added it.
    fn push_new_edge(&self, out: &mut Vec<Pair>, edge: &Edge) -> Result<(), AllocError>
        ensures { OnOk result (pairs out.new.items ≡ pairs out.old.items then new_edges self.now.labels.now self.now.routes.now (edge.now ∷ [])) }
    {
        if edge.origin.is_some() {
            return Ok(());
        }
        let label = self.labels.of_edge(edge.number);
        push_edge(self.alloc, out, edge, label, self.line_for(edge.number))
    }

    /// Appends the edges that edits added.
    fn push_new_edges(&self, out: &mut Vec<Pair>) -> Result<(), AllocError>
        ensures { OnOk result (pairs out.new.items ≡ pairs out.old.items then new_edges self.now.labels.now self.now.routes.now self.now.scene.now.edges) }
    {
        for edge in self.scene.edges() {
            self.push_new_edge(out, edge)?;
        }
        Ok(())
    }
}
