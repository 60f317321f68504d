//! The scene of a diagram: its settings, its nodes and its edges, one after the other.
ghost use Rattle.std.specs.Prelude.{◌≡◌, ◌≤◌, codes, length, suc, IfOk, IfErr};
ghost use Rattle.gml_text.specs.View.{pairs, tree};
ghost use Rattle.scene_model.specs.Scene.{pin_count, via_count};
ghost use Rattle.diagram_read.specs.declared.fault.DiagramFault.TheVariants.{Memory};
ghost use Rattle.diagram_read.specs.Edges.{edge_in, with_edge_in, with_edges_in};
ghost use Rattle.diagram_read.specs.Faults.{IsRead, IsReadInto};
ghost use Rattle.diagram_read.specs.Nodes.{node_in, with_node_in, with_nodes_in};
ghost use Rattle.diagram_read.specs.Scene.{scene_of};
ghost use Rattle.diagram_read.specs.Values.{entries_from};

use crate::edges::{EdgeHead, connector_in, end_at, loop_at};
use crate::fault::{DiagramFault, Part};
use crate::nodes::{NodeHead, bare_node};
use crate::pins::with_pins;
use crate::settings::load_settings;
use crate::values::{as_list, has_key, id_at, list_at};
use gml_text::{Doc, Pair};
use scene_model::{Edge, Node};
use scene_store::Scene;
use std::alloc::Global;

/// The most nodes, including groups.
const MOST_NODES: u32 = 256;

/// The most edges, including loops.
const MOST_EDGES: u32 = 512;

/// The scene of a document, or its first fault.
///
/// The graph is the first `graph` that is a list. Its settings come first, then its nodes, then its
/// edges, each in the order of the document; reading stops at the first fault, so no list grows
/// beyond its limit. Places count from 1 among the `node` lists or the `edge` lists. If a key is in
/// a list twice, the first counts, except for `node`, `edge`, `pin` and `via`; keys that have no
/// meaning are ignored.
///
/// The error is `Memory` when out of memory, which may come before any fault is met; it is also the
/// error for a node or an edge at a place of the graph list that no `origin` can name, above 2^32 -
/// 1.
pub fn scene_of(alloc: Global, doc: &Doc) -> Result<Scene, DiagramFault>
    ensures { IsRead (scene_of (tree doc.now)) result }
{
    let graph = list_at(&doc.pairs, b"graph").ok_or(DiagramFault::NoGraph)?;
    let mut scene = Scene::new(alloc);
    load_settings(&mut scene, graph)?;
    let mut reader = Reader {
        alloc,
        scene,
        nodes: 0,
        pins: 0,
        edges: 0,
        via: 0,
    };
    reader.load_nodes(graph)?;
    reader.load_edges(graph)?;
    Ok(reader.scene)
}

/// The scene so far, and the counts of what it holds.
#[derive(Drop)]
struct Reader {
    alloc: Global,
    scene: Scene,
    nodes: u32,
    pins: usize,
    edges: u32,
    via: usize,
    ghost nodes_counted: { nodes ≡ length scene.nodes },
    ghost pins_counted: { pins ≡ pin_count scene },
    ghost edges_counted: { edges ≡ length scene.edges },
    ghost via_counted: { via ≡ via_count scene },
    ghost few_pins: { pins ≤ 256 },
    ghost few_via: { via ≤ 256 },
    ghost numbered: { scene.next_edge ≡ suc (length scene.edges) },
}

/// The place of a pair of the graph list as an `origin`, if it fits.
fn origin_of(index: usize) -> Result<u32, DiagramFault>
    ensures ok { IfOk result (λ origin. origin ≡ index) }
    ensures err { IfErr result (λ fault. fault ≡ Memory) }
{
    u32::try_from(index).map_err(|_| DiagramFault::Memory)
}

impl Reader {
    /// Loads the nodes of the graph list into the scene.
    fn load_nodes(&mut self, graph: &[Pair]) -> Result<(), DiagramFault>
        ensures { IsReadInto (with_nodes_in self.old.scene (entries_from 0 (codes "node") (pairs graph.now))) self.new.scene result }
    {
        for (index, pair) in graph.iter().enumerate() {
            if has_key(pair, b"node")
                && let Some(list) = as_list(&pair.value)
            {
                self.load_node(origin_of(index)?, list)?;
            }
        }
        Ok(())
    }

    /// Loads the edges of the graph list into the scene.
    fn load_edges(&mut self, graph: &[Pair]) -> Result<(), DiagramFault>
        ensures { IsReadInto (with_edges_in self.old.scene (entries_from 0 (codes "edge") (pairs graph.now))) self.new.scene result }
    {
        for (index, pair) in graph.iter().enumerate() {
            if has_key(pair, b"edge")
                && let Some(list) = as_list(&pair.value)
            {
                self.load_edge(origin_of(index)?, list)?;
            }
        }
        Ok(())
    }

    /// Loads the node of a list into the scene.
    fn load_node(&mut self, origin: u32, list: &[Pair]) -> Result<(), DiagramFault>
        ensures { IsReadInto (with_node_in self.old.scene (origin, pairs list.now)) self.new.scene result }
    {
        let node = self.node_in(origin, list)?;
        let pins = node.pins.as_slice().len();
        match self.scene.load_node(node) {
            Ok(()) => {
                self.nodes += 1;
                self.pins += pins;
                Ok(())
            }
            Err(_) => Err(DiagramFault::Memory),
        }
    }

    /// The node of a list, after the nodes so far.
    fn node_in(&self, origin: u32, list: &[Pair]) -> Result<Node, DiagramFault>
        ensures { IsRead (node_in self.now.scene (origin, pairs list.now)) result }
    {
        if self.nodes >= MOST_NODES {
            return Err(DiagramFault::TooMany { part: Part::Node });
        }
        let place = self.nodes + 1;
        let id = id_at(list, b"id").ok_or(DiagramFault::BadId { place })?;
        if self.scene.node(id).is_some() {
            return Err(DiagramFault::SameId { place });
        }
        let head = NodeHead { place, origin, id };
        let node = bare_node(self.alloc, head, list)?;
        with_pins(node, place, self.pins, list)
    }

    /// Loads the edge of a list into the scene.
    fn load_edge(&mut self, origin: u32, list: &[Pair]) -> Result<(), DiagramFault>
        ensures { IsReadInto (with_edge_in self.old.scene (origin, pairs list.now)) self.new.scene result }
    {
        let edge = self.edge_in(origin, list)?;
        let via = edge.via.as_slice().len();
        match self.scene.load_edge(edge) {
            Ok(()) => {
                self.edges += 1;
                self.via += via;
                Ok(())
            }
            Err(_) => Err(DiagramFault::Memory),
        }
    }

    /// The edge of a list, after the edges so far.
    fn edge_in(&self, origin: u32, list: &[Pair]) -> Result<Edge, DiagramFault>
        ensures { IsRead (edge_in self.now.scene (origin, pairs list.now)) result }
    {
        if self.edges >= MOST_EDGES {
            return Err(DiagramFault::TooMany { part: Part::Edge });
        }
        let place = self.edges + 1;
        let bad_end = DiagramFault::BadEnd { place };
        let from = end_at(&self.scene, list, b"source").ok_or(bad_end)?;
        let to = end_at(&self.scene, list, b"target").ok_or(bad_end)?;
        let head = EdgeHead { place, origin };
        if from.id == to.id {
            return Ok(loop_at(self.alloc, head, from.id));
        }
        connector_in(self.alloc, head, self.via, from, to, list)
    }
}
