//! The lists of a scene and the look-ups in them. The caller has to keep them valid.
ghost use Rattle.std.specs.Prelude.{◌≡◌, ◌==◌, pos, find, option_map, option_copied, IfOk};
ghost use Rattle.scene_model.specs.Edits.{touches, uses};
ghost use Rattle.scene_model.specs.Scene.{Scene as SceneValue, node_with, edge_with, empty_scene, pin_count, via_count};
ghost use Rattle.scene_model.specs.Valid.{IsValid};

use crate::keyed::{Entry, Keyed};
use scene_model::{Edge, Node, Pin, Settings};
use std::alloc::{AllocError, Global};
use std::marker::Model;

impl Entry for Node {
    ghost id_of = { λ n. n.id };

    fn id(&self) -> i64 {
        self.id
    }

    fn copied(&self, alloc: Global) -> Result<Node, AllocError> {
        self.copy(alloc)
    }
}

impl Entry for Edge {
    ghost id_of = { λ e. pos e.number };

    fn id(&self) -> i64 {
        i64::from(self.number)
    }

    fn copied(&self, alloc: Global) -> Result<Edge, AllocError> {
        self.copy(alloc)
    }
}

/// The lists of a scene, its settings and the next edge number: the contents of a scene, which need
/// not be valid.
#[derive(Drop)]
pub struct Parts {
    pub(crate) nodes: Keyed<Node>,
    pub(crate) edges: Keyed<Edge>,
    pub(crate) settings: Settings,
    pub(crate) next_edge: u32,
    pub(crate) alloc: Global,
}

impl Model for Parts {
    ghost Value = { SceneValue };

    ghost view = { λ s. record { nodes = s.nodes; edges = s.edges; settings = s.settings; next_edge = s.next_edge } };
}

impl Parts {
    /// No nodes, no edges, the default settings, and 1 as the next edge number. Takes no memory.
    pub fn new(alloc: Global) -> Parts
        ensures { result ≡ empty_scene }
    {
        Parts {
            nodes: Keyed::new(alloc),
            edges: Keyed::new(alloc),
            settings: Settings {
                penalty: 50_000,
                buffer: 4_000,
                nudge: 4_000,
            },
            next_edge: 1,
            alloc,
        }
    }

    /// The nodes, in order.
    pub fn nodes(&self) -> &[Node]
        ensures { result.now ≡ self.now.nodes }
    {
        self.nodes.as_slice()
    }

    /// The edges, in order.
    pub fn edges(&self) -> &[Edge]
        ensures { result.now ≡ self.now.edges }
    {
        self.edges.as_slice()
    }

    /// The settings.
    pub fn settings(&self) -> Settings
        ensures { result ≡ self.now.settings }
    {
        self.settings
    }

    /// The number of the next edge that is added.
    pub fn next_edge(&self) -> u32
        ensures { result ≡ self.now.next_edge }
    {
        self.next_edge
    }

    /// The node with the id.
    pub fn node(&self, id: i64) -> Option<&Node>
        ensures { option_copied result ≡ node_with self.now id }
    {
        self.nodes.get(id)
    }

    /// The edge with the number.
    pub fn edge(&self, number: u32) -> Option<&Edge>
        ensures { option_copied result ≡ edge_with self.now number }
    {
        self.edges.get(i64::from(number))
    }

    /// A copy of the lists, which are valid. The only error is out of memory.
    pub fn copy(&self) -> Result<Parts, AllocError>
        requires { IsValid self.now }
        ensures { IfOk result (λ p. p ≡ self.now) }
    {
        Ok(Parts {
            nodes: self.nodes.copy(self.alloc)?,
            edges: self.edges.copy(self.alloc)?,
            settings: self.settings,
            next_edge: self.next_edge,
            alloc: self.alloc,
        })
    }

    /// The number of pins that were added, in lists that are valid.
    pub fn pin_count(&self) -> usize
        requires { IsValid self.now }
        ensures { result ≡ pin_count self.now }
    {
        let mut count = 0;
        for node in self.nodes.as_slice() {
            count += node.pins.as_slice().len();
        }
        count
    }

    /// The number of checkpoints, in lists that are valid.
    pub fn via_count(&self) -> usize
        requires { IsValid self.now }
        ensures { result ≡ via_count self.now }
    {
        let mut count = 0;
        for edge in self.edges.as_slice() {
            count += edge.via.as_slice().len();
        }
        count
    }

    /// The number of the first edge that ends at the node.
    pub(crate) fn first_edge_at(&self, id: i64) -> Option<u32>
        ensures { result ≡ option_map (λ e. e.number) (find (touches id) self.now.edges) }
    {
        let edges = self.edges.as_slice();
        let edge = edges.iter().find(|e| touches(e, id))?;
        Some(edge.number)
    }

    /// The number of the first edge that uses the class at the node.
    pub(crate) fn first_user(&self, id: i64, class: u32) -> Option<u32>
        ensures { result ≡ option_map (λ e. e.number) (find (uses id class) self.now.edges) }
    {
        let edges = self.edges.as_slice();
        let edge = edges.iter().find(|e| uses(e, id, class))?;
        Some(edge.number)
    }
}

/// Whether the edge ends at the node.
fn touches(edge: &Edge, id: i64) -> bool
    ensures { result ≡ touches id edge.now }
{
    edge.from == id || edge.to == id
}

/// Whether the edge uses the class at the node.
fn uses(edge: &Edge, id: i64, class: u32) -> bool
    ensures { result ≡ uses id class edge.now }
{
    edge.from == id && edge.from_class == class || edge.to == id && edge.to_class == class
}
