//! Labels of nodes and edges that edits added.
ghost use Rattle.std.specs.Prelude.{◌≡◌, ◌∷◌, [], ◌++◌, Decides, IfErr, IfOk, OnErr, OnOk, pos};
ghost use Rattle.gml_text.specs.Bytes.{quote};
ghost use Rattle.gml_text.specs.Grammar.{Lacks};
ghost use Rattle.gml_scene.specs.Labels.{AreQuotable, AreTexts, IsLabelFault, IsRelabelled, given_label, no_labels, label_place};
ghost use Rattle.gml_scene.specs.declared.labels.LabelFault.TheVariants as faults;

use crate::copies::bytes_of;
use gml_text::Bytes;
use std::alloc::{AllocError, Global};
use std::marker::Model;

/// The label of a node with an id, or of an edge with a number.
#[derive(Debug, Drop)]
pub struct Label {
    number: i64,
    text: Bytes,
}

/// Labels of nodes, by their ids, and of edges, by their numbers. `put_routes` writes those of nodes and edges that have no
/// origin, and no other. Each may stand between the quotes of a text in GML.
#[derive(Drop)]
pub struct Labels {
    nodes: Vec<Label>,
    edges: Vec<Label>,
}

impl Model for Labels {
    ghost use Rattle.gml_scene.specs.Labels.{AreQuotable, LabelLists};

    ghost Value = { LabelLists };

    ghost view = { λ l. record {
      nodes = l.nodes.items;
      edges = l.edges.items;
    } };

    ghost invariant = { λ l. AreQuotable (record {
      nodes = l.nodes.items;
      edges = l.edges.items;
    }) };
}

/// Why a label is refused.
#[derive(Clone, Copy, Debug, PartialEq, Eq)]
pub enum LabelFault {
    /// It has a `"`, which no text in GML has.
    Quote,
    /// Out of memory.
    Memory,
}

impl From<AllocError> for LabelFault {
    ghost from_gives = { λ _ fault. fault ≡ faults.Memory };

    fn from(_: AllocError) -> LabelFault {
        LabelFault::Memory
    }
}

/// Whether the text may stand between quotes.
fn lacks_quote(text: &[u8]) -> bool
    ensures { Decides result (Lacks quote text.now) }
{
    text.iter().all(|byte| *byte != b'"')
}

/// The label of the node or edge with the number; empty if none is given.
fn given_label(labels: &[Label], number: i64) -> &[u8]
    ensures { result.now ≡ given_label labels.now number }
{
    match labels.iter().find(|label| label.number == number) {
        Some(label) => label.text.as_slice(),
        None => &[],
    }
}

/// The place of the label of the node or edge with the number, if one is given.
fn label_place(labels: &[Label], number: i64) -> Option<usize>
    ensures { result ≡ label_place labels.now number }
{
    for (place, label) in labels.iter().enumerate() {
        if label.number == number {
            return Some(place);
        }
    }
    None
}

/// Takes the label of the node or edge with the number away, if one is given.
fn remove(labels: &mut Vec<Label>, number: i64)
    requires { AreTexts labels.old.items }
    ensures label { IsRelabelled number [] labels.old.items labels.new.items }
    ensures texts { AreTexts labels.new.items }
{
    labels.retain(|label| label.number != number);
}

/// Gives the node or edge with the number this label.
fn put(labels: &mut Vec<Label>, number: i64, text: Bytes) -> Result<(), AllocError>
    requires texts { AreTexts labels.old.items }
    requires quotable { Lacks quote text }
    ensures label { OnOk result (IsRelabelled number text labels.old.items labels.new.items) }
    ensures texts { AreTexts labels.new.items }
    ensures err { OnErr result (labels.new.items ≡ labels.old.items) }
{
    match label_place(labels, number) {
        Some(place) => {
            labels[place].text = text;
            Ok(())
        }
        None => {
            labels.push(Label { number, text })?;
            Ok(())
        }
    }
}

/// Gives the node or edge with the number this label in place of the one that it has. An empty label takes that away.
fn relabel(
    alloc: Global,
    labels: &mut Vec<Label>,
    number: i64,
    text: &[u8],
) -> Result<(), LabelFault>
    requires { AreTexts labels.old.items }
    ensures label { OnOk result (IsRelabelled number text.now labels.old.items labels.new.items) }
    ensures texts { AreTexts labels.new.items }
    ensures fault { IfErr result (IsLabelFault text.now) }
    ensures err { OnErr result (labels.new.items ≡ labels.old.items) }
{
    if !lacks_quote(text) {
        return Err(LabelFault::Quote);
    }
    if text.is_empty() {
        remove(labels, number);
        return Ok(());
    }
    let text = bytes_of(alloc, text)?;
    put(labels, number, text)?;
    Ok(())
}

impl Labels {
    /// No labels. Takes no memory.
    pub fn none(alloc: Global) -> Labels
        ensures { result ≡ no_labels }
    {
        Labels {
            nodes: Vec::new(alloc),
            edges: Vec::new(alloc),
        }
    }

    /// What holds of all labels, for proofs: each is a text in GML. Does nothing.
    pub(crate) fn quotable(&self)
        ensures { AreQuotable self.now }
    {
        let _ = &self.nodes;
    }

    /// The label of the node with the id; empty if none is given.
    pub(crate) fn of_node(&self, id: i64) -> &[u8]
        ensures { result.now ≡ given_label self.now.nodes id }
    {
        given_label(&self.nodes, id)
    }

    /// The label of the edge with the number; empty if none is given.
    pub(crate) fn of_edge(&self, number: u32) -> &[u8]
        ensures { result.now ≡ given_label self.now.edges (pos number) }
    {
        given_label(&self.edges, i64::from(number))
    }

    /// Gives the node with the id this label in place of the one that it has. An empty label takes that away.
    ///
    /// The error is `Quote` exactly if the label has a `"`, otherwise only out of memory. It leaves everything as it was.
    pub fn label_node(&mut self, alloc: Global, id: i64, text: &[u8]) -> Result<(), LabelFault>
        ensures label { OnOk result (IsRelabelled id text.now self.old.nodes self.new.nodes) }
        ensures edges { self.new.edges ≡ self.old.edges }
        ensures fault { IfErr result (IsLabelFault text.now) }
        ensures err { OnErr result (self.new ≡ self.old) }
    {
        relabel(alloc, &mut self.nodes, id, text)
    }

    /// Gives the edge with the number this label, in the same way.
    pub fn label_edge(&mut self, alloc: Global, number: u32, text: &[u8]) -> Result<(), LabelFault>
        ensures label { OnOk result (IsRelabelled (pos number) text.now self.old.edges self.new.edges) }
        ensures nodes { self.new.nodes ≡ self.old.nodes }
        ensures fault { IfErr result (IsLabelFault text.now) }
        ensures err { OnErr result (self.new ≡ self.old) }
    {
        relabel(alloc, &mut self.edges, i64::from(number), text)
    }
}
