//! Labels of what edits added.
ghost use Rattle.std.specs.Prelude.{◌≡◌, IfErr, OnErr, OnOk};
ghost use Rattle.gml_scene.specs.Labels.{IsLabelFault};
ghost use Rattle.drawing.specs.Labelled.{GivesLabel, IsLabelled};

use crate::drawing::Drawing;
use gml_scene::{LabelFault, Labels};
use std::alloc::Global;

/// What gets a label.
#[derive(Clone, Copy, Debug, PartialEq, Eq)]
pub enum Labelled {
    /// The box with this id.
    Node(i64),
    /// The connector with this number.
    Edge(u32),
}

/// Gives this label.
fn give(alloc: Global, labels: &mut Labels, what: Labelled, text: &[u8]) -> Result<(), LabelFault>
    ensures label { OnOk result (IsLabelled what text.now labels.old labels.new) }
    ensures fault { IfErr result (IsLabelFault text.now) }
    ensures err { OnErr result (labels.new ≡ labels.old) }
{
    match what {
        Labelled::Node(id) => labels.label_node(alloc, id, text)?,
        Labelled::Edge(number) => labels.label_edge(alloc, number, text)?,
    }
    Ok(())
}

impl Drawing {
    /// Gives a box or a connector this label, in place of the one that it has. An empty label takes that away.
    ///
    /// The diagram that is written has the labels of the boxes and connectors of the present scene that edits added. A label
    /// of any other is kept, and not written. No edit, undo or redo changes a label.
    ///
    /// The error is `Quote` exactly if the label has a `"`, otherwise only out of memory. It leaves everything as it was.
    pub fn label(&mut self, alloc: Global, what: Labelled, text: &[u8]) -> Result<(), LabelFault>
        ensures label { OnOk result (GivesLabel what text.now self.old self.new) }
        ensures fault { IfErr result (IsLabelFault text.now) }
        ensures err { OnErr result (self.new ≡ self.old) }
    {
        give(alloc, &mut self.labels, what, text)?;
        Ok(())
    }
}
