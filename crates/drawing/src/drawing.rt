//! A drawing: opened from the bytes of a diagram, and written back.
ghost use Rattle.std.specs.Prelude.{◌≡◌, ◌≤◌, [], IfErr, IfOk, Ok, codes};
ghost use Rattle.gml_text.specs.Printed.{IsPrintable};
ghost use Rattle.gml_text.specs.View.{tree};
ghost use Rattle.diagram_read.specs.Scene.{scene_of};
ghost use Rattle.scene_model.specs.Scene.{empty_scene};
ghost use Rattle.scene_model.specs.Stale.{answer_of};
ghost use Rattle.gml_scene.specs.Labels.{no_labels};
ghost use Rattle.drawing.specs.Changes.{asked_of};
ghost use Rattle.drawing.specs.Drawing.{IsOpened, IsSource, IsWritten, cost_of, edited_scene, next_edge};
ghost use Rattle.drawing.specs.Opening.{IsOpenFault, Opens, empty_diagram};

use crate::changes::Differences;
use crate::fault::OpenFault;
use crate::lines::Lines;
use diagram_read::scene_of;
use gml_scene::{Labels, printed_diagram};
use gml_text::{Bytes, Doc, Pair, Value, parse};
use par_route::Gate;
use route_session::Session;
use scene_store::Scene;
use std::alloc::{AllocError, Global};
use std::marker::Model;
use std::thread::Threads;

/// A session, with the document that its scenes come from, the labels that were given, the lines that were reported last,
/// and what was asked for last.
#[derive(Drop)]
pub struct Drawing {
    pub(crate) doc: Doc,
    pub(crate) session: Session,
    pub(crate) labels: Labels,
    pub(crate) reported: Lines,
    /// The lines of a preview, if one was asked for last; otherwise those that were reported were.
    pub(crate) proposed: Option<Lines>,
    /// What the lines that were asked for last differ in from those that were reported before.
    pub(crate) differences: Differences,
}

impl Model for Drawing {
    ghost use Rattle.std.specs.Prelude.{unwrap_or};
    ghost use Rattle.gml_text.specs.View.{tree};
    ghost use Rattle.gml_text.specs.contracts.tree.Doc as document;
    ghost use Rattle.std.specs.Coded.{codes};
    ghost use Rattle.drawing.specs.Drawing.{DrawingState, IsSource};

    ghost Value = { DrawingState };

    ghost coded = { Prim.hlevel (codes, document.the_row.coded) };

    ghost view = { λ d. record {
      session = d.session;
      document = d.doc;
      labels = d.labels;
      reported = d.reported;
      asked = record {
        lines = unwrap_or d.proposed d.reported;
        changed = d.differences.changed.items;
        gone = d.differences.gone.items;
      };
    } };

    ghost invariant = { λ d. IsSource (tree d.doc) d.session.world };
}

/// The document `graph [ ]`. The only error is out of memory.
fn empty_document(alloc: Global) -> Result<Doc, AllocError>
    ensures { IfOk result (λ doc. tree doc ≡ empty_diagram) }
{
    let key = Bytes::from_slice(alloc, b"graph")?;
    let mut pairs = Vec::new(alloc);
    pairs.push(Pair {
        key,
        value: Value::List(Vec::new(alloc)),
    })?;
    Ok(Doc { pairs })
}

impl Drawing {
    /// The drawing of a session whose scenes come from the document. No line is reported yet, and no label is given.
    fn on(alloc: Global, doc: Doc, session: Session) -> Drawing
        requires { IsSource (tree doc) session.world }
        ensures session { result.session ≡ session }
        ensures document { result.document ≡ doc }
        ensures labels { result.labels ≡ no_labels }
        ensures reported { result.reported ≡ [] }
        ensures asked { result.asked ≡ asked_of [] [] }
    {
        Drawing {
            doc,
            session,
            labels: Labels::none(alloc),
            reported: Lines::none(alloc),
            proposed: None,
            differences: Differences::none(alloc),
        }
    }

    /// A session on the scene of a document. The only error is out of memory.
    fn read_alone(alloc: Global, doc: Doc, scene: Scene) -> Result<Drawing, AllocError>
        requires source { scene_of (tree doc) ≡ Ok scene }
        requires printable { IsPrintable (tree doc) }
        ensures opened { IfOk result (IsOpened scene) }
        ensures document { IfOk result (λ d. d.document ≡ doc) }
    {
        scene.valid();
        let session = Session::open_alone(alloc, scene)?;
        Ok(Drawing::on(alloc, doc, session))
    }

    /// A session on the scene of a document, which is searched by at most `workers` searches side by side.
    ///
    /// The only error is out of memory.
    pub fn read<R: Threads + Sync, G: Gate>(
        rt: &R,
        alloc: Global,
        doc: Doc,
        scene: Scene,
        workers: u32,
        gate: &G,
    ) -> Result<Drawing, AllocError>
        requires some { 1 ≤ workers }
        requires few_workers { workers ≤ 4 }
        requires source { scene_of (tree doc) ≡ Ok scene }
        requires printable { IsPrintable (tree doc) }
        ensures opened { IfOk result (IsOpened scene) }
        ensures document { IfOk result (λ d. d.document ≡ doc) }
    {
        scene.valid();
        let session = Session::open(rt, alloc, scene, workers, gate)?;
        Ok(Drawing::on(alloc, doc, session))
    }

    /// A session on the empty scene, of a document without a node.
    ///
    /// The only error is out of memory.
    pub fn new(alloc: Global) -> Result<Drawing, AllocError>
        ensures opened { IfOk result (IsOpened empty_scene) }
        ensures document { IfOk result (λ d. tree d.document ≡ empty_diagram) }
    {
        Drawing::read_alone(alloc, empty_document(alloc)?, Scene::new(alloc))
    }

    /// A session on the scene of a diagram in GML.
    pub fn open(alloc: Global, text: &[u8]) -> Result<Drawing, OpenFault>
        ensures ok { IfOk result (Opens text.now) }
        ensures err { IfErr result (IsOpenFault text.now) }
    {
        let doc = match parse(alloc, text) {
            Ok(doc) => doc,
            Err(fault) => return Err(OpenFault::Text(fault)),
        };
        let scene = match scene_of(alloc, &doc) {
            Ok(scene) => scene,
            Err(fault) => return Err(OpenFault::Diagram(fault)),
        };
        match Drawing::read_alone(alloc, doc, scene) {
            Ok(drawing) => Ok(drawing),
            Err(AllocError) => Err(OpenFault::Memory),
        }
    }

    /// The session.
    pub fn session(&self) -> &Session
        ensures { result.now ≡ self.now.session }
    {
        &self.session
    }

    /// The scene that the next edit changes: that of the open transaction, or the present one.
    pub fn scene(&self) -> &Scene
        ensures { result.now ≡ edited_scene self.now.session.world.working self.now.session.world.present }
    {
        match self.session.working() {
            Some(working) => working,
            None => self.session.scene(),
        }
    }

    /// The number that the next connector gets: in the open transaction, if one is open.
    pub fn next_number(&self) -> u32
        ensures { result ≡ next_edge self.now.session.world }
    {
        self.scene().next_edge()
    }

    /// What the route of a connector of the present scene costs before nudging, length and bends, if it has one.
    pub fn cost(&self, number: u32) -> Option<u64>
        ensures { result ≡ cost_of (answer_of self.now.session.book number) }
    {
        let Some(answer) = self.session.book().answer(number) else {
            return None;
        };
        match &answer.route {
            Some(route) => Some(route.cost),
            None => None,
        }
    }

    /// The bytes of the document, with the present scene, the labels of what edits added, and its lines
    /// put in. The only error is out of memory.
    pub fn text(&self, alloc: Global) -> Result<Vec<u8>, AllocError>
        ensures { IfOk result (λ text. IsWritten self.now text.items) }
    {
        let answers = self.session.book().answers();
        printed_diagram(
            alloc,
            &self.doc,
            &self.labels,
            self.session.scene(),
            answers,
        )
    }
}
