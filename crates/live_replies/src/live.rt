//! A session beside an editor: a drawing, and the reply to each line.
ghost use Rattle.std.specs.Prelude.{◌≡◌, ◌≢◌, ◌⊎◌, ◌≤◌, ◌++◌, ℕ, List, IfOk, Ok, Some};
ghost use Rattle.gml_text.specs.Printed.{IsPrintable};
ghost use Rattle.gml_text.specs.View.{tree};
ghost use Rattle.diagram_read.specs.Scene.{scene_of};
ghost use Rattle.scene_model.specs.World.{IsDirectedCommand};
ghost use Rattle.scene_model.specs.declared.edit.Command.TheVariants as commands;
ghost use Rattle.drawing.specs.Changes.{asked_of};
ghost use Rattle.drawing.specs.Drawing.{IsOpened, RollsBack};
ghost use Rattle.drawing.specs.Lines.{AreDrawn};
ghost use Rattle.live_replies.specs.Answers.{Answers, AnswersCommand, AnswersLabel, AnswersNoMemory, AnswersRead, ReportsChanges, ReportsDiagram, ReportsDone};
ghost use Rattle.live_replies.specs.Answers.{ReportsLines, ReportsNext, ReportsPreview};
ghost use Rattle.live_replies.specs.Changes.{changes, changes_text};
ghost use Rattle.live_replies.specs.Requests.{IsDirectedRequest, is_quit};
ghost use Rattle.live_replies.specs.Said.{said_bytes};
ghost use Rattle.live_replies.specs.Texts.{drawn_texts, ok_line};
ghost use Rattle.live_replies.specs.declared.request.Request.TheVariants as requests;
ghost use Rattle.host_edge.specs.declared.line_source.LineRead.TheVariants as reads;

use crate::checks::{crossings_text, report_verdict, shared_text};
use crate::reconnect::report_reconnect;
use crate::reply::{Said, refused};
use crate::request::{Request, is_quit, request_of};
use crate::scene::scene_text;
use crate::text::{changes_text, gml_text, lines_text, next_text};
use crate::why::why_text;
use drawing::{Compared, Drawing, LabelFault, Labelled};
use gml_text::Doc;
use par_route::Gate;
use report_text::Refusal;
use scene_model::{Command, SessionFault};
use scene_store::Scene;
use std::alloc::{AllocError, Global};
use std::marker::Model;
use std::thread::Threads;

/// A session beside an editor.
///
/// Its model is that of its drawing: the session, the diagram that it was opened with, the labels, and the lines that were
/// reported to the client last.
#[derive(Drop)]
pub struct Live {
    alloc: Global,
    drawing: Drawing,
}

impl Model for Live {
    ghost use Rattle.drawing.specs.contracts.drawing.Drawing as drawings;
    ghost use Rattle.drawing.specs.Drawing.{DrawingState};

    ghost Value = { DrawingState };

    ghost coded = { drawings.the_row.coded };

    ghost view = { λ l. l.drawing };
}

impl Live {
    /// A session on the scene of a document. No line was reported to the client yet.
    ///
    /// Searches are made by at most `workers` side by side. The only error is out of memory.
    pub fn open<R: Threads + Sync, G: Gate>(
        rt: &R,
        alloc: Global,
        doc: Doc,
        scene: Scene,
        workers: u32,
        gate: &G,
    ) -> Result<Live, AllocError>
        requires some { 1 ≤ workers }
        requires few_workers { workers ≤ 4 }
        requires source { scene_of (tree doc) ≡ Ok scene }
        requires printable { IsPrintable (tree doc) }
        ensures opened { IfOk result (IsOpened scene) }
        ensures document { IfOk result (λ l. l.document ≡ doc) }
    {
        let drawing = Drawing::read(rt, alloc, doc, scene, workers, gate)?;
        Ok(Live { alloc, drawing })
    }

    /// The lines of the present scene, and the text that reports what changed.
    fn changes(&self) -> Result<(Compared, Vec<u8>), AllocError>
        ensures drawn { IfOk result (λ r. AreDrawn self.now.session.world.present self.now.session.book r.0.lines) }
        ensures text { IfOk result (λ r. r.1.items ≡ changes_text (changes (asked_of self.now.reported r.0.lines)) ++ ok_line) }
    {
        let compared = self.drawing.present_lines(self.alloc)?;
        let text = changes_text(self.alloc, &compared)?;
        Ok((compared, text))
    }

    /// Reports what changed since lines were reported to the client last.
    fn report_changes(&mut self) -> Said
        ensures reports { ReportsChanges self.old.reported self.new (said_bytes result) }
        ensures session { self.new.session ≡ self.old.session }
        ensures document { self.new.document ≡ self.old.document }
        ensures labels { self.new.labels ≡ self.old.labels }
    {
        match self.changes() {
            Ok((compared, text)) => {
                self.drawing.report(compared);
                Said::Text(text)
            }
            Err(AllocError) => Said::Unreported,
        }
    }

    /// Reports that a command is done: what changed, where it may change lines.
    fn report_done(&mut self, command: &Command) -> Said
        requires { command.now ≢ commands.Bad }
        ensures reports { ReportsDone command.now self.old.reported self.new (said_bytes result) }
        ensures session { self.new.session ≡ self.old.session }
        ensures document { self.new.document ≡ self.old.document }
        ensures labels { self.new.labels ≡ self.old.labels }
    {
        match command {
            Command::Commit | Command::Undo | Command::Redo => self.report_changes(),
            _ => Said::Done,
        }
    }

    /// Does a valid command, and reports the result.
    fn do_command<R: Threads + Sync, G: Gate>(
        &mut self,
        rt: &R,
        command: &Command,
        workers: u32,
        gate: &G,
    ) -> Said
        requires some { 1 ≤ workers }
        requires few_workers { workers ≤ 4 }
        requires directed { IsDirectedCommand command.now }
        requires form { command.now ≢ commands.Bad }
        ensures answer { AnswersCommand command.now self.old self.new (said_bytes result) }
    {
        match self.drawing.run_with(rt, command, workers, gate) {
            Ok(()) => self.report_done(command),
            Err(SessionFault::Memory) => Said::NoMemory,
            Err(fault) => refused(self.alloc, &Refusal::Command(fault)),
        }
    }

    /// Drops the transaction if one is open.
    fn roll_back(&mut self)
        ensures { RollsBack self.old self.new }
    {
        self.drawing.roll_back();
    }

    /// Reports that a line is not a valid command, which rolls back the transaction.
    fn refuse_line(&mut self) -> Said
        ensures answer { AnswersCommand commands.Bad self.old self.new (said_bytes result) }
    {
        self.roll_back();
        refused(self.alloc, &Refusal::Syntax)
    }

    /// The text that reports what a commit of the open transaction, whose working scene is given, would change.
    fn preview<R: Threads + Sync, G: Gate>(
        &self,
        rt: &R,
        working: &Scene,
        workers: u32,
        gate: &G,
    ) -> Result<Vec<u8>, AllocError>
        requires some { 1 ≤ workers }
        requires few_workers { workers ≤ 4 }
        requires working { self.now.session.world.working ≡ Some working.now }
        ensures { IfOk result (λ text. ReportsPreview self.now self.now text.items) }
    {
        let drawing = &self.drawing;
        let compared = drawing.working_lines_with(rt, self.alloc, working, workers, gate)?;
        changes_text(self.alloc, &compared)
    }

    /// Reports what a commit would change, if a transaction is open.
    fn report_preview<R: Threads + Sync, G: Gate>(&self, rt: &R, workers: u32, gate: &G) -> Said
        requires some { 1 ≤ workers }
        requires few_workers { workers ≤ 4 }
        ensures { Answers requests.Preview self.now self.now (said_bytes result) }
    {
        match self.drawing.session().working() {
            Some(working) => Said::of(self.preview(rt, working, workers, gate)),
            None => refused(self.alloc, &Refusal::Command(SessionFault::NoTransaction)),
        }
    }

    /// All lines of the present scene, and the text that reports them.
    fn all_lines(&self) -> Result<(Compared, Vec<u8>), AllocError>
        ensures drawn { IfOk result (λ r. AreDrawn self.now.session.world.present self.now.session.book r.0.lines) }
        ensures text { IfOk result (λ r. r.1.items ≡ drawn_texts r.0.lines ++ ok_line) }
    {
        let compared = self.drawing.present_lines(self.alloc)?;
        let text = lines_text(self.alloc, compared.lines())?;
        Ok((compared, text))
    }

    /// Reports all lines of the present scene.
    fn report_lines(&mut self) -> Said
        ensures { ReportsLines self.old self.new (said_bytes result) ⊎ AnswersNoMemory self.old self.new (said_bytes result) }
    {
        match self.all_lines() {
            Ok((compared, text)) => {
                self.drawing.report(compared);
                Said::Text(text)
            }
            Err(AllocError) => Said::NoMemory,
        }
    }

    /// Gives a label, and reports that it is done. A label that has a `"` is not a valid line.
    fn label(&mut self, what: Labelled, text: &[u8]) -> Said
        ensures { AnswersLabel what text.now self.old self.new (said_bytes result) }
    {
        match self.drawing.label(self.alloc, what, text) {
            Ok(()) => Said::Done,
            Err(LabelFault::Quote) => self.refuse_line(),
            Err(LabelFault::Memory) => Said::NoMemory,
        }
    }

    /// The text that reports the diagram.
    fn diagram(&self) -> Result<Vec<u8>, AllocError>
        ensures { IfOk result (λ text. ReportsDiagram self.now self.now text.items) }
    {
        let diagram = self.drawing.text(self.alloc)?;
        gml_text(self.alloc, &diagram)
    }

    /// The text that reports the number of the next connector.
    fn next(&self) -> Result<Vec<u8>, AllocError>
        ensures { IfOk result (λ text. ReportsNext self.now self.now text.items) }
    {
        next_text(self.alloc, self.drawing.next_number())
    }

    /// Does what a request asks for, and reports the result.
    ///
    /// After a command that is refused no transaction is open. The other requests change no scene, and a label is no part of one.
    fn answer<R: Threads + Sync, G: Gate>(
        &mut self,
        rt: &R,
        request: Request,
        workers: u32,
        gate: &G,
    ) -> Said
        requires some { 1 ≤ workers }
        requires few_workers { workers ≤ 4 }
        requires directed { IsDirectedRequest request }
        ensures { Answers request self.old self.new (said_bytes result) }
    {
        match request {
            Request::Nothing | Request::Quit => Said::Done,
            Request::Do(Command::Bad) => self.refuse_line(),
            Request::Do(command) => self.do_command(rt, &command, workers, gate),
            Request::Label(what, text) => self.label(what, text.as_slice()),
            Request::Reconnect {
                number,
                end,
                id,
                class,
            } => report_reconnect(self.alloc, &mut self.drawing, number, end, id, class),
            Request::Preview => self.report_preview(rt, workers, gate),
            Request::Lines => self.report_lines(),
            Request::Gml => Said::of(self.diagram()),
            Request::Next => Said::of(self.next()),
            Request::ReadScene => Said::of(scene_text(self.alloc, &self.drawing)),
            Request::Why => Said::of(why_text(self.alloc, self.drawing.session())),
            Request::Shared => Said::of(shared_text(self.alloc, &self.drawing)),
            Request::Crossings => Said::of(crossings_text(self.alloc, &self.drawing)),
            Request::Check { number, corners } => {
                report_verdict(self.alloc, &self.drawing, number, corners.as_slice())
            }
        }
    }

    /// The reply to a line, and whether the line asks for the end.
    ///
    /// After a refused command no transaction is open, and the scenes and lines are as before.
    pub fn reply<R: Threads + Sync, G: Gate>(
        &mut self,
        rt: &R,
        line: &[u8],
        workers: u32,
        gate: &G,
    ) -> (Said, bool)
        requires some { 1 ≤ workers }
        requires few_workers { workers ≤ 4 }
        ensures reply { AnswersRead reads.Whole line.now self.old self.new (said_bytes result.0) }
        ensures end { result.1 ≡ is_quit line.now }
    {
        let is_last = is_quit(line);
        match request_of(self.alloc, line) {
            Ok(request) => (self.answer(rt, request, workers, gate), is_last),
            Err(AllocError) => {
                self.roll_back();
                (Said::NoMemory, is_last)
            }
        }
    }

    /// The reply to a line that is too long. It rolls back the transaction.
    pub fn refuse_long_line(&mut self) -> Said
        ensures { (line : List ℕ) → AnswersRead reads.TooLong line self.old self.new (said_bytes result) }
    {
        self.roll_back();
        Said::TooLong
    }
}
