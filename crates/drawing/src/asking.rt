//! The lines of a drawing: compared with those that were reported before, and reported, or previewed.
ghost use Rattle.std.specs.Prelude.{◌≡◌, ◌≤◌, IfErr, IfOk, OnErr, OnOk, Some, length};
ghost use Rattle.drawing.specs.Changes.{asked_of};
ghost use Rattle.drawing.specs.Drawing.{Previews, Reports};
ghost use Rattle.drawing.specs.Lines.{AreDrawn, AreProposed, IsUnproposed};

use crate::changes::{Differences, changes_between};
use crate::drawing::Drawing;
use crate::lines::Lines;
use par_route::Gate;
use scene_model::SessionFault;
use scene_store::Scene;
use std::alloc::{AllocError, Global};
use std::marker::Model;
use std::thread::Threads;
use walk_model::WrittenRoute;

/// Lines, and what they differ in from those that were reported last.
#[derive(Drop)]
pub struct Compared {
    lines: Lines,
    differences: Differences,
}

impl Model for Compared {
    ghost use Rattle.std.specs.Prelude.{◌≡◌, length};
    ghost use Rattle.drawing.specs.Changes.{Asked};

    ghost Value = { Asked };

    ghost view = { λ c. record {
      lines = c.lines;
      changed = c.differences.changed.items;
      gone = c.differences.gone.items;
    } };

    ghost invariant = { λ c. length c.differences.changed.items ≡ length c.lines };
}

impl Compared {
    /// The lines, in the order of their connectors' numbers.
    pub fn lines(&self) -> &[WrittenRoute]
        ensures { result.now ≡ self.now.lines }
    {
        self.lines.as_slice()
    }

    /// Of each of these lines whether it differs from the one that was reported of its connector before, if one was.
    pub fn changed(&self) -> &[bool]
        ensures changed { result.now ≡ self.now.changed }
        ensures each { length result.now ≡ length self.now.lines }
    {
        &self.differences.changed
    }

    /// The connectors of which a line was reported before, and that have none among these.
    pub fn gone(&self) -> &[u32]
        ensures { result.now ≡ self.now.gone }
    {
        &self.differences.gone
    }
}

impl Drawing {
    /// The lines, compared with those that were reported last.
    fn compared(&self, alloc: Global, lines: Lines) -> Result<Compared, AllocError>
        ensures lines { IfOk result (λ c. c.lines ≡ lines) }
        ensures compared { IfOk result (λ c. c ≡ asked_of self.now.reported c.lines) }
    {
        let differences = changes_between(alloc, self.reported.as_slice(), lines.as_slice())?;
        Ok(Compared { lines, differences })
    }

    /// The lines of the present scene, nudged, compared with those that were reported last. Reports nothing.
    ///
    /// The only error is out of memory.
    pub fn present_lines(&self, alloc: Global) -> Result<Compared, AllocError>
        ensures drawn { IfOk result (λ c. AreDrawn self.now.session.world.present self.now.session.book c.lines) }
        ensures compared { IfOk result (λ c. c ≡ asked_of self.now.reported c.lines) }
    {
        let lines = Lines::of_present(alloc, &self.session)?;
        self.compared(alloc, lines)
    }

    /// The lines that a commit of the open transaction would give, nudged, compared with those that were reported last,
    /// by at most `workers` searches side by side. Reports nothing, and the transaction stays open.
    ///
    /// The only error is out of memory.
    pub fn working_lines_with<R: Threads + Sync, G: Gate>(
        &self,
        rt: &R,
        alloc: Global,
        working: &Scene,
        workers: u32,
        gate: &G,
    ) -> Result<Compared, AllocError>
        requires some { 1 ≤ workers }
        requires few_workers { workers ≤ 4 }
        requires working { self.now.session.world.working ≡ Some working.now }
        ensures proposed { IfOk result (λ c. AreProposed self.now.session c.lines) }
        ensures compared { IfOk result (λ c. c ≡ asked_of self.now.reported c.lines) }
    {
        let lines = Lines::of_working_with(rt, alloc, &self.session, working, workers, gate)?;
        self.compared(alloc, lines)
    }

    /// Reports these lines: the next ones are compared with them. They can be read. Takes no memory.
    pub fn report(&mut self, compared: Compared)
        ensures session { self.new.session ≡ self.old.session }
        ensures document { self.new.document ≡ self.old.document }
        ensures labels { self.new.labels ≡ self.old.labels }
        ensures reported { self.new.reported ≡ compared.lines }
        ensures asked { self.new.asked ≡ compared }
    {
        let Compared { lines, differences } = compared;
        self.reported = lines;
        self.proposed = None;
        self.differences = differences;
    }

    /// Keeps these lines as those that were asked for last, which can be read. Reports nothing, and takes no memory.
    fn propose(&mut self, compared: Compared)
        ensures session { self.new.session ≡ self.old.session }
        ensures document { self.new.document ≡ self.old.document }
        ensures labels { self.new.labels ≡ self.old.labels }
        ensures reported { self.new.reported ≡ self.old.reported }
        ensures asked { self.new.asked ≡ compared }
    {
        let Compared { lines, differences } = compared;
        self.proposed = Some(lines);
        self.differences = differences;
    }

    /// Reports the lines of the present scene, nudged. They can be read, with what changed since lines were reported last.
    ///
    /// The only error is out of memory, which leaves everything as it was.
    pub fn report_lines(&mut self, alloc: Global) -> Result<(), AllocError>
        ensures session { self.new.session ≡ self.old.session }
        ensures document { self.new.document ≡ self.old.document }
        ensures labels { self.new.labels ≡ self.old.labels }
        ensures reports { OnOk result (Reports self.old self.new) }
        ensures err { OnErr result (self.new ≡ self.old) }
    {
        let compared = self.present_lines(alloc)?;
        self.report(compared);
        Ok(())
    }

    /// Asks for the lines that a commit of the open transaction would give, nudged. They can be read, with what changes
    /// against the lines that were reported last, which stay. The transaction stays open.
    ///
    /// The error is `NoTransaction` exactly if none is open, otherwise only out of memory. It leaves everything as it was.
    pub fn preview_lines(&mut self, alloc: Global) -> Result<(), SessionFault>
        ensures session { self.new.session ≡ self.old.session }
        ensures document { self.new.document ≡ self.old.document }
        ensures labels { self.new.labels ≡ self.old.labels }
        ensures previews { OnOk result (Previews self.old self.new) }
        ensures fault { IfErr result (IsUnproposed self.old.session) }
        ensures err { OnErr result (self.new ≡ self.old) }
    {
        let Some(working) = self.session.working() else {
            return Err(SessionFault::NoTransaction);
        };
        let Ok(lines) = Lines::of_working(alloc, &self.session, working) else {
            return Err(SessionFault::Memory);
        };
        let Ok(compared) = self.compared(alloc, lines) else {
            return Err(SessionFault::Memory);
        };
        self.propose(compared);
        Ok(())
    }

    /// The lines that were asked for last, in the order of their connectors' numbers.
    pub fn lines(&self) -> &[WrittenRoute]
        ensures { result.now ≡ self.now.asked.lines }
    {
        match &self.proposed {
            Some(lines) => lines.as_slice(),
            None => self.reported.as_slice(),
        }
    }

    /// Of each of these lines whether it differs from the one that was reported of its connector before, if one was.
    pub fn changed(&self) -> &[bool]
        ensures { result.now ≡ self.now.asked.changed }
    {
        &self.differences.changed
    }

    /// The connectors of which a line was reported before, and that have none among these.
    pub fn gone(&self) -> &[u32]
        ensures { result.now ≡ self.now.asked.gone }
    {
        &self.differences.gone
    }
}
