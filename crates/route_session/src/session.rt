//! The session: what an editor embeds.
ghost use Rattle.std.specs.Prelude.{◌≡◌, ◌≢◌, ◌+◌, ◌≤◌, ℕ, All, Err, Ok, IfErr, IfOk, IfSome, IsErrOf, IsSome, None, OnErr, OnOk, Some, [], is_some, length, map, option_copied, slice_get};
ghost use Rattle.std.specs.FinMap.{len};
ghost use Rattle.plane_geom.specs.Floor.{IsFloor};
ghost use Rattle.line_arena.specs.Arena.{Arena};
ghost use Rattle.line_arena.specs.Stands.{StandsFor};
ghost use Rattle.session_model.specs.Txn.{BeganOn};
ghost use Rattle.graph_repair.specs.Change.{CountsWrites};
ghost use Rattle.nudge_phases.specs.Apart.{KeepsApart};
ghost use Rattle.nudge_phases.specs.Nudged.{AreLegalNudgedLines, IsNudgedScene};
ghost use Rattle.nudge_phases.specs.Raw.{routed};
ghost use Rattle.preview.specs.Previews.{ArePreviews, IsProposable};
ghost use Rattle.route_book.specs.Exchange.{CountsStale};
ghost use Rattle.line_arena.specs.Count.{counted_by};
ghost use Rattle.session_model.specs.Calls.{IsCall};
ghost use Rattle.session_model.specs.History.{IsHistory, world_of};
ghost use Rattle.route_session.specs.Turning.{turn_command};
ghost use Rattle.route_session.specs.Upheld.{IsUpheld};
ghost use Rattle.scene_model.specs.Answers.{AreAnswers};
ghost use Rattle.scene_model.specs.Edits.{IsDirected};
ghost use Rattle.scene_model.specs.Routing.{floor_of};
ghost use Rattle.scene_model.specs.Scene.{connectors};
ghost use Rattle.scene_model.specs.Valid.{IsValid};
ghost use Rattle.scene_model.specs.World.{opened, refused, rolled_back, step};
ghost use Rattle.scene_model.specs.declared.edit.Command.TheVariants as commands;
ghost use Rattle.scene_model.specs.declared.fault.SceneFault.TheVariants as scene_faults;
ghost use Rattle.scene_model.specs.declared.fault.SessionFault.TheVariants as faults;

use crate::present::Present;
use crate::start::Start;
use crate::turning::{Toward, exchange_toward, nearest_step, no_step, scene_toward};
use nudge_phases::{Nudged, nudge};
use par_route::Gate;
use preview::{Previewed, Proposal, preview, preview_alone};
use route_book::{Book, Changes};
use route_search::Tally;
use scene_store::{Edit, Scene, SceneFault, SessionFault};
use session_model::{Txn, TxnParts};
use std::alloc::{AllocError, Global};
use std::marker::Model;
use std::thread::Threads;
use undo_log::{Step, UndoLog};

/// A scene that is edited in transactions, with its history and its routes.
///
/// Its model is its world (the past scenes, the present one, the future ones, and the working scene
/// of an open transaction), the answers of its book, the number of its searches, and the number of
/// lines and crossings that were written into its graph. The book is always right for the present
/// scene.
///
/// After an error no transaction is open, and the scenes, the book and both numbers are as before;
/// only if `commit` runs out of memory, the two numbers may have risen.
#[derive(Drop)]
pub struct Session {
    present: Present,
    log: UndoLog<Changes>,
    txn: Option<Txn>,
}

impl Model for Session {
    ghost use Rattle.std.specs.Prelude.{option_map};
    ghost use Rattle.session_model.specs.State.{State};
    ghost use Rattle.route_session.specs.Upheld.{IsUpheld};
    ghost use Rattle.session_model.specs.History.{world_of};

    ghost Value = { State };

    ghost view = { λ s. record {
      world = world_of s.log s.present.scene (option_map (λ t. t.working) s.txn);
      book = s.present.book;
      searched = s.present.tally;
      written = s.present.graph.arena.written;
    } };

    ghost invariant = { λ s. IsUpheld s.present.scene s.present.graph s.present.book s.log s.txn };
}

impl Session {
    /// A session on the scene, with no past and no future, by at most `workers` searches side by
    /// side. `searched` begins with the number of connectors, `written` with the number of the
    /// graph's lines and crossings.
    ///
    /// The only error is out of memory.
    pub fn open<R: Threads + Sync, G: Gate>(
        rt: &R,
        alloc: Global,
        scene: Scene,
        workers: u32,
        gate: &G,
    ) -> Result<Session, AllocError>
        requires some { 1 ≤ workers }
        requires few { workers ≤ 4 }
        ensures world { IfOk result (λ s. s.world ≡ opened scene) }
        ensures right { IfOk result (λ s. AreAnswers scene s.book) }
        ensures searched { IfOk result (λ s. s.searched ≡ length (connectors scene)) }
        ensures written { IfOk result (λ s. (a : Arena) × StandsFor (floor_of scene) a × (s.written ≡ len a.lines + len a.crossings)) }
    {
        let start = Start::searched(rt, alloc, &scene, workers, gate);
        Session::on(alloc, scene, start)
    }

    /// A session on the scene, with no past and no future, without threads. `searched` begins with
    /// the number of connectors, `written` with the number of the graph's lines and crossings.
    ///
    /// The only error is out of memory.
    pub fn open_alone(alloc: Global, scene: Scene) -> Result<Session, AllocError>
        ensures world { IfOk result (λ s. s.world ≡ opened scene) }
        ensures right { IfOk result (λ s. AreAnswers scene s.book) }
        ensures searched { IfOk result (λ s. s.searched ≡ length (connectors scene)) }
        ensures written { IfOk result (λ s. (a : Arena) × StandsFor (floor_of scene) a × (s.written ≡ len a.lines + len a.crossings)) }
    {
        let start = Start::searched_alone(alloc, &scene);
        Session::on(alloc, scene, start)
    }

    /// A session on the scene from its start, with no past and no future.
    fn on(
        alloc: Global,
        scene: Scene,
        start: Result<Start, AllocError>,
    ) -> Result<Session, AllocError>
        requires floor { IfOk start (λ s. s.graph.floor ≡ floor_of scene) }
        requires fits { IfOk start (λ s. IsFloor s.graph.floor) }
        requires stands { IfOk start (λ s. StandsFor (floor_of scene) s.graph.arena) }
        requires written { IfOk start (λ s. s.graph.arena.written ≡ len s.graph.arena.lines + len s.graph.arena.crossings) }
        requires right { IfOk start (λ s. AreAnswers scene s.book) }
        requires searched { IfOk start (λ s. s.tally ≡ length (connectors scene)) }
        requires past { IfOk start (λ s. s.log.past ≡ []) }
        requires future { IfOk start (λ s. s.log.future ≡ []) }
        ensures world { IfOk result (λ s. s.world ≡ opened scene) }
        ensures right { IfOk result (λ s. AreAnswers scene s.book) }
        ensures searched { IfOk result (λ s. s.searched ≡ length (connectors scene)) }
        ensures written { IfOk result (λ s. (a : Arena) × StandsFor (floor_of scene) a × (s.written ≡ len a.lines + len a.crossings)) }
    {
        scene.valid();
        let Start {
            graph,
            book,
            tally,
            log,
        } = start?;
        Ok(Session {
            present: Present {
                alloc,
                scene,
                graph,
                book,
                tally,
            },
            log,
            txn: None,
        })
    }

    /// Opens a transaction. The error is `AlreadyOpen` exactly if one is open, otherwise only out
    /// of memory.
    pub fn begin(&mut self) -> Result<(), SessionFault>
        ensures call { IsCall commands.Begin result self.old self.new }
        ensures book { self.new.book ≡ self.old.book }
        ensures searched { self.new.searched ≡ self.old.searched }
        ensures written { self.new.written ≡ self.old.written }
    {
        if self.txn.take().is_some() {
            return Err(SessionFault::AlreadyOpen);
        }
        let Ok(txn) = Txn::begin(self.present.alloc, &self.present.scene) else {
            return Err(SessionFault::Memory);
        };
        self.txn = Some(txn);
        Ok(())
    }

    /// Applies an edit to the working scene. A pin that it adds has a direction.
    ///
    /// The error is `NoTransaction` exactly if none is open; otherwise `Edit` with the fault
    /// exactly if the working scene refuses the edit; otherwise only out of memory, which `Edit`
    /// never contains.
    pub fn edit(&mut self, edit: &Edit) -> Result<(), SessionFault>
        requires { IsDirected edit.now }
        ensures call { IsCall (commands.Edit edit.now) result self.old self.new }
        ensures memory { result ≢ Err (faults.Edit scene_faults.Memory) }
        ensures book { self.new.book ≡ self.old.book }
        ensures searched { self.new.searched ≡ self.old.searched }
        ensures written { self.new.written ≡ self.old.written }
    {
        let Some(txn) = self.txn.as_mut() else {
            return Err(SessionFault::NoTransaction);
        };
        let done = txn.apply(edit).map_err(edit_fault);
        if done.is_err() {
            self.txn = None;
        }
        done
    }

    /// Closes the transaction: its working scene becomes the present one, with right routes. Only
    /// the stale connectors are searched, by at most `workers` searches side by side.
    ///
    /// The error is `NoTransaction` exactly if none is open, otherwise only out of memory. It takes
    /// all memory before the scene, the book and the history change.
    pub fn commit<R: Threads + Sync, G: Gate>(
        &mut self,
        rt: &R,
        workers: u32,
        gate: &G,
    ) -> Result<(), SessionFault>
        requires some { 1 ≤ workers }
        requires few { workers ≤ 4 }
        ensures call { IsCall commands.Commit result self.old self.new }
        ensures book { OnErr result (self.new.book ≡ self.old.book) }
        ensures searched { OnOk result (CountsStale self.old.world.present self.old.book self.new.world.present self.old.searched self.new.searched) }
        ensures written { OnOk result (CountsWrites (floor_of self.old.world.present) (floor_of self.new.world.present) self.old.written self.new.written) }
        ensures refused_searched { IsErrOf result faults.NoTransaction → self.new.searched ≡ self.old.searched }
        ensures refused_written { IsErrOf result faults.NoTransaction → self.new.written ≡ self.old.written }
        ensures memory_searched { IsErrOf result faults.Memory → (n : ℕ) × (self.new.searched ≡ counted_by n self.old.searched) }
        ensures memory_written { IsErrOf result faults.Memory → (n : ℕ) × (self.new.written ≡ counted_by n self.old.written) }
    {
        let Some(txn) = self.txn.take() else {
            return Err(SessionFault::NoTransaction);
        };
        let Ok(changes) = self.present.follow(rt, txn.working(), workers, gate) else {
            return Err(SessionFault::Memory);
        };
        exchange_on(&mut self.log, &mut self.present, txn, changes);
        Ok(())
    }

    /// Closes the transaction: its working scene becomes the present one, with right routes. Only
    /// the stale connectors are searched, without threads.
    ///
    /// The error is `NoTransaction` exactly if none is open, otherwise only out of memory. It takes
    /// all memory before the scene, the book and the history change.
    pub fn commit_alone(&mut self) -> Result<(), SessionFault>
        ensures call { IsCall commands.Commit result self.old self.new }
        ensures book { OnErr result (self.new.book ≡ self.old.book) }
        ensures searched { OnOk result (CountsStale self.old.world.present self.old.book self.new.world.present self.old.searched self.new.searched) }
        ensures written { OnOk result (CountsWrites (floor_of self.old.world.present) (floor_of self.new.world.present) self.old.written self.new.written) }
        ensures refused_searched { IsErrOf result faults.NoTransaction → self.new.searched ≡ self.old.searched }
        ensures refused_written { IsErrOf result faults.NoTransaction → self.new.written ≡ self.old.written }
        ensures memory_searched { IsErrOf result faults.Memory → (n : ℕ) × (self.new.searched ≡ counted_by n self.old.searched) }
        ensures memory_written { IsErrOf result faults.Memory → (n : ℕ) × (self.new.written ≡ counted_by n self.old.written) }
    {
        let Some(txn) = self.txn.take() else {
            return Err(SessionFault::NoTransaction);
        };
        let Ok(changes) = self.present.follow_alone(txn.working()) else {
            return Err(SessionFault::Memory);
        };
        exchange_on(&mut self.log, &mut self.present, txn, changes);
        Ok(())
    }

    /// Drops the transaction. The error is `NoTransaction` exactly if none is open. Takes no
    /// memory.
    pub fn abort(&mut self) -> Result<(), SessionFault>
        ensures call { IsCall commands.Abort result self.old self.new }
        ensures fault { IfErr result (λ f. step commands.Abort self.old.world ≡ Err (refused f)) }
        ensures book { self.new.book ≡ self.old.book }
        ensures searched { self.new.searched ≡ self.old.searched }
        ensures written { self.new.written ≡ self.old.written }
    {
        if self.txn.take().is_none() {
            return Err(SessionFault::NoTransaction);
        }
        Ok(())
    }

    /// Goes one scene back, with its routes, without a search.
    ///
    /// The error is `AlreadyOpen` exactly if a transaction is open; otherwise `NothingToUndo`
    /// exactly if the past is empty; otherwise only out of memory. It takes memory only for a copy
    /// of the scene, its floor and the plan of the repair, before anything changes.
    pub fn undo(&mut self) -> Result<(), SessionFault>
        ensures call { IsCall commands.Undo result self.old self.new }
        ensures book { OnErr result (self.new.book ≡ self.old.book) }
        ensures searched { self.new.searched ≡ self.old.searched }
        ensures written { OnOk result (CountsWrites (floor_of self.old.world.present) (floor_of self.new.world.present) self.old.written self.new.written) }
        ensures err_written { OnErr result (self.new.written ≡ self.old.written) }
    {
        self.turn(Toward::Past)
    }

    /// Goes one scene forward, with its routes, without a search.
    ///
    /// The error is `AlreadyOpen` exactly if a transaction is open; otherwise `NothingToRedo`
    /// exactly if the future is empty; otherwise only out of memory. It takes memory only for a
    /// copy of the scene, its floor and the plan of the repair, before anything changes.
    pub fn redo(&mut self) -> Result<(), SessionFault>
        ensures call { IsCall commands.Redo result self.old self.new }
        ensures book { OnErr result (self.new.book ≡ self.old.book) }
        ensures searched { self.new.searched ≡ self.old.searched }
        ensures written { OnOk result (CountsWrites (floor_of self.old.world.present) (floor_of self.new.world.present) self.old.written self.new.written) }
        ensures err_written { OnErr result (self.new.written ≡ self.old.written) }
    {
        self.turn(Toward::Future)
    }

    /// Goes one scene toward the past or the future, with its routes, without a search.
    fn turn(&mut self, toward: Toward) -> Result<(), SessionFault>
        ensures call { IsCall (turn_command toward) result self.old self.new }
        ensures book { OnErr result (self.new.book ≡ self.old.book) }
        ensures searched { self.new.searched ≡ self.old.searched }
        ensures written { OnOk result (CountsWrites (floor_of self.old.world.present) (floor_of self.new.world.present) self.old.written self.new.written) }
        ensures err_written { OnErr result (self.new.written ≡ self.old.written) }
    {
        if self.txn.take().is_some() {
            return Err(SessionFault::AlreadyOpen);
        }
        let Some(step) = nearest_step(&self.log, toward) else {
            return Err(no_step(toward));
        };
        let Ok(scene) = scene_toward(&self.present.scene, step, toward) else {
            return Err(SessionFault::Memory);
        };
        let Ok(_repair) = self.present.repair(&scene) else {
            return Err(SessionFault::Memory);
        };
        exchange_toward(&mut self.log, &mut self.present, scene, toward);
        Ok(())
    }

    /// Drops the transaction if one is open. Takes no memory.
    pub fn give_up(&mut self)
        ensures world { self.new.world ≡ rolled_back self.old.world }
        ensures book { self.new.book ≡ self.old.book }
        ensures searched { self.new.searched ≡ self.old.searched }
        ensures written { self.new.written ≡ self.old.written }
    {
        self.txn = None;
    }

    /// Whether a transaction is open.
    pub fn is_open(&self) -> bool
        ensures { result ≡ is_some self.now.world.working }
    {
        self.txn.is_some()
    }

    /// The working scene of the open transaction; `None` exactly if none is open.
    pub fn working(&self) -> Option<&Scene>
        ensures { option_copied result ≡ self.now.world.working }
    {
        let txn = self.txn.as_ref()?;
        Some(txn.working())
    }

    /// The present scene.
    pub fn scene(&self) -> &Scene
        ensures scene { result.now ≡ self.now.world.present }
        ensures right { AreAnswers result.now self.now.book }
    {
        &self.present.scene
    }

    /// The right answers of the present scene.
    pub fn book(&self) -> &Book
        ensures book { result.now ≡ self.now.book }
        ensures right { AreAnswers self.now.world.present result.now }
    {
        &self.present.book
    }

    /// The law that the book is right for the present scene, whatever was called before. Does
    /// nothing.
    pub fn right(&self)
        ensures { AreAnswers self.now.world.present self.now.book }
    {
        let _book = &self.present.book;
    }

    /// The number of searches, and 2^64 - 1 if there were more.
    pub fn searched(&self) -> u64
        ensures { result ≡ self.now.searched }
    {
        self.present.tally.count()
    }

    /// The number of lines and crossings that were written into the graph, and 2^64 - 1 if there
    /// were more.
    pub fn written(&self) -> u64
        ensures { result ≡ self.now.written }
    {
        self.present.graph.arena().written()
    }

    /// The nudged lines of the present scene's routes. The only error is out of memory.
    pub fn nudged(&self) -> Result<Nudged, AllocError>
        // The lines are those of both phases on the right answers.
        ensures nudged { IfOk result (λ n. IsNudgedScene self.now.world.present self.now.book n.routes.items) }
        // Every separation of a phase is met: by its bundle's gap if it links two runs, otherwise
        // by the wanted nudge.
        ensures apart { IfOk result (λ n. (p : IsNudgedScene self.now.world.present self.now.book n.routes.items) →
            KeepsApart p.nudged.x × KeepsApart p.nudged.y) }
        // Every line is a legal walk of its connector, with the choices of its route.
        ensures legal { IfOk result (λ n. AreLegalNudgedLines self.now.world.present self.now.book n.routes.items) }
        // One line for each answer with a route, in order.
        ensures edges { IfOk result (λ n. map (λ l. l.edge) n.routes.items ≡ map (λ p. p.0) (routed self.now.book)) }
    {
        let present = &self.present;
        nudge(present.alloc, &present.scene, present.book.answers())
    }

    /// The answers to the proposals, in order, all asked of the present scene: for each what `begin`, its edits and
    /// `commit` would give, or the first edit that is refused.
    ///
    /// The session stays as it is, and an open transaction makes no difference. The proposals are cut into at most
    /// `workers` pieces, which are answered side by side. The only error is out of memory.
    pub fn preview<R: Threads + Sync, G: Gate>(
        &self,
        rt: &R,
        proposals: &[Proposal],
        workers: u32,
        gate: &G,
    ) -> Result<Vec<Previewed>, AllocError>
        requires some { 1 ≤ workers }
        requires few { workers ≤ 4 }
        requires few_proposals { length proposals.now ≤ 64 }
        requires edits { All IsProposable proposals.now }
        ensures { IfOk result (λ answers. ArePreviews self.now.world.present self.now.book proposals.now answers.items) }
    {
        let present = &self.present;
        preview(
            rt,
            present.alloc,
            &present.scene,
            &present.book,
            proposals,
            workers,
            gate,
        )
    }

    /// The answers to the proposals, in order, all asked of the present scene, as `preview` returns them, without
    /// threads.
    ///
    /// The session stays as it is, and an open transaction makes no difference. The only error is out of memory.
    pub fn preview_alone(&self, proposals: &[Proposal]) -> Result<Vec<Previewed>, AllocError>
        requires few_proposals { length proposals.now ≤ 64 }
        requires edits { All IsProposable proposals.now }
        ensures { IfOk result (λ answers. ArePreviews self.now.world.present self.now.book proposals.now answers.items) }
    {
        let present = &self.present;
        preview_alone(present.alloc, &present.scene, &present.book, proposals)
    }

    /// The session's tally, whose count is `searched`. Drops the rest, and takes no memory.
    pub fn into_tally(self) -> Tally
        ensures { result ≡ self.searched }
    {
        let Session { present, .. } = self;
        let Present { tally, .. } = present;
        tally
    }
}

/// Moves the transaction into the past, as the latest step; its working scene becomes the present
/// one, and the answers that were found for it go into the book.
fn exchange_on(log: &mut UndoLog<Changes>, present: &mut Present, txn: Txn, mut changes: Changes)
    requires valid { IsValid present.old.scene }
    requires history { IsHistory (λ c. c.here) (λ c. c.there) log.old present.old.scene }
    requires begun { BeganOn present.old.scene txn }
    requires floor { present.old.graph.floor ≡ floor_of txn.working }
    requires fits { IsFloor present.old.graph.floor }
    requires right { AreAnswers present.old.scene present.old.book }
    requires here { changes.here ≡ present.old.book }
    requires there { AreAnswers txn.working changes.there }
    ensures upheld { IsUpheld present.new.scene present.new.graph present.new.book log.new None }
    ensures ok { step commands.Commit (world_of log.old present.old.scene (Some txn.working)) ≡ Ok (world_of log.new present.new.scene None) }
    ensures scene { present.new.scene ≡ txn.working }
    ensures graph { present.new.graph ≡ present.old.graph }
    ensures tally { present.new.tally ≡ present.old.tally }
{
    let TxnParts { scene, back, forth } = txn.into_parts();
    present.replace_scene(scene);
    present.exchange(&mut changes);
    log.push(Step {
        back,
        forth,
        changes,
    });
}

/// The fault of an edit as a fault of the session; out of memory is a fault of its own.
fn edit_fault(fault: SceneFault) -> SessionFault
    ensures memory { fault ≡ scene_faults.Memory → result ≡ faults.Memory }
    ensures other { fault ≢ scene_faults.Memory → result ≡ faults.Edit fault }
{
    match fault {
        SceneFault::Memory => SessionFault::Memory,
        _ => SessionFault::Edit(fault),
    }
}
