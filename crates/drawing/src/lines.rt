//! Lines: of a session, and those that a commit of its open transaction would give.
ghost use Rattle.std.specs.Prelude.{◌≡◌, ◌≤◌, [], IfOk, Some};
ghost use Rattle.scene_model.specs.Answers.{AreAnswers};
ghost use Rattle.drawing.specs.Changes.{AreInOrder};
ghost use Rattle.drawing.specs.Lines.{AreDrawn, AreProposed};

use nudge_phases::{Nudged, nudge};
use par_route::Gate;
use route_book::Book;
use route_search::Tally;
use route_session::Session;
use scene_store::Scene;
use std::alloc::{AllocError, Global};
use std::marker::Model;
use std::thread::Threads;
use walk_model::WrittenRoute;

/// Lines of different connectors, in the order of their numbers.
#[derive(Drop)]
pub(crate) struct Lines {
    routes: Vec<WrittenRoute>,
}

impl Model for Lines {
    ghost use Rattle.std.specs.Prelude.{List};
    ghost use Rattle.walk_model.specs.declared.route.WrittenRoute.{WrittenRoute};
    ghost use Rattle.drawing.specs.Changes.{AreInOrder};

    ghost Value = { List WrittenRoute };

    ghost view = { λ l. l.routes.items };

    ghost invariant = { λ l. AreInOrder l.routes.items };
}

impl Lines {
    /// No lines. Takes no memory.
    pub(crate) fn none(alloc: Global) -> Lines
        ensures { result ≡ [] }
    {
        Lines {
            routes: Vec::new(alloc),
        }
    }

    /// The lines.
    pub(crate) fn as_slice(&self) -> &[WrittenRoute]
        ensures lines { result.now ≡ self.now }
        ensures in_order { AreInOrder result.now }
    {
        &self.routes
    }

    /// The lines of a scene with its right answers.
    fn of(alloc: Global, scene: &Scene, book: &Book) -> Result<Lines, AllocError>
        requires { AreAnswers scene.now book.now }
        ensures { IfOk result (λ lines. AreDrawn scene.now book.now lines) }
    {
        scene.valid();
        let Nudged { routes } = nudge(alloc, scene, book.answers())?;
        Ok(Lines { routes })
    }

    /// The lines of the present scene.
    pub(crate) fn of_present(alloc: Global, session: &Session) -> Result<Lines, AllocError>
        ensures { IfOk result (λ lines. AreDrawn session.now.world.present session.now.book lines) }
    {
        Lines::of(alloc, session.scene(), session.book())
    }

    /// The lines of the session after a commit of the open transaction, with this working scene, by this thread alone.
    pub(crate) fn of_working(
        alloc: Global,
        session: &Session,
        working: &Scene,
    ) -> Result<Lines, AllocError>
        requires { session.now.world.working ≡ Some working.now }
        ensures { IfOk result (λ lines. AreProposed session.now lines) }
    {
        let mut tally = Tally::new();
        let book = session
            .book()
            .followed_alone(session.scene(), working, &mut tally)?;
        Lines::of(alloc, working, &book)
    }

    /// The same lines, by at most `workers` searches side by side.
    pub(crate) fn of_working_with<R: Threads + Sync, G: Gate>(
        rt: &R,
        alloc: Global,
        session: &Session,
        working: &Scene,
        workers: u32,
        gate: &G,
    ) -> Result<Lines, AllocError>
        requires some { 1 ≤ workers }
        requires few_workers { workers ≤ 4 }
        requires working { session.now.world.working ≡ Some working.now }
        ensures { IfOk result (λ lines. AreProposed session.now lines) }
    {
        let mut tally = Tally::new();
        let present = session.scene();
        let book = session
            .book()
            .followed(rt, present, working, workers, gate, &mut tally)?;
        Lines::of(alloc, working, &book)
    }
}
