//! Scenes for sessions, edits in short, and what is compared of a session.
ghost use Rattle.scene_model.specs.Edits.{IsDirected};

use par_route::OpenGate;
use route_session::Session;
use scene_store::{Dirs, Edit, Scene, SceneFault, Setting};
use std::alloc::{AllocError, Global};
use std::thread::Threads;

/// What is compared: whether a transaction is open, where the second box stands in its working scene and in the present
/// one, the next edge number, the cost of the first connector's route, and both counts.
#[derive(Clone, Copy, PartialEq, Eq)]
pub(crate) struct Sight {
    pub(crate) open: bool,
    pub(crate) working_x: Option<i64>,
    pub(crate) x: Option<i64>,
    pub(crate) next_edge: u32,
    pub(crate) cost: Option<u64>,
    pub(crate) searched: u64,
    pub(crate) written: u64,
}

/// Where the second box stands.
fn second_x(scene: &Scene) -> Option<i64> {
    scene.node(2).map(|node| node.x)
}

pub(crate) fn look(session: &Session) -> Sight {
    let answer = session.book().answer(1);
    let route = answer.and_then(|answer| answer.route.as_ref());
    Sight {
        open: session.is_open(),
        working_x: session.working().and_then(second_x),
        x: second_x(session.scene()),
        next_edge: session.scene().next_edge(),
        cost: route.map(|route| route.cost),
        searched: session.searched(),
        written: session.written(),
    }
}

/// A session on the scene, by two workers, or without threads.
pub(crate) fn open<R: Threads + Sync>(
    rt: Option<&R>,
    alloc: Global,
    scene: Scene,
) -> Result<Session, AllocError> {
    match rt {
        Some(rt) => Session::open(rt, alloc, scene, 2, &OpenGate),
        None => Session::open_alone(alloc, scene),
    }
}

/// The scenes on which sessions are opened.
#[derive(Clone, Copy)]
pub(crate) enum Drawing {
    /// Three boxes of 20 units in a row, of which the first has a pin of class 7, and a connector from that pin to the
    /// second box with two checkpoints.
    Small,
    /// The second box alone.
    OneBox,
    /// Two boxes of 20 units, 100 units apart, and a connector between them that has no route, since a third box of
    /// 80 by 80 units covers the first.
    Covered,
}

fn draw_small(scene: &mut Scene) -> Result<(), SceneFault> {
    scene.add_node(1, 0, 0, 20_000, 20_000)?;
    scene.add_node(2, 100_000, 0, 20_000, 20_000)?;
    scene.add_node(3, 200_000, 0, 20_000, 20_000)?;
    scene.add_pin(1, 7, 10_000, 0, Dirs::EAST)?;
    scene.add_edge(1, 2, 7, 0)?;
    scene.add_via(1, 1, 40_000, 0)?;
    scene.add_via(1, 2, 60_000, 0)
}

fn draw_covered(scene: &mut Scene) -> Result<(), SceneFault> {
    scene.add_node(1, 0, 0, 20_000, 20_000)?;
    scene.add_node(2, 100_000, 0, 20_000, 20_000)?;
    scene.add_node(3, 0, 0, 80_000, 80_000)?;
    scene.add_edge(1, 2, 0, 0)
}

pub(crate) fn draw(scene: &mut Scene, drawing: Drawing) -> Result<(), SceneFault> {
    match drawing {
        Drawing::Small => draw_small(scene),
        Drawing::OneBox => scene.add_node(2, 0, 0, 20_000, 20_000),
        Drawing::Covered => draw_covered(scene),
    }
}

/// An edit. Where it leaves something out, that is 0, or 20 units for a height.
#[derive(Clone, Copy)]
pub(crate) enum Ask {
    /// A new box's id, x and width.
    Node(i64, i64, i64),
    /// A box and its new x.
    Move(i64, i64),
    /// A box and its new width.
    Size(i64, i64),
    DropNode(i64),
    /// A box, and the class and x of its new pin, which leads east.
    Pin(i64, u32, i64),
    /// A box and the place of a pin.
    Unpin(i64, u32),
    /// The ends of a new connector, and the class of its first.
    Edge(i64, i64, u32),
    Cut(u32),
    /// A connector, and the new class of its first end.
    Classes(u32, u32),
    /// A connector, and the place and x of its new checkpoint.
    Via(u32, u32, i64),
    /// A connector and the place of a checkpoint.
    Unvia(u32, u32),
    Penalty(i64),
}

pub(crate) fn edit_of(ask: Ask) -> Edit
    ensures { IsDirected result }
{
    let (y, dy, h, to_class) = (0, 0, 20_000, 0);
    match ask {
        Ask::Node(id, x, w) => Edit::AddNode { id, x, y, w, h },
        Ask::Move(id, x) => Edit::MoveNode { id, x, y },
        Ask::Size(id, w) => Edit::SizeNode { id, w, h },
        Ask::DropNode(id) => Edit::DropNode { id },
        Ask::Pin(id, class, dx) => Edit::AddPin {
            id,
            class,
            dx,
            dy,
            dirs: Dirs::EAST,
        },
        Ask::Unpin(id, place) => Edit::DropPin { id, place },
        Ask::Edge(from, to, from_class) => Edit::AddEdge {
            from,
            to,
            from_class,
            to_class,
        },
        Ask::Cut(number) => Edit::CutEdge { number },
        Ask::Classes(number, from_class) => Edit::SetClasses {
            number,
            from_class,
            to_class,
        },
        Ask::Via(number, place, x) => Edit::AddVia {
            number,
            place,
            x,
            y,
        },
        Ask::Unvia(number, place) => Edit::DropVia { number, place },
        Ask::Penalty(value) => Edit::Set {
            what: Setting::Penalty,
            value,
        },
    }
}
