//! The calls of a session, the number of writes to its graph, and each of its faults from one
//! state, after which everything is as before.

use crate::asks::{Ask, Drawing, Sight, draw, edit_of, look, open};
use par_route::OpenGate;
use route_session::{Session, SessionFault};
use scene_store::{Scene, SceneFault};
use std::alloc::{AllocError, Global};
use std::thread::Threads;

/// The number of nudged lines, and the connector of the first one.
fn lines(session: &Session) -> Result<(usize, Option<u32>), AllocError> {
    let lines = session.nudged()?;
    Ok((
        lines.routes.len(),
        lines.routes.first().map(|line| line.edge),
    ))
}

/// A call of a session.
#[derive(Clone, Copy)]
enum Call {
    Begin,
    Edit(Ask),
    Commit,
    Abort,
    GiveUp,
    Undo,
    Redo,
}

fn give_up(session: &mut Session) -> Result<(), SessionFault> {
    session.give_up();
    Ok(())
}

/// Commits by one worker, or without threads.
fn commit<R: Threads + Sync>(rt: Option<&R>, session: &mut Session) -> Result<(), SessionFault> {
    match rt {
        Some(rt) => session.commit(rt, 1, &OpenGate),
        None => session.commit_alone(),
    }
}

/// Makes a call. It has no contract, so that a test compares only what it observes.
fn make<R: Threads + Sync>(
    rt: Option<&R>,
    session: &mut Session,
    call: Call,
) -> Result<(), SessionFault> {
    match call {
        Call::Begin => session.begin(),
        Call::Edit(ask) => session.edit(&edit_of(ask)),
        Call::Commit => commit(rt, session),
        Call::Abort => session.abort(),
        Call::GiveUp => give_up(session),
        Call::Undo => session.undo(),
        Call::Redo => session.redo(),
    }
}

/// Makes calls up to the first one that is refused.
fn make_all<R: Threads + Sync>(
    rt: Option<&R>,
    session: &mut Session,
    calls: &[Call],
) -> Result<(), SessionFault> {
    for call in calls {
        make(rt, session, *call)?;
    }
    Ok(())
}

/// The expected state after calls.
#[derive(Clone, Copy)]
enum Wanted {
    /// Everything as it was when the session was opened.
    AsOpened,
    /// The place of the second box, the cost of the first route and the number of searches.
    Moved(i64, u64, u64),
    /// The place of the second box in the working scene and in the present one.
    Working(i64, i64),
    /// The number of lines and crossings that were written into the graph.
    Written(u64),
}

fn is_wanted(as_opened: bool, seen: Sight, wanted: Wanted) -> bool {
    match wanted {
        Wanted::AsOpened => as_opened,
        Wanted::Moved(x, cost, searched) => {
            (seen.x, seen.cost, seen.searched) == (Some(x), Some(cost), searched)
        }
        Wanted::Working(working_x, x) => { (seen.working_x, seen.x) == (Some(working_x), Some(x)) }
        Wanted::Written(written) => seen.written == written,
    }
}

/// The calls of a session, and their expected result.
#[derive(Clone, Copy)]
enum Step {
    /// None of the calls is refused.
    Made(&'static [Call], Wanted),
    /// The last of the calls is refused, and everything is as it was when the session was opened.
    Refused(&'static [Call], SessionFault),
    /// In a transaction that changed something the edit is refused, and everything is as it was
    /// when the session was opened.
    Edit(Ask, SceneFault),
}

/// A transaction moves the second box, and adds a connector between the third box and the second.
const CHANGED: [Call; 3] = [
    Call::Begin,
    Call::Edit(Ask::Move(2, 120_000)),
    Call::Edit(Ask::Edge(3, 2, 0)),
];

/// The result of the last of the calls of a step.
fn answer<R: Threads + Sync>(
    rt: Option<&R>,
    session: &mut Session,
    step: Step,
) -> Result<(), SessionFault> {
    match step {
        Step::Made(calls, _) | Step::Refused(calls, _) => make_all(rt, session, calls),
        Step::Edit(ask, _) => {
            make_all(rt, session, &CHANGED)?;
            make(rt, session, Call::Edit(ask))
        }
    }
}

/// The whole scene and the whole book of a session, as text.
fn whole(alloc: Global, session: &Session) -> Result<String, AllocError> {
    let scene = session.scene();
    let (nodes, edges) = (scene.nodes(), scene.edges());
    let (settings, answers) = (scene.settings(), session.book().answers());
    format!(in alloc; "{nodes:?} {edges:?} {settings:?} {answers:?}")
}

/// Whether the step has its expected result in a session that had this sight and this text when it
/// was opened.
fn is_right<R: Threads + Sync>(
    rt: Option<&R>,
    alloc: Global,
    session: &mut Session,
    opened: (Sight, &str),
    step: Step,
) -> Result<bool, AllocError> {
    let answer = answer(rt, session, step);
    let seen = look(session);
    let text = whole(alloc, session)?;
    let as_opened = (seen, text.as_str()) == opened;
    Ok(match step {
        Step::Made(_, wanted) => answer == Ok(()) && is_wanted(as_opened, seen, wanted),
        Step::Refused(_, fault) => answer == Err(fault) && as_opened,
        Step::Edit(_, fault) => answer == Err(SessionFault::Edit(fault)) && as_opened,
    })
}

/// The first of the steps with another result.
fn wrong_step<R: Threads + Sync>(
    rt: Option<&R>,
    alloc: Global,
    session: &mut Session,
    steps: &[Step],
) -> Result<Option<usize>, AllocError> {
    let seen = look(session);
    let text = whole(alloc, session)?;
    for (place, step) in steps.iter().enumerate() {
        if !is_right(rt, alloc, session, (seen, text.as_str()), *step)? {
            return Ok(Some(place));
        }
    }
    Ok(None)
}

/// The result of steps: the first one with another result than expected, the number of nudged lines
/// at the end with the connector of the first one, and the count of the tally.
#[derive(Clone, Copy, PartialEq, Eq)]
struct Outcome {
    wrong: Option<usize>,
    lines: (usize, Option<u32>),
    searches: u64,
}

/// The result of the steps in a session on the drawing.
fn reported<R: Threads + Sync>(
    rt: Option<&R>,
    alloc: Global,
    drawing: Drawing,
    steps: &[Step],
) -> Result<Outcome, SceneFault> {
    let mut scene = Scene::new(alloc);
    let drawn = draw(&mut scene, drawing);
    let Ok(mut session) = open(rt, alloc, scene) else {
        return Err(SceneFault::Memory);
    };
    let wrong = wrong_step(rt, alloc, &mut session, steps);
    let lines = lines(&session);
    let searches = session.into_tally().count();
    drawn?;
    let (Ok(wrong), Ok(lines)) = (wrong, lines) else {
        return Err(SceneFault::Memory);
    };
    Ok(Outcome {
        wrong,
        lines,
        searches,
    })
}

/// Edits that the small scene refuses, and why.
const REFUSED_EDITS: &[Step] = &[
    Step::Edit(Ask::Node(1, 0, 20_000), SceneFault::NodeExists { id: 1 }),
    Step::Edit(Ask::Node(4, 0, -1), SceneFault::OutOfRange { word: 5 }),
    Step::Edit(
        Ask::Node(4, FAR, 20_000),
        SceneFault::OutOfRange { word: 3 },
    ),
    Step::Edit(Ask::Move(4, 0), SceneFault::UnknownNode { id: 4 }),
    Step::Edit(Ask::Move(1, FAR), SceneFault::OutOfRange { word: 3 }),
    Step::Edit(Ask::Size(4, 0), SceneFault::UnknownNode { id: 4 }),
    Step::Edit(Ask::Size(1, -1), SceneFault::OutOfRange { word: 3 }),
    Step::Edit(Ask::Size(1, 0), SceneFault::PinOutside { place: 1 }),
    Step::Edit(Ask::DropNode(4), SceneFault::UnknownNode { id: 4 }),
    Step::Edit(Ask::DropNode(2), SceneFault::NodeInUse { edge: 1 }),
    Step::Edit(Ask::Pin(4, 1, 0), SceneFault::UnknownNode { id: 4 }),
    Step::Edit(Ask::Pin(1, 0, 0), SceneFault::OutOfRange { word: 3 }),
    Step::Edit(Ask::Pin(1, 1, 10_001), SceneFault::PinOutside { place: 2 }),
    Step::Edit(Ask::Unpin(4, 1), SceneFault::UnknownNode { id: 4 }),
    Step::Edit(Ask::Unpin(1, 2), SceneFault::NoSuchPlace { place: 2 }),
    Step::Edit(Ask::Unpin(1, 1), SceneFault::PinInUse { edge: 1 }),
    Step::Edit(Ask::Edge(1, 4, 0), SceneFault::UnknownNode { id: 4 }),
    Step::Edit(Ask::Edge(1, 1, 0), SceneFault::SameNode { id: 1 }),
    Step::Edit(Ask::Edge(2, 1, 8), SceneFault::UnknownPinClass { class: 8 }),
    Step::Edit(Ask::Cut(9), SceneFault::UnknownEdge { number: 9 }),
    Step::Edit(Ask::Classes(9, 0), SceneFault::UnknownEdge { number: 9 }),
    Step::Edit(Ask::Classes(1, 8), SceneFault::UnknownPinClass { class: 8 }),
    Step::Edit(Ask::Via(9, 1, 0), SceneFault::UnknownEdge { number: 9 }),
    Step::Edit(Ask::Via(1, 4, 0), SceneFault::NoSuchPlace { place: 4 }),
    Step::Edit(Ask::Via(1, 1, FAR), SceneFault::OutOfRange { word: 4 }),
    Step::Edit(Ask::Unvia(9, 1), SceneFault::UnknownEdge { number: 9 }),
    Step::Edit(Ask::Unvia(1, 3), SceneFault::NoSuchPlace { place: 3 }),
    Step::Edit(Ask::Penalty(-1), SceneFault::OutOfRange { word: 3 }),
    Step::Refused(
        &[
            Call::Begin,
            Call::Edit(Ask::Via(1, 1, 0)),
            Call::Edit(Ask::Via(1, 1, 0)),
            Call::Edit(Ask::Via(1, 1, 0)),
        ],
        SessionFault::Edit(SceneFault::TooMany { limit: 4 }),
    ),
];

/// Further than a scene may extend.
const FAR: i64 = 2_000_000_000;

/// Calls of which the last is refused, and why.
const REFUSED_CALLS: &[Step] = &[
    Step::Refused(&[Call::Edit(Ask::Move(2, 0))], SessionFault::NoTransaction),
    Step::Refused(&[Call::Commit], SessionFault::NoTransaction),
    Step::Refused(&[Call::Abort], SessionFault::NoTransaction),
    Step::Refused(&[Call::Undo], SessionFault::NothingToUndo),
    Step::Refused(&[Call::Redo], SessionFault::NothingToRedo),
    Step::Refused(&[Call::Begin, Call::Begin], SessionFault::AlreadyOpen),
    Step::Refused(&[Call::Begin, Call::Undo], SessionFault::AlreadyOpen),
    Step::Refused(&[Call::Begin, Call::Redo], SessionFault::AlreadyOpen),
    Step::Refused(
        &[
            Call::Begin,
            Call::Edit(Ask::Edge(3, 2, 0)),
            Call::Abort,
            Call::Abort,
        ],
        SessionFault::NoTransaction,
    ),
];

/// Calls that go back and forth.
const PASSED: &[Step] = &[
    Step::Made(&[], Wanted::Moved(100_000, 90_000, 1)),
    Step::Made(
        &[Call::Begin, Call::Edit(Ask::Move(2, 120_000)), Call::Commit],
        Wanted::Moved(120_000, 110_000, 2),
    ),
    Step::Made(&[Call::Undo], Wanted::Moved(100_000, 90_000, 2)),
    Step::Made(&[Call::Redo], Wanted::Moved(120_000, 110_000, 2)),
    Step::Made(
        &[Call::Begin, Call::Edit(Ask::Move(2, 0))],
        Wanted::Working(0, 120_000),
    ),
    Step::Made(&[Call::Abort], Wanted::Moved(120_000, 110_000, 2)),
];

/// An open transaction is dropped; without one nothing changes.
const GIVEN_UP: &[Step] = &[
    Step::Made(
        &[
            Call::Begin,
            Call::Edit(Ask::Move(2, 120_000)),
            Call::Edit(Ask::Edge(3, 2, 0)),
            Call::GiveUp,
        ],
        Wanted::AsOpened,
    ),
    Step::Made(&[Call::GiveUp], Wanted::AsOpened),
];

/// Calls on the second box alone, and the number of lines and crossings that were written into the
/// graph after them.
///
/// The box has 8 lines: that of each side, through the whole sheet, and one outward from each port.
/// They cross at its corners and at its ports, so there are 8 crossings. If it moves east, the
/// lines of its upper and its lower side stay; the other 6 are new, and so is each crossing.
const WRITTEN: &[Step] = &[
    Step::Made(&[], Wanted::Written(16)),
    Step::Made(&EAST, Wanted::Written(30)),
    Step::Made(&[Call::Begin, Call::Commit], Wanted::Written(30)),
    Step::Made(&EAST, Wanted::Written(30)),
    Step::Made(&[Call::Undo, Call::Undo], Wanted::Written(30)),
    Step::Made(&[Call::Undo], Wanted::Written(44)),
    Step::Made(&[Call::Redo], Wanted::Written(58)),
];

/// The second box moves east.
const EAST: [Call; 3] = [Call::Begin, Call::Edit(Ask::Move(2, 100_000)), Call::Commit];

/// Steps in a session on the drawing, and the number of searches in all.
#[derive(Clone, Copy)]
struct Row {
    name: &'static str,
    drawing: Drawing,
    steps: &'static [Step],
    lines: (usize, Option<u32>),
    searches: u64,
}

const ROWS: [Row; 5] = [
    Row {
        name: "edits that are refused",
        drawing: Drawing::Small,
        steps: REFUSED_EDITS,
        lines: (1, Some(1)),
        searches: 1,
    },
    Row {
        name: "calls that are refused",
        drawing: Drawing::Small,
        steps: REFUSED_CALLS,
        lines: (1, Some(1)),
        searches: 1,
    },
    Row {
        name: "back and forth",
        drawing: Drawing::Small,
        steps: PASSED,
        lines: (1, Some(1)),
        searches: 2,
    },
    Row {
        name: "what is open is given up",
        drawing: Drawing::Small,
        steps: GIVEN_UP,
        lines: (1, Some(1)),
        searches: 1,
    },
    Row {
        name: "new lines are written",
        drawing: Drawing::OneBox,
        steps: WRITTEN,
        lines: (0, None),
        searches: 0,
    },
];

/// Whether the row has its result.
fn is_row_right<R: Threads + Sync>(rt: Option<&R>, alloc: Global, row: &Row) -> bool {
    let wanted = Outcome {
        wrong: None,
        lines: row.lines,
        searches: row.searches,
    };
    reported(rt, alloc, row.drawing, row.steps) == Ok(wanted)
}

#[test]
fn answers_calls(rt: HostRuntime) {
    for row in &ROWS {
        assert!(rt; is_row_right(Some(&rt), rt.alloc(), row), "{}", row.name);
        assert!(rt;
            is_row_right::<HostRuntime>(None, rt.alloc(), row),
            "{}, alone",
            row.name
        );
    }
}
