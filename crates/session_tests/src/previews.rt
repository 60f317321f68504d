//! The answers to proposals, asked of a session, which stays as it is.
ghost use Rattle.std.specs.Prelude.{◌≤◌, All, IfOk, length};
ghost use Rattle.preview.specs.Previews.{IsProposable};

use crate::asks::{Ask, Drawing, draw, edit_of, look};
use par_route::{CountGate, HoldGate, OpenGate};
use route_book::Book;
use route_session::{MOST_PROPOSALS, Previewed, Proposal, Session};
use scene_model::Edits;
use scene_store::{Scene, SceneFault};
use std::alloc::{AllocError, Global};
use std::thread::Threads;

/// What is compared of an answer.
#[derive(Clone, Copy, PartialEq, Eq)]
enum Outcome {
    /// The number of searches, the place of the second box, and the costs of the first two connectors.
    Committed(u64, Option<i64>, (Option<u64>, Option<u64>)),
    /// The place of the edit that is refused, and why.
    Refused(u32, SceneFault),
}

/// The cost of the connector's route, if it has one.
fn cost(book: &Book, edge: u32) -> Option<u64> {
    let answer = book.answer(edge);
    let route = answer.and_then(|answer| answer.route.as_ref());
    route.map(|route| route.cost)
}

fn seen(answer: &Previewed) -> Outcome {
    match answer {
        Previewed::Committed {
            scene,
            book,
            searched,
        } => Outcome::Committed(
            *searched,
            scene.node(2).map(|node| node.x),
            (cost(book, 1), cost(book, 2)),
        ),
        Previewed::Refused { place, fault } => Outcome::Refused(*place, *fault),
    }
}

/// Whether these are the answers.
fn are_seen(answers: &[Previewed], wanted: &[Outcome]) -> bool {
    answers.len() == wanted.len()
        && answers
            .iter()
            .zip(wanted)
            .all(|(answer, wanted)| seen(answer) == *wanted)
}

/// The first edits as a proposal: 10 at most.
fn proposal(alloc: Global, asks: &[Ask]) -> Result<Proposal, AllocError>
    ensures { IfOk result IsProposable }
{
    let mut edits = Vec::new(alloc);
    for ask in &asks[..asks.len().min(10)] {
        edits.push(edit_of(*ask))?;
    }
    Ok(Proposal {
        edits: Edits(edits),
    })
}

/// The first proposals with these edits: 64 at most.
fn proposals(alloc: Global, asked: &[&[Ask]]) -> Result<Vec<Proposal>, AllocError>
    ensures each { IfOk result (λ proposals. All IsProposable proposals.items) }
    ensures few { IfOk result (λ proposals. length proposals.items ≤ 64) }
{
    let mut proposals = Vec::new(alloc);
    for asks in &asked[..asked.len().min(MOST_PROPOSALS)] {
        proposals.push(proposal(alloc, asks)?)?;
    }
    Ok(proposals)
}

/// A drawing, proposals that are asked of it, and their answers.
#[derive(Clone, Copy)]
struct Row {
    name: &'static str,
    drawing: Drawing,
    asked: &'static [&'static [Ask]],
    wanted: &'static [Outcome],
}

/// The first number of workers with which the session answers otherwise, 5 if it does without threads, or 0.
fn wrong_workers<R: Threads + Sync>(
    rt: &R,
    alloc: Global,
    session: &Session,
    row: &Row,
) -> Result<u32, AllocError> {
    let proposals = proposals(alloc, row.asked)?;
    let alone = session.preview_alone(&proposals)?;
    if !are_seen(&alone, row.wanted) {
        return Ok(5);
    }
    for workers in 1..=4 {
        let answers = session.preview(rt, &proposals, workers, &OpenGate)?;
        if !are_seen(&answers, row.wanted) {
            return Ok(workers);
        }
    }
    Ok(0)
}

/// How two workers pass gates with two proposals: the number of pieces, the sum of their numbers, and whether both
/// pieces were under way at once.
fn passed<R: Threads + Sync>(
    rt: &R,
    alloc: Global,
    session: &Session,
) -> Result<(u32, u32, bool), AllocError> {
    let asked: [&[Ask]; 2] = [&[Ask::Move(2, 120_000)], &[]];
    let proposals = proposals(alloc, &asked)?;
    let count = CountGate::new();
    let _counted = session.preview(rt, &proposals, 2, &count)?;
    let hold = HoldGate::new();
    let _held = session.preview(rt, &proposals, 2, &hold)?;
    Ok((count.pieces(), count.numbers(), hold.has_seen_both()))
}

/// What is asked of a session.
#[derive(Clone, Copy)]
enum Question {
    /// The answers to the proposals, for each number of workers and without threads.
    Answers(Row),
    /// How pieces pass gates.
    Gates,
}

/// The result of a question: whether the session stayed as it was, and a number that is 0 where all is right.
#[derive(Clone, Copy, PartialEq, Eq)]
struct Verdict {
    stays: bool,
    wrong: u32,
}

fn answer<R: Threads + Sync>(
    rt: &R,
    alloc: Global,
    session: &Session,
    question: &Question,
) -> Result<u32, AllocError> {
    match question {
        Question::Answers(row) => wrong_workers(rt, alloc, session, row),
        Question::Gates => {
            let passed = passed(rt, alloc, session)?;
            Ok(u32::from(passed != (2, 3, true)))
        }
    }
}

/// The result of the question in a session on the drawing.
fn reported<R: Threads + Sync>(
    rt: &R,
    alloc: Global,
    drawing: Drawing,
    question: &Question,
) -> Result<Verdict, SceneFault> {
    let mut scene = Scene::new(alloc);
    let drawn = draw(&mut scene, drawing);
    let Ok(session) = Session::open(rt, alloc, scene, 1, &OpenGate) else {
        return Err(SceneFault::Memory);
    };
    let opened = look(&session);
    let answered = answer(rt, alloc, &session, question);
    let stays = look(&session) == opened;
    let _tally = session.into_tally();
    drawn?;
    let Ok(wrong) = answered else {
        return Err(SceneFault::Memory);
    };
    Ok(Verdict { stays, wrong })
}

// Where the second box stands.
const THERE: Option<i64> = Some(100_000);

/// The costs are those that an independent program finds.
const ROWS: [Row; 5] = [
    Row {
        name: "nothing is proposed",
        drawing: Drawing::Small,
        asked: &[],
        wanted: &[],
    },
    Row {
        name: "no edit, a move, a new connector, a pin that is used at once, and there and back",
        drawing: Drawing::Small,
        asked: &[
            &[],
            &[Ask::Move(2, 120_000)],
            &[Ask::Edge(3, 2, 0)],
            &[Ask::Pin(3, 9, 10_000), Ask::Edge(3, 2, 9)],
            &[Ask::Move(2, 120_000), Ask::Move(2, 100_000)],
        ],
        wanted: &[
            Outcome::Committed(0, THERE, (Some(90_000), None)),
            Outcome::Committed(1, Some(120_000), (Some(110_000), None)),
            Outcome::Committed(1, THERE, (Some(90_000), Some(100_000))),
            Outcome::Committed(1, THERE, (Some(90_000), Some(296_000))),
            Outcome::Committed(0, THERE, (Some(90_000), None)),
        ],
    },
    Row {
        name: "a connector with another number, another penalty, and no connector",
        drawing: Drawing::Small,
        asked: &[
            &[Ask::Cut(1), Ask::Edge(1, 2, 7)],
            &[Ask::Penalty(1_000)],
            &[Ask::Cut(1), Ask::DropNode(2)],
        ],
        wanted: &[
            Outcome::Committed(1, THERE, (None, Some(90_000))),
            Outcome::Committed(1, THERE, (Some(90_000), None)),
            Outcome::Committed(0, None, (None, None)),
        ],
    },
    Row {
        name: "edits that are refused, and edits after them",
        drawing: Drawing::Small,
        asked: &[
            &[Ask::DropNode(1)],
            &[Ask::Move(2, 120_000), Ask::DropNode(1), Ask::DropNode(7)],
            &[Ask::Cut(1), Ask::DropNode(1), Ask::Move(1, 0)],
        ],
        wanted: &[
            Outcome::Refused(1, SceneFault::NodeInUse { edge: 1 }),
            Outcome::Refused(2, SceneFault::NodeInUse { edge: 1 }),
            Outcome::Refused(3, SceneFault::UnknownNode { id: 1 }),
        ],
    },
    Row {
        name: "a connector without a route is searched again where a solid goes",
        drawing: Drawing::Covered,
        asked: &[
            &[Ask::Move(3, 300_000)],
            &[],
            &[Ask::Node(4, 300_000, 20_000)],
        ],
        wanted: &[
            Outcome::Committed(1, THERE, (Some(100_000), None)),
            Outcome::Committed(0, THERE, (None, None)),
            Outcome::Committed(0, THERE, (None, None)),
        ],
    },
];

/// Whether the session stays as it was, and all is right.
fn is_right<R: Threads + Sync>(
    rt: &R,
    alloc: Global,
    drawing: Drawing,
    question: &Question,
) -> bool {
    let right = Verdict {
        stays: true,
        wrong: 0,
    };
    reported(rt, alloc, drawing, question) == Ok(right)
}

#[test]
fn answers_proposals(rt: HostRuntime) {
    for &row in &ROWS {
        let question = Question::Answers(row);
        assert!(rt;
            is_right(&rt, rt.alloc(), row.drawing, &question),
            "{}",
            row.name
        );
    }
    assert!(rt;
        is_right(&rt, rt.alloc(), Drawing::Small, &Question::Gates),
        "two pieces"
    );
}
