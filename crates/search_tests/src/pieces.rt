//! How tasks are cut into pieces, and which pieces pass the gate.
//!
//! The tasks have no choices and so no route, on a floor without solids.
ghost use Rattle.std.specs.Prelude.{◌≡◌, ◌≤◌, [], All, IfOk};
ghost use Rattle.par_route.specs.Routes.{MayBeSearched};
ghost use Rattle.search_tests.specs.Idle.{idle_task};

use crate::choices::idle;
use line_arena::LineArena;
use par_route::{CountGate, Gate, HoldGate, route_all, route_each};
use route_search::Tally;
use std::alloc::{AllocError, Global};
use std::test::Fail;
use std::thread::Threads;
use visibility_graph::Graph;
use walk_model::{Route, Task};

fn idle_tasks(alloc: Global, count: u32) -> Result<Vec<Task>, AllocError>
    ensures { IfOk result (λ tasks. All (λ t. t ≡ idle_task) tasks.items) }
{
    let mut tasks = Vec::new(alloc);
    for _ in 0..count {
        tasks.push(idle(alloc))?;
    }
    Ok(tasks)
}

/// The number of answers, of those with a route, and of searches.
type Counts = (usize, usize, u64);

fn counts(answers: Vec<Option<Route>>, searches: u64) -> Counts {
    let routes = answers.iter().filter(|answer| answer.is_some()).count();
    (answers.len(), routes, searches)
}

/// What is counted when the tasks are answered.
fn answered_on<R: Threads + Sync, G: Gate>(
    rt: &R,
    alloc: Global,
    arena: &LineArena,
    tasks: &[Task],
    workers: u32,
    gate: &G,
) -> Result<Counts, AllocError>
    requires some { 1 ≤ workers }
    requires few { workers ≤ 4 }
    requires tasks { All (MayBeSearched arena.now []) tasks.now }
{
    let mut tally = Tally::new();
    let answers = route_all(rt, alloc, arena, &[], tasks, workers, gate, &mut tally)?;
    Ok(counts(answers, tally.count()))
}

/// The same for idle tasks.
fn answered<R: Threads + Sync, G: Gate>(
    rt: &R,
    alloc: Global,
    count: u32,
    workers: u32,
    gate: &G,
) -> Result<Counts, AllocError>
    requires some { 1 ≤ workers }
    requires few { workers ≤ 4 }
{
    let tasks = idle_tasks(alloc, count)?;
    let graph = Graph::empty(alloc);
    answered_on(rt, alloc, graph.arena(), &tasks, workers, gate)
}

/// The same without threads.
fn answered_alone(alloc: Global, count: u32) -> Result<Counts, AllocError> {
    let tasks = idle_tasks(alloc, count)?;
    let graph = Graph::empty(alloc);
    let mut tally = Tally::new();
    let answers = route_each(alloc, graph.arena(), &[], &tasks, &mut tally)?;
    Ok(counts(answers, tally.count()))
}

/// What is counted, and the number of pieces that pass the gate with the sum of their numbers.
fn cut<R: Threads + Sync>(
    rt: &R,
    alloc: Global,
    count: u32,
    workers: u32,
) -> Result<(Counts, u32, u32), AllocError>
    requires some { 1 ≤ workers }
    requires few { workers ≤ 4 }
{
    let gate = CountGate::new();
    let counts = answered(rt, alloc, count, workers, &gate)?;
    Ok((counts, gate.pieces(), gate.numbers()))
}

#[test]
fn cuts_tasks_into_pieces(rt: HostRuntime) -> Result<(), Fail> {
    let rows: [(u32, u32, u32, u32); 6] = [
        (0, 2, 0, 0),
        (1, 4, 1, 1),
        (3, 1, 1, 1),
        (3, 2, 2, 3),
        (3, 4, 3, 6),
        (5000, 4, 4, 10),
    ];
    for (count, workers, pieces, numbers) in rows {
        let want = ((count as usize, 0, u64::from(count)), pieces, numbers);
        assert_eq!(rt;
            cut(&rt, rt.alloc(), count, workers)?,
            want,
            "of {count} by {workers}"
        );
    }
    Ok(())
}

#[test]
fn has_two_pieces_under_way(rt: HostRuntime) -> Result<(), Fail> {
    let gate = HoldGate::new();
    answered(&rt, rt.alloc(), 3, 2, &gate)?;
    assert!(rt; gate.has_seen_both());
    Ok(())
}

#[test]
fn searches_without_threads(rt: HostRuntime) -> Result<(), Fail> {
    assert_eq!(rt; answered_alone(rt.alloc(), 5)?, (5, 0, 5));
    Ok(())
}
