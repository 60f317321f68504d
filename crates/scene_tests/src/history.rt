//! Commits, undos and redos beyond the depth of the history.

use scene_model::{Edits, Inverses};
use std::alloc::Global;
use undo_log::{Step, UndoLog};

/// A step without edits, with the number.
fn step(alloc: Global, number: u32) -> Step<u32> {
    Step {
        back: Inverses(Vec::new(alloc)),
        forth: Edits(Vec::new(alloc)),
        changes: number,
    }
}

/// The number of a step.
fn number_of(step: Option<&Step<u32>>) -> Option<u32> {
    let step = step?;
    Some(step.changes)
}

/// Adds a step with the number to the past, and returns the number of the dropped step.
fn pushed(log: &mut UndoLog<u32>, alloc: Global, number: u32) -> Option<u32> {
    match log.push(step(alloc, number)) {
        Some(oldest) => Some(oldest.changes),
        None => None,
    }
}

/// The numbers of the latest past step and of the next future step.
fn next_steps(log: &UndoLog<u32>) -> (Option<u32>, Option<u32>) {
    (number_of(log.past_step()), number_of(log.future_step()))
}

/// Goes back, returns the number of the step, and gives it another.
fn back(log: &mut UndoLog<u32>, number: u32) -> Option<u32> {
    let lent = log.go_back()?;
    let old = lent.changes;
    lent.changes = number;
    Some(old)
}

/// Goes forward, and returns the number of the step.
fn forth(log: &mut UndoLog<u32>) -> Option<u32> {
    let lent = log.go_forth()?;
    Some(lent.changes)
}

/// Adds the steps 1 to 100 to the past, and returns the first of them that drops another.
fn push_hundred(log: &mut UndoLog<u32>, alloc: Global) -> Option<u32> {
    for number in 1..101 {
        if pushed(log, alloc, number).is_some() {
            return Some(number);
        }
    }
    None
}

/// Goes back over the steps 101 to 2, numbers them 1002 to 1101, and returns the first of these
/// numbers whose step was another.
fn back_over_hundred(log: &mut UndoLog<u32>) -> Option<u32> {
    for number in 1002..1102 {
        if back(log, number) != Some(1103 - number) {
            return Some(number);
        }
    }
    None
}

/// What is done with the history.
#[derive(Clone, Copy)]
enum Act {
    Look,
    /// Back, where the step is given the number.
    Back(u32),
    Forth,
    Push(u32),
    PushHundred,
    BackOverHundred,
}

/// Does this with the history, and returns the number that comes of it.
fn done(log: &mut UndoLog<u32>, alloc: Global, act: Act) -> Option<u32> {
    match act {
        Act::Look => None,
        Act::Back(number) => back(log, number),
        Act::Forth => forth(log),
        Act::Push(number) => pushed(log, alloc, number),
        Act::PushHundred => push_hundred(log, alloc),
        Act::BackOverHundred => back_over_hundred(log),
    }
}

/// What is done, the number that comes of it, and the latest past step and the next future step
/// after it.
type Row = (Act, Option<u32>, (Option<u32>, Option<u32>));

const ROWS: [Row; 10] = [
    (Act::Look, None, (None, None)),
    (Act::Back(1), None, (None, None)),
    (Act::Forth, None, (None, None)),
    (Act::PushHundred, None, (Some(100), None)),
    (Act::Push(101), Some(1), (Some(101), None)),
    (Act::BackOverHundred, None, (None, Some(1101))),
    (Act::Back(1), None, (None, Some(1101))),
    (Act::Forth, Some(1101), (Some(1101), Some(1100))),
    (Act::Push(7), None, (Some(7), None)),
    (Act::Forth, None, (Some(7), None)),
];

/// The place of the first row that goes otherwise.
fn first_wrong(log: &mut UndoLog<u32>, alloc: Global) -> Option<usize> {
    for (place, &(act, number, next)) in ROWS.iter().enumerate() {
        if done(log, alloc, act) != number || next_steps(log) != next {
            return Some(place);
        }
    }
    None
}

#[test]
fn keeps_a_hundred_steps(rt: HostRuntime) {
    let mut log = UndoLog::new(rt.alloc()).expect(&rt, "no memory for the history");
    assert_eq!(rt; first_wrong(&mut log, rt.alloc()), None);
}
