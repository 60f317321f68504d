//! The exchange of some answers of a list in place.
ghost use Rattle.std.specs.Prelude.{◌≡◌, IfOk, IsTrue, length};
ghost use Rattle.route_book.specs.Differ.{Differ};

use crate::answers::AnswerList;
use std::alloc::{AllocError, Global};
use std::mem;
use std::snapshot::Snapshot;
use walk_model::{Answer, Route};

/// Exchanges the answers at the places with those that are away, which makes the one list of the
/// other. Takes no memory.
pub(crate) fn exchange(
    items: &mut [Answer],
    places: &[usize],
    away: &mut [Answer],
    _there: &Snapshot<AnswerList>,
)
    requires { Differ items.old _there.now.value places.now away.old }
    ensures items { items.new ≡ _there.now.value }
    ensures away { Differ _there.now.value items.old places.now away.new }
{
    for k in 0..places.len() {
        mem::swap(&mut items[places[k]], &mut away[k]);
    }
}

/// The answers of a list that differ from those of another one, and their places, which rise.
#[derive(Drop)]
pub(crate) struct Differing {
    pub(crate) places: Vec<usize>,
    pub(crate) away: Vec<Answer>,
}

/// Whether the test finds both routes the same.
fn is_same_route(one: &Route, other: &Route) -> bool
    ensures { IsTrue result → one.now ≡ other.now }
{
    if one.start != other.start {
        return false;
    }
    if one.end != other.end {
        return false;
    }
    if one.cost != other.cost {
        return false;
    }
    one.points.as_slice() == other.points.as_slice()
}

/// Whether the test finds both answers the same.
fn is_same(one: &Answer, other: &Answer) -> bool
    ensures { IsTrue result → one.now ≡ other.now }
{
    if one.edge != other.edge {
        return false;
    }
    match (&one.route, &other.route) {
        (Some(mine), Some(theirs)) => is_same_route(mine, theirs),
        (None, None) => true,
        _ => false,
    }
}

/// Copies of the answers of the second list that differ from those of the first. Both lists are
/// equally long.
pub(crate) fn compared(
    alloc: Global,
    here: &[Answer],
    there: &[Answer],
) -> Result<Differing, AllocError>
    requires { length there.now ≡ length here.now }
    ensures { IfOk result (λ d. Differ here.now there.now d.places.items d.away.items) }
{
    let mut places = Vec::new(alloc);
    let mut away = Vec::new(alloc);
    for place in 0..here.len() {
        if is_same(&here[place], &there[place]) {
            continue;
        }
        places.push(place)?;
        away.push(there[place].copy(alloc)?)?;
    }
    Ok(Differing { places, away })
}

/// What is kept of another list: all of it, or the answers that differ.
#[derive(Drop)]
pub(crate) enum Kept {
    Whole(AnswerList),
    Part(Differing),
}

impl Kept {
    ghost use Rattle.route_book.specs.Keeping.{IsKept};

    /// What is to be kept of the second list: the answers that differ, if both are equally long.
    pub(crate) fn of(
        alloc: Global,
        here: &AnswerList,
        there: AnswerList,
    ) -> Result<Kept, AllocError>
        ensures { IfOk result (IsKept here.now there) }
    {
        if here.as_slice().len() != there.as_slice().len() {
            return Ok(Kept::Whole(there));
        }
        here.rising();
        there.rising();
        let differing = compared(alloc, here.as_slice(), there.as_slice())?;
        Ok(Kept::Part(differing))
    }

    /// Makes the one list of the other, and keeps what makes this one of it again. Takes no memory.
    pub(crate) fn exchange(&mut self, answers: &mut AnswerList, there: &Snapshot<AnswerList>)
        requires { IsKept answers.old there.now.value self.old }
        ensures answers { answers.new ≡ there.now.value }
        ensures kept { IsKept there.now.value answers.old self.new }
    {
        match self {
            Kept::Whole(list) => mem::swap(answers, list),
            Kept::Part(part) => answers.exchange(&part.places, &mut part.away, there),
        }
    }
}
