//! Answers in the order of their connectors' numbers, and found by those numbers.
ghost use Rattle.std.specs.Prelude.{◌≡◌, All, IfOk, IsSome, Some, length, map, option_copied};
ghost use Rattle.std.specs.List.{AllZip};
ghost use Rattle.scene_model.specs.Stale.{answer_of};

use crate::exchange::exchange;
use std::alloc::{AllocError, Global};
use std::marker::Model;
use std::snapshot::Snapshot;
use walk_model::{Answer, Route};

/// Answers in the order of their connectors' numbers.
#[derive(Drop)]
pub(crate) struct AnswerList {
    items: Vec<Answer>,
}

impl Model for AnswerList {
    ghost use Rattle.std.specs.Prelude.{List};
    ghost use Rattle.walk_model.specs.declared.route.Answer.{Answer};
    ghost use Rattle.route_book.specs.Exchange.{AreByRisingEdge};

    ghost Value = { List Answer };

    ghost view = { λ a. a.items.items };

    ghost invariant = { λ a. AreByRisingEdge a.items.items };
}

impl AnswerList {
    ghost use Rattle.route_book.specs.Differ.{Differ};
    ghost use Rattle.route_book.specs.Exchange.{AreByRisingEdge};
    ghost use Rattle.route_book.specs.Search.{AreRising, newer};

    /// The routes as answers of the connectors with these numbers.
    pub(crate) fn of_routes(
        alloc: Global,
        numbers: &[u32],
        mut routes: Vec<Option<Route>>,
    ) -> Result<AnswerList, AllocError>
        requires order { AreRising numbers.now }
        requires same_length { length routes.items ≡ length numbers.now }
        ensures edges { IfOk result (λ a. map (λ x. x.edge) a ≡ numbers.now) }
        ensures routes { IfOk result (λ a. map (λ x. x.route) a ≡ routes.items) }
    {
        let mut items = Vec::with_capacity(alloc, numbers.len())?;
        for (place, number) in numbers.iter().enumerate() {
            let route = routes[place].take();
            items.push(Answer {
                edge: *number,
                route,
            })?;
        }
        Ok(AnswerList { items })
    }

    /// The answers, in order.
    pub(crate) fn as_slice(&self) -> &[Answer]
        ensures { result.now ≡ self.now }
    {
        &self.items
    }

    /// The law that the answers are in order. Does nothing.
    pub(crate) fn rising(&self)
        ensures { AreByRisingEdge self.now }
    {
        let _ = &self.items;
    }

    /// Exchanges the answers at the places with those that are away. Takes no memory.
    pub(crate) fn exchange(
        &mut self,
        places: &[usize],
        away: &mut [Answer],
        there: &Snapshot<AnswerList>,
    )
        requires differ { Differ self.old there.now.value places.now away.old }
        requires order { AreByRisingEdge there.now.value }
        ensures answers { self.new ≡ there.now.value }
        ensures away { Differ there.now.value self.old places.now away.new }
    {
        exchange(&mut self.items, places, away, there);
    }

    /// The answer of the connector with the number.
    pub(crate) fn get(&self, number: u32) -> Option<&Answer>
        ensures { option_copied result ≡ answer_of self.now number }
    {
        match self
            .items
            .binary_search_by_key(&number, |answer| answer.edge)
        {
            Ok(place) => Some(&self.items[place]),
            Err(_) => None,
        }
    }

    /// The answer in `found` for the connector with the number, or otherwise the answer in this
    /// list.
    fn newer<'a>(&'a self, found: &'a AnswerList, number: u32) -> Option<&'a Answer>
        ensures { option_copied result ≡ newer found.now self.now number }
    {
        match found.get(number) {
            Some(answer) => Some(answer),
            None => self.get(number),
        }
    }

    /// For each of the connectors the answer in `found`, or otherwise the answer in this list.
    pub(crate) fn merged(
        &self,
        alloc: Global,
        numbers: &[u32],
        found: &AnswerList,
    ) -> Result<AnswerList, AllocError>
        requires order { AreRising numbers.now }
        requires known { All (λ number. IsSome (newer found.now self.now number)) numbers.now }
        ensures { IfOk result (AllZip (λ number a. newer found.now self.now number ≡ Some a) numbers.now) }
    {
        let mut items = Vec::with_capacity(alloc, numbers.len())?;
        for number in numbers {
            let answer = self.newer(found, *number).unwrap();
            items.push(answer.copy(alloc)?)?;
        }
        Ok(AnswerList { items })
    }

    /// A copy of the answers.
    pub(crate) fn copy(&self, alloc: Global) -> Result<AnswerList, AllocError>
        ensures { IfOk result (λ a. a ≡ self.now) }
    {
        let mut items = Vec::with_capacity(alloc, self.items.len())?;
        for answer in &self.items {
            items.push(answer.copy(alloc)?)?;
        }
        Ok(AnswerList { items })
    }
}
