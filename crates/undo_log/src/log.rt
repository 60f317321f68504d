//! The past steps and the future steps, in two rings.
ghost use Rattle.std.specs.Borrow.{sem};
ghost use Rattle.std.specs.Option.{option_copied_mut};
ghost use Rattle.std.specs.Prelude.{◌≡◌, ◌∷◌, [], take, slice_get, option_copied, IfOk};

use crate::step::Step;
use circular_buffer::HeapCircularBuffer;
use std::alloc::{AllocError, Global};
use std::marker::Model;

/// The greatest number of steps that are kept, past and future together.
const MOST_STEPS: usize = 100;

/// The history: the past steps, the latest first, and the future (undone) steps, the next first.
///
/// There are at most 100 of both together, and each ring has room for 100, so that going back and
/// forth never loses a step that is kept. Only `new` takes memory, and only `new` can fail.
#[derive(Drop)]
pub struct UndoLog<C: Drop> {
    // The latest comes first.
    past: HeapCircularBuffer<Step<C>>,
    // The next comes first.
    future: HeapCircularBuffer<Step<C>>,
}

impl<C: Drop> Model for UndoLog<C> {
    ghost use Rattle.std.specs.Prelude.{◌≡◌, ◌+◌, ◌≤◌, length};
    ghost use Rattle.undo_log.specs.Log.{Log, most_steps};

    ghost Value = { Log C };

    ghost view = { λ a. record { past = a.past.items; future = a.future.items } };

    ghost invariant = { λ a. (a.past.capacity ≡ most_steps) × (a.future.capacity ≡ most_steps)
        × (length a.past.items + length a.future.items ≤ most_steps) };
}

impl<C: Drop> UndoLog<C> {
    ghost use Rattle.undo_log.specs.Lending.{LendsBack, LendsForth};
    ghost use Rattle.undo_log.specs.Log.{most_steps};

    /// A history without steps, with room for 100. The only error is out of memory, and no later
    /// call takes memory.
    pub fn new(alloc: Global) -> Result<UndoLog<C>, AllocError>
        ensures past { IfOk result (λ l. l.past ≡ []) }
        ensures future { IfOk result (λ l. l.future ≡ []) }
    {
        Ok(UndoLog {
            past: HeapCircularBuffer::with_capacity(alloc, MOST_STEPS)?,
            future: HeapCircularBuffer::with_capacity(alloc, MOST_STEPS)?,
        })
    }

    /// The latest past step, if there is one.
    pub fn past_step(&self) -> Option<&Step<C>>
        ensures { option_copied result ≡ slice_get self.now.past 0 }
    {
        self.past.front()
    }

    /// The next future step, if there is one.
    pub fn future_step(&self) -> Option<&Step<C>>
        ensures { option_copied result ≡ slice_get self.now.future 0 }
    {
        self.future.front()
    }

    /// Adds a step to the past, as the latest, and drops all future steps. Returns the oldest past
    /// step exactly if there were already 100.
    pub fn push(&mut self, step: Step<C>) -> Option<Step<C>>
        ensures past { self.new.past ≡ take most_steps (step ∷ self.old.past) }
        ensures future { self.new.future ≡ [] }
        ensures oldest { result ≡ slice_get (step ∷ self.old.past) most_steps }
    {
        self.future.clear();
        self.past.push_front(step)
    }

    /// Moves the latest past step to the front of the future, and lends it there. If there is no
    /// past step it returns `None`, and everything stays as it was.
    pub fn go_back(&mut self) -> Option<&mut Step<C>>
        ensures* writes_back { sem 𝓛 (LendsBack C.row self.entry result) }
        ensures value { option_copied_mut result ≡ slice_get self.old.past 0 }
    {
        let latest = self.past.pop_front()?;
        self.future.push_front(latest);
        self.future.get_mut(0)
    }

    /// Moves the next future step to the front of the past, and lends it there. If there is no
    /// future step it returns `None`, and everything stays as it was.
    pub fn go_forth(&mut self) -> Option<&mut Step<C>>
        ensures* writes_back { sem 𝓛 (LendsForth C.row self.entry result) }
        ensures value { option_copied_mut result ≡ slice_get self.old.future 0 }
    {
        let next = self.future.pop_front()?;
        self.past.push_front(next);
        self.past.get_mut(0)
    }
}
