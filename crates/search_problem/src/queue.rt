//! Candidates, and a queue of them.
ghost use Rattle.std.specs.Prelude.{◌≡◌, ◌≤◌, [], ◌∷◌, All, IfSome, IsNone, IsPermutation, OnErr, OnOk};
ghost use Rattle.std.proofs.Props.{props};
ghost use Rattle.std.specs.BinaryHeap.{IsHeap, heap_items};
ghost use Rattle.std.specs.Ordering.{nat_cmp};

use std::alloc::{AllocError, Global};
use std::cmp::Reverse;
use std::collections::BinaryHeap;

/// What a search is still to take, and a lower bound on the cost of a walk by it.
///
/// Candidates are compared by their bounds alone.
#[derive(Clone, Copy, Debug)]
#[derive_where(PartialEq, Eq, PartialOrd, Ord)]
pub struct Candidate<T> {
    pub bound: u64,
    #[derive_where(skip(EqHashOrd))]
    pub item: T,
}

/// Candidates, the least bound first.
#[derive(Drop)]
pub struct Queue<T> {
    pub heap: BinaryHeap<Reverse<Candidate<T>>>,
    ghost ordered: { IsHeap (λ x y. nat_cmp y.0.bound x.0.bound) (heap_items heap) } by { Prim.hlevel props },
}

impl<T: Drop> Queue<T> {
    /// A queue without candidates. Takes no memory.
    pub fn new(alloc: Global) -> Queue<T>
        ensures { heap_items result.heap ≡ [] }
    {
        Queue {
            heap: BinaryHeap::new(alloc),
        }
    }

    /// Adds a candidate. The only error is out of memory, which leaves the queue as it was.
    pub fn push(&mut self, candidate: Candidate<T>) -> Result<(), AllocError>
        ensures ok { OnOk result (IsPermutation (record { 0 = candidate } ∷ heap_items self.old.heap) (heap_items self.new.heap)) }
        ensures err { OnErr result (heap_items self.new.heap ≡ heap_items self.old.heap) }
    {
        self.heap.push(Reverse(candidate))?;
        Ok(())
    }

    /// Removes a candidate with the least bound and returns it.
    pub fn pop(&mut self) -> Option<Candidate<T>>
        ensures rest { IfSome result (λ c. IsPermutation (heap_items self.old.heap) (record { 0 = c } ∷ heap_items self.new.heap)) }
        ensures least { IfSome result (λ c. All (λ d. c.bound ≤ d.0.bound) (heap_items self.new.heap)) }
        ensures none { IsNone result → heap_items self.old.heap ≡ [] }
        ensures empty { IsNone result → heap_items self.new.heap ≡ [] }
    {
        let Reverse(candidate) = self.heap.pop()?;
        Some(candidate)
    }

    /// Removes all candidates.
    pub fn clear(&mut self)
        ensures { heap_items self.new.heap ≡ [] }
    {
        self.heap.clear();
    }
}
