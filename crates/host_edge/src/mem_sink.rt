//! Output in memory.

ghost use Rattle.std.specs.Prelude.{◌≡◌, ◌<◌, ◌≤◌, [], ◌++◌, take, length, min, Some, Ok, IfOk, OnErr, IsErr, IsTrue, ◌==◌, if◌then◌else◌};
ghost use Rattle.host_edge.specs.Count.{NeverFalls, next_count, is_listed};
ghost use Rattle.host_edge.specs.MemSink.{MemSinkState};

use crate::sink::{Sink, WriteFailed};
use std::alloc::Global;
use std::marker::Model;

/// A sink in memory, which exposes its bytes.
///
/// Its calls are counted from 1, except those with an empty piece. The count stays at 2^64 - 1 once
/// it is reached.
#[derive(Debug, Drop)]
pub struct MemSink {
    held: Vec<u8>,
    most: usize,
    fails: Vec<u64>,
    calls: u64,
    faults: u64,
}

impl Model for MemSink {
    ghost use Rattle.std.specs.Prelude.{◌≤◌};
    ghost use Rattle.host_edge.specs.MemSink.{MemSinkState};

    ghost Value = { MemSinkState };

    ghost view = { λ s. record {
      held = s.held.items;
      most = s.most;
      fails = s.fails.items;
      calls = s.calls;
      faults = s.faults;
    } };

    ghost invariant = { λ s. 1 ≤ s.most };
}

impl MemSink {
    /// A sink that takes at most `most` bytes a call, at least 1, and in which the calls with the
    /// numbers in `fails` fail. It holds nothing yet. Takes no memory.
    pub fn new(alloc: Global, most: usize, fails: Vec<u64>) -> MemSink
        requires { 1 ≤ most }
        ensures { result
            ≡ record { held = []; most = most; fails = fails.items; calls = 0; faults = 0 } }
    {
        MemSink {
            held: Vec::new(alloc),
            most,
            fails,
            calls: 0,
            faults: 0,
        }
    }

    /// The bytes that were written.
    pub fn held(&self) -> &[u8]
        ensures { result.now ≡ self.now.held }
    {
        &self.held
    }
}

impl Sink for MemSink {
    ghost held = { λ s. Some s.held };

    ghost faults = { λ s. s.faults };

    fn write(&mut self, bytes: &[u8]) -> Result<usize, WriteFailed>
        // A call takes as many bytes as it may, or counts a fault.
        ensures took { IfOk result (λ n. (n ≡ min self.old.most (length bytes.now)) × (self.new
            ≡ record self.old { held = self.old.held ++ take n bytes.now; calls = self.new.calls })) }
        ensures fault { OnErr result (self.new
            ≡ record self.old { calls = self.new.calls; faults = next_count self.old.faults }) }

        // A call with a piece that is not empty is counted, and fails if its number is in the list.
        ensures counted { self.new.calls
            ≡ (if length bytes.now == 0 then self.old.calls else next_count self.old.calls) }
        ensures listed { 0 < length bytes.now
            → IsTrue (is_listed self.old.fails self.new.calls) → IsErr result }

        // The promises of every sink that the clauses above do not state.
        ensures progress { IfOk result (λ n. 0 < length bytes.now → 0 < n) }
        ensures empty { length bytes.now ≡ 0 → (result ≡ Ok 0) × (self.new ≡ self.old) }
        ensures never_falls { NeverFalls self.old.faults self.new.faults }
    {
        if bytes.is_empty() {
            return Ok(0);
        }
        self.calls = self.calls.saturating_add(1);
        let piece = &bytes[..self.most.min(bytes.len())];
        if self.fails.contains(&self.calls) || self.held.extend_from_slice(piece).is_err() {
            self.faults = self.faults.saturating_add(1);
            return Err(WriteFailed);
        }
        Ok(piece.len())
    }
}
