//! Input in memory.
ghost use Rattle.std.specs.Prelude.{◌≡◌, ◌≤◌, ℕ, List, ◌++◌, IfOk, IsErr, IsTrue, OnErr, OnOk, Some, vec_capacity};
ghost use Rattle.host_edge.specs.Count.{NeverFalls, is_listed, next_count};
ghost use Rattle.host_edge.specs.Lines.{IsLineRead};

use crate::line_source::{LineRead, LineSource, ReadFailed};
use crate::reader_lines::read_line;
use std::alloc::{AllocError, Global};
use std::collections::VecDeque;
use std::marker::Model;

/// Input in memory, which exposes its bytes.
///
/// Its calls are counted from 1. The count stays at 2^64 - 1 once it is there.
#[derive(Drop)]
pub struct MemLines {
    bytes: VecDeque<u8>,
    fails: Vec<u64>,
    calls: u64,
    faults: u64,
}

impl Model for MemLines {
    ghost use Rattle.host_edge.specs.MemLines.{MemLinesState};

    ghost Value = { MemLinesState };

    ghost view = { λ s. record {
      bytes = s.bytes.items;
      fails = s.fails.items;
      calls = s.calls;
      faults = s.faults;
    } };
}

impl MemLines {
    /// Input of these bytes, where the calls with the numbers in `fails` fail and read nothing. Its only error is out
    /// of memory.
    pub fn new(alloc: Global, bytes: &[u8], fails: Vec<u64>) -> Result<MemLines, AllocError>
        ensures { IfOk result (λ s. s ≡ record { bytes = bytes.now; fails = fails.items; calls = 0; faults = 0 }) }
    {
        let bytes = VecDeque::from(Vec::from_slice(alloc, bytes)?);
        Ok(MemLines {
            bytes,
            fails,
            calls: 0,
            faults: 0,
        })
    }
}

impl LineSource for MemLines {
    ghost rest = { λ s. Some s.bytes };

    ghost faults = { λ s. s.faults };

    fn next_line(&mut self, line: &mut Vec<u8>, limit: usize) -> Result<LineRead, ReadFailed>
        requires { limit ≤ vec_capacity line.old }
        ensures read { IfOk result (λ read.
            IsLineRead limit self.old.bytes read line.new.items (Some self.new.bytes)) }
        ensures room { vec_capacity line.new ≡ vec_capacity line.old }
        ensures taken { (bytes : List ℕ) × (self.old.bytes ≡ bytes ++ self.new.bytes) }

        // A call fails where it is listed, and then it reads nothing.
        ensures counted { self.new.calls ≡ next_count self.old.calls }
        ensures listed { IsTrue (is_listed self.old.fails self.new.calls) → IsErr result × (self.new.bytes ≡ self.old.bytes) }
        ensures fails_kept { self.new.fails ≡ self.old.fails }

        // A fault is counted exactly if a call fails.
        ensures ok { OnOk result (self.new.faults ≡ self.old.faults) }
        ensures err { OnErr result (self.new.faults ≡ next_count self.old.faults) }
        ensures never_falls { NeverFalls self.old.faults self.new.faults }
    {
        self.calls = self.calls.saturating_add(1);
        if self.fails.contains(&self.calls) {
            self.faults = self.faults.saturating_add(1);
            return Err(ReadFailed);
        }
        let read = read_line(&mut self.bytes, line, limit);
        if read.is_err() {
            self.faults = self.faults.saturating_add(1);
        }
        read
    }
}
