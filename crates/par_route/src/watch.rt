//! Gates for tests that count and delay pieces. No clause says what they report, since atomics have
//! no clauses.

use crate::gate::Gate;
use std::sync::atomic::{AtomicBool, AtomicU32, Ordering};

/// Counts the pieces that pass, and adds up their numbers.
#[derive(Drop)]
pub struct CountGate {
    pieces: AtomicU32,
    numbers: AtomicU32,
}

impl CountGate {
    /// A gate that no piece has passed yet.
    pub fn new() -> CountGate {
        CountGate {
            pieces: AtomicU32::new(0),
            numbers: AtomicU32::new(0),
        }
    }

    /// The number of pieces that have passed.
    pub fn pieces(&self) -> u32 {
        self.pieces.load(Ordering::SeqCst)
    }

    /// The sum of the numbers of the pieces that have passed.
    pub fn numbers(&self) -> u32 {
        self.numbers.load(Ordering::SeqCst)
    }
}

impl Gate for CountGate {
    fn pass(&self, piece: u32) {
        self.pieces.fetch_add(1, Ordering::SeqCst);
        self.numbers.fetch_add(piece, Ordering::SeqCst);
    }
}

// The greatest number of turns for which piece 1 is delayed.
const MOST_TURNS: u32 = 100_000_000;

/// Delays piece 1 until piece 2 has passed, for at most 10^8 turns.
#[derive(Drop)]
pub struct HoldGate {
    second: AtomicBool,
    seen: AtomicBool,
}

impl HoldGate {
    /// A gate that no piece has passed yet.
    pub fn new() -> HoldGate {
        HoldGate {
            second: AtomicBool::new(false),
            seen: AtomicBool::new(false),
        }
    }

    /// Whether piece 2 passed while piece 1 was delayed.
    pub fn has_seen_both(&self) -> bool {
        self.seen.load(Ordering::SeqCst)
    }
}

impl Gate for HoldGate {
    fn pass(&self, piece: u32) {
        if piece == 2 {
            self.second.store(true, Ordering::SeqCst);
        }
        if piece == 1 {
            for _ in 0..MOST_TURNS {
                if self.second.load(Ordering::SeqCst) {
                    self.seen.store(true, Ordering::SeqCst);
                    return;
                }
            }
        }
    }
}
