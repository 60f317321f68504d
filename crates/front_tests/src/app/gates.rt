//! Gates that count the pieces of searches that pass, or delay one until the next has passed; and
//! runs with them.

use crate::app::rows::{
    EMPTY, FIVE, FOUR, PARALLEL, PARALLEL_OUT, PROPOSALS, PROPOSALS_OUT, ROUND, UNDONE,
};
use crate::app::runs::{Row, ends_gated, faultless};
use par_route::Gate;
use reroute_app::Status;
use std::alloc::{AllocError, Global};
use std::sync::atomic::{AtomicBool, AtomicU32, Ordering};
use std::test::Fail;
use std::thread::Threads;

/// Counts the pieces that pass, and adds up their numbers.
#[derive(Drop)]
struct Counts {
    pieces: AtomicU32,
    numbers: AtomicU32,
}

impl Counts {
    fn new() -> Self {
        Counts {
            pieces: AtomicU32::new(0),
            numbers: AtomicU32::new(0),
        }
    }

    fn both(&self) -> (u32, u32) {
        let pieces = self.pieces.load(Ordering::SeqCst);
        (pieces, self.numbers.load(Ordering::SeqCst))
    }
}

impl Gate for Counts {
    fn pass(&self, piece: u32) {
        self.pieces.fetch_add(1, Ordering::SeqCst);
        self.numbers.fetch_add(piece, Ordering::SeqCst);
    }
}

/// The greatest number of turns for which piece 1 is delayed.
const MOST_TURNS: u32 = 100_000_000;

/// Delays piece 1 until piece 2 has passed.
#[derive(Drop)]
struct Holds {
    second: AtomicBool,
    seen: AtomicBool,
}

impl Holds {
    fn new() -> Self {
        Holds {
            second: AtomicBool::new(false),
            seen: AtomicBool::new(false),
        }
    }
}

impl Gate for Holds {
    fn pass(&self, piece: u32) {
        if piece == 2 {
            self.second.store(true, Ordering::SeqCst);
        }
        if piece == 1 {
            for _ in 0..MOST_TURNS {
                if self.second.load(Ordering::SeqCst) {
                    self.seen.store(true, Ordering::SeqCst);
                    return;
                }
            }
        }
    }
}

/// Lets the opening's one piece pass, and then holds piece 1 until piece 2 has passed.
#[derive(Drop)]
struct HoldsLater {
    is_open: AtomicBool,
    pieces: Holds,
}

impl Gate for HoldsLater {
    fn pass(&self, piece: u32) {
        if self.is_open.load(Ordering::SeqCst) {
            self.pieces.pass(piece);
        } else {
            self.is_open.store(true, Ordering::SeqCst);
        }
    }
}

/// Arguments, diagram and second file of runs that end as `Done`; the number of pieces that must pass the gate, and the
/// sum of the numbers of these pieces.
const PIECES: [(&str, &[u8], &[u8], (u32, u32)); 6] = [
    ("route|d.gml|s.txt|--count", EMPTY, UNDONE, (2, 2)),
    ("route|d.gml|s.txt", EMPTY, FIVE, (1, 1)),
    ("route|--workers|2|d.gml|s.txt", EMPTY, FIVE, (2, 3)),
    ("route|--workers|3|d.gml|s.txt", EMPTY, FIVE, (3, 6)),
    ("route|--workers|4|d.gml|s.txt", EMPTY, FIVE, (4, 10)),
    // The opening has one connector, and then there is a piece for each proposal.
    ("preview|--workers|4|d.gml|s.txt", ROUND, FOUR, (5, 11)),
];

/// The pieces that pass the gate in the row's run, or `None` where the run does not end as expected.
fn pieces_of(
    rt: &(impl Threads + Sync),
    alloc: Global,
    row: &Row,
) -> Result<Option<(u32, u32)>, AllocError> {
    let gate = Counts::new();
    let (ends, _searched) = ends_gated(rt, alloc, row, &gate)?;
    Ok(if ends { Some(gate.both()) } else { None })
}

#[test]
fn searches_in_a_piece_for_each_worker(rt: HostRuntime) -> Result<(), Fail> {
    for &(words, diagram, second, pieces) in &PIECES {
        let row = faultless(words, diagram, second, Status::Done, None);
        let passed = pieces_of(&rt, rt.alloc(), &row)?;
        assert!(rt; passed == Some(pieces), "{words}");
    }
    Ok(())
}

/// Arguments and second file of runs on the empty diagram that end as `Done`, and the number of searches.
const SEARCHED: [(&str, &[u8], u64); 3] = [
    ("route|d.gml|s.txt|--count", UNDONE, 2),
    ("route|--workers|2|d.gml|s.txt", FIVE, 5),
    ("check|d.gml", FIVE, 0),
];

#[test]
fn counts_searches(rt: HostRuntime) -> Result<(), Fail> {
    for &(words, second, searched) in &SEARCHED {
        let row = faultless(words, EMPTY, second, Status::Done, None);
        let counted = ends_gated(&rt, rt.alloc(), &row, &Counts::new())?;
        assert!(rt; counted == (true, searched), "{words}");
    }
    Ok(())
}

#[test]
fn routes_side_by_side(rt: HostRuntime) -> Result<(), Fail> {
    let gate = Holds::new();
    let words = "route|--workers|2|d.gml|s.txt";
    let row = faultless(words, EMPTY, PARALLEL, Status::Done, Some(PARALLEL_OUT));
    let counted = ends_gated(&rt, rt.alloc(), &row, &gate)?;
    assert!(rt; gate.seen.load(Ordering::SeqCst));
    assert!(rt; counted == (true, 2));
    Ok(())
}

#[test]
fn previews_side_by_side(rt: HostRuntime) -> Result<(), Fail> {
    let gate = HoldsLater {
        is_open: AtomicBool::new(false),
        pieces: Holds::new(),
    };
    let words = "preview|--workers|2|d.gml|s.txt";
    let row = faultless(
        words,
        ROUND,
        PROPOSALS,
        Status::Refused,
        Some(PROPOSALS_OUT),
    );
    let (ends, _searched) = ends_gated(&rt, rt.alloc(), &row, &gate)?;
    assert!(rt; gate.pieces.seen.load(Ordering::SeqCst));
    assert!(rt; ends);
    Ok(())
}
