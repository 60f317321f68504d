//! The spans of the worked rows, and a tree of many spans.
use interval_index::{IntervalIndex, Span};
use plane_geom::{SHEET_END, SHEET_START};
use std::alloc::{AllocError, Global};

/// Replaces the span under its key.
fn put(index: &mut IntervalIndex, key: u32, lo: i16, hi: i16) -> Result<(), AllocError> {
    index.remove(key);
    if lo < hi {
        let (lo, hi) = (i64::from(lo), i64::from(hi));
        index.insert(Span { key, lo, hi })?;
    }
    Ok(())
}

fn fill(index: &mut IntervalIndex, spans: &[(u32, i16, i16)]) -> Result<(), AllocError> {
    for &(key, lo, hi) in spans {
        put(index, key, lo, hi)?;
    }
    Ok(())
}

fn free_around(index: &IntervalIndex, at: i16) -> Option<(i64, i64)> {
    index.free_around(i64::from(at))
}

/// Whether the keys of the spans that touch the interval are these.
fn touches(index: &IntervalIndex, lo: i64, hi: i64, want: &[u32]) -> Result<bool, AllocError> {
    let keys = index.touching(lo, hi)?;
    Ok(keys.as_slice() == want)
}

/// Whether the free interval around each place is the expected one.
fn is_free(index: &IntervalIndex, rows: &[(i16, Option<(i64, i64)>)]) -> bool {
    for &(at, want) in rows {
        if free_around(index, at) != want {
            return false;
        }
    }
    true
}

fn finds_free(index: &mut IntervalIndex) -> Result<bool, AllocError> {
    // The last span holds the coordinates between the others' ends.
    fill(index, &[(2, 40, 60), (1, 0, 40), (3, -90, 80)])?;
    let none = is_free(index, &[(40, None)]);
    let gone = index.remove(3) && !index.remove(3);
    let rows = [
        (0, Some((SHEET_START, 0))),
        (40, Some((40, 40))),
        (50, None),
        (70, Some((60, SHEET_END))),
    ];
    let ends = touches(index, 40, 41, &[2])?;
    Ok(none && gone && is_free(index, &rows) && ends)
}

fn lists_touching(index: &mut IntervalIndex) -> Result<bool, AllocError> {
    fill(
        index,
        &[(1, 5, 6), (7, 0, 10), (3, 0, 10), (4, -20, 50), (2, 10, 60)],
    )?;
    let inside = touches(index, 0, 10, &[4, 3, 7, 1])?;
    let beside = touches(index, 10, 11, &[4, 2])?;
    Ok(inside && beside && touches(index, 60, 70, &[])?)
}

/// Adds a thousand spans, in an order that the step determines.
fn fill_thousand(index: &mut IntervalIndex, step: u16) -> Result<(), AllocError> {
    for turn in 0..1000 {
        let key = turn * u32::from(step) % 1000;
        let lo = key as i16 * 4;
        put(index, key, lo, lo + 6)?;
    }
    Ok(())
}

fn empties(index: &mut IntervalIndex) -> bool {
    for turn in 0..1000 {
        if !index.remove(turn * 333 % 1000) {
            return false;
        }
    }
    is_free(index, &[(4001, Some((SHEET_START, SHEET_END)))])
}

fn keeps_thousand(index: &mut IntervalIndex, step: u16) -> Result<bool, AllocError> {
    fill_thousand(index, step)?;
    let all = index.touching(-1, 5000)?.len() == 1000;
    let two = touches(index, 2000, 2004, &[499, 500])?;
    let behind = is_free(index, &[(4005, Some((4002, SHEET_END)))]);
    Ok(all && two && behind && empties(index))
}

/// What is done with a new index.
#[derive(Clone, Copy)]
enum Trial {
    FreeIntervals,
    TouchingSpans,
    /// The step determines the order in which a thousand spans are added.
    Thousand(u16),
}

fn passes_in(index: &mut IntervalIndex, trial: Trial) -> Result<bool, AllocError> {
    match trial {
        Trial::FreeIntervals => finds_free(index),
        Trial::TouchingSpans => lists_touching(index),
        Trial::Thousand(step) => keeps_thousand(index, step),
    }
}

fn passes(alloc: Global, trial: Trial) -> Result<bool, AllocError> {
    let mut index = IntervalIndex::new(alloc);
    passes_in(&mut index, trial)
}

const TRIALS: [(&str, Trial); 5] = [
    ("finds free intervals", Trial::FreeIntervals),
    ("lists touching spans", Trial::TouchingSpans),
    ("keeps a thousand spans in order", Trial::Thousand(1)),
    ("keeps a thousand spans in reverse", Trial::Thousand(999)),
    ("keeps a thousand spans in steps of 7", Trial::Thousand(7)),
];

#[test]
fn keeps_spans(rt: HostRuntime) {
    for &(name, trial) in &TRIALS {
        let passed = passes(rt.alloc(), trial);
        assert!(rt; matches!(passed, Ok(true)), "{name}");
    }
}
