//! What differs between lines that were reported and others, in one pass over both.
ghost use Rattle.std.specs.Prelude.{◌≡◌, ◌⊎◌, ◌<◌, [], IfOk, length, map, slice_get};
ghost use Rattle.std.specs.declared.cmp.Ordering.TheVariants as orders;
ghost use Rattle.drawing.specs.Changes.{AreInOrder, are_same_corners, gone_between, is_changed, order_of};

use plane_geom::Point;
use std::alloc::{AllocError, Global};
use std::cmp::Ordering;
use walk_model::WrittenRoute;

/// What differs between lines and those that were reported before.
#[derive(Drop)]
pub(crate) struct Differences {
    /// Of each line whether it differs from the one that was reported of its connector, if one was.
    pub changed: Vec<bool>,
    /// The connectors of which a line was reported and that have none now.
    pub gone: Vec<u32>,
}

impl Differences {
    /// No differences, of no lines.
    pub(crate) fn none(alloc: Global) -> Differences
        ensures changed { result.changed.items ≡ [] }
        ensures gone { result.gone.items ≡ [] }
    {
        Differences {
            changed: Vec::new(alloc),
            gone: Vec::new(alloc),
        }
    }
}

/// Whether both are the same corners.
fn are_same_corners(these: &[Point], those: &[Point]) -> bool
    ensures { result ≡ are_same_corners these.now those.now }
{
    these == those
}

/// Which of the lines at two places has the lesser number; no line comes after all.
fn order(reported: &[WrittenRoute], at: usize, lines: &[WrittenRoute], place: usize) -> Ordering
    ensures { result ≡ order_of (slice_get reported.now at) (slice_get lines.now place) }
{
    match (reported.get(at), lines.get(place)) {
        (Some(reported), Some(line)) => reported.edge.cmp(&line.edge),
        (Some(_), None) => Ordering::Less,
        (None, _) => Ordering::Greater,
    }
}

/// The same where one of the lists has a line at its place, and what that says of the places.
fn next(reported: &[WrittenRoute], at: usize, lines: &[WrittenRoute], place: usize) -> Ordering
    requires { (at < length reported.now) ⊎ (place < length lines.now) }
    ensures order { result ≡ order_of (slice_get reported.now at) (slice_get lines.now place) }
    ensures less { result ≡ orders.Less → at < length reported.now }
    ensures equal { result ≡ orders.Equal → (at < length reported.now) × (place < length lines.now) }
    ensures greater { result ≡ orders.Greater → place < length lines.now }
{
    order(reported, at, lines, place)
}

/// What differs between the lines and those that were reported. Both are in the order of the numbers of their connectors.
///
/// The only error is out of memory.
pub(crate) fn changes_between(
    alloc: Global,
    reported: &[WrittenRoute],
    lines: &[WrittenRoute],
) -> Result<Differences, AllocError>
    requires reported { AreInOrder reported.now }
    requires lines { AreInOrder lines.now }
    ensures changed { IfOk result (λ d. d.changed.items ≡ map (is_changed reported.now) lines.now) }
    ensures gone { IfOk result (λ d. d.gone.items ≡ gone_between reported.now lines.now) }
{
    let mut changed = Vec::new(alloc);
    let mut gone = Vec::new(alloc);
    let mut at = 0;
    let mut place = 0;
    while at < reported.len() || place < lines.len() {
        match next(reported, at, lines, place) {
            Ordering::Less => {
                gone.push(reported[at].edge)?;
                at += 1;
            }
            Ordering::Equal => {
                let (was, is) = (&reported[at].points, &lines[place].points);
                changed.push(!are_same_corners(was.as_slice(), is.as_slice()))?;
                at += 1;
                place += 1;
            }
            Ordering::Greater => {
                changed.push(true)?;
                place += 1;
            }
        }
    }
    Ok(Differences { changed, gone })
}
