//! Where lines cross.
ghost use Rattle.std.specs.Prelude.{◌≡◌, ◌<◌, ◌++◌, ◌^◌, IfOk, IsPermutation, OnOk, length};
ghost use Rattle.std.specs.List.{count_by, filter, sum_by};
ghost use Rattle.shared_paths.specs.Listed.{runs_in};
ghost use Rattle.shared_paths.specs.Crossings.{crosses, crossing_count, passes};
ghost use Rattle.shared_paths.specs.Columns.{AreRising, goes, is_near};

use crate::path::EdgeRuns;
use crate::stretch::is_vertical;
use plane_geom::Way;
use segment_order::Run;
use std::alloc::{AllocError, Global};

/// How many vertical runs are taken together at most.
const COLUMN: usize = 256;

/// Whether the coordinate lies strictly between the ends of the run.
fn passes(at: i64, run: &Run) -> bool
    ensures { result ≡ passes at run.now }
{
    run.lo < at && at < run.hi
}

/// Whether the runs are a vertical one and a horizontal one, of different edges, that cross.
fn crosses(one: &Run, other: &Run) -> bool
    ensures { result ≡ crosses one.now other.now }
{
    is_vertical(one.way)
        && !is_vertical(other.way)
        && one.edge != other.edge
        && passes(one.at, other)
        && passes(other.at, one)
}

/// Whether the run goes this way.
fn goes(run: &Run, way: Way) -> bool
    ensures { result ≡ goes way run.now }
{
    run.way == way
}

/// Adds those of the runs that go this way.
fn add_runs(found: &mut Vec<Run>, runs: &[Run], way: Way) -> Result<(), AllocError>
    ensures { OnOk result (found.new.items ≡ found.old.items ++ filter (goes way) runs.now) }
{
    for run in runs {
        if goes(run, way) {
            found.push(*run)?;
        }
    }
    Ok(())
}

/// The runs of the lines that go this way, by rising coordinate.
fn runs_of_way(alloc: Global, lines: &[EdgeRuns], way: Way) -> Result<Vec<Run>, AllocError>
    ensures moved { IfOk result (λ found. IsPermutation (filter (goes way) (runs_in lines.now)) found.items) }
    ensures order { IfOk result (λ found. AreRising found.items) }
{
    let mut found = Vec::new(alloc);
    for line in lines {
        add_runs(&mut found, line.runs.as_slice(), way)?;
    }
    found.sort_unstable_by_key(|run| run.at);
    Ok(found)
}

/// The part of the runs that stands strictly between the ends of the run.
fn between<'a>(run: &Run, level: &'a [Run]) -> &'a [Run]
    requires { AreRising level.now }
    ensures { count_by (crosses run.now) result.now ≡ count_by (crosses run.now) level.now }
{
    let (_, above) = level.split_at(level.partition_point(|other| other.at <= run.lo));
    let (here, _) = above.split_at(above.partition_point(|other| other.at < run.hi));
    here
}

/// How many of the runs cross the run.
fn crossings_of(run: &Run, level: &[Run]) -> usize
    requires { AreRising level.now }
    ensures { result ≡ count_by (crosses run.now) level.now }
{
    between(run, level)
        .iter()
        .filter(|other| crosses(run, other))
        .count()
}

/// How often runs of the column cross the others.
fn crossings_along(column: &[Run], level: &[Run]) -> u64
    requires short { length column.now < 2 ^ 32 }
    requires few { length level.now < 2 ^ 32 }
    requires order { AreRising level.now }
    ensures { result ≡ sum_by (λ v. count_by (crosses v) level.now) column.now }
{
    let mut count = 0;
    for run in column {
        count += crossings_of(run, level) as u64;
    }
    count
}

/// The runs that reach into the column from the run `first` to the run `last`.
fn runs_near(alloc: Global, level: &[Run], first: &Run, last: &Run) -> Result<Vec<Run>, AllocError>
    ensures { IfOk result (λ near. near.items ≡ filter (is_near first.now last.now) level.now) }
{
    level
        .iter()
        .filter(|run| run.lo < last.at && first.at < run.hi)
        .copied()
        .collect(alloc)
}

/// How often runs of the column cross the others.
///
/// Of these only those are looked at that reach into the column.
fn crossings_in(alloc: Global, column: &[Run], level: &[Run]) -> Result<u64, AllocError>
    requires short { length column.now < 2 ^ 32 }
    requires few { length level.now < 2 ^ 32 }
    requires columns { AreRising column.now }
    requires order { AreRising level.now }
    ensures { IfOk result (λ count. count ≡ sum_by (λ v. count_by (crosses v) level.now) column.now) }
{
    let (Some(first), Some(last)) = (column.first(), column.last()) else {
        return Ok(0);
    };
    let near = runs_near(alloc, level, first, last)?;
    Ok(crossings_along(column, &near))
}

/// How often the runs cross the others, column by column.
fn crossings_among(alloc: Global, upright: &[Run], level: &[Run]) -> Result<u64, AllocError>
    requires short { length upright.now < 2 ^ 32 }
    requires few { length level.now < 2 ^ 32 }
    requires columns { AreRising upright.now }
    requires order { AreRising level.now }
    ensures { IfOk result (λ count. count ≡ sum_by (λ v. count_by (crosses v) level.now) upright.now) }
{
    let mut count = 0;
    let mut left = upright;
    while !left.is_empty() {
        let (column, others) = left.split_at(left.len().min(COLUMN));
        count += crossings_in(alloc, column, level)?;
        left = others;
    }
    Ok(count)
}

/// How many pairs of runs cross: a vertical run and a horizontal one, of different edges, of which
/// each passes strictly between the ends of the other.
///
/// Its only error is out of memory.
pub fn crossings(alloc: Global, lines: &[EdgeRuns]) -> Result<u64, AllocError>
    requires { length (runs_in lines.now) < 2 ^ 32 }
    ensures { IfOk result (λ count. count ≡ crossing_count lines.now) }
{
    let upright = runs_of_way(alloc, lines, Way::Vertical)?;
    let level = runs_of_way(alloc, lines, Way::Horizontal)?;
    crossings_among(alloc, &upright, &level)
}
