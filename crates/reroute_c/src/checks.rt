//! What is asked of the present scene: shared paths, crossings, and the verdict on a line that is given.
//!
//! Nothing of the session changes, and an open transaction makes no difference.
ghost use Rattle.std.specs.Prelude.{◌≡◌, ◌≢◌, IfOk, IfSome, IsNone, IsSome, map};
ghost use Rattle.route_session.specs.Shares.{CountsCrossings};
ghost use Rattle.drawing.specs.Checks.{IsChecked};
ghost use Rattle.reroute_c.specs.Checks.{IsSharedTo, IsUnjudged, IsVerdictOn, breach_info, broken, end_code, point_of, shared_info, side_code, some_side_code, verdict_info};
ghost use Rattle.reroute_c.specs.Codes.{closed_fault, memory_fault};
ghost use Rattle.reroute_c.specs.Files.{overlaid};

use crate::fault::{Fault, of_edit};
use crate::handle::Handle;
use crate::lines::Corner;
use drawing::Drawing;
use plane_geom::Point;
use route_check::Breach;
use scene_model::SceneFault;
use shared_paths::{End, SharedPath, Side};
use std::alloc::{AllocError, Global};

/// A path that the routes of two connectors share: the connectors, the runs of both on it, from 1, its ends, and its side.
///
/// An end is 0 where both routes stop; otherwise it is the hand on which `a` is: 1 for left, 2 for right. So is the side,
/// 0 if there is none.
#[repr(C)]
#[derive(Clone, Copy)]
pub struct SharedInfo {
    pub a: u32,
    pub b: u32,
    pub first: u32,
    pub last: u32,
    pub b_first: u32,
    pub b_last: u32,
    pub back: u32,
    pub ahead: u32,
    pub side: u32,
}

/// The verdict on a line: the code of the first rule that it breaks, 0 if it breaks none; the segment or the checkpoint
/// that breaks it, from 1, else 0; the id of the box that is hit, else 0; and what the line costs if it is legal, else 0.
///
/// The codes: 1 slanted, 2 start off, 3 end off, 4 hits a box, 5 misses a checkpoint.
#[repr(C)]
#[derive(Drop)]
pub struct Verdict {
    pub breach: u32,
    pub place: u32,
    pub hit: i64,
    pub cost: u64,
}

/// A hand.
fn side_code(side: Side) -> u32
    ensures { result ≡ side_code side }
{
    match side {
        Side::Left => 1,
        Side::Right => 2,
    }
}

/// The side of a path, 0 if it has none.
fn some_side_code(side: Option<Side>) -> u32
    ensures { result ≡ some_side_code side }
{
    match side {
        Some(side) => side_code(side),
        None => 0,
    }
}

/// An end of a path.
fn end_code(end: End) -> u32
    ensures { result ≡ end_code end }
{
    match end {
        End::Tie => 0,
        End::Parts(side) => side_code(side),
    }
}

impl SharedInfo {
    fn of(path: &SharedPath) -> SharedInfo
        ensures { result ≡ shared_info path.now }
    {
        SharedInfo {
            a: path.a,
            b: path.b,
            first: path.first,
            last: path.last,
            b_first: path.b_first,
            b_last: path.b_last,
            back: end_code(path.back),
            ahead: end_code(path.ahead),
            side: some_side_code(path.side),
        }
    }
}

/// Writes the first paths, as many as there is room for.
fn write_paths(paths: &[SharedPath], out: &mut [SharedInfo])
    ensures { out.new ≡ overlaid (map shared_info paths.now) out.old }
{
    let count = paths.len().min(out.len());
    for at in 0..count {
        out[at] = SharedInfo::of(&paths[at]);
    }
}

/// Writes the first paths that routes of the present scene share, as many as there is room for, and says how many there are.
///
/// They are those before nudging, in order. The fault is 98 or 99; after it, nothing is written.
#[unsafe(no_mangle)]
pub extern "C" fn reroute_shared(
    alloc: Global,
    handle: &mut Handle,
    out: &mut [SharedInfo],
    count: &mut usize,
) -> Fault
    ensures closed { IsNone handle.old.drawing → result ≡ closed_fault }
    ensures memory { IsSome handle.old.drawing → result.code ≢ 0 → result ≡ memory_fault }
    ensures shared { result.code ≡ 0 → IfSome handle.old.drawing (λ s. IsSharedTo s out.old out.new count.new) }
    ensures kept_out { result.code ≢ 0 → out.new ≡ out.old }
    ensures kept_count { result.code ≢ 0 → count.new ≡ count.old }
    ensures kept { handle.new.drawing ≡ handle.old.drawing }
{
    let Some(drawing) = handle.take() else {
        return Fault::closed();
    };
    let answer = drawing.session().shared_paths(alloc);
    handle.put(drawing);
    match answer {
        Ok(paths) => {
            write_paths(&paths, out);
            *count = paths.len();
            Fault::none()
        }
        Err(AllocError) => Fault::memory(),
    }
}

/// Says how often the nudged lines of the present scene cross.
///
/// The fault is 98 or 99; after it, nothing is written.
#[unsafe(no_mangle)]
pub extern "C" fn reroute_crossings(alloc: Global, handle: &mut Handle, count: &mut u64) -> Fault
    ensures closed { IsNone handle.old.drawing → result ≡ closed_fault }
    ensures memory { IsSome handle.old.drawing → result.code ≢ 0 → result ≡ memory_fault }
    ensures crossings { result.code ≡ 0 → IfSome handle.old.drawing (λ s. CountsCrossings s.session.world.present s.session.book count.new) }
    ensures kept_count { result.code ≢ 0 → count.new ≡ count.old }
    ensures kept { handle.new.drawing ≡ handle.old.drawing }
{
    let Some(drawing) = handle.take() else {
        return Fault::closed();
    };
    let answer = drawing.session().crossings(alloc);
    handle.put(drawing);
    match answer {
        Ok(crossings) => {
            *count = crossings;
            Fault::none()
        }
        Err(AllocError) => Fault::memory(),
    }
}

impl Verdict {
    fn of(verdict: Result<u64, Breach>) -> Verdict
        ensures { result ≡ verdict_info verdict }
    {
        match verdict {
            Ok(cost) => Verdict {
                breach: 0,
                place: 0,
                hit: 0,
                cost,
            },
            Err(breach) => Verdict::of_breach(breach),
        }
    }

    fn of_breach(breach: Breach) -> Verdict
        ensures { result ≡ breach_info breach }
    {
        match breach {
            Breach::Slanted { segment } => Verdict::broken(1, segment, 0),
            Breach::StartOff => Verdict::broken(2, 0, 0),
            Breach::EndOff => Verdict::broken(3, 0, 0),
            Breach::Hits { segment, node } => Verdict::broken(4, segment, node),
            Breach::MissesVia { place } => Verdict::broken(5, place, 0),
        }
    }

    /// A rule that is broken, with what it names.
    fn broken(breach: u32, place: u32, hit: i64) -> Verdict
        ensures { result ≡ broken breach place hit }
    {
        Verdict {
            breach,
            place,
            hit,
            cost: 0,
        }
    }
}

impl Corner {
    fn point(&self) -> Point
        ensures { result ≡ point_of self.now }
    {
        Point {
            x: self.x,
            y: self.y,
        }
    }
}

/// The corners as points.
fn points_of(alloc: Global, corners: &[Corner]) -> Result<Vec<Point>, AllocError>
    ensures { IfOk result (λ points. points.items ≡ map point_of corners.now) }
{
    corners.iter().map(|corner| corner.point()).collect(alloc)
}

/// The verdict on a line through these corners, or why there is none.
fn judged(
    alloc: Global,
    drawing: &Drawing,
    connector: u32,
    corners: &[Corner],
) -> Result<Result<u64, Breach>, SceneFault>
    ensures { IsChecked drawing.now.session.world.present connector (map point_of corners.now) result }
{
    let Ok(points) = points_of(alloc, corners) else {
        return Err(SceneFault::Memory);
    };
    drawing.check(connector, &points)
}

/// Writes what a line through these corners would cost a connector of the present scene, or the first rule that it breaks.
///
/// The fault is 5 if no connector has the number, 8 if it is a loop, 13 if there are more than 40,000,000 corners, 9 with
/// 2 k + 3 where corner k, from 0, is the first beyond 2 * 10^9, 98 or 99; after it, nothing is written.
#[unsafe(no_mangle)]
pub extern "C" fn reroute_check(
    alloc: Global,
    handle: &mut Handle,
    connector: u32,
    corners: &[Corner],
    verdict: &mut Verdict,
) -> Fault
    ensures closed { IsNone handle.old.drawing → result ≡ closed_fault }
    ensures verdict { result.code ≡ 0 → IfSome handle.old.drawing (λ s. IsVerdictOn s.session.world.present connector corners.now verdict.new) }
    ensures fault { result.code ≢ 0 → IfSome handle.old.drawing (λ s. IsUnjudged s.session.world.present connector corners.now result) }
    ensures kept_verdict { result.code ≢ 0 → verdict.new ≡ verdict.old }
    ensures kept { handle.new.drawing ≡ handle.old.drawing }
{
    let Some(drawing) = handle.take() else {
        return Fault::closed();
    };
    let answer = judged(alloc, &drawing, connector, corners);
    handle.put(drawing);
    match answer {
        Ok(found) => {
            *verdict = Verdict::of(found);
            Fault::none()
        }
        Err(fault) => of_edit(fault),
    }
}
