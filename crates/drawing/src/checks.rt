//! The verdict on a line that is given for a connector of the present scene.
ghost use Rattle.std.specs.Prelude.{◌≡◌, IfOk, None, position};
ghost use Rattle.drawing.specs.Checks.{IsChecked, IsLineJudged, is_off_sheet, unjudged};

use crate::drawing::Drawing;
use plane_geom::{Point, is_coordinate};
use route_check::{Breach, check};
use scene_model::SceneFault;
use scene_store::Scene;
use std::alloc::AllocError;

/// The greatest number of corners that a line may have.
const MOST_CORNERS: usize = 40_000_000;

/// The place of the first corner off the sheet.
fn first_off(corners: &[Point]) -> Option<usize>
    ensures { result ≡ position is_off_sheet corners.now }
{
    corners.iter().position(|corner| !(is_coordinate(corner.x) && is_coordinate(corner.y)))
}

/// Why a line is not judged.
fn unjudged(scene: &Scene, number: u32, corners: &[Point]) -> Option<SceneFault>
    ensures { result ≡ unjudged scene.now number corners.now }
{
    let Some(edge) = scene.edge(number) else {
        return Some(SceneFault::UnknownEdge { number });
    };
    if edge.from == edge.to {
        return Some(SceneFault::SameNode { id: edge.from });
    }
    if MOST_CORNERS < corners.len() {
        return Some(SceneFault::TooMany {
            limit: MOST_CORNERS as u32,
        });
    }
    first_off(corners).map(|place| SceneFault::OutOfRange {
        word: 2 * place as u32 + 3,
    })
}

/// The verdict on a line that can be judged. The only error is out of memory.
fn judged(scene: &Scene, number: u32, corners: &[Point]) -> Result<Result<u64, Breach>, AllocError>
    requires { unjudged scene.now number corners.now ≡ None }
    ensures { IfOk result (IsLineJudged scene.now number corners.now) }
{
    let floor = scene.floor()?;
    let task = scene.task(number)?;
    Ok(check(floor.solids.as_slice(), &task, corners))
}

impl Drawing {
    /// What a line through these corners would cost a connector of the present scene, or the first rule that it breaks.
    ///
    /// The error is `UnknownEdge`, `SameNode` for a loop, `TooMany` where there are more than 40,000,000 corners,
    /// `OutOfRange` with 2 k + 3 where corner k, from 0, is the first beyond 2 * 10^9, or out of memory.
    pub fn check(&self, number: u32, corners: &[Point]) -> Result<Result<u64, Breach>, SceneFault>
        ensures { IsChecked self.now.session.world.present number corners.now result }
    {
        let scene = self.session.scene();
        if let Some(fault) = unjudged(scene, number, corners) {
            return Err(fault);
        }
        match judged(scene, number, corners) {
            Ok(verdict) => Ok(verdict),
            Err(AllocError) => Err(SceneFault::Memory),
        }
    }
}
