//! The scene that is generated from a seed.
ghost use Rattle.std.specs.Prelude.{◌≡◌, ◌≢◌, ◌<◌, ◌+◌, ◌*◌, pos, IfErr, IfOk, IsOk, OnOk, ℕ};
ghost use Rattle.form_make.specs.Draws.{first, state_after};
ghost use Rattle.form_make.specs.Made.{made_coordinate, made_edge, made_node, made_scene, made_size, other_place};
ghost use Rattle.scene_model.specs.Scene.{empty_scene};

use crate::draws::Draws;
use scene_store::{Scene, SceneFault};
use std::alloc::{AllocError, Global};

/// A unit in thousandths.
const UNIT: i64 = 1000;

/// The number of units, in thousandths.
pub(crate) fn units(count: u32) -> i64
    requires { count < 1200 }
    ensures { result ≡ pos (1000 * count) }
{
    UNIT * i64::from(count)
}

/// The id of the node at the place, counted from 0.
pub(crate) fn node_id(place: u32) -> i64
    requires { place < 36 }
    ensures { result ≡ pos (place + 1) }
{
    i64::from(place) + 1
}

/// The coordinate of a node on an axis.
fn coordinate(line: u32, drawn: u32) -> i64
    requires line { line < 6 }
    requires drawn { drawn < 61 }
    ensures { result ≡ made_coordinate line drawn }
{
    UNIT * (200 * i64::from(line) + i64::from(drawn) - 30)
}

/// The width or the height of a node.
fn size(drawn: u32) -> i64
    requires { drawn < 61 }
    ensures { result ≡ made_size drawn }
{
    UNIT * (20 + i64::from(drawn))
}

/// The result of an edit that is not refused.
fn done(edited: Result<(), SceneFault>) -> Result<(), AllocError>
    requires { IfErr edited (λ fault. fault ≡ SceneFault.Memory) }
    ensures { OnOk result (IsOk edited) }
{
    match edited {
        Ok(()) => Ok(()),
        Err(fault) => match fault {
            SceneFault::Memory => Err(AllocError),
            _ => unreachable!(),
        },
    }
}

/// Adds the nodes, row after row. The only error is out of memory.
fn add_nodes(scene: &mut Scene, draws: &mut Draws) -> Result<(), AllocError>
    requires { scene.old ≡ empty_scene }
    ensures scene { OnOk result (scene.new ≡ record empty_scene { nodes = first 36 (made_node draws.old.state) }) }
    ensures draws { OnOk result (draws.new.state ≡ state_after draws.old.state 144) }
{
    for place in 0..36_u32 {
        let x = coordinate(place % 6, draws.below(61));
        let y = coordinate(place / 6, draws.below(61));
        let w = size(draws.below(61));
        let h = size(draws.below(61));
        done(scene.add_node(node_id(place), x, y, w, h))?;
    }
    Ok(())
}

/// The place with the number `drawn` among all places except this one.
fn other_place(place: u32, drawn: u32) -> u32
    requires { drawn < 35 }
    ensures place { result ≡ other_place place drawn }
    ensures other { result ≢ place }
    ensures low { result < 36 }
{
    if drawn < place { drawn } else { drawn + 1 }
}

/// Adds the edges, each between two different nodes. The only error is out of memory.
fn add_edges(scene: &mut Scene, draws: &mut Draws) -> Result<(), AllocError>
    requires { (seed : ℕ) × (scene.old ≡ record empty_scene { nodes = first 36 (made_node seed) }) }
    ensures { OnOk result (scene.new ≡ record scene.old {
      edges = first 48 (made_edge draws.old.state);
      next_edge = 49;
    }) }
{
    for _place in 0..48_u32 {
        let from = draws.below(36);
        let to = other_place(from, draws.below(35));
        done(scene.add_edge(node_id(from), node_id(to), 0, 0))?;
    }
    Ok(())
}

/// The scene that is generated from the seed: 36 nodes in six rows, and 48 edges, with the default
/// settings. The only error is out of memory.
pub fn made_scene(alloc: Global, seed: u64) -> Result<Scene, AllocError>
    ensures { IfOk result (λ scene. scene ≡ made_scene seed) }
{
    let mut draws = Draws::from_seed(seed);
    let mut scene = Scene::new(alloc);
    add_nodes(&mut scene, &mut draws)?;
    add_edges(&mut scene, &mut draws)?;
    Ok(scene)
}
