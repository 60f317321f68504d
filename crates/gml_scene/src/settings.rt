//! The settings in the graph list.
ghost use Rattle.std.specs.Prelude.{◌≡◌, if◌then◌else◌, codes, OnOk};
ghost use Rattle.gml_text.specs.Tree.{◌then◌, no_pairs};
ghost use Rattle.gml_text.specs.View.{content, pairs};
ghost use Rattle.gml_scene.specs.Changes.{change_inside, change_list};
ghost use Rattle.gml_scene.specs.Tree.{put_settings, router_pairs};

use crate::changes::list_place;
use crate::forms::push_router;
use crate::nodes::put_length;
use gml_text::{Pair, Value};
use scene_model::Settings;
use std::alloc::{AllocError, Global};

/// The settings of a diagram that gives none.
const DEFAULTS: Settings = Settings {
    penalty: 50_000,
    buffer: 4_000,
    nudge: 4_000,
};

/// Writes the settings that have changed.
fn put_all(
    alloc: Global,
    router: &mut Vec<Pair>,
    was: Settings,
    now: Settings,
) -> Result<(), AllocError>
    ensures { OnOk result (pairs router.new.items ≡ put_settings was now (pairs router.old.items)) }
{
    put_length(alloc, router, b"penalty", was.penalty, now.penalty)?;
    put_length(alloc, router, b"buffer", was.buffer, now.buffer)?;
    put_length(alloc, router, b"nudge", was.nudge, now.nudge)
}

/// The same in `value`, which is the value of a `router`.
fn put_settings_in(
    alloc: Global,
    value: &mut Value,
    was: Settings,
    now: Settings,
) -> Result<(), AllocError>
    ensures { OnOk result (content value.new ≡ change_inside (put_settings was now) (content value.old)) }
{
    let Value::List(router) = value else {
        return Ok(());
    };
    put_all(alloc, router, was, now)
}

/// The same in the first `router` that is a list.
pub(crate) fn put_settings(
    alloc: Global,
    graph: &mut Vec<Pair>,
    was: Settings,
    now: Settings,
) -> Result<(), AllocError>
    ensures { OnOk result (pairs graph.new.items ≡ change_list (codes "router") (put_settings was now) (pairs graph.old.items)) }
{
    match list_place(graph, b"router") {
        Some(index) => put_settings_in(alloc, &mut graph[index].value, was, now),
        None => Ok(()),
    }
}

/// Appends a `router`, if there is none and the settings are not the default ones.
pub(crate) fn push_settings(
    alloc: Global,
    graph: &mut Vec<Pair>,
    has_router: bool,
    settings: Settings,
) -> Result<(), AllocError>
    ensures { OnOk result (pairs graph.new.items ≡ pairs graph.old.items then (if has_router then no_pairs else router_pairs settings)) }
{
    if has_router {
        return Ok(());
    }
    if settings.penalty == DEFAULTS.penalty
        && settings.buffer == DEFAULTS.buffer
        && settings.nudge == DEFAULTS.nudge
    {
        return Ok(());
    }
    push_router(alloc, graph, settings)
}
