//! The settings of a diagram.
ghost use Rattle.std.specs.Prelude.{codes};
ghost use Rattle.gml_text.specs.View.{pairs};
ghost use Rattle.diagram_read.specs.Faults.{IsReadInto};
ghost use Rattle.diagram_read.specs.Settings.{with_setting_at, with_settings_in};
ghost use Rattle.diagram_read.specs.Values.{list_at};

use crate::fault::{DiagramFault, Part};
use crate::values::{list_at, milli_of, value_at};
use fixed_milli::MilliFault;
use gml_text::Pair;
use scene_model::{SceneFault, Setting};
use scene_store::Scene;

const OUT_OF_RANGE: DiagramFault = DiagramFault::OutOfRange {
    part: Part::Router,
    place: 0,
};

/// Applies the settings in the first `router` list of the graph to the scene.
pub(crate) fn load_settings(scene: &mut Scene, graph: &[Pair]) -> Result<(), DiagramFault>
    ensures { IsReadInto (with_settings_in (list_at (codes "router") (pairs graph.now)) scene.old) scene.new result }
{
    let Some(router) = list_at(graph, b"router") else {
        return Ok(());
    };
    load_setting(scene, Setting::Penalty, b"penalty", router)?;
    load_setting(scene, Setting::Buffer, b"buffer", router)?;
    load_setting(scene, Setting::Nudge, b"nudge", router)
}

/// Applies one setting to the scene, if the list has it.
fn load_setting(
    scene: &mut Scene,
    what: Setting,
    key: &[u8],
    router: &[Pair],
) -> Result<(), DiagramFault>
    ensures { IsReadInto (with_setting_at what key.now (pairs router.now) scene.old) scene.new result }
{
    let Some(value) = value_at(router, key) else {
        return Ok(());
    };
    match milli_of(value) {
        Ok(value) => match scene.set(what, value) {
            Ok(()) => Ok(()),
            Err(SceneFault::OutOfRange { .. }) => Err(OUT_OF_RANGE),
            // There is no other refusal.
            Err(_) => Err(DiagramFault::Memory),
        },
        Err(MilliFault::OutOfRange) => Err(OUT_OF_RANGE),
        Err(MilliFault::NotNumber) => Err(DiagramFault::BadNumber {
            part: Part::Router,
            place: 0,
        }),
    }
}
