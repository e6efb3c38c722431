//! The drivers of a scene, each with what it reports.
ghost use Rattle.std.specs.Prelude.{◌≡◌, ◌++◌, OnOk};
ghost use Rattle.usb_report.specs.Telling.{drivers_section};

use crate::listing::push_bound;
use usb_bind::Bound;
use usb_class::Told;
use usb_scene::Scene;
use usb_telling::push_driver_events;
use usb_types::{Buf, Memory};

/// Adds the drivers, in the order in which they were bound, each with what it reports.
pub(crate) fn push_drivers(
    report: &mut Buf,
    scene: &Scene,
    bindings: &[Bound],
    told: &[Told],
) -> Result<(), Memory>
    ensures { OnOk result (report.new ≡ report.old ++ drivers_section scene.now bindings.now told.now) }
{
    let mut left = bindings;
    let mut untold = told;
    while let [bound, bounds @ ..] = left {
        let [told, others @ ..] = untold else {
            return Ok(());
        };
        push_bound(report, scene, bound)?;
        push_driver_events(report, told)?;
        left = bounds;
        untold = others;
    }
    Ok(())
}
