//! What a driver reports, whatever the driver is.
ghost use Rattle.std.specs.Prelude.{◌≡◌, ◌++◌, OnOk};
ghost use Rattle.usb_telling.specs.Told.{told_text};

use crate::jobs::push_jobs;
use crate::keys::push_keys;
use crate::serial::push_serial;
use usb_class::Told;
use usb_types::{Buf, Memory};

/// Adds the lines of what a driver reports. An `Err` may leave some of them.
pub fn push_driver_events(report: &mut Buf, told: &Told) -> Result<(), Memory>
    ensures { OnOk result (report.new ≡ report.old ++ told_text told.now) }
{
    match told {
        Told::Keys(events) => push_keys(report, events.items()),
        Told::Serial { events, dropped } => push_serial(report, events.items(), *dropped),
        Told::Jobs(events) => push_jobs(report, events.items()),
    }
}
