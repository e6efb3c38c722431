//! The names of devices and URBs in a report.
ghost use Rattle.std.specs.Prelude.{◌≡◌, ◌++◌, [], OnOk};
ghost use Rattle.usb_statement.specs.Printed.{role_text};
ghost use Rattle.usb_report.specs.Names.{device_name, role_name, bound_name, own_name_or, urb_name};

use usb_bind::Bound;
use usb_class::role_of;
use usb_scene::Scene;
use usb_text::push_number;
use usb_types::{Buf, Memory, Role};

/// Adds the name of a device of the scene.
pub(crate) fn push_device(report: &mut Buf, scene: &Scene, device: u32) -> Result<(), Memory>
    ensures { OnOk result (report.new ≡ report.old ++ device_name scene.now device) }
{
    match scene.devices.items().get(device as usize) {
        Some(device) => report.append(device.name.bytes()),
        None => Ok(()),
    }
}

/// Adds the name of one of the scene's own URBs.
pub(crate) fn push_own_urb(report: &mut Buf, scene: &Scene, urb: u32) -> Result<(), Memory>
    ensures { OnOk result (report.new ≡ report.old ++ own_name_or [] scene.now urb) }
{
    match scene.urbs.items().get(urb as usize) {
        Some(urb) => report.append(urb.name.bytes()),
        None => Ok(()),
    }
}

fn role_text(role: Role) -> &'static str
    ensures { result.now ≡ role_text role }
{
    match role {
        Role::In => "in",
        Role::Note => "note",
        Role::Read0 => "read0",
        Role::Read1 => "read1",
        Role::Write => "write",
        Role::Ctl => "ctl",
    }
}

/// Adds the name of a driver's URB, as a line of a scene says it.
pub(crate) fn push_role(
    report: &mut Buf,
    scene: &Scene,
    device: u32,
    interface: u8,
    role: Role,
) -> Result<(), Memory>
    ensures { OnOk result (report.new ≡ report.old ++ role_name scene.now device interface role) }
{
    push_device(report, scene, device)?;
    report.append(b".")?;
    push_number(report, interface as u64)?;
    report.append(b".")?;
    report.append(role_text(role).as_bytes())
}

// The name of a driver's URB, after the first binding that has it.
fn push_bound_urb(
    report: &mut Buf,
    scene: &Scene,
    bindings: &[Bound],
    urb: u32,
) -> Result<(), Memory>
    ensures { OnOk result (report.new ≡ report.old ++ bound_name scene.now urb bindings.now) }
{
    for bound in bindings {
        if let Some(role) = role_of(bound, urb) {
            return push_role(report, scene, bound.device, bound.interface, role);
        }
    }
    Ok(())
}

/// Adds the name of an URB. The scene's own URBs have the first numbers, and drivers have the others.
#[tactic(auto, unfolding(crate::specs::Names::urb_name))]
pub(crate) fn push_urb(
    report: &mut Buf,
    scene: &Scene,
    bindings: &[Bound],
    urb: u32,
) -> Result<(), Memory>
    ensures { OnOk result (report.new ≡ report.old ++ urb_name scene.now bindings.now urb) }
{
    match scene.urbs.items().get(urb as usize) {
        Some(urb) => report.append(urb.name.bytes()),
        None => push_bound_urb(report, scene, bindings, urb),
    }
}
