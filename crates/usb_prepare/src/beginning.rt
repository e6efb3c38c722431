//! The devices of a scene are made, and those that aren't raw are enumerated.
ghost use Rattle.std.specs.Prelude.{◌≡◌, ◌≤◌, ◌<◌, true, length, IfOk, OnOk};
ghost use Rattle.usb_device.specs.Short.{lines_are_short};
ghost use Rattle.usb_scene.specs.WellFormed.{is_raw, AreGiven, IsWellFormed};
ghost use Rattle.usb_prepare.specs.Bindings.{one_of, IsEnumerated, AddsDevice, AreEnumerated};

use crate::enumeration::enumerate;
use std::alloc::Global;
use usb_ctrl::{Attached, EnumFault};
use usb_device::Scripted;
use usb_scene::{Scene, SceneDevice};
use usb_types::{List, Memory};
use usb_xfer::Kind;

/// A device of the scene.
#[derive(Drop)]
pub struct EnumeratedDevice<'a> {
    pub device: Scripted<'a>,
    pub attached: Option<Attached>,
    pub fault: Option<EnumFault>,
}

/// All devices, indexed by scene number.
#[derive(Drop)]
pub struct EnumeratedDevices<'a> {
    pub devices: Vec<Scripted<'a>>,
    pub attached: List<Option<Attached>>,
    pub faults: List<Option<EnumFault>>,
}

fn is_raw(kind: Kind) -> bool
    ensures { result ≡ is_raw kind }
{
    matches!(kind, Kind::Raw)
}

// A device that was enumerated with this result.
fn enumerated(device: Scripted<'_>, told: Result<Attached, EnumFault>) -> EnumeratedDevice<'_>
    ensures { result ≡ one_of device.entry told }
{
    match told {
        Ok(attached) => EnumeratedDevice {
            device,
            attached: Some(attached),
            fault: None,
        },
        Err(fault) => EnumeratedDevice {
            device,
            attached: None,
            fault: Some(fault),
        },
    }
}

// Makes a device, and enumerates it at the address one above its number.
fn begin<'a>(
    alloc: Global,
    device: &'a SceneDevice,
    number: u8,
    room: &mut [u8],
) -> Result<EnumeratedDevice<'a>, Memory>
    requires short { lines_are_short device.now.script.answers ≡ true }
    requires given { AreGiven 65535 device.now.script.config }
    requires few { number < 127 }
    requires room { 65535 ≤ length room.old }
    ensures size { length room.new ≡ length room.old }
    ensures begun { IfOk result (IsEnumerated number device.now) }
{
    let mut made = Scripted::new(alloc, &device.script)?;
    if is_raw(device.script.kind) {
        return Ok(EnumeratedDevice {
            device: made,
            attached: None,
            fault: None,
        });
    }
    let told = enumerate(alloc, &mut made, number + 1, room)?;
    Ok(enumerated(made, told))
}

/// Makes all devices of a scene.
pub fn begin_all<'a>(
    alloc: Global,
    scene: &'a Scene,
    room: &mut [u8],
) -> Result<EnumeratedDevices<'a>, Memory>
    requires good { IsWellFormed scene.now }
    requires room { 65535 ≤ length room.old }
    ensures size { length room.new ≡ length room.old }
    ensures begun { IfOk result (AreEnumerated scene.now.devices) }
{
    let mut begun = EnumeratedDevices {
        devices: Vec::new(alloc),
        attached: List::of(Vec::new(alloc)),
        faults: List::of(Vec::new(alloc)),
    };
    for (i, device) in scene.devices.items().iter().enumerate() {
        let one = begin(alloc, device, i as u8, room)?;
        begun.add(one)?;
    }
    Ok(begun)
}

impl<'a> EnumeratedDevices<'a> {
    // Adds a device at the end.
    fn add(&mut self, one: EnumeratedDevice<'a>) -> Result<(), Memory>
        ensures { OnOk result (AddsDevice self.old one.entry self.new) }
    {
        let EnumeratedDevice {
            device,
            attached,
            fault,
        } = one;
        self.attached.push(attached)?;
        self.faults.push(fault)?;
        self.devices.push(device)?;
        Ok(())
    }
}
