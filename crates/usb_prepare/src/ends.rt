//! The endpoints of a scene's devices.
ghost use Rattle.std.specs.Prelude.{◌≡◌, ◌≤◌, ◌++◌, map, length, slice_get, Some, IfOk, OnOk};
ghost use Rattle.usb_scene.specs.WellFormed.{IsWellFormed};
ghost use Rattle.usb_prepare.specs.Ends.{attached_as, control_of, device_ends, shapes_of, firsts_of};
ghost use Rattle.usb_prepare.specs.Prepared.{attached_from};

use std::alloc::Global;
use usb_bind::push_shapes;
use usb_ctrl::Attached;
use usb_machine::{EndKind, Shape};
use usb_scene::{Scene, SceneDevice};
use usb_types::{List, Memory};

// The packet size of a control endpoint whose device gives none.
const CONTROL_SIZE: u16 = 64;

// The control endpoint of a device.
fn control(device: u32, max: u16) -> Shape
    ensures { result ≡ control_of device max }
{
    Shape {
        device,
        address: 0,
        kind: EndKind::Control,
        max,
        interval: 0,
    }
}

// Adds the shapes at the end.
fn add_all(shapes: &mut List<Shape>, ends: &[Shape]) -> Result<(), Memory>
    ensures { OnOk result (shapes.new ≡ shapes.old ++ ends.now) }
{
    for shape in ends {
        shapes.push(*shape)?;
    }
    Ok(())
}

// Adds the endpoints of a device.
#[tactic(auto, unfolding(crate::specs::Ends::device_ends))]
fn add_device(
    shapes: &mut List<Shape>,
    number: u32,
    device: &SceneDevice,
    attached: &Option<Attached>,
) -> Result<(), Memory>
    requires { attached.now ≡ attached_as number device.now }
    ensures { OnOk result (shapes.new ≡ shapes.old ++ device_ends number device.now) }
{
    match attached {
        Some(attached) => {
            shapes.push(control(number, attached.device.max0 as u16))?;
            push_shapes(shapes, number, &attached.config)
        }
        None => {
            shapes.push(control(number, CONTROL_SIZE))?;
            add_all(shapes, device.script.ends.items())
        }
    }
}

/// The endpoints of all devices.
#[derive(Drop)]
pub struct Numbered {
    pub shapes: List<Shape>,
    /// The number of each device's endpoint 00.
    pub firsts: List<u32>,
}

/// Numbers the endpoints of a scene's devices.
#[tactic(auto, unfolding(crate::specs::Ends::shapes_of))]
pub fn number_ends(
    alloc: Global,
    scene: &Scene,
    attached: &[Option<Attached>],
) -> Result<Numbered, Memory>
    requires good { IsWellFormed scene.now }
    requires attached { attached.now ≡ attached_from 0 scene.now.devices }
    ensures shapes { IfOk result (λ ends. ends.shapes ≡ shapes_of scene.now) }
    ensures firsts { IfOk result (λ ends. ends.firsts ≡ firsts_of scene.now) }
{
    let mut shapes = List::of(Vec::new(alloc));
    let mut firsts = List::of(Vec::new(alloc));
    for (i, device) in scene.devices.items().iter().enumerate() {
        firsts.push(shapes.items().len() as u32)?;
        add_device(&mut shapes, i as u32, device, &attached[i])?;
    }
    Ok(Numbered { shapes, firsts })
}
