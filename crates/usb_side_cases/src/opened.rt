//! A host with a controller of one device, before the first call.
ghost use Rattle.std.specs.Prelude.{◌≡◌, ◌<◌, [], length, All, IfOk};
ghost use Rattle.usb_machine.specs.declared.entry.TheConstants.{HUB};
ghost use Rattle.usb_machine.specs.declared.layout.Shape.{Shape};
ghost use Rattle.usb_machine.specs.Plain.{IsLayout};
ghost use Rattle.usb_machine.specs.Replay.{machine_for};
ghost use Rattle.usb_machine.specs.Tokens.{unused};
ghost use Rattle.usb_serve.specs.Held.{Agrees};
ghost use Rattle.usb_side.specs.Side.{IsWholeSide, side_knows};

use crate::seldom::Seldom;
use std::alloc::{AllocError, Global};
use std::sync::Wait;
use usb_machine::{Layout, Opens, Parts};
use usb_serve::Controller;
use usb_side::begin;
use usb_types::Memory;

fn one_seldom(alloc: Global) -> Result<Vec<Seldom>, AllocError>
    ensures { IfOk result (λ v. length v.items ≡ 1) }
{
    let mut devices = Vec::with_capacity(alloc, 1)?;
    devices.push(Seldom::new())?;
    Ok(devices)
}

/// A host of two passes, beside the vector that they stood in, and a controller of one device.
pub(crate) fn open_race<H: Opens, R: Wait>(
    rt: &R,
    alloc: Global,
    layout: Layout,
) -> Result<
    (
        (Parts<H, H::Server, H::Hub, H::Pass>, Controller<Seldom>),
        (H::Pass, H::Pass),
    ),
    Memory,
>
    requires layout { IsLayout layout }
    requires devices { All (λ (shape : Shape). shape.device < 1) layout.shapes }
    ensures machine { IfOk result (λ r. H.machine r.0.0.host ≡ machine_for layout 2) }
    ensures none { IfOk result (λ r. r.0.0.passes.items ≡ []) }
    ensures here { IfOk result (λ r. H.is_of r.0.0.host (H.Hub.own r.0.0.hub) × H.is_of r.0.0.host r.1.0 × H.is_of r.0.0.host r.1.1) }
    ensures hub { IfOk result (λ r. H.known (H.Hub.own r.0.0.hub) ≡ unused HUB) }
    ensures passes { IfOk result (λ r. (H.known r.1.0 ≡ unused 2) × (H.known r.1.1 ≡ unused 3)) }
    ensures agrees { IfOk result (λ r. Agrees (side_knows (H.machine r.0.0.host) (H.known (H.Server.own r.0.0.server)) (H.Server.given r.0.0.server) (IsWholeSide (H.machine r.0.0.host) (H.is_of r.0.0.host (H.Server.own r.0.0.server)) (H.known (H.Server.own r.0.0.server)) (H.Server.pending r.0.0.server) (H.Server.given r.0.0.server) (H.Server.has_room r.0.0.server)) (H.is_settled r.0.0.host r.0.0.server)) r.0.1) }
{
    let Ok(devices) = one_seldom(alloc) else {
        return Err(Memory);
    };
    let (mut parts, controller) = begin::<H, R, Seldom>(rt, alloc, layout, 2, devices)?;
    let Some(b) = parts.passes.pop() else {
        unreachable!()
    };
    let Some(a) = parts.passes.pop() else {
        unreachable!()
    };
    Ok(((parts, controller), (a, b)))
}
