//! A host with its parts, and a controller that agrees with its server, before any event.
ghost use Rattle.std.specs.Prelude.{◌≡◌, ◌<◌, ◌≤◌, ◌^◌, [], length, map, All, IfOk};
ghost use Rattle.usb_machine.specs.declared.entry.TheConstants.{SERVER, HUB};
ghost use Rattle.usb_machine.specs.declared.layout.Shape.{Shape};
ghost use Rattle.usb_machine.specs.Plain.{IsLayout};
ghost use Rattle.usb_machine.specs.Replay.{machine_for};
ghost use Rattle.usb_machine.specs.Tokens.{unused, unused_from};
ghost use Rattle.usb_serve.specs.Held.{Agrees};
ghost use Rattle.usb_serve.specs.SoFar.{IsSoFar};
ghost use Rattle.usb_side.specs.Side.{IsWholeSide, side_knows};

use std::alloc::Global;
use std::sync::Wait;
use usb_machine::{Layout, Opens, Parts};
use usb_serve::Controller;
use usb_types::Memory;

/// A host with nothing in it, its parts, and a controller of its devices. A turn may be made on them. No reply has moved a
/// transfer yet.
pub fn begin<H: Opens, R: Wait, D: Drop>(
    rt: &R,
    alloc: Global,
    layout: Layout,
    passes: u32,
    devices: Vec<D>,
) -> Result<(Parts<H, H::Server, H::Hub, H::Pass>, Controller<D>), Memory>
    requires passes { (0 < passes) × (passes ≤ 64) }
    requires layout { IsLayout layout }
    requires devices { All (λ (shape : Shape). shape.device < length devices.items) layout.shapes }
    ensures machine { IfOk result (λ r. H.machine r.0.host ≡ machine_for layout passes) }
    ensures here { IfOk result (λ r. H.is_of r.0.host (H.Server.own r.0.server) × H.is_of r.0.host (H.Hub.own r.0.hub) × All (H.is_of r.0.host) r.0.passes.items) }
    ensures tokens { IfOk result (λ r. (H.known (H.Server.own r.0.server) ≡ unused SERVER) × (H.known (H.Hub.own r.0.hub) ≡ unused HUB)) }
    ensures passes { IfOk result (λ r. map H.known r.0.passes.items ≡ unused_from 2 passes) }
    ensures agrees { IfOk result (λ r. Agrees (side_knows (H.machine r.0.host) (H.known (H.Server.own r.0.server)) (H.Server.given r.0.server) (IsWholeSide (H.machine r.0.host) (H.is_of r.0.host (H.Server.own r.0.server)) (H.known (H.Server.own r.0.server)) (H.Server.pending r.0.server) (H.Server.given r.0.server) (H.Server.has_room r.0.server)) (H.is_settled r.0.host r.0.server)) r.1) }
    ensures so_far { IfOk result (λ r. IsSoFar (side_knows (H.machine r.0.host) (H.known (H.Server.own r.0.server)) (H.Server.given r.0.server) (IsWholeSide (H.machine r.0.host) (H.is_of r.0.host (H.Server.own r.0.server)) (H.known (H.Server.own r.0.server)) (H.Server.pending r.0.server) (H.Server.given r.0.server) (H.Server.has_room r.0.server)) (H.is_settled r.0.host r.0.server)) (λ e. []) r.1.ends.items) }
    ensures room { IfOk result (λ r. H.Server.given r.0.server < 2 ^ 63) }
    ensures devices { IfOk result (λ r. r.1.devices.items ≡ devices.items) }
{
    let controller = Controller::new(alloc, &layout, devices)?;
    let parts = H::new(rt, alloc, layout, passes)?;
    Ok((parts, controller))
}
