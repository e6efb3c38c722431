//! A layout of one URB at a bulk OUT endpoint.
ghost use Rattle.std.specs.Prelude.{◌≡◌, ◌<◌, ℕ, All, IfOk};
ghost use Rattle.usb_machine.specs.declared.layout.Shape.{Shape};
ghost use Rattle.usb_machine.specs.Plain.{IsLayout};
ghost use Rattle.usb_machine.specs.Replay.{machine_for};
ghost use Rattle.usb_machine.specs.History.{HasHome};
ghost use Rattle.usb_side_cases.specs.Rounds.{TakesAll};
ghost use Rattle.usb_side_cases.specs.OneOut.{one_out_layout};

use std::alloc::Global;
use usb_machine::{EndKind, Layout, Shape};
use usb_types::{List, Memory};

fn exact_layout(alloc: Global) -> Result<Layout, Memory>
    ensures { IfOk result (λ l. l ≡ one_out_layout) }
{
    let mut homes = List::of(Vec::new(alloc));
    homes.push(Some(0))?;
    let mut shapes = List::of(Vec::new(alloc));
    shapes.push(Shape {
        device: 0,
        address: 0x02,
        kind: EndKind::Bulk,
        max: 64,
        interval: 0,
    })?;
    Ok(Layout { homes, shapes })
}

/// One URB at a bulk OUT endpoint of device 0.
pub fn one_out(alloc: Global) -> Result<Layout, Memory>
    ensures layout { IfOk result IsLayout }
    ensures devices { IfOk result (λ l. All (λ (shape : Shape). shape.device < 1) l.shapes) }
    ensures home { IfOk result (λ l. HasHome (machine_for l 2) 0) }
    ensures only { IfOk result (λ l. (u : ℕ) → HasHome (machine_for l 2) u → u ≡ 0) }
    ensures takes { IfOk result (λ l. TakesAll (machine_for l 2) 0) }
{
    exact_layout(alloc)
}
