//! A layout of one URB.
ghost use Rattle.std.specs.Prelude.{◌≡◌, ℕ, ◌∷◌, [], Some, IfOk, length};
ghost use Rattle.usb_machine.specs.History.{HasHome};
ghost use Rattle.usb_machine.specs.Plain.{IsLayout};
ghost use Rattle.usb_machine.specs.Replay.{machine_for};

use std::alloc::Global;
use usb_machine::{EndKind, Layout, Shape};
use usb_types::{List, Memory};

fn homes(alloc: Global) -> Result<List<Option<u32>>, Memory>
    ensures { IfOk result (λ l. l ≡ Some 0 ∷ []) }
{
    let mut homes = List::of(Vec::new(alloc));
    homes.push(Some(0))?;
    Ok(homes)
}

fn shapes(alloc: Global) -> Result<List<Shape>, Memory>
    ensures { IfOk result (λ l. length l ≡ 1) }
{
    let mut shapes = List::of(Vec::new(alloc));
    shapes.push(Shape {
        device: 0,
        address: 0x81,
        kind: EndKind::Bulk,
        max: 64,
        interval: 0,
    })?;
    Ok(shapes)
}

/// One URB at a bulk endpoint.
pub fn one_urb(alloc: Global) -> Result<Layout, Memory>
    ensures layout { IfOk result IsLayout }
    ensures one { IfOk result (λ l. length l.homes ≡ 1) }
    ensures only { IfOk result (λ l. (passes u : ℕ) → HasHome (machine_for l passes) u → u ≡ 0) }
{
    let homes = homes(alloc)?;
    let shapes = shapes(alloc)?;
    Ok(Layout { homes, shapes })
}
