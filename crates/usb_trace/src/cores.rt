//! The cores of drivers as a run begins with them.
ghost use Rattle.std.specs.Prelude.{◌≡◌, ◌<◌, ◌^◌, length, option_copied, IfOk};
ghost use Rattle.usb_trace.specs.NewCores.{origin_among, IsNewCore, AreNewCores};

use crate::numbering::own_number;
use std::alloc::Global;
use usb_bind::Bound;
use usb_class::{Core, Owner};
use usb_types::{Buf, Memory, Role};

// The core of a driver that has seen nothing.
fn new_core(
    alloc: Global,
    owners: &[Option<Owner>],
    bound: &Bound,
    id: Option<&Buf>,
) -> Result<Core, Memory>
    requires { length owners.now < 2 ^ 32 }
    ensures { IfOk result (λ core. IsNewCore (origin_among owners.now bound.now (option_copied id.entry)) bound.now core) }
{
    let number = own_number(owners, bound.urb(Role::Ctl));
    let id = match id {
        Some(id) => id.bytes(),
        None => &[],
    };
    Core::new(alloc, bound.driver, number, bound.interface, id)
}

/// The cores of the drivers of these bindings, which have seen nothing, by the owners of all URBs and the ids that their
/// devices reported.
pub fn new_cores(
    alloc: Global,
    owners: &[Option<Owner>],
    bindings: &[Bound],
    ids: &[Buf],
) -> Result<Vec<Core>, Memory>
    requires { length owners.now < 2 ^ 32 }
    ensures { IfOk result (λ cores. AreNewCores owners.now bindings.now ids.now cores.items) }
{
    let mut cores = Vec::new(alloc);
    for (place, bound) in bindings.iter().enumerate() {
        let core = new_core(alloc, owners, bound, ids.get(place))?;
        cores.push(core)?;
    }
    Ok(cores)
}
