//! What each device is found to be.
ghost use Rattle.std.specs.Prelude.{◌≡◌, Some, None, length, IfOk, IfSome};
ghost use Rattle.usb_ctrl.specs.declared.enumerator.Attached.{Attached};
ghost use Rattle.usb_bind.specs.Interfaces.{interfaces_of};
ghost use Rattle.usb_bind.specs.Board.{attached_at};
ghost use Rattle.usb_prepare.specs.Prepared.{taken_by, face_of, faces_of, found_attached};
ghost use Rattle.usb_prepare.specs.Bindings.{found_by};

use crate::found::{Found, InterfaceFound, Probe, Taken};
use std::alloc::Global;
use usb_bind::{Board, Driver, ProbeFault, interface_at, interfaces};
use usb_ctrl::{Attached, EnumFault};
use usb_desc::{Alt, ConfigTree};
use usb_types::{List, Memory};

// Why no driver has an interface, by how its probe went.
fn not_taken(probe: Probe) -> Taken
    ensures { result ≡ taken_by None probe }
{
    match probe {
        Probe::Refused(ProbeFault::OtherBusy(_)) => Taken::Busy,
        Probe::Refused(ProbeFault::Full { .. }) => Taken::Full,
        Probe::Cancelled => Taken::Failed,
        _ => Taken::Nobody,
    }
}

// The driver that has an interface at the end, or why none has, by how its probe went.
fn taken(holder: Option<Driver>, probe: Probe) -> Taken
    ensures { result ≡ taken_by holder probe }
{
    match holder {
        Some(driver) => Taken::By(driver),
        None => not_taken(probe),
    }
}

fn face(board: &Board, device: u32, alt: &Alt, probe: Probe) -> InterfaceFound
    ensures { result ≡ face_of board.now device alt.now probe }
{
    InterfaceFound {
        number: alt.number,
        class: alt.class,
        subclass: alt.subclass,
        protocol: alt.protocol,
        taken: taken(board.holder(device, alt.number), probe),
    }
}

// The interfaces of a configuration, in descriptor order, each with how its probe went.
fn faces(
    alloc: Global,
    board: &Board,
    device: u32,
    config: &ConfigTree,
    probes: &[Probe],
) -> Result<List<InterfaceFound>, Memory>
    requires { length probes.now ≡ length (interfaces_of config.now) }
    ensures { IfOk result (λ faces. faces ≡ faces_of board.now device (interfaces_of config.now) probes.now) }
{
    let numbers = interfaces(alloc, config)?;
    let mut faces = List::of(Vec::new(alloc));
    for (i, number) in numbers.items().iter().enumerate() {
        let Some(alt) = interface_at(config, *number as u16) else {
            unreachable!();
        };
        let probe = probes[i];
        faces.push(face(board, device, alt, probe))?;
    }
    Ok(faces)
}

// What an attached device is found to be.
fn attached(
    alloc: Global,
    board: &Board,
    device: u32,
    attached: &Attached,
    probes: &[Probe],
) -> Result<Found, Memory>
    requires { length probes.now ≡ length (interfaces_of attached.now.config) }
    ensures { IfOk result (λ found. found ≡ found_attached board.now device probes.now (Some attached.now)) }
{
    Ok(Found::Attached {
        vendor: attached.device.vendor,
        product: attached.device.product,
        faces: faces(alloc, board, device, &attached.config, probes)?,
    })
}

/// What a device is found to be, by the fault of its enumeration, if there is one, and by how its probes went.
pub fn found_device(
    alloc: Global,
    board: &Board,
    device: u32,
    fault: Option<EnumFault>,
    probes: &[Probe],
) -> Result<Found, Memory>
    requires { IfSome (attached_at board.now device) (λ (a : Attached). length probes.now ≡ length (interfaces_of a.config)) }
    ensures { IfOk result (λ found. found ≡ found_by board.now device probes.now fault) }
{
    match (fault, board.attached(device)) {
        (Some(fault), _) => Ok(Found::Fault(fault)),
        (None, Some(one)) => attached(alloc, board, device, one, probes),
        (None, None) => Ok(Found::Raw),
    }
}
