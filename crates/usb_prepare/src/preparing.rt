//! The preparation of a scene, as one call.
ghost use Rattle.std.specs.Prelude.{◌≡◌, ◌≤◌, ◌<◌, [], replicate, None, length, IfOk};
ghost use Rattle.usb_scene.specs.WellFormed.{IsWellFormed};
ghost use Rattle.usb_prepare.specs.Prepared.{attached_from, board_of, pool_of, found_of, probes_of};
ghost use Rattle.usb_prepare.specs.Bindings.{enumerations_from, faults_from, HaveHeard, IsOpened, AreProbed};
ghost use Rattle.usb_prepare.specs.Ready.{IsPrepared};

use crate::beginning::begin_all;
use crate::ends::number_ends;
use crate::faces::found_device;
use crate::found::{Found, Probe};
use crate::homes::take_own;
use crate::prepared::Prepared;
use crate::probing::Bindings;
use std::alloc::Global;
use usb_bind::{Board, UrbPool};
use usb_ctrl::{Attached, EnumFault};
use usb_device::Scripted;
use usb_machine::Shape;
use usb_scene::Scene;
use usb_types::limits::MOST_URBS;
use usb_types::{List, Memory};

// The most bytes of a reply: a control transfer says how many in two bytes (USB 2.0 §9.3.5).
const ROOM: usize = 65535;

fn room(alloc: Global) -> Result<Vec<u8>, Memory>
    ensures { IfOk result (λ room. length room.items ≡ 65535) }
{
    Ok(vec![in alloc; 0u8; ROOM]?)
}

/// The board and the pool before the first probe, and the endpoints of the host.
#[derive(Drop)]
struct Opened {
    bindings: Bindings,
    shapes: List<Shape>,
}

// The board of these devices, and the pool with the scene's own URBs out.
fn open(alloc: Global, scene: &Scene, attached: List<Option<Attached>>) -> Result<Opened, Memory>
    requires good { IsWellFormed scene.now }
    requires attached { attached ≡ attached_from 0 scene.now.devices }
    ensures { IfOk result (IsOpened scene.now) }
{
    let ends = number_ends(alloc, scene, attached.items())?;
    let mut pool = UrbPool::new(alloc, MOST_URBS as u32)?;
    take_own(&mut pool, scene, &ends);
    let board = Board::new(alloc, attached, ends.firsts)?;
    Ok(Opened {
        bindings: Bindings {
            board,
            pool,
            ids: List::of(Vec::new(alloc)),
        },
        shapes: ends.shapes,
    })
}

// Probes the interfaces of all devices. Answers how the probes of each went.
fn probe_all(
    alloc: Global,
    scene: &Scene,
    bindings: &mut Bindings,
    devices: &mut [Scripted<'_>],
    room: &mut [u8],
) -> Result<List<List<Probe>>, Memory>
    requires good { IsWellFormed scene.now }
    requires board { bindings.old.board ≡ board_of scene.now }
    requires pool { bindings.old.pool ≡ pool_of scene.now }
    requires ids { bindings.old.ids ≡ [] }
    requires room { 1024 ≤ length room.old }
    requires heard { HaveHeard scene.now.devices (enumerations_from 0 scene.now.devices) devices.old }
    ensures { IfOk result (AreProbed scene.now (length scene.now.devices) bindings.new devices.new) }
{
    let mut probes = List::of(Vec::new(alloc));
    for (i, device) in devices.iter_mut().enumerate() {
        probes.push(bindings.probe_all(alloc, device, i as u32, room)?)?;
    }
    Ok(probes)
}

// What all devices are found to be.
fn find_all(
    alloc: Global,
    scene: &Scene,
    board: &Board,
    faults: &[Option<EnumFault>],
    probes: &[List<Probe>],
) -> Result<List<Found>, Memory>
    requires good { IsWellFormed scene.now }
    requires board { board.now ≡ (probes_of scene.now).board }
    requires faults { faults.now ≡ faults_from 0 scene.now.devices }
    requires probes { probes.now ≡ (probes_of scene.now).probes }
    ensures { IfOk result (λ found. found ≡ found_of scene.now) }
{
    let mut found = List::of(Vec::new(alloc));
    for i in 0..scene.devices.items().len() {
        let fault = faults[i];
        let one = found_device(alloc, board, i as u32, fault, probes[i].items())?;
        found.push(one)?;
    }
    Ok(found)
}

/// Prepares a scene: its devices are made and those that aren't raw enumerated, their interfaces are probed, and each URB
/// gets its home.
pub fn prepare(alloc: Global, scene: &Scene) -> Result<Prepared<'_>, Memory>
    requires { IsWellFormed scene.now }
    ensures { IfOk result (IsPrepared scene.now) }
{
    let mut room = room(alloc)?;
    let begun = begin_all(alloc, scene, &mut room)?;
    let opened = open(alloc, scene, begun.attached)?;
    let mut bindings = opened.bindings;
    let mut devices = begun.devices;
    let probes = probe_all(alloc, scene, &mut bindings, &mut devices, &mut room)?;
    let found = find_all(
        alloc,
        scene,
        &bindings.board,
        begun.faults.items(),
        probes.items(),
    )?;
    let layout = bindings.pool.layout(alloc, opened.shapes)?;
    Ok(Prepared {
        devices,
        found,
        board: bindings.board,
        ids: bindings.ids,
        layout,
    })
}
