//! The completion handlers as a scene begins with them.
ghost use Rattle.std.specs.Prelude.{◌≡◌, slice_get, map, length, IfOk};
ghost use Rattle.usb_scene.specs.WellFormed.{IsWellFormed};
ghost use Rattle.usb_prepare.specs.Below.{below};
ghost use Rattle.usb_prepare.specs.Layout.{urb_count};
ghost use Rattle.usb_prepare.specs.Prepared.{probes_of, bindings_of, ids_of};
ghost use Rattle.usb_trace.specs.Plan.{again_in};
ghost use Rattle.usb_trace.specs.Handlers.{AreNewHandlers, new_handled};
ghost use Rattle.usb_trace.specs.NewCores.{owners_of};

use crate::cores::new_cores;
use crate::owner::owner_in;
use std::alloc::Global;
use usb_bind::{Board, Bound};
use usb_class::{HandledUrb, Handlers, Owner};
use usb_scene::{Scene, SceneUrb};
use usb_types::{Buf, Memory};

/// How often the handler of one of the scene's own URBs submits again.
pub fn again_said(urbs: &[SceneUrb], urb: usize) -> u32
    ensures { result ≡ again_in (slice_get urbs.now urb) }
{
    match urbs.get(urb) {
        Some(urb) => urb.again,
        None => 0,
    }
}

/// The owner of each URB, by its number.
pub fn owners_in(
    alloc: Global,
    scene: &Scene,
    board: &Board,
    urbs: u32,
) -> Result<Vec<Option<Owner>>, Memory>
    requires good { IsWellFormed scene.now }
    requires bound { board.now ≡ (probes_of scene.now).board }
    requires count { urbs ≡ urb_count scene.now }
    ensures { IfOk result (λ owners. owners.items ≡ owners_of scene.now) }
{
    let mut owners = Vec::new(alloc);
    for u in 0..urbs {
        owners.push(owner_in(board, u))?;
    }
    Ok(owners)
}

// Each URB, as its handler knows it before any came back.
fn new_urbs(
    alloc: Global,
    scene: &Scene,
    owners: &[Option<Owner>],
) -> Result<Vec<HandledUrb>, Memory>
    requires { owners.now ≡ owners_of scene.now }
    ensures { IfOk result (λ urbs. urbs.items ≡ map (new_handled scene.now) (below (urb_count scene.now))) }
{
    let mut urbs = Vec::new(alloc);
    for (u, owner) in owners.iter().enumerate() {
        urbs.push(HandledUrb {
            owner: *owner,
            again: again_said(scene.urbs.items(), u),
        })?;
    }
    Ok(urbs)
}

/// The completion handlers that a prepared scene begins with.
pub fn new_handlers(
    alloc: Global,
    scene: &Scene,
    owners: &[Option<Owner>],
    bindings: &[Bound],
    ids: &[Buf],
) -> Result<Handlers, Memory>
    requires good { IsWellFormed scene.now }
    requires owners { owners.now ≡ owners_of scene.now }
    requires bindings { bindings.now ≡ bindings_of scene.now }
    requires ids { ids.now ≡ ids_of scene.now }
    ensures { IfOk result (AreNewHandlers scene.now) }
{
    let cores = new_cores(alloc, owners, bindings, ids)?;
    let urbs = new_urbs(alloc, scene, owners)?;
    Ok(Handlers::new(cores, urbs))
}
