//! The run as it begins.
ghost use Rattle.std.specs.Prelude.{◌≡◌, [], map, None, IfOk};
ghost use Rattle.usb_scene.specs.WellFormed.{IsWellFormed};
ghost use Rattle.usb_prepare.specs.Below.{below};
ghost use Rattle.usb_prepare.specs.Ready.{IsPrepared};
ghost use Rattle.usb_prepare.specs.Layout.{homes_of, urb_count};
ghost use Rattle.usb_trace.specs.Plan.{machine_of};
ghost use Rattle.usb_trace.specs.NewCores.{owners_of};
ghost use Rattle.usb_line.specs.Opened.{IsNewEnd, AreNewEnds, IsOpenedRun, new_urb};
ghost use Rattle.usb_machine.specs.History.{or_zero};
ghost use Rattle.usb_machine.specs.Plain.{Stands};

use crate::run::{EndRow, LineRun, UrbRow};
use std::alloc::{AllocError, Global};
use usb_bind::Board;
use usb_class::Owner;
use usb_machine::{Plain, Shape};
use usb_prepare::{Found, Prepared};
use usb_scene::Scene;
use usb_trace::{Received, again_said, new_cores, owners_in};
use usb_types::{Buf, List, Memory};

// An endpoint where nothing waits.
fn end_row(alloc: Global, shape: &Shape) -> EndRow
    ensures { IsNewEnd shape.now result }
{
    EndRow {
        shape: *shape,
        asleep: false,
        received: Received {
            count: 0,
            first: Buf::of(Vec::new(alloc)),
        },
    }
}

fn end_rows(alloc: Global, shapes: &[Shape]) -> Result<Vec<EndRow>, AllocError>
    ensures { IfOk result (λ ends. AreNewEnds shapes.now ends.items) }
{
    let mut ends = Vec::new(alloc);
    for shape in shapes {
        ends.push(end_row(alloc, shape))?;
    }
    Ok(ends)
}

// An URB before its first submit.
fn urb_row(home: Option<u32>, owner: Option<Owner>, again: u32) -> UrbRow
    ensures { result ≡ record { home = or_zero home; owner = owner; again = again; transfer = None } }
{
    UrbRow {
        home: home.unwrap_or(0),
        owner,
        again,
        transfer: None,
    }
}

// The URBs before their first submits.
fn urb_rows(
    alloc: Global,
    scene: &Scene,
    owners: &[Option<Owner>],
    homes: &[Option<u32>],
) -> Result<Vec<UrbRow>, AllocError>
    requires good { IsWellFormed scene.now }
    requires owned { owners.now ≡ owners_of scene.now }
    requires homes { homes.now ≡ homes_of scene.now }
    ensures { IfOk result (λ urbs. urbs.items ≡ map (new_urb scene.now) (below (urb_count scene.now))) }
{
    let mut urbs = Vec::new(alloc);
    for (u, home) in homes.iter().enumerate() {
        urbs.push(urb_row(*home, owners[u], again_said(scene.urbs.items(), u)))?;
    }
    Ok(urbs)
}

/// The run before its first entry, and what its report says of the prepared scene.
#[derive(Drop)]
pub struct OpenedRun<'a> {
    pub run: LineRun<'a>,
    pub found: List<Found>,
    pub board: Board,
}

// The run of this machine before its first entry.
fn started<'a>(
    alloc: Global,
    scene: &Scene,
    prepared: Prepared<'a>,
    plain: Plain,
) -> Result<OpenedRun<'a>, Memory>
    requires good { IsWellFormed scene.now }
    requires prepared { IsPrepared scene.now prepared }
    requires stands { Stands plain (machine_of scene.now) [] }
    ensures { IfOk result (IsOpenedRun scene.now) }
{
    let Prepared {
        devices,
        found,
        board,
        ids,
        layout,
    } = prepared;
    let Ok(ends) = end_rows(alloc, layout.shapes.items()) else {
        return Err(Memory);
    };
    let homes = layout.homes.items();
    let owners = owners_in(alloc, scene, &board, homes.len() as u32)?;
    let Ok(urbs) = urb_rows(alloc, scene, &owners, homes) else {
        return Err(Memory);
    };
    let cores = new_cores(alloc, &owners, board.bindings(), ids.items())?;
    let run = LineRun {
        plain,
        devices,
        ends,
        urbs,
        cores,
        given: Vec::new(alloc),
        down: false,
    };
    Ok(OpenedRun { run, found, board })
}

/// The run of a prepared scene before its first entry.
pub fn opening<'a>(
    alloc: Global,
    scene: &Scene,
    prepared: Prepared<'a>,
) -> Result<OpenedRun<'a>, Memory>
    requires good { IsWellFormed scene.now }
    requires prepared { IsPrepared scene.now prepared }
    ensures { IfOk result (IsOpenedRun scene.now) }
{
    let passes = scene.threads.items().len() as u32 + 3;
    let plain = Plain::new(alloc, &prepared.layout, passes)?;
    started(alloc, scene, prepared, plain)
}
