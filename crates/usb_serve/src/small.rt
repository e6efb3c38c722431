//! A small device and a small handler, and a run of three URBs of which one is killed while it waits.
ghost use Rattle.std.specs.Prelude.{ℕ, ◌≡◌, ◌<◌, ◌++◌, [], List, Some, None, Ok, All, IfOk, slice_get, length, Option};
ghost use Rattle.std.proofs.Common.{arith};
ghost use Rattle.usb_types.specs.declared.urb.Action.TheVariants as action;
ghost use Rattle.usb_machine.specs.declared.transfer.Transfer.{Transfer};
ghost use Rattle.usb_machine.specs.declared.entry.Entry.{Entry};
ghost use Rattle.usb_machine.specs.declared.layout.Shape.{Shape};
ghost use Rattle.usb_machine.specs.Legal.{IsLegal};
ghost use Rattle.usb_machine.specs.Plain.{IsLayout};
ghost use Rattle.usb_machine.specs.Replay.{machine_for};
ghost use Rattle.usb_machine.specs.Shapes.{HasWindow};
ghost use Rattle.usb_serve.specs.Small.{HasHomeIn, ThreeRun};
ghost use Rattle.usb_xfer.specs.declared.script.What.TheVariants as what;

use crate::handler::Handler;
use crate::solo::{Solo, Stopped};
use std::alloc::{AllocError, Global};
use usb_ctrl::Setup;
use usb_machine::{Layout, Transfer};
use usb_types::{Action, Code, Memory, UrbId};
use usb_xfer::{CtrlReply, Device, InReply, OutReply};

/// A device that answers Nak to all.
#[derive(Drop)]
pub struct Silent {
    pub address: u8,
}

impl Device for Silent {
    ghost replies = { λ old address question r new. r ≡ what.Nak };

    ghost items_used = { λ d. 0 };

    ghost never_falls = { λ old address question r new is. Prim.omega arith };

    fn input(&mut self, _address: u8, _room: &mut [u8]) -> InReply {
        InReply::Nak
    }

    fn output(&mut self, _address: u8, _packet: &[u8]) -> OutReply {
        OutReply::Nak
    }

    fn control(&mut self, _setup: Setup, _out: &[u8], _room: &mut [u8]) -> CtrlReply {
        CtrlReply::Nak
    }

    fn used(&self) -> u64 {
        0
    }
}

/// A handler that lets all rest, and asks nothing. A question that it is handed back it keeps.
#[derive(Drop)]
pub struct Resting {
    pub question: Option<Transfer>,
}

impl Handler for Resting {
    ghost asks_with = { λ h. [] };

    ghost question = { λ h. h.question };

    ghost completes = { λ old u code t r new. r ≡ Ok action.Rest };

    ghost asks = { λ old q new. q ≡ None };

    ghost unasks = { λ old t new. new.question ≡ Some t };

    fn complete(&mut self, _urb: UrbId, _code: Code, _t: &Transfer) -> Result<Action, Memory> {
        Ok(Action::Rest)
    }

    fn ask(&mut self) -> Option<(UrbId, Transfer)> {
        None
    }

    fn unask(&mut self, t: Transfer) {
        self.question = Some(t);
    }
}

/// One caller submits three transfers to a device that answers Nak to all. They are served, and another caller kills the
/// second URB, which waits. Answers the kill's result.
pub fn kill_one_of_three(
    alloc: Global,
    layout: &Layout,
    first: Transfer,
    second: Transfer,
    third: Transfer,
) -> Result<Stopped, Memory>
    requires layout { IsLayout layout.now }
    requires devices { All (λ (shape : Shape). shape.device < 1) layout.now.shapes }
    requires homes { HasHomeIn layout.now 0 × HasHomeIn layout.now 1 × HasHomeIn layout.now 2 }
    requires first { HasWindow first × (first.actual ≡ 0) }
    requires second { HasWindow second × (second.actual ≡ 0) }
    requires third { HasWindow third × (third.actual ≡ 0) }
    ensures ran { IfOk result (λ stopped. (h : List Entry) × IsLegal (machine_for layout.now 2) h × ThreeRun (machine_for layout.now 2) first second third stopped h) }
{
    let devices = silent_devices(alloc)?;
    let mut solo = Solo::new(alloc, layout, 2, devices, Resting { question: None })?;
    let _first = solo.submit(2, UrbId(0), first);
    let _second = solo.submit(2, UrbId(1), second);
    let _third = solo.submit(2, UrbId(2), third);
    match solo.serve() {
        Ok(_) => solo.kill(3, UrbId(1)),
        Err(memory) => Err(memory),
    }
}

fn silent_devices(alloc: Global) -> Result<Vec<Silent>, Memory>
    ensures { IfOk result (λ v. length v.items ≡ 1) }
{
    Ok(one_silent(alloc)?)
}

fn one_silent(alloc: Global) -> Result<Vec<Silent>, AllocError>
    ensures { IfOk result (λ v. length v.items ≡ 1) }
{
    let mut devices = Vec::with_capacity(alloc, 1)?;
    devices.push(Silent { address: 0 })?;
    Ok(devices)
}
