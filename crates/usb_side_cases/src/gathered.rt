//! A crowd's host is made, shared by all its threads, and closed.
ghost use Rattle.std.specs.Prelude.{◌≡◌, ℕ, ◌+◌, ◌<◌, ◌≤◌, All, IfOk};
ghost use Rattle.usb_machine.specs.declared.entry.TheConstants.{HUB};
ghost use Rattle.usb_machine.specs.declared.layout.Shape.{Shape};
ghost use Rattle.usb_machine.specs.Plain.{IsLayout};
ghost use Rattle.usb_machine.specs.Replay.{machine_for};
ghost use Rattle.usb_machine.specs.History.{HasHome};
ghost use Rattle.usb_machine.specs.Legal.{IsLegal};
ghost use Rattle.usb_machine.specs.Laws.{submits, gives, ends};
ghost use Rattle.usb_machine.specs.Parts.{part_of};
ghost use Rattle.usb_side_cases.specs.Crowd.{AreCalls, AreLastCalls};

use crate::crowd::call_and_serve;
use crate::seldom::Seldom;
use std::alloc::Global;
use std::sync::Wait;
use std::thread::Threads;
use usb_machine::{Layout, Opens, Parts};
use usb_side::begin;
use usb_turn::Ended;
use usb_turn_host::{Stock, TurnHost};
use usb_types::{Memory, UrbId};

/// The whole run: of a host over this layout, whatever host it is, the history is legal, the part of each caller and of
/// the hub is the calls that it made, and each accepted submit came back once and was handled once.
pub fn crowd_in_threads<H: Opens + Sync, R: Threads + Wait + Sync>(
    rt: &R,
    alloc: Global,
    layout: Layout,
    passes: u32,
    urb: UrbId,
) -> Result<H::Closed, Memory>
    requires passes { (0 < passes) × (passes ≤ 64) }
    requires layout { IsLayout layout }
    requires device { All (λ (shape : Shape). shape.device < 1) layout.shapes }
    requires urb { HasHome (machine_for layout passes) urb.0 }
    requires only { (u : ℕ) → HasHome (machine_for layout passes) u → u ≡ urb.0 }
    ensures legal { IfOk result (λ c. IsLegal (machine_for layout passes) (H.history c)) }
    ensures callers { IfOk result (λ c. (k : ℕ) → k < passes → AreCalls (machine_for layout passes) urb.0 (2 + k) (part_of (H.history c) (2 + k))) }
    ensures hub { IfOk result (λ c. AreLastCalls (machine_for layout passes) urb.0 HUB (part_of (H.history c) HUB)) }
    ensures back { IfOk result (λ c. (gives (H.history c) urb.0 ≡ submits (H.history c) urb.0) × (ends (H.history c) urb.0 ≡ submits (H.history c) urb.0)) }
{
    let mut devices = Vec::new(alloc);
    devices.push(Seldom::new())?;
    let (parts, controller) = begin::<H, R, Seldom>(rt, alloc, layout, passes, devices)?;
    let Parts {
        host,
        server,
        hub,
        passes: all,
    } = parts;
    let (server, ended) = call_and_serve(rt, alloc, &host, server, controller, hub, all, urb);
    let (hub, called) = ended;
    let Ok(called) = called else {
        return Err(Memory);
    };
    Ok(host.close(server, hub, called))
}

/// The same over the host that callers take by turns.
pub fn crowd_by_turns<R: Threads + Wait + Sync>(
    rt: &R,
    alloc: Global,
    layout: Layout,
    passes: u32,
    urb: UrbId,
) -> Result<Ended<Stock>, Memory>
    requires passes { (0 < passes) × (passes ≤ 64) }
    requires layout { IsLayout layout }
    requires device { All (λ (shape : Shape). shape.device < 1) layout.shapes }
    requires urb { HasHome (machine_for layout passes) urb.0 }
    requires only { (u : ℕ) → HasHome (machine_for layout passes) u → u ≡ urb.0 }
    ensures legal { IfOk result (λ c. IsLegal (machine_for layout passes) c) }
    ensures callers { IfOk result (λ c. (k : ℕ) → k < passes → AreCalls (machine_for layout passes) urb.0 (2 + k) (part_of c (2 + k))) }
    ensures hub { IfOk result (λ c. AreLastCalls (machine_for layout passes) urb.0 HUB (part_of c HUB)) }
    ensures back { IfOk result (λ c. (gives c urb.0 ≡ submits c urb.0) × (ends c urb.0 ≡ submits c urb.0)) }
{
    crowd_in_threads::<TurnHost, R>(rt, alloc, layout, passes, urb)
}
