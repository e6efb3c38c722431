//! How anchors begin.
ghost use Rattle.std.specs.Prelude.{◌≡◌, map, All, IfOk, slice_index_or};
ghost use Rattle.usb_anchors.specs.Opened.{turn_of, HasLeft};

use crate::anchors::{AnchorPass, Anchors};
use crate::rack::{Plan, Rack};
use std::alloc::{AllocError, Global};
use std::snapshot::Snapshot;
use usb_anchor::{AnchorCore, Victims};
use usb_machine::Meets;
use usb_turn::{TurnPass, Turns};
use usb_types::Memory;

impl<H: Meets> Anchors<H> {
    ghost use Rattle.std.specs.Prelude.{◌≡◌, ◌+◌, ◌<◌, ◌≤◌, ◌^◌, [], length, sum, map, All, IfOk, slice_index_or};
    ghost use Rattle.usb_turn.specs.Pass.{dealt};
    ghost use Rattle.usb_turn.specs.Shown.{id_of};
    ghost use Rattle.usb_anchors.specs.Rack.{Fits};
    ghost use Rattle.usb_anchors.specs.Opened.{IsPlan, key_of, turn_of, HasLeft};

    /// No URB is on an anchor and nothing is poisoned. The pass is one of the host, and the anchors' own from now on. It
    /// answers a pass for each caller, in order, and last the server's.
    pub fn new(
        alloc: Global,
        host: &H,
        anchors: u32,
        urbs: u32,
        calls: &[u32],
        pass: H::Pass,
    ) -> Result<(Anchors<H>, Vec<AnchorPass<H>>), Memory>
        requires callers { length calls.now ≤ 63 }
        requires calls { sum calls.now < 2 ^ 31 }
        requires fits { Fits anchors urbs (H.machine host.now) }
        requires here { H.is_of host.now pass }
        requires pass { (H.known pass).mine ≡ [] }
        ensures plan { IfOk result (λ r. IsPlan (key_of r.0.turns) anchors urbs calls.now host.now pass) }
        ensures passes { IfOk result (λ r. map turn_of r.1.items ≡ dealt (id_of r.0.turns) (length calls.now + 1)) }
        ensures left { IfOk result (λ r. All (HasLeft calls.now) r.1.items) }
    {
        let Ok(list) = calls.to_vec(alloc) else {
            return Err(Memory);
        };
        let plan = Plan {
            anchors,
            urbs,
            calls: Snapshot::of(&list),
            host: Snapshot::of(host),
            first: Snapshot::of(&pass),
        };
        let rack = Rack {
            core: AnchorCore::new(alloc, anchors, urbs, calls)?,
            pass,
            raised: Victims::new(alloc, urbs)?,
            grew: false,
            plan,
        };
        let Ok((turns, passes)) = Turns::new(alloc, rack, calls.len() as u32 + 1) else {
            return Err(Memory);
        };
        let Ok(room) = Vec::with_capacity(alloc, calls.len() + 1) else {
            return Err(Memory);
        };
        match with_left(alloc, passes, calls) {
            Ok(all) => Ok((Anchors { turns, room }, all)),
            Err(_) => Err(Memory),
        }
    }
}

/// Each pass with the calls that its caller may make.
fn with_left<H: Meets>(
    alloc: Global,
    mut turns: Vec<TurnPass<Rack<H>>>,
    calls: &[u32],
) -> Result<Vec<AnchorPass<H>>, AllocError>
    ensures turns { IfOk result (λ v. map turn_of v.items ≡ turns.items) }
    ensures left { IfOk result (λ v. All (HasLeft calls.now) v.items) }
{
    let mut all = Vec::with_capacity(alloc, turns.len())?;
    while !turns.is_empty() {
        let turn = turns.remove(0);
        let left = calls_of(calls, turn.number());
        all.push(AnchorPass { turn, left })?;
    }
    Ok(all)
}

fn calls_of(calls: &[u32], caller: u32) -> u32
    ensures { result ≡ slice_index_or calls.now caller 0 }
{
    if (caller as usize) < calls.len() {
        calls[caller as usize]
    } else {
        0
    }
}
