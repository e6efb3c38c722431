//! As many threads as a host has passes, which all poison one URB.
ghost use Rattle.std.specs.Prelude.{◌≡◌, ℕ, ◌+◌, ◌<◌, ◌≤◌, IfOk, Option, All};
ghost use Rattle.usb_types.specs.declared.errno.Code.{Code};
ghost use Rattle.usb_machine.specs.Plain.{IsLayout};
ghost use Rattle.usb_machine.specs.Replay.{machine_for};
ghost use Rattle.usb_machine.specs.Calls.{poison_entries};
ghost use Rattle.usb_machine.specs.History.{HasHome};
ghost use Rattle.usb_machine.specs.Legal.{IsLegal};
ghost use Rattle.usb_machine.specs.Parts.{part_of};
ghost use Rattle.usb_machine.specs.HostCalls.{IsUrb};
ghost use Rattle.usb_host_cases.specs.Ran.{MayReject, Poisons, PoisonedAll};

use crate::closes::poison_as;
use std::alloc::{AllocError, Global};
use std::sync::Wait;
use std::thread::{self, Threads};
use usb_machine::{Host, Layout, Opens, Parts};
use usb_types::{Memory, UrbId};

/// A poison, of which the answer is let go.
fn poison_only<H: Host, R: Wait>(rt: &R, host: &H, pass: H::Pass, urb: UrbId) -> H::Pass
    requires here { H.is_of host.now pass }
    requires urb { IsUrb (H.machine host.now) urb.0 }
    requires room { MayReject (H.known pass) urb.0 }
    ensures { Poisons (H.machine host.now) H.known (H.is_of host.now) urb.0 pass result }
{
    let (pass, _rest) = poison_as(rt, host, pass, urb);
    pass
}

/// A thread for each pass.
fn poison_all<H: Host + Sync, R: Threads + Wait + Sync>(
    rt: &R,
    host: &H,
    passes: Vec<H::Pass>,
    urb: UrbId,
) -> Result<Vec<H::Pass>, AllocError>
    requires urb { IsUrb (H.machine host.now) urb.0 }
    requires here { All (λ p. H.is_of host.now p × MayReject (H.known p) urb.0) passes.items }
    ensures { IfOk result (λ v. PoisonedAll (H.machine host.now) H.known (H.is_of host.now) urb.0 passes.items v.items) }
{
    thread::map_vec(
        rt,
        passes,
        &|pass: H::Pass| -> H::Pass
            requires { H.is_of host.now pass × IsUrb (H.machine host.now) urb.0 × MayReject (H.known pass) urb.0 }
            ensures { Poisons (H.machine host.entry.now) H.known (H.is_of host.entry.now) urb.0 pass result }
        { poison_only(rt, host, pass, urb) },
    )
}

/// The whole run: of a host over this layout, whatever host it is, the history is legal, and the part of each pass is a
/// poison.
pub fn poison_in_threads<H: Opens + Sync, R: Threads + Wait + Sync>(
    rt: &R,
    alloc: Global,
    layout: Layout,
    passes: u32,
    urb: UrbId,
) -> Result<H::Closed, Memory>
    requires passes { (0 < passes) × (passes ≤ 64) }
    requires layout { IsLayout layout }
    requires urb { IsUrb (machine_for layout passes) urb.0 }
    requires only { (u : ℕ) → HasHome (machine_for layout passes) u → u ≡ urb.0 }
    ensures legal { IfOk result (λ c. IsLegal (machine_for layout passes) (H.history c)) }
    ensures poisons { IfOk result (λ c. (k : ℕ) → k < passes → (rest : Option ℕ) × (a : Code) × part_of (H.history c) (2 + k) ≡ poison_entries (2 + k) urb.0 a rest) }
{
    let parts = H::new(rt, alloc, layout, passes)?;
    let Parts {
        host,
        server,
        hub,
        passes: all,
    } = parts;
    let Ok(poisoned) = poison_all(rt, &host, all, urb) else {
        return Err(Memory);
    };
    Ok(host.close(server, hub, poisoned))
}
