//! A host that is used by two passes in two threads, and then closed: all of it in one legal history.
ghost use Rattle.std.specs.Prelude.{◌≡◌, ◌∷◌, [], ℕ, IfOk, Option, true};
ghost use Rattle.usb_types.specs.declared.errno.Code.{Code};
ghost use Rattle.usb_machine.specs.Parts.{keeps};
ghost use Rattle.usb_machine.specs.Calls.{kill_entries, poison_entries};
ghost use Rattle.usb_machine.specs.History.{HasHome};
ghost use Rattle.usb_machine.specs.Fresh.{Grown, Known};
ghost use Rattle.usb_machine.specs.HostCalls.{IsUrb, number_of};
ghost use Rattle.usb_machine.specs.Tokens.{AreAll, OneKeeps, IsClosed};
ghost use Rattle.usb_host_cases.specs.Ran.{MayReject, Killed, Poisoned};

use crate::kills::kill_as;
use std::alloc::AllocError;
use std::sync::Wait;
use std::thread::{Threads, join};
use usb_cancel::poison;
use usb_machine::{Host, Opens, Transfer};
use usb_types::UrbId;

/// A poison by a pass that is handed on.
pub(crate) fn poison_as<H: Host, R: Wait>(
    rt: &R,
    host: &H,
    mut pass: H::Pass,
    urb: UrbId,
) -> (H::Pass, Option<Transfer>)
    requires here { H.is_of host.now pass }
    requires urb { IsUrb (H.machine host.now) urb.0 }
    requires room { MayReject (H.known pass) urb.0 }
    ensures here { H.is_of host.now result.0 }
    ensures poisoned { Poisoned (H.machine host.now) urb.0 (H.known pass) (H.known result.0) (number_of result.1) }
    ensures kept { keeps (H.known result.0).mine urb.0 ≡ true }
{
    let rest = poison(rt, host, &mut pass, urb);
    (pass, rest)
}

/// A poison in one thread and a kill of the same URB in another.
pub(crate) fn poison_and_kill<H: Host + Sync, R: Threads + Wait + Sync>(
    rt: &R,
    host: &H,
    a: H::Pass,
    b: H::Pass,
    urb: UrbId,
) -> ((H::Pass, Option<Transfer>), (H::Pass, Option<Transfer>))
    requires here { H.is_of host.now a × H.is_of host.now b }
    requires urb { IsUrb (H.machine host.now) urb.0 }
    requires room { MayReject (H.known a) urb.0 × MayReject (H.known b) urb.0 }
    ensures here { H.is_of host.now result.0.0 × H.is_of host.now result.1.0 }
    ensures first { Poisoned (H.machine host.now) urb.0 (H.known a) (H.known result.0.0) (number_of result.0.1) }
    ensures kept { keeps (H.known result.0.0).mine urb.0 ≡ true }
    ensures second { Killed (H.machine host.now) urb.0 (H.known b) (H.known result.1.0) (number_of result.1.1) }
{
    join(
        rt,
        || -> (H::Pass, Option<Transfer>)
            requires { H.is_of host.now a × IsUrb (H.machine host.now) urb.0 × MayReject (H.known a) urb.0 }
            ensures { H.is_of host.entry.now result.0 × Poisoned (H.machine host.entry.now) urb.0 (H.known a) (H.known result.0) (number_of result.1) × (keeps (H.known result.0).mine urb.0 ≡ true) }
        { poison_as(rt, host, a, urb) },
        || -> (H::Pass, Option<Transfer>)
            requires { H.is_of host.now b × IsUrb (H.machine host.now) urb.0 × MayReject (H.known b) urb.0 }
            ensures { H.is_of host.entry.now result.0 × Killed (H.machine host.entry.now) urb.0 (H.known b) (H.known result.0) (number_of result.1) }
        { kill_as(rt, host, b, urb) },
    )
}

/// Closes a host of two passes, which go back into the vector they came from.
pub fn close_two<H: Opens>(
    host: H,
    server: H::Server,
    hub: H::Hub,
    mut passes: Vec<H::Pass>,
    a: H::Pass,
    b: H::Pass,
) -> Result<H::Closed, AllocError>
    requires none { passes.items ≡ [] }
    requires here { H.is_of host (H.Server.own server) × H.is_of host (H.Hub.own hub) × H.is_of host a × H.is_of host b }
    requires all { AreAll (H.machine host) (H.known (H.Server.own server) ∷ H.known (H.Hub.own hub) ∷ H.known a ∷ H.known b ∷ []) }
    requires quiet { OneKeeps (H.machine host) (H.known (H.Server.own server) ∷ H.known (H.Hub.own hub) ∷ H.known a ∷ H.known b ∷ []) }
    ensures { IfOk result (λ c. IsClosed (H.machine host) (H.history c) (H.known (H.Server.own server) ∷ H.known (H.Hub.own hub) ∷ H.known a ∷ H.known b ∷ [])) }
{
    passes.push(a)?;
    passes.push(b)?;
    Ok(host.close(server, hub, passes))
}

/// The whole run: its history is legal, begins with what each pass has seen, and has the poison and the kill as parts of the two passes.
pub(crate) fn used_and_closed<H: Opens + Sync, R: Threads + Wait + Sync>(
    rt: &R,
    host: H,
    server: H::Server,
    hub: H::Hub,
    passes: Vec<H::Pass>,
    a: H::Pass,
    b: H::Pass,
    urb: UrbId,
) -> Result<H::Closed, AllocError>
    requires none { passes.items ≡ [] }
    requires here { H.is_of host (H.Server.own server) × H.is_of host (H.Hub.own hub) × H.is_of host a × H.is_of host b }
    requires all { AreAll (H.machine host) (H.known (H.Server.own server) ∷ H.known (H.Hub.own hub) ∷ H.known a ∷ H.known b ∷ []) }
    requires urb { IsUrb (H.machine host) urb.0 }
    requires only { (u : ℕ) → HasHome (H.machine host) u → u ≡ urb.0 }
    requires room { MayReject (H.known a) urb.0 × MayReject (H.known b) urb.0 }
    ensures { IfOk result (λ c. (p : Known) × (q : Known) × ((m : Code) × (x : Option ℕ) × Grown (H.known a) p (poison_entries (H.known a).number urb.0 m x)) × ((m : Code) × (x : Option ℕ) × Grown (H.known b) q (kill_entries (H.known b).number urb.0 m x)) × IsClosed (H.machine host) (H.history c) (H.known (H.Server.own server) ∷ H.known (H.Hub.own hub) ∷ p ∷ q ∷ [])) }
{
    let (first, second) = poison_and_kill(rt, &host, a, b, urb);
    let (a, _x) = first;
    let (b, _y) = second;
    let closed = close_two(host, server, hub, passes, a, b)?;
    Ok(closed)
}
