//! The threads of a crowd: the callers', the hub's and the server's, over one host.
ghost use Rattle.std.specs.Prelude.{◌≡◌, true, All, IfOk};
ghost use Rattle.usb_machine.specs.declared.entry.TheConstants.{SERVER};
ghost use Rattle.usb_machine.specs.Parts.{keeps};
ghost use Rattle.usb_serve.specs.Held.{Agrees};
ghost use Rattle.usb_side.specs.Side.{IsWholeSide, side_knows};
ghost use Rattle.usb_host_cases.specs.Ran.{MayReject};
ghost use Rattle.usb_side_cases.specs.Rounds.{Made};
ghost use Rattle.usb_side_cases.specs.Crowd.{AreCalls, AreLastCalls, MayCall, Called, CalledAll};

use crate::rounds::empty;
use crate::serving::serve_until;
use std::alloc::{AllocError, Global};
use std::sync::Wait;
use std::sync::atomic::{AtomicBool, Ordering};
use std::thread::{self, Threads, join};
use usb_cancel::{kill, poison};
use usb_machine::{Host, Serves, Token};
use usb_serve::Controller;
use usb_types::{UrbId, Why};
use usb_xfer::Device;

/// Submits the URB, unlinks it and kills it.
fn call_once<H: Host, R: Wait>(rt: &R, alloc: Global, host: &H, pass: &mut H::Pass, urb: UrbId)
    requires { MayCall (H.machine host.now) H.known (H.is_of host.now) urb.0 pass.old }
    ensures here { H.is_of host.now pass.new }
    ensures made { Made (AreCalls (H.machine host.now) urb.0 (H.known pass.old).number) (H.known pass.old) (H.known pass.new) }
    ensures room { MayReject (H.known pass.new) urb.0 }
{
    let _answer = host.submit(rt, pass, urb, empty(alloc, 0));
    thread::yield_now();
    host.unlink(rt, pass, urb, Why::Unlink);
    let _rest = kill(rt, host, pass, urb);
}

/// A caller's thread.
fn call_as<H: Host, R: Wait>(
    rt: &R,
    alloc: Global,
    host: &H,
    mut pass: H::Pass,
    urb: UrbId,
) -> H::Pass
    requires { MayCall (H.machine host.now) H.known (H.is_of host.now) urb.0 pass }
    ensures { Called (H.machine host.now) H.known (H.is_of host.now) urb.0 pass result }
{
    call_once(rt, alloc, host, &mut pass, urb);
    pass
}

/// The hub's thread, which calls with the hub's own pass.
fn call_as_hub<H: Host, R: Wait>(
    rt: &R,
    alloc: Global,
    host: &H,
    mut hub: H::Hub,
    urb: UrbId,
) -> H::Hub
    requires { MayCall (H.machine host.now) H.known (H.is_of host.now) urb.0 (H.Hub.own hub) }
    ensures { Called (H.machine host.now) H.known (H.is_of host.now) urb.0 (H.Hub.own hub) (H.Hub.own result) }
{
    call_once(rt, alloc, host, hub.pass(), urb);
    hub
}

/// A thread for each caller.
fn call_all<H: Host + Sync, R: Threads + Wait + Sync>(
    rt: &R,
    alloc: Global,
    host: &H,
    passes: Vec<H::Pass>,
    urb: UrbId,
) -> Result<Vec<H::Pass>, AllocError>
    requires { All (MayCall (H.machine host.now) H.known (H.is_of host.now) urb.0) passes.items }
    ensures { IfOk result (λ v. CalledAll (H.machine host.now) H.known (H.is_of host.now) urb.0 passes.items v.items) }
{
    let called = thread::map_vec(
        rt,
        passes,
        &|pass: H::Pass| -> H::Pass
            requires { MayCall (H.machine host.now) H.known (H.is_of host.now) urb.0 pass }
            ensures { Called (H.machine host.entry.now) H.known (H.is_of host.entry.now) urb.0 pass result }
        { call_as(rt, alloc, host, pass, urb) },
    )?;
    Ok(called)
}

/// The callers' threads beside the hub's.
fn call_beside_hub<H: Host + Sync, R: Threads + Wait + Sync>(
    rt: &R,
    alloc: Global,
    host: &H,
    hub: H::Hub,
    passes: Vec<H::Pass>,
    urb: UrbId,
) -> (H::Hub, Result<Vec<H::Pass>, AllocError>)
    requires hub { MayCall (H.machine host.now) H.known (H.is_of host.now) urb.0 (H.Hub.own hub) }
    requires callers { All (MayCall (H.machine host.now) H.known (H.is_of host.now) urb.0) passes.items }
    ensures hub { Called (H.machine host.now) H.known (H.is_of host.now) urb.0 (H.Hub.own hub) (H.Hub.own result.0) }
    ensures callers { IfOk result.1 (λ v. CalledAll (H.machine host.now) H.known (H.is_of host.now) urb.0 passes.items v.items) }
{
    join(
        rt,
        || -> H::Hub
            requires { MayCall (H.machine host.now) H.known (H.is_of host.now) urb.0 (H.Hub.own hub) }
            ensures { Called (H.machine host.entry.now) H.known (H.is_of host.entry.now) urb.0 (H.Hub.own hub) (H.Hub.own result) }
        { call_as_hub(rt, alloc, host, hub, urb) },
        || -> Result<Vec<H::Pass>, AllocError>
            requires { All (MayCall (H.machine host.now) H.known (H.is_of host.now) urb.0) passes.items }
            ensures { IfOk result (λ v. CalledAll (H.machine host.entry.now) H.known (H.is_of host.entry.now) urb.0 passes.items v.items) }
        { call_all(rt, alloc, host, passes, urb) },
    )
}

/// When all of them are done the hub's pass poisons the URB.
fn call_and_poison<H: Host + Sync, R: Threads + Wait + Sync>(
    rt: &R,
    alloc: Global,
    host: &H,
    hub: H::Hub,
    passes: Vec<H::Pass>,
    urb: UrbId,
) -> (H::Hub, Result<Vec<H::Pass>, AllocError>)
    requires hub { MayCall (H.machine host.now) H.known (H.is_of host.now) urb.0 (H.Hub.own hub) }
    requires callers { All (MayCall (H.machine host.now) H.known (H.is_of host.now) urb.0) passes.items }
    ensures here { H.is_of host.now (H.Hub.own result.0) }
    ensures hub { Made (AreLastCalls (H.machine host.now) urb.0 (H.known (H.Hub.own hub)).number) (H.known (H.Hub.own hub)) (H.known (H.Hub.own result.0)) }
    ensures kept { keeps (H.known (H.Hub.own result.0)).mine urb.0 ≡ true }
    ensures callers { IfOk result.1 (λ v. CalledAll (H.machine host.now) H.known (H.is_of host.now) urb.0 passes.items v.items) }
{
    let (mut hub, called) = call_beside_hub(rt, alloc, host, hub, passes, urb);
    let _rest = poison(rt, host, hub.pass(), urb);
    (hub, called)
}

/// The server's thread beside all of these. It ends when they are done.
pub(crate) fn call_and_serve<H: Serves + Sync, R: Threads + Wait + Sync, D: Device + Drop + Send>(
    rt: &R,
    alloc: Global,
    host: &H,
    server: H::Server,
    controller: Controller<D>,
    hub: H::Hub,
    passes: Vec<H::Pass>,
    urb: UrbId,
) -> (H::Server, (H::Hub, Result<Vec<H::Pass>, AllocError>))
    requires agrees { Agrees (side_knows (H.machine host.now) (H.known (H.Server.own server)) (H.Server.given server) (IsWholeSide (H.machine host.now) (H.is_of host.now (H.Server.own server)) (H.known (H.Server.own server)) (H.Server.pending server) (H.Server.given server) (H.Server.has_room server)) (H.is_settled host.now server)) controller }
    requires hub { MayCall (H.machine host.now) H.known (H.is_of host.now) urb.0 (H.Hub.own hub) }
    requires callers { All (MayCall (H.machine host.now) H.known (H.is_of host.now) urb.0) passes.items }
    ensures server { H.is_of host.now (H.Server.own result.0) × ((H.known (H.Server.own result.0)).number ≡ SERVER) }
    ensures here { H.is_of host.now (H.Hub.own result.1.0) }
    ensures hub { Made (AreLastCalls (H.machine host.now) urb.0 (H.known (H.Hub.own hub)).number) (H.known (H.Hub.own hub)) (H.known (H.Hub.own result.1.0)) }
    ensures kept { keeps (H.known (H.Hub.own result.1.0)).mine urb.0 ≡ true }
    ensures callers { IfOk result.1.1 (λ v. CalledAll (H.machine host.now) H.known (H.is_of host.now) urb.0 passes.items v.items) }
{
    let done = AtomicBool::new(false);
    join(
        rt,
        || -> H::Server
            requires { Agrees (side_knows (H.machine host.now) (H.known (H.Server.own server)) (H.Server.given server) (IsWholeSide (H.machine host.now) (H.is_of host.now (H.Server.own server)) (H.known (H.Server.own server)) (H.Server.pending server) (H.Server.given server) (H.Server.has_room server)) (H.is_settled host.now server)) controller }
            ensures { H.is_of host.entry.now (H.Server.own result) × ((H.known (H.Server.own result)).number ≡ SERVER) }
        { serve_until(rt, host, server, controller, &done) },
        || -> (H::Hub, Result<Vec<H::Pass>, AllocError>)
            requires { MayCall (H.machine host.now) H.known (H.is_of host.now) urb.0 (H.Hub.own hub) × All (MayCall (H.machine host.now) H.known (H.is_of host.now) urb.0) passes.items }
            ensures { H.is_of host.entry.now (H.Hub.own result.0) × Made (AreLastCalls (H.machine host.entry.now) urb.0 (H.known (H.Hub.own hub)).number) (H.known (H.Hub.own hub)) (H.known (H.Hub.own result.0)) × (keeps (H.known (H.Hub.own result.0)).mine urb.0 ≡ true) × IfOk result.1 (λ v. CalledAll (H.machine host.entry.now) H.known (H.is_of host.entry.now) urb.0 passes.items v.items) }
        {
            let ended = call_and_poison(rt, alloc, host, hub, passes, urb);
            done.store(true, Ordering::SeqCst);
            ended
        },
    )
}
