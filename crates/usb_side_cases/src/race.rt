//! A submitter and a killer of one URB, with the server's thread beside them.
ghost use Rattle.std.specs.Prelude.{◌≡◌, true};
ghost use Rattle.usb_machine.specs.declared.entry.TheConstants.{SERVER};
ghost use Rattle.usb_machine.specs.Parts.{keeps};
ghost use Rattle.usb_machine.specs.History.{HasHome};
ghost use Rattle.usb_serve.specs.Held.{Agrees};
ghost use Rattle.usb_side.specs.Side.{IsWholeSide, side_knows};
ghost use Rattle.usb_host_cases.specs.Ran.{MayReject};
ghost use Rattle.usb_side_cases.specs.Rounds.{TakesAll, IsSubmit, Times, KilledOut, Made};

use crate::rounds::{kill_out, submit_times};
use crate::serving::serve_until;
use std::alloc::Global;
use std::sync::Wait;
use std::sync::atomic::{AtomicBool, Ordering};
use std::thread::{Threads, join};
use usb_machine::{Host, Serves};
use usb_serve::Controller;
use usb_types::UrbId;
use usb_xfer::Device;

/// One thread submits the URB and another kills it. In the end it is poisoned.
fn race<H: Host + Sync, R: Threads + Wait + Sync>(
    rt: &R,
    alloc: Global,
    host: &H,
    submitter: H::Pass,
    killer: H::Pass,
    urb: UrbId,
    times: u32,
) -> (H::Pass, H::Pass)
    requires here { H.is_of host.now submitter × H.is_of host.now killer }
    requires urb { HasHome (H.machine host.now) urb.0 }
    requires takes { TakesAll (H.machine host.now) urb.0 }
    requires room { MayReject (H.known killer) urb.0 }
    ensures here { H.is_of host.now result.0 × H.is_of host.now result.1 }
    ensures submitted { Made (Times (IsSubmit (H.known submitter).number urb.0) times) (H.known submitter) (H.known result.0) }
    ensures killed { Made (KilledOut (H.known killer).number urb.0 times) (H.known killer) (H.known result.1) }
    ensures kept { keeps (H.known result.1).mine urb.0 ≡ true }
{
    join(
        rt,
        || -> H::Pass
            requires { H.is_of host.now submitter × HasHome (H.machine host.now) urb.0 × TakesAll (H.machine host.now) urb.0 }
            ensures { H.is_of host.entry.now result × Made (Times (IsSubmit (H.known submitter).number urb.0) times) (H.known submitter) (H.known result) }
        { submit_times(rt, alloc, host, submitter, urb, times) },
        || -> H::Pass
            requires { H.is_of host.now killer × HasHome (H.machine host.now) urb.0 × MayReject (H.known killer) urb.0 }
            ensures { H.is_of host.entry.now result × Made (KilledOut (H.known killer).number urb.0 times) (H.known killer) (H.known result) × (keeps (H.known result).mine urb.0 ≡ true) }
        { kill_out(rt, host, killer, urb, times) },
    )
}

/// The two beside the server's thread, which makes turns until they are done. The hub's token goes with them.
pub(crate) fn race_and_serve<H: Serves + Sync, R: Threads + Wait + Sync, D: Device + Drop + Send>(
    rt: &R,
    alloc: Global,
    host: &H,
    server: H::Server,
    controller: Controller<D>,
    hub: H::Hub,
    submitter: H::Pass,
    killer: H::Pass,
    urb: UrbId,
    times: u32,
) -> (H::Server, (H::Hub, (H::Pass, H::Pass)))
    requires agrees { Agrees (side_knows (H.machine host.now) (H.known (H.Server.own server)) (H.Server.given server) (IsWholeSide (H.machine host.now) (H.is_of host.now (H.Server.own server)) (H.known (H.Server.own server)) (H.Server.pending server) (H.Server.given server) (H.Server.has_room server)) (H.is_settled host.now server)) controller }
    requires here { H.is_of host.now submitter × H.is_of host.now killer }
    requires urb { HasHome (H.machine host.now) urb.0 }
    requires takes { TakesAll (H.machine host.now) urb.0 }
    requires room { MayReject (H.known killer) urb.0 }
    ensures server { H.is_of host.now (H.Server.own result.0) × ((H.known (H.Server.own result.0)).number ≡ SERVER) }
    ensures here { H.is_of host.now result.1.1.0 × H.is_of host.now result.1.1.1 }
    ensures hub { result.1.0 ≡ hub }
    ensures submitted { Made (Times (IsSubmit (H.known submitter).number urb.0) times) (H.known submitter) (H.known result.1.1.0) }
    ensures killed { Made (KilledOut (H.known killer).number urb.0 times) (H.known killer) (H.known result.1.1.1) }
    ensures kept { keeps (H.known result.1.1.1).mine urb.0 ≡ true }
{
    let done = AtomicBool::new(false);
    join(
        rt,
        || -> H::Server
            requires { Agrees (side_knows (H.machine host.now) (H.known (H.Server.own server)) (H.Server.given server) (IsWholeSide (H.machine host.now) (H.is_of host.now (H.Server.own server)) (H.known (H.Server.own server)) (H.Server.pending server) (H.Server.given server) (H.Server.has_room server)) (H.is_settled host.now server)) controller }
            ensures { H.is_of host.entry.now (H.Server.own result) × ((H.known (H.Server.own result)).number ≡ SERVER) }
        { serve_until(rt, host, server, controller, &done) },
        || -> (H::Hub, (H::Pass, H::Pass))
            requires { H.is_of host.now submitter × H.is_of host.now killer × HasHome (H.machine host.now) urb.0 × TakesAll (H.machine host.now) urb.0 × MayReject (H.known killer) urb.0 }
            ensures { (result.0 ≡ hub) × H.is_of host.entry.now result.1.0 × H.is_of host.entry.now result.1.1 × Made (Times (IsSubmit (H.known submitter).number urb.0) times) (H.known submitter) (H.known result.1.0) × Made (KilledOut (H.known killer).number urb.0 times) (H.known killer) (H.known result.1.1) × (keeps (H.known result.1.1).mine urb.0 ≡ true) }
        {
            let passes = race(rt, alloc, host, submitter, killer, urb, times);
            done.store(true, Ordering::SeqCst);
            (hub, passes)
        },
    )
}
