//! The server's thread.
ghost use Rattle.std.specs.Prelude.{◌≡◌};
ghost use Rattle.usb_machine.specs.declared.entry.TheConstants.{SERVER};
ghost use Rattle.usb_serve.specs.Held.{Agrees};
ghost use Rattle.usb_side.specs.Side.{IsWholeSide, side_knows};

use std::sync::Wait;
use std::sync::atomic::{AtomicBool, Ordering};
use std::thread;
use usb_machine::Serves;
use usb_serve::{Controller, Resting, Side};
use usb_side::{HostSide, one_step};
use usb_xfer::Device;

/// Makes the controller's turns, each with all endpoints awake, until it is told that the callers are done. What comes back rests.
pub(crate) fn serve_until<H: Serves, R: Wait, D: Device + Drop>(
    rt: &R,
    host: &H,
    server: H::Server,
    mut controller: Controller<D>,
    done: &AtomicBool,
) -> H::Server
    requires agrees { Agrees (side_knows (H.machine host.now) (H.known (H.Server.own server)) (H.Server.given server) (IsWholeSide (H.machine host.now) (H.is_of host.now (H.Server.own server)) (H.known (H.Server.own server)) (H.Server.pending server) (H.Server.given server) (H.Server.has_room server)) (H.is_settled host.now server)) controller }
    ensures here { H.is_of host.now (H.Server.own result) }
    ensures number { (H.known (H.Server.own result)).number ≡ SERVER }
{
    let mut side = HostSide::new(rt, host, server);
    let mut handler = Resting { question: None };
    for _turn in rt.forever() {
        if done.load(Ordering::SeqCst) {
            break;
        }
        if !side.may_give() {
            break;
        }
        controller.wake();
        let _outcome = one_step(&mut side, &mut controller, &mut handler);
        thread::yield_now();
    }
    side.into_server()
}
