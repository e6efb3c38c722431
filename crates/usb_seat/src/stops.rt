//! Calls from a seat that stop an URB, and the wait until it is quiet.
ghost use Rattle.std.specs.Prelude.{◌≡◌, ◌<◌, ◌∷◌, ◌++◌, [], true};
ghost use Rattle.usb_types.specs.declared.errno.Code.{Code};
ghost use Rattle.usb_machine.specs.declared.event.Event.TheVariants.{Quiet};
ghost use Rattle.usb_machine.specs.Parts.{held_of, keeps};
ghost use Rattle.usb_machine.specs.Calls.{plain_entry, block_entries, kill_entries, poison_entries};
ghost use Rattle.usb_machine.specs.Fresh.{Fresh};
ghost use Rattle.usb_machine.specs.HostCalls.{IsUrb, HasClaimed, number_of};
ghost use Rattle.usb_machine.specs.Tokens.{IsWholeHub};
ghost use Rattle.usb_cancel.specs.Stops.{ClaimedSince};
ghost use Rattle.usb_seat.specs.Sitting.{known_in, IsSeat};

use crate::seats::{Seat, reject};
use std::sync::Wait;
use std::thread;
use usb_machine::{Host, Token, Transfer};
use usb_types::UrbId;

fn kill_hub<H: Host, R: Wait>(rt: &R, host: &H, hub: &mut H::Hub, urb: UrbId) -> Option<Transfer>
    requires here { H.is_of host.now (H.Hub.own hub.old) }
    requires whole { IsWholeHub (H.machine host.now) (H.known (H.Hub.own hub.old)) (H.Hub.flags hub.old) (H.Hub.has_room hub.old) }
    requires urb { IsUrb (H.machine host.now) urb.0 }
    requires room { (held_of (H.known (H.Hub.own hub.old)).mine urb.0).rejects < 255 }
    ensures here { H.is_of host.now (H.Hub.own hub.new) }
    ensures whole { IsWholeHub (H.machine host.now) (H.known (H.Hub.own hub.new)) (H.Hub.flags hub.new) (H.Hub.has_room hub.new) }
    ensures fresh { (a : Code) × Fresh (H.machine host.now) (H.known (H.Hub.own hub.old)) (H.known (H.Hub.own hub.new)) (kill_entries (H.known (H.Hub.own hub.old)).number urb.0 a (number_of result)) }
    ensures claimed { HasClaimed (H.known (H.Hub.own hub.new)).seen (H.known (H.Hub.own hub.new)).number urb.0 result }
    ensures since { ClaimedSince (H.known (H.Hub.own hub.old)).seen (H.known (H.Hub.own hub.new)).seen (H.known (H.Hub.own hub.new)).number urb.0 result }
{
    usb_cancel::kill(rt, host, hub.pass(), urb)
}

/// Rejects and unlinks the URB, waits until it is quiet, claims what rests with it, and withdraws the reject.
pub fn kill<H: Host, R: Wait>(
    rt: &R,
    host: &H,
    seat: &mut Seat<H::Pass, H::Hub>,
    urb: UrbId,
) -> Option<Transfer>
    requires here { IsSeat (H.machine host.now) (H.is_of host.now) H.known H.Hub.own H.Hub.flags H.Hub.has_room seat.old }
    requires urb { IsUrb (H.machine host.now) urb.0 }
    requires room { (held_of (known_in H.known H.Hub.own seat.old).mine urb.0).rejects < 255 }
    ensures here { IsSeat (H.machine host.now) (H.is_of host.now) H.known H.Hub.own H.Hub.flags H.Hub.has_room seat.new }
    ensures fresh { (a : Code) × Fresh (H.machine host.now) (known_in H.known H.Hub.own seat.old) (known_in H.known H.Hub.own seat.new) (kill_entries (known_in H.known H.Hub.own seat.old).number urb.0 a (number_of result)) }
    ensures claimed { HasClaimed (known_in H.known H.Hub.own seat.new).seen (known_in H.known H.Hub.own seat.new).number urb.0 result }
    ensures since { ClaimedSince (known_in H.known H.Hub.own seat.old).seen (known_in H.known H.Hub.own seat.new).seen (known_in H.known H.Hub.own seat.new).number urb.0 result }
{
    match seat {
        Seat::Own(pass) => usb_cancel::kill(rt, host, pass, urb),
        Seat::Hub(hub) => kill_hub(rt, host, hub, urb),
    }
}

fn poison_hub<H: Host, R: Wait>(rt: &R, host: &H, hub: &mut H::Hub, urb: UrbId) -> Option<Transfer>
    requires here { H.is_of host.now (H.Hub.own hub.old) }
    requires whole { IsWholeHub (H.machine host.now) (H.known (H.Hub.own hub.old)) (H.Hub.flags hub.old) (H.Hub.has_room hub.old) }
    requires urb { IsUrb (H.machine host.now) urb.0 }
    requires room { (held_of (H.known (H.Hub.own hub.old)).mine urb.0).rejects < 255 }
    ensures here { H.is_of host.now (H.Hub.own hub.new) }
    ensures whole { IsWholeHub (H.machine host.now) (H.known (H.Hub.own hub.new)) (H.Hub.flags hub.new) (H.Hub.has_room hub.new) }
    ensures fresh { (a : Code) × Fresh (H.machine host.now) (H.known (H.Hub.own hub.old)) (H.known (H.Hub.own hub.new)) (poison_entries (H.known (H.Hub.own hub.old)).number urb.0 a (number_of result)) }
    ensures claimed { HasClaimed (H.known (H.Hub.own hub.new)).seen (H.known (H.Hub.own hub.new)).number urb.0 result }
    ensures since { ClaimedSince (H.known (H.Hub.own hub.old)).seen (H.known (H.Hub.own hub.new)).seen (H.known (H.Hub.own hub.new)).number urb.0 result }
    ensures kept { keeps (H.known (H.Hub.own hub.new)).mine urb.0 ≡ true }
{
    usb_cancel::poison(rt, host, hub.pass(), urb)
}

/// Rejects and unlinks the URB, waits until it is quiet, and claims what rests with it. The reject stays.
pub fn poison<H: Host, R: Wait>(
    rt: &R,
    host: &H,
    seat: &mut Seat<H::Pass, H::Hub>,
    urb: UrbId,
) -> Option<Transfer>
    requires here { IsSeat (H.machine host.now) (H.is_of host.now) H.known H.Hub.own H.Hub.flags H.Hub.has_room seat.old }
    requires urb { IsUrb (H.machine host.now) urb.0 }
    requires room { (held_of (known_in H.known H.Hub.own seat.old).mine urb.0).rejects < 255 }
    ensures here { IsSeat (H.machine host.now) (H.is_of host.now) H.known H.Hub.own H.Hub.flags H.Hub.has_room seat.new }
    ensures fresh { (a : Code) × Fresh (H.machine host.now) (known_in H.known H.Hub.own seat.old) (known_in H.known H.Hub.own seat.new) (poison_entries (known_in H.known H.Hub.own seat.old).number urb.0 a (number_of result)) }
    ensures claimed { HasClaimed (known_in H.known H.Hub.own seat.new).seen (known_in H.known H.Hub.own seat.new).number urb.0 result }
    ensures since { ClaimedSince (known_in H.known H.Hub.own seat.old).seen (known_in H.known H.Hub.own seat.new).seen (known_in H.known H.Hub.own seat.new).number urb.0 result }
    ensures kept { keeps (known_in H.known H.Hub.own seat.new).mine urb.0 ≡ true }
{
    match seat {
        Seat::Own(pass) => usb_cancel::poison(rt, host, pass, urb),
        Seat::Hub(hub) => poison_hub(rt, host, hub, urb),
    }
}

/// Looks until the URB is quiet, and yields to other threads between two looks.
fn wait_quiet<H: Host, R: Wait>(rt: &R, host: &H, pass: &mut H::Pass, urb: UrbId)
    requires here { H.is_of host.now pass.old }
    requires urb { IsUrb (H.machine host.now) urb.0 }
    ensures here { H.is_of host.now pass.new }
    ensures fresh { Fresh (H.machine host.now) (H.known pass.old) (H.known pass.new) (plain_entry (H.known pass.old).number (Quiet urb) ∷ []) }
{
    for _ in rt.forever() {
        if host.quiet(rt, pass, urb) {
            return;
        }
        thread::yield_now();
    }
    unreachable!()
}

fn wait_quiet_hub<H: Host, R: Wait>(rt: &R, host: &H, hub: &mut H::Hub, urb: UrbId)
    requires here { H.is_of host.now (H.Hub.own hub.old) }
    requires whole { IsWholeHub (H.machine host.now) (H.known (H.Hub.own hub.old)) (H.Hub.flags hub.old) (H.Hub.has_room hub.old) }
    requires urb { IsUrb (H.machine host.now) urb.0 }
    ensures here { H.is_of host.now (H.Hub.own hub.new) }
    ensures whole { IsWholeHub (H.machine host.now) (H.known (H.Hub.own hub.new)) (H.Hub.flags hub.new) (H.Hub.has_room hub.new) }
    ensures fresh { Fresh (H.machine host.now) (H.known (H.Hub.own hub.old)) (H.known (H.Hub.own hub.new)) (plain_entry (H.known (H.Hub.own hub.old)).number (Quiet urb) ∷ []) }
{
    wait_quiet(rt, host, hub.pass(), urb)
}

/// Waits until the seat's pass has seen the URB quiet.
fn wait_quiet_at<H: Host, R: Wait>(rt: &R, host: &H, seat: &mut Seat<H::Pass, H::Hub>, urb: UrbId)
    requires here { IsSeat (H.machine host.now) (H.is_of host.now) H.known H.Hub.own H.Hub.flags H.Hub.has_room seat.old }
    requires urb { IsUrb (H.machine host.now) urb.0 }
    ensures here { IsSeat (H.machine host.now) (H.is_of host.now) H.known H.Hub.own H.Hub.flags H.Hub.has_room seat.new }
    ensures fresh { Fresh (H.machine host.now) (known_in H.known H.Hub.own seat.old) (known_in H.known H.Hub.own seat.new) (plain_entry (known_in H.known H.Hub.own seat.old).number (Quiet urb) ∷ []) }
{
    match seat {
        Seat::Own(pass) => wait_quiet(rt, host, pass, urb),
        Seat::Hub(hub) => wait_quiet_hub(rt, host, hub, urb),
    }
}

/// Rejects the URB, and waits until it is quiet. The reject stays.
pub fn see_quiet<H: Host, R: Wait>(rt: &R, host: &H, seat: &mut Seat<H::Pass, H::Hub>, urb: UrbId)
    requires here { IsSeat (H.machine host.now) (H.is_of host.now) H.known H.Hub.own H.Hub.flags H.Hub.has_room seat.old }
    requires urb { IsUrb (H.machine host.now) urb.0 }
    requires room { (held_of (known_in H.known H.Hub.own seat.old).mine urb.0).rejects < 255 }
    ensures here { IsSeat (H.machine host.now) (H.is_of host.now) H.known H.Hub.own H.Hub.flags H.Hub.has_room seat.new }
    ensures fresh { Fresh (H.machine host.now) (known_in H.known H.Hub.own seat.old) (known_in H.known H.Hub.own seat.new) (block_entries (known_in H.known H.Hub.own seat.old).number urb.0 ++ plain_entry (known_in H.known H.Hub.own seat.old).number (Quiet urb) ∷ []) }
{
    reject(rt, host, seat, urb);
    wait_quiet_at(rt, host, seat, urb);
}
