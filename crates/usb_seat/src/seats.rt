//! A thread's seat at a shared host, and the calls from it that are one call of the host.
ghost use Rattle.std.specs.Prelude.{◌≡◌, ◌<◌, ◌∷◌, [], ◌≢◌};
ghost use Rattle.usb_types.specs.declared.errno.Code.TheVariants.{Fault};
ghost use Rattle.usb_machine.specs.Parts.{held_of};
ghost use Rattle.usb_machine.specs.Shapes.{HasWindow};
ghost use Rattle.usb_machine.specs.History.{HasHome};
ghost use Rattle.usb_machine.specs.Calls.{mark_entry, block_entries, unblock_entries};
ghost use Rattle.usb_machine.specs.Fresh.{Fresh};
ghost use Rattle.usb_machine.specs.HostCalls.{IsUrb, Submitted, HandsBack, fault_at, shape_of};
ghost use Rattle.usb_machine.specs.Tokens.{IsWholeHub};
ghost use Rattle.usb_seat.specs.Sitting.{known_in, IsSeat};

use std::sync::Wait;
use usb_machine::{Host, Refused, Token, Transfer};
use usb_types::{Errno, UrbId, Why};

/// A thread's seat at a shared host.
#[derive(Drop)]
pub enum Seat<P, U> {
    /// A pass of its own.
    Own(P),
    /// The hub's token, which lends the hub's pass.
    Hub(U),
}

fn unlink_hub<H: Host, R: Wait>(rt: &R, host: &H, hub: &mut H::Hub, urb: UrbId, why: Why) -> Errno
    requires here { H.is_of host.now (H.Hub.own hub.old) }
    requires whole { IsWholeHub (H.machine host.now) (H.known (H.Hub.own hub.old)) (H.Hub.flags hub.old) (H.Hub.has_room hub.old) }
    requires urb { IsUrb (H.machine host.now) urb.0 }
    ensures here { H.is_of host.now (H.Hub.own hub.new) }
    ensures whole { IsWholeHub (H.machine host.now) (H.known (H.Hub.own hub.new)) (H.Hub.flags hub.new) (H.Hub.has_room hub.new) }
    ensures fresh { Fresh (H.machine host.now) (H.known (H.Hub.own hub.old)) (H.known (H.Hub.own hub.new)) (mark_entry (H.known (H.Hub.own hub.old)).number why urb.0 (Fault result) ∷ []) }
{
    host.unlink(rt, hub.pass(), urb, why)
}

/// Marks the URB as unlinked.
pub fn unlink<H: Host, R: Wait>(
    rt: &R,
    host: &H,
    seat: &mut Seat<H::Pass, H::Hub>,
    urb: UrbId,
    why: Why,
) -> Errno
    requires here { IsSeat (H.machine host.now) (H.is_of host.now) H.known H.Hub.own H.Hub.flags H.Hub.has_room seat.old }
    requires urb { IsUrb (H.machine host.now) urb.0 }
    ensures here { IsSeat (H.machine host.now) (H.is_of host.now) H.known H.Hub.own H.Hub.flags H.Hub.has_room seat.new }
    ensures fresh { Fresh (H.machine host.now) (known_in H.known H.Hub.own seat.old) (known_in H.known H.Hub.own seat.new) (mark_entry (known_in H.known H.Hub.own seat.old).number why urb.0 (Fault result) ∷ []) }
{
    match seat {
        Seat::Own(pass) => host.unlink(rt, pass, urb, why),
        Seat::Hub(hub) => unlink_hub(rt, host, hub, urb, why),
    }
}

fn reject_hub<H: Host, R: Wait>(rt: &R, host: &H, hub: &mut H::Hub, urb: UrbId)
    requires here { H.is_of host.now (H.Hub.own hub.old) }
    requires whole { IsWholeHub (H.machine host.now) (H.known (H.Hub.own hub.old)) (H.Hub.flags hub.old) (H.Hub.has_room hub.old) }
    requires urb { IsUrb (H.machine host.now) urb.0 }
    requires room { (held_of (H.known (H.Hub.own hub.old)).mine urb.0).rejects < 255 }
    ensures here { H.is_of host.now (H.Hub.own hub.new) }
    ensures whole { IsWholeHub (H.machine host.now) (H.known (H.Hub.own hub.new)) (H.Hub.flags hub.new) (H.Hub.has_room hub.new) }
    ensures fresh { Fresh (H.machine host.now) (H.known (H.Hub.own hub.old)) (H.known (H.Hub.own hub.new)) (block_entries (H.known (H.Hub.own hub.old)).number urb.0) }
{
    host.reject(rt, hub.pass(), urb)
}

/// Raises a reject of the URB.
pub fn reject<H: Host, R: Wait>(rt: &R, host: &H, seat: &mut Seat<H::Pass, H::Hub>, urb: UrbId)
    requires here { IsSeat (H.machine host.now) (H.is_of host.now) H.known H.Hub.own H.Hub.flags H.Hub.has_room seat.old }
    requires urb { IsUrb (H.machine host.now) urb.0 }
    requires room { (held_of (known_in H.known H.Hub.own seat.old).mine urb.0).rejects < 255 }
    ensures here { IsSeat (H.machine host.now) (H.is_of host.now) H.known H.Hub.own H.Hub.flags H.Hub.has_room seat.new }
    ensures fresh { Fresh (H.machine host.now) (known_in H.known H.Hub.own seat.old) (known_in H.known H.Hub.own seat.new) (block_entries (known_in H.known H.Hub.own seat.old).number urb.0) }
{
    match seat {
        Seat::Own(pass) => host.reject(rt, pass, urb),
        Seat::Hub(hub) => reject_hub(rt, host, hub, urb),
    }
}

fn withdraw_hub<H: Host, R: Wait>(rt: &R, host: &H, hub: &mut H::Hub, urb: UrbId)
    requires here { H.is_of host.now (H.Hub.own hub.old) }
    requires whole { IsWholeHub (H.machine host.now) (H.known (H.Hub.own hub.old)) (H.Hub.flags hub.old) (H.Hub.has_room hub.old) }
    requires urb { IsUrb (H.machine host.now) urb.0 }
    requires held { 0 < (held_of (H.known (H.Hub.own hub.old)).mine urb.0).rejects }
    ensures here { H.is_of host.now (H.Hub.own hub.new) }
    ensures whole { IsWholeHub (H.machine host.now) (H.known (H.Hub.own hub.new)) (H.Hub.flags hub.new) (H.Hub.has_room hub.new) }
    ensures fresh { Fresh (H.machine host.now) (H.known (H.Hub.own hub.old)) (H.known (H.Hub.own hub.new)) (unblock_entries (H.known (H.Hub.own hub.old)).number urb.0) }
{
    host.withdraw(rt, hub.pass(), urb)
}

/// Withdraws a reject of the URB.
pub fn withdraw<H: Host, R: Wait>(rt: &R, host: &H, seat: &mut Seat<H::Pass, H::Hub>, urb: UrbId)
    requires here { IsSeat (H.machine host.now) (H.is_of host.now) H.known H.Hub.own H.Hub.flags H.Hub.has_room seat.old }
    requires urb { IsUrb (H.machine host.now) urb.0 }
    requires held { 0 < (held_of (known_in H.known H.Hub.own seat.old).mine urb.0).rejects }
    ensures here { IsSeat (H.machine host.now) (H.is_of host.now) H.known H.Hub.own H.Hub.flags H.Hub.has_room seat.new }
    ensures fresh { Fresh (H.machine host.now) (known_in H.known H.Hub.own seat.old) (known_in H.known H.Hub.own seat.new) (unblock_entries (known_in H.known H.Hub.own seat.old).number urb.0) }
{
    match seat {
        Seat::Own(pass) => host.withdraw(rt, pass, urb),
        Seat::Hub(hub) => withdraw_hub(rt, host, hub, urb),
    }
}

fn submit_hub<H: Host, R: Wait>(
    rt: &R,
    host: &H,
    hub: &mut H::Hub,
    urb: UrbId,
    t: Transfer,
) -> Result<(), Refused>
    requires here { H.is_of host.now (H.Hub.own hub.old) }
    requires whole { IsWholeHub (H.machine host.now) (H.known (H.Hub.own hub.old)) (H.Hub.flags hub.old) (H.Hub.has_room hub.old) }
    requires home { HasHome (H.machine host.now) urb.0 }
    requires transfer { HasWindow t × (t.actual ≡ 0) }
    ensures here { H.is_of host.now (H.Hub.own hub.new) }
    ensures whole { IsWholeHub (H.machine host.now) (H.known (H.Hub.own hub.new)) (H.Hub.flags hub.new) (H.Hub.has_room hub.new) }
    ensures fresh { Submitted (H.machine host.now) (H.known (H.Hub.own hub.old)) (H.known (H.Hub.own hub.new)) urb.0 t (fault_at (shape_of (H.machine host.now) urb.0) t) result }
    ensures back { HandsBack t result }
{
    host.submit(rt, hub.pass(), urb, t)
}

/// Submits the transfer, and links the URB where it was accepted. A refused transfer comes back.
pub fn submit<H: Host, R: Wait>(
    rt: &R,
    host: &H,
    seat: &mut Seat<H::Pass, H::Hub>,
    urb: UrbId,
    t: Transfer,
) -> Result<(), Refused>
    requires here { IsSeat (H.machine host.now) (H.is_of host.now) H.known H.Hub.own H.Hub.flags H.Hub.has_room seat.old }
    requires home { HasHome (H.machine host.now) urb.0 }
    requires transfer { HasWindow t × (t.actual ≡ 0) }
    ensures here { IsSeat (H.machine host.now) (H.is_of host.now) H.known H.Hub.own H.Hub.flags H.Hub.has_room seat.new }
    ensures fresh { Submitted (H.machine host.now) (known_in H.known H.Hub.own seat.old) (known_in H.known H.Hub.own seat.new) urb.0 t (fault_at (shape_of (H.machine host.now) urb.0) t) result }
    ensures back { HandsBack t result }
{
    match seat {
        Seat::Own(pass) => host.submit(rt, pass, urb, t),
        Seat::Hub(hub) => submit_hub(rt, host, hub, urb, t),
    }
}
