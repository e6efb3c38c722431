//! Calls from the hub's seat: the host is taken down, and brought up again.
ghost use Rattle.std.specs.Prelude.{◌≡◌, ◌<◌, ℕ, IfOk, IfErr, length, true, false};
ghost use Rattle.std.specs.List.{range_with_len};
ghost use Rattle.usb_types.specs.declared.urb.Flag.TheVariants as flag;
ghost use Rattle.usb_machine.specs.declared.entry.TheConstants.{HUB};
ghost use Rattle.usb_machine.specs.Parts.{held_of};
ghost use Rattle.usb_machine.specs.Calls.{unflag_entries};
ghost use Rattle.usb_machine.specs.Fresh.{Grown, Sound};
ghost use Rattle.usb_machine.specs.HostCalls.{IsUrb};
ghost use Rattle.usb_machine.specs.Tokens.{IsWholeHub};
ghost use Rattle.usb_cancel.specs.Flushing.{ids};
ghost use Rattle.usb_seat.specs.Sitting.{known_in, IsSeat};
ghost use Rattle.usb_seat.specs.TakenDown.{TookDown};

use crate::seats::Seat;
use std::alloc::Global;
use std::sync::Wait;
use usb_cancel::flush;
use usb_machine::{Host, Transfer};
use usb_types::{Flag, Memory, UrbId};

/// The URBs below a number, rising.
fn urbs_below(alloc: Global, urbs: u32) -> Result<Vec<UrbId>, Memory>
    ensures { IfOk result (λ us. ids us.items ≡ range_with_len 0 urbs) }
{
    let mut below = Vec::new(alloc);
    for u in 0..urbs {
        below.push(UrbId(u))?;
    }
    Ok(below)
}

/// A place for what rests with each of so many URBs.
fn rests_for(alloc: Global, urbs: u32) -> Result<Vec<Option<Transfer>>, Memory>
    ensures { IfOk result (λ rests. length rests.items ≡ urbs) }
{
    let mut rests = Vec::new(alloc);
    for _ in 0..urbs {
        rests.push(None)?;
    }
    Ok(rests)
}

fn take_down_hub<H: Host, R: Wait>(
    rt: &R,
    alloc: Global,
    host: &H,
    hub: &mut H::Hub,
    urbs: u32,
) -> Result<(), Memory>
    requires here { H.is_of host.now (H.Hub.own hub.old) }
    requires whole { IsWholeHub (H.machine host.now) (H.known (H.Hub.own hub.old)) (H.Hub.flags hub.old) (H.Hub.has_room hub.old) }
    requires urbs { (u : ℕ) → u < urbs → IsUrb (H.machine host.now) u }
    requires up { (u : ℕ) → u < urbs → (held_of (H.known (H.Hub.own hub.old)).mine u).flags.down ≡ false }
    ensures here { H.is_of host.now (H.Hub.own hub.new) }
    ensures whole { IsWholeHub (H.machine host.now) (H.known (H.Hub.own hub.new)) (H.Hub.flags hub.new) (H.Hub.has_room hub.new) }
    ensures down { IfOk result (λ _. TookDown (H.known (H.Hub.own hub.old)) (H.known (H.Hub.own hub.new)) urbs) }
    ensures none { IfErr result (λ _. hub.new ≡ hub.old) }
{
    let below = urbs_below(alloc, urbs)?;
    let mut rests = rests_for(alloc, urbs)?;
    flush(rt, host, hub, &below, Flag::Down, &mut rests);
    Ok(())
}

/// Takes the host down, by the hub: it sets Down on all URBs, unlinks them, and waits until each is quiet. What rested
/// with them is let go. Where memory runs out, nothing was done.
pub fn take_down<H: Host, R: Wait>(
    rt: &R,
    alloc: Global,
    host: &H,
    seat: &mut Seat<H::Pass, H::Hub>,
    urbs: u32,
) -> Result<(), Memory>
    requires here { IsSeat (H.machine host.now) (H.is_of host.now) H.known H.Hub.own H.Hub.flags H.Hub.has_room seat.old }
    requires hub { (known_in H.known H.Hub.own seat.old).number ≡ HUB }
    requires urbs { (u : ℕ) → u < urbs → IsUrb (H.machine host.now) u }
    requires up { (u : ℕ) → u < urbs → (held_of (known_in H.known H.Hub.own seat.old).mine u).flags.down ≡ false }
    ensures here { IsSeat (H.machine host.now) (H.is_of host.now) H.known H.Hub.own H.Hub.flags H.Hub.has_room seat.new }
    ensures sound { Sound (H.machine host.now) (known_in H.known H.Hub.own seat.new) }
    ensures down { IfOk result (λ _. TookDown (known_in H.known H.Hub.own seat.old) (known_in H.known H.Hub.own seat.new) urbs) }
    ensures none { IfErr result (λ _. known_in H.known H.Hub.own seat.new ≡ known_in H.known H.Hub.own seat.old) }
{
    match seat {
        Seat::Own(_) => unreachable!(),
        Seat::Hub(hub) => take_down_hub(rt, alloc, host, hub, urbs),
    }
}

fn bring_up_hub<H: Host, R: Wait>(rt: &R, host: &H, hub: &mut H::Hub, urbs: u32)
    requires here { H.is_of host.now (H.Hub.own hub.old) }
    requires whole { IsWholeHub (H.machine host.now) (H.known (H.Hub.own hub.old)) (H.Hub.flags hub.old) (H.Hub.has_room hub.old) }
    requires urbs { (u : ℕ) → u < urbs → IsUrb (H.machine host.now) u }
    requires down { (u : ℕ) → u < urbs → (held_of (H.known (H.Hub.own hub.old)).mine u).flags.down ≡ true }
    ensures here { H.is_of host.now (H.Hub.own hub.new) }
    ensures whole { IsWholeHub (H.machine host.now) (H.known (H.Hub.own hub.new)) (H.Hub.flags hub.new) (H.Hub.has_room hub.new) }
    ensures up { Grown (H.known (H.Hub.own hub.old)) (H.known (H.Hub.own hub.new)) (unflag_entries (H.known (H.Hub.own hub.old)).number flag.Down (range_with_len 0 urbs)) }
{
    for u in 0..urbs {
        host.unflag(rt, hub, UrbId(u), Flag::Down);
    }
}

/// Brings the host up again, by the hub: it takes Down off all URBs.
pub fn bring_up<H: Host, R: Wait>(rt: &R, host: &H, seat: &mut Seat<H::Pass, H::Hub>, urbs: u32)
    requires here { IsSeat (H.machine host.now) (H.is_of host.now) H.known H.Hub.own H.Hub.flags H.Hub.has_room seat.old }
    requires hub { (known_in H.known H.Hub.own seat.old).number ≡ HUB }
    requires urbs { (u : ℕ) → u < urbs → IsUrb (H.machine host.now) u }
    requires down { (u : ℕ) → u < urbs → (held_of (known_in H.known H.Hub.own seat.old).mine u).flags.down ≡ true }
    ensures here { IsSeat (H.machine host.now) (H.is_of host.now) H.known H.Hub.own H.Hub.flags H.Hub.has_room seat.new }
    ensures sound { Sound (H.machine host.now) (known_in H.known H.Hub.own seat.new) }
    ensures up { Grown (known_in H.known H.Hub.own seat.old) (known_in H.known H.Hub.own seat.new) (unflag_entries (known_in H.known H.Hub.own seat.old).number flag.Down (range_with_len 0 urbs)) }
{
    match seat {
        Seat::Own(_) => unreachable!(),
        Seat::Hub(hub) => bring_up_hub(rt, host, hub, urbs),
    }
}
