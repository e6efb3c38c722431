//! The steps of a reset, by the hub's token.
ghost use Rattle.std.specs.Prelude.{◌≡◌, ℕ, ◌<◌, ◌⊎◌, List, [], ◌∷◌, None, All, length, get_or};
ghost use Rattle.usb_types.specs.declared.errno.Code.{Code};
ghost use Rattle.usb_machine.specs.declared.event.Event.TheVariants.{Reject, Withdraw};
ghost use Rattle.usb_machine.specs.Calls.{plain_entry};
ghost use Rattle.usb_machine.specs.Parts.{held_of};
ghost use Rattle.usb_machine.specs.Fresh.{Fresh, Grown, Sound, EndsWith};
ghost use Rattle.usb_machine.specs.HostCalls.{IsUrb, HasClaimed};
ghost use Rattle.usb_machine.specs.Tokens.{IsWholeHub};
ghost use Rattle.usb_cancel.specs.Flushing.{ids, AreApart, numbers_of};
ghost use Rattle.usb_cancel.specs.Reopening.{rejects_of, withdraws_of, reopen_entries, MayRejectAll, AreRejected};

use crate::hub::{mark_all, settle_all};
use std::sync::Wait;
use usb_machine::{Host, HubToken, Token, Transfer};
use usb_types::{UrbId, Why};

/// Rejects the URB by the hub's own pass.
fn reject<H: Host, R: Wait>(rt: &R, host: &H, hub: &mut H::Hub, urb: UrbId)
    requires here { H.is_of host.now (H.Hub.own hub.old) }
    requires whole { IsWholeHub (H.machine host.now) (H.known (H.Hub.own hub.old)) (H.Hub.flags hub.old) (H.Hub.has_room hub.old) }
    requires urb { IsUrb (H.machine host.now) urb.0 }
    requires room { (held_of (H.known (H.Hub.own hub.old)).mine urb.0).rejects < 255 }
    ensures here { H.is_of host.now (H.Hub.own hub.new) }
    ensures whole { IsWholeHub (H.machine host.now) (H.known (H.Hub.own hub.new)) (H.Hub.flags hub.new) (H.Hub.has_room hub.new) }
    ensures fresh { Fresh (H.machine host.now) (H.known (H.Hub.own hub.old)) (H.known (H.Hub.own hub.new)) (plain_entry (H.known (H.Hub.own hub.old)).number (Reject urb) ∷ []) }
{
    host.reject(rt, hub.pass(), urb)
}

/// Withdraws a reject of the URB by the hub's own pass.
fn withdraw<H: Host, R: Wait>(rt: &R, host: &H, hub: &mut H::Hub, urb: UrbId)
    requires here { H.is_of host.now (H.Hub.own hub.old) }
    requires whole { IsWholeHub (H.machine host.now) (H.known (H.Hub.own hub.old)) (H.Hub.flags hub.old) (H.Hub.has_room hub.old) }
    requires urb { IsUrb (H.machine host.now) urb.0 }
    requires held { 0 < (held_of (H.known (H.Hub.own hub.old)).mine urb.0).rejects }
    ensures here { H.is_of host.now (H.Hub.own hub.new) }
    ensures whole { IsWholeHub (H.machine host.now) (H.known (H.Hub.own hub.new)) (H.Hub.flags hub.new) (H.Hub.has_room hub.new) }
    ensures fresh { Fresh (H.machine host.now) (H.known (H.Hub.own hub.old)) (H.known (H.Hub.own hub.new)) (plain_entry (H.known (H.Hub.own hub.old)).number (Withdraw urb) ∷ []) }
{
    host.withdraw(rt, hub.pass(), urb)
}

/// Rejects all URBs, in order.
fn reject_all<H: Host, R: Wait>(rt: &R, host: &H, hub: &mut H::Hub, urbs: &[UrbId])
    requires here { H.is_of host.now (H.Hub.own hub.old) }
    requires whole { IsWholeHub (H.machine host.now) (H.known (H.Hub.own hub.old)) (H.Hub.flags hub.old) (H.Hub.has_room hub.old) }
    requires urbs { All (λ u. IsUrb (H.machine host.now) u.0) urbs.now }
    requires apart { AreApart (ids urbs.now) }
    requires room { MayRejectAll (H.known (H.Hub.own hub.old)).mine (ids urbs.now) }
    ensures here { H.is_of host.now (H.Hub.own hub.new) }
    ensures whole { IsWholeHub (H.machine host.now) (H.known (H.Hub.own hub.new)) (H.Hub.flags hub.new) (H.Hub.has_room hub.new) }
    ensures grown { Grown (H.known (H.Hub.own hub.old)) (H.known (H.Hub.own hub.new)) (rejects_of (H.known (H.Hub.own hub.old)).number (ids urbs.now)) }
    ensures rejected { AreRejected (H.known (H.Hub.own hub.new)).mine (ids urbs.now) }
{
    for urb in urbs {
        reject(rt, host, hub, *urb);
    }
}

/// Withdraws a reject of all URBs, in order.
fn withdraw_all<H: Host, R: Wait>(rt: &R, host: &H, hub: &mut H::Hub, urbs: &[UrbId])
    requires here { H.is_of host.now (H.Hub.own hub.old) }
    requires whole { IsWholeHub (H.machine host.now) (H.known (H.Hub.own hub.old)) (H.Hub.flags hub.old) (H.Hub.has_room hub.old) }
    requires urbs { All (λ u. IsUrb (H.machine host.now) u.0) urbs.now }
    requires apart { AreApart (ids urbs.now) }
    requires rejected { AreRejected (H.known (H.Hub.own hub.old)).mine (ids urbs.now) }
    ensures here { H.is_of host.now (H.Hub.own hub.new) }
    ensures whole { IsWholeHub (H.machine host.now) (H.known (H.Hub.own hub.new)) (H.Hub.flags hub.new) (H.Hub.has_room hub.new) }
    ensures grown { Grown (H.known (H.Hub.own hub.old)) (H.known (H.Hub.own hub.new)) (withdraws_of (H.known (H.Hub.own hub.old)).number (ids urbs.now)) }
    ensures last { (urbs.now ≡ []) ⊎ (Sound (H.machine host.now) (H.known (H.Hub.own hub.new)) × EndsWith (H.known (H.Hub.own hub.new)).seen (withdraws_of (H.known (H.Hub.own hub.old)).number (ids urbs.now))) }
{
    for urb in urbs {
        withdraw(rt, host, hub, *urb);
    }
}

/// Rejects all URBs, unlinks all of them, waits for each and claims what rests with it, and then withdraws all rejects.
pub fn reopen<H: Host, R: Wait>(
    rt: &R,
    host: &H,
    hub: &mut H::Hub,
    urbs: &[UrbId],
    rests: &mut [Option<Transfer>],
)
    requires here { H.is_of host.now (H.Hub.own hub.old) }
    requires whole { IsWholeHub (H.machine host.now) (H.known (H.Hub.own hub.old)) (H.Hub.flags hub.old) (H.Hub.has_room hub.old) }
    requires urbs { All (λ u. IsUrb (H.machine host.now) u.0) urbs.now }
    requires apart { AreApart (ids urbs.now) }
    requires free { MayRejectAll (H.known (H.Hub.own hub.old)).mine (ids urbs.now) }
    requires room { length rests.old ≡ length urbs.now }
    ensures here { H.is_of host.now (H.Hub.own hub.new) }
    ensures whole { IsWholeHub (H.machine host.now) (H.known (H.Hub.own hub.new)) (H.Hub.flags hub.new) (H.Hub.has_room hub.new) }
    ensures entries { (answers : List Code) × (length answers ≡ length urbs.now) × Grown (H.known (H.Hub.own hub.old)) (H.known (H.Hub.own hub.new)) (reopen_entries (H.known (H.Hub.own hub.old)).number (ids urbs.now) answers (numbers_of rests.new)) }
    ensures fresh { (urbs.now ≡ []) ⊎ ((answers : List Code) × (length answers ≡ length urbs.now) × Fresh (H.machine host.now) (H.known (H.Hub.own hub.old)) (H.known (H.Hub.own hub.new)) (reopen_entries (H.known (H.Hub.own hub.old)).number (ids urbs.now) answers (numbers_of rests.new))) }
    ensures claimed { (i : ℕ) → i < length urbs.now → HasClaimed (H.known (H.Hub.own hub.new)).seen (H.known (H.Hub.own hub.new)).number (get_or (ids urbs.now) i 0) (get_or rests.new i None) }
{
    reject_all(rt, host, hub, urbs);
    mark_all(rt, host, hub, urbs, Why::Kill);
    settle_all(rt, host, hub, urbs, rests);
    withdraw_all(rt, host, hub, urbs);
}
