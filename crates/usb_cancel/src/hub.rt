//! The steps of a shutdown, by the hub's token.
ghost use Rattle.std.specs.Prelude.{◌≡◌, ℕ, ◌<◌, ◌⊎◌, List, [], ◌∷◌, true, Some, None, All, length, get_or};
ghost use Rattle.usb_types.specs.declared.errno.Code.{Code};
ghost use Rattle.usb_types.specs.declared.errno.Code.TheVariants.{Fault};
ghost use Rattle.usb_machine.specs.declared.event.Event.TheVariants.{Quiet, Claim};
ghost use Rattle.usb_machine.specs.declared.event.Answer.TheVariants.{Number};
ghost use Rattle.usb_machine.specs.Calls.{entry, plain_entry, mark_entry, claim_entries, claims_of, flush_entries};
ghost use Rattle.usb_machine.specs.Parts.{held_of, holds_any, keeps};
ghost use Rattle.usb_machine.specs.Fresh.{Fresh, Grown, Sound, EndsWith};
ghost use Rattle.usb_machine.specs.HostCalls.{IsUrb, HasClaimed, RestedBeforeLast, number_of};
ghost use Rattle.usb_machine.specs.Tokens.{IsWholeHub};
ghost use Rattle.usb_cancel.specs.Stops.{ClaimedSince};
ghost use Rattle.usb_cancel.specs.Flushing.{ids, AreApart, AreUnflagged, AreFlagged, AreHeld, AreKept, Marked, flags_of, numbers_of};

use crate::stops::wait_quiet;
use std::sync::Wait;
use usb_machine::{Host, HubToken, Token, Transfer};
use usb_types::{Errno, Flag, UrbId, Why};

/// Unlinks the URB by the hub's own pass.
fn mark<H: Host, R: Wait>(rt: &R, host: &H, hub: &mut H::Hub, urb: UrbId, why: Why) -> Errno
    requires here { H.is_of host.now (H.Hub.own hub.old) }
    requires whole { IsWholeHub (H.machine host.now) (H.known (H.Hub.own hub.old)) (H.Hub.flags hub.old) (H.Hub.has_room hub.old) }
    requires urb { IsUrb (H.machine host.now) urb.0 }
    ensures here { H.is_of host.now (H.Hub.own hub.new) }
    ensures whole { IsWholeHub (H.machine host.now) (H.known (H.Hub.own hub.new)) (H.Hub.flags hub.new) (H.Hub.has_room hub.new) }
    ensures fresh { Fresh (H.machine host.now) (H.known (H.Hub.own hub.old)) (H.known (H.Hub.own hub.new)) (mark_entry (H.known (H.Hub.own hub.old)).number why urb.0 (Fault result) ∷ []) }
{
    host.unlink(rt, hub.pass(), urb, why)
}

/// Waits until the hub's own pass has seen the URB quiet.
fn see<H: Host, R: Wait>(rt: &R, host: &H, hub: &mut H::Hub, urb: UrbId)
    requires here { H.is_of host.now (H.Hub.own hub.old) }
    requires whole { IsWholeHub (H.machine host.now) (H.known (H.Hub.own hub.old)) (H.Hub.flags hub.old) (H.Hub.has_room hub.old) }
    requires urb { IsUrb (H.machine host.now) urb.0 }
    ensures here { H.is_of host.now (H.Hub.own hub.new) }
    ensures whole { IsWholeHub (H.machine host.now) (H.known (H.Hub.own hub.new)) (H.Hub.flags hub.new) (H.Hub.has_room hub.new) }
    ensures fresh { Fresh (H.machine host.now) (H.known (H.Hub.own hub.old)) (H.known (H.Hub.own hub.new)) (plain_entry (H.known (H.Hub.own hub.old)).number (Quiet urb) ∷ []) }
{
    wait_quiet(rt, host, hub.pass(), urb)
}

/// Claims what rests with the URB, by the hub's own pass.
fn claim<H: Host, R: Wait>(rt: &R, host: &H, hub: &mut H::Hub, urb: UrbId) -> Option<Transfer>
    requires here { H.is_of host.now (H.Hub.own hub.old) }
    requires whole { IsWholeHub (H.machine host.now) (H.known (H.Hub.own hub.old)) (H.Hub.flags hub.old) (H.Hub.has_room hub.old) }
    requires urb { IsUrb (H.machine host.now) urb.0 }
    requires kept { keeps (H.known (H.Hub.own hub.old)).mine urb.0 ≡ true }
    ensures here { H.is_of host.now (H.Hub.own hub.new) }
    ensures whole { IsWholeHub (H.machine host.now) (H.known (H.Hub.own hub.new)) (H.Hub.flags hub.new) (H.Hub.has_room hub.new) }
    ensures fresh { Fresh (H.machine host.now) (H.known (H.Hub.own hub.old)) (H.known (H.Hub.own hub.new)) (entry (H.known (H.Hub.own hub.old)).number (Claim urb) (Number (number_of result)) None ∷ []) }
    ensures rested { RestedBeforeLast (H.known (H.Hub.own hub.new)).seen urb.0 result }
{
    host.claim(rt, hub.pass(), urb)
}

/// Waits until the URB is quiet, and claims what rests with it.
fn settle<H: Host, R: Wait>(rt: &R, host: &H, hub: &mut H::Hub, urb: UrbId) -> Option<Transfer>
    requires here { H.is_of host.now (H.Hub.own hub.old) }
    requires whole { IsWholeHub (H.machine host.now) (H.known (H.Hub.own hub.old)) (H.Hub.flags hub.old) (H.Hub.has_room hub.old) }
    requires urb { IsUrb (H.machine host.now) urb.0 }
    requires held { holds_any (held_of (H.known (H.Hub.own hub.old)).mine urb.0) ≡ true }
    ensures here { H.is_of host.now (H.Hub.own hub.new) }
    ensures whole { IsWholeHub (H.machine host.now) (H.known (H.Hub.own hub.new)) (H.Hub.flags hub.new) (H.Hub.has_room hub.new) }
    ensures fresh { Fresh (H.machine host.now) (H.known (H.Hub.own hub.old)) (H.known (H.Hub.own hub.new)) (claim_entries (H.known (H.Hub.own hub.old)).number urb.0 (number_of result)) }
    ensures since { ClaimedSince (H.known (H.Hub.own hub.old)).seen (H.known (H.Hub.own hub.new)).seen (H.known (H.Hub.own hub.new)).number urb.0 result }
{
    see(rt, host, hub, urb);
    claim(rt, host, hub, urb)
}

/// Sets the flag on all URBs.
pub(crate) fn flag_all<H: Host, R: Wait>(
    rt: &R,
    host: &H,
    hub: &mut H::Hub,
    urbs: &[UrbId],
    flag: Flag,
)
    requires here { H.is_of host.now (H.Hub.own hub.old) }
    requires whole { IsWholeHub (H.machine host.now) (H.known (H.Hub.own hub.old)) (H.Hub.flags hub.old) (H.Hub.has_room hub.old) }
    requires urbs { All (λ u. IsUrb (H.machine host.now) u.0) urbs.now }
    requires apart { AreApart (ids urbs.now) }
    requires unset { AreUnflagged flag (H.known (H.Hub.own hub.old)).mine (ids urbs.now) }
    ensures here { H.is_of host.now (H.Hub.own hub.new) }
    ensures whole { IsWholeHub (H.machine host.now) (H.known (H.Hub.own hub.new)) (H.Hub.flags hub.new) (H.Hub.has_room hub.new) }
    ensures grown { Grown (H.known (H.Hub.own hub.old)) (H.known (H.Hub.own hub.new)) (flags_of (H.known (H.Hub.own hub.old)).number flag (ids urbs.now)) }
    ensures set { AreFlagged flag (H.known (H.Hub.own hub.new)).mine (ids urbs.now) }
{
    for urb in urbs {
        host.flag(rt, hub, *urb, flag);
    }
}

/// Unlinks all URBs, in order.
pub(crate) fn mark_all<H: Host, R: Wait>(
    rt: &R,
    host: &H,
    hub: &mut H::Hub,
    urbs: &[UrbId],
    why: Why,
)
    requires here { H.is_of host.now (H.Hub.own hub.old) }
    requires whole { IsWholeHub (H.machine host.now) (H.known (H.Hub.own hub.old)) (H.Hub.flags hub.old) (H.Hub.has_room hub.old) }
    requires urbs { All (λ u. IsUrb (H.machine host.now) u.0) urbs.now }
    ensures here { H.is_of host.now (H.Hub.own hub.new) }
    ensures whole { IsWholeHub (H.machine host.now) (H.known (H.Hub.own hub.new)) (H.Hub.flags hub.new) (H.Hub.has_room hub.new) }
    ensures marked { Marked why (H.known (H.Hub.own hub.old)) (H.known (H.Hub.own hub.new)) (ids urbs.now) }
    ensures held { (v : ℕ) → held_of (H.known (H.Hub.own hub.new)).mine v ≡ held_of (H.known (H.Hub.own hub.old)).mine v }
{
    for urb in urbs {
        mark(rt, host, hub, *urb, why);
    }
}

/// Waits for each URB, in order, and claims what rests with it.
pub(crate) fn settle_all<H: Host, R: Wait>(
    rt: &R,
    host: &H,
    hub: &mut H::Hub,
    urbs: &[UrbId],
    rests: &mut [Option<Transfer>],
)
    requires here { H.is_of host.now (H.Hub.own hub.old) }
    requires whole { IsWholeHub (H.machine host.now) (H.known (H.Hub.own hub.old)) (H.Hub.flags hub.old) (H.Hub.has_room hub.old) }
    requires urbs { All (λ u. IsUrb (H.machine host.now) u.0) urbs.now }
    requires held { AreHeld (H.known (H.Hub.own hub.old)).mine (ids urbs.now) }
    requires room { length rests.old ≡ length urbs.now }
    ensures here { H.is_of host.now (H.Hub.own hub.new) }
    ensures whole { IsWholeHub (H.machine host.now) (H.known (H.Hub.own hub.new)) (H.Hub.flags hub.new) (H.Hub.has_room hub.new) }
    ensures grown { Grown (H.known (H.Hub.own hub.old)) (H.known (H.Hub.own hub.new)) (claims_of (H.known (H.Hub.own hub.old)).number (ids urbs.now) (numbers_of rests.new)) }
    ensures last { (urbs.now ≡ []) ⊎ (Sound (H.machine host.now) (H.known (H.Hub.own hub.new)) × EndsWith (H.known (H.Hub.own hub.new)).seen (claims_of (H.known (H.Hub.own hub.old)).number (ids urbs.now) (numbers_of rests.new))) }
    ensures kept { AreKept (H.known (H.Hub.own hub.new)).mine (ids urbs.now) }
    ensures since { (i : ℕ) → i < length urbs.now → ClaimedSince (H.known (H.Hub.own hub.old)).seen (H.known (H.Hub.own hub.new)).seen (H.known (H.Hub.own hub.new)).number (get_or (ids urbs.now) i 0) (get_or rests.new i None) }
{
    for i in 0..urbs.len() {
        rests[i] = settle(rt, host, hub, urbs[i]);
    }
}

/// Sets a flag on all URBs, unlinks all of them, and then waits for each and claims what rests with it.
pub fn flush<H: Host, R: Wait>(
    rt: &R,
    host: &H,
    hub: &mut H::Hub,
    urbs: &[UrbId],
    flag: Flag,
    rests: &mut [Option<Transfer>],
)
    requires here { H.is_of host.now (H.Hub.own hub.old) }
    requires whole { IsWholeHub (H.machine host.now) (H.known (H.Hub.own hub.old)) (H.Hub.flags hub.old) (H.Hub.has_room hub.old) }
    requires urbs { All (λ u. IsUrb (H.machine host.now) u.0) urbs.now }
    requires apart { AreApart (ids urbs.now) }
    requires unset { AreUnflagged flag (H.known (H.Hub.own hub.old)).mine (ids urbs.now) }
    requires room { length rests.old ≡ length urbs.now }
    ensures here { H.is_of host.now (H.Hub.own hub.new) }
    ensures whole { IsWholeHub (H.machine host.now) (H.known (H.Hub.own hub.new)) (H.Hub.flags hub.new) (H.Hub.has_room hub.new) }
    ensures entries { (answers : List Code) × (length answers ≡ length urbs.now) × Grown (H.known (H.Hub.own hub.old)) (H.known (H.Hub.own hub.new)) (flush_entries (H.known (H.Hub.own hub.old)).number flag (ids urbs.now) answers (numbers_of rests.new)) }
    ensures fresh { (urbs.now ≡ []) ⊎ ((answers : List Code) × (length answers ≡ length urbs.now) × Fresh (H.machine host.now) (H.known (H.Hub.own hub.old)) (H.known (H.Hub.own hub.new)) (flush_entries (H.known (H.Hub.own hub.old)).number flag (ids urbs.now) answers (numbers_of rests.new))) }
    ensures claimed { (i : ℕ) → i < length urbs.now → HasClaimed (H.known (H.Hub.own hub.new)).seen (H.known (H.Hub.own hub.new)).number (get_or (ids urbs.now) i 0) (get_or rests.new i None) }
    ensures since { (i : ℕ) → i < length urbs.now → ClaimedSince (H.known (H.Hub.own hub.old)).seen (H.known (H.Hub.own hub.new)).seen (H.known (H.Hub.own hub.new)).number (get_or (ids urbs.now) i 0) (get_or rests.new i None) }
    ensures kept { AreKept (H.known (H.Hub.own hub.new)).mine (ids urbs.now) }
{
    flag_all(rt, host, hub, urbs, flag);
    mark_all(rt, host, hub, urbs, Why::Shutdown);
    settle_all(rt, host, hub, urbs, rests);
}
