//! Rejects of a list of URBs, one after another.
ghost use Rattle.std.specs.Prelude.{◌≡◌, ◌<◌, ◌∷◌, [], not, ◌&&◌, if◌then◌else◌, All, true};
ghost use Rattle.usb_machine.specs.declared.event.Event.TheVariants.{Reject};
ghost use Rattle.usb_machine.specs.Calls.{plain_entry};
ghost use Rattle.usb_machine.specs.Fresh.{Grown};
ghost use Rattle.usb_machine.specs.HostCalls.{IsUrb};
ghost use Rattle.usb_machine.specs.Parts.{held_of};
ghost use Rattle.usb_cancel.specs.Flushing.{ids, AreApart};
ghost use Rattle.usb_cancel.specs.Reopening.{rejects_of, withdraws_of, MayRejectAll, AreRejected};

use std::sync::Wait;
use usb_machine::Host;
use usb_types::UrbId;

/// Raises a reject of the URB, where one is held now and none was.
pub(crate) fn raise_if<H: Host, R: Wait>(
    rt: &R,
    host: &H,
    pass: &mut H::Pass,
    urb: UrbId,
    was: bool,
    is: bool,
)
    requires here { H.is_of host.now pass.old }
    requires urb { IsUrb (H.machine host.now) urb.0 }
    requires room { not was && is ≡ true → (held_of (H.known pass.old).mine urb.0).rejects < 255 }
    ensures here { H.is_of host.now pass.new }
    ensures grown { Grown (H.known pass.old) (H.known pass.new) (if not was && is then plain_entry (H.known pass.old).number (Reject urb) ∷ [] else []) }
{
    if !was && is {
        host.reject(rt, pass, urb);
    }
}

/// Raises a reject of each URB, in order.
pub(crate) fn reject_all<H: Host, R: Wait>(rt: &R, host: &H, pass: &mut H::Pass, urbs: &[UrbId])
    requires here { H.is_of host.now pass.old }
    requires urbs { All (λ u. IsUrb (H.machine host.now) u.0) urbs.now }
    requires apart { AreApart (ids urbs.now) }
    requires room { MayRejectAll (H.known pass.old).mine (ids urbs.now) }
    ensures here { H.is_of host.now pass.new }
    ensures grown { Grown (H.known pass.old) (H.known pass.new) (rejects_of (H.known pass.old).number (ids urbs.now)) }
{
    for urb in urbs {
        host.reject(rt, pass, *urb);
    }
}

/// Withdraws a reject of each URB, in order.
pub(crate) fn withdraw_all<H: Host, R: Wait>(rt: &R, host: &H, pass: &mut H::Pass, urbs: &[UrbId])
    requires here { H.is_of host.now pass.old }
    requires urbs { All (λ u. IsUrb (H.machine host.now) u.0) urbs.now }
    requires apart { AreApart (ids urbs.now) }
    requires rejected { AreRejected (H.known pass.old).mine (ids urbs.now) }
    ensures here { H.is_of host.now pass.new }
    ensures grown { Grown (H.known pass.old) (H.known pass.new) (withdraws_of (H.known pass.old).number (ids urbs.now)) }
{
    for urb in urbs {
        host.withdraw(rt, pass, *urb);
    }
}
