//! Stops and unlinks of a list of URBs, one after another.
ghost use Rattle.std.specs.Prelude.{◌<◌, All};
ghost use Rattle.usb_types.specs.declared.urb.Why.TheVariants.{Unlink};
ghost use Rattle.usb_machine.specs.HostCalls.{IsUrb};
ghost use Rattle.usb_cancel.specs.Flushing.{ids, Marked};
ghost use Rattle.usb_cancel.specs.Reopening.{MayRejectAll};
ghost use Rattle.usb_anchors.specs.Stopped.{Stopped};

use std::sync::Wait;
use usb_cancel::stop;
use usb_machine::Host;
use usb_types::{UrbId, Why};

/// Stops each URB, in order: it waits until the one is quiet before it goes on to the next.
pub(crate) fn stop_all<H: Host, R: Wait>(rt: &R, host: &H, pass: &mut H::Pass, urbs: &[UrbId])
    requires here { H.is_of host.now pass.old }
    requires urbs { All (λ u. IsUrb (H.machine host.now) u.0) urbs.now }
    requires room { MayRejectAll (H.known pass.old).mine (ids urbs.now) }
    ensures here { H.is_of host.now pass.new }
    ensures stopped { Stopped (H.known pass.old) (H.known pass.new) (ids urbs.now) }
{
    for urb in urbs {
        stop(rt, host, pass, *urb);
    }
}

/// Unlinks each URB, in order.
pub(crate) fn unlink_each<H: Host, R: Wait>(rt: &R, host: &H, pass: &mut H::Pass, urbs: &[UrbId])
    requires here { H.is_of host.now pass.old }
    requires urbs { All (λ u. IsUrb (H.machine host.now) u.0) urbs.now }
    ensures here { H.is_of host.now pass.new }
    ensures unlinked { Marked Unlink (H.known pass.old) (H.known pass.new) (ids urbs.now) }
{
    for urb in urbs {
        host.unlink(rt, pass, *urb, Why::Unlink);
    }
}
