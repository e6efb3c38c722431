//! Calls that stop one URB: stop, kill and poison.
ghost use Rattle.std.specs.Prelude.{◌≡◌, ◌<◌, [], ◌∷◌, true};
ghost use Rattle.usb_types.specs.declared.errno.Code.{Code};
ghost use Rattle.usb_machine.specs.declared.event.Event.TheVariants.{Quiet};
ghost use Rattle.usb_machine.specs.Parts.{held_of, keeps};
ghost use Rattle.usb_machine.specs.Calls.{plain_entry, kill_entries, poison_entries};
ghost use Rattle.usb_machine.specs.Fresh.{Fresh};
ghost use Rattle.usb_machine.specs.HostCalls.{IsUrb, HasClaimed, number_of};
ghost use Rattle.usb_cancel.specs.Stops.{stop_entries, ClaimedSince};

use std::sync::Wait;
use std::thread;
use usb_machine::{Host, Transfer};
use usb_types::{UrbId, Why};

/// Looks until the URB is quiet, and yields to other threads between two looks.
pub(crate) fn wait_quiet<H: Host, R: Wait>(rt: &R, host: &H, pass: &mut H::Pass, urb: UrbId)
    requires here { H.is_of host.now pass.old }
    requires urb { IsUrb (H.machine host.now) urb.0 }
    ensures here { H.is_of host.now pass.new }
    ensures fresh { Fresh (H.machine host.now) (H.known pass.old) (H.known pass.new) (plain_entry (H.known pass.old).number (Quiet urb) ∷ []) }
{
    for _ in rt.forever() {
        if host.quiet(rt, pass, urb) {
            return;
        }
        thread::yield_now();
    }
    unreachable!()
}

/// Rejects and unlinks the URB, waits until it is quiet, and withdraws the reject.
pub fn stop<H: Host, R: Wait>(rt: &R, host: &H, pass: &mut H::Pass, urb: UrbId)
    requires here { H.is_of host.now pass.old }
    requires urb { IsUrb (H.machine host.now) urb.0 }
    requires room { (held_of (H.known pass.old).mine urb.0).rejects < 255 }
    ensures here { H.is_of host.now pass.new }
    ensures fresh { (a : Code) × Fresh (H.machine host.now) (H.known pass.old) (H.known pass.new) (stop_entries (H.known pass.old).number urb.0 a) }
{
    host.reject(rt, pass, urb);
    host.unlink(rt, pass, urb, Why::Kill);
    wait_quiet(rt, host, pass, urb);
    host.withdraw(rt, pass, urb);
}

/// Rejects and unlinks the URB, waits until it is quiet, and claims what rests with it. The reject stays.
pub fn poison<H: Host, R: Wait>(
    rt: &R,
    host: &H,
    pass: &mut H::Pass,
    urb: UrbId,
) -> Option<Transfer>
    requires here { H.is_of host.now pass.old }
    requires urb { IsUrb (H.machine host.now) urb.0 }
    requires room { (held_of (H.known pass.old).mine urb.0).rejects < 255 }
    ensures here { H.is_of host.now pass.new }
    ensures fresh { (a : Code) × Fresh (H.machine host.now) (H.known pass.old) (H.known pass.new) (poison_entries (H.known pass.old).number urb.0 a (number_of result)) }
    ensures claimed { HasClaimed (H.known pass.new).seen (H.known pass.new).number urb.0 result }
    ensures since { ClaimedSince (H.known pass.old).seen (H.known pass.new).seen (H.known pass.new).number urb.0 result }
    ensures kept { keeps (H.known pass.new).mine urb.0 ≡ true }
{
    host.reject(rt, pass, urb);
    host.unlink(rt, pass, urb, Why::Kill);
    wait_quiet(rt, host, pass, urb);
    host.claim(rt, pass, urb)
}

/// Rejects and unlinks the URB, waits until it is quiet, claims what rests with it, and withdraws the reject.
pub fn kill<H: Host, R: Wait>(rt: &R, host: &H, pass: &mut H::Pass, urb: UrbId) -> Option<Transfer>
    requires here { H.is_of host.now pass.old }
    requires urb { IsUrb (H.machine host.now) urb.0 }
    requires room { (held_of (H.known pass.old).mine urb.0).rejects < 255 }
    ensures here { H.is_of host.now pass.new }
    ensures fresh { (a : Code) × Fresh (H.machine host.now) (H.known pass.old) (H.known pass.new) (kill_entries (H.known pass.old).number urb.0 a (number_of result)) }
    ensures claimed { HasClaimed (H.known pass.new).seen (H.known pass.new).number urb.0 result }
    ensures since { ClaimedSince (H.known pass.old).seen (H.known pass.new).seen (H.known pass.new).number urb.0 result }
{
    let rest = poison(rt, host, pass, urb);
    host.withdraw(rt, pass, urb);
    rest
}
