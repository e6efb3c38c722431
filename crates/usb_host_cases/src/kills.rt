//! Kills of one URB in two threads.
ghost use Rattle.std.specs.Prelude.{◌≡◌};
ghost use Rattle.usb_types.specs.declared.errno.Code.{Code};
ghost use Rattle.usb_machine.specs.Calls.{kill_entries};
ghost use Rattle.usb_machine.specs.Fresh.{Grown, Sound, Begins, Known};
ghost use Rattle.usb_machine.specs.HostCalls.{IsUrb, HasClaimed, number_of};
ghost use Rattle.usb_host_cases.specs.Ran.{MayReject, Killed};

use std::sync::Wait;
use std::thread::{Threads, join};
use usb_cancel::kill;
use usb_machine::{Host, Meets, Transfer};
use usb_types::UrbId;

/// A kill by a pass that is handed on.
pub(crate) fn kill_as<H: Host, R: Wait>(
    rt: &R,
    host: &H,
    mut pass: H::Pass,
    urb: UrbId,
) -> (H::Pass, Option<Transfer>)
    requires here { H.is_of host.now pass }
    requires urb { IsUrb (H.machine host.now) urb.0 }
    requires room { MayReject (H.known pass) urb.0 }
    ensures here { H.is_of host.now result.0 }
    ensures killed { Killed (H.machine host.now) urb.0 (H.known pass) (H.known result.0) (number_of result.1) }
    ensures claimed { HasClaimed (H.known result.0).seen (H.known result.0).number urb.0 result.1 }
{
    let rest = kill(rt, host, &mut pass, urb);
    (pass, rest)
}

/// Two kills of one URB, each in a thread of its own.
pub fn kill_both<H: Host + Sync, R: Threads + Wait + Sync>(
    rt: &R,
    host: &H,
    a: H::Pass,
    b: H::Pass,
    urb: UrbId,
) -> ((H::Pass, Option<Transfer>), (H::Pass, Option<Transfer>))
    requires here { H.is_of host.now a × H.is_of host.now b }
    requires urb { IsUrb (H.machine host.now) urb.0 }
    requires room { MayReject (H.known a) urb.0 × MayReject (H.known b) urb.0 }
    ensures here { H.is_of host.now result.0.0 × H.is_of host.now result.1.0 }
    ensures first { Killed (H.machine host.now) urb.0 (H.known a) (H.known result.0.0) (number_of result.0.1) }
    ensures second { Killed (H.machine host.now) urb.0 (H.known b) (H.known result.1.0) (number_of result.1.1) }
{
    join(
        rt,
        || -> (H::Pass, Option<Transfer>)
            requires { H.is_of host.now a × IsUrb (H.machine host.now) urb.0 × MayReject (H.known a) urb.0 }
            ensures { H.is_of host.entry.now result.0 × Killed (H.machine host.entry.now) urb.0 (H.known a) (H.known result.0) (number_of result.1) }
        { kill_as(rt, host, a, urb) },
        || -> (H::Pass, Option<Transfer>)
            requires { H.is_of host.now b × IsUrb (H.machine host.now) urb.0 × MayReject (H.known b) urb.0 }
            ensures { H.is_of host.entry.now result.0 × Killed (H.machine host.entry.now) urb.0 (H.known b) (H.known result.0) (number_of result.1) }
        { kill_as(rt, host, b, urb) },
    )
}

/// Two kills in two threads. Then the first pass learns what the second has seen, so both kills stand in one legal history.
pub fn kill_and_meet<H: Meets + Sync, R: Threads + Wait + Sync>(
    rt: &R,
    host: &H,
    a: H::Pass,
    b: H::Pass,
    urb: UrbId,
) -> ((H::Pass, Option<Transfer>), (H::Pass, Option<Transfer>))
    requires here { H.is_of host.now a × H.is_of host.now b }
    requires urb { IsUrb (H.machine host.now) urb.0 }
    requires room { MayReject (H.known a) urb.0 × MayReject (H.known b) urb.0 }
    ensures first { (c : Code) × Grown (H.known a) (H.known result.0.0) (kill_entries (H.known a).number urb.0 c (number_of result.0.1)) }
    ensures second { (c : Code) × Grown (H.known b) (H.known result.1.0) (kill_entries (H.known b).number urb.0 c (number_of result.1.1)) }
    ensures sound { Sound (H.machine host.now) (H.known result.0.0) }
    ensures met { (q : Known) × Killed (H.machine host.now) urb.0 (H.known b) q (number_of result.1.1) × Begins (H.known result.0.0).seen q.seen }
{
    let ((mut a, x), (mut b, y)) = kill_both(rt, host, a, b, urb);
    host.meet(rt, &mut a, &mut b);
    ((a, x), (b, y))
}
