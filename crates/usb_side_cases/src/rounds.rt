//! Many calls by one pass: submits of one URB, and kills of it.
ghost use Rattle.std.specs.Prelude.{◌≡◌, true, ℕ, List};
ghost use Rattle.usb_machine.specs.Parts.{keeps};
ghost use Rattle.usb_machine.specs.History.{HasHome};
ghost use Rattle.usb_machine.specs.Shapes.{HasWindow};
ghost use Rattle.usb_machine.specs.HostCalls.{IsUrb};
ghost use Rattle.usb_host_cases.specs.Ran.{MayReject};
ghost use Rattle.usb_side_cases.specs.Rounds.{TakesAll, IsSubmit, IsKill, Times, KilledOut, Made};

use std::alloc::Global;
use std::sync::Wait;
use std::thread;
use usb_cancel::{kill, poison};
use usb_machine::{Host, Transfer};
use usb_types::{Buf, UrbId};

/// A transfer of no bytes.
pub(crate) fn empty(alloc: Global, number: u64) -> Transfer
    ensures window { HasWindow result }
    ensures unmoved { result.actual ≡ 0 }
{
    Transfer {
        setup: None,
        buf: Buf::of(Vec::new(alloc)),
        from: 0,
        len: 0,
        short_not_ok: false,
        actual: 0,
        number,
    }
}

/// Submits the URB so many times, whether it is accepted or not.
pub(crate) fn submit_times<H: Host, R: Wait>(
    rt: &R,
    alloc: Global,
    host: &H,
    mut pass: H::Pass,
    urb: UrbId,
    times: u32,
) -> H::Pass
    requires here { H.is_of host.now pass }
    requires home { HasHome (H.machine host.now) urb.0 }
    requires takes { TakesAll (H.machine host.now) urb.0 }
    ensures here { H.is_of host.now result }
    ensures made { Made (Times (IsSubmit (H.known pass).number urb.0) times) (H.known pass) (H.known result) }
{
    for n in 0..times {
        let _answer = host.submit(rt, &mut pass, urb, empty(alloc, n as u64));
        thread::yield_now();
    }
    pass
}

/// Kills the URB so many times.
fn kill_times<H: Host, R: Wait>(
    rt: &R,
    host: &H,
    mut pass: H::Pass,
    urb: UrbId,
    times: u32,
) -> H::Pass
    requires here { H.is_of host.now pass }
    requires urb { IsUrb (H.machine host.now) urb.0 }
    requires room { MayReject (H.known pass) urb.0 }
    ensures here { H.is_of host.now result }
    ensures made { Made (Times (IsKill (H.known pass).number urb.0) times) (H.known pass) (H.known result) }
    ensures room { MayReject (H.known result) urb.0 }
{
    for _n in 0..times {
        let _rest = kill(rt, host, &mut pass, urb);
        thread::yield_now();
    }
    pass
}

/// Kills the URB so many times, and then poisons it.
pub(crate) fn kill_out<H: Host, R: Wait>(
    rt: &R,
    host: &H,
    pass: H::Pass,
    urb: UrbId,
    times: u32,
) -> H::Pass
    requires here { H.is_of host.now pass }
    requires urb { HasHome (H.machine host.now) urb.0 }
    requires room { MayReject (H.known pass) urb.0 }
    ensures here { H.is_of host.now result }
    ensures made { Made (KilledOut (H.known pass).number urb.0 times) (H.known pass) (H.known result) }
    ensures kept { keeps (H.known result).mine urb.0 ≡ true }
{
    let mut pass = kill_times(rt, host, pass, urb, times);
    let _rest = poison(rt, host, &mut pass, urb);
    pass
}
