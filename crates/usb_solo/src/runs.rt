//! A kill, in one thread.
ghost use Rattle.std.specs.Prelude.{◌<◌};
ghost use Rattle.usb_types.specs.declared.errno.Code.{Code};
ghost use Rattle.usb_machine.specs.Parts.{held_of};
ghost use Rattle.usb_machine.specs.Replay.{machine_for};
ghost use Rattle.usb_machine.specs.Calls.{kill_entries};
ghost use Rattle.usb_machine.specs.Fresh.{Fresh};
ghost use Rattle.usb_machine.specs.HostCalls.{IsUrb, HasClaimed, number_of};
ghost use Rattle.usb_solo.specs.Solo.{IsSolo, known_of};

use crate::solo::{SoloHost, SoloPass};
use std::sync::Wait;
use usb_cancel::kill;
use usb_machine::Transfer;
use usb_types::UrbId;

/// The same kill as over any other host.
pub fn kill_alone<R: Wait>(
    rt: &R,
    host: &SoloHost,
    pass: &mut SoloPass,
    urb: UrbId,
) -> Option<Transfer>
    requires here { IsSolo (machine_for host.now.layout host.now.passes) pass.old }
    requires urb { IsUrb (machine_for host.now.layout host.now.passes) urb.0 }
    requires room { (held_of pass.old.diary urb.0).rejects < 255 }
    ensures here { IsSolo (machine_for host.now.layout host.now.passes) pass.new }
    ensures fresh { (a : Code) × Fresh (machine_for host.now.layout host.now.passes) (known_of pass.old) (known_of pass.new) (kill_entries pass.old.number urb.0 a (number_of result)) }
    ensures claimed { HasClaimed pass.new.diary pass.new.number urb.0 result }
{
    kill(rt, host, pass, urb)
}
